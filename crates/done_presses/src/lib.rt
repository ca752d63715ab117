//! What presses have done at the desk, as far as it can be taken back and done again.
//!
//! Presses that changed something are known one after another, each with what it did and the number of its events
//! (`past`): so one undo takes back all of them, a word that was typed letter by letter whole, and what only moved behind
//! it (`kind`). What was taken back is kept, event by event, until something else is posted (`again`).
#![tactic(auto)]

mod again;
mod kind;
mod laws;
mod past;

pub use again::{Again, FIRST_EPOCH, MOST_AGAIN, NextEvent, StorePlace, TakenPress, take_last};
pub use kind::PressKind;
pub use laws::constants_are_defined;
pub use past::{DonePress, MOST_DONE, Past};
