//! What a press is by those before it.
//!
//! It can be the second click at a cell, or a search behind one that found nothing (`twice`). What is typed where words were
//! found can be typed again in another such place (`replacing`). Nothing here knows a store.
#![tactic(auto)]

mod laws;
mod replacing;
mod twice;

pub use laws::constants_are_defined;
pub use replacing::{MOST_TYPED, Replacing, Typing};
pub use twice::{
    cell_again, cell_clicked, cell_kept, hand_meant, is_nothing, is_of_terminal, still_missed,
};
