//! A person who looks at a past, key by key: which moment is shown, what each key means, and what the line below says.
//!
//! `Looker` is such a person. It knows no terminal and no page: whoever shows the past hands it what is pressed, and shows the
//! moment that it then has in memory (`past_moments`), with its line (`words`). What each key means is in `hand`. The store is
//! only read, unless the person turns it back to the moment that is shown (`specs/Looking.antt`); what the mouse does at a
//! moment is done in memory alone.
#![tactic(auto)]

mod hand;
mod looker;
mod words;

pub use hand::{CONTROL_P, CONTROL_Q, LEAVES, ViewHand, Way, Wish};
pub use looker::{Doing, Looker};
pub use words::{moment_line, push_grouped};
