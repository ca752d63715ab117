//! What keys and mouse buttons do to a desk, but for commands: typing and the keys, the cells of viewers, their scroll
//! bars, and stretches of text that the mouse draws; and which presses in a scroll bar lead to a line.
//!
//! Each entry of the table of gestures, and each key, is one function over a `Desk` with the contract that all have
//! (`Doing.antt` of `desk_core`). Which entry a gesture has is decided in `event_loop`.
//!
//! `stale` tells which texts an event may change, and from which position on, by what is kept beside the texts
//! (`specs/Stale.antt`); `laws` has that it leaves all others, and what stands before that position.
//!
//! No event scrolls to a line. But the left button in a scroll bar takes the line in its row to the top, and the middle
//! one the line at a share of the text; so a few presses lead to any line. `presses_to` and `line_presses` work them out,
//! and change nothing. `specs/Scrolling.antt` has what is wished and which presses lead there, and `proofs/ScrollLaws.antt` that
//! their steps leave the desktop with that line first, and nothing else changed.
#![tactic(auto)]

pub mod bars;
pub mod keys;
mod laws;
mod lines;
pub mod places;
mod presses;
mod stale;
pub mod stretches;
mod way;
mod wish;

pub use laws::{
    other_texts_stay, position_whatever_is_read, stale_whatever_is_read, texts_keep_their_front,
};
pub use lines::{line_above, line_below, lines_in_sight, start_below};
pub use presses::{MOST_PRESSES, line_presses, presses_to};
pub use stale::Stale;
pub use wish::Wish;
