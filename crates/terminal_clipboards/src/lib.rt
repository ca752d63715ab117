//! What gives a text to the clipboard of a terminal.
#![tactic(auto)]

mod clips;

pub use clips::{MOST_CLIPPED, clip_of};
