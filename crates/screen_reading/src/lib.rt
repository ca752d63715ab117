//! What is seen on a screen, and what a press means by it.
//!
//! Where the caret is seen is in `aim`, and what stands in a row in `along`. The name of a command is read from the
//! screen that was clicked (`called`), and so are those to which the pointer goes by a key (`command_words`). Where a
//! viewer's text stands is in `frames`, and which end of a selection a click keeps in `extended`. The rows in sight follow a
//! cell, and fit the terminal's window (`window`). Nothing here knows a store.
#![tactic(auto)]

mod aim;
mod along;
mod called;
mod command_words;
mod extended;
mod frames;
mod picked;
mod window;

pub use aim::caret_of;
pub use called::{MOST_WORD, called_word, parameter_word, word_from};
pub use command_words::next_command;
pub use extended::kept_end;
pub use frames::{text_rows_in_sight, text_start};
pub use picked::picked_word;
pub use window::{
    LEAST_HEIGHT, LEAST_WIDTH, fitted, followed, height_told, is_low, is_narrow, moved, width_told,
};
