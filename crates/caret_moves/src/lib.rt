//! What is wished of the caret by a key, and the events that do it.
//!
//! A step leads from the caret to a position of the same text: by characters, words, lines and pages, and to the ends of
//! lines and of the text (`specs/Steps.antt`). No event sets the caret to a position, but a click does to that at a cell.
//! So the events for a step are presses in the scroll bar, where the line isn't in sight, and a click. To delete the
//! character behind the caret is to step over it and to press Backspace. A command is called by a click at its word, which
//! is found in the texts (`specs/Calling.antt`). A line is broken by an end of line behind a blank (`specs/Filling.antt`).
//! A stretch is selected or cut by one draw of the right button, between two cells in sight (`specs/Stretches.antt`).
//! `lead` works the events out, and changes nothing; `specs/Leading.antt`
//! has what they leave.
#![tactic(auto)]

mod calling;
mod filling;
mod leading;
mod runs;
mod selecting;
mod steps;
mod wish;

pub use leading::lead;
pub use wish::{CaretCommand, KeyWish, Step, WhyNot};
