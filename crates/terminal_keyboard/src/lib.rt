//! Keyboards: where bytes come from as a person presses keys, and the presses that they spell.
//!
//! A `Parser` hears a terminal byte by byte, with the quiet whiles between, and says what is pressed (`parser`,
//! `sequence`).
//! A `KeySource` tells what is heard piece by piece, and a piece is a `Hearing`: bytes one after another, to the end of
//! a line at most, or a quiet while. What was heard so far is what the hearings told, in order. A `Keyboard` brings in
//! texts of host files beside that (`keyboard`). A terminal is a source (`terminal`), and for tests a script is a
//! keyboard (`script`). The keyboard of the program `desk` is a terminal with files of the host's (`desk_keyboard`): one
//! that is brought in is heard as if it were pasted (`paste`), so it is typed (`laws`).
#![tactic(auto)]

mod completing;
mod completion;
mod desk_keyboard;
mod hearing;
mod home;
mod keyboard;
mod laws;
mod parser;
mod paste;
mod place;
mod script;
mod sequence;
mod terminal;

pub use completion::Completion;
pub use desk_keyboard::{DeskKeyboard, MOST_BROUGHT};
pub use ghost_traces::{Count, Trace};
pub use hearing::{Hearing, MOST_HEARD};
pub use keyboard::{KeySource, Keyboard, KeyboardEnd};
pub use laws::{
    pastes_are_heard, pieces_do_not_matter, spelled_presses_are_found, texts_are_typed,
};
pub use parser::Parser;
pub use script::ScriptedKeyboard;
pub use terminal::{StandardInput, TerminalInput};
