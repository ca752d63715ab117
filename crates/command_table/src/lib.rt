//! The commands: the words that call them, and the parameters that stand after a word.
//!
//! `specs/Commands.antt` has the table of words, `specs/Call.antt` says which word is called at a position, and
//! `specs/Parameters.antt` what the parameters after it are.
#![tactic(auto)]

mod calling;
pub mod codes;
mod command;
mod laws;
mod listing;
mod symbols;
mod valuing;
mod version;

pub use arrayvec::ArrayVec;
pub use calling::called;
pub use char_file::{CharSource, Fault};
pub use command::Command;
pub use event_bytes::Name;
pub use laws::{constants_are_defined, first_names_decide, one_word_each, word_is_longest};
pub use listing::{MOST_NAMES, names};
pub use readers_scanners::Symbol;
pub use symbols::{name_in, symbol_at};
pub use text_core::Text;
pub use valuing::params;
pub use version::{NEWEST, Version};
