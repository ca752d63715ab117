//! What is typed for a paste where lines are filled: the paste, with ends of lines that keep its words in sight.
//!
//! `poured_at` works it out from a column of the display on, and `word_length` says how much room the first word needs. Nothing
//! of a paste is lost by it, and it stays short (`nothing_is_lost`). `fill_edit` says what is to be done first so that a
//! paragraph is filled: its words stay (`words_stay`). Nothing here knows a store.
#![tactic(auto)]

mod edits;
mod laws;
mod paragraphs;
mod poured;

pub use edits::Edit;
pub use laws::{nothing_is_lost, words_stay};
pub use paragraphs::fill_edit;
pub use poured::{MOST_PASTED, column_then, is_gap, poured_at, text_columns, word_length};
