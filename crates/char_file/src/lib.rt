//! Characters, each at an offset of its own, that are added one after another or exchanged all at once.
//!
//! Texts don't hold their characters: a piece of a text names a stretch of offsets. What stands at an offset stays
//! until all are exchanged, so texts share characters, and an edit copies none (the book's chapter on texts).
#![tactic(auto)]

mod counting;
mod file;
mod source;

pub use counting::count_range;
pub use file::CharFile;
pub use sector_disk::Fault;
pub use source::{CharSource, MOST_CHARACTERS};
pub use std::alloc::AllocError as NoMemory;
