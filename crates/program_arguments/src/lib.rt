//! The words of a command line as `clap` reads them, for each of the programs: a program says in a table which commands
//! it has and what belongs to each, and gets what the words give to the arguments, or why they ask for nothing.
//!
//! What `asked_by` takes and hands out are words and lists of words, so that the types of `clap`, whose destructors cost
//! most of a crate's proof, don't come to the crates above.
#![tactic(auto)]

mod asked;
mod refusal;
mod shape;

pub use asked::{Asked, asked_by};
pub use refusal::{Refusal, words};
pub use shape::{Argument, CommandShape, Kind};
