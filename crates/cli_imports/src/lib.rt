//! Files of the host's on their way into a store: which files the words of an order mean (`sources`, `folders`), the names
//! of their documents (`naming`), which of them are no documents (`fitting`) and may be left out (`skipping`), what
//! becomes of the others (`notes`), and how they come, all or none (`importing`), if need be behind a System.Collect
//! (`collecting`). What is refused is said, each on a line. No function has many exits while it owns memory, since such
//! exits are what a proof costs.
#![tactic(auto)]

mod collecting;
mod fitting;
mod folders;
mod importing;
mod naming;
mod notes;
mod skipping;
mod sources;

pub use importing::{Manner, import, import_to_pair};
