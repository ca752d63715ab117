//! Copies of stores in files: a store and what is behind it, sector by sector (`sectors`), into a new file (`copies`) or
//! into memory (`stores`). What is refused is said in one sentence (`sentences`), and on a terminal how far a long call
//! has come (`progress`).
#![tactic(auto)]

mod copies;
mod progress;
mod sectors;
mod sentences;
mod stores;

pub use copies::{backup, copy_to, put_copy, refuse_taken};
pub use progress::Progress;
pub use sectors::{copy_whole, is_whole_copy};
pub use sentences::Stop;
pub use stores::{LockedDisk, LockedStore, WHOLE, store_at, store_in_memory};
