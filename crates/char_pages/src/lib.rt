//! Characters of which the first stand on a disk and the others in memory.
//!
//! Characters stay once they are there, until all are exchanged, so those that fill whole sectors can be written once
//! and then be read from the disk. `Pages` is what is in memory of them: those that aren't on the disk, and the sectors
//! that were read last. `Paged` puts it over the disk for the time of a call, and is a source of characters like any
//! other. After an exchange all characters are in memory, until they were written to the disk anew.
#![tactic(auto)]

mod cached;
mod occurrences;
mod paged;
mod pages;
mod part;

pub use occurrences::COUNTED_SECTORS;
pub use paged::Paged;
pub use pages::{CACHED_SECTORS, Pages};
