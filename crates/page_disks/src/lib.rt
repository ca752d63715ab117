//! The disk of a page, which is in memory and spells its calls, for a host that repeats them on a medium of its own.
//!
//! What is spelled are the writes and syncs that succeeded since the disk was last told to forget, in order. A host that has
//! repeated a front of them has a medium as the disk was at that moment, and one that has repeated all of them has the disk as
//! it is (`repeating_law`). So whatever is promised of what a crash leaves of this disk at any of its moments holds of a medium
//! on which its calls are repeated, each after the one before. The host hands over the sectors of that medium some at a time,
//! and they are loaded.
#![tactic(auto)]

mod disk;
mod laws;
mod loading;

pub use disk::RecordedDisk;
pub use laws::repeating_law;
pub use loading::{blank_disk, loaded_with};
