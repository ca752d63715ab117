//! The store as it was when a part of its past began, with the past that it had then.
//!
//! A part begins with a copy of the store, whose head tells of the pages of the part before it. Laid in memory with those
//! pages, it is a store of its own, which keeps the former past (`specs/Former.antt`). So all that is done with a past in
//! its part is done with the former ones, one after another. The store itself is only read.
#![tactic(auto)]

mod former;
mod laying;

pub use former::former_store;
