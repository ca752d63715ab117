//! The moments of a past over all its parts that stand, by one number each.
//!
//! The part in use has its moments over the store (`past_moments`), and a former part has its own over the store as it was
//! when the part behind it began (`former_stores`). One part is at hand (`part`); where another moment is asked for, the one
//! that has it comes to hand (`all`). What is said of a moment, in whichever part, is defined in `specs/Parts.antt`. The
//! store is only read.
#![tactic(auto)]

mod all;
mod part;

pub use all::AllMoments;
