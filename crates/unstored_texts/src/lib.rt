//! Texts of viewers that no document has. They are found in a copy of the store in memory: there one viewer after another
//! is closed, and what each close would lose is heard before it. So covered viewers come to sight, too, and of two viewers
//! of one text the one that is closed last has it alone.
#![tactic(auto)]

mod unstored;

pub use unstored::{Fate, Unstored, unstored_in};
