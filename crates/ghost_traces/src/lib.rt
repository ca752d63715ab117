//! Traces and counts that contracts alone see. They have no bytes, so nothing bounds how long or how great they are.
#![tactic(auto)]

mod count;
mod trace;

pub use count::Count;
pub use trace::Trace;
