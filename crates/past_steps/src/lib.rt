//! Steps back and forth through a past: what was done last, before a moment to which the desktop was turned, or behind it.
//!
//! What pages tell is trusted in nothing: `step_back` does events, or an import, once more in memory, and turns the store
//! only where they lead from the moment before them to what it shows. `specs/Steps.antt` says what it promises over any
//! store.
#![tactic(auto)]

mod ahead;
mod back;
mod index;
mod steps;

pub use ahead::{events_ahead, import_again};
pub use back::step_back;
pub use steps::{Step, events_behind};
