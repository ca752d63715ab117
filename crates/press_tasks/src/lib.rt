//! What is left to do of a press that posts events.
//!
//! A press that posts events is a task (`task`). Words are found, and a paragraph is filled, step by step: how far they are
//! is part of the task (`finding`, `refill`). What a task becomes over a desktop is said in `press_plans`.
#![tactic(auto)]

mod finding;
mod laws;
mod refill;
mod task;

pub use finding::{Finding, finding_of};
pub use laws::constants_are_defined;
pub use refill::{
    Refilling, Stroke, after_stroke, edit_place, edit_stroke, one_behind, stroke_event,
};
pub use task::{CellPlace, Filling, MOST_PLANS, Stage, Task, calling_wish, lead_deed, posting};
