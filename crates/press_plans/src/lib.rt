//! What presses are to do at the desk.
//!
//! A press that posts events is a task (`press_tasks`). Over the desktop that stands there it becomes a plan (`plan`), mostly
//! by what the store tells of its texts, or what the screen shows (`by_screen`): the events, and what is left to do once they
//! are done. What is typed breaks its lines (`filling`), and so does what is pasted (`pouring`). What an event of the hand
//! means at the desk is in `listed`, and what a page of a text does in `paging`.
//!
//! Words are found by a look at the text of the caret (`finding`), and so are the edits that fill its paragraph (`refill`).
//!
//! What is typed where a pattern was found, and can be typed again in another such place, is known beside this
//! (`earlier_presses`), and so is what presses have done (`done_presses`).
#![tactic(auto)]

mod by_screen;
mod filling;
mod finding;
mod laws;
mod listed;
mod over;
mod paging;
mod plan;
mod pouring;
mod refill;

pub use laws::pastes_come_whole;
pub use plan::{Plan, caret_place, plan_of};
