//! A person before a store: what each press comes to, and doing it.
//!
//! What is heard becomes presses (the crate `terminal_presses`), and each press an event that is posted, or something
//! that the sitting does alone (`specs/Sittings.antt`). `do_presses` does presses one after another over a store
//! (`specs/Doing.antt`), and `travel` what is asked for beside them: taking back and doing again (`specs/Travels.antt`).
//! Which cell an arrow means, and which rows are in sight, is known in `screen_reading`; the task of a press and its events
//! in `press_tasks` and `press_plans`; what was done and what was taken back in `done_presses`; and what the line below says
//! in `status_line`.
//!
//! `Desk` of `specs/Desk.antt` is any desk: any functions for what is pressed, what it comes to and what is said. This one
//! is `the_desk` (`specs/TheDesk.antt`). Who serves a person by it shows its scenes too: `terminal_sittings`, `desk_page`.
#![tactic(auto)]

mod asking;
mod called;
mod doing;
mod sitting;
mod tasks;
mod travels;
mod unstored;
mod window;

pub use doing::do_presses;
pub use sitting::{MOST_TURNS, Sitting, Travel};
pub use travels::travel;
pub use unstored::mark;
