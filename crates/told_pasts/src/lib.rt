//! A past as it is told: how far it reaches (`reach`), the store as it was before so many of its last deeds (`back`),
//! and all its deeds in words (`telling`, `replay`), each over the desktop that stood there (`words`). A deed is an event, an
//! import or a turn.
#![tactic(auto)]

mod back;
mod line;
mod reach;
mod replay;
mod telling;
mod words;

pub use back::{Pages, counted_pages, none_where_missing, shown_before, takes_back};
pub use line::Line;
pub use reach::{Reach, reach_of};
pub use telling::{add_lines, told_past};
