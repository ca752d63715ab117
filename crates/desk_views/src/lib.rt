//! What a desk shows on the display, what it lists of its viewers, and what it tells before and after a command is
//! called: what that would lose, where a viewer stands, and the last line of the log.
#![tactic(auto)]

mod info;
mod losses;
mod rivals;
mod same_texts;
mod unstored;
mod views;

pub use info::{DeskInfo, LogRow, ShownViewer, desk_info, last_log_line, place_at, shown_viewer};
pub use losses::{Loss, lost_by, taken_viewers_go};
pub use unstored::same_texts_are_equal;
pub use views::{list_column, paint};
