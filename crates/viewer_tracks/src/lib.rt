//! Where viewers stand on the display.
//!
//! A column of the display, the user's or the system's, shows a track: viewers over one another with their heights, and
//! over them the filler. A track may be covered by another one, up to eight deep; closing that one's viewers shows it
//! again. `Tracks` holds the tracks of both columns. A clause sees it as the record `Columns` of `specs/Columns.antt`,
//! and what the calls do to a track is said in `specs/Edits.antt`; this crate knows nothing of what a viewer shows.
#![tactic(auto)]

mod display;
mod edge_list;
mod edges;
mod laws;
mod levels;
mod stack;
mod tracks;
mod viewer_id;
mod viewers;

pub use display::{COLUMNS, DEPTH, ROWS, SYSTEM_LEFT, Track};
pub use laws::{
    change_lowers_a_new_track, change_moves_one_border, close_gives_to_the_one_above,
    close_uncovers, edits_keep_columns, edits_leave_the_covered, edits_place_viewers,
    edits_show_viewers, open_takes_rows_of_one_entry, seen_viewers_stand_there,
    shown_viewers_are_placed, shown_viewers_stand_on_top,
};
pub use tracks::{Place, Tracks};
pub use viewer_id::ViewerId;
