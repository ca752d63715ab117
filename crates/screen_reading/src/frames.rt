//! Where the text of a viewer is seen.
ghost use Rattle.std.specs.Prelude.{◌≡◌, ◌≤◌};
ghost use Rattle.screen_pictures.specs.Screen.{column_at};
ghost use Rattle.screen_reading.specs.Frames.{left_at, track_end, text_rows_in_sight, text_start};

use crate::along::Row;
use screen_pictures::Cell;
use terminal_presses::Sight;
use viewer_tracks::{COLUMNS, Place, SYSTEM_LEFT};

/// The cell of a row in a column, and that of an empty display where the row has none.
pub(crate) fn cell_in(row: &Row, x: usize) -> Cell
    ensures { result ≡ column_at row.now x }
{
    match row.get(x) {
        None => Cell::filler(false),
        Some(cell) => *cell,
    }
}

/// The first column of the track that has a column.
pub(crate) fn left_at(x: u8) -> u8
    ensures value { result ≡ left_at x }
    ensures within { result ≤ SYSTEM_LEFT }
{
    if x < SYSTEM_LEFT { 0 } else { SYSTEM_LEFT }
}

/// The column behind the last one of the track that has a column.
pub(crate) fn end_at(x: u8) -> u8
    ensures value { result ≡ track_end x }
    ensures within { result ≤ COLUMNS }
{
    if x < SYSTEM_LEFT {
        SYSTEM_LEFT
    } else {
        COLUMNS
    }
}

/// The first cell of the text of a viewer that stands there: right of its bar, and below its menu. None where it has no
/// row of text.
#[tactic(auto, unfolding(crate::specs::Frames::text_start))]
pub fn text_start(place: Place) -> Option<(u8, u8)>
    ensures { result ≡ text_start place }
{
    if place.bottom < place.top.saturating_sub(1) {
        Some((left_at(place.x) + 1, place.top - 2))
    } else {
        None
    }
}

/// How many rows are in sight of the text of a viewer that stands there. 0 of no viewer.
#[tactic(auto, unfolding(crate::specs::Frames::text_rows_in_sight))]
pub fn text_rows_in_sight(sight: Sight, place: Option<Place>) -> u8
    ensures { result ≡ text_rows_in_sight sight place }
{
    match place {
        None => 0,
        Some(place) => {
            let end = sight.top() + 1;
            let highest = place.top.saturating_sub(1).min(end);
            highest.saturating_sub(place.bottom.max(end - sight.rows()))
        }
    }
}
