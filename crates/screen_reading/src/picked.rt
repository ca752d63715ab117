//! The word that a double click picks.
ghost use Rattle.std.specs.Prelude.{◌≡◌, ◌<◌, ◌≤◌};
ghost use Rattle.viewer_tracks.specs.declared.display.TheConstants.{COLUMNS};
ghost use Rattle.screen_reading.specs.Picked.{is_in_word, picked_end, picked_in, picked_word};

use crate::along::{Kind, Row, begin_of, is_of};
use crate::called::{begin_in_track, end_in_track};
use screen_cells::Screen;
use screen_pictures::Cell;
use viewer_tracks::COLUMNS;

/// The first and the last column of the word of a text that is seen at a cell, in the row of that. None where no text is seen
/// there, or no word.
#[tactic(auto, unfolding(crate::specs::Picked::picked_word))]
pub fn picked_word(screen: &Screen, at: (u8, u8)) -> Option<(u8, u8)>
    ensures { result ≡ picked_word screen.now at }
{
    let (x, y) = at;
    match screen.rows().get(usize::from(y)) {
        Some(row) if x < COLUMNS => picked_in(row, usize::from(x)),
        _ => None,
    }
}

/// The first and the last column of the word of a text around a column of a row.
fn picked_in(row: &Row, x: usize) -> Option<(u8, u8)>
    requires { x < COLUMNS }
    ensures { result ≡ picked_in row.now x }
{
    let end = picked_end(row, x);
    if is_in_word(row[x]) && x < end {
        Some((begin_in_track(row, x) as u8, (end - 1) as u8))
    } else {
        None
    }
}

/// The column behind the word around a column: periods at its end are none of it.
fn picked_end(row: &Row, x: usize) -> usize
    requires { x < COLUMNS }
    ensures value { result ≡ picked_end row.now x }
    ensures within { result ≤ COLUMNS }
{
    begin_of(Kind::Period, row, end_in_track(row, x))
}

/// Whether a byte of a name stands in a text there.
fn is_in_word(cell: Cell) -> bool
    ensures { result ≡ is_in_word cell }
{
    is_of(Kind::Text, cell) && is_of(Kind::Name, cell)
}
