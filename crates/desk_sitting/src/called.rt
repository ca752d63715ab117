//! The cell whose word a click of the middle button calls.
ghost use Rattle.std.specs.Prelude.{◌≡◌, ◌≤◌, ◌+◌, ◌-◌, false};
ghost use Rattle.desk_journal.specs.Views.{place_at};
ghost use Rattle.desktop_definitions.specs.Gesture.{clamped};
ghost use Rattle.screen_reading.specs.Frames.{left_at, track_end};
ghost use Rattle.desk_sitting.specs.Called.{called_cell, called_here};

use desk_journal::Store;
use sector_disk::Disk;
use viewer_tracks::{COLUMNS, Place, SYSTEM_LEFT};

/// Where the viewer stands that is seen at a cell.
fn place_seen<D: Disk>(cell: (u8, u8), store: &Store<D>) -> Option<Place>
    requires { store.now.must_reopen ≡ false }
    ensures { result ≡ place_at store.now.desktop cell }
{
    match store.place_at(cell) {
        Ok(place) => place,
        Err(_) => unreachable!(),
    }
}

/// The first column of the track that has a column.
fn left_at(x: u8) -> u8
    ensures value { result ≡ left_at x }
    ensures within { result ≤ SYSTEM_LEFT }
{
    if x < SYSTEM_LEFT { 0 } else { SYSTEM_LEFT }
}

/// The last column of the track that has a column.
fn last_at(x: u8) -> u8
    ensures { result ≡ track_end x - 1 }
{
    if x < SYSTEM_LEFT {
        SYSTEM_LEFT - 1
    } else {
        COLUMNS - 1
    }
}

/// The nearest number from the least to the most one.
fn nearest(least: u8, most: u8, number: u8) -> u8
    ensures { result ≡ clamped least most number }
{
    least.max(number.min(most))
}

/// The cell that is called in a viewer that stands there: the button went down at a cell of it, and up at another cell.
#[tactic(auto, unfolding(crate::specs::Called::called_here))]
fn called_here(place: Place, from: (u8, u8), to: (u8, u8)) -> Option<(u8, u8)>
    ensures { result ≡ called_here place from to }
{
    let left = left_at(place.x);
    let last = last_at(place.x);
    if from.1 == place.top.saturating_sub(1) {
        return Some((nearest(left, last, to.0), from.1));
    }
    if from.0 == left {
        return None;
    }
    let first_row = place.top.saturating_sub(2);
    Some((
        nearest(left + 1, last, to.0),
        nearest(place.bottom, first_row, to.1),
    ))
}

/// The cell whose word is called: the button went down at a cell, and up at another. It is the nearest one to that of the
/// menu, or of the text, in which the button went down. None in a scroll bar, and on the empty display.
#[tactic(auto, unfolding(crate::specs::Called::called_cell))]
pub(crate) fn called_cell<D: Disk>(
    from: (u8, u8),
    to: (u8, u8),
    store: &Store<D>,
) -> Option<(u8, u8)>
    requires { store.now.must_reopen ≡ false }
    ensures { result ≡ called_cell (place_at store.now.desktop from) from to }
{
    match place_seen(from, store) {
        None => None,
        Some(place) => called_here(place, from, to),
    }
}
