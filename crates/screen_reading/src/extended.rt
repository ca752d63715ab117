//! The end of a selection that stays where a click extends it.
ghost use Rattle.std.specs.Prelude.{◌≡◌, ◌<◌, IfSome};
ghost use Rattle.viewer_tracks.specs.declared.display.TheConstants.{ROWS};
ghost use Rattle.screen_reading.specs.CommandWords.{cell_after, count_of_cells};
ghost use Rattle.screen_reading.specs.Extended.{cell_from_end, cells_behind_last as behind_last};
ghost use Rattle.screen_reading.specs.Extended.{cells_to_first as before_first, distance as distance_of};
ghost use Rattle.screen_reading.specs.Extended.{farther_end as far_end, hides_character as hides};
ghost use Rattle.screen_reading.specs.Extended.{is_in_text as in_text, is_selected_at as selected_at, is_selected_mark};
ghost use Rattle.screen_reading.specs.Extended.{kept_between, kept_end as end_kept, kept_in as kept_of_viewer};
ghost use Rattle.screen_reading.specs.Extended.{shows_selected as selected_seen};

use crate::along::Row;
use crate::command_words::{CELLS, cell_after, cells_before};
use crate::frames::{cell_in, end_at, left_at};
use screen_cells::Screen;
use screen_pictures::Mark;
use viewer_tracks::Place;

/// Whether a cell is one of the text of a viewer that stands there.
fn is_in_text(place: Place, at: (u8, u8)) -> bool
    ensures { result ≡ in_text place at }
{
    let (x, y) = at;
    left_at(place.x) < x
        && x < end_at(place.x)
        && place.bottom <= y
        && u16::from(y) + 1 < u16::from(place.top)
}

/// Whether a character is selected.
fn is_selected_mark(mark: Mark) -> bool
    ensures { result ≡ is_selected_mark mark }
{
    matches!(mark, Mark::Selected)
}

/// Whether a mark hides that a character is selected.
fn hides_character(mark: Mark) -> bool
    ensures { result ≡ hides mark }
{
    matches!(mark, Mark::Caret | Mark::Marker)
}

/// Whether the character at a column of a row is seen as selected: one that is hidden is if the next one is.
fn is_selected_at(row: &Row, x: u8) -> bool
    ensures { result ≡ selected_at row.now x }
{
    let mark = cell_in(row, usize::from(x)).mark;
    let next = cell_in(row, usize::from(x) + 1).mark;
    is_selected_mark(mark) || hides_character(mark) && is_selected_mark(next)
}

/// Whether a cell shows a selected character of the viewer that stands there.
fn shows_selected(place: Place, screen: &Screen, at: (u8, u8)) -> bool
    requires { at.1 < ROWS }
    ensures { result ≡ selected_seen place screen.now at }
{
    let (x, y) = at;
    is_in_text(place, at) && is_selected_at(&screen.rows()[usize::from(y)], x)
}

/// The same of the cell before which there are so many.
fn shows_behind(place: Place, screen: &Screen, count: u16) -> bool
    ensures { result ≡ selected_seen place screen.now (cell_after count) }
{
    shows_selected(place, screen, cell_after(count))
}

/// And of the one behind which there are so many.
fn shows_before(place: Place, screen: &Screen, count: u16) -> bool
    ensures { result ≡ selected_seen place screen.now (cell_from_end count) }
{
    shows_selected(place, screen, cell_after((CELLS - 1).saturating_sub(count)))
}

/// How many cells come before the first one that shows a selected character of the viewer that stands there.
#[tactic(auto, unfolding(crate::specs::Extended::cells_to_first))]
fn cells_to_first(place: Place, screen: &Screen) -> Option<usize>
    ensures value { result ≡ before_first place screen.now }
    ensures within { IfSome result (λ k. k < count_of_cells) }
{
    (0..CELLS).position(|count| shows_behind(place, screen, count))
}

/// How many come behind the last one.
#[tactic(auto, unfolding(crate::specs::Extended::cells_behind_last))]
fn cells_behind_last(place: Place, screen: &Screen) -> Option<usize>
    ensures value { result ≡ behind_last place screen.now }
    ensures within { IfSome result (λ k. k < count_of_cells) }
{
    (0..CELLS).position(|count| shows_before(place, screen, count))
}

/// How far two cells are from one another.
fn distance(one: u16, other: u16) -> u16
    ensures { result ≡ distance_of one other }
{
    one.max(other) - one.min(other)
}

/// Of two ends the one that is farther from a cell, and of two as far the first.
fn farther_end(at: u16, first: u16, last: u16) -> u16
    ensures { result ≡ far_end at first last }
{
    if distance(at, first) < distance(at, last) {
        last
    } else {
        first
    }
}

/// The end that stays of what is selected between two cells, before which and behind which there are so many.
fn kept_between(at: u16, first: Option<usize>, behind: Option<usize>) -> Option<(u8, u8)>
    requires first { IfSome first (λ k. k < count_of_cells) }
    requires behind { IfSome behind (λ k. k < count_of_cells) }
    ensures { result ≡ kept_between at first behind }
{
    let Some(first) = first else {
        return None;
    };
    let Some(behind) = behind else {
        return None;
    };
    let last = CELLS - 1 - behind as u16;
    Some(cell_after(farther_end(at, first as u16, last)))
}

/// The end that stays of what is seen selected in the viewer that stands there.
#[tactic(auto, unfolding(crate::specs::Extended::kept_in))]
fn kept_in(place: Place, at: (u8, u8), screen: &Screen) -> Option<(u8, u8)>
    ensures { result ≡ kept_of_viewer place at screen.now }
{
    let first = cells_to_first(place, screen);
    let behind = cells_behind_last(place, screen);
    kept_between(cells_before(at), first, behind)
}

/// The end that stays of what is seen selected in the text of the viewer that stands there, where a click begins in that text
/// and ends at a cell: the one that is farther from this. None where no viewer stands there, or nothing is selected in it.
#[tactic(auto, unfolding(crate::specs::Extended::kept_end))]
pub fn kept_end(
    place: Option<Place>,
    start: (u8, u8),
    at: (u8, u8),
    screen: &Screen,
) -> Option<(u8, u8)>
    ensures { result ≡ end_kept place start at screen.now }
{
    let Some(place) = place else {
        return None;
    };
    if is_in_text(place, start) {
        kept_in(place, at, screen)
    } else {
        None
    }
}
