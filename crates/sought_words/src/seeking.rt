//! Words that are sought in a text.
ghost use Rattle.std.specs.Prelude.{◌≡◌, ◌<◌, ◌≤◌, ◌-◌, ◌^◌, length, map, min, IfOk};
ghost use Rattle.desktop_definitions.specs.Change.{bytes_of};
ghost use Rattle.sought_words.specs.Sought.{found_from, next_place, or_around, place_before, place_rows, placed, search_from, sought_from};

use crate::places::{found_at, found_before, going_on, place_line};
use filled_pastes::text_columns;
use piece_ring::Look;
use std::alloc::{AllocError, Global};
use std::vec::Vec;
use viewer_tracks::Place;

/// From where words are sought, and in what.
#[derive(Clone, Copy, Debug, PartialEq, Eq)]
pub struct SearchStart {
    /// The position of the caret.
    pub caret: u32,
    /// How many columns of text its viewer shows.
    pub columns: u8,
    /// How many rows of text it shows.
    pub rows: u8,
    /// They are sought before the caret, and not behind it.
    pub before: bool,
}

/// Where words were found.
#[derive(Clone, Copy, Debug, PartialEq, Eq)]
pub struct Found {
    /// The position behind them.
    pub place: u32,
    /// The line, counted from 0, that comes first where theirs is brought into sight: theirs is in the middle then.
    pub top: u32,
    /// They were found round the end of the text.
    pub around: bool,
}

/// How many rows of text a viewer has that stands there.
fn place_rows(place: Place) -> u8
    ensures { result ≡ place_rows place }
{
    place.top.saturating_sub(place.bottom).saturating_sub(1)
}

/// From where words are sought, where the caret stands there in a viewer that stands there.
pub fn search_from(caret: Option<u32>, place: Option<Place>, before: bool) -> SearchStart
    ensures { result ≡ search_from caret place before }
{
    match place {
        None => SearchStart {
            caret: caret.unwrap_or(0),
            columns: 0,
            rows: 0,
            before,
        },
        Some(place) => SearchStart {
            caret: caret.unwrap_or(0),
            columns: text_columns(place.x),
            rows: place_rows(place),
            before,
        },
    }
}

/// The bytes of characters. It fails for want of memory alone.
pub fn bytes_of(alloc: Global, characters: &[(u8, Look)]) -> Result<Vec<u8>, AllocError>
    ensures { IfOk result (λ bytes. bytes.items ≡ bytes_of characters.now) }
{
    characters
        .iter()
        .map(|character| character.0)
        .collect(alloc)
}

/// A place that was found, or else one that was found round the end of the text.
fn or_around(found: Option<usize>, other: Option<usize>) -> Option<(usize, bool)>
    ensures { result ≡ or_around found other }
{
    match (found, other) {
        (Some(place), _) => Some((place, false)),
        (None, Some(place)) => Some((place, true)),
        (None, None) => None,
    }
}

/// Where the words come next from a place on, round the end of the text once.
fn next_place(bytes: &[u8], words: &[u8], from: usize) -> Option<(usize, bool)>
    requires { 0 < length words.now }
    ensures { result ≡ next_place bytes.now words.now from }
{
    let found = found_at(bytes, words, from);
    if found.is_some() {
        return or_around(found, None);
    }
    or_around(None, found_at(bytes, words, 0))
}

/// Where they come next before a place, round the beginning of the text once.
fn place_before(bytes: &[u8], words: &[u8], end: usize) -> Option<(usize, bool)>
    ensures { result ≡ place_before bytes.now words.now end }
{
    let found = found_before(bytes, words, end);
    if found.is_some() {
        return or_around(found, None);
    }
    or_around(None, found_before(bytes, words, bytes.len()))
}

/// A position, or a line, as far as it is counted.
fn counted(count: usize) -> u32
    ensures { result ≡ min count (2 ^ 32 - 1) }
{
    count.min(u32::MAX as usize) as u32
}

/// The position behind words of that length, and the line that comes first where theirs is brought into sight.
fn placed(bytes: &[u8], length: usize, rows: u8, found: Option<(usize, bool)>) -> Option<Found>
    ensures { result ≡ placed bytes.now length rows found }
{
    let Some((at, around)) = found else {
        return None;
    };
    let place = at.saturating_add(length);
    Some(Found {
        place: counted(place),
        top: counted(place_line(bytes, place).saturating_sub(usize::from(rows / 2))),
        around,
    })
}

/// Where the words come next, from the caret of a viewer on.
fn found_from(bytes: &[u8], words: &[u8], start: SearchStart) -> Option<(usize, bool)>
    requires { 0 < length words.now }
    ensures { result ≡ found_from bytes.now words.now start }
{
    let caret = start.caret as usize;
    if start.before {
        place_before(bytes, words, caret.saturating_sub(words.len()))
    } else {
        next_place(
            bytes,
            words,
            going_on(bytes, usize::from(start.columns), caret),
        )
    }
}

/// Where the words are found from the caret of a viewer on, whose text this is: behind it the place nearest to it, or before
/// it the nearest one that ends before it; and where there is none on that side the first one from the other end. None where
/// they are nowhere. Where the caret stands in the last column, and can go no further in its line, they are sought from the
/// end of the line on.
#[tactic(auto, unfolding(crate::specs::Sought::sought_from))]
pub fn sought(bytes: &[u8], words: &[u8], start: SearchStart) -> Option<Found>
    requires { 0 < length words.now }
    ensures { result ≡ sought_from bytes.now words.now start }
{
    let found = found_from(bytes, words, start);
    placed(bytes, words.len(), start.rows, found)
}
