//! The word that is seen at a cell, and the one behind it.
ghost use Rattle.std.specs.Prelude.{◌≡◌, ◌<◌, ◌≤◌, length};
ghost use Rattle.viewer_tracks.specs.declared.display.TheConstants.{COLUMNS};
ghost use Rattle.screen_reading.specs.Called.{bytes_seen, called_word, parameter_word, row_word, row_word_from};
ghost use Rattle.screen_reading.specs.Called.{begin_in_track, word_behind, end_in_track, word_from};

use crate::along::{Kind, Row, begin_of, end_of, last_of};
use arrayvec::ArrayVec;
use screen_cells::Screen;
use screen_pictures::Cell;
use viewer_tracks::{COLUMNS, SYSTEM_LEFT};

/// How many bytes of a word are kept at most: as many as a name has.
pub const MOST_WORD: usize = 31;

/// The column at which the system track begins. No word goes on beyond it.
const EDGE: usize = SYSTEM_LEFT as usize;

/// The word that is seen at the cell in that column and row, or ends right before it, in the cell's track; no byte where
/// there is none.
#[tactic(auto, unfolding(crate::specs::Called::called_word))]
pub fn called_word(screen: &Screen, x: u8, y: u8) -> ArrayVec<u8, MOST_WORD>
    ensures { result.items ≡ called_word screen.now x y }
{
    match screen.rows().get(usize::from(y)) {
        Some(row) if x < COLUMNS => row_word(row, usize::from(x)),
        _ => ArrayVec::new(),
    }
}

/// The first column of the word around a column, or of the one that ends right before it, in the track of the column.
pub(crate) fn begin_in_track(row: &Row, x: usize) -> usize
    requires { x < COLUMNS }
    ensures value { result ≡ begin_in_track row.now x }
    ensures within { result ≤ x }
{
    let begin = begin_of(Kind::Name, row, x);
    if x < EDGE { begin } else { begin.max(EDGE) }
}

/// The column behind the word that stands from a column on, in the track of the column.
pub(crate) fn end_in_track(row: &Row, x: usize) -> usize
    requires { x < COLUMNS }
    ensures value { result ≡ end_in_track row.now x }
    ensures behind { x ≤ result }
    ensures within { result ≤ COLUMNS }
{
    let end = end_of(Kind::Name, row, x);
    if x < EDGE { end.min(EDGE) } else { end }
}

/// The word around a column of a row, or the one that ends right before it.
fn row_word(row: &Row, x: usize) -> ArrayVec<u8, MOST_WORD>
    requires { x < COLUMNS }
    ensures { result.items ≡ row_word row.now x }
{
    let begin = begin_in_track(row, x);
    let end = end_in_track(row, x).min(begin + MOST_WORD);
    bytes_seen(&row[begin..end])
}

/// The word that begins at the cell in that column and row, whatever stands before it; no byte where none does.
#[tactic(auto, unfolding(crate::specs::Called::word_from))]
pub fn word_from(screen: &Screen, x: u8, y: u8) -> ArrayVec<u8, MOST_WORD>
    ensures { result.items ≡ word_from screen.now x y }
{
    match screen.rows().get(usize::from(y)) {
        Some(row) if x < COLUMNS => row_word_from(row, usize::from(x)),
        _ => ArrayVec::new(),
    }
}

/// The word that begins at a column of a row.
fn row_word_from(row: &Row, x: usize) -> ArrayVec<u8, MOST_WORD>
    requires { x < COLUMNS }
    ensures { result.items ≡ row_word_from row.now x }
{
    let end = end_in_track(row, x).min(x + MOST_WORD);
    bytes_seen(&row[x..end])
}

/// What is seen as the first parameter of the word at the cell in that column and row; no byte where no word is.
#[tactic(auto, unfolding(crate::specs::Called::parameter_word))]
pub fn parameter_word(screen: &Screen, x: u8, y: u8) -> ArrayVec<u8, MOST_WORD>
    ensures { result.items ≡ parameter_word screen.now x y }
{
    match screen.rows().get(usize::from(y)) {
        Some(row) if x < COLUMNS => word_behind(row, usize::from(x)),
        _ => ArrayVec::new(),
    }
}

/// The word behind the one around a column, in the same row of a text.
#[tactic(auto, unfolding(crate::specs::Called::word_behind))]
fn word_behind(row: &Row, x: usize) -> ArrayVec<u8, MOST_WORD>
    requires { x < COLUMNS }
    ensures { result.items ≡ word_behind row.now x }
{
    let begin = end_of(Kind::Blank, row, end_in_track(row, x));
    if begin <= last_of(row, x) {
        let end = end_in_track(row, begin).min(begin + MOST_WORD);
        bytes_seen(&row[begin..end])
    } else {
        ArrayVec::new()
    }
}

/// The bytes of a word, which is no longer than what is kept.
pub(crate) fn bytes_seen(cells: &[Cell]) -> ArrayVec<u8, MOST_WORD>
    requires { length cells.now ≤ MOST_WORD }
    ensures { result.items ≡ bytes_seen cells.now }
{
    let mut bytes = ArrayVec::new();
    for cell in cells {
        bytes.push(cell.ch);
    }
    bytes
}
