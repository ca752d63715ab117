//! The words of commands that are seen whole, and the next one from a cell on.
ghost use Rattle.std.specs.Prelude.{◌≡◌, ◌<◌, position, IfSome};
ghost use Rattle.std.specs.List.{range_with_len};
ghost use Rattle.screen_reading.specs.CommandWords.{begins_word as no_word_before, begins_command as command_begins};
ghost use Rattle.screen_reading.specs.CommandWords.{cell_after, cell_behind, cells_before};
ghost use Rattle.screen_reading.specs.CommandWords.{count_of_cells, has_command as command_seen};
ghost use Rattle.screen_reading.specs.CommandWords.{is_command_word as is_command, next_command as command_after};

use crate::along::{Kind, Row, end_of};
use crate::called::{MOST_WORD, bytes_seen};
use crate::frames::{cell_in, end_at, left_at};
use command_table::{Command, NEWEST};
use event_bytes::is_name_byte;
use screen_cells::Screen;
use viewer_tracks::{COLUMNS, ROWS};

/// How many cells the display has.
pub(crate) const CELLS: u16 = COLUMNS as u16 * ROWS as u16;

/// Whether no word of the track goes on from before a column.
fn begins_word(row: &Row, x: u8) -> bool
    ensures { result ≡ no_word_before row.now x }
{
    x == left_at(x) || !is_name_byte(cell_in(row, usize::from(x.saturating_sub(1))).ch)
}

/// Whether a word calls a command.
fn is_command(word: &[u8]) -> bool
    ensures { result ≡ is_command word.now }
{
    Command::named(NEWEST, word).is_some()
}

/// Whether a word of a command begins at a column of a row, and is seen whole.
#[tactic(auto, unfolding(crate::specs::CommandWords::begins_command))]
fn begins_command(row: &Row, x: u8) -> bool
    requires { x < COLUMNS }
    ensures { result ≡ command_begins row.now x }
{
    let begin = usize::from(x);
    let end = end_of(Kind::Name, row, begin);
    let word = bytes_seen(&row[begin..end.min(begin + MOST_WORD)]);
    begins_word(row, x) && end < usize::from(end_at(x)) && is_command(word.as_slice())
}

/// How many cells come before one in reading order: the rows from the top, each from the left.
pub(crate) fn cells_before(at: (u8, u8)) -> u16
    ensures { result ≡ cells_before at }
{
    u16::from((ROWS - 1).saturating_sub(at.1)) * u16::from(COLUMNS) + u16::from(at.0)
}

/// The cell before which there are so many.
pub(crate) fn cell_after(count: u16) -> (u8, u8)
    ensures value { result ≡ cell_after count }
    ensures column { result.0 < COLUMNS }
    ensures row { result.1 < ROWS }
{
    let columns = u16::from(COLUMNS);
    let row = u16::from(ROWS - 1).saturating_sub(count / columns);
    ((count % columns) as u8, row as u8)
}

/// The cell that comes so many cells behind the one after a cell, in reading order; after the last one the first comes.
#[tactic(auto, unfolding(crate::specs::CommandWords::cell_behind))]
fn cell_behind(at: (u8, u8), count: u16) -> (u8, u8)
    ensures value { result ≡ cell_behind at count }
    ensures column { result.0 < COLUMNS }
    ensures row { result.1 < ROWS }
{
    let place = u32::from(cells_before(at)) + 1 + u32::from(count);
    cell_after((place % u32::from(CELLS)) as u16)
}

/// Whether a word of a command begins so many cells behind the one after a cell.
fn has_command(at: (u8, u8), screen: &Screen, count: u16) -> bool
    ensures { result ≡ command_seen screen.now (cell_behind at count) }
{
    let (x, y) = cell_behind(at, count);
    begins_command(&screen.rows()[usize::from(y)], x)
}

/// How many cells are between the one after a cell and the first behind it at which a word of a command begins.
fn cells_to_command(at: (u8, u8), screen: &Screen) -> Option<usize>
    ensures value { result ≡ position (λ k. command_seen screen.now (cell_behind at k))
        (range_with_len 0 count_of_cells) }
    ensures within { IfSome result (λ k. k < count_of_cells) }
{
    (0..CELLS).position(|count| has_command(at, screen, count))
}

/// The first cell after this one at which a word of a command begins and is seen whole, in reading order: the rows from
/// the top, each from the left, and the first again after the last. None where no such word is seen.
#[tactic(auto, unfolding(crate::specs::CommandWords::next_command))]
pub fn next_command(at: (u8, u8), screen: &Screen) -> Option<(u8, u8)>
    ensures { result ≡ command_after at screen.now }
{
    match cells_to_command(at, screen) {
        None => None,
        Some(count) => Some(cell_behind(at, count as u16)),
    }
}
