//! What stands in a row of the screen, by the kinds of its cells.
ghost use Rattle.std.specs.Prelude.{◌≡◌, ◌<◌, ◌≤◌, length, not, position, IfSome};
ghost use Rattle.screen_pictures.specs.Screen.{column_at};
ghost use Rattle.viewer_tracks.specs.declared.display.TheConstants.{COLUMNS};
ghost use Rattle.screen_reading.specs.Along.{begin_of as first_of_kind, end_of as behind_kind, is_of as of_kind};
ghost use Rattle.screen_reading.specs.Along.{shows_text, last_of as end_of_text, kind_run as run_of};

use event_bytes::is_name_byte;
use screen_pictures::{Cell, Mark};
use viewer_tracks::COLUMNS;

/// A row of the screen, from the left.
pub(crate) type Row = [Cell; COLUMNS as usize];

/// What is told apart of a row's cells.
#[derive(Clone, Copy)]
pub(crate) enum Kind {
    /// A text is shown there.
    Text,
    /// A blank is there.
    Blank,
    /// A byte of a name is there.
    Name,
    /// A period is there.
    Period,
}

/// Whether a cell is of a kind.
#[tactic(auto, unfolding(crate::specs::Along::is_of))]
pub(crate) fn is_of(kind: Kind, cell: Cell) -> bool
    ensures { result ≡ of_kind kind cell }
{
    match kind {
        Kind::Text => shows_text(cell.mark),
        Kind::Blank => cell.ch == b' ',
        Kind::Name => is_name_byte(cell.ch),
        Kind::Period => cell.ch == b'.',
    }
}

/// Whether the cell at a column of a row is of a kind.
fn is_at(kind: Kind, row: &Row, x: usize) -> bool
    requires { x < COLUMNS }
    ensures { result ≡ of_kind kind (column_at row.now x) }
{
    is_of(kind, row[x])
}

/// Whether a text is shown there.
pub(crate) fn shows_text(mark: Mark) -> bool
    ensures { result ≡ shows_text mark }
{
    matches!(
        mark,
        Mark::Caret | Mark::Text | Mark::Selected | Mark::Marker
    )
}

/// How many cells from the first on are of a kind.
fn run(kind: Kind, cells: &[Cell]) -> usize
    ensures value { result ≡ run_of kind cells.now }
    ensures within { result ≤ length cells.now }
{
    match other_kind(kind, cells) {
        None => cells.len(),
        Some(count) => count,
    }
}

/// The place of the first cell that isn't of a kind.
fn other_kind(kind: Kind, cells: &[Cell]) -> Option<usize>
    ensures value { result ≡ position (λ cell. not (of_kind kind cell)) cells.now }
    ensures within { IfSome result (λ at. at < length cells.now) }
{
    cells.iter().position(|cell| !is_of(kind, *cell))
}

/// The column behind those of a kind that stand from a column on.
pub(crate) fn end_of(kind: Kind, row: &Row, x: usize) -> usize
    requires { x ≤ COLUMNS }
    ensures value { result ≡ behind_kind kind row.now x }
    ensures behind { x ≤ result }
    ensures within { result ≤ COLUMNS }
{
    x + run(kind, &row[x..])
}

/// The first column of those of a kind that stand right before a column.
pub(crate) fn begin_of(kind: Kind, row: &Row, x: usize) -> usize
    requires { x ≤ COLUMNS }
    ensures value { result ≡ first_of_kind kind row.now x }
    ensures within { result ≤ x }
{
    let mut first = x;
    while first > 0 && is_at(kind, row, first - 1) {
        first -= 1;
    }
    first
}

/// The last column of the text around a column.
pub(crate) fn last_of(row: &Row, x: usize) -> usize
    requires { x < COLUMNS }
    ensures value { result ≡ end_of_text row.now x }
    ensures within { result < COLUMNS }
{
    x + run(Kind::Text, &row[x + 1..])
}
