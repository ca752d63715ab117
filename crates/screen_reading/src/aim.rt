//! The cell of the caret.
ghost use Rattle.std.specs.Prelude.{◌≡◌, ◌<◌, length, position, IfSome};
ghost use Rattle.screen_reading.specs.Aims.{caret_cell as place_of_caret, has_caret, is_caret};

use crate::along::Row;
use screen_cells::Screen;
use screen_pictures::Mark;
use viewer_tracks::{COLUMNS, ROWS};

/// The column and the row of the display at which the caret stands: of several the lowest, and there the first.
#[tactic(auto, unfolding(crate::specs::Aims::caret_cell))]
pub fn caret_of(screen: &Screen) -> Option<(u8, u8)>
    ensures value { result ≡ place_of_caret screen.now }
    ensures column { IfSome result (λ at. at.0 < COLUMNS) }
    ensures row { IfSome result (λ at. at.1 < ROWS) }
{
    let rows = screen.rows();
    let y = caret_row(rows)?;
    match caret_column(&rows[y]) {
        None => None,
        Some(x) => Some((x as u8, y as u8)),
    }
}

/// The lowest row that has the caret.
fn caret_row(rows: &[Row]) -> Option<usize>
    ensures value { result ≡ position has_caret rows.now }
    ensures within { IfSome result (λ y. y < length rows.now) }
{
    rows.iter().position(|row| has_caret(row))
}

/// Whether a row has the caret.
fn has_caret(row: &Row) -> bool
    ensures { result ≡ has_caret row.now }
{
    row.iter().any(|cell| is_caret(cell.mark))
}

/// The first column of a row at which the caret stands.
fn caret_column(row: &Row) -> Option<usize>
    ensures value { result ≡ position (λ cell. is_caret cell.mark) row.now }
    ensures within { IfSome result (λ x. x < COLUMNS) }
{
    row.iter().position(|cell| is_caret(cell.mark))
}

/// Whether the caret stands at a cell.
fn is_caret(mark: Mark) -> bool
    ensures { result ≡ is_caret mark }
{
    matches!(mark, Mark::Caret)
}
