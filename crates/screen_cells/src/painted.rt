//! A line with its cells as they are painted.
ghost use Rattle.std.specs.Prelude.{◌≡◌, ◌≤◌, length};
ghost use Rattle.text_frames.specs.declared.row.TheConstants.{MOST_COLUMNS};
ghost use Rattle.screen_pictures.specs.Screen.{values};
ghost use Rattle.screen_cells.specs.Shown.{plain_cell};

use crate::putting::put_line;
use crate::strip::{Filled, StripLine};
use screen_pictures::{Cell, Mark};
use std::marker::Model;
use text_frames::MOST_COLUMNS;

/// A line with its cells as a main frame shows them where neither the caret nor a selected character is among them. A
/// clause sees it as the list of what fills its cells, from the left.
#[derive(Drop)]
pub(crate) struct PaintedLine {
    filled: StripLine,
    plain: [Cell; MOST_COLUMNS],
}

impl Model for PaintedLine {
    ghost use Rattle.std.specs.Prelude.{◌≡◌, List};
    ghost use Rattle.text_frames.specs.declared.row.TheConstants.{MOST_COLUMNS};
    ghost use Rattle.text_frames.specs.Row.{ShownCell};
    ghost use Rattle.screen_pictures.specs.Screen.{values};
    ghost use Rattle.screen_cells.specs.Shown.{plain_cell};

    ghost Value = { List ShownCell };

    ghost view = { λ l. l.filled.items };

    ghost invariant = { λ l. l.plain ≡ values MOST_COLUMNS (plain_cell l.filled.items) };
}

impl PaintedLine {
    /// The line that these fill.
    pub(crate) fn new(filled: StripLine) -> Self
        ensures { result ≡ filled.items }
    {
        let plain = plain_cells(filled.as_slice());
        PaintedLine { filled, plain }
    }

    /// What fills its cells, from the left.
    pub(crate) fn filled(&self) -> &[Filled]
        ensures { result.now ≡ self.now }
    {
        self.filled.as_slice()
    }

    /// Puts its cells as they are painted.
    pub(crate) fn put(&self, cells: &mut [Cell])
        requires { length cells.old ≤ MOST_COLUMNS }
        ensures { cells.new ≡ values (length cells.old) (plain_cell self.now) }
    {
        let count = cells.len();
        cells.copy_from_slice(&self.plain[..count]);
    }
}

/// The cells of a line as they are painted.
fn plain_cells(line: &[Filled]) -> [Cell; MOST_COLUMNS]
    ensures { result ≡ values MOST_COLUMNS (plain_cell line.now) }
{
    let mut cells = [Cell::filler(false); MOST_COLUMNS];
    put_line(&mut cells, b' ', line, Mark::Text);
    cells
}
