//! A row of a terminal, kept as the cells of which it shows some.
ghost use Rattle.std.specs.Prelude.{◌≡◌, ◌+◌, ◌<◌, ◌≤◌, length, replicate, true};
ghost use Rattle.viewer_tracks.specs.declared.display.TheConstants.{COLUMNS as all_columns};
ghost use Rattle.screen_pictures.specs.Screen.{values};
ghost use Rattle.screen_drawing.specs.Pen.{blank_face};
ghost use Rattle.screen_drawing.specs.Seen.{cells_seen, face_seen, letter_cell};

use crate::face::{Face, WIDTH};
use crate::pen::WHITE;
use crate::row::Row;
use piece_ring::DEFAULT_LOOK;
use screen_pictures::{Cell, Mark};
use std::marker::Model;

/// What a terminal shows in a row: of cells so many from a column on, and beside them nothing. A clause sees it as the list
/// of what is shown, from the left.
#[derive(Drop)]
pub(crate) struct SeenRow {
    cells: [Cell; WIDTH],
    left: u8,
    columns: u8,
    width: u8,
}

impl Model for SeenRow {
    ghost use Rattle.std.specs.Prelude.{◌+◌, ◌≤◌, List};
    ghost use Rattle.viewer_tracks.specs.declared.display.TheConstants.{COLUMNS as all_columns};
    ghost use Rattle.screen_drawing.specs.declared.face.Face.{Face};
    ghost use Rattle.screen_drawing.specs.Seen.{cells_seen};

    ghost Value = { List Face };

    ghost view = { λ r. cells_seen r.left r.columns r.width r.cells };

    ghost invariant = { λ r. (r.left + r.columns ≤ all_columns) × (r.width ≤ all_columns) };
}

impl SeenRow {
    /// A blank row of so many columns.
    pub(crate) fn blank(width: u8) -> Self
        requires { width ≤ all_columns }
        ensures { result ≡ replicate width (blank_face WHITE) }
    {
        SeenRow {
            cells: blank_cells(),
            left: 0,
            columns: 0,
            width,
        }
    }

    /// How many columns it has.
    pub(crate) fn width(&self) -> u8
        ensures { result ≡ length self.now }
    {
        self.width
    }

    /// What its cells show.
    pub(crate) fn faces(&self) -> Row
        ensures { result ≡ self.now }
    {
        seen_faces(&self.cells, self.left, self.columns, self.width)
    }

    /// Whether it was made of these cells, of which so many are shown from the column `left` on.
    pub(crate) fn is_of(&self, cells: &[Cell; WIDTH], left: u8, columns: u8) -> bool
        ensures { result ≡ true → self.now ≡ cells_seen left columns (length self.now) cells.now }
    {
        if self.left != left {
            return false;
        }
        if self.columns != columns {
            return false;
        }
        are_same(&self.cells, cells)
    }

    /// Shows so many of these cells from the column `left` on.
    pub(crate) fn take(&mut self, cells: &[Cell; WIDTH], left: u8, columns: u8)
        requires { left + columns ≤ all_columns }
        ensures { self.new ≡ cells_seen left columns (length self.old) cells.now }
    {
        self.cells = *cells;
        self.left = left;
        self.columns = columns;
    }
}

impl Default for SeenRow {
    fn default() -> SeenRow {
        SeenRow::blank(0)
    }
}

/// Cells of which none is in sight.
fn blank_cells() -> [Cell; WIDTH] {
    [Cell::filler(false); WIDTH]
}

/// What a terminal of so many columns shows of cells, of which so many are in sight from the column `left` on.
fn seen_faces(cells: &[Cell; WIDTH], left: u8, columns: u8, width: u8) -> Row
    requires sight { left + columns ≤ all_columns }
    requires wide { width ≤ all_columns }
    ensures { result ≡ cells_seen left columns width cells.now }
{
    let mut row = Row::new();
    for x in 0..width {
        row.add(seen_face(cells, left, columns, x));
    }
    row
}

/// What it shows at a column.
fn seen_face(cells: &[Cell; WIDTH], left: u8, columns: u8, x: u8) -> Face
    requires { left + columns ≤ all_columns }
    ensures { result ≡ face_seen left columns cells.now x }
{
    if x < columns {
        let column = left + x;
        Face::of(&cells[usize::from(column)], column)
    } else {
        Face::blank(WHITE)
    }
}

/// Whether all cells of two rows are the same.
fn are_same(olds: &[Cell; WIDTH], news: &[Cell; WIDTH]) -> bool
    ensures { result ≡ true → olds.now ≡ news.now }
{
    for x in 0..WIDTH {
        if !is_same(olds[x], news[x]) {
            return false;
        }
    }
    true
}

/// Whether two cells are the same.
fn is_same(old: Cell, new: Cell) -> bool
    ensures { result ≡ true → old ≡ new }
{
    old.ch == new.ch
        && old.look.font == new.look.font
        && old.look.colour == new.look.colour
        && old.look.voff == new.look.voff
        && old.mark == new.mark
        && old.goes_on == new.goes_on
}

/// The cells that show a text.
pub(crate) fn letter_cells(text: &[u8]) -> [Cell; WIDTH]
    ensures { result ≡ values all_columns (letter_cell text.now) }
{
    let mut cells = [Cell::filler(false); WIDTH];
    for x in 0..WIDTH {
        cells[x] = letter_cell(text, x);
    }
    cells
}

/// The cell that shows the byte of a text at a column.
fn letter_cell(text: &[u8], x: usize) -> Cell
    ensures { result ≡ letter_cell text.now x }
{
    Cell {
        ch: text.get(x).copied().unwrap_or(b' '),
        look: DEFAULT_LOOK,
        mark: Mark::Text,
        goes_on: false,
    }
}
