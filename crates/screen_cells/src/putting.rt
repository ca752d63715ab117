//! Puts what a track shows in a row into its cells.
ghost use Rattle.std.specs.Prelude.{◌≡◌, ◌<◌, ◌≤◌, ℕ, None, false, true, length, slice_get};
ghost use Rattle.text_frames.specs.declared.row.TheConstants.{MOST_COLUMNS};
ghost use Rattle.screen_pictures.specs.Bytes.{shown_byte};
ghost use Rattle.screen_pictures.specs.Picture.{cell_with, is_at, is_edge, is_selected, line_cell, text_cell, with_edge};
ghost use Rattle.screen_pictures.specs.Mark.{mark_of};
ghost use Rattle.screen_pictures.specs.Screen.{column_at, values};
ghost use Rattle.screen_cells.specs.Shown.{plain_cell, strip_cell};
ghost use Rattle.screen_cells.specs.Lines.{kept_cells};

use crate::lines::{Slot, kept_cells};
use crate::strip::{Filled, FrameRow, Strip};
use piece_ring::DEFAULT_LOOK;
use screen_pictures::{Cell, Mark};
use text_frames::FrameSelection;

impl Strip {
    /// Puts it into the cells of its track in a row, where `slot` has the line that it shows.
    pub(crate) fn put(self, slot: &Slot, cells: &mut [Cell])
        requires some { 0 < length cells.old }
        requires fits { length cells.old ≤ MOST_COLUMNS }
        ensures { cells.new ≡ values (length cells.old) (strip_cell self (kept_cells slot.now)) }
    {
        match self {
            Strip::Filler => put_same(cells, Cell::filler(false)),
            Strip::Menu => put_line(cells, b'-', kept_cells(slot), Mark::Menu),
            Strip::Frame(row) => put_row(cells, slot, row),
        }
    }
}

/// Puts a row of a main frame, its bar at the left.
fn put_row(cells: &mut [Cell], slot: &Slot, row: FrameRow)
    requires some { 0 < length cells.old }
    requires fits { length cells.old ≤ MOST_COLUMNS }
    ensures { cells.new ≡ values (length cells.old)
        (strip_cell (Strip.Frame row) (kept_cells slot.now)) }
{
    let (bar, text) = cells.split_at_mut(1);
    put_same(bar, cell_with(b'|', None, Mark::Bar));
    put_text(text, slot, row);
}

/// Puts a row of a main frame beside its bar.
fn put_text(cells: &mut [Cell], slot: &Slot, row: FrameRow)
    requires { length cells.old ≤ MOST_COLUMNS }
    ensures { cells.new ≡ values (length cells.old)
        (λ x. text_cell row.columns (kept_cells slot.now) row.caret row.selection x row.row) }
{
    put_cells(cells, slot, row);
    put_edge(cells, kept_cells(slot), row.columns);
}

/// Puts the line of a row of a main frame: in one go where neither the caret nor a selected character is in it.
fn put_cells(cells: &mut [Cell], slot: &Slot, row: FrameRow)
    requires { length cells.old ≤ MOST_COLUMNS }
    ensures { cells.new ≡ values (length cells.old)
        (λ x. line_cell (kept_cells slot.now) row.caret row.selection x row.row) }
{
    if is_plain(row) {
        put_plain(cells, slot);
    } else {
        put_each(cells, kept_cells(slot), row);
    }
}

/// Puts a row of a main frame beside its bar in which nothing is marked.
fn put_plain(cells: &mut [Cell], slot: &Slot)
    requires { length cells.old ≤ MOST_COLUMNS }
    ensures { cells.new ≡ values (length cells.old) (plain_cell (kept_cells slot.now)) }
{
    match slot {
        None => put_line(cells, b' ', &[], Mark::Text),
        Some(line) => line.cells.put(cells),
    }
}

/// Puts a row of a main frame beside its bar, each cell with its own mark.
fn put_each(cells: &mut [Cell], line: &[Filled], row: FrameRow)
    requires { length cells.old ≤ MOST_COLUMNS }
    ensures { cells.new ≡ values (length cells.old)
        (λ x. line_cell line.now row.caret row.selection x row.row) }
{
    for x in 0..cells.len() {
        cells[x] = line_cell(line, row, x as u8);
    }
}

/// Tells in the last of `w` cells that the line goes on beyond it, where it fills more cells than these.
fn put_edge(cells: &mut [Cell], line: &[Filled], w: u8)
    ensures { cells.new ≡ values (length cells.old)
        (λ x. with_edge (is_edge w line.now x) (column_at cells.old x)) }
{
    let w = usize::from(w);
    if w == 0 || w > cells.len() || w >= line.len() {
        return;
    }
    let last = w - 1;
    cells[last] = at_edge(cells[last]);
}

/// A cell beyond which the line goes on.
fn at_edge(cell: Cell) -> Cell
    ensures { result ≡ with_edge true cell }
{
    Cell {
        goes_on: true,
        ..cell
    }
}

/// Puts a line from the left, and a byte in the default look into the cells past its end.
pub(crate) fn put_line(cells: &mut [Cell], blank: u8, line: &[Filled], mark: Mark)
    ensures { cells.new ≡ values (length cells.old)
        (λ x. cell_with blank (slice_get line.now x) mark) }
{
    for x in 0..cells.len() {
        cells[x] = cell_with(blank, filled(line, x), mark);
    }
}

/// Puts one and the same cell into all.
fn put_same(cells: &mut [Cell], cell: Cell)
    ensures { cells.new ≡ values (length cells.old) (λ x. cell) }
{
    for x in 0..cells.len() {
        cells[x] = cell;
    }
}

/// Whether a row of a main frame has neither the caret nor a selected character.
fn is_plain(row: FrameRow) -> bool
    ensures selection { result ≡ true → row.selection ≡ None }
    ensures caret { result ≡ true → (x : ℕ) → is_at row.caret x row.row ≡ false }
{
    if row.selection.is_some() {
        return false;
    }
    !is_in_row(row.caret, row.row)
}

/// Whether a place is in this row.
fn is_in_row(place: Option<(u8, u8)>, y: u8) -> bool
    ensures { result ≡ false → (x : ℕ) → is_at place x y ≡ false }
{
    match place {
        None => false,
        Some((_, row)) => row == y,
    }
}

/// The cell of the line of a row of a main frame in a column beside its bar.
fn line_cell(line: &[Filled], row: FrameRow, column: u8) -> Cell
    ensures { result ≡ line_cell line.now row.caret row.selection column row.row }
{
    let c = filled(line, usize::from(column));
    let has_caret = is_at(row.caret, column, row.row);
    let is_inside = is_selected(row.selection, c);
    let mark = text_mark(has_caret, is_inside);
    cell_with(b' ', c, mark)
}

/// Whether a place is this column and row.
fn is_at(place: Option<(u8, u8)>, x: u8, y: u8) -> bool
    ensures { result ≡ is_at place x y }
{
    match place {
        None => false,
        Some((column, row)) => column == x && row == y,
    }
}

/// What fills the cell in a column. None past the line's end.
fn filled(line: &[Filled], column: usize) -> Option<Filled>
    ensures { result ≡ slice_get line.now column }
{
    line.get(column).copied()
}

/// The mark of a cell of a text that isn't under the marker.
fn text_mark(has_caret: bool, is_selected: bool) -> Mark
    ensures { result ≡ mark_of false has_caret is_selected Mark.Text }
{
    if has_caret {
        Mark::Caret
    } else if is_selected {
        Mark::Selected
    } else {
        Mark::Text
    }
}

/// Whether what fills a cell is a selected character.
fn is_selected(selection: Option<FrameSelection>, c: Option<Filled>) -> bool
    ensures { result ≡ is_selected selection c }
{
    let Some(selection) = selection else {
        return false;
    };
    let Some((_, _, position)) = c else {
        return false;
    };
    selection.beg <= position && position < selection.end
}

/// A cell with what fills it, or with a byte in the default look.
fn cell_with(blank: u8, c: Option<Filled>, mark: Mark) -> Cell
    ensures { result ≡ cell_with blank c mark }
{
    match c {
        None => Cell {
            ch: blank,
            look: DEFAULT_LOOK,
            mark,
            goes_on: false,
        },
        Some((byte, look, _)) => Cell {
            ch: shown_byte(byte),
            look,
            mark,
            goes_on: false,
        },
    }
}

/// The byte that is shown for one.
#[tactic(auto, unfolding(screen_pictures::specs::Bytes::shown_byte))]
fn shown_byte(byte: u8) -> u8
    ensures { result ≡ shown_byte byte }
{
    if byte == b'\t' {
        b' '
    } else if byte >= b' ' && byte <= b'~' {
        byte
    } else {
        b'?'
    }
}
