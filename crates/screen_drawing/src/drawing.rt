//! Drawing a screen.
ghost use Rattle.std.specs.Prelude.{◌≡◌, ◌<◌, ◌≤◌, ◌*◌, length, position, IfSome};
ghost use Rattle.byte_streams.specs.Sent.{Sends};
ghost use Rattle.viewer_tracks.specs.declared.display.TheConstants.{COLUMNS as columns, ROWS as rows};
ghost use Rattle.screen_pictures.specs.Screen.{column_at};
ghost use Rattle.screen_drawing.specs.Drawn.{background, drawing_of, drawn_caret, drawn_cells, drawn_column, drawn_row};
ghost use Rattle.screen_drawing.specs.Drawn.{drawn_rows, drawn_paper, drawn_start, drawn_stretch, drawn_text, heading};
ghost use Rattle.screen_drawing.specs.Drawn.{is_bare, is_in_another_pen, is_ruled, is_start, pen_at, stretch_at};
ghost use Rattle.screen_drawing.specs.Drawn.{are_spaces, stretch_length};
ghost use Rattle.screen_drawing.specs.Strokes.{caret_width, cell_height, cell_width};

use crate::pieces::{Drawing, send_all};
use crate::shapes::{Area, paper_cells, rectangle, text_cells};
use crate::spelling::{CARET_WIDTH, CELL_HEIGHT, CELL_WIDTH, digits};
use crate::{BLACK, Face, Pen, Rule, WHITE, row_of_cells};
use byte_streams::{OutputFault, flush, send};
use screen_pictures::{Cell, Mark};
use std::io::Write;
use viewer_tracks::{COLUMNS, ROWS};

const COLUMN_COUNT: usize = COLUMNS as usize;

const ROW_COUNT: usize = ROWS as usize;

/// The rows of a screen, from the bottom up.
type Rows = [[Cell; COLUMN_COUNT]; ROW_COUNT];

/// The width of the drawing, in units.
const WIDTH: u16 = 720;

/// The height of the drawing, in units.
const HEIGHT: u16 = 608;

/// Writes a screen, given by its rows from the bottom up, as an SVG, and flushes the writer. Its size is 720 by 608
/// units.
///
/// It returns `OutputFault` where a write or the flush fails, and where a write takes no byte; the writer may then have
/// taken a prefix of the SVG. It takes no memory.
pub fn draw<W: Write>(
    writer: &mut W,
    screen: &[[Cell; COLUMN_COUNT]; ROW_COUNT],
) -> Result<(), OutputFault>
    ensures { Sends result (W.contents writer.old) (W.contents writer.new) (drawing_of screen.now) }
{
    draw_heading(writer)?;
    draw_background(writer)?;
    draw_rows(writer, screen)?;
    send(writer, b"</svg>\n")?;
    flush(writer)
}

/// Begins the drawing: its size, the font, and that spaces count, which some programs take from an attribute and others
/// from a style.
fn draw_heading<W: Write>(writer: &mut W) -> Drawing
    ensures { Sends result (W.contents writer.old) (W.contents writer.new) heading }
{
    let width = digits(WIDTH);
    let height = digits(HEIGHT);
    send_all(
        writer,
        &[
            b"<svg xmlns='http://www.w3.org/2000/svg' width='",
            width.as_slice(),
            b"' height='",
            height.as_slice(),
            b"' viewBox='0 0 ",
            width.as_slice(),
            b" ",
            height.as_slice(),
            b"' font-family='DejaVu Sans Mono,Menlo,Consolas,monospace' font-size='15' xml:space='preserve'>\n",
            b"<style>text{white-space:pre}</style>\n",
        ],
    )
}

/// Draws white paper.
fn draw_background<W: Write>(writer: &mut W) -> Drawing
    ensures { Sends result (W.contents writer.old) (W.contents writer.new) background }
{
    let area = Area {
        x: 0,
        y: 0,
        width: WIDTH,
        height: HEIGHT,
    };
    rectangle(writer, area, WHITE)
}

/// Draws the rows, from the top.
fn draw_rows<W: Write>(writer: &mut W, screen: &Rows) -> Drawing
    ensures { Sends result (W.contents writer.old) (W.contents writer.new) (drawn_rows screen.now) }
{
    for y in 0..ROWS {
        draw_row(writer, y, screen)?;
    }
    Ok(())
}

/// Draws a row, given from the top.
#[tactic(auto, unfolding(crate::specs::Drawn::drawn_row))]
fn draw_row<W: Write>(writer: &mut W, y: u8, screen: &Rows) -> Drawing
    requires { y < rows }
    ensures { Sends result (W.contents writer.old) (W.contents writer.new)
        (drawn_row screen.now y) }
{
    let cells = &screen[usize::from(ROWS - 1 - y)];
    draw_cells(writer, y, cells, &row_of_cells(cells))
}

/// Draws the cells of a row, from the left.
fn draw_cells<W: Write>(
    writer: &mut W,
    y: u8,
    cells: &[Cell; COLUMN_COUNT],
    row: &[Face; COLUMN_COUNT],
) -> Drawing
    ensures { Sends result (W.contents writer.old) (W.contents writer.new)
        (drawn_cells y cells.now row.now) }
{
    for x in 0..COLUMNS {
        draw_column(writer, (x, y), cells, row)?;
    }
    Ok(())
}

/// Draws what there is to draw at a column of a row.
fn draw_column<W: Write>(
    writer: &mut W,
    place: (u8, u8),
    cells: &[Cell; COLUMN_COUNT],
    row: &[Face; COLUMN_COUNT],
) -> Drawing
    requires { place.0 < columns }
    ensures { Sends result (W.contents writer.old) (W.contents writer.new)
        (drawn_column place.1 cells.now row.now place.0) }
{
    draw_start(writer, place, row)?;
    draw_caret(writer, place, mark_at(cells, place.0))
}

/// What is at a column.
fn mark_at(cells: &[Cell; COLUMN_COUNT], x: u8) -> Mark
    requires { x < columns }
    ensures { result ≡ (column_at cells.now x).mark }
{
    cells[usize::from(x)].mark
}

/// Draws the stretch of cells in one pen that begins at a column, if one does.
fn draw_start<W: Write>(writer: &mut W, place: (u8, u8), row: &[Face; COLUMN_COUNT]) -> Drawing
    requires { place.0 < columns }
    ensures { Sends result (W.contents writer.old) (W.contents writer.new)
        (drawn_start place.1 row.now place.0) }
{
    if !is_start(row, place.0) {
        return Ok(());
    }
    draw_stretch(
        writer,
        place,
        stretch_at(row, place.0),
        pen_at(row, place.0),
    )
}

/// The pen at a column.
fn pen_at(row: &[Face; COLUMN_COUNT], x: u8) -> Pen
    requires { x < columns }
    ensures { result ≡ pen_at row.now x }
{
    row[usize::from(x)].pen
}

/// Whether a stretch of cells in one pen begins at a column.
fn is_start(row: &[Face; COLUMN_COUNT], x: u8) -> bool
    requires { x < columns }
    ensures { result ≡ is_start row.now x }
{
    x == 0 || !pen_at(row, x).is_same(pen_at(row, x - 1))
}

/// The cells from a column on that are in one pen.
fn stretch_at(row: &[Face; COLUMN_COUNT], x: u8) -> &[Face]
    requires { x < columns }
    ensures value { result.now ≡ stretch_at row.now x }
    ensures few { length result.now ≤ 80 }
{
    let rest = &row[usize::from(x)..];
    &rest[..stretch_length(rest, pen_at(row, x))]
}

/// How many faces at the beginning are in the pen.
fn stretch_length(faces: &[Face], pen: Pen) -> usize
    ensures value { result ≡ stretch_length pen faces.now }
    ensures within { result ≤ length faces.now }
{
    other_pen(faces, pen).unwrap_or(faces.len())
}

/// Where the first face in another pen stands.
fn other_pen(faces: &[Face], pen: Pen) -> Option<usize>
    ensures first { result ≡ position (is_in_another_pen pen) faces.now }
    ensures within { IfSome result (λ at. at < length faces.now) }
{
    faces.iter().position(|face| !face.pen.is_same(pen))
}

/// Draws cells of one pen from a column on: their paper where it isn't white, and their text where there is one.
fn draw_stretch<W: Write>(writer: &mut W, place: (u8, u8), faces: &[Face], pen: Pen) -> Drawing
    requires { length faces.now ≤ 80 }
    ensures { Sends result (W.contents writer.old) (W.contents writer.new)
        (drawn_stretch place.0 place.1 faces.now pen) }
{
    draw_paper(writer, place, faces.len() as u8, pen.paper)?;
    draw_text(writer, place, faces, pen)
}

/// Draws the background of cells, if it isn't white.
fn draw_paper<W: Write>(writer: &mut W, place: (u8, u8), columns: u8, paper: u8) -> Drawing
    ensures { Sends result (W.contents writer.old) (W.contents writer.new)
        (drawn_paper place.0 place.1 columns paper) }
{
    if paper == WHITE {
        return Ok(());
    }
    paper_cells(writer, place, columns, paper)
}

/// Draws the characters of cells of one pen, if there is anything to see of them.
fn draw_text<W: Write>(writer: &mut W, place: (u8, u8), faces: &[Face], pen: Pen) -> Drawing
    requires { length faces.now ≤ 80 }
    ensures { Sends result (W.contents writer.old) (W.contents writer.new)
        (drawn_text place.0 place.1 faces.now pen) }
{
    if is_bare(faces, pen) {
        return Ok(());
    }
    text_cells(writer, place, faces, pen)
}

/// Whether nothing is to be seen of cells but their paper.
fn is_bare(faces: &[Face], pen: Pen) -> bool
    ensures { result ≡ is_bare faces.now pen }
{
    !is_ruled(pen.rule) && are_spaces(faces)
}

/// Whether a line is drawn along the characters.
fn is_ruled(rule: Rule) -> bool
    ensures { result ≡ is_ruled rule }
{
    match rule {
        Rule::Plain => false,
        Rule::Under | Rule::Over => true,
    }
}

/// Whether there are spaces only.
fn are_spaces(faces: &[Face]) -> bool
    ensures { result ≡ are_spaces faces.now }
{
    faces.iter().all(|face| face.byte == b' ')
}

/// Draws the caret, if there is one.
fn draw_caret<W: Write>(writer: &mut W, place: (u8, u8), mark: Mark) -> Drawing
    ensures { Sends result (W.contents writer.old) (W.contents writer.new)
        (drawn_caret place.0 place.1 mark) }
{
    match mark {
        Mark::Caret => rectangle(writer, caret_area(place), BLACK),
        Mark::Marker | Mark::Selected | Mark::Menu | Mark::Bar | Mark::Text | Mark::Filler => Ok(
            (),
        ),
    }
}

/// Where the caret of a cell is.
fn caret_area(place: (u8, u8)) -> Area
    ensures x { result.x ≡ cell_width * place.0 }
    ensures y { result.y ≡ cell_height * place.1 }
    ensures width { result.width ≡ caret_width }
    ensures height { result.height ≡ cell_height }
{
    Area {
        x: CELL_WIDTH * u16::from(place.0),
        y: CELL_HEIGHT * u16::from(place.1),
        width: CARET_WIDTH,
        height: CELL_HEIGHT,
    }
}
