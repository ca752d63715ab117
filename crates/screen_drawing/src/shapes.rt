//! Rectangles and texts of a drawing.
ghost use Rattle.std.specs.Prelude.{◌≡◌, ◌<◌, ◌≤◌, length};
ghost use Rattle.byte_streams.specs.Sent.{Sends};
ghost use Rattle.screen_drawing.specs.declared.face.Face.{Face as AFace};
ghost use Rattle.screen_drawing.specs.Drawn.{paper_cells, rectangle, rule_text, slant_text, text_cells, weight_text};

use crate::pieces::{Drawing, send_all};
use crate::spelling::{BASELINE, CELL_HEIGHT, CELL_WIDTH, colour_code, digits, escaped};
use crate::{Face, Pen, Rule, Weight};
use std::io::Write;

/// A place and a size on the drawing, in units.
#[derive(Clone, Copy)]
pub(crate) struct Area {
    pub(crate) x: u16,
    pub(crate) y: u16,
    pub(crate) width: u16,
    pub(crate) height: u16,
}

/// Draws a rectangle in a colour of the terminal.
pub(crate) fn rectangle<W: Write>(writer: &mut W, area: Area, colour: u8) -> Drawing
    ensures { Sends result (W.contents writer.old) (W.contents writer.new)
        (rectangle area.x area.y area.width area.height colour) }
{
    send_all(
        writer,
        &[
            b"<rect x='",
            digits(area.x).as_slice(),
            b"' y='",
            digits(area.y).as_slice(),
            b"' width='",
            digits(area.width).as_slice(),
            b"' height='",
            digits(area.height).as_slice(),
            b"' fill='",
            &colour_code(colour),
            b"'/>\n",
        ],
    )
}

/// Draws the background of cells from a column on, in a row from the top.
pub(crate) fn paper_cells<W: Write>(
    writer: &mut W,
    place: (u8, u8),
    columns: u8,
    paper: u8,
) -> Drawing
    ensures { Sends result (W.contents writer.old) (W.contents writer.new)
        (paper_cells place.0 place.1 columns paper) }
{
    let area = Area {
        x: CELL_WIDTH * u16::from(place.0),
        y: CELL_HEIGHT * u16::from(place.1),
        width: CELL_WIDTH * u16::from(columns),
        height: CELL_HEIGHT,
    };
    rectangle(writer, area, paper)
}

/// Draws the characters of cells from a column on, in a row from the top.
pub(crate) fn text_cells<W: Write>(
    writer: &mut W,
    place: (u8, u8),
    faces: &[Face],
    pen: Pen,
) -> Drawing
    requires { length faces.now ≤ 80 }
    ensures { Sends result (W.contents writer.old) (W.contents writer.new)
        (text_cells place.0 place.1 faces.now pen) }
{
    let x = CELL_WIDTH * u16::from(place.0);
    let y = CELL_HEIGHT * u16::from(place.1) + BASELINE;
    let width = CELL_WIDTH * faces.len() as u16;
    let (weight, slant, rule) = style_texts(pen);
    send_all(
        writer,
        &[
            b"<text x='",
            digits(x).as_slice(),
            b"' y='",
            digits(y).as_slice(),
            b"' textLength='",
            digits(width).as_slice(),
            b"' fill='",
            &colour_code(pen.ink),
            b"'",
            weight,
            slant,
            rule,
            b">",
            escaped(faces).as_slice(),
            b"</text>\n",
        ],
    )
}

/// What weight, slant and rule of a pen add to a text.
fn style_texts(pen: Pen) -> (&'static [u8], &'static [u8], &'static [u8])
    ensures weight { result.0.now ≡ weight_text pen.weight }
    ensures slant { result.1.now ≡ slant_text pen.is_italic }
    ensures rule { result.2.now ≡ rule_text pen.rule }
{
    let weight: &[u8] = match pen.weight {
        Weight::Regular => b"",
        Weight::Bold => b" font-weight='bold'",
        Weight::Faint => b" fill-opacity='0.55'",
    };
    let slant: &[u8] = if pen.is_italic {
        b" font-style='italic'"
    } else {
        b""
    };
    let rule: &[u8] = match pen.rule {
        Rule::Plain => b"",
        Rule::Under => b" text-decoration='underline'",
        Rule::Over => b" text-decoration='overline'",
    };
    (weight, slant, rule)
}
