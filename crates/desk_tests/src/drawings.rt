//! A screen as a drawing: worked drawings of the first two cells of its top row.

use crate::paintings::{blank, screen};
use screen_drawing::{OutputFault, draw};
use screen_pictures::{Cell, Mark};
use std::alloc::{AllocError, Global};
use std::test::Fail;

/// How each drawing begins: its size, the font, that spaces count, and white paper.
const BEGINNING: &[u8] =
    b"<svg xmlns='http://www.w3.org/2000/svg' width='720' height='608' viewBox='0 0 720 608' \
    font-family='DejaVu Sans Mono,Menlo,Consolas,monospace' font-size='15' \
    xml:space='preserve'>\n\
    <style>text{white-space:pre}</style>\n\
    <rect x='0' y='0' width='720' height='608' fill='#ffffff'/>\n";

/// A character of a text in a look.
fn letter(ch: u8, font: u8, colour: u8, voff: i8) -> Cell {
    let mut cell = Cell { ch, ..blank() };
    cell.look.font = font;
    cell.look.colour = colour;
    cell.look.voff = voff;
    cell
}

/// A character at which something is.
fn marked(ch: u8, mark: Mark) -> Cell {
    Cell {
        ch,
        mark,
        ..blank()
    }
}

/// A cell beyond which a line goes on.
fn at_edge(cell: Cell) -> Cell {
    Cell {
        goes_on: true,
        ..cell
    }
}

/// What is drawn for a screen whose top row begins with these cells.
fn drawn(alloc: Global, first: Cell, second: Cell) -> Result<Vec<u8>, OutputFault> {
    let mut bytes = Vec::new(alloc);
    draw(&mut bytes, &screen(first, second))?;
    Ok(bytes)
}

/// The drawing that has these elements.
fn whole(alloc: Global, elements: &[u8]) -> Result<Vec<u8>, AllocError> {
    let mut bytes = Vec::from_slice(alloc, BEGINNING)?;
    bytes.extend_from_slice(elements)?;
    bytes.extend_from_slice(b"</svg>\n")?;
    Ok(bytes)
}

/// Nothing; fonts, colours and offsets, with what a drawing must escape; each mark; lines that go on.
#[test]
fn drawings(rt: HostRuntime) -> Result<(), Fail> {
    let rows: [(Cell, Cell, &[u8]); 7] = [
        (blank(), blank(), b""),
        (
            letter(b'<', 2, 1, 0),
            letter(b'>', 4, 2, 0),
            b"<text x='0' y='14' textLength='9' fill='#ff0000' font-weight='bold'>&lt;</text>\n\
            <text x='9' y='14' textLength='9' fill='#00ff00' font-weight='bold' font-style='italic'>&gt;</text>\n",
        ),
        (
            letter(b' ', 0, 15, 4),
            letter(b'&', 1, 3, -4),
            b"<text x='0' y='14' textLength='9' fill='#000000' text-decoration='overline'> </text>\n\
            <text x='9' y='14' textLength='9' fill='#0000ff' font-style='italic' \
            text-decoration='underline'>&amp;</text>\n",
        ),
        (
            letter(b'x', 3, 15, 0),
            marked(200, Mark::Bar),
            b"<text x='0' y='14' textLength='9' fill='#000000' fill-opacity='0.55'>x</text>\n\
            <text x='9' y='14' textLength='9' fill='#949494'>?</text>\n",
        ),
        (
            marked(b'A', Mark::Selected),
            marked(b' ', Mark::Caret),
            b"<rect x='0' y='0' width='9' height='19' fill='#afd7ff'/>\n\
            <text x='0' y='14' textLength='9' fill='#000000'>A</text>\n\
            <rect x='9' y='0' width='2' height='19' fill='#000000'/>\n",
        ),
        (
            marked(b'M', Mark::Menu),
            marked(b' ', Mark::Marker),
            b"<rect x='0' y='0' width='9' height='19' fill='#000000'/>\n\
            <text x='0' y='14' textLength='9' fill='#ffffff'>M</text>\n\
            <rect x='9' y='0' width='9' height='19' fill='#d70000'/>\n",
        ),
        (
            at_edge(letter(b'x', 0, 1, 0)),
            at_edge(marked(b'y', Mark::Selected)),
            b"<text x='0' y='14' textLength='9' fill='#949494'>&gt;</text>\n\
            <rect x='9' y='0' width='9' height='19' fill='#afd7ff'/>\n\
            <text x='9' y='14' textLength='9' fill='#949494'>&gt;</text>\n",
        ),
    ];
    for (first, second, elements) in rows {
        let wanted = whole(rt.alloc(), elements)?;
        let bytes = drawn(rt.alloc(), first, second)?;
        assert!(rt; bytes.as_slice() == wanted.as_slice());
    }
    Ok(())
}
