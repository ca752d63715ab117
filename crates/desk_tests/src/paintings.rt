//! What a terminal is sent: worked paintings of one row of a screen and the line below.

use byte_streams::CountedWriter;
use screen_drawing::{OutputFault, Painter, Scene};
use screen_pictures::{Cell, Mark};
use std::alloc::Global;
use std::test::Fail;

/// The cell of a text where there is no character.
pub(crate) fn blank() -> Cell {
    Cell {
        mark: Mark::Text,
        ..Cell::filler(false)
    }
}

/// A screen of whose top row the first two cells are these.
pub(crate) fn screen(first: Cell, second: Cell) -> [[Cell; 80]; 32] {
    let mut rows = [[blank(); 80]; 32];
    rows[31][0] = first;
    rows[31][1] = second;
    rows
}

/// What is sent for the top row of a screen and the line below.
fn sent(
    alloc: Global,
    painter: &mut Painter,
    cells: (Cell, Cell),
    below: &[u8],
) -> Result<Vec<u8>, OutputFault> {
    let mut bytes = Vec::new(alloc);
    let scene = Scene {
        screen: &screen(cells.0, cells.1),
        first: 0,
        rows: 1,
        left: 0,
        columns: 80,
        width: 80,
        pointer: None,
        below: Some(below),
    };
    painter.paint(&mut CountedWriter::new(&mut bytes), &scene)?;
    Ok(bytes)
}

/// The first painting makes all cells blank; then a character is typed, gets another look, is deleted, and the line
/// below is written.
#[test]
fn paintings(rt: HostRuntime) -> Result<(), Fail> {
    let letter = Cell {
        ch: b'A',
        ..blank()
    };
    let mut bold = letter;
    bold.look.font = 2;
    bold.look.colour = 1;
    let caret = Cell {
        mark: Mark::Caret,
        ..blank()
    };
    let rows: [(Cell, Cell, &[u8], &[u8]); 6] = [
        (
            blank(),
            blank(),
            b"",
            b"\x1b[?2026h\x1b[?25l\x1b[0;22;23;24;38;5;016;48;5;231m\x1b[2J\x1b[?25l\x1b[?2026l",
        ),
        (
            letter,
            caret,
            b"",
            b"\x1b[?2026h\x1b[?25l\x1b[001;001H\x1b[0;22;23;24;38;5;016;48;5;231mA\x1b[001;002H\x1b[?25h\x1b[?2026l",
        ),
        (
            bold,
            caret,
            b"",
            b"\x1b[?2026h\x1b[?25l\x1b[001;001H\x1b[0;01;23;24;38;5;196;48;5;231mA\x1b[001;002H\x1b[?25h\x1b[?2026l",
        ),
        (
            caret,
            blank(),
            b"",
            b"\x1b[?2026h\x1b[?25l\x1b[001;001H\x1b[0;22;23;24;38;5;016;48;5;231m\x1b[K\x1b[001;001H\x1b[?25h\x1b[?2026l",
        ),
        (
            caret,
            blank(),
            b"no",
            b"\x1b[?2026h\x1b[?25l\x1b[002;001H\x1b[0;22;23;24;38;5;016;48;5;231mno\x1b[001;001H\x1b[?25h\x1b[?2026l",
        ),
        (
            caret,
            blank(),
            b"no",
            b"\x1b[?2026h\x1b[?25l\x1b[001;001H\x1b[?25h\x1b[?2026l",
        ),
    ];
    let mut painter = Painter::new();
    for (first, second, below, wanted) in rows {
        let bytes = sent(rt.alloc(), &mut painter, (first, second), below)?;
        assert!(rt; bytes.as_slice() == wanted);
    }
    Ok(())
}
