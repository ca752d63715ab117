//! What a cell of a terminal shows.
ghost use Rattle.std.specs.Prelude.{◌≡◌, ◌<◌, ◌≤◌};
ghost use Rattle.screen_drawing.specs.Pen.{blank_face, cell_byte, face_of, same_face, sent_byte};

use crate::pen::{Pen, WHITE};
use screen_pictures::Cell;
use viewer_tracks::COLUMNS;

/// The number of columns of the screen.
pub(crate) const WIDTH: usize = COLUMNS as usize;

/// What a cell of a terminal shows: a byte, drawn with a pen.
#[derive(Clone, Copy, Debug, PartialEq, Eq)]
pub struct Face {
    pub byte: u8,
    pub pen: Pen,
}

impl Face {
    /// What a terminal shows for the cell at a column of the screen.
    pub fn of(cell: &Cell, column: u8) -> Self
        ensures { result ≡ face_of column cell.now }
    {
        Face {
            byte: cell_byte(cell),
            pen: Pen::of(cell, column),
        }
    }

    /// Nothing but a paper.
    pub fn blank(paper: u8) -> Self
        ensures { result ≡ blank_face paper }
    {
        Face {
            byte: b' ',
            pen: Pen::plain(paper),
        }
    }

    /// Whether another face looks the same.
    pub fn is_same(self, other: Face) -> bool
        ensures { result ≡ same_face self other }
    {
        self.byte == other.byte && self.pen.is_same(other.pen)
    }
}

impl Default for Face {
    fn default() -> Face {
        Face::blank(WHITE)
    }
}

/// The byte that a terminal is sent for a cell: its character, or `>` where a line goes on beyond it.
#[tactic(auto, unfolding(crate::specs::Pen::cell_byte))]
fn cell_byte(cell: &Cell) -> u8
    ensures { result ≡ cell_byte cell.now }
{
    if cell.goes_on {
        b'>'
    } else {
        sent_byte(cell.ch)
    }
}

/// The byte that a terminal is sent for one: a question mark for what isn't printable.
#[tactic(auto, unfolding(crate::specs::Pen::sent_byte))]
pub(crate) fn sent_byte(byte: u8) -> u8
    ensures value { result ≡ sent_byte byte }
    ensures printable { 32 ≤ result }
    ensures last { result < 127 }
{
    if byte >= b' ' && byte <= b'~' {
        byte
    } else {
        b'?'
    }
}
