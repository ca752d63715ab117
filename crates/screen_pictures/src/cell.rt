//! Cells of the screen. Plain data.
ghost use Rattle.std.specs.Prelude.{◌≡◌};
ghost use Rattle.screen_pictures.specs.Mark.{letter, has_letter};
ghost use Rattle.screen_pictures.specs.Picture.{filler_cell};

use piece_ring::{DEFAULT_LOOK, Look};

/// What is at a cell: the marker, a caret or a selected character, the first of these that is there, or else the part
/// of the display that the cell belongs to.
#[derive(Clone, Copy, Debug, PartialEq, Eq)]
pub enum Mark {
    /// The marker, wherever it is.
    Marker,
    /// The caret of a viewer.
    Caret,
    /// A selected character.
    Selected,
    /// The menu row of a viewer.
    Menu,
    /// The scroll bar of a viewer.
    Bar,
    /// The text of a viewer.
    Text,
    /// No viewer.
    Filler,
}

impl Mark {
    /// Whether it has a letter of its own, being more than a part of the display.
    pub fn has_letter(self) -> bool
        ensures { result ≡ has_letter self }
    {
        matches!(self, Mark::Marker | Mark::Caret | Mark::Selected)
    }

    /// What is printed for it: its letter, or a period for a part of the display.
    pub fn letter(self) -> u8
        ensures { result ≡ letter self }
    {
        match self {
            Mark::Marker => b'm',
            Mark::Caret => b'c',
            Mark::Selected => b's',
            Mark::Menu | Mark::Bar | Mark::Text | Mark::Filler => b'.',
        }
    }
}

/// A cell of the screen.
#[derive(Clone, Copy, Debug, PartialEq, Eq)]
pub struct Cell {
    /// The byte of the character that is shown, a space where there is none.
    pub ch: u8,
    /// How it looks.
    pub look: Look,
    /// What is there.
    pub mark: Mark,
    /// Whether the line of a viewer's text goes on beyond it, at the viewer's edge.
    pub goes_on: bool,
}

impl Cell {
    /// A cell of a filler.
    pub fn filler(has_marker: bool) -> Self
        ensures { result ≡ filler_cell has_marker }
    {
        Cell {
            ch: b' ',
            look: DEFAULT_LOOK,
            mark: if has_marker {
                Mark::Marker
            } else {
                Mark::Filler
            },
            goes_on: false,
        }
    }
}
