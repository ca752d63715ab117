//! What can happen to the desktop.

use crate::bytes::{FileBytes, TypedBytes};
use crate::keys::{Key, Keys};
use crate::name::Name;

/// The number of a Typed event's kind, with which its spelling begins.
pub(crate) const TYPED: u8 = 1;
/// The number of a Key event's kind.
pub(crate) const KEY: u8 = 2;
/// The number of a Mark event's kind.
pub(crate) const MARK: u8 = 3;
/// The number of a Point event's kind.
pub(crate) const POINT: u8 = 4;
/// The number of a File event's kind.
pub(crate) const FILE: u8 = 5;

/// What can happen to the desktop.
///
/// Cells of the display are told by column `x` and row `y`, both counted from 0 at the lower left. An event may name
/// any cell: those outside the display are refused by the desktop, not here.
#[derive(Debug, PartialEq, Eq, Drop)]
pub enum Event {
    /// These bytes are typed at the caret.
    Typed(TypedBytes),
    /// A key with a meaning of its own is pressed.
    Key(Key),
    /// The marker is set to a cell.
    Mark {
        x: u8,
        y: u8,
    },
    /// The mouse is pressed at the cell (`x0`, `y0`) and released at (`x1`, `y1`).
    Point {
        keys: Keys,
        x0: u8,
        y0: u8,
        x1: u8,
        y1: u8,
    },
    /// The file of that name becomes these bytes, or is made. They replace what it had.
    File {
        name: Name,
        bytes: FileBytes,
    },
}

/// A cell by its column and row, as a spelling names it.
#[derive(Clone, Copy, Debug, PartialEq, Eq)]
pub(crate) struct Cell {
    pub x: u8,
    pub y: u8,
}

/// Keys of the mouse, and the cells where they were pressed and released.
#[derive(Clone, Copy, Debug, PartialEq, Eq)]
pub(crate) struct Drag {
    pub keys: Keys,
    pub pressed: Cell,
    pub released: Cell,
}
