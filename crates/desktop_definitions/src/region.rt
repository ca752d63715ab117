//! Where a cell of the display lies.

/// Where a cell of the display lies: in a filler, or in a part of the viewer of that id.
#[derive(Clone, Copy, Debug, PartialEq, Eq)]
pub enum Region {
    /// No viewer has the cell.
    Filler,
    /// The top row of a viewer.
    Menu(u16),
    /// The first column below it, the scroll bar.
    Bar(u16),
    /// The cells of the main text.
    Body(u16),
}
