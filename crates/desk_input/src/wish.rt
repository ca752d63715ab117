//! What is wished of a viewer that is scrolled.

/// Which line of its text a viewer is to show first. Lines are counted from the one that it shows first, or from the
/// first line of the text, and a wish that goes past either end of the text means the line there.
#[derive(Clone, Copy, Debug, PartialEq, Eq)]
pub enum Wish {
    /// The line that stands so many lines higher.
    Up(u32),
    /// The line that stands so many lines lower.
    Down(u32),
    /// A page higher: as many lines as the viewer has rows, less one.
    PageUp,
    /// A page lower.
    PageDown,
    /// The line with so many lines above it.
    Line(u32),
}
