//! How a frame comes to a line.

/// How a frame comes to a line.
#[derive(Clone, Copy, Debug, PartialEq, Eq)]
pub struct Way {
    /// The row of the frame at which the middle button is pressed first, if it is.
    pub share: Option<u8>,
    /// How many lines it then goes down.
    pub lines: u32,
}
