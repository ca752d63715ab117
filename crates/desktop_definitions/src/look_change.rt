//! What commands set in looks.

use piece_ring::Look;

/// The fields of a look that are to be set, and the look that has them.
#[derive(Clone, Copy, Debug, PartialEq, Eq)]
pub struct LookChange {
    /// Which fields are set: bit 0 the font, bit 1 the colour, bit 2 the vertical offset.
    pub selector: u8,
    /// The look of which these fields are taken.
    pub look: Look,
}
