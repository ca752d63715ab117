//! Why parameters are refused.

/// The parameter is taken from the selection, and there is none.
pub const NO_SELECTION: u8 = 2;

/// The parameter is a symbol of another kind than the command takes, or a list has no name.
pub const WRONG_SYMBOL: u8 = 3;

/// The parameter is taken from the menu of the viewer at the marker, and there is no viewer.
pub const NO_VIEWER: u8 = 7;
