//! Why an event is refused. The numbers are this profile's.

pub use command_table::codes::{NO_SELECTION, NO_VIEWER, WRONG_SYMBOL};

/// The desktop after the event would pass a limit: 4,194,304 characters that count as written, or 262,144 held. Of all
/// refusals this comes last.
pub const FULL: u8 = 6;

/// There is no file of that name, and there are 256 files.
pub const TOO_MANY_FILES: u8 = 8;

/// No viewer has the caret.
pub const NO_CARET: u8 = 1;

/// The word that was clicked is no command.
pub const NO_COMMAND: u8 = 4;

/// There is no file of that name.
pub const NO_FILE: u8 = 5;

/// A point lies outside the display.
pub const OUTSIDE: u8 = 9;

/// What was searched isn't in the text from there on.
pub const NOT_FOUND: u8 = 10;

/// There is no such font, or the number of a colour or an offset is out of range.
pub const BAD_VALUE: u8 = 11;

/// The column of the viewer has as many tracks over one another as it may have.
pub const TOO_DEEP: u8 = 12;

/// A viewer of one row can't be parted.
pub const TOO_LOW: u8 = 13;
