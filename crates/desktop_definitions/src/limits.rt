//! How much a desktop may hold.

use char_file::MOST_CHARACTERS;

/// How many characters the character file may have: those written since `System.Collect` last rewrote it, and those
/// that it kept.
pub const MOST_WRITTEN: u32 = MOST_CHARACTERS;

/// How many characters a desktop may hold at one time, in its texts, its files and both buffers.
pub const MOST_HELD: u32 = 262_144;

/// How many files there may be.
pub const MOST_FILES: u32 = 256;

/// How many bytes the pattern has at most for which texts are searched.
pub const MOST_PATTERN: u32 = 31;

/// How many fonts there are; they are numbered from 0.
pub const FONTS: u8 = 5;

/// How many colours there are; they are numbered from 0.
pub const COLOURS: u8 = 16;

/// The least vertical offset of a character.
pub const LEAST_OFFSET: i8 = -64;

/// The greatest one.
pub const GREATEST_OFFSET: i8 = 63;
