//! How long an image may be, and how many viewers it may have.

use viewer_tracks::{DEPTH, ROWS};

/// How many bytes a slot of a store has for an image and the characters before it: 3,200 sectors.
pub const IMAGE_BYTES: u32 = 3_276_800;

/// How many viewers a desktop has at most: one for each row of each track, and the one that was closed last.
pub const MOST_VIEWERS: u32 = 2 * DEPTH as u32 * ROWS as u32 + 1;
