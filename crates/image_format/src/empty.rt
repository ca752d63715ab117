//! The image of the empty desktop.
ghost use Rattle.std.specs.Prelude.{◌≡◌};
ghost use Rattle.command_table.specs.Versions.{version_number};
ghost use Rattle.image_format.specs.Laws.{empty_bytes};

use crate::forms::has_overlays;
use command_table::Version;

/// The bytes of the empty desktop: the look of what is typed, the log, which is text 0 and has no piece, and a track in
/// each column.
pub const EMPTY_IMAGE: [u8; 30] = [
    0, 15, 64, 0, 0, 0, 1, 0, 0, 0, 0, 0, 0, 0, 0, 0, 0, 0, 0, 0, 0, 0, 0, 0, 0, 1, 0, 1, 0, 0,
];

/// The same in the versions whose columns have one track.
pub const FLAT_EMPTY_IMAGE: [u8; 27] = [
    0, 15, 64, 0, 0, 0, 1, 0, 0, 0, 0, 0, 0, 0, 0, 0, 0, 0, 0, 0, 0, 0, 0, 0, 0, 0, 0,
];

/// The bytes of the empty desktop in a version.
pub fn empty_image_of(version: Version) -> &'static [u8]
    ensures { result.now ≡ empty_bytes (version_number version) }
{
    if has_overlays(version) {
        &EMPTY_IMAGE
    } else {
        &FLAT_EMPTY_IMAGE
    }
}
