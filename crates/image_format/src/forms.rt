//! The forms that images have by the version of the layout.
ghost use Rattle.std.specs.Prelude.{◌≡◌};
ghost use Rattle.command_table.specs.Versions.{version_number};
ghost use Rattle.image_format.specs.Image.{has_overlays};

use command_table::Version;

/// The first version whose images have overlaid tracks, and ids of two bytes. Before it each column has one track, and
/// an id has one byte.
pub const FIRST_WITH_OVERLAYS: u32 = 3;

/// Whether images of a version have overlaid tracks, and ids of two bytes.
pub fn has_overlays(version: Version) -> bool
    ensures { result ≡ has_overlays (version_number version) }
{
    FIRST_WITH_OVERLAYS <= version.number()
}
