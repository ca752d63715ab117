//! Tracks, from the lowest up.
ghost use Rattle.std.specs.Prelude.{◌≡◌, IfOk, false};
ghost use Rattle.viewer_tracks.specs.declared.display.TheConstants.{ROWS as rows};
ghost use Rattle.command_table.specs.Versions.{version_number};
ghost use Rattle.image_format.specs.Fitting.{FitsEntry, above, FitsTrack, FitsLevel, overlaid, FitsStack};
ghost use Rattle.image_format.specs.Pictures.{entry_of_stretch, track_of_stretches, stack_of_stretches};
ghost use Rattle.image_format.specs.Reading.{raw_entry_at, entry_at, image_track_at, level_at, depth_at};
ghost use Rattle.image_format.specs.Reading.{stack_at};
ghost use Rattle.image_format.specs.Steps.{ReadsItems};
ghost use Rattle.image_format.specs.Streams.{Reads, ReadsFit};
ghost use Rattle.image_format.specs.Image.{InId, has_overlays};

use super::Read;
use super::numbers::byte_from;
use super::viewers::id_from;
use crate::forms::has_overlays;
use crate::{ByteSource, ImageFault, Levels, Stretch, Stretches};
use command_table::Version;
use std::alloc::Global;
use std::vec::Vec;
use viewer_tracks::{DEPTH, ROWS};

/// A viewer of a track, of which nothing is tested.
#[tactic(auto, unfolding(crate::specs::Reading::raw_entry_at))]
fn raw_entry_from<S: ByteSource>(source: &mut S, version: Version) -> Read<Stretch>
    ensures { ReadsFit S.ByteSource entry_of_stretch result (raw_entry_at (version_number version))
        (λ entry. InId (version_number version) entry.viewer) source.old source.new }
{
    let viewer = id_from(source, version)?;
    let height = byte_from(source)?;
    Ok(Stretch { viewer, height })
}

/// A viewer of a track, which has a row, and no more than there are.
#[tactic(auto, unfolding(crate::specs::Reading::entry_at))]
fn entry_from<S: ByteSource>(source: &mut S, version: Version, room: u8) -> Read<Stretch>
    ensures { ReadsFit S.ByteSource entry_of_stretch result (entry_at (version_number version) room)
        (FitsEntry (version_number version) room) source.old source.new }
{
    let stretch = raw_entry_from(source, version)?;
    if 0 < stretch.height && stretch.height <= room {
        Ok(stretch)
    } else {
        Err(ImageFault::Damaged)
    }
}

/// So many viewers of a track, bottom up.
fn many_track<S: ByteSource>(source: &mut S, version: Version, count: u8) -> Read<Stretches>
    ensures { ReadsItems S.ByteSource track_of_stretches result (entry_at (version_number version))
        (FitsEntry (version_number version)) above count rows source.old source.new }
{
    let mut track = Stretches::new();
    let mut room = ROWS;
    for _ in 0..count {
        let stretch = entry_from(source, version, room)?;
        room -= stretch.height;
        track.push(stretch);
    }
    Ok(track)
}

/// A track: its viewers, after their number.
#[tactic(auto, unfolding(crate::specs::Reading::image_track_at))]
fn track_from<S: ByteSource>(source: &mut S, version: Version) -> Read<Stretches>
    ensures { ReadsFit S.ByteSource track_of_stretches result
        (image_track_at (version_number version)) (FitsTrack (version_number version))
        source.old source.new }
{
    let count = byte_from(source)?;
    many_track(source, version, count)
}

/// A track that has so many viewers at least.
#[tactic(auto, unfolding(crate::specs::Reading::level_at))]
fn level_from<S: ByteSource>(source: &mut S, version: Version, least: usize) -> Read<Stretches>
    ensures { ReadsFit S.ByteSource track_of_stretches result
        (level_at (version_number version) least)
        (FitsLevel (version_number version) least) source.old source.new }
{
    let track = track_from(source, version)?;
    if track.len() < least {
        return Err(ImageFault::Damaged);
    }
    Ok(track)
}

/// So many tracks of a column, from the lowest up. Every one but the lowest has a viewer.
fn many_stack<S: ByteSource>(
    alloc: Global,
    source: &mut S,
    version: Version,
    depth: u8,
) -> Read<Levels>
    ensures { ReadsItems S.ByteSource (λ stack. stack_of_stretches stack.items) result
        (level_at (version_number version))
        (FitsLevel (version_number version)) overlaid depth 0 source.old source.new }
{
    let mut stack = Vec::new(alloc);
    let mut least = 0;
    for _ in 0..depth {
        let track = level_from(source, version, least)?;
        least = 1;
        stack.push(track)?;
    }
    Ok(stack)
}

/// How many tracks a column has: one, where the version has no overlays.
#[tactic(auto, unfolding(crate::specs::Reading::depth_at))]
fn depth_from<S: ByteSource>(source: &mut S, version: Version) -> Read<u8>
    ensures reads { Reads S.ByteSource (λ depth. depth) result (depth_at (version_number version))
        source.old source.new }
    ensures few { IfOk result (λ depth. has_overlays (version_number version) ≡ false → depth ≡ 1) }
{
    if has_overlays(version) {
        return byte_from(source);
    }
    Ok(1)
}

/// The tracks of a column, after their number.
#[tactic(auto, unfolding(crate::specs::Reading::stack_at))]
pub(crate) fn stack_from<S: ByteSource>(
    alloc: Global,
    source: &mut S,
    version: Version,
) -> Read<Levels>
    ensures { ReadsFit S.ByteSource (λ stack. stack_of_stretches stack.items) result
        (stack_at (version_number version))
        (FitsStack (version_number version)) source.old source.new }
{
    let depth = depth_from(source, version)?;
    if depth == 0 || depth > DEPTH {
        return Err(ImageFault::Damaged);
    }
    many_stack(alloc, source, version, depth)
}
