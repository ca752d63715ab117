//! Viewers, with what is marked in them.
ghost use Rattle.command_table.specs.Versions.{version_number};
ghost use Rattle.image_format.specs.Fitting.{FitsRanked, FitsViewer, after_viewer, FitsViewers};
ghost use Rattle.image_format.specs.Reading.{optional_at, ranked_at, id_at, image_viewer_at, viewers_at};
ghost use Rattle.image_format.specs.Steps.{ReadsItems};
ghost use Rattle.image_format.specs.Streams.{IfThere, ReadsFit};
ghost use Rattle.image_format.specs.Image.{InId};

use super::Read;
use super::numbers::{byte_from, long_from, position_from, word_from};
use crate::forms::has_overlays;
use crate::{ByteSource, ImageFault, MOST_VIEWERS, Ranked, ViewerPicture};
use command_table::Version;
use desktop_definitions::Viewer;
use std::alloc::Global;
use std::vec::Vec;

/// An id, or a number of viewers, as a version has it.
#[tactic(auto, unfolding(crate::specs::Reading::id_at))]
pub(crate) fn id_from<S: ByteSource>(source: &mut S, version: Version) -> Read<u16>
    ensures { ReadsFit S.ByteSource (λ id. id) result (id_at (version_number version))
        (InId (version_number version))
        source.old source.new }
{
    if has_overlays(version) {
        return word_from(source);
    }
    let id = byte_from(source)?;
    Ok(id as u16)
}

/// A selection with its rank.
#[tactic(auto, unfolding(crate::specs::Reading::ranked_at))]
fn ranked_from<S: ByteSource>(source: &mut S) -> Read<Ranked>
    ensures { ReadsFit S.ByteSource (λ ranked. ranked) result ranked_at FitsRanked source.old
        source.new }
{
    let rank = byte_from(source)?;
    let beg = long_from(source)?;
    let end = long_from(source)?;
    Ok(Ranked { rank, beg, end })
}

/// A selection with its rank, where there is one.
fn selection_from<S: ByteSource>(source: &mut S) -> Read<Option<Ranked>>
    ensures { ReadsFit S.ByteSource (λ value. value) result (optional_at ranked_at)
        (IfThere FitsRanked) source.old source.new }
{
    match byte_from(source)? {
        0 => Ok(None),
        1 => Ok(Some(ranked_from(source)?)),
        _ => Err(ImageFault::Damaged),
    }
}

/// A viewer, whose id is `least` or above.
fn viewer_from<S: ByteSource>(source: &mut S, version: Version, least: u32) -> Read<ViewerPicture>
    ensures { ReadsFit S.ByteSource (λ viewer. viewer) result
        (image_viewer_at (version_number version) least)
        (FitsViewer (version_number version) least) source.old source.new }
{
    let id = id_from(source, version)?;
    if (id as u32) < least {
        return Err(ImageFault::Damaged);
    }
    let menu = word_from(source)?;
    let main = word_from(source)?;
    let org = long_from(source)?;
    let caret = position_from(source)?;
    let selection = selection_from(source)?;
    Ok(ViewerPicture {
        id,
        viewer: Viewer { menu, main, org },
        caret,
        selection,
    })
}

/// So many viewers, by rising ids.
fn many_viewers<S: ByteSource>(
    alloc: Global,
    source: &mut S,
    version: Version,
    count: u16,
) -> Read<Vec<ViewerPicture>>
    ensures { ReadsItems S.ByteSource (λ viewers. viewers.items) result
        (image_viewer_at (version_number version))
        (FitsViewer (version_number version)) after_viewer count 0 source.old source.new }
{
    let mut viewers = Vec::new(alloc);
    let mut least = 0;
    for _ in 0..count {
        let viewer = viewer_from(source, version, least)?;
        least = viewer.id as u32 + 1;
        viewers.push(viewer)?;
    }
    Ok(viewers)
}

/// Viewers after their number, no more than there are places.
#[tactic(auto, unfolding(crate::specs::Reading::viewers_at))]
pub(crate) fn viewers_from<S: ByteSource>(
    alloc: Global,
    source: &mut S,
    version: Version,
) -> Read<Vec<ViewerPicture>>
    ensures { ReadsFit S.ByteSource (λ viewers. viewers.items) result
        (viewers_at (version_number version))
        (FitsViewers (version_number version)) source.old source.new }
{
    let count = id_from(source, version)?;
    if count as u32 > MOST_VIEWERS {
        return Err(ImageFault::Damaged);
    }
    many_viewers(alloc, source, version, count)
}
