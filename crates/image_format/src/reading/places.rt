//! The marker, and the viewer that was closed last.
ghost use Rattle.command_table.specs.Versions.{version_number};
ghost use Rattle.image_format.specs.Fitting.{FitsCell, FitsClosed};
ghost use Rattle.image_format.specs.Reading.{optional_at, raw_cell_at, image_cell_at, side_at, raw_closed_at};
ghost use Rattle.image_format.specs.Reading.{closed_at};
ghost use Rattle.image_format.specs.Streams.{IfThere, Reads, ReadsFit};
ghost use Rattle.image_format.specs.Image.{InId};

use super::Read;
use super::numbers::byte_from;
use super::viewers::id_from;
use crate::{ByteSource, ImageFault};
use command_table::Version;
use desktop_definitions::ClosedViewer;
use viewer_tracks::{COLUMNS, ROWS, SYSTEM_LEFT, Track};

/// A column and a row, of which nothing is tested.
#[tactic(auto, unfolding(crate::specs::Reading::raw_cell_at))]
fn raw_cell_from<S: ByteSource>(source: &mut S) -> Read<(u8, u8)>
    ensures reads { Reads S.ByteSource (λ cell. cell) result raw_cell_at source.old source.new }
{
    let x = byte_from(source)?;
    let y = byte_from(source)?;
    Ok((x, y))
}

/// A cell of the display.
#[tactic(auto, unfolding(crate::specs::Reading::image_cell_at))]
fn cell_from<S: ByteSource>(source: &mut S) -> Read<(u8, u8)>
    ensures { ReadsFit S.ByteSource (λ cell. cell) result image_cell_at FitsCell source.old
        source.new }
{
    let cell = raw_cell_from(source)?;
    if cell.0 < COLUMNS && cell.1 < ROWS {
        Ok(cell)
    } else {
        Err(ImageFault::Damaged)
    }
}

/// A cell of the display, where there is one.
pub(crate) fn marker_from<S: ByteSource>(source: &mut S) -> Read<Option<(u8, u8)>>
    ensures { ReadsFit S.ByteSource (λ cell. cell) result (optional_at image_cell_at)
        (IfThere FitsCell) source.old source.new }
{
    match byte_from(source)? {
        0 => Ok(None),
        1 => Ok(Some(cell_from(source)?)),
        _ => Err(ImageFault::Damaged),
    }
}

/// A track, by its left column.
#[tactic(auto, unfolding(crate::specs::Reading::side_at))]
fn side_from<S: ByteSource>(source: &mut S) -> Read<Track>
    ensures reads { Reads S.ByteSource (λ side. side) result side_at source.old source.new }
{
    match byte_from(source)? {
        0 => Ok(Track::User),
        SYSTEM_LEFT => Ok(Track::System),
        _ => Err(ImageFault::Damaged),
    }
}

/// The viewer that was closed last, of which the track alone is tested.
#[tactic(auto, unfolding(crate::specs::Reading::raw_closed_at))]
fn raw_closed_from<S: ByteSource>(source: &mut S, version: Version) -> Read<ClosedViewer>
    ensures { ReadsFit S.ByteSource (λ closed. closed) result
        (raw_closed_at (version_number version))
        (λ closed. InId (version_number version) closed.viewer) source.old source.new }
{
    let viewer = id_from(source, version)?;
    let track = side_from(source)?;
    let top = byte_from(source)?;
    Ok(ClosedViewer { viewer, track, top })
}

/// The viewer that was closed last.
#[tactic(auto, unfolding(crate::specs::Reading::closed_at))]
fn one_closed_from<S: ByteSource>(source: &mut S, version: Version) -> Read<ClosedViewer>
    ensures { ReadsFit S.ByteSource (λ closed. closed) result (closed_at (version_number version))
        (FitsClosed (version_number version)) source.old source.new }
{
    let closed = raw_closed_from(source, version)?;
    if 0 < closed.top && closed.top <= ROWS {
        Ok(closed)
    } else {
        Err(ImageFault::Damaged)
    }
}

/// The viewer that was closed last, where there is one.
pub(crate) fn closed_from<S: ByteSource>(
    source: &mut S,
    version: Version,
) -> Read<Option<ClosedViewer>>
    ensures { ReadsFit S.ByteSource (λ closed. closed) result
        (optional_at (closed_at (version_number version)))
        (IfThere (FitsClosed (version_number version))) source.old source.new }
{
    match byte_from(source)? {
        0 => Ok(None),
        1 => Ok(Some(one_closed_from(source, version)?)),
        _ => Err(ImageFault::Damaged),
    }
}
