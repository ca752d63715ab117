//! Reading an image, byte by byte.
//!
//! Each function reads what its name says from the front of the source, and tests it: `Damaged` where the bytes begin
//! with nothing of the kind. The contracts name the readers of `specs/Reading.antt`.
ghost use Rattle.std.specs.Prelude.{IfOk, IfSome};
ghost use Rattle.command_table.specs.Versions.{version_number};
ghost use Rattle.desktop_definitions.specs.Looks.{IsLook};
ghost use Rattle.image_format.specs.Fitting.{FitsStack, FitsPattern, FitsCell, FitsClosed, FitsImage};
ghost use Rattle.image_format.specs.Pictures.{stack_of_stretches, pictured};
ghost use Rattle.image_format.specs.Reading.{desktop_image_at, whole_image_at};
ghost use Rattle.image_format.specs.Steps.{front_at, held_at, FitHeld, shown_at};
ghost use Rattle.image_format.specs.Streams.{Reads, ReadsFit};

mod numbers;
mod pieces;
mod places;
mod texts;
mod tracks;
mod viewers;

use crate::{ByteSource, ImageFault, Levels, PATTERN, Picture};
use arrayvec::ArrayVec;
use command_table::Version;
use desktop_definitions::{ClosedViewer, MOST_HELD};
use numbers::{end_from, pattern_from};
use piece_ring::Look;
use pieces::{Base, look_from, pieces_from};
use places::{closed_from, marker_from};
use std::alloc::Global;
use text_core::Buffer;
use texts::{Files, Texts, files_from, texts_from};
use tracks::stack_from;
use viewers::viewers_from;

/// What a call reads.
pub(crate) type Read<T> = Result<T, ImageFault>;

/// What an image says first.
#[derive(Drop)]
struct Front {
    look: Look,
    pattern: ArrayVec<u8, PATTERN>,
    marker: Option<(u8, u8)>,
}

/// The texts, and what lies in the buffers.
#[derive(Drop)]
struct Held {
    texts: Texts,
    files: Files,
    copied: Buffer,
    deleted: Buffer,
}

/// Where viewers stand.
#[derive(Drop)]
struct Shown {
    user: Levels,
    system: Levels,
    closed: Option<ClosedViewer>,
}

/// The look, the pattern and the marker.
#[tactic(auto, unfolding(crate::specs::Steps::front_at))]
fn front_from<S: ByteSource>(source: &mut S) -> Read<Front>
    ensures reads { Reads S.ByteSource (λ front. (front.look, front.pattern.items, front.marker))
        result front_at
        source.old source.new }
    ensures look { IfOk result (λ front. IsLook front.look) }
    ensures pattern { IfOk result (λ front. FitsPattern front.pattern.items) }
    ensures marker { IfOk result (λ front. IfSome front.marker FitsCell) }
{
    let look = look_from(source)?;
    let pattern = pattern_from(source)?;
    let marker = marker_from(source)?;
    Ok(Front {
        look,
        pattern,
        marker,
    })
}

/// The texts, the files, and what lies in the buffers.
#[tactic(auto, unfolding(crate::specs::Steps::held_at))]
fn held_from<S: ByteSource>(alloc: Global, source: &mut S, written: u32) -> Read<Held>
    ensures reads { Reads S.ByteSource
        (λ held. (held.texts.entries, held.files.entries, held.copied, held.deleted))
        result (held_at written) source.old source.new }
    ensures fits { IfOk result
        (λ held. FitHeld written held.texts.entries held.files.entries held.copied held.deleted) }
{
    let base = Base { alloc, written };
    let mut room = MOST_HELD;
    let texts = texts_from(source, base, &mut room)?;
    let files = files_from(source, base, &mut room)?;
    let copied: Buffer = pieces_from(source, base, &mut room)?;
    let deleted: Buffer = pieces_from(source, base, &mut room)?;
    Ok(Held {
        texts,
        files,
        copied,
        deleted,
    })
}

/// The tracks of both columns, and the viewer that was closed last.
#[tactic(auto, unfolding(crate::specs::Steps::shown_at))]
fn shown_from<S: ByteSource>(alloc: Global, source: &mut S, version: Version) -> Read<Shown>
    ensures reads { Reads S.ByteSource
        (λ shown. (
          stack_of_stretches shown.user.items,
          stack_of_stretches shown.system.items,
          shown.closed,
        )) result
        (shown_at (version_number version)) source.old source.new }
    ensures user { IfOk result
        (λ shown. FitsStack (version_number version) (stack_of_stretches shown.user.items)) }
    ensures system { IfOk result
        (λ shown. FitsStack (version_number version) (stack_of_stretches shown.system.items)) }
    ensures closed { IfOk result
        (λ shown. IfSome shown.closed (FitsClosed (version_number version))) }
{
    let user = stack_from(alloc, source, version)?;
    let system = stack_from(alloc, source, version)?;
    let closed = closed_from(source, version)?;
    Ok(Shown {
        user,
        system,
        closed,
    })
}

/// An image of a version.
#[tactic(auto, using(crate::proofs::Sections::image_in_sections), unfolding(crate::specs::Fitting::FitsImage))]
fn picture_from<S: ByteSource>(
    alloc: Global,
    source: &mut S,
    version: Version,
    written: u32,
) -> Read<Picture>
    ensures reads { Reads S.ByteSource pictured result
        (desktop_image_at (version_number version) written)
        source.old source.new }
    ensures fits { IfOk result
        (λ picture. FitsImage (version_number version) written (pictured picture)) }
{
    let front = front_from(source)?;
    let held = held_from(alloc, source, written)?;
    let viewers = viewers_from(alloc, source, version)?;
    let shown = shown_from(alloc, source, version)?;
    Ok(Picture {
        look: front.look,
        pattern: front.pattern,
        marker: front.marker,
        texts: held.texts,
        files: held.files,
        copied: held.copied,
        deleted: held.deleted,
        viewers,
        user: shown.user,
        system: shown.system,
        closed: shown.closed,
    })
}

/// Reads an image of a version, all bytes of the source, for which so many characters were written.
///
/// `Damaged` where the bytes aren't an image whose parts fit; `Fault` where a byte could not be read; `NoMemory`.
#[tactic(auto, unfolding(crate::specs::Reading::whole_image_at))]
pub fn read_picture<S: ByteSource>(
    alloc: Global,
    source: &mut S,
    version: Version,
    written: u32,
) -> Result<Picture, ImageFault>
    ensures { ReadsFit S.ByteSource pictured result
        (whole_image_at (version_number version) written)
        (FitsImage (version_number version) written) source.old source.new }
{
    let picture = picture_from(alloc, source, version, written)?;
    end_from(source)?;
    Ok(picture)
}
