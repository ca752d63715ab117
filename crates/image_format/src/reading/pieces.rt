//! Looks and pieces.
ghost use Rattle.std.specs.Prelude.{◌≡◌, ◌-◌, IfOk, IsTrue, int_le};
ghost use Rattle.desktop_definitions.specs.Limits.{least_offset, greatest_offset};
ghost use Rattle.desktop_definitions.specs.Looks.{IsLook};
ghost use Rattle.image_format.specs.Fitting.{FitsPiece, less, length_of_pieces, FitsPieces};
ghost use Rattle.image_format.specs.Reading.{offset_at, raw_look_at, image_look_at, raw_piece_at, piece_at};
ghost use Rattle.image_format.specs.Reading.{pieces_at, is_piece as pieces};
ghost use Rattle.image_format.specs.Steps.{ReadsItems};
ghost use Rattle.image_format.specs.Streams.{Reads, ReadsFit, ReadsWithin};

use super::Read;
use super::numbers::{byte_from, long_from};
use crate::holder::Holder;
use crate::{ByteSource, ImageFault};
use desktop_definitions::{COLOURS, FONTS, GREATEST_OFFSET, LEAST_OFFSET};
use piece_ring::{Look, Piece};
use std::alloc::Global;

/// A vertical offset.
#[tactic(auto, unfolding(crate::specs::Reading::offset_at))]
fn offset_from<S: ByteSource>(source: &mut S) -> Read<i8>
    ensures reads { Reads S.ByteSource (λ offset. offset) result offset_at source.old source.new }
    ensures least { IfOk result (λ offset. IsTrue (int_le least_offset offset)) }
    ensures greatest { IfOk result (λ offset. IsTrue (int_le offset greatest_offset)) }
{
    let byte = byte_from(source)?;
    if byte > (GREATEST_OFFSET - LEAST_OFFSET) as u8 {
        return Err(ImageFault::Damaged);
    }
    Ok(byte as i8 + LEAST_OFFSET)
}

/// A look, of which the offset alone is tested.
#[tactic(auto, unfolding(crate::specs::Reading::raw_look_at))]
fn raw_look_from<S: ByteSource>(source: &mut S) -> Read<Look>
    ensures reads { Reads S.ByteSource (λ look. look) result raw_look_at source.old source.new }
    ensures least { IfOk result (λ look. IsTrue (int_le least_offset look.voff)) }
    ensures greatest { IfOk result (λ look. IsTrue (int_le look.voff greatest_offset)) }
{
    let font = byte_from(source)?;
    let colour = byte_from(source)?;
    let voff = offset_from(source)?;
    Ok(Look { font, colour, voff })
}

/// A look that characters may have.
#[tactic(auto, unfolding(crate::specs::Reading::image_look_at))]
pub(crate) fn look_from<S: ByteSource>(source: &mut S) -> Read<Look>
    ensures { ReadsFit S.ByteSource (λ look. look) result image_look_at IsLook source.old
        source.new }
{
    let look = raw_look_from(source)?;
    if look.font < FONTS && look.colour < COLOURS {
        Ok(look)
    } else {
        Err(ImageFault::Damaged)
    }
}

/// A piece, of which the look alone is tested.
#[tactic(auto, unfolding(crate::specs::Reading::raw_piece_at))]
fn raw_piece_from<S: ByteSource>(source: &mut S) -> Read<Piece>
    ensures reads { Reads S.ByteSource (λ piece. piece) result raw_piece_at source.old source.new }
    ensures look { IfOk result (λ piece. IsLook piece.look) }
{
    let off = long_from(source)?;
    let len = long_from(source)?;
    let look = look_from(source)?;
    if byte_from(source)? == 0 {
        Ok(Piece { off, len, look })
    } else {
        Err(ImageFault::Damaged)
    }
}

/// Whether the piece has a character, and no more than there is room for, all of them written.
fn is_piece(written: u32, room: u32, piece: &Piece) -> bool
    ensures { result ≡ pieces written room piece.now }
{
    0 < piece.len && piece.len <= room && piece.off as u64 + piece.len as u64 <= written as u64
}

/// A piece that fits.
#[tactic(auto, unfolding(crate::specs::Reading::piece_at))]
fn piece_from<S: ByteSource>(source: &mut S, written: u32, room: u32) -> Read<Piece>
    ensures { ReadsFit S.ByteSource (λ piece. piece) result (piece_at written room)
        (FitsPiece written room)
        source.old source.new }
{
    let piece = raw_piece_from(source)?;
    if is_piece(written, room, &piece) {
        Ok(piece)
    } else {
        Err(ImageFault::Damaged)
    }
}

/// Where texts and buffers are made, and how many characters were written.
#[derive(Clone, Copy)]
pub(crate) struct Base {
    pub(crate) alloc: Global,
    pub(crate) written: u32,
}

/// So many pieces. What is left of the room stands there afterwards.
fn many_pieces<S: ByteSource, H: Holder>(
    source: &mut S,
    base: Base,
    room: &mut u32,
    count: u32,
) -> Read<H>
    ensures items { ReadsItems S.ByteSource H.held result (piece_at base.written)
        (FitsPiece base.written) less count
        room.old source.old source.new }
    ensures left { IfOk result (λ holder. room.new ≡ room.old - length_of_pieces (H.held holder)) }
{
    let mut pieces = H::empty(base.alloc)?;
    let mut left = *room;
    for _ in 0..count {
        let piece = piece_from(source, base.written, left)?;
        left -= piece.len;
        pieces.put(base.alloc, piece)?;
    }
    *room = left;
    Ok(pieces)
}

/// Pieces after their number.
#[tactic(auto, unfolding(crate::specs::Reading::pieces_at))]
pub(crate) fn pieces_from<S: ByteSource, H: Holder>(
    source: &mut S,
    base: Base,
    room: &mut u32,
) -> Read<H>
    ensures { ReadsWithin S.ByteSource H.held result (pieces_at base.written room.old)
        (FitsPieces base.written room.old) length_of_pieces room.old room.new source.old
        source.new }
{
    let count = long_from(source)?;
    many_pieces(source, base, room, count)
}
