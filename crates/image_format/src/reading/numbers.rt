//! Numbers, bytes and names, and where the source ends.
ghost use Rattle.std.specs.Prelude.{◌≡◌, ◌≤◌, length, IfOk, IsTrue};
ghost use Rattle.event_bytes.specs.Bytes.{is_name};
ghost use Rattle.event_bytes.specs.Parts.{byte_at, pair_at, bytes_at};
ghost use Rattle.event_bytes.specs.Reading.{name_at};
ghost use Rattle.image_format.specs.Fitting.{FitsPattern};
ghost use Rattle.image_format.specs.Reading.{optional_at, long_at, pattern_at};
ghost use Rattle.image_format.specs.Steps.{any_at, end_at, short_at};
ghost use Rattle.image_format.specs.Streams.{Reads, ReadsFit};

use super::Read;
use crate::{ByteSource, ImageFault, PATTERN};
use arrayvec::ArrayVec;
use event_bytes::Name;
use sector_disk::Fault;

/// The next byte of a source. `Damaged`: there is none.
fn next_from<S: ByteSource>(source: &mut S) -> Read<u8>
    ensures reads { Reads S.ByteSource (λ byte. byte) result any_at source.old source.new }
{
    match source.get() {
        Ok(Some(byte)) => Ok(byte),
        Ok(None) => Err(ImageFault::Damaged),
        Err(Fault) => Err(ImageFault::Fault),
    }
}

/// A number of one byte.
#[tactic(auto, unfolding(event_bytes::specs::Parts::byte_at))]
pub(crate) fn byte_from<S: ByteSource>(source: &mut S) -> Read<u8>
    ensures reads { Reads S.ByteSource (λ byte. byte) result byte_at source.old source.new }
{
    next_from(source)
}

/// A number of two bytes.
#[tactic(auto, unfolding(event_bytes::specs::Parts::pair_at))]
pub(crate) fn word_from<S: ByteSource>(source: &mut S) -> Read<u16>
    ensures reads { Reads S.ByteSource (λ number. number) result pair_at source.old source.new }
{
    Ok(u16::from_be_bytes([byte_from(source)?, byte_from(source)?]))
}

/// A number of four bytes.
#[tactic(auto, unfolding(crate::specs::Reading::long_at, event_bytes::specs::Parts::pair_at))]
pub(crate) fn long_from<S: ByteSource>(source: &mut S) -> Read<u32>
    ensures reads { Reads S.ByteSource (λ number. number) result long_at source.old source.new }
{
    let bytes = [
        byte_from(source)?,
        byte_from(source)?,
        byte_from(source)?,
        byte_from(source)?,
    ];
    Ok(u32::from_be_bytes(bytes))
}

/// The end of the source. `Damaged`: a byte is still to come.
pub(crate) fn end_from<S: ByteSource>(source: &mut S) -> Read<()>
    ensures reads { Reads S.ByteSource (λ nothing. 0) result end_at source.old source.new }
{
    match source.get() {
        Ok(None) => Ok(()),
        Ok(Some(_)) => Err(ImageFault::Damaged),
        Err(Fault) => Err(ImageFault::Fault),
    }
}

/// So many bytes.
fn many_bytes<S: ByteSource>(source: &mut S, count: u8) -> Read<ArrayVec<u8, PATTERN>>
    requires { count ≤ 31 }
    ensures reads { Reads S.ByteSource (λ bytes. bytes.items) result (bytes_at count) source.old
        source.new }
    ensures many { IfOk result (λ bytes. length bytes.items ≡ count) }
{
    let mut bytes = ArrayVec::new();
    for _ in 0..count {
        bytes.push(next_from(source)?);
    }
    Ok(bytes)
}

/// Bytes after their number, which is at most 31.
#[tactic(auto, unfolding(crate::specs::Steps::short_at))]
fn short_from<S: ByteSource>(source: &mut S) -> Read<ArrayVec<u8, PATTERN>>
    ensures { ReadsFit S.ByteSource (λ bytes. bytes.items) result short_at FitsPattern source.old
        source.new }
{
    let count = byte_from(source)?;
    if count as usize > PATTERN {
        return Err(ImageFault::Damaged);
    }
    many_bytes(source, count)
}

/// A pattern.
#[tactic(auto, using(crate::proofs::Bytes::pattern_is_short))]
pub(crate) fn pattern_from<S: ByteSource>(source: &mut S) -> Read<ArrayVec<u8, PATTERN>>
    ensures { ReadsFit S.ByteSource (λ bytes. bytes.items) result pattern_at FitsPattern source.old
        source.new }
{
    short_from(source)
}

/// A name.
#[tactic(auto, using(crate::proofs::Bytes::name_is_short))]
pub(crate) fn name_from<S: ByteSource>(source: &mut S) -> Read<Name>
    ensures { ReadsFit S.ByteSource (λ name. name) result name_at (λ name. IsTrue (is_name name))
        source.old source.new }
{
    let bytes = short_from(source)?;
    match Name::new(bytes.as_slice()) {
        Some(name) => Ok(name),
        None => Err(ImageFault::Damaged),
    }
}

/// A number of four bytes, where there is one.
pub(crate) fn position_from<S: ByteSource>(source: &mut S) -> Read<Option<u32>>
    ensures reads { Reads S.ByteSource (λ number. number) result (optional_at long_at) source.old
        source.new }
{
    match byte_from(source)? {
        0 => Ok(None),
        1 => Ok(Some(long_from(source)?)),
        _ => Err(ImageFault::Damaged),
    }
}
