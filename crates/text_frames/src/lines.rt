//! Where lines start, read from a position backwards, and how many end on the way to one.
ghost use Rattle.std.specs.Prelude.{◌≡◌, ◌+◌, ◌-◌, ◌<◌, ◌≤◌, nat_lt, length, IfOk, IfSome, MatchOption, OnOk};
ghost use Rattle.std.specs.Prelude.{if◌then◌else◌};
ghost use Rattle.event_bytes.specs.Bytes.{carriage_return};
ghost use Rattle.readers_scanners.specs.Reading.{IsPassedOver};
ghost use Rattle.readers_scanners.specs.Words.{ReadsOrFails, flat, AreWithin, bytes_of_text};
ghost use Rattle.text_frames.specs.Walks.{CanWalk};
ghost use Rattle.text_frames.specs.Lines.{line_start, line_above, ends_between, is_return};
ghost use Rattle.text_frames.specs.Cells.{row_start};
ghost use Rattle.text_frames.specs.Reading.{IsRowBelow, IsNearer};

use crate::{CharSource, Fault, Text};
use event_bytes::CARRIAGE_RETURN;
use readers_scanners::{BackReader, Reader};

/// How many characters are counted at once, at most.
const STRETCH: u32 = 512;

/// How many characters are counted at once on the way to a row, at most.
const ROW_STRETCH: u32 = 128;

/// How many are counted at once within the stretch where the row begins, at most.
const SHORT_STRETCH: u32 = 16;

/// Where the line of the position starts: at 0, or after the last carriage return before it. The text is read from the
/// position back to there. `Fault`: the source failed in this call.
pub fn line_start<S: CharSource>(text: &Text, pos: u32, source: &mut S) -> Result<u32, Fault>
    requires within { pos ≤ length (flat text.now) }
    requires offsets { AreWithin (length (S.characters source.old)) (flat text.now) }
    ensures start { IfOk result (λ start. S.honest source.old
        → start ≡ line_start (bytes_of_text (S.characters source.old) (flat text.now)) pos) }
    ensures range { IfOk result (λ start. start ≤ pos) }
    ensures source { ReadsOrFails S.CharSource result source.old source.new }
{
    let mut reader = BackReader::open(text, pos);
    let start = to_line_start(&mut reader, source)?;
    Ok(start)
}

/// Where the line starts in which the reader stands. The reader then stands before the carriage return that ends the
/// line above, or at the text's beginning. `Fault`: the source failed in this call.
fn to_line_start<S: CharSource>(reader: &mut BackReader<'_>, source: &mut S) -> Result<u32, Fault>
    requires offsets { AreWithin (length (S.characters source.old)) reader.old.text }
    ensures start { IfOk result (λ start. S.honest source.old
        → start ≡ line_start (bytes_of_text (S.characters source.old) reader.old.text)
        reader.old.position) }
    ensures range { IfOk result (λ start. start ≤ reader.old.position) }
    ensures moves { IfOk result (λ start. reader.new.position ≡ start - 1) }
    ensures text { OnOk result (reader.new.text ≡ reader.old.text) }
    ensures source { ReadsOrFails S.CharSource result source.old source.new }
{
    for at in (0..reader.pos()).rev() {
        let byte = reader.previous_byte(source)?;
        if byte == CARRIAGE_RETURN {
            return Ok(at + 1);
        }
    }
    Ok(0)
}

/// Where the line starts that stands `lines` lines above that of the position, 0 where there are fewer. `Fault`: the
/// source failed in this call.
pub(crate) fn line_above<S: CharSource>(
    text: &Text,
    lines: u8,
    pos: u32,
    source: &mut S,
) -> Result<u32, Fault>
    requires { CanWalk (S.characters source.old) (flat text.now) 0 pos }
    ensures start { IfOk result (λ start. S.honest source.old
        → start ≡ line_above (bytes_of_text (S.characters source.old) (flat text.now)) lines pos) }
    ensures range { IfOk result (λ start. start ≤ pos) }
    ensures source { ReadsOrFails S.CharSource result source.old source.new }
{
    let mut reader = BackReader::open(text, pos);
    for above in 0..lines {
        to_line_start(&mut reader, source)?;
    }
    let start = to_line_start(&mut reader, source)?;
    Ok(start)
}

/// How many lines end from `org` up to the position; where these are `h` or more, some number from `h` on. The text is
/// read from `org` to the position, or to less than a stretch past the end of `h` lines. `Fault`: the source failed in
/// this call.
pub(crate) fn ends_between<S: CharSource>(
    text: &Text,
    org: u32,
    h: u8,
    pos: u32,
    source: &mut S,
) -> Result<u32, Fault>
    requires { CanWalk (S.characters source.old) (flat text.now) org pos }
    ensures exact { IfOk result (λ ends. S.honest source.old → ends < h
        → ends ≡ ends_between (bytes_of_text (S.characters source.old) (flat text.now)) org pos) }
    ensures few { IfOk result (λ ends. S.honest source.old
        → nat_lt ends h ≡ nat_lt (ends_between
        (bytes_of_text (S.characters source.old) (flat text.now)) org pos) h) }
    ensures source { ReadsOrFails S.CharSource result source.old source.new }
{
    let mut reader = Reader::open(text, org);
    let mut ends = 0;
    let mut left = pos - org;
    while left > 0 {
        let most = left.min(STRETCH);
        let (count, found) = reader.count(CARRIAGE_RETURN, most, source)?;
        ends += found;
        left -= count;
        if ends >= h as u32 {
            return Ok(ends);
        }
        let wanted = h as u32 - ends;
        let (next, known, of_them) = pass_known(reader, count < most, wanted, left, source);
        reader = next;
        ends += of_them;
        left -= known;
    }
    Ok(ends)
}

/// Passes characters of which it is known how many lines end there, where the stretch before was shorter than it could
/// be: behind it other pieces come, or another sector. Within a long stretch that would only cost time.
fn pass_known<'a, S: CharSource>(
    reader: Reader<'a>,
    was_short: bool,
    fewer: u32,
    most: u32,
    source: &S,
) -> (Reader<'a>, u32, u32)
    requires some { 0 < fewer }
    requires within { reader.position ≤ length reader.text }
    requires offsets { AreWithin (length (S.characters source.now)) reader.text }
    ensures { IsPassedOver (S.honest source.now) (S.characters source.now) reader.entry result.0
        carriage_return fewer most (result.1, result.2) }
{
    if was_short {
        return reader.pass_known(CARRIAGE_RETURN, fewer, most, source);
    }
    (reader, 0, 0)
}

/// A reader where the row begins that is so many rows below that of the position `from`. None where the text ends
/// before. The text is read from there to less than a stretch past that place; the last stretch is counted again in
/// short ones, of which the last is read. `Fault`: the source failed in this call.
pub(crate) fn row_below<'a, S: CharSource>(
    text: &'a Text,
    from: u32,
    rows: u32,
    source: &mut S,
) -> Result<Option<Reader<'a>>, Fault>
    requires walk { CanWalk (S.characters source.old) (flat text.now) from
        (length (flat text.now)) }
    requires some { 0 < rows }
    ensures begins { IfOk result (λ found. S.honest source.old → IfSome found
        (λ row. IsRowBelow (bytes_of_text (S.characters source.old) (flat text.now)) from rows
        row.position)) }
    ensures range { IfOk result (λ found. IfSome found (λ row. (from + rows ≤ row.position)
        × (row.position ≤ length (flat text.now)))) }
    ensures text { IfOk result (λ found. IfSome found (λ row. row.text ≡ flat text.now)) }
    ensures source { ReadsOrFails S.CharSource result source.old source.new }
{
    let reader = Reader::open(text, from);
    let (long, rest) = stretch_below(text, reader, rows, source)?;
    let (short, last) = stretch_within(text, long, rest, source)?;
    let begin = row_within(text, short, last, source)?;
    Ok(begin)
}

/// A reader on the way to the row that is so many rows below that of the first reader, with how many rows below it the
/// row is: it begins in the next stretch, or the text ends before. Where it is known how many lines end, the stretches
/// are passed without a read. `Fault`: the source failed in this call.
fn stretch_below<'a, S: CharSource>(
    text: &'a Text,
    first: Reader<'a>,
    rows: u32,
    source: &mut S,
) -> Result<(Reader<'a>, u32), Fault>
    requires text { first.text ≡ flat text.now }
    requires offsets { AreWithin (length (S.characters source.old)) (flat text.now) }
    requires some { 0 < rows }
    ensures leads { IfOk result (λ near. S.honest source.old
        → ends_between (bytes_of_text (S.characters source.old) (flat text.now))
        first.entry.position near.0.position + near.1 ≡ rows) }
    ensures range { IfOk result (λ near. IsNearer (length (flat text.now)) first.entry.position rows
        near.0.position near.1) }
    ensures text { IfOk result (λ near. near.0.text ≡ flat text.now) }
    ensures source { ReadsOrFails S.CharSource result source.old source.new }
{
    let from = first.pos();
    let mut reader = first;
    let mut ends = 0;
    let len = text.len();
    let mut left = len - from;
    while left > 0 {
        let most = left.min(ROW_STRETCH);
        let (count, found) = reader.pass_fewer(CARRIAGE_RETURN, rows - ends, most, source)?;
        if count == 0 {
            return Ok((reader, rows - ends));
        }
        ends += found;
        left -= count;
        let wanted = rows - ends;
        let (next, known, of_them) = pass_known(reader, count < most, wanted, left, source);
        reader = next;
        ends += of_them;
        left -= known;
    }
    Ok((reader, rows - ends))
}

/// The same by short stretches.
fn stretch_within<'a, S: CharSource>(
    text: &'a Text,
    first: Reader<'a>,
    rows: u32,
    source: &mut S,
) -> Result<(Reader<'a>, u32), Fault>
    requires text { first.text ≡ flat text.now }
    requires offsets { AreWithin (length (S.characters source.old)) (flat text.now) }
    requires some { 0 < rows }
    ensures leads { IfOk result (λ near. S.honest source.old
        → ends_between (bytes_of_text (S.characters source.old) (flat text.now))
        first.entry.position near.0.position + near.1 ≡ rows) }
    ensures range { IfOk result (λ near. IsNearer (length (flat text.now)) first.entry.position rows
        near.0.position near.1) }
    ensures text { IfOk result (λ near. near.0.text ≡ flat text.now) }
    ensures source { ReadsOrFails S.CharSource result source.old source.new }
{
    let from = first.pos();
    let mut reader = first;
    let mut ends = 0;
    let len = text.len();
    let mut left = len - from;
    while left > 0 {
        let most = left.min(SHORT_STRETCH);
        let (count, found) = reader.pass_fewer(CARRIAGE_RETURN, rows - ends, most, source)?;
        if count == 0 {
            return Ok((reader, rows - ends));
        }
        ends += found;
        left -= count;
    }
    Ok((reader, rows - ends))
}

/// The reader where the row begins that is so many rows below its own, read byte by byte. None where the text ends
/// before. `Fault`: the source failed in this call.
fn row_within<'a, S: CharSource>(
    text: &'a Text,
    first: Reader<'a>,
    rows: u32,
    source: &mut S,
) -> Result<Option<Reader<'a>>, Fault>
    requires text { first.text ≡ flat text.now }
    requires offsets { AreWithin (length (S.characters source.old)) (flat text.now) }
    requires some { 0 < rows }
    ensures begins { IfOk result (λ found. S.honest source.old → IfSome found
        (λ row. IsRowBelow (bytes_of_text (S.characters source.old) (flat text.now))
        first.entry.position rows row.position)) }
    ensures range { IfOk result (λ found. IfSome found
        (λ row. (first.entry.position + rows ≤ row.position)
        × (row.position ≤ length (flat text.now)))) }
    ensures text { IfOk result (λ found. IfSome found (λ row. row.text ≡ flat text.now)) }
    ensures source { ReadsOrFails S.CharSource result source.old source.new }
{
    let from = first.pos();
    let mut reader = first;
    let mut left = rows;
    let len = text.len();
    for at in from..len {
        let byte = reader.next_byte(source)?;
        left = left_after(left, byte);
        if left == 0 {
            return Ok(Some(reader));
        }
    }
    Ok(None)
}

/// How many lines are left to end after a byte.
fn left_after(left: u32, byte: u8) -> u32
    requires { 0 < left }
    ensures { result ≡ left - (if is_return byte then 1 else 0) }
{
    if byte == CARRIAGE_RETURN {
        left - 1
    } else {
        left
    }
}

/// Where the row starts in which the reader stands, in a frame that begins at `org`. None where that is `most`
/// characters or more before the reader; no more of them are read. `Fault`: the source failed in this call.
pub(crate) fn row_start<S: CharSource>(
    reader: &mut BackReader<'_>,
    org: u32,
    most: u8,
    source: &mut S,
) -> Result<Option<u32>, Fault>
    requires order { org ≤ reader.old.position }
    requires offsets { AreWithin (length (S.characters source.old)) reader.old.text }
    ensures start { IfOk result (λ start. S.honest source.old → MatchOption start
        (row_start (bytes_of_text (S.characters source.old) reader.old.text) org reader.old.position
        + most
        ≤ reader.old.position)
        (λ start. start ≡ row_start (bytes_of_text (S.characters source.old) reader.old.text) org
        reader.old.position)) }
    ensures range { IfOk result (λ start. IfSome start (λ start. start ≤ reader.old.position)) }
    ensures source { ReadsOrFails S.CharSource result source.old source.new }
{
    let pos = reader.pos();
    let low = org.max(pos.saturating_sub(most as u32));
    for at in (low..pos).rev() {
        let byte = reader.previous_byte(source)?;
        if byte == CARRIAGE_RETURN {
            return Ok(Some(at + 1));
        }
    }
    if low > org {
        return Ok(None);
    }
    Ok(Some(org))
}
