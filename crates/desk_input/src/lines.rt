//! Which line of a text is wished, and which way leads there.
ghost use Rattle.std.specs.Prelude.{◌≡◌, ◌*◌, ◌/◌, ◌<◌, ◌≤◌, length, IfOk, IfSome};
ghost use Rattle.readers_scanners.specs.Words.{ReadsOrFails, flat, AreWithin, bytes_of_text};
ghost use Rattle.text_frames.specs.Walks.{CanWalk};
ghost use Rattle.text_frames.specs.Lines.{line_above, ends_between};
ghost use Rattle.desk_input.specs.Lines.{start_below, line_below, wished, share_start};
ghost use Rattle.desk_input.specs.Lines.{share_row};
ghost use Rattle.desk_input.specs.Lines.{lines_in_sight, way_by_share, way_to};

use crate::way::Way;
use crate::wish::Wish;
use char_file::{CharSource, Fault};
use event_bytes::CARRIAGE_RETURN;
use readers_scanners::Reader;
use text_core::Text;
use text_frames::{Frame, line_start};

/// How many characters are counted at once, at most.
const STRETCH: u32 = 512;

/// Where the line starts in the row below that of the position; below the last line, where that starts. `Fault`: the
/// source failed in this call.
pub fn start_below<S: CharSource>(text: &Text, pos: u32, source: &mut S) -> Result<u32, Fault>
    requires { CanWalk (S.characters source.old) (flat text.now) 0 pos }
    ensures start { IfOk result (λ start. S.honest source.old
        → start ≡ start_below (bytes_of_text (S.characters source.old) (flat text.now)) pos) }
    ensures within { IfOk result (λ start. start ≤ length (flat text.now)) }
    ensures source { ReadsOrFails S.CharSource result source.old source.new }
{
    let frame = Frame {
        text: 0,
        org: pos,
        caret: None,
        selection: None,
    };
    let below = frame.pos_at(text, 0, 1, source)?;
    let start = line_start(text, below, source)?;
    Ok(start)
}

/// Where the line starts that stands `lines` lines below that of the position, or the last line where there are fewer.
/// `Fault`: the source failed in this call.
pub fn line_below<S: CharSource>(
    text: &Text,
    lines: u32,
    pos: u32,
    source: &mut S,
) -> Result<u32, Fault>
    requires { CanWalk (S.characters source.old) (flat text.now) 0 pos }
    ensures start { IfOk result (λ start. S.honest source.old
        → start ≡ line_below (bytes_of_text (S.characters source.old) (flat text.now)) lines pos) }
    ensures within { IfOk result (λ start. start ≤ length (flat text.now)) }
    ensures source { ReadsOrFails S.CharSource result source.old source.new }
{
    let mut at = pos;
    for below in 0..lines {
        let next = start_below(text, at, source)?;
        if next == at {
            return Ok(next);
        }
        at = next;
    }
    let start = line_start(text, at, source)?;
    Ok(start)
}

/// Where the line starts that stands `lines` lines above that of the position, 0 where there are fewer. `Fault`: the
/// source failed in this call.
pub fn line_above<S: CharSource>(
    text: &Text,
    lines: u32,
    pos: u32,
    source: &mut S,
) -> Result<u32, Fault>
    requires { CanWalk (S.characters source.old) (flat text.now) 0 pos }
    ensures start { IfOk result (λ start. S.honest source.old
        → start ≡ line_above (bytes_of_text (S.characters source.old) (flat text.now)) lines pos) }
    ensures within { IfOk result (λ start. start ≤ length (flat text.now)) }
    ensures source { ReadsOrFails S.CharSource result source.old source.new }
{
    let mut at = pos;
    for above in 0..lines {
        let first = line_start(text, at, source)?;
        if first == 0 {
            return Ok(0);
        }
        at = first - 1;
    }
    let start = line_start(text, at, source)?;
    Ok(start)
}

/// How many lines end from `org` up to the position. `Fault`: the source failed in this call.
fn ends_between<S: CharSource>(
    text: &Text,
    org: u32,
    pos: u32,
    source: &mut S,
) -> Result<u32, Fault>
    requires { CanWalk (S.characters source.old) (flat text.now) org pos }
    ensures ends { IfOk result (λ ends. S.honest source.old
        → ends ≡ ends_between (bytes_of_text (S.characters source.old) (flat text.now)) org pos) }
    ensures source { ReadsOrFails S.CharSource result source.old source.new }
{
    let mut reader = Reader::open(text, org);
    let mut ends = 0;
    let mut left = pos - org;
    while left > 0 {
        let (count, found) = reader.count(CARRIAGE_RETURN, left.min(STRETCH), source)?;
        ends += found;
        left -= count;
    }
    Ok(ends)
}

/// Where the line starts that is wished of a text shown from `org` on in `h` rows. `Fault`: the source failed in this
/// call.
#[tactic(auto, unfolding(crate::specs::Lines::wished))]
pub(crate) fn wished<S: CharSource>(
    text: &Text,
    h: u8,
    org: u32,
    wish: Wish,
    source: &mut S,
) -> Result<u32, Fault>
    requires { CanWalk (S.characters source.old) (flat text.now) 0 org }
    ensures start { IfOk result (λ start. S.honest source.old
        → start ≡ wished (bytes_of_text (S.characters source.old) (flat text.now)) h org wish) }
    ensures within { IfOk result (λ start. start ≤ length (flat text.now)) }
    ensures source { ReadsOrFails S.CharSource result source.old source.new }
{
    let page = h.saturating_sub(1) as u32;
    match wish {
        Wish::Up(lines) => line_above(text, lines, org, source),
        Wish::Down(lines) => line_below(text, lines, org, source),
        Wish::PageUp => line_above(text, page, org, source),
        Wish::PageDown => line_below(text, page, org, source),
        Wish::Line(lines) => line_below(text, lines, 0, source),
    }
}

/// As far down in `len` characters as a row in so many rows.
fn share(len: u32, row: u8, rows: u8) -> u32
    requires { row < rows }
    ensures value { result ≡ len * row / rows }
    ensures within { result ≤ len }
{
    (u64::from(len) * u64::from(row) / u64::from(rows)) as u32
}

/// Where the line starts to which the middle button comes at a row of `h`. `Fault`: the source failed in this call.
fn share_start<S: CharSource>(text: &Text, h: u8, row: u8, source: &mut S) -> Result<u32, Fault>
    requires row { row < h }
    requires offsets { AreWithin (length (S.characters source.old)) (flat text.now) }
    ensures start { IfOk result (λ start. S.honest source.old
        → start ≡ share_start (bytes_of_text (S.characters source.old) (flat text.now)) h row) }
    ensures source { ReadsOrFails S.CharSource result source.old source.new }
{
    let pos = share(text.len(), row, h);
    let start = line_start(text, pos, source)?;
    Ok(start)
}

/// The last of `h` rows at which the middle button comes to a line that isn't behind the target, and where that line
/// starts. `Fault`: the source failed in this call.
fn share_row<S: CharSource>(
    text: &Text,
    h: u8,
    target: u32,
    source: &mut S,
) -> Result<(u8, u32), Fault>
    requires { AreWithin (length (S.characters source.old)) (flat text.now) }
    ensures row { IfOk result (λ r. S.honest source.old
        → r.0 ≡ share_row (bytes_of_text (S.characters source.old) (flat text.now)) h target) }
    ensures start { IfOk result (λ r. S.honest source.old
        → r.1 ≡ share_start (bytes_of_text (S.characters source.old) (flat text.now)) h r.0) }
    ensures before { IfOk result (λ r. r.1 ≤ target) }
    ensures source { ReadsOrFails S.CharSource result source.old source.new }
{
    for row in (1..h).rev() {
        let start = share_start(text, h, row, source)?;
        if start <= target {
            return Ok((row, start));
        }
    }
    Ok((0, 0))
}

/// How many lines a target in sight stands below the one at `org`. None where it isn't in one of `h` rows. `Fault`: the
/// source failed in this call.
pub fn lines_in_sight<S: CharSource>(
    text: &Text,
    h: u8,
    org: u32,
    target: u32,
    source: &mut S,
) -> Result<Option<u32>, Fault>
    requires { CanWalk (S.characters source.old) (flat text.now) 0 target }
    ensures lines { IfOk result (λ lines. S.honest source.old → lines
        ≡ lines_in_sight (bytes_of_text (S.characters source.old) (flat text.now)) h org target) }
    ensures from { IfOk result (λ lines. IfSome lines (λ lines. org ≤ target)) }
    ensures few { IfOk result (λ lines. IfSome lines (λ lines. lines < h)) }
    ensures source { ReadsOrFails S.CharSource result source.old source.new }
{
    if target < org {
        return Ok(None);
    }
    let lines = ends_between(text, org, target, source)?;
    if lines < h as u32 {
        return Ok(Some(lines));
    }
    Ok(None)
}

/// The way to the line that starts at the target by the middle button, of a text in `h` rows. `Fault`: the source failed
/// in this call.
fn way_by_share<S: CharSource>(
    text: &Text,
    h: u8,
    target: u32,
    source: &mut S,
) -> Result<Way, Fault>
    requires { CanWalk (S.characters source.old) (flat text.now) 0 target }
    ensures way { IfOk result (λ way. S.honest source.old
        → way ≡ way_by_share (bytes_of_text (S.characters source.old) (flat text.now)) h target) }
    ensures source { ReadsOrFails S.CharSource result source.old source.new }
{
    let (row, start) = share_row(text, h, target, source)?;
    let lines = ends_between(text, start, target, source)?;
    Ok(Way {
        share: Some(row),
        lines,
    })
}

/// The way to the line that starts at the target, of a text shown from `org` on in `h` rows. `Fault`: the source failed
/// in this call.
pub(crate) fn way_to<S: CharSource>(
    text: &Text,
    h: u8,
    org: u32,
    target: u32,
    source: &mut S,
) -> Result<Way, Fault>
    requires { CanWalk (S.characters source.old) (flat text.now) 0 target }
    ensures way { IfOk result (λ way. S.honest source.old
        → way ≡ way_to (bytes_of_text (S.characters source.old) (flat text.now)) h org target) }
    ensures source { ReadsOrFails S.CharSource result source.old source.new }
{
    let sight = lines_in_sight(text, h, org, target, source)?;
    match sight {
        Some(lines) => Ok(Way { share: None, lines }),
        None => way_by_share(text, h, target, source),
    }
}
