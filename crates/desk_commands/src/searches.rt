//! A text is searched, and what was deleted or copied last is put in.
ghost use Rattle.std.specs.Prelude.{◌≡◌, ◌+◌, ◌<◌, ◌≤◌, length, take, slice_range, IfOk, IfSome, Ok, if◌then◌else◌};
ghost use Rattle.desktop_definitions.specs.Effects.{found_at, pattern_after, after_search};
ghost use Rattle.desktop_definitions.specs.DeskWords.{start_in};
ghost use Rattle.desk_core.specs.Words.{CountsFault, OnlyReads, flat, AreWithin, bytes_of_text, needs, IsOver};
ghost use Rattle.desk_core.specs.Words.{kept_desktop, Does, TellsAs};
ghost use Rattle.desk_commands.specs.Calls.{IsViewerOnTop};
ghost use Rattle.desk_commands.specs.Words.{no_caret, most_pattern, put_at_caret};

use arrayvec::ArrayVec;
use char_file::{CharSource, Fault};
use desk_core::desk::{Desk, PATTERN};
use desk_core::edits::DeskBuffer;
use desk_core::stop::StepResult;
use desk_core::views::position_in;
use desktop_definitions::{Reply, Selection, codes};
use readers_scanners::Reader;
use text_core::Text;

/// The bytes for which a text is searched.
type Pattern = ArrayVec<u8, PATTERN>;

/// The first bytes of a selection of a text, 31 at most. Fault: the source failed in this call.
fn first_bytes<S: CharSource>(
    text: &Text,
    selection: Selection,
    source: &mut S,
) -> Result<Pattern, Fault>
    requires order { selection.beg ≤ selection.end }
    requires within { selection.end ≤ length (flat text.now) }
    requires offsets { AreWithin (length (S.characters source.old)) (flat text.now) }
    ensures bytes { IfOk result (λ pattern. S.honest source.old → pattern.items
        ≡ take most_pattern (slice_range (bytes_of_text (S.characters source.old) (flat text.now))
        selection.beg selection.end)) }
    ensures few { IfOk result (λ pattern. length pattern.items ≤ most_pattern) }
    ensures reads { OnlyReads S.characters S.failures S.honest S.same_ground source.old source.new }
    ensures cause { CountsFault result (S.failures source.old) (S.failures source.new) }
{
    let mut pattern = Pattern::new();
    let mut reader = Reader::open(text, selection.beg);
    for _ in 0..(selection.end - selection.beg).min(PATTERN as u32) {
        pattern.push(reader.next_byte(source)?);
    }
    Ok(pattern)
}

/// The least position from `pos` on at which the pattern stands. None where it stands nowhere from there on. Fault: the
/// source failed in this call.
///
/// It reads each character once. The window holds those from `place` on that were read, as many as the pattern has at
/// most.
fn found_at<S: CharSource>(
    text: &Text,
    pattern: &[u8],
    pos: u32,
    source: &mut S,
) -> Result<Option<u32>, Fault>
    requires some { 0 < length pattern.now }
    requires few { length pattern.now ≤ most_pattern }
    requires place { pos ≤ length (flat text.now) }
    requires offsets { AreWithin (length (S.characters source.old)) (flat text.now) }
    ensures found { IfOk result (λ found. S.honest source.old
        → found ≡ found_at (bytes_of_text (S.characters source.old) (flat text.now)) pattern.now
        pos) }
    ensures within { IfOk result (λ found. IfSome found
        (λ p. p + length pattern.now ≤ length (flat text.now))) }
    ensures reads { OnlyReads S.characters S.failures S.honest S.same_ground source.old source.new }
    ensures cause { CountsFault result (S.failures source.old) (S.failures source.new) }
{
    let mut window = Pattern::new();
    let mut place = pos;
    let mut reader = Reader::open(text, pos);
    for _ in pos..text.len() {
        window.push(reader.next_byte(source)?);
        if window.len() == pattern.len() {
            if pattern == window.as_slice() {
                return Ok(Some(place));
            }
            window.remove(0);
            place += 1;
        }
    }
    Ok(None)
}

/// A copy of a pattern.
fn copied(bytes: &[u8]) -> Pattern
    requires { length bytes.now ≤ most_pattern }
    ensures { result.items ≡ bytes.now }
{
    let mut pattern = Pattern::new();
    pattern.try_extend_from_slice(bytes).unwrap();
    pattern
}

/// The first bytes of the newest selection, 31 at most, and without one those of the last search. Fault: the source
/// failed in this call.
fn pattern_after<S: CharSource>(desk: &Desk, source: &mut S) -> Result<Pattern, Fault>
    requires over { IsOver (S.characters source.old) (kept_desktop desk.now) }
    ensures told { TellsAs S.CharSource (λ pattern. pattern.items) result pattern_after
        source.old source.new (kept_desktop desk.now) }
    ensures few { IfOk result (λ pattern. length pattern.items ≤ most_pattern) }
{
    let Some(selection) = desk.newest() else {
        return Ok(copied(desk.pattern.as_slice()));
    };
    let text = desk.main_text(selection.viewer);
    first_bytes(text, selection, source)
}

/// The caret goes after the first place with the pattern in a viewer's main text, from where it stands there or
/// else from the beginning, and is shown. Refused without a pattern, and where it isn't found; the old pattern then
/// stays.
pub fn search<S: CharSource>(desk: &mut Desk, id: u16, source: &mut S) -> StepResult
    requires { IsViewerOnTop (S.characters source.old) (kept_desktop desk.old) id }
    ensures { Does S.CharSource (λ d. after_search d id) result
        source.old source.new (kept_desktop desk.old) (kept_desktop desk.new) }
{
    let pattern = pattern_after(desk, source)?;
    if pattern.is_empty() {
        return Ok(Reply::No(codes::NO_SELECTION));
    }
    let start = start_in(desk, id);
    let text = desk.main_text(id);
    let Some(pos) = found_at(text, pattern.as_slice(), start, source)? else {
        return Ok(Reply::No(codes::NOT_FOUND));
    };
    desk.show_caret(id, pos + pattern.len() as u32, source)?;
    desk.pattern = pattern;
    Ok(Reply::Done)
}

/// Where a search starts in a viewer's main text: at the caret, and where that isn't there at the beginning.
fn start_in(desk: &Desk, id: u16) -> u32
    ensures { result ≡ start_in id (kept_desktop desk.now).caret }
{
    position_in(id, desk.caret).unwrap_or(0)
}

/// What was deleted last is put in at the caret. Refused without a caret.
pub fn recall_deleted<S: CharSource>(desk: &mut Desk, source: &mut S) -> StepResult
    requires over { IsOver (S.characters source.old) (kept_desktop desk.old) }
    ensures { Does S.CharSource (λ d. needs d.caret no_caret λ c. Ok (put_at_caret d d.deleted c))
        result
        source.old source.new (kept_desktop desk.old) (kept_desktop desk.new) }
{
    desk.put_buffer(DeskBuffer::Deleted, source)
}
