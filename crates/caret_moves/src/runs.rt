//! Where words of a text begin and end.
ghost use Rattle.std.specs.Prelude.{◌≡◌, ◌≤◌, length, IfOk};
ghost use Rattle.readers_scanners.specs.Words.{ReadsOrFails, flat, AreWithin, bytes_of_text};
ghost use Rattle.text_frames.specs.Walks.{CanWalk};
ghost use Rattle.caret_moves.specs.Runs.{separates_words, is_of_run, run_end, run_start, next_word, word_before};

use char_file::{CharSource, Fault};
use event_bytes::{CARRIAGE_RETURN, TABULATOR};
use readers_scanners::{BackReader, Reader};
use text_core::Text;

/// Whether a byte stands between words.
fn separates_words(byte: u8) -> bool
    ensures { result ≡ separates_words byte }
{
    byte == b' ' || byte == TABULATOR || byte == CARRIAGE_RETURN
}

/// Whether a byte is of a run: of what stands between words, or of a word.
#[tactic(auto, unfolding(crate::specs::Runs::is_of_run))]
fn is_of_run(gaps: bool, byte: u8) -> bool
    ensures { result ≡ is_of_run gaps byte }
{
    if gaps {
        separates_words(byte)
    } else {
        !separates_words(byte)
    }
}

/// Where a run ends that begins at the position. `Fault`: the source failed in this call.
fn run_end<S: CharSource>(text: &Text, gaps: bool, pos: u32, source: &mut S) -> Result<u32, Fault>
    requires { CanWalk (S.characters source.old) (flat text.now) 0 pos }
    ensures end { IfOk result (λ end. S.honest source.old
        → end ≡ run_end gaps (bytes_of_text (S.characters source.old) (flat text.now)) pos) }
    ensures within { IfOk result (λ end. end ≤ length (flat text.now)) }
    ensures source { ReadsOrFails S.CharSource result source.old source.new }
{
    let mut reader = Reader::open(text, pos);
    for at in pos..text.len() {
        let byte = reader.next_byte(source)?;
        if !is_of_run(gaps, byte) {
            return Ok(at);
        }
    }
    Ok(text.len())
}

/// Where a run begins that ends before the position. `Fault`: the source failed in this call.
pub(crate) fn run_start<S: CharSource>(
    text: &Text,
    gaps: bool,
    pos: u32,
    source: &mut S,
) -> Result<u32, Fault>
    requires { CanWalk (S.characters source.old) (flat text.now) 0 pos }
    ensures start { IfOk result (λ start. S.honest source.old
        → start ≡ run_start gaps (bytes_of_text (S.characters source.old) (flat text.now)) pos) }
    ensures within { IfOk result (λ start. start ≤ pos) }
    ensures source { ReadsOrFails S.CharSource result source.old source.new }
{
    let mut reader = BackReader::open(text, pos);
    for at in (0..pos).rev() {
        let byte = reader.previous_byte(source)?;
        if !is_of_run(gaps, byte) {
            return Ok(at + 1);
        }
    }
    Ok(0)
}

/// Where the next word begins, or the text ends. `Fault`: the source failed in this call.
pub(crate) fn next_word<S: CharSource>(text: &Text, pos: u32, source: &mut S) -> Result<u32, Fault>
    requires { CanWalk (S.characters source.old) (flat text.now) 0 pos }
    ensures start { IfOk result (λ start. S.honest source.old
        → start ≡ next_word (bytes_of_text (S.characters source.old) (flat text.now)) pos) }
    ensures within { IfOk result (λ start. start ≤ length (flat text.now)) }
    ensures source { ReadsOrFails S.CharSource result source.old source.new }
{
    let gap = run_end(text, false, pos, source)?;
    let start = run_end(text, true, gap, source)?;
    Ok(start)
}

/// Where the word before the position begins, or the text. `Fault`: the source failed in this call.
pub(crate) fn word_before<S: CharSource>(
    text: &Text,
    pos: u32,
    source: &mut S,
) -> Result<u32, Fault>
    requires { CanWalk (S.characters source.old) (flat text.now) 0 pos }
    ensures start { IfOk result (λ start. S.honest source.old
        → start ≡ word_before (bytes_of_text (S.characters source.old) (flat text.now)) pos) }
    ensures within { IfOk result (λ start. start ≤ length (flat text.now)) }
    ensures source { ReadsOrFails S.CharSource result source.old source.new }
{
    let gap = run_start(text, true, pos, source)?;
    let start = run_start(text, false, gap, source)?;
    Ok(start)
}
