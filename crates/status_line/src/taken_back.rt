//! What was taken back, or done again, in words.
ghost use Rattle.std.specs.Prelude.{◌≡◌, ◌≤◌, ◌++◌, codes, length};
ghost use Rattle.std.specs.Fmt.{decimal};
ghost use Rattle.status_line.specs.Sayings.{called, count_told, told, is_cut, told_back, word_told};
ghost use Rattle.screen_reading.specs.Frames.{track_end};

use crate::deed::Deed;
use crate::saying::{SayingLine, line};
use screen_cells::Screen;
use screen_reading::{called_word, word_from};
use viewer_tracks::{COLUMNS, SYSTEM_LEFT};

/// The column behind the track of a column.
fn track_end(x: u8) -> usize
    ensures { result ≡ track_end x }
{
    if x < SYSTEM_LEFT {
        usize::from(SYSTEM_LEFT)
    } else {
        usize::from(COLUMNS)
    }
}

/// Whether the word at a cell goes up to the edge of its track, and may go on beyond it.
fn is_cut(screen: &Screen, x: u8, y: u8) -> bool
    ensures { result ≡ is_cut screen.now x y }
{
    usize::from(x) + word_from(screen, x, y).len() == track_end(x)
}

/// The word at a cell, and two periods where it may go on beyond the edge.
fn word_told(screen: &Screen, x: u8, y: u8) -> SayingLine
    ensures value { result.items ≡ word_told screen.now x y }
    ensures short { length result.items ≤ 33 }
{
    let word = called_word(screen, x, y);
    if is_cut(screen, x, y) {
        cut_word(word.as_slice())
    } else {
        line(word.as_slice())
    }
}

/// A word, and two periods for what isn't seen of it.
fn cut_word(word: &[u8]) -> SayingLine
    requires { length word.now ≤ 31 }
    ensures value { result.items ≡ word.now ++ codes ".." }
    ensures short { length result.items ≤ 33 }
{
    let mut text = line(word);
    text.try_extend_from_slice(b"..").unwrap();
    text
}

/// What was taken back. The screen is as it was before, and so shows the word that was called.
#[tactic(auto, unfolding(crate::specs::Sayings::told_back))]
pub(crate) fn told_back(screen: &Screen, deed: Deed) -> SayingLine
    ensures { result.items ≡ told_back screen.now deed }
{
    match deed {
        Deed::Call { x, y } => {
            let word = word_told(screen, x, y);
            called(word.as_slice(), deed)
        }
        other => told(b"undid: ", other),
    }
}

/// The word that was called is taken back; where none is seen, that it was one.
#[tactic(auto, unfolding(crate::specs::Sayings::called))]
fn called(word: &[u8], deed: Deed) -> SayingLine
    requires { length word.now ≤ 33 }
    ensures { result.items ≡ called word.now deed }
{
    if word.is_empty() {
        return told(b"undid: ", deed);
    }
    let mut text = line(b"undid: ");
    text.try_extend_from_slice(word).unwrap();
    text
}

/// A number behind these words.
fn counted(before: &[u8], count: u32) -> SayingLine
    requires { length before.now ≤ 9 }
    ensures value { result.items ≡ before.now ++ decimal count }
    ensures short { length result.items ≤ 19 }
{
    let mut digits = itoa::Buffer::new();
    let mut text = line(before);
    text.try_extend_from_slice(digits.format(count).as_bytes())
        .unwrap();
    text
}

/// How many characters were typed, or how many documents came.
fn count_told(deed: Deed) -> SayingLine
    ensures value { result.items ≡ count_told deed }
    ensures short { length result.items ≤ 19 }
{
    match deed {
        Deed::Typed(count) => counted(b"typed ", count),
        Deed::Import(count) => counted(b"imported ", count),
        _ => SayingLine::new(),
    }
}

/// What was taken back, or done again.
#[tactic(auto, unfolding(crate::specs::Sayings::told))]
pub(crate) fn told(before: &[u8], deed: Deed) -> SayingLine
    requires { length before.now ≤ 11 }
    ensures { result.items ≡ told before.now deed }
{
    let mut text = line(before);
    text.try_extend_from_slice(count_told(deed).as_slice())
        .unwrap();
    text.try_extend_from_slice(deed.words()).unwrap();
    text
}
