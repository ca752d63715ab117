//! How a line is cut that has more characters than a window has columns: its first words stay, and they stay whole.
ghost use Rattle.std.specs.Prelude.{◌≡◌, ◌≤◌, length};
ghost use Rattle.status_line.specs.Fitting.{letter_at, ends, part_ends, word_ends, is_mark, last_cut, or_shorter};
ghost use Rattle.status_line.specs.Fitting.{kept_by_parts, unless_none, parts_within, kept_by_words, words_within};

use crate::saying::SayingLine;

/// The byte of a line at a place, or 0 behind its end.
fn letter_at(line: &[u8], at: usize) -> u8
    ensures { result ≡ letter_at line.now at }
{
    line.get(at).copied().unwrap_or(0)
}

/// Whether a byte is a comma, a colon, a semicolon or a period.
fn is_mark(byte: u8) -> bool
    ensures { result ≡ is_mark byte }
{
    byte == b',' || byte == b':' || byte == b';' || byte == b'.'
}

/// Whether a part of a line ends before a place: a mark stands there, and a blank behind it.
#[tactic(auto, unfolding(crate::specs::Fitting::part_ends))]
fn part_ends(line: &[u8], at: usize) -> bool
    requires { at ≤ 80 }
    ensures { result ≡ part_ends line.now at }
{
    is_mark(letter_at(line, at)) && letter_at(line, at + 1) == b' '
}

/// Whether a word does: a blank stands there.
#[tactic(auto, unfolding(crate::specs::Fitting::word_ends))]
fn word_ends(line: &[u8], at: usize) -> bool
    ensures { result ≡ word_ends line.now at }
{
    letter_at(line, at) == b' '
}

/// Whether a part of a line ends before a place, or a word.
fn ends(parts: bool, line: &[u8], at: usize) -> bool
    requires { at ≤ 80 }
    ensures { result ≡ ends parts line.now at }
{
    if parts {
        part_ends(line, at)
    } else {
        word_ends(line, at)
    }
}

/// The last place up to that before which a part of a line ends, or a word. 0 where there is none.
fn last_cut(parts: bool, line: &[u8], most: usize) -> usize
    requires { most ≤ 80 }
    ensures place { result ≡ last_cut parts line.now most }
    ensures within { result ≤ most }
{
    let mut last = 0;
    for at in 0..most {
        if ends(parts, line, at + 1) {
            last = at + 1;
        }
    }
    last
}

/// A number, or another one where it is 0.
fn unless_none(number: usize, other: usize) -> usize
    ensures { result ≡ unless_none number other }
{
    if number == 0 { other } else { number }
}

/// How many characters stay of a line where there is room for so many: its last word that fits ends there.
#[tactic(auto, unfolding(crate::specs::Fitting::kept_by_words))]
fn kept_by_words(room: usize, line: &[u8]) -> usize
    requires { room ≤ 80 }
    ensures value { result ≡ kept_by_words room line.now }
    ensures within { result ≤ room }
{
    unless_none(last_cut(false, line, room), room)
}

/// The same where the line is cut behind a part, if one fits.
#[tactic(auto, unfolding(crate::specs::Fitting::kept_by_parts))]
fn kept_by_parts(room: usize, line: &[u8]) -> usize
    requires { room ≤ 80 }
    ensures value { result ≡ kept_by_parts room line.now }
    ensures within { result ≤ room }
{
    unless_none(last_cut(true, line, room), kept_by_words(room, line))
}

/// A line up to its last word that fits.
#[tactic(auto, unfolding(crate::specs::Fitting::words_within))]
pub(crate) fn words_within(room: usize, line: &[u8]) -> &[u8]
    requires { room ≤ 80 }
    ensures value { result.now ≡ words_within room line.now }
    ensures fits { length result.now ≤ room }
{
    if line.len() <= room {
        line
    } else {
        &line[..kept_by_words(room, line)]
    }
}

/// A line up to its last part that fits.
#[tactic(auto, unfolding(crate::specs::Fitting::parts_within))]
pub(crate) fn parts_within(room: usize, line: &[u8]) -> &[u8]
    requires { room ≤ 80 }
    ensures value { result.now ≡ parts_within room line.now }
    ensures fits { length result.now ≤ room }
{
    if line.len() <= room {
        line
    } else {
        &line[..kept_by_parts(room, line)]
    }
}

/// A line, or another one where there is no room for it.
pub(crate) fn or_shorter(room: usize, line: SayingLine, short: SayingLine) -> SayingLine
    requires { length short.items ≤ room }
    ensures value { result.items ≡ or_shorter room line.items short.items }
    ensures fits { length result.items ≤ room }
{
    if line.len() <= room { line } else { short }
}
