//! The places of a text at which words are.
ghost use Rattle.std.specs.Prelude.{◌≡◌, ◌<◌, ◌≤◌, ◌+◌, length, drop, take, fold, position, IfSome, unwrap_or};
ghost use Rattle.desktop_definitions.specs.Effects.{found_at};
ghost use Rattle.filled_pastes.specs.Poured.{column_then};
ghost use Rattle.sought_words.specs.Places.{place_column, found_before, going_on, is_at_edge, closes_line, line_end_from, place_line};
ghost use Rattle.sought_words.specs.Places.{reached_column, ended_lines, one_line_more, stands_at};

use event_bytes::CARRIAGE_RETURN;
use filled_pastes::column_then;

/// The bytes from a place on. None where the place is behind them all.
fn behind(bytes: &[u8], count: usize) -> &[u8]
    ensures { result.now ≡ drop count bytes.now }
{
    if count < bytes.len() {
        &bytes[count..]
    } else {
        &[]
    }
}

/// The first bytes, so many of them.
fn front(bytes: &[u8], count: usize) -> &[u8]
    ensures { result.now ≡ take count bytes.now }
{
    if count < bytes.len() {
        &bytes[..count]
    } else {
        bytes
    }
}

/// Whether the words are at that place.
fn stands_at(bytes: &[u8], words: &[u8], place: usize) -> bool
    ensures { result ≡ stands_at bytes.now words.now place }
{
    words == front(behind(bytes, place), words.len())
}

/// The least place from `from` on at which the words are. None where they are nowhere from there on.
pub(crate) fn found_at(bytes: &[u8], words: &[u8], from: usize) -> Option<usize>
    requires { 0 < length words.now }
    ensures { result ≡ found_at bytes.now words.now from }
{
    for place in from..bytes.len() {
        if stands_at(bytes, words, place) {
            return Some(place);
        }
    }
    None
}

/// The greatest place before `end` at which the words are. None where they are nowhere before it.
pub(crate) fn found_before(bytes: &[u8], words: &[u8], end: usize) -> Option<usize>
    ensures { result ≡ found_before bytes.now words.now end }
{
    for place in (0..end).rev() {
        if stands_at(bytes, words, place) {
            return Some(place);
        }
    }
    None
}

/// Whether a byte ends a line.
fn closes_line(byte: u8) -> bool
    ensures { result ≡ closes_line byte }
{
    byte == CARRIAGE_RETURN
}

/// How many lines there are behind a byte, where there were so many before it.
fn one_line_more(lines: usize, byte: u8) -> usize
    ensures { result ≡ one_line_more lines byte }
{
    if closes_line(byte) {
        lines.saturating_add(1)
    } else {
        lines
    }
}

/// How many lines end in these bytes.
fn ended_lines(bytes: &[u8]) -> usize
    ensures { result ≡ ended_lines bytes.now }
{
    let mut lines = 0;
    for byte in bytes {
        lines = one_line_more(lines, *byte);
    }
    lines
}

/// How many lines end before a place.
pub(crate) fn place_line(bytes: &[u8], place: usize) -> usize
    ensures { result ≡ place_line bytes.now place }
{
    ended_lines(front(bytes, place))
}

/// The column behind these bytes in a viewer of `width` columns of text, and `width` where that is right of the last one.
fn reached_column(width: usize, bytes: &[u8]) -> usize
    requires { width ≤ 255 }
    ensures value { result ≡ reached_column width bytes.now }
    ensures within { result ≤ 255 }
{
    let mut column = 0;
    for byte in bytes {
        column = column_then(width, column, *byte);
    }
    column
}

/// The column of a place in a viewer of `width` columns of text, and `width` where it stands right of the last one.
fn place_column(bytes: &[u8], width: usize, place: usize) -> usize
    requires { width ≤ 255 }
    ensures value { result ≡ place_column bytes.now width place }
    ensures within { result ≤ 255 }
{
    reached_column(width, front(bytes, place))
}

/// Whether the caret stands there in the last column, before a character that goes beyond it.
fn is_at_edge(bytes: &[u8], width: usize, place: usize) -> bool
    requires { width ≤ 255 }
    ensures { result ≡ is_at_edge bytes.now width place }
{
    let column = place_column(bytes, width, place);
    match behind(bytes, place).first() {
        None => false,
        Some(byte) => column < width && column_then(width, column, *byte) >= width,
    }
}

/// The place of the first byte that ends a line.
fn first_end(bytes: &[u8]) -> Option<usize>
    ensures value { result ≡ position closes_line bytes.now }
    ensures within { IfSome result (λ at. at < length bytes.now) }
{
    bytes.iter().position(|byte| closes_line(*byte))
}

/// Where the line ends in which that place is.
fn line_end_from(bytes: &[u8], place: usize) -> usize
    ensures { result ≡ line_end_from bytes.now place }
{
    match first_end(behind(bytes, place)) {
        None => bytes.len(),
        Some(count) => place + count,
    }
}

/// Where a search goes on from the caret: where that can go no further in its line, at the end of the line.
#[tactic(auto, unfolding(crate::specs::Places::going_on))]
pub(crate) fn going_on(bytes: &[u8], width: usize, place: usize) -> usize
    requires { width ≤ 255 }
    ensures { result ≡ going_on bytes.now width place }
{
    if is_at_edge(bytes, width, place) {
        line_end_from(bytes, place)
    } else {
        place
    }
}
