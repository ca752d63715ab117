//! A paragraph that is filled: its words come where its lines have room.
//!
//! A line ends before a word for which it has no room, and goes on where it has room for the first word of the next one. A
//! paragraph begins at a line behind one that is blank, or before one that begins with a blank.
ghost use Rattle.std.specs.Prelude.{◌≡◌, ◌≤◌, ◌+◌, drop, take, slice_get, slice_range, nat_lt};
ghost use Rattle.std.specs.List.{list_any};
ghost use Rattle.text_frames.specs.Lines.{ends_line, line_start};
ghost use Rattle.filled_pastes.specs.Paragraphs.{blanks_missing, text_column_at, text_column_behind, due_from, edit_at, end_from};
ghost use Rattle.filled_pastes.specs.Paragraphs.{ends_at, fill_edit, follows_blank, go_on, runs_on, has_place, is_gap_there};
ghost use Rattle.filled_pastes.specs.Paragraphs.{is_to_do, is_no_gap, is_in_reach, is_visible, is_written, last_seen, line_before};
ghost use Rattle.filled_pastes.specs.Paragraphs.{paragraph_start, stops_at, turns_at, word_length_at};

use crate::edits::Edit;
use crate::poured::{column_then, is_gap, word_length};
use event_bytes::CARRIAGE_RETURN;

/// The bytes from a place on. None where the place is behind them all.
fn behind(bytes: &[u8], count: usize) -> &[u8]
    ensures { result.now ≡ drop count bytes.now }
{
    if count < bytes.len() {
        &bytes[count..]
    } else {
        &[]
    }
}

/// The first bytes, so many of them.
fn front(bytes: &[u8], count: usize) -> &[u8]
    ensures { result.now ≡ take count bytes.now }
{
    if count < bytes.len() {
        &bytes[..count]
    } else {
        bytes
    }
}

/// The bytes between two places.
fn between(bytes: &[u8], from: usize, to: usize) -> &[u8]
    ensures { result.now ≡ slice_range bytes.now from to }
{
    front(behind(bytes, from), to.saturating_sub(from))
}

/// The byte at a place.
fn byte_at(bytes: &[u8], place: usize) -> Option<u8>
    ensures { result ≡ slice_get bytes.now place }
{
    bytes.get(place).copied()
}

/// Whether a line ends at a place.
fn ends_at(bytes: &[u8], place: usize) -> bool
    ensures { result ≡ ends_at bytes.now place }
{
    match byte_at(bytes, place) {
        None => false,
        Some(byte) => byte == CARRIAGE_RETURN,
    }
}

/// Where the line of a place begins.
fn line_start(bytes: &[u8], place: usize) -> usize
    ensures { result ≡ line_start bytes.now place }
{
    for at in (0..place).rev() {
        if ends_at(bytes, at) {
            return at + 1;
        }
    }
    0
}

/// The line of a place before it.
fn line_before(bytes: &[u8], place: usize) -> &[u8]
    ensures { result.now ≡ line_before bytes.now place }
{
    between(bytes, line_start(bytes, place), place)
}

/// Whether something but blanks stands among these bytes.
fn any_letter(bytes: &[u8]) -> bool
    ensures { result ≡ list_any is_no_gap bytes.now }
{
    bytes.iter().any(|byte| !is_gap(*byte))
}

/// Whether something but blanks stands in the line of a place before it.
fn is_written(bytes: &[u8], place: usize) -> bool
    ensures { result ≡ is_written bytes.now place }
{
    any_letter(line_before(bytes, place))
}

/// The column behind these bytes in a viewer of `width` columns of text, and `width` where that is right of the last one.
fn text_column_behind(bytes: &[u8], width: usize) -> usize
    requires { width ≤ 255 }
    ensures value { result ≡ text_column_behind width bytes.now }
    ensures within { result ≤ 255 }
{
    let mut column = 0;
    for byte in bytes {
        column = column_then(width, column, *byte);
    }
    column
}

/// The column of a place.
fn text_column_at(bytes: &[u8], width: usize, place: usize) -> usize
    requires { width ≤ 255 }
    ensures value { result ≡ text_column_at bytes.now width place }
    ensures within { result ≤ 255 }
{
    text_column_behind(line_before(bytes, place), width)
}

/// How many characters the word has that begins at a place.
fn word_length_at(bytes: &[u8], place: usize) -> usize
    ensures { result ≡ word_length_at bytes.now place }
{
    word_length(behind(bytes, place))
}

/// Whether a blank stands right before a place.
#[tactic(auto, unfolding(crate::specs::Paragraphs::follows_blank))]
fn follows_blank(bytes: &[u8], place: usize) -> bool
    ensures { result ≡ follows_blank bytes.now place }
{
    if place == 0 {
        return false;
    }
    match byte_at(bytes, place - 1) {
        None => false,
        Some(byte) => is_gap(byte),
    }
}

/// Whether a word of so many characters has room in a line that goes as far as a column.
fn has_room(column: usize, count: usize, width: usize) -> bool
    ensures { result ≡ nat_lt (column + count) width }
{
    count < width.saturating_sub(column)
}

/// Whether a line ends there within a paragraph: something is written before it, and the next line begins with a word.
#[tactic(auto, unfolding(crate::specs::Paragraphs::runs_on))]
fn runs_on(bytes: &[u8], place: usize) -> bool
    ensures { result ≡ runs_on bytes.now place }
{
    ends_at(bytes, place)
        && is_written(bytes, place)
        && word_length_at(bytes, place.saturating_add(1)) > 0
}

/// Whether a word begins there that passes the edge, and isn't the first one of its line.
#[tactic(auto, unfolding(crate::specs::Paragraphs::turns_at))]
fn turns_at(bytes: &[u8], width: usize, place: usize) -> bool
    requires { width ≤ 255 }
    ensures { result ≡ turns_at bytes.now width place }
{
    if !follows_blank(bytes, place) || !is_written(bytes, place) {
        return false;
    }
    let count = word_length_at(bytes, place);
    count > 0 && !has_room(text_column_at(bytes, width, place), count, width)
}

/// Whether a place is in sight.
fn is_visible(bytes: &[u8], width: usize, place: usize) -> bool
    requires { width ≤ 255 }
    ensures { result ≡ is_visible bytes.now width place }
{
    text_column_at(bytes, width, place) < width
}

/// The last place up to this one that is in sight.
fn last_seen(bytes: &[u8], width: usize, place: usize) -> usize
    requires { width ≤ 255 }
    ensures { result ≡ last_seen bytes.now width place }
{
    for at in (0..place).rev() {
        if is_visible(bytes, width, at + 1) {
            return at + 1;
        }
    }
    0
}

/// Whether a place comes into sight where its line is torn at the last place that is.
#[tactic(auto, unfolding(crate::specs::Paragraphs::is_in_reach))]
fn is_in_reach(bytes: &[u8], width: usize, place: usize) -> bool
    requires { width ≤ 255 }
    ensures { result ≡ is_in_reach bytes.now width place }
{
    let seen = last_seen(bytes, width, place);
    text_column_behind(between(bytes, seen, place), width) < width
}

/// A line is to end at a place, of which the last one in sight is this.
fn end_from(seen: usize, place: usize) -> Edit
    ensures { result ≡ end_from seen place }
{
    if seen == place {
        Edit::Ends(place)
    } else {
        Edit::Tears(seen, place)
    }
}

/// How many blanks are missing before the end of a line.
fn blanks_missing(bytes: &[u8], place: usize) -> usize
    ensures value { result ≡ blanks_missing bytes.now place }
    ensures within { result ≤ 1 }
{
    if follows_blank(bytes, place) { 0 } else { 1 }
}

/// Whether the line that ends at a place has room for the first word of the next one.
#[tactic(auto, unfolding(crate::specs::Paragraphs::has_place))]
fn has_place(bytes: &[u8], width: usize, place: usize) -> bool
    requires { width ≤ 255 }
    ensures { result ≡ has_place bytes.now width place }
{
    let column = text_column_at(bytes, width, place) + blanks_missing(bytes, place);
    has_room(
        column,
        word_length_at(bytes, place.saturating_add(1)),
        width,
    )
}

/// The line that ends at a place is to go on.
fn go_on(bytes: &[u8], place: usize) -> Edit
    ensures { result ≡ go_on bytes.now place }
{
    if follows_blank(bytes, place) {
        Edit::Joins(place)
    } else {
        Edit::Blanks(place)
    }
}

/// What is to be done at a place.
#[tactic(auto, unfolding(crate::specs::Paragraphs::edit_at))]
fn edit_at(bytes: &[u8], width: usize, place: usize) -> Option<Edit>
    requires { width ≤ 255 }
    ensures { result ≡ edit_at bytes.now width place }
{
    if turns_at(bytes, width, place) && is_in_reach(bytes, width, place) {
        return Some(end_from(last_seen(bytes, width, place), place));
    }
    if runs_on(bytes, place) && has_place(bytes, width, place) {
        return Some(go_on(bytes, place));
    }
    None
}

/// Whether a paragraph ends at a place.
#[tactic(auto, unfolding(crate::specs::Paragraphs::stops_at))]
fn stops_at(bytes: &[u8], place: usize) -> bool
    ensures { result ≡ stops_at bytes.now place }
{
    ends_at(bytes, place) && !runs_on(bytes, place)
}

/// Where the paragraph of a place begins.
fn paragraph_start(bytes: &[u8], place: usize) -> usize
    ensures { result ≡ paragraph_start bytes.now place }
{
    for at in (0..place).rev() {
        if stops_at(bytes, at) {
            return at + 1;
        }
    }
    0
}

/// Whether a paragraph ends at a place, or something is to be done there.
#[tactic(auto, unfolding(crate::specs::Paragraphs::is_to_do))]
fn is_to_do(bytes: &[u8], width: usize, place: usize) -> bool
    requires { width ≤ 255 }
    ensures { result ≡ is_to_do bytes.now width place }
{
    stops_at(bytes, place) || edit_at(bytes, width, place).is_some()
}

/// The first such place from one on.
fn due_from(bytes: &[u8], width: usize, start: usize) -> Option<usize>
    requires { width ≤ 255 }
    ensures { result ≡ due_from bytes.now width start }
{
    for place in start..bytes.len() {
        if is_to_do(bytes, width, place) {
            return Some(place);
        }
    }
    None
}

/// What is to be done first so that the paragraph of a place is filled, in a text of which a viewer shows `width` columns.
/// None where it is filled. A word that is longer than two lines can't be passed: what is behind it in its line stays there.
#[tactic(auto, unfolding(crate::specs::Paragraphs::fill_edit))]
pub fn fill_edit(bytes: &[u8], width: usize, place: usize) -> Option<Edit>
    requires { width ≤ 255 }
    ensures { result ≡ fill_edit bytes.now width place }
{
    match due_from(bytes, width, paragraph_start(bytes, place)) {
        None => None,
        Some(due) => edit_at(bytes, width, due),
    }
}
