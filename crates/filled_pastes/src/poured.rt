//! What is pasted where lines are filled.
//!
//! A paste is typed by few events, and not letter by letter. So where its first word stands, if that has room, the ends of
//! its lines are worked out at once: one comes before each word for which its line has no room.
ghost use Rattle.std.specs.Prelude.{◌≡◌, ◌+◌, ◌*◌, ◌≤◌, ◌<◌, ◌++◌, ◌&&◌, length, nat_lt, not, position, false, IfSome};
ghost use Rattle.filled_pastes.specs.Poured.{column_then, column_from, ended, is_gap, parts_words, poured, poured_at};
ghost use Rattle.filled_pastes.specs.Poured.{text_columns, text_left, text_right, turns, word_length};

use arrayvec::ArrayVec;
use event_bytes::{CARRIAGE_RETURN, TABULATOR};
use viewer_tracks::{COLUMNS, SYSTEM_LEFT};

/// The most bytes of a paste that are typed at a time: as many as one event types.
pub const MOST_PASTED: usize = 900;

/// Room for what is typed for so many bytes, were an end of line put before each of them, and one behind.
const MOST_POURED: usize = 2 * MOST_PASTED + 1;

/// Bytes that are typed.
type Poured = ArrayVec<u8, MOST_POURED>;

/// Whether a byte is a blank.
pub fn is_gap(byte: u8) -> bool
    ensures { result ≡ is_gap byte }
{
    byte == b' ' || byte == TABULATOR
}

/// Whether a byte stands between words.
fn parts_words(byte: u8) -> bool
    ensures { result ≡ parts_words byte }
{
    is_gap(byte) || byte == CARRIAGE_RETURN
}

/// The place of the first byte that stands between words.
fn word_end(bytes: &[u8]) -> Option<usize>
    ensures value { result ≡ position parts_words bytes.now }
    ensures within { IfSome result (λ at. at < length bytes.now) }
{
    bytes.iter().position(|byte| parts_words(*byte))
}

/// How many bytes the word has that these begin with.
pub fn word_length(bytes: &[u8]) -> usize
    ensures value { result ≡ word_length bytes.now }
    ensures within { result ≤ length bytes.now }
{
    match word_end(bytes) {
        None => bytes.len(),
        Some(count) => count,
    }
}

/// The column behind a byte that stands in a column of `w`: `w` behind the last one, and 0 behind the end of a line.
pub fn column_then(w: usize, column: usize, byte: u8) -> usize
    requires column { column ≤ 255 }
    requires width { w ≤ 255 }
    ensures value { result ≡ column_then w column byte }
    ensures within { result ≤ 255 }
{
    if byte == CARRIAGE_RETURN {
        return 0;
    }
    let next = if byte == TABULATOR {
        column / 4 * 4 + 4
    } else {
        column + 1
    };
    next.min(w)
}

/// Whether a word begins there that would pass the edge, and it isn't the first one of its line.
fn turns(w: usize, column: usize, begins: bool, bytes: &[u8]) -> bool
    requires column { column ≤ 255 }
    requires short { length bytes.now ≤ 900 }
    ensures { result ≡ turns w column begins bytes.now }
{
    if !(begins && column > 0) {
        return false;
    }
    let count = word_length(bytes);
    count > 0 && column + count >= w
}

/// A line ends, if it is to end there.
fn end_if(ends: bool, bytes: &mut Poured)
    requires { length bytes.old.items < MOST_POURED }
    ensures value { bytes.new.items ≡ bytes.old.items ++ ended ends }
    ensures few { length bytes.new.items ≤ length bytes.old.items + 1 }
{
    if ends {
        bytes.push(CARRIAGE_RETURN);
    }
}

/// The column in which a word stands before which a line may end.
fn column_from(ends: bool, column: usize) -> usize
    ensures { result ≡ column_from ends column }
{
    if ends { 0 } else { column }
}

/// Whether a line ends where nothing follows: behind a blank in its last column.
fn ends_behind(w: usize, column: usize, begins: bool) -> bool
    ensures { result ≡ (begins && not (nat_lt column w)) }
{
    begins && column >= w
}

/// What is typed for these bytes from a column of `w` on, where a word goes on.
fn typed_from(w: usize, column: usize, bytes: &[u8]) -> Poured
    requires width { w ≤ 255 }
    requires column { column ≤ 255 }
    requires short { length bytes.now ≤ 900 }
    ensures { result.items ≡ poured w column false bytes.now }
{
    let mut typed = ArrayVec::new();
    let mut at = column;
    let mut begins = false;
    for i in 0..bytes.len() {
        let ends = turns(w, at, begins, &bytes[i..]);
        end_if(ends, &mut typed);
        let byte = bytes[i];
        typed.push(byte);
        at = column_then(w, column_from(ends, at), byte);
        begins = parts_words(byte);
    }
    let ends = ends_behind(w, at, begins);
    end_if(ends, &mut typed);
    typed
}

/// The first column of the text of a viewer that has this column of the display.
fn text_left(x: u8) -> u8
    ensures value { result ≡ text_left x }
    ensures within { result ≤ SYSTEM_LEFT + 1 }
{
    if x < SYSTEM_LEFT { 1 } else { SYSTEM_LEFT + 1 }
}

/// The column of the display behind the last one of that text.
fn text_right(x: u8) -> u8
    ensures value { result ≡ text_right x }
    ensures within { result ≤ COLUMNS }
{
    if x < SYSTEM_LEFT {
        SYSTEM_LEFT
    } else {
        COLUMNS
    }
}

/// How many columns of text a viewer has that has a column of the display.
pub fn text_columns(x: u8) -> u8
    ensures { result ≡ text_columns x }
{
    text_right(x).saturating_sub(text_left(x))
}

/// What is typed for these bytes, 900 at most, from a column of the display on, where a word goes on: the bytes, and an end of
/// line before each word for which its line has no room.
pub fn poured_at(x: u8, bytes: &[u8]) -> ArrayVec<u8, MOST_POURED>
    requires { length bytes.now ≤ 900 }
    ensures { result.items ≡ poured_at x bytes.now }
{
    let left = text_left(x);
    let w = text_right(x).saturating_sub(left);
    typed_from(usize::from(w), usize::from(x.saturating_sub(left)), bytes)
}
