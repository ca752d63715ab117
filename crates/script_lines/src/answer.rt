//! The bytes of an answer.
ghost use Rattle.std.specs.Prelude.{◌≡◌, ◌+◌, ◌<◌, ◌≤◌, [], ◌∷◌, ◌++◌, length, position, Some, IfOk, IfSome, OnOk, codes};
ghost use Rattle.std.specs.Fmt.{decimal, signed_decimal};
ghost use Rattle.arrayvec.specs.ArrayVec.{array_vec_len};
ghost use Rattle.desktop_definitions.specs.declared.reply.Reply.TheVariants.{No};
ghost use Rattle.script_lines.specs.Answer.{reply_line, answer_byte, escaped_answer, is_same_look, look_words};
ghost use Rattle.script_lines.specs.Answer.{show_lines, entry_line, list_lines};
ghost use Rattle.screen_pictures.specs.Printed.{ended_line, printed};
ghost use Rattle.script_lines.specs.Stretch.{stretch_bytes, is_in_another_look, count_in};

use arrayvec::ArrayVec;
use byte_streams::hex_digit;
use desktop_definitions::{Entry, Reply};
use piece_ring::Look;
use screen_cells::Screen;
use std::alloc::{AllocError, Global};

/// A line that takes no memory.
pub type ShortLine = ArrayVec<u8, 64>;

/// A text and a line feed after it.
pub fn short_line(text: &[u8]) -> ShortLine
    requires { length text.now < 64 }
    ensures { result.items ≡ ended_line text.now }
{
    let mut line = ShortLine::new();
    line.try_extend_from_slice(text).unwrap();
    line.push(b'\n');
    line
}

/// `ok`, or `no` and the code of the refusal.
pub fn reply_bytes(reply: Reply) -> ShortLine
    ensures { result.items ≡ reply_line reply }
{
    match reply {
        Reply::Done => short_line(b"ok"),
        Reply::No(code) => refusal_bytes(code),
    }
}

/// `no` and the code.
pub fn refusal_bytes(code: u8) -> ShortLine
    ensures { result.items ≡ reply_line (No code) }
{
    numbered_line(b"no ", code as u32)
}

/// A word with its space, a number, and a line feed.
pub fn numbered_line(word: &[u8], number: u32) -> ShortLine
    requires { length word.now < 50 }
    ensures { result.items ≡ ended_line (word.now ++ decimal number) }
{
    short_line(numbered(word, number).as_slice())
}

/// A word with its space, and a number.
fn numbered(word: &[u8], number: u32) -> ArrayVec<u8, 60>
    requires { length word.now < 50 }
    ensures { result.items ≡ word.now ++ decimal number }
{
    let mut digits = itoa::Buffer::new();
    let mut text = ArrayVec::new();
    text.try_extend_from_slice(word).unwrap();
    text.try_extend_from_slice(digits.format(number).as_bytes())
        .unwrap();
    text
}

/// The lines of a file's text: one for each longest stretch of one look, and `end`.
pub fn text_bytes(alloc: Global, text: &[(u8, Look)]) -> Result<Vec<u8>, AllocError>
    ensures { IfOk result (λ bytes. bytes.items ≡ show_lines (Some text.now)) }
{
    let mut bytes = Vec::new(alloc);
    let mut rest = text;
    while let Some(first) = rest.first() {
        let (stretch, others) = rest.split_at(count_in_look(rest, first.1));
        push_stretch(&mut bytes, first.1, stretch)?;
        rest = others;
    }
    bytes.extend_from_slice(b"end\n")?;
    Ok(bytes)
}

/// Adds the line of a stretch: its look and its bytes.
fn push_stretch(text: &mut Vec<u8>, look: Look, stretch: &[(u8, Look)]) -> Result<(), AllocError>
    ensures { OnOk result (text.new.items
        ≡ text.old.items
        ++ ended_line (look_words look ++ escaped_answer (stretch_bytes stretch.now))) }
{
    push_look(text, look)?;
    push_shown(text, stretch)?;
    text.push(b'\n')?;
    Ok(())
}

/// How many characters at the beginning have the look.
fn count_in_look(text: &[(u8, Look)], look: Look) -> usize
    ensures count { result ≡ count_in look text.now }
    ensures within { result ≤ length text.now }
{
    match other_look(text, look) {
        Some(at) => at,
        None => text.len(),
    }
}

/// Where the first character in another look stands.
fn other_look(text: &[(u8, Look)], look: Look) -> Option<usize>
    ensures first { result ≡ position (is_in_another_look look) text.now }
    ensures within { IfSome result (λ at. at < length text.now) }
{
    text.iter().position(|c| !is_same(look, c.1))
}

/// Whether two looks are one.
fn is_same(a: Look, b: Look) -> bool
    ensures { result ≡ is_same_look a b }
{
    a.font == b.font && a.colour == b.colour && a.voff == b.voff
}

/// Adds font, colour and offset, each with a space after it.
fn push_look(text: &mut Vec<u8>, look: Look) -> Result<(), AllocError>
    ensures { OnOk result (text.new.items ≡ text.old.items ++ look_words look) }
{
    push_number(text, look.font as u32)?;
    push_number(text, look.colour as u32)?;
    push_signed(text, look.voff)?;
    text.push(b' ')?;
    Ok(())
}

/// Adds a number and a space after it.
fn push_number(text: &mut Vec<u8>, number: u32) -> Result<(), AllocError>
    ensures { OnOk result (text.new.items ≡ text.old.items ++ (decimal number ++ 32 ∷ [])) }
{
    let mut digits = itoa::Buffer::new();
    text.extend_from_slice(digits.format(number).as_bytes())?;
    text.push(b' ')?;
    Ok(())
}

/// Adds a number, a negative one with a minus before it.
fn push_signed(text: &mut Vec<u8>, number: i8) -> Result<(), AllocError>
    ensures { OnOk result (text.new.items ≡ text.old.items ++ signed_decimal number) }
{
    let mut digits = itoa::Buffer::new();
    text.extend_from_slice(digits.format(number).as_bytes())?;
    Ok(())
}

/// Adds the characters' bytes as a script spells them.
fn push_shown(text: &mut Vec<u8>, characters: &[(u8, Look)]) -> Result<(), AllocError>
    ensures { OnOk result (text.new.items
        ≡ text.old.items ++ escaped_answer (stretch_bytes characters.now)) }
{
    for character in characters {
        text.extend_from_slice(shown_bytes(character.0).as_slice())?;
    }
    Ok(())
}

/// Adds bytes as a script spells them.
fn push_spelled(text: &mut Vec<u8>, bytes: &[u8]) -> Result<(), AllocError>
    ensures { OnOk result (text.new.items ≡ text.old.items ++ escaped_answer bytes.now) }
{
    for byte in bytes {
        text.extend_from_slice(shown_bytes(*byte).as_slice())?;
    }
    Ok(())
}

/// A byte as a script spells it: itself, or a percent sign and two hexadecimal digits.
fn shown_bytes(byte: u8) -> ArrayVec<u8, 3>
    ensures { result.items ≡ answer_byte byte }
{
    let mut shown = ArrayVec::new();
    if matches!(byte, 32..=126) && byte != b'%' {
        shown.push(byte);
    } else {
        shown.push(b'%');
        shown.push(hex_digit(byte / 16));
        shown.push(hex_digit(byte % 16));
    }
    shown
}

/// The lines of a listing: one for each entry, and `end`.
pub fn list_bytes(alloc: Global, entries: &[Entry]) -> Result<Vec<u8>, AllocError>
    ensures { IfOk result (λ text. text.items ≡ list_lines entries.now) }
{
    let mut text = Vec::new(alloc);
    for entry in entries {
        push_entry(&mut text, entry)?;
    }
    text.extend_from_slice(b"end\n")?;
    Ok(text)
}

/// Adds the line of an entry.
fn push_entry(text: &mut Vec<u8>, entry: &Entry) -> Result<(), AllocError>
    ensures { OnOk result (text.new.items ≡ text.old.items ++ entry_line entry.now) }
{
    match entry {
        Entry::File { name, len } => push_file(text, name.as_bytes(), *len)?,
        Entry::Viewer {
            x,
            bottom,
            top,
            name,
            len,
        } => push_viewer(text, *x, *bottom, *top, name.as_bytes(), *len)?,
        Entry::Over { x, depth } => push_over(text, *x, *depth)?,
        Entry::Written(number) => text.extend_from_slice(numbered(
            b"written ",
            *number,
        ).as_slice())?,
    }
    text.push(b'\n')?;
    Ok(())
}

/// Adds what is said of a file: its name and its length.
fn push_file(text: &mut Vec<u8>, name: &[u8], len: u32) -> Result<(), AllocError>
    ensures { OnOk result (text.new.items
        ≡ text.old.items ++ (codes "file " ++ name.now ++ 32 ∷ decimal len)) }
{
    text.extend_from_slice(b"file ")?;
    text.extend_from_slice(name)?;
    text.extend_from_slice(numbered(b" ", len).as_slice())?;
    Ok(())
}

/// Adds what is said of a viewer: its column, its rows, the name in its menu and the length of its text.
fn push_viewer(
    text: &mut Vec<u8>,
    x: u8,
    bottom: u8,
    top: u8,
    name: &[u8],
    len: u32,
) -> Result<(), AllocError>
    ensures { OnOk result (text.new.items
        ≡ text.old.items ++ (codes "viewer " ++ decimal x ++ 32 ∷ decimal bottom
        ++ 32 ∷ decimal top ++ 32 ∷ escaped_answer name.now ++ 32 ∷ decimal len)) }
{
    text.extend_from_slice(b"viewer ")?;
    push_number(text, x as u32)?;
    push_number(text, bottom as u32)?;
    push_number(text, top as u32)?;
    push_spelled(text, name)?;
    text.extend_from_slice(numbered(b" ", len).as_slice())?;
    Ok(())
}

/// Adds what is said of a track over others: its column, and how many tracks there are up to it.
fn push_over(text: &mut Vec<u8>, x: u8, depth: u8) -> Result<(), AllocError>
    ensures { OnOk result (text.new.items
        ≡ text.old.items ++ (codes "over " ++ decimal x ++ 32 ∷ decimal depth)) }
{
    text.extend_from_slice(numbered(b"over ", x as u32).as_slice())?;
    text.extend_from_slice(numbered(b" ", depth as u32).as_slice())?;
    Ok(())
}

/// The printed screen. A writer in memory fails only where an allocation is refused.
pub fn screen_bytes(alloc: Global, screen: &Screen) -> Result<Vec<u8>, AllocError>
    ensures { IfOk result (λ text. text.items ≡ printed screen.now) }
{
    let mut text = Vec::new(alloc);
    match screen.print(&mut text) {
        Ok(()) => Ok(text),
        Err(_) => Err(AllocError),
    }
}
