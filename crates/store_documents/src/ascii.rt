//! Characters that no document has, as those of ASCII that are nearest.

use bstr::ByteSlice;
use std::alloc::{AllocError, Global};
use unicode_normalization::char::is_combining_mark;
use unicode_normalization::slice::extend_nfkd;

/// What the characters of a file came to.
#[derive(Drop)]
pub struct InAscii {
    pub text: Vec<u8>,
    /// How many came to what is nearest of ASCII.
    pub near: u64,
    /// How many came to a question mark.
    pub marks: u64,
}

/// What a character came to.
#[derive(Clone, Copy, PartialEq, Eq)]
enum Came {
    /// Itself.
    Itself,
    /// The nearest of ASCII.
    Near,
    /// A question mark.
    Mark,
}

/// The bytes of a file with each character that no document has replaced by what is nearest to it, and by a question
/// mark where nothing is. A NUL stays. It fails for want of memory alone.
pub fn in_ascii(alloc: Global, bytes: &[u8]) -> Result<InAscii, AllocError> {
    let mut text = Vec::new(alloc);
    let (near, marks) = push_signs(&mut text, bytes)?;
    Ok(InAscii { text, near, marks })
}

/// Adds what the characters of a file come to, and returns how many came to what is near, and how many to a question
/// mark.
fn push_signs(text: &mut Vec<u8>, bytes: &[u8]) -> Result<(u64, u64), AllocError> {
    let mut near = 0u64;
    let mut marks = 0u64;
    for sign in bytes.chars() {
        match push_sign(text, sign)? {
            Came::Itself => {}
            Came::Near => near = near.saturating_add(1),
            Came::Mark => marks = marks.saturating_add(1),
        }
    }
    Ok((near, marks))
}

/// Adds what a character comes to.
fn push_sign(text: &mut Vec<u8>, sign: char) -> Result<Came, AllocError> {
    if let Some(byte) = plain_byte(sign) {
        text.push(byte)?;
        return Ok(Came::Itself);
    }
    if is_combining_mark(sign) {
        return Ok(Came::Near);
    }
    if let Some(like) = like(sign) {
        text.extend_from_slice(like.as_bytes())?;
        return Ok(Came::Near);
    }
    if push_parts(text, sign)? {
        return Ok(Came::Near);
    }
    text.push(b'?')?;
    Ok(Came::Mark)
}

/// The byte of a character that stands as it is: of one of a document, or a line feed; or a NUL, which no text has.
fn plain_byte(sign: char) -> Option<u8> {
    match sign {
        '\0' | '\t' | '\n' | '\r' | ' '..='~' => u8::try_from(u32::from(sign)).ok(),
        _ => None,
    }
}

/// Adds the characters of ASCII of which the character is made, as a letter without its accent, and says whether there
/// are any.
fn push_parts(text: &mut Vec<u8>, sign: char) -> Result<bool, AllocError> {
    let mut parts = Vec::new(*text.allocator());
    extend_nfkd(&mut parts, &[sign])?;
    let mut some = false;
    for part in &parts {
        if let Some(byte) = plain_byte(*part) {
            text.push(byte)?;
            some = true;
        }
    }
    Ok(some)
}

/// What is like a character that has no parts.
fn like(sign: char) -> Option<&'static str> {
    match sign {
        '‘' | '’' | '‚' | '‛' | '′' => Some("'"),
        '“' | '”' | '„' | '‟' | '″' => Some("\""),
        '‐' | '‑' | '‒' | '–' | '—' | '―' | '−' => Some("-"),
        '«' => Some("<<"),
        '»' => Some(">>"),
        '‹' => Some("<"),
        '›' => Some(">"),
        '•' | '·' => Some("*"),
        '×' => Some("x"),
        '©' => Some("(c)"),
        '®' => Some("(r)"),
        _ => letters_like(sign),
    }
}

/// What is like a letter that has no parts.
fn letters_like(sign: char) -> Option<&'static str> {
    match sign {
        'ß' => Some("ss"),
        'æ' => Some("ae"),
        'Æ' => Some("AE"),
        'œ' => Some("oe"),
        'Œ' => Some("OE"),
        'ø' => Some("o"),
        'Ø' => Some("O"),
        'đ' | 'ð' => Some("d"),
        'Đ' | 'Ð' => Some("D"),
        'þ' => Some("th"),
        'Þ' => Some("Th"),
        'ł' => Some("l"),
        'Ł' => Some("L"),
        'ı' => Some("i"),
        _ => None,
    }
}
