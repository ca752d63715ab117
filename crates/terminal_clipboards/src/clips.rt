//! What a terminal is sent, so that its clipboard has a text.
ghost use Rattle.std.specs.Prelude.{◌≡◌, IfOk};
ghost use Rattle.event_bytes.specs.Bytes.{lies_within};
ghost use Rattle.terminal_clipboards.specs.Clips.{clip_of, clip_order};

use base64::engine::general_purpose::STANDARD;
use std::alloc::{AllocError, Global};
use std::vec::Vec;

/// How many bytes a text has at most that is given to the clipboard of a terminal. In base64 they are 99,992, and terminals
/// take orders of up to 100,000 bytes.
pub const MOST_CLIPPED: usize = 74_994;

/// Whether the clipboard of a terminal is given a text of so many bytes.
fn is_given(count: usize) -> bool
    ensures { result ≡ lies_within 1 MOST_CLIPPED count }
{
    1 <= count && count <= MOST_CLIPPED
}

/// The bytes that give a text to the clipboard of a terminal. None where the text is empty, or has over `MOST_CLIPPED` bytes.
///
/// Error: an allocation was refused.
pub fn clip_of(alloc: Global, text: &[u8]) -> Result<Vec<u8>, AllocError>
    ensures { IfOk result (λ clip. clip.items ≡ clip_of text.now) }
{
    if !is_given(text.len()) {
        return Ok(Vec::new(alloc));
    }
    clip_order(alloc, text)
}

/// An escape byte and `]52;c;`, then a text in base64, and a bell byte.
///
/// Error: an allocation was refused.
fn clip_order(alloc: Global, text: &[u8]) -> Result<Vec<u8>, AllocError>
    ensures { IfOk result (λ clip. clip.items ≡ clip_order text.now) }
{
    let encoded = STANDARD.encode(alloc, text)?;
    let mut clip = Vec::new(alloc);
    clip.extend_from_slice(b"\x1b]52;c;")?;
    clip.extend_from_slice(encoded.as_bytes())?;
    clip.extend_from_slice(b"\x07")?;
    Ok(clip)
}
