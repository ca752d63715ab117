//! The way out.
ghost use Rattle.std.specs.Prelude.{◌≡◌, IfOk, map};
ghost use Rattle.store_documents.specs.HostText.{exported, host_byte as fed_byte, printable, printed_byte as printed_byte};

use crate::file_bytes::is_strange;
use event_bytes::CARRIAGE_RETURN;
use piece_ring::Look;
use std::alloc::{AllocError, Global};

/// The byte of a line feed.
pub(crate) const LINE_FEED: u8 = 10;

/// What stands for a byte that a terminal would take for more than a character.
const QUESTION_MARK: u8 = 63;

/// The text of a document, without its looks, as a file of the host's: each CR is LF. It fails for want of memory
/// alone.
#[tactic(auto, using(crate::proofs::Texts::map_twice))]
pub fn host_text(alloc: Global, characters: &[(u8, Look)]) -> Result<Vec<u8>, AllocError>
    ensures { IfOk result (λ text. text.items
        ≡ exported (map (λ character. character.0) characters.now)) }
{
    characters
        .iter()
        .map(|character| fed(character.0))
        .collect(alloc)
}

/// The same for a terminal: a tabulator, a line feed, and each byte from the space to the tilde is itself, and any
/// other byte a question mark. It fails for want of memory alone.
#[tactic(auto, using(crate::proofs::Texts::map_twice))]
pub fn printable_text(alloc: Global, characters: &[(u8, Look)]) -> Result<Vec<u8>, AllocError>
    ensures { IfOk result (λ text. text.items
        ≡ printable (map (λ character. character.0) characters.now)) }
{
    characters
        .iter()
        .map(|character| printed(fed(character.0)))
        .collect(alloc)
}

/// The text of a document as a file of the host's, of its bytes. It fails for want of memory alone.
pub fn host_bytes(alloc: Global, text: &[u8]) -> Result<Vec<u8>, AllocError>
    ensures { IfOk result (λ file. file.items ≡ exported text.now) }
{
    text.iter().map(|byte| fed(*byte)).collect(alloc)
}

/// The same for a terminal, as `printable_text` has it.
#[tactic(auto, using(crate::proofs::Texts::map_twice))]
pub fn printable_bytes(alloc: Global, text: &[u8]) -> Result<Vec<u8>, AllocError>
    ensures { IfOk result (λ printed. printed.items ≡ printable text.now) }
{
    text.iter().map(|byte| printed(fed(*byte))).collect(alloc)
}

/// What a document's byte is to the host.
pub(crate) fn fed(byte: u8) -> u8
    ensures { result ≡ fed_byte byte }
{
    if byte == CARRIAGE_RETURN {
        LINE_FEED
    } else {
        byte
    }
}

/// What a byte is to a terminal.
pub(crate) fn printed(byte: u8) -> u8
    ensures { result ≡ printed_byte byte }
{
    if is_strange(byte) {
        QUESTION_MARK
    } else {
        byte
    }
}
