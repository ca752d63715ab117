//! The way in.
ghost use Rattle.std.specs.Prelude.{◌≡◌, ◌<◌, ◌≤◌, Ok, Err, Some, IfOk, IfErr, IfSome, IsTrue, length};
ghost use Rattle.std.specs.List.{list_all, list_any};
ghost use Rattle.event_bytes.specs.Bytes.{is_text_byte as text_byte};
ghost use Rattle.store_documents.specs.HostText.{document_of, imported, first_strange, has_nul as nul_in, place_in};
ghost use Rattle.store_documents.specs.HostText.{returned as returned_byte, is_strange as strange_byte};

use crate::file_text::LINE_FEED;
use crate::places::{Place, place_behind};
use event_bytes::{CARRIAGE_RETURN, is_text_byte};
use std::alloc::{AllocError, Global};

/// The most bytes of a document: as many characters as a desktop may hold.
pub const MOST_BYTES: usize = 262_144;

/// Why a file of the host's is no document.
#[derive(Clone, Copy, Debug, PartialEq, Eq)]
pub enum Unfit {
    /// An allocation found no memory.
    NoMemory,
    /// It would have more than 262,144 bytes.
    TooLong,
    /// It has a NUL, as no text has.
    NoText,
    /// The byte at this index, which stands at this place, isn't one of a text: a tabulator, LF, CR, or one from the
    /// space to the tilde. It is the first such byte.
    Strange { index: usize, place: Place },
}

impl From<AllocError> for Unfit {
    ghost use Rattle.store_documents.specs.declared.file_bytes.Unfit.TheVariants.{NoMemory};
    ghost use Rattle.std.specs.Prelude.{◌≡◌};

    ghost from_gives = { λ _ unfit. unfit ≡ NoMemory };

    /// A file is unfit where an allocation is refused.
    fn from(_refused: AllocError) -> Unfit {
        Unfit::NoMemory
    }
}

/// The document of a file of the host's: LF and CR LF are CR, and all other bytes stay. A file is said to be too long
/// before it is said to be no text, and that before its first strange byte.
pub fn document(alloc: Global, file: &[u8]) -> Result<Vec<u8>, Unfit>
    ensures text { IfOk result (λ text. imported file.now ≡ Ok text.items) }
    ensures plain { IfOk result (λ text. IsTrue (list_all text_byte text.items)) }
    ensures short { IfOk result (λ text. length text.items ≤ MOST_BYTES) }
    ensures why { IfErr result (λ unfit. ¬ (unfit ≡ Unfit.NoMemory)
        → imported file.now ≡ Err unfit) }
{
    let text = document_text(alloc, file)?;
    if text.len() > MOST_BYTES {
        return Err(Unfit::TooLong);
    }
    if has_nul(file) {
        return Err(Unfit::NoText);
    }
    match strange_index(file) {
        Some(index) => Err(Unfit::Strange {
            index,
            place: place_at(alloc, file, index)?,
        }),
        None => Ok(text),
    }
}

/// The bytes of the document, whatever they are.
fn document_text(alloc: Global, file: &[u8]) -> Result<Vec<u8>, AllocError>
    ensures { IfOk result (λ text. text.items ≡ document_of file.now) }
{
    let mut text = Vec::with_capacity(alloc, file.len())?;
    let mut before = 0;
    for byte in file {
        if let Some(byte) = returned(before, *byte) {
            text.push(byte)?;
        }
        before = *byte;
    }
    Ok(text)
}

/// What a byte of the host's is to a document, where it comes after another one.
fn returned(before: u8, byte: u8) -> Option<u8>
    ensures { result ≡ returned_byte before byte }
{
    match (before, byte) {
        (CARRIAGE_RETURN, LINE_FEED) => None,
        (_, LINE_FEED) => Some(CARRIAGE_RETURN),
        _ => Some(byte),
    }
}

/// Whether the file has a NUL.
fn has_nul(file: &[u8]) -> bool
    ensures { result ≡ nul_in file.now }
{
    file.iter().any(|byte| *byte == 0)
}

/// The index of the first byte that isn't one of a text.
fn strange_index(file: &[u8]) -> Option<usize>
    ensures index { result ≡ first_strange file.now }
    ensures within { IfSome result (λ index. index < length file.now) }
{
    file.iter().position(|byte| is_strange(*byte))
}

/// Whether a byte is neither one of a text nor a line feed.
pub(crate) fn is_strange(byte: u8) -> bool
    ensures { result ≡ strange_byte byte }
{
    byte != LINE_FEED && !is_text_byte(byte)
}

/// Where the byte at an index stands.
fn place_at(alloc: Global, file: &[u8], index: usize) -> Result<Place, AllocError>
    requires { index < length file.now }
    ensures { IfOk result (λ place. place ≡ place_in file.now index) }
{
    let before = document_text(alloc, &file[..index])?;
    Ok(place_behind(before.as_slice()))
}
