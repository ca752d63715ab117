//! The documents of an import, spelled and read.
ghost use Rattle.std.specs.Prelude.{◌≡◌, ◌+◌, ◌<◌, ◌≤◌, ◌^◌, ◌++◌, ℕ, List, true, false, length, IfNone, IfOk, IfSome, IsSomeAnd};
ghost use Rattle.document_filing.specs.Bringing.{Documents};
ghost use Rattle.past_pages.specs.Page.{FitPage, behind_length, document_spelling, document_spellings};
ghost use Rattle.past_pages.specs.Page.{AreDocuments, IsDocument};
ghost use Rattle.past_pages.specs.declared.page.TheConstants.{MOST_SPELLED};

use crate::page::MOST_SPELLED;
use byteorder::{BigEndian, ByteOrder};
use desk_journal::Document;
use event_bytes::Name;
use sector_disk::NoMemory;
use std::alloc::Global;

/// How many bytes a number has before what it counts.
const NUMBER: usize = 4;

/// Puts bytes behind their number at the end of others. False where there are too many of them: then nothing is put.
fn put_counted(all: &mut Vec<u8>, bytes: &[u8]) -> Result<bool, NoMemory>
    ensures put { IfOk result (λ done. done ≡ true
        → all.new.items ≡ all.old.items ++ behind_length bytes.now) }
    ensures short { IfOk result (λ done. done ≡ true → length bytes.now ≤ MOST_SPELLED) }
    ensures long { IfOk result (λ done. done ≡ false → MOST_SPELLED < length bytes.now) }
{
    if bytes.len() > MOST_SPELLED {
        return Ok(false);
    }
    all.extend_from_slice(&(bytes.len() as u32).to_be_bytes())?;
    all.extend_from_slice(bytes)?;
    Ok(true)
}

/// Puts a document at the end of others that are spelled. False where its bytes are too many.
fn put_document(all: &mut Vec<u8>, document: &Document) -> Result<bool, NoMemory>
    ensures put { IfOk result (λ done. done ≡ true
        → all.new.items ≡ all.old.items ++ document_spelling document.now) }
    ensures good { IfOk result (λ done. done ≡ true → IsDocument document.now) }
    ensures long { IfOk result (λ done. done ≡ false
        → MOST_SPELLED < length (document_spelling document.now)) }
{
    if !put_counted(all, document.name().as_bytes())? {
        return Ok(false);
    }
    put_counted(all, document.as_bytes())
}

/// Documents as a page spells them. None where a page has no room for them.
pub(crate) fn spelled_documents(
    alloc: Global,
    documents: &[Document],
) -> Result<Option<Vec<u8>>, NoMemory>
    ensures spelled { IfOk result (λ found. IfSome found (λ bytes. bytes.items
        ≡ document_spellings documents.now)) }
    ensures fit { IfOk result (λ found. IfSome found (λ bytes. FitPage documents.now)) }
    ensures good { IfOk result (λ found. IfSome found (λ bytes. AreDocuments documents.now)) }
    ensures none { IfOk result (λ found. IfNone found (FitPage documents.now → ⊥)) }
{
    let mut bytes = Vec::new(alloc);
    for document in documents {
        if !put_document(&mut bytes, document)? {
            return Ok(None);
        }
    }
    if documents.len() > MOST_SPELLED || bytes.len() > MOST_SPELLED {
        return Ok(None);
    }
    Ok(Some(bytes))
}

/// The bytes behind their number, with which these begin. None where there are fewer.
fn counted_in(bytes: &[u8]) -> Option<&[u8]>
    ensures found { (inside rest : List ℕ) → length inside < 2 ^ 32
        → bytes.now ≡ behind_length inside ++ rest → IsSomeAnd result (λ x. x.now ≡ inside) }
    ensures within { IfSome result (λ x. 4 + length x.now ≤ length bytes.now) }
{
    if bytes.len() < NUMBER {
        return None;
    }
    let (number, rest) = bytes.split_at(NUMBER);
    let count = BigEndian::read_u32(number) as usize;
    if count > rest.len() {
        return None;
    }
    let (inside, _rest) = rest.split_at(count);
    Some(inside)
}

/// A document of that name, with a copy of the bytes. None where they are no name, or no bytes of a document.
fn document_of(alloc: Global, name: &[u8], bytes: &[u8]) -> Result<Option<Document>, NoMemory>
    ensures { IfOk result (λ found. IsDocument (name.now, bytes.now)
        → IsSomeAnd found (λ x. x ≡ (name.now, bytes.now))) }
{
    let Some(name) = Name::new(name) else {
        return Ok(None);
    };
    let mut copy = Vec::new(alloc);
    copy.extend_from_slice(bytes)?;
    Ok(Document::new(name, copy))
}

/// The document with which the bytes begin, and in how many of them it is spelled. None where they begin with none.
fn document_at(alloc: Global, bytes: &[u8]) -> Result<Option<(Document, usize)>, NoMemory>
    ensures found { IfOk result (λ found. (document : List ℕ × List ℕ) (rest : List ℕ)
        → IsDocument document → bytes.now ≡ document_spelling document ++ rest
        → IsSomeAnd found (λ x. (x.0 ≡ document) × (x.1 ≡ length (document_spelling document)))) }
    ensures within { IfOk result (λ found. IfSome found (λ x. x.1 ≤ length bytes.now)) }
{
    let Some(name) = counted_in(bytes) else {
        return Ok(None);
    };
    let (_name, left) = bytes.split_at(NUMBER + name.len());
    let Some(text) = counted_in(left) else {
        return Ok(None);
    };
    let Some(document) = document_of(alloc, name, text)? else {
        return Ok(None);
    };
    Ok(Some((document, NUMBER + name.len() + (NUMBER + text.len()))))
}

/// The documents that the bytes spell from their beginning on, so many. None where they spell fewer.
pub(crate) fn documents_in(
    alloc: Global,
    bytes: &[u8],
    count: u32,
) -> Result<Option<Vec<Document>>, NoMemory>
    ensures { IfOk result (λ found. (documents : Documents) (rest : List ℕ)
        → AreDocuments documents → length documents ≡ count
        → bytes.now ≡ document_spellings documents ++ rest
        → IsSomeAnd found (λ v. v.items ≡ documents)) }
{
    let mut documents = Vec::new(alloc);
    let mut place = 0;
    for k in 0..count {
        let (_read, left) = bytes.split_at(place);
        let Some((document, length)) = document_at(alloc, left)? else {
            return Ok(None);
        };
        documents.push(document)?;
        place += length;
    }
    Ok(Some(documents))
}
