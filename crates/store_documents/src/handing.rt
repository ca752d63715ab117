//! Files that are handed in, as documents.
ghost use Rattle.std.specs.Prelude.{◌≡◌, ◌<◌, Ok, Err, IfOk, IfErr, IfSome, IsTrue, OnOk, ℕ, false, length};
ghost use Rattle.store_documents.specs.Handing.{document_of_file, AreTaken, IsFirstUnfit, IsHandedBehind, has_name, is_named_before};

use crate::{Unfit, document_within};
use desk_journal::Document;
use event_bytes::Name;
use std::alloc::{AllocError, Global};
use std::marker::Model;

/// A file that is handed in: the name that its document is to have, and its bytes.
///
/// A clause sees the pair of them.
#[derive(Drop)]
pub struct Handed {
    name: Name,
    bytes: Vec<u8>,
}

impl Model for Handed {
    ghost use Rattle.std.specs.Prelude.{ℕ, List};

    ghost Value = { List ℕ × List ℕ };

    ghost view = { λ handed. (handed.name, handed.bytes.items) };
}

impl Handed {
    /// A file of these bytes, for a document of that name.
    pub fn new(name: Name, bytes: Vec<u8>) -> Handed
        ensures { result ≡ (name, bytes.items) }
    {
        Handed { name, bytes }
    }

    /// The name of its document.
    pub fn name(&self) -> &Name
        ensures { result.now ≡ self.now.0 }
    {
        &self.name
    }

    /// Its bytes.
    pub fn as_bytes(&self) -> &[u8]
        ensures { result.now ≡ self.now.1 }
    {
        &self.bytes
    }
}

/// The file at an index is no document, for this reason.
#[derive(Clone, Copy, Debug, PartialEq, Eq)]
pub struct FirstUnfit {
    pub index: usize,
    pub why: Unfit,
}

/// The documents of files, in their order, with their lines broken to a width if one is given; or the first file that is
/// none.
pub fn documents_of(
    alloc: Global,
    files: &[Handed],
    width: Option<usize>,
) -> Result<Vec<Document>, FirstUnfit>
    ensures documents { IfOk result (λ documents. AreTaken width files.now documents.items) }
    ensures refused { IfErr result (λ first. ¬ (first.why ≡ Unfit.NoMemory)
        → IsFirstUnfit width files.now first.index first.why) }
{
    let mut documents = Vec::new(alloc);
    for index in 0..files.len() {
        match add_document(alloc, &files[index], width, &mut documents) {
            Ok(()) => {}
            Err(why) => return Err(FirstUnfit { index, why }),
        }
    }
    Ok(documents)
}

/// Adds the document of a file.
fn add_document(
    alloc: Global,
    file: &Handed,
    width: Option<usize>,
    documents: &mut Vec<Document>,
) -> Result<(), Unfit>
    ensures added { OnOk result (IsHandedBehind width file.now documents.old.items
        documents.new.items) }
    ensures why { IfErr result (λ why. ¬ (why ≡ Unfit.NoMemory)
        → (document_of_file width file.now ≡ Err why) × (documents.new ≡ documents.old)) }
{
    let document = document_of(alloc, file, width)?;
    match documents.push(document) {
        Ok(()) => Ok(()),
        Err(_) => Err(Unfit::NoMemory),
    }
}

/// The document of a file.
fn document_of(alloc: Global, file: &Handed, width: Option<usize>) -> Result<Document, Unfit>
    ensures document { IfOk result (λ document. document_of_file width file.now ≡ Ok document) }
    ensures why { IfErr result (λ why. ¬ (why ≡ Unfit.NoMemory)
        → document_of_file width file.now ≡ Err why) }
{
    let text = document_within(alloc, file.as_bytes(), width)?;
    match Document::new(file.name().clone()?, text) {
        Some(document) => Ok(document),
        None => Err(Unfit::NoMemory),
    }
}

/// The index of the first document that has the name of one before it. None where all names differ.
pub fn named_before(documents: &[Document]) -> Option<usize>
    ensures some { IfSome result (λ index. IsTrue (is_named_before documents.now index)) }
    ensures first { (k : ℕ) → k < length documents.now → IfSome result (λ index. k < index)
        → is_named_before documents.now k ≡ false }
{
    for index in 0..documents.len() {
        if is_repeated(documents, index) {
            return Some(index);
        }
    }
    None
}

/// Whether the document at an index has the name of one before it.
fn is_repeated(documents: &[Document], index: usize) -> bool
    requires { index < length documents.now }
    ensures { result ≡ is_named_before documents.now index }
{
    match documents.get(index) {
        Some(document) => is_named_in(document.name(), &documents[..index]),
        None => false,
    }
}

/// Whether one of the documents has that name.
fn is_named_in(name: &Name, documents: &[Document]) -> bool
    ensures { result ≡ has_name name.now documents.now }
{
    documents.iter().any(|document| document.name() == name)
}
