//! How documents stand to those of a store.
ghost use Rattle.std.specs.Prelude.{◌≡◌, true, IfOk, IsErrOf, OnOk};
ghost use Rattle.desk_journal.specs.Errors.{OfLook};
ghost use Rattle.desk_journal.specs.Looking.{OnlyLooks};
ghost use Rattle.sector_disk.specs.Faults.{FailsAs};
ghost use Rattle.store_documents.specs.Standings.{standing_of, standing_beside, bytes_of, AreSorted, IsPutBehind, HasOnlyLooked};

use desk_journal::{Document, Error, Store};
use piece_ring::Look;
use sector_disk::Disk;
use std::alloc::{AllocError, Global};

/// How a document stands to a store.
#[derive(Clone, Copy, Debug, PartialEq, Eq)]
pub enum Standing {
    /// The store has no document of its name.
    New,
    /// The store has it, with the same characters.
    Same,
    /// The store has another one of its name.
    Other,
}

/// Documents by how they stand to a store, each list in the order in which they were given.
#[derive(Drop)]
pub struct Sorted {
    pub fresh: Vec<Document>,
    pub same: Vec<Document>,
    pub other: Vec<Document>,
}

/// How a document stands to the store. The looks of characters don't matter.
///
/// Errors: those of `Store::file`.
pub fn standing_in<D: Disk>(
    alloc: Global,
    store: &mut Store<D>,
    document: &Document,
) -> Result<Standing, Error>
    ensures standing { IfOk result (λ standing. D.honest store.old.disk
        → standing ≡ standing_of store.old.desktop document.now) }
    ensures looks { OnlyLooks D.Disk result store.old store.new }
{
    let name = document.name();
    match store.file(alloc, name)? {
        None => Ok(Standing::New),
        Some(characters) => Ok(beside(alloc, characters.as_slice(), document.as_bytes())?),
    }
}

/// How a document of these bytes stands to one of these characters.
fn beside(alloc: Global, characters: &[(u8, Look)], bytes: &[u8]) -> Result<Standing, AllocError>
    ensures { IfOk result (λ standing. standing ≡ standing_beside bytes.now characters.now) }
{
    let text = text_of(alloc, characters)?;
    if text.as_slice() == bytes {
        Ok(Standing::Same)
    } else {
        Ok(Standing::Other)
    }
}

/// Characters without their looks.
pub(crate) fn text_of(alloc: Global, characters: &[(u8, Look)]) -> Result<Vec<u8>, AllocError>
    ensures { IfOk result (λ text. text.items ≡ bytes_of characters.now) }
{
    characters
        .iter()
        .map(|character| character.0)
        .collect(alloc)
}

/// The documents by how they stand to the store.
///
/// Errors: those of `Store::file`.
pub fn sort<D: Disk>(
    alloc: Global,
    store: &mut Store<D>,
    documents: Vec<Document>,
) -> Result<Sorted, Error>
    ensures sorted { IfOk result (λ sorted. D.honest store.old.disk
        → AreSorted store.old.desktop documents.items sorted) }
    ensures looked { HasOnlyLooked D.Disk store.old store.new }
    ensures faults { FailsAs Error.Fault OfLook result (D.failures store.old.disk)
        (D.failures store.new.disk) }
    ensures reopen { IsErrOf result Error.MustReopen → store.old.must_reopen ≡ true }
{
    let mut sorted = Sorted {
        fresh: Vec::new(alloc),
        same: Vec::new(alloc),
        other: Vec::new(alloc),
    };
    for document in documents {
        let standing = standing_in(alloc, store, &document)?;
        add(&mut sorted, document, standing)?;
    }
    Ok(sorted)
}

/// The document goes behind those that stand as it does.
fn add(sorted: &mut Sorted, document: Document, standing: Standing) -> Result<(), AllocError>
    ensures { OnOk result (IsPutBehind document standing sorted.old sorted.new) }
{
    match standing {
        Standing::New => sorted.fresh.push(document)?,
        Standing::Same => sorted.same.push(document)?,
        Standing::Other => sorted.other.push(document)?,
    }
    Ok(())
}
