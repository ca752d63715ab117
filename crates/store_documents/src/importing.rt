//! Documents on their way in: all that is to come comes together, or none.
ghost use Rattle.std.specs.Prelude.{◌≡◌, ◌↔◌, ◌⊎◌, ◌++◌, [], false, true, IsTrue, IfOk, IfErr, IsErrOf};
ghost use Rattle.desk_journal.specs.Bringing.{LeavesAllOrNone, AreBrought};
ghost use Rattle.desk_journal.specs.Errors.{OfPost};
ghost use Rattle.desk_journal.specs.Posting.{IsLast};
ghost use Rattle.desk_journal.specs.View.{IsDurable};
ghost use Rattle.sector_disk.specs.Faults.{FailsAs};
ghost use Rattle.store_documents.specs.Importing.{coming_ones, IsImport, AreTogether};
ghost use Rattle.store_documents.specs.Standings.{HasOnlyLooked};

use crate::sorting::{Sorted, sort};
use desk_journal::{Document, Error, Store};
use desktop_definitions::Reply;
use sector_disk::Disk;
use std::alloc::{AllocError, Global};

/// What is to come into a store.
#[derive(Drop)]
pub struct Coming {
    /// All documents that are to come: first those of new names, then those that replace another one.
    pub documents: Vec<Document>,
    /// How many of them have new names.
    pub fresh: usize,
    /// Those that the store has already, with the same characters. They need not come.
    pub same: Vec<Document>,
}

/// What an import came to.
#[derive(Drop)]
pub enum Imported {
    /// The store has other documents of these names, which may not be replaced: nothing was done.
    Kept(Vec<Document>),
    /// All that is to come has come, if the store's reply is Done, and nothing else.
    Told(Reply, Coming),
}

/// Imports documents into a store: those that it hasn't, and, if that is asked for, those of whose name it has another
/// one. They come by one call of `desk_past::bring`, all or none, and none is called where nothing is to come. Where the
/// store has a past with room for it that goes on.
///
/// Errors: those of `Store::file` and `desk_past::bring`: `MustReopen` where an earlier call failed, and only there;
/// `Worn` in the last epoch alone. Where the store can still be used after one, nothing was done.
pub fn import<D: Disk>(
    alloc: Global,
    store: &mut Store<D>,
    documents: Vec<Document>,
    replace: bool,
) -> Result<Imported, Error>
    ensures any_moment { LeavesAllOrNone D.Disk (coming_ones store.old.desktop documents.items)
        store.old store.new }
    ensures told { IfOk result (λ import.
        IsImport D.Disk replace documents.items import store.old store.new) }
    ensures failed { IfErr result (λ _. store.new.must_reopen ≡ false
        → HasOnlyLooked D.Disk store.old store.new) }
    ensures faults { FailsAs Error.Fault OfPost result (D.failures store.old.disk)
        (D.failures store.new.disk) }
    ensures reopen { IsErrOf result Error.MustReopen ↔ (store.old.must_reopen ≡ true) }
    ensures worn { IsErrOf result Error.Worn → IsLast store.old }
{
    let _info = store.info()?;
    import_into(alloc, store, documents, replace)
}

/// The same in a store that can be used.
fn import_into<D: Disk>(
    alloc: Global,
    store: &mut Store<D>,
    documents: Vec<Document>,
    replace: bool,
) -> Result<Imported, Error>
    requires { IsDurable D.Disk store.old }
    ensures any_moment { LeavesAllOrNone D.Disk (coming_ones store.old.desktop documents.items)
        store.old store.new }
    ensures told { IfOk result (λ import.
        IsImport D.Disk replace documents.items import store.old store.new) }
    ensures failed { IfErr result (λ _. store.new.must_reopen ≡ false
        → HasOnlyLooked D.Disk store.old store.new) }
    ensures faults { FailsAs Error.Fault OfPost result (D.failures store.old.disk)
        (D.failures store.new.disk) }
    ensures reopen { IsErrOf result Error.MustReopen → store.old.must_reopen ≡ true }
    ensures worn { IsErrOf result Error.Worn → IsLast store.old }
{
    let sorted = sort(alloc, store, documents)?;
    if is_in_the_way(&sorted, replace) {
        return Ok(Imported::Kept(sorted.other));
    }
    let coming = coming_of(sorted)?;
    let reply = bring_some(alloc, store, coming.documents.as_slice())?;
    Ok(Imported::Told(reply, coming))
}

/// Whether there are documents that would replace another one, and may not.
fn is_in_the_way(sorted: &Sorted, replace: bool) -> bool
    ensures stopped { IsTrue result → (replace ≡ false) × ¬ (sorted.now.other.items ≡ []) }
    ensures free { result ≡ false → (replace ≡ true) ⊎ (sorted.now.other.items ≡ []) }
{
    if replace {
        return false;
    }
    !sorted.other.is_empty()
}

/// What is to come, of documents by how they stand to a store.
fn coming_of(sorted: Sorted) -> Result<Coming, AllocError>
    ensures { IfOk result (λ coming. AreTogether sorted coming) }
{
    let Sorted { fresh, same, other } = sorted;
    let count = fresh.len();
    Ok(Coming {
        documents: appended(fresh, other)?,
        fresh: count,
        same,
    })
}

/// Documents, and others behind them.
fn appended(documents: Vec<Document>, others: Vec<Document>) -> Result<Vec<Document>, AllocError>
    ensures { IfOk result (λ all. all.items ≡ documents.items ++ others.items) }
{
    let mut all = documents;
    for document in others {
        all.push(document)?;
    }
    Ok(all)
}

/// Brings documents into a store, if there are any.
fn bring_some<D: Disk>(
    alloc: Global,
    store: &mut Store<D>,
    documents: &[Document],
) -> Result<Reply, Error>
    requires { IsDurable D.Disk store.old }
    ensures any_moment { LeavesAllOrNone D.Disk documents.now store.old store.new }
    ensures nothing { documents.now ≡ []
        → IfOk result (λ reply. (reply ≡ Reply.Done) × (store.new ≡ store.old)) }
    ensures brought { ¬ (documents.now ≡ []) → IfOk result (λ reply.
        AreBrought D.Disk documents.now reply store.old store.new) }
    ensures failed { IfErr result (λ _. store.new.must_reopen ≡ false
        → HasOnlyLooked D.Disk store.old store.new) }
    ensures faults { FailsAs Error.Fault OfPost result (D.failures store.old.disk)
        (D.failures store.new.disk) }
    ensures reopen { IsErrOf result Error.MustReopen → store.old.must_reopen ≡ true }
    ensures worn { IsErrOf result Error.Worn → IsLast store.old }
{
    if documents.is_empty() {
        return Ok(Reply::Done);
    }
    desk_past::bring(alloc, store, documents)
}
