//! Documents that come into a store, whose past goes on over that.
ghost use Rattle.std.specs.Prelude.{◌≡◌, List, false, length, IfErr, IfNone, IfOk, IfSome, IsErrOf};
ghost use Rattle.sector_disk.specs.Faults.{FailsAs};
ghost use Rattle.store_slots.specs.Device.{IsOnlyRead};
ghost use Rattle.store_slots.specs.Errors.{OfDesktop, OfPost};
ghost use Rattle.desktop_definitions.specs.Desktop.{Desktop};
ghost use Rattle.desk_journal.specs.Behind.{FitBehind};
ghost use Rattle.desk_journal.specs.Bringing.{LeavesAllOrNone};
ghost use Rattle.desk_journal.specs.Posting.{AnswersMustReopen, IsLast, TurnsAway};
ghost use Rattle.desk_journal.specs.Undoing.{IsLeft};
ghost use Rattle.past_pages.specs.Page.{import_of};
ghost use Rattle.past_pages.specs.Reading.{IsOnlyReadFrom};
ghost use Rattle.desk_past.specs.Ahead.{IsAhead};
ghost use Rattle.desk_past.specs.Bringing.{BringsOn, CanBring, IsBroughtIn};
ghost use Rattle.desk_past.specs.Deeds.{PastDeed};
ghost use Rattle.desk_past.specs.Past.{KeepsAll, Start};
ghost use Rattle.desk_past.specs.Writing.{AreAhead, UsesAhead};

use crate::ahead::{Ahead, page_ahead};
use desk_journal::{Document, Error, Store};
use desktop_definitions::Reply;
use past_pages::import_page;
use sector_disk::Disk;
use std::alloc::Global;
use store_layout::LAST_EPOCH;

/// What is to be written behind a store in use before documents come. None where its past has no room for that, or it
/// has none.
///
/// Errors: `NoMemory` and `Fault`.
fn pages_ahead<D: Disk>(
    alloc: Global,
    store: &mut Store<D>,
    documents: &[Document],
) -> Result<Option<Ahead>, Error>
    requires { store.old.must_reopen ≡ false }
    ensures fit { IfOk result (λ found. IfSome found (λ a.
        FitBehind (D.size store.new.disk) a.from a.limit (length a.bytes.items))) }
    ensures inside { IfOk result (λ found. IfSome found (λ a.
        AreAhead D.Disk a.from a.limit store.old)) }
    ensures ahead { IfOk result (λ found. IfSome found (λ a. D.honest store.old.disk
        → (start : Start) (deeds : List PastDeed) (desktop : Desktop)
        → (keeps : KeepsAll D.Disk start deeds desktop store.old)
        → IsAhead D.Disk (import_of documents.now) a.past a.from a.limit a.bytes.items keeps)) }
    ensures none { IfOk result (λ found. IfNone found (D.honest store.old.disk → (start : Start)
        (deeds : List PastDeed) (desktop : Desktop)
        → (keeps : KeepsAll D.Disk start deeds desktop store.old)
        → CanBring D.Disk documents.now keeps → ⊥)) }
    ensures still { IsOnlyReadFrom D.Disk store.old store.new }
    ensures faults { FailsAs Error.Fault OfDesktop result (D.failures store.old.disk)
        (D.failures store.new.disk) }
{
    let Some(import) = import_page(alloc, documents)? else {
        return Ok(None);
    };
    page_ahead(alloc, store, import.as_slice())
}

/// Each document becomes the file of its name, or none does, as by `Store::bring`. Where the store has a past with room
/// for it that goes on: the page of the epoch that ends and one of the documents are written and settled before these
/// count. Else the head tells of none.
///
/// Errors: those of `Store::bring`; but after a `NoMemory` or `Fault` by which nothing was written the store may be in
/// use.
pub fn bring<D: Disk>(
    alloc: Global,
    store: &mut Store<D>,
    documents: &[Document],
) -> Result<Reply, Error>
    ensures any_moment { LeavesAllOrNone D.Disk documents.now store.old store.new }
    ensures ok { IfOk result (λ reply. IsBroughtIn D.Disk documents.now reply store.old
        store.new) }
    ensures memory { IsErrOf result Error.NoMemory
        → IsOnlyRead D.Disk store.old.disk store.new.disk }
    ensures left { IfErr result (λ _. store.new.must_reopen ≡ false
        → IsLeft D.Disk store.old store.new) }
    ensures worn { TurnsAway (IsErrOf result Error.Worn) (IsLast store.old) store.old store.new }
    ensures reopen { AnswersMustReopen result store.old store.new }
    ensures device { UsesAhead D.Disk OfPost result store.old store.new }
    ensures nothing_forgotten { BringsOn D.Disk documents.now store.old store.new }
{
    store.shows_what_crashes_leave();
    let info = store.info()?;
    if info.epoch == LAST_EPOCH {
        return store.bring(alloc, documents);
    }
    let Some(ahead) = pages_ahead(alloc, store, documents)? else {
        return store.bring(alloc, documents);
    };
    store.shows_what_crashes_leave();
    store.bring_behind(
        alloc,
        documents,
        ahead.past,
        ahead.from,
        ahead.limit,
        ahead.bytes.as_slice(),
    )
}
