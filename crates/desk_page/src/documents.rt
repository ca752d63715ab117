//! Documents on their way into a page's desktop and out of it.
ghost use Rattle.std.specs.Prelude.{◌≡◌, Option, true, IfOk, IfErr, IsErrOf, option_map};
ghost use Rattle.store_slots.specs.Device.{IsOnlyRead};
ghost use Rattle.desk_journal.specs.Bringing.{LeavesAllOrNone};
ghost use Rattle.desk_journal.specs.Errors.{OfLook, OfPost};
ghost use Rattle.desk_journal.specs.Posting.{AnswersMustReopen, IsLast, TurnsAway};
ghost use Rattle.desk_past.specs.Bringing.{BringsOn, IsBroughtIn};
ghost use Rattle.desk_past.specs.Writing.{UsesAhead};
ghost use Rattle.desk_page.specs.Giving.{LooksAtStore, given_out as out_of, given_text, selected_text};

use crate::page::Page;
use desk_journal::{Error, Store};
use desktop_definitions::Reply;
use document_filing::Document;
use event_bytes::Name;
use piece_ring::Look;
use sector_disk::Disk;
use std::alloc::Global;
use store_documents::host_text;

/// Each document becomes the file of its name, in their order, or none does. No where there would be more files than there
/// may be, or where the desktop would pass the limits on characters: then nothing is written. Where the store has a past with
/// room for it that goes on.
///
/// Errors: those of `desk_past::bring`.
pub fn bring<D: Disk>(
    alloc: Global,
    page: &mut Page<D>,
    documents: &[Document],
) -> Result<Reply, Error>
    ensures any_moment { LeavesAllOrNone D.Disk documents.now page.old.store page.new.store }
    ensures brought { IfOk result (λ reply. IsBroughtIn D.Disk documents.now reply page.old.store
        page.new.store) }
    ensures memory { IsErrOf result Error.NoMemory
        → IsOnlyRead D.Disk page.old.store.disk page.new.store.disk }
    ensures worn { TurnsAway (IsErrOf result Error.Worn) (IsLast page.old.store) page.old.store
        page.new.store }
    ensures reopen { AnswersMustReopen result page.old.store page.new.store }
    ensures device { UsesAhead D.Disk OfPost result page.old.store page.new.store }
    ensures nothing_forgotten { BringsOn D.Disk documents.now page.old.store page.new.store }
    ensures beside { (page.new.sitting ≡ page.old.sitting) × (page.new.parser ≡ page.old.parser) }
{
    desk_past::bring(alloc, &mut page.store, documents)
}

/// The text of the document of that name, as a file of the host's: each CR is LF. None where there is no such document.
///
/// Errors: `MustReopen`; `NoMemory`; `Fault`.
pub fn give<D: Disk>(
    alloc: Global,
    store: &mut Store<D>,
    name: &Name,
) -> Result<Option<Vec<u8>>, Error>
    ensures given { IfOk result (λ text. D.honest store.old.disk
        → option_map (λ bytes. bytes.items) text ≡ given_text name.now store.old.desktop) }
    ensures looked { LooksAtStore D.Disk store.old store.new }
    ensures errors { IfErr result (λ error. OfLook error
        × (error ≡ Error.MustReopen → store.old.must_reopen ≡ true)) }
{
    let found = store.file(alloc, name)?;
    given_out(alloc, &found)
}

/// The characters that are selected, all of them, as `give` gives those of a document. None where nothing is selected.
///
/// Errors: `MustReopen`; `NoMemory`; `Fault`.
pub fn selected<D: Disk>(alloc: Global, store: &mut Store<D>) -> Result<Option<Vec<u8>>, Error>
    ensures given { IfOk result (λ text. D.honest store.old.disk
        → option_map (λ bytes. bytes.items) text ≡ selected_text store.old.desktop) }
    ensures looked { LooksAtStore D.Disk store.old store.new }
    ensures errors { IfErr result (λ error. OfLook error
        × (error ≡ Error.MustReopen → store.old.must_reopen ≡ true)) }
{
    let found = store.selected(alloc)?;
    given_out(alloc, &found)
}

/// Characters as they are given out.
///
/// Error: `NoMemory`.
fn given_out(alloc: Global, characters: &Option<Vec<(u8, Look)>>) -> Result<Option<Vec<u8>>, Error>
    ensures given { IfOk result (λ text. option_map (λ bytes. bytes.items) text
        ≡ out_of (option_map (λ those. those.items) characters.now)) }
    ensures errors { IfErr result (λ error. error ≡ Error.NoMemory) }
{
    let Some(characters) = characters else {
        return Ok(None);
    };
    match host_text(alloc, characters) {
        Ok(text) => Ok(Some(text)),
        Err(_) => Err(Error::NoMemory),
    }
}
