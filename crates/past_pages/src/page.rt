//! The bytes of a page.
ghost use Rattle.std.specs.Prelude.{◌≡◌, ◌+◌, ◌*◌, ◌^◌, ◌<◌, ◌≤◌, ◌++◌, false, length, true, IfErr, IfOk, IfNone, IfSome, IsErrOf, OnOk};
ghost use Rattle.sector_disk.specs.declared.disk.TheConstants.{SECTOR_BYTES};
ghost use Rattle.sector_disk.specs.Stored.{last_sector};
ghost use Rattle.store_layout.specs.Meaning.{Standing};
ghost use Rattle.sector_disk.specs.Faults.{FailsAs};
ghost use Rattle.store_slots.specs.Errors.{OfLook};
ghost use Rattle.desk_journal.specs.Undoing.{IsLeft, OfUndo, ShowsStanding};
ghost use Rattle.desktop_definitions.specs.Desktop.{Desktop};
ghost use Rattle.past_pages.specs.Page.{FitPage, import_of, turn_of, behind_length, number, page_bytes};
ghost use Rattle.past_pages.specs.Page.{IsGoodPage, journal_of};
ghost use Rattle.past_pages.specs.declared.page.TheConstants.{MOST_SPELLED};

use crate::documents::spelled_documents;
use desk_journal::{Document, Error, Store};
use sector_disk::{Disk, NoMemory, SECTOR_BYTES};
use std::alloc::Global;
use store_layout::{LAYOUT, standing_law};

/// The number with which a page of events begins.
pub const EVENTS_PAGE: u32 = 1;

/// The number with which a page of the documents of an import begins.
pub const IMPORT_PAGE: u32 = 2;

/// The number with which a page of a turn begins.
pub const TURN_PAGE: u32 = 3;

/// The number with which a page begins that has what the desktop was there.
pub const MARK_PAGE: u32 = 4;

/// The number with which a page of a turn begins that has the desktop to which it leads.
pub const FAR_PAGE: u32 = 5;

/// How many bytes stand before the first event, document or sector of a page.
pub const PAGE_FRONT: u32 = 16;

/// In how many bytes the events, documents or sectors of a page may be spelled.
pub const MOST_SPELLED: usize = 0xFFFF_0000;

/// The bytes of a page of a kind, whose events, documents or sectors are spelled so. `NoMemory` where these are more than a
/// page may have, too.
pub(crate) fn page_of(
    alloc: Global,
    kind: u32,
    version: u32,
    count: u32,
    spelled: &[u8],
) -> Result<Vec<u8>, NoMemory>
    ensures bytes { IfOk result (λ bytes. bytes.items
        ≡ number kind ++ (number version ++ (number count ++ behind_length spelled.now))) }
    ensures few { OnOk result (length spelled.now ≤ MOST_SPELLED) }
{
    if spelled.len() > MOST_SPELLED {
        return Err(NoMemory);
    }
    let mut bytes = Vec::new(alloc);
    bytes.extend_from_slice(&kind.to_be_bytes())?;
    bytes.extend_from_slice(&version.to_be_bytes())?;
    bytes.extend_from_slice(&count.to_be_bytes())?;
    bytes.extend_from_slice(&(spelled.len() as u32).to_be_bytes())?;
    bytes.extend_from_slice(spelled)?;
    Ok(bytes)
}

/// The page that the journal in use makes.
///
/// Errors: those of `Store::journal`.
fn journal_page<D: Disk>(alloc: Global, store: &mut Store<D>) -> Result<Vec<u8>, Error>
    ensures page { IfOk result (λ bytes. D.honest store.old.disk → (s : Standing)
        → ShowsStanding D.Disk store.old s → bytes.items ≡ page_bytes (journal_of s)) }
    ensures short { IfOk result (λ bytes. length bytes.items < 2 ^ 32) }
    ensures looks { IsLeft D.Disk store.old store.new }
    ensures usable { store.new.must_reopen ≡ store.old.must_reopen }
    ensures in_use { OnOk result (store.old.must_reopen ≡ false) }
    ensures stops { D.honest store.old.disk → IfErr result OfLook }
    ensures faults { FailsAs Error.Fault OfUndo result (D.failures store.old.disk)
        (D.failures store.new.disk) }
    ensures open { IsErrOf result Error.MustReopen → store.old.must_reopen ≡ true }
{
    standing_law();
    let info = store.info()?;
    let events = store.journal(alloc)?;
    Ok(page_of(
        alloc,
        EVENTS_PAGE,
        info.layout,
        info.events,
        events.as_slice(),
    )?)
}

/// The page that the journal in use makes. None where the journal can't be read, over a disk that isn't honest.
///
/// Errors: `MustReopen` where an earlier call failed, and only there; `Fault` where the disk fails; `NoMemory`.
pub fn page_read<D: Disk>(alloc: Global, store: &mut Store<D>) -> Result<Option<Vec<u8>>, Error>
    ensures page { IfOk result (λ found. IfSome found (λ bytes. D.honest store.old.disk
        → (s : Standing) → ShowsStanding D.Disk store.old s
        → bytes.items ≡ page_bytes (journal_of s))) }
    ensures short { IfOk result (λ found. IfSome found (λ bytes. length bytes.items < 2 ^ 32)) }
    ensures none { IfOk result (λ found. IfNone found (¬ D.honest store.old.disk)) }
    ensures looks { IsLeft D.Disk store.old store.new }
    ensures usable { store.new.must_reopen ≡ store.old.must_reopen }
    ensures faults { FailsAs Error.Fault OfLook result (D.failures store.old.disk)
        (D.failures store.new.disk) }
    ensures open { IsErrOf result Error.MustReopen → store.old.must_reopen ≡ true }
{
    match journal_page(alloc, store) {
        Ok(bytes) => Ok(Some(bytes)),
        Err(Error::MustReopen) => Err(Error::MustReopen),
        Err(Error::NoMemory) => Err(Error::NoMemory),
        Err(Error::Fault) => Err(Error::Fault),
        Err(_) => Ok(None),
    }
}

/// The bytes of the page of an import of these documents. None where a page has no room for them.
///
/// Error: `NoMemory` where there is no memory for it.
pub fn import_page(alloc: Global, documents: &[Document]) -> Result<Option<Vec<u8>>, NoMemory>
    ensures page { IfOk result (λ found. IfSome found (λ bytes. bytes.items
        ≡ page_bytes (import_of documents.now))) }
    ensures good { IfOk result (λ found. IfSome found (λ bytes. IsGoodPage
        (import_of documents.now))) }
    ensures none { IfOk result (λ found. IfNone found (FitPage documents.now → ⊥)) }
{
    let Some(spelled) = spelled_documents(alloc, documents)? else {
        return Ok(None);
    };
    let count = documents.len() as u32;
    let page = page_of(alloc, IMPORT_PAGE, LAYOUT, count, spelled.as_slice())?;
    Ok(Some(page))
}

/// The bytes of the page of a turn to moment `k`.
///
/// Error: `NoMemory` where there is no memory for it.
pub fn turn_page(alloc: Global, k: u64) -> Result<Vec<u8>, NoMemory>
    ensures { IfOk result (λ bytes. (to : Desktop) → bytes.items ≡ page_bytes (turn_of k to)) }
{
    page_of(alloc, TURN_PAGE, LAYOUT, 1, &k.to_be_bytes())
}

/// In how many sectors so many bytes stand. None where there are too many to be counted.
pub fn sectors_for(bytes: usize) -> Option<u32>
    ensures count { IfSome result (λ n. n ≡ last_sector bytes + 1) }
    ensures fits { IfSome result (λ n. bytes ≤ SECTOR_BYTES * n) }
    ensures none { IfNone result (2 ^ 40 < bytes) }
{
    let last = bytes.saturating_sub(1) / SECTOR_BYTES as usize;
    if last < 0xFFFF_FFFF {
        Some(last as u32 + 1)
    } else {
        None
    }
}
