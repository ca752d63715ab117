//! What is written behind a store before its desktop is exchanged.
ghost use Rattle.std.specs.Prelude.{◌≡◌, ◌+◌, ◌*◌, ◌<◌, ◌≤◌, ◌^◌, ◌++◌, List, false, length, IfNone, IfOk, IfSome};
ghost use Rattle.sector_disk.specs.declared.disk.TheConstants.{SECTOR_BYTES};
ghost use Rattle.sector_disk.specs.Faults.{FailsAs};
ghost use Rattle.sector_disk.specs.Stored.{last_sector};
ghost use Rattle.store_layout.specs.declared.layout.TheConstants.{STORE_SECTORS};
ghost use Rattle.store_slots.specs.Errors.{OfDesktop};
ghost use Rattle.desktop_definitions.specs.Desktop.{Desktop};
ghost use Rattle.desk_journal.specs.Behind.{FitBehind};
ghost use Rattle.past_pages.specs.Page.{Page, page_bytes, IsGoodPage};
ghost use Rattle.past_pages.specs.Reading.{IsOnlyReadFrom};
ghost use Rattle.desk_past.specs.Ahead.{CanAdd, IsAhead, padded};
ghost use Rattle.desk_past.specs.Deeds.{PastDeed};
ghost use Rattle.desk_past.specs.Past.{KeepsAll, Start};
ghost use Rattle.desk_past.specs.Writing.{AreAhead};

use desk_journal::{Error, STORE_SECTORS, Store};
use past_pages::{page_read, part_at, sectors_for, zeros};
use sector_disk::{Disk, NoMemory, SECTOR_BYTES};
use std::alloc::{AllocError, Global};
use store_layout::{PastEnd, standing_law};

/// What is to be written behind a store before its desktop is exchanged: the bytes of two pages, from which sector on,
/// in how many, and what the head is to tell then.
#[derive(Drop)]
pub(crate) struct Ahead {
    pub bytes: Vec<u8>,
    pub from: u32,
    pub limit: u32,
    pub past: PastEnd,
}

/// The bytes with zeros behind them up to the end of so many sectors.
fn padded(alloc: Global, bytes: Vec<u8>, sectors: u32) -> Result<Vec<u8>, AllocError>
    requires { length bytes.items ≤ SECTOR_BYTES * sectors }
    ensures { IfOk result (λ all. all.items ≡ padded sectors bytes.items) }
{
    let mut all = bytes;
    let rest = zeros(alloc, SECTOR_BYTES as usize * sectors as usize - all.len())?;
    all.extend_from_slice(rest.as_slice())?;
    Ok(all)
}

/// Two pages, of so many sectors each, at `told.next`, before sector `end`: the first one of so many events, the second
/// one of one deed. None where they have no room.
fn end_of_both(told: PastEnd, events: u32, first: u32, second: u32, end: u32) -> Option<PastEnd>
    ensures behind { IfSome result (λ n. STORE_SECTORS ≤ told.next) }
    ensures room { IfSome result (λ n. n.next ≤ end) }
    ensures count { IfSome result (λ n. n.next ≡ told.next + first + second) }
    ensures before { IfSome result (λ n. n.before ≡ told.before + events + 1) }
    ensures none { IfNone result (STORE_SECTORS ≤ told.next → told.next + first + second ≤ end
        → told.before + events + 1 < 2 ^ 64 → ⊥) }
{
    let before = told.before.checked_add(events as u64 + 1)?;
    let next = told.next.checked_add(first)?.checked_add(second)?;
    if told.next >= STORE_SECTORS && next <= end {
        Some(PastEnd { next, before })
    } else {
        None
    }
}

/// The two pages, of which the first one is of so many events, at `told.next`, before sector `end`. None where they
/// have no room.
fn ahead_of(
    alloc: Global,
    told: PastEnd,
    events: u32,
    journal: Vec<u8>,
    page: &[u8],
    end: u32,
) -> Result<Option<Ahead>, NoMemory>
    ensures bytes { IfOk result (λ found. IfSome found (λ a. a.bytes.items
        ≡ padded (last_sector (length journal.items) + 1) journal.items ++ page.now)) }
    ensures from { IfOk result (λ found. IfSome found (λ a. (a.from ≡ told.next)
        × (STORE_SECTORS ≤ a.from))) }
    ensures limit { IfOk result (λ found. IfSome found (λ a. (0 < a.limit)
        × (a.from + a.limit ≡ a.past.next) × (a.past.next ≤ end))) }
    ensures fits { IfOk result (λ found. IfSome found (λ a.
        length a.bytes.items ≤ SECTOR_BYTES * a.limit)) }
    ensures next { IfOk result (λ found. IfSome found (λ a. a.past.next ≡ told.next
        + (last_sector (length journal.items) + 1) + (last_sector (length page.now) + 1))) }
    ensures before { IfOk result (λ found. IfSome found (λ a.
        a.past.before ≡ told.before + events + 1)) }
    ensures none { IfOk result (λ found. IfNone found (length journal.items < 2 ^ 32
        → length page.now < 2 ^ 33 → STORE_SECTORS ≤ told.next → told.next
        + (last_sector (length journal.items) + 1) + (last_sector (length page.now) + 1) ≤ end
        → told.before + events + 1 < 2 ^ 64 → ⊥)) }
{
    let Some(first) = sectors_for(journal.len()) else {
        return Ok(None);
    };
    let Some(second) = sectors_for(page.len()) else {
        return Ok(None);
    };
    let Some(past) = end_of_both(told, events, first, second, end) else {
        return Ok(None);
    };
    let mut bytes = padded(alloc, journal, first)?;
    bytes.extend_from_slice(page)?;
    Ok(Some(Ahead {
        bytes,
        from: told.next,
        limit: past.next - told.next,
        past,
    }))
}

/// What is to be written behind a store in use before what this page says is done, which is one deed. None where its
/// past has no room for that, or it has none.
///
/// Errors: `NoMemory` and `Fault`.
pub(crate) fn page_ahead<D: Disk>(
    alloc: Global,
    store: &mut Store<D>,
    page: &[u8],
) -> Result<Option<Ahead>, Error>
    requires { store.old.must_reopen ≡ false }
    ensures fit { IfOk result (λ found. IfSome found (λ a.
        FitBehind (D.size store.new.disk) a.from a.limit (length a.bytes.items))) }
    ensures inside { IfOk result (λ found. IfSome found (λ a.
        AreAhead D.Disk a.from a.limit store.old)) }
    ensures ahead { IfOk result (λ found. IfSome found (λ a. D.honest store.old.disk
        → (start : Start) (deeds : List PastDeed) (desktop : Desktop) (p : Page)
        → (keeps : KeepsAll D.Disk start deeds desktop store.old)
        → page.now ≡ page_bytes p → IsGoodPage p
        → IsAhead D.Disk p a.past a.from a.limit a.bytes.items keeps)) }
    ensures none { IfOk result (λ found. IfNone found (D.honest store.old.disk
        → (start : Start) (deeds : List PastDeed) (desktop : Desktop) (p : Page)
        → (keeps : KeepsAll D.Disk start deeds desktop store.old)
        → page.now ≡ page_bytes p → IsGoodPage p
        → CanAdd D.Disk p keeps → ⊥)) }
    ensures still { IsOnlyReadFrom D.Disk store.old store.new }
    ensures faults { FailsAs Error.Fault OfDesktop result (D.failures store.old.disk)
        (D.failures store.new.disk) }
{
    standing_law();
    store.shows_what_crashes_leave();
    let told = store.past()?;
    let Some(part) = part_at(store.sectors(), told.next) else {
        return Ok(None);
    };
    let info = store.info()?;
    let Some(journal) = page_read(alloc, store)? else {
        return Ok(None);
    };
    let end = part.end.min(store.sectors());
    let Some(ahead) = ahead_of(alloc, told, info.events, journal, page, end)? else {
        return Ok(None);
    };
    Ok(Some(ahead))
}
