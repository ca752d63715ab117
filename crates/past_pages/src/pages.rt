//! Pages that are read.
ghost use Rattle.std.specs.Prelude.{◌≡◌, ◌+◌, ◌≤◌, ◌<◌, ◌++◌, ℕ, List, drop, false, length, take, IfNone, IfOk, IfSome, IsSomeAnd, OnOk};
ghost use Rattle.std.specs.Int.{from_be_bytes, w32};
ghost use Rattle.sector_disk.specs.Faults.{FailsAs};
ghost use Rattle.sector_disk.specs.Trail.{now};
ghost use Rattle.event_bytes.specs.declared.event.Event.{Event};
ghost use Rattle.store_layout.specs.declared.layout.TheConstants.{LAYOUT};
ghost use Rattle.store_slots.specs.Bodies.{spellings};
ghost use Rattle.store_slots.specs.Errors.{OfDesktop};
ghost use Rattle.desk_journal.specs.Looking.{OnlyLooks};
ghost use Rattle.past_pages.specs.declared.page.TheConstants.{EVENTS_PAGE, FAR_PAGE, IMPORT_PAGE, MARK_PAGE, PAGE_FRONT, TURN_PAGE};
ghost use Rattle.past_pages.specs.Page.{Page, page_body, page_count, page_kind, page_sectors, AreDoable, AreEvents};
ghost use Rattle.past_pages.specs.Reading.{HasPage, IsKindOf, IsOnlyReadFrom, IsRead, kind_count};

use crate::documents::documents_in;
use crate::page::{
    EVENTS_PAGE, FAR_PAGE, IMPORT_PAGE, MARK_PAGE, PAGE_FRONT, TURN_PAGE, sectors_for,
};
use crate::sectors::bytes_at;
use byteorder::{BigEndian, ByteOrder};
use desk_journal::{Document, Error, Store};
use event_bytes::Event;
use sector_disk::{Disk, NoMemory};
use std::alloc::Global;
use store_layout::{JOURNAL_EVENTS, LAYOUT};

/// What a page says was done: events that were posted, an import, a turn to a moment, or one to the desktop that the page has.
/// A mark has what the desktop was there, and no deed.
#[derive(Drop)]
pub enum PageDeeds {
    Events(Vec<Event>),
    Import(Vec<Document>),
    Turn(u64),
    FarTurn,
    Mark,
}

/// A page that was read: what it says was done, and the sector behind it.
#[derive(Drop)]
pub struct PageRead {
    pub deeds: PageDeeds,
    pub next: u32,
}

/// What kind of page it is: of so many events that were posted, of an import, of a turn to a moment or to the desktop that the
/// page has, or a mark.
#[derive(Clone, Copy, Debug, PartialEq, Eq)]
pub enum PageKind {
    Events(u32),
    Import,
    Turn(u64),
    FarTurn,
    Mark,
}

impl PageKind {
    /// How many deeds such a page has: an import is one deed, and so is a turn; a mark has none.
    pub fn count(self) -> u32
        ensures { result ≡ kind_count self }
    {
        match self {
            PageKind::Events(count) => count,
            PageKind::Import | PageKind::Turn(_) | PageKind::FarTurn => 1,
            PageKind::Mark => 0,
        }
    }
}

/// A page whose front was read: of which kind it is, and the sector behind it.
#[derive(Clone, Copy, Debug)]
pub struct PageFront {
    pub kind: PageKind,
    pub next: u32,
}

/// What stands before the events, documents or sectors of a page: its kind, how many there are, and in how many bytes they are
/// spelled.
#[derive(Clone, Copy)]
pub(crate) struct Front {
    pub kind: u32,
    pub count: u32,
    pub spelled: u32,
}

/// The front of a page of the newest version, which these bytes are. None where they are none.
pub(crate) fn front_of(bytes: &[u8]) -> Option<Front>
    requires { length bytes.now ≡ PAGE_FRONT }
    ensures kind { IfSome result (λ f. f.kind ≡ from_be_bytes w32 (take 4 bytes.now)) }
    ensures count { IfSome result (λ f. f.count ≡ from_be_bytes w32 (take 4 (drop 8 bytes.now))) }
    ensures spelled { IfSome result (λ f.
        f.spelled ≡ from_be_bytes w32 (take 4 (drop 12 bytes.now))) }
    ensures none { IfNone result (from_be_bytes w32 (take 4 (drop 4 bytes.now)) ≡ LAYOUT → ⊥) }
{
    let kind = BigEndian::read_u32(&bytes[..4]);
    let version = BigEndian::read_u32(&bytes[4..8]);
    let count = BigEndian::read_u32(&bytes[8..12]);
    let spelled = BigEndian::read_u32(&bytes[12..16]);
    if version == LAYOUT {
        Some(Front {
            kind,
            count,
            spelled,
        })
    } else {
        None
    }
}

/// The events that the bytes spell from their beginning on, so many. None where they spell fewer.
fn events_in(alloc: Global, bytes: &[u8], count: u32) -> Result<Option<Vec<Event>>, NoMemory>
    ensures { IfOk result (λ found. (events : List Event) (rest : List ℕ) → AreEvents events
        → length events ≡ count → bytes.now ≡ spellings events ++ rest
        → IsSomeAnd found (λ v. v.items ≡ events)) }
{
    let mut events = Vec::with_capacity(alloc, count.min(JOURNAL_EVENTS) as usize)?;
    let mut place = 0;
    for k in 0..count {
        let (_read, left) = bytes.split_at(place);
        let Some((event, length)) = Event::decode(left) else {
            return Ok(None);
        };
        events.push(event)?;
        place += length;
    }
    Ok(Some(events))
}

/// What the bytes say was done, which are spelled behind the front of a page. None where they say nothing of its kind.
fn deeds_of(alloc: Global, front: Front, bytes: &[u8]) -> Result<Option<PageDeeds>, NoMemory>
    ensures { IfOk result (λ found. (p : Page) (rest : List ℕ) → front.kind ≡ page_kind p
        → front.count ≡ page_count p → AreDoable p → bytes.now ≡ page_body p ++ rest
        → IsSomeAnd found (λ deeds. IsRead deeds p)) }
{
    if front.kind == EVENTS_PAGE {
        match events_in(alloc, bytes, front.count)? {
            Some(events) => Ok(Some(PageDeeds::Events(events))),
            None => Ok(None),
        }
    } else if front.kind == IMPORT_PAGE {
        match documents_in(alloc, bytes, front.count)? {
            Some(documents) => Ok(Some(PageDeeds::Import(documents))),
            None => Ok(None),
        }
    } else if front.kind == TURN_PAGE && bytes.len() >= 8 {
        Ok(Some(PageDeeds::Turn(BigEndian::read_u64(&bytes[..8]))))
    } else if front.kind == MARK_PAGE {
        Ok(Some(PageDeeds::Mark))
    } else if front.kind == FAR_PAGE {
        Ok(Some(PageDeeds::FarTurn))
    } else {
        Ok(None)
    }
}

/// The kind of a page with this front, whose first sector goes on with these bytes. None where there is no such kind.
fn kind_of(front: Front, bytes: &[u8]) -> Option<PageKind>
    ensures { (p : Page) (rest : List ℕ) → front.kind ≡ page_kind p → front.count ≡ page_count p
        → AreDoable p → (front.kind ≡ TURN_PAGE → bytes.now ≡ page_body p ++ rest)
        → IsSomeAnd result (λ kind. IsKindOf kind p) }
{
    if front.kind == EVENTS_PAGE {
        Some(PageKind::Events(front.count))
    } else if front.kind == IMPORT_PAGE {
        Some(PageKind::Import)
    } else if front.kind == TURN_PAGE && bytes.len() >= 8 {
        Some(PageKind::Turn(BigEndian::read_u64(&bytes[..8])))
    } else if front.kind == MARK_PAGE {
        Some(PageKind::Mark)
    } else if front.kind == FAR_PAGE {
        Some(PageKind::FarTurn)
    } else {
        None
    }
}

/// The front of the page in sector `at`: nothing behind its first sector is read. None where none stands there that ends
/// before sector `end`.
///
/// Errors: those of `Store::read_behind`; `NoMemory`.
pub fn front_at<D: Disk>(
    alloc: Global,
    store: &mut Store<D>,
    at: u32,
    end: u32,
) -> Result<Option<PageFront>, Error>
    requires usable { store.old.must_reopen ≡ false }
    requires room { end ≤ D.size store.old.disk }
    ensures found { IfOk result (λ found. D.honest store.old.disk → (p : Page)
        → HasPage (now (D.trail store.old.disk)).reads at end p
        → IsSomeAnd found (λ x. IsKindOf x.kind p × (x.next ≡ at + page_sectors p))) }
    ensures later { IfOk result (λ found. IfSome found (λ x. (at < x.next) × (x.next ≤ end))) }
    ensures still { IsOnlyReadFrom D.Disk store.old store.new }
    ensures faults { FailsAs Error.Fault OfDesktop result (D.failures store.old.disk)
        (D.failures store.new.disk) }
{
    store.shows_what_crashes_leave();
    if at >= end {
        return Ok(None);
    }
    let first = bytes_at(alloc, store, at, 1)?;
    let (numbers, spelled) = first.as_slice().split_at(PAGE_FRONT as usize);
    let Some(front) = front_of(numbers) else {
        return Ok(None);
    };
    let Some(sectors) = sectors_for(front.spelled as usize + PAGE_FRONT as usize) else {
        return Ok(None);
    };
    if sectors > end - at {
        return Ok(None);
    }
    let Some(kind) = kind_of(front, spelled) else {
        return Ok(None);
    };
    Ok(Some(PageFront {
        kind,
        next: at + sectors,
    }))
}

/// The front of the page in sector `at` of a past that ends before sector `end`. None where no page stands there.
///
/// Errors: those of `Store::read_behind`; `NoMemory`.
pub fn front_in<D: Disk>(
    alloc: Global,
    store: &mut Store<D>,
    at: u32,
    end: u32,
) -> Result<Option<PageFront>, Error>
    ensures found { IfOk result (λ found. D.honest store.old.disk → (p : Page)
        → HasPage (now (D.trail store.old.disk)).reads at end p → end ≤ D.size store.old.disk
        → IsSomeAnd found (λ x. IsKindOf x.kind p × (x.next ≡ at + page_sectors p))) }
    ensures later { IfOk result (λ found. IfSome found (λ x. (at < x.next) × (x.next ≤ end))) }
    ensures still { OnOk result (IsOnlyReadFrom D.Disk store.old store.new) }
    ensures looks { OnlyLooks D.Disk result store.old store.new }
{
    if store.info().is_err() {
        return Err(Error::MustReopen);
    }
    if end > store.sectors() {
        return Ok(None);
    }
    front_at(alloc, store, at, end)
}

/// The page in sector `at`. None where none stands there that ends before sector `end`.
///
/// Errors: those of `Store::read_behind`; `NoMemory`.
pub fn page_at<D: Disk>(
    alloc: Global,
    store: &mut Store<D>,
    at: u32,
    end: u32,
) -> Result<Option<PageRead>, Error>
    requires usable { store.old.must_reopen ≡ false }
    requires room { end ≤ D.size store.old.disk }
    ensures found { IfOk result (λ found. D.honest store.old.disk → (p : Page)
        → HasPage (now (D.trail store.old.disk)).reads at end p
        → IsSomeAnd found (λ x. IsRead x.deeds p × (x.next ≡ at + page_sectors p))) }
    ensures later { IfOk result (λ found. IfSome found (λ x. (at < x.next) × (x.next ≤ end))) }
    ensures still { IsOnlyReadFrom D.Disk store.old store.new }
    ensures faults { FailsAs Error.Fault OfDesktop result (D.failures store.old.disk)
        (D.failures store.new.disk) }
{
    store.shows_what_crashes_leave();
    if at >= end {
        return Ok(None);
    }
    let first = bytes_at(alloc, store, at, 1)?;
    let (numbers, _events) = first.as_slice().split_at(PAGE_FRONT as usize);
    let Some(front) = front_of(numbers) else {
        return Ok(None);
    };
    let Some(sectors) = sectors_for(front.spelled as usize + PAGE_FRONT as usize) else {
        return Ok(None);
    };
    if sectors > end - at {
        return Ok(None);
    }
    let bytes = bytes_at(alloc, store, at, sectors)?;
    let (_front, spelled) = bytes.as_slice().split_at(PAGE_FRONT as usize);
    let Some(deeds) = deeds_of(alloc, front, spelled)? else {
        return Ok(None);
    };
    Ok(Some(PageRead {
        deeds,
        next: at + sectors,
    }))
}

/// The page in sector `at` of a past that ends before sector `end`. None where none stands there.
///
/// Errors: those of `Store::read_behind`; `NoMemory`.
pub fn page_in<D: Disk>(
    alloc: Global,
    store: &mut Store<D>,
    at: u32,
    end: u32,
) -> Result<Option<PageRead>, Error>
    ensures found { IfOk result (λ found. D.honest store.old.disk → (p : Page)
        → HasPage (now (D.trail store.old.disk)).reads at end p → end ≤ D.size store.old.disk
        → IsSomeAnd found (λ x. IsRead x.deeds p × (x.next ≡ at + page_sectors p))) }
    ensures later { IfOk result (λ found. IfSome found (λ x. (at < x.next) × (x.next ≤ end))) }
    ensures still { OnOk result (IsOnlyReadFrom D.Disk store.old store.new) }
    ensures looks { OnlyLooks D.Disk result store.old store.new }
{
    if store.info().is_err() {
        return Err(Error::MustReopen);
    }
    if end > store.sectors() {
        return Ok(None);
    }
    page_at(alloc, store, at, end)
}
