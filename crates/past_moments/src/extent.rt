//! How far the past reaches that is shown, and where its pages begin.
ghost use Rattle.std.specs.Prelude.{◌≡◌, ◌+◌, ◌-◌, ◌<◌, ◌≤◌, ◌^◌, List, drop, false, true, length, IfOk, IfSome, OnOk};
ghost use Rattle.sector_disk.specs.Trail.{now};
ghost use Rattle.store_layout.specs.declared.layout.TheConstants.{STORE_SECTORS};
ghost use Rattle.past_pages.specs.Page.{Page};
ghost use Rattle.past_pages.specs.Reading.{IsKindOf, IsOnlyReadFrom, IsRead, kind_count};
ghost use Rattle.desk_past.specs.Past.{HasPages, end_of_pages, AreGood, all_deeds};
ghost use Rattle.desk_past.specs.Reading.{many_deeds};
ghost use Rattle.past_moments.specs.Moments.{IsExtentOf, IsPageOf, IsPagePlace};

use desk_journal::{Error, STORE_SECTORS, Store};
use event_bytes::Event;
use past_pages::{PageDeeds, PageFront, PageKind, PageRead, front_in, page_in, part_at};
use sector_disk::Disk;
use std::alloc::{AllocError, Global};
use store_layout::{PastEnd, standing_law};

/// A past: the sector from which the part begins in which it lies, the one behind its pages, its oldest moment, the moment
/// before the journal in use, the last one, which is the present, and the events of that journal.
#[derive(Drop)]
pub struct Extent {
    pub base: u32,
    pub end: u32,
    pub first: u64,
    pub before: u64,
    pub last: u64,
    pub journal: Vec<Event>,
}

/// A moment behind which a page begins, or the journal in use, and the sector of that page.
#[derive(Clone, Copy, Debug, PartialEq, Eq)]
pub struct Place {
    pub at: u32,
    pub k: u64,
}

impl Place {
    /// The place behind a page. None where its moment can't be counted.
    fn behind(self, page: &PageRead) -> Option<Place>
        ensures { IfSome result (λ p. (p.at ≡ page.now.next)
            × (p.k ≡ self.k + many_deeds page.now.deeds)) }
    {
        let k = self.k.checked_add(many_in(&page.deeds))?;
        Some(Place { at: page.next, k })
    }

    /// The same of a page whose front was read.
    fn behind_front(self, page: PageFront) -> Option<Place>
        ensures { IfSome result (λ p. (p.at ≡ page.next)
            × (p.k ≡ self.k + kind_count page.kind)) }
    {
        let k = self.k.checked_add(page.kind.count() as u64)?;
        Some(Place { at: page.next, k })
    }
}

/// How much a page says was done: an import is one deed, and so is a turn; a mark is none.
fn many_in(deeds: &PageDeeds) -> u64
    ensures { result ≡ many_deeds deeds.now }
{
    match deeds {
        PageDeeds::Events(events) => events.len() as u64,
        PageDeeds::Import(_) | PageDeeds::Turn(_) | PageDeeds::FarTurn => 1,
        PageDeeds::Mark => 0,
    }
}

/// How many deeds the pages have from sector `first` up to sector `end`. None where one is missing, or where they can't be
/// counted.
///
/// Errors: those of `front_in`.
fn count_pages<D: Disk>(
    alloc: Global,
    store: &mut Store<D>,
    first: u32,
    end: u32,
) -> Result<Option<u64>, Error>
    requires { store.old.must_reopen ≡ false }
    ensures whole { IfOk result (λ found. IfSome found (λ count. D.honest store.old.disk
        → (pages : List Page) → HasPages (now (D.trail store.old.disk)).reads first pages
        → AreGood pages → end_of_pages first pages ≡ end → end ≤ D.size store.old.disk
        → count ≡ length (all_deeds pages))) }
    ensures still { IsOnlyReadFrom D.Disk store.old store.new }
{
    store.shows_what_crashes_leave();
    let mut here = Place { at: first, k: 0 };
    while here.at < end {
        let Some(page) = front_in(alloc, store, here.at, end)? else {
            return Ok(None);
        };
        let Some(next) = here.behind_front(page) else {
            return Ok(None);
        };
        here = next;
    }
    Ok(Some(here.k))
}

/// The past of a store. None where it keeps none, or where a page is missing.
///
/// Errors: those of `count_pages` and `Store::history`.
pub(crate) fn extent_of<D: Disk>(
    alloc: Global,
    store: &mut Store<D>,
) -> Result<Option<Extent>, Error>
    requires { store.old.must_reopen ≡ false }
    ensures is { IfOk result (λ found. IfSome found (λ extent.
        IsExtentOf D.Disk extent store.old)) }
    ensures still { IsOnlyReadFrom D.Disk store.old store.new }
{
    standing_law();
    store.shows_what_crashes_leave();
    let told = store.past()?;
    let Some(part) = part_at(store.sectors(), told.next) else {
        return Ok(None);
    };
    let Some(first) = part.base.checked_add(STORE_SECTORS) else {
        return Ok(None);
    };
    let Some(count) = count_pages(alloc, store, first, told.next)? else {
        return Ok(None);
    };
    let info = store.info()?;
    let events = store.history(alloc)?;
    Ok(with_journal(part.base, told, count, info.events, events)?)
}

/// The past of a part whose pages have so many deeds, where so many of these events are in the journal in use. None where
/// the head tells of fewer deeds, or of too many to be counted.
fn with_journal(
    base: u32,
    told: PastEnd,
    count: u64,
    journal: u32,
    events: Vec<Event>,
) -> Result<Option<Extent>, AllocError>
    ensures base { IfOk result (λ found. IfSome found (λ e. e.base ≡ base)) }
    ensures end { IfOk result (λ found. IfSome found (λ e. e.end ≡ told.next)) }
    ensures first { IfOk result (λ found. IfSome found (λ e. e.first + count ≡ told.before)) }
    ensures before { IfOk result (λ found. IfSome found (λ e. (e.before ≡ told.before)
        × (e.last ≡ told.before + length e.journal.items))) }
    ensures journal { IfOk result (λ found. IfSome found (λ e.
        e.journal.items ≡ drop (length events.items - journal) events.items)) }
{
    let Some(first) = told.before.checked_sub(count) else {
        return Ok(None);
    };
    let mut events = events;
    let others = events.len().saturating_sub(journal as usize);
    let journal = events.split_off(others)?;
    let Some(last) = told.before.checked_add(journal.len() as u64) else {
        return Ok(None);
    };
    Ok(Some(Extent {
        base,
        end: told.next,
        first,
        before: told.before,
        last,
        journal,
    }))
}

impl Extent {
    /// Where the first page begins. None where no page can begin there.
    pub fn start(&self) -> Option<Place>
        ensures { IfSome result (λ p. (p.at ≡ self.now.base + STORE_SECTORS)
            × (p.k ≡ self.now.first)) }
    {
        let at = self.base.checked_add(STORE_SECTORS)?;
        Some(Place { at, k: self.first })
    }

    /// Whether the journal in use begins at a place, and no page.
    pub fn is_present(&self, place: Place) -> bool
        ensures yes { result ≡ true → self.now.end ≤ place.at }
        ensures no { result ≡ false → place.at < self.now.end }
    {
        place.at >= self.end
    }

    /// The kind of the page at a place, and the place behind it. None where no page stands there.
    ///
    /// Errors: those of `front_in`.
    pub fn front_at<D: Disk>(
        &self,
        alloc: Global,
        store: &mut Store<D>,
        place: Place,
    ) -> Result<Option<(PageKind, Place)>, Error>
        requires { store.old.must_reopen ≡ false }
        ensures page { IfOk result (λ found. IfSome found (λ x.
            IsExtentOf D.Disk self.now store.old → IsPagePlace D.Disk place store.old
            → IsPageOf D.Disk place (IsKindOf x.0) x.1 store.old)) }
        ensures later { IfOk result (λ found. IfSome found (λ x. (place.at < x.1.at)
            × (x.1.at ≤ self.now.end))) }
        ensures still { IsOnlyReadFrom D.Disk store.old store.new }
    {
        store.shows_what_crashes_leave();
        let Some(page) = front_in(alloc, store, place.at, self.end)? else {
            return Ok(None);
        };
        match place.behind_front(page) {
            None => Ok(None),
            Some(next) => Ok(Some((page.kind, next))),
        }
    }

    /// What the page at a place says was done, and the place behind it. None where no page stands there.
    ///
    /// Errors: those of `page_in`.
    pub fn page_at<D: Disk>(
        &self,
        alloc: Global,
        store: &mut Store<D>,
        place: Place,
    ) -> Result<Option<(PageDeeds, Place)>, Error>
        requires { store.old.must_reopen ≡ false }
        ensures page { IfOk result (λ found. IfSome found (λ x.
            IsExtentOf D.Disk self.now store.old → IsPagePlace D.Disk place store.old
            → IsPageOf D.Disk place (IsRead x.0) x.1 store.old)) }
        ensures later { IfOk result (λ found. IfSome found (λ x. (place.at < x.1.at)
            × (x.1.at ≤ self.now.end))) }
        ensures still { IsOnlyReadFrom D.Disk store.old store.new }
    {
        store.shows_what_crashes_leave();
        let Some(page) = page_in(alloc, store, place.at, self.end)? else {
            return Ok(None);
        };
        match place.behind(&page) {
            None => Ok(None),
            Some(next) => Ok(Some((page.deeds, next))),
        }
    }
}
