//! The store as it was before so many of its last deeds.
ghost use Rattle.std.specs.Prelude.{◌≡◌, ◌+◌, ◌-◌, ◌≤◌, ◌<◌, ◌^◌, ℕ, List, length, IfOk, IfSome, IsSomeAnd, OnOk, false};
ghost use Rattle.sector_disk.specs.Trail.{now};
ghost use Rattle.desktop_definitions.specs.Desktop.{Desktop};
ghost use Rattle.past_pages.specs.Page.{Page};
ghost use Rattle.past_pages.specs.Reading.{IsOnlyReadFrom};
ghost use Rattle.desk_past.specs.Chain.{SpansOf, WasInSpans};
ghost use Rattle.desk_past.specs.Deeds.{PastDeed};
ghost use Rattle.desk_past.specs.Going.{LiesInPart};
ghost use Rattle.desk_past.specs.Past.{HasPages, end_of_pages, AreGood, KeepsAll, Start, all_deeds};
ghost use Rattle.desk_past.specs.Reading.{many_deeds};
ghost use Rattle.desk_past.specs.Turning.{PastOf};
ghost use Rattle.told_pasts.specs.Reaching.{GoesBackBy, HasCountable, KeepsBack, moment_before, none_if_missing};
ghost use Rattle.told_pasts.specs.Stopping.{StopsAs};

use crate::reach::{reach_of, sum_of};
use desk_journal::{Error, Store};
use desk_past::any_moment;
use past_pages::{PageDeeds, PageRead, page_in};
use sector_disk::{Disk, MemoryDisk};
use std::alloc::Global;

/// Pages from one sector up to another: how many deeds they have, or the first sector where a page is missing.
#[derive(Clone, Copy, Debug, PartialEq, Eq)]
pub enum Pages {
    Whole(u64),
    Missing(u32),
}

/// The store as it was before so many of its last deeds, in memory, by the past behind it, in whichever part that moment lies. None
/// where it keeps none, or one that doesn't reach so far.
///
/// Errors: those of `reach_of` and of `any_moment`. Of a moment of the part in use that is kept whole `NoMemory`, `Fault` and `Worn`
/// alone.
pub fn shown_before<D: Disk>(
    alloc: Global,
    store: &mut Store<D>,
    count: u32,
) -> Result<Option<Store<MemoryDisk>>, Error>
    ensures comes_back { IfOk result (λ found. D.honest store.old.disk
        → (start : Start) (deeds : List PastDeed) (desktop : Desktop)
        → (keeps : KeepsAll D.Disk start deeds desktop store.old) → LiesInPart D.Disk keeps
        → count ≤ length deeds → start.before + length deeds < 2 ^ 64
        → IsSomeAnd found (λ shown. shown.desktop ≡ moment_before start deeds count)) }
    ensures over_parts { IfOk result (λ found. (past : PastOf D.Disk store.old)
        → LiesInPart D.Disk past.keeps → (spans : List (Start × List Page))
        → (are : SpansOf D.Disk past.keeps spans) → past.start.before + length past.deeds < 2 ^ 64
        → (was : Desktop) → WasInSpans D.Disk past.keeps spans are
        (past.start.before + length past.deeds - count) was
        → count ≤ past.start.before + length past.deeds
        → IsSomeAnd found (λ shown. shown.desktop ≡ was)) }
    ensures there { IfOk result (λ found. IfSome found (λ shown.
        (past : PastOf D.Disk store.old) → LiesInPart D.Disk past.keeps
        → count ≤ past.start.before + length past.deeds)) }
    ensures still { OnOk result (IsOnlyReadFrom D.Disk store.old store.new) }
    ensures stops { StopsAs D.Disk (KeepsBack D.Disk count store.old) result store.old store.new }
{
    store.shows_what_crashes_leave();
    let Some(reach) = reach_of(store)? else {
        return Ok(None);
    };
    let now = reach.now();
    if count as u64 > now {
        return Ok(None);
    }
    any_moment(alloc, store, now - count as u64)
}

/// What was found, and none where no start stands, or a damaged one.
pub fn none_where_missing<T: Drop>(found: Result<Option<T>, Error>) -> Result<Option<T>, Error>
    ensures { result ≡ none_if_missing found }
{
    match found {
        Err(Error::NotAStore | Error::Damaged(_)) => Ok(None),
        found => found,
    }
}

/// Takes so many of the last events back, and returns whether there were so many.
///
/// Errors: those of `Store::undo`.
pub fn takes_back<D: Disk>(alloc: Global, store: &mut Store<D>, count: u32) -> Result<bool, Error>
    ensures { IfOk result (λ all. GoesBackBy D.Disk count all store.old store.new) }
{
    let taken = store.undo(alloc, count)?;
    Ok(taken.len() == count as usize)
}

/// How much a page says was done: an import is one deed, and so is a turn; a mark is none.
fn many_of(deeds: &PageDeeds) -> u64
    ensures { result ≡ many_deeds deeds.now }
{
    match deeds {
        PageDeeds::Events(events) => events.len() as u64,
        PageDeeds::Import(_) | PageDeeds::Turn(_) | PageDeeds::FarTurn => 1,
        PageDeeds::Mark => 0,
    }
}

/// How many deeds a page has, and the sector behind it.
fn counted(page: PageRead) -> (u64, u32)
    ensures many { result.0 ≡ many_deeds page.deeds }
    ensures next { result.1 ≡ page.next }
{
    (many_of(&page.deeds), page.next)
}

/// How many deeds the pages have from sector `first` up to sector `end`, or the first sector where one is missing.
///
/// Errors: those of `page_in`.
pub fn counted_pages<D: Disk>(
    alloc: Global,
    store: &mut Store<D>,
    first: u32,
    end: u32,
) -> Result<Pages, Error>
    ensures whole { IfOk result (λ found. D.honest store.old.disk → (pages : List Page)
        → HasPages (now (D.trail store.old.disk)).reads first pages → AreGood pages
        → end_of_pages first pages ≡ end → end ≤ D.size store.old.disk
        → length (all_deeds pages) < 2 ^ 64
        → found ≡ Pages.Whole (length (all_deeds pages))) }
    ensures still { OnOk result (IsOnlyReadFrom D.Disk store.old store.new) }
    ensures stops { StopsAs D.Disk (store.old.must_reopen ≡ false) result store.old store.new }
{
    store.shows_what_crashes_leave();
    if store.info().is_err() {
        return Err(Error::MustReopen);
    }
    let mut at = first;
    let mut count = 0u64;
    while at < end {
        let Some(page) = page_in(alloc, store, at, end)? else {
            return Ok(Pages::Missing(at));
        };
        let (many, next) = counted(page);
        count = sum_of(count, many);
        at = next;
    }
    Ok(Pages::Whole(count))
}

/// How many deeds the pages have from sector `first` up to sector `end`.
///
/// Errors: those of `page_in`; `Damaged` where a page is missing.
pub(crate) fn count_of<D: Disk>(
    alloc: Global,
    store: &mut Store<D>,
    first: u32,
    end: u32,
) -> Result<u64, Error>
    ensures whole { IfOk result (λ count. D.honest store.old.disk → (pages : List Page)
        → HasPages (now (D.trail store.old.disk)).reads first pages → AreGood pages
        → end_of_pages first pages ≡ end → end ≤ D.size store.old.disk
        → length (all_deeds pages) < 2 ^ 64 → count ≡ length (all_deeds pages)) }
    ensures still { OnOk result (IsOnlyReadFrom D.Disk store.old store.new) }
    ensures stops { StopsAs D.Disk (HasCountable D.Disk store.old first end) result store.old
        store.new }
{
    match counted_pages(alloc, store, first, end)? {
        Pages::Whole(count) => Ok(count),
        Pages::Missing(at) => Err(Error::Damaged(at)),
    }
}
