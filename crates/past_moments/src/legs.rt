//! The deeds of pages, done once more in memory.
ghost use Rattle.std.specs.Prelude.{◌≡◌, ◌+◌, ◌≤◌, [], ◌∷◌, length, take, false, true, Err, MatchResult, Ok, IfOk, IfSome, OnOk};
ghost use Rattle.desktop_definitions.specs.Step.{steps};
ghost use Rattle.past_pages.specs.Page.{Page};
ghost use Rattle.past_pages.specs.Reading.{IsOnlyReadFrom, IsRead};
ghost use Rattle.desk_past.specs.Deeds.{after_deeds, brought};
ghost use Rattle.desk_past.specs.Past.{deeds_in};
ghost use Rattle.past_moments.specs.Moments.{GoesFrom, IsExtentOf, IsDesktopAt, IsPagePlace, leg_behind, of_memory};

use crate::extent::{Extent, Place};
use desk_journal::{Document, Error, Store};
use desk_past::post_all;
use event_bytes::Event;
use past_pages::{PageDeeds, PageKind};
use sector_disk::{Disk, MemoryDisk};
use std::alloc::Global;

/// From where a leg goes: from a moment that is kept, from the one to which a turn leads, or from the desktop that the page in a
/// sector has.
#[derive(Clone, Copy, Debug, PartialEq, Eq)]
pub(crate) enum Source {
    Kept,
    Moment(u64),
    Copy(u32),
}

/// The last part of the way to a moment, and from where it goes.
#[derive(Clone, Copy)]
pub(crate) struct Leg {
    pub place: Place,
    pub from: Source,
}

/// What was made of a disk in memory. Its faults are want of memory.
pub fn of_memory<T: Drop>(made: Result<T, Error>) -> Result<T, Error>
    ensures { MatchResult result (λ value. made ≡ Ok value) (λ error. Err error ≡ of_memory made) }
{
    match made {
        Err(Error::Fault) => Err(Error::NoMemory),
        made => made,
    }
}

/// The last leg behind a page in sector `at` that ends at this place: behind a turn another one begins, and so it does behind a
/// desktop.
fn leg_behind(leg: Leg, kind: PageKind, at: u32, place: Place) -> Leg
    ensures { result ≡ leg_behind leg kind at place }
{
    match kind {
        PageKind::Turn(to) => Leg {
            place,
            from: Source::Moment(to),
        },
        PageKind::FarTurn | PageKind::Mark => Leg {
            place,
            from: Source::Copy(at),
        },
        PageKind::Events(_) | PageKind::Import => leg,
    }
}

/// The last leg of the way from a place to moment `k`. None where a page is missing.
///
/// Errors: those of `front_at`.
pub(crate) fn last_leg<D: Disk>(
    alloc: Global,
    store: &mut Store<D>,
    extent: &Extent,
    place: Place,
    k: u64,
) -> Result<Option<Leg>, Error>
    requires { store.old.must_reopen ≡ false }
    ensures place { IfOk result (λ found. IfSome found (λ leg.
        IsExtentOf D.Disk extent.now store.old → IsPagePlace D.Disk place store.old
        → IsPagePlace D.Disk leg.place store.old)) }
    ensures from { IfOk result (λ found. IfSome found (λ leg.
        IsExtentOf D.Disk extent.now store.old → IsPagePlace D.Disk place store.old
        → GoesFrom D.Disk leg.place leg.from store.old)) }
    ensures still { IsOnlyReadFrom D.Disk store.old store.new }
{
    store.shows_what_crashes_leave();
    let mut here = place;
    let mut leg = Leg {
        place,
        from: Source::Kept,
    };
    while here.at < extent.end && here.k < k {
        let Some((kind, next)) = extent.front_at(alloc, store, here)? else {
            return Ok(None);
        };
        leg = leg_behind(leg, kind, here.at, next);
        here = next;
    }
    Ok(Some(leg))
}

/// Does all that a page says once more, which is nothing for a mark. False where that is a turn, which can't be done so.
///
/// Errors: those of `post_all` and `bring`.
pub(crate) fn do_all(
    alloc: Global,
    shown: &mut Store<MemoryDisk>,
    deeds: &PageDeeds,
) -> Result<bool, Error>
    ensures { IfOk result (λ done. done ≡ true → (p : Page) → IsRead deeds.now p
        → shown.new.desktop ≡ after_deeds shown.old.desktop (deeds_in p)) }
{
    match deeds {
        PageDeeds::Events(events) => {
            post_all(alloc, shown, events.as_slice())?;
            Ok(true)
        }
        PageDeeds::Import(documents) => {
            bring(alloc, shown, documents.as_slice())?;
            Ok(true)
        }
        PageDeeds::Turn(_) | PageDeeds::FarTurn => Ok(false),
        PageDeeds::Mark => Ok(true),
    }
}

/// Brings documents once more.
///
/// Errors: those of `Store::bring`, whose faults are want of memory.
pub(crate) fn bring(
    alloc: Global,
    shown: &mut Store<MemoryDisk>,
    documents: &[Document],
) -> Result<(), Error>
    ensures { OnOk result (shown.new.desktop
        ≡ after_deeds shown.old.desktop (brought documents.now ∷ [])) }
{
    let _reply = of_memory(shown.bring(alloc, documents))?;
    Ok(())
}

/// Posts the first ones of some events once more, so many. False where there are fewer.
///
/// Errors: those of `post_all`.
fn post_front(
    alloc: Global,
    shown: &mut Store<MemoryDisk>,
    events: &[Event],
    count: u64,
) -> Result<bool, Error>
    ensures { IfOk result (λ done. done ≡ true → (count ≤ length events.now)
        × (shown.new.desktop ≡ steps shown.old.desktop (take count events.now))) }
{
    if count > events.len() as u64 {
        return Ok(false);
    }
    let (front, _rest) = events.split_at(count as usize);
    post_all(alloc, shown, front)?;
    Ok(true)
}

/// Does the first deeds of a page once more, so many. False where there are fewer, or where they aren't events.
///
/// Errors: those of `post_front`.
fn do_front(
    alloc: Global,
    shown: &mut Store<MemoryDisk>,
    deeds: &PageDeeds,
    count: u64,
) -> Result<bool, Error>
    ensures { IfOk result (λ done. done ≡ true → (p : Page) → IsRead deeds.now p
        → (count ≤ length (deeds_in p))
        × (shown.new.desktop ≡ after_deeds shown.old.desktop (take count (deeds_in p)))) }
{
    match deeds {
        PageDeeds::Events(events) => post_front(alloc, shown, events.as_slice(), count),
        PageDeeds::Import(_) | PageDeeds::Turn(_) | PageDeeds::FarTurn | PageDeeds::Mark => {
            Ok(false)
        }
    }
}

/// Does the first deeds once more that stand behind a place, so many: those of its page, or of the journal in use. False
/// where it has fewer, or where they aren't events.
///
/// Errors: those of `page_at` and `post_front`.
pub(crate) fn do_part<D: Disk>(
    alloc: Global,
    store: &mut Store<D>,
    extent: &Extent,
    shown: &mut Store<MemoryDisk>,
    place: Place,
    count: u64,
) -> Result<bool, Error>
    requires { store.old.must_reopen ≡ false }
    ensures done { IfOk result (λ done. done ≡ true → IsExtentOf D.Disk extent.now store.old
        → IsPagePlace D.Disk place store.old
        → IsDesktopAt D.Disk place.k shown.old.desktop store.old
        → IsDesktopAt D.Disk (place.k + count) shown.new.desktop store.old) }
    ensures still { IsOnlyReadFrom D.Disk store.old store.new }
{
    if count == 0 {
        return Ok(true);
    }
    if extent.is_present(place) {
        return post_front(alloc, shown, extent.journal.as_slice(), count);
    }
    match extent.page_at(alloc, store, place)? {
        None => Ok(false),
        Some((deeds, _next)) => do_front(alloc, shown, &deeds, count),
    }
}
