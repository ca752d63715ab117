//! The way to a moment of a past in which there are turns.
ghost use Rattle.std.specs.Prelude.{◌≡◌, ◌+◌, ◌≤◌, ◌<◌, ◌++◌, ◌∷◌, [], List, Decides, false, length, IfOk, IsSomeAnd, OnOk};
ghost use Rattle.sector_disk.specs.Faults.{FailsAs};
ghost use Rattle.sector_disk.specs.Trail.{now};
ghost use Rattle.store_slots.specs.Errors.{OfDesktop};
ghost use Rattle.past_pages.specs.Page.{Page};
ghost use Rattle.past_pages.specs.Reading.{IsKindOf, IsOnlyReadFrom};
ghost use Rattle.desk_past.specs.Past.{HasPages, end_of_pages};
ghost use Rattle.desk_past.specs.Past.{AreGood, AreTurns, Start, all_deeds};
ghost use Rattle.desk_past.specs.Routes.{IsPassed, IsReached, IsWay, LeadsBack};

use desk_journal::{Error, Store};
use past_pages::{PageFront, PageKind, front_at};
use sector_disk::Disk;
use std::alloc::{AllocError, Global};

/// A part of the way to a moment: so many deeds of the pages from sector `at` on.
#[derive(Clone, Copy, Debug, PartialEq, Eq)]
pub(crate) struct Leg {
    pub at: u32,
    pub count: u64,
}

/// Where a way begins: at the start, at the moment to which a turn led, or at the desktop that the page in a sector has.
#[derive(Clone, Copy, Debug, PartialEq, Eq)]
pub(crate) enum Origin {
    AtStart,
    AtMoment(u64),
    AtCopy(u32),
}

/// The last leg to a moment, and from where it goes.
#[derive(Clone, Copy)]
struct Reach {
    leg: Leg,
    from: Origin,
}

/// The last leg behind a page in sector `here` that ends at sector `page.next`, where so many deeds are left: behind a turn
/// another one begins, and so it does behind a desktop.
fn reach_behind(reach: Reach, page: PageFront, here: u32, left: u64) -> Reach
    ensures { (p : Page) → IsKindOf page.kind p
        → IsPassed p here page.next left reach.leg reach.from result.leg result.from }
{
    let leg = Leg {
        at: page.next,
        count: left,
    };
    match page.kind {
        PageKind::Events(_) => reach,
        PageKind::Import => reach,
        PageKind::Turn(to) => Reach {
            leg,
            from: Origin::AtMoment(to),
        },
        PageKind::FarTurn => Reach {
            leg,
            from: Origin::AtCopy(here),
        },
        PageKind::Mark => Reach {
            leg,
            from: Origin::AtCopy(here),
        },
    }
}

/// How moment `k` is reached by the pages from sector `first` up to sector `end`, before which so many deeds came. None
/// where they have no such moment.
///
/// Errors: those of `front_at`.
fn reach_of<D: Disk>(
    alloc: Global,
    store: &mut Store<D>,
    first: u32,
    before: u64,
    end: u32,
    k: u64,
) -> Result<Option<Reach>, Error>
    requires usable { store.old.must_reopen ≡ false }
    requires room { end ≤ D.size store.old.disk }
    requires later { before ≤ k }
    ensures reached { IfOk result (λ found. D.honest store.old.disk → (start : Start)
        (pages : List Page) → start.before ≡ before
        → HasPages (now (D.trail store.old.disk)).reads first pages → AreGood pages
        → AreTurns start [] pages → end_of_pages first pages ≡ end
        → k ≤ before + length (all_deeds pages)
        → IsSomeAnd found (λ r. IsReached (now (D.trail store.old.disk)).reads end start
        (all_deeds pages) k r.leg r.from × LeadsBack before k r.from)) }
    ensures still { IsOnlyReadFrom D.Disk store.old store.new }
    ensures faults { FailsAs Error.Fault OfDesktop result (D.failures store.old.disk)
        (D.failures store.new.disk) }
{
    store.shows_what_crashes_leave();
    let mut reach = Reach {
        leg: Leg {
            at: first,
            count: k - before,
        },
        from: Origin::AtStart,
    };
    let mut at = first;
    let mut left = k - before;
    while left > 0 {
        let Some(page) = front_at(alloc, store, at, end)? else {
            return Ok(None);
        };
        left = left.saturating_sub(page.kind.count() as u64);
        reach = reach_behind(reach, page, at, left);
        at = page.next;
    }
    Ok(Some(reach))
}

/// Whether a way doesn't begin at a moment, or at one before moment `k`, and not before the pages.
fn leads_back(from: Origin, before: u64, k: u64) -> bool
    ensures { Decides result (LeadsBack before k from) }
{
    match from {
        Origin::AtMoment(to) => before <= to && to < k,
        Origin::AtStart | Origin::AtCopy(_) => true,
    }
}

/// A leg more.
fn add(legs: &mut Vec<Leg>, leg: Leg) -> Result<(), AllocError>
    ensures { OnOk result (legs.new.items ≡ legs.old.items ++ leg ∷ []) }
{
    legs.push(leg)?;
    Ok(())
}

/// The way to a moment: where it begins, and its legs, the last of which is gone first.
#[derive(Drop)]
pub(crate) struct Way {
    pub from: Origin,
    pub legs: Vec<Leg>,
}

/// The way to moment `k` by the pages from sector `first` up to sector `end`, before which so many deeds came. None where the
/// pages have no such moment.
///
/// Errors: those of `front_at`; `NoMemory`.
pub(crate) fn way_to<D: Disk>(
    alloc: Global,
    store: &mut Store<D>,
    first: u32,
    before: u64,
    end: u32,
    k: u64,
) -> Result<Option<Way>, Error>
    requires usable { store.old.must_reopen ≡ false }
    requires room { end ≤ D.size store.old.disk }
    requires later { before ≤ k }
    ensures ways { IfOk result (λ found. D.honest store.old.disk → (start : Start)
        (pages : List Page) → start.before ≡ before
        → HasPages (now (D.trail store.old.disk)).reads first pages → AreGood pages
        → AreTurns start [] pages → end_of_pages first pages ≡ end
        → k ≤ before + length (all_deeds pages)
        → IsSomeAnd found (λ way. IsWay (now (D.trail store.old.disk)).reads end start
        (all_deeds pages) k way.legs.items way.from)) }
    ensures still { IsOnlyReadFrom D.Disk store.old store.new }
    ensures faults { FailsAs Error.Fault OfDesktop result (D.failures store.old.disk)
        (D.failures store.new.disk) }
{
    store.shows_what_crashes_leave();
    let mut legs = Vec::new(alloc);
    let mut from = Origin::AtMoment(k);
    while let Origin::AtMoment(to) = from {
        let Some(reach) = reach_of(alloc, store, first, before, end, to)? else {
            return Ok(None);
        };
        if !leads_back(reach.from, before, to) {
            return Ok(None);
        }
        add(&mut legs, reach.leg)?;
        from = reach.from;
    }
    Ok(Some(Way { from, legs }))
}
