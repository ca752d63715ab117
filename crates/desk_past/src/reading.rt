//! Any moment of a past: its start is opened as a store in memory, and what its pages say is done there again.
ghost use Rattle.std.specs.Prelude.{◌≡◌, ◌+◌, ◌-◌, ◌*◌, ◌≤◌, ◌<◌, ◌++◌, ◌^◌, ℕ, List, length, take, drop, true, false, IfErr, IfOk, IfSome, IsErrOf, IsSomeAnd, MatchOption, OnOk, Some};
ghost use Rattle.sector_disk.specs.Faults.{FailsAs};
ghost use Rattle.sector_disk.specs.Trail.{now};
ghost use Rattle.desktop_definitions.specs.Desktop.{Desktop};
ghost use Rattle.desktop_definitions.specs.Step.{steps_in};
ghost use Rattle.store_layout.specs.declared.layout.TheConstants.{LAYOUT, STORE_SECTORS};
ghost use Rattle.store_layout.specs.Meaning.{Standing};
ghost use Rattle.store_slots.specs.Errors.{OfDesktop, OfLook};
ghost use Rattle.desk_journal.specs.Device.{IsOnlyRead};
ghost use Rattle.desk_journal.specs.Undoing.{IsLedOn, IsLeft, ShowsStanding};
ghost use Rattle.past_pages.specs.Page.{Page};
ghost use Rattle.past_pages.specs.Laying.{HasStoreRoom, StandsFrom, IsBlankRoom};
ghost use Rattle.past_pages.specs.Reading.{IsOnlyReadFrom, IsRead};
ghost use Rattle.desk_past.specs.Deeds.{PastDeed};
ghost use Rattle.desk_past.specs.Errors.{OfDoing, OfGoingBack, OfLaying, OfMoment, OfSteps};
ghost use Rattle.desk_past.specs.Past.{HasPages, deeds_in, end_of_pages};
ghost use Rattle.desk_past.specs.Past.{AreGood, HasMoment, HasStart, KeepsAll, Start, all_deeds, moment as moment_of};
ghost use Rattle.desk_past.specs.Reading.{HoldsTold, IsLed, ShowsNow, many_deeds, start_at};
ghost use Rattle.past_pages.specs.Marks.{ShowsCopy};
ghost use Rattle.desk_past.specs.Routes.{AreLegs, BeginsAt, HasNoTurn, IsWay};

use crate::again::{
    back_to, brought, empty_disk, many_before, opened, posted, taken_back, told_in,
};
use crate::routes::{Leg, Origin, Way, way_to};
use desk_journal::{Error, STORE_SECTORS, Store};
use event_bytes::Event;
use past_pages::{PageDeeds, copy_at, front_at, lay, page_at};
use sector_disk::{Disk, MemoryDisk};
use std::alloc::Global;
use store_layout::{PastEnd, standing_law};

/// The store that stands from sector `base` on, laid on another disk, which is in memory, and opened.
///
/// Errors: those of `Store::read_behind`; `NoMemory`; `NotAStore` and `Damaged` where none stands there.
fn opened_at<D: Disk, E: Disk + Drop>(
    alloc: Global,
    store: &mut Store<D>,
    base: u32,
    disk: E,
) -> Result<Store<E>, Error>
    requires usable { store.old.must_reopen ≡ false }
    requires numbered { base + STORE_SECTORS < 2 ^ 32 }
    requires there { base + STORE_SECTORS ≤ D.size store.old.disk }
    requires blank { IsBlankRoom E.Disk disk }
    ensures shown { IfOk result (λ shown. D.honest store.old.disk → E.honest disk → (t : Standing)
        → StandsFrom (now (D.trail store.old.disk)).reads base t → ShowsNow E.Disk t shown) }
    ensures still { IsOnlyReadFrom D.Disk store.old store.new }
    ensures faults { FailsAs Error.Fault OfLaying result (D.failures store.old.disk)
        (D.failures store.new.disk) }
    ensures stops { IfErr result (λ e. D.honest store.old.disk → E.honest disk → (t : Standing)
        → StandsFrom (now (D.trail store.old.disk)).reads base t → OfSteps e) }
{
    standing_law();
    let mut disk = disk;
    lay(store, base, &mut disk)?;
    opened(alloc, disk)
}

/// How many deeds came before what the store shows, as its head tells. None where they are too many to be counted.
///
/// Errors: those of `Store::past`.
pub(crate) fn events_before<D: Disk>(store: &mut Store<D>) -> Result<Option<u64>, Error>
    ensures sum { IfOk result (λ found. D.honest store.old.disk → (s : Standing)
        → ShowsStanding D.Disk store.old s
        → MatchOption found (2 ^ 64 ≤ s.past.before + length s.events)
        (λ n. n ≡ s.past.before + length s.events)) }
    ensures still { OnOk result (IsOnlyReadFrom D.Disk store.old store.new) }
    ensures disk { IsOnlyRead D.Disk store.old.disk store.new.disk }
    ensures usable { OnOk result (store.old.must_reopen ≡ false) }
    ensures faults { FailsAs Error.Fault OfLook result (D.failures store.old.disk)
        (D.failures store.new.disk) }
    ensures open { IsErrOf result Error.MustReopen → store.old.must_reopen ≡ true }
{
    standing_law();
    store.shows_what_crashes_leave();
    let told = store.past()?;
    let info = store.info()?;
    Ok(told.before.checked_add(info.events as u64))
}

/// The start in sector `base` as a store in memory, and how many deeds came before it. None where the disk is too short,
/// or where they are too many to be counted.
///
/// Errors: `MustReopen`; `NotAStore` and `Damaged` where none stands there; `NoMemory`; `Fault`.
pub fn start_of<D: Disk>(
    alloc: Global,
    store: &mut Store<D>,
    base: u32,
) -> Result<Option<(Store<MemoryDisk>, u64)>, Error>
    ensures still { OnOk result (IsOnlyReadFrom D.Disk store.old store.new) }
    ensures faults { FailsAs Error.Fault OfMoment result (D.failures store.old.disk)
        (D.failures store.new.disk) }
    ensures open { IsErrOf result Error.MustReopen → store.old.must_reopen ≡ true }
{
    store.shows_what_crashes_leave();
    if store.info().is_err() {
        return Err(Error::MustReopen);
    }
    let sectors = store.sectors();
    if sectors < STORE_SECTORS || base > sectors - STORE_SECTORS {
        return Ok(None);
    }
    let disk = empty_disk(alloc)?;
    let mut shown = opened_at(alloc, store, base, disk)?;
    match many_before(&mut shown)? {
        None => Ok(None),
        Some(before) => Ok(Some((shown, before))),
    }
}

/// What a store shows, as a store in memory.
///
/// Errors: `MustReopen`; `NoMemory`; `Fault`. Over a disk that isn't honest those of `Store::open`, too.
pub fn copy_of<D: Disk>(alloc: Global, store: &mut Store<D>) -> Result<Store<MemoryDisk>, Error>
    ensures same { IfOk result (λ copy. D.honest store.old.disk
        → copy.desktop ≡ store.old.desktop) }
    ensures desktop { D.honest store.old.disk → store.new.desktop ≡ store.old.desktop }
    ensures left { IsLeft D.Disk store.old store.new }
    ensures usable { store.new.must_reopen ≡ store.old.must_reopen }
    ensures faults { FailsAs Error.Fault OfMoment result (D.failures store.old.disk)
        (D.failures store.new.disk) }
    ensures open { IsErrOf result Error.MustReopen → store.old.must_reopen ≡ true }
{
    store.shows_what_crashes_leave();
    if store.info().is_err() {
        return Err(Error::MustReopen);
    }
    if store.sectors() < STORE_SECTORS {
        return Err(Error::NotAStore);
    }
    let disk = empty_disk(alloc)?;
    opened_at(alloc, store, 0, disk)
}

/// Posts the events, one after another, to a store in memory.
///
/// Errors: those of `posted`.
pub fn post_all<E: Disk>(alloc: Global, shown: &mut Store<E>, events: &[Event]) -> Result<(), Error>
    ensures led { OnOk result (IsLedOn E.Disk events.now shown.old shown.new) }
    ensures usable { OnOk result (shown.old.must_reopen ≡ false
        → shown.new.must_reopen ≡ false) }
    ensures errors { IfErr result OfDoing }
{
    for event in events {
        let _ = posted(alloc, shown, event)?;
    }
    Ok(())
}

/// How much a page says was done: an import is one deed, and so is a turn; a mark is none.
fn count_of(deeds: &PageDeeds) -> usize
    ensures { result ≡ many_deeds deeds.now }
{
    match deeds {
        PageDeeds::Events(events) => events.len(),
        PageDeeds::Import(_) | PageDeeds::Turn(_) | PageDeeds::FarTurn => 1,
        PageDeeds::Mark => 0,
    }
}

/// Does once more what a page says was done first, so much of it. False where that is a turn, which can't be done so.
///
/// Errors: those of `posted` and `brought`.
fn do_first<E: Disk>(
    alloc: Global,
    shown: &mut Store<E>,
    deeds: &PageDeeds,
    count: usize,
) -> Result<bool, Error>
    requires { count ≤ many_deeds deeds.now }
    ensures done { IfOk result (λ done. (p : Page) → IsRead deeds.now p
        → HasNoTurn (take count (deeds_in p))
        → (done ≡ true) × IsLed E.Disk (take count (deeds_in p)) shown.old shown.new) }
    ensures errors { IfErr result OfDoing }
{
    if count == 0 {
        return Ok(true);
    }
    match deeds {
        PageDeeds::Events(events) => {
            let (first, _rest) = events.as_slice().split_at(count);
            post_all(alloc, shown, first)?;
            Ok(true)
        }
        PageDeeds::Import(documents) => {
            let _ = brought(alloc, shown, documents.as_slice())?;
            Ok(true)
        }
        PageDeeds::Turn(_) => Ok(false),
        PageDeeds::FarTurn => Ok(false),
        PageDeeds::Mark => Ok(true),
    }
}

/// Does once more the first `count` deeds of the pages from sector `at` up to sector `end`. False where these have
/// fewer, or where a turn is among them.
///
/// Errors: those of `page_at` and `do_first`.
fn step_pages<D: Disk, E: Disk>(
    alloc: Global,
    store: &mut Store<D>,
    shown: &mut Store<E>,
    at: u32,
    end: u32,
    count: u64,
) -> Result<bool, Error>
    requires usable { store.old.must_reopen ≡ false }
    requires room { end ≤ D.size store.old.disk }
    ensures led { IfOk result (λ done. D.honest store.old.disk → (pages : List Page)
        → HasPages (now (D.trail store.old.disk)).reads at pages → AreGood pages
        → end_of_pages at pages ≡ end → count ≤ length (all_deeds pages)
        → HasNoTurn (take count (all_deeds pages))
        → (done ≡ true) × IsLed E.Disk (take count (all_deeds pages)) shown.old shown.new) }
    ensures still { IsOnlyReadFrom D.Disk store.old store.new }
    ensures faults { FailsAs Error.Fault OfSteps result (D.failures store.old.disk)
        (D.failures store.new.disk) }
{
    store.shows_what_crashes_leave();
    let mut at = at;
    let mut left = count;
    while left > 0 {
        let Some(page) = page_at(alloc, store, at, end)? else {
            return Ok(false);
        };
        let count = count_of(&page.deeds);
        if left <= count as u64 {
            return do_first(alloc, shown, &page.deeds, left as usize);
        }
        if !do_first(alloc, shown, &page.deeds, count)? {
            return Ok(false);
        }
        left -= count as u64;
        at = page.next;
    }
    Ok(true)
}

/// The desktop of a moment of the journal in use, behind so many of its events. None where it has fewer.
///
/// Errors: those of `opened_at` and `taken_back`.
pub(crate) fn in_journal<D: Disk, E: Disk + Drop>(
    alloc: Global,
    store: &mut Store<D>,
    count: u64,
    disk: E,
) -> Result<Option<Store<E>>, Error>
    requires usable { store.old.must_reopen ≡ false }
    requires blank { IsBlankRoom E.Disk disk }
    ensures is_one { IfOk result (λ found. D.honest store.old.disk → E.honest disk
        → (s : Standing) → ShowsStanding D.Disk store.old s → count ≤ length s.events
        → IsSomeAnd found (λ shown.
        shown.desktop ≡ steps_in s.version s.start (take count s.events))) }
    ensures there { IfOk result (λ found. IfSome found (λ shown. D.honest store.old.disk
        → E.honest disk → (s : Standing) → ShowsStanding D.Disk store.old s
        → (count ≤ length s.events) × E.honest shown.disk)) }
    ensures still { IsOnlyReadFrom D.Disk store.old store.new }
    ensures faults { FailsAs Error.Fault OfLaying result (D.failures store.old.disk)
        (D.failures store.new.disk) }
    ensures stops { IfErr result (λ e. D.honest store.old.disk → E.honest disk → (s : Standing)
        → ShowsStanding D.Disk store.old s → OfSteps e) }
{
    standing_law();
    store.shows_what_crashes_leave();
    let info = store.info()?;
    if count > info.events as u64 || store.sectors() < STORE_SECTORS {
        return Ok(None);
    }
    let mut shown = opened_at(alloc, store, 0, disk)?;
    shown.shows_what_crashes_leave();
    let _ = taken_back(alloc, &mut shown, info.events - count as u32)?;
    Ok(Some(shown))
}

/// Goes the legs of a way, the last one first. False where one of them can't be gone.
///
/// Errors: those of `step_pages`.
fn go_legs<D: Disk, E: Disk>(
    alloc: Global,
    store: &mut Store<D>,
    shown: &mut Store<E>,
    legs: Vec<Leg>,
    end: u32,
) -> Result<bool, Error>
    requires usable { store.old.must_reopen ≡ false }
    requires room { end ≤ D.size store.old.disk }
    ensures led { IfOk result (λ done. D.honest store.old.disk → (deeds : List PastDeed)
        → AreLegs (now (D.trail store.old.disk)).reads end legs.items deeds
        → (done ≡ true) × IsLed E.Disk deeds shown.old shown.new) }
    ensures still { IsOnlyReadFrom D.Disk store.old store.new }
    ensures faults { FailsAs Error.Fault OfSteps result (D.failures store.old.disk)
        (D.failures store.new.disk) }
{
    store.shows_what_crashes_leave();
    let mut legs = legs;
    while let Some(leg) = legs.pop() {
        if !step_pages(alloc, store, shown, leg.at, end, leg.count)? {
            return Ok(false);
        }
    }
    Ok(true)
}

/// The desktop of moment `k` of a start in memory, behind the first events of its journal. None where it has no such moment.
///
/// Errors: those of `told_in` and `back_to`.
fn in_start<E: Disk + Drop>(
    alloc: Global,
    shown: Store<E>,
    k: u64,
) -> Result<Option<Store<E>>, Error>
    ensures is_one { IfOk result (λ found. (t : Standing) → ShowsNow E.Disk t shown
        → t.past.before ≤ k → k ≤ t.past.before + length t.events
        → IsSomeAnd found (λ back. back.desktop ≡ start_at t k)) }
    ensures errors { IfErr result OfGoingBack }
    ensures stops { IfErr result (λ e. (t : Standing) → ShowsNow E.Disk t shown → OfDoing e) }
{
    let mut shown = shown;
    let told = told_in(&mut shown)?;
    if k < told.before {
        return Ok(None);
    }
    back_to(alloc, shown, k - told.before)
}

/// How many deeds the pages have from sector `first` up to sector `end`. None where one is missing, or where they can't be
/// counted.
///
/// Errors: those of `front_at`.
fn many_in<D: Disk>(
    alloc: Global,
    store: &mut Store<D>,
    first: u32,
    end: u32,
) -> Result<Option<u64>, Error>
    requires usable { store.old.must_reopen ≡ false }
    requires room { end ≤ D.size store.old.disk }
    ensures whole { IfOk result (λ found. D.honest store.old.disk → (pages : List Page)
        → HasPages (now (D.trail store.old.disk)).reads first pages → AreGood pages
        → end_of_pages first pages ≡ end
        → MatchOption found (2 ^ 64 ≤ length (all_deeds pages))
        (λ count. count ≡ length (all_deeds pages))) }
    ensures still { IsOnlyReadFrom D.Disk store.old store.new }
    ensures faults { FailsAs Error.Fault OfDesktop result (D.failures store.old.disk)
        (D.failures store.new.disk) }
{
    store.shows_what_crashes_leave();
    let mut at = first;
    let mut count = 0u64;
    while at < end {
        let Some(page) = front_at(alloc, store, at, end)? else {
            return Ok(None);
        };
        let Some(sum) = count.checked_add(page.kind.count() as u64) else {
            return Ok(None);
        };
        count = sum;
        at = page.next;
    }
    Ok(Some(count))
}

/// How many deeds came before the pages from sector `first` on, which end where `told` says. None where one is missing, or
/// where they have more deeds than came.
///
/// Errors: those of `many_in`.
fn before_pages<D: Disk>(
    alloc: Global,
    store: &mut Store<D>,
    first: u32,
    told: PastEnd,
) -> Result<Option<u64>, Error>
    requires usable { store.old.must_reopen ≡ false }
    requires room { told.next ≤ D.size store.old.disk }
    ensures before { IfOk result (λ found. D.honest store.old.disk → (pages : List Page)
        → HasPages (now (D.trail store.old.disk)).reads first pages → AreGood pages
        → end_of_pages first pages ≡ told.next → (before : ℕ)
        → before + length (all_deeds pages) ≡ told.before
        → IsSomeAnd found (λ n. n ≡ before)) }
    ensures still { IsOnlyReadFrom D.Disk store.old store.new }
    ensures faults { FailsAs Error.Fault OfDesktop result (D.failures store.old.disk)
        (D.failures store.new.disk) }
{
    let Some(count) = many_in(alloc, store, first, told.next)? else {
        return Ok(None);
    };
    Ok(told.before.checked_sub(count))
}

/// The store in memory from which a way goes: that of the start in sector `base`, or of a page before sector `end`. None where
/// it goes from a moment, or where the page has no desktop.
///
/// Errors: those of `opened_at` and `copy_at`.
fn shown_from<D: Disk, E: Disk + Drop>(
    alloc: Global,
    store: &mut Store<D>,
    base: u32,
    from: Origin,
    end: u32,
    disk: E,
) -> Result<Option<Store<E>>, Error>
    requires usable { store.old.must_reopen ≡ false }
    requires there { base + STORE_SECTORS ≤ end }
    requires room { end ≤ D.size store.old.disk }
    requires blank { IsBlankRoom E.Disk disk }
    ensures shown { IfOk result (λ found. D.honest store.old.disk → E.honest disk
        → (start : Start) → HasStart (now (D.trail store.old.disk)).reads start
        → start.base ≡ base → (was : Desktop)
        → BeginsAt (now (D.trail store.old.disk)).reads end start from was
        → IsSomeAnd found (ShowsCopy E.Disk was)) }
    ensures still { IsOnlyReadFrom D.Disk store.old store.new }
    ensures faults { FailsAs Error.Fault OfLaying result (D.failures store.old.disk)
        (D.failures store.new.disk) }
    ensures stops { IfErr result (λ e. D.honest store.old.disk → E.honest disk → (start : Start)
        → HasStart (now (D.trail store.old.disk)).reads start → start.base ≡ base → OfSteps e) }
{
    match from {
        Origin::AtStart => Ok(Some(opened_at(alloc, store, base, disk)?)),
        Origin::AtCopy(at) => Ok(copy_at(alloc, store, at, end, disk)?),
        Origin::AtMoment(_) => Ok(None),
    }
}

/// The desktop to which a way leads through the pages behind the start in sector `base`, which end before sector `end`. None
/// where it can't be gone.
///
/// Errors: those of `shown_from` and `go_legs`.
fn gone<D: Disk, E: Disk + Drop>(
    alloc: Global,
    store: &mut Store<D>,
    base: u32,
    way: Way,
    end: u32,
    disk: E,
) -> Result<Option<Store<E>>, Error>
    requires usable { store.old.must_reopen ≡ false }
    requires there { base + STORE_SECTORS ≤ end }
    requires room { end ≤ D.size store.old.disk }
    requires blank { IsBlankRoom E.Disk disk }
    ensures led { IfOk result (λ found. D.honest store.old.disk → E.honest disk
        → (start : Start) → HasStart (now (D.trail store.old.disk)).reads start
        → start.base ≡ base → (deeds : List PastDeed) (k : ℕ)
        → IsWay (now (D.trail store.old.disk)).reads end start deeds k way.legs.items way.from
        → IsSomeAnd found (ShowsCopy E.Disk (moment_of start deeds k))) }
    ensures still { IsOnlyReadFrom D.Disk store.old store.new }
    ensures faults { FailsAs Error.Fault OfLaying result (D.failures store.old.disk)
        (D.failures store.new.disk) }
    ensures stops { IfErr result (λ e. D.honest store.old.disk → E.honest disk → (start : Start)
        → HasStart (now (D.trail store.old.disk)).reads start → start.base ≡ base → OfSteps e) }
{
    store.shows_what_crashes_leave();
    let Some(shown) = shown_from(alloc, store, base, way.from, end, disk)? else {
        return Ok(None);
    };
    let mut shown = shown;
    if !go_legs(alloc, store, &mut shown, way.legs, end)? {
        return Ok(None);
    }
    Ok(Some(shown))
}

/// The desktop of moment `k` before the start in sector `base`, behind the first events of its journal. None where it has no
/// such moment, or where these aren't asked for.
///
/// Errors: those of `opened_at` and `in_start`.
fn before_start<D: Disk, E: Disk + Drop>(
    alloc: Global,
    store: &mut Store<D>,
    base: u32,
    asked: bool,
    k: u64,
    disk: E,
) -> Result<Option<Store<E>>, Error>
    requires usable { store.old.must_reopen ≡ false }
    requires start { HasStoreRoom (D.size store.old.disk) base }
    requires blank { IsBlankRoom E.Disk disk }
    ensures is_one { IfOk result (λ found. D.honest store.old.disk → E.honest disk
        → (t : Standing) → StandsFrom (now (D.trail store.old.disk)).reads base t
        → asked ≡ true → t.past.before ≤ k → k ≤ t.past.before + length t.events
        → IsSomeAnd found (λ back. back.desktop ≡ start_at t k)) }
    ensures there { IfOk result (λ found. IfSome found (λ back. asked ≡ true)) }
    ensures still { IsOnlyReadFrom D.Disk store.old store.new }
    ensures faults { FailsAs Error.Fault OfLaying result (D.failures store.old.disk)
        (D.failures store.new.disk) }
    ensures stops { IfErr result (λ e. D.honest store.old.disk → E.honest disk → (t : Standing)
        → StandsFrom (now (D.trail store.old.disk)).reads base t → OfSteps e) }
{
    if !asked {
        return Ok(None);
    }
    let shown = opened_at(alloc, store, base, disk)?;
    in_start(alloc, shown, k)
}

/// The desktop of moment `k` of the pages behind a start, which end where `told` says. None where they have no such
/// moment. Those from before the start, which its own journal has, are moments of the part before it, if that stands.
///
/// Errors: those of `front_at`, `before_start`, `way_to` and `gone`.
pub(crate) fn in_pages<D: Disk, E: Disk + Drop>(
    alloc: Global,
    store: &mut Store<D>,
    base: u32,
    told: PastEnd,
    follows: bool,
    k: u64,
    disk: E,
) -> Result<Option<Store<E>>, Error>
    requires usable { store.old.must_reopen ≡ false }
    requires blank { IsBlankRoom E.Disk disk }
    ensures is_one { IfOk result (λ found. D.honest store.old.disk → E.honest disk
        → (start : Start) (pages : List Page) → HoldsTold (D.size store.old.disk) start told pages
        (now (D.trail store.old.disk)).reads → start.base ≡ base → start.before ≤ k
        → k < told.before
        → IsSomeAnd found (λ shown. shown.desktop ≡ moment_of start (all_deeds pages) k)) }
    ensures ahead { IfOk result (λ found. D.honest store.old.disk → E.honest disk
        → (start : Start) (pages : List Page)
        → (has : HoldsTold (D.size store.old.disk) start told pages
        (now (D.trail store.old.disk)).reads) → start.base ≡ base → k < start.before
        → follows ≡ true → has.written.0.standing.past.before ≤ k
        → IsSomeAnd found (λ shown. shown.desktop ≡ start_at has.written.0.standing k)) }
    ensures there { IfOk result (λ found. IfSome found (λ shown. D.honest store.old.disk
        → E.honest disk → follows ≡ false → (start : Start) (pages : List Page)
        → HoldsTold (D.size store.old.disk) start told pages (now (D.trail store.old.disk)).reads
        → start.base ≡ base → k < told.before → (start.before ≤ k) × E.honest shown.disk)) }
    ensures still { IsOnlyReadFrom D.Disk store.old store.new }
    ensures faults { FailsAs Error.Fault OfLaying result (D.failures store.old.disk)
        (D.failures store.new.disk) }
    ensures stops { IfErr result (λ e. D.honest store.old.disk → E.honest disk → (start : Start)
        → HasStart (now (D.trail store.old.disk)).reads start → start.base ≡ base → OfSteps e) }
{
    store.shows_what_crashes_leave();
    if told.next > store.sectors()
        || told.next < STORE_SECTORS
        || base > told.next - STORE_SECTORS
    {
        return Ok(None);
    }
    let first_page = base + STORE_SECTORS;
    let Some(first) = before_pages(alloc, store, first_page, told)? else {
        return Ok(None);
    };
    if k < first {
        return before_start(alloc, store, base, follows, k, disk);
    }
    let Some(way) = way_to(alloc, store, first_page, first, told.next, k)? else {
        return Ok(None);
    };
    gone(alloc, store, base, way, told.next, disk)
}

/// The desktop of moment `k` of the past that begins in sector `base`, as a store in memory: what the first deeds give,
/// so many as came before it. None where the past has no such moment.
///
/// Errors: `MustReopen`; `NotAStore` and `Damaged` where no past begins there; `Worn` where the last epoch of its start is
/// full; `NoMemory`; `Fault`.
pub fn moment<D: Disk>(
    alloc: Global,
    store: &mut Store<D>,
    base: u32,
    k: u64,
) -> Result<Option<Store<MemoryDisk>>, Error>
    ensures comes_back { IfOk result (λ found. D.honest store.old.disk
        → (start : Start) (deeds : List PastDeed) (desktop : Desktop)
        → KeepsAll D.Disk start deeds desktop store.old → start.base ≡ base
        → HasMoment start deeds k
        → IsSomeAnd found (λ shown. shown.desktop ≡ moment_of start deeds k)) }
    ensures there { IfOk result (λ found. IfSome found (λ shown. D.honest store.old.disk
        → (start : Start) (deeds : List PastDeed) (desktop : Desktop)
        → KeepsAll D.Disk start deeds desktop store.old → start.base ≡ base
        → HasMoment start deeds k)) }
    ensures still { OnOk result (IsOnlyReadFrom D.Disk store.old store.new) }
    ensures left { IsLeft D.Disk store.old store.new }
    ensures usable { store.new.must_reopen ≡ store.old.must_reopen }
    ensures faults { FailsAs Error.Fault OfMoment result (D.failures store.old.disk)
        (D.failures store.new.disk) }
    ensures open { IsErrOf result Error.MustReopen → store.old.must_reopen ≡ true }
    ensures stops { IfErr result (λ e. D.honest store.old.disk
        → (start : Start) (deeds : List PastDeed) (desktop : Desktop)
        → KeepsAll D.Disk start deeds desktop store.old → start.base ≡ base → OfSteps e) }
{
    store.shows_what_crashes_leave();
    let told = store.past()?;
    let disk = empty_disk(alloc)?;
    if k >= told.before {
        return in_journal(alloc, store, k - told.before, disk);
    }
    in_pages(alloc, store, base, told, false, k, disk)
}
