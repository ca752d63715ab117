//! Events that stay.
ghost use Rattle.std.specs.Prelude.{◌≡◌, ◌≢◌, ◌+◌, ◌*◌, ◌^◌, ◌≤◌, ◌<◌, List, true, false, IfErr, IfOk, IsErrOf, OnOk, IfSome, IfNone};
ghost use Rattle.sector_disk.specs.declared.disk.TheConstants.{SECTOR_BYTES};
ghost use Rattle.sector_disk.specs.Faults.{FailsAs};
ghost use Rattle.sector_disk.specs.Stored.{last_sector};
ghost use Rattle.sector_disk.specs.Trail.{now};
ghost use Rattle.desktop_definitions.specs.Desktop.{Desktop};
ghost use Rattle.store_layout.specs.declared.layout.TheConstants.{STORE_SECTORS};
ghost use Rattle.store_slots.specs.Errors.{OfDesktop, OfLook, OfPost};
ghost use Rattle.desk_journal.specs.Checkpointing.{IsRenewed, LeavesDesktop};
ghost use Rattle.desk_journal.specs.Posting.{AnswersMustReopen, AnswersWorn, HasJournalRoom, IsAcknowledged, IsDueBefore, LeavesEither};
ghost use Rattle.desk_journal.specs.Undoing.{IsLeft, OfUndo, ShowsStanding};
ghost use Rattle.store_layout.specs.Meaning.{Standing};
ghost use Rattle.past_pages.specs.Marks.{IsCopyPage};
ghost use Rattle.past_pages.specs.Reading.{IsOnlyReadFrom};
ghost use Rattle.desk_past.specs.Beginning.{IsAside};
ghost use Rattle.desk_past.specs.Deeds.{PastDeed};
ghost use Rattle.desk_past.specs.Going.{ForgetsNone};
ghost use Rattle.desk_past.specs.Keeping.{BeginsNext, CanTurn, ForgetsNoneDue, ForgetsNoneFrom, HasGoneBefore, HasGoneOver, HasKeptPost};
ghost use Rattle.desk_past.specs.Keeping.{HasPageRoom, IsTurnDue, IsWayMade, KeepsAllBefore, KeepsAllWithin, KeepsPost, LeavesAllBefore, LeavesAllWithin};
ghost use Rattle.desk_past.specs.Past.{HasNewPage, IsHeadTold, KeepsAll, KeepsOthers, LeavesAll, Start, UndoesSome};
ghost use Rattle.desk_past.specs.Writing.{LiesInOldest, LiesUpTo, UsesAhead, UsesOnly, UsesParts};

use crate::beginning::begin;
use crate::going_on::oldest_base;
use crate::reading::copy_of;
use desk_journal::{Error, STORE_SECTORS, Store};
use desktop_definitions::Reply;
use event_bytes::Event;
use past_pages::{BARE_PART, LEAST_ROOM, copy_page, has_parts, page_read, part_at, sectors_for};
use sector_disk::{Disk, MemoryDisk};
use std::alloc::Global;
use store_layout::{JOURNAL_EVENTS, LAST_EPOCH, LAYOUT, PastEnd, standing_law};

/// The end behind a page of so many bytes and events at `told.next`, before sector `end`. None where it has no room.
pub(crate) fn end_behind(told: PastEnd, bytes: usize, events: u32, end: u32) -> Option<PastEnd>
    ensures behind { IfSome result (λ n. STORE_SECTORS ≤ told.next) }
    ensures later { IfSome result (λ n. told.next < n.next) }
    ensures room { IfSome result (λ n. n.next ≤ end) }
    ensures count { IfSome result (λ n. n.next ≡ told.next + (last_sector bytes + 1)) }
    ensures fits { IfSome result (λ n. bytes ≤ SECTOR_BYTES * (last_sector bytes + 1)) }
    ensures before { IfSome result (λ n. n.before ≡ told.before + events) }
    ensures none { IfNone result (bytes < 2 ^ 32 → STORE_SECTORS ≤ told.next
        → told.next + (last_sector bytes + 1) ≤ end → told.before + events < 2 ^ 64 → ⊥) }
{
    let count = sectors_for(bytes)?;
    let before = told.before.checked_add(events as u64)?;
    if told.next >= STORE_SECTORS && told.next <= end && count <= end - told.next {
        Some(PastEnd {
            next: told.next + count,
            before,
        })
    } else {
        None
    }
}

/// Writes the page of the journal in use where `told` says, which is what the head in use tells, before sector `end`, and
/// settles it. None where there is no room for it, and nothing is written.
///
/// Errors: those of `page_read` and `Store::write_behind`.
fn write_page_at<D: Disk>(
    alloc: Global,
    store: &mut Store<D>,
    told: PastEnd,
    end: u32,
) -> Result<Option<PastEnd>, Error>
    ensures any_moment { D.honest store.old.disk
        → (start : Start) (deeds : List PastDeed) (desktop : Desktop)
        → (keeps : KeepsAll D.Disk start deeds desktop store.old) → IsHeadTold D.Disk told keeps
        → LeavesAll D.Disk start deeds desktop store.old store.new }
    ensures written { IfOk result (λ end. IfSome end (λ n. (told.next ≤ n.next)
        × (D.honest store.old.disk → (start : Start) (deeds : List PastDeed) (desktop : Desktop)
        → (keeps : KeepsAll D.Disk start deeds desktop store.old) → IsHeadTold D.Disk told keeps
        → HasNewPage D.Disk start deeds desktop n store.new))) }
    ensures none { IfOk result (λ end. IfNone end (IsOnlyReadFrom D.Disk store.old store.new)) }
    ensures full { IfOk result (λ found. IfNone found (D.honest store.old.disk
        → (start : Start) (deeds : List PastDeed) (desktop : Desktop)
        → (keeps : KeepsAll D.Disk start deeds desktop store.old) → IsHeadTold D.Disk told keeps
        → HasPageRoom D.Disk end keeps → ⊥)) }
    ensures moments { LeavesDesktop D.Disk store.old store.new }
    ensures aside { OnOk result (IsAside D.Disk store.old store.new) }
    ensures device { UsesOnly D.Disk (λ _. LiesUpTo end told.next) OfLook result store.old
        store.new }
    ensures open { IsErrOf result Error.MustReopen → store.old.must_reopen ≡ true }
{
    standing_law();
    store.shows_what_crashes_leave();
    let info = store.info()?;
    let Some(bytes) = page_read(alloc, store)? else {
        return Ok(None);
    };
    store.shows_what_crashes_leave();
    let end = end.min(store.sectors());
    let Some(next) = end_behind(told, bytes.len(), info.events, end) else {
        return Ok(None);
    };
    store.write_behind(told.next, next.next - told.next, bytes.as_slice())?;
    Ok(Some(next))
}

/// Writes the page of the journal in use where the head says, before sector `end`, and settles it. None where there is no room
/// for it, and nothing is written.
///
/// Errors: those of `write_page_at`.
fn write_page<D: Disk>(
    alloc: Global,
    store: &mut Store<D>,
    end: u32,
) -> Result<Option<PastEnd>, Error>
    ensures any_moment { D.honest store.old.disk
        → (start : Start) (deeds : List PastDeed) (desktop : Desktop)
        → KeepsAll D.Disk start deeds desktop store.old
        → LeavesAll D.Disk start deeds desktop store.old store.new }
    ensures written { IfOk result (λ end. IfSome end (λ n. (D.honest store.old.disk
        → (s : Standing) → ShowsStanding D.Disk store.old s → s.past.next ≤ n.next)
        × (D.honest store.old.disk → (start : Start) (deeds : List PastDeed) (desktop : Desktop)
        → KeepsAll D.Disk start deeds desktop store.old
        → HasNewPage D.Disk start deeds desktop n store.new))) }
    ensures none { IfOk result (λ end. IfNone end (IsOnlyReadFrom D.Disk store.old store.new)) }
    ensures full { IfOk result (λ found. IfNone found (D.honest store.old.disk
        → (start : Start) (deeds : List PastDeed) (desktop : Desktop)
        → (keeps : KeepsAll D.Disk start deeds desktop store.old)
        → HasPageRoom D.Disk end keeps → ⊥)) }
    ensures moments { LeavesDesktop D.Disk store.old store.new }
    ensures aside { OnOk result (IsAside D.Disk store.old store.new) }
    ensures device { UsesOnly D.Disk (LiesUpTo end) OfLook result store.old store.new }
    ensures open { IsErrOf result Error.MustReopen → store.old.must_reopen ≡ true }
{
    store.shows_what_crashes_leave();
    let told = store.past()?;
    store.shows_what_crashes_leave();
    write_page_at(alloc, store, told, end)
}

/// Behind how many deeds, and behind each as many more, a mark is due: so many are done once more in memory in five
/// milliseconds, which an opening takes.
const MARK_DEEDS: u64 = 4_096;

/// Whether a mark is due where so many deeds come behind so many.
fn is_mark_due(before: u64, after: u64) -> bool {
    before / MARK_DEEDS < after / MARK_DEEDS
}

/// The page of a mark with what a store shows. None where there is no memory for it, or where that can't be read.
///
/// Errors: `MustReopen`; `Fault`.
fn mark_page<D: Disk>(alloc: Global, store: &mut Store<D>) -> Result<Option<Vec<u8>>, Error>
    ensures page { IfOk result (λ found. IfSome found (λ bytes. D.honest store.old.disk
        → IsCopyPage false store.old.desktop bytes.items)) }
    ensures looks { IsLeft D.Disk store.old store.new }
    ensures usable { store.new.must_reopen ≡ store.old.must_reopen }
    ensures faults { FailsAs Error.Fault OfLook result (D.failures store.old.disk)
        (D.failures store.new.disk) }
    ensures open { IsErrOf result Error.MustReopen → store.old.must_reopen ≡ true }
{
    match copy_of(alloc, store) {
        Ok(copy) => Ok(page_of_mark(alloc, copy)),
        Err(Error::MustReopen) => Err(Error::MustReopen),
        Err(Error::Fault) => Err(Error::Fault),
        Err(_) => Ok(None),
    }
}

/// The page of a mark with what a store in memory shows, which is let go. None where there is no memory for it.
fn page_of_mark(alloc: Global, shown: Store<MemoryDisk>) -> Option<Vec<u8>>
    ensures { IfSome result (λ bytes. IsCopyPage false shown.desktop bytes.items) }
{
    let Ok(to) = shown.gathered(alloc) else {
        return None;
    };
    match copy_page(alloc, false, to) {
        Ok(page) => Some(page),
        Err(_no_memory) => None,
    }
}

/// Writes a mark with what the store shows behind the page that ends where `past` says, before sector `end`, and settles it:
/// what the head is to tell then. `past` where there is no room for it, or no memory, and nothing is written.
///
/// Errors: those of `mark_page` and `Store::write_behind`.
fn write_mark<D: Disk>(
    alloc: Global,
    store: &mut Store<D>,
    past: PastEnd,
    end: u32,
) -> Result<PastEnd, Error>
    ensures any_moment { D.honest store.old.disk
        → (start : Start) (deeds : List PastDeed) (desktop : Desktop)
        → HasNewPage D.Disk start deeds desktop past store.old
        → LeavesAll D.Disk start deeds desktop store.old store.new }
    ensures written { IfOk result (λ n. D.honest store.old.disk
        → (start : Start) (deeds : List PastDeed) (desktop : Desktop)
        → HasNewPage D.Disk start deeds desktop past store.old
        → HasNewPage D.Disk start deeds desktop n store.new) }
    ensures moments { LeavesDesktop D.Disk store.old store.new }
    ensures aside { OnOk result (IsAside D.Disk store.old store.new) }
    ensures device { UsesOnly D.Disk (λ _. LiesUpTo end past.next) OfLook result store.old
        store.new }
    ensures open { IsErrOf result Error.MustReopen → store.old.must_reopen ≡ true }
{
    standing_law();
    store.shows_what_crashes_leave();
    let _info = store.info()?;
    let Some(bytes) = mark_page(alloc, store)? else {
        return Ok(past);
    };
    store.shows_what_crashes_leave();
    let end = end.min(store.sectors());
    let Some(next) = end_behind(past, bytes.len(), 0, end) else {
        return Ok(past);
    };
    store.write_behind(past.next, next.next - past.next, bytes.as_slice())?;
    Ok(next)
}

/// The same where a mark is due, in sectors that are kept for marks; else `past`, and nothing is written.
///
/// Errors: those of `write_mark`.
fn mark_if_due<D: Disk>(
    alloc: Global,
    store: &mut Store<D>,
    past: PastEnd,
    end: u32,
) -> Result<PastEnd, Error>
    ensures any_moment { D.honest store.old.disk
        → (start : Start) (deeds : List PastDeed) (desktop : Desktop)
        → HasNewPage D.Disk start deeds desktop past store.old
        → LeavesAll D.Disk start deeds desktop store.old store.new }
    ensures written { IfOk result (λ n. D.honest store.old.disk
        → (start : Start) (deeds : List PastDeed) (desktop : Desktop)
        → HasNewPage D.Disk start deeds desktop past store.old
        → HasNewPage D.Disk start deeds desktop n store.new) }
    ensures moments { LeavesDesktop D.Disk store.old store.new }
    ensures aside { OnOk result (IsAside D.Disk store.old store.new) }
    ensures device { UsesOnly D.Disk (λ _. LiesUpTo end past.next) OfLook result store.old
        store.new }
    ensures open { IsErrOf result Error.MustReopen → store.old.must_reopen ≡ true }
{
    store.shows_what_crashes_leave();
    let events = store.info()?.events as u64;
    if !is_mark_due(past.before.saturating_sub(events), past.before) {
        return Ok(past);
    }
    write_mark(alloc, store, past, end.saturating_sub(BARE_PART))
}

/// Ends the epoch in use: its page is written and settled, and a mark behind it, if one is due and has room; then a checkpoint
/// begins the next epoch. False where there is no room for the page before sector `end`, or where the slot in use has an older
/// version: then nothing is written.
///
/// Errors: those of `write_page`, `mark_if_due` and `Store::checkpoint`.
pub fn end_epoch<D: Disk>(alloc: Global, store: &mut Store<D>, end: u32) -> Result<bool, Error>
    ensures any_moment { D.honest store.old.disk
        → (start : Start) (deeds : List PastDeed) (desktop : Desktop)
        → KeepsAll D.Disk start deeds desktop store.old
        → LeavesAll D.Disk start deeds desktop store.old store.new }
    ensures ended { OnOk result (D.honest store.old.disk
        → (start : Start) (deeds : List PastDeed) (desktop : Desktop)
        → KeepsAll D.Disk start deeds desktop store.old
        → KeepsAll D.Disk start deeds desktop store.new) }
    ensures full { IfOk result (λ done. done ≡ false → D.honest store.old.disk
        → (start : Start) (deeds : List PastDeed) (desktop : Desktop)
        → (keeps : KeepsAll D.Disk start deeds desktop store.old)
        → HasPageRoom D.Disk end keeps → ⊥) }
    ensures moments { LeavesDesktop D.Disk store.old store.new }
    ensures renewed { IfOk result (λ done. done ≡ true → IsRenewed D.Disk store.old store.new) }
    ensures still { IfOk result (λ done. done ≡ false
        → IsOnlyReadFrom D.Disk store.old store.new) }
    ensures device { UsesOnly D.Disk (LiesUpTo end) OfPost result store.old store.new }
    ensures errors { CanTurn store.old → IfErr result OfDesktop }
{
    store.shows_what_crashes_leave();
    let Some(past) = write_page(alloc, store, end)? else {
        return Ok(false);
    };
    let past = mark_if_due(alloc, store, past, end)?;
    store.shows_what_crashes_leave();
    store.checkpoint_with(past)?;
    Ok(true)
}

/// Begins a past in the oldest part beside the one in which pages go on in sector `next`, as `begin` does. Where there is no
/// other part nothing is written.
///
/// Errors: those of `begin`.
fn begin_next<D: Disk>(alloc: Global, store: &mut Store<D>, next: u32) -> Result<(), Error>
    requires able { CanTurn store.old }
    requires due { IsDueBefore store.old }
    ensures none_forgotten { ForgetsNoneFrom D.Disk next store.old store.new }
    ensures begun { OnOk result (BeginsNext D.Disk next store.old store.new) }
    ensures moments { LeavesDesktop D.Disk store.old store.new }
    ensures made { OnOk result (IsWayMade D.Disk store.old store.new) }
    ensures device { UsesOnly D.Disk (λ _. LiesInOldest (D.size store.old.disk)
        (now (D.trail store.old.disk)).reads next) OfDesktop result store.old store.new }
{
    store.shows_what_crashes_leave();
    if !has_parts(store.sectors()) {
        return Ok(());
    }
    let base = oldest_base(store, next)?;
    let _begun = begin(alloc, store, base)?;
    Ok(())
}

/// Ends the epoch in use where the part in which its page goes isn't full; where it is, the next part begins.
///
/// Errors: those of `Store::past`, `end_epoch` and `begin_next`.
fn turn_over<D: Disk>(alloc: Global, store: &mut Store<D>) -> Result<(), Error>
    requires { IsTurnDue store.old }
    ensures any_moment { LeavesAllWithin D.Disk store.old store.new }
    ensures none_forgotten { ForgetsNone D.Disk store.old store.new }
    ensures ended { OnOk result (KeepsAllWithin D.Disk store.old store.new) }
    ensures gone_over { OnOk result (HasGoneOver D.Disk store.old store.new) }
    ensures moments { LeavesDesktop D.Disk store.old store.new }
    ensures made { OnOk result (IsWayMade D.Disk store.old store.new) }
    ensures device { UsesParts D.Disk OfDesktop result store.old store.new }
{
    store.shows_what_crashes_leave();
    let told = store.past()?;
    let Some(part) = part_at(store.sectors(), told.next) else {
        return Ok(());
    };
    if end_epoch(alloc, store, part.end - LEAST_ROOM)? {
        return Ok(());
    }
    begin_next(alloc, store, told.next)
}

/// Whether a checkpoint is due before the next event, and can be made.
fn can_turn<D: Disk>(store: &Store<D>) -> bool
    ensures able { result ≡ true → CanTurn store.now × IsDueBefore store.now }
    ensures free { result ≡ false → store.now.must_reopen ≡ false
        → store.now.epoch ≢ LAST_EPOCH → HasJournalRoom store.now }
{
    let Ok(info) = store.info() else {
        return false;
    };
    if info.epoch == LAST_EPOCH {
        return false;
    }
    info.events >= JOURNAL_EVENTS || info.layout != LAYOUT
}

/// Makes way for an event: where a checkpoint is due, the epoch ends with its page, or the next part begins.
///
/// Errors: `NoMemory` and `Fault`.
fn make_way<D: Disk>(alloc: Global, store: &mut Store<D>) -> Result<(), Error>
    ensures any_moment { LeavesAllBefore D.Disk store.old store.new }
    ensures none_forgotten { ForgetsNoneDue D.Disk store.old store.new }
    ensures ended { OnOk result (KeepsAllBefore D.Disk store.old store.new) }
    ensures gone_over { OnOk result (HasGoneBefore D.Disk store.old store.new) }
    ensures moments { LeavesDesktop D.Disk store.old store.new }
    ensures made { OnOk result (IsWayMade D.Disk store.old store.new) }
    ensures able { IfErr result (λ e. CanTurn store.old) }
    ensures device { UsesParts D.Disk OfDesktop result store.old store.new }
{
    store.shows_what_crashes_leave();
    if !can_turn(store) {
        return Ok(());
    }
    turn_over(alloc, store)
}

/// Takes one event as `Store::post` does. Where a checkpoint is due the page of the epoch that ends is written and settled
/// before it, if the past lies in a part that isn't full; where it is full a past begins behind it in the oldest part. So
/// nothing is forgotten.
///
/// Errors: those of `Store::post`; but after a `NoMemory` or `Fault` of a page or a start, which come before the event, the
/// store may be in use.
pub fn post<D: Disk>(alloc: Global, store: &mut Store<D>, event: &Event) -> Result<Reply, Error>
    ensures any_moment { LeavesEither D.Disk event.now store.old store.new }
    ensures ok { IfOk result (λ reply. IsAcknowledged D.Disk event.now reply store.old
        store.new) }
    ensures memory { IsErrOf result Error.NoMemory → LeavesDesktop D.Disk store.old store.new }
    ensures worn { AnswersWorn result store.old store.new }
    ensures reopen { AnswersMustReopen result store.old store.new }
    ensures device { UsesParts D.Disk OfPost result store.old store.new }
    ensures nothing_forgotten { KeepsPost D.Disk event.now store.old store.new }
    ensures kept { OnOk result (HasKeptPost D.Disk event.now store.old store.new) }
{
    make_way(alloc, store)?;
    store.shows_what_crashes_leave();
    store.post(alloc, event)
}

/// Takes the last events back, so many, of the journal in use. None where it has fewer: then nothing is written.
///
/// Errors: those of `Store::undo`.
pub fn undo<D: Disk>(
    alloc: Global,
    store: &mut Store<D>,
    count: u32,
) -> Result<Option<Vec<Event>>, Error>
    ensures any_moment { UndoesSome D.Disk count store.old store.new }
    ensures kept { IfOk result (λ back. IfSome back (λ events. KeepsOthers D.Disk events.items
        store.old store.new)) }
    ensures device { UsesAhead D.Disk OfUndo result store.old store.new }
{
    standing_law();
    store.shows_what_crashes_leave();
    let info = store.info()?;
    if info.events < count {
        return Ok(None);
    }
    let events = store.undo(alloc, count)?;
    Ok(Some(events))
}
