//! What is done once more to a store in memory, whose disk fails for want of memory alone.
ghost use Rattle.std.specs.Prelude.{◌≡◌, ◌+◌, ◌≤◌, ◌^◌, length, take, IfErr, IfOk, IfSome, IsSomeAnd, MatchOption, OnOk};
ghost use Rattle.sector_disk.specs.Confined.{IsConfined};
ghost use Rattle.sector_disk.specs.Trail.{Nowhere, now};
ghost use Rattle.desktop_definitions.specs.Step.{steps_in};
ghost use Rattle.store_layout.specs.declared.layout.TheConstants.{STORE_SECTORS};
ghost use Rattle.store_layout.specs.Meaning.{Standing, Stands};
ghost use Rattle.store_slots.specs.Errors.{OfOpen};
ghost use Rattle.desk_journal.specs.Bringing.{AreBrought};
ghost use Rattle.desk_journal.specs.Device.{IsSameDevice};
ghost use Rattle.desk_journal.specs.Opening.{IsNoStore, IsOpened};
ghost use Rattle.desk_journal.specs.Posting.{IsAcknowledged};
ghost use Rattle.desk_journal.specs.Undoing.{IsTakenBack, ShowsStanding};
ghost use Rattle.past_pages.specs.Reading.{IsOnlyReadFrom};
ghost use Rattle.past_pages.specs.Laying.{ReadsZeros};
ghost use Rattle.desk_past.specs.Errors.{OfDoing, OfFound, in_memory};
ghost use Rattle.desk_past.specs.Reading.{ShowsNow};

use crate::reading::events_before;
use desk_journal::{Document, Error, STORE_SECTORS, Store};
use desktop_definitions::Reply;
use event_bytes::Event;
use sector_disk::{Disk, MemoryDisk, NoMemory};
use std::alloc::Global;
use store_layout::{PastEnd, finding_law, standing_law};

/// What an error of a store in memory is to those who have it made: its disk fails for want of memory alone, and only
/// behind that it must be opened again.
pub(crate) fn in_memory(error: Error) -> Error
    ensures { result ≡ in_memory error }
{
    match error {
        Error::NoMemory => Error::NoMemory,
        Error::Fault => Error::NoMemory,
        Error::MustReopen => Error::NoMemory,
        Error::NotAStore => Error::NotAStore,
        Error::Damaged(n) => Error::Damaged(n),
        Error::TooSmall => Error::TooSmall,
        Error::Worn => Error::Worn,
    }
}

/// A disk in memory with as many sectors as a store has.
///
/// Error: `NoMemory`.
pub(crate) fn empty_disk(alloc: Global) -> Result<MemoryDisk, NoMemory>
    ensures large { IfOk result (λ disk. STORE_SECTORS ≤ ⟦<MemoryDisk as Disk>⟧.size disk) }
    ensures zeros { IfOk result (λ disk. ReadsZeros ⟦<MemoryDisk as Disk>⟧ disk) }
{
    let disk = MemoryDisk::new(alloc, STORE_SECTORS)?;
    Ok(disk)
}

/// The store on a disk.
///
/// Errors: those of `Store::open`.
fn found<E: Disk + Drop>(alloc: Global, disk: E) -> Result<Store<E>, Error>
    ensures ok { IfOk result (λ shown. IsOpened E.Disk disk shown) }
    ensures untouched { IfOk result (λ shown. IsConfined E.size E.honest E.trail Nowhere disk
        shown.disk) }
    ensures no_store { IfErr result (λ e. IsNoStore E.Disk disk e) }
    ensures errors { IfErr result OfOpen }
{
    match Store::open(alloc, disk) {
        Ok(shown) => Ok(shown),
        Err((error, _disk)) => Err(error),
    }
}

/// The store on a disk in memory.
///
/// Errors: `NoMemory`; `NotAStore`; `Damaged`.
pub(crate) fn opened<E: Disk + Drop>(alloc: Global, disk: E) -> Result<Store<E>, Error>
    ensures ok { IfOk result (λ shown. IsOpened E.Disk disk shown) }
    ensures untouched { IfOk result (λ shown. IsConfined E.size E.honest E.trail Nowhere disk
        shown.disk) }
    ensures errors { IfErr result OfFound }
    ensures stops { IfErr result (λ e. E.honest disk → (t : Standing)
        → Stands (E.size disk) (now (E.trail disk)).reads t → OfDoing e) }
{
    finding_law();
    match found(alloc, disk) {
        Ok(shown) => Ok(shown),
        Err(error) => Err(in_memory(error)),
    }
}

/// Posts the event.
///
/// Errors: `NoMemory`; `Worn`.
pub(crate) fn posted<E: Disk>(
    alloc: Global,
    shown: &mut Store<E>,
    event: &Event,
) -> Result<Reply, Error>
    ensures ok { IfOk result (λ reply. IsAcknowledged E.Disk event.now reply shown.old
        shown.new) }
    ensures device { IsSameDevice E.Disk shown.old.disk shown.new.disk }
    ensures errors { IfErr result OfDoing }
{
    match shown.post(alloc, event) {
        Ok(reply) => Ok(reply),
        Err(error) => Err(in_memory(error)),
    }
}

/// Brings the documents.
///
/// Errors: `NoMemory`; `Worn`.
pub(crate) fn brought<E: Disk>(
    alloc: Global,
    shown: &mut Store<E>,
    documents: &[Document],
) -> Result<Reply, Error>
    ensures ok { IfOk result (λ reply. AreBrought E.Disk documents.now reply shown.old
        shown.new) }
    ensures device { IsSameDevice E.Disk shown.old.disk shown.new.disk }
    ensures errors { IfErr result OfDoing }
{
    match shown.bring(alloc, documents) {
        Ok(reply) => Ok(reply),
        Err(error) => Err(in_memory(error)),
    }
}

/// Takes the last events back, so many, and hands them out.
///
/// Errors: `NoMemory`; over a disk that isn't honest those of `opened`, too.
pub(crate) fn taken_back<E: Disk>(
    alloc: Global,
    shown: &mut Store<E>,
    count: u32,
) -> Result<Vec<Event>, Error>
    ensures ok { IfOk result (λ events. IsTakenBack E.Disk count events.items shown.old
        shown.new) }
    ensures device { IsSameDevice E.Disk shown.old.disk shown.new.disk }
    ensures errors { IfErr result OfFound }
    ensures stops { E.honest shown.old.disk → IfErr result OfDoing }
{
    match shown.undo(alloc, count) {
        Ok(events) => Ok(events),
        Err(error) => Err(in_memory(error)),
    }
}

/// How many deeds came before what the store shows, as its head tells. None where they are too many to be counted.
///
/// Error: `NoMemory`.
pub(crate) fn many_before<E: Disk>(shown: &mut Store<E>) -> Result<Option<u64>, Error>
    ensures sum { IfOk result (λ found. E.honest shown.old.disk → (s : Standing)
        → ShowsStanding E.Disk shown.old s
        → MatchOption found (2 ^ 64 ≤ s.past.before + length s.events)
        (λ n. n ≡ s.past.before + length s.events)) }
    ensures still { OnOk result (IsOnlyReadFrom E.Disk shown.old shown.new) }
    ensures shows { OnOk result ((t : Standing) → ShowsNow E.Disk t shown.old
        → ShowsNow E.Disk t shown.new) }
    ensures errors { IfErr result OfDoing }
{
    shown.shows_what_crashes_leave();
    match events_before(shown) {
        Ok(found) => Ok(found),
        Err(error) => Err(in_memory(error)),
    }
}

/// What the head of the slot in use tells of the past.
///
/// Error: `NoMemory`.
pub(crate) fn told_in<E: Disk>(shown: &mut Store<E>) -> Result<PastEnd, Error>
    ensures told { IfOk result (λ told. (t : Standing) → ShowsNow E.Disk t shown.old
        → told ≡ t.past) }
    ensures still { (t : Standing) → ShowsNow E.Disk t shown.old → ShowsNow E.Disk t shown.new }
    ensures errors { IfErr result OfDoing }
{
    shown.shows_what_crashes_leave();
    match shown.past() {
        Ok(told) => Ok(told),
        Err(error) => Err(in_memory(error)),
    }
}

/// The store behind the first events of its journal, so many. None where it has fewer.
///
/// Errors: those of `taken_back`.
pub(crate) fn back_to<E: Disk + Drop>(
    alloc: Global,
    shown: Store<E>,
    count: u64,
) -> Result<Option<Store<E>>, Error>
    ensures is_one { IfOk result (λ found. (t : Standing) → ShowsNow E.Disk t shown
        → count ≤ length t.events → IsSomeAnd found (λ back.
        back.desktop ≡ steps_in t.version t.start (take count t.events))) }
    ensures there { IfOk result (λ found. IfSome found (λ back. (t : Standing)
        → ShowsNow E.Disk t shown → count ≤ length t.events)) }
    ensures errors { IfErr result OfFound }
    ensures stops { IfErr result (λ e. (t : Standing) → ShowsNow E.Disk t shown → OfDoing e) }
{
    standing_law();
    shown.shows_what_crashes_leave();
    let Ok(info) = shown.info() else {
        return Err(Error::NoMemory);
    };
    if count > info.events as u64 {
        return Ok(None);
    }
    let mut shown = shown;
    let _ = taken_back(alloc, &mut shown, info.events - count as u32)?;
    Ok(Some(shown))
}
