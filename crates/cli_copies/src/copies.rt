//! A copy of a store in a new file.
ghost use Rattle.std.specs.Prelude.{◌≡◌, ℕ, [], false, true, IfOk, OnOk};
ghost use Rattle.sector_disk.specs.Confined.{IsConfined};
ghost use Rattle.sector_disk.specs.Trail.{Nowhere, now};
ghost use Rattle.cli_copies.specs.Copies.{AreTakenBack};
ghost use Rattle.cli_copies.specs.Sectors.{IsOfCopy, IsCopy, IsEnd};

use crate::progress::Progress;
use crate::sectors::{copy_whole, is_whole_copy};
use crate::sentences::Stop;
use crate::stores::{LockedStore, WHOLE, store_at};
use cli_stores::Trouble;
use desk_journal::{Error, Store};
use event_bytes::Event;
use host_files::{
    HostFault, LockedFile, is_there, length_of, lock_new, remove, rename_new, sync_folder,
};
use host_stores::{FileDisk, opened as opened_on};
use past_pages::{PARTS, PAST_SECTORS};
use sector_disk::{Disk, FILE_SECTORS, MemoryDisk, SECTOR_BYTES};

/// Copies the store in a file, which is locked beside other programs that look, into a new file, and its past if that is to
/// come along. The copy is written under another name, synced, opened as a store and compared before it gets its own, and
/// is durable under it when this has returned. A file that is there is never replaced. It is told how far the copy has come
/// where that takes more than a second.
pub fn backup(rt: &HostRuntime, path: &str, to: &str, past: bool) -> Result<(), Stop> {
    refuse_taken(rt, to)?;
    let store = store_at(rt, path)?;
    let end = end_of(rt, path, past)?;
    copy_to(rt, path, store, to, end, &[])?;
    let what = kind_of(past, end);
    match println!(rt; "{to}: a copy of {what}, compared and synced") {
        Ok(()) => Ok(()),
        Err(_) => Err(Stop::Trouble(Trouble::Output)),
    }
}

/// What was copied, in words.
fn kind_of(past: bool, end: u32) -> &'static str {
    if !past {
        "the store alone"
    } else if end > PARTS {
        "the whole store and all behind it"
    } else {
        "the whole store"
    }
}

/// Where a copy of the store in a file ends, or one of its past too.
fn end_of(rt: &HostRuntime, path: &str, past: bool) -> Result<u32, Stop>
    ensures { IfOk result (λ end. past ≡ false → end ≡ FILE_SECTORS) }
{
    if !past {
        return Ok(FILE_SECTORS);
    }
    match length_of(rt, path) {
        Ok(length) => Ok(end_in(length)),
        Err(fault) => Err(Stop::Trouble(Trouble::Host(fault))),
    }
}

/// Where the copy of a file of so many bytes ends that has the past.
fn end_in(length: u64) -> u32
    ensures { IsEnd SECTOR_BYTES PAST_SECTORS length result }
{
    if length <= PARTS as u64 * SECTOR_BYTES as u64 {
        return FILE_SECTORS;
    }
    let sectors = (length - 1) / SECTOR_BYTES as u64 + 1;
    match u32::try_from(sectors) {
        Ok(sectors) => sectors.min(PAST_SECTORS),
        Err(_) => PAST_SECTORS,
    }
}

/// Where there is something of that name, nothing is done.
pub fn refuse_taken(rt: &HostRuntime, to: &str) -> Result<(), Stop> {
    if matches!(is_there(rt, to), Ok(false)) {
        return Ok(());
    }
    let _ = eprintln!(rt; "desk: there is something called {to:?} already, so nothing was done");
    Err(Stop::Host)
}

/// Copies what stands before sector `end` of a store and its past into a new file, and takes these events back there, which
/// are its last ones. Where the store's file was cut short that is told, since the copy has zeros for what is missing.
pub fn copy_to(
    rt: &HostRuntime,
    path: &str,
    store: LockedStore,
    to: &str,
    end: u32,
    last: &[Event],
) -> Result<(), Stop> {
    if !is_whole(rt, path) {
        let _ = eprintln!(rt;
            "desk: the file {path:?} was cut short, and the copy has zeros for what is missing: look at what desk export gives, or keep an earlier backup"
        );
    }
    let aside = format!(in rt.alloc(); "{to}.desk-copy")?;
    let mut disk = FileDisk::with_sectors(store.close().into_file(), end);
    copy_aside(rt, path, &mut disk, aside.as_str(), to, last)
}

/// Puts a disk in memory into a new file. Where there is something of that name nothing is done.
pub fn put_copy(rt: &HostRuntime, path: &str, disk: MemoryDisk, copy: &str) -> Result<(), Stop> {
    refuse_taken(rt, copy)?;
    let mut disk = disk;
    let aside = format!(in rt.alloc(); "{copy}.desk-copy")?;
    copy_aside(rt, path, &mut disk, aside.as_str(), copy, &[])
}

/// Whether the file of a store has all of its bytes, as far as the host tells.
fn is_whole(rt: &HostRuntime, path: &str) -> bool {
    match length_of(rt, path) {
        Ok(length) => length >= WHOLE,
        Err(_) => true,
    }
}

/// Copies a disk whole by a file under another name, which is gone where this fails. It stays locked until it has its own.
fn copy_aside<D: Disk>(
    rt: &HostRuntime,
    path: &str,
    disk: &mut D,
    aside: &str,
    to: &str,
    last: &[Event],
) -> Result<(), Stop> {
    let file = new_copy(rt, aside, to)?;
    let other = FileDisk::with_sectors(file, disk.sectors());
    let made = match copied(rt, path, disk, other, last) {
        Ok(_copy) => name_copy(rt, aside, to),
        Err(stop) => Err(stop),
    };
    if made.is_err() {
        let _ = remove(rt, aside);
    }
    made
}

/// A new file, which is locked.
fn new_copy(rt: &HostRuntime, aside: &str, to: &str) -> Result<LockedFile, Stop> {
    match lock_new(rt, aside) {
        Ok(file) => Ok(file),
        Err(fault) => {
            if fault != HostFault::Taken {
                let _ = remove(rt, aside);
            }
            let _ = eprintln!(rt;
                "desk: {to:?} could not be made: there is no right to, or there is {aside:?} already"
            );
            Err(Stop::Host)
        }
    }
}

/// The store on another disk, after this one was copied onto it, all was there for good and was compared, and these events
/// were taken back there.
fn copied<D: Disk, E: Disk + Drop>(
    rt: &HostRuntime,
    path: &str,
    disk: &mut D,
    copy_disk: E,
    last: &[Event],
) -> Result<Store<E>, Stop>
    requires { E.size copy_disk ≡ D.size disk.old }
    ensures { IfOk result (λ copy. last.now ≡ [] → D.honest disk.old → E.honest copy_disk
        → IsCopy (D.size disk.old) (now (D.trail disk.old)).reads (now (E.trail copy.disk)).reads) }
{
    let mut other = copy_disk;
    fill_copy(rt, path, disk, &mut other)?;
    let mut store = opened_on(rt, other)?;
    take_back(rt, &mut store, last)?;
    Ok(store)
}

/// Takes events back in a copy, if there are any. What comes back has to be just these.
fn take_back<D: Disk>(rt: &HostRuntime, store: &mut Store<D>, last: &[Event]) -> Result<(), Stop>
    ensures taken { OnOk result (AreTakenBack D.Disk last.now store.old store.new) }
    ensures none { last.now ≡ [] → store.new ≡ store.old }
{
    if last.is_empty() {
        return Ok(());
    }
    let count = u32::try_from(last.len()).unwrap_or(u32::MAX);
    let taken = store.undo(rt.alloc(), count)?;
    if are_same_events(taken.as_slice(), last) {
        return Ok(());
    }
    let there = taken.len();
    let _ = eprintln!(rt;
        "desk: of {count} events only {there} could be taken back in the copy, so it was taken away"
    );
    Err(Stop::Host)
}

/// Whether these are the same events, one after another.
fn are_same_events(events: &[Event], others: &[Event]) -> bool
    ensures { result ≡ true → events.now ≡ others.now }
{
    match (events.split_first(), others.split_first()) {
        (None, None) => true,
        (Some((event, rest)), Some((other, behind))) => {
            is_same_event(event, other) && are_same_events(rest, behind)
        }
        _ => false,
    }
}

/// Whether these are the same event.
fn is_same_event(event: &Event, other: &Event) -> bool
    ensures { result ≡ true → event.now ≡ other.now }
{
    match (event, other) {
        (Event::Typed(typed), Event::Typed(again)) => typed.as_bytes() == again.as_bytes(),
        (Event::Key(key), Event::Key(again)) => *key == *again,
        (Event::Mark { x, y }, Event::Mark { x: column, y: row }) => *x == *column && *y == *row,
        (
            Event::Point {
                keys,
                x0,
                y0,
                x1,
                y1,
            },
            Event::Point {
                keys: again,
                x0: from,
                y0: low,
                x1: to,
                y1: high,
            },
        ) => *keys == *again && *x0 == *from && *y0 == *low && *x1 == *to && *y1 == *high,
        (
            Event::File { name, bytes },
            Event::File {
                name: called,
                bytes: again,
            },
        ) => { name.as_bytes() == called.as_bytes() && bytes.as_bytes() == again.as_bytes() }
        _ => false,
    }
}

/// Copies a disk whole onto another one, waits until all is there for good, and compares.
fn fill_copy<D: Disk, E: Disk>(
    rt: &HostRuntime,
    path: &str,
    disk: &mut D,
    other: &mut E,
) -> Result<(), Stop>
    requires { E.size other.old ≡ D.size disk.old }
    ensures same { OnOk result (D.honest disk.old → E.honest other.old
        → IsCopy (D.size disk.old) (now (D.trail disk.old)).reads
        (now (E.trail other.new)).reads) }
    ensures settled { OnOk result (E.honest other.old → (n : ℕ) → IsOfCopy (D.size disk.old) n
        → (now (E.trail other.new)).pending n ≡ false) }
    ensures still { E.honest other.old → E.honest other.new }
{
    let end = disk.sectors();
    let what = format!(in rt.alloc(); "of {end} sectors copied")?;
    let mut progress = Progress::new(rt, what.as_str());
    let done = copy_whole(disk, other, end, &mut progress);
    progress.end();
    if done.is_err() {
        say_failed(rt, path, end);
        return Err(Stop::Host);
    }
    compare(rt, path, disk, other)
}

/// Compares a disk with its copy.
fn compare<D: Disk, E: Disk>(
    rt: &HostRuntime,
    path: &str,
    disk: &mut D,
    other: &mut E,
) -> Result<(), Stop>
    requires { E.size other.old ≡ D.size disk.old }
    ensures same { OnOk result (D.honest disk.old → E.honest other.old
        → IsCopy (D.size disk.old) (now (D.trail disk.old)).reads
        (now (E.trail other.old)).reads) }
    ensures beside { IsConfined E.size E.honest E.trail Nowhere other.old other.new }
{
    let end = disk.sectors();
    match is_whole_copy(disk, other, end) {
        Ok(true) => Ok(()),
        Ok(false) => {
            let _ = eprintln!(rt;
                "desk: the copy of {path:?} reads as something else, so it was taken away"
            );
            Err(Stop::Host)
        }
        Err(_) => Err(Stop::Trouble(Trouble::Store(Error::Fault))),
    }
}

/// Says that a copy failed which was to have so many sectors.
fn say_failed(rt: &HostRuntime, path: &str, end: u32) {
    let _ = if end > PARTS {
        eprintln!(rt;
            "desk: copying {path:?} failed; a copy needs 16 MB, and as much as the past has, which --without-past leaves out"
        )
    } else {
        eprintln!(rt; "desk: copying {path:?} failed; a copy needs 16 MB")
    };
}

/// Gives the copy its name.
fn name_copy(rt: &HostRuntime, aside: &str, to: &str) -> Result<(), Stop> {
    if rename_new(rt, aside, to).is_err() {
        let _ = eprintln!(rt;
            "desk: there is something called {to:?} by now, so the copy was taken away"
        );
        return Err(Stop::Host);
    }
    if sync_folder(rt, to).is_err() {
        let _ = eprintln!(rt;
            "desk: {to:?} was made, but its folder could not be synced, so a power failure may take it away"
        );
        return Err(Stop::Host);
    }
    Ok(())
}
