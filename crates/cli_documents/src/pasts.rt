//! The past that a store keeps behind it: all its events in words, the store as it was, and how far both reach.
ghost use Rattle.std.specs.Prelude.{◌≡◌, IfOk, IsSomeAnd, List, OnOk};
ghost use Rattle.sector_disk.specs.Trail.{now};
ghost use Rattle.desktop_definitions.specs.Desktop.{Desktop};
ghost use Rattle.past_pages.specs.Reading.{IsOnlyReadFrom};
ghost use Rattle.desk_past.specs.Deeds.{PastDeed};
ghost use Rattle.desk_past.specs.Past.{Start};
ghost use Rattle.former_stores.specs.Former.{IsFormer};
ghost use Rattle.told_pasts.specs.Words.{told_lines};
ghost use Rattle.cli_documents.specs.Stops.{IsOutOfReach};
ghost use Rattle.cli_copies.specs.declared.sentences.Stop.TheVariants.{Refused};

use crate::history::print_lines_from;
use cli_copies::{LockedStore, Stop};
use cli_stores::{Trouble, looked_at};
use desk_journal::{Error, STORE_SECTORS, Store};
use desk_past::{first_start, forget, start_of};
use former_stores::former_store;
use host_files::{length_of, lock_alone};
use host_stores::with_past_room;
use past_pages::{PART_SECTORS, PARTS};
use sector_disk::{Disk, MemoryDisk, SECTOR_BYTES};
use std::alloc::Global;
use std::io;
use told_pasts::{
    Line, Pages, Reach, counted_pages, none_where_missing, reach_of, shown_before, told_past,
};

/// The store in a file, which is locked beside other programs that look, on a disk that has room for a past.
fn past_at(rt: &HostRuntime, path: &str) -> Result<LockedStore, Stop> {
    Ok(with_past_room(rt, looked_at(rt, path)?)?)
}

/// The store in a file as it was before so many of its last events, in memory. None where its past doesn't reach so
/// far.
pub(crate) fn past_before(
    rt: &HostRuntime,
    path: &str,
    count: u32,
) -> Result<Option<Store<MemoryDisk>>, Stop> {
    let mut store = past_at(rt, path)?;
    let found = shown_before(rt.alloc(), &mut store, count);
    Ok(none_where_missing(found)?)
}

/// The start of a past, in memory, and how many events came before it. None where none stands there.
fn start_at(
    rt: &HostRuntime,
    store: &mut LockedStore,
    base: u32,
) -> Result<Option<(Store<MemoryDisk>, u64)>, Stop> {
    Ok(none_where_missing(start_of(rt.alloc(), store, base))?)
}

/// How many events came before the start of the oldest part of a past. None where the part in use has no start.
fn first_kept(rt: &HostRuntime, store: &mut LockedStore) -> Result<Option<u64>, Stop> {
    let Some(base) = first_start(store)? else {
        return Ok(None);
    };
    match start_at(rt, store, base)? {
        None => Ok(None),
        Some((_shown, before)) => Ok(Some(before)),
    }
}

/// Why the store in a file isn't shown as it was before so many of its last events: `Trouble`, where a page of its past
/// is missing, and `Refused`, which is said, where neither its past nor what can be taken back reaches so far.
pub(crate) fn out_of_reach(rt: &HostRuntime, path: &str, count: u32) -> Result<Stop, Stop>
    ensures { IfOk result IsOutOfReach }
{
    let mut store = past_at(rt, path)?;
    let Some(reach) = reach_of(&mut store)? else {
        return Ok(only_so_many(rt, &mut store, "and no past is kept")?);
    };
    let Some(before) = first_kept(rt, &mut store)? else {
        return Ok(only_so_many(rt, &mut store, "and the start of the past is missing")?);
    };
    let kept = reach.now().saturating_sub(before);
    let first = reach.part.base.saturating_add(STORE_SECTORS);
    match counted_pages(rt.alloc(), &mut store, first, reach.next)? {
        Pages::Missing(at) if count as u64 <= kept => {
            Ok(Stop::Trouble(Trouble::Store(Error::Damaged(at))))
        }
        _ => Ok(too_far(rt, path, kept)),
    }
}

/// Says how many events can be taken back, and why no others.
fn only_so_many(rt: &HostRuntime, store: &mut LockedStore, why: &str) -> Result<Stop, Error>
    ensures { IfOk result (λ stop. stop ≡ Refused) }
{
    let there = store.history(rt.alloc())?.len();
    let _ = eprintln!(rt;
        "desk: only {there} events can be taken back, {why}, so nothing was done"
    );
    Ok(Stop::Refused)
}

/// Says how far a past reaches.
fn too_far(rt: &HostRuntime, path: &str, kept: u64) -> Stop
    ensures { result ≡ Refused }
{
    let _ = eprintln!(rt;
        "desk: the past of {path:?} reaches back {kept} events, so nothing was done"
    );
    Stop::Refused
}

/// Prints all events of the past of the store in a file, over all its parts that stand, the last one first, each in words
/// behind its number.
pub fn events_all(rt: &HostRuntime, path: &str) -> Result<(), Stop> {
    let mut store = past_at(rt, path)?;
    let Some(reach) = reach_of(&mut store)? else {
        return Err(no_past(rt, path));
    };
    if start_at(rt, &mut store, reach.part.base)?.is_none() {
        return Err(no_past(rt, path));
    }
    let Some(lines) = told_past(rt.alloc(), &mut store)? else {
        return Err(no_past(rt, path));
    };
    let number = print_told(rt, lines, 0)?;
    print_former(rt, &mut store, reach.part.base, number)
}

/// Prints lines, the last one first, behind numbers that go on from this one. Returns the last number.
fn print_told(rt: &HostRuntime, lines: Vec<Line>, number: u32) -> Result<u32, Stop> {
    match print_lines_from(rt, lines.as_slice(), number) {
        Ok(last) => Ok(last),
        Err(_) => Err(Stop::Trouble(Trouble::Output)),
    }
}

/// Prints the events of the parts before the one that begins in sector `base`, as `events_all` does, by numbers that go on
/// from this one.
fn print_former(
    rt: &HostRuntime,
    store: &mut LockedStore,
    base: u32,
    number: u32,
) -> Result<(), Stop> {
    let mut base = base;
    let mut number = number;
    for _part in 0..store.sectors() / PART_SECTORS {
        let Some((lines, first)) = told_before(rt.alloc(), store, base)? else {
            return Ok(());
        };
        number = print_told(rt, lines, number)?;
        base = first;
    }
    Ok(())
}

/// The events of the part before the one that begins in sector `base`, in words, and the sector in which that part begins.
/// None where none stands.
///
/// Errors: those of `former_store` and `told_past`.
fn told_before<D: Disk>(
    alloc: Global,
    store: &mut Store<D>,
    base: u32,
) -> Result<Option<(Vec<Line>, u32)>, Error>
    ensures told { IfOk result (λ found. D.honest store.old.disk → (start : Start)
        (deeds : List PastDeed) (desktop : Desktop) → IsFormer (D.size store.old.disk) base start
        deeds desktop (now (D.trail store.old.disk)).reads → IsSomeAnd found (λ part.
        (part.0.items ≡ told_lines start.desktop deeds) × (part.1 ≡ start.base))) }
    ensures still { OnOk result (IsOnlyReadFrom D.Disk store.old store.new) }
{
    let Some(former) = former_store(alloc, store, base)? else {
        return Ok(None);
    };
    let mut former = former;
    former.shows_what_crashes_leave();
    let Some(reach) = reach_of(&mut former)? else {
        return Ok(None);
    };
    match told_past(alloc, &mut former)? {
        None => Ok(None),
        Some(lines) => Ok(Some((lines, reach.part.base))),
    }
}

/// Says that there is no past.
fn no_past(rt: &HostRuntime, path: &str) -> Stop
    ensures { result ≡ Refused }
{
    let _ = eprintln!(rt; "desk: {path:?} keeps no past; a sitting at it begins one");
    Stop::Refused
}

/// Forgets the past of the store in a file, which is locked for this program alone, and begins one anew. Where the file has
/// nothing behind its store nothing is done.
pub fn forget_past(rt: &HostRuntime, path: &str) -> Result<(), Stop> {
    let file = match lock_alone(rt, path) {
        Ok(file) => file,
        Err(fault) => return Err(Stop::Trouble(Trouble::Host(fault))),
    };
    if !has_more(rt, path) {
        return Err(no_past(rt, path));
    }
    let mut store = with_past_room(rt, file)?;
    if !forget(rt.alloc(), &mut store)? {
        return Err(Stop::Trouble(Trouble::Store(Error::Fault)));
    }
    match println!(rt; "{path}: the past is forgotten; one begins anew with what the store shows") {
        Ok(()) => Ok(()),
        Err(_) => Err(Stop::Trouble(Trouble::Output)),
    }
}

/// Whether a file has anything where a past may stand, as far as the host tells.
fn has_more(rt: &HostRuntime, path: &str) -> bool {
    match length_of(rt, path) {
        Ok(length) => length > PARTS as u64 * SECTOR_BYTES as u64,
        Err(_) => true,
    }
}

/// Tells how far the past of a store reaches, if it keeps one.
pub(crate) fn tell_past(rt: &HostRuntime, store: &mut LockedStore) -> Result<(), Stop> {
    let Some(reach) = reach_of(store)? else {
        return Ok(());
    };
    let told = match first_kept(rt, store)? {
        Some(before) => tell_reach(rt, reach, before),
        None => println!(rt;
            "past: none, since its start is missing; the next sitting begins one anew"
        ),
    };
    match told {
        Ok(()) => Ok(()),
        Err(_) => Err(Stop::Trouble(Trouble::Output)),
    }
}

/// Tells how far a past reaches, before whose start so many events came.
fn tell_reach(rt: &HostRuntime, reach: Reach, before: u64) -> io::Result<()> {
    let all = reach.now();
    let kept = all.saturating_sub(before);
    let first = reach.part.base.saturating_add(STORE_SECTORS);
    let used = reach.next.saturating_sub(first);
    let room = reach.part.end.saturating_sub(first);
    println!(rt; "past: the last {kept} of {all} events; {used} of {room} sectors have pages")
}
