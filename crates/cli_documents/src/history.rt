//! What can be taken back in a store, and a store as it was.

use crate::pasts::{out_of_reach, past_before};
use cli_copies::{Stop, copy_to, put_copy, refuse_taken, store_at, store_in_memory};
use cli_stores::Trouble;
use desk_journal::Store;
use sector_disk::{FILE_SECTORS, MemoryDisk};
use std::io;
use told_pasts::{Line, add_lines, takes_back};

/// Prints the events of the store in a file that can be taken back, the last one first, each in words behind its number.
/// The words are those of the desktop that stood there: the events are done once more in a copy of the store in memory.
pub fn events_back(rt: &HostRuntime, path: &str) -> Result<(), Stop> {
    let mut store = store_in_memory(rt, path)?;
    let events = store.undo(rt.alloc(), u32::MAX)?;
    let mut lines = Vec::new(rt.alloc());
    add_lines(rt.alloc(), &mut store, events.as_slice(), &mut lines)?;
    match print_lines_from(rt, lines.as_slice(), 0) {
        Ok(_last) => Ok(()),
        Err(_) => Err(Stop::Trouble(Trouble::Output)),
    }
}

/// Prints lines behind their numbers, the last one first. The numbers go on from this one; the last of them is returned.
pub(crate) fn print_lines_from(rt: &HostRuntime, lines: &[Line], before: u32) -> io::Result<u32> {
    let mut number = before;
    for line in lines.iter().rev() {
        number = number.saturating_add(1);
        let line = line.as_str();
        println!(rt; "{number:>3}  {line}")?;
    }
    Ok(number)
}

/// The store in a file as it was before so many of its last events, in memory: by the past behind it, or by what can be
/// taken back. Where neither reaches so far it is said how far they do. The file is locked beside other programs that
/// look.
pub(crate) fn store_before(
    rt: &HostRuntime,
    path: &str,
    count: u32,
) -> Result<Store<MemoryDisk>, Stop> {
    if let Some(store) = past_before(rt, path, count)? {
        return Ok(store);
    }
    let mut store = store_in_memory(rt, path)?;
    if takes_back(rt.alloc(), &mut store, count)? {
        return Ok(store);
    }
    Err(out_of_reach(rt, path, count)?)
}

/// A copy of the store in a file, in memory: as it is, or as it was so many events ago.
pub(crate) fn store_as(
    rt: &HostRuntime,
    path: &str,
    at: Option<u32>,
) -> Result<Store<MemoryDisk>, Stop> {
    match at {
        None => store_in_memory(rt, path),
        Some(count) => store_before(rt, path, count),
    }
}

/// Copies the store in a file into a new one, and takes so many of the last events back there. The store itself stays
/// as it is, and is locked beside other programs that look until the copy is there. Where not just these events come
/// back there is no copy.
pub fn earlier(rt: &HostRuntime, path: &str, count: u32, copy: &str) -> Result<(), Stop> {
    let mut store = store_at(rt, path)?;
    let events = store.history(rt.alloc())?;
    let there = events.len();
    let Some(first) = there.checked_sub(count as usize) else {
        drop(store);
        return much_earlier(rt, path, count, copy);
    };
    refuse_taken(rt, copy)?;
    let last = events.as_slice().get(first..).unwrap_or(&[]);
    copy_to(rt, path, store, copy, FILE_SECTORS, last)?;
    match println!(rt;
        "{copy}: a copy of the store, compared and synced; events taken back there: {count}"
    ) {
        Ok(()) => Ok(()),
        Err(_) => Err(Stop::Trouble(Trouble::Output)),
    }
}

/// The same by the past behind the store, if it keeps one that reaches so far.
fn much_earlier(rt: &HostRuntime, path: &str, count: u32, copy: &str) -> Result<(), Stop> {
    let Some(shown) = past_before(rt, path, count)? else {
        return Err(out_of_reach(rt, path, count)?);
    };
    put_copy(rt, path, shown.close(), copy)?;
    match println!(rt;
        "{copy}: a store, compared and synced, made of the past; events taken back there: {count}"
    ) {
        Ok(()) => Ok(()),
        Err(_) => Err(Stop::Trouble(Trouble::Output)),
    }
}
