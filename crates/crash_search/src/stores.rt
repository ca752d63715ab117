//! Stores in memory, by the scripts that are played over them.

use command_table::Version;
use oberon_main::{CountedReader, CountedWriter, STORE_SECTORS, Store, play, refuse};
use sector_disk::{Disk, Fault, Fuse, MemoryDisk};
use std::alloc::{AllocError, Global};
use store_layout::{JOURNAL_EVENTS, body, gate};

/// What a store is asked that must be as it was: its files, its viewers, and its screen.
const LOOKS: &[u8] =
    b"list\nshow System.Tool\nshow A.Text\nshow B.Text\nshow C.Text\nshow D.Text\nshow G.Text\nscreen\n";

/// Opens the store on a disk and plays a script over it, or says why there is none. The disk, once the store is closed.
pub fn played<D: Disk + Drop>(alloc: Global, disk: D, script: &[u8], said: &mut Vec<u8>) -> D {
    let mut writer = CountedWriter::new(said);
    match Store::open(alloc, disk) {
        Err((error, disk)) => {
            refuse(&mut writer, &error);
            disk
        }
        Ok(mut store) => {
            play(
                alloc,
                &mut CountedReader::new(script),
                &mut writer,
                &mut store,
            );
            store.close()
        }
    }
}

/// A new store, closed.
pub fn fresh(alloc: Global) -> Result<MemoryDisk, AllocError> {
    match Store::format(MemoryDisk::new(alloc, STORE_SECTORS)?) {
        Ok(disk) => Ok(disk),
        Err(_) => Err(AllocError),
    }
}

/// The store after a script.
pub fn after(alloc: Global, disk: &MemoryDisk, script: &[u8]) -> Result<MemoryDisk, AllocError> {
    let mut said = Vec::new(alloc);
    let disk = played(alloc, disk.crash(alloc, &[])?, script, &mut said);
    disk.crash(alloc, &[])
}

/// Copies a sector that begins with a byte other than zero, as gates that are open and bodies do.
fn copy_sector(from: &mut MemoryDisk, to: &mut MemoryDisk, n: u32) -> Result<(), Fault> {
    if n >= from.sectors() || n >= to.sectors() {
        return Err(Fault);
    }
    let mut bytes = [0; 1024];
    from.read(n, &mut bytes)?;
    if bytes[0] != 0 {
        to.write(n, &bytes)?;
    }
    Ok(())
}

/// Copies the journal of slot 0.
fn copy_journal(from: &mut MemoryDisk, to: &mut MemoryDisk) -> Result<(), Fault> {
    for k in 0..JOURNAL_EVENTS {
        copy_sector(from, to, gate(0, k))?;
        copy_sector(from, to, body(0, k))?;
    }
    to.sync()
}

/// A store of that version whose journal has the events of the journal in slot 0 of a disk.
pub fn aged(alloc: Global, disk: &MemoryDisk, version: Version) -> Result<MemoryDisk, AllocError> {
    let mut new = disk.crash(alloc, &[])?;
    let Ok(mut old) = Store::format_as(MemoryDisk::new(alloc, STORE_SECTORS)?, version) else {
        return Err(AllocError);
    };
    if copy_journal(&mut new, &mut old).is_err() {
        return Err(AllocError);
    }
    old.crash(alloc, &[])
}

/// The store with a sector that means nothing, where it was synced.
pub fn spoiled(alloc: Global, disk: &MemoryDisk, n: u32) -> Result<MemoryDisk, AllocError> {
    let mut new = disk.crash(alloc, &[])?;
    if n < new.sectors() && new.write(n, &[0xff; 1024]).is_ok() && new.sync().is_ok() {
        return Ok(new);
    }
    Err(AllocError)
}

/// What a store shows; or why there is none.
pub fn shown(alloc: Global, disk: MemoryDisk) -> Vec<u8> {
    let mut said = Vec::new(alloc);
    played(alloc, disk, LOOKS, &mut said);
    said
}

/// Whether a disk that fails from that call on is opened.
fn opens(alloc: Global, disk: &MemoryDisk, calls: u64) -> Result<bool, AllocError> {
    Ok(Store::open(alloc, Fuse::new(disk.crash(alloc, &[])?, calls)).is_ok())
}

/// How many calls of its disk opening a store makes.
pub fn calls_to_open(alloc: Global, disk: &MemoryDisk) -> Result<u64, AllocError> {
    let mut short: u64 = 0;
    for step in [2048, 1024, 512, 256, 128, 64, 32, 16, 8, 4, 2, 1] {
        let calls = short.saturating_add(step);
        if !opens(alloc, disk, calls)? {
            short = calls;
        }
    }
    Ok(short.saturating_add(1))
}
