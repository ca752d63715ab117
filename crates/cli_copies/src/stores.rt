//! Stores in files, opened for one order.

use crate::progress::Progress;
use crate::sentences::Stop;
use cli_stores::{Trouble, looked_at, opened_locked};
use desk_journal::{Error, Store};
use host_files::LockedFile;
use host_stores::{FileDisk, opened as opened_on};
use sector_disk::{FILE_SECTORS, MemoryDisk, SECTOR_BYTES};
use store_documents::copy;

// The number that is told beside those that were read.
const _: () = prove!(FILE_SECTORS == 15_621);

/// How many bytes the file of a store has.
pub const WHOLE: u64 = FILE_SECTORS as u64 * SECTOR_BYTES as u64;

/// A disk in a file that is locked.
pub type LockedDisk = FileDisk<LockedFile>;

/// A store on such a disk.
pub type LockedStore = Store<LockedDisk>;

/// The store in a file, which is locked beside other programs that look.
pub fn store_at(rt: &HostRuntime, path: &str) -> Result<LockedStore, Stop> {
    Ok(opened_locked(rt, looked_at(rt, path)?)?)
}

/// A copy of the store in a file, in memory.
pub fn store_in_memory(rt: &HostRuntime, path: &str) -> Result<Store<MemoryDisk>, Stop> {
    Ok(opened_on(rt, disk_in_memory(rt, path)?)?)
}

/// A copy of the disk in a file.
fn disk_in_memory(rt: &HostRuntime, path: &str) -> Result<MemoryDisk, Stop> {
    let mut file = FileDisk::new(looked_at(rt, path)?);
    let mut memory = MemoryDisk::new(rt.alloc(), FILE_SECTORS)?;
    let mut progress = Progress::new(rt, "of 15621 sectors read");
    let done = copy(&mut file, &mut memory, FILE_SECTORS, &mut progress);
    progress.end();
    match done {
        Ok(()) => Ok(memory),
        Err(_) => Err(Stop::Trouble(Trouble::Store(Error::Fault))),
    }
}
