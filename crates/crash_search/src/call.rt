//! What is asked of a store while its disk is stopped.

use crate::stores::played;
use oberon_main::Store;
use sector_disk::{Disk, MemoryDisk};
use std::alloc::{AllocError, Global};

/// A call of a store.
#[derive(Drop)]
pub enum Call {
    /// A line is played: an event, or a checkpoint.
    Line(Vec<u8>),
    /// So many events are taken back.
    Undo(u32),
}

impl Call {
    /// The call of a line.
    pub fn line(alloc: Global, line: &[u8]) -> Result<Call, AllocError> {
        Ok(Call::Line(line.to_vec(alloc)?))
    }

    /// Opens the store on a disk and makes the call, or says why not. The disk, once the store is closed.
    pub fn made<D: Disk + Drop>(&self, alloc: Global, disk: D, said: &mut Vec<u8>) -> D {
        match self {
            Call::Line(line) => played(alloc, disk, line.as_slice(), said),
            Call::Undo(count) => undone(alloc, disk, *count, said),
        }
    }
}

/// Takes so many events back, and says `ok` where that is done.
fn undone<D: Disk + Drop>(alloc: Global, disk: D, count: u32, said: &mut Vec<u8>) -> D {
    match Store::open(alloc, disk) {
        Err((_, disk)) => disk,
        Ok(mut store) => {
            let done = store.undo(alloc, count);
            if done.is_ok() {
                said.extend_from_slice(b"ok\n").unwrap_or(());
            }
            store.close()
        }
    }
}

/// The store after a call.
pub fn after_call(alloc: Global, disk: &MemoryDisk, call: &Call) -> Result<MemoryDisk, AllocError> {
    let mut said = Vec::new(alloc);
    let disk = call.made(alloc, disk.crash(alloc, &[])?, &mut said);
    disk.crash(alloc, &[])
}
