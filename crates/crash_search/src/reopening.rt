//! Opening a store that stops again and again, at a later call of the disk each time, and the crash that follows each
//! stop.

use crate::images::{drawn, image};
use crate::random::Random;
use oberon_main::{Error, Store};
use sector_disk::{Fuse, MemoryDisk};
use std::alloc::{AllocError, Global};

/// More calls than opening a store makes of its disk.
const MOST_CALLS: u64 = 8_192;

/// At which calls opening is stopped.
#[derive(Clone, Copy)]
pub struct Calls {
    /// At each of so many first ones.
    each: u64,
    /// Of the later ones, at one in so many.
    one_in: u32,
}

impl Calls {
    /// Nearly all calls, for a short journal.
    pub fn nearly_all() -> Calls {
        Calls {
            each: 64,
            one_in: 8,
        }
    }

    /// Those before the journal, and some of those that read it.
    pub fn few() -> Calls {
        Calls {
            each: 12,
            one_in: 128,
        }
    }

    /// Whether opening is stopped at that call.
    pub fn have(self, call: u64, random: &mut Random) -> bool {
        call < self.each || random.below(self.one_in.max(1)) == 0
    }
}

/// How opening ended.
#[derive(Clone, Copy, PartialEq, Eq)]
pub enum Opening {
    /// The store is open.
    Done,
    /// The disk failed.
    Stopped,
    /// There is no store, or it is damaged.
    Refused,
}

/// Opens the store on a disk that fails from that call on, and closes it: the disk, and how that ended.
pub fn opened(alloc: Global, disk: MemoryDisk, call: u64) -> (MemoryDisk, Opening) {
    match Store::open(alloc, Fuse::new(disk, call)) {
        Ok(store) => (store.close().into_inner(), Opening::Done),
        Err((Error::Fault, fuse)) => (fuse.into_inner(), Opening::Stopped),
        Err((_, fuse)) => (fuse.into_inner(), Opening::Refused),
    }
}

/// A store that was opened in the end.
#[derive(Drop)]
pub struct Recovery {
    /// Its disk.
    pub disk: MemoryDisk,
    /// At how many calls opening it was stopped.
    pub stops: u64,
    /// Whether each stop was told as a fault, and no store as damaged.
    pub is_told: bool,
}

/// The disk after a crash, with a random filling of each pending sector.
fn crashed(alloc: Global, disk: MemoryDisk, random: &mut Random) -> Result<MemoryDisk, AllocError> {
    let mut disk = disk;
    let pending = disk.pending_sectors(alloc)?;
    if pending.is_empty() {
        return Ok(disk);
    }
    let fillings = drawn(alloc, &pending, random)?;
    image(alloc, &mut disk, &fillings)
}

/// Opens a store at last, after opening it was stopped at one call after another.
pub fn recovered(
    alloc: Global,
    disk: MemoryDisk,
    calls: Calls,
    random: &mut Random,
) -> Result<Recovery, AllocError> {
    let mut disk = disk;
    let mut stops: u64 = 0;
    for call in 0..MOST_CALLS {
        if !calls.have(call, random) {
            continue;
        }
        let (next, opening) = opened(alloc, disk, call);
        if opening != Opening::Stopped {
            return Ok(Recovery {
                disk: next,
                stops,
                is_told: opening == Opening::Done,
            });
        }
        stops = stops.saturating_add(1);
        disk = crashed(alloc, next, random)?;
    }
    Ok(Recovery {
        disk,
        stops,
        is_told: false,
    })
}
