//! A store and a call of it: what is stopped, and what may be shown then.

use crate::call::{Call, after_call};
use crate::reopening::Calls;
use crate::stores::shown;
use sector_disk::MemoryDisk;
use std::alloc::{AllocError, Global};

/// What a store may show after a crash.
#[derive(Drop)]
pub struct Views {
    before: Vec<u8>,
    after: Vec<u8>,
}

impl Views {
    /// Whether it may show this. Before the call was acknowledged it may show either.
    pub fn allow(&self, acknowledged: bool, shown: &[u8]) -> bool {
        shown == self.after.as_slice() || (!acknowledged && shown == self.before.as_slice())
    }
}

/// A store, closed and synced, and the call that is to be stopped.
#[derive(Drop)]
pub struct Trial {
    pub name: &'static str,
    pub disk: MemoryDisk,
    pub call: Call,
    /// Whether its journal is full, so that opening it takes long.
    pub is_long: bool,
    pub views: Views,
}

impl Trial {
    /// The call of the store, which leads to what it leads to where nothing stops it.
    pub fn new(
        alloc: Global,
        name: &'static str,
        disk: &MemoryDisk,
        call: Call,
        is_long: bool,
    ) -> Result<Trial, AllocError> {
        let left = after_call(alloc, disk, &call)?;
        Trial::toward(alloc, name, disk, call, is_long, left)
    }

    /// The call of the store, which is to lead to what this other store shows.
    pub fn toward(
        alloc: Global,
        name: &'static str,
        disk: &MemoryDisk,
        call: Call,
        is_long: bool,
        other: MemoryDisk,
    ) -> Result<Trial, AllocError> {
        let before = shown(alloc, disk.crash(alloc, &[])?);
        let after = shown(alloc, other);
        Ok(Trial {
            name,
            disk: disk.crash(alloc, &[])?,
            call,
            is_long,
            views: Views { before, after },
        })
    }

    /// At which calls opening it is stopped.
    pub fn calls(&self) -> Calls {
        if self.is_long {
            Calls::few()
        } else {
            Calls::nearly_all()
        }
    }
}
