//! The bytes of a sector on the heap, so that a map that holds them moves none where it makes room.
ghost use Rattle.std.specs.Prelude.{◌≡◌, IfOk};

use crate::{NoMemory, Sector};
use std::alloc::Global;
use std::marker::Model;

/// A sector on the heap. A clause sees its bytes.
#[derive(Drop)]
pub(crate) struct HeapSector {
    bytes: Vec<u8>,
}

impl Model for HeapSector {
    ghost use Rattle.std.specs.Prelude.{◌≡◌, ℕ, List, length};
    ghost use Rattle.sector_disk.specs.declared.disk.TheConstants.{SECTOR_BYTES};

    ghost Value = { List ℕ };

    ghost view = { λ s. s.bytes.items };

    ghost invariant = { λ s. length s.bytes.items ≡ SECTOR_BYTES };
}

impl HeapSector {
    /// A sector of these bytes, which are copied once. `NoMemory`: there was no memory for it.
    pub(crate) fn new(alloc: Global, bytes: &Sector) -> Result<HeapSector, NoMemory>
        ensures { IfOk result (λ sector. sector ≡ bytes.now) }
    {
        Ok(HeapSector {
            bytes: Vec::from_slice(alloc, bytes)?,
        })
    }

    /// Copies its bytes to the buffer.
    pub(crate) fn copy_to(&self, buffer: &mut Sector)
        ensures { buffer.new ≡ self.now }
    {
        buffer.copy_from_slice(&self.bytes);
    }

    /// Gives it other bytes.
    pub(crate) fn set(&mut self, bytes: &Sector)
        ensures { self.new ≡ bytes.now }
    {
        self.bytes.copy_from_slice(bytes);
    }
}
