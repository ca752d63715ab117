//! Bytes that are read one by one out of sectors.
ghost use Rattle.std.specs.Prelude.{◌≡◌, ◌+◌, ◌/◌, ◌^◌, ◌<◌, ◌≤◌, ℕ, OnOk, IfOk};

use sector_disk::{Disk, Fault, SECTOR_BYTES, Sector};

/// Bytes on their way out of sectors. It holds one sector, and no disk: each call is given the disk.
#[derive(Drop)]
pub struct Draining {
    /// The first sector.
    from: u32,

    /// How many bytes there are from that sector on.
    extent: u32,

    /// How many of them were read.
    at: u32,

    /// The sector of the next byte, where an earlier byte of it was read.
    buffer: Sector,
    ghost within: { at ≤ extent },
    ghost numbered: { from + extent < 2 ^ 32 },
}

impl Draining {
    ghost use Rattle.sector_disk.specs.Trail.{Content, Nowhere, CountsFault, now};
    ghost use Rattle.sector_disk.specs.Confined.{IsConfined};
    ghost use Rattle.image_format.specs.Passing.{IsNext};
    ghost use Rattle.sector_disk.specs.Stored.{stored};
    ghost use Rattle.store_layout.specs.Draining.{start_sector, extent_of, bytes_read, bytes_left};
    ghost use Rattle.store_layout.specs.Draining.{IsSectorLoaded, IsOnDisk};

    /// Stands before the first of the `extent` bytes from sector `from` on.
    pub fn new(from: u32, extent: u32) -> Draining
        requires numbered { from + extent < 2 ^ 32 }
        ensures from { start_sector result ≡ from }
        ensures extent { extent_of result ≡ extent }
        ensures unread { bytes_read result ≡ 0 }
        ensures left { (c : Content) → bytes_left c result ≡ stored c from extent }
        ensures loaded { (c : Content) → IsSectorLoaded c result }
    {
        Draining {
            from,
            extent,
            at: 0,
            buffer: [0; SECTOR_BYTES as usize],
        }
    }

    /// Reads the sector of the next byte, where that is the first byte of a sector.
    fn refill<D: Disk>(&mut self, disk: &mut D) -> Result<(), Fault>
        requires { self.old.from + self.old.at / SECTOR_BYTES < D.size disk.old }
        ensures kept { IsConfined D.size D.honest D.trail Nowhere disk.old disk.new }
        ensures cause { CountsFault result (D.failures disk.old) (D.failures disk.new) }
        ensures from { self.new.from ≡ self.old.from }
        ensures extent { self.new.extent ≡ self.old.extent }
        ensures at { self.new.at ≡ self.old.at }
        ensures loaded { D.honest disk.old → IsSectorLoaded (now (D.trail disk.old)).reads self.old
            → IsSectorLoaded (now (D.trail disk.old)).reads self.new }
        ensures buffer { OnOk result (D.honest disk.old
            → IsSectorLoaded (now (D.trail disk.old)).reads self.old
            → self.new.buffer ≡ (now (D.trail disk.old)).reads
            (self.old.from + self.old.at / SECTOR_BYTES)) }
    {
        if self.at % SECTOR_BYTES == 0 {
            return disk.read(self.from + self.at / SECTOR_BYTES, &mut self.buffer);
        }
        Ok(())
    }

    /// The next byte; None at the end. `Fault`: the disk failed in this call, and no byte was passed.
    pub(crate) fn next<D: Disk>(&mut self, disk: &mut D) -> Result<Option<u8>, Fault>
        requires { IsOnDisk (D.size disk.old) self.old }
        ensures kept { IsConfined D.size D.honest D.trail Nowhere disk.old disk.new }
        ensures cause { CountsFault result (D.failures disk.old) (D.failures disk.new) }
        ensures from { start_sector self.new ≡ start_sector self.old }
        ensures extent { extent_of self.new ≡ extent_of self.old }
        ensures loaded { D.honest disk.old → IsSectorLoaded (now (D.trail disk.old)).reads self.old
            → IsSectorLoaded (now (D.trail disk.old)).reads self.new }
        ensures next { D.honest disk.old → IsSectorLoaded (now (D.trail disk.old)).reads self.old
            → IfOk result (λ byte. IsNext byte (bytes_left (now (D.trail disk.old)).reads self.old)
            (bytes_left (now (D.trail disk.new)).reads self.new)) }
    {
        if self.at >= self.extent {
            return Ok(None);
        }
        self.refill(disk)?;
        let byte = self.buffer[(self.at % SECTOR_BYTES) as usize];
        self.at += 1;
        Ok(Some(byte))
    }
}
