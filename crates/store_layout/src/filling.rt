//! Bytes that come and fill sectors.
ghost use Rattle.std.specs.Prelude.{◌≡◌, ◌+◌, ◌*◌, ◌^◌, ◌<◌, ◌≤◌, ◌++◌, [], ℕ, List, OnOk, length, replicate};
ghost use Rattle.std.specs.Prelude.{take, drop};
ghost use Rattle.sector_disk.specs.declared.disk.TheConstants.{SECTOR_BYTES};

use sector_disk::{Disk, Fault, SECTOR_BYTES, Sector};

/// A sector of zeros.
fn blank() -> Sector
    ensures { result ≡ replicate SECTOR_BYTES 0 }
{
    [0; SECTOR_BYTES as usize]
}

/// Copies the bytes into a sector, from byte `at` of it on.
fn pour(sector: &mut Sector, at: usize, bytes: &[u8])
    requires { at + length bytes.now ≤ SECTOR_BYTES }
    ensures { sector.new ≡ take at sector.old
        ++ (bytes.now ++ drop (at + length bytes.now) sector.old) }
{
    sector[at..at + bytes.len()].copy_from_slice(bytes);
}

/// Bytes on their way to sectors. Those that fill a sector are written when the next one comes, and the last ones by
/// `finish`. It holds one sector, and no disk: each call is given the disk.
#[derive(Drop)]
pub struct Filling {
    /// The first sector.
    from: u32,

    /// How many sectors there are from that one on. Bytes that don't fit them are dropped.
    limit: u32,

    /// How many of them are written.
    full: u32,

    /// How many bytes of the buffer came; those after them are zeros.
    used: usize,
    buffer: Sector,
    ghost within: { full < limit },
    ghost fits: { used ≤ SECTOR_BYTES },
    ghost numbered: { from + limit < 2 ^ 32 },
}

impl Filling {
    ghost use Rattle.sector_disk.specs.Trail.{Content, CountsFault, now};
    ghost use Rattle.sector_disk.specs.Confined.{IsConfined};
    ghost use Rattle.sector_disk.specs.Stored.{HoldsBytes};
    ghost use Rattle.store_layout.specs.Filling.{first_sector, most_sectors, SectorsOf, IsSpread, HasTaken};

    /// No bytes yet, on their way to `limit` sectors from sector `from` on.
    pub fn new(from: u32, limit: u32) -> Filling
        requires some { 0 < limit }
        requires numbered { from + limit < 2 ^ 32 }
        ensures from { first_sector result ≡ from }
        ensures limit { most_sectors result ≡ limit }
        ensures taken { (c : Content) → HasTaken c result [] }
    {
        Filling {
            from,
            limit,
            full: 0,
            used: 0,
            buffer: blank(),
        }
    }

    /// Writes a full buffer where another sector is left, and empties it.
    fn turn_over<D: Disk>(&mut self, disk: &mut D) -> Result<(), Fault>
        requires { first_sector self.old + most_sectors self.old ≤ D.size disk.old }
        ensures kept { IsConfined D.size D.honest D.trail (SectorsOf self.old) disk.old disk.new }
        ensures cause { CountsFault result (D.failures disk.old) (D.failures disk.new) }
        ensures from { self.new.from ≡ self.old.from }
        ensures limit { self.new.limit ≡ self.old.limit }
        ensures turned { OnOk result (self.new.used ≡ SECTOR_BYTES
            → self.new.full + 1 ≡ self.new.limit) }
        ensures spread { OnOk result (D.honest disk.old → (bytes : List ℕ)
            → IsSpread (now (D.trail disk.old)).reads self.old.from self.old.full self.old.used
            self.old.buffer bytes
            → IsSpread (now (D.trail disk.new)).reads self.old.from self.new.full self.new.used
            self.new.buffer bytes) }
    {
        if self.used < SECTOR_BYTES as usize || self.full + 1 >= self.limit {
            return Ok(());
        }
        disk.write(self.from + self.full, &self.buffer)?;
        self.full += 1;
        self.used = 0;
        self.buffer = blank();
        Ok(())
    }

    /// Takes as many bytes as the buffer has room for, and returns how many these are. Where it has none they are all
    /// dropped.
    fn take_some(&mut self, bytes: &[u8]) -> usize
        ensures from { self.new.from ≡ self.old.from }
        ensures limit { self.new.limit ≡ self.old.limit }
        ensures some { 0 < length bytes.now → 0 < result }
        ensures within { result ≤ length bytes.now }
        ensures whole { self.old.used + length bytes.now ≤ SECTOR_BYTES
            → result ≡ length bytes.now }
        ensures taken { (c : Content) (before : List ℕ)
            → (self.old.used ≡ SECTOR_BYTES → self.old.full + 1 ≡ self.old.limit)
            → HasTaken c self.old before → HasTaken c self.new (before ++ take result bytes.now) }
    {
        let room = SECTOR_BYTES as usize - self.used;
        if room == 0 {
            return bytes.len();
        }
        let count = room.min(bytes.len());
        pour(&mut self.buffer, self.used, &bytes[..count]);
        self.used += count;
        count
    }

    /// Takes the bytes, those that fit the sectors, and writes each sector that is full when a byte after it comes. Where
    /// they all fit the buffer, they are copied there, and nothing else is done. `Fault`: the disk failed in this call,
    /// and what was taken is no longer said.
    pub fn put_over<D: Disk>(&mut self, disk: &mut D, bytes: &[u8]) -> Result<(), Fault>
        requires { first_sector self.old + most_sectors self.old ≤ D.size disk.old }
        ensures kept { IsConfined D.size D.honest D.trail (SectorsOf self.old) disk.old disk.new }
        ensures cause { CountsFault result (D.failures disk.old) (D.failures disk.new) }
        ensures from { first_sector self.new ≡ first_sector self.old }
        ensures limit { most_sectors self.new ≡ most_sectors self.old }
        ensures taken { OnOk result (D.honest disk.old → (before : List ℕ)
            → HasTaken (now (D.trail disk.old)).reads self.old before
            → HasTaken (now (D.trail disk.new)).reads self.new (before ++ bytes.now)) }
    {
        if bytes.is_empty() || bytes.len() > SECTOR_BYTES as usize - self.used {
            return self.put_beyond(disk, bytes);
        }
        self.take_some(bytes);
        Ok(())
    }

    /// The same of bytes that may not fit the buffer. It is compiled apart, so that few bytes are copied where they come.
    #[inline(never)]
    fn put_beyond<D: Disk>(&mut self, disk: &mut D, bytes: &[u8]) -> Result<(), Fault>
        requires { first_sector self.old + most_sectors self.old ≤ D.size disk.old }
        ensures kept { IsConfined D.size D.honest D.trail (SectorsOf self.old) disk.old disk.new }
        ensures cause { CountsFault result (D.failures disk.old) (D.failures disk.new) }
        ensures from { first_sector self.new ≡ first_sector self.old }
        ensures limit { most_sectors self.new ≡ most_sectors self.old }
        ensures taken { OnOk result (D.honest disk.old → (before : List ℕ)
            → HasTaken (now (D.trail disk.old)).reads self.old before
            → HasTaken (now (D.trail disk.new)).reads self.new (before ++ bytes.now)) }
    {
        let mut at = 0;
        while at < bytes.len() {
            self.turn_over(disk)?;
            at += self.take_some(&bytes[at..]);
        }
        Ok(())
    }

    /// Writes the last sector, also where the bytes don't fill it or there are none; it ends with zeros. `Fault`: the
    /// disk failed in this call.
    pub fn finish<D: Disk>(&self, disk: &mut D) -> Result<(), Fault>
        requires { first_sector self.now + most_sectors self.now ≤ D.size disk.old }
        ensures kept { IsConfined D.size D.honest D.trail (SectorsOf self.now) disk.old disk.new }
        ensures cause { CountsFault result (D.failures disk.old) (D.failures disk.new) }
        ensures held { OnOk result (D.honest disk.old → (bytes : List ℕ)
            → HasTaken (now (D.trail disk.old)).reads self.now bytes
            → length bytes ≤ SECTOR_BYTES * most_sectors self.now
            → HoldsBytes (now (D.trail disk.new)).reads (first_sector self.now) bytes) }
    {
        let last = self.from + self.full;
        disk.write(last, &self.buffer)
    }
}
