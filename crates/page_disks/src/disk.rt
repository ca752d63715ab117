//! A disk in memory, and what is spelled of it.
//!
//! A clause sees it as a `Recording`: the calls of the disk in memory, and which of them came after it was last told to
//! forget. Its trail begins there: what a store that is opened over it still has to tell is all of its trail.
ghost use Rattle.std.specs.Prelude.{◌≡◌, ◌<◌, ◌≤◌, ◌+◌, [], ◌∷◌, ◌++◌, length, OnOk, OnErr, IfOk, IsOk, IsTrue};
ghost use Rattle.std.specs.Int.{w32, to_le_bytes};
ghost use Rattle.std.specs.Vec.{vec_len, vec_capacity};
ghost use Rattle.sector_disk.specs.Trail.{now, CountsFault};
ghost use Rattle.page_disks.specs.Recording.{blank_recording, forgotten, recorded, trail_since};
ghost use Rattle.page_disks.specs.Spelling.{spelling_of_calls};

use desk_journal::NotingDisk;
use ghost_traces::{Count, Trace};
use sector_disk::{Disk, DiskCall, Fault, MemoryDisk, NoMemory, Sector};
use std::alloc::Global;
use std::marker::Model;

/// What a sync is spelled as, in the place of a sector's number. No disk has a sector of this number.
pub const SYNC_NUMBER: u32 = 0xffff_ffff;

/// How many bytes a write is spelled with: those of the sector's number, and those of the sector.
const WRITE_BYTES: usize = 1028;

/// A disk in memory, of any number of sectors of 1,024 bytes, and its calls, spelled. It is always honest. A call for
/// which there is no memory, or none to spell it, returns `Fault` and changes nothing.
#[derive(Drop)]
pub struct RecordedDisk {
    disk: MemoryDisk,
    since: Trace<DiskCall>,
    spelled: Vec<u8>,
    refused: Count,
    /// Whether it was never told to forget.
    whole: bool,
}

impl Model for RecordedDisk {
    ghost use Rattle.std.specs.Prelude.{◌≡◌, ◌+◌, true};
    ghost use Rattle.page_disks.specs.Recording.{Recording, EndsWith, told_before};
    ghost use Rattle.page_disks.specs.Spelling.{spelling_of_calls};

    ghost Value = { Recording };

    ghost view = { λ d. record {
      size = d.disk.size;
      told = told_before d.disk.calls d.since.items;
      since = d.since.items;
      failures = d.disk.failures + d.refused;
    } };

    ghost invariant = { λ d. EndsWith d.disk.calls d.since.items × (d.spelled.items ≡ spelling_of_calls d.since.items)
        × (d.whole ≡ true → d.disk.calls ≡ d.since.items) };
}

impl RecordedDisk {
    /// A disk of so many sectors, each of zeros, of which no call is spelled. `NoMemory`: there was no memory for it.
    pub fn new(alloc: Global, sectors: u32) -> Result<RecordedDisk, NoMemory>
        ensures { IfOk result (λ d. d ≡ blank_recording sectors) }
    {
        let disk = MemoryDisk::new(alloc, sectors)?;
        Ok(RecordedDisk {
            disk,
            since: Trace::new(),
            spelled: Vec::new(alloc),
            refused: Count::new(),
            whole: true,
        })
    }

    /// The calls since it was last told to forget, each after the one before: a write as the number of its sector in
    /// four bytes, the lowest first, and the sector's 1,024 bytes; a sync as `SYNC_NUMBER` in four bytes.
    pub fn spelled(&self) -> &[u8]
        ensures { result.now ≡ spelling_of_calls self.now.since }
    {
        self.spelled.as_slice()
    }

    /// Whether all of its calls are spelled, from the first one on: it was never told to forget.
    pub fn is_whole(&self) -> bool
        ensures { IsTrue result → self.now.told ≡ [] }
    {
        self.whole
    }
}

impl NotingDisk for RecordedDisk {
    ghost forgetting = { forgotten };

    /// Forgets what is spelled. The disk stays as it is, and its next call is the first one that is spelled.
    fn forget(&mut self) {
        self.spelled.clear();
        self.since = Trace::new();
        self.whole = false;
    }
}

/// Makes room for a call, or counts a refusal.
fn make_room(spelled: &mut Vec<u8>, refused: &mut Count) -> Result<(), Fault>
    ensures same { spelled.new.items ≡ spelled.old.items }
    ensures room { OnOk result (vec_len spelled.new + 1028 ≤ vec_capacity spelled.new) }
    ensures cause { CountsFault result refused.old refused.new }
{
    if spelled.try_reserve(WRITE_BYTES).is_err() {
        refused.rise();
        return Err(Fault);
    }
    Ok(())
}

/// Spells a call where there is room for it.
fn spell(spelled: &mut Vec<u8>, number: u32, bytes: &[u8])
    requires { vec_len spelled.old + (4 + length bytes.now) ≤ vec_capacity spelled.old }
    ensures { spelled.new.items ≡ spelled.old.items ++ (to_le_bytes w32 number ++ bytes.now) }
{
    let _ = spelled.extend_from_slice(&number.to_le_bytes());
    let _ = spelled.extend_from_slice(bytes);
}

impl Disk for RecordedDisk {
    ghost size = { λ d. d.size };

    ghost trail = { λ d. trail_since d };

    ghost failures = { λ d. d.failures };

    ghost honest = { λ _. Unit {0} };

    fn sectors(&self) -> u32 {
        self.disk.sectors()
    }

    /// Copies sector `n` to the buffer. It never fails.
    fn read(&mut self, n: u32, buffer: &mut Sector) -> Result<(), Fault>
        requires { n < self.old.size }
        ensures done { IsOk result }
        ensures unchanged { self.new ≡ self.old }
        ensures bytes { buffer.new ≡ (now (trail_since self.old)).reads n }
    {
        self.disk.read(n, buffer)
    }

    /// Writes the sector. Where no memory is left for it the call returns `Fault` and changes nothing.
    fn write(&mut self, n: u32, bytes: &Sector) -> Result<(), Fault>
        requires { n < self.old.size }
        ensures size { self.new.size ≡ self.old.size }
        ensures cause { CountsFault result self.old.failures self.new.failures }
        ensures recorded { OnOk result (self.new ≡ recorded (DiskCall.Write n bytes.now) self.old) }
        ensures refused { OnErr result (self.new.told ≡ self.old.told) }
        ensures unspelled { OnErr result (self.new.since ≡ self.old.since) }
    {
        make_room(&mut self.spelled, &mut self.refused)?;
        self.disk.write(n, bytes)?;
        spell(&mut self.spelled, n, bytes);
        self.since.add(&[DiskCall::Write(n, *bytes)]);
        Ok(())
    }

    /// Settles every pending sector. Where no memory is left to spell it the call returns `Fault` and changes nothing.
    fn sync(&mut self) -> Result<(), Fault>
        ensures size { self.new.size ≡ self.old.size }
        ensures cause { CountsFault result self.old.failures self.new.failures }
        ensures recorded { OnOk result (self.new ≡ recorded DiskCall.Sync self.old) }
        ensures refused { OnErr result (self.new.told ≡ self.old.told) }
        ensures unspelled { OnErr result (self.new.since ≡ self.old.since) }
    {
        make_room(&mut self.spelled, &mut self.refused)?;
        self.disk.sync()?;
        spell(&mut self.spelled, SYNC_NUMBER, &[]);
        self.since.add(&[DiskCall::Sync]);
        Ok(())
    }
}
