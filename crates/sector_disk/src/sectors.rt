//! What a disk in memory keeps of its sectors. A sector that was never written takes no room.
ghost use Rattle.std.specs.Prelude.{◌≡◌, ℕ, Ok, OnOk, OnErr, IfOk, MatchOption, None, Some, true, false, nat_eq};
ghost use Rattle.std.specs.Prelude.{[], ◌∷◌, ◌++◌, length, if◌then◌else◌};
ghost use Rattle.std.specs.Option.{is_some};
ghost use Rattle.std.specs.BTreeMap.{get};
ghost use Rattle.std.specs.Ordering.{nat_cmp};
ghost use Rattle.std.specs.Set.{is_member};
ghost use Rattle.std.specs.List.Sorted.{IsStrictlySortedBy};
ghost use Rattle.sector_disk.specs.Trail.{after_sync};
ghost use Rattle.sector_disk.specs.Memory.{zero_moment, zeros};
ghost use Rattle.sector_disk.specs.Settled.{settled_place};
ghost use Rattle.sector_disk.specs.Sectors.{settled_of, moment_of, synced_content, IsAsBefore, IsSectorWritten};

use crate::heap::HeapSector;
use crate::settled::Settled;
use crate::{NoMemory, SECTOR_BYTES, Sector};
use std::alloc::Global;
use std::collections::BTreeMap;

/// The bytes of a sector that was never written.
#[tactic(auto, unfolding(crate::specs::Memory::zeros))]
pub(crate) fn empty_sector() -> Sector
    ensures { result ≡ zeros }
{
    [0; SECTOR_BYTES as usize]
}

/// Makes the buffer the bytes of a sector that was never written.
#[tactic(auto, unfolding(crate::specs::Memory::zeros))]
fn clear(buffer: &mut Sector)
    ensures { buffer.new ≡ zeros }
{
    *buffer = [0; SECTOR_BYTES as usize];
}

/// A sector that was written.
#[derive(Drop)]
pub(crate) struct KnownSector {
    /// The bytes that were written last.
    pub(crate) bytes: HeapSector,

    /// Where the bytes that it had at the last sync are, if it's pending.
    pub(crate) place: usize,
}

/// Gives a sector that was written other bytes, and keeps those that it had as the ones of the last sync where none are
/// kept yet. The bytes are copied once. `NoMemory`: there was none to keep the old ones, and nothing is changed.
fn overwrite(
    alloc: Global,
    n: u32,
    sector: &mut KnownSector,
    settled: &mut Settled,
    bytes: &Sector,
) -> Result<(), NoMemory>
    ensures put { OnOk result (sector.new.bytes ≡ bytes.now) }
    ensures kept { OnOk result (is_some (settled_place settled.old n sector.old.place) ≡ true
        → (settled.new ≡ settled.old) × (sector.new.place ≡ sector.old.place)) }
    ensures keeps { OnOk result (is_some (settled_place settled.old n sector.old.place) ≡ false
        → (settled.new ≡ settled.old ++ (n, sector.old.bytes) ∷ [])
        × (sector.new.place ≡ length settled.old)) }
    ensures refused { OnErr result (settled.new ≡ settled.old) }
    ensures left { OnErr result (sector.new ≡ sector.old) }
{
    if !settled.holds(n, sector.place) {
        sector.place = settled.keep(alloc, n, &mut sector.bytes)?;
    }
    sector.bytes.set(bytes);
    Ok(())
}

/// Adds a number, if it is wanted. `NoMemory`: an allocation was refused.
fn note_if(found: &mut Vec<u32>, n: u32, is_wanted: bool) -> Result<(), NoMemory>
    ensures { OnOk result (found.new.items
        ≡ found.old.items ++ (if is_wanted then n ∷ [] else [])) }
{
    if is_wanted {
        found.push(n)?;
    }
    Ok(())
}

/// The bytes of the sectors.
#[derive(Drop)]
pub(crate) struct Sectors {
    alloc: Global,

    /// The sectors that were written.
    pub(crate) latest: BTreeMap<u32, KnownSector>,

    /// Of each pending sector, the bytes that it had at the last sync.
    pub(crate) settled: Settled,
}

impl Sectors {
    /// All zeros, with nothing pending.
    pub(crate) fn new(alloc: Global) -> Sectors
        ensures reads { moment_of result ≡ zero_moment }
        ensures settled { synced_content result ≡ zero_moment.reads }
    {
        Sectors {
            alloc,
            latest: BTreeMap::new(alloc),
            settled: Settled::new(alloc),
        }
    }

    /// What is kept of a pending sector as it was at the last sync. None where it isn't pending.
    #[tactic(auto, unfolding(crate::specs::Sectors::settled_of))]
    fn settled_of(&self, n: u32) -> Option<&HeapSector>
        ensures { MatchOption result (settled_of self.now n ≡ None)
            (λ sector. settled_of self.now n ≡ Some sector.now) }
    {
        let sector = self.latest.get(&n)?;
        self.settled.get(n, sector.place)
    }

    /// Copies to the buffer the bytes of sector `n` as they were written last, zeros where it never was.
    #[tactic(auto, unfolding(crate::specs::Sectors::moment_of))]
    pub(crate) fn copy_latest(&self, n: u32, buffer: &mut Sector)
        ensures { buffer.new ≡ (moment_of self.now).reads n }
    {
        match self.latest.get(&n) {
            Some(sector) => sector.bytes.copy_to(buffer),
            None => clear(buffer),
        }
    }

    /// Copies to the buffer the bytes that sector `n` had at the last sync.
    #[tactic(auto, unfolding(crate::specs::Sectors::moment_of, crate::specs::Sectors::synced_content))]
    pub(crate) fn copy_settled(&self, n: u32, buffer: &mut Sector)
        ensures { buffer.new ≡ synced_content self.now n }
    {
        match self.settled_of(n) {
            Some(sector) => sector.copy_to(buffer),
            None => self.copy_latest(n, buffer),
        }
    }

    /// The bytes of sector `n` as they were written last, zeros where it never was.
    pub(crate) fn latest(&self, n: u32) -> Sector
        ensures { result ≡ (moment_of self.now).reads n }
    {
        let mut bytes = empty_sector();
        self.copy_latest(n, &mut bytes);
        bytes
    }

    /// Whether sector `n` was written after the last sync.
    #[tactic(auto, unfolding(crate::specs::Sectors::moment_of))]
    pub(crate) fn is_pending(&self, n: u32) -> bool
        ensures { result ≡ (moment_of self.now).pending n }
    {
        match self.settled_of(n) {
            Some(_) => true,
            None => false,
        }
    }

    /// Gives sector `n` room for its bytes, which stay as they are. `NoMemory`: there was no memory for them.
    fn make_room(&mut self, n: u32) -> Result<(), NoMemory>
        ensures room { OnOk result (is_some (get nat_cmp self.new.latest n) ≡ true) }
        ensures same { IsAsBefore self.old self.new }
    {
        if self.latest.contains_key(&n) {
            return Ok(());
        }
        let bytes = HeapSector::new(self.alloc, &empty_sector())?;
        let place = self.settled.len();
        let Ok(_) = self.latest.insert(n, KnownSector { bytes, place }) else {
            return Err(NoMemory);
        };
        Ok(())
    }

    /// Writes sector `n` where it has room for its bytes, and returns whether it has. Those that it had at the last
    /// sync are kept from now on. `NoMemory`: there was no memory for them, and nothing is changed.
    fn put(&mut self, n: u32, bytes: &Sector) -> Result<bool, NoMemory>
        ensures room { IfOk result (λ there. there ≡ is_some (get nat_cmp self.old.latest n)) }
        ensures absent { result ≡ Ok false → IsAsBefore self.old self.new }
        ensures written { result ≡ Ok true → IsSectorWritten self.old self.new n bytes.now }
        ensures refused { OnErr result (IsAsBefore self.old self.new) }
    {
        match self.latest.get_mut(&n) {
            Some(sector) => {
                overwrite(self.alloc, n, sector, &mut self.settled, bytes)?;
                Ok(true)
            }
            None => Ok(false),
        }
    }

    /// Writes sector `n`. `NoMemory`: there was no memory for it, and nothing is changed.
    pub(crate) fn write(&mut self, n: u32, bytes: &Sector) -> Result<(), NoMemory>
        ensures written { OnOk result (IsSectorWritten self.old self.new n bytes.now) }
        ensures refused { OnErr result (IsAsBefore self.old self.new) }
    {
        if self.put(n, bytes)? {
            return Ok(());
        }
        self.make_room(n)?;
        self.put(n, bytes)?;
        Ok(())
    }

    /// Settles every pending sector.
    pub(crate) fn sync(&mut self)
        ensures reads { moment_of self.new ≡ after_sync (moment_of self.old) }
        ensures settled { synced_content self.new ≡ (moment_of self.old).reads }
    {
        self.settled.clear();
    }

    /// The pending sectors, in rising order.
    pub(crate) fn pending_sectors(&self, alloc: Global) -> Result<Vec<u32>, NoMemory>
        ensures rising { IfOk result (λ v. IsStrictlySortedBy nat_cmp v.items) }
        ensures which { IfOk result (λ v. (n : ℕ)
            → is_member nat_eq v.items n ≡ (moment_of self.now).pending n) }
    {
        let mut found = Vec::new(alloc);
        for n in self.latest.keys() {
            note_if(&mut found, *n, self.is_pending(*n))?;
        }
        Ok(found)
    }
}
