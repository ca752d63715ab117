//! The bytes that pending sectors had at the last sync.
//!
//! Each of them has a place of its own, which its sector is told. A clause sees the list of what is kept, each with the
//! number of its sector, by their places.
ghost use Rattle.std.specs.Prelude.{◌≡◌, ◌<◌, ◌≤◌, [], ◌∷◌, ◌++◌, length, take, Some, None, IfOk, OnOk, OnErr};
ghost use Rattle.std.specs.Prelude.{MatchOption};
ghost use Rattle.std.specs.Option.{is_some};
ghost use Rattle.sector_disk.specs.Settled.{settled_place};

use crate::NoMemory;
use crate::heap::HeapSector;
use crate::sectors::empty_sector;
use std::alloc::Global;
use std::marker::Model;
use std::mem;

/// How much memory for bytes of sectors is kept at most when these are given up.
const SPARE_SECTORS: usize = 64;

/// What is kept, of as many sectors as are pending. The memory behind that can be used again.
#[derive(Drop)]
pub(crate) struct Settled {
    kept: Vec<(u32, HeapSector)>,
    used: usize,
}

impl Model for Settled {
    ghost use Rattle.std.specs.Prelude.{◌≤◌, ℕ, List, length, take};

    ghost Value = { List (ℕ × List ℕ) };

    ghost view = { λ s. take s.used s.kept.items };

    ghost invariant = { λ s. s.used ≤ length s.kept.items };
}

impl Settled {
    /// Nothing is kept.
    pub(crate) fn new(alloc: Global) -> Settled
        ensures { result ≡ [] }
    {
        Settled {
            kept: Vec::new(alloc),
            used: 0,
        }
    }

    /// How much is kept.
    pub(crate) fn len(&self) -> usize
        ensures { result ≡ length self.now }
    {
        self.used
    }

    /// What is kept of sector `n`, if it is at this place.
    pub(crate) fn get(&self, n: u32, place: usize) -> Option<&HeapSector>
        ensures { MatchOption result (settled_place self.now n place ≡ None)
            (λ sector. settled_place self.now n place ≡ Some sector.now) }
    {
        if place >= self.used {
            return None;
        }
        let (number, sector) = &self.kept[place];
        if *number == n { Some(sector) } else { None }
    }

    /// Whether the bytes of sector `n` are kept at this place.
    pub(crate) fn holds(&self, n: u32, place: usize) -> bool
        ensures { result ≡ is_some (settled_place self.now n place) }
    {
        match self.get(n, place) {
            Some(_) => true,
            None => false,
        }
    }

    /// Keeps the bytes of sector `n` in the next place, which is returned, and leaves memory for others in their place.
    /// `NoMemory`: there was none, and nothing is changed.
    pub(crate) fn keep(
        &mut self,
        alloc: Global,
        n: u32,
        sector: &mut HeapSector,
    ) -> Result<usize, NoMemory>
        ensures place { IfOk result (λ place. place ≡ length self.old) }
        ensures kept { IfOk result (λ place. self.new ≡ self.old ++ (n, sector.old) ∷ []) }
        ensures refused { OnErr result (self.new ≡ self.old) }
        ensures left { OnErr result (sector.new ≡ sector.old) }
    {
        let place = self.used;
        make_room(alloc, &mut self.kept, place)?;
        exchange(&mut self.kept[place], n, sector);
        self.used = place + 1;
        Ok(place)
    }

    /// Gives up all that is kept, but not the memory of the first 64.
    pub(crate) fn clear(&mut self)
        ensures { self.new ≡ [] }
    {
        self.used = 0;
        self.kept.truncate(SPARE_SECTORS);
    }
}

/// Makes memory for one more than `used`, where there is none. `NoMemory`: there was none, and nothing is changed.
fn make_room(alloc: Global, kept: &mut Vec<(u32, HeapSector)>, used: usize) -> Result<(), NoMemory>
    requires { used ≤ length kept.old.items }
    ensures room { OnOk result (used < length kept.new.items) }
    ensures fits { used ≤ length kept.new.items }
    ensures same { take used kept.new.items ≡ take used kept.old.items }
{
    if used == kept.len() {
        let sector = HeapSector::new(alloc, &empty_sector())?;
        kept.push((0, sector))?;
    }
    Ok(())
}

/// Keeps a sector under its number, and leaves the bytes that were there.
fn exchange(place: &mut (u32, HeapSector), n: u32, sector: &mut HeapSector)
    ensures { place.new ≡ (n, sector.old) }
{
    place.0 = n;
    mem::swap(&mut place.1, sector);
}
