//! A source of characters over a disk, for the time of a call.
ghost use Rattle.std.specs.Prelude.{◌≡◌, ◌≤◌, ◌+◌};
ghost use Rattle.sector_disk.specs.Trail.{now};
ghost use Rattle.char_pages.specs.Pages.{base_of, saved_sectors, IsTrueOf};

use crate::pages::Pages;
use char_file::{CharSource, NoMemory};
use sector_disk::{Disk, Fault};

/// A source of which the first characters stand on a disk. It borrows the disk, which it only reads, and the pages, and
/// its last call leaves both as they are found after it. It is honest exactly where the disk is, and what is in memory
/// of an honest disk is what stands there.
#[derive(Drop)]
pub struct Paged<'a, D: Disk> {
    disk: &'a mut D,
    pages: &'a mut Pages,
    ghost on_disk: { base_of pages.now + saved_sectors pages.now ≤ D.size disk.now },
    ghost told: { D.honest disk.now → IsTrueOf (now (D.trail disk.now)).reads pages.now },
}

impl<'a, D: Disk> Paged<'a, D> {
    /// A source over these.
    pub fn over(disk: &'a mut D, pages: &'a mut Pages) -> Self
        requires on_disk { base_of pages.old + saved_sectors pages.old ≤ D.size disk.old }
        requires told { D.honest disk.old
            → IsTrueOf (now (D.trail disk.old)).reads pages.old }
        ensures disk { result.disk ≡ disk.entry }
        ensures pages { result.pages ≡ pages.entry }
    {
        Paged { disk, pages }
    }
}

impl<'a, D: Disk> CharSource for Paged<'a, D> {
    ghost use Rattle.sector_disk.specs.Trail.{now};
    ghost use Rattle.char_pages.specs.Pages.{paged_characters};
    ghost use Rattle.char_pages.specs.Ground.{OnSamePages};
    ghost use Rattle.char_pages.specs.GroundLaws.{pages_self, pages_through};

    ghost characters = { λ s. paged_characters (now (D.trail s.disk.now)).reads s.pages.now };

    ghost failures = { λ s. D.Disk.failures s.disk.now };

    ghost honest = { λ s. D.Disk.honest s.disk.now };

    ghost same_ground = { λ a b. OnSamePages D.Disk a.disk.now b.disk.now a.pages.now b.pages.now
        a.disk.ghost_name b.disk.ghost_name a.pages.ghost_name b.pages.ghost_name };

    ghost ground_self = { λ s. pages_self };

    ghost ground_through = { λ a b c ab bc. pages_through ab bc };

    /// The character at an offset. `Fault`: the disk failed in this call.
    fn char_at(&mut self, offset: u32) -> Result<u8, Fault> {
        self.pages.char_over(self.disk, offset)
    }

    fn count_from(&mut self, offset: u32, most: u32, wanted: u8) -> Result<(u32, u32), Fault> {
        self.pages.count_over(self.disk, offset, most, wanted)
    }

    fn known_from(&self, offset: u32, few: u32, wanted: u8) -> Option<u32> {
        self.pages.known_over(offset, few, wanted)
    }

    fn len(&self) -> u32 {
        self.pages.len()
    }

    fn append(&mut self, bytes: &[u8]) -> Result<u32, NoMemory> {
        self.pages.append(bytes)
    }

    fn renew(&mut self, made: Vec<u8>) {
        self.pages.renew(made);
    }
}
