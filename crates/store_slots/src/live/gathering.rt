//! A desktop with all of its characters in memory, so that it rests on no disk.
ghost use Rattle.std.specs.Prelude.{◌≡◌, ◌+◌, ◌-◌, ◌*◌, ◌<◌, ◌≤◌, ◌++◌, length, IfOk, OnOk};
ghost use Rattle.store_layout.specs.Meaning.{area_bytes};
ghost use Rattle.store_slots.specs.Errors.{OfDesktop};
ghost use Rattle.store_slots.specs.Gathering.{IsInMemory};
ghost use Rattle.store_slots.specs.Live.{seen_live, IsLive, IsLiveOn};
ghost use Rattle.store_slots.specs.Words.{Content, Nowhere, now, IsConfined, FailsAs};

use super::LiveDesktop;
use crate::Error;
use crate::sector::blank_sector;
use char_pages::Pages;
use sector_disk::{Disk, SECTOR_BYTES};
use std::alloc::Global;
use store_layout::{AREA_SECTORS, AREAS, STORE_SECTORS, area_at, area_start};

/// Adds the bytes of sector n.
fn add_sector<D: Disk>(disk: &mut D, n: u32, bytes: &mut Vec<u8>) -> Result<(), Error>
    requires { n < D.size disk.old }
    ensures added { OnOk result (D.honest disk.old → bytes.new.items
        ≡ bytes.old.items ++ (now (D.trail disk.old)).reads n) }
    ensures long { OnOk result (length bytes.new.items ≡ length bytes.old.items + SECTOR_BYTES) }
    ensures kept { IsConfined D.size D.honest D.trail Nowhere disk.old disk.new }
    ensures faults { FailsAs Error.Fault OfDesktop result (D.failures disk.old)
        (D.failures disk.new) }
{
    let mut sector = blank_sector();
    disk.read(n, &mut sector)?;
    bytes.extend_from_slice(&sector)?;
    Ok(())
}

/// The characters in the first sectors of an area, so many.
fn read_area<D: Disk>(alloc: Global, disk: &mut D, area: u32, count: u32) -> Result<Vec<u8>, Error>
    requires room { STORE_SECTORS ≤ D.size disk.old }
    requires low { area < AREAS }
    requires few { count ≤ AREA_SECTORS }
    ensures bytes { IfOk result (λ bytes. D.honest disk.old → bytes.items
        ≡ area_bytes (now (D.trail disk.old)).reads area count) }
    ensures long { IfOk result (λ bytes. length bytes.items ≡ SECTOR_BYTES * count) }
    ensures kept { IsConfined D.size D.honest D.trail Nowhere disk.old disk.new }
    ensures faults { FailsAs Error.Fault OfDesktop result (D.failures disk.old)
        (D.failures disk.new) }
{
    let mut bytes = Vec::new(alloc);
    for k in 0..count {
        add_sector(disk, area_at(area, k), &mut bytes)?;
    }
    Ok(bytes)
}

impl LiveDesktop {
    /// The same desktop with all of its characters in memory, in that area, in which none of them stands yet. Those of
    /// the disk are read, one sector after another. No line of a screen is kept.
    pub fn gathered<D: Disk>(
        self,
        alloc: Global,
        disk: &mut D,
        area: u32,
    ) -> Result<LiveDesktop, Error>
        requires on { IsLiveOn D.Disk disk.old self }
        requires room { STORE_SECTORS ≤ D.size disk.old }
        requires low { area < AREAS }
        ensures gathered { IfOk result IsInMemory }
        ensures kept { IfOk result (λ live. (live.desktop ≡ self.desktop) × (live.area ≡ area)) }
        // whatever a disk reads, it shows what it showed
        ensures shown { IfOk result (λ live. D.honest disk.old → (c : Content)
            → seen_live c live ≡ seen_live (now (D.trail disk.old)).reads self) }
        ensures disk { IsConfined D.size D.honest D.trail Nowhere disk.old disk.new }
        ensures faults { FailsAs Error.Fault OfDesktop result (D.failures disk.old)
            (D.failures disk.new) }
    {
        let LiveDesktop {
            desktop,
            pages,
            area: own,
            lines: _,
        } = self;
        let mut all = read_area(alloc, disk, own, pages.saved_sectors())?;
        all.extend_from_slice(pages.rest())?;
        let gathered = Pages::new(alloc, area_start(area), 0, &all)?;
        Ok(LiveDesktop::over(alloc, desktop, gathered, area))
    }

    /// The area beside the one in which its characters stand.
    pub fn other_area(&self) -> u32
        requires { IsLive self.now }
        ensures other { result ≡ 1 - self.now.area }
        ensures low { result < AREAS }
    {
        1 - self.area
    }

    /// The same desktop, with its characters in memory, in that area. It takes no memory.
    pub fn in_area(self, area: u32) -> LiveDesktop
        requires gathered { IsInMemory self }
        requires low { area < AREAS }
        ensures gathered { IsInMemory result }
        ensures area { result.area ≡ area }
        ensures kept { result.desktop ≡ self.desktop }
        ensures shown { (c : Content) → seen_live c result ≡ seen_live c self }
    {
        let mut moved = self;
        moved.pages.settle(area_start(area), 0);
        moved.area = area;
        moved
    }
}
