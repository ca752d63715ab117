//! The disk whose sectors the host has, which it hands over some at a time.
ghost use Rattle.std.specs.Prelude.{◌≡◌, ◌+◌, ◌*◌, ◌-◌, ◌<◌, ◌≤◌, ◌^◌, length, IfOk, OnOk};
ghost use Rattle.sector_disk.specs.Trail.{now, written};
ghost use Rattle.page_disks.specs.Loading.{HasLoaded, disk_to_load, sector_of, whole_sectors};
ghost use Rattle.page_disks.specs.Recording.{blank_recording, trail_since};
ghost use Rattle.past_pages.specs.declared.parts.TheConstants.{PAST_SECTORS};

use crate::disk::RecordedDisk;
use desk_journal::NotingDisk;
use past_pages::PAST_SECTORS;
use sector_disk::{Disk, NoMemory, Sector};
use std::alloc::Global;

/// A disk of zeros, with room for a store and a past behind it. `NoMemory`: there was no memory for it.
pub fn blank_disk(alloc: Global) -> Result<RecordedDisk, NoMemory>
    ensures { IfOk result (λ d. d ≡ blank_recording PAST_SECTORS) }
{
    RecordedDisk::new(alloc, PAST_SECTORS)
}

/// The disk on which sectors were loaded, or one of zeros where none were, on which those from `first` on become these bytes.
/// `NoMemory`: there was no memory for it.
pub fn loaded_with(
    alloc: Global,
    loaded: Option<RecordedDisk>,
    first: u32,
    bytes: &[u8],
) -> Result<RecordedDisk, NoMemory>
    ensures { IfOk result (HasLoaded bytes.now first (disk_to_load loaded)) }
{
    let mut disk = disk_to_load(alloc, loaded)?;
    load_some(&mut disk, first, bytes)?;
    Ok(disk)
}

/// The disk on which sectors were loaded, or one of zeros. `NoMemory`: there was no memory for it.
fn disk_to_load(alloc: Global, loaded: Option<RecordedDisk>) -> Result<RecordedDisk, NoMemory>
    ensures { IfOk result (λ disk. disk ≡ disk_to_load loaded) }
{
    match loaded {
        Some(disk) => Ok(disk),
        None => blank_disk(alloc),
    }
}

/// The sectors from `first` on become these bytes, a sector after another. Nothing is pending then, and the disk forgets its
/// calls. Bytes behind the last whole sector, and behind the disk, are left out. `NoMemory`: there was no memory for them.
fn load_some(disk: &mut RecordedDisk, first: u32, bytes: &[u8]) -> Result<(), NoMemory>
    ensures { OnOk result (HasLoaded bytes.now first disk.old disk.new) }
{
    for n in 0..sectors_in(bytes, first, disk.sectors()) {
        load(disk, first, n, bytes)?;
    }
    match disk.sync() {
        Ok(()) => {
            disk.forget();
            Ok(())
        }
        Err(_) => Err(NoMemory),
    }
}

/// How many whole sectors the bytes are, as far as a disk of so many sectors has them from `first` on.
fn sectors_in(bytes: &[u8], first: u32, sectors: u32) -> u32
    ensures count { result ≡ whole_sectors bytes.now first sectors }
    ensures few { result ≤ sectors - first }
    ensures there { 1024 * result ≤ length bytes.now }
{
    let room = sectors.saturating_sub(first);
    (bytes.len() / 1024).min(room as usize) as u32
}

/// Writes one sector of the bytes to the disk, which forgets the call. `NoMemory`: there was no memory for it.
fn load(disk: &mut RecordedDisk, first: u32, n: u32, bytes: &[u8]) -> Result<(), NoMemory>
    requires room { first + n < disk.old.size }
    requires numbered { first + n < 2 ^ 32 }
    requires there { 1024 * n + 1024 ≤ length bytes.now }
    ensures size { disk.new.size ≡ disk.old.size }
    ensures written { OnOk result (now (trail_since disk.new)
        ≡ written (now (trail_since disk.old)) (first + n) (sector_of bytes.now n)) }
{
    let at = 1024 * n as usize;
    let mut sector: Sector = [0; 1024];
    sector.copy_from_slice(&bytes[at..at + 1024]);
    let result = disk.write(first + n, &sector);
    disk.forget();
    match result {
        Ok(()) => Ok(()),
        Err(_) => Err(NoMemory),
    }
}
