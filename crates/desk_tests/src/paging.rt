//! Characters of which the first stand on a disk: all of them read, a disk that fails, and characters that are added
//! and then given up.
ghost use Rattle.std.specs.Prelude.{◌≡◌, ◌≤◌, ◌+◌};
ghost use Rattle.sector_disk.specs.Trail.{now};
ghost use Rattle.char_pages.specs.Pages.{base_of, saved_sectors, IsTrueOf};

use char_file::CharSource;
use char_pages::{Paged, Pages};
use sector_disk::{Disk, Fault, MemoryDisk, OneFault, SECTOR_BYTES, Sector};
use std::alloc::Global;
use std::test::Fail;

/// The first sector with characters.
const BASE: u32 = 10;

/// How many sectors hold characters.
const SECTORS: u32 = 68;

/// How many characters stand in them.
const KEPT: u32 = 69_632;

/// How many characters there are.
const ALL: u32 = 70_200;

/// How many characters are in memory, where 64 sectors of the disk are.
const MOST_HELD: u32 = 66_104;

/// The character at an offset.
fn character(offset: u32) -> u8 {
    (offset % 251) as u8
}

/// Sector k of the characters.
fn sector(k: u32) -> Sector {
    let mut bytes = [0; SECTOR_BYTES as usize];
    for (at, byte) in bytes.iter_mut().enumerate() {
        *byte = character(SECTOR_BYTES.saturating_mul(k).saturating_add(at as u32));
    }
    bytes
}

/// A disk whose sectors from `BASE` on hold characters.
fn filled(alloc: Global) -> Result<MemoryDisk, Fail> {
    let mut disk = MemoryDisk::new(alloc, 100)?;
    for k in 0..SECTORS {
        if BASE + k < disk.sectors() {
            disk.write(BASE + k, &sector(k))?;
        }
    }
    Ok(disk)
}

/// The characters from an offset on.
fn tail(alloc: Global, from: u32) -> Result<Vec<u8>, Fail> {
    let mut tail = Vec::new(alloc);
    for offset in from.min(ALL)..ALL {
        tail.push(character(offset))?;
    }
    Ok(tail)
}

/// How many characters of a source are as they should be, and the offsets of those that could not be read: how many
/// they are, and the last of them.
fn count<S: CharSource>(source: &mut S) -> (u32, u32, u32) {
    let (mut right, mut faults, mut last): (u32, u32, u32) = (0, 0, 0);
    for offset in 0..ALL {
        if offset < source.len() {
            match source.char_at(offset) {
                Ok(byte) => right = right.saturating_add((byte == character(offset)) as u32),
                Err(Fault) => {
                    faults = faults.saturating_add(1);
                    last = offset;
                }
            }
        }
    }
    (right, faults, last)
}

/// The same of a new source over a disk, of the second of two readings where `again`, and how many characters are in
/// memory then.
fn counted<D: Disk>(
    alloc: Global,
    disk: &mut D,
    again: bool,
) -> Result<((u32, u32, u32), u32), Fail> {
    let tail = tail(alloc, KEPT)?;
    if tail.len() > 1000 || disk.sectors() < BASE + SECTORS {
        return Err("no room".into());
    }
    let mut pages = Pages::new(alloc, BASE, KEPT, &tail)?;
    let counted = count_over(disk, &mut pages, again);
    Ok((counted, pages.held()))
}

/// The same where the pages are there.
fn count_over<D: Disk>(disk: &mut D, pages: &mut Pages, again: bool) -> (u32, u32, u32)
    requires on_disk { base_of pages.old + saved_sectors pages.old ≤ D.size disk.old }
    requires told { D.honest disk.old
        → IsTrueOf (now (D.trail disk.old)).reads pages.old }
{
    let mut source = Paged::over(disk, pages);
    let first = count(&mut source);
    if again { count(&mut source) } else { first }
}

#[test]
fn all_characters_are_read_twice_and_few_are_in_memory(rt: HostRuntime) -> Result<(), Fail> {
    let mut disk = filled(rt.alloc())?;
    assert!(rt; counted(rt.alloc(), &mut disk, true)? == ((ALL, 0, 0), MOST_HELD));
    Ok(())
}

/// The same over a disk of which one call fails.
fn counted_once(alloc: Global, call: u64) -> Result<((u32, u32, u32), u32), Fail> {
    let mut disk = OneFault::new(filled(alloc)?, call);
    counted(alloc, &mut disk, false)
}

#[test]
fn one_failed_read_is_one_character_less(rt: HostRuntime) -> Result<(), Fail> {
    let table = [(0, 0), (1, 1024), (63, 64_512), (64, 65_536), (67, 68_608)];
    for (call, offset) in table {
        assert!(rt; counted_once(rt.alloc(), call)? == ((ALL - 1, 1, offset), MOST_HELD));
    }
    Ok(())
}

/// Adds two characters over a disk and reads the first one: where they were added.
fn add_two<D: Disk>(disk: &mut D, pages: &mut Pages) -> Result<u32, Fail>
    requires on_disk { base_of pages.old + saved_sectors pages.old ≤ D.size disk.old }
    requires told { D.honest disk.old
        → IsTrueOf (now (D.trail disk.old)).reads pages.old }
    ensures large { D.size disk.new ≡ D.size disk.old }
    ensures base { base_of pages.new ≡ base_of pages.old }
    ensures told { D.honest disk.new
        → IsTrueOf (now (D.trail disk.new)).reads pages.new }
{
    let mut source = Paged::over(disk, pages);
    if source.len() == 0 || source.len() > ALL {
        return Err("too long".into());
    }
    let _ = source.char_at(0);
    let bytes = [character(ALL - 2), character(ALL - 1)];
    Ok(source.append(&bytes)?)
}

/// Adds the last two characters to those before them, of which one sector stands on the disk; gives up those that fill
/// 67 sectors more, and counts. Where the two were added, what was counted, and how many are in memory.
fn settled<D: Disk>(alloc: Global, disk: &mut D) -> Result<(u32, (u32, u32, u32), u32), Fail> {
    let mut tail = tail(alloc, SECTOR_BYTES)?;
    tail.truncate((ALL - SECTOR_BYTES - 2) as usize);
    if disk.sectors() < BASE + SECTORS {
        return Err("no room".into());
    }
    let mut pages = Pages::new(alloc, BASE, SECTOR_BYTES, &tail)?;
    let added = add_two(disk, &mut pages)?;
    if pages.len() < KEPT || pages.len() - pages.rest().len() as u32 > KEPT {
        return Err("too few".into());
    }
    pages.settle(BASE, KEPT);
    let counted = count_over(disk, &mut pages, false);
    Ok((added, counted, pages.held()))
}

#[test]
fn added_characters_are_read_from_the_disk_once_they_are_settled(
    rt: HostRuntime,
) -> Result<(), Fail> {
    let mut disk = filled(rt.alloc())?;
    assert!(rt; settled(rt.alloc(), &mut disk)? == (ALL - 2, (ALL, 0, 0), MOST_HELD));
    Ok(())
}
