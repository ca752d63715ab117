//! Disks: worked rows, and a call of each kind where it succeeds and where it fails. What a file holds, the scripts
//! over files show.
use sector_disk::{Disk, FILE_SECTORS, Fault, Fuse, MemoryDisk, NoMemory, OneFault, Sector};
use std::alloc::Global;
use std::test::Fail;

/// The byte that a sector reads as all over, or 1 where it has several, in a buffer that held something else.
fn byte_of<K: Disk>(disk: &mut K, n: u32) -> Result<u8, Fault> {
    if n >= disk.sectors() {
        return Err(Fault);
    }
    let mut buffer = [0xff; 1024];
    disk.read(n, &mut buffer)?;
    Ok(common(&buffer))
}

/// The byte of which there are 1,024; 1 where there are several.
fn common(bytes: &Sector) -> u8 {
    if bytes.iter().all(|byte| *byte == bytes[0]) {
        bytes[0]
    } else {
        1
    }
}

/// Writes to each of the sectors its byte, all over.
fn fill<K: Disk>(disk: &mut K, sectors: &[(u32, u8)]) -> Result<(), Fault> {
    for (n, byte) in sectors {
        if *n >= disk.sectors() {
            return Err(Fault);
        }
        disk.write(*n, &[*byte; 1024])?;
    }
    Ok(())
}

/// The bytes of sectors 2, 7, 8, 9 and 50 as they are read, and as they were at the last sync.
fn bytes_of(disk: &mut MemoryDisk) -> Result<[[u8; 2]; 5], Fault> {
    let mut bytes = [[1; 2]; 5];
    for (both, n) in bytes.iter_mut().zip([2, 7, 8, 9, 50]) {
        both[0] = byte_of(disk, n)?;
        both[1] = byte_synced(disk, n);
    }
    Ok(bytes)
}

/// The byte of a sector as it was at the last sync; 1 where there is no such sector.
fn byte_synced(disk: &MemoryDisk, n: u32) -> u8 {
    let mut buffer = [0xff; 1024];
    if n >= disk.sectors() {
        return 1;
    }
    disk.synced(n, &mut buffer);
    common(&buffer)
}

/// Sectors 7 and 50 as all `a` at the last sync, and 2, 9 and 50 written as all `b` since.
fn worked_disk(alloc: Global) -> Result<MemoryDisk, Fail> {
    let mut disk = MemoryDisk::new(alloc, 100)?;
    fill(&mut disk, &[(7, b'a'), (50, b'a')])?;
    disk.sync()?;
    fill(&mut disk, &[(50, b'b'), (9, b'b'), (2, b'b'), (50, b'b')])?;
    Ok(disk)
}

/// Sectors of one byte each.
fn sectors_of(alloc: Global, pairs: &[(u32, u8)]) -> Result<Vec<(u32, Sector)>, NoMemory> {
    let mut sectors = Vec::new(alloc);
    for (n, byte) in pairs {
        sectors.push((*n, [*byte; 1024]))?;
    }
    Ok(sectors)
}

/// The bytes of an image of the worked disk, with these bytes all over pending sectors; nothing is pending in it.
fn image(alloc: Global, pairs: &[(u32, u8)]) -> Result<[[u8; 2]; 5], Fail> {
    let sectors = sectors_of(alloc, pairs)?;
    let mut image = worked_disk(alloc)?.crash(alloc, &sectors)?;
    let bytes = bytes_of(&mut image)?;
    if image.pending_sectors(alloc)?.is_empty() {
        Ok(bytes)
    } else {
        Err("something is pending".into())
    }
}

/// Of two pairs for one sector the last counts, and sectors that aren't pending stay.
#[test]
fn crash_images(rt: HostRuntime) -> Result<(), Fail> {
    let pairs = [(9, b'c'), (7, b'c'), (8, b'c'), (200, b'c'), (9, b'd')];
    assert!(rt; image(rt.alloc(), &pairs)? == [*b"bb", *b"aa", [0; 2], *b"dd", *b"bb"]);
    assert!(rt; image(rt.alloc(), &[])? == [*b"bb", *b"aa", [0; 2], *b"bb", *b"bb"]);
    Ok(())
}

#[test]
fn pending_sectors(rt: HostRuntime) -> Result<(), Fail> {
    let mut disk = worked_disk(rt.alloc())?;
    let bytes = bytes_of(&mut disk)?;
    assert!(rt; bytes == [[b'b', 0], *b"aa", [0; 2], [b'b', 0], *b"ba"]);
    let pending = disk.pending_sectors(rt.alloc())?;
    assert!(rt; pending.as_slice() == [2, 9, 50].as_slice());
    Ok(())
}

/// An image of a disk of full size and hundreds of writes, which must stay cheap.
fn one_image(alloc: Global, disk: &mut MemoryDisk, n: u32) -> Result<bool, Fail> {
    fill(disk, &[(n, b'b')])?;
    let mut image = disk.crash(alloc, &[(n, [b'c'; 1024])])?;
    disk.sync()?;
    Ok(byte_of(&mut image, n)? == b'c')
}

#[test]
fn many_images(rt: HostRuntime) -> Result<(), Fail> {
    let mut disk = MemoryDisk::new(rt.alloc(), FILE_SECTORS)?;
    for n in 0..500 {
        assert!(rt; one_image(rt.alloc(), &mut disk, 20 * n)?);
    }
    Ok(())
}

/// Which calls of two rounds of read, write and sync succeed.
fn successes<K: Disk>(disk: &mut K) -> [bool; 6] {
    let first = byte_of(disk, 3).is_ok();
    let second = fill(disk, &[(3, b'a')]).is_ok();
    let third = disk.sync().is_ok();
    let fourth = byte_of(disk, 3).is_ok();
    let fifth = fill(disk, &[(3, b'b')]).is_ok();
    let sixth = disk.sync().is_ok();
    [first, second, third, fourth, fifth, sixth]
}

/// What sector 3 reads then, and whether it is pending.
fn left(disk: MemoryDisk) -> Result<(u8, bool), Fault> {
    let mut disk = disk;
    Ok((byte_of(&mut disk, 3)?, disk.is_pending(3)))
}

/// The same calls over a disk of which one call fails, or each from that one on, and what is left.
fn over(alloc: Global, call: u64, once: bool) -> Result<([bool; 6], (u8, bool)), Fail> {
    let disk = MemoryDisk::new(alloc, 4)?;
    if once {
        let mut disk = OneFault::new(disk, call);
        let calls = successes(&mut disk);
        Ok((calls, left(disk.into_inner())?))
    } else {
        let mut disk = Fuse::new(disk, call);
        let calls = successes(&mut disk);
        Ok((calls, left(disk.into_inner())?))
    }
}

#[test]
fn failing_calls(rt: HostRuntime) -> Result<(), Fail> {
    let rows = [
        (0, false, ([false; 6], (0, false))),
        (
            2,
            false,
            ([true, true, false, false, false, false], (b'a', true)),
        ),
        (6, false, ([true; 6], (b'b', false))),
        (
            0,
            true,
            ([false, true, true, true, true, true], (b'b', false)),
        ),
        (
            2,
            true,
            ([true, true, false, true, true, true], (b'b', false)),
        ),
        (
            4,
            true,
            ([true, true, true, true, false, true], (b'a', false)),
        ),
        (
            5,
            true,
            ([true, true, true, true, true, false], (b'b', true)),
        ),
        (6, true, ([true; 6], (b'b', false))),
    ];
    for (call, once, wanted) in rows {
        assert!(rt; over(rt.alloc(), call, once)? == wanted);
    }
    Ok(())
}

/// Whether a write and a sync did what they returned, and nothing where they failed.
fn is_consistent(disk: &mut MemoryDisk, n: u32) -> Result<bool, Fault> {
    let written = fill(disk, &[(n, b'a')]).is_ok();
    let noted = disk.is_pending(n) == written;
    let seen = byte_of(disk, n)? == if written { b'a' } else { 0 };
    let settled = disk.sync().is_ok();
    let kept = disk.is_pending(n) == (written && !settled);
    let held = byte_synced(disk, n) == if written && settled { b'a' } else { 0 };
    Ok(noted && seen && kept && held)
}

/// A call that finds no memory changes nothing. To be run with each allocation failing in turn.
#[test]
fn refused_growth(rt: HostRuntime) -> Result<(), Fail> {
    let mut disk = MemoryDisk::new(rt.alloc(), 64)?;
    for n in 0..40 {
        assert!(rt; is_consistent(&mut disk, n)?);
    }
    Ok(())
}
