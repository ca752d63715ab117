//! Disks in files, over files in memory that move few bytes a call and are interrupted. What a file of the host does, the
//! scripts over files show.
use sector_disk::{Disk, Fault, FileDisk, HostError, HostFile, MemoryFile, RefusingFile, Sector};
use std::alloc::Global;
use std::test::Fail;

/// A sector of bytes that are all different from their neighbours'.
fn striped(first: u8) -> Sector {
    let mut bytes = [first; 1024];
    for (i, byte) in bytes.iter_mut().enumerate() {
        *byte = byte.wrapping_add((i % 251) as u8);
    }
    bytes
}

/// What sector `n` reads as, in a buffer that held something else.
fn read_from(disk: &mut FileDisk<MemoryFile>, n: u32) -> Result<Sector, Fault> {
    let mut buffer = [0xff; 1024];
    if n >= disk.sectors() {
        return Err(Fault);
    }
    disk.read(n, &mut buffer)?;
    Ok(buffer)
}

/// Writes sectors 2 and 0 of such a file, and then 2 again, and reads them and those beside them.
fn written_and_read(alloc: Global, more: u32, signals: bool) -> Result<[bool; 5], Fault> {
    let mut disk = FileDisk::new(MemoryFile::new(alloc, more, signals));
    for (n, first) in [(2, 7), (0, 9), (2, 40)] {
        if n >= disk.sectors() {
            return Err(Fault);
        }
        disk.write(n, &striped(first))?;
    }
    disk.sync()?;
    Ok([
        read_from(&mut disk, 0)? == striped(9),
        read_from(&mut disk, 1)? == [0; 1024],
        read_from(&mut disk, 2)? == striped(40),
        read_from(&mut disk, 3)? == [0; 1024],
        read_from(&mut disk, 15_620)? == [0; 1024],
    ])
}

#[test]
fn few_bytes_a_call(rt: HostRuntime) -> Result<(), Fail> {
    for more in [0, 1, 6, 1022, 1023, 5000] {
        for signals in [false, true] {
            assert_eq!(rt; written_and_read(rt.alloc(), more, signals)?, [true; 5]);
        }
    }
    Ok(())
}

/// A file of which the last sector is cut short.
fn cut_short(alloc: Global) -> Result<MemoryFile, HostError> {
    let mut file = MemoryFile::new(alloc, 100, false);
    file.write_at(&[5, 6, 7], 3 * 1024)?;
    Ok(file)
}

#[test]
fn zeros_behind_the_end(rt: HostRuntime) -> Result<(), Fail> {
    let mut disk = FileDisk::new(cut_short(rt.alloc())?);
    let mut wanted = [0; 1024];
    wanted[..3].copy_from_slice(&[5, 6, 7]);
    assert_eq!(rt; read_from(&mut disk, 3)? == wanted, true);
    assert_eq!(rt; read_from(&mut disk, 2)? == [0; 1024], true);
    Ok(())
}

/// The calls of a disk in a file whose second sync is refused: which of them are done.
fn done_after_a_refusal(alloc: Global) -> Result<[bool; 6], Fault> {
    let file = RefusingFile::new(MemoryFile::new(alloc, 5000, false), 1);
    let mut disk = FileDisk::new(file);
    let mut buffer = [0; 1024];
    disk.write(0, &striped(3))?;
    disk.sync()?;
    disk.write(1, &striped(4))?;
    Ok([
        disk.read(1, &mut buffer).is_ok() && buffer == striped(4),
        disk.sync().is_ok(),
        disk.sync().is_ok(),
        disk.read(0, &mut buffer).is_ok(),
        disk.write(2, &striped(5)).is_ok(),
        disk.sync().is_ok(),
    ])
}

#[test]
fn refused_sync(rt: HostRuntime) -> Result<(), Fail> {
    let wanted = [true, false, false, false, false, false];
    assert_eq!(rt; done_after_a_refusal(rt.alloc())?, wanted);
    Ok(())
}
