//! Streams of bytes over the sectors of a disk, through the bounds.
ghost use Rattle.std.specs.Prelude.{◌≡◌};

use image_format::{ByteSink, ByteSource};
use sector_disk::{Disk, Fault, MemoryDisk};
use std::alloc::Global;
use std::test::Fail;
use store_layout::{Draining, Filling, SectorSink, SectorSource};

/// Puts the bytes in two parts, of which the first is so long.
fn put_parts<S: ByteSink>(sink: &mut S, bytes: &[u8], cut: usize) -> Result<(), Fault>
    ensures { S.same_ground sink.old sink.new }
{
    let (front, rest) = bytes.split_at(cut.min(bytes.len()));
    sink.put(front)?;
    sink.put(rest)?;
    Ok(())
}

/// How many of the bytes of a source come as these do.
fn count_same<S: ByteSource>(source: &mut S, bytes: &[u8]) -> Result<usize, Fault> {
    for (n, byte) in bytes.iter().enumerate() {
        if source.get()? != Some(*byte) {
            return Ok(n);
        }
    }
    Ok(bytes.len())
}

/// Fills the three sectors from sector 2 on with the bytes, put in three parts.
fn fill(disk: &mut MemoryDisk, bytes: &[u8]) -> Result<(), Fault> {
    if disk.sectors() < 5 {
        return Err(Fault);
    }
    let (front, rest) = bytes.split_at(bytes.len() / 2);
    let mut filling = Filling::new(2, 3);
    filling.put_over(disk, front)?;
    put_parts(&mut SectorSink::over(disk, &mut filling), rest, 1000)?;
    filling.finish(disk)
}

/// How many of the bytes come out of the three sectors from sector 2 on.
fn drain(disk: &mut MemoryDisk, bytes: &[u8]) -> Result<usize, Fault> {
    if disk.sectors() < 5 {
        return Err(Fault);
    }
    let mut draining = Draining::new(2, 3072);
    count_same(&mut SectorSource::over(disk, &mut draining), bytes)
}

/// Fills sectors of a new disk with so many bytes, of which none is zero. How many come out again, and how many
/// sectors were written.
fn streamed(alloc: Global, count: usize) -> Result<(usize, usize), Fail> {
    let mut disk = MemoryDisk::new(alloc, 7)?;
    let mut bytes = [0; 4000];
    for (n, byte) in bytes.iter_mut().enumerate() {
        *byte = (n % 250) as u8 + 1;
    }
    fill(&mut disk, &bytes[..count.min(4000)])?;
    let same = drain(&mut disk, &bytes)?;
    Ok((same, disk.pending_sectors(alloc)?.len()))
}

#[test]
fn bytes_come_out_of_the_sectors_that_they_filled(rt: HostRuntime) -> Result<(), Fail> {
    let table = [
        (0, (0, 1)),
        (1, (1, 1)),
        (1023, (1023, 1)),
        (1024, (1024, 1)),
        (1025, (1025, 2)),
        (3072, (3072, 3)),
        (4000, (3072, 3)),
    ];
    for (count, wanted) in table {
        assert!(rt; streamed(rt.alloc(), count)? == wanted);
    }
    Ok(())
}
