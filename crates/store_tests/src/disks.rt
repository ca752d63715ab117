//! Disks in memory with a store, and what is done to them, step by step.
ghost use Rattle.std.specs.Prelude.{◌≡◌, false};

use oberon_main::{
    CountedReader, CountedWriter, PlayEnd, STORE_SECTORS, Store, Version, check, play, refuse,
};
use sector_disk::{Disk, Fault, Fuse, MemoryDisk, OneFault, Sector};
use std::alloc::{AllocError, Global};
use std::process::Abort;

/// What is done to a disk.
#[derive(Clone, Copy)]
pub enum Step {
    /// A script is played over its store, which says then what it is.
    Play(&'static [u8]),
    /// The same over a disk that passes so many calls and fails all later ones.
    Fuse(u64, &'static [u8]),
    /// The same over a disk of which the call of this number fails alone.
    OneFault(u64, &'static [u8]),
    /// The files of these numbers are filed, from the first to the last one.
    Files(u8, u8),
    /// The marker is set so often.
    Marks(u32),
    /// A sector gets these bytes and zeros after them, and is synced.
    Put(u32, &'static [u8]),
    /// It is said what a sector has, from one byte on and before another.
    Tell(u32, usize, usize),
}

/// Opens the store on a disk, plays a script over it, and says of it that it can be used; or says why there is none.
/// The disk, once the store is closed.
pub fn played<D: Disk + Drop>(alloc: Global, disk: D, script: &[u8], said: &mut Vec<u8>) -> D {
    match Store::open(alloc, disk) {
        Err((error, disk)) => {
            refuse(&mut CountedWriter::new(said), &error);
            disk
        }
        Ok(mut store) => {
            say(alloc, &mut store, script, said);
            store.close()
        }
    }
}

/// Plays a script over a store, and says of it that it can be used where the script ends well.
fn say<D: Disk>(alloc: Global, store: &mut Store<D>, script: &[u8], said: &mut Vec<u8>)
    requires { store.old.must_reopen ≡ false }
{
    let mut writer = CountedWriter::new(said);
    if play(alloc, &mut CountedReader::new(script), &mut writer, store) == PlayEnd::Done {
        check(&mut writer, store);
    }
}

/// A new store of a version, closed.
pub fn new_store(alloc: Global, version: Version) -> Result<MemoryDisk, AllocError> {
    match Store::format_as(MemoryDisk::new(alloc, STORE_SECTORS)?, version) {
        Ok(disk) => Ok(disk),
        Err(_) => Err(AllocError),
    }
}

/// A sector that begins so, and has zeros after that.
pub fn beginning_with(prefix: &[u8]) -> Sector {
    let mut bytes = [0; 1024];
    for (byte, given) in bytes.iter_mut().zip(prefix) {
        *byte = *given;
    }
    bytes
}

/// Writes a sector and syncs.
pub fn put(disk: &mut MemoryDisk, n: u32, bytes: &Sector) -> Result<(), Fault> {
    if n >= disk.sectors() {
        return Err(Fault);
    }
    disk.write(n, bytes)?;
    disk.sync()
}

/// What a sector holds.
pub fn sector(disk: &mut MemoryDisk, n: u32) -> Sector {
    let mut bytes = [9; 1024];
    if n < disk.sectors() {
        disk.read(n, &mut bytes).unwrap_or(());
    }
    bytes
}

/// Adds the line that files 900 times a character of its own under the number of a file.
fn add_file(script: &mut Vec<u8>, k: u8) -> Result<(), AllocError> {
    script.extend_from_slice(&[b'f', b'i', b'l', b'e', b' ', b'F'])?;
    script.extend_from_slice(&[b'0' + k / 10 % 10, b'0' + k % 10, b' '])?;
    script.resize(script.len().saturating_add(900), b'0' + k % 79)?;
    script.push(b'\n')?;
    Ok(())
}

/// The lines that file the files from one number to another.
fn files(alloc: Global, first: u8, last: u8) -> Result<Vec<u8>, AllocError> {
    let mut script = Vec::new(alloc);
    for k in first..=last {
        add_file(&mut script, k)?;
    }
    Ok(script)
}

/// So many lines that set the marker.
fn marks(alloc: Global, count: u32) -> Result<Vec<u8>, AllocError> {
    let mut script = Vec::new(alloc);
    for _ in 0..count {
        script.extend_from_slice(b"mark 0 0\n")?;
    }
    Ok(script)
}

/// Does that to a disk. What is said is added.
fn done(
    alloc: Global,
    disk: MemoryDisk,
    step: Step,
    said: &mut Vec<u8>,
) -> Result<MemoryDisk, AllocError> {
    match step {
        Step::Play(script) => Ok(played(alloc, disk, script, said)),
        Step::Fuse(calls, script) => {
            Ok(played(alloc, Fuse::new(disk, calls), script, said).into_inner())
        }
        Step::OneFault(call, script) => {
            Ok(played(alloc, OneFault::new(disk, call), script, said).into_inner())
        }
        Step::Files(first, last) => written(alloc, disk, files(alloc, first, last), said),
        Step::Marks(count) => written(alloc, disk, marks(alloc, count), said),
        Step::Put(n, prefix) => overwritten(disk, n, prefix),
        Step::Tell(n, from, to) => told(disk, n, from, to, said),
    }
}

/// The disk after a script, where there was memory for it.
fn written(
    alloc: Global,
    disk: MemoryDisk,
    script: Result<Vec<u8>, AllocError>,
    said: &mut Vec<u8>,
) -> Result<MemoryDisk, AllocError> {
    let script = script?;
    Ok(played(alloc, disk, &script, said))
}

/// The disk with another sector.
fn overwritten(disk: MemoryDisk, n: u32, prefix: &[u8]) -> Result<MemoryDisk, AllocError> {
    let mut disk = disk;
    match put(&mut disk, n, &beginning_with(prefix)) {
        Ok(()) => Ok(disk),
        Err(Fault) => Err(AllocError),
    }
}

/// Says what a sector has from one byte on and before another.
fn told(
    disk: MemoryDisk,
    n: u32,
    from: usize,
    to: usize,
    said: &mut Vec<u8>,
) -> Result<MemoryDisk, AllocError> {
    let mut disk = disk;
    let bytes = sector(&mut disk, n);
    for byte in bytes.iter().take(to).skip(from) {
        said.push(*byte)?;
    }
    Ok(disk)
}

/// The disk after these steps. What is said is added.
pub fn after(
    alloc: Global,
    disk: MemoryDisk,
    steps: &[Step],
    said: &mut Vec<u8>,
) -> Result<MemoryDisk, AllocError> {
    let mut disk = disk;
    for step in steps {
        disk = done(alloc, disk, *step, said)?;
    }
    Ok(disk)
}

/// A new store after these steps.
pub fn store_after(
    alloc: Global,
    version: Version,
    steps: &[Step],
) -> Result<MemoryDisk, AllocError> {
    let mut said = Vec::new(alloc);
    after(alloc, new_store(alloc, version)?, steps, &mut said)
}

/// A new store of a version, what is done to it, and what is said of it then.
pub type Row = (Version, &'static [Step], &'static [Step], &'static [u8]);

/// What is said of a row.
fn said_of(alloc: Global, row: Row) -> Result<Vec<u8>, AllocError> {
    let (version, first, steps, _) = row;
    let mut said = Vec::new(alloc);
    after(alloc, store_after(alloc, version, first)?, steps, &mut said)?;
    Ok(said)
}

/// Asserts what is said of each row.
pub fn expect(rt: &impl Abort, alloc: Global, rows: &[Row]) -> Result<(), AllocError> {
    for row in rows {
        assert!(rt; said_of(alloc, *row)?.as_slice() == row.3);
    }
    Ok(())
}
