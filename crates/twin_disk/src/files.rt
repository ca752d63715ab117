//! Two files of the host as legs, and whether they hold the same, as far as large reads find it out.
ghost use Rattle.std.specs.Prelude.{◌≡◌, ◌<◌, ◌+◌, ◌*◌, ◌^◌, true, length, IfOk, IsTrue};
ghost use Rattle.sector_disk.specs.Trail.{Nowhere};
ghost use Rattle.sector_disk.specs.FileTrail.{IsFileConfined};
ghost use Rattle.twin_disk.specs.Copying.{ReadSame};
ghost use Rattle.twin_disk.specs.Files.{AgreeFrom, AgreeUpTo};

use sector_disk::{Disk, FileDisk, HostFile, SECTOR_BYTES};
use std::alloc::{AllocError, Global};

/// How many sectors of each file are compared at one time.
const RUN_SECTORS: u32 = 64;

/// How many bytes these have.
const RUN_BYTES: u32 = 65_536;

/// Two files as legs.
#[derive(Drop)]
pub struct FileLegs<F: HostFile, G: HostFile> {
    pub first: FileDisk<F>,
    pub second: FileDisk<G>,

    /// Whether it was found that all their sectors before those of the flags read the same.
    pub same: bool,
}

/// Two files as legs, with a sector for the flag and one for the mark behind the first `sectors` ones, and whether these were
/// found to read the same. Nothing is written. It isn't found where the host refuses a read, interrupts it or gives fewer
/// bytes than asked, nor without memory for what is read.
pub fn file_legs<F: HostFile, G: HostFile>(
    alloc: Global,
    first: F,
    second: G,
    sectors: u32,
) -> FileLegs<F, G>
    requires first { F.intact first ≡ true }
    requires second { G.intact second ≡ true }
    requires few { sectors + 2 < 2 ^ 32 }
    ensures first { ⟦<FileDisk<F> as Disk>⟧.size result.first ≡ sectors + 2 }
    ensures second { ⟦<FileDisk<G> as Disk>⟧.size result.second ≡ sectors + 2 }
    ensures same { IsTrue result.same → ReadSame ⟦<FileDisk<F> as Disk>⟧ ⟦<FileDisk<G> as Disk>⟧
        sectors result.first result.second }
{
    let mut first = first;
    let mut second = second;
    let same = hold_same(alloc, &mut first, &mut second, sectors);
    FileLegs {
        first: FileDisk::with_sectors(first, sectors + 2),
        second: FileDisk::with_sectors(second, sectors + 2),
        same,
    }
}

/// Whether the first sectors of two files were found to hold the same.
fn hold_same<F: HostFile, G: HostFile>(
    alloc: Global,
    one: &mut F,
    other: &mut G,
    sectors: u32,
) -> bool
    requires one { F.intact one.old ≡ true }
    requires other { G.intact other.old ≡ true }
    ensures one { IsFileConfined F.honest F.trail Nowhere one.old one.new
        × (F.intact one.new ≡ true) }
    ensures other { IsFileConfined G.honest G.trail Nowhere other.old other.new
        × (G.intact other.new ≡ true) }
    ensures same { IsTrue result → F.honest one.new → G.honest other.new
        → AgreeUpTo (SECTOR_BYTES * sectors) (F.trail one.new) (G.trail other.new) }
{
    match (run_of_zeros(alloc), run_of_zeros(alloc)) {
        (Ok(mut first), Ok(mut second)) => hold_same_by(
            one,
            other,
            sectors,
            first.as_mut_slice(),
            second.as_mut_slice(),
        ),
        _ => false,
    }
}

/// Room for what is read at one time.
fn run_of_zeros(alloc: Global) -> Result<Vec<u8>, AllocError>
    ensures { IfOk result (λ run. length run.items ≡ RUN_BYTES) }
{
    let run = vec![in alloc; 0; RUN_BYTES as usize]?;
    Ok(run)
}

/// The same by way of two buffers.
fn hold_same_by<F: HostFile, G: HostFile>(
    one: &mut F,
    other: &mut G,
    sectors: u32,
    first: &mut [u8],
    second: &mut [u8],
) -> bool
    requires one { F.intact one.old ≡ true }
    requires other { G.intact other.old ≡ true }
    requires long { length first.old ≡ RUN_BYTES }
    requires as_long { length second.old ≡ RUN_BYTES }
    ensures one { IsFileConfined F.honest F.trail Nowhere one.old one.new
        × (F.intact one.new ≡ true) }
    ensures other { IsFileConfined G.honest G.trail Nowhere other.old other.new
        × (G.intact other.new ≡ true) }
    ensures same { IsTrue result → F.honest one.new → G.honest other.new
        → AgreeUpTo (SECTOR_BYTES * sectors) (F.trail one.new) (G.trail other.new) }
{
    let runs = sectors / RUN_SECTORS;
    for n in 0..runs {
        if !is_run_same(one, other, first, second, n as u64 * RUN_BYTES as u64) {
            return false;
        }
    }
    let rest = ((sectors % RUN_SECTORS) * SECTOR_BYTES) as usize;
    is_run_same(
        one,
        other,
        &mut first[..rest],
        &mut second[..rest],
        runs as u64 * RUN_BYTES as u64,
    )
}

/// Whether two files were found to hold the same from an offset on, as many bytes as two buffers have room for.
fn is_run_same<F: HostFile, G: HostFile>(
    one: &mut F,
    other: &mut G,
    first: &mut [u8],
    second: &mut [u8],
    offset: u64,
) -> bool
    requires one { F.intact one.old ≡ true }
    requires other { G.intact other.old ≡ true }
    ensures one { IsFileConfined F.honest F.trail Nowhere one.old one.new
        × (F.intact one.new ≡ true) }
    ensures other { IsFileConfined G.honest G.trail Nowhere other.old other.new
        × (G.intact other.new ≡ true) }
    ensures same { IsTrue result → F.honest one.new → G.honest other.new
        → AgreeFrom offset (length first.new) (F.trail one.new) (G.trail other.new) }
{
    let Ok(got) = one.read_at(first, offset) else {
        return false;
    };
    let Ok(more) = other.read_at(second, offset) else {
        return false;
    };
    got == first.len() && more == got && &*second == &*first
}
