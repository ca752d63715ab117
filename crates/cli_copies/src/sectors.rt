//! The sectors of a store and of its past, copied onto another disk and compared.
ghost use Rattle.std.specs.Prelude.{◌≡◌, ◌<◌, ◌≤◌, ◌+◌, ◌⊎◌, ℕ, false, IsTrue, IfOk, OnOk};
ghost use Rattle.sector_disk.specs.Confined.{IsConfined};
ghost use Rattle.sector_disk.specs.Trail.{CountsFault, Nowhere, Only, now};
ghost use Rattle.store_documents.specs.Copying.{FailsWithEither};
ghost use Rattle.cli_copies.specs.Sectors.{HaveSameFrom, DiffersBetween, IsOfCopy, IsCopy, IsUnlike, WantsWrite};

use past_pages::PARTS;
use sector_disk::{Disk, FILE_SECTORS, Fault, SECTOR_BYTES, Sector};
use store_documents::{Watch, are_same, copy};

/// Writes a sector where the disk reads otherwise. So zeros that come to a hole of a sparse file leave it one.
///
/// `Fault` where the disk fails.
fn put<E: Disk>(disk: &mut E, n: u32, bytes: &Sector) -> Result<(), Fault>
    requires { n < E.size disk.old }
    ensures here { OnOk result (E.honest disk.old → (now (E.trail disk.new)).reads n ≡ bytes.now) }
    ensures sparse { IsConfined E.size E.honest E.trail
        (IsUnlike n bytes.now (now (E.trail disk.old)).reads) disk.old disk.new }
    ensures cause { CountsFault result (E.failures disk.old) (E.failures disk.new) }
{
    let mut there = [0; SECTOR_BYTES as usize];
    disk.read(n, &mut there)?;
    if there == *bytes {
        return Ok(());
    }
    disk.write(n, bytes)
}

/// Copies the sectors from `first` on up to `end` where they differ. The watcher is told of each.
///
/// `Fault` where either disk fails.
fn copy_changed<D: Disk, E: Disk, W: Watch>(
    from: &mut D,
    to: &mut E,
    first: u32,
    end: u32,
    watcher: &mut W,
) -> Result<(), Fault>
    requires order { first ≤ end }
    requires from { end ≤ D.size from.old }
    requires to { end ≤ E.size to.old }
    ensures same { OnOk result (D.honest from.old → E.honest to.old → HaveSameFrom first end
        (now (D.trail from.old)).reads (now (E.trail to.new)).reads) }
    ensures read { IsConfined D.size D.honest D.trail Nowhere from.old from.new }
    ensures sparse { IsConfined E.size E.honest E.trail
        (DiffersBetween (D.honest from.old) first end
        (now (D.trail from.old)).reads (now (E.trail to.old)).reads) to.old to.new }
    ensures cause { FailsWithEither result (D.failures from.old) (D.failures from.new)
        (E.failures to.old) (E.failures to.new) }
{
    let mut sector = [0; SECTOR_BYTES as usize];
    for n in first..end {
        from.read(n, &mut sector)?;
        put(to, n, &sector)?;
        watcher.seen(n + 1);
    }
    Ok(())
}

/// Copies a sector.
///
/// `Fault` where either disk fails.
fn copy_one<D: Disk, E: Disk>(from: &mut D, to: &mut E, n: u32) -> Result<(), Fault>
    requires from { n < D.size from.old }
    requires to { n < E.size to.old }
    ensures same { OnOk result (D.honest from.old → E.honest to.old
        → (now (E.trail to.new)).reads n ≡ (now (D.trail from.old)).reads n) }
    ensures read { IsConfined D.size D.honest D.trail Nowhere from.old from.new }
    ensures written { IsConfined E.size E.honest E.trail (Only n) to.old to.new }
    ensures cause { FailsWithEither result (D.failures from.old) (D.failures from.new)
        (E.failures to.old) (E.failures to.new) }
{
    let mut sector = [0; SECTOR_BYTES as usize];
    from.read(n, &mut sector)?;
    to.write(n, &sector)
}

/// Copies the sectors from `first` on up to `end`, and waits until they are there for good: those that differ, and the last
/// one, so that a file of the host's becomes as long.
///
/// `Fault` where either disk fails.
fn copy_behind<D: Disk, E: Disk, W: Watch>(
    from: &mut D,
    to: &mut E,
    first: u32,
    end: u32,
    watcher: &mut W,
) -> Result<(), Fault>
    requires some { first < end }
    requires from { end ≤ D.size from.old }
    requires to { end ≤ E.size to.old }
    ensures same { OnOk result (D.honest from.old → E.honest to.old → HaveSameFrom first end
        (now (D.trail from.old)).reads (now (E.trail to.new)).reads) }
    ensures settled { OnOk result (E.honest to.old → (n : ℕ)
        → (now (E.trail to.new)).pending n ≡ false) }
    ensures read { IsConfined D.size D.honest D.trail Nowhere from.old from.new }
    ensures sparse { IsConfined E.size E.honest E.trail
        (λ n. (n + 1 ≡ end) ⊎ DiffersBetween (D.honest from.old) first end
        (now (D.trail from.old)).reads (now (E.trail to.old)).reads n) to.old to.new }
    ensures cause { FailsWithEither result (D.failures from.old) (D.failures from.new)
        (E.failures to.old) (E.failures to.new) }
{
    copy_changed(from, to, first, end - 1, watcher)?;
    copy_one(from, to, end - 1)?;
    watcher.seen(end);
    to.sync()
}

/// Copies what stands before sector `end` of a store and its past onto another disk, and waits until it is there for good. All
/// sectors of the store are written, so that a file of the host's has room for them; of those behind, the ones that differ
/// and the last one, so that it stays sparse and becomes as long. The two sectors between tell of a pair of disks, and are
/// left as they are: a copy belongs to none. The watcher is told how far it has come.
///
/// `Fault` where either disk fails.
pub fn copy_whole<D: Disk, E: Disk, W: Watch>(
    from: &mut D,
    to: &mut E,
    end: u32,
    watcher: &mut W,
) -> Result<(), Fault>
    requires from { end ≤ D.size from.old }
    requires to { end ≤ E.size to.old }
    ensures same { OnOk result (D.honest from.old → E.honest to.old
        → IsCopy end (now (D.trail from.old)).reads (now (E.trail to.new)).reads) }
    ensures settled { OnOk result (E.honest to.old → (n : ℕ) → IsOfCopy end n
        → (now (E.trail to.new)).pending n ≡ false) }
    ensures read { IsConfined D.size D.honest D.trail Nowhere from.old from.new }
    ensures sparse { IsConfined E.size E.honest E.trail (WantsWrite (D.honest from.old) end
        (now (D.trail from.old)).reads (now (E.trail to.old)).reads) to.old to.new }
    ensures cause { FailsWithEither result (D.failures from.old) (D.failures from.new)
        (E.failures to.old) (E.failures to.new) }
{
    copy(from, to, FILE_SECTORS.min(end), watcher)?;
    if end <= PARTS {
        return Ok(());
    }
    copy_behind(from, to, PARTS, end, watcher)
}

/// Whether the sectors of two disks from `begin` on up to `end` hold the same.
///
/// `Fault` where either disk fails.
fn are_same_from<D: Disk, E: Disk>(
    first: &mut D,
    second: &mut E,
    begin: u32,
    end: u32,
) -> Result<bool, Fault>
    requires order { begin ≤ end }
    requires first { end ≤ D.size first.old }
    requires second { end ≤ E.size second.old }
    ensures same { IfOk result (λ same. IsTrue same → D.honest first.old → E.honest second.old
        → HaveSameFrom begin end (now (D.trail first.old)).reads
        (now (E.trail second.old)).reads) }
    ensures other { IfOk result (λ same. same ≡ false → D.honest first.old → E.honest second.old
        → ¬ HaveSameFrom begin end (now (D.trail first.old)).reads
        (now (E.trail second.old)).reads) }
    ensures read { IsConfined D.size D.honest D.trail Nowhere first.old first.new }
    ensures beside { IsConfined E.size E.honest E.trail Nowhere second.old second.new }
    ensures cause { FailsWithEither result (D.failures first.old) (D.failures first.new)
        (E.failures second.old) (E.failures second.new) }
{
    let mut one = [0; SECTOR_BYTES as usize];
    let mut other = [0; SECTOR_BYTES as usize];
    for n in begin..end {
        first.read(n, &mut one)?;
        second.read(n, &mut other)?;
        if one != other {
            return Ok(false);
        }
    }
    Ok(true)
}

/// Whether a disk has just what stands before sector `end` of a store and its past, as `copy_whole` copies it.
///
/// `Fault` where either disk fails.
pub fn is_whole_copy<D: Disk, E: Disk>(from: &mut D, other: &mut E, end: u32) -> Result<bool, Fault>
    requires from { end ≤ D.size from.old }
    requires beside { end ≤ E.size other.old }
    ensures same { IfOk result (λ same. IsTrue same → D.honest from.old → E.honest other.old
        → IsCopy end (now (D.trail from.old)).reads (now (E.trail other.old)).reads) }
    ensures other { IfOk result (λ same. same ≡ false → D.honest from.old → E.honest other.old
        → ¬ IsCopy end (now (D.trail from.old)).reads (now (E.trail other.old)).reads) }
    ensures read { IsConfined D.size D.honest D.trail Nowhere from.old from.new }
    ensures beside { IsConfined E.size E.honest E.trail Nowhere other.old other.new }
    ensures cause { FailsWithEither result (D.failures from.old) (D.failures from.new)
        (E.failures other.old) (E.failures other.new) }
{
    let same = are_same(from, other, FILE_SECTORS.min(end))?;
    if !same || end <= PARTS {
        return Ok(same);
    }
    are_same_from(from, other, PARTS, end)
}
