//! A disk beside another one.
ghost use Rattle.std.specs.Prelude.{◌≡◌, ◌<◌, ◌≤◌, ℕ, false, IsTrue, OnOk, IfOk};
ghost use Rattle.sector_disk.specs.Trail.{now, Nowhere};
ghost use Rattle.sector_disk.specs.Confined.{IsConfined};
ghost use Rattle.store_documents.specs.Copying.{FailsWithEither, HaveSame};

use sector_disk::{Disk, Fault, SECTOR_BYTES};

/// Whoever is told how far a copy has come.
pub trait Watch {
    /// So many sectors were copied.
    fn seen(&mut self, count: u32);
}

/// Writes the first sectors of a disk into another one, so many of them, and waits until they are there for good. The
/// watcher is told of each.
///
/// `Fault` where either disk fails.
pub fn copy<D: Disk, E: Disk, W: Watch>(
    from: &mut D,
    to: &mut E,
    count: u32,
    watcher: &mut W,
) -> Result<(), Fault>
    requires from { count ≤ D.size from.old }
    requires to { count ≤ E.size to.old }
    ensures same { OnOk result (D.honest from.old → E.honest to.old
        → HaveSame count (now (D.trail from.old)).reads
        (now (E.trail to.new)).reads) }
    ensures settled { OnOk result (E.honest to.old → (n : ℕ) → n < count
        → (now (E.trail to.new)).pending n ≡ false) }
    ensures read { IsConfined D.size D.honest D.trail Nowhere from.old from.new }
    ensures written { IsConfined E.size E.honest E.trail (λ n. n < count) to.old to.new }
    ensures cause { FailsWithEither result (D.failures from.old) (D.failures from.new)
        (E.failures to.old) (E.failures to.new) }
{
    let mut sector = [0; SECTOR_BYTES as usize];
    for n in 0..count {
        from.read(n, &mut sector)?;
        to.write(n, &sector)?;
        watcher.seen(n + 1);
    }
    to.sync()
}

/// Whether the first sectors of two disks hold the same, so many of them.
///
/// `Fault` where either disk fails.
pub fn are_same<D: Disk, E: Disk>(first: &mut D, second: &mut E, count: u32) -> Result<bool, Fault>
    requires first { count ≤ D.size first.old }
    requires second { count ≤ E.size second.old }
    ensures same { IfOk result (λ same. IsTrue same → D.honest first.old → E.honest second.old
        → HaveSame count (now (D.trail first.old)).reads (now (E.trail second.old)).reads) }
    ensures other { IfOk result (λ same. same ≡ false → D.honest first.old → E.honest second.old
        → ¬ HaveSame count (now (D.trail first.old)).reads (now (E.trail second.old)).reads) }
    ensures read { IsConfined D.size D.honest D.trail Nowhere first.old first.new }
    ensures beside { IsConfined E.size E.honest E.trail Nowhere second.old second.new }
    ensures cause { FailsWithEither result (D.failures first.old) (D.failures first.new)
        (E.failures second.old) (E.failures second.new) }
{
    let mut one = [0; SECTOR_BYTES as usize];
    let mut other = [0; SECTOR_BYTES as usize];
    for n in 0..count {
        first.read(n, &mut one)?;
        second.read(n, &mut other)?;
        if one != other {
            return Ok(false);
        }
    }
    Ok(true)
}
