//! A twin of two disks.
ghost use Rattle.std.specs.Prelude.{◌≡◌, ◌<◌, ◌+◌, ◌↔◌, ℕ, IfOk, IsTrue};
ghost use Rattle.sector_disk.specs.Trail.{now};
ghost use Rattle.twin_disk.specs.Closing.{KeepsMark};
ghost use Rattle.twin_disk.specs.Copying.{HoldSame};
ghost use Rattle.twin_disk.specs.Survival.{first_leg, second_leg};

use crate::copying::mirror;
use crate::flags::Name;
use crate::twin::TwinDisk;
use sector_disk::{Disk, Fault};

/// The twin of two disks, after the second one was made to read as the first one does (`mirror`), unless they are known to
/// hold the `same`.
///
/// `Fault`, after a call of either failed, as `mirror` says.
pub fn paired<A: Disk + Drop, B: Disk + Drop>(
    first: A,
    second: B,
    sectors: u32,
    name: Name,
    same: bool,
) -> Result<TwinDisk<A, B>, Fault>
    requires first { sectors + 1 < A.size first }
    requires second { sectors + 1 < B.size second }
    requires same { IsTrue same → HoldSame A.Disk B.Disk sectors first second }
    ensures size { IfOk result (λ d. ⟦<TwinDisk<A, B> as Disk>⟧.size d ≡ sectors) }
    ensures honest { IfOk result (λ d. ⟦<TwinDisk<A, B> as Disk>⟧.honest d
        ↔ (A.honest first × B.honest second)) }
    ensures reads { IfOk result (λ d. A.honest first → B.honest second → (n : ℕ)
        → n < sectors
        → (now (⟦<TwinDisk<A, B> as Disk>⟧.trail d)).reads n ≡ (now (A.trail first)).reads n) }
    ensures marks { IfOk result (λ d. IsTrue same
        → KeepsMark A.Disk B.Disk sectors first (first_leg d) second (second_leg d)) }
{
    let mut first = first;
    let mut second = second;
    mirror(&mut first, &mut second, sectors, &name, same)?;
    Ok(TwinDisk::new(first, second, sectors, name))
}
