//! A sector of the disk in memory, and what it says.
ghost use Rattle.std.specs.Prelude.{◌≡◌, ◌<◌, IfOk};
ghost use Rattle.store_layout.specs.Layout.{is_open, head_of};
ghost use Rattle.store_slots.specs.Words.{Nowhere, CountsFault, now, IsConfined};

use sector_disk::{Disk, Fault, SECTOR_BYTES, Sector};
use store_layout::{Head, is_open_gate};

/// A sector of zeros, to be filled. Its callers know no byte of it: a row of zeros that stands in a function itself makes
/// each of its goals dear.
pub(crate) fn blank_sector() -> Sector {
    [0; SECTOR_BYTES as usize]
}

/// Whether a sector is an open gate.
pub(crate) fn is_open_at<D: Disk>(disk: &mut D, n: u32) -> Result<bool, Fault>
    requires { n < D.size disk.old }
    ensures kept { IsConfined D.size D.honest D.trail Nowhere disk.old disk.new }
    ensures cause { CountsFault result (D.failures disk.old) (D.failures disk.new) }
    ensures opened { IfOk result (λ opened. D.honest disk.old
        → opened ≡ is_open ((now (D.trail disk.old)).reads n)) }
{
    let mut sector = blank_sector();
    disk.read(n, &mut sector)?;
    Ok(is_open_gate(&sector))
}

/// The head that a sector has.
pub(crate) fn head_in<D: Disk>(disk: &mut D, n: u32) -> Result<Head, Fault>
    requires { n < D.size disk.old }
    ensures kept { IsConfined D.size D.honest D.trail Nowhere disk.old disk.new }
    ensures cause { CountsFault result (D.failures disk.old) (D.failures disk.new) }
    ensures head { IfOk result (λ h. D.honest disk.old
        → head_of ((now (D.trail disk.old)).reads n) ≡ h) }
{
    let mut sector = blank_sector();
    disk.read(n, &mut sector)?;
    Ok(Head::of(&sector))
}
