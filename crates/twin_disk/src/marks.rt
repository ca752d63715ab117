//! The mark of a leg that it was closed with its twin, in the sector behind that of its flag.
ghost use Rattle.std.specs.Prelude.{◌≡◌, ◌<◌, ◌+◌, ◌^◌, true, false, OnOk};
ghost use Rattle.sector_disk.specs.Trail.{now, Only, CountsFault};
ghost use Rattle.sector_disk.specs.Confined.{IsConfined};
ghost use Rattle.twin_disk.specs.Flags.{IsOpen, says_closed};
ghost use Rattle.twin_disk.specs.Legs.{HasWritten};
ghost use Rattle.twin_disk.specs.Marks.{Opens, OrMark, WritesOpened};

use crate::flags::{CLOSED, NAME_BYTES, Name};
use sector_disk::{Disk, Fault, SECTOR_BYTES, Sector};

/// The law that the mark of a leg, behind its flag in sector `at`, is in a sector that has a number.
pub(crate) fn mark_fits<D: Disk>(leg: &D, at: u32)
    requires { at + 1 < D.size leg.now }
    ensures { at + 1 < 2 ^ 32 }
{
    let _most = leg.sectors();
}

/// The mark of a leg that is closed with its twin under this stamp.
fn closed_sector(stamp: &Name) -> Sector
    ensures { says_closed result ≡ true }
{
    let mut sector = [0; SECTOR_BYTES as usize];
    sector[1..1 + NAME_BYTES].copy_from_slice(stamp);
    sector[0] = CLOSED;
    sector
}

/// The mark of a leg that isn't closed.
fn open_sector() -> Sector
    ensures { says_closed result ≡ false }
{
    let mut sector = [0; SECTOR_BYTES as usize];
    sector[0] = 0;
    sector
}

/// Has a leg say *closed* in its sector `mark`, for good, under this stamp.
///
/// `Fault`: a call of the leg failed, and that sector may hold anything.
pub(crate) fn put_mark<D: Disk>(leg: &mut D, mark: u32, stamp: &Name) -> Result<(), Fault>
    requires { mark < D.size leg.old }
    ensures kept { IsConfined D.size D.honest D.trail (Only mark) leg.old leg.new }
    ensures shown { OnOk result (D.honest leg.old
        → says_closed ((now (D.trail leg.new)).reads mark) ≡ true) }
{
    let sector = closed_sector(stamp);
    leg.write(mark, &sector)?;
    leg.sync()
}

/// Takes a leg's mark in its sector `mark` off, for good.
///
/// `Fault`: a call of the leg failed, and that sector may hold anything.
pub(crate) fn take_mark<D: Disk>(leg: &mut D, mark: u32) -> Result<(), Fault>
    requires { mark < D.size leg.old }
    ensures kept { IsConfined D.size D.honest D.trail (Only mark) leg.old leg.new }
    ensures cause { CountsFault result (D.failures leg.old) (D.failures leg.new) }
    ensures taken { OnOk result (D.honest leg.old → IsOpen mark (now (D.trail leg.new))) }
{
    let sector = open_sector();
    leg.write(mark, &sector)?;
    leg.sync()
}

/// Has a leg say *closed* no more, if it may.
pub(crate) fn open_leg<D: Disk>(leg: &mut D, at: u32, closed: &mut bool) -> Result<(), Fault>
    requires { at + 1 < D.size leg.old }
    ensures kept { IsConfined D.size D.honest D.trail (Only (at + 1)) leg.old leg.new }
    ensures cause { CountsFault result (D.failures leg.old) (D.failures leg.new) }
    ensures gone { OnOk result (closed.new ≡ false) }
    ensures marks { Opens D.Disk at closed.old closed.new leg.old leg.new }
{
    if !*closed {
        return Ok(());
    }
    mark_fits(leg, at);
    take_mark(leg, at + 1)?;
    *closed = false;
    Ok(())
}

/// Writes sector `n` of a leg whose flag is in sector `at`, after it says *closed* no more.
pub(crate) fn write_open<D: Disk>(
    leg: &mut D,
    at: u32,
    closed: &mut bool,
    n: u32,
    bytes: &Sector,
) -> Result<(), Fault>
    requires size { at + 1 < D.size leg.old }
    requires within { n < at }
    ensures kept { IsConfined D.size D.honest D.trail (OrMark at n) leg.old leg.new }
    ensures cause { CountsFault result (D.failures leg.old) (D.failures leg.new) }
    ensures written { OnOk result (D.honest leg.old
        → HasWritten at n bytes.now (now (D.trail leg.old)) (now (D.trail leg.new))) }
    ensures marks { Opens D.Disk at closed.old closed.new leg.old leg.new }
{
    let opened = open_leg(leg, at, closed);
    write_opened(leg, opened, n, bytes)
}

/// Writes sector `n` of a leg, if its mark could be taken off.
pub(crate) fn write_opened<D: Disk>(
    leg: &mut D,
    opened: Result<(), Fault>,
    n: u32,
    bytes: &Sector,
) -> Result<(), Fault>
    requires { n < D.size leg.old }
    ensures { WritesOpened D.Disk opened n bytes.now result leg.old leg.new }
{
    opened?;
    leg.write(n, bytes)
}
