//! A mark on both legs that they hold the same, from an orderly end to the next write.
ghost use Rattle.std.specs.Prelude.{◌≡◌, ◌<◌, ◌+◌, ℕ, true, IfOk, IsTrue};
ghost use Rattle.sector_disk.specs.Trail.{now, Nowhere, Only};
ghost use Rattle.sector_disk.specs.Confined.{IsConfined};
ghost use Rattle.twin_disk.specs.Closing.{HasHonestMark, KeepsMark};
ghost use Rattle.twin_disk.specs.Copying.{HoldSame};
ghost use Rattle.twin_disk.specs.Flags.{says_closed};

use crate::copying::{blank_sector, is_same};
use crate::flags::{CLOSED, Name};
use crate::marks::{mark_fits, put_mark};
use sector_disk::{Disk, Fault};

/// Whether two legs were closed together, as their marks say, behind the sectors `at`: then they hold the same before
/// that.
pub fn closed_together<A: Disk, B: Disk>(one: &mut A, other: &mut B, at: u32) -> Result<bool, Fault>
    requires sizes { (at + 1 < A.size one.old) × (at + 1 < B.size other.old) }
    requires honest { A.honest one.old → B.honest other.old
        → HasHonestMark at (now (A.trail one.old)) (now (B.trail other.old)) }
    ensures one { IsConfined A.size A.honest A.trail Nowhere one.old one.new }
    ensures other { IsConfined B.size B.honest B.trail Nowhere other.old other.new }
    ensures same { IfOk result (λ yes. IsTrue yes → HoldSame A.Disk B.Disk at one.new other.new) }
{
    mark_fits(one, at);
    let closed = is_closed(one, at + 1)?;
    let alike = is_same(one, other, at + 1)?;
    Ok(alike && closed)
}

/// Whether the mark of a leg says *closed*.
fn is_closed<D: Disk>(leg: &mut D, mark: u32) -> Result<bool, Fault>
    requires { mark < D.size leg.old }
    ensures kept { IsConfined D.size D.honest D.trail Nowhere leg.old leg.new }
    ensures told { IfOk result (λ yes. D.honest leg.old
        → yes ≡ says_closed ((now (D.trail leg.old)).reads mark)) }
{
    let mut sector = blank_sector();
    leg.read(mark, &mut sector)?;
    Ok(sector[0] == CLOSED)
}

/// Has both legs say *closed* under this stamp, where each call of them does as it says, unless they do. They hold the
/// same for good, so whatever a crash leaves of both, the marks are honest.
pub(crate) fn mark_both<A: Disk, B: Disk>(
    first: &mut A,
    second: &mut B,
    at: u32,
    stamp: &Name,
) -> Result<(), Fault>
    requires sizes { (at + 1 < A.size first.old) × (at + 1 < B.size second.old) }
    requires same { HoldSame A.Disk B.Disk at first.old second.old }
    ensures first { IsConfined A.size A.honest A.trail (Only (at + 1)) first.old first.new }
    ensures second { IsConfined B.size B.honest B.trail (Only (at + 1)) second.old second.new }
    ensures marks { KeepsMark A.Disk B.Disk at first.old first.new second.old second.new }
{
    mark_fits(first, at);
    put_marks(first, second, at + 1, stamp)
}

/// The same, without a word of what the marks tell.
fn put_marks<A: Disk, B: Disk>(
    first: &mut A,
    second: &mut B,
    mark: u32,
    stamp: &Name,
) -> Result<(), Fault>
    requires sizes { (mark < A.size first.old) × (mark < B.size second.old) }
    ensures first { IsConfined A.size A.honest A.trail (Only mark) first.old first.new }
    ensures second { IsConfined B.size B.honest B.trail (Only mark) second.old second.new }
{
    let closed = is_closed(first, mark)?;
    if is_same(first, second, mark)? && closed {
        return Ok(());
    }
    put_mark(first, mark, stamp)?;
    put_mark(second, mark, stamp)
}
