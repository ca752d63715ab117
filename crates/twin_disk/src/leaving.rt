//! A leg that goes on without its twin.
ghost use Rattle.std.specs.Prelude.{◌≡◌, ◌<◌, ◌≤◌, ◌+◌, ◌⊎◌, ℕ, true, false, IfOk, OnOk};
ghost use Rattle.sector_disk.specs.Trail.{now, Only};
ghost use Rattle.sector_disk.specs.Confined.{IsConfined};
ghost use Rattle.twin_disk.specs.Flags.{IsNameless, ShowsFlag, pair_name, says_alone, says_closed};
ghost use Rattle.twin_disk.specs.Marks.{Behind};

use crate::copying::flag_at;
use crate::flags::{Flag, Name, has_name, put_flag};
use crate::marks::{mark_fits, take_mark};
use sector_disk::{Disk, Fault};

/// Has a leg that says *in pair* say *alone* in its sector `at`, for good, and tells whether it did. A leg that says
/// *alone* already, and a disk that was in no pair, is left as it is. But first a mark is taken off, in the sector behind
/// that: what is written to the leg from then on the other one hasn't.
///
/// `Fault`: a call of the leg failed, and these sectors may hold anything.
pub fn leave_twin<D: Disk>(leg: &mut D, at: u32) -> Result<bool, Fault>
    requires { at + 1 < D.size leg.old }
    ensures kept { IsConfined D.size D.honest D.trail (Behind at) leg.old leg.new }
    ensures shown { IfOk result (λ left. left ≡ true → D.honest leg.old
        → ShowsFlag at true (now (D.trail leg.new))) }
    ensures stays { IfOk result (λ left. left ≡ false → D.honest leg.old
        → (says_alone ((now (D.trail leg.old)).reads at) ≡ true)
        ⊎ IsNameless (pair_name ((now (D.trail leg.old)).reads at))) }
    ensures in_use { IfOk result (λ left. D.honest leg.old
        → says_closed ((now (D.trail leg.new)).reads (at + 1)) ≡ false) }
{
    let flag = flag_at(leg, at)?;
    unmark(leg, at, flag.closed)?;
    if flag.alone || !has_name(&flag) {
        return Ok(false);
    }
    leave(leg, at, &flag.name)?;
    Ok(true)
}

/// Takes the mark of a leg off, if it has one.
fn unmark<D: Disk>(leg: &mut D, at: u32, closed: bool) -> Result<(), Fault>
    requires size { at + 1 < D.size leg.old }
    requires found { D.honest leg.old
        → closed ≡ says_closed ((now (D.trail leg.old)).reads (at + 1)) }
    ensures kept { IsConfined D.size D.honest D.trail (Only (at + 1)) leg.old leg.new }
    ensures in_use { OnOk result (D.honest leg.old
        → says_closed ((now (D.trail leg.new)).reads (at + 1)) ≡ false) }
{
    if !closed {
        return Ok(());
    }
    mark_fits(leg, at);
    take_mark(leg, at + 1)
}

/// Has a leg of the pair of that name say *alone*.
fn leave<D: Disk>(leg: &mut D, at: u32, name: &Name) -> Result<(), Fault>
    requires { at < D.size leg.old }
    ensures kept { IsConfined D.size D.honest D.trail (Only at) leg.old leg.new }
    ensures shown { OnOk result (D.honest leg.old → ShowsFlag at true (now (D.trail leg.new))) }
{
    let name = *name;
    let alone = Flag {
        alone: true,
        closed: false,
        name,
    };
    put_flag(leg, at, alone)
}
