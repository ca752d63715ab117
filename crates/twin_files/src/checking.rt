//! How two files of a store are.
ghost use Rattle.std.specs.Prelude.{◌<◌, ◌+◌, IfOk};

use crate::legs::{LegDisk, leg_in};
use crate::trouble::PairTrouble;
use cli_stores::looked_at;
use sector_disk::{Disk, FILE_SECTORS};
use twin_disk::{Choice, Flag, Leg, choose, differing, flag_at, has_name};

/// Tells which of two files is newer, and in how many sectors they differ. Both are locked beside other programs that
/// look, and nothing is written.
pub fn check_pair(rt: &HostRuntime, path: &str, twin: &str) -> Result<(), PairTrouble> {
    let first = leg_at(rt, path, Leg::First)?;
    let second = leg_at(rt, twin, Leg::Second)?;
    compare(rt, first, second, path, twin)
}

/// The leg in the file at this path, locked for a look.
fn leg_at(rt: &HostRuntime, path: &str, which: Leg) -> Result<LegDisk, PairTrouble>
    ensures { IfOk result (λ leg. FILE_SECTORS + 1 < ⟦<LegDisk as Disk>⟧.size leg) }
{
    match looked_at(rt, path) {
        Ok(file) => Ok(leg_in(file)),
        Err(trouble) => Err(PairTrouble::One(which, trouble)),
    }
}

/// Tells how two legs are.
fn compare(
    rt: &HostRuntime,
    first: LegDisk,
    second: LegDisk,
    path: &str,
    twin: &str,
) -> Result<(), PairTrouble>
    requires first { FILE_SECTORS + 1 < ⟦<LegDisk as Disk>⟧.size first }
    requires second { FILE_SECTORS + 1 < ⟦<LegDisk as Disk>⟧.size second }
{
    let mut first = first;
    let mut second = second;
    let mine = flag_at(&mut first, FILE_SECTORS)?;
    let other = flag_at(&mut second, FILE_SECTORS)?;
    if !has_name(&mine) || mine.name != other.name {
        return Err(PairTrouble::Strangers);
    }
    let count = differing(&mut first, &mut second, FILE_SECTORS)?;
    println!(rt; "twin: {count} of {FILE_SECTORS} sectors differ")?;
    tell_newer(rt, mine, other, path, twin)
}

/// Tells which one is newer.
fn tell_newer(
    rt: &HostRuntime,
    mine: Flag,
    other: Flag,
    path: &str,
    twin: &str,
) -> Result<(), PairTrouble> {
    if !mine.alone && !other.alone {
        println!(rt; "in pair: each has all that was shown")?;
        return Ok(());
    }
    match choose(mine, other) {
        Choice::First => println!(rt; "newer: {path}")?,
        Choice::Second => println!(rt; "newer: {twin}")?,
        Choice::Neither => return Err(PairTrouble::BothAlone),
    }
    Ok(())
}
