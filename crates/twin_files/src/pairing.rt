//! Two legs as one disk: which of them is right, by what both say.
ghost use Rattle.std.specs.Prelude.{◌≡◌, ◌≢◌, ◌<◌, ◌+◌, ◌↔◌, false, IfOk, IfErr, IsTrue};
ghost use Rattle.twin_files.specs.declared.pairing.Unpaired.TheVariants.{BothAlone, PutBack, Fault as Failed};
ghost use Rattle.sector_disk.specs.Trail.{Nowhere};
ghost use Rattle.sector_disk.specs.Confined.{IsConfined};
ghost use Rattle.twin_disk.specs.Choosing.{choice_of};
ghost use Rattle.twin_disk.specs.Copying.{HoldSame};
ghost use Rattle.twin_files.specs.Pairing.{AreBothAlone, HasOlder, IsPairFrom, IsPairOf, IsPutBack, SaysOlder};

use desk_journal::{Error, Store};
use sector_disk::{Disk, Fault};
use std::alloc::Global;
use twin_disk::{Choice, Flag, Name, TwinDisk, choose, flag_at, has_name, paired};

/// Two legs as one disk.
#[derive(Drop)]
pub struct Pair<D: Disk> {
    pub disk: TwinDisk<D, D>,

    /// Whether the disk's first leg is the second one that was given.
    pub swapped: bool,
}

/// Why two legs aren't one disk.
#[derive(Clone, Copy, Debug, PartialEq, Eq)]
pub enum Unpaired {
    /// They were never in pair with one another.
    Strangers,
    /// Each says that it goes on without the other.
    BothAlone,
    /// They differ, and one of them says that it was closed with the other: so one was put back as an older copy.
    PutBack,
    /// They differ, and what stands in the one that is right opens as no store.
    NoStore(bool, Error),
    /// A call of either failed.
    Fault,
}

impl From<Fault> for Unpaired {
    ghost from_gives = { λ _ why. why ≡ Failed };

    fn from(_fault: Fault) -> Unpaired {
        Unpaired::Fault
    }
}

/// The disk over two legs: the one that their flags choose stays as it is, and the other one is made equal to it, unless they
/// are known to hold the `same`.
///
/// Errors, of which the first four write nothing: `Strangers`; `BothAlone`; `PutBack`; `NoStore`, with whether it is the
/// second leg; `Fault`, and the flags choose the same leg as before.
pub fn pair_both<D: Disk + Drop>(
    alloc: Global,
    first: D,
    second: D,
    sectors: u32,
    same: bool,
) -> Result<Pair<D>, Unpaired>
    requires first { sectors + 1 < D.size first }
    requires second { sectors + 1 < D.size second }
    requires same { IsTrue same → HoldSame D.Disk D.Disk sectors first second }
    ensures chosen { IfOk result (IsPairOf D.Disk sectors first second) }
    ensures alone { IfErr result (AreBothAlone D.Disk sectors first second) }
    ensures put_back { IfErr result (IsPutBack D.Disk sectors same first second) }
    ensures none_older { IfOk result (λ pair. same ≡ false → D.honest first → D.honest second
        → ¬ HasOlder D.Disk sectors first second) }
{
    let mut first = first;
    let mut second = second;
    let mine = flag_at(&mut first, sectors)?;
    let other = flag_at(&mut second, sectors)?;
    if !has_name(&mine) || mine.name != other.name {
        return Err(Unpaired::Strangers);
    }
    match chosen(mine, other, same)? {
        Choice::First => pair_from(alloc, first, second, sectors, mine.name, false, same),
        Choice::Second => pair_from(alloc, second, first, sectors, mine.name, true, same),
        Choice::Neither => Err(Unpaired::BothAlone),
    }
}

/// Which leg goes on. Legs that may differ are refused where one is an older copy.
fn chosen(mine: Flag, other: Flag, same: bool) -> Result<Choice, Unpaired>
    ensures choice { IfOk result (λ choice. choice ≡ choice_of mine.alone other.alone) }
    ensures alone { IfErr result (λ why. why ≢ BothAlone) }
    ensures put_back { IfErr result (λ why. (same ≡ false)
        × SaysOlder mine.alone other.alone mine.closed other.closed) }
    ensures none_older { IfOk result (λ choice. same ≡ false
        → ¬ SaysOlder mine.alone other.alone mine.closed other.closed) }
{
    if !same && is_one_older(mine, other) {
        return Err(Unpaired::PutBack);
    }
    Ok(choose(mine, other))
}

/// Whether two legs say what no crash leaves them saying if they differ: neither that it is alone, and one that it was
/// closed with the other.
fn is_one_older(mine: Flag, other: Flag) -> bool
    ensures { IsTrue result ↔ SaysOlder mine.alone other.alone mine.closed other.closed }
{
    (mine.closed || other.closed) && !mine.alone && !other.alone
}

/// The disk over two legs of which the first is right. Where the other one may differ, the first has to open as a store
/// before it is copied.
///
/// Errors: `NoStore`; `Fault`.
pub fn pair_from<D: Disk + Drop>(
    alloc: Global,
    right: D,
    other: D,
    sectors: u32,
    name: Name,
    swapped: bool,
    same: bool,
) -> Result<Pair<D>, Unpaired>
    requires right { sectors + 1 < D.size right }
    requires other { sectors + 1 < D.size other }
    requires same { IsTrue same → HoldSame D.Disk D.Disk sectors right other }
    ensures chosen { IfOk result (IsPairFrom D.Disk sectors swapped right other) }
    ensures alone { IfErr result (λ why. why ≢ BothAlone) }
    ensures put_back { IfErr result (λ why. why ≢ PutBack) }
{
    let mut right = right;
    if !same {
        right = with_store(alloc, right, swapped)?;
    }
    let disk = paired(right, other, sectors, name, same)?;
    Ok(Pair { disk, swapped })
}

/// The leg, in which a store was found that opens.
///
/// Errors: `NoStore`; `Fault`.
fn with_store<D: Disk + Drop>(alloc: Global, leg: D, swapped: bool) -> Result<D, Unpaired>
    ensures kept { IfOk result (λ found. IsConfined D.size D.honest D.trail Nowhere leg found) }
    ensures alone { IfErr result (λ why. why ≢ BothAlone) }
    ensures put_back { IfErr result (λ why. why ≢ PutBack) }
{
    match Store::open(alloc, leg) {
        Ok(store) => Ok(store.close()),
        Err((Error::Fault, _leg)) => Err(Unpaired::Fault),
        Err((error, _leg)) => Err(Unpaired::NoStore(swapped, error)),
    }
}
