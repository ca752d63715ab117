//! What a leg says of itself, in a sector behind those that it has of the twin.
ghost use Rattle.std.specs.Prelude.{◌≡◌, ◌<◌, ℕ, true, false, OnOk};
ghost use Rattle.sector_disk.specs.Trail.{now, Only, CountsFault};
ghost use Rattle.sector_disk.specs.Confined.{IsConfined};
ghost use Rattle.twin_disk.specs.Flags.{IsNameless, ShowsFlag, pair_name, says_alone, says_closed};

use sector_disk::{Disk, Fault, SECTOR_BYTES, Sector};

/// The first byte of the flag's sector of a leg that goes on without its twin. Any other byte says *in pair*.
pub const ALONE: u8 = 1;

/// The first byte of the sector behind that of a leg that was closed with its twin.
pub const CLOSED: u8 = 2;

/// How many bytes the name of a pair has.
pub const NAME_BYTES: usize = 16;

/// What the disks of one pair are known by, and no others.
pub type Name = [u8; NAME_BYTES];

/// The name in a disk that was in no pair yet.
const NAMELESS: Name = [0; NAME_BYTES];

/// The flag of a leg, and the name of its pair. A disk that was in no pair yet has a name of zeros.
#[derive(Clone, Copy, Debug, PartialEq, Eq)]
pub struct Flag {
    /// Whether the leg goes on without its twin.
    pub alone: bool,

    /// Whether its mark says that it was closed with its twin: then it reads as this does if that bears the same mark.
    pub closed: bool,
    pub name: Name,
}

impl Flag {
    /// The flag in a sector, with the mark in the one behind it.
    pub fn of(sector: &Sector, mark: &Sector) -> Flag
        ensures alone { result.alone ≡ says_alone sector.now }
        ensures closed { result.closed ≡ says_closed mark.now }
        ensures name { result.name ≡ pair_name sector.now }
    {
        Flag {
            alone: sector[0] == ALONE,
            closed: mark[0] == CLOSED,
            name: name_of(sector),
        }
    }

    /// The sector with this flag.
    pub fn sector(&self) -> Sector
        ensures { says_alone result ≡ self.now.alone }
    {
        let mut sector = named(&self.name);
        set_alone(&mut sector, self.alone);
        sector
    }
}

/// Whether the disk was in a pair.
pub fn has_name(flag: &Flag) -> bool
    ensures { result ≡ false → IsNameless flag.now.name }
{
    flag.name != NAMELESS
}

/// The name in a flag's sector.
fn name_of(sector: &Sector) -> Name
    ensures { result ≡ pair_name sector.now }
{
    let mut name = [0; NAME_BYTES];
    name.copy_from_slice(&sector[1..1 + NAME_BYTES]);
    name
}

/// A flag's sector with this name.
fn named(name: &Name) -> Sector {
    let mut sector = [0; SECTOR_BYTES as usize];
    sector[1..1 + NAME_BYTES].copy_from_slice(name);
    sector
}

/// Says in a flag's sector whether the leg is alone.
fn set_alone(sector: &mut Sector, alone: bool)
    ensures { says_alone sector.new ≡ alone }
{
    sector[0] = if alone { ALONE } else { 0 };
}

/// Has a leg say this in its sector `at`, for good, with all that was written to it before.
///
/// `Fault`: a call of the leg failed, and that sector may hold anything.
pub fn put_flag<D: Disk>(leg: &mut D, at: u32, flag: Flag) -> Result<(), Fault>
    requires { at < D.size leg.old }
    ensures kept { IsConfined D.size D.honest D.trail (Only at) leg.old leg.new }
    ensures cause { CountsFault result (D.failures leg.old) (D.failures leg.new) }
    ensures shown { OnOk result (D.honest leg.old
        → ShowsFlag at flag.alone (now (D.trail leg.new))) }
    ensures settled { OnOk result (D.honest leg.old
        → (n : ℕ) → (now (D.trail leg.new)).pending n ≡ false) }
{
    let sector = flag.sector();
    leg.write(at, &sector)?;
    leg.sync()
}
