//! Files as legs: a store's sectors, and behind them one with the flag and one with the mark.
ghost use Rattle.std.specs.Prelude.{◌≡◌};

use host_files::LockedFile;
use sector_disk::{Disk, FILE_SECTORS, FileDisk};
use twin_disk::TwinDisk;

/// A leg in a file that is locked.
pub type LegDisk = FileDisk<LockedFile>;

/// A disk over two such legs.
pub type PairDisk = TwinDisk<LegDisk, LegDisk>;

/// How many sectors a leg has: those of a store's disk, that of its flag, and that of its mark.
pub const LEG_SECTORS: u32 = FILE_SECTORS + 2;

/// The leg in a file.
pub(crate) fn leg_in(file: LockedFile) -> LegDisk
    ensures { ⟦<LegDisk as Disk>⟧.size result ≡ LEG_SECTORS }
{
    FileDisk::with_sectors(file, LEG_SECTORS)
}
