//! An opening of a store on two disks.
ghost use Rattle.std.specs.Prelude.{IfOk};
ghost use Rattle.desk_journal.specs.Device.{disk_after};
ghost use Rattle.twin_store.specs.OnTwins.{LegsKeepMeaning, LegsShow};

use desk_journal::{Error, Store};
use sector_disk::Disk;
use std::alloc::Global;
use twin_disk::TwinDisk;

/// Opens a store on two disks: `Store::open`, said of the legs. Where a crash would have left a desktop before it, it
/// leaves that at every moment, of each leg that was in use, and of the one that the flags choose. After `Ok` that is the
/// desktop which the store shows.
///
/// Errors: those of `Store::open`.
pub fn open_on_twins<A: Disk, B: Disk>(
    alloc: Global,
    disk: TwinDisk<A, B>,
) -> Result<Store<TwinDisk<A, B>>, (Error, TwinDisk<A, B>)>
    ensures any_moment { LegsKeepMeaning disk (disk_after (λ store. store.disk) result) }
    ensures ok { IfOk result LegsShow }
{
    Store::open(alloc, disk)
}
