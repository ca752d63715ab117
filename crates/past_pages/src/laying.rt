//! A store that is laid on a disk in memory: what counts of its sectors is copied there.
ghost use Rattle.std.specs.Prelude.{◌≡◌, ◌≢◌, ◌⊎◌, ◌+◌, ◌^◌, ◌<◌, ◌≤◌, ℕ, false, replicate, OnOk};
ghost use Rattle.sector_disk.specs.declared.disk.TheConstants.{SECTOR_BYTES};
ghost use Rattle.sector_disk.specs.Faults.{FailsAs};
ghost use Rattle.sector_disk.specs.Trail.{now};
ghost use Rattle.store_layout.specs.declared.layout.TheConstants.{SLOTS, STORE_SECTORS};
ghost use Rattle.store_layout.specs.Meaning.{Standing, Stands};
ghost use Rattle.store_slots.specs.Errors.{OfDesktop};
ghost use Rattle.desk_journal.specs.Device.{IsSameDevice};
ghost use Rattle.past_pages.specs.Laying.{HasLaid, HasLaidSlot, HasStoreRoom, IsLaying, StandsFrom, IsBlankRoom};
ghost use Rattle.past_pages.specs.Reading.{IsOnlyReadFrom};

use crate::sectors::{blank_sector, is_zeros, sector_at};
use desk_journal::{Error, Store};
use sector_disk::{Disk, NoMemory, SECTOR_BYTES, Sector};
use store_layout::{Head, area_start, image_at, slot_head};

/// Gives a disk in memory this sector, which reads zeros there, or the same. Zeros aren't written.
///
/// Error: where the disk fails, there is no memory.
fn put<E: Disk>(disk: &mut E, n: u32, sector: &Sector) -> Result<(), NoMemory>
    requires { n < E.size disk.old }
    ensures here { OnOk result (E.honest disk.old
        → ((now (E.trail disk.old)).reads n ≡ replicate SECTOR_BYTES 0)
        ⊎ ((now (E.trail disk.old)).reads n ≡ sector.now)
        → (now (E.trail disk.new)).reads n ≡ sector.now) }
    ensures others { OnOk result (E.honest disk.old → (k : ℕ) → k ≢ n
        → (now (E.trail disk.new)).reads k ≡ (now (E.trail disk.old)).reads k) }
    ensures device { IsSameDevice E.Disk disk.old disk.new }
{
    if is_zeros(sector) {
        return Ok(());
    }
    match disk.write(n, sector) {
        Ok(()) => Ok(()),
        Err(_fault) => Err(NoMemory),
    }
}

/// Copies so many sectors of the store that begins in sector `base`, from `from` on.
///
/// Errors: those of `Store::read_behind`; `NoMemory` where the other disk fails.
fn lay_some<D: Disk, E: Disk>(
    store: &mut Store<D>,
    base: u32,
    from: u32,
    count: u32,
    disk: &mut E,
) -> Result<(), Error>
    requires usable { store.old.must_reopen ≡ false }
    requires there { HasStoreRoom (D.size store.old.disk) base }
    requires inside { from + count ≤ STORE_SECTORS }
    requires room { STORE_SECTORS ≤ E.size disk.old }
    ensures laid { OnOk result (D.honest store.old.disk → E.honest disk.old
        → IsLaying (now (D.trail store.old.disk)).reads base (now (E.trail disk.old)).reads
        → HasLaid (now (D.trail store.old.disk)).reads base from count
        (now (E.trail disk.old)).reads (now (E.trail disk.new)).reads) }
    ensures device { IsSameDevice E.Disk disk.old disk.new }
    ensures still { IsOnlyReadFrom D.Disk store.old store.new }
    ensures faults { FailsAs Error.Fault OfDesktop result (D.failures store.old.disk)
        (D.failures store.new.disk) }
{
    store.shows_what_crashes_leave();
    let mut sector = blank_sector();
    for n in from..from + count {
        store.read_behind(base + n, &mut sector)?;
        put(disk, n, &sector)?;
    }
    Ok(())
}

/// Copies what the head of a slot names: its image, and the characters of its area. Nothing where the head isn't good.
///
/// Errors: those of `lay_some`.
fn lay_slot<D: Disk, E: Disk>(
    store: &mut Store<D>,
    base: u32,
    slot: u32,
    disk: &mut E,
) -> Result<(), Error>
    requires usable { store.old.must_reopen ≡ false }
    requires there { HasStoreRoom (D.size store.old.disk) base }
    requires slot { slot < SLOTS }
    requires room { STORE_SECTORS ≤ E.size disk.old }
    ensures laid { OnOk result (D.honest store.old.disk → E.honest disk.old
        → IsLaying (now (D.trail store.old.disk)).reads base (now (E.trail disk.old)).reads
        → HasLaidSlot (now (D.trail store.old.disk)).reads base slot
        (now (E.trail disk.old)).reads (now (E.trail disk.new)).reads) }
    ensures device { IsSameDevice E.Disk disk.old disk.new }
    ensures still { IsOnlyReadFrom D.Disk store.old store.new }
    ensures faults { FailsAs Error.Fault OfDesktop result (D.failures store.old.disk)
        (D.failures store.new.disk) }
{
    store.shows_what_crashes_leave();
    let sector = sector_at(store, base + slot_head(slot))?;
    let head = Head::of(&sector);
    if !head.is_good() {
        return Ok(());
    }
    let image = (head.extent + (SECTOR_BYTES - 1)) / SECTOR_BYTES;
    lay_some(store, base, image_at(slot), image, disk)?;
    let full = head.written / SECTOR_BYTES;
    lay_some(store, base, area_start(head.area), full, disk)
}

/// Lays the store that begins in sector `base` on another disk, which is in memory and reads zeros: it shows there what it
/// shows. Of both slots what their heads name is copied, and all that stands before the images.
///
/// Errors: those of `Store::read_behind`; `NoMemory` where the other disk fails.
pub fn lay<D: Disk, E: Disk>(store: &mut Store<D>, base: u32, disk: &mut E) -> Result<(), Error>
    requires usable { store.old.must_reopen ≡ false }
    requires there { HasStoreRoom (D.size store.old.disk) base }
    requires blank { IsBlankRoom E.Disk disk.old }
    ensures stands { OnOk result (D.honest store.old.disk → E.honest disk.old → (t : Standing)
        → StandsFrom (now (D.trail store.old.disk)).reads base t
        → Stands (E.size disk.new) (now (E.trail disk.new)).reads t) }
    ensures device { IsSameDevice E.Disk disk.old disk.new }
    ensures still { IsOnlyReadFrom D.Disk store.old store.new }
    ensures faults { FailsAs Error.Fault OfDesktop result (D.failures store.old.disk)
        (D.failures store.new.disk) }
{
    store.shows_what_crashes_leave();
    lay_some(store, base, 0, image_at(0), disk)?;
    lay_slot(store, base, 0, disk)?;
    lay_slot(store, base, 1, disk)
}
