//! Sectors of a store, copied to a disk in memory.
ghost use Rattle.std.specs.Prelude.{◌≡◌, ◌≢◌, ◌+◌, ◌≤◌, ◌<◌, ◌^◌, ℕ, false, true, replicate, IfErr, IfNone, IfOk, IfSome, MatchOption, OnOk};
ghost use Rattle.sector_disk.specs.declared.disk.TheConstants.{SECTOR_BYTES};
ghost use Rattle.sector_disk.specs.Confined.{IsConfined};
ghost use Rattle.sector_disk.specs.Faults.{FailsAs};
ghost use Rattle.sector_disk.specs.Trail.{Nowhere, now};
ghost use Rattle.store_layout.specs.Filling.{InRange};
ghost use Rattle.store_layout.specs.Meaning.{Standing, Stands};
ghost use Rattle.store_slots.specs.Errors.{OfDesktop, OfOpen};
ghost use Rattle.desk_journal.specs.Device.{IsSameDevice};
ghost use Rattle.desk_journal.specs.Looking.{OnlyLooks};
ghost use Rattle.desk_journal.specs.Opening.{IsNoStore, IsOpened};
ghost use Rattle.past_pages.specs.Laying.{HasStoreRoom, IsBlankRoom};
ghost use Rattle.past_pages.specs.Reading.{IsOnlyReadFrom};
ghost use Rattle.desk_past.specs.Errors.{IsNoStart};
ghost use Rattle.former_stores.specs.Laying.{ArePlaced, IsBlankFrom, IsCopiedTo, IsLaid, StandsNone};

use desk_journal::{Error, STORE_SECTORS, Store};
use sector_disk::{Disk, NoMemory, SECTOR_BYTES, Sector};
use std::alloc::Global;
use store_layout::{finding_law, standing_law};

/// A sector of zeros.
fn zero_sector() -> Sector
    ensures { result ≡ replicate SECTOR_BYTES 0 }
{
    [0; SECTOR_BYTES as usize]
}

/// Whether a sector holds nothing but zeros.
fn is_zeros(sector: &Sector) -> bool
    ensures { result ≡ true → sector.now ≡ replicate SECTOR_BYTES 0 }
{
    *sector == zero_sector()
}

/// What sector `n` of the store's disk holds.
///
/// Errors: those of `Store::read_behind`.
fn sector_at<D: Disk>(store: &mut Store<D>, n: u32) -> Result<Sector, Error>
    requires { n < D.size store.old.disk }
    ensures bytes { IfOk result (λ bytes. D.honest store.old.disk
        → bytes ≡ (now (D.trail store.old.disk)).reads n) }
    ensures looks { OnlyLooks D.Disk result store.old store.new }
{
    let mut sector = zero_sector();
    store.read_behind(n, &mut sector)?;
    Ok(sector)
}

/// Gives a disk in memory this sector, where it reads zeros. Zeros aren't written.
///
/// Error: where the disk fails, there is no memory.
fn put<E: Disk>(disk: &mut E, n: u32, sector: &Sector) -> Result<(), NoMemory>
    requires { n < E.size disk.old }
    ensures here { OnOk result (E.honest disk.old
        → (now (E.trail disk.old)).reads n ≡ replicate SECTOR_BYTES 0
        → (now (E.trail disk.new)).reads n ≡ sector.now) }
    ensures others { OnOk result (E.honest disk.old → (k : ℕ) → k ≢ n
        → (now (E.trail disk.new)).reads k ≡ (now (E.trail disk.old)).reads k) }
    ensures device { IsSameDevice E.Disk disk.old disk.new }
{
    if is_zeros(sector) {
        return Ok(());
    }
    match disk.write(n, sector) {
        Ok(()) => Ok(()),
        Err(_fault) => Err(NoMemory),
    }
}

/// Copies so many sectors of a store, from `from` on, to another disk, which is in memory and reads zeros there, from `to`
/// on.
///
/// Errors: those of `Store::read_behind`; `NoMemory` where the other disk fails.
fn copy_sectors<D: Disk, E: Disk>(
    store: &mut Store<D>,
    from: u32,
    count: u32,
    disk: &mut E,
    to: u32,
) -> Result<(), Error>
    requires usable { store.old.must_reopen ≡ false }
    requires there { (from + count < 2 ^ 32) × (from + count ≤ D.size store.old.disk) }
    requires blank { IsBlankFrom E.Disk to count disk.old × (to + count < 2 ^ 32) }
    ensures copied { OnOk result (D.honest store.old.disk → E.honest disk.old
        → IsCopiedTo from to count (now (D.trail store.old.disk)).reads
        (now (E.trail disk.new)).reads) }
    ensures others { OnOk result (E.honest disk.old → (n : ℕ) → ¬ InRange to count n
        → (now (E.trail disk.new)).reads n ≡ (now (E.trail disk.old)).reads n) }
    ensures device { IsSameDevice E.Disk disk.old disk.new }
    ensures still { IsOnlyReadFrom D.Disk store.old store.new }
    ensures faults { FailsAs Error.Fault OfDesktop result (D.failures store.old.disk)
        (D.failures store.new.disk) }
{
    store.shows_what_crashes_leave();
    for k in 0..count {
        let sector = sector_at(store, from + k)?;
        put(disk, to + k, &sector)?;
    }
    Ok(())
}

/// The store on a disk.
///
/// Errors: those of `Store::open`.
fn found<E: Disk + Drop>(alloc: Global, disk: E) -> Result<Store<E>, Error>
    ensures ok { IfOk result (λ shown. IsOpened E.Disk disk shown) }
    ensures untouched { IfOk result (λ shown. IsConfined E.size E.honest E.trail Nowhere disk
        shown.disk) }
    ensures no_store { IfErr result (λ e. IsNoStore E.Disk disk e) }
    ensures errors { IfErr result OfOpen }
{
    match Store::open(alloc, disk) {
        Ok(shown) => Ok(shown),
        Err((error, _disk)) => Err(error),
    }
}

/// Whether an error says that no store stands there, or a damaged one.
fn is_no_store(error: Error) -> bool
    ensures { result ≡ true → IsNoStart error }
{
    match error {
        Error::NotAStore => true,
        Error::Damaged(_) => true,
        Error::NoMemory => false,
        Error::Fault => false,
        Error::MustReopen => false,
        Error::TooSmall => false,
        Error::Worn => false,
    }
}

/// The store on a disk in memory. None where none stands there, or a damaged one.
///
/// Error: `NoMemory`.
fn opened<E: Disk + Drop>(alloc: Global, disk: E) -> Result<Option<Store<E>>, Error>
    ensures ok { IfOk result (λ found. IfSome found (λ shown. IsOpened E.Disk disk shown)) }
    ensures untouched { IfOk result (λ found. IfSome found (λ shown. IsConfined E.size E.honest
        E.trail Nowhere disk shown.disk)) }
    ensures none { IfOk result (λ found. IfNone found (E.honest disk → (t : Standing)
        → Stands (E.size disk) (now (E.trail disk)).reads t → ⊥)) }
    ensures errors { IfErr result (λ e. e ≡ Error.NoMemory) }
{
    finding_law();
    match found(alloc, disk) {
        Ok(shown) => Ok(Some(shown)),
        Err(error) => {
            if is_no_store(error) {
                Ok(None)
            } else {
                Err(Error::NoMemory)
            }
        }
    }
}

/// The store that stands from sector `base` on, and so many sectors from `from` on, in memory on another disk, which reads
/// zeros: there it begins in sector 0, and those lie where they lay. None where no store stands there, or a damaged one.
///
/// Errors: those of `copy_sectors`.
pub(crate) fn laid<D: Disk, E: Disk + Drop>(
    alloc: Global,
    store: &mut Store<D>,
    base: u32,
    from: u32,
    count: u32,
    disk: E,
) -> Result<Option<Store<E>>, Error>
    requires usable { store.old.must_reopen ≡ false }
    requires start { HasStoreRoom (D.size store.old.disk) base }
    requires pages { ArePlaced from count (D.size store.old.disk) }
    requires blank { IsBlankRoom E.Disk disk × (from + count ≤ E.size disk) }
    ensures found { IfOk result (λ found. D.honest store.old.disk → E.honest disk
        → MatchOption found (StandsNone (now (D.trail store.old.disk)).reads base)
        (IsLaid E.Disk (now (D.trail store.old.disk)).reads base from count (E.size disk))) }
    ensures still { IsOnlyReadFrom D.Disk store.old store.new }
    ensures faults { FailsAs Error.Fault OfDesktop result (D.failures store.old.disk)
        (D.failures store.new.disk) }
{
    standing_law();
    store.shows_what_crashes_leave();
    let mut disk = disk;
    copy_sectors(store, base, STORE_SECTORS, &mut disk, 0)?;
    copy_sectors(store, from, count, &mut disk, from)?;
    opened(alloc, disk)
}
