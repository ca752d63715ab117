//! A desktop in a page: the sectors of a small store in memory that shows it, but for those of zeros.
ghost use Rattle.std.specs.Prelude.{◌≡◌, ◌≢◌, ◌⊎◌, ◌+◌, ◌*◌, ◌<◌, ◌≤◌, ◌++◌, ◌∷◌, ℕ, List, drop, false, length, replicate, true, IfOk, IfSome, IsSomeAnd, OnOk};
ghost use Rattle.std.specs.Int.{from_be_bytes, w32};
ghost use Rattle.sector_disk.specs.declared.disk.TheConstants.{SECTOR_BYTES};
ghost use Rattle.sector_disk.specs.Faults.{FailsAs};
ghost use Rattle.sector_disk.specs.Trail.{now};
ghost use Rattle.desktop_definitions.specs.Desktop.{Desktop};
ghost use Rattle.store_layout.specs.declared.layout.TheConstants.{STORE_SECTORS};
ghost use Rattle.store_slots.specs.Errors.{OfDesktop, OfOpen};
ghost use Rattle.desk_journal.specs.Device.{IsSameDevice};
ghost use Rattle.desk_journal.specs.Looking.{OnlyLooks};
ghost use Rattle.past_pages.specs.Copies.{Sectors, AreSectors, laid_over};
ghost use Rattle.past_pages.specs.Marks.{HasSpelled, IsCopyPage, IsUnstored, IsShownOn, ShowsCopy};
ghost use Rattle.past_pages.specs.Page.{copy_kind, sector_spelling, sector_spellings};
ghost use Rattle.past_pages.specs.declared.copies.TheConstants.{SPELLED};
ghost use Rattle.past_pages.specs.declared.page.TheConstants.{PAGE_FRONT};
ghost use Rattle.past_pages.specs.Laying.{IsBlankRoom};
ghost use Rattle.past_pages.specs.Reading.{HasCopy, IsOnlyReadFrom};

use crate::page::{FAR_PAGE, MARK_PAGE, PAGE_FRONT, page_of, sectors_for};
use crate::pages::front_of;
use crate::sectors::{blank_sector, bytes_at, is_zeros};
use byteorder::{BigEndian, ByteOrder};
use desk_journal::{Error, GatheredDesktop, STORE_SECTORS, Store};
use sector_disk::{Disk, MemoryDisk, NoMemory, SECTOR_BYTES, Sector};
use std::alloc::{AllocError, Global};
use store_layout::{LAYOUT, UNTOLD, finding_law};

/// How many bytes the number of a sector has, and in how many one is spelled.
const NUMBER: usize = 4;

const SPELLED: usize = NUMBER + SECTOR_BYTES as usize;

/// Puts a sector at the end of others that are spelled, if it isn't one of zeros.
fn put_sector(bytes: &mut Vec<u8>, n: u32, sector: &Sector) -> Result<(), AllocError>
    ensures { OnOk result ((sector.now ≡ replicate SECTOR_BYTES 0)
        × (bytes.new.items ≡ bytes.old.items)
        ⊎ (bytes.new.items ≡ bytes.old.items ++ sector_spelling (n, sector.now))) }
{
    if is_zeros(sector) {
        return Ok(());
    }
    bytes.extend_from_slice(&n.to_be_bytes())?;
    bytes.extend_from_slice(sector)?;
    Ok(())
}

/// What a sector of a disk in memory holds. Where the disk fails, there is no memory.
fn sector_in<E: Disk>(disk: &mut E, n: u32) -> Result<Sector, NoMemory>
    requires { n < E.size disk.old }
    ensures bytes { IfOk result (λ sector. E.honest disk.old
        → sector ≡ (now (E.trail disk.old)).reads n) }
    ensures still { E.honest disk.old → E.honest disk.new
        × ((k : ℕ) → (now (E.trail disk.new)).reads k ≡ (now (E.trail disk.old)).reads k) }
    ensures device { IsSameDevice E.Disk disk.old disk.new }
{
    let mut sector = blank_sector();
    match disk.read(n, &mut sector) {
        Ok(()) => Ok(sector),
        Err(_fault) => Err(NoMemory),
    }
}

/// The sectors of a store on a disk in memory, as a page spells them, but for those of zeros. Where the disk fails, there is
/// no memory.
fn spelled_sectors<E: Disk>(alloc: Global, disk: &mut E) -> Result<Vec<u8>, NoMemory>
    requires { STORE_SECTORS ≤ E.size disk.old }
    ensures spelled { IfOk result (λ bytes. E.honest disk.old
        → HasSpelled (now (E.trail disk.old)).reads bytes.items) }
    ensures short { IfOk result (λ bytes. length bytes.items ≤ SPELLED * STORE_SECTORS) }
{
    let mut bytes = Vec::new(alloc);
    for n in 0..STORE_SECTORS {
        let sector = sector_in(disk, n)?;
        put_sector(&mut bytes, n, &sector)?;
    }
    Ok(bytes)
}

/// A store in memory that shows the empty desktop, with a sector behind it.
fn empty_store(alloc: Global) -> Result<Store<MemoryDisk>, NoMemory>
    ensures { IfOk result (λ store. ⟦<MemoryDisk as Disk>⟧.size store.disk ≡ STORE_SECTORS + 1) }
{
    let disk = MemoryDisk::new(alloc, STORE_SECTORS + 1)?;
    let Ok(disk) = Store::format(disk) else {
        return Err(NoMemory);
    };
    let Ok(store) = Store::open(alloc, disk) else {
        return Err(NoMemory);
    };
    Ok(store)
}

/// The disk of a store in memory that shows this desktop.
fn disk_with(alloc: Global, to: GatheredDesktop) -> Result<MemoryDisk, NoMemory>
    ensures { IfOk result (λ disk. IsShownOn ⟦<MemoryDisk as Disk>⟧ to.desktop disk) }
{
    let mut store = empty_store(alloc)?;
    match store.turn_behind(to, UNTOLD, STORE_SECTORS, 1, &[]) {
        Ok(()) => Ok(store.close()),
        Err(_) => Err(NoMemory),
    }
}

/// The kind of a page with a desktop: of a far turn to it, or of a mark.
fn copy_kind(far: bool) -> u32
    ensures { result ≡ copy_kind far }
{
    if far { FAR_PAGE } else { MARK_PAGE }
}

/// The page with this desktop: that of a far turn to it, or of a mark.
pub fn copy_page(alloc: Global, far: bool, to: GatheredDesktop) -> Result<Vec<u8>, NoMemory>
    ensures { IfOk result (λ bytes. IsCopyPage far to.desktop bytes.items) }
{
    let mut disk = disk_with(alloc, to)?;
    let sectors = spelled_sectors(alloc, &mut disk)?;
    let count = (sectors.len() / SPELLED) as u32;
    page_of(alloc, copy_kind(far), LAYOUT, count, sectors.as_slice())
}

/// The number that these bytes are.
fn number_in(bytes: &[u8]) -> u32
    requires { length bytes.now ≡ 4 }
    ensures { result ≡ from_be_bytes w32 bytes.now }
{
    BigEndian::read_u32(bytes)
}

/// Gives a disk in memory the sector with which the bytes begin. False where they begin with none of a store. Where the disk
/// fails, there is no memory.
fn lay_sector<E: Disk>(bytes: &[u8], disk: &mut E) -> Result<bool, NoMemory>
    requires { STORE_SECTORS ≤ E.size disk.old }
    ensures laid { IfOk result (λ done. E.honest disk.old → (sector : ℕ × List ℕ)
        (sectors : Sectors) (rest : List ℕ) → (sector.0 < STORE_SECTORS)
        → length sector.1 ≡ SECTOR_BYTES → bytes.now ≡ sector_spelling sector ++ rest
        → (done ≡ true) × ((n : ℕ)
        → laid_over (now (E.trail disk.new)).reads sectors n
        ≡ laid_over (now (E.trail disk.old)).reads (sector ∷ sectors) n)) }
    ensures long { IfOk result (λ done. done ≡ true → SPELLED ≤ length bytes.now) }
    ensures device { IsSameDevice E.Disk disk.old disk.new }
{
    if bytes.len() < SPELLED {
        return Ok(false);
    }
    let (number, rest) = bytes.split_at(NUMBER);
    let n = number_in(number);
    if n >= STORE_SECTORS {
        return Ok(false);
    }
    let mut sector = blank_sector();
    sector.copy_from_slice(&rest[..SECTOR_BYTES as usize]);
    match disk.write(n, &sector) {
        Ok(()) => Ok(true),
        Err(_fault) => Err(NoMemory),
    }
}

/// Lays the sectors on a disk in memory that the bytes spell from their beginning on, so many. False where they spell
/// something else.
///
/// Error: that of `lay_sector`.
fn lay_sectors<E: Disk>(bytes: &[u8], count: u32, disk: &mut E) -> Result<bool, NoMemory>
    requires { STORE_SECTORS ≤ E.size disk.old }
    ensures laid { IfOk result (λ done. E.honest disk.old → (sectors : Sectors) (rest : List ℕ)
        → AreSectors sectors → length sectors ≡ count
        → bytes.now ≡ sector_spellings sectors ++ rest → (done ≡ true) × ((n : ℕ)
        → (now (E.trail disk.new)).reads n
        ≡ laid_over (now (E.trail disk.old)).reads sectors n)) }
    ensures device { IsSameDevice E.Disk disk.old disk.new }
{
    let mut place = 0;
    for k in 0..count {
        let (_laid, left) = bytes.split_at(place);
        if !lay_sector(left, disk)? {
            return Ok(false);
        }
        place += SPELLED;
    }
    Ok(true)
}

/// The bytes of a page with a desktop, and how many sectors they are to spell behind its front.
#[derive(Drop)]
struct Copied {
    bytes: Vec<u8>,
    count: u32,
}

/// The page with a desktop in sector `at`. None where none stands there that ends before sector `end`.
///
/// Errors: those of `Store::read_behind`; `NoMemory`.
fn copied_at<D: Disk>(
    alloc: Global,
    store: &mut Store<D>,
    at: u32,
    end: u32,
) -> Result<Option<Copied>, Error>
    requires usable { store.old.must_reopen ≡ false }
    requires room { end ≤ D.size store.old.disk }
    ensures found { IfOk result (λ found. D.honest store.old.disk → (to : Desktop)
        → (has : HasCopy (now (D.trail store.old.disk)).reads at end to)
        → IsSomeAnd found (λ x. (x.count ≡ length has.sectors) × ((rest : List ℕ)
        × (drop PAGE_FRONT x.bytes.items ≡ sector_spellings has.sectors ++ rest)))) }
    ensures front { IfOk result (λ found. IfSome found (λ x. PAGE_FRONT ≤ length x.bytes.items)) }
    ensures still { IsOnlyReadFrom D.Disk store.old store.new }
    ensures faults { FailsAs Error.Fault OfDesktop result (D.failures store.old.disk)
        (D.failures store.new.disk) }
{
    store.shows_what_crashes_leave();
    if at >= end {
        return Ok(None);
    }
    let first = bytes_at(alloc, store, at, 1)?;
    let (numbers, _sectors) = first.as_slice().split_at(PAGE_FRONT as usize);
    let Some(front) = front_of(numbers) else {
        return Ok(None);
    };
    if front.kind != MARK_PAGE && front.kind != FAR_PAGE {
        return Ok(None);
    }
    let Some(sectors) = sectors_for(front.spelled as usize + PAGE_FRONT as usize) else {
        return Ok(None);
    };
    if sectors > end - at {
        return Ok(None);
    }
    let bytes = bytes_at(alloc, store, at, sectors)?;
    Ok(Some(Copied {
        bytes,
        count: front.count,
    }))
}

/// Whether an error of a disk in memory is want of memory, and doesn't say that no store stands there.
fn is_want(error: Error) -> bool
    ensures { result ≡ false → OfOpen error → IsUnstored error }
{
    matches!(error, Error::NoMemory | Error::Fault)
}

/// The store on a disk in memory. None where there is none. Where the disk fails, there is no memory.
fn opened_copy<E: Disk + Drop>(alloc: Global, disk: E) -> Result<Option<Store<E>>, NoMemory>
    ensures { IfOk result (λ found. (to : Desktop) → IsShownOn E.Disk to disk
        → IsSomeAnd found (ShowsCopy E.Disk to)) }
{
    finding_law();
    match Store::open(alloc, disk) {
        Ok(shown) => Ok(Some(shown)),
        Err((error, _disk)) => {
            if is_want(error) {
                Err(NoMemory)
            } else {
                Ok(None)
            }
        }
    }
}

/// A store that shows the desktop of the page in sector `at`, laid on another disk, which is in memory and reads zeros. None
/// where no page with a desktop stands there that ends before sector `end`.
///
/// Errors: those of `Store::read_behind`; `NoMemory`.
pub fn copy_at<D: Disk, E: Disk + Drop>(
    alloc: Global,
    store: &mut Store<D>,
    at: u32,
    end: u32,
    disk: E,
) -> Result<Option<Store<E>>, Error>
    requires usable { store.old.must_reopen ≡ false }
    requires room { end ≤ D.size store.old.disk }
    requires blank { IsBlankRoom E.Disk disk }
    ensures shown { IfOk result (λ found. D.honest store.old.disk → E.honest disk
        → (to : Desktop) → HasCopy (now (D.trail store.old.disk)).reads at end to
        → IsSomeAnd found (ShowsCopy E.Disk to)) }
    ensures still { IsOnlyReadFrom D.Disk store.old store.new }
    ensures faults { FailsAs Error.Fault OfDesktop result (D.failures store.old.disk)
        (D.failures store.new.disk) }
{
    let Some(copied) = copied_at(alloc, store, at, end)? else {
        return Ok(None);
    };
    let mut disk = disk;
    let (_front, sectors) = copied.bytes.as_slice().split_at(PAGE_FRONT as usize);
    if !lay_sectors(sectors, copied.count, &mut disk)? {
        return Ok(None);
    }
    Ok(opened_copy(alloc, disk)?)
}

/// The desktop of the page in sector `at` of a past that ends before sector `end`, as a store in memory. None where no page
/// with a desktop stands there.
///
/// Errors: those of `Store::read_behind`; `NoMemory`.
pub fn copy_in<D: Disk>(
    alloc: Global,
    store: &mut Store<D>,
    at: u32,
    end: u32,
) -> Result<Option<Store<MemoryDisk>>, Error>
    ensures found { IfOk result (λ found. D.honest store.old.disk → (to : Desktop)
        → HasCopy (now (D.trail store.old.disk)).reads at end to → end ≤ D.size store.old.disk
        → IsSomeAnd found (λ shown. shown.desktop ≡ to)) }
    ensures still { OnOk result (IsOnlyReadFrom D.Disk store.old store.new) }
    ensures looks { OnlyLooks D.Disk result store.old store.new }
{
    if store.info().is_err() {
        return Err(Error::MustReopen);
    }
    if end > store.sectors() {
        return Ok(None);
    }
    let disk = MemoryDisk::new(alloc, STORE_SECTORS)?;
    copy_at(alloc, store, at, end, disk)
}
