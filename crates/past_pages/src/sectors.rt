//! Sectors behind a store: read and compared.
ghost use Rattle.std.specs.Prelude.{◌≡◌, ◌+◌, ◌*◌, ◌^◌, ◌<◌, ◌≤◌, ℕ, true, false, length, replicate, IfOk};
ghost use Rattle.sector_disk.specs.declared.disk.TheConstants.{SECTOR_BYTES};
ghost use Rattle.sector_disk.specs.Faults.{FailsAs};
ghost use Rattle.sector_disk.specs.Stored.{stored};
ghost use Rattle.sector_disk.specs.Trail.{now};
ghost use Rattle.store_layout.specs.Filling.{InRange};
ghost use Rattle.store_slots.specs.Errors.{OfDesktop};
ghost use Rattle.desk_journal.specs.Looking.{OnlyLooks};
ghost use Rattle.past_pages.specs.Sectors.{HasCopies, HoldsSame, AreBlank};
ghost use Rattle.past_pages.specs.Reading.{IsOnlyReadFrom};

use desk_journal::{Error, Store};
use sector_disk::{Disk, SECTOR_BYTES, Sector};
use std::alloc::{AllocError, Global};

/// A sector of zeros, to be filled. Its callers know no byte of it.
pub(crate) fn blank_sector() -> Sector {
    [0; SECTOR_BYTES as usize]
}

/// So many zeros, each a byte.
///
/// Error: `AllocError` where there is no memory for them.
pub fn zeros(alloc: Global, count: usize) -> Result<Vec<u8>, AllocError>
    ensures { IfOk result (λ zeros. zeros.items ≡ replicate count 0) }
{
    let zeros = vec![in alloc; 0; count]?;
    Ok(zeros)
}

/// The bytes that sector `n` of the store's disk holds.
///
/// Errors: those of `Store::read_behind`.
pub fn sector_at<D: Disk>(store: &mut Store<D>, n: u32) -> Result<Sector, Error>
    requires { n < D.size store.old.disk }
    ensures bytes { IfOk result (λ bytes. D.honest store.old.disk
        → bytes ≡ (now (D.trail store.old.disk)).reads n) }
    ensures looks { OnlyLooks D.Disk result store.old store.new }
{
    let mut sector = blank_sector();
    store.read_behind(n, &mut sector)?;
    Ok(sector)
}

/// The bytes of so many sectors of the store's disk, from `at` on.
///
/// Errors: those of `Store::read_behind`; `NoMemory`.
pub fn bytes_at<D: Disk>(
    alloc: Global,
    store: &mut Store<D>,
    at: u32,
    count: u32,
) -> Result<Vec<u8>, Error>
    requires usable { store.old.must_reopen ≡ false }
    requires numbered { at + count < 2 ^ 32 }
    requires room { at + count ≤ D.size store.old.disk }
    ensures bytes { IfOk result (λ bytes. D.honest store.old.disk
        → bytes.items ≡ stored (now (D.trail store.old.disk)).reads at (SECTOR_BYTES * count)) }
    ensures long { IfOk result (λ bytes. length bytes.items ≡ SECTOR_BYTES * count) }
    ensures still { IsOnlyReadFrom D.Disk store.old store.new }
    ensures faults { FailsAs Error.Fault OfDesktop result (D.failures store.old.disk)
        (D.failures store.new.disk) }
{
    store.shows_what_crashes_leave();
    let mut bytes = Vec::new(alloc);
    for k in 0..count {
        let sector = sector_at(store, at + k)?;
        bytes.extend_from_slice(&sector)?;
    }
    Ok(bytes)
}

/// Whether a sector holds nothing but zeros. All bytes are looked at, many at a time.
pub(crate) fn is_zeros(sector: &Sector) -> bool
    ensures { result ≡ true → sector.now ≡ replicate SECTOR_BYTES 0 }
{
    let mut zeros = true;
    for byte in sector {
        zeros &= *byte == 0;
    }
    zeros
}

/// Whether so many sectors of the store's disk, from `from` on, are the same as those `base` sectors further on.
///
/// Errors: those of `Store::read_behind`.
pub fn is_copied<D: Disk>(
    store: &mut Store<D>,
    base: u32,
    from: u32,
    count: u32,
) -> Result<bool, Error>
    requires usable { store.old.must_reopen ≡ false }
    requires numbered { base + from + count < 2 ^ 32 }
    requires there { base + from + count ≤ D.size store.old.disk }
    ensures same { IfOk result (λ is. is ≡ true → D.honest store.old.disk → (n : ℕ)
        → InRange from count n → (now (D.trail store.old.disk)).reads (base + n)
        ≡ (now (D.trail store.old.disk)).reads n) }
    ensures all { IfOk result (λ is. D.honest store.old.disk → HasCopies base from count
        (now (D.trail store.old.disk)).reads (now (D.trail store.old.disk)).reads → is ≡ true) }
    ensures still { IsOnlyReadFrom D.Disk store.old store.new }
    ensures faults { FailsAs Error.Fault OfDesktop result (D.failures store.old.disk)
        (D.failures store.new.disk) }
{
    store.shows_what_crashes_leave();
    for k in from..from + count {
        if !are_alike(store, k, base + k)? {
            return Ok(false);
        }
    }
    Ok(true)
}

/// Whether two sectors hold the same.
fn are_alike<D: Disk>(store: &mut Store<D>, n: u32, other: u32) -> Result<bool, Error>
    requires usable { store.old.must_reopen ≡ false }
    requires first { n < D.size store.old.disk }
    requires second { other < D.size store.old.disk }
    ensures same { IfOk result (λ is. is ≡ true → D.honest store.old.disk
        → (now (D.trail store.old.disk)).reads other ≡ (now (D.trail store.old.disk)).reads n) }
    ensures all { IfOk result (λ is. D.honest store.old.disk
        → HoldsSame ((now (D.trail store.old.disk)).reads other)
        ((now (D.trail store.old.disk)).reads n) → is ≡ true) }
    ensures still { IsOnlyReadFrom D.Disk store.old store.new }
    ensures faults { FailsAs Error.Fault OfDesktop result (D.failures store.old.disk)
        (D.failures store.new.disk) }
{
    store.shows_what_crashes_leave();
    let sector = sector_at(store, n)?;
    let copy = sector_at(store, other)?;
    Ok(copy == sector)
}

/// Whether so many sectors of the store's disk hold nothing but zeros, from `from` on.
///
/// Errors: those of `Store::read_behind`.
pub fn is_blank<D: Disk>(store: &mut Store<D>, from: u32, count: u32) -> Result<bool, Error>
    requires usable { store.old.must_reopen ≡ false }
    requires numbered { from + count < 2 ^ 32 }
    requires there { from + count ≤ D.size store.old.disk }
    ensures blank { IfOk result (λ is. is ≡ true → D.honest store.old.disk
        → AreBlank from count (now (D.trail store.old.disk)).reads) }
    ensures still { IsOnlyReadFrom D.Disk store.old store.new }
    ensures faults { FailsAs Error.Fault OfDesktop result (D.failures store.old.disk)
        (D.failures store.new.disk) }
{
    store.shows_what_crashes_leave();
    for n in from..from + count {
        let sector = sector_at(store, n)?;
        if !is_zeros(&sector) {
            return Ok(false);
        }
    }
    Ok(true)
}
