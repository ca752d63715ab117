//! A past that is forgotten.
ghost use Rattle.std.specs.Prelude.{◌≡◌, ◌+◌, ◌*◌, ◌^◌, ◌≤◌, ◌<◌, true, false, IfOk, OnOk};
ghost use Rattle.sector_disk.specs.declared.disk.TheConstants.{SECTOR_BYTES};
ghost use Rattle.sector_disk.specs.Trail.{now};
ghost use Rattle.store_layout.specs.declared.layout.TheConstants.{STORE_SECTORS};
ghost use Rattle.store_slots.specs.Errors.{OfDesktop};
ghost use Rattle.desk_journal.specs.Checkpointing.{LeavesDesktop};
ghost use Rattle.past_pages.specs.Sectors.{AreBlank};
ghost use Rattle.past_pages.specs.Parts.{HasParts, IsPastPart, parts_end};
ghost use Rattle.past_pages.specs.declared.parts.TheConstants.{PARTS, PART_SECTORS};
ghost use Rattle.desk_past.specs.Beginning.{AreUncounted, HasStartRoom, IsAside, IsStoppedBy, SparesAllBut};
ghost use Rattle.desk_past.specs.Forgetting.{AreBlankBeside, HasForgotten, SparesStart};
ghost use Rattle.desk_past.specs.Keeping.{UsesDevice};

use crate::beginning::begin;
use crate::going_on::oldest_base;
use desk_journal::{Error, STORE_SECTORS, Store};
use past_pages::{PART_SECTORS, PARTS, has_parts, is_blank, part_count, zeros};
use sector_disk::{Disk, SECTOR_BYTES};
use std::alloc::Global;

/// How many sectors are overwritten in one call, which syncs.
const AT_ONCE: u32 = 1024;

/// Overwrites so many sectors behind the store with zeros, from `from` on, at most 1024, and settles them. Where they have
/// zeros already nothing is written: so a sparse file stays as it is there.
///
/// Errors: those of `Store::read_behind` and `Store::write_behind`; `NoMemory`.
fn blank_some<D: Disk>(
    alloc: Global,
    store: &mut Store<D>,
    from: u32,
    count: u32,
) -> Result<(), Error>
    requires usable { store.old.must_reopen ≡ false }
    requires behind { STORE_SECTORS ≤ from }
    requires some { (0 < count) × (count ≤ 1024) }
    requires room { (from + count < 2 ^ 32) × (from + count ≤ D.size store.old.disk) }
    ensures only { SparesAllBut D.Disk from count store.old store.new }
    ensures device { UsesDevice D.Disk OfDesktop result store.old store.new }
    ensures aside { OnOk result (IsAside D.Disk store.old store.new) }
    ensures blank { OnOk result (D.honest store.old.disk
        → AreBlank from count (now (D.trail store.new.disk)).reads) }
{
    store.shows_what_crashes_leave();
    if is_blank(store, from, count)? {
        return Ok(());
    }
    store.shows_what_crashes_leave();
    let zeros = zeros(alloc, (count * SECTOR_BYTES) as usize)?;
    store.write_behind(from, count, zeros.as_slice())?;
    Ok(())
}

/// Overwrites so many sectors behind the store with zeros, from `from` on, and settles them.
///
/// Errors: those of `blank_some`.
fn blank<D: Disk>(alloc: Global, store: &mut Store<D>, from: u32, count: u32) -> Result<(), Error>
    requires usable { store.old.must_reopen ≡ false }
    requires behind { STORE_SECTORS ≤ from }
    requires room { (from + count < 2 ^ 32) × (from + count ≤ D.size store.old.disk) }
    ensures only { SparesAllBut D.Disk from count store.old store.new }
    ensures device { UsesDevice D.Disk OfDesktop result store.old store.new }
    ensures aside { OnOk result (IsAside D.Disk store.old store.new) }
    ensures blank { OnOk result (D.honest store.old.disk
        → AreBlank from count (now (D.trail store.new.disk)).reads) }
{
    store.shows_what_crashes_leave();
    let mut done = 0;
    while done < count {
        let some = AT_ONCE.min(count - done);
        blank_some(alloc, store, from + done, some)?;
        done += some;
    }
    Ok(())
}

/// Overwrites all parts with zeros, but a start in sector `base`, which begins a part.
///
/// Errors: those of `blank_some`.
fn blank_beside<D: Disk>(alloc: Global, store: &mut Store<D>, base: u32) -> Result<(), Error>
    requires usable { store.old.must_reopen ≡ false }
    requires part { IsPastPart (D.size store.old.disk) base (base + PART_SECTORS) }
    ensures only { SparesStart D.Disk base store.old store.new }
    ensures device { UsesDevice D.Disk OfDesktop result store.old store.new }
    ensures aside { OnOk result (IsAside D.Disk store.old store.new) }
    ensures blank { OnOk result (D.honest store.old.disk
        → AreBlankBeside (D.size store.old.disk) base (now (D.trail store.new.disk)).reads) }
{
    store.shows_what_crashes_leave();
    let end = PARTS + PART_SECTORS * part_count(store.sectors());
    blank(alloc, store, PARTS, base - PARTS)?;
    let next = base + STORE_SECTORS;
    blank(alloc, store, next, end - next)
}

/// Forgets the past behind the store: one begins anew with what the store shows now, and when that is on the medium all
/// other sectors of all parts are overwritten with zeros and settled. So of what was done before nothing is left behind
/// the store but its copy. False where the disk has no two parts, where the events before it are too many to be counted, and,
/// over a disk that isn't honest, where the copy reads otherwise than it was written: then the past stays.
///
/// Errors: those of `Store::past` and `begin`. After one of them `forget` may be called again, if the store is in use.
pub fn forget<D: Disk>(alloc: Global, store: &mut Store<D>) -> Result<bool, Error>
    requires { store.old.must_reopen ≡ false }
    ensures any_moment { LeavesDesktop D.Disk store.old store.new }
    ensures forgotten { IfOk result (λ done. done ≡ true → D.honest store.old.disk
        → HasForgotten D.Disk store.old store.new) }
    ensures refused { IfOk result (λ done. done ≡ false → D.honest store.old.disk
        → HasParts (D.size store.old.disk) → AreUncounted D.Disk store.old) }
    ensures device { IsStoppedBy D.Disk result store.old store.new }
    ensures usable { OnOk result (store.new.must_reopen ≡ false) }
{
    store.shows_what_crashes_leave();
    if !has_parts(store.sectors()) {
        return Ok(false);
    }
    let told = store.past()?;
    let base = oldest_base(store, told.next)?;
    if !begin(alloc, store, base)? {
        return Ok(false);
    }
    blank_beside(alloc, store, base)?;
    Ok(true)
}
