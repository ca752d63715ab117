//! A past that goes on where a sitting begins, or begins there.
ghost use Rattle.std.specs.Prelude.{◌≡◌, ◌⊎◌, ◌+◌, ◌≤◌, ◌<◌, ◌^◌, ℕ, Decides, false, IfOk, OnOk};
ghost use Rattle.sector_disk.specs.Faults.{FailsAs};
ghost use Rattle.sector_disk.specs.Trail.{now};
ghost use Rattle.store_layout.specs.declared.layout.TheConstants.{SLOTS, STORE_SECTORS};
ghost use Rattle.store_layout.specs.Meaning.{Standing};
ghost use Rattle.desk_journal.specs.Checkpointing.{LeavesDesktop};
ghost use Rattle.store_slots.specs.Errors.{OfDesktop};
ghost use Rattle.desk_journal.specs.Undoing.{ShowsStanding};
ghost use Rattle.past_pages.specs.Parts.{HasParts, IsPartBeside, part_count};
ghost use Rattle.past_pages.specs.declared.parts.TheConstants.{LEAST_ROOM};
ghost use Rattle.past_pages.specs.Reading.{IsOnlyReadFrom};
ghost use Rattle.desk_past.specs.Beginning.{ForgetsNoneBefore, HasStartRoom, IsStoppedBy, SparesAround};
ghost use Rattle.desk_past.specs.Going.{CanGoOn, ForgetsNone, IsDueOutset, IsOlderOf, IsOldest, IsOutsetIn, IsOutsetOf};
ghost use Rattle.desk_past.specs.Going.{IsStartedSomewhere, IsWanted, slot_epoch, start_epoch};
ghost use Rattle.desk_past.specs.Writing.{LiesInOldest, WritesOnly};

use crate::beginning::begin;
use desk_journal::{Error, STORE_SECTORS, Store};
use past_pages::{LEAST_ROOM, goes_on_in, has_parts, part_at, part_base, part_count, sector_at};
use sector_disk::Disk;
use std::alloc::Global;
use store_layout::{Head, LABEL, has_label, is_open_gate, slot_gate, slot_head, standing_law};

/// What has become of a past where a sitting begins.
#[derive(Clone, Copy, Debug, PartialEq, Eq)]
pub enum Outset {
    /// The store keeps none.
    Absent,
    /// The one that there is goes on.
    GoesOn,
    /// One begins, behind the one that there was, if there was one.
    Begins,
}

/// The epoch of a slot of the start in sector `base`, or 0 where its gate is closed.
///
/// Errors: those of `Store::read_behind`.
fn slot_epoch<D: Disk>(store: &mut Store<D>, base: u32, slot: u32) -> Result<u32, Error>
    requires usable { store.old.must_reopen ≡ false }
    requires slot { slot < SLOTS }
    requires numbered { base + STORE_SECTORS < 2 ^ 32 }
    requires there { base + STORE_SECTORS ≤ D.size store.old.disk }
    ensures epoch { IfOk result (λ epoch. D.honest store.old.disk
        → epoch ≡ slot_epoch (now (D.trail store.old.disk)).reads base slot) }
    ensures still { IsOnlyReadFrom D.Disk store.old store.new }
    ensures faults { FailsAs Error.Fault OfDesktop result (D.failures store.old.disk)
        (D.failures store.new.disk) }
{
    store.shows_what_crashes_leave();
    let gate = sector_at(store, base + slot_gate(slot))?;
    let head = sector_at(store, base + slot_head(slot))?;
    if is_open_gate(&gate) {
        Ok(Head::of(&head).epoch)
    } else {
        Ok(0)
    }
}

/// The epoch of the start in sector `base`, or 0 where none stands there.
///
/// Errors: those of `Store::read_behind`.
fn start_epoch<D: Disk>(store: &mut Store<D>, base: u32) -> Result<u32, Error>
    requires usable { store.old.must_reopen ≡ false }
    requires numbered { base + STORE_SECTORS < 2 ^ 32 }
    requires there { base + STORE_SECTORS ≤ D.size store.old.disk }
    ensures epoch { IfOk result (λ epoch. D.honest store.old.disk
        → epoch ≡ start_epoch (now (D.trail store.old.disk)).reads base) }
    ensures still { IsOnlyReadFrom D.Disk store.old store.new }
    ensures faults { FailsAs Error.Fault OfDesktop result (D.failures store.old.disk)
        (D.failures store.new.disk) }
{
    store.shows_what_crashes_leave();
    let label = sector_at(store, base + LABEL)?;
    let first = slot_epoch(store, base, 0)?;
    let second = slot_epoch(store, base, 1)?;
    if has_label(&label) {
        Ok(first.max(second))
    } else {
        Ok(0)
    }
}

/// Whether in some part a start stands.
///
/// Errors: those of `Store::read_behind`.
fn is_started<D: Disk>(store: &mut Store<D>) -> Result<bool, Error>
    requires { store.old.must_reopen ≡ false }
    ensures is { IfOk result (λ is. D.honest store.old.disk → Decides is
        (IsStartedSomewhere (D.size store.old.disk) (now (D.trail store.old.disk)).reads)) }
    ensures still { IsOnlyReadFrom D.Disk store.old store.new }
    ensures faults { FailsAs Error.Fault OfDesktop result (D.failures store.old.disk)
        (D.failures store.new.disk) }
{
    store.shows_what_crashes_leave();
    let sectors = store.sectors();
    for place in 0..part_count(sectors) {
        if start_epoch(store, part_base(sectors, place))? > 0 {
            return Ok(true);
        }
    }
    Ok(false)
}

/// Whether a past is to go on or to begin: one is asked for, or was kept, since pages go on in sector `next`, or there is a
/// start.
///
/// Errors: those of `is_started`.
fn is_wanted<D: Disk>(store: &mut Store<D>, asked: bool, next: u32) -> Result<bool, Error>
    requires { store.old.must_reopen ≡ false }
    ensures is { IfOk result (λ is. D.honest store.old.disk → Decides is
        (IsWanted asked (D.size store.old.disk) next (now (D.trail store.old.disk)).reads)) }
    ensures still { IsOnlyReadFrom D.Disk store.old store.new }
    ensures faults { FailsAs Error.Fault OfDesktop result (D.failures store.old.disk)
        (D.failures store.new.disk) }
{
    if asked {
        return Ok(true);
    }
    let Some(_part) = part_at(store.sectors(), next) else {
        return is_started(store);
    };
    Ok(true)
}

/// The part that is the oldest of two, so far, and the epoch of its start.
#[derive(Clone, Copy, Debug, PartialEq, Eq)]
pub(crate) struct Oldest {
    pub base: u32,
    pub epoch: u32,
}

/// The older one of two parts, the first of them where they are as old.
fn older(first: Oldest, second: Oldest) -> Oldest
    ensures least { (result.epoch ≤ first.epoch) × (result.epoch ≤ second.epoch) }
    ensures one { (result ≡ first) ⊎ (result ≡ second) }
{
    if second.epoch < first.epoch {
        second
    } else {
        first
    }
}

/// Where the first part begins in which pages don't go on in sector `next`.
fn first_beside(sectors: u32, next: u32) -> u32
    requires { HasParts sectors }
    ensures { IsPartBeside sectors next result }
{
    let first = part_base(sectors, 0);
    if goes_on_in(first, next) {
        part_base(sectors, 1)
    } else {
        first
    }
}

/// The older one of this part and the one at a place, where pages don't go on in that in sector `next`.
///
/// Errors: those of `Store::read_behind`.
fn older_at<D: Disk>(
    store: &mut Store<D>,
    found: Oldest,
    place: u32,
    next: u32,
) -> Result<Oldest, Error>
    requires usable { store.old.must_reopen ≡ false }
    requires there { place < part_count (D.size store.old.disk) }
    requires beside { IsPartBeside (D.size store.old.disk) next found.base }
    ensures beside { IfOk result (λ older. IsPartBeside (D.size store.old.disk) next older.base) }
    ensures older { IfOk result (λ older. D.honest store.old.disk → IsOlderOf found.base
        found.epoch place next (now (D.trail store.old.disk)).reads older.base older.epoch) }
    ensures still { IsOnlyReadFrom D.Disk store.old store.new }
    ensures faults { FailsAs Error.Fault OfDesktop result (D.failures store.old.disk)
        (D.failures store.new.disk) }
{
    store.shows_what_crashes_leave();
    let base = part_base(store.sectors(), place);
    if goes_on_in(base, next) {
        return Ok(found);
    }
    let epoch = start_epoch(store, base)?;
    Ok(older(found, Oldest { base, epoch }))
}

/// Where the part begins whose start is the oldest one, or which has none, beside the part in which pages go on in sector
/// `next`.
///
/// Errors: those of `Store::read_behind`.
pub(crate) fn oldest_base<D: Disk>(store: &mut Store<D>, next: u32) -> Result<u32, Error>
    requires usable { store.old.must_reopen ≡ false }
    requires parts { HasParts (D.size store.old.disk) }
    ensures oldest { IfOk result (λ base. D.honest store.old.disk
        → IsOldest (D.size store.old.disk) next base (now (D.trail store.old.disk)).reads) }
    ensures beside { IfOk result (IsPartBeside (D.size store.old.disk) next) }
    ensures still { IsOnlyReadFrom D.Disk store.old store.new }
    ensures faults { FailsAs Error.Fault OfDesktop result (D.failures store.old.disk)
        (D.failures store.new.disk) }
{
    store.shows_what_crashes_leave();
    let sectors = store.sectors();
    let base = first_beside(sectors, next);
    let epoch = start_epoch(store, base)?;
    let mut found = Oldest { base, epoch };
    for place in 0..part_count(sectors) {
        let older = older_at(store, found, place, next)?;
        found = older;
    }
    Ok(found.base)
}

/// Whether a start of this epoch stands, and pages that go on in sector `next` have room for a sitting up to sector `end`.
fn has_room(epoch: u32, next: u32, end: u32) -> bool
    requires { next ≤ end }
    ensures { Decides result ((0 < epoch) × (next + LEAST_ROOM ≤ end)) }
{
    epoch > 0 && end - next >= LEAST_ROOM
}

/// Whether the part in which pages go on in sector `next` has its start, and isn't full.
///
/// Errors: those of `Store::read_behind`.
fn can_go_on<D: Disk>(store: &mut Store<D>, next: u32) -> Result<bool, Error>
    requires { store.old.must_reopen ≡ false }
    ensures is { IfOk result (λ is. D.honest store.old.disk → Decides is
        (CanGoOn (D.size store.old.disk) next (now (D.trail store.old.disk)).reads)) }
    ensures still { IsOnlyReadFrom D.Disk store.old store.new }
    ensures faults { FailsAs Error.Fault OfDesktop result (D.failures store.old.disk)
        (D.failures store.new.disk) }
{
    let Some(part) = part_at(store.sectors(), next) else {
        return Ok(false);
    };
    let epoch = start_epoch(store, part.base)?;
    Ok(has_room(epoch, next, part.end))
}

/// Begins a past in sector `base`, as `begin` does.
///
/// Errors: those of `begin`.
fn begin_at<D: Disk>(alloc: Global, store: &mut Store<D>, base: u32) -> Result<Outset, Error>
    requires { HasStartRoom (D.size store.old.disk) base }
    ensures any_moment { LeavesDesktop D.Disk store.old store.new }
    ensures none_forgotten { ForgetsNoneBefore D.Disk base store.old store.new }
    ensures comes { IfOk result (IsOutsetIn D.Disk base store.old store.new) }
    ensures device { IsStoppedBy D.Disk result store.old store.new }
    ensures usable { OnOk result (store.new.must_reopen ≡ false) }
    ensures others { SparesAround D.Disk base store.old store.new }
{
    if begin(alloc, store, base)? {
        Ok(Outset::Begins)
    } else {
        Ok(Outset::Absent)
    }
}

/// Sees to it that a past goes on where a sitting begins. One begins in the oldest part where the one in use has lost its start,
/// or is full, or where the head tells of none; but where the store never had one only if one is asked for. `Absent` where none
/// is asked for, where the disk has no room for two parts, where the events before it are too many to be counted, and, over a
/// disk that isn't honest, where a start reads otherwise than it was written.
///
/// Errors: those of `Store::past` and `begin`.
pub fn go_on<D: Disk>(alloc: Global, store: &mut Store<D>, asked: bool) -> Result<Outset, Error>
    requires { store.old.must_reopen ≡ false }
    ensures any_moment { LeavesDesktop D.Disk store.old store.new }
    ensures none_forgotten { ForgetsNone D.Disk store.old store.new }
    ensures comes { IfOk result (IsOutsetOf D.Disk store.old store.new) }
    ensures due { IfOk result (λ outset. D.honest store.old.disk → (s : Standing)
        → ShowsStanding D.Disk store.old s → IsDueOutset D.Disk asked store.old s outset) }
    ensures device { IsStoppedBy D.Disk result store.old store.new }
    ensures usable { OnOk result (store.new.must_reopen ≡ false) }
    ensures others { WritesOnly D.Disk (LiesInOldest (D.size store.old.disk)
        (now (D.trail store.old.disk)).reads) store.old store.new }
{
    standing_law();
    store.shows_what_crashes_leave();
    if !has_parts(store.sectors()) {
        return Ok(Outset::Absent);
    }
    let told = store.past()?;
    if !is_wanted(store, asked, told.next)? {
        return Ok(Outset::Absent);
    }
    if can_go_on(store, told.next)? {
        return Ok(Outset::GoesOn);
    }
    let base = oldest_base(store, told.next)?;
    begin_at(alloc, store, base)
}
