//! A past that begins.
ghost use Rattle.std.specs.Prelude.{◌≡◌, ◌+◌, ◌-◌, ◌^◌, ◌≤◌, ◌<◌, true, false, IfNone, IfOk, IfSome, IsErrOf, OnOk};
ghost use Rattle.sector_disk.specs.Trail.{now};
ghost use Rattle.store_layout.specs.declared.layout.TheConstants.{STORE_SECTORS};
ghost use Rattle.store_slots.specs.Errors.{OfDesktop, OfLook};
ghost use Rattle.desk_journal.specs.Checkpointing.{LeavesDesktop};
ghost use Rattle.past_pages.specs.Sectors.{HasCopies};
ghost use Rattle.desk_past.specs.Beginning.{AreUncounted, ForgetsNoneBefore, HasStartRoom, IsAside, IsBegunNow, IsBegunOrAside, IsStarted, IsStoppedBy, SparesAllBut, SparesAround, SparesOthers};
ghost use Rattle.desk_past.specs.Keeping.{UsesDevice};

use crate::reading::events_before;
use desk_journal::{Error, STORE_SECTORS, Store};
use past_pages::{bytes_at, is_copied};
use sector_disk::Disk;
use std::alloc::Global;
use store_layout::{PastEnd, standing_law};

/// How many sectors are copied in one call, which syncs. Where the copy has them already nothing is written: so the start of
/// a store that is mostly zeros takes no more room in a sparse file than the store does.
const AT_ONCE: u32 = 256;

/// Copies so many sectors of the store, from `from` on, each `base` sectors further on.
///
/// Errors: those of `Store::read_behind` and `Store::write_behind`; `NoMemory`.
fn copy_some<D: Disk>(
    alloc: Global,
    store: &mut Store<D>,
    base: u32,
    from: u32,
    count: u32,
) -> Result<(), Error>
    requires usable { store.old.must_reopen ≡ false }
    requires start { HasStartRoom (D.size store.old.disk) base }
    requires some { 0 < count }
    requires inside { from + count ≤ STORE_SECTORS }
    ensures only { SparesAllBut D.Disk (base + from) count store.old store.new }
    ensures device { UsesDevice D.Disk OfDesktop result store.old store.new }
    ensures aside { OnOk result (IsAside D.Disk store.old store.new) }
    ensures copied { OnOk result (D.honest store.old.disk → HasCopies base from count
        (now (D.trail store.old.disk)).reads (now (D.trail store.new.disk)).reads) }
{
    store.shows_what_crashes_leave();
    let bytes = bytes_at(alloc, store, from, count)?;
    store.shows_what_crashes_leave();
    store.write_behind(base + from, count, bytes.as_slice())?;
    Ok(())
}

/// The same, where the copy isn't there already.
///
/// Errors: those of `Store::read_behind` and `copy_some`.
fn copy_changed<D: Disk>(
    alloc: Global,
    store: &mut Store<D>,
    base: u32,
    from: u32,
    count: u32,
) -> Result<(), Error>
    requires usable { store.old.must_reopen ≡ false }
    requires start { HasStartRoom (D.size store.old.disk) base }
    requires some { 0 < count }
    requires inside { from + count ≤ STORE_SECTORS }
    ensures only { SparesAllBut D.Disk (base + from) count store.old store.new }
    ensures device { UsesDevice D.Disk OfDesktop result store.old store.new }
    ensures aside { OnOk result (IsAside D.Disk store.old store.new) }
    ensures copied { OnOk result (D.honest store.old.disk → HasCopies base from count
        (now (D.trail store.old.disk)).reads (now (D.trail store.new.disk)).reads) }
{
    store.shows_what_crashes_leave();
    if is_copied(store, base, from, count)? {
        return Ok(());
    }
    copy_some(alloc, store, base, from, count)?;
    Ok(())
}

/// Copies the sectors of the store behind its label, each `base` sectors further on.
///
/// Errors: those of `copy_changed`.
fn copy_rest<D: Disk>(alloc: Global, store: &mut Store<D>, base: u32) -> Result<(), Error>
    requires usable { store.old.must_reopen ≡ false }
    requires start { HasStartRoom (D.size store.old.disk) base }
    ensures others { SparesOthers D.Disk base store.old store.new }
    ensures device { UsesDevice D.Disk OfDesktop result store.old store.new }
    ensures aside { OnOk result (IsAside D.Disk store.old store.new) }
    ensures copied { OnOk result (D.honest store.old.disk → HasCopies base 1 (STORE_SECTORS - 1)
        (now (D.trail store.old.disk)).reads (now (D.trail store.new.disk)).reads) }
{
    store.shows_what_crashes_leave();
    let mut done = 1;
    while done < STORE_SECTORS {
        let count = AT_ONCE.min(STORE_SECTORS - done);
        copy_changed(alloc, store, base, done, count)?;
        done += count;
    }
    Ok(())
}

/// Copies the sectors of the store to those from `base` on. The label there is taken away first, and comes last.
///
/// Errors: those of `copy_changed`.
fn copy_behind<D: Disk>(alloc: Global, store: &mut Store<D>, base: u32) -> Result<(), Error>
    requires usable { store.old.must_reopen ≡ false }
    requires start { HasStartRoom (D.size store.old.disk) base }
    ensures others { SparesOthers D.Disk base store.old store.new }
    ensures device { UsesDevice D.Disk OfDesktop result store.old store.new }
    ensures aside { OnOk result (IsAside D.Disk store.old store.new) }
    ensures copied { OnOk result (D.honest store.old.disk → HasCopies base 0 STORE_SECTORS
        (now (D.trail store.old.disk)).reads (now (D.trail store.new.disk)).reads) }
{
    store.shows_what_crashes_leave();
    store.write_behind(base, 1, &[])?;
    copy_rest(alloc, store, base)?;
    copy_some(alloc, store, base, 0, 1)
}

/// Copies the store to the sectors from `base` on and reads the copy back: how many events came before what it shows. None
/// where what is read isn't what was written, or where they are too many to be counted.
///
/// Errors: those of `events_before` and `copy_some`.
fn make_start<D: Disk>(alloc: Global, store: &mut Store<D>, base: u32) -> Result<Option<u64>, Error>
    requires { HasStartRoom (D.size store.old.disk) base }
    ensures others { SparesOthers D.Disk base store.old store.new }
    ensures device { UsesDevice D.Disk OfLook result store.old store.new }
    ensures open { IsErrOf result Error.MustReopen → store.old.must_reopen ≡ true }
    ensures start { IfOk result (λ found. IfSome found (λ before. IsStarted D.Disk base before
        store.old store.new)) }
    ensures none { IfOk result (λ found. IfNone found (D.honest store.old.disk
        → AreUncounted D.Disk store.old)) }
    ensures aside { OnOk result (IsAside D.Disk store.old store.new) }
{
    store.shows_what_crashes_leave();
    let Some(before) = events_before(store)? else {
        return Ok(None);
    };
    store.shows_what_crashes_leave();
    copy_behind(alloc, store, base)?;
    store.shows_what_crashes_leave();
    if !is_copied(store, base, 0, STORE_SECTORS)? {
        return Ok(None);
    }
    Ok(Some(before))
}

/// Begins a past, from what the store shows now: the store is copied to the sectors from `base` on and read back, and a
/// checkpoint begins an epoch whose head tells of it. Where the store has a past already, apart from these sectors, that
/// one stays, up to the new start. False where what is read isn't what was written, or where the events before it are too
/// many to be counted: then the store shows what it showed, and its head tells what it told.
///
/// Errors: those of `Store::read_behind`, `Store::write_behind` and `Store::checkpoint`; `NoMemory`.
pub fn begin<D: Disk>(alloc: Global, store: &mut Store<D>, base: u32) -> Result<bool, Error>
    requires { HasStartRoom (D.size store.old.disk) base }
    ensures any_moment { LeavesDesktop D.Disk store.old store.new }
    ensures none_forgotten { ForgetsNoneBefore D.Disk base store.old store.new }
    ensures begun { IfOk result (λ done. done ≡ true
        → IsBegunNow D.Disk base store.old store.new) }
    ensures refused { IfOk result (λ done. done ≡ false → D.honest store.old.disk
        → AreUncounted D.Disk store.old) }
    ensures turned { IfOk result (λ done. IsBegunOrAside D.Disk done store.old store.new) }
    ensures others { SparesAround D.Disk base store.old store.new }
    ensures device { IsStoppedBy D.Disk result store.old store.new }
{
    standing_law();
    store.shows_what_crashes_leave();
    let Some(before) = make_start(alloc, store, base)? else {
        return Ok(false);
    };
    store.shows_what_crashes_leave();
    let next = base + STORE_SECTORS;
    store.checkpoint_with(PastEnd { next, before })?;
    Ok(true)
}
