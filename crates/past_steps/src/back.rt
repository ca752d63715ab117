//! A step back by a turn of the store, which is tried in memory first.
ghost use Rattle.std.specs.Prelude.{◌≡◌, ◌≢◌, ◌≤◌, false, length, IfErr, IfOk, IfSome, IfNone, IsErr, OnOk, Ok};
ghost use Rattle.store_slots.specs.Errors.{OfLook};
ghost use Rattle.desk_journal.specs.Looking.{OnlyLooks};
ghost use Rattle.desk_journal.specs.Posting.{AnswersMustReopen};
ghost use Rattle.desk_journal.specs.Undoing.{IsLeft, LeavesUndone, OfUndo};
ghost use Rattle.past_pages.specs.Reading.{IsOnlyReadFrom};
ghost use Rattle.desk_past.specs.Deeds.{after_deeds};
ghost use Rattle.desk_past.specs.Keeping.{UsesDevice};
ghost use Rattle.past_steps.specs.Steps.{BreaksOff, IsMomentOf, IsSteppedBack, LeavesSteppedBack, TakesBack, step_deeds};

use crate::steps::{Candidate, Step, last_step};
use desk_journal::{Error, GatheredDesktop, Store};
use desk_past::{copy_of, moment, post_all, turn_to};
use sector_disk::{Disk, MemoryDisk, NoMemory};
use std::alloc::Global;

/// What was made of a disk in memory. Its faults are want of memory; None where another error came.
fn of_memory<T: Drop>(made: Result<T, Error>) -> Result<Option<T>, NoMemory>
    ensures { IfOk result (λ found. IfSome found (λ value. made ≡ Ok value)) }
{
    match made {
        Ok(value) => Ok(Some(value)),
        Err(Error::NoMemory) | Err(Error::Fault) => Err(NoMemory),
        Err(_) => Ok(None),
    }
}

/// Does a step to a store in memory.
///
/// Errors: those of `post_all` and `Store::bring`.
fn do_step(alloc: Global, shown: &mut Store<MemoryDisk>, step: &Step) -> Result<(), Error>
    ensures { OnOk result (shown.new.desktop
        ≡ after_deeds shown.old.desktop (step_deeds step.now)) }
{
    match step {
        Step::Events(events) => post_all(alloc, shown, events.as_slice()),
        Step::Import(documents) => {
            let _ = shown.bring(alloc, documents.as_slice())?;
            Ok(())
        }
    }
}

/// What this store shows, and what it shows once a step is done. It is let go.
///
/// Errors: those of `copy_of`, `do_step` and `Store::gathered`.
fn both_gathered(
    alloc: Global,
    shown: Store<MemoryDisk>,
    step: &Step,
) -> Result<(GatheredDesktop, GatheredDesktop), Error>
    ensures { IfOk result (λ both. (both.0.desktop ≡ shown.desktop)
        × (both.1.desktop ≡ after_deeds shown.desktop (step_deeds step.now))) }
{
    let mut shown = shown;
    let copy = copy_of(alloc, &mut shown)?;
    do_step(alloc, &mut shown, step)?;
    let before = copy.gathered(alloc)?;
    let after = shown.gathered(alloc)?;
    Ok((before, after))
}

/// Moment `k` of the past that begins in sector `base`, in memory. None where it has no such moment, or none begins there.
///
/// Errors: `NoMemory`; `Fault`.
fn moment_in<D: Disk>(
    alloc: Global,
    store: &mut Store<D>,
    base: u32,
    k: u64,
) -> Result<Option<Store<MemoryDisk>>, Error>
    requires { store.old.must_reopen ≡ false }
    ensures was { IfOk result (λ found. IfSome found (λ shown.
        IsMomentOf D.Disk base k shown.desktop store.old)) }
    ensures looks { OnlyLooks D.Disk result store.old store.new }
{
    match moment(alloc, store, base, k) {
        Ok(found) => Ok(found),
        Err(Error::NoMemory) => Err(Error::NoMemory),
        Err(Error::Fault) => Err(Error::Fault),
        Err(_) => Ok(None),
    }
}

/// The desktop of the moment before a step, where that leads from it to what the store shows. None where it doesn't.
///
/// Errors: those of `moment_in` and `Store::shows_same`.
fn desktop_before<D: Disk>(
    alloc: Global,
    store: &mut Store<D>,
    last: &Candidate,
) -> Result<Option<GatheredDesktop>, Error>
    requires { store.old.must_reopen ≡ false }
    ensures was { IfOk result (λ found. IfSome found (λ to.
        IsMomentOf D.Disk last.now.base last.now.k to.desktop store.old)) }
    ensures leads { IfOk result (λ found. IfSome found (λ to. D.honest store.old.disk
        → after_deeds to.desktop (step_deeds last.now.step) ≡ store.old.desktop)) }
    ensures looks { OnlyLooks D.Disk result store.old store.new }
{
    let Some(shown) = moment_in(alloc, store, last.base, last.k)? else {
        return Ok(None);
    };
    let both = of_memory(both_gathered(alloc, shown, &last.step))?;
    let Some((before, after)) = both else {
        return Ok(None);
    };
    if store.shows_same(alloc, after)? {
        Ok(Some(before))
    } else {
        Ok(None)
    }
}

/// Takes the last step back by a turn: so many events, or as many as the past tells of, or an import. None where it tells of
/// none that leads to what the store shows, where too much was done since its part began, or where it has no room for a
/// turn: then nothing is written.
///
/// Errors: those of `last_step`, `desktop_before` and `turn_to`.
fn turned_back<D: Disk>(
    alloc: Global,
    store: &mut Store<D>,
    count: u32,
) -> Result<Option<Step>, Error>
    requires { store.old.must_reopen ≡ false }
    ensures turned { IfOk result (λ found. IfSome found (λ step.
        IsSteppedBack D.Disk count (step_deeds step) store.old store.new)) }
    ensures none { IfOk result (λ found. IfNone found (IsOnlyReadFrom D.Disk store.old store.new)) }
    ensures breaks { IfErr result (λ error. BreaksOff D.Disk count error store.old store.new) }
    ensures device { UsesDevice D.Disk OfLook result store.old store.new }
{
    store.shows_what_crashes_leave();
    let Some(last) = last_step(alloc, store, count as usize)? else {
        return Ok(None);
    };
    store.shows_what_crashes_leave();
    let Some(to) = desktop_before(alloc, store, &last)? else {
        return Ok(None);
    };
    if turn_to(alloc, store, last.k, to)? {
        Ok(Some(last.step))
    } else {
        Ok(None)
    }
}

/// Takes events back as `Store::undo` does.
///
/// Errors: those of `Store::undo`.
fn undone<D: Disk>(alloc: Global, store: &mut Store<D>, count: u32) -> Result<Step, Error>
    ensures any_moment { LeavesUndone D.Disk count store.old store.new }
    ensures ok { IfOk result (λ step. TakesBack D.Disk count (step_deeds step) store.old
        store.new) }
    ensures left { IsErr result → store.old.must_reopen ≡ false → store.new.must_reopen ≡ false
        → IsLeft D.Disk store.old store.new }
    ensures in_use { IfErr result (λ e. e ≢ Error.Fault → e ≢ Error.MustReopen
        → store.new.must_reopen ≡ false) }
    ensures stops { D.honest store.old.disk → IfErr result OfLook }
    ensures reopen { AnswersMustReopen result store.old store.new }
    ensures device { UsesDevice D.Disk OfUndo result store.old store.new }
{
    match store.undo(alloc, count) {
        Ok(events) => Ok(Step::Events(events)),
        Err(error) => Err(error),
    }
}

/// Takes the last events back, so many, or fewer, or where an import came last, this, and hands out what was taken back.
/// Where the store keeps a past that tells of it, and not too much was done since its part began, it is turned to the moment
/// before it, so that nothing is forgotten; else it takes events back itself, as `Store::undo` does.
///
/// Errors: those of `Store::undo`; a disk in memory that fails is want of memory.
pub fn step_back<D: Disk>(alloc: Global, store: &mut Store<D>, count: u32) -> Result<Step, Error>
    ensures any_moment { LeavesSteppedBack D.Disk count store.old store.new }
    ensures ok { IfOk result (λ step. IsSteppedBack D.Disk count (step_deeds step) store.old
        store.new) }
    ensures left { IsErr result → store.old.must_reopen ≡ false → store.new.must_reopen ≡ false
        → IsLeft D.Disk store.old store.new }
    ensures in_use { IfErr result (λ e. e ≢ Error.Fault → e ≢ Error.MustReopen
        → store.new.must_reopen ≡ false) }
    ensures stops { D.honest store.old.disk → IfErr result OfLook }
    ensures reopen { AnswersMustReopen result store.old store.new }
    ensures device { UsesDevice D.Disk OfUndo result store.old store.new }
{
    if store.info().is_err() {
        return Err(Error::MustReopen);
    }
    match turned_back(alloc, store, count)? {
        Some(step) => Ok(step),
        None => undone(alloc, store, count),
    }
}
