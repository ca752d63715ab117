//! A store that is turned to a moment of its past, which goes on over that.
ghost use Rattle.std.specs.Prelude.{◌≡◌, false, length, true, IfErr, IfNone, IfOk, IfSome, IsErrOf, OnOk};
ghost use Rattle.sector_disk.specs.Faults.{FailsAs};
ghost use Rattle.store_slots.specs.Errors.{OfDesktop, OfLook};
ghost use Rattle.desktop_definitions.specs.Desktop.{Desktop};
ghost use Rattle.desk_journal.specs.Behind.{FitBehind};
ghost use Rattle.desk_journal.specs.Posting.{AnswersMustReopen};
ghost use Rattle.desk_journal.specs.Turning.{IsTurnedTo, LeavesThisOrThat};
ghost use Rattle.desk_journal.specs.Undoing.{IsLeft};
ghost use Rattle.past_pages.specs.Reading.{IsOnlyReadFrom};
ghost use Rattle.past_pages.specs.Marks.{IsCopyPage};
ghost use Rattle.past_pages.specs.Page.{turn_of};
ghost use Rattle.desk_past.specs.Ahead.{IsAhead};
ghost use Rattle.desk_past.specs.Errors.{OfMoment};
ghost use Rattle.desk_past.specs.Going.{LiesInPart};
ghost use Rattle.desk_past.specs.Keeping.{CanTurn};
ghost use Rattle.desk_past.specs.Past.{HasMoment};
ghost use Rattle.desk_past.specs.Turning.{CanTurnTo, ComesToMoment, HasTurnedBack, PastOf, StaysUnturned, TurnsBack, TurnsTo};
ghost use Rattle.desk_past.specs.Turning.{CanAddCopy, CanTurnFar, HasTurnedFar, KeepsTurned, LeavesTurned, TurnsFar, WasAt, WasThenAt};
ghost use Rattle.desk_past.specs.Writing.{AreAhead, UsesAhead};

use crate::ahead::{Ahead, page_ahead};
use crate::chain::any_moment;
use crate::reading::{copy_of as copied, moment};
use desk_journal::{Error, GatheredDesktop, Store};
use past_pages::{copy_page, part_at, turn_page};
use sector_disk::{Disk, MemoryDisk};
use std::alloc::Global;
use store_layout::LAST_EPOCH;

/// What is to be written behind a store in use before it turns to moment `k` of its past. None where that has no room
/// for it, or there is none.
///
/// Errors: `NoMemory` and `Fault`.
fn turn_ahead<D: Disk>(alloc: Global, store: &mut Store<D>, k: u64) -> Result<Option<Ahead>, Error>
    requires { store.old.must_reopen ≡ false }
    ensures fit { IfOk result (λ found. IfSome found (λ a.
        FitBehind (D.size store.new.disk) a.from a.limit (length a.bytes.items))) }
    ensures inside { IfOk result (λ found. IfSome found (λ a.
        AreAhead D.Disk a.from a.limit store.old)) }
    ensures ahead { IfOk result (λ found. IfSome found (λ a. (to : Desktop)
        → (past : PastOf D.Disk store.old)
        → IsAhead D.Disk (turn_of k to) a.past a.from a.limit a.bytes.items past.keeps)) }
    ensures none { IfOk result (λ found. IfNone found ((to : Desktop)
        → CanTurnTo D.Disk k to store.old → ⊥)) }
    ensures still { IsOnlyReadFrom D.Disk store.old store.new }
    ensures faults { FailsAs Error.Fault OfDesktop result (D.failures store.old.disk)
        (D.failures store.new.disk) }
{
    let page = turn_page(alloc, k)?;
    page_ahead(alloc, store, page.as_slice())
}

/// Turns a store to moment `k` of its past, at which the desktop was this one: the store comes to show it. The turn is a
/// deed of the past, which goes on over it: the page of the epoch that ends and one of the turn are written and settled
/// before it counts. False where the past has no room for the pages, where there is no past, or in the last epoch: then
/// nothing is written.
///
/// Errors: `MustReopen`; `NoMemory`, by which nothing was written; `Fault`. If nothing was written by that, the store may be
/// in use.
pub fn turn_to<D: Disk>(
    alloc: Global,
    store: &mut Store<D>,
    k: u64,
    to: GatheredDesktop,
) -> Result<bool, Error>
    ensures any_store { LeavesThisOrThat D.Disk to.desktop store.old store.new }
    ensures any_moment { TurnsTo D.Disk k to.desktop store.old store.new }
    ensures done { IfOk result (λ done. done ≡ true
        → ComesToMoment D.Disk k to store.old store.new) }
    ensures not_done { IfOk result (λ done. done ≡ false → StaysUnturned D.Disk
        (CanTurnTo D.Disk k to.desktop store.old) store.old store.new) }
    ensures memory { IsErrOf result Error.NoMemory → IsOnlyReadFrom D.Disk store.old store.new }
    ensures left { IfErr result (λ _. store.new.must_reopen ≡ false
        → IsLeft D.Disk store.old store.new) }
    ensures reopen { AnswersMustReopen result store.old store.new }
    ensures device { UsesAhead D.Disk OfLook result store.old store.new }
{
    store.shows_what_crashes_leave();
    let info = store.info()?;
    if info.epoch == LAST_EPOCH {
        return Ok(false);
    }
    let Some(ahead) = turn_ahead(alloc, store, k)? else {
        return Ok(false);
    };
    store.shows_what_crashes_leave();
    store.turn_behind(
        to,
        ahead.past,
        ahead.from,
        ahead.limit,
        ahead.bytes.as_slice(),
    )?;
    Ok(true)
}

/// The desktop that a store in memory shows, which is let go.
///
/// Error: `NoMemory`.
fn gathered_from(alloc: Global, shown: Store<MemoryDisk>) -> Result<GatheredDesktop, Error>
    ensures same { IfOk result (λ to. to.desktop ≡ shown.desktop) }
    ensures errors { IfErr result (λ e. e ≡ Error.NoMemory) }
{
    match shown.gathered(alloc) {
        Ok(to) => Ok(to),
        Err(_) => Err(Error::NoMemory),
    }
}

/// What the desktop was at moment `k` of the past of a store. None where the part in use has no such moment.
///
/// Errors: those of `moment`.
fn desktop_at<D: Disk>(
    alloc: Global,
    store: &mut Store<D>,
    k: u64,
) -> Result<Option<GatheredDesktop>, Error>
    ensures was { IfOk result (λ found. IfSome found (λ to. (past : PastOf D.Disk store.old)
        → LiesInPart D.Disk past.keeps → WasAt D.Disk k to.desktop past)) }
    ensures none { IfOk result (λ found. IfNone found ((past : PastOf D.Disk store.old)
        → LiesInPart D.Disk past.keeps → HasMoment past.start past.deeds k → ⊥)) }
    ensures still { OnOk result (IsOnlyReadFrom D.Disk store.old store.new) }
    ensures left { IsLeft D.Disk store.old store.new }
    ensures faults { FailsAs Error.Fault OfMoment result (D.failures store.old.disk)
        (D.failures store.new.disk) }
{
    store.shows_what_crashes_leave();
    let told = store.past()?;
    let Some(part) = part_at(store.sectors(), told.next) else {
        return Ok(None);
    };
    let Some(shown) = moment(alloc, store, part.base, k)? else {
        return Ok(None);
    };
    let to = gathered_from(alloc, shown)?;
    Ok(Some(to))
}

/// Turns a store to moment `k` of its past: the desktop becomes what it was then, as by `turn_to`. False where the part
/// in use has no such moment, too: then nothing is written.
///
/// Errors: those of `moment`, by which nothing was written; those of `turn_to`.
pub fn turn<D: Disk>(alloc: Global, store: &mut Store<D>, k: u64) -> Result<bool, Error>
    ensures any_store { (to : Desktop) × LeavesThisOrThat D.Disk to store.old store.new }
    ensures any_moment { TurnsBack D.Disk k store.old store.new }
    ensures done { IfOk result (λ done. done ≡ true
        → HasTurnedBack D.Disk k store.old store.new) }
    ensures not_done { IfOk result (λ done. done ≡ false → StaysUnturned D.Disk
        ((to : Desktop) × CanTurnTo D.Disk k to store.old) store.old store.new) }
    ensures usable { OnOk result (store.new.must_reopen ≡ false) }
    ensures left { IfErr result (λ _. store.new.must_reopen ≡ false
        → IsLeft D.Disk store.old store.new) }
    ensures device { UsesAhead D.Disk OfMoment result store.old store.new }
{
    store.shows_what_crashes_leave();
    let Some(to) = desktop_at(alloc, store, k)? else {
        return Ok(false);
    };
    turn_to(alloc, store, k, to)
}

/// The desktop that a store in memory shows, twice. It is let go.
///
/// Error: `NoMemory`.
fn both_gathered(
    alloc: Global,
    shown: Store<MemoryDisk>,
) -> Result<(GatheredDesktop, GatheredDesktop), Error>
    ensures same { IfOk result (λ both. (both.0.desktop ≡ shown.desktop)
        × (both.1.desktop ≡ shown.desktop)) }
    ensures errors { IfErr result (λ e. e ≡ Error.NoMemory) }
{
    let mut shown = shown;
    let Ok(copy) = copied(alloc, &mut shown) else {
        return Err(Error::NoMemory);
    };
    let first = gathered_from(alloc, shown)?;
    let second = gathered_from(alloc, copy)?;
    Ok((first, second))
}

/// What the desktop was at moment `k` of the past, in whichever part that lies, and the page of a far turn to it. None where no
/// part has such a moment.
///
/// Errors: those of `any_moment`; `NoMemory`.
fn far_desktop<D: Disk>(
    alloc: Global,
    store: &mut Store<D>,
    k: u64,
) -> Result<Option<(GatheredDesktop, Vec<u8>)>, Error>
    ensures was { IfOk result (λ found. IfSome found (λ x.
        WasThenAt D.Disk k x.0.desktop store.old)) }
    ensures page { IfOk result (λ found. IfSome found (λ x.
        IsCopyPage true x.0.desktop x.1.items)) }
    ensures none { IfOk result (λ found. IfNone found (CanTurnFar D.Disk k store.old → ⊥)) }
    ensures still { OnOk result (IsOnlyReadFrom D.Disk store.old store.new) }
    ensures left { IsLeft D.Disk store.old store.new }
    ensures faults { FailsAs Error.Fault OfMoment result (D.failures store.old.disk)
        (D.failures store.new.disk) }
{
    store.shows_what_crashes_leave();
    let Some(shown) = any_moment(alloc, store, k)? else {
        return Ok(None);
    };
    let (to, copy) = both_gathered(alloc, shown)?;
    let page = copy_page(alloc, true, copy)?;
    Ok(Some((to, page)))
}

/// Turns a store to a desktop of which this is the page of a far turn. False where the past has no room for the pages, or where
/// there is none: then nothing is written.
///
/// Errors: `MustReopen`; `NoMemory`, by which nothing was written; `Fault`.
fn turn_with<D: Disk>(
    alloc: Global,
    store: &mut Store<D>,
    to: GatheredDesktop,
    page: Vec<u8>,
) -> Result<bool, Error>
    requires { IsCopyPage true to.desktop page.items × CanTurn store.old }
    ensures any_store { LeavesThisOrThat D.Disk to.desktop store.old store.new }
    ensures any_moment { (past : PastOf D.Disk store.old)
        → LeavesTurned D.Disk to.desktop past store.new }
    ensures done { IfOk result (λ done. done ≡ true → IsTurnedTo D.Disk to store.old store.new
        × ((past : PastOf D.Disk store.old) → KeepsTurned D.Disk to.desktop past store.new)) }
    ensures not_done { IfOk result (λ done. done ≡ false → StaysUnturned D.Disk
        ((past : PastOf D.Disk store.old) × CanAddCopy D.Disk to.desktop past)
        store.old store.new) }
    ensures usable { OnOk result (store.new.must_reopen ≡ false) }
    ensures left { IfErr result (λ _. store.new.must_reopen ≡ false
        → IsLeft D.Disk store.old store.new) }
    ensures device { UsesAhead D.Disk OfLook result store.old store.new }
{
    store.shows_what_crashes_leave();
    let Some(ahead) = page_ahead(alloc, store, page.as_slice())? else {
        return Ok(false);
    };
    store.shows_what_crashes_leave();
    let bytes = ahead.bytes.as_slice();
    store.turn_behind(to, ahead.past, ahead.from, ahead.limit, bytes)?;
    Ok(true)
}

/// Turns a store to moment `k` of its past, in whichever part that lies: the desktop becomes what it was then, by a page that has
/// it. False where no part has such a moment, where the past has no room for the pages, where there is none, or in the last
/// epoch: then nothing is written.
///
/// Errors: those of `any_moment`, by which nothing was written; those of `turn_to`.
pub fn turn_far<D: Disk>(alloc: Global, store: &mut Store<D>, k: u64) -> Result<bool, Error>
    ensures any_moment { TurnsFar D.Disk k store.old store.new }
    ensures done { IfOk result (λ done. done ≡ true
        → HasTurnedFar D.Disk k store.old store.new) }
    ensures not_done { IfOk result (λ done. done ≡ false → StaysUnturned D.Disk
        (CanTurn store.old × CanTurnFar D.Disk k store.old) store.old store.new) }
    ensures usable { OnOk result (store.new.must_reopen ≡ false) }
    ensures left { IfErr result (λ _. store.new.must_reopen ≡ false
        → IsLeft D.Disk store.old store.new) }
    ensures device { UsesAhead D.Disk OfMoment result store.old store.new }
{
    store.shows_what_crashes_leave();
    let info = store.info()?;
    if info.epoch == LAST_EPOCH {
        return Ok(false);
    }
    let Some((to, page)) = far_desktop(alloc, store, k)? else {
        return Ok(false);
    };
    turn_with(alloc, store, to, page)
}
