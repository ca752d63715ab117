//! The store as it was when a part of its past began.
ghost use Rattle.std.specs.Prelude.{◌≡◌, List, false, Decides, IfErr, IfOk, IfSome, IsSomeAnd, MatchOption, OnOk};
ghost use Rattle.sector_disk.specs.Faults.{FailsAs};
ghost use Rattle.sector_disk.specs.Trail.{now};
ghost use Rattle.desktop_definitions.specs.Desktop.{Desktop};
ghost use Rattle.store_layout.specs.Meaning.{Standing};
ghost use Rattle.store_slots.specs.Errors.{OfDesktop};
ghost use Rattle.desk_journal.specs.Looking.{OnlyLooks};
ghost use Rattle.past_pages.specs.Laying.{HasStoreRoom, IsBlankRoom};
ghost use Rattle.past_pages.specs.Reading.{IsOnlyReadFrom};
ghost use Rattle.desk_past.specs.Deeds.{PastDeed};
ghost use Rattle.desk_past.specs.Past.{Start};
ghost use Rattle.desk_past.specs.Reading.{ShowsNow};
ghost use Rattle.former_stores.specs.Former.{AreSectorsBefore, HasPartBefore, IsFormer, IsFormerStore, KeepsWhole, SaysOfStart};
ghost use Rattle.former_stores.specs.Laying.{ArePlaced, StandsNone};

use crate::laying::laid;
use desk_journal::{Error, STORE_SECTORS, Store};
use past_pages::part_at;
use sector_disk::{Disk, MemoryDisk};
use std::alloc::Global;
use store_layout::standing_law;

/// What a start says of itself: the epoch of its slot in use, and the sector behind the pages that came before it.
#[derive(Clone, Copy, Debug, PartialEq, Eq)]
pub(crate) struct Told {
    pub epoch: u32,
    pub next: u32,
}

/// The sectors of a former past: its start and its pages.
#[derive(Clone, Copy, Debug, PartialEq, Eq)]
pub(crate) struct Stretch {
    pub from: u32,
    pub count: u32,
}

/// What a store in memory says of itself.
///
/// Error: `NoMemory`.
fn told_by<E: Disk>(shown: &mut Store<E>) -> Result<Told, Error>
    ensures told { IfOk result (λ told. (t : Standing) → ShowsNow E.Disk t shown.old
        → (told.epoch ≡ t.epoch) × (told.next ≡ t.past.next)) }
    ensures errors { IfErr result (λ e. e ≡ Error.NoMemory) }
{
    standing_law();
    shown.shows_what_crashes_leave();
    let Ok(info) = shown.info() else {
        return Err(Error::NoMemory);
    };
    let Ok(told) = shown.past() else {
        return Err(Error::NoMemory);
    };
    Ok(Told {
        epoch: info.epoch,
        next: told.next,
    })
}

/// What the start in sector `base` says of itself, by way of another disk, which is in memory and reads zeros. None where
/// none stands there, or a damaged one.
///
/// Errors: those of `laid`.
fn told_at<D: Disk, E: Disk + Drop>(
    alloc: Global,
    store: &mut Store<D>,
    base: u32,
    disk: E,
) -> Result<Option<Told>, Error>
    requires usable { store.old.must_reopen ≡ false }
    requires start { HasStoreRoom (D.size store.old.disk) base }
    requires blank { IsBlankRoom E.Disk disk }
    ensures told { IfOk result (λ found. D.honest store.old.disk → E.honest disk
        → MatchOption found (StandsNone (now (D.trail store.old.disk)).reads base)
        (SaysOfStart (now (D.trail store.old.disk)).reads base)) }
    ensures still { IsOnlyReadFrom D.Disk store.old store.new }
    ensures faults { FailsAs Error.Fault OfDesktop result (D.failures store.old.disk)
        (D.failures store.new.disk) }
{
    store.shows_what_crashes_leave();
    let Some(shown) = laid(alloc, store, base, STORE_SECTORS, 0, disk)? else {
        return Ok(None);
    };
    let mut shown = shown;
    Ok(Some(told_by(&mut shown)?))
}

/// The same, by way of a disk that is made for it.
///
/// Errors: those of `laid`.
fn told_of<D: Disk>(alloc: Global, store: &mut Store<D>, base: u32) -> Result<Option<Told>, Error>
    requires usable { store.old.must_reopen ≡ false }
    requires start { HasStoreRoom (D.size store.old.disk) base }
    ensures told { IfOk result (λ found. D.honest store.old.disk
        → MatchOption found (StandsNone (now (D.trail store.old.disk)).reads base)
        (SaysOfStart (now (D.trail store.old.disk)).reads base)) }
    ensures still { IsOnlyReadFrom D.Disk store.old store.new }
    ensures faults { FailsAs Error.Fault OfDesktop result (D.failures store.old.disk)
        (D.failures store.new.disk) }
{
    store.shows_what_crashes_leave();
    let disk = MemoryDisk::new(alloc, STORE_SECTORS)?;
    told_at(alloc, store, base, disk)
}

/// Whether a disk of so many sectors has room for a start in sector `base`.
fn has_store_room(sectors: u32, base: u32) -> bool
    ensures { Decides result (HasStoreRoom sectors base) }
{
    sectors >= STORE_SECTORS && base <= sectors - STORE_SECTORS
}

/// Where the start and the pages stand that came before the start in sector `base`. None where no start stands there, or
/// where the part of which it tells has none that is older: then that part has begun anew since.
///
/// Errors: those of `laid`.
fn stretch_before<D: Disk>(
    alloc: Global,
    store: &mut Store<D>,
    base: u32,
) -> Result<Option<Stretch>, Error>
    requires usable { store.old.must_reopen ≡ false }
    requires start { HasStoreRoom (D.size store.old.disk) base }
    ensures found { IfOk result (λ found. D.honest store.old.disk → MatchOption found
        (HasPartBefore (D.size store.old.disk) base (now (D.trail store.old.disk)).reads → ⊥)
        (λ stretch. (has : HasPartBefore (D.size store.old.disk) base
        (now (D.trail store.old.disk)).reads) × AreSectorsBefore has stretch)) }
    ensures inside { IfOk result (λ found. IfSome found (λ stretch.
        ArePlaced stretch.from stretch.count (D.size store.old.disk))) }
    ensures still { IsOnlyReadFrom D.Disk store.old store.new }
    ensures faults { FailsAs Error.Fault OfDesktop result (D.failures store.old.disk)
        (D.failures store.new.disk) }
{
    standing_law();
    store.shows_what_crashes_leave();
    let Some(told) = told_of(alloc, store, base)? else {
        return Ok(None);
    };
    let Some(part) = part_at(store.sectors(), told.next) else {
        return Ok(None);
    };
    let Some(first) = told_of(alloc, store, part.base)? else {
        return Ok(None);
    };
    if first.epoch >= told.epoch {
        return Ok(None);
    }
    Ok(Some(Stretch {
        from: part.base,
        count: told.next - part.base,
    }))
}

/// What `former_store` finds, of a store in use, where there is room for a start in that sector.
///
/// Errors: those of `laid`.
fn laid_before<D: Disk>(
    alloc: Global,
    store: &mut Store<D>,
    base: u32,
) -> Result<Option<Store<MemoryDisk>>, Error>
    requires usable { store.old.must_reopen ≡ false }
    requires start { HasStoreRoom (D.size store.old.disk) base }
    ensures found { IfOk result (λ found. D.honest store.old.disk → MatchOption found
        (HasPartBefore (D.size store.old.disk) base (now (D.trail store.old.disk)).reads → ⊥)
        (IsFormerStore ⟦<MemoryDisk as Disk>⟧ (D.size store.old.disk) base
        (now (D.trail store.old.disk)).reads)) }
    ensures still { IsOnlyReadFrom D.Disk store.old store.new }
    ensures faults { FailsAs Error.Fault OfDesktop result (D.failures store.old.disk)
        (D.failures store.new.disk) }
{
    standing_law();
    store.shows_what_crashes_leave();
    let Some(pages) = stretch_before(alloc, store, base)? else {
        return Ok(None);
    };
    let disk = MemoryDisk::new(alloc, store.sectors())?;
    laid(alloc, store, base, pages.from, pages.count, disk)
}

/// The store as it was when the part began whose start stands in sector `base`, in memory, with the past that it had then. It
/// is on a disk as large. None where no start stands there, or where that past is no more, since another part has begun
/// where it lay.
///
/// Errors: `MustReopen`; `NoMemory`; `Fault`.
pub fn former_store<D: Disk>(
    alloc: Global,
    store: &mut Store<D>,
    base: u32,
) -> Result<Option<Store<MemoryDisk>>, Error>
    ensures found { IfOk result (λ found. D.honest store.old.disk → MatchOption found
        (HasPartBefore (D.size store.old.disk) base (now (D.trail store.old.disk)).reads → ⊥)
        (IsFormerStore ⟦<MemoryDisk as Disk>⟧ (D.size store.old.disk) base
        (now (D.trail store.old.disk)).reads)) }
    ensures former { IfOk result (λ found. D.honest store.old.disk → (start : Start)
        (deeds : List PastDeed) (desktop : Desktop) → IsFormer (D.size store.old.disk) base
        start deeds desktop (now (D.trail store.old.disk)).reads
        → IsSomeAnd found (KeepsWhole ⟦<MemoryDisk as Disk>⟧ start deeds desktop)) }
    ensures no_other { IfOk result (λ found. IfSome found (λ shown. D.honest store.old.disk
        → (start : Start) (deeds : List PastDeed) (desktop : Desktop)
        → KeepsWhole ⟦<MemoryDisk as Disk>⟧ start deeds desktop shown
        → IsFormer (D.size store.old.disk) base start deeds desktop
        (now (D.trail store.old.disk)).reads)) }
    ensures still { OnOk result (IsOnlyReadFrom D.Disk store.old store.new) }
    ensures looks { OnlyLooks D.Disk result store.old store.new }
{
    standing_law();
    store.shows_what_crashes_leave();
    if store.info().is_err() {
        return Err(Error::MustReopen);
    }
    if !has_store_room(store.sectors(), base) {
        return Ok(None);
    }
    laid_before(alloc, store, base)
}
