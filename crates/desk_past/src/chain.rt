//! Any moment of a past over several parts, each of which begins behind the one before it.
ghost use Rattle.std.specs.Prelude.{◌≡◌, ◌+◌, ◌≤◌, ◌<◌, ◌^◌, ℕ, List, true, false, IfErr, IfOk, IfSome, IsErrOf, IsSomeAnd, OnOk};
ghost use Rattle.sector_disk.specs.Faults.{FailsAs};
ghost use Rattle.sector_disk.specs.Trail.{now};
ghost use Rattle.desktop_definitions.specs.Desktop.{Desktop};
ghost use Rattle.store_layout.specs.declared.layout.TheConstants.{SLOTS, STORE_SECTORS};
ghost use Rattle.store_layout.specs.Meaning.{Standing};
ghost use Rattle.store_slots.specs.Errors.{OfDesktop};
ghost use Rattle.desk_journal.specs.Looking.{OnlyLooks};
ghost use Rattle.desk_journal.specs.Undoing.{IsLeft};
ghost use Rattle.past_pages.specs.Page.{Page};
ghost use Rattle.past_pages.specs.Laying.{StandsFrom};
ghost use Rattle.past_pages.specs.Reading.{IsOnlyReadFrom};
ghost use Rattle.desk_past.specs.Beginning.{HasStartRoom};
ghost use Rattle.desk_past.specs.Chain.{AreSpans, HasSpan, IsFirstOf, IsFirstOfSpans, IsFoundAt, IsFoundSpan, IsOlderThan, IsSpan};
ghost use Rattle.desk_past.specs.Chain.{SaysOfSpan, SpansOf, WasInSpans, WasThen, newer, open_head, start_shows};
ghost use Rattle.desk_past.specs.declared.chain.TheConstants.{NO_EPOCH};
ghost use Rattle.desk_past.specs.Deeds.{PastDeed};
ghost use Rattle.desk_past.specs.Errors.{OfMoment, OfSteps};
ghost use Rattle.desk_past.specs.Going.{LiesInPart, start_epoch};
ghost use Rattle.desk_past.specs.Past.{KeepsAll, Start};

use crate::again::empty_disk;
use crate::reading::{in_journal, in_pages};
use desk_journal::{Error, STORE_SECTORS, Store};
use past_pages::{part_at, sector_at};
use sector_disk::{Disk, MemoryDisk};
use std::alloc::Global;
use store_layout::{
    Head, LABEL, PastEnd, has_label, is_open_gate, slot_gate, slot_head, standing_law,
};

/// A number that is more than each epoch.
pub(crate) const NO_EPOCH: u64 = 0x1_0000_0000;

/// A start that stands in sector `base`: its epoch, and what its head tells of the past before it.
#[derive(Clone, Copy, Debug, PartialEq, Eq)]
pub(crate) struct Begun {
    pub base: u32,
    pub epoch: u32,
    pub told: PastEnd,
}

/// A part of a past: the sector in which it begins, what is told of its end, and whether the part before it stands.
#[derive(Clone, Copy, Debug, PartialEq, Eq)]
pub(crate) struct Span {
    pub base: u32,
    pub told: PastEnd,
    pub follows: bool,
}

/// The head of a slot of the start in sector `base`. None where its gate is closed.
///
/// Errors: those of `Store::read_behind`.
fn open_head<D: Disk>(store: &mut Store<D>, base: u32, slot: u32) -> Result<Option<Head>, Error>
    requires usable { store.old.must_reopen ≡ false }
    requires slot { slot < SLOTS }
    requires numbered { base + STORE_SECTORS < 2 ^ 32 }
    requires there { base + STORE_SECTORS ≤ D.size store.old.disk }
    ensures head { IfOk result (λ found. D.honest store.old.disk
        → found ≡ open_head (now (D.trail store.old.disk)).reads base slot) }
    ensures still { IsOnlyReadFrom D.Disk store.old store.new }
    ensures faults { FailsAs Error.Fault OfDesktop result (D.failures store.old.disk)
        (D.failures store.new.disk) }
{
    store.shows_what_crashes_leave();
    let gate = sector_at(store, base + slot_gate(slot))?;
    let head = sector_at(store, base + slot_head(slot))?;
    if is_open_gate(&gate) {
        Ok(Some(Head::of(&head)))
    } else {
        Ok(None)
    }
}

/// The newer one of two heads, the first of them where they are as new.
fn newer(first: Option<Head>, second: Option<Head>) -> Option<Head>
    ensures { result ≡ newer first second }
{
    match (first, second) {
        (None, other) => other,
        (found, None) => found,
        (Some(one), Some(other)) => {
            if one.epoch < other.epoch {
                Some(other)
            } else {
                Some(one)
            }
        }
    }
}

/// What the start in sector `base` tells of the past before it, and its epoch. None where none stands there.
///
/// Errors: those of `Store::read_behind`.
fn begun_at<D: Disk>(store: &mut Store<D>, base: u32) -> Result<Option<Begun>, Error>
    requires usable { store.old.must_reopen ≡ false }
    requires numbered { base + STORE_SECTORS < 2 ^ 32 }
    requires there { base + STORE_SECTORS ≤ D.size store.old.disk }
    ensures told { IfOk result (λ found. D.honest store.old.disk → (t : Standing)
        → StandsFrom (now (D.trail store.old.disk)).reads base t
        → IsSomeAnd found (λ b. (b.base ≡ base) × (b.epoch ≡ t.epoch) × (b.told ≡ t.past))) }
    ensures at { IfOk result (λ found. IfSome found (λ b. b.base ≡ base)) }
    ensures epoch { IfOk result (λ found. IfSome found (λ b. D.honest store.old.disk
        → b.epoch ≡ start_epoch (now (D.trail store.old.disk)).reads base)) }
    ensures still { IsOnlyReadFrom D.Disk store.old store.new }
    ensures faults { FailsAs Error.Fault OfDesktop result (D.failures store.old.disk)
        (D.failures store.new.disk) }
{
    store.shows_what_crashes_leave();
    let label = sector_at(store, base + LABEL)?;
    let first = open_head(store, base, 0)?;
    let second = open_head(store, base, 1)?;
    if !has_label(&label) {
        return Ok(None);
    }
    match newer(first, second) {
        None => Ok(None),
        Some(head) => Ok(Some(Begun {
            base,
            epoch: head.epoch,
            told: head.past,
        })),
    }
}

/// The start of the part in which pages go on where this tells, if it is older than this epoch. None where none stands there,
/// or a newer one: then that part has begun anew since.
///
/// Errors: those of `Store::read_behind`.
fn begun_before<D: Disk>(
    store: &mut Store<D>,
    told: PastEnd,
    epoch: u64,
) -> Result<Option<Begun>, Error>
    requires { store.old.must_reopen ≡ false }
    ensures older { IfOk result (λ found. IfSome found (λ b. b.epoch < epoch)) }
    ensures inside { IfOk result (λ found. IfSome found (λ b.
        HasStartRoom (D.size store.old.disk) b.base)) }
    ensures epoch { IfOk result (λ found. IfSome found (λ b. D.honest store.old.disk
        → b.epoch ≡ start_epoch (now (D.trail store.old.disk)).reads b.base)) }
    ensures told { IfOk result (λ found. D.honest store.old.disk → (span : Start × List Page)
        → (is : IsSpan (D.size store.old.disk) told span (now (D.trail store.old.disk)).reads)
        → IsOlderThan (start_shows is).epoch epoch → IsSomeAnd found (SaysOfSpan is)) }
    ensures still { IsOnlyReadFrom D.Disk store.old store.new }
    ensures faults { FailsAs Error.Fault OfDesktop result (D.failures store.old.disk)
        (D.failures store.new.disk) }
{
    store.shows_what_crashes_leave();
    let Some(part) = part_at(store.sectors(), told.next) else {
        return Ok(None);
    };
    let Some(begun) = begun_at(store, part.base)? else {
        return Ok(None);
    };
    if begun.epoch as u64 >= epoch {
        return Ok(None);
    }
    Ok(Some(begun))
}

/// The part that has moment `k`, of a past that ends where this tells. None where none has it.
///
/// Errors: those of `Store::read_behind`.
fn span_of<D: Disk>(store: &mut Store<D>, told: PastEnd, k: u64) -> Result<Option<Span>, Error>
    requires { store.old.must_reopen ≡ false }
    ensures found { IfOk result (λ found. D.honest store.old.disk → (was : Desktop)
        → (spans : List (Start × List Page))
        → (are : AreSpans (D.size store.old.disk) (now (D.trail store.old.disk)).reads NO_EPOCH
        told spans) → WasThen (D.size store.old.disk) (now (D.trail store.old.disk)).reads NO_EPOCH
        told spans are k was → IsSomeAnd found (IsFoundSpan (D.size store.old.disk)
        (now (D.trail store.old.disk)).reads k was)) }
    ensures still { IsOnlyReadFrom D.Disk store.old store.new }
    ensures faults { FailsAs Error.Fault OfDesktop result (D.failures store.old.disk)
        (D.failures store.new.disk) }
{
    store.shows_what_crashes_leave();
    let mut told = told;
    let mut epoch = NO_EPOCH;
    while epoch > 0 {
        let Some(begun) = begun_before(store, told, epoch)? else {
            return Ok(None);
        };
        if k >= begun.told.before {
            let former = begun_before(store, begun.told, begun.epoch as u64)?;
            return Ok(Some(Span {
                base: begun.base,
                told,
                follows: former.is_some(),
            }));
        }
        told = begun.told;
        epoch = begun.epoch as u64;
    }
    Ok(None)
}

/// The desktop of moment `k` of the past, in whichever part it lies, as a store in memory: what the first deeds give, so many
/// as came before it. None where no part has such a moment.
///
/// Errors: `MustReopen`; `NotAStore` and `Damaged` where a start is damaged; `Worn` where the last epoch of a start is full;
/// `NoMemory`; `Fault`.
pub fn any_moment<D: Disk>(
    alloc: Global,
    store: &mut Store<D>,
    k: u64,
) -> Result<Option<Store<MemoryDisk>>, Error>
    ensures comes_back { IfOk result (λ found. D.honest store.old.disk
        → (start : Start) (deeds : List PastDeed) (desktop : Desktop)
        → (keeps : KeepsAll D.Disk start deeds desktop store.old) → LiesInPart D.Disk keeps
        → IsFoundAt k start deeds found) }
    ensures over_parts { IfOk result (λ found. D.honest store.old.disk
        → (start : Start) (deeds : List PastDeed) (desktop was : Desktop)
        → (keeps : KeepsAll D.Disk start deeds desktop store.old)
        → (spans : List (Start × List Page)) → (are : SpansOf D.Disk keeps spans)
        → WasInSpans D.Disk keeps spans are k was
        → IsSomeAnd found (λ shown. shown.desktop ≡ was)) }
    ensures still { OnOk result (IsOnlyReadFrom D.Disk store.old store.new) }
    ensures left { IsLeft D.Disk store.old store.new }
    ensures usable { store.new.must_reopen ≡ store.old.must_reopen }
    ensures faults { FailsAs Error.Fault OfMoment result (D.failures store.old.disk)
        (D.failures store.new.disk) }
    ensures open { IsErrOf result Error.MustReopen → store.old.must_reopen ≡ true }
    ensures stops { IfErr result (λ e. D.honest store.old.disk
        → (start : Start) (deeds : List PastDeed) (desktop : Desktop)
        → (keeps : KeepsAll D.Disk start deeds desktop store.old) → LiesInPart D.Disk keeps
        → start.before ≤ k → OfSteps e) }
{
    store.shows_what_crashes_leave();
    let told = store.past()?;
    let disk = empty_disk(alloc)?;
    if k >= told.before {
        return in_journal(alloc, store, k - told.before, disk);
    }
    let Some(span) = span_of(store, told, k)? else {
        return Ok(None);
    };
    in_pages(alloc, store, span.base, span.told, span.follows, k, disk)
}

/// The sector in which the oldest part of a past begins, of those that stand one behind the other, the last of which ends where
/// this tells. None where that one is missing.
///
/// Errors: those of `Store::read_behind`.
fn first_of<D: Disk>(store: &mut Store<D>, told: PastEnd) -> Result<Option<u32>, Error>
    requires { store.old.must_reopen ≡ false }
    ensures first { IfOk result (λ found. D.honest store.old.disk
        → (spans : List (Start × List Page))
        → (are : AreSpans (D.size store.old.disk) (now (D.trail store.old.disk)).reads NO_EPOCH
        told spans) → HasSpan spans → IsSomeAnd found (IsFirstOf (D.size store.old.disk)
        (now (D.trail store.old.disk)).reads NO_EPOCH told spans are)) }
    ensures inside { IfOk result (λ found. IfSome found (λ base.
        HasStartRoom (D.size store.old.disk) base)) }
    ensures still { IsOnlyReadFrom D.Disk store.old store.new }
    ensures faults { FailsAs Error.Fault OfDesktop result (D.failures store.old.disk)
        (D.failures store.new.disk) }
{
    store.shows_what_crashes_leave();
    let mut told = told;
    let mut epoch = NO_EPOCH;
    let mut first = None;
    while epoch > 0 {
        let Some(begun) = begun_before(store, told, epoch)? else {
            return Ok(first);
        };
        first = Some(begun.base);
        told = begun.told;
        epoch = begun.epoch as u64;
    }
    Ok(first)
}

/// The sector in which the oldest part of the past begins, of those that stand one behind the other. None where the head tells
/// of no past, or its start is missing.
///
/// Errors: those of `Store::past` and `Store::read_behind`.
pub fn first_start<D: Disk>(store: &mut Store<D>) -> Result<Option<u32>, Error>
    ensures first { IfOk result (λ found. D.honest store.old.disk
        → (start : Start) (deeds : List PastDeed) (desktop : Desktop)
        → (keeps : KeepsAll D.Disk start deeds desktop store.old)
        → (spans : List (Start × List Page)) → (are : SpansOf D.Disk keeps spans) → HasSpan spans
        → IsSomeAnd found (IsFirstOfSpans D.Disk keeps spans are)) }
    ensures inside { IfOk result (λ found. IfSome found (λ base.
        HasStartRoom (D.size store.old.disk) base)) }
    ensures looks { OnlyLooks D.Disk result store.old store.new }
{
    store.shows_what_crashes_leave();
    let told = store.past()?;
    first_of(store, told)
}
