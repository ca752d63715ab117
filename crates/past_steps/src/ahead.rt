//! What the last turns took back, as the pages tell, and an import of it that is done again.
ghost use Rattle.std.specs.Prelude.{◌≡◌, ◌≤◌, false, length, IfErr, IfNone, IfOk, IfSome, OnOk};
ghost use Rattle.store_slots.specs.Errors.{OfDesktop};
ghost use Rattle.desk_journal.specs.Looking.{OnlyLooks};
ghost use Rattle.past_pages.specs.Reading.{IsOnlyReadFrom};
ghost use Rattle.desk_past.specs.Keeping.{UsesDevice};
ghost use Rattle.past_steps.specs.Steps.{IsBroughtAgain, LeavesBroughtAgain};

use crate::index::Index;
use crate::steps::{import_before, run_before};
use desk_journal::{Document, Error, Store};
use desk_past::bring;
use desktop_definitions::Reply;
use event_bytes::Event;
use sector_disk::Disk;
use std::alloc::{AllocError, Global};
use store_layout::LAST_EPOCH;

/// A deed that is no turn: an event that was posted, or the documents of an import.
#[derive(Drop)]
enum PlainDeed {
    Event(Event),
    Import(Vec<Document>),
}

/// Deeds that were taken back, the next one to be done again first; and those that were done since, the first one last.
#[derive(Drop)]
struct Ahead {
    found: Vec<PlainDeed>,
    done: Vec<PlainDeed>,
}

/// Whether they are the same documents.
fn are_same(documents: &[Document], others: &[Document]) -> bool {
    if documents.len() != others.len() {
        return false;
    }
    for (one, other) in documents.iter().zip(others) {
        if one.name() != other.name() || one.as_bytes() != other.as_bytes() {
            return false;
        }
    }
    true
}

/// Whether it is the same deed.
fn is_same(deed: &PlainDeed, other: &PlainDeed) -> bool {
    match deed {
        PlainDeed::Event(event) => match other {
            PlainDeed::Event(second) => event == second,
            PlainDeed::Import(_) => false,
        },
        PlainDeed::Import(documents) => match other {
            PlainDeed::Event(_) => false,
            PlainDeed::Import(others) => are_same(documents.as_slice(), others.as_slice()),
        },
    }
}

/// The deeds of these events.
fn all_posted(alloc: Global, events: Vec<Event>) -> Result<Vec<PlainDeed>, AllocError> {
    let mut deeds = Vec::new(alloc);
    for event in events {
        deeds.push(PlainDeed::Event(event))?;
    }
    Ok(deeds)
}

/// Adds these events to what was done, the last one first.
fn add_done(events: Vec<Event>, done: &mut Vec<PlainDeed>) -> Result<(), AllocError> {
    let mut events = events;
    events.reverse();
    for event in events {
        done.push(PlainDeed::Event(event))?;
    }
    Ok(())
}

/// Adds an import of these documents.
fn add_import(documents: Vec<Document>, deeds: &mut Vec<PlainDeed>) -> Result<(), AllocError> {
    deeds.push(PlainDeed::Import(documents))?;
    Ok(())
}

impl Ahead {
    /// The deed was taken back before what is known. It was done again since, or is the next to be done again behind what was
    /// found. False where something else was done since.
    fn take(&mut self, deed: PlainDeed) -> Result<bool, AllocError> {
        match self.done.pop() {
            None => {
                self.found.push(deed)?;
                Ok(true)
            }
            Some(other) => Ok(is_same(&deed, &other)),
        }
    }

    /// The same of deeds, one after another.
    fn take_all(&mut self, deeds: Vec<PlainDeed>) -> Result<bool, AllocError> {
        for deed in deeds {
            if !self.take(deed)? {
                return Ok(false);
            }
        }
        Ok(true)
    }
}

/// The deeds that a turn took back which led from moment `from` to moment `to`, in their order: events, or an import. None
/// where they don't lead from the one to the other.
///
/// Errors: those of `run_before` and `import_before`.
fn taken_by<D: Disk>(
    alloc: Global,
    store: &mut Store<D>,
    index: &mut Index,
    from: u64,
    to: u64,
) -> Result<Option<Vec<PlainDeed>>, Error>
    requires { store.old.must_reopen ≡ false }
    ensures { OnlyLooks D.Disk result store.old store.new }
{
    let mut from = index.source(from);
    let many = from.saturating_sub(to) as usize;
    let events = run_before(alloc, store, index, &mut from, to, many)?;
    if index.are_alike(from, to) {
        return Ok(Some(all_posted(alloc, events)?));
    }
    if !events.as_slice().is_empty() || !index.are_alike(from.saturating_sub(1), to) {
        return Ok(None);
    }
    match import_before(alloc, store, index, from)? {
        None => Ok(None),
        Some(documents) => {
            let mut deeds = Vec::new(alloc);
            add_import(documents, &mut deeds)?;
            Ok(Some(deeds))
        }
    }
}

/// Adds what was done from moment `since` to moment `k`, among which is no turn, the last deed first.
///
/// Errors: those of `run_before` and `import_before`.
fn add_since<D: Disk>(
    alloc: Global,
    store: &mut Store<D>,
    index: &mut Index,
    k: u64,
    since: u64,
    done: &mut Vec<PlainDeed>,
) -> Result<(), Error>
    requires { store.old.must_reopen ≡ false }
    ensures { OnlyLooks D.Disk result store.old store.new }
{
    let mut k = k;
    for _count in 0..index.entries.len().saturating_add(1) {
        let many = k.saturating_sub(since) as usize;
        let events = run_before(alloc, store, index, &mut k, since, many)?;
        add_done(events, done)?;
        if k <= since {
            return Ok(());
        }
        let Some(documents) = import_before(alloc, store, index, k)? else {
            return Ok(());
        };
        add_import(documents, done)?;
        k = k.saturating_sub(1);
    }
    Ok(())
}

/// Goes back from moment `k` over the last turn before it and what was done since: what that took back is ahead, but for what
/// was done again. `k` becomes the moment before the turn. False where there is none, or where something else was done since.
///
/// Errors: those of `taken_by` and `add_since`.
fn pass_turn<D: Disk>(
    alloc: Global,
    store: &mut Store<D>,
    index: &mut Index,
    k: &mut u64,
    ahead: &mut Ahead,
) -> Result<bool, Error>
    requires { store.old.must_reopen ≡ false }
    ensures { OnlyLooks D.Disk result store.old store.new }
{
    let since = index.run_start(*k);
    let Some(to) = index.turn_before(since) else {
        return Ok(false);
    };
    add_since(alloc, store, index, *k, since, &mut ahead.done)?;
    *k = since.saturating_sub(1);
    let Some(taken) = taken_by(alloc, store, index, *k, to)? else {
        return Ok(false);
    };
    Ok(ahead.take_all(taken)?)
}

/// What the last turns took back, in its order, without what was done again since. None of it where something else was done
/// since. None where the store keeps no past, or its pages can't be read or are too many.
///
/// Errors: those of `Index::of` and `pass_turn`.
fn deeds_ahead<D: Disk>(
    alloc: Global,
    store: &mut Store<D>,
) -> Result<Option<Vec<PlainDeed>>, Error>
    ensures { OnlyLooks D.Disk result store.old store.new }
{
    let Some(index) = Index::of(alloc, store)? else {
        return Ok(None);
    };
    Ok(Some(ahead_of(alloc, store, index)?))
}

/// The same by the pages of the past.
///
/// Errors: those of `pass_turn`.
fn ahead_of<D: Disk>(
    alloc: Global,
    store: &mut Store<D>,
    index: Index,
) -> Result<Vec<PlainDeed>, Error>
    requires { store.old.must_reopen ≡ false }
    ensures { OnlyLooks D.Disk result store.old store.new }
{
    let mut index = index;
    let mut k = index.now();
    let mut ahead = Ahead {
        found: Vec::new(alloc),
        done: Vec::new(alloc),
    };
    for _count in 0..index.entries.len() {
        if !pass_turn(alloc, store, &mut index, &mut k, &mut ahead)? {
            return Ok(ahead.found);
        }
    }
    Ok(ahead.found)
}

/// The events of these deeds before the first import.
fn events_first(alloc: Global, deeds: Vec<PlainDeed>) -> Result<Vec<Event>, AllocError> {
    let mut events = Vec::new(alloc);
    for deed in deeds {
        match deed {
            PlainDeed::Event(event) => events.push(event)?,
            PlainDeed::Import(_) => return Ok(events),
        }
    }
    Ok(events)
}

/// The documents of the first of these deeds. None where that is no import.
fn import_first(deeds: Vec<PlainDeed>) -> Option<Vec<Document>> {
    let mut deeds = deeds;
    deeds.reverse();
    match deeds.pop() {
        Some(PlainDeed::Import(documents)) => Some(documents),
        _ => None,
    }
}

/// The events that the last turns took back, as the past tells, in their order, without those that were done again since;
/// the first of them, at most so many, and those before an import. None of them where something else was done since. None
/// where the store keeps no past, or its pages can't be read or are too many.
///
/// Errors: `MustReopen`; `NoMemory`; `Fault`.
pub fn events_ahead<D: Disk>(
    alloc: Global,
    store: &mut Store<D>,
    most: usize,
) -> Result<Option<Vec<Event>>, Error>
    ensures few { IfOk result (λ found. IfSome found (λ events. length events.items ≤ most)) }
    ensures looks { OnlyLooks D.Disk result store.old store.new }
{
    let Some(deeds) = deeds_ahead(alloc, store)? else {
        return Ok(None);
    };
    let mut events = events_first(alloc, deeds)?;
    events.truncate(most);
    Ok(Some(events))
}

/// The documents of the import that the last turns took back, if that is what comes next of it. Else None.
///
/// Errors: `MustReopen`; `NoMemory`; `Fault`.
fn import_ahead<D: Disk>(
    alloc: Global,
    store: &mut Store<D>,
) -> Result<Option<Vec<Document>>, Error>
    ensures { OnlyLooks D.Disk result store.old store.new }
{
    match deeds_ahead(alloc, store)? {
        None => Ok(None),
        Some(deeds) => Ok(import_first(deeds)),
    }
}

/// Brings the documents again of the import that the last turns took back, if the past tells that it comes next, and hands
/// them out. None where it tells of none, or where they are refused, or in the last epoch: then nothing is written.
///
/// Errors: `MustReopen`; `NoMemory`; `Fault`.
pub fn import_again<D: Disk>(
    alloc: Global,
    store: &mut Store<D>,
) -> Result<Option<Vec<Document>>, Error>
    requires { store.old.must_reopen ≡ false }
    ensures brought { IfOk result (λ found. IfSome found (λ documents.
        IsBroughtAgain D.Disk documents.items store.old store.new)) }
    ensures none { IfOk result (λ found. IfNone found (IsOnlyReadFrom D.Disk store.old store.new)) }
    ensures breaks { IfErr result (λ error. LeavesBroughtAgain D.Disk store.old store.new) }
    ensures device { UsesDevice D.Disk OfDesktop result store.old store.new }
{
    if store.info()?.epoch == LAST_EPOCH {
        return Ok(None);
    }
    let Some(documents) = import_ahead(alloc, store)? else {
        return Ok(None);
    };
    match bring(alloc, store, documents.as_slice())? {
        Reply::Done => Ok(Some(documents)),
        Reply::No(_) => Ok(None),
    }
}
