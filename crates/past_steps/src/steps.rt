//! Steps through a past: what was done last. It is read from the pages, and nothing is known of it.
ghost use Rattle.std.specs.Prelude.{◌≡◌, ◌≢◌, ◌≤◌, false, length, IfOk, IfSome, OnOk};
ghost use Rattle.desk_journal.specs.Looking.{OnlyLooks};
ghost use Rattle.past_steps.specs.Steps.{IsPartInUse, step_deeds};

use crate::index::{Found, Index, last_of};
use desk_journal::{Document, Error, Store};
use event_bytes::Event;
use past_pages::{PageDeeds, page_in};
use sector_disk::Disk;
use std::alloc::{AllocError, Global};

/// What a step takes back: events, in their order, or the documents of an import.
#[derive(Drop)]
pub enum Step {
    Events(Vec<Event>),
    Import(Vec<Document>),
}

/// A moment of the past that begins in sector `base`, and what is said to have followed it.
#[derive(Drop)]
pub(crate) struct Candidate {
    pub base: u32,
    pub k: u64,
    pub step: Step,
}

/// Adds the last of these events, up to `most`, the last one first.
fn add_last(events: Vec<Event>, most: usize, found: &mut Vec<Event>) -> Result<(), AllocError>
    requires { length found.old.items ≤ most }
    ensures { OnOk result (length found.new.items ≤ most) }
{
    let mut events = events;
    while found.len() < most {
        let Some(event) = events.pop() else {
            return Ok(());
        };
        found.push(event)?;
    }
    Ok(())
}

/// The first `count` events that a page says were posted. None where it says that something else was done.
fn first_of(deeds: PageDeeds, count: u64) -> Option<Vec<Event>> {
    match deeds {
        PageDeeds::Events(mut events) => {
            events.truncate(count as usize);
            Some(events)
        }
        _ => None,
    }
}

/// The same of the page that was found. None where it is missing.
///
/// Errors: those of `page_in`.
fn first_in<D: Disk>(
    alloc: Global,
    store: &mut Store<D>,
    page: Found,
    end: u32,
) -> Result<Option<Vec<Event>>, Error>
    ensures { OnlyLooks D.Disk result store.old store.new }
{
    match page_in(alloc, store, page.at, end)? {
        None => Ok(None),
        Some(read) => Ok(first_of(read.deeds, page.count)),
    }
}

/// Adds the events of the pages that led to moment `k`, up to `most`, the last one first, down to moment `until` at most. `k`
/// becomes the moment before them. A turn is passed over: before it comes what led to the moment to which it leads.
///
/// Errors: those of `page_in`; `NoMemory`.
fn add_before<D: Disk>(
    alloc: Global,
    store: &mut Store<D>,
    index: &Index,
    k: &mut u64,
    until: u64,
    most: usize,
    found: &mut Vec<Event>,
) -> Result<(), Error>
    requires usable { store.old.must_reopen ≡ false }
    requires few { length found.old.items ≤ most }
    ensures few { OnOk result (length found.new.items ≤ most) }
    ensures looks { OnlyLooks D.Disk result store.old store.new }
{
    for _count in 0..index.entries.len() {
        *k = index.source(*k);
        if found.len() >= most || *k <= until {
            return Ok(());
        }
        let Some(page) = index.page_before(*k) else {
            return Ok(());
        };
        let Some(events) = first_in(alloc, store, page, index.end)? else {
            return Ok(());
        };
        let before = found.len();
        let last = last_of(events, k.saturating_sub(until) as usize)?;
        add_last(last, most, found)?;
        *k = k.saturating_sub(found.len().saturating_sub(before) as u64);
    }
    Ok(())
}

/// The events of the journal in use that were posted before moment `k`.
fn journal_before(alloc: Global, index: &mut Index, k: u64) -> Vec<Event>
    ensures { index.new.base ≡ index.old.base }
{
    let mut events = Vec::new(alloc);
    if k <= index.before {
        return events;
    }
    std::mem::swap(&mut events, &mut index.journal);
    events.truncate((k - index.before) as usize);
    events
}

/// The last events that led to moment `k`, at most so many, in their order, and down to moment `until` at most. `k` becomes
/// the moment before them.
///
/// Errors: those of `page_in`; `NoMemory`.
pub(crate) fn run_before<D: Disk>(
    alloc: Global,
    store: &mut Store<D>,
    index: &mut Index,
    k: &mut u64,
    until: u64,
    most: usize,
) -> Result<Vec<Event>, Error>
    requires { store.old.must_reopen ≡ false }
    ensures few { IfOk result (λ events. length events.items ≤ most) }
    ensures base { index.new.base ≡ index.old.base }
    ensures looks { OnlyLooks D.Disk result store.old store.new }
{
    let mut found = Vec::new(alloc);
    let journal = journal_before(alloc, index, *k);
    add_last(journal, most, &mut found)?;
    *k = k.saturating_sub(found.len() as u64);
    add_before(alloc, store, index, k, until, most, &mut found)?;
    found.reverse();
    Ok(found)
}

/// The documents that a page says came. None where it says that something else was done.
fn documents_of(deeds: PageDeeds) -> Option<Vec<Document>> {
    match deeds {
        PageDeeds::Import(documents) => Some(documents),
        _ => None,
    }
}

/// The documents of the import that was done right before moment `k`. None where something else was done then.
///
/// Errors: those of `page_in`.
pub(crate) fn import_before<D: Disk>(
    alloc: Global,
    store: &mut Store<D>,
    index: &Index,
    k: u64,
) -> Result<Option<Vec<Document>>, Error>
    requires { store.old.must_reopen ≡ false }
    ensures { OnlyLooks D.Disk result store.old store.new }
{
    let Some(at) = index.import_before(k) else {
        return Ok(None);
    };
    match page_in(alloc, store, at, index.end)? {
        None => Ok(None),
        Some(page) => Ok(documents_of(page.deeds)),
    }
}

/// What was done last, before moment `k`, if that is an import.
///
/// Errors: those of `page_in`.
fn import_at<D: Disk>(
    alloc: Global,
    store: &mut Store<D>,
    index: &Index,
    k: u64,
) -> Result<Option<Candidate>, Error>
    requires { store.old.must_reopen ≡ false }
    ensures one { IfOk result (λ found. IfSome found (λ last.
        (last.base ≡ index.now.base) × (length (step_deeds last.step) ≡ 1))) }
    ensures looks { OnlyLooks D.Disk result store.old store.new }
{
    match import_before(alloc, store, index, k)? {
        None => Ok(None),
        Some(documents) => Ok(Some(Candidate {
            base: index.base,
            k: index.source(k.saturating_sub(1)),
            step: Step::Import(documents),
        })),
    }
}

/// What led to what a store shows last: at most so many events, in their order, or where none did an import; and the moment
/// before that, or the one to which a turn right before it led. None where the store keeps no past, where its pages can't be
/// read, or where too much was done since its part began.
///
/// Errors: those of `Store::past`, `page_in` and `Store::history`.
pub(crate) fn last_step<D: Disk>(
    alloc: Global,
    store: &mut Store<D>,
    most: usize,
) -> Result<Option<Candidate>, Error>
    ensures few { IfOk result (λ found. IfSome found (λ last.
        length (step_deeds last.step) ≤ most)) }
    ensures some { IfOk result (λ found. IfSome found (λ last. length (step_deeds last.step) ≢ 0)) }
    ensures part { IfOk result (λ found. IfSome found (λ last.
        IsPartInUse D.Disk last.base store.old)) }
    ensures looks { OnlyLooks D.Disk result store.old store.new }
{
    let Some(mut index) = Index::of(alloc, store)? else {
        return Ok(None);
    };
    let mut k = index.source(index.now());
    if most == 0 || !index.is_near(k) {
        return Ok(None);
    }
    let events = run_before(alloc, store, &mut index, &mut k, 0, most)?;
    if events.as_slice().is_empty() {
        return import_at(alloc, store, &index, k);
    }
    Ok(Some(Candidate {
        base: index.base,
        k: index.source(k),
        step: Step::Events(events),
    }))
}

/// The events that a step takes back.
fn events_of(step: Step, alloc: Global) -> Vec<Event>
    ensures { length result.items ≤ length (step_deeds step) }
{
    match step {
        Step::Events(events) => events,
        Step::Import(_) => Vec::new(alloc),
    }
}

/// The last events that led to what a store shows, as its past tells: at most so many, in their order. None of them where an
/// import came last. None where it keeps no past, where its pages can't be read or are too many, or where too much was done
/// since its part began.
///
/// Errors: `MustReopen`; `NoMemory`; `Fault`.
pub fn events_behind<D: Disk>(
    alloc: Global,
    store: &mut Store<D>,
    most: usize,
) -> Result<Option<Vec<Event>>, Error>
    ensures few { IfOk result (λ found. IfSome found (λ events. length events.items ≤ most)) }
    ensures looks { OnlyLooks D.Disk result store.old store.new }
{
    match last_step(alloc, store, most)? {
        None => Ok(None),
        Some(last) => Ok(Some(events_of(last.step, alloc))),
    }
}
