//! Which pages a past has, and what was done right before a moment of it. What is told of that are candidates: nothing is
//! known of them, and who uses them tries them first.
ghost use Rattle.std.specs.Prelude.{◌≡◌, ◌<◌, ◌≤◌, false, IfOk, IfSome};
ghost use Rattle.desk_journal.specs.Looking.{OnlyLooks};
ghost use Rattle.past_steps.specs.Steps.{IsPartInUse};

use desk_journal::{Error, STORE_SECTORS, Store};
use event_bytes::Event;
use past_pages::{FULL_PART, PageKind, Part, front_in, part_at};
use sector_disk::Disk;
use std::alloc::{AllocError, Global};
use store_layout::PastEnd;

/// How many sectors behind the start of a part are read at most: a step is to take no longer than a key may. A part that
/// isn't full has no more.
const MOST_SECTORS: u32 = FULL_PART;

/// How many deeds are done once more in memory before a step, at most, for the same reason: behind the last page with a
/// desktop, or behind the start where there is none.
const MOST_DONE_AGAIN: u64 = 131_072;

/// A page: the sector in which it stands, how many deeds of the pages came before it, and how many it has.
#[derive(Clone, Copy, Debug)]
pub(crate) struct Entry {
    pub at: u32,
    pub before: u64,
    pub count: u64,
    pub kind: PageKind,
}

impl Entry {
    /// Whether the page has a desktop.
    fn has_desktop(self) -> bool {
        matches!(self.kind, PageKind::Mark | PageKind::FarTurn)
    }
}

/// The page of the deed right before a moment, and how many of its deeds came before that.
#[derive(Clone, Copy, Debug)]
pub(crate) struct Found {
    pub at: u32,
    pub kind: PageKind,
    pub count: u64,
}

impl Found {
    /// Whether it has events or an import, and no turn.
    fn is_done(self) -> bool {
        !matches!(self.kind, PageKind::Turn(_) | PageKind::FarTurn)
    }
}

/// The pages of a past that have deeds or a desktop, oldest first, the sector from which the part begins in which they
/// stand, and the one behind them; how many deeds came before them, and before the journal in use; and the events of that.
#[derive(Drop)]
pub(crate) struct Index {
    pub entries: Vec<Entry>,
    pub base: u32,
    pub end: u32,
    pub start: u64,
    pub before: u64,
    pub journal: Vec<Event>,
}

/// The page in sector `at`, before which so many deeds came, and the sector behind it. None where none stands there.
///
/// Errors: those of `front_in`.
fn entry_at<D: Disk>(
    alloc: Global,
    store: &mut Store<D>,
    at: u32,
    end: u32,
    before: u64,
) -> Result<Option<(Entry, u32)>, Error>
    ensures later { IfOk result (λ found. IfSome found (λ x. (at < x.1) × (x.1 ≤ end))) }
    ensures looks { OnlyLooks D.Disk result store.old store.new }
{
    match front_in(alloc, store, at, end)? {
        None => Ok(None),
        Some(page) => {
            let entry = Entry {
                at,
                before,
                count: page.kind.count() as u64,
                kind: page.kind,
            };
            Ok(Some((entry, page.next)))
        }
    }
}

/// The page that has deeds, or a desktop, is one more.
fn add(entries: &mut Vec<Entry>, entry: Entry) -> Result<(), AllocError> {
    if entry.count > 0 || entry.has_desktop() {
        entries.push(entry)?;
    }
    Ok(())
}

/// The pages from sector `first` up to sector `end` that have deeds or a desktop, each with how many came before it in
/// these pages. None where one is missing.
///
/// Errors: those of `front_in`; `NoMemory`.
fn entries_in<D: Disk>(
    alloc: Global,
    store: &mut Store<D>,
    first: u32,
    end: u32,
) -> Result<Option<Vec<Entry>>, Error>
    requires { store.old.must_reopen ≡ false }
    ensures { OnlyLooks D.Disk result store.old store.new }
{
    let mut entries = Vec::new(alloc);
    let mut at = first;
    let mut before = 0u64;
    while at < end {
        let Some((entry, next)) = entry_at(alloc, store, at, end, before)? else {
            return Ok(None);
        };
        add(&mut entries, entry)?;
        before = before.saturating_add(entry.count);
        at = next;
    }
    Ok(Some(entries))
}

/// The events that can be taken back. None where they can't be read, over a disk that isn't honest.
///
/// Errors: `MustReopen`; `NoMemory`; `Fault`.
fn history_of<D: Disk>(alloc: Global, store: &mut Store<D>) -> Result<Option<Vec<Event>>, Error>
    ensures { OnlyLooks D.Disk result store.old store.new }
{
    match store.history(alloc) {
        Ok(events) => Ok(Some(events)),
        Err(Error::MustReopen) => Err(Error::MustReopen),
        Err(Error::NoMemory) => Err(Error::NoMemory),
        Err(Error::Fault) => Err(Error::Fault),
        Err(_) => Ok(None),
    }
}

/// The last of these events, so many.
pub(crate) fn last_of(events: Vec<Event>, many: usize) -> Result<Vec<Event>, AllocError> {
    let mut events = events;
    let others = events.len().saturating_sub(many);
    events.split_off(others)
}

/// The events of the journal in use. None where they can't be read, over a disk that isn't honest.
///
/// Errors: those of `history_of`; `NoMemory`.
fn journal_of<D: Disk>(alloc: Global, store: &mut Store<D>) -> Result<Option<Vec<Event>>, Error>
    ensures { OnlyLooks D.Disk result store.old store.new }
{
    let many = store.info()?.events as usize;
    match history_of(alloc, store)? {
        None => Ok(None),
        Some(events) => Ok(Some(last_of(events, many)?)),
    }
}

/// How many deeds these pages have.
fn count_in(entries: &[Entry]) -> u64 {
    match entries.last() {
        None => 0,
        Some(last) => last.before.saturating_add(last.count),
    }
}

/// Whether the pages of a part are few enough to be read before a step.
fn are_few(part: Part, told: PastEnd) -> bool {
    let first = part.base.saturating_add(STORE_SECTORS);
    told.next.saturating_sub(first) <= MOST_SECTORS
}

impl Index {
    /// The pages of the past that a store keeps. None where it keeps none, where one is missing, or where they are too
    /// many.
    ///
    /// Errors: those of `Store::past`, `front_in` and `Store::history`.
    pub fn of<D: Disk>(alloc: Global, store: &mut Store<D>) -> Result<Option<Index>, Error>
        ensures part { IfOk result (λ found. IfSome found (λ index.
            IsPartInUse D.Disk index.base store.old)) }
        ensures looks { OnlyLooks D.Disk result store.old store.new }
    {
        let told = store.past()?;
        match part_at(store.sectors(), told.next) {
            Some(part) if are_few(part, told) => Index::behind(alloc, store, part.base, told),
            _ => Ok(None),
        }
    }

    /// The pages behind the start in sector `base`, up to where the head says that they end.
    ///
    /// Errors: those of `front_in` and `Store::history`.
    fn behind<D: Disk>(
        alloc: Global,
        store: &mut Store<D>,
        base: u32,
        told: PastEnd,
    ) -> Result<Option<Index>, Error>
        requires { store.old.must_reopen ≡ false }
        ensures base { IfOk result (λ found. IfSome found (λ index. index.base ≡ base)) }
        ensures looks { OnlyLooks D.Disk result store.old store.new }
    {
        let first = base.saturating_add(STORE_SECTORS);
        let Some(entries) = entries_in(alloc, store, first, told.next)? else {
            return Ok(None);
        };
        let Some(journal) = journal_of(alloc, store)? else {
            return Ok(None);
        };
        Ok(Index::with(entries, base, told, journal))
    }

    /// The same of these pages and these events. None where the head says that fewer deeds came than the pages have.
    fn with(entries: Vec<Entry>, base: u32, told: PastEnd, journal: Vec<Event>) -> Option<Index>
        ensures { IfSome result (λ index. index.base ≡ base) }
    {
        let start = told.before.checked_sub(count_in(entries.as_slice()))?;
        Some(Index {
            entries,
            base,
            end: told.next,
            start,
            before: told.before,
            journal,
        })
    }

    /// How many deeds came before moment `k` since the part began, or since the last page with a desktop before it.
    fn since_desktop(&self, k: u64) -> u64 {
        let n = k.saturating_sub(self.start);
        let mut last = 0;
        for entry in self.entries.as_slice() {
            let end = entry.before.saturating_add(entry.count);
            if entry.has_desktop() && end <= n {
                last = end;
            }
        }
        n.saturating_sub(last)
    }

    /// Whether so few of them did that they can be done again before a step.
    pub fn is_near(&self, k: u64) -> bool {
        self.since_desktop(k) <= MOST_DONE_AGAIN
    }

    /// How many deeds there are.
    pub fn now(&self) -> u64 {
        self.before.saturating_add(self.journal.len() as u64)
    }

    /// The page of the deed right before moment `k`. None where that is in no page.
    pub fn page_before(&self, k: u64) -> Option<Found> {
        let n = k.saturating_sub(self.start);
        for entry in self.entries.as_slice() {
            if entry.before < n && n - entry.before <= entry.count {
                return Some(Found {
                    at: entry.at,
                    kind: entry.kind,
                    count: n - entry.before,
                });
            }
        }
        None
    }

    /// The moment to which a turn leads that was done right before moment `k`. None where something else was done then.
    pub fn turn_before(&self, k: u64) -> Option<u64> {
        match self.page_before(k)?.kind {
            PageKind::Turn(to) => Some(to),
            _ => None,
        }
    }

    /// The moment at which the desktop was what it is at moment `k`, and before which no turn comes.
    pub fn source(&self, k: u64) -> u64 {
        let mut k = k;
        for _count in 0..self.entries.len() {
            match self.turn_before(k) {
                None => return k,
                Some(to) => k = to,
            }
        }
        k
    }

    /// Whether turns tell that the desktop was the same at both moments.
    pub fn are_alike(&self, k: u64, other: u64) -> bool {
        self.source(k) == self.source(other)
    }

    /// Where the page stands of the import that was done right before moment `k`. None where something else was done then.
    pub fn import_before(&self, k: u64) -> Option<u32> {
        match self.page_before(k) {
            Some(page) if page.kind == PageKind::Import => Some(page.at),
            _ => None,
        }
    }

    /// The moment before what was done before moment `k`, one deed right behind another, of the journal too, down to the last
    /// turn.
    pub fn run_start(&self, k: u64) -> u64 {
        let mut k = k.min(self.before);
        for _count in 0..self.entries.len() {
            match self.page_before(k) {
                Some(page) if page.is_done() => k = k.saturating_sub(page.count),
                _ => return k,
            }
        }
        k
    }
}
