//! Pages that are told, each over a store in memory in which the deeds before it were done once more.
ghost use Rattle.std.specs.Prelude.{◌≡◌, ◌∷◌, ◌++◌, [], List, Some, None, false, IfErr, IfOk, OnOk};
ghost use Rattle.desktop_definitions.specs.Desktop.{Desktop};
ghost use Rattle.past_pages.specs.Reading.{IsOnlyReadFrom};
ghost use Rattle.desk_past.specs.Deeds.{PastDeed, all_posted, brought, turned};
ghost use Rattle.desk_past.specs.Past.{deeds_in, HasMoment, Start, all_deeds, moment as moment_of};
ghost use Rattle.told_pasts.specs.Reaching.{HasReach};
ghost use Rattle.told_pasts.specs.Stopping.{StopsAs, as_in_memory};
ghost use Rattle.told_pasts.specs.Telling.{HasDesktop, IsAmid, IsAtPage, IsToldOver, IsToShow};
ghost use Rattle.told_pasts.specs.Words.{turn_line};

use crate::line::Line;
use crate::reach::Reach;
use crate::telling::{add_import, add_lines, push_line};
use desk_journal::{Document, Error, Store};
use desk_past::moment;
use event_bytes::Event;
use past_pages::{PageDeeds, PageRead, copy_in, page_in};
use sector_disk::{Disk, MemoryDisk};
use std::alloc::{AllocError, Global};

/// A store in memory in which deeds of a past are done once more, and the moment to which it is to be turned before the
/// next one, if a turn came last.
#[derive(Drop)]
pub(crate) struct Replay {
    pub shown: Store<MemoryDisk>,
    pub due: Option<u64>,
}

/// What a call over a store in memory returned: its disk fails for want of memory alone, and only behind that it must be
/// opened again.
pub(crate) fn in_memory(done: Result<(), Error>) -> Result<(), Error>
    ensures { result ≡ as_in_memory done }
{
    match done {
        Err(Error::Fault | Error::MustReopen) => Err(Error::NoMemory),
        done => done,
    }
}

/// Turns the store in memory to the moment that is due, if one is.
///
/// Errors: those of `moment`; `Damaged` where the past has no such moment.
pub(crate) fn turn_if_due<D: Disk>(
    alloc: Global,
    store: &mut Store<D>,
    base: u32,
    replay: &mut Replay,
) -> Result<(), Error>
    requires { store.old.must_reopen ≡ false }
    ensures shown { OnOk result ((a : IsAmid D.Disk store.old base replay.old.due
        replay.old.shown.desktop) → replay.new.shown.desktop ≡ a.here) }
    ensures done { OnOk result (replay.new.due ≡ None) }
    ensures still { OnOk result (IsOnlyReadFrom D.Disk store.old store.new) }
    ensures stops { StopsAs D.Disk (IsAmid D.Disk store.old base replay.old.due
        replay.old.shown.desktop) result store.old store.new }
{
    let Some(k) = replay.due else {
        return Ok(());
    };
    let Some(shown) = moment(alloc, store, base, k)? else {
        return Err(Error::Damaged(base));
    };
    replay.shown = shown;
    replay.due = None;
    Ok(())
}

/// Adds the line of a turn.
fn push_turn(alloc: Global, lines: &mut Vec<Line>) -> Result<(), AllocError>
    ensures { OnOk result (lines.new.items ≡ lines.old.items ++ (turn_line ∷ [])) }
{
    let line = Vec::from_slice(alloc, b"turn back to an earlier moment")?;
    push_line(lines, line)
}

/// Adds the line of a turn to the desktop that the page in sector `at` has, which the store in memory shows then.
///
/// Errors: those of `copy_in`; `Damaged` where none stands there.
fn add_far_turn<D: Disk>(
    alloc: Global,
    store: &mut Store<D>,
    at: u32,
    replay: &mut Replay,
    lines: &mut Vec<Line>,
) -> Result<(), Error>
    requires { store.old.must_reopen ≡ false }
    ensures told { OnOk result ((h : HasDesktop D.Disk store.old at) (start : Start)
        (deeds : List PastDeed) (here : Desktop) → IsToldOver start deeds here
        (turned h.to ∷ []) replay.new.due replay.new.shown.desktop lines.old.items
        lines.new.items) }
    ensures still { OnOk result (IsOnlyReadFrom D.Disk store.old store.new) }
    ensures stops { StopsAs D.Disk (HasDesktop D.Disk store.old at) result store.old store.new }
{
    push_turn(alloc, lines)?;
    let end = store.sectors();
    let Some(shown) = copy_in(alloc, store, at, end)? else {
        return Err(Error::Damaged(at));
    };
    replay.shown = shown;
    replay.due = None;
    Ok(())
}

/// Adds the line of a turn to a moment, which is due then.
fn add_turn(
    alloc: Global,
    replay: &mut Replay,
    k: u64,
    lines: &mut Vec<Line>,
) -> Result<(), AllocError>
    ensures { OnOk result ((start : Start) (deeds : List PastDeed) (here to : Desktop)
        → HasMoment start deeds k → to ≡ moment_of start deeds k
        → IsToldOver start deeds here (turned to ∷ []) replay.new.due replay.new.shown.desktop
        lines.old.items lines.new.items) }
{
    push_turn(alloc, lines)?;
    replay.due = Some(k);
    Ok(())
}

/// Adds the lines of events, which are done then.
///
/// Errors: those of `turn_if_due`; `NoMemory`; `Worn`.
fn add_events<D: Disk>(
    alloc: Global,
    store: &mut Store<D>,
    base: u32,
    replay: &mut Replay,
    events: &[Event],
    lines: &mut Vec<Line>,
) -> Result<(), Error>
    requires { store.old.must_reopen ≡ false }
    ensures told { OnOk result ((a : IsAmid D.Disk store.old base replay.old.due
        replay.old.shown.desktop) → IsToldOver a.past.start a.past.deeds a.here
        (all_posted events.now) replay.new.due replay.new.shown.desktop
        lines.old.items lines.new.items) }
    ensures still { OnOk result (IsOnlyReadFrom D.Disk store.old store.new) }
    ensures stops { StopsAs D.Disk (IsAmid D.Disk store.old base replay.old.due
        replay.old.shown.desktop) result store.old store.new }
{
    if events.is_empty() {
        return Ok(());
    }
    turn_if_due(alloc, store, base, replay)?;
    in_memory(add_lines(alloc, &mut replay.shown, events, lines))
}

/// Adds the line of an import, which is done then.
///
/// Errors: those of `turn_if_due`; `NoMemory`; `Worn`.
fn add_documents<D: Disk>(
    alloc: Global,
    store: &mut Store<D>,
    base: u32,
    replay: &mut Replay,
    documents: &[Document],
    lines: &mut Vec<Line>,
) -> Result<(), Error>
    requires { store.old.must_reopen ≡ false }
    ensures told { OnOk result ((a : IsAmid D.Disk store.old base replay.old.due
        replay.old.shown.desktop) → IsToldOver a.past.start a.past.deeds a.here
        (brought documents.now ∷ []) replay.new.due replay.new.shown.desktop
        lines.old.items lines.new.items) }
    ensures still { OnOk result (IsOnlyReadFrom D.Disk store.old store.new) }
    ensures stops { StopsAs D.Disk (IsAmid D.Disk store.old base replay.old.due
        replay.old.shown.desktop) result store.old store.new }
{
    turn_if_due(alloc, store, base, replay)?;
    in_memory(add_import(alloc, &mut replay.shown, documents, lines))
}

/// Adds the lines of what the page in sector `at` says was done. That is done then; a turn to a moment is due then.
///
/// Errors: those of `turn_if_due` and `add_far_turn`; `NoMemory`; `Worn`.
fn add_deeds<D: Disk>(
    alloc: Global,
    store: &mut Store<D>,
    base: u32,
    at: u32,
    replay: &mut Replay,
    deeds: &PageDeeds,
    lines: &mut Vec<Line>,
) -> Result<(), Error>
    requires { store.old.must_reopen ≡ false }
    ensures told { OnOk result ((a : IsAtPage D.Disk store.old base at deeds.now replay.old.due
        replay.old.shown.desktop) → IsToldOver a.amid.past.start a.amid.past.deeds a.amid.here
        (deeds_in a.page) replay.new.due replay.new.shown.desktop lines.old.items
        lines.new.items) }
    ensures still { OnOk result (IsOnlyReadFrom D.Disk store.old store.new) }
    ensures stops { StopsAs D.Disk (IsAtPage D.Disk store.old base at deeds.now replay.old.due
        replay.old.shown.desktop) result store.old store.new }
{
    match deeds {
        PageDeeds::Turn(k) => {
            add_turn(alloc, replay, *k, lines)?;
            Ok(())
        }
        PageDeeds::Events(events) => {
            add_events(alloc, store, base, replay, events.as_slice(), lines)
        }
        PageDeeds::Import(documents) => {
            add_documents(alloc, store, base, replay, documents.as_slice(), lines)
        }
        PageDeeds::FarTurn => add_far_turn(alloc, store, at, replay, lines),
        PageDeeds::Mark => Ok(()),
    }
}

/// Adds the lines of what the page in sector `at` says was done, as `add_deeds` does, and returns the sector behind it.
///
/// Errors: those of `add_deeds`.
fn add_page<D: Disk>(
    alloc: Global,
    store: &mut Store<D>,
    base: u32,
    at: u32,
    replay: &mut Replay,
    page: PageRead,
    lines: &mut Vec<Line>,
) -> Result<u32, Error>
    requires { store.old.must_reopen ≡ false }
    ensures next { IfOk result (λ next. next ≡ page.next) }
    ensures told { OnOk result ((a : IsAtPage D.Disk store.old base at page.deeds replay.old.due
        replay.old.shown.desktop) → IsToldOver a.amid.past.start a.amid.past.deeds a.amid.here
        (deeds_in a.page) replay.new.due replay.new.shown.desktop lines.old.items
        lines.new.items) }
    ensures still { OnOk result (IsOnlyReadFrom D.Disk store.old store.new) }
    ensures stops { StopsAs D.Disk (IsAtPage D.Disk store.old base at page.deeds replay.old.due
        replay.old.shown.desktop) result store.old store.new }
{
    add_deeds(alloc, store, base, at, replay, &page.deeds, lines)?;
    Ok(page.next)
}

/// Adds the lines of what the pages of a past say was done, the first of which stands in sector `first`.
///
/// Errors: those of `page_in` and of `add_page`; `Damaged` where a page is missing.
pub(crate) fn add_pages<D: Disk>(
    alloc: Global,
    store: &mut Store<D>,
    reach: Reach,
    first: u32,
    replay: &mut Replay,
    lines: &mut Vec<Line>,
) -> Result<(), Error>
    requires { store.old.must_reopen ≡ false }
    ensures told { OnOk result ((h : HasReach D.Disk store.old reach first)
        → IsToShow h.past.start h.past.deeds replay.old.due replay.old.shown.desktop
        h.past.start.desktop → IsToldOver h.past.start h.past.deeds h.past.start.desktop
        (all_deeds h.past.keeps.remembers.pages) replay.new.due replay.new.shown.desktop
        lines.old.items lines.new.items) }
    ensures still { OnOk result (IsOnlyReadFrom D.Disk store.old store.new) }
    ensures stops { StopsAs D.Disk ((h : HasReach D.Disk store.old reach first)
        × IsToShow h.past.start h.past.deeds replay.old.due replay.old.shown.desktop
        h.past.start.desktop) result store.old store.new }
{
    store.shows_what_crashes_leave();
    let mut at = first;
    while at < reach.next {
        let Some(page) = page_in(alloc, store, at, reach.next)? else {
            return Err(Error::Damaged(at));
        };
        let next = add_page(alloc, store, reach.part.base, at, replay, page, lines)?;
        at = next;
    }
    Ok(())
}
