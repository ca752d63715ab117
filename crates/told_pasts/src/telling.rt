//! All deeds of a past in words.
ghost use Rattle.std.specs.Prelude.{◌≡◌, ◌-◌, ◌++◌, ◌∷◌, [], List, drop, false, length, IfErr, IfOk, IsSomeAnd, OnOk};
ghost use Rattle.desktop_definitions.specs.Desktop.{Desktop};
ghost use Rattle.store_layout.specs.Meaning.{Standing};
ghost use Rattle.store_slots.specs.Errors.{OfPost};
ghost use Rattle.desk_journal.specs.Undoing.{IsLeft, ShowsStanding};
ghost use Rattle.past_pages.specs.Reading.{IsOnlyReadFrom};
ghost use Rattle.desk_past.specs.Deeds.{PastDeed, all_posted, brought};
ghost use Rattle.desk_past.specs.Going.{LiesInPart};
ghost use Rattle.desk_past.specs.Past.{KeepsAll, Start};
ghost use Rattle.told_pasts.specs.Reaching.{HasReach, KeepsInPart};
ghost use Rattle.told_pasts.specs.Stopping.{StopsAs};
ghost use Rattle.told_pasts.specs.Telling.{IsToldOn};
ghost use Rattle.told_pasts.specs.Words.{told_lines};

use crate::back::count_of;
use crate::line::Line;
use crate::reach::{Reach, first_of, reach_of};
use crate::replay::{Replay, add_pages, in_memory, turn_if_due};
use crate::words::{import_line, line_of};
use desk_journal::{Document, Error, Store};
use desk_past::moment;
use event_bytes::Event;
use sector_disk::{Disk, MemoryDisk};
use std::alloc::{AllocError, Global};
use store_layout::standing_law;

/// All deeds of the past of a store in words, the first one first. None where it keeps none, or one without its start.
///
/// Errors: `MustReopen`; `NotAStore` and `Damaged` where no start stands; `Damaged` where a page is missing; `Worn` where
/// the last epoch of the start is full; `NoMemory`; `Fault`. Of a past that is kept whole, the last three alone.
pub fn told_past<D: Disk>(alloc: Global, store: &mut Store<D>) -> Result<Option<Vec<Line>>, Error>
    ensures told { IfOk result (λ found. D.honest store.old.disk
        → (start : Start) (deeds : List PastDeed) (desktop : Desktop)
        → (keeps : KeepsAll D.Disk start deeds desktop store.old) → LiesInPart D.Disk keeps
        → IsSomeAnd found (λ lines. lines.items ≡ told_lines start.desktop deeds)) }
    ensures still { OnOk result (IsOnlyReadFrom D.Disk store.old store.new) }
    ensures stops { StopsAs D.Disk (KeepsInPart D.Disk store.old) result store.old store.new }
{
    standing_law();
    store.shows_what_crashes_leave();
    let Some(reach) = reach_of(store)? else {
        return Ok(None);
    };
    let Some(first) = first_of(reach) else {
        return Ok(None);
    };
    let Some(shown) = start_of(alloc, store, reach, first, reach.before)? else {
        return Ok(None);
    };
    let lines = tell_all(alloc, store, reach, first, shown)?;
    Ok(Some(lines))
}

/// The start of a past, in memory, whose pages begin in this sector, and before whose journal so many events came. None
/// where none stands there.
///
/// Errors: those of `page_in` and of `moment`; `Damaged` where a page is missing.
fn start_of<D: Disk>(
    alloc: Global,
    store: &mut Store<D>,
    reach: Reach,
    first: u32,
    before: u64,
) -> Result<Option<Store<MemoryDisk>>, Error>
    ensures is { IfOk result (λ found. (h : HasReach D.Disk store.old reach first)
        → before ≡ reach.before
        → IsSomeAnd found (λ shown. shown.desktop ≡ h.past.start.desktop)) }
    ensures still { OnOk result (IsOnlyReadFrom D.Disk store.old store.new) }
    ensures stops { StopsAs D.Disk (HasReach D.Disk store.old reach first × (before ≡ reach.before))
        result store.old store.new }
{
    store.shows_what_crashes_leave();
    let count = count_of(alloc, store, first, reach.next)?;
    if count > before {
        return Ok(None);
    }
    moment(alloc, store, reach.part.base, before - count)
}

/// All deeds of a past in words, whose start is this store in memory, and whose first page stands in sector `first`.
///
/// Errors: those of `page_in`, of `moment` and of `Store::history`; `Damaged` where a page is missing; `Worn`.
fn tell_all<D: Disk>(
    alloc: Global,
    store: &mut Store<D>,
    reach: Reach,
    first: u32,
    shown: Store<MemoryDisk>,
) -> Result<Vec<Line>, Error>
    requires { store.old.must_reopen ≡ false }
    ensures told { IfOk result (λ lines. (h : HasReach D.Disk store.old reach first)
        → shown.desktop ≡ h.past.start.desktop
        → lines.items ≡ told_lines h.past.start.desktop h.past.deeds) }
    ensures still { OnOk result (IsOnlyReadFrom D.Disk store.old store.new) }
    ensures stops { StopsAs D.Disk ((h : HasReach D.Disk store.old reach first)
        × (shown.desktop ≡ h.past.start.desktop)) result store.old store.new }
{
    standing_law();
    store.shows_what_crashes_leave();
    let mut replay = Replay { shown, due: None };
    let mut lines = Vec::new(alloc);
    add_pages(alloc, store, reach, first, &mut replay, &mut lines)?;
    turn_if_due(alloc, store, reach.part.base, &mut replay)?;
    add_journal(alloc, store, &mut replay.shown, reach.journal, &mut lines)?;
    Ok(lines)
}

/// Adds the line of an import, which is done then.
///
/// Errors: those of `Store::bring`.
pub(crate) fn add_import<E: Disk>(
    alloc: Global,
    shown: &mut Store<E>,
    documents: &[Document],
    lines: &mut Vec<Line>,
) -> Result<(), Error>
    ensures told { OnOk result (IsToldOn E.Disk (brought documents.now ∷ []) lines.old.items
        lines.new.items shown.old shown.new) }
    ensures errors { IfErr result OfPost }
{
    push_line(lines, import_line(alloc, documents)?)?;
    let _reply = shown.bring(alloc, documents)?;
    Ok(())
}

/// Adds the lines of the events in the journal in use, which are so many.
///
/// Errors: those of `Store::history`; `NoMemory`; `Worn`.
fn add_journal<D: Disk, E: Disk>(
    alloc: Global,
    store: &mut Store<D>,
    shown: &mut Store<E>,
    journal: u32,
    lines: &mut Vec<Line>,
) -> Result<(), Error>
    ensures told { OnOk result (D.honest store.old.disk → (s : Standing)
        → ShowsStanding D.Disk store.old s → journal ≡ length s.events
        → IsToldOn E.Disk (all_posted s.events) lines.old.items lines.new.items
        shown.old shown.new) }
    ensures left { IsLeft D.Disk store.old store.new }
    ensures usable { store.new.must_reopen ≡ store.old.must_reopen }
    ensures stops { StopsAs D.Disk (D.honest store.old.disk × (store.old.must_reopen ≡ false))
        result store.old store.new }
{
    let events = store.history(alloc)?;
    let last = last_of(events.as_slice(), journal);
    in_memory(add_lines(alloc, shown, last, lines))
}

/// So many of the last events; all, where there are fewer.
fn last_of(events: &[Event], count: u32) -> &[Event]
    ensures { result.now ≡ drop (length events.now - count) events.now }
{
    let (_former, last) = events.split_at(events.len().saturating_sub(count as usize));
    last
}

/// Adds a line for each event, which is done then.
///
/// Errors: those of `Store::screen` and of `Store::post`.
pub fn add_lines<E: Disk>(
    alloc: Global,
    shown: &mut Store<E>,
    events: &[Event],
    lines: &mut Vec<Line>,
) -> Result<(), Error>
    ensures told { OnOk result (IsToldOn E.Disk (all_posted events.now) lines.old.items
        lines.new.items shown.old shown.new) }
    ensures errors { IfErr result OfPost }
{
    for event in events {
        let line = line_of(alloc, shown, event)?;
        push_line(lines, line)?;
        let _reply = shown.post(alloc, event)?;
    }
    Ok(())
}

/// Adds a line of these bytes.
pub(crate) fn push_line(lines: &mut Vec<Line>, bytes: Vec<u8>) -> Result<(), AllocError>
    ensures { OnOk result (lines.new.items ≡ lines.old.items ++ (bytes.items ∷ [])) }
{
    lines.push(Line::new(bytes))?;
    Ok(())
}
