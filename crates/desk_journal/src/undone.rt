//! What taking events back undoes.
ghost use Rattle.std.specs.Prelude.{◌≡◌, ◌+◌, ◌-◌, ◌≤◌, ◌∷◌, [], false, length, take, IfOk, OnOk};
ghost use Rattle.desktop_definitions.specs.Step.{steps};
ghost use Rattle.store_layout.specs.declared.layout.TheConstants.{JOURNAL_EVENTS, LAYOUT};
ghost use Rattle.desk_journal.specs.Undoing.{IsBehind, IsLedOn};
ghost use Rattle.desk_journal.specs.View.{IsDurable};

use crate::store::Store;
use event_bytes::Event;
use sector_disk::Disk;
use std::alloc::Global;
use store_layout::standing_law;
use store_slots::Error;

/// Posts the event, and takes it back: the store shows what it showed before, and the event that is handed back is that
/// one. So it is too where a checkpoint came before the event.
///
/// Errors: those of `post` and `undo`.
pub fn post_and_undo<D: Disk>(
    store: &mut Store<D>,
    alloc: Global,
    event: &Event,
) -> Result<Vec<Event>, Error>
    ensures { IfOk result (λ undone. D.honest store.old.disk
        → (store.new.desktop ≡ store.old.desktop)
        × (undone.items ≡ event.now ∷ [])) }
{
    let _ = store.post(alloc, event)?;
    store.undo(alloc, 1)
}

/// Posts the events, one after another: they stand behind what the disk showed.
///
/// Errors: those of `post`.
fn post_each<D: Disk>(store: &mut Store<D>, alloc: Global, events: &[Event]) -> Result<(), Error>
    requires usable { store.old.must_reopen ≡ false }
    requires room { store.old.events + length events.now ≤ JOURNAL_EVENTS }
    requires newest { store.old.layout ≡ LAYOUT }
    ensures behind { OnOk result (IsBehind D.Disk events.now store.old store.new) }
    ensures durable { IsDurable D.Disk store.old }
{
    standing_law();
    store.shows_what_crashes_leave();
    for event in events {
        let _ = store.post(alloc, event)?;
    }
    Ok(())
}

/// Posts the events, and takes so many of them back: the store shows what it shows after the others alone. The journal
/// has room for the events, and is one of the newest version.
///
/// Errors: those of `post` and `undo`.
pub fn post_and_undo_some<D: Disk>(
    store: &mut Store<D>,
    alloc: Global,
    events: &[Event],
    back: u32,
) -> Result<(), Error>
    requires usable { store.old.must_reopen ≡ false }
    requires room { store.old.events + length events.now ≤ JOURNAL_EVENTS }
    requires newest { store.old.layout ≡ LAYOUT }
    requires some { back ≤ length events.now }
    ensures { OnOk result (D.honest store.old.disk → store.new.desktop
        ≡ steps store.old.desktop (take (length events.now - back) events.now)) }
{
    post_each(store, alloc, events)?;
    let _ = store.undo(alloc, back)?;
    Ok(())
}

/// Posts the events, one after another.
///
/// Errors: those of `post`.
fn post_all<D: Disk>(store: &mut Store<D>, alloc: Global, events: &[Event]) -> Result<(), Error>
    ensures led { OnOk result (IsLedOn D.Disk events.now store.old store.new) }
{
    for event in events {
        let _ = store.post(alloc, event)?;
    }
    Ok(())
}

/// Takes the last events back, so many, and posts them again: the store shows what it showed. The slot in use has the
/// newest version, by which the events are stepped again.
///
/// Errors: those of `undo` and `post`.
pub fn undo_and_redo<D: Disk>(store: &mut Store<D>, alloc: Global, count: u32) -> Result<(), Error>
    requires usable { store.old.must_reopen ≡ false }
    requires newest { store.old.layout ≡ LAYOUT }
    ensures { OnOk result (D.honest store.old.disk → store.new.desktop ≡ store.old.desktop) }
{
    store.shows_what_crashes_leave();
    let undone = store.undo(alloc, count)?;
    post_all(store, alloc, undone.as_slice())
}
