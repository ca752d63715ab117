//! Opening a disk: the slot in use, the desktop that it starts from, and the events of its journal.
ghost use Rattle.std.specs.Prelude.{◌≡◌, ◌-◌, ◌<◌, ◌≤◌, ◌∷◌, [], ℕ, List, true, false, OnOk, IfOk, IfSome, IfNone, IsErrOf};
ghost use Rattle.std.specs.Prelude.{length, drop};
ghost use Rattle.event_bytes.specs.declared.event.Event.{Event};
ghost use Rattle.event_bytes.specs.Spelling.{BeginsWithEvent};
ghost use Rattle.command_table.specs.Versions.{version_number};
ghost use Rattle.store_layout.specs.Layout.{is_open, gate, body, IsGoodHead};
ghost use Rattle.store_slots.specs.Beside.{HasEvents};
ghost use Rattle.store_layout.specs.Finding.{IsForeign, IsDamagedAt, IsNoEvent};
ghost use Rattle.store_layout.specs.Meaning.{Shows};
ghost use Rattle.store_layout.specs.Kept.{ShowsSettled};
ghost use Rattle.store_slots.specs.Errors.{OfOpen, OfReplay};
ghost use Rattle.store_slots.specs.Live.{seen_live, IsLiveOn, IsNamed, StaysInArea};
ghost use Rattle.store_slots.specs.Load.{HasSlotInUse, IsCutTo, IsLoaded, IsReadUpTo, IsReadWhole};
ghost use Rattle.store_slots.specs.Words.{Nowhere, now, IsConfined, FailsAs, OneOf};
ghost use Rattle.store_slots.specs.Written.{HasJournalTo, HasSlot, IsInJournal};

use crate::Error;
use crate::characters::load_slot;
use crate::live::LiveDesktop;
use crate::sector::{blank_sector, is_open_at};
use crate::slots::locate;
use event_bytes::{Event, at_most_one_begins};
use event_loop::{NEWEST, Version};
use sector_disk::{Disk, SECTOR_BYTES};
use std::alloc::Global;
use store_layout::{
    Head, JOURNAL_EVENTS, SLOTS, STORE_SECTORS, body, event_of, gate, standing_law,
};

/// What was loaded of a disk.
#[derive(Drop)]
pub struct Loaded {
    /// The desktop after the events of the journal.
    pub desktop: LiveDesktop,
    /// The slot in use.
    pub slot: u32,
    /// Its version, by which the events of its journal were stepped.
    pub version: Version,
    /// Its epoch.
    pub epoch: u32,
    /// How many events its journal has.
    pub events: u32,
}

/// The event under gate k, or none where the gate is closed.
fn read_event<D: Disk>(disk: &mut D, slot: u32, k: u32) -> Result<Option<Event>, Error>
    requires { IsInJournal (D.size disk.old) slot k }
    ensures kept { IsConfined D.size D.honest D.trail Nowhere disk.old disk.new }
    ensures faults { FailsAs Error.Fault (OneOf (Error.Fault ∷ Error.Damaged (body slot k) ∷ []))
        result
        (D.failures disk.old) (D.failures disk.new) }
    ensures none { IfOk result (λ found. IfNone found (D.honest disk.old
        → is_open ((now (D.trail disk.old)).reads (gate slot k)) ≡ false)) }
    ensures some { IfOk result (λ found. IfSome found (λ event. D.honest disk.old
        → (is_open ((now (D.trail disk.old)).reads (gate slot k)) ≡ true)
        × BeginsWithEvent ((now (D.trail disk.old)).reads (body slot k)) event)) }
    ensures damaged { (n : ℕ) → IsErrOf result (Error.Damaged n) → D.honest disk.old
        → (n ≡ body slot k)
        × (is_open ((now (D.trail disk.old)).reads (gate slot k)) ≡ true)
        × ((event : Event) → BeginsWithEvent ((now (D.trail disk.old)).reads (body slot k)) event
        → ⊥) }
{
    if !is_open_at(disk, gate(slot, k))? {
        return Ok(None);
    }
    let at = body(slot, k);
    let mut sector = blank_sector();
    disk.read(at, &mut sector)?;
    match event_of(&sector) {
        Some(event) => Ok(Some(event)),
        None => Err(Error::Damaged(at)),
    }
}

/// The version of a slot in use.
pub fn version_of(head: &Head) -> Version
    requires { IsGoodHead head.now }
    ensures { version_number result ≡ head.now.version }
{
    match Version::of_number(head.version) {
        Some(version) => version,
        None => NEWEST,
    }
}

/// Does the first of the journal's events, at most so many, with the commands of that version, and returns how many
/// were done.
pub fn replay_to<D: Disk>(
    alloc: Global,
    disk: &mut D,
    slot: u32,
    version: Version,
    desktop: &mut LiveDesktop,
    most: u32,
) -> Result<u32, Error>
    requires at { HasJournalTo (D.size disk.old) slot most }
    requires on { IsLiveOn D.Disk disk.old desktop.old }
    ensures kept { IsConfined D.size D.honest D.trail Nowhere disk.old disk.new }
    ensures faults { FailsAs Error.Fault OfReplay result (D.failures disk.old)
        (D.failures disk.new) }
    ensures few { IfOk result (λ count. count ≤ most) }
    ensures read { IfOk result
        (λ count. D.honest disk.old → IsReadUpTo (now (D.trail disk.old)).reads slot
        (version_number version) most count (seen_live (now (D.trail disk.old)).reads desktop.old)
        (seen_live (now (D.trail disk.new)).reads desktop.new)) }
    ensures left { OnOk result (StaysInArea D.Disk disk.new desktop.old desktop.new) }
    ensures damaged { (n : ℕ) → IsErrOf result (Error.Damaged n) → D.honest disk.old
        → (k : ℕ) × (n ≡ body slot k) × IsNoEvent (now (D.trail disk.old)).reads slot k }
{
    for k in 0..most {
        match read_event(disk, slot, k)? {
            Some(event) => {
                let _ = desktop.step(alloc, version, &event, disk)?;
            }
            None => return Ok(k),
        }
    }
    Ok(most)
}

/// Does the journal's events, with the commands of that version, and returns how many there are.
fn replay<D: Disk>(
    alloc: Global,
    disk: &mut D,
    slot: u32,
    version: Version,
    desktop: &mut LiveDesktop,
) -> Result<u32, Error>
    requires at { HasSlot (D.size disk.old) slot }
    requires on { IsLiveOn D.Disk disk.old desktop.old }
    ensures kept { IsConfined D.size D.honest D.trail Nowhere disk.old disk.new }
    ensures faults { FailsAs Error.Fault OfReplay result (D.failures disk.old)
        (D.failures disk.new) }
    ensures few { IfOk result (λ count. count ≤ JOURNAL_EVENTS) }
    ensures whole { IfOk result
        (λ count. D.honest disk.old → IsReadWhole (now (D.trail disk.old)).reads slot
        (version_number version) count (seen_live (now (D.trail disk.old)).reads desktop.old)
        (seen_live (now (D.trail disk.new)).reads desktop.new)) }
    ensures left { OnOk result (StaysInArea D.Disk disk.new desktop.old desktop.new) }
    ensures damaged { (n : ℕ) → IsErrOf result (Error.Damaged n) → D.honest disk.old
        → (k : ℕ) × (n ≡ body slot k) × IsNoEvent (now (D.trail disk.old)).reads slot k }
{
    replay_to(alloc, disk, slot, version, desktop, JOURNAL_EVENTS)
}

/// Reads what the disk shows.
pub fn load<D: Disk>(alloc: Global, disk: &mut D) -> Result<Loaded, Error>
    ensures kept { IsConfined D.size D.honest D.trail Nowhere disk.old disk.new }
    ensures faults { FailsAs Error.Fault OfOpen result (D.failures disk.old) (D.failures disk.new) }
    ensures loaded { IfOk result (IsLoaded D.Disk disk.new) }
    ensures found { IfOk result
        (λ x. D.honest disk.old → Shows (D.size disk.old) (version_number x.version) x.epoch
        x.events
        (seen_live (now (D.trail disk.new)).reads x.desktop) (now (D.trail disk.old)).reads) }
    ensures shown { IfOk result (λ x. D.honest disk.old
        → ShowsSettled (D.size disk.old) (D.trail disk.new) x.slot (version_number x.version)
        x.epoch x.events
        (seen_live (now (D.trail disk.new)).reads x.desktop)
        × IsNamed (now (D.trail disk.new)).reads x.slot x.desktop) }
    ensures foreign { IsErrOf result Error.NotAStore → D.honest disk.old
        → IsForeign (D.size disk.old) (now (D.trail disk.old)).reads }
    ensures damaged { (n : ℕ) → IsErrOf result (Error.Damaged n) → D.honest disk.old
        → IsDamagedAt (D.size disk.old) (now (D.trail disk.old)).reads n }
    // Label, gates and heads are read before any memory is taken.
    ensures memory { IsErrOf result Error.NoMemory → D.honest disk.old
        → HasSlotInUse (D.size disk.old) (now (D.trail disk.old)).reads }
{
    let (slot, head) = locate(disk)?;
    let version = version_of(&head);
    let mut desktop = load_slot(alloc, disk, slot, version, &head)?;
    let events = replay(alloc, disk, slot, version, &mut desktop)?;
    Ok(Loaded {
        desktop,
        slot,
        version,
        epoch: head.epoch,
        events,
    })
}

/// Reads the desktop that the disk shows without the events behind the first of its journal, so many.
pub fn load_front<D: Disk>(alloc: Global, disk: &mut D, most: u32) -> Result<LiveDesktop, Error>
    requires { most ≤ JOURNAL_EVENTS }
    ensures kept { IsConfined D.size D.honest D.trail Nowhere disk.old disk.new }
    ensures faults { FailsAs Error.Fault OfOpen result (D.failures disk.old) (D.failures disk.new) }
    ensures left { IfOk result (IsLiveOn D.Disk disk.new) }
    ensures shown { IfOk result
        (λ x. D.honest disk.old → IsCutTo (D.size disk.old) (now (D.trail disk.old)).reads most
        (now (D.trail disk.new)).reads x) }
    ensures foreign { IsErrOf result Error.NotAStore → D.honest disk.old
        → IsForeign (D.size disk.old) (now (D.trail disk.old)).reads }
    ensures damaged { (n : ℕ) → IsErrOf result (Error.Damaged n) → D.honest disk.old
        → IsDamagedAt (D.size disk.old) (now (D.trail disk.old)).reads n }
{
    let (slot, head) = locate(disk)?;
    let version = version_of(&head);
    let mut desktop = load_slot(alloc, disk, slot, version, &head)?;
    let _ = replay_to(alloc, disk, slot, version, &mut desktop, most)?;
    standing_law();
    Ok(desktop)
}

/// The event under gate k of a journal that has more. Where its gate is closed the store is damaged there.
pub(crate) fn event_under<D: Disk>(disk: &mut D, slot: u32, k: u32) -> Result<Event, Error>
    requires { IsInJournal (D.size disk.old) slot k }
    ensures kept { IsConfined D.size D.honest D.trail Nowhere disk.old disk.new }
    ensures faults { FailsAs Error.Fault OfReplay result (D.failures disk.old)
        (D.failures disk.new) }
    ensures begins { IfOk result (λ event. D.honest disk.old
        → BeginsWithEvent ((now (D.trail disk.old)).reads (body slot k)) event) }
    ensures damaged { (n : ℕ) → IsErrOf result (Error.Damaged n) → D.honest disk.old
        → (end : ℕ) (all : List Event) → k < end
        → HasEvents (now (D.trail disk.old)).reads slot end all → ⊥ }
{
    match read_event(disk, slot, k)? {
        Some(event) => Ok(event),
        None => Err(Error::Damaged(gate(slot, k))),
    }
}

/// The events of the journal of a slot from gate k on, up to the last one, which stands before gate `end`.
pub fn read_events<D: Disk>(
    alloc: Global,
    disk: &mut D,
    slot: u32,
    k: u32,
    end: u32,
) -> Result<Vec<Event>, Error>
    requires at { HasJournalTo (D.size disk.old) slot end }
    requires some { k ≤ end }
    ensures kept { IsConfined D.size D.honest D.trail Nowhere disk.old disk.new }
    ensures faults { FailsAs Error.Fault OfReplay result (D.failures disk.old)
        (D.failures disk.new) }
    ensures count { IfOk result (λ events. length events.items ≡ end - k) }
    ensures others { IfOk result (λ events. D.honest disk.old → (all : List Event)
        → HasEvents (now (D.trail disk.old)).reads slot end all → drop k all ≡ events.items) }
    ensures damaged { (n : ℕ) → IsErrOf result (Error.Damaged n) → D.honest disk.old
        → (all : List Event)
        → HasEvents (now (D.trail disk.old)).reads slot end all → ⊥ }
{
    at_most_one_begins();
    let mut events = Vec::with_capacity(alloc, (end - k) as usize)?;
    for at in k..end {
        let event = event_under(disk, slot, at)?;
        events.push_reserved(event);
    }
    Ok(events)
}
