//! What a store was before its last events: by the first events of the slot in use, or by those of the slot beside it, from
//! whose desktop the slot in use starts. Nothing is written.
ghost use Rattle.std.specs.Prelude.{◌≡◌, ◌+◌, ◌-◌, ◌<◌, ◌≤◌, ◌++◌, ℕ, List, true, IfOk, IfErr, IfSome, IfNone, IsErrOf};
ghost use Rattle.std.specs.Prelude.{length, drop};
ghost use Rattle.std.specs.Bool.{Decides};
ghost use Rattle.event_bytes.specs.declared.event.Event.{Event};
ghost use Rattle.store_layout.specs.Layout.{is_open, slot_gate, head as head_at, IsGoodHead};
ghost use Rattle.store_layout.specs.Meaning.{HasImage, IsJournal, Standing};
ghost use Rattle.desktop_definitions.specs.Desktop.{Desktop};
ghost use Rattle.store_slots.specs.Beside.{HasEvents, HasFormer, HasMoreThan, IsCountedBack, IsEarlier, IsHistory, IsLoadedUpTo};
ghost use Rattle.store_slots.specs.Beside.{NoFormer, NothingBefore};
ghost use Rattle.store_slots.specs.Errors.{OfDesktop, OfOpen, OfReplay};
ghost use Rattle.store_slots.specs.Live.{IsLiveOn, seen_live};
ghost use Rattle.store_slots.specs.Words.{Nowhere, now, IsConfined, FailsAs};
ghost use Rattle.store_slots.specs.Written.{HasJournalTo, HasSlot, IsUpTo};

use crate::Error;
use crate::characters::load_slot;
use crate::comparing::starts_from;
use crate::live::LiveDesktop;
use crate::loaded::{Loaded, load_front, read_events, replay_to, version_of};
use crate::slots::read_slot;
use event_bytes::{Event, at_most_one_begins};
use image_format::one_desktop;
use sector_disk::Disk;
use std::alloc::{AllocError as NoMemory, Global};
use store_layout::{Head, JOURNAL_EVENTS, LAYOUT, SLOTS, STORE_SECTORS, finding_law, standing_law};

/// Reads the desktop of a slot of this head by the first events of its journal, at most so many.
fn load_of<D: Disk>(
    alloc: Global,
    disk: &mut D,
    slot: u32,
    head: &Head,
    most: u32,
) -> Result<Loaded, Error>
    requires at { HasJournalTo (D.size disk.old) slot most }
    requires good { IsGoodHead head.now }
    ensures kept { IsConfined D.size D.honest D.trail Nowhere disk.old disk.new }
    ensures faults { FailsAs Error.Fault OfReplay result (D.failures disk.old)
        (D.failures disk.new) }
    ensures few { IfOk result (λ x. x.events ≤ JOURNAL_EVENTS) }
    ensures left { IfOk result (λ x. IsLiveOn D.Disk disk.new x.desktop) }
    ensures shown { IfOk result (λ x. D.honest disk.old
        → head_at (now (D.trail disk.old)).reads slot ≡ head.now
        → IsLoadedUpTo (now (D.trail disk.old)).reads slot head.now.version most x.events
        (now (D.trail disk.new)).reads x.desktop) }
    ensures damaged { (n : ℕ) → IsErrOf result (Error.Damaged n) → D.honest disk.old
        → head_at (now (D.trail disk.old)).reads slot ≡ head.now
        → (start : Desktop) (events : List Event)
        → HasImage (now (D.trail disk.old)).reads slot start
        → IsJournal (now (D.trail disk.old)).reads slot 0 events → ⊥ }
{
    let version = version_of(head);
    let mut desktop = load_slot(alloc, disk, slot, version, head)?;
    let events = replay_to(alloc, disk, slot, version, &mut desktop, most)?;
    Ok(Loaded {
        desktop,
        slot,
        version,
        epoch: head.epoch,
        events,
    })
}

/// Whether this head is of the epoch before this one, and in the newest version.
fn goes_before(head: &Head, epoch: u32) -> bool
    ensures { Decides result ((head.now.epoch + 1 ≡ epoch) × (head.now.version ≡ LAYOUT)) }
{
    if head.version != LAYOUT {
        return false;
    }
    if head.epoch >= epoch {
        return false;
    }
    epoch - head.epoch == 1
}

/// The head of the slot beside this one, where that is open under the epoch before and in the newest version.
fn head_before<D: Disk>(disk: &mut D, slot: u32, epoch: u32) -> Result<Option<Head>, Error>
    requires { HasSlot (D.size disk.old) slot }
    ensures kept { IsConfined D.size D.honest D.trail Nowhere disk.old disk.new }
    ensures faults { FailsAs Error.Fault OfReplay result (D.failures disk.old)
        (D.failures disk.new) }
    ensures some { IfOk result (λ found. IfSome found (λ h. D.honest disk.old
        → (is_open ((now (D.trail disk.old)).reads (slot_gate (1 - slot))) ≡ true)
        × (head_at (now (D.trail disk.old)).reads (1 - slot) ≡ h))) }
    ensures good { IfOk result (λ found. IfSome found IsGoodHead) }
    ensures before { IfOk result (λ found. IfSome found (λ h. (h.epoch + 1 ≡ epoch)
        × (h.version ≡ LAYOUT))) }
    ensures none { IfOk result (λ found. IfNone found (D.honest disk.old
        → NoFormer (now (D.trail disk.old)).reads slot epoch)) }
    ensures damaged { (n : ℕ) → IsErrOf result (Error.Damaged n) → D.honest disk.old
        → NoFormer (now (D.trail disk.old)).reads slot epoch }
{
    let Some(head) = read_slot(disk, 1 - slot)? else {
        return Ok(None);
    };
    if !goes_before(&head, epoch) {
        return Ok(None);
    }
    Ok(Some(head))
}

/// What came before the slot in use: the head of the slot beside it, and how many events its journal has.
#[derive(Clone, Copy)]
pub struct Former {
    pub head: Head,
    pub events: u32,
}

/// Whether a slot of this head, in the newest version, starts from this desktop. Where its bytes aren't those that a checkpoint
/// of the desktop writes, what it starts from is loaded, and what is seen of both is compared.
fn is_start<D: Disk>(
    alloc: Global,
    disk: &mut D,
    slot: u32,
    head: &Head,
    desktop: &mut LiveDesktop,
) -> Result<bool, Error>
    requires at { HasSlot (D.size disk.old) slot }
    requires good { IsGoodHead head.now }
    requires on { IsLiveOn D.Disk disk.old desktop.old }
    ensures kept { IsConfined D.size D.honest D.trail Nowhere disk.old disk.new }
    ensures faults { FailsAs Error.Fault OfReplay result (D.failures disk.old)
        (D.failures disk.new) }
    ensures newest { IfOk result (λ same. same ≡ true → head.now.version ≡ LAYOUT) }
    ensures same { IfOk result (λ same. D.honest disk.old → head.now.version ≡ LAYOUT
        → head_at (now (D.trail disk.old)).reads slot ≡ head.now
        → Decides same (HasImage (now (D.trail disk.old)).reads slot
        (seen_live (now (D.trail disk.old)).reads desktop.old))) }
    ensures damaged { (n : ℕ) → IsErrOf result (Error.Damaged n) → D.honest disk.old
        → head_at (now (D.trail disk.old)).reads slot ≡ head.now
        → (start : Desktop) → HasImage (now (D.trail disk.old)).reads slot start → ⊥ }
{
    one_desktop();
    if head.version != LAYOUT {
        return Ok(false);
    }
    if starts_from(disk, slot, head, desktop)? {
        return Ok(true);
    }
    let mut start = load_slot(alloc, disk, slot, version_of(head), head)?;
    Ok(desktop.shows_same(alloc, &mut start, disk)?)
}

/// What came before this slot of this epoch; None where the slot beside it is closed or of another epoch or version, has no
/// events, or leads to another desktop than the one from which this slot starts.
fn find<D: Disk>(
    alloc: Global,
    disk: &mut D,
    slot: u32,
    epoch: u32,
) -> Result<Option<Former>, Error>
    requires { HasSlot (D.size disk.old) slot }
    ensures kept { IsConfined D.size D.honest D.trail Nowhere disk.old disk.new }
    ensures faults { FailsAs Error.Fault OfReplay result (D.failures disk.old)
        (D.failures disk.new) }
    ensures found { IfOk result (λ found. IfSome found (λ x. D.honest disk.old
        → HasFormer (now (D.trail disk.old)).reads slot epoch x.head x.events)) }
    ensures some { IfOk result (λ found. IfSome found (λ x. IsGoodHead x.head × (0 < x.events)
        × (x.events ≤ JOURNAL_EVENTS) × (x.head.epoch + 1 ≡ epoch))) }
    ensures none { IfOk result (λ found. IfNone found (D.honest disk.old
        → NoFormer (now (D.trail disk.old)).reads slot epoch)) }
    ensures damaged { (n : ℕ) → IsErrOf result (Error.Damaged n) → D.honest disk.old
        → NoFormer (now (D.trail disk.old)).reads slot epoch }
{
    at_most_one_begins();
    one_desktop();
    let Some(before) = head_before(disk, slot, epoch)? else {
        return Ok(None);
    };
    let Some(head) = read_slot(disk, slot)? else {
        return Ok(None);
    };
    let mut loaded = load_of(alloc, disk, 1 - slot, &before, JOURNAL_EVENTS)?;
    if loaded.events == 0 {
        return Ok(None);
    }
    if !is_start(alloc, disk, slot, &head, &mut loaded.desktop)? {
        return Ok(None);
    }
    Ok(Some(Former {
        head: before,
        events: loaded.events,
    }))
}

/// Whether this error says that the store is damaged.
fn is_damage(error: Error) -> bool
    ensures { Decides result ((n : ℕ) × (error ≡ Error.Damaged n)) }
{
    match error {
        Error::Damaged(_) => true,
        _ => false,
    }
}

/// What came before this slot of this epoch, where that is asked for. A slot that can't be loaded is nothing.
fn find_former<D: Disk>(
    alloc: Global,
    disk: &mut D,
    slot: u32,
    epoch: u32,
    wanted: bool,
) -> Result<Option<Former>, Error>
    requires { HasSlot (D.size disk.old) slot }
    ensures kept { IsConfined D.size D.honest D.trail Nowhere disk.old disk.new }
    ensures faults { FailsAs Error.Fault OfDesktop result (D.failures disk.old)
        (D.failures disk.new) }
    ensures found { IfOk result (λ found. IfSome found (λ x. D.honest disk.old
        → HasFormer (now (D.trail disk.old)).reads slot epoch x.head x.events)) }
    ensures some { IfOk result (λ found. IfSome found (λ x. IsGoodHead x.head × (0 < x.events)
        × (x.events ≤ JOURNAL_EVENTS) × (x.head.epoch + 1 ≡ epoch))) }
    ensures wanted { IfOk result (λ found. IfSome found (λ x. wanted ≡ true)) }
    ensures none { IfOk result (λ found. IfNone found (wanted ≡ true → D.honest disk.old
        → NoFormer (now (D.trail disk.old)).reads slot epoch)) }
{
    if !wanted {
        return Ok(None);
    }
    match find(alloc, disk, slot, epoch) {
        Ok(found) => Ok(found),
        Err(error) => {
            if is_damage(error) {
                return Ok(None);
            }
            Err(error)
        }
    }
}

/// What a store was before its last events.
#[derive(Drop)]
pub struct Earlier {
    /// Its desktop.
    pub desktop: LiveDesktop,
    /// The slot that shows it.
    pub slot: u32,
    /// Its epoch.
    pub epoch: u32,
    /// How many events of its journal lead there.
    pub left: u32,
    /// The events behind.
    pub events: Vec<Event>,
}

/// Reads what the disk shows by the first k events of the slot in use alone, and the events behind them, of which the
/// last one stands before gate `end`.
fn load_within<D: Disk>(
    alloc: Global,
    disk: &mut D,
    slot: u32,
    epoch: u32,
    k: u32,
    end: u32,
) -> Result<Earlier, Error>
    requires at { HasJournalTo (D.size disk.old) slot end }
    requires some { k ≤ end }
    ensures kept { IsConfined D.size D.honest D.trail Nowhere disk.old disk.new }
    ensures faults { FailsAs Error.Fault OfOpen result (D.failures disk.old) (D.failures disk.new) }
    ensures left { IfOk result (λ x. IsLiveOn D.Disk disk.new x.desktop) }
    ensures count { IfOk result (λ x. (x.slot ≡ slot) × (x.epoch ≡ epoch) × (x.left ≡ k)
        × (length x.events.items ≡ end - k)) }
    ensures shown { IfOk result (λ x. D.honest disk.old → (s : Standing)
        → IsUpTo (D.size disk.old) (D.trail disk.old) slot end s → s.epoch ≡ epoch
        → IsEarlier (now (D.trail disk.new)).reads x.slot x.epoch x.left s x.desktop
        x.events.items) }
    ensures stops { D.honest disk.old → (s : Standing)
        → IsUpTo (D.size disk.old) (D.trail disk.old) slot end s
        → IfErr result OfDesktop }
{
    finding_law();
    let desktop = load_front(alloc, disk, k)?;
    let events = read_events(alloc, disk, slot, k, end)?;
    Ok(Earlier {
        desktop,
        slot,
        epoch,
        left: k,
        events,
    })
}

/// The first events, and the later ones behind them.
fn joined(first: Vec<Event>, later: Vec<Event>) -> Result<Vec<Event>, NoMemory>
    ensures { IfOk result (λ all. all.items ≡ first.items ++ later.items) }
{
    let mut all = first;
    for event in later {
        all.push(event)?;
    }
    Ok(all)
}

/// The events of the slot beside the one in use from gate k on, and behind them all those of the slot in use, of which the
/// last one stands before gate `end`.
fn read_across<D: Disk>(
    alloc: Global,
    disk: &mut D,
    slot: u32,
    former: Former,
    k: u32,
    end: u32,
) -> Result<Vec<Event>, Error>
    requires at { HasJournalTo (D.size disk.old) slot end }
    requires some { k ≤ former.events }
    requires few { former.events ≤ JOURNAL_EVENTS }
    ensures kept { IsConfined D.size D.honest D.trail Nowhere disk.old disk.new }
    ensures faults { FailsAs Error.Fault OfReplay result (D.failures disk.old)
        (D.failures disk.new) }
    ensures count { IfOk result (λ events. length events.items ≡ former.events - k + end) }
    ensures others { IfOk result (λ events. D.honest disk.old → (first later : List Event)
        → HasEvents (now (D.trail disk.old)).reads (1 - slot) former.events first
        → HasEvents (now (D.trail disk.old)).reads slot end later
        → drop k first ++ later ≡ events.items) }
    ensures damaged { (n : ℕ) → IsErrOf result (Error.Damaged n) → D.honest disk.old
        → (first later : List Event)
        → HasEvents (now (D.trail disk.old)).reads (1 - slot) former.events first
        → HasEvents (now (D.trail disk.old)).reads slot end later → ⊥ }
{
    let first = read_events(alloc, disk, 1 - slot, k, former.events)?;
    let later = read_events(alloc, disk, slot, 0, end)?;
    Ok(joined(first, later)?)
}

/// Reads what the slot beside the one in use shows by its first k events alone, and the events behind them, up to the last
/// one of the slot in use, which stands before gate `end`.
fn load_across<D: Disk>(
    alloc: Global,
    disk: &mut D,
    slot: u32,
    former: Former,
    k: u32,
    end: u32,
) -> Result<Earlier, Error>
    requires at { HasJournalTo (D.size disk.old) slot end }
    requires more { HasMoreThan former k }
    ensures kept { IsConfined D.size D.honest D.trail Nowhere disk.old disk.new }
    ensures faults { FailsAs Error.Fault OfReplay result (D.failures disk.old)
        (D.failures disk.new) }
    ensures left { IfOk result (λ x. IsLiveOn D.Disk disk.new x.desktop) }
    ensures count { IfOk result (λ x. (x.slot ≡ 1 - slot) × (x.epoch ≡ former.head.epoch)
        × (x.left ≡ k)
        × (length x.events.items ≡ former.events - k + end)) }
    ensures shown { IfOk result (λ x. D.honest disk.old → (s : Standing)
        → IsUpTo (D.size disk.old) (D.trail disk.old) slot end s
        → HasFormer (now (D.trail disk.old)).reads slot s.epoch former.head former.events
        → IsEarlier (now (D.trail disk.new)).reads x.slot x.epoch x.left s x.desktop
        x.events.items) }
    ensures damaged { (n : ℕ) → IsErrOf result (Error.Damaged n) → D.honest disk.old
        → (s : Standing)
        → IsUpTo (D.size disk.old) (D.trail disk.old) slot end s
        → HasFormer (now (D.trail disk.old)).reads slot s.epoch former.head former.events → ⊥ }
{
    standing_law();
    at_most_one_begins();
    one_desktop();
    let loaded = load_of(alloc, disk, 1 - slot, &former.head, k)?;
    let events = read_across(alloc, disk, slot, former, k, end)?;
    Ok(Earlier {
        desktop: loaded.desktop,
        slot: 1 - slot,
        epoch: former.head.epoch,
        left: k,
        events,
    })
}

/// Reads what the store was before its last events, so many: those of the slot in use, of which the last one stands before
/// gate `end`, and where these are fewer and the slot beside it came before, those of that one. Of fewer events it is all.
pub fn load_earlier<D: Disk>(
    alloc: Global,
    disk: &mut D,
    slot: u32,
    epoch: u32,
    end: u32,
    count: u32,
) -> Result<Earlier, Error>
    requires at { HasJournalTo (D.size disk.old) slot end }
    ensures kept { IsConfined D.size D.honest D.trail Nowhere disk.old disk.new }
    ensures faults { FailsAs Error.Fault OfOpen result (D.failures disk.old) (D.failures disk.new) }
    ensures left { IfOk result (λ x. IsLiveOn D.Disk disk.new x.desktop) }
    ensures count { IfOk result (λ x. IsCountedBack slot epoch end count x.slot x.epoch x.left
        (length x.events.items)) }
    ensures shown { IfOk result (λ x. D.honest disk.old → (s : Standing)
        → IsUpTo (D.size disk.old) (D.trail disk.old) slot end s → s.epoch ≡ epoch
        → IsEarlier (now (D.trail disk.new)).reads x.slot x.epoch x.left s x.desktop
        x.events.items) }
    ensures stops { D.honest disk.old → (s : Standing)
        → IsUpTo (D.size disk.old) (D.trail disk.old) slot end s
        → s.epoch ≡ epoch → IfErr result OfDesktop }
    // Where more were asked for than the slot in use has, it stays in use only if nothing came before it.
    ensures crosses { IfOk result (λ x. D.honest disk.old → (s : Standing)
        → IsUpTo (D.size disk.old) (D.trail disk.old) slot end s → s.epoch ≡ epoch → end < count
        → x.epoch ≡ epoch → NothingBefore (now (D.trail disk.old)).reads s) }
{
    match find_former(alloc, disk, slot, epoch, end < count)? {
        None => load_within(alloc, disk, slot, epoch, end.saturating_sub(count), end),
        Some(former) => {
            let k = former.events.saturating_sub(count - end);
            load_across(alloc, disk, slot, former, k, end)
        }
    }
}

/// The events that can be taken back, in their order: those of the slot in use, of which the last one stands before gate
/// `end`, and before them those of the slot beside it, where that came before.
pub fn read_history<D: Disk>(
    alloc: Global,
    disk: &mut D,
    slot: u32,
    epoch: u32,
    end: u32,
) -> Result<Vec<Event>, Error>
    requires at { HasJournalTo (D.size disk.old) slot end }
    ensures kept { IsConfined D.size D.honest D.trail Nowhere disk.old disk.new }
    ensures faults { FailsAs Error.Fault OfReplay result (D.failures disk.old)
        (D.failures disk.new) }
    ensures events { IfOk result (λ events. D.honest disk.old → (s : Standing)
        → IsUpTo (D.size disk.old) (D.trail disk.old) slot end s → s.epoch ≡ epoch
        → IsHistory (now (D.trail disk.old)).reads s events.items) }
    ensures stops { D.honest disk.old → (s : Standing)
        → IsUpTo (D.size disk.old) (D.trail disk.old) slot end s
        → s.epoch ≡ epoch → IfErr result OfDesktop }
{
    standing_law();
    match find_former(alloc, disk, slot, epoch, true)? {
        None => read_events(alloc, disk, slot, 0, end),
        Some(former) => read_across(alloc, disk, slot, former, 0, end),
    }
}
