//! Going back: to an earlier event of the slot in use, or to the slot that was in use before.
ghost use Rattle.std.specs.Prelude.{◌≡◌, ◌-◌, ◌<◌, ◌≤◌, List, length, OnOk};
ghost use Rattle.event_bytes.specs.declared.event.Event.{Event};
ghost use Rattle.store_layout.specs.Layout.{slot_gate};
ghost use Rattle.store_layout.specs.Meaning.{Standing, cut_to};
ghost use Rattle.store_layout.specs.Kept.{IsSettled, OpenGate};
ghost use Rattle.store_slots.specs.Beside.{GoesBackTo, InUndo, StandsOver, StandsOneOf};
ghost use Rattle.store_slots.specs.Device.{IsSameDevice, StaysWithin};
ghost use Rattle.store_slots.specs.Words.{CountsFault, LeavesOnly, now, IsConfined};
ghost use Rattle.store_slots.specs.Written.{HasSlot, IsInJournal};

use crate::checkpoint::close_slot;
use crate::records::{shut, take_back};
use sector_disk::{Disk, Fault};
use store_layout::{JOURNAL_EVENTS, SLOTS, STORE_SECTORS};

/// Closes the gate of the slot in use: then the other one is in use, if it is open. Until the sync the gate may hold
/// anything: open, the disk shows what it showed; closed, what the other slot shows.
fn leave_slot<D: Disk>(disk: &mut D, slot: u32) -> Result<(), Fault>
    requires { HasSlot (D.size disk.old) slot }
    ensures kept { IsConfined D.size D.honest D.trail (OpenGate (now (D.trail disk.old)).reads slot)
        disk.old disk.new }
    ensures device { IsSameDevice D.Disk disk.old disk.new }
    ensures within { StaysWithin D.Disk disk.old disk.new }
    ensures cause { CountsFault result (D.failures disk.old) (D.failures disk.new) }
    ensures any_moment { D.honest disk.old → (s t : Standing)
        → StandsOver (D.size disk.old) (D.trail disk.old) slot s t
        → LeavesOnly (D.trail disk.old) (D.trail disk.new) (StandsOneOf (D.size disk.old) s t) }
    ensures left { OnOk result (D.honest disk.old → (s t : Standing)
        → StandsOver (D.size disk.old) (D.trail disk.old) slot s t
        → IsSettled (D.size disk.old) (D.trail disk.new) t) }
{
    close_slot(disk, slot)?;
    Ok(())
}

/// Takes event k and all behind it out of the journal of the slot beside this one, and then leaves this one, which is in use.
/// Until the gate of the slot in use is closed nobody reads the other journal: so a crash leaves what the disk showed, or
/// what the other slot shows by its first k events.
fn go_back<D: Disk>(disk: &mut D, slot: u32, k: u32) -> Result<(), Fault>
    requires { IsInJournal (D.size disk.old) slot k }
    ensures kept { IsConfined D.size D.honest D.trail (InUndo slot (1 - slot) k) disk.old disk.new }
    ensures cause { CountsFault result (D.failures disk.old) (D.failures disk.new) }
    ensures any_moment { D.honest disk.old → (s t : Standing)
        → StandsOver (D.size disk.old) (D.trail disk.old) slot s t
        → k < length t.events
        → LeavesOnly (D.trail disk.old) (D.trail disk.new)
        (StandsOneOf (D.size disk.old) s (cut_to k t)) }
    ensures left { OnOk result (D.honest disk.old → (s t : Standing)
        → StandsOver (D.size disk.old) (D.trail disk.old) slot s t → k < length t.events
        → IsSettled (D.size disk.old) (D.trail disk.new) (cut_to k t)) }
{
    shut(disk, 1 - slot, k)?;
    leave_slot(disk, slot)?;
    Ok(())
}

/// Takes the last events back: then the slot `to` is in use, by its first k events. A crash leaves what the disk showed, or
/// the rest of it.
pub fn undo_to<D: Disk>(disk: &mut D, slot: u32, to: u32, k: u32) -> Result<(), Fault>
    requires room { STORE_SECTORS ≤ D.size disk.old }
    requires two { slot < SLOTS }
    requires other { to < SLOTS }
    requires index { k < JOURNAL_EVENTS }
    ensures kept { IsConfined D.size D.honest D.trail (InUndo slot to k) disk.old disk.new }
    ensures cause { CountsFault result (D.failures disk.old) (D.failures disk.new) }
    ensures any_moment { D.honest disk.old → (s rest : Standing) (events : List Event)
        → GoesBackTo (D.size disk.old) (D.trail disk.old) slot to k s rest events
        → LeavesOnly (D.trail disk.old) (D.trail disk.new) (StandsOneOf (D.size disk.old) s rest) }
    ensures left { OnOk result (D.honest disk.old → (s rest : Standing) (events : List Event)
        → GoesBackTo (D.size disk.old) (D.trail disk.old) slot to k s rest events
        → IsSettled (D.size disk.old) (D.trail disk.new) rest) }
{
    if to == slot {
        take_back(disk, slot, k)
    } else {
        go_back(disk, slot, k)
    }
}
