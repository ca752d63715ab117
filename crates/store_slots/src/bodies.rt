//! The journal of a slot as bytes, and what its head tells of the past.
ghost use Rattle.std.specs.Prelude.{◌≡◌, ◌++◌, ℕ, List, IfOk, IfErr, IsErrOf, OnOk};
ghost use Rattle.event_bytes.specs.Spelling.{spelling};
ghost use Rattle.event_bytes.specs.declared.event.Event.{Event};
ghost use Rattle.store_layout.specs.Layout.{head as head_at};
ghost use Rattle.store_layout.specs.Meaning.{Standing};
ghost use Rattle.store_slots.specs.Beside.{HasEvents};
ghost use Rattle.store_slots.specs.Bodies.{spellings};
ghost use Rattle.store_slots.specs.Errors.{OfDesktop, OfReplay};
ghost use Rattle.store_slots.specs.Words.{CountsFault, FailsAs, IsConfined, Nowhere, now};
ghost use Rattle.store_slots.specs.Written.{HasJournalTo, HasSlot, IsUpTo};

use crate::Error;
use crate::loaded::event_under;
use crate::sector::head_in;
use event_bytes::{Event, at_most_one_begins};
use sector_disk::{Disk, Fault, NoMemory};
use std::alloc::Global;
use store_layout::{PastEnd, slot_head};

/// Adds an event as it is spelled.
fn spell(bytes: &mut Vec<u8>, event: &Event) -> Result<(), NoMemory>
    ensures { OnOk result (bytes.new.items ≡ bytes.old.items ++ spelling event.now) }
{
    bytes.extend_from_slice(event.encode().as_slice())?;
    Ok(())
}

/// The events of the journal of a slot, of which the last one stands before gate `end`, as they are spelled, one behind
/// another.
fn read_bodies<D: Disk>(alloc: Global, disk: &mut D, slot: u32, end: u32) -> Result<Vec<u8>, Error>
    requires { HasJournalTo (D.size disk.old) slot end }
    ensures kept { IsConfined D.size D.honest D.trail Nowhere disk.old disk.new }
    ensures faults { FailsAs Error.Fault OfReplay result (D.failures disk.old)
        (D.failures disk.new) }
    ensures bytes { IfOk result (λ bytes. D.honest disk.old → (all : List Event)
        → HasEvents (now (D.trail disk.old)).reads slot end all → bytes.items ≡ spellings all) }
    ensures damaged { (n : ℕ) → IsErrOf result (Error.Damaged n) → D.honest disk.old
        → (all : List Event)
        → HasEvents (now (D.trail disk.old)).reads slot end all → ⊥ }
{
    at_most_one_begins();
    let mut bytes = Vec::new(alloc);
    for k in 0..end {
        let event = event_under(disk, slot, k)?;
        spell(&mut bytes, &event)?;
    }
    Ok(bytes)
}

/// The events of the slot in use, of which the last one stands before gate `end`, as they are spelled, one behind another.
pub fn read_journal<D: Disk>(
    alloc: Global,
    disk: &mut D,
    slot: u32,
    end: u32,
) -> Result<Vec<u8>, Error>
    requires { HasJournalTo (D.size disk.old) slot end }
    ensures kept { IsConfined D.size D.honest D.trail Nowhere disk.old disk.new }
    ensures faults { FailsAs Error.Fault OfReplay result (D.failures disk.old)
        (D.failures disk.new) }
    ensures bytes { IfOk result (λ bytes. D.honest disk.old → (s : Standing)
        → IsUpTo (D.size disk.old) (D.trail disk.old) slot end s
        → bytes.items ≡ spellings s.events) }
    ensures stops { D.honest disk.old → (s : Standing)
        → IsUpTo (D.size disk.old) (D.trail disk.old) slot end s
        → IfErr result OfDesktop }
{
    read_bodies(alloc, disk, slot, end)
}

/// What the head of a slot tells of the past.
pub fn read_past<D: Disk>(disk: &mut D, slot: u32) -> Result<PastEnd, Fault>
    requires { HasSlot (D.size disk.old) slot }
    ensures kept { IsConfined D.size D.honest D.trail Nowhere disk.old disk.new }
    ensures cause { CountsFault result (D.failures disk.old) (D.failures disk.new) }
    ensures past { IfOk result (λ past. D.honest disk.old
        → past ≡ (head_at (now (D.trail disk.old)).reads slot).past) }
{
    let head = head_in(disk, slot_head(slot))?;
    Ok(head.past)
}
