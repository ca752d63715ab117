//! Which slot of a disk is in use.
ghost use Rattle.std.specs.Prelude.{◌≡◌, ◌⊎◌, ◌<◌, ◌≤◌, ◌∷◌, [], ℕ, true, false, OnOk, IfOk, IfSome, IfNone, IsErrOf};
ghost use Rattle.store_layout.specs.Layout.{is_label, is_open, slot_gate, slot_head, head, IsGoodHead};
ghost use Rattle.store_layout.specs.Finding.{AreHeadsGood, AreShut, HasBadHead, IsForeign, IsDamagedAt};
ghost use Rattle.store_layout.specs.Footprint.{IsInUse};
ghost use Rattle.store_slots.specs.Load.{IsChosen, IsLocated};
ghost use Rattle.store_slots.specs.Words.{Nowhere, now, IsConfined, FailsAs, OneOf};
ghost use Rattle.store_slots.specs.Written.{HasSlot};

use crate::Error;
use crate::sector::{blank_sector, head_in, is_open_at};
use sector_disk::{Disk, SECTOR_BYTES};
use store_layout::{Head, LABEL, SLOTS, STORE_SECTORS, has_label, slot_gate, slot_head};

/// Tests the label.
fn check_label<D: Disk>(disk: &mut D) -> Result<(), Error>
    requires { STORE_SECTORS ≤ D.size disk.old }
    ensures kept { IsConfined D.size D.honest D.trail Nowhere disk.old disk.new }
    ensures faults { FailsAs Error.Fault (OneOf (Error.Fault ∷ Error.NotAStore ∷ [])) result
        (D.failures disk.old) (D.failures disk.new) }
    ensures label { OnOk result (D.honest disk.old → is_label ((now (D.trail disk.old)).reads LABEL)
        ≡ true) }
    ensures foreign { IsErrOf result Error.NotAStore → D.honest disk.old
        → is_label ((now (D.trail disk.old)).reads LABEL) ≡ false }
{
    let mut sector = blank_sector();
    disk.read(LABEL, &mut sector)?;
    if !has_label(&sector) {
        return Err(Error::NotAStore);
    }
    Ok(())
}

/// The head of a slot that is open; None where it is closed.
pub fn read_slot<D: Disk>(disk: &mut D, slot: u32) -> Result<Option<Head>, Error>
    requires { HasSlot (D.size disk.old) slot }
    ensures kept { IsConfined D.size D.honest D.trail Nowhere disk.old disk.new }
    ensures faults { FailsAs Error.Fault (OneOf (Error.Fault ∷ Error.Damaged (slot_head slot) ∷ []))
        result
        (D.failures disk.old) (D.failures disk.new) }
    ensures none { IfOk result (λ found. IfNone found (D.honest disk.old
        → is_open ((now (D.trail disk.old)).reads (slot_gate slot)) ≡ false)) }
    ensures some { IfOk result (λ found. IfSome found (λ h. D.honest disk.old
        → (is_open ((now (D.trail disk.old)).reads (slot_gate slot)) ≡ true)
        × (head (now (D.trail disk.old)).reads slot ≡ h))) }
    ensures good { IfOk result (λ found. IfSome found IsGoodHead) }
    ensures damaged { (n : ℕ) → IsErrOf result (Error.Damaged n) → D.honest disk.old
        → (n ≡ slot_head slot)
        × (is_open ((now (D.trail disk.old)).reads (slot_gate slot)) ≡ true)
        × (IsGoodHead (head (now (D.trail disk.old)).reads slot) → ⊥) }
{
    if !is_open_at(disk, slot_gate(slot))? {
        return Ok(None);
    }
    let at = slot_head(slot);
    let head = head_in(disk, at)?;
    if !head.is_good() {
        return Err(Error::Damaged(at));
    }
    Ok(Some(head))
}

/// Of the slots that are open the one with the greater epoch, slot 0 where they are equal. None where both are closed.
fn choose(first: Option<Head>, second: Option<Head>) -> Option<(u32, Head)>
    ensures { IsChosen first second result }
{
    match (first, second) {
        (None, None) => None,
        (Some(first), None) => Some((0, first)),
        (None, Some(second)) => Some((1, second)),
        (Some(first), Some(second)) => {
            if first.epoch < second.epoch {
                Some((1, second))
            } else {
                Some((0, first))
            }
        }
    }
}

/// The slot in use, and its head.
fn find_slot<D: Disk>(disk: &mut D) -> Result<(u32, Head), Error>
    requires { STORE_SECTORS ≤ D.size disk.old }
    ensures kept { IsConfined D.size D.honest D.trail Nowhere disk.old disk.new }
    ensures faults { FailsAs Error.Fault
        (λ e. OneOf (Error.Fault ∷ []) e ⊎ ((n : ℕ) × (e ≡ Error.Damaged n))) result
        (D.failures disk.old) (D.failures disk.new) }
    ensures two { IfOk result (λ x. x.0 < SLOTS) }
    ensures good { IfOk result (λ x. IsGoodHead x.1) }
    ensures used { IfOk result (λ x. D.honest disk.old → IsInUse (now (D.trail disk.old)).reads x.0
        × AreHeadsGood (now (D.trail disk.old)).reads
        × (head (now (D.trail disk.old)).reads x.0 ≡ x.1)) }
    ensures damaged { (n : ℕ) → IsErrOf result (Error.Damaged n) → D.honest disk.old
        → ((n ≡ slot_gate 0) × AreShut (now (D.trail disk.old)).reads)
        ⊎ ((slot : ℕ) × (n ≡ slot_head slot) × HasBadHead (now (D.trail disk.old)).reads slot) }
{
    let first = read_slot(disk, 0)?;
    let second = read_slot(disk, 1)?;
    match choose(first, second) {
        Some(chosen) => Ok(chosen),
        None => Err(Error::Damaged(slot_gate(0))),
    }
}

/// Finds the slot in use of a store, and its head. It begins with a sync.
pub fn locate<D: Disk>(disk: &mut D) -> Result<(u32, Head), Error>
    ensures kept { IsConfined D.size D.honest D.trail Nowhere disk.old disk.new }
    ensures faults { FailsAs Error.Fault (λ e. OneOf (Error.Fault ∷ Error.NotAStore ∷ []) e
        ⊎ ((n : ℕ)
        × (e ≡ Error.Damaged n))) result (D.failures disk.old) (D.failures disk.new) }
    ensures large { OnOk result (STORE_SECTORS ≤ D.size disk.new) }
    ensures slot { IfOk result (λ x. (x.0 < SLOTS) × IsGoodHead x.1) }
    ensures quiet { OnOk result (D.honest disk.old → (n : ℕ) → (now (D.trail disk.new)).pending n
        ≡ false) }
    ensures located { IfOk result (λ x. D.honest disk.old
        → IsLocated (D.size disk.old) (now (D.trail disk.old)).reads x.0 x.1) }
    ensures foreign { IsErrOf result Error.NotAStore → D.honest disk.old
        → IsForeign (D.size disk.old) (now (D.trail disk.old)).reads }
    ensures damaged { (n : ℕ) → IsErrOf result (Error.Damaged n) → D.honest disk.old
        → IsDamagedAt (D.size disk.old) (now (D.trail disk.old)).reads n }
{
    disk.sync()?;
    if disk.sectors() < STORE_SECTORS {
        return Err(Error::NotAStore);
    }
    check_label(disk)?;
    find_slot(disk)
}
