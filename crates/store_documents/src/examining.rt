//! What the sectors of a store say of it, whether or not it can be opened.
ghost use Rattle.std.specs.Prelude.{◌≡◌, ◌<◌, ◌≤◌, IfOk};
ghost use Rattle.store_layout.specs.Layout.{is_label};
ghost use Rattle.store_layout.specs.declared.layout.TheConstants.{STORE_SECTORS, LABEL};
ghost use Rattle.sector_disk.specs.Trail.{now, Nowhere, CountsFault};
ghost use Rattle.sector_disk.specs.Confined.{IsConfined};
ghost use Rattle.store_documents.specs.Examining.{slot_state, examined, part_at, ArePartsOfLayout};

use sector_disk::{Disk, Fault, SECTOR_BYTES};
use store_layout::{
    AREA_SECTORS, AREAS, Head, IMAGE_SECTORS, JOURNAL_EVENTS, LABEL, SLOTS, STORE_SECTORS,
    area_start, gate, has_label, image_at, is_open_gate, slot_gate, slot_head,
};

/// What is in a slot.
#[derive(Clone, Copy, Debug, PartialEq, Eq)]
pub enum SlotState {
    /// Its gate is closed: a desktop was being written into it, or none ever was.
    Closed,
    /// Its gate is open, and its head has this.
    Open(Head),
}

/// What the label and both slots say.
#[derive(Clone, Copy, Debug, PartialEq, Eq)]
pub struct Examined {
    /// Whether the disk has the label of a store.
    pub labelled: bool,
    pub first: SlotState,
    pub second: SlotState,
}

/// Reads the label and both slots of a disk that is large enough for a store.
pub fn examine<D: Disk>(disk: &mut D) -> Result<Examined, Fault>
    requires { STORE_SECTORS ≤ D.size disk.old }
    ensures kept { IsConfined D.size D.honest D.trail Nowhere disk.old disk.new }
    ensures faults { CountsFault result (D.failures disk.old) (D.failures disk.new) }
    ensures examined { IfOk result (λ found. D.honest disk.old
        → found ≡ examined (now (D.trail disk.old)).reads) }
{
    let mut sector = [0; SECTOR_BYTES as usize];
    disk.read(LABEL, &mut sector)?;
    Ok(Examined {
        labelled: has_label(&sector),
        first: read_state(disk, 0)?,
        second: read_state(disk, 1)?,
    })
}

/// Reads what is in a slot.
fn read_state<D: Disk>(disk: &mut D, slot: u32) -> Result<SlotState, Fault>
    requires room { STORE_SECTORS ≤ D.size disk.old }
    requires two { slot < SLOTS }
    ensures kept { IsConfined D.size D.honest D.trail Nowhere disk.old disk.new }
    ensures faults { CountsFault result (D.failures disk.old) (D.failures disk.new) }
    ensures state { IfOk result (λ state. D.honest disk.old
        → state ≡ slot_state (now (D.trail disk.old)).reads slot) }
{
    let mut sector = [0; SECTOR_BYTES as usize];
    disk.read(slot_gate(slot), &mut sector)?;
    if !is_open_gate(&sector) {
        return Ok(SlotState::Closed);
    }
    disk.read(slot_head(slot), &mut sector)?;
    Ok(SlotState::Open(Head::of(&sector)))
}

/// A part of a store, by the sectors of its disk.
#[derive(Clone, Copy, Debug, PartialEq, Eq)]
pub enum Part {
    Label,
    /// The gate and the head of a slot.
    Slot(u32),
    /// The journal of a slot.
    Journal(u32),
    /// The image of a slot.
    Image(u32),
    /// An area of characters.
    Characters(u32),
    /// Nothing stands there.
    Unused,
}

/// The part in which a sector stands.
pub fn part_of(sector: u32) -> Part
    ensures { result ≡ part_at sector }
{
    if sector == LABEL {
        Part::Label
    } else if sector < gate(0, 0) {
        Part::Slot((sector - slot_gate(0)) / 2)
    } else if sector < image_at(0) {
        Part::Journal((sector - gate(0, 0)) / (2 * JOURNAL_EVENTS))
    } else if sector < area_start(0) {
        Part::Image((sector - image_at(0)) / IMAGE_SECTORS)
    } else if sector < area_start(0) + AREA_SECTORS * AREAS {
        Part::Characters((sector - area_start(0)) / AREA_SECTORS)
    } else {
        Part::Unused
    }
}

/// Each sector of the label, a slot, a journal, an image or an area stands in that part.
pub fn parts_are_of_layout()
    ensures { ArePartsOfLayout }
{}
