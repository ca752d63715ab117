//! A checkpoint: the desktop goes whole into the slot that isn't in use, and then that slot is in use.
//!
//! The other slot's gate is closed and synced first, if it is open. Behind the closed gate the slot is filled: the
//! characters that came since into an area, as far as they fill sectors, then the image, the head and a closed gate of
//! the journal. After a sync its gate is opened, and a sync follows. Nothing that the slot in use names is written, so
//! at each moment the disk means the same desktop, and the characters that it names stay as they are. Where all
//! characters were exchanged since the slot in use was written, they go whole into the other area. At last the
//! characters that stand in the area by then are given up in memory.
ghost use Rattle.std.specs.Prelude.{◌≡◌, ◌+◌, ◌*◌, ◌/◌, ◌<◌, ◌≤◌, ◌++◌, true, false, ℕ, List, length, drop, OnOk, IfOk};
ghost use Rattle.sector_disk.specs.Stored.{stored};
ghost use Rattle.store_layout.specs.Filling.{first_sector, most_sectors, SectorsOf, InRange, HasTaken};
ghost use Rattle.command_table.specs.Versions.{newest_version};
ghost use Rattle.image_format.specs.Image.{image_of, image_bytes, IsSpellable};
ghost use Rattle.store_layout.specs.Layout.{slot_gate, image_at, area_at};
ghost use Rattle.store_layout.specs.Meaning.{full_sectors, left_over};
ghost use Rattle.store_layout.specs.Kept.{OpenGate, InArea, InCheckpoint, HasFront, IsFront};
ghost use Rattle.store_slots.specs.Device.{IsSameDevice, StaysWithin};
ghost use Rattle.store_slots.specs.Live.{live_characters, seen_live, IsLive, IsLiveAnew};
ghost use Rattle.store_slots.specs.Written.{CanRenew, HasGate, HasSlot, IsFilled, InRenewal, IsAnew, KeepsEither};
ghost use Rattle.store_slots.specs.Words.{Only, CountsFault, now, IsConfined};

use crate::live::LiveDesktop;
use crate::place::SlotPlace;
use image_format::{IMAGE_BYTES, images_have_room};
use sector_disk::{Disk, Fault, SECTOR_BYTES};
use store_layout::{
    AREA_SECTORS, Filling, Head, IMAGE_SECTORS, LAYOUT, SLOTS, STORE_SECTORS, SectorSink, area_at,
    closed_gate, gate, image_at, is_open_gate, open_gate, slot_gate, slot_head,
};

/// Closes the gate of a slot, if it is open. A closed gate isn't written: while such a write is pending a crash could
/// leave the gate open.
pub fn close_slot<D: Disk>(disk: &mut D, slot: u32) -> Result<(), Fault>
    requires { HasSlot (D.size disk.old) slot }
    ensures kept { IsConfined D.size D.honest D.trail (OpenGate (now (D.trail disk.old)).reads slot)
        disk.old disk.new }
    ensures cause { CountsFault result (D.failures disk.old) (D.failures disk.new) }
    ensures closed { OnOk result (D.honest disk.old → HasGate (now (D.trail disk.new)) slot false) }
{
    let mut sector = [0; SECTOR_BYTES as usize];
    disk.read(slot_gate(slot), &mut sector)?;
    if is_open_gate(&sector) {
        disk.write(slot_gate(slot), &closed_gate())?;
    }
    disk.sync()?;
    Ok(())
}

/// Writes sector i of the characters after those that stand in the area already.
fn write_full<D: Disk>(disk: &mut D, rest: &[u8], place: SlotPlace, i: u32) -> Result<(), Fault>
    requires room { STORE_SECTORS ≤ D.size disk.old }
    requires full { SECTOR_BYTES * (i + 1) ≤ length rest.now }
    requires few { SECTOR_BYTES * place.saved + length rest.now ≤ SECTOR_BYTES * AREA_SECTORS }
    ensures kept { IsConfined D.size D.honest D.trail (Only (area_at place.area (place.saved + i)))
        disk.old disk.new }
    ensures cause { CountsFault result (D.failures disk.old) (D.failures disk.new) }
    ensures front { OnOk result (D.honest disk.old → (front : List ℕ) → length front
        ≡ SECTOR_BYTES * place.saved
        → HasFront (now (D.trail disk.old)).reads place.area (place.saved + i) (front ++ rest.now)
        → HasFront (now (D.trail disk.new)).reads place.area (place.saved + i + 1)
        (front ++ rest.now)) }
{
    let width = SECTOR_BYTES as usize;
    let start = width * i as usize;
    let mut sector = [0; SECTOR_BYTES as usize];
    sector.copy_from_slice(&rest[start..start + width]);
    disk.write(area_at(place.area, place.saved + i), &sector)
}

/// Writes the characters after those that stand in the area already, as far as they fill sectors.
fn fill_area<D: Disk>(disk: &mut D, rest: &[u8], place: SlotPlace) -> Result<(), Fault>
    requires room { STORE_SECTORS ≤ D.size disk.old }
    requires few { SECTOR_BYTES * place.saved + length rest.now ≤ SECTOR_BYTES * AREA_SECTORS }
    ensures kept { IsConfined D.size D.honest D.trail (InArea place.area place.saved) disk.old
        disk.new }
    ensures cause { CountsFault result (D.failures disk.old) (D.failures disk.new) }
    ensures front { OnOk result (D.honest disk.old → (front : List ℕ) → length front
        ≡ SECTOR_BYTES * place.saved
        → HasFront (now (D.trail disk.old)).reads place.area place.saved (front ++ rest.now)
        → HasFront (now (D.trail disk.new)).reads place.area
        (place.saved + length rest.now / SECTOR_BYTES)
        (front ++ rest.now)) }
{
    let full = rest.len() as u32 / SECTOR_BYTES;
    for i in 0..full {
        write_full(disk, rest, place, i)?;
    }
    Ok(())
}

/// Puts these characters and then the image of the desktop after the bytes that were put already, and returns how many
/// bytes the image has.
fn put_through<D: Disk>(
    disk: &mut D,
    filling: &mut Filling,
    tail: &[u8],
    desktop: &LiveDesktop,
) -> Result<u32, Fault>
    requires room { first_sector filling.old + most_sectors filling.old ≤ D.size disk.old }
    requires live { IsLive desktop.now }
    ensures kept { IsConfined D.size D.honest D.trail (SectorsOf filling.old) disk.old disk.new }
    ensures cause { CountsFault result (D.failures disk.old) (D.failures disk.new) }
    ensures from { first_sector filling.new ≡ first_sector filling.old }
    ensures limit { most_sectors filling.new ≡ most_sectors filling.old }
    ensures spelled { IfOk result (λ n. IsSpellable newest_version desktop.now.desktop
        × (n ≡ length (image_bytes newest_version (image_of desktop.now.desktop)))) }
    ensures taken { OnOk result (D.honest disk.old → (before : List ℕ)
        → HasTaken (now (D.trail disk.old)).reads filling.old before
        → HasTaken (now (D.trail disk.new)).reads filling.new
        (before ++ (tail.now ++ image_bytes newest_version (image_of desktop.now.desktop)))) }
{
    let mut sink = SectorSink::over(disk, filling);
    desktop.put_image(tail, &mut sink)
}

/// Puts the characters that are left over and the image of the desktop into the sectors of a slot, and returns how many
/// bytes these are.
fn stream<D: Disk>(
    disk: &mut D,
    tail: &[u8],
    desktop: &LiveDesktop,
    slot: u32,
) -> Result<u32, Fault>
    requires at { HasSlot (D.size disk.old) slot }
    requires tail { length tail.now ≡ left_over desktop.now.desktop.written }
    requires live { IsLive desktop.now }
    ensures kept { IsConfined D.size D.honest D.trail (InRange (image_at slot) IMAGE_SECTORS)
        disk.old disk.new }
    ensures cause { CountsFault result (D.failures disk.old) (D.failures disk.new) }
    ensures fits { IfOk result (λ n. n ≤ IMAGE_BYTES) }
    ensures spelled { OnOk result (IsSpellable newest_version desktop.now.desktop) }
    ensures stored { IfOk result
        (λ n. D.honest disk.old → stored (now (D.trail disk.new)).reads (image_at slot) n
        ≡ tail.now ++ image_bytes newest_version (image_of desktop.now.desktop)) }
{
    images_have_room();
    let mut filling = Filling::new(image_at(slot), IMAGE_SECTORS);
    let length = put_through(disk, &mut filling, tail, desktop)?;
    filling.finish(disk)?;
    Ok(tail.len() as u32 + length)
}

/// Fills the area and the image of a slot, and returns how many bytes the image has with the characters before it.
fn fill_slot<D: Disk>(disk: &mut D, desktop: &LiveDesktop, place: SlotPlace) -> Result<u32, Fault>
    requires { CanRenew (D.size disk.old) place desktop.now }
    ensures kept { IsConfined D.size D.honest D.trail
        (InCheckpoint place.slot place.area place.saved)
        disk.old disk.new }
    ensures cause { CountsFault result (D.failures disk.old) (D.failures disk.new) }
    ensures fits { IfOk result (λ n. n ≤ IMAGE_BYTES) }
    ensures spelled { OnOk result (IsSpellable newest_version desktop.now.desktop) }
    ensures front { OnOk result
        (D.honest disk.old → HasFront (now (D.trail disk.new)).reads place.area
        (full_sectors (length (live_characters (now (D.trail disk.old)).reads desktop.now)))
        (live_characters (now (D.trail disk.old)).reads desktop.now)) }
    ensures stored { IfOk result
        (λ n. D.honest disk.old → stored (now (D.trail disk.new)).reads (image_at place.slot) n
        ≡ drop (SECTOR_BYTES * full_sectors
        (length (live_characters (now (D.trail disk.old)).reads desktop.now)))
        (live_characters (now (D.trail disk.old)).reads desktop.now)
        ++ image_bytes newest_version (image_of desktop.now.desktop)) }
{
    let rest = desktop.rest();
    let width = SECTOR_BYTES as usize;
    let full = rest.len() / width * width;
    fill_area(disk, rest, place)?;
    stream(disk, &rest[full..], desktop, place.slot)
}

/// Writes a whole slot behind its closed gate.
fn write_slot<D: Disk>(disk: &mut D, desktop: &LiveDesktop, place: SlotPlace) -> Result<(), Fault>
    requires { CanRenew (D.size disk.old) place desktop.now }
    ensures kept { IsConfined D.size D.honest D.trail
        (InCheckpoint place.slot place.area place.saved)
        disk.old disk.new }
    ensures cause { CountsFault result (D.failures disk.old) (D.failures disk.new) }
    ensures filled { OnOk result
        (D.honest disk.old → IsFilled (now (D.trail disk.new)) place.slot LAYOUT place.area
        place.epoch place.past (live_characters (now (D.trail disk.old)).reads desktop.now)
        (seen_live (now (D.trail disk.old)).reads desktop.now)) }
{
    let extent = fill_slot(disk, desktop, place)?;
    let head = Head {
        version: LAYOUT,
        epoch: place.epoch,
        written: desktop.written(),
        extent,
        area: place.area,
        past: place.past,
    };
    disk.write(slot_head(place.slot), &head.sector())?;
    disk.write(gate(place.slot, 0), &closed_gate())?;
    disk.sync()?; // the whole slot, before its gate opens
    Ok(())
}

/// Opens the gate of a slot: from here on it is in use.
pub fn open_slot<D: Disk>(disk: &mut D, slot: u32) -> Result<(), Fault>
    requires { HasSlot (D.size disk.old) slot }
    ensures kept { IsConfined D.size D.honest D.trail (Only (slot_gate slot)) disk.old disk.new }
    ensures cause { CountsFault result (D.failures disk.old) (D.failures disk.new) }
    ensures opened { OnOk result (D.honest disk.old → HasGate (now (D.trail disk.new)) slot true) }
{
    disk.write(slot_gate(slot), &open_gate())?;
    disk.sync()?;
    Ok(())
}

/// Puts the desktop into the other slot, and makes that the slot in use.
fn change_slot<D: Disk>(disk: &mut D, desktop: &LiveDesktop, place: SlotPlace) -> Result<(), Fault>
    requires { CanRenew (D.size disk.old) place desktop.now }
    ensures kept { IsConfined D.size D.honest D.trail (InRenewal place) disk.old disk.new }
    ensures cause { CountsFault result (D.failures disk.old) (D.failures disk.new) }
    ensures any_moment { KeepsEither D.Disk place desktop.now disk.old disk.new }
    ensures renewed { OnOk result (IsAnew D.Disk place desktop.now disk.old disk.new
        (seen_live (now (D.trail disk.old)).reads desktop.now)) }
    ensures front { OnOk result
        (D.honest disk.old → IsFront (now (D.trail disk.new)).reads place.slot
        place.area
        (full_sectors (length (live_characters (now (D.trail disk.old)).reads desktop.now)))
        (live_characters (now (D.trail disk.old)).reads desktop.now)) }
{
    close_slot(disk, place.slot)?;
    write_slot(disk, desktop, place)?;
    open_slot(disk, place.slot)
}

/// Puts the desktop into the other slot, makes that the slot in use, and then gives up the characters in memory that
/// stand in the area from then on. It takes no memory.
pub fn renew<D: Disk>(
    disk: &mut D,
    desktop: &mut LiveDesktop,
    place: SlotPlace,
) -> Result<(), Fault>
    requires { CanRenew (D.size disk.old) place desktop.old }
    ensures device { IsSameDevice D.Disk disk.old disk.new }
    ensures within { StaysWithin D.Disk disk.old disk.new }
    ensures cause { CountsFault result (D.failures disk.old) (D.failures disk.new) }
    ensures any_moment { KeepsEither D.Disk place desktop.old disk.old disk.new }
    ensures renewed { OnOk result (IsAnew D.Disk place desktop.old disk.old disk.new
        (seen_live (now (D.trail disk.new)).reads desktop.new)) }
    ensures left { OnOk result (IsLiveAnew D.Disk place.slot disk.old disk.new desktop.old
        desktop.new) }
    ensures kept { desktop.new.desktop ≡ desktop.old.desktop }
{
    change_slot(disk, desktop, place)?;
    desktop.settle(place.area);
    Ok(())
}
