//! A new store.
ghost use Rattle.std.specs.Prelude.{◌≡◌, ◌<◌, ◌≤◌, [], length, take, true, false, OnOk};
ghost use Rattle.command_table.specs.Versions.{version_number};
ghost use Rattle.desktop_definitions.specs.Desktop.{empty_desktop};
ghost use Rattle.store_layout.specs.Layout.{is_label, is_open, untold, slot_gate};
ghost use Rattle.image_format.specs.Laws.{empty_bytes};
ghost use Rattle.store_layout.specs.Kept.{ShowsSettled};
ghost use Rattle.store_slots.specs.Written.{IsFilled};
ghost use Rattle.store_slots.specs.Words.{CountsFault, now, IsConfined};

use crate::checkpoint::open_slot;
use event_loop::Version;
use image_format::{empty_image, empty_image_of};
use sector_disk::{Disk, Fault, SECTOR_BYTES, Sector};
use store_layout::{
    Head, LABEL, STORE_SECTORS, UNTOLD, closed_gate, gate, image_at, label, slot_gate, slot_head,
};

/// Closes the gates of both slots, so that whatever is there is no store from now on.
fn close_slots<D: Disk>(disk: &mut D) -> Result<(), Fault>
    requires { STORE_SECTORS ≤ D.size disk.old }
    ensures kept { IsConfined D.size D.honest D.trail (λ n. n < STORE_SECTORS) disk.old disk.new }
    ensures cause { CountsFault result (D.failures disk.old) (D.failures disk.new) }
    ensures closed { OnOk result (D.honest disk.old
        → is_open ((now (D.trail disk.new)).reads (slot_gate 1)) ≡ false) }
{
    disk.write(slot_gate(0), &closed_gate())?;
    disk.write(slot_gate(1), &closed_gate())?;
    disk.sync()?;
    Ok(())
}

/// The image of the empty desktop in a version, and then zeros.
fn first_image(version: Version) -> Sector
    ensures { take (length (empty_bytes (version_number version))) result
        ≡ empty_bytes (version_number version) }
{
    let bytes = empty_image_of(version);
    let mut image = [0; SECTOR_BYTES as usize];
    image[..bytes.len()].copy_from_slice(bytes);
    image
}

/// Writes slot 0 with the empty desktop, in that version, and the label.
fn write_start<D: Disk>(disk: &mut D, version: Version) -> Result<(), Fault>
    requires { STORE_SECTORS ≤ D.size disk.old }
    ensures kept { IsConfined D.size D.honest D.trail
        (λ n. (n < STORE_SECTORS) × ¬ (n ≡ slot_gate 1)) disk.old disk.new }
    ensures cause { CountsFault result (D.failures disk.old) (D.failures disk.new) }
    ensures label { OnOk result (D.honest disk.old → is_label ((now (D.trail disk.new)).reads LABEL)
        ≡ true) }
    ensures start { OnOk result
        (D.honest disk.old → IsFilled (now (D.trail disk.new)) 0 (version_number version) 0 1
        untold [] empty_desktop) }
{
    let head = Head {
        version: version.number(),
        epoch: 1,
        written: 0,
        extent: empty_image_of(version).len() as u32,
        area: 0,
        past: UNTOLD,
    };
    empty_image();
    disk.write(image_at(0), &first_image(version))?;
    disk.write(slot_head(0), &head.sector())?;
    disk.write(gate(0, 0), &closed_gate())?;
    disk.write(LABEL, &label())?;
    disk.sync()?;
    Ok(())
}

/// Makes the disk a store of the empty desktop, in that version.
pub fn lay_out<D: Disk>(disk: &mut D, version: Version) -> Result<(), Fault>
    requires { STORE_SECTORS ≤ D.size disk.old }
    ensures kept { IsConfined D.size D.honest D.trail (λ n. n < STORE_SECTORS) disk.old disk.new }
    ensures cause { CountsFault result (D.failures disk.old) (D.failures disk.new) }
    ensures empty { OnOk result (D.honest disk.old
        → ShowsSettled (D.size disk.new) (D.trail disk.new) 0 (version_number version) 1 0
        empty_desktop) }
{
    close_slots(disk)?;
    write_start(disk, version)?;
    open_slot(disk, 0)
}
