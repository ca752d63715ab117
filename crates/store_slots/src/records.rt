//! The two steps that put an event into the journal.
ghost use Rattle.std.specs.Prelude.{◌≡◌, ◌⊎◌, ◌+◌, ◌<◌, true, false, ℕ, OnOk, IfOk, IsErrOf};
ghost use Rattle.desktop_definitions.specs.Desktop.{Desktop};
ghost use Rattle.store_layout.specs.Layout.{is_open, gate, body};
ghost use Rattle.store_layout.specs.Meaning.{Means, MeansEither, Standing, StandsEither, and_then, cut_to};
ghost use Rattle.store_layout.specs.Kept.{NextRecord, ShowsSettled, IsSettled};
ghost use Rattle.store_slots.specs.Device.{IsSameDevice, StaysWithin, UsesDisk};
ghost use Rattle.store_slots.specs.Errors.{OfDesktop};
ghost use Rattle.store_slots.specs.Live.{seen_live, IsLiveOn};
ghost use Rattle.store_slots.specs.Words.{LeavesOnly, Only, CountsFault, now, IsConfined, step, step_in};
ghost use Rattle.store_slots.specs.Beside.{StandsOneOf};
ghost use Rattle.store_slots.specs.Written.{HasRecord, InRecord, IsInJournal, IsRecorded, HasEventAt, IsUpTo};

use crate::Error;
use crate::live::LiveDesktop;
use crate::sector::blank_sector;
use event_bytes::Event;
use event_loop::{NEWEST, Reply};
use sector_disk::{Disk, Fault, SECTOR_BYTES};
use std::alloc::Global;
use store_layout::{
    JOURNAL_EVENTS, LAYOUT, SLOTS, STORE_SECTORS, body, closed_gate, gate, open_gate, put_body,
};

/// Closes the gate after gate k, where there is one.
fn close_next<D: Disk>(disk: &mut D, slot: u32, k: u32) -> Result<(), Fault>
    requires { IsInJournal (D.size disk.old) slot k }
    ensures kept { IsConfined D.size D.honest D.trail (λ n. (n ≡ gate slot (k + 1))
        × (k + 1 < JOURNAL_EVENTS)) disk.old disk.new }
    ensures cause { CountsFault result (D.failures disk.old) (D.failures disk.new) }
    ensures closed { OnOk result (k + 1 < JOURNAL_EVENTS → D.honest disk.old
        → is_open ((now (D.trail disk.new)).reads (gate slot (k + 1))) ≡ false) }
{
    if k + 1 < JOURNAL_EVENTS {
        return disk.write(gate(slot, k + 1), &closed_gate());
    }
    Ok(())
}

/// Writes the event under the closed gate k, and a closed gate after it.
fn stage<D: Disk>(disk: &mut D, slot: u32, k: u32, event: &Event) -> Result<(), Fault>
    requires { IsInJournal (D.size disk.old) slot k }
    ensures kept { IsConfined D.size D.honest D.trail (NextRecord slot k) disk.old disk.new }
    ensures cause { CountsFault result (D.failures disk.old) (D.failures disk.new) }
    ensures staged { OnOk result
        (D.honest disk.old → HasRecord (now (D.trail disk.new)) slot k event.now) }
{
    let mut record = blank_sector();
    put_body(&mut record, event);
    disk.write(body(slot, k), &record)?;
    close_next(disk, slot, k)?;
    disk.sync()?;
    Ok(())
}

/// Opens gate k.
fn seal<D: Disk>(disk: &mut D, slot: u32, k: u32) -> Result<(), Fault>
    requires { IsInJournal (D.size disk.old) slot k }
    ensures kept { IsConfined D.size D.honest D.trail (Only (gate slot k)) disk.old disk.new }
    ensures cause { CountsFault result (D.failures disk.old) (D.failures disk.new) }
    ensures opened { OnOk result
        (D.honest disk.old → is_open ((now (D.trail disk.new)).reads (gate slot k)) ≡ true) }
    ensures quiet { OnOk result (D.honest disk.old → (n : ℕ) → (now (D.trail disk.new)).pending n
        ≡ false) }
{
    disk.write(gate(slot, k), &open_gate())?;
    disk.sync()?; // the open gate, before the event is acknowledged
    Ok(())
}

/// Puts the event into the journal after its first k events.
fn add_record<D: Disk>(disk: &mut D, slot: u32, k: u32, event: &Event) -> Result<(), Fault>
    requires { IsInJournal (D.size disk.old) slot k }
    ensures kept { IsConfined D.size D.honest D.trail (InRecord slot k) disk.old disk.new }
    ensures cause { CountsFault result (D.failures disk.old) (D.failures disk.new) }
    ensures any_moment { D.honest disk.old → (version number : ℕ) (desktop : Desktop)
        → ShowsSettled (D.size disk.old) (D.trail disk.old) slot version number k desktop
        → LeavesOnly (D.trail disk.old) (D.trail disk.new)
        (MeansEither (D.size disk.old) desktop (step_in version desktop event.now).desktop) }
    ensures added { OnOk result (D.honest disk.old → (version number : ℕ) (desktop : Desktop)
        → ShowsSettled (D.size disk.old) (D.trail disk.old) slot version number k desktop
        → ShowsSettled (D.size disk.old) (D.trail disk.new) slot version number (k + 1)
        (step_in version desktop event.now).desktop) }
    ensures behind { OnOk result (D.honest disk.old → (s : Standing)
        → IsUpTo (D.size disk.old) (D.trail disk.old) slot k s
        → IsSettled (D.size disk.old) (D.trail disk.new) (and_then s event.now)) }
    ensures standings { D.honest disk.old → (s : Standing)
        → IsUpTo (D.size disk.old) (D.trail disk.old) slot k s
        → LeavesOnly (D.trail disk.old) (D.trail disk.new)
        (StandsOneOf (D.size disk.old) s (and_then s event.now)) }
{
    stage(disk, slot, k, event)?;
    seal(disk, slot, k)?;
    Ok(())
}

/// Does the event, with the commands of the newest version, which the slot has, and puts it into the journal after its
/// first k events.
pub fn record<D: Disk>(
    alloc: Global,
    desktop: &mut LiveDesktop,
    disk: &mut D,
    slot: u32,
    k: u32,
    event: &Event,
) -> Result<Reply, Error>
    requires at { IsInJournal (D.size disk.old) slot k }
    requires on { IsLiveOn D.Disk disk.old desktop.old }
    ensures any_moment { D.honest disk.old → (number : ℕ)
        → ShowsSettled (D.size disk.old) (D.trail disk.old) slot LAYOUT number k
        (seen_live (now (D.trail disk.old)).reads desktop.old)
        → LeavesOnly (D.trail disk.old) (D.trail disk.new) (MeansEither (D.size disk.old)
        (seen_live (now (D.trail disk.old)).reads desktop.old)
        (step (seen_live (now (D.trail disk.old)).reads desktop.old) event.now).desktop) }
    ensures unrecorded { IsErrOf result Error.NoMemory → D.honest disk.old → (number : ℕ)
        → ShowsSettled (D.size disk.old) (D.trail disk.old) slot LAYOUT number k
        (seen_live (now (D.trail disk.old)).reads desktop.old)
        → LeavesOnly (D.trail disk.old) (D.trail disk.new)
        (Means (D.size disk.old) (seen_live (now (D.trail disk.old)).reads desktop.old)) }
    // At a fault the event is in no image, or the desktop has done it.
    ensures broken { IsErrOf result Error.Fault → D.honest disk.old → (number : ℕ)
        → ShowsSettled (D.size disk.old) (D.trail disk.old) slot LAYOUT number k
        (seen_live (now (D.trail disk.old)).reads desktop.old)
        → LeavesOnly (D.trail disk.old) (D.trail disk.new)
        (Means (D.size disk.old) (seen_live (now (D.trail disk.old)).reads desktop.old))
        ⊎ (seen_live (now (D.trail disk.new)).reads desktop.new
        ≡ (step (seen_live (now (D.trail disk.old)).reads desktop.old) event.now).desktop) }
    ensures recorded { IfOk result (IsRecorded D.Disk slot k event.now disk.old disk.new
        desktop.old desktop.new) }
    ensures uses { UsesDisk D.Disk OfDesktop result disk.old disk.new }
    // At each moment a crash leaves what the disk showed, or that with the event behind it.
    ensures standings { D.honest disk.old → (s : Standing)
        → IsUpTo (D.size disk.old) (D.trail disk.old) slot k s
        → LeavesOnly (D.trail disk.old) (D.trail disk.new)
        (StandsOneOf (D.size disk.old) s (and_then s event.now)) }
{
    let reply = desktop.step(alloc, NEWEST, event, disk)?;
    add_record(disk, slot, k, event)?;
    Ok(reply)
}

/// Closes gate k.
pub fn shut<D: Disk>(disk: &mut D, slot: u32, k: u32) -> Result<(), Fault>
    requires { IsInJournal (D.size disk.old) slot k }
    ensures kept { IsConfined D.size D.honest D.trail (Only (gate slot k)) disk.old disk.new }
    ensures cause { CountsFault result (D.failures disk.old) (D.failures disk.new) }
    ensures closed { OnOk result
        (D.honest disk.old → is_open ((now (D.trail disk.new)).reads (gate slot k)) ≡ false) }
    ensures quiet { OnOk result (D.honest disk.old → (n : ℕ) → (now (D.trail disk.new)).pending n
        ≡ false) }
{
    disk.write(gate(slot, k), &closed_gate())?;
    disk.sync()?; // the closed gate, before the events count as taken back
    Ok(())
}

/// Takes event k and all behind it out of the journal. Until the sync the gate may hold anything: open, the disk shows
/// the events with them; closed, without them. What stands behind the closed gate is read by nobody.
pub fn take_back<D: Disk>(disk: &mut D, slot: u32, k: u32) -> Result<(), Fault>
    requires { IsInJournal (D.size disk.old) slot k }
    ensures kept { IsConfined D.size D.honest D.trail (Only (gate slot k)) disk.old disk.new }
    ensures device { IsSameDevice D.Disk disk.old disk.new }
    ensures within { StaysWithin D.Disk disk.old disk.new }
    ensures cause { CountsFault result (D.failures disk.old) (D.failures disk.new) }
    ensures any_moment { D.honest disk.old → (s : Standing)
        → HasEventAt (D.size disk.old) (D.trail disk.old) slot k s
        → LeavesOnly (D.trail disk.old) (D.trail disk.new) (StandsEither (D.size disk.old) k s) }
    ensures taken { OnOk result (D.honest disk.old → (s : Standing)
        → HasEventAt (D.size disk.old) (D.trail disk.old) slot k s
        → IsSettled (D.size disk.old) (D.trail disk.new) (cut_to k s)) }
{
    shut(disk, slot, k)?;
    Ok(())
}
