//! How a store is.
ghost use Rattle.std.specs.Prelude.{◌≤◌};

use crate::pasts::tell_past;
use cli_copies::{LockedDisk, LockedStore, Stop, WHOLE};
use cli_stores::{Trouble, looked_at};
use desk_journal::{Error, Info};
use desktop_definitions::MOST_WRITTEN;
use host_files::length_of;
use host_stores::{FileDisk, opened};
use past_pages::PAST_SECTORS;
use sector_disk::{Disk, FILE_SECTORS};
use std::io;
use store_documents::{Examined, Part, SlotState, examine, part_of};
use store_layout::{JOURNAL_EVENTS, LAST_EPOCH};

/// Tells how the store in a file is: how long its file is, what its label and both slots say, whether it opens, and how far
/// its past reaches, if it keeps one. The file is locked beside other programs that look, and nothing is written. `Cut`: it
/// opens, but its file was cut short.
pub fn check(rt: &HostRuntime, path: &str) -> Result<(), Stop> {
    let mut disk = FileDisk::with_sectors(looked_at(rt, path)?, PAST_SECTORS);
    let length = look(rt, path, &mut disk)?;
    match opened(rt, disk) {
        Ok(store) => tell_store(rt, store, length),
        Err(error) => Err(cannot_open(rt, error)),
    }
}

/// Tells what stands in the file, and returns its length.
fn look(rt: &HostRuntime, path: &str, disk: &mut LockedDisk) -> Result<u64, Stop>
    requires { FILE_SECTORS ≤ ⟦<LockedDisk as Disk>⟧.size disk.old }
{
    let Ok(length) = length_of(rt, path) else {
        return Err(faulty());
    };
    let Ok(found) = examine(disk) else {
        return Err(faulty());
    };
    printed(tell_file(rt, length, &found))?;
    if found.labelled {
        Ok(length)
    } else {
        Err(Stop::Trouble(Trouble::Store(Error::NotAStore)))
    }
}

/// Tells what an opening finds in a file of this length.
fn tell_store(rt: &HostRuntime, store: LockedStore, length: u64) -> Result<(), Stop> {
    let mut store = store;
    let info = store.info()?;
    printed(tell_info(rt, &info))?;
    tell_past(rt, &mut store)?;
    if length >= WHOLE {
        return Ok(());
    }
    printed(println!(rt;
        "but characters of its documents may be among what is missing: go on with an earlier backup, or look at what desk export gives"
    ))?;
    Err(Stop::Cut)
}

/// A disk that fails.
fn faulty() -> Stop {
    Stop::Trouble(Trouble::Store(Error::Fault))
}

/// Where the output fails that is to be told.
fn printed(lines: io::Result<()>) -> Result<(), Stop> {
    match lines {
        Ok(()) => Ok(()),
        Err(_) => Err(Stop::Trouble(Trouble::Output)),
    }
}

/// Tells what is in the file.
fn tell_file(rt: &HostRuntime, length: u64, found: &Examined) -> io::Result<()> {
    if length < WHOLE {
        println!(rt;
            "file: {length} bytes; it was cut short, since a store's file has {WHOLE}; what is missing reads as zeros"
        )?;
    } else {
        println!(rt; "file: {length} bytes, whole")?;
    }
    let label = if found.labelled {
        "that of a store"
    } else {
        "not that of a store"
    };
    println!(rt; "label: {label}")?;
    tell_slot(rt, 0, found.first)?;
    tell_slot(rt, 1, found.second)
}

/// Tells what is in a slot.
fn tell_slot(rt: &HostRuntime, slot: u32, state: SlotState) -> io::Result<()> {
    match state {
        SlotState::Closed => println!(rt; "slot {slot}: closed"),
        SlotState::Open(head) => {
            let version = head.version;
            let epoch = head.epoch;
            println!(rt; "slot {slot}: open, of layout {version}, epoch {epoch}")
        }
    }
}

/// Tells what an opening finds.
fn tell_info(rt: &HostRuntime, info: &Info) -> io::Result<()> {
    let epoch = info.epoch;
    let layout = info.layout;
    let events = info.events;
    let written = info.written;
    println!(rt;
        "in use: epoch {epoch} of {LAST_EPOCH}, layout {layout}, {events} of {JOURNAL_EVENTS} events since its checkpoint"
    )?;
    println!(rt; "written: {written} of {MOST_WRITTEN} characters")?;
    println!(rt; "the store opens")
}

/// Says what an opening says of damage.
fn cannot_open(rt: &HostRuntime, error: Error) -> Stop {
    if let Error::Damaged(sector) = error {
        let _ = tell_damage(rt, sector);
    }
    Stop::Trouble(Trouble::Store(error))
}

/// Tells in which part of a store a damaged sector stands, and what to do.
fn tell_damage(rt: &HostRuntime, sector: u32) -> io::Result<()> {
    match part_of(sector) {
        Part::Label => println!(rt; "damage: the label (sector {sector})")?,
        Part::Slot(slot) => println!(rt; "damage: the head of slot {slot} (sector {sector})")?,
        Part::Journal(slot) => println!(rt;
            "damage: the journal of slot {slot} (sector {sector}): an event in it can't be read"
        )?,
        Part::Image(slot) => println!(rt;
            "damage: the image of slot {slot} (sector {sector}): it is no desktop"
        )?,
        Part::Characters(area) => println!(rt;
            "damage: area {area} of characters (sector {sector})"
        )?,
        Part::Unused => println!(rt; "damage: sector {sector}, in which nothing should stand")?,
    }
    println!(rt;
        "the store does not open: go on with a backup of it, and keep this file for whoever can look into it"
    )
}
