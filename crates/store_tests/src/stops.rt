//! Scripts that are stopped at each call of a disk, and what is left then: on the disk as it reads, or in every image
//! that a crash may leave, whatever the sectors that are pending hold.

use crate::disks::{Step, after, beginning_with, new_store, played, put, sector, store_after};
use crate::stores::{FIRST, SHOW};
use oberon_main::{Store, Version};
use sector_disk::{Disk, Fuse, MemoryDisk, OneFault, Sector};
use std::alloc::{AllocError, Global};
use std::process::Abort;

/// A script that is stopped at each call of the disk.
#[derive(Clone, Copy)]
struct Stops {
    /// What is done to a new store first.
    first: &'static [Step],
    /// Scripts, each an event longer than the one before it. The last one is stopped.
    fronts: &'static [&'static [u8]],
    /// What the store is asked then.
    looks: &'static [u8],
    /// How many calls opening the store makes.
    opening: u64,
    /// By the call of an event, how many images show what was there before the event, and after it.
    images: &'static [(u32, u32)],
}

/// A filling of sector n: as at the last sync, as written, an open gate, an old record, zeros.
fn filled(disk: &mut MemoryDisk, n: u32, filling: usize) -> Sector {
    let mut bytes = [0; 1024];
    match filling {
        0 if n < disk.sectors() => disk.synced(n, &mut bytes),
        1 => bytes = sector(disk, n),
        2 => bytes = beginning_with(b"OPENGATE"),
        3 => bytes = beginning_with(b"\x05\x06A.Text\x00\x03old"),
        _ => {}
    }
    bytes
}

/// The fillings of the pending sectors that a number chooses, each by one of its digits, of which there are five; None
/// where the number is too large.
fn chosen(
    alloc: Global,
    disk: &mut MemoryDisk,
    pending: &[u32],
    choice: usize,
) -> Result<Option<Vec<(u32, Sector)>>, AllocError> {
    let mut sectors = Vec::new(alloc);
    let mut rest = choice;
    for n in pending {
        let bytes = filled(disk, *n, rest % 5);
        sectors.push((*n, bytes))?;
        rest /= 5;
    }
    Ok((rest == 0).then_some(sectors))
}

/// Which of the states a store shows; as many as there are where it shows none of them.
fn state_of(alloc: Global, disk: MemoryDisk, looks: &[u8], states: &[Vec<u8>]) -> usize {
    let mut said = Vec::new(alloc);
    played(alloc, disk, looks, &mut said);
    for (at, state) in states.iter().enumerate() {
        if state.as_slice() == said.as_slice() {
            return at;
        }
    }
    states.len()
}

/// How many images of a disk, of which at most four sectors are pending, show that state, the next one, and neither.
fn images(
    alloc: Global,
    disk: MemoryDisk,
    looks: &[u8],
    states: &[Vec<u8>],
    event: usize,
) -> Result<[u32; 3], AllocError> {
    let mut disk = disk;
    let pending = disk.pending_sectors(alloc)?;
    let mut counts: [u32; 3] = [0; 3];
    for choice in 0..625 {
        let Some(sectors) = chosen(alloc, &mut disk, &pending, choice)? else {
            break;
        };
        let state = state_of(alloc, disk.crash(alloc, &sectors)?, looks, states);
        let at = state.wrapping_sub(event).min(2);
        counts[at] = counts[at].saturating_add(1);
    }
    Ok(counts)
}

/// What a store shows after a script.
fn shown_after(
    alloc: Global,
    disk: &MemoryDisk,
    script: &[u8],
    looks: &[u8],
) -> Result<Vec<u8>, AllocError> {
    let mut said = Vec::new(alloc);
    let disk = played(alloc, disk.crash(alloc, &[])?, script, &mut said);
    said.clear();
    played(alloc, disk, looks, &mut said);
    Ok(said)
}

/// What a store shows after each of the scripts.
fn states_of(
    alloc: Global,
    disk: &MemoryDisk,
    scripts: &[&[u8]],
    looks: &[u8],
) -> Result<Vec<Vec<u8>>, AllocError> {
    let mut states = Vec::new(alloc);
    for script in scripts {
        states.push(shown_after(alloc, disk, script, looks)?)?;
    }
    Ok(states)
}

/// The disk after a script over one that passes so many calls, and how many events were answered where it was stopped.
fn stopped(
    alloc: Global,
    disk: &MemoryDisk,
    script: &[u8],
    calls: u64,
) -> Result<(MemoryDisk, Option<usize>), AllocError> {
    let mut said = Vec::new(alloc);
    let fuse = Fuse::new(disk.crash(alloc, &[])?, calls);
    let left = played(alloc, fuse, script, &mut said).into_inner();
    let answered = said.strip_suffix(b"fault\n").map(|front| front.len() / 3);
    Ok((left, answered))
}

/// What is found where a script is stopped at one of its calls: the images, and how many events were answered.
fn found(
    alloc: Global,
    disk: &MemoryDisk,
    stops: Stops,
    states: &[Vec<u8>],
    call: usize,
    event: usize,
) -> Result<([u32; 3], Option<usize>), AllocError> {
    let script = stops.fronts.last().copied().unwrap_or(b"");
    let calls = stops.opening.saturating_add(call as u64);
    let (left, answered) = stopped(alloc, disk, script, calls)?;
    Ok((images(alloc, left, stops.looks, states, event)?, answered))
}

/// What is to be found there, and the event that is stopped; at the end the last one.
fn wanted(stops: Stops, call: usize) -> (usize, [u32; 3], Option<usize>) {
    let event = call / stops.images.len().max(1);
    let last = stops.fronts.len().saturating_sub(2);
    match stops.images.get(call % stops.images.len().max(1)) {
        Some((before, after)) if event <= last => (event, [*before, *after, 0], Some(event)),
        _ => (last, [0, 1, 0], None),
    }
}

/// Asserts what is found at each stop, and after the last call.
fn expect_stops(rt: &impl Abort, alloc: Global, stops: Stops) -> Result<(), AllocError> {
    let disk = store_after(alloc, Version::V3, stops.first)?;
    let states = states_of(alloc, &disk, stops.fronts, stops.looks)?;
    let events = stops.fronts.len().saturating_sub(1);
    for call in 0..=events.saturating_mul(stops.images.len()) {
        let (event, images, answered) = wanted(stops, call);
        assert!(rt; found(alloc, &disk, stops, &states, call, event)? == (images, answered));
    }
    Ok(())
}

/// The images of an event: before its body is written, its closed gate, the sync, the open gate, and the last sync. An
/// open gate torn shows what it came to.
const POST: &[(u32, u32)] = &[(1, 0), (5, 0), (25, 0), (1, 0), (3, 2)];

/// Three events in one run. Opening makes 7 calls: a sync, the label, a slot's gate and head, the other slot's gate,
/// the image, gate 0.
#[test]
fn every_crash_of_three_posts(rt: HostRuntime) -> Result<(), AllocError> {
    let stops = Stops {
        first: &[],
        fronts: &FIRST,
        looks: SHOW,
        opening: 7,
        images: POST,
    };
    expect_stops(&rt, rt.alloc(), stops)
}

/// The second event of a store. Opening makes 9 calls: a body and a gate more are read.
#[test]
fn torn_post(rt: HostRuntime) -> Result<(), AllocError> {
    let stops = Stops {
        first: &[Step::Play(FIRST[1])],
        fronts: &[b"", b"file B.Text bc\n"],
        looks: SHOW,
        opening: 9,
        images: POST,
    };
    expect_stops(&rt, rt.alloc(), stops)
}

/// The first checkpoint: a read of the slot's gate and a sync, the image, the head, gate 0 and a sync, the gate and a
/// sync. The store is in slot 1 with an empty journal just where the gate of slot 1 reads open.
#[test]
fn torn_checkpoint(rt: HostRuntime) -> Result<(), AllocError> {
    let stops = Stops {
        first: &[Step::Play(FIRST[1])],
        fronts: &[b"", b"checkpoint\n"],
        looks: b"show A.Text\n",
        opening: 9,
        images: &[
            (1, 0),
            (1, 0),
            (1, 0),
            (5, 0),
            (25, 0),
            (125, 0),
            (1, 0),
            (3, 2),
        ],
    };
    expect_stops(&rt, rt.alloc(), stops)
}

/// The first event of a store, and the last one that its journal takes: that one has no next gate to close. Opening
/// reads two sectors more for each event that there is.
#[test]
fn post_stops(rt: HostRuntime) -> Result<(), AllocError> {
    let first = Stops {
        first: &[],
        fronts: &[b"", b"mark 0 0\n"],
        looks: b"screen\n",
        opening: 7,
        images: POST,
    };
    let last = Stops {
        first: &[Step::Marks(255)],
        opening: 517,
        images: &[(1, 0), (5, 0), (1, 0), (3, 2)],
        ..first
    };
    expect_stops(&rt, rt.alloc(), first)?;
    expect_stops(&rt, rt.alloc(), last)
}

/// The fronts of a script that opens a document by a tool text and types into it, one event longer each.
const SCRIPTS: [&[u8]; 6] = [
    b"",
    b"file System.Tool Edit.Open A.Text%0dSystem.Recall%0d\n",
    b"file System.Tool Edit.Open A.Text%0dSystem.Recall%0d\npoint m 60 31 60 31\n",
    b"file System.Tool Edit.Open A.Text%0dSystem.Recall%0d\npoint m 60 31 60 31\npoint m 52 30 52 30\n",
    b"file System.Tool Edit.Open A.Text%0dSystem.Recall%0d\npoint m 60 31 60 31\npoint m 52 30 52 30\n\
point l 1 30 1 30\n",
    b"file System.Tool Edit.Open A.Text%0dSystem.Recall%0d\npoint m 60 31 60 31\npoint m 52 30 52 30\n\
point l 1 30 1 30\ntype Hello\n",
];

/// The screen after each stop. What it is after the last event, the script `type_hello` shows.
#[test]
fn script_over_fuse(rt: HostRuntime) -> Result<(), AllocError> {
    let stops = Stops {
        first: &[],
        fronts: &SCRIPTS,
        looks: b"screen\n",
        opening: 7,
        images: POST,
    };
    expect_stops(&rt, rt.alloc(), stops)
}

/// A tool text in a viewer, which opens the first file. It has 14 characters, and the menu 61.
const TOOL: &[u8] = b"file System.Tool Edit.Open F01%0d\npoint m 60 31 60 31\n";

/// A store of the tool and four files after a checkpoint. What fills sectors stands in the area.
const PAGED: &[Step] = &[
    Step::Play(TOOL),
    Step::Files(1, 4),
    Step::Play(b"checkpoint\n"),
];

/// Opens the first file. The word is read from the area, whose first sector has it.
const EVENT: &[u8] = b"point m 52 30 52 30\n";

/// Lists what there is, and shows the first and the fourth file.
const LOOKS: &[u8] = b"list\nshow F01\nshow F04\n";

/// An event that reads the area. Opening makes 8 calls: a sync, the label, gates and heads of both slots, the image,
/// gate 0.
#[test]
fn torn_paged_post(rt: HostRuntime) -> Result<(), AllocError> {
    let stops = Stops {
        first: PAGED,
        fronts: &[b"", EVENT],
        looks: LOOKS,
        opening: 8,
        images: &[(1, 0), (1, 0), (5, 0), (25, 0), (1, 0), (3, 2)],
    };
    expect_stops(&rt, rt.alloc(), stops)
}

/// A second checkpoint, which fills one more sector of the area: a read of the slot's gate, a closed gate and a sync,
/// the sector of the area, the image, the head, gate 0 and a sync, the gate and a sync. Opening makes two calls more,
/// for the event.
#[test]
fn torn_paged_checkpoint(rt: HostRuntime) -> Result<(), AllocError> {
    let stops = Stops {
        first: &[
            Step::Play(TOOL),
            Step::Files(1, 4),
            Step::Play(b"checkpoint\n"),
            Step::Files(5, 5),
        ],
        fronts: &[b"", b"checkpoint\n"],
        looks: LOOKS,
        opening: 10,
        images: &[
            (1, 0),
            (1, 0),
            (5, 0),
            (1, 0),
            (5, 0),
            (25, 0),
            (125, 0),
            (625, 0),
            (1, 0),
            (3, 2),
        ],
    };
    expect_stops(&rt, rt.alloc(), stops)
}

/// Opening a store whose journal reads the area writes nothing: it leaves one image at each of its 11 calls, of which
/// two are for the event, and one reads the area. Then comes an event.
#[test]
fn open_stops(rt: HostRuntime) -> Result<(), AllocError> {
    let stops = Stops {
        first: &[
            Step::Play(TOOL),
            Step::Files(1, 4),
            Step::Play(b"checkpoint\n"),
            Step::Play(EVENT),
        ],
        fronts: &[b"", b"mark 0 0\n"],
        looks: b"list\nscreen\n",
        opening: 0,
        images: &[
            (1, 0),
            (1, 0),
            (1, 0),
            (1, 0),
            (1, 0),
            (1, 0),
            (1, 0),
            (1, 0),
            (1, 0),
            (1, 0),
            (1, 0),
            (1, 0),
            (5, 0),
            (25, 0),
            (1, 0),
            (3, 2),
        ],
    };
    expect_stops(&rt, rt.alloc(), stops)
}

/// What is said over a new store after these steps, where a script is played over a disk that fails at a call, alone
/// or from there on, and the store is then looked at.
fn said_failing(
    alloc: Global,
    first: &[Step],
    step: Step,
    looks: &'static [u8],
) -> Result<Vec<u8>, AllocError> {
    let mut said = Vec::new(alloc);
    let disk = store_after(alloc, Version::V3, first)?;
    after(alloc, disk, &[step, Step::Play(looks)], &mut said)?;
    Ok(said)
}

/// Asserts what is said where a script that makes so many calls fails at each of them: at all but the last one the
/// first text, at that one the second, whose gate was written by then; and the third where none fails.
fn expect_failing(
    rt: &impl Abort,
    alloc: Global,
    first: &[Step],
    scripts: [&'static [u8]; 2],
    calls: u64,
    wanted: [&[u8]; 3],
) -> Result<(), AllocError> {
    let [script, looks] = scripts;
    for call in 0..calls.saturating_add(1) {
        let at = if call == calls {
            2
        } else {
            (call.saturating_add(1) == calls) as usize
        };
        for step in [Step::Fuse(call, script), Step::OneFault(call, script)] {
            assert!(rt; said_failing(alloc, first, step, looks)?.as_slice() == wanted[at]);
        }
    }
    Ok(())
}

/// Opening a new store makes 7 calls, and a post 5.
#[test]
fn disk_fault(rt: HostRuntime) -> Result<(), AllocError> {
    let wanted: [&[u8]; 3] = [
        b"fault\nno 5\nok layout 3 epoch 1 events 0\n",
        b"fault\n0 15 0 Hello%0d\nend\nok layout 3 epoch 1 events 1\n",
        b"ok\nok layout 3 epoch 1 events 1\n0 15 0 Hello%0d\nend\nok layout 3 epoch 1 events 1\n",
    ];
    let scripts: [&[u8]; 2] = [b"file A.Text Hello%0d\n", b"show A.Text\n"];
    expect_failing(&rt, rt.alloc(), &[], scripts, 12, wanted)
}

/// Opening a store of one event makes 9 calls, and a post 5.
#[test]
fn failing_post(rt: HostRuntime) -> Result<(), AllocError> {
    let wanted: [&[u8]; 3] = [
        b"fault\nfile A.Text 1\nwritten 1\nend\nok layout 3 epoch 1 events 1\n",
        b"fault\nfile A.Text 1\nfile B.Text 2\nwritten 3\nend\nok layout 3 epoch 1 events 2\n",
        b"ok\nok layout 3 epoch 1 events 2\n\
        file A.Text 1\nfile B.Text 2\nwritten 3\nend\nok layout 3 epoch 1 events 2\n",
    ];
    let scripts: [&[u8]; 2] = [b"file B.Text bc\n", b"list\n"];
    expect_failing(
        &rt,
        rt.alloc(),
        &[Step::Play(FIRST[1])],
        scripts,
        14,
        wanted,
    )
}

/// Opening a store whose characters stand in the area makes 8 calls, and a post that reads one of them 6.
#[test]
fn failing_paged_post(rt: HostRuntime) -> Result<(), AllocError> {
    let wanted: [&[u8]; 3] = [
        b"fault\nfile F01 900\nfile F02 900\nfile F03 900\nfile F04 900\nfile System.Tool 14\n\
        viewer 50 0 32 System.Tool 14\nwritten 3675\nend\nok layout 3 epoch 2 events 0\n",
        b"fault\nfile F01 900\nfile F02 900\nfile F03 900\nfile F04 900\nfile System.Tool 14\n\
        viewer 0 0 32 F01 900\nviewer 50 0 32 System.Tool 14\nwritten 3728\nend\nok layout 3 epoch 2 events 1\n",
        b"ok\nok layout 3 epoch 2 events 1\n\
        file F01 900\nfile F02 900\nfile F03 900\nfile F04 900\nfile System.Tool 14\n\
        viewer 0 0 32 F01 900\nviewer 50 0 32 System.Tool 14\nwritten 3728\nend\nok layout 3 epoch 2 events 1\n",
    ];
    expect_failing(&rt, rt.alloc(), PAGED, [EVENT, b"list\n"], 14, wanted)
}

/// What is shown first of files 1, 78 and 1, so many of them, and after that.
fn shown_first(alloc: Global, count: usize, last: &[u8]) -> Result<Vec<u8>, AllocError> {
    let mut shown = Vec::new(alloc);
    for byte in [b'1', b'~', b'1'].iter().take(count) {
        shown.extend_from_slice(b"0 15 0 ")?;
        shown.resize(shown.len().saturating_add(900), *byte)?;
        shown.extend_from_slice(b"\nend\n")?;
    }
    shown.extend_from_slice(last)?;
    Ok(shown)
}

/// Whether just so many of files 1, 78 and 1 are shown over a disk of which one call fails, and that is said after it.
fn shows_first(
    alloc: Global,
    disk: &MemoryDisk,
    call: u64,
    count: usize,
    last: &[u8],
) -> Result<bool, AllocError> {
    let mut said = Vec::new(alloc);
    let once = OneFault::new(disk.crash(alloc, &[])?, call);
    played(alloc, once, b"show F01\nshow F78\nshow F01\n", &mut said);
    Ok(said == shown_first(alloc, count, last)?)
}

/// Opening a store of 78 files makes 10 calls, of which the image has three; the characters that are shown are read
/// from two sectors of the area and from memory.
#[test]
fn paged_faults(rt: HostRuntime) -> Result<(), AllocError> {
    let first = [Step::Files(1, 78), Step::Play(b"checkpoint\n")];
    let disk = store_after(rt.alloc(), Version::V3, &first)?;
    for call in 0..20 {
        let (count, last): (usize, &[u8]) = match call {
            0..=10 => (0, b"fault\n"),
            11 => (1, b"fault\n"),
            _ => (3, b"ok layout 3 epoch 2 events 0\n"),
        };
        assert!(rt; shows_first(rt.alloc(), &disk, call, count, last)?);
    }
    Ok(())
}

/// A store of three events, with the gate of slot 1 open before an empty desktop of the same epoch, that was formatted
/// anew up to that call.
fn formatted(alloc: Global, calls: u64) -> Result<MemoryDisk, AllocError> {
    let mut used = store_after(alloc, Version::V3, &[Step::Play(FIRST[3])])?;
    for (from, to) in [(2, 4), (1029, 4229), (1, 3)] {
        let bytes = sector(&mut used, from);
        put(&mut used, to, &bytes).unwrap_or(());
    }
    match Store::format(Fuse::new(used, calls)) {
        Ok(fuse) => Ok(fuse.into_inner()),
        Err((_, fuse)) => Ok(fuse.into_inner()),
    }
}

/// How many images there are that show the three events, the empty desktop, and neither of them, where a store is
/// formatted anew up to that call.
fn formatted_images(alloc: Global, calls: u64) -> Result<[u32; 3], AllocError> {
    let disk = new_store(alloc, Version::V3)?;
    let states = states_of(alloc, &disk, &[FIRST[3], b""], SHOW)?;
    images(alloc, formatted(alloc, calls)?, SHOW, &states, 0)
}

/// After the first sync of formatting, of two gates, no image has a store, neither the old one nor a new one, before
/// the slot's gate is written; then come that gate and the last sync. Which kinds of images there may be, by the call.
#[test]
fn format_without_its_syncs(rt: HostRuntime) -> Result<(), AllocError> {
    for calls in 0..11 {
        let may = match calls {
            0..=2 => [true, true, true],
            3..=8 => [false, false, true],
            9 => [false, true, true],
            _ => [false, true, false],
        };
        let [old, new, none] = formatted_images(rt.alloc(), calls)?;
        assert!(rt; (may[0] || old == 0) && (may[1] || new == 0) && (may[2] || none == 0));
    }
    Ok(())
}
