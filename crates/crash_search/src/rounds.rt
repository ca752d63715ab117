//! Rounds of the search: the stores of a round, and what is stopped over them.

use crate::call::{Call, after_call};
use crate::crossings::{Passed, crossing, no_crossing};
use crate::random::Random;
use crate::search::Search;
use crate::stores::{after, aged, fresh};
use crate::trial::Trial;
use command_table::Version;
use sector_disk::MemoryDisk;
use std::alloc::{AllocError, Global};

/// How many events a journal takes.
const JOURNAL: u32 = 256;

/// A tool text, a text in a viewer with a selection that has a look of its own, the log, and the marker.
const DESK: [&[u8]; 13] = [
    b"file System.Tool Edit.Open A.Text%0dSystem.Recall%0dEdit.Recall%0dSystem.OpenLog%0dEdit.ChangeColor 3%0d\
Edit.Open D.Text%0dEdit.Search%0dfox%0dSystem.Collect%0dSystem.Grow%0d\n",
    b"point m 60 31 60 31\n",
    b"point m 52 30 52 30\n",
    b"point l 1 30 1 30\n",
    b"type Hello World%0d\n",
    b"point r 7 30 11 30\n",
    b"point m 52 26 52 26\n",
    b"point m 52 27 52 27\n",
    b"mark 30 12\n",
    b"point m 47 31 47 31\n",
    b"file B.Text bc%0d\n",
    b"point l 3 30 3 30\n",
    b"type ab\n",
];

/// Documents of 900 characters each, in lines of 20. They fill three sectors of the area.
const DOCUMENTS: [&[u8]; 4] = [
    b"file D.Text ",
    b"file E.Text ",
    b"file F.Text ",
    b"file G.Text ",
];

/// A line of a document.
const LINE: &[u8] = b"a fox jumps on dogs%0d";

/// Events that may follow.
const LINES: [&[u8]; 30] = [
    b"type abc\n",
    b"type x%0d\n",
    b"type the quick brown fox jumps over the lazy dog, and the dog over the fox and the fox over it again%0d\n",
    b"key back\n",
    b"key copy\n",
    b"key cut\n",
    b"key paste\n",
    b"point l 5 30 5 30\n",
    b"point r 1 30 4 30\n",
    b"point rl 1 30 2 30\n",
    b"point l 52 29 52 29\n",
    b"mark 10 10\n",
    b"mark 60 10\n",
    b"point m 52 29 52 29\n",
    b"point m 52 28 52 28\n",
    b"point m 52 26 52 26\n",
    // A document in a viewer, a word to search for, the search, System.Collect, and the bar.
    b"point m 52 25 52 25\n",
    b"point m 52 25 52 25\n",
    b"point r 51 23 53 23\n",
    b"point m 52 24 52 24\n",
    b"point m 52 24 52 24\n",
    b"point m 52 22 52 22\n",
    b"point m 52 22 52 22\n",
    b"point m 0 20 0 20\n",
    b"point m 47 31 47 31\n",
    // System.Grow, and the close of the upper viewer on the left.
    b"point m 52 21 52 21\n",
    b"point m 12 31 12 31\n",
    b"file B.Text other text\n",
    b"file C.Text the quick brown fox jumps over the lazy dog, and the dog over the fox and the fox over it%0d\n",
    b"file A.Text\n",
];

/// The line of a checkpoint.
const CHECKPOINT: &[u8] = b"checkpoint\n";

/// Adds the events that make a desk.
fn add_desk(script: &mut Vec<u8>) -> Result<(), AllocError> {
    for line in DESK {
        script.extend_from_slice(line)?;
    }
    Ok(())
}

/// Adds a document.
fn add_document(script: &mut Vec<u8>, document: &[u8]) -> Result<(), AllocError> {
    script.extend_from_slice(document)?;
    for _ in 0..45 {
        script.extend_from_slice(LINE)?;
    }
    script.extend_from_slice(b"\n")
}

/// A random event.
fn line(random: &mut Random) -> &'static [u8] {
    LINES[random.below(LINES.len() as u32) as usize]
}

/// Adds the events that make a desk and documents.
fn add_desk_and_documents(script: &mut Vec<u8>) -> Result<(), AllocError> {
    add_desk(script)?;
    for document in DOCUMENTS {
        add_document(script, document)?;
    }
    Ok(())
}

/// Adds so many random events.
fn add_lines(script: &mut Vec<u8>, random: &mut Random, count: u32) -> Result<(), AllocError> {
    for _ in 0..count {
        script.extend_from_slice(line(random))?;
    }
    Ok(())
}

/// A store in slot 0, of a desk and documents whose characters stand in the area, after a checkpoint from slot 1 and some
/// events. Both journals have gates and events of an earlier use.
fn paged(alloc: Global, random: &mut Random) -> Result<Passed, AllocError> {
    let mut script = Vec::new(alloc);
    add_desk_and_documents(&mut script)?;
    script.extend_from_slice(CHECKPOINT)?;
    add_lines(&mut script, random, 12)?;
    let before = after(alloc, &fresh(alloc)?, &script)?;
    let mut script = CHECKPOINT.to_vec(alloc)?;
    let events = random.below(8);
    add_lines(&mut script, random, events)?;
    let disk = after(alloc, &before, &script)?;
    Ok(Passed {
        before,
        slot: 1,
        disk,
        events,
        is_long: false,
    })
}

/// Stops two events, one after the other, and opening after each. The store after them.
fn posts(
    alloc: Global,
    search: &mut Search,
    disk: MemoryDisk,
    name: &'static str,
) -> Result<MemoryDisk, AllocError> {
    let mut disk = disk;
    for _ in 0..2 {
        let event = line(&mut search.random);
        let trial = Trial::new(alloc, name, &disk, Call::line(alloc, event)?, false)?;
        search.run_trial(alloc, &trial)?;
        disk = after(alloc, &disk, event)?;
    }
    Ok(disk)
}

/// Stops a checkpoint, and opening after it was stopped. The store after it.
fn checkpoint(
    alloc: Global,
    search: &mut Search,
    disk: MemoryDisk,
    name: &'static str,
) -> Result<MemoryDisk, AllocError> {
    let trial = Trial::new(alloc, name, &disk, Call::line(alloc, CHECKPOINT)?, false)?;
    search.run_trial(alloc, &trial)?;
    after(alloc, &disk, CHECKPOINT)
}

/// Stops taking back an event, and posting it again. The store after it.
fn redone(
    alloc: Global,
    search: &mut Search,
    disk: MemoryDisk,
    name: &'static str,
) -> Result<MemoryDisk, AllocError> {
    let event = line(&mut search.random);
    let posted = after(alloc, &disk, event)?;
    let trial = Trial::toward(alloc, name, &posted, Call::Undo(1), false, disk)?;
    search.run_trial(alloc, &trial)?;
    let undone = after_call(alloc, &posted, &Call::Undo(1))?;
    let again = posted.crash(alloc, &[])?;
    let call = Call::line(alloc, event)?;
    let trial = Trial::toward(
        alloc,
        "an event that is posted again",
        &undone,
        call,
        false,
        again,
    )?;
    search.run_trial(alloc, &trial)?;
    after(alloc, &undone, event)
}

/// Stops taking back an event and posting it again, then taking back some, and events that are posted after that, behind
/// which gates and events stand that were taken back. The store after them.
fn undos(
    alloc: Global,
    search: &mut Search,
    disk: MemoryDisk,
    name: &'static str,
) -> Result<MemoryDisk, AllocError> {
    let disk = redone(alloc, search, disk, name)?;
    let trial = Trial::new(alloc, name, &disk, Call::Undo(3), false)?;
    search.run_trial(alloc, &trial)?;
    posts(
        alloc,
        search,
        after_call(alloc, &disk, &Call::Undo(3))?,
        "an event behind which events were taken back",
    )
}

/// Stops taking events back across a checkpoint, also where the slot beside is damaged, and then events and a checkpoint.
fn crossings(
    alloc: Global,
    search: &mut Search,
    passed: &Passed,
    name: &'static str,
) -> Result<(), AllocError> {
    let mut disk = crossing(alloc, search, passed, name)?;
    disk = posts(alloc, search, disk, "an event after a crossing")?;
    checkpoint(alloc, search, disk, "a checkpoint after a crossing")?;
    no_crossing(
        alloc,
        search,
        passed,
        "events taken back beside a damaged slot",
    )
}

/// Fills the journal of this slot after a checkpoint, and stops the event that finds it full, and its taking back with
/// some of the full journal.
fn full_journal(
    alloc: Global,
    search: &mut Search,
    disk: MemoryDisk,
    slot: u32,
) -> Result<(), AllocError> {
    if search.is_done() {
        return Ok(());
    }
    let mut script = Vec::new(alloc);
    add_lines(&mut script, &mut search.random, JOURNAL)?;
    let before = after(alloc, &disk, &script)?;
    let event = line(&mut search.random);
    let call = Call::line(alloc, event)?;
    let trial = Trial::new(alloc, "an event at a full journal", &before, call, true)?;
    search.run_trial(alloc, &trial)?;
    let passed = Passed {
        disk: after(alloc, &before, event)?,
        before,
        slot,
        events: 1,
        is_long: true,
    };
    crossing(
        alloc,
        search,
        &passed,
        "events of a full journal taken back",
    )?;
    Ok(())
}

/// A store that has all its events in the journal of slot 0.
fn begun(alloc: Global, random: &mut Random) -> Result<MemoryDisk, AllocError> {
    let mut script = Vec::new(alloc);
    add_desk_and_documents(&mut script)?;
    add_lines(&mut script, random, 12)?;
    after(alloc, &fresh(alloc)?, &script)
}

/// Stops the event and the checkpoint that make a store of an older version one of the newest.
fn migrations(alloc: Global, search: &mut Search, version: Version) -> Result<(), AllocError> {
    let disk = begun(alloc, &mut search.random)?;
    let old = aged(alloc, &disk, version)?;
    posts(
        alloc,
        search,
        old,
        "an event at a store of an older version",
    )?;
    let old = aged(alloc, &disk, version)?;
    checkpoint(
        alloc,
        search,
        old,
        "a checkpoint of a store of an older version",
    )?;
    Ok(())
}

/// A checkpoint from slot 0 to slot 1, and events there, those that are taken back, and across the checkpoint, before
/// there are events in slot 1 and after. The store after them.
fn passes(
    alloc: Global,
    search: &mut Search,
    before: MemoryDisk,
) -> Result<MemoryDisk, AllocError> {
    let name = "a checkpoint from slot 0 to slot 1";
    let disk = checkpoint(alloc, search, before.crash(alloc, &[])?, name)?;
    let passed = Passed {
        before,
        slot: 0,
        disk,
        events: 0,
        is_long: false,
    };
    crossings(alloc, search, &passed, "events of slot 0 taken back")?;
    let disk = passed.disk.crash(alloc, &[])?;
    let disk = posts(alloc, search, disk, "an event in slot 1")?;
    let later = Passed {
        before: passed.before,
        slot: 0,
        disk: disk.crash(alloc, &[])?,
        events: 2,
        is_long: false,
    };
    crossings(alloc, search, &later, "events of slots 1 and 0 taken back")?;
    undos(alloc, search, disk, "events taken back in slot 1")
}

/// One round: events, those that are taken back, and checkpoints in both directions, stores of the older versions, and
/// a full journal in one slot or the other.
fn round(alloc: Global, search: &mut Search, is_odd: bool) -> Result<(), AllocError> {
    let passed = paged(alloc, &mut search.random)?;
    let name = "events of slots 0 and 1 taken back";
    if is_odd {
        crossings(alloc, search, &passed, name)?;
    }
    let mut disk = posts(alloc, search, passed.disk, "an event in slot 0")?;
    disk = undos(alloc, search, disk, "events taken back in slot 0")?;
    migrations(alloc, search, Version::V1)?;
    disk = passes(alloc, search, disk)?;
    migrations(alloc, search, Version::V2)?;
    disk = checkpoint(alloc, search, disk, "a checkpoint from slot 1 to slot 0")?;
    if is_odd {
        return full_journal(alloc, search, disk, 0);
    }
    disk = after(alloc, &disk, CHECKPOINT)?;
    full_journal(alloc, search, disk, 1)
}

/// Tries at least so many images, or fewer where one is wrong.
pub fn searched(alloc: Global, wanted: u64) -> Result<Search, AllocError> {
    let mut search = Search::new(wanted);
    for seed in 1..u32::MAX {
        if search.is_done() {
            break;
        }
        search.begin(seed);
        round(alloc, &mut search, seed % 2 == 1)?;
    }
    Ok(search)
}
