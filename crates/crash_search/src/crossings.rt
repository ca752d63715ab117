//! Events that are taken back across a checkpoint, and what comes after that.

use crate::call::{Call, after_call};
use crate::search::Search;
use crate::stores::spoiled;
use crate::trial::Trial;
use sector_disk::MemoryDisk;
use std::alloc::{AllocError, Global};
use store_layout::{SLOTS, body};

/// A store that has passed a checkpoint.
#[derive(Drop)]
pub struct Passed {
    /// The store before the checkpoint, in this slot, with two events at least in its journal.
    pub before: MemoryDisk,
    pub slot: u32,
    /// The store after the checkpoint and so many events.
    pub disk: MemoryDisk,
    pub events: u32,
    /// Whether a journal is full, so that opening it takes long.
    pub is_long: bool,
}

/// Stops taking back all events since the checkpoint and one or two from before it. What is to be shown then is what the
/// store before the checkpoint shows without these. The store after it.
pub fn crossing(
    alloc: Global,
    search: &mut Search,
    passed: &Passed,
    name: &'static str,
) -> Result<MemoryDisk, AllocError> {
    let older = search.random.below(2).saturating_add(1);
    let left = after_call(alloc, &passed.before, &Call::Undo(older))?;
    let count = passed.events.saturating_add(older);
    let trial = Trial::toward(
        alloc,
        name,
        &passed.disk,
        Call::Undo(count),
        passed.is_long,
        left,
    )?;
    search.run_trial(alloc, &trial)?;
    after_call(alloc, &passed.disk, &Call::Undo(count))
}

/// Stops taking back all events since the checkpoint and one more, where the slot from before it is damaged. That is no
/// history: those since the checkpoint go, and no more.
pub fn no_crossing(
    alloc: Global,
    search: &mut Search,
    passed: &Passed,
    name: &'static str,
) -> Result<(), AllocError> {
    let bad = spoiled(alloc, &passed.disk, body(passed.slot % SLOTS, 0))?;
    let left = after_call(alloc, &bad, &Call::Undo(passed.events))?;
    let call = Call::Undo(passed.events.saturating_add(1));
    let trial = Trial::toward(alloc, name, &bad, call, passed.is_long, left)?;
    search.run_trial(alloc, &trial)
}
