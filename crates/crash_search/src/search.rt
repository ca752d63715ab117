//! Stops at every call of a disk, and the images that a crash may leave then.

use crate::images::{counted, drawn, image, ways};
use crate::random::Random;
use crate::reopening::{Opening, opened, recovered};
use crate::stores::{calls_to_open, shown};
use crate::trial::Trial;
use sector_disk::{Fuse, MemoryDisk};
use std::alloc::{AllocError, Global};

/// More calls than any of a store makes of its disk.
const MOST_CALLS: u64 = 8_192;

/// An image that shows what it may not.
#[derive(Drop)]
pub struct Wrong {
    /// The seed of its round.
    pub seed: u32,
    /// What was stopped.
    pub trial: &'static str,
    /// The number of the disk's call at which it was stopped.
    pub stop: u64,
    /// The pending sectors, each with the number of its filling.
    pub fillings: Vec<(u32, u32)>,
}

/// What was found so far.
#[derive(Drop)]
pub struct Search {
    seed: u32,
    pub(crate) random: Random,
    /// How many images are wanted.
    wanted: u64,
    /// How many images were tried.
    pub images: u64,
    /// At how many calls opening was stopped after these crashes.
    pub second_stops: u64,
    /// The first image that is wrong.
    pub wrong: Option<Wrong>,
}

/// The stop at hand.
#[derive(Clone, Copy)]
struct Stop {
    trial: &'static str,
    call: u64,
    acknowledged: bool,
}

/// Whether a call was answered.
fn is_answer(said: &[u8]) -> bool {
    said == b"ok\n".as_slice() || said.starts_with(b"no ")
}

/// Makes the call of a trial over a disk that fails after so many calls: the disk, and whether it was answered.
fn stopped(alloc: Global, trial: &Trial, calls: u64) -> Result<(MemoryDisk, bool), AllocError> {
    let mut said = Vec::new(alloc);
    let fuse = Fuse::new(trial.disk.crash(alloc, &[])?, calls);
    let disk = trial.call.made(alloc, fuse, &mut said).into_inner();
    Ok((disk, is_answer(&said)))
}

impl Search {
    /// Nothing was tried yet.
    pub(crate) fn new(wanted: u64) -> Search {
        Search {
            seed: 0,
            random: Random::new(0),
            wanted,
            images: 0,
            second_stops: 0,
            wrong: None,
        }
    }

    /// The next round.
    pub(crate) fn begin(&mut self, seed: u32) {
        self.seed = seed;
        self.random = Random::new(seed);
    }

    /// Whether enough images were tried, or one is wrong.
    pub(crate) fn is_done(&self) -> bool {
        self.images >= self.wanted || self.wrong.is_some()
    }

    /// How many images are tried at one stop.
    fn most(&self, trial: &Trial) -> u64 {
        let most = (self.wanted / 100).max(36).min(2_000);
        if trial.is_long { most / 6 } else { most }
    }

    /// Tries one image: opening it is stopped again and again, and what it shows in the end must be allowed.
    fn try_image(
        &mut self,
        alloc: Global,
        disk: &mut MemoryDisk,
        fillings: Vec<(u32, u32)>,
        trial: &Trial,
        stop: Stop,
    ) -> Result<(), AllocError> {
        let left = image(alloc, disk, &fillings)?;
        let again = recovered(alloc, left, trial.calls(), &mut self.random)?;
        self.images = self.images.saturating_add(1);
        self.second_stops = self.second_stops.saturating_add(again.stops);
        let shown = shown(alloc, again.disk);
        let is_right = again.is_told && trial.views.allow(stop.acknowledged, &shown);
        if !is_right && self.wrong.is_none() {
            self.wrong = Some(Wrong {
                seed: self.seed,
                trial: stop.trial,
                stop: stop.call,
                fillings,
            });
        }
        Ok(())
    }

    /// Tries the images that a crash at this moment may leave: all, or random ones.
    fn try_images(
        &mut self,
        alloc: Global,
        disk: &mut MemoryDisk,
        trial: &Trial,
        stop: Stop,
    ) -> Result<(), AllocError> {
        let pending = disk.pending_sectors(alloc)?;
        let most = self.most(trial);
        let ways = ways(pending.len(), most);
        for choice in 0..ways.min(most) {
            let fillings = if ways <= most {
                counted(alloc, &pending, choice)?
            } else {
                drawn(alloc, &pending, &mut self.random)?
            };
            self.try_image(alloc, disk, fillings, trial, stop)?;
        }
        Ok(())
    }

    /// Stops the call of a trial at each call of the disk.
    fn try_stops(&mut self, alloc: Global, trial: &Trial) -> Result<(), AllocError> {
        let opening = calls_to_open(alloc, &trial.disk)?;
        for call in 0..MOST_CALLS {
            let (mut disk, acknowledged) = stopped(alloc, trial, opening.saturating_add(call))?;
            let stop = Stop {
                trial: trial.name,
                call,
                acknowledged,
            };
            self.try_images(alloc, &mut disk, trial, stop)?;
            if acknowledged {
                break;
            }
        }
        Ok(())
    }

    /// Stops the call of a trial once, after a random number of calls, and then opening what is there: no crash comes
    /// between the two, so that what was pending is it still.
    fn try_opening(&mut self, alloc: Global, trial: &Trial) -> Result<(), AllocError> {
        let opening = calls_to_open(alloc, &trial.disk)?;
        let calls = opening.saturating_add(self.random.below(12) as u64);
        let (mut disk, acknowledged) = stopped(alloc, trial, calls)?;
        for call in 0..MOST_CALLS {
            if !trial.calls().have(call, &mut self.random) {
                continue;
            }
            let (next, opening) = opened(alloc, disk, call);
            disk = next;
            let stop = Stop {
                trial: "opening after it was stopped",
                call,
                acknowledged,
            };
            self.try_images(alloc, &mut disk, trial, stop)?;
            if opening != Opening::Stopped {
                break;
            }
        }
        Ok(())
    }

    /// Stops a trial, unless enough was tried.
    pub(crate) fn run_trial(&mut self, alloc: Global, trial: &Trial) -> Result<(), AllocError> {
        if self.is_done() {
            return Ok(());
        }
        self.try_stops(alloc, trial)?;
        self.try_opening(alloc, trial)
    }
}
