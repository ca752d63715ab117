//! The images that a crash may leave, by fillings of the sectors that are pending: for each of them its number and that
//! of a filling.

use crate::fillings::{FILLINGS, filled};
use crate::random::Random;
use sector_disk::MemoryDisk;
use std::alloc::{AllocError, Global};

/// How many ways there are to fill so many sectors, or some number above `most`.
pub fn ways(sectors: usize, most: u64) -> u64 {
    let mut ways: u64 = 1;
    for _ in 0..sectors.min(24) {
        if ways <= most {
            ways = ways.saturating_mul(FILLINGS as u64);
        }
    }
    ways
}

/// The filling of each sector that a number chooses, by its digits.
pub fn counted(alloc: Global, pending: &[u32], choice: u64) -> Result<Vec<(u32, u32)>, AllocError> {
    let mut fillings = Vec::new(alloc);
    let mut rest = choice;
    for n in pending {
        fillings.push((*n, (rest % FILLINGS as u64) as u32))?;
        rest /= FILLINGS as u64;
    }
    Ok(fillings)
}

/// A random filling of each sector.
pub fn drawn(
    alloc: Global,
    pending: &[u32],
    random: &mut Random,
) -> Result<Vec<(u32, u32)>, AllocError> {
    let mut fillings = Vec::new(alloc);
    for n in pending {
        fillings.push((*n, random.below(FILLINGS)))?;
    }
    Ok(fillings)
}

/// The image that a crash leaves, with these fillings of the pending sectors.
pub fn image(
    alloc: Global,
    disk: &mut MemoryDisk,
    fillings: &[(u32, u32)],
) -> Result<MemoryDisk, AllocError> {
    let mut sectors = Vec::new(alloc);
    for (n, filling) in fillings {
        let bytes = filled(disk, *n, *filling);
        sectors.push((*n, bytes))?;
    }
    disk.crash(alloc, &sectors)
}
