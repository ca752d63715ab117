//! Documents that are brought into a store while its disk stops, at one call after another.

use crate::images::{drawn, image};
use crate::random::Random;
use crate::reopening::{Calls, recovered};
use desk_journal::Document;
use event_bytes::Name;
use oberon_main::{Error, Store};
use sector_disk::{Fuse, MemoryDisk};
use std::alloc::{AllocError, Global};
use store_layout::STORE_SECTORS;

/// How many bytes each document has.
const LONG: usize = 80_000;

/// More calls than opening a store and bringing the documents makes of its disk.
const MOST_CALLS: u64 = 8_192;

/// How many images of each stop are opened.
const IMAGES: u32 = 3;

/// What was found in the images that the stops left.
#[derive(Drop)]
pub struct Brought {
    /// At how many calls bringing was stopped, or before how many images opening was.
    pub stops: u64,
    pub second_stops: u64,
    /// How many images have none of the documents, all of them, and anything else.
    pub none: u64,
    pub all: u64,
    pub wrong: u64,
}

/// A document of so many bytes, which go on from a number.
fn document(alloc: Global, name: &[u8], first: usize, len: usize) -> Result<Document, AllocError> {
    let mut bytes = Vec::with_capacity(alloc, len)?;
    for i in 0..len {
        bytes.push((32 + first.wrapping_add(i.wrapping_mul(7)) % 95) as u8)?;
    }
    match Name::new(name) {
        Some(name) => Document::new(name, bytes).ok_or(AllocError),
        None => Err(AllocError),
    }
}

/// Whether the store has just that document.
fn has(alloc: Global, store: &mut Store<MemoryDisk>, document: &Document) -> bool {
    let name = document.name();
    match store.file(alloc, name) {
        Ok(Some(characters)) => {
            let bytes = document.as_bytes();
            characters.len() == bytes.len()
                && characters.iter().zip(bytes).all(|(c, byte)| c.0 == *byte)
        }
        _ => false,
    }
}

/// How many of the documents the store on a disk has; more where it doesn't open.
fn found(alloc: Global, disk: MemoryDisk, documents: &[Document]) -> usize {
    let Ok(mut store) = Store::open(alloc, disk) else {
        return usize::MAX;
    };
    let mut count: usize = 0;
    for document in documents {
        if has(alloc, &mut store, document) {
            count = count.saturating_add(1);
        }
    }
    count
}

/// Opens images that a crash of the disk may leave, each again and again with second stops, and counts what they have.
/// Where the documents were acknowledged, an image without them is wrong.
fn judge(
    alloc: Global,
    disk: MemoryDisk,
    documents: &[Document],
    is_done: bool,
    random: &mut Random,
    brought: &mut Brought,
) -> Result<(), AllocError> {
    let mut disk = disk;
    let pending = disk.pending_sectors(alloc)?;
    for _ in 0..IMAGES {
        let fillings = drawn(alloc, &pending, random)?;
        let left = image(alloc, &mut disk, &fillings)?;
        let recovery = recovered(alloc, left, Calls::few(), random)?;
        brought.second_stops = brought.second_stops.saturating_add(recovery.stops);
        let is_told = recovery.is_told;
        match found(alloc, recovery.disk, documents) {
            0 if is_told && !is_done => brought.none = brought.none.saturating_add(1),
            3 if is_told => brought.all = brought.all.saturating_add(1),
            _ => brought.wrong = brought.wrong.saturating_add(1),
        }
    }
    Ok(())
}

/// A store with a document that will be replaced.
fn begun(alloc: Global) -> Result<MemoryDisk, Error> {
    let old = [document(alloc, b"A.Text", 1, 3000)?];
    let Ok(disk) = Store::format(MemoryDisk::new(alloc, STORE_SECTORS)?) else {
        return Err(Error::Fault);
    };
    let Ok(mut store) = Store::open(alloc, disk) else {
        return Err(Error::Fault);
    };
    store.bring(alloc, &old)?;
    Ok(store.close())
}

/// Brings three documents of 80,000 bytes into a store, stopped at each call of the disk, and looks at what crashes then
/// may leave.
pub fn stopped_bringing(alloc: Global, seed: u32) -> Result<Brought, Error> {
    let mut random = Random::new(seed);
    let disk = begun(alloc)?;
    let documents = [
        document(alloc, b"One.Text", 2, LONG)?,
        document(alloc, b"Two.Text", 3, LONG)?,
        document(alloc, b"A.Text", 4, LONG)?,
    ];
    let mut brought = Brought {
        stops: 0,
        second_stops: 0,
        none: 0,
        all: 0,
        wrong: 0,
    };
    for call in 0..MOST_CALLS {
        let copy = disk.crash(alloc, &[])?;
        let Ok(mut store) = Store::open(alloc, Fuse::new(copy, call)) else {
            continue;
        };
        let is_done = store.bring(alloc, &documents).is_ok();
        let left = store.close().into_inner();
        brought.stops = brought.stops.saturating_add(1);
        judge(alloc, left, &documents, is_done, &mut random, &mut brought)?;
        if is_done {
            return Ok(brought);
        }
    }
    Err(Error::Fault)
}
