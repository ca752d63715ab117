//! What is in memory of characters of which the first stand on a disk.
ghost use Rattle.std.specs.Prelude.{◌≡◌, ◌+◌, ◌*◌, ◌/◌, ◌%◌, ◌≤◌, length, drop, true};
ghost use Rattle.std.specs.NonZero.{non_zero_usize_get};
ghost use Rattle.sector_disk.specs.declared.disk.TheConstants.{SECTOR_BYTES};
ghost use Rattle.char_file.specs.declared.source.TheConstants.{MOST_CHARACTERS};
ghost use Rattle.char_pages.specs.declared.pages.TheConstants.{CACHED_SECTORS};
ghost use Rattle.char_pages.specs.declared.occurrences.TheConstants.{COUNTED_SECTORS};
ghost use Rattle.char_pages.specs.Cached.{AreBelow};
ghost use Rattle.char_pages.specs.Found.{AreKnownBelow};

use crate::cached::{Cache, byte_of, count_in, sector_of};
use crate::occurrences::Occurrences;
use crate::part::Part;
use char_file::{MOST_CHARACTERS, NoMemory, count_range};
use lru::LruCache;
use sector_disk::{Disk, Fault, SECTOR_BYTES};
use std::alloc::Global;
use std::num::NonZeroUsize;

/// How many sectors of the disk are in memory at most.
pub const CACHED_SECTORS: u32 = 64;

/// Characters of which the first fill whole sectors of a disk. The others are in memory, and so are those sectors that
/// were read last. It holds no disk: a call that reads is given it.
#[derive(Drop)]
pub struct Pages {
    /// The first of the sectors on the disk.
    base: u32,

    /// How many characters stand on the disk.
    saved: u32,

    /// The characters after them.
    rest: Vec<u8>,

    /// Sectors that were read from the disk.
    cache: Cache,

    /// Where the byte that was counted last occurs in sectors of the disk.
    occurrences: Occurrences,

    /// Whether all characters were exchanged since the disk was said to hold some.
    renewed: bool,
    ghost whole: { saved % SECTOR_BYTES ≡ 0 },
    ghost few: { saved + length rest.items ≤ MOST_CHARACTERS },
    ghost room: { cache.cap ≡ CACHED_SECTORS },
    ghost below: { AreBelow base (saved / SECTOR_BYTES) cache.entries },
    ghost known: { AreKnownBelow (saved / SECTOR_BYTES) occurrences },
    ghost anew: { renewed ≡ true → saved ≡ 0 },
}

/// How many sectors a cache takes.
fn capacity() -> NonZeroUsize
    ensures { non_zero_usize_get result ≡ CACHED_SECTORS }
{
    match NonZeroUsize::new(CACHED_SECTORS as usize) {
        Some(n) => n,
        None => unreachable!(),
    }
}

/// Takes the first n bytes away, with no memory for it.
fn drop_front(bytes: &mut Vec<u8>, n: usize)
    requires { n ≤ length bytes.old.items }
    ensures { bytes.new.items ≡ drop n bytes.old.items }
{
    let left = bytes.len() - n;
    bytes.copy_within(n.., 0);
    bytes.truncate(left);
}

impl Pages {
    ghost use Rattle.std.specs.Prelude.{◌-◌, ◌<◌, ◌++◌, [], get_or, IfOk, IfSome, OnOk, OnErr, false};
    ghost use Rattle.sector_disk.specs.Trail.{Content, now};
    ghost use Rattle.char_pages.specs.Cached.{IsCountIn};
    ghost use Rattle.char_pages.specs.Ground.{OnlyLooked};
    ghost use Rattle.char_pages.specs.Pages.{base_of, saved_of, saved_sectors, rest_of, many_of, cached_of, held_in};
    ghost use Rattle.char_pages.specs.Pages.{renewed_of};
    ghost use Rattle.char_pages.specs.Pages.{paged_characters, IsTrueOf, KeepsRead};
    ghost use Rattle.char_file.specs.Source.{IsCountedFrom};

    /// The first `saved` characters stand on a disk from sector `base` on, and `tail` are the others. No sector is in
    /// memory yet. `NoMemory`: an allocation was refused.
    pub fn new(alloc: Global, base: u32, saved: u32, tail: &[u8]) -> Result<Pages, NoMemory>
        requires whole { saved % SECTOR_BYTES ≡ 0 }
        requires few { saved + length tail.now ≤ MOST_CHARACTERS }
        ensures base { IfOk result (λ p. base_of p ≡ base) }
        ensures saved { IfOk result (λ p. saved_of p ≡ saved) }
        ensures rest { IfOk result (λ p. rest_of p ≡ tail.now) }
        ensures cached { IfOk result (λ p. cached_of p ≡ []) }
        ensures told { IfOk result (λ p. (c : Content) → IsTrueOf c p) }
        ensures renewed { IfOk result (λ p. renewed_of p ≡ false) }
    {
        let cache = LruCache::new(alloc, capacity())?;
        let mut rest = Vec::new(alloc);
        rest.extend_from_slice(tail)?;
        Ok(Pages {
            base,
            saved,
            rest,
            cache,
            occurrences: Occurrences::new(alloc),
            renewed: false,
        })
    }

    /// How many characters there are.
    pub fn len(&self) -> u32
        ensures count { result ≡ many_of self.now }
        ensures most { result ≤ MOST_CHARACTERS }
    {
        self.saved + self.rest.len() as u32
    }

    /// How many sectors of the disk hold characters.
    pub fn saved_sectors(&self) -> u32
        ensures { result ≡ saved_sectors self.now }
    {
        self.saved / SECTOR_BYTES
    }

    /// How many bytes are in memory: the characters that aren't on the disk, the sectors that were read and are still
    /// there, and two for each place at which the byte that was counted last is known to stand. They are few: beside
    /// the characters 64 sectors at most, and such places in 256 sectors.
    pub fn held(&self) -> u32
        ensures held { result ≡ held_in self.now }
        ensures few { result ≤ many_of self.now - saved_of self.now
            + SECTOR_BYTES * CACHED_SECTORS + 2 * SECTOR_BYTES * COUNTED_SECTORS }
    {
        let counted = 2 * self.occurrences.held();
        self.rest.len() as u32 + SECTOR_BYTES * self.cache.len() as u32 + counted
    }

    /// The characters that aren't on the disk.
    pub fn rest(&self) -> &[u8]
        ensures { result.now ≡ rest_of self.now }
    {
        &self.rest
    }

    /// Whether all characters were exchanged since the pages were made, or were last said to stand on the disk. If so
    /// none stands there.
    pub fn renewed(&self) -> bool
        ensures renewed { result ≡ renewed_of self.now }
        ensures none_saved { renewed_of self.now ≡ true → saved_of self.now ≡ 0 }
    {
        self.renewed
    }

    /// The first `saved` characters stand on the disk by now, from sector `base` on: those of them that were in memory
    /// are given up. It takes no memory. The sectors may only be others than before where no character stood on the
    /// disk.
    pub fn settle(&mut self, base: u32, saved: u32)
        requires whole { saved % SECTOR_BYTES ≡ 0 }
        requires more { (saved_of self.old ≤ saved) × (saved ≤ many_of self.old) }
        requires place { 0 < saved_of self.old → base ≡ base_of self.old }
        ensures base { base_of self.new ≡ base }
        ensures saved { saved_of self.new ≡ saved }
        ensures rest { rest_of self.new ≡ drop (saved - saved_of self.old) (rest_of self.old) }
        ensures read { KeepsRead self.old self.new }
        ensures renewed { renewed_of self.new ≡ false }
    {
        let gone = (saved - self.saved) as usize;
        drop_front(&mut self.rest, gone);
        self.base = base;
        self.saved = saved;
        self.renewed = false;
    }

    /// The character at an offset, with the disk on which the first ones stand. `Fault`: the disk failed.
    pub(crate) fn char_over<D: Disk>(&mut self, disk: &mut D, offset: u32) -> Result<u8, Fault>
        requires on_disk { base_of self.old + saved_sectors self.old ≤ D.size disk.old }
        requires within { offset < many_of self.old }
        ensures value { IfOk result (λ byte. D.honest disk.old
            → IsTrueOf (now (D.trail disk.old)).reads self.old
            → byte ≡ get_or (paged_characters (now (D.trail disk.old)).reads self.old) offset 0) }
        ensures reads { OnlyLooked D.Disk result disk.old disk.new self.old self.new }
    {
        if offset < self.saved {
            let _ = disk.sectors(); // it is below 2 ^ 32, and so is each sector's number
            let sector = self.base + offset / SECTOR_BYTES;
            let at = (offset % SECTOR_BYTES) as usize;
            byte_of(disk, &mut self.cache, sector, at)
        } else {
            let at = (offset - self.saved) as usize;
            Ok(self.rest[at])
        }
    }

    /// Of the characters from an offset on, `most` at most, with the disk on which the first ones stand: how many were
    /// looked at, which stand in one sector or in memory, and how many of these are the wanted byte. `Fault`: the disk
    /// failed.
    pub(crate) fn count_over<D: Disk>(
        &mut self,
        disk: &mut D,
        offset: u32,
        most: u32,
        wanted: u8,
    ) -> Result<(u32, u32), Fault>
        requires on_disk { base_of self.old + saved_sectors self.old ≤ D.size disk.old }
        requires some { 0 < most }
        requires within { offset + most ≤ many_of self.old }
        ensures looked { IfOk result (IsCountedFrom
            (D.honest disk.old × IsTrueOf (now (D.trail disk.old)).reads self.old)
            (paged_characters (now (D.trail disk.old)).reads self.old) offset most wanted) }
        ensures reads { OnlyLooked D.Disk result disk.old disk.new self.old self.new }
    {
        if offset >= self.saved {
            let at = (offset - self.saved) as usize;
            return Ok((most, count_range(&self.rest, at, most, wanted)));
        }
        let at = offset % SECTOR_BYTES;
        let few = most.min(SECTOR_BYTES - at);
        let found = self.count_in_sector(disk, offset / SECTOR_BYTES, Part { at, few, wanted })?;
        Ok((few, found))
    }

    /// How many of so many characters from an offset on are the wanted byte, where they stand in one sector on the disk
    /// of which that is known.
    pub(crate) fn known_over(&self, offset: u32, few: u32, wanted: u8) -> Option<u32>
        requires { 0 < few }
        ensures { IfSome result (λ found. (c : Content)
            → IsCountedFrom (IsTrueOf c self.now) (paged_characters c self.now) offset few wanted
            (few, found)) }
    {
        let at = offset % SECTOR_BYTES;
        if few > SECTOR_BYTES - at {
            return None;
        }
        let n = (offset / SECTOR_BYTES) as usize;
        let found = self.occurrences.count(n, Part { at, few, wanted })?;
        Some(found)
    }

    /// How often the wanted byte occurs in a part of the n-th of the sectors on the disk. `Fault`: the disk failed.
    fn count_in_sector<D: Disk>(&mut self, disk: &mut D, n: u32, part: Part) -> Result<u32, Fault>
        requires on_disk { base_of self.old + saved_sectors self.old ≤ D.size disk.old }
        requires within { n < saved_sectors self.old }
        ensures count { IfOk result (λ found. D.honest disk.old
            → IsTrueOf (now (D.trail disk.old)).reads self.old
            → IsCountIn ((now (D.trail disk.old)).reads (base_of self.old + n)) part found) }
        ensures most { IfOk result (λ found. found ≤ part.few) }
        ensures reads { OnlyLooked D.Disk result disk.old disk.new self.old self.new }
    {
        match self.occurrences.count(n as usize, part) {
            Some(found) => Ok(found),
            None => self.count_anew(disk, n, part),
        }
    }

    /// The same of a sector of which that isn't known; from then on it is, if there is memory for it. It is compiled
    /// apart, so that a count in another sector takes no room for one on the stack.
    #[inline(never)]
    fn count_anew<D: Disk>(&mut self, disk: &mut D, n: u32, part: Part) -> Result<u32, Fault>
        requires on_disk { base_of self.old + saved_sectors self.old ≤ D.size disk.old }
        requires within { n < saved_sectors self.old }
        ensures count { IfOk result (λ found. D.honest disk.old
            → IsTrueOf (now (D.trail disk.old)).reads self.old
            → IsCountIn ((now (D.trail disk.old)).reads (base_of self.old + n)) part found) }
        ensures most { IfOk result (λ found. found ≤ part.few) }
        ensures reads { OnlyLooked D.Disk result disk.old disk.new self.old self.new }
    {
        let _ = disk.sectors(); // it is below 2 ^ 32, and so is each sector's number
        let sector = sector_of(disk, &mut self.cache, self.base + n)?;
        self.occurrences.note(n as usize, part.wanted, &sector);
        Ok(count_in(&sector, part))
    }

    /// Adds characters at the end, in memory, and returns the offset of the first of them. `NoMemory`: none was added.
    pub(crate) fn append(&mut self, bytes: &[u8]) -> Result<u32, NoMemory>
        requires { many_of self.old + length bytes.now ≤ MOST_CHARACTERS }
        ensures offset { IfOk result (λ offset. offset ≡ many_of self.old) }
        ensures added { OnOk result (rest_of self.new ≡ rest_of self.old ++ bytes.now) }
        ensures refused { OnErr result (rest_of self.new ≡ rest_of self.old) }
        ensures base { base_of self.new ≡ base_of self.old }
        ensures counted { saved_of self.new ≡ saved_of self.old }
        ensures read { KeepsRead self.old self.new }
        ensures renewed { renewed_of self.new ≡ renewed_of self.old }
    {
        let offset = self.len();
        self.rest.extend_from_slice(bytes)?;
        Ok(offset)
    }

    /// Exchanges all characters for these, which are all in memory then. The sectors that were read are given up. It
    /// takes no memory.
    pub(crate) fn renew(&mut self, made: Vec<u8>)
        requires { length made.items ≤ MOST_CHARACTERS }
        ensures base { base_of self.new ≡ base_of self.old }
        ensures counted { saved_of self.new ≡ 0 }
        ensures rest { rest_of self.new ≡ made.items }
        ensures cached { cached_of self.new ≡ [] }
        ensures told { (c : Content) → IsTrueOf c self.new }
        ensures renewed { renewed_of self.new ≡ true }
    {
        self.cache.clear();
        self.occurrences.clear();
        self.saved = 0;
        self.rest = made;
        self.renewed = true;
    }
}
