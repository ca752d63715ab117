//! Where a byte occurs in sectors, so that it is counted in a part of one without its bytes.
ghost use Rattle.std.specs.Prelude.{◌≡◌, ℕ, ◌+◌, ◌^◌, ◌<◌, ◌≤◌, [], ◌∷◌, ◌++◌, length, count_by, max};
ghost use Rattle.std.specs.Prelude.{if◌then◌else◌, ◌*◌, IfOk, IfSome, OnOk};
ghost use Rattle.sector_disk.specs.declared.disk.TheConstants.{SECTOR_BYTES};
ghost use Rattle.sector_disk.specs.Trail.{Content};
ghost use Rattle.char_pages.specs.Cached.{IsCountIn};
ghost use Rattle.char_pages.specs.declared.occurrences.TheConstants.{COUNTED_SECTORS};
ghost use Rattle.char_pages.specs.Occurrences.{is_between, AreFew, AreIndices, EachKnown, indices_in, indices_of};

use crate::part::Part;
use char_file::NoMemory;
use sector_disk::{SECTOR_BYTES, Sector};
use std::alloc::Global;

/// Of how many sectors at most it is known where a byte occurs.
pub const COUNTED_SECTORS: u32 = 256;

/// Where a byte occurs in a sector: the sector's number in its area, and the indices of the byte there, in order.
#[derive(Drop)]
pub(crate) struct Counted {
    pub(crate) number: usize,
    pub(crate) indices: Vec<u16>,
}

/// Where one byte occurs in some sectors of an area. It is the byte that was counted last. A sector has its place among
/// 256 by its number, and the one that was counted last has it.
#[derive(Drop)]
pub(crate) struct Occurrences {
    alloc: Global,
    wanted: u8,

    /// The sectors that were counted, each in its place.
    known: Vec<Option<Counted>>,
    ghost real: { EachKnown (λ n indices. AreFew indices) known.items },
    ghost bound: { length known.items ≤ COUNTED_SECTORS },
}

/// The place of a sector.
fn place_of(n: usize) -> usize
    ensures least { result ≤ n }
    ensures most { result < COUNTED_SECTORS }
{
    n % COUNTED_SECTORS as usize
}

/// How many indices are known of a sector.
fn many_in(known: &Option<Counted>) -> u32
    requires { IfSome known.now (λ counted. length counted.indices.items < 2 ^ 32) }
    ensures { result ≡ indices_of known.now }
{
    match known {
        Some(counted) => counted.indices.len() as u32,
        None => 0,
    }
}

/// Adds an index, if the wanted byte is there. `NoMemory`: an allocation was refused.
fn note_if(found: &mut Vec<u16>, index: u16, is_there: bool) -> Result<(), NoMemory>
    ensures { OnOk result (found.new.items
        ≡ found.old.items ++ (if is_there then index ∷ [] else [])) }
{
    if is_there {
        found.push(index)?;
    }
    Ok(())
}

/// The indices of a byte in a sector. `NoMemory`: an allocation was refused.
fn occurrences_in(alloc: Global, sector: &Sector, wanted: u8) -> Result<Vec<u16>, NoMemory>
    ensures { IfOk result (λ found. AreIndices wanted sector.now found.items) }
{
    let mut found = Vec::new(alloc);
    for at in 0..SECTOR_BYTES {
        note_if(&mut found, at as u16, sector[at as usize] == wanted)?;
    }
    Ok(found)
}

/// Whether an index is one of those from `from` up to before `to`.
fn is_between(from: u32, to: u32, index: u16) -> bool
    ensures { result ≡ is_between from to index }
{
    let index = u32::from(index);
    if index < from { false } else { index < to }
}

/// How many of the indices are between these. It is compiled apart, and as what is seldom called, so that a count among
/// no index stays short.
#[inline(never)]
#[cold]
fn count_between(indices: &[u16], from: u32, to: u32) -> u32
    requires { length indices.now < 2 ^ 32 }
    ensures { result ≡ count_by (is_between from to) indices.now }
{
    let mut found = 0;
    for index in indices {
        found += u32::from(is_between(from, to, *index));
    }
    found
}

impl Occurrences {
    ghost use Rattle.char_pages.specs.Found.{AreFound, AreKnownBelow};

    /// Of no sector yet. It takes no memory.
    pub(crate) fn new(alloc: Global) -> Occurrences
        ensures { result.known.items ≡ [] }
    {
        Occurrences {
            alloc,
            wanted: 0,
            known: Vec::new(alloc),
        }
    }

    /// How often the wanted byte occurs in a part of sector n, if that is known.
    pub(crate) fn count(&self, n: usize, part: Part) -> Option<u32>
        ensures count { IfSome result (λ found. (c : Content) (base : ℕ) → AreFound c base self.now
            → IsCountIn (c (base + n)) part found) }
        ensures most { IfSome result (λ found. found ≤ part.few) }
        ensures below { IfSome result (λ found. (many : ℕ) → AreKnownBelow many self.now
            → n < many) }
    {
        if part.wanted != self.wanted {
            return None;
        }
        let indices = self.known_of(n)?;
        if indices.is_empty() {
            return Some(0);
        }
        Some(count_between(indices, part.at, part.at + part.few))
    }

    /// The indices in sector n, if they are known.
    fn known_of(&self, n: usize) -> Option<&[u16]>
        ensures found { IfSome result (λ indices. (c : Content) (base : ℕ)
            → AreFound c base self.now → AreIndices self.now.wanted (c (base + n)) indices.now) }
        ensures few { IfSome result (λ indices. AreFew indices.now) }
        ensures below { IfSome result (λ indices. (many : ℕ) → AreKnownBelow many self.now
            → n < many) }
    {
        match self.known.get(place_of(n))? {
            Some(counted) if counted.number == n => Some(counted.indices.as_slice()),
            _ => None,
        }
    }

    /// A byte is wanted from now on. Of another one than before nothing is known yet.
    fn want(&mut self, wanted: u8)
        ensures wanted { self.new.wanted ≡ wanted }
        ensures found { (c : Content) (base : ℕ) → AreFound c base self.old
            → AreFound c base self.new }
        ensures below { (many : ℕ) → AreKnownBelow many self.old → AreKnownBelow many self.new }
    {
        if wanted != self.wanted {
            self.known.clear();
            self.wanted = wanted;
        }
    }

    /// Makes place n, if there is memory for it.
    fn reach(&mut self, n: usize)
        requires { n < COUNTED_SECTORS }
        ensures wanted { self.new.wanted ≡ self.old.wanted }
        ensures found { (c : Content) (base : ℕ) → AreFound c base self.old
            → AreFound c base self.new }
        ensures below { (many : ℕ) → AreKnownBelow many self.old → AreKnownBelow many self.new }
    {
        while self.known.len() <= n {
            if self.known.push(None).is_err() {
                return;
            }
        }
    }

    /// Notes where a byte occurs in sector n, if there is memory for it.
    pub(crate) fn note(&mut self, n: usize, wanted: u8, sector: &Sector)
        ensures found { (c : Content) (base : ℕ) → AreFound c base self.old
            → sector.now ≡ c (base + n) → AreFound c base self.new }
        ensures below { (many : ℕ) → n < many → AreKnownBelow many self.old
            → AreKnownBelow many self.new }
    {
        self.want(wanted);
        let Ok(indices) = occurrences_in(self.alloc, sector, wanted) else {
            return;
        };
        let place = place_of(n);
        self.reach(place);
        if place < self.known.len() {
            self.known[place] = Some(Counted { number: n, indices });
        }
    }

    /// How many indices are in memory.
    pub(crate) fn held(&self) -> u32
        ensures held { result ≡ indices_in self.now.known.items }
        ensures few { result ≤ SECTOR_BYTES * COUNTED_SECTORS }
    {
        let mut held = 0;
        for known in &self.known {
            held += many_in(known);
        }
        held
    }

    /// Forgets all that is known.
    pub(crate) fn clear(&mut self)
        ensures { self.new.known.items ≡ [] }
    {
        self.known.clear();
    }
}
