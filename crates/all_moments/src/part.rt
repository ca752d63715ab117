//! A part of a past that isn't in use, in memory.
ghost use Rattle.std.specs.Prelude.{◌≡◌, ◌≢◌, ◌-◌, ◌≤◌, ℕ, false, suc, true, IfErr, IfOk, IfSome, OnOk};
ghost use Rattle.past_pages.specs.Reading.{IsOnlyReadFrom};
ghost use Rattle.past_moments.specs.Moments.{AreMomentsOf, IsDesktopAt};
ghost use Rattle.past_moments.specs.Seeking.{IsBefore, IsSoughtOf};
ghost use Rattle.all_moments.specs.Parts.{IsEdge, IsFormerPart, IsMadeOf, IsPartFront, IsToldWithin, StaysPart, oldest_words};

use desk_journal::{Error, Store};
use former_stores::former_store;
use past_moments::{Look, Moments, Sought, of_memory};
use sector_disk::{Disk, MemoryDisk};
use std::alloc::Global;

/// Where a part begins: the sector of its start, and its oldest moment.
#[derive(Clone, Copy, Debug, PartialEq, Eq)]
pub(crate) struct Front {
    pub base: u32,
    pub first: u64,
}

/// What is known of the part before another one.
#[derive(Clone, Copy, Debug, PartialEq, Eq)]
pub(crate) enum Edge {
    /// Nothing yet.
    Unknown,
    /// That none stands.
    Absent,
    /// That it can't be read.
    Unread,
}

impl Edge {
    /// What is said of the oldest moment of a part, where that is known of the part before it.
    pub fn words(self) -> &'static [u8]
        ensures { result.now ≡ oldest_words self }
    {
        match self {
            Edge::Absent => b"the oldest moment",
            Edge::Unknown | Edge::Unread => b"the oldest moment that can be read",
        }
    }
}

/// A former part in memory, its moments, where it begins, and its last moment.
#[derive(Drop)]
pub(crate) struct FormerPart {
    pub store: Store<MemoryDisk>,
    pub moments: Moments,
    pub front: Front,
    pub last: u64,
}

/// The part before one that begins there, up to whose oldest moment it reaches; or why it isn't found.
///
/// Errors: those of `former_store` and of `Moments::of`.
pub(crate) fn part_before<D: Disk>(
    alloc: Global,
    store: &mut Store<D>,
    behind: Front,
) -> Result<Result<FormerPart, Edge>, Error>
    requires { store.old.must_reopen ≡ false }
    ensures part { IfOk result (λ found. IfOk found (λ part. (n : ℕ)
        → IsPartFront D.Disk n behind store.old
        → IsFormerPart D.Disk (suc n) part store.new)) }
    ensures edge { IfOk result (λ found. IfErr found (λ edge. (n : ℕ)
        → IsPartFront D.Disk n behind store.old → IsEdge D.Disk edge n store.new)) }
    ensures known { IfOk result (λ found. IfErr found (λ edge. edge ≢ Edge.Unknown)) }
    ensures still { IsOnlyReadFrom D.Disk store.old store.new }
{
    store.shows_what_crashes_leave();
    let Some(former) = former_store(alloc, store, behind.base)? else {
        return Ok(Err(Edge::Absent));
    };
    match FormerPart::of(alloc, former, behind)? {
        None => Ok(Err(Edge::Unread)),
        Some(part) => Ok(Ok(part)),
    }
}

/// Whether moments reach from one up to where the part behind them begins.
fn reaches(moments: &Moments, behind: Front) -> bool
    ensures { result ≡ true → (moments.now.extent.last ≡ behind.first)
        × (moments.now.extent.first ≤ behind.first) }
{
    moments.extent.last == behind.first && moments.extent.first <= behind.first
}

impl FormerPart {
    /// The part whose past a store in memory keeps, where the one behind it begins there. None where it can't be read, or
    /// doesn't reach so far.
    ///
    /// Error: `NoMemory`.
    fn of(
        alloc: Global,
        former: Store<MemoryDisk>,
        behind: Front,
    ) -> Result<Option<FormerPart>, Error>
        ensures is { IfOk result (λ found. IfSome found (λ part. IsMadeOf former behind part)) }
    {
        let mut store = former;
        store.shows_what_crashes_leave();
        if store.info().is_err() {
            return Ok(None);
        }
        let Some(moments) = of_memory(Moments::of(alloc, &mut store))? else {
            return Ok(None);
        };
        if !reaches(&moments, behind) {
            return Ok(None);
        }
        Ok(Some(FormerPart {
            front: Front {
                base: moments.extent.base,
                first: moments.extent.first,
            },
            last: behind.first,
            store,
            moments,
        }))
    }

    /// Moment `k` in memory, and the deed that led to it, or that it is the oldest one, where that is known of the part
    /// before. None where the part has no such moment, or where a page is missing.
    ///
    /// Errors: those of `Moments::look_led` and `Moments::look_plain`.
    pub fn look(&mut self, alloc: Global, k: u64, edge: Edge) -> Result<Option<Look>, Error>
        ensures inside { IfOk result (λ found. IfSome found (λ look. k ≤ self.old.last)) }
        ensures shown { IfOk result (λ found. IfSome found (λ look.
            AreMomentsOf ⟦<MemoryDisk as Disk>⟧ self.old.moments self.old.store
            → IsDesktopAt ⟦<MemoryDisk as Disk>⟧ k look.shown.desktop self.new.store)) }
        ensures words { IfOk result (λ found. IfSome found (λ look.
            AreMomentsOf ⟦<MemoryDisk as Disk>⟧ self.old.moments self.old.store
            → IsToldWithin edge k look.words.items self.new.store)) }
        ensures stays { OnOk result (StaysPart self.old self.new) }
    {
        self.store.shows_what_crashes_leave();
        if self.store.info().is_err() {
            return Err(Error::NoMemory);
        }
        if k > self.last {
            return Ok(None);
        }
        if k > self.moments.extent.first {
            return self.moments.look_led(alloc, &mut self.store, k);
        }
        self.moments
            .look_plain(alloc, &mut self.store, k, edge.words())
    }

    /// The moment before the step of a hand that led to moment `k`.
    ///
    /// Errors: those of `Moments::step_back`.
    pub fn step_back(&mut self, alloc: Global, k: u64) -> Result<u64, Error>
        ensures before { IfOk result (λ at. at ≤ k - 1) }
        ensures stays { OnOk result (StaysPart self.old self.new) }
    {
        self.store.shows_what_crashes_leave();
        if self.store.info().is_err() {
            return Err(Error::NoMemory);
        }
        self.moments.step_back(alloc, &mut self.store, k)
    }

    /// The moment behind the step of a hand that was done at moment `k`.
    ///
    /// Errors: those of `Moments::step_forth`.
    pub fn step_forth(&mut self, alloc: Global, k: u64) -> Result<u64, Error>
        ensures behind { IfOk result (λ at. k ≤ at) }
        ensures stays { OnOk result (StaysPart self.old self.new) }
    {
        self.store.shows_what_crashes_leave();
        if self.store.info().is_err() {
            return Err(Error::NoMemory);
        }
        self.moments.step_forth(alloc, &mut self.store, k)
    }

    /// What became of a word up to moment `k`, through a page.
    ///
    /// Errors: those of `Moments::seek_page`.
    pub fn seek_page(&mut self, alloc: Global, k: u64, word: &[u8]) -> Result<Sought, Error>
        ensures before { IfOk result (IsBefore k) }
        ensures sought { IfOk result (λ sought. AreMomentsOf ⟦<MemoryDisk as Disk>⟧
            self.old.moments self.old.store
            → IsSoughtOf ⟦<MemoryDisk as Disk>⟧ k word.now sought self.new.store) }
        ensures stays { OnOk result (StaysPart self.old self.new) }
    {
        self.store.shows_what_crashes_leave();
        if self.store.info().is_err() {
            return Err(Error::NoMemory);
        }
        self.moments.seek_page(alloc, &mut self.store, k, word)
    }
}
