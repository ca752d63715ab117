//! Moments that are kept in memory, so that others are worked out from the nearest one.
ghost use Rattle.std.specs.Prelude.{◌≡◌, ◌<◌, length, IfOk, IfSome, OnOk};
ghost use Rattle.past_moments.specs.Moments.{AreMarksOf, IsMarkOf, IsPagePlace};

use crate::extent::Place;
use desk_journal::{Error, Store};
use desk_past::copy_of;
use sector_disk::{Disk, MemoryDisk};
use std::alloc::{AllocError, Global};

/// How many marks there are at most between the ends of a past.
const MOST_MARKS: u64 = 32;

/// How many deeds two marks are apart at least.
const LEAST_SPACING: u64 = 1024;

/// A moment in memory behind which a page begins.
#[derive(Drop)]
pub struct Mark {
    pub place: Place,
    pub shown: Store<MemoryDisk>,
}

impl Mark {
    /// The same once more.
    ///
    /// Errors: those of `copy_of`.
    fn copied(&mut self, alloc: Global) -> Result<Mark, Error>
        ensures place { self.new.place ≡ self.old.place }
        ensures shown { self.new.shown.desktop ≡ self.old.shown.desktop }
        ensures same_place { IfOk result (λ copy. copy.place ≡ self.old.place) }
        ensures same_shown { IfOk result (λ copy. copy.shown.desktop ≡ self.old.shown.desktop) }
    {
        let shown = copy_of(alloc, &mut self.shown)?;
        Ok(Mark {
            place: self.place,
            shown,
        })
    }
}

/// Some of them, and the one from which a moment was worked out last.
#[derive(Drop)]
pub struct Marks {
    marks: Vec<Mark>,
    near: Option<Mark>,
    spacing: u64,
}

impl Marks {
    /// No mark yet, of a past of so many deeds.
    pub fn new<D: Disk>(alloc: Global, _store: &Store<D>, deeds: u64) -> Marks
        ensures { AreMarksOf D.Disk result _store.now }
    {
        Marks {
            marks: Vec::new(alloc),
            near: None,
            spacing: (deeds / MOST_MARKS).max(LEAST_SPACING),
        }
    }

    /// A mark more.
    pub fn add<D: Disk>(&mut self, _store: &Store<D>, mark: Mark) -> Result<(), AllocError>
        ensures { OnOk result (AreMarksOf D.Disk self.old _store.now
            → IsMarkOf D.Disk mark _store.now → AreMarksOf D.Disk self.new _store.now) }
    {
        self.marks.push(mark)?;
        Ok(())
    }

    /// Which mark is the last one at or before moment `k`, but for the nearest one.
    fn best(&self, k: u64) -> Option<usize>
        ensures { IfSome result (λ i. i < length self.now.marks.items) }
    {
        let mut best = None;
        let mut last = 0;
        for (i, mark) in self.marks.iter().enumerate() {
            if last <= mark.place.k && mark.place.k <= k {
                best = Some(i);
                last = mark.place.k;
            }
        }
        best
    }

    /// Whether the nearest mark is at or before moment `k`, and not before the other moment.
    fn is_near(&self, found: u64, k: u64) -> bool {
        match &self.near {
            None => false,
            Some(near) => found <= near.place.k && near.place.k <= k,
        }
    }

    /// Where the last mark at or before moment `k` is. None where none is kept there.
    pub fn place_before<D: Disk>(&self, _store: &Store<D>, k: u64) -> Option<Place>
        ensures { IfSome result (λ place. AreMarksOf D.Disk self.now _store.now
            → IsPagePlace D.Disk place _store.now) }
    {
        let best = self.best(k)?;
        let place = self.marks[best].place;
        match &self.near {
            Some(near) if place.k <= near.place.k && near.place.k <= k => Some(near.place),
            _ => Some(place),
        }
    }

    /// A copy of the last mark at or before moment `k`. None where none is kept there.
    ///
    /// Errors: those of `copy_of`.
    pub fn copy_before<D: Disk>(
        &mut self,
        alloc: Global,
        _store: &Store<D>,
        k: u64,
    ) -> Result<Option<Mark>, Error>
        ensures kept { AreMarksOf D.Disk self.old _store.now
            → AreMarksOf D.Disk self.new _store.now }
        ensures mark { IfOk result (λ found. IfSome found (λ mark.
            AreMarksOf D.Disk self.old _store.now → IsMarkOf D.Disk mark _store.now)) }
    {
        let Some(best) = self.best(k) else {
            return Ok(None);
        };
        if self.is_near(self.marks[best].place.k, k) {
            return self.copy_near(alloc, _store);
        }
        let mark = &mut self.marks[best];
        Ok(Some(mark.copied(alloc)?))
    }

    /// A copy of the nearest mark.
    ///
    /// Errors: those of `copy_of`.
    fn copy_near<D: Disk>(
        &mut self,
        alloc: Global,
        _store: &Store<D>,
    ) -> Result<Option<Mark>, Error>
        ensures kept { AreMarksOf D.Disk self.old _store.now
            → AreMarksOf D.Disk self.new _store.now }
        ensures mark { IfOk result (λ found. IfSome found (λ mark.
            AreMarksOf D.Disk self.old _store.now → IsMarkOf D.Disk mark _store.now)) }
    {
        match &mut self.near {
            None => Ok(None),
            Some(near) => Ok(Some(near.copied(alloc)?)),
        }
    }

    /// Whether no mark is kept at moment `k`, nor as near before it as marks are kept.
    fn is_far(&self, k: u64) -> bool {
        match self.best(k) {
            None => true,
            Some(best) => k.saturating_sub(self.marks[best].place.k) >= self.spacing,
        }
    }

    /// Keeps a mark where no other one is near.
    ///
    /// Errors: those of `copy_of`; `NoMemory`.
    pub fn leave<D: Disk>(
        &mut self,
        alloc: Global,
        _store: &Store<D>,
        mark: &mut Mark,
    ) -> Result<(), Error>
        ensures kept { OnOk result (AreMarksOf D.Disk self.old _store.now
            → IsMarkOf D.Disk mark.old _store.now → AreMarksOf D.Disk self.new _store.now) }
        ensures place { mark.new.place ≡ mark.old.place }
        ensures shown { mark.new.shown.desktop ≡ mark.old.shown.desktop }
    {
        if !self.is_far(mark.place.k) {
            return Ok(());
        }
        let copy = mark.copied(alloc)?;
        Ok(self.add(_store, copy)?)
    }

    /// Keeps a mark as the nearest one.
    ///
    /// Errors: those of `copy_of`.
    pub fn keep_near<D: Disk>(
        &mut self,
        alloc: Global,
        _store: &Store<D>,
        mark: &mut Mark,
    ) -> Result<(), Error>
        ensures kept { OnOk result (AreMarksOf D.Disk self.old _store.now
            → IsMarkOf D.Disk mark.old _store.now → AreMarksOf D.Disk self.new _store.now) }
        ensures place { mark.new.place ≡ mark.old.place }
        ensures shown { mark.new.shown.desktop ≡ mark.old.shown.desktop }
    {
        if self.is_near(mark.place.k, mark.place.k) {
            return Ok(());
        }
        self.near = Some(mark.copied(alloc)?);
        Ok(())
    }
}
