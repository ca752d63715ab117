//! The moments of a past, worked out in memory.
ghost use Rattle.std.specs.Prelude.{◌≡◌, ◌<◌, ◌≤◌, ◌-◌, ℕ, [], ◌∷◌, codes, false, true, length, slice_get, Ok, Some, IfErr, IfOk, IfSome, OnOk};
ghost use Rattle.event_bytes.specs.declared.event.Event.{Event as AnEvent};
ghost use Rattle.desktop_definitions.specs.Step.{step};
ghost use Rattle.past_pages.specs.Reading.{IsOnlyReadFrom};
ghost use Rattle.desk_past.specs.Deeds.{after_deeds, brought};
ghost use Rattle.told_pasts.specs.Words.{event_line, import_line, turn_line};
ghost use Rattle.past_moments.specs.Moments.{AreMomentsOf, GoesFrom, IsDeedOf, IsExtentOf, IsLastOf, IsMarkOf, IsDesktopAt, IsPagePlace, IsSameMoment, IsToldOf};
ghost use Rattle.past_moments.specs.declared.legs.Source.TheVariants as sources;

use crate::extent::{Extent, Place, extent_of};
use crate::legs::{Source, bring, do_all, do_part, last_leg, of_memory};
use crate::marks::{Mark, Marks};
use crate::words::import_words;
use desk_journal::{Document, Error, Store};
use desk_past::{copy_of, moment, present_law};
use event_bytes::Event;
use past_pages::{PageDeeds, copy_in};
use sector_disk::{Disk, MemoryDisk};
use std::alloc::Global;
use store_layout::standing_law;
use told_pasts::{add_lines, none_where_missing};

/// The moments of a past, and those of them that are kept in memory.
#[derive(Drop)]
pub struct Moments {
    pub extent: Extent,
    pub marks: Marks,
}

/// A moment in memory, and what led to it, in words.
#[derive(Drop)]
pub struct Look {
    pub shown: Store<MemoryDisk>,
    pub words: Vec<u8>,
}

/// Moment `k` of the past that lies in the part from sector `base` on, in memory. None where it has none, or none is there.
///
/// Errors: those of `moment`.
fn moment_of<D: Disk>(
    alloc: Global,
    store: &mut Store<D>,
    extent: &Extent,
    k: u64,
) -> Result<Option<Store<MemoryDisk>>, Error>
    requires { store.old.must_reopen ≡ false }
    ensures is { IfOk result (λ found. IfSome found (λ shown. IsExtentOf D.Disk extent.now store.old
        → IsDesktopAt D.Disk k shown.desktop store.old)) }
    ensures still { IsOnlyReadFrom D.Disk store.old store.new }
{
    store.shows_what_crashes_leave();
    none_where_missing(moment(alloc, store, extent.base, k))
}

impl Moments {
    /// Those of the past of a store, of which the oldest one is kept. None where it keeps no past that can be read.
    ///
    /// Errors: those of `extent_of` and `moment`.
    pub fn of<D: Disk>(alloc: Global, store: &mut Store<D>) -> Result<Option<Moments>, Error>
        requires { store.old.must_reopen ≡ false }
        ensures are { IfOk result (λ found. IfSome found (λ moments.
            AreMomentsOf D.Disk moments store.new)) }
        ensures still { IsOnlyReadFrom D.Disk store.old store.new }
    {
        store.shows_what_crashes_leave();
        let Some(extent) = extent_of(alloc, store)? else {
            return Ok(None);
        };
        let Some(start) = extent.start() else {
            return Ok(None);
        };
        let deeds = extent.last.saturating_sub(extent.first);
        let marks = Marks::new(alloc, store, deeds);
        let mut moments = Moments { extent, marks };
        match moments.add_mark(alloc, store, start) {
            Ok(true) => Ok(Some(moments)),
            Ok(false) => Ok(None),
            Err(error) => Err(error),
        }
    }

    /// Keeps the moment of a place, as the whole past gives it. False where it has no such moment.
    ///
    /// Errors: those of `moment`.
    fn add_mark<D: Disk>(
        &mut self,
        alloc: Global,
        store: &mut Store<D>,
        place: Place,
    ) -> Result<bool, Error>
        requires { store.old.must_reopen ≡ false }
        ensures are { OnOk result (AreMomentsOf D.Disk self.old store.old
            → IsPagePlace D.Disk place store.old → AreMomentsOf D.Disk self.new store.new) }
        ensures still { IsOnlyReadFrom D.Disk store.old store.new }
    {
        store.shows_what_crashes_leave();
        match moment_of(alloc, store, &self.extent, place.k)? {
            None => Ok(false),
            Some(shown) => {
                self.marks.add(store, Mark { place, shown })?;
                Ok(true)
            }
        }
    }

    /// A moment in memory from which no turn leads to moment `k`: one that is kept, the one behind the last turn, or that of the
    /// last page with a desktop. None where a page is missing.
    ///
    /// Errors: those of `copy_before`, `last_leg`, `moment` and `copy_in`.
    fn unturned_before<D: Disk>(
        &mut self,
        alloc: Global,
        store: &mut Store<D>,
        k: u64,
    ) -> Result<Option<Mark>, Error>
        requires { store.old.must_reopen ≡ false }
        ensures mark { IfOk result (λ found. IfSome found (λ mark.
            AreMomentsOf D.Disk self.old store.old → IsMarkOf D.Disk mark store.new)) }
        ensures are { AreMomentsOf D.Disk self.old store.old
            → AreMomentsOf D.Disk self.new store.new }
        ensures still { IsOnlyReadFrom D.Disk store.old store.new }
    {
        store.shows_what_crashes_leave();
        let Some(place) = self.marks.place_before(store, k) else {
            return Ok(None);
        };
        let Some(leg) = last_leg(alloc, store, &self.extent, place, k)? else {
            return Ok(None);
        };
        match leg.from {
            Source::Kept => self.marks.copy_before(alloc, store, k),
            Source::Moment(from) => self.behind_turn(alloc, store, leg.place, from),
            Source::Copy(at) => self.behind_copy(alloc, store, leg.place, at),
        }
    }

    /// The moment of a place behind the page with a desktop in sector `at`. None where none stands there.
    ///
    /// Errors: those of `copy_in`.
    fn behind_copy<D: Disk>(
        &self,
        alloc: Global,
        store: &mut Store<D>,
        place: Place,
        at: u32,
    ) -> Result<Option<Mark>, Error>
        requires { store.old.must_reopen ≡ false }
        ensures mark { IfOk result (λ found. IfSome found (λ mark.
            AreMomentsOf D.Disk self.now store.old → IsPagePlace D.Disk place store.old
            → GoesFrom D.Disk place (sources.Copy at) store.old
            → IsMarkOf D.Disk mark store.new)) }
        ensures still { IsOnlyReadFrom D.Disk store.old store.new }
    {
        store.shows_what_crashes_leave();
        match copy_in(alloc, store, at, self.extent.end)? {
            None => Ok(None),
            Some(shown) => Ok(Some(Mark { place, shown })),
        }
    }

    /// The moment of a place behind a turn, which is the one to which the turn leads. None where there is none.
    ///
    /// Errors: those of `moment`.
    fn behind_turn<D: Disk>(
        &self,
        alloc: Global,
        store: &mut Store<D>,
        place: Place,
        from: u64,
    ) -> Result<Option<Mark>, Error>
        requires { store.old.must_reopen ≡ false }
        ensures mark { IfOk result (λ found. IfSome found (λ mark.
            AreMomentsOf D.Disk self.now store.old → IsPagePlace D.Disk place store.old
            → IsSameMoment D.Disk place.k from store.old → IsMarkOf D.Disk mark store.new)) }
        ensures still { IsOnlyReadFrom D.Disk store.old store.new }
    {
        store.shows_what_crashes_leave();
        match moment_of(alloc, store, &self.extent, from)? {
            None => Ok(None),
            Some(shown) => Ok(Some(Mark { place, shown })),
        }
    }

    /// Goes on from a mark by whole pages, as far as they don't go beyond moment `k`. False where a page is missing, or where
    /// a turn is among them.
    ///
    /// Errors: those of `page_at`, `do_all` and `leave`.
    fn go_whole<D: Disk>(
        &mut self,
        alloc: Global,
        store: &mut Store<D>,
        mark: &mut Mark,
        k: u64,
    ) -> Result<bool, Error>
        requires { store.old.must_reopen ≡ false }
        ensures mark { IfOk result (λ done. done ≡ true → AreMomentsOf D.Disk self.old store.old
            → IsMarkOf D.Disk mark.old store.old → IsMarkOf D.Disk mark.new store.new) }
        ensures are { OnOk result (AreMomentsOf D.Disk self.old store.old
            → IsMarkOf D.Disk mark.old store.old → AreMomentsOf D.Disk self.new store.new) }
        ensures still { IsOnlyReadFrom D.Disk store.old store.new }
    {
        store.shows_what_crashes_leave();
        while !self.extent.is_present(mark.place) {
            let Some((deeds, next)) = self.extent.page_at(alloc, store, mark.place)? else {
                return Ok(false);
            };
            if next.k > k {
                return Ok(true);
            }
            if !do_all(alloc, &mut mark.shown, &deeds)? {
                return Ok(false);
            }
            mark.place = next;
            self.marks.leave(alloc, store, mark)?;
        }
        Ok(true)
    }

    /// The last moment at or before moment `k` behind which a page begins. It is kept as the nearest one. None where a
    /// page is missing.
    ///
    /// Errors: those of `unturned_before`, `go_whole` and `keep_near`.
    pub fn page_before<D: Disk>(
        &mut self,
        alloc: Global,
        store: &mut Store<D>,
        k: u64,
    ) -> Result<Option<Mark>, Error>
        requires { store.old.must_reopen ≡ false }
        ensures mark { IfOk result (λ found. IfSome found (λ mark.
            AreMomentsOf D.Disk self.old store.old → IsMarkOf D.Disk mark store.new)) }
        ensures low { IfOk result (λ found. IfSome found (λ mark. mark.place.k ≤ k)) }
        ensures are { OnOk result (AreMomentsOf D.Disk self.old store.old
            → AreMomentsOf D.Disk self.new store.new) }
        ensures still { IsOnlyReadFrom D.Disk store.old store.new }
    {
        let Some(mark) = self.unturned_before(alloc, store, k)? else {
            return Ok(None);
        };
        let mut mark = mark;
        let done = self.go_near(alloc, store, &mut mark, k);
        where_done(mark, done)
    }

    /// Goes on from a mark by whole pages, and keeps it as the nearest one. False where a page is missing, or where the mark is
    /// behind moment `k`.
    ///
    /// Errors: those of `go_whole` and `keep_near`.
    fn go_near<D: Disk>(
        &mut self,
        alloc: Global,
        store: &mut Store<D>,
        mark: &mut Mark,
        k: u64,
    ) -> Result<bool, Error>
        requires { store.old.must_reopen ≡ false }
        ensures mark { IfOk result (λ done. done ≡ true → AreMomentsOf D.Disk self.old store.old
            → IsMarkOf D.Disk mark.old store.old → IsMarkOf D.Disk mark.new store.new) }
        ensures low { IfOk result (λ done. done ≡ true → mark.new.place.k ≤ k) }
        ensures are { OnOk result (AreMomentsOf D.Disk self.old store.old
            → IsMarkOf D.Disk mark.old store.old → AreMomentsOf D.Disk self.new store.new) }
        ensures still { IsOnlyReadFrom D.Disk store.old store.new }
    {
        if !self.go_whole(alloc, store, mark, k)? {
            return Ok(false);
        }
        self.marks.keep_near(alloc, store, mark)?;
        Ok(mark.place.k <= k)
    }

    /// Moment `k` in memory, with the place of the page that has the deed behind it. None where a page is missing.
    ///
    /// Errors: those of `page_before` and of `do_part`.
    pub fn at<D: Disk>(
        &mut self,
        alloc: Global,
        store: &mut Store<D>,
        k: u64,
    ) -> Result<Option<Mark>, Error>
        requires { store.old.must_reopen ≡ false }
        ensures place { IfOk result (λ found. IfSome found (λ mark.
            AreMomentsOf D.Disk self.old store.old → IsPagePlace D.Disk mark.place store.new)) }
        ensures shown { IfOk result (λ found. IfSome found (λ mark.
            AreMomentsOf D.Disk self.old store.old
            → IsDesktopAt D.Disk k mark.shown.desktop store.new)) }
        ensures low { IfOk result (λ found. IfSome found (λ mark. mark.place.k ≤ k)) }
        ensures are { OnOk result (AreMomentsOf D.Disk self.old store.old
            → AreMomentsOf D.Disk self.new store.new) }
        ensures still { IsOnlyReadFrom D.Disk store.old store.new }
    {
        let Some(mark) = self.page_before(alloc, store, k)? else {
            return Ok(None);
        };
        store.shows_what_crashes_leave();
        let mut mark = mark;
        let done = go_part(alloc, store, &self.extent, &mut mark, k);
        where_done(mark, done)
    }

    /// Moment `k` in memory, and what led to it. None where a page is missing.
    ///
    /// Errors: those of `at` and of `look_led`.
    pub fn look<D: Disk>(
        &mut self,
        alloc: Global,
        store: &mut Store<D>,
        k: u64,
    ) -> Result<Option<Look>, Error>
        requires { store.old.must_reopen ≡ false }
        ensures shown { IfOk result (λ found. IfSome found (λ look.
            AreMomentsOf D.Disk self.old store.old
            → IsDesktopAt D.Disk k look.shown.desktop store.new)) }
        ensures words { IfOk result (λ found. IfSome found (λ look.
            AreMomentsOf D.Disk self.old store.old
            → IsToldOf D.Disk k look.words.items store.new)) }
        ensures are { OnOk result (AreMomentsOf D.Disk self.old store.old
            → AreMomentsOf D.Disk self.new store.new) }
        ensures still { IsOnlyReadFrom D.Disk store.old store.new }
    {
        store.shows_what_crashes_leave();
        if k <= self.extent.first {
            return self.look_plain(alloc, store, k, b"the oldest moment");
        }
        if k == self.extent.last {
            return look_now(alloc, store);
        }
        self.look_led(alloc, store, k)
    }

    /// Moment `k` in memory, and the deed that led to it, also where that is the last one. None where a page is missing, or
    /// where there is none.
    ///
    /// Errors: those of `at` and of `do_next`.
    pub fn look_led<D: Disk>(
        &mut self,
        alloc: Global,
        store: &mut Store<D>,
        k: u64,
    ) -> Result<Option<Look>, Error>
        requires { store.old.must_reopen ≡ false }
        ensures shown { IfOk result (λ found. IfSome found (λ look.
            AreMomentsOf D.Disk self.old store.old
            → IsDesktopAt D.Disk k look.shown.desktop store.new)) }
        ensures words { IfOk result (λ found. IfSome found (λ look.
            AreMomentsOf D.Disk self.old store.old
            → IsDeedOf D.Disk k look.words.items store.new)) }
        ensures are { OnOk result (AreMomentsOf D.Disk self.old store.old
            → AreMomentsOf D.Disk self.new store.new) }
        ensures still { IsOnlyReadFrom D.Disk store.old store.new }
    {
        if k == 0 {
            return Ok(None);
        }
        let Some(mark) = self.at(alloc, store, k - 1)? else {
            return Ok(None);
        };
        self.look_on(alloc, store, mark, k)
    }

    /// Moment `k` in memory, of which the one before it is given, and what led to it. None where a page is missing.
    ///
    /// Errors: those of `do_next`.
    fn look_on<D: Disk>(
        &mut self,
        alloc: Global,
        store: &mut Store<D>,
        mark: Mark,
        k: u64,
    ) -> Result<Option<Look>, Error>
        requires usable { store.old.must_reopen ≡ false }
        requires low { mark.place.k < k }
        ensures shown { IfOk result (λ found. IfSome found (λ look.
            AreMomentsOf D.Disk self.old store.old → IsPagePlace D.Disk mark.place store.old
            → IsDesktopAt D.Disk (k - 1) mark.shown.desktop store.old
            → IsDesktopAt D.Disk k look.shown.desktop store.new)) }
        ensures words { IfOk result (λ found. IfSome found (λ look.
            AreMomentsOf D.Disk self.old store.old → IsPagePlace D.Disk mark.place store.old
            → IsDesktopAt D.Disk (k - 1) mark.shown.desktop store.old
            → IsDeedOf D.Disk k look.words.items store.new)) }
        ensures are { OnOk result (AreMomentsOf D.Disk self.old store.old
            → AreMomentsOf D.Disk self.new store.new) }
        ensures still { IsOnlyReadFrom D.Disk store.old store.new }
    {
        let mut mark = mark;
        match self.do_next(alloc, store, &mut mark, k) {
            Ok(Some(words)) => Ok(Some(Look {
                shown: mark.shown,
                words,
            })),
            Ok(None) => Ok(None),
            Err(error) => Err(error),
        }
    }

    /// Goes on to moment `k` from the one before it, and says what led to it. None where a page is missing.
    ///
    /// Errors: those of `page_at`, `told_event`, `told_import` and `come_back`.
    fn do_next<D: Disk>(
        &mut self,
        alloc: Global,
        store: &mut Store<D>,
        mark: &mut Mark,
        k: u64,
    ) -> Result<Option<Vec<u8>>, Error>
        requires usable { store.old.must_reopen ≡ false }
        requires low { mark.old.place.k < k }
        ensures shown { IfOk result (λ found. IfSome found (λ words.
            AreMomentsOf D.Disk self.old store.old → IsPagePlace D.Disk mark.old.place store.old
            → IsDesktopAt D.Disk (k - 1) mark.old.shown.desktop store.old
            → IsDesktopAt D.Disk k mark.new.shown.desktop store.new)) }
        ensures words { IfOk result (λ found. IfSome found (λ words.
            AreMomentsOf D.Disk self.old store.old → IsPagePlace D.Disk mark.old.place store.old
            → IsDesktopAt D.Disk (k - 1) mark.old.shown.desktop store.old
            → IsDeedOf D.Disk k words.items store.new)) }
        ensures are { OnOk result (AreMomentsOf D.Disk self.old store.old
            → AreMomentsOf D.Disk self.new store.new) }
        ensures still { IsOnlyReadFrom D.Disk store.old store.new }
    {
        store.shows_what_crashes_leave();
        let index = (k - 1 - mark.place.k) as usize;
        if self.extent.is_present(mark.place) {
            return told_event(
                alloc,
                &mut mark.shown,
                self.extent.journal.as_slice(),
                index,
            );
        }
        match self.extent.page_at(alloc, store, mark.place)? {
            None => Ok(None),
            Some((deeds, _next)) => match &deeds {
                PageDeeds::Events(events) => {
                    told_event(alloc, &mut mark.shown, events.as_slice(), index)
                }
                PageDeeds::Import(documents) => {
                    told_import(alloc, &mut mark.shown, documents.as_slice(), index)
                }
                PageDeeds::FarTurn => self.come_back(alloc, store, mark, k, index),
                PageDeeds::Mark => Ok(None),
                PageDeeds::Turn(_) => self.come_back(alloc, store, mark, k, index),
            },
        }
    }

    /// Comes to moment `k`, to which a turn leads, and says so. None where that isn't the first deed of its page, or where a
    /// page is missing.
    ///
    /// Errors: those of `at`; `NoMemory`.
    fn come_back<D: Disk>(
        &mut self,
        alloc: Global,
        store: &mut Store<D>,
        mark: &mut Mark,
        k: u64,
        index: usize,
    ) -> Result<Option<Vec<u8>>, Error>
        requires { store.old.must_reopen ≡ false }
        ensures first { IfOk result (λ found. IfSome found (λ words. index ≡ 0)) }
        ensures shown { IfOk result (λ found. IfSome found (λ words.
            AreMomentsOf D.Disk self.old store.old
            → IsDesktopAt D.Disk k mark.new.shown.desktop store.new)) }
        ensures words { IfOk result (λ found. IfSome found (λ words. words.items ≡ turn_line)) }
        ensures are { OnOk result (AreMomentsOf D.Disk self.old store.old
            → AreMomentsOf D.Disk self.new store.new) }
        ensures still { IsOnlyReadFrom D.Disk store.old store.new }
    {
        if index > 0 {
            return Ok(None);
        }
        let Some(there) = self.at(alloc, store, k)? else {
            return Ok(None);
        };
        *mark = there;
        Ok(Some(Vec::from_slice(alloc, b"turn back to an earlier moment")?))
    }

    /// Moment `k` in memory, with these words. None where a page is missing.
    ///
    /// Errors: those of `at`; `NoMemory`.
    pub fn look_plain<D: Disk>(
        &mut self,
        alloc: Global,
        store: &mut Store<D>,
        k: u64,
        words: &[u8],
    ) -> Result<Option<Look>, Error>
        requires { store.old.must_reopen ≡ false }
        ensures shown { IfOk result (λ found. IfSome found (λ look.
            AreMomentsOf D.Disk self.old store.old
            → IsDesktopAt D.Disk k look.shown.desktop store.new)) }
        ensures words { IfOk result (λ found. IfSome found (λ look.
            look.words.items ≡ words.now)) }
        ensures are { OnOk result (AreMomentsOf D.Disk self.old store.old
            → AreMomentsOf D.Disk self.new store.new) }
        ensures still { IsOnlyReadFrom D.Disk store.old store.new }
    {
        let words = Vec::from_slice(alloc, words)?;
        match self.at(alloc, store, k)? {
            None => Ok(None),
            Some(mark) => Ok(Some(Look {
                shown: mark.shown,
                words,
            })),
        }
    }
}

/// The present in memory, which is what the store shows.
///
/// Errors: those of `copy_of`.
fn look_now<D: Disk>(alloc: Global, store: &mut Store<D>) -> Result<Option<Look>, Error>
    requires { store.old.must_reopen ≡ false }
    ensures shown { IfOk result (λ found. IfSome found (λ look. (k : ℕ)
        → IsLastOf D.Disk k store.old → IsDesktopAt D.Disk k look.shown.desktop store.new)) }
    ensures words { IfOk result (λ found. IfSome found (λ look.
        look.words.items ≡ codes "the present")) }
    ensures still { IsOnlyReadFrom D.Disk store.old store.new }
{
    present_law();
    standing_law();
    store.shows_what_crashes_leave();
    let shown = copy_of(alloc, store)?;
    let words = Vec::from_slice(alloc, b"the present")?;
    Ok(Some(Look { shown, words }))
}

/// The mark, where that was done.
fn where_done(mark: Mark, done: Result<bool, Error>) -> Result<Option<Mark>, Error>
    ensures is { IfOk result (λ found. IfSome found (λ m. (m ≡ mark) × (done ≡ Ok true))) }
    ensures ok { OnOk result (IfErr done (λ e. ⊥)) }
{
    match done {
        Ok(true) => Ok(Some(mark)),
        Ok(false) => Ok(None),
        Err(error) => Err(error),
    }
}

/// Goes on from a mark to moment `k`, which its page has, or the journal in use. False where it is not there.
///
/// Errors: those of `do_part`.
fn go_part<D: Disk>(
    alloc: Global,
    store: &mut Store<D>,
    extent: &Extent,
    mark: &mut Mark,
    k: u64,
) -> Result<bool, Error>
    requires { store.old.must_reopen ≡ false }
    ensures place { mark.new.place ≡ mark.old.place }
    ensures low { IfOk result (λ done. done ≡ true → mark.old.place.k ≤ k) }
    ensures shown { IfOk result (λ done. done ≡ true → IsExtentOf D.Disk extent.now store.old
        → IsMarkOf D.Disk mark.old store.old
        → IsDesktopAt D.Disk k mark.new.shown.desktop store.old) }
    ensures still { IsOnlyReadFrom D.Disk store.old store.new }
{
    let Some(count) = k.checked_sub(mark.place.k) else {
        return Ok(false);
    };
    do_part(alloc, store, extent, &mut mark.shown, mark.place, count)
}

/// Does an import more on a store in memory, and says so. None where that isn't the first deed of its page.
///
/// Errors: those of `bring`; `NoMemory`.
fn told_import(
    alloc: Global,
    shown: &mut Store<MemoryDisk>,
    documents: &[Document],
    index: usize,
) -> Result<Option<Vec<u8>>, Error>
    ensures done { IfOk result (λ found. IfSome found (λ words. (index ≡ 0)
        × (shown.new.desktop ≡ after_deeds shown.old.desktop (brought documents.now ∷ [])))) }
    ensures words { IfOk result (λ found. IfSome found (λ words.
        words.items ≡ import_line documents.now)) }
{
    if index > 0 {
        return Ok(None);
    }
    bring(alloc, shown, documents)?;
    Ok(Some(import_words(alloc, documents)?))
}

/// Does one of these events more on a store in memory, and says so. None where there are fewer.
///
/// Errors: those of `add_lines`, whose faults are want of memory.
fn told_event(
    alloc: Global,
    shown: &mut Store<MemoryDisk>,
    events: &[Event],
    index: usize,
) -> Result<Option<Vec<u8>>, Error>
    ensures done { IfOk result (λ found. IfSome found (λ words. (index < length events.now)
        × ((event : AnEvent) → slice_get events.now index ≡ Some event
        → shown.new.desktop ≡ (step shown.old.desktop event).desktop))) }
    ensures words { IfOk result (λ found. IfSome found (λ words. (event : AnEvent)
        → slice_get events.now index ≡ Some event
        → words.items ≡ event_line shown.old.desktop event)) }
{
    if index >= events.len() {
        return Ok(None);
    }
    let one = &events[index..index + 1];
    let mut lines = Vec::new(alloc);
    of_memory(add_lines(alloc, shown, one, &mut lines))?;
    match lines.pop() {
        None => Ok(None),
        Some(line) => Ok(Some(Vec::from_slice(alloc, line.as_bytes())?)),
    }
}
