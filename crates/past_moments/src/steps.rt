//! Where a step of a hand ends.
ghost use Rattle.std.specs.Prelude.{◌≡◌, ◌-◌, ◌≤◌, false, IfOk, OnOk};
ghost use Rattle.past_pages.specs.Reading.{IsOnlyReadFrom};
ghost use Rattle.past_moments.specs.Moments.{AreMomentsOf};

use crate::extent::{Extent, Place};
use crate::moments::Moments;
use desk_journal::{Error, Store};
use event_bytes::Event;
use past_pages::PageDeeds;
use sector_disk::Disk;
use std::alloc::Global;

/// Whether a byte ends a word.
fn is_blank(byte: Option<&u8>) -> bool {
    match byte {
        None => true,
        Some(byte) => *byte <= b' ',
    }
}

/// Whether two events are of one step: both type, and no word begins with the second one.
fn goes_on(first: &Event, second: &Event) -> bool {
    match (first, second) {
        (Event::Typed(first), Event::Typed(second)) => {
            !is_blank(first.as_bytes().last()) || is_blank(second.as_bytes().first())
        }
        _ => false,
    }
}

/// How many of these events come before the step that ends with the first `count` of them.
fn step_start(events: &[Event], count: usize) -> usize
    ensures { result ≤ count - 1 }
{
    let mut start = count.min(events.len());
    while start > 0 {
        start -= 1;
        if start == 0 || !goes_on(&events[start - 1], &events[start]) {
            return start;
        }
    }
    start
}

/// How many of these events come up to the end of the step that begins behind the first `count` of them.
fn step_end(events: &[Event], count: usize) -> usize
    ensures { count ≤ result }
{
    for end in count.saturating_add(1)..events.len() {
        if !goes_on(&events[end - 1], &events[end]) {
            return end;
        }
    }
    events.len().max(count)
}

/// How many deeds of a page come before the step that ends with the first `count` of them.
fn start_in(deeds: &PageDeeds, count: usize) -> usize
    ensures { result ≤ count - 1 }
{
    match deeds {
        PageDeeds::Events(events) => step_start(events.as_slice(), count),
        PageDeeds::Import(_) | PageDeeds::Turn(_) | PageDeeds::FarTurn | PageDeeds::Mark => {
            count.saturating_sub(1)
        }
    }
}

/// How many deeds of a page come up to the end of the step that begins behind the first `count` of them.
fn end_in(deeds: &PageDeeds, count: usize) -> usize
    ensures { count ≤ result }
{
    match deeds {
        PageDeeds::Events(events) => step_end(events.as_slice(), count),
        PageDeeds::Import(_) | PageDeeds::Turn(_) | PageDeeds::FarTurn | PageDeeds::Mark => {
            count.saturating_add(1)
        }
    }
}

impl Extent {
    /// How many deeds behind a place come before the step that ends with the first `count` of them.
    ///
    /// Errors: those of `page_at`.
    fn start_at<D: Disk>(
        &self,
        alloc: Global,
        store: &mut Store<D>,
        place: Place,
        count: usize,
    ) -> Result<usize, Error>
        requires { store.old.must_reopen ≡ false }
        ensures low { IfOk result (λ start. start ≤ count - 1) }
        ensures still { IsOnlyReadFrom D.Disk store.old store.new }
    {
        if self.is_present(place) {
            return Ok(step_start(self.journal.as_slice(), count));
        }
        match self.page_at(alloc, store, place)? {
            Some((deeds, _next)) => Ok(start_in(&deeds, count)),
            None => Ok(count.saturating_sub(1)),
        }
    }

    /// How many deeds behind a place come up to the end of the step that begins behind the first `count` of them.
    ///
    /// Errors: those of `page_at`.
    fn end_at<D: Disk>(
        &self,
        alloc: Global,
        store: &mut Store<D>,
        place: Place,
        count: usize,
    ) -> Result<usize, Error>
        requires { store.old.must_reopen ≡ false }
        ensures high { IfOk result (λ end. count ≤ end) }
        ensures still { IsOnlyReadFrom D.Disk store.old store.new }
    {
        if self.is_present(place) {
            return Ok(step_end(self.journal.as_slice(), count));
        }
        match self.page_at(alloc, store, place)? {
            Some((deeds, _next)) => Ok(end_in(&deeds, count)),
            None => Ok(count.saturating_add(1)),
        }
    }
}

impl Moments {
    /// The moment before the step of a hand that led to moment `k`: a word that was typed, and else an event.
    ///
    /// Errors: those of `at` and of `page_in`.
    pub fn step_back<D: Disk>(
        &mut self,
        alloc: Global,
        store: &mut Store<D>,
        k: u64,
    ) -> Result<u64, Error>
        requires { store.old.must_reopen ≡ false }
        ensures before { IfOk result (λ at. at ≤ k - 1) }
        ensures are { OnOk result (AreMomentsOf D.Disk self.old store.old
            → AreMomentsOf D.Disk self.new store.new) }
        ensures still { IsOnlyReadFrom D.Disk store.old store.new }
    {
        let Some(before) = k.checked_sub(1) else {
            return Ok(k);
        };
        let Some(mark) = self.at(alloc, store, before)? else {
            return Ok(before);
        };
        store.shows_what_crashes_leave();
        let count = (k - mark.place.k) as usize;
        let start = self.extent.start_at(alloc, store, mark.place, count)?;
        Ok(mark.place.k + start as u64)
    }

    /// The moment behind the step of a hand that was done at moment `k`.
    ///
    /// Errors: those of `at` and of `page_in`.
    pub fn step_forth<D: Disk>(
        &mut self,
        alloc: Global,
        store: &mut Store<D>,
        k: u64,
    ) -> Result<u64, Error>
        requires { store.old.must_reopen ≡ false }
        ensures behind { IfOk result (λ at. k ≤ at) }
        ensures are { OnOk result (AreMomentsOf D.Disk self.old store.old
            → AreMomentsOf D.Disk self.new store.new) }
        ensures still { IsOnlyReadFrom D.Disk store.old store.new }
    {
        let Some(mark) = self.at(alloc, store, k)? else {
            return Ok(k.saturating_add(1));
        };
        store.shows_what_crashes_leave();
        let count = (k - mark.place.k) as usize;
        let end = self.extent.end_at(alloc, store, mark.place, count)?;
        Ok(mark.place.k.saturating_add(end as u64))
    }
}
