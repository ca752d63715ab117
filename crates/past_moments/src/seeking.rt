//! When a word went from the screen.
ghost use Rattle.std.specs.Prelude.{◌≡◌, ◌+◌, ◌-◌, ◌<◌, ◌≤◌, ◌&&◌, ℕ, Bool, if◌then◌else◌, false, true, not, length, take, Some, IfOk, OnOk};
ghost use Rattle.desktop_definitions.specs.Step.{steps};
ghost use Rattle.past_pages.specs.Reading.{IsOnlyReadFrom};
ghost use Rattle.past_moments.specs.Moments.{AreMomentsOf, IsMarkOf};
ghost use Rattle.past_moments.specs.Seeking.{IsBefore, IsLastGone, IsSoughtBy, IsSoughtOf, IsStandingAt, begins_with, has_word, is_on_screen, stands};

use crate::legs::of_memory;
use crate::marks::Mark;
use crate::moments::Moments;
use desk_journal::{Error, Store};
use desk_past::post_all;
use event_bytes::Event;
use past_pages::PageDeeds;
use screen_cells::{Cell, Screen};
use sector_disk::{Disk, MemoryDisk};
use std::alloc::Global;
use viewer_tracks::COLUMNS;

/// What became of a word that is sought.
#[derive(Clone, Copy, Debug, PartialEq, Eq)]
pub enum Sought {
    /// It stood on the screen at that moment, and not at the one behind it.
    At(u64),
    /// It is to be sought up to that moment.
    Before(u64),
    /// There are no moments before, or none that can be read.
    Nowhere,
}

/// A row of the screen, from the left.
type Row = [Cell; COLUMNS as usize];

/// Whether these cells show a word from the first one on.
fn begins_with(cells: &[Cell], word: &[u8]) -> bool
    ensures { result ≡ begins_with cells.now word.now }
{
    if word.len() > cells.len() {
        return false;
    }
    for i in 0..word.len() {
        if word[i] != cells[i].ch {
            return false;
        }
    }
    true
}

/// Whether a row shows a word.
fn has_word(row: &Row, word: &[u8]) -> bool
    ensures { result ≡ has_word row.now word.now }
{
    for x in 0..COLUMNS {
        let (_left, cells) = row.split_at(usize::from(x));
        if begins_with(cells, word) {
            return true;
        }
    }
    false
}

/// Whether a word stands on a screen.
fn is_on_screen(screen: &Screen, word: &[u8]) -> bool
    ensures { result ≡ is_on_screen screen.now word.now }
{
    screen.rows().iter().any(|row| has_word(row, word))
}

/// Whether a word stands on the screen of a store in memory.
///
/// Errors: those of `Store::screen`, whose faults are want of memory.
fn shows_word(
    alloc: Global,
    shown: &mut Store<MemoryDisk>,
    screen: &mut Screen,
    word: &[u8],
) -> Result<bool, Error>
    ensures is { IfOk result (λ is. is ≡ stands word.now shown.old.desktop) }
    ensures same { OnOk result (shown.new.desktop ≡ shown.old.desktop) }
{
    of_memory(shown.screen(alloc, screen))?;
    Ok(is_on_screen(screen, word))
}

/// The last moment at which a word went, where it was seen at moment `i`, or not, and is seen at the next one, or not.
fn last_gone(last: Option<u64>, was: bool, is: bool, i: u64) -> Option<u64>
    ensures { result ≡ (if was && not is then Some i else last) }
{
    if was && !is { Some(i) } else { last }
}

/// Posts events one after another, and returns behind how many of them the word stood on the screen last, and not behind
/// one more.
///
/// Errors: those of `post_all` and `shows_word`.
fn gone_among(
    alloc: Global,
    shown: &mut Store<MemoryDisk>,
    events: &[Event],
    word: &[u8],
) -> Result<Option<u64>, Error>
    ensures { IfOk result (IsLastGone
        (λ i. stands word.now (steps shown.old.desktop (take i events.now)))
        (length events.now)) }
{
    let mut screen = Screen::new();
    let mut last = None;
    let mut was = shows_word(alloc, shown, &mut screen, word)?;
    for i in 0..events.len() {
        post_all(alloc, shown, &events[i..i + 1])?;
        let is = shows_word(alloc, shown, &mut screen, word)?;
        last = last_gone(last, was, is, i as u64);
        was = is;
    }
    Ok(last)
}

/// What became of a word from moment `first` up to moment `k`, between which the first of these events were posted, or all
/// of them. Nowhere where there are fewer.
///
/// Errors: those of `gone_among`.
fn sought_among(
    alloc: Global,
    shown: &mut Store<MemoryDisk>,
    events: &[Event],
    first: u64,
    k: u64,
    word: &[u8],
) -> Result<Sought, Error>
    ensures before { IfOk result (IsBefore k) }
    ensures sought { IfOk result (λ sought. (at : ℕ → Bool) → ((i : ℕ) → i ≤ length events.now
        → at (first + i) ≡ stands word.now (steps shown.old.desktop (take i events.now)))
        → IsSoughtBy at k sought) }
{
    if k <= first || k - first > events.len() as u64 {
        return Ok(Sought::Nowhere);
    }
    let (front, _rest) = events.split_at((k - first) as usize);
    match gone_among(alloc, shown, front, word)? {
        Some(many) => Ok(Sought::At(first + many)),
        None => Ok(Sought::Before(first)),
    }
}

impl Moments {
    /// At which moment a word stood on the screen last, and not at the one behind it, of the moments from where a page begins,
    /// or the journal in use, up to moment `k`, but that one.
    ///
    /// Errors: those of `page_before` and of `gone_from`.
    pub fn seek_page<D: Disk>(
        &mut self,
        alloc: Global,
        store: &mut Store<D>,
        k: u64,
        word: &[u8],
    ) -> Result<Sought, Error>
        requires { store.old.must_reopen ≡ false }
        ensures before { IfOk result (IsBefore k) }
        ensures sought { IfOk result (λ sought. AreMomentsOf D.Disk self.old store.old
            → IsSoughtOf D.Disk k word.now sought store.new) }
        ensures are { OnOk result (AreMomentsOf D.Disk self.old store.old
            → AreMomentsOf D.Disk self.new store.new) }
        ensures still { IsOnlyReadFrom D.Disk store.old store.new }
    {
        let Some(before) = k.checked_sub(1) else {
            return Ok(Sought::Nowhere);
        };
        let Some(mark) = self.page_before(alloc, store, before)? else {
            return Ok(Sought::Nowhere);
        };
        self.gone_from(alloc, store, mark, k, word)
    }

    /// What became of a word from a mark up to moment `k`, by the page or the journal that begins there. Nowhere where that
    /// ends before.
    ///
    /// Errors: those of `sought_among`, `gone_by` and `page_at`.
    fn gone_from<D: Disk>(
        &mut self,
        alloc: Global,
        store: &mut Store<D>,
        mark: Mark,
        k: u64,
        word: &[u8],
    ) -> Result<Sought, Error>
        requires { store.old.must_reopen ≡ false }
        ensures before { IfOk result (IsBefore k) }
        ensures sought { IfOk result (λ sought. AreMomentsOf D.Disk self.old store.old
            → IsMarkOf D.Disk mark store.old → IsSoughtOf D.Disk k word.now sought store.new) }
        ensures are { OnOk result (AreMomentsOf D.Disk self.old store.old
            → AreMomentsOf D.Disk self.new store.new) }
        ensures still { IsOnlyReadFrom D.Disk store.old store.new }
    {
        store.shows_what_crashes_leave();
        let mut mark = mark;
        let first = mark.place.k;
        if self.extent.is_present(mark.place) {
            let events = self.extent.journal.as_slice();
            return sought_among(alloc, &mut mark.shown, events, first, k, word);
        }
        match self.extent.page_at(alloc, store, mark.place)? {
            None => Ok(Sought::Nowhere),
            Some((deeds, _next)) => match &deeds {
                PageDeeds::Events(events) => {
                    sought_among(alloc, &mut mark.shown, events.as_slice(), first, k, word)
                }
                _ => self.gone_by(alloc, store, mark, k, word),
            },
        }
    }

    /// What became of a word from a mark up to moment `k`, which is the one behind it. Nowhere where it is another one, or
    /// where a page is missing.
    ///
    /// Errors: those of `shows_word` and `gone_at`.
    fn gone_by<D: Disk>(
        &mut self,
        alloc: Global,
        store: &mut Store<D>,
        mark: Mark,
        k: u64,
        word: &[u8],
    ) -> Result<Sought, Error>
        requires { store.old.must_reopen ≡ false }
        ensures before { IfOk result (IsBefore k) }
        ensures sought { IfOk result (λ sought. AreMomentsOf D.Disk self.old store.old
            → IsMarkOf D.Disk mark store.old → IsSoughtOf D.Disk k word.now sought store.new) }
        ensures are { OnOk result (AreMomentsOf D.Disk self.old store.old
            → AreMomentsOf D.Disk self.new store.new) }
        ensures still { IsOnlyReadFrom D.Disk store.old store.new }
    {
        let mut mark = mark;
        let first = mark.place.k;
        if k <= first || k - first > 1 {
            return Ok(Sought::Nowhere);
        }
        let mut screen = Screen::new();
        if shows_word(alloc, &mut mark.shown, &mut screen, word)? {
            self.gone_at(alloc, store, k, word)
        } else {
            Ok(Sought::Before(first))
        }
    }

    /// What became of a word that stands on the screen at the moment before moment `k`, up to that one. Nowhere where a page
    /// is missing.
    ///
    /// Errors: those of `at` and `shows_word`.
    fn gone_at<D: Disk>(
        &mut self,
        alloc: Global,
        store: &mut Store<D>,
        k: u64,
        word: &[u8],
    ) -> Result<Sought, Error>
        requires usable { store.old.must_reopen ≡ false }
        requires behind { 0 < k }
        ensures before { IfOk result (IsBefore k) }
        ensures sought { IfOk result (λ sought. AreMomentsOf D.Disk self.old store.old
            → IsStandingAt D.Disk (k - 1) word.now store.old
            → IsSoughtOf D.Disk k word.now sought store.new) }
        ensures are { OnOk result (AreMomentsOf D.Disk self.old store.old
            → AreMomentsOf D.Disk self.new store.new) }
        ensures still { IsOnlyReadFrom D.Disk store.old store.new }
    {
        store.shows_what_crashes_leave();
        let Some(next) = self.at(alloc, store, k)? else {
            return Ok(Sought::Nowhere);
        };
        let mut next = next;
        gone_then(alloc, &mut next.shown, k, word)
    }
}

/// What became of a word that stands on the screen at the moment before moment `k`, up to that one, which this store in
/// memory shows.
///
/// Errors: those of `shows_word`.
fn gone_then(
    alloc: Global,
    next: &mut Store<MemoryDisk>,
    k: u64,
    word: &[u8],
) -> Result<Sought, Error>
    requires { 0 < k }
    ensures before { IfOk result (IsBefore k) }
    ensures sought { IfOk result (λ sought. (at : ℕ → Bool) → at (k - 1) ≡ true
        → at k ≡ stands word.now next.old.desktop → IsSoughtBy at k sought) }
{
    let mut screen = Screen::new();
    if shows_word(alloc, next, &mut screen, word)? {
        Ok(Sought::Before(k - 1))
    } else {
        Ok(Sought::At(k - 1))
    }
}
