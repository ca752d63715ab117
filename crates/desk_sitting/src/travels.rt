//! Taking back and doing again.
ghost use Rattle.std.specs.Prelude.{◌≡◌, ◌≢◌, ◌==◌, List, Option, length, option_map, false, true, Some, None, OnOk, IfErr, IfOk};
ghost use Rattle.event_bytes.specs.declared.event.Event.{Event};
ghost use Rattle.desk_journal.specs.Looking.{OnlyLooks};
ghost use Rattle.done_presses.specs.Past.{knows_none};
ghost use Rattle.desk_sitting.specs.declared.sitting.Travel.TheVariants.{Back, Again as Forth};
ghost use Rattle.status_line.specs.declared.saying.Saying.TheVariants.{NotBack};
ghost use Rattle.done_presses.specs.Again.{has_again, next_event};
ghost use Rattle.desk_sitting.specs.Doing.{OfPresses, ComesToSeat, seat_of};
ghost use Rattle.desk_sitting.specs.Sittings.{after_post, refused};
ghost use Rattle.desk_sitting.specs.Travels.{Travels, did_again, foreseen, goes_again, none_back, on_to, recalled, settled, step_count, store_place};
ghost use Rattle.desk_sitting.specs.Travels.{did_import, ended_there, import_deed, still_kept, took_deed, took_back, took_import};
ghost use Rattle.desk_sitting.specs.TheDesk.{the_desk};

use crate::sitting::{Doing, Sitting, Travel};
use desk_journal::{Document, Error, Store};
use done_presses::{Again, MOST_DONE, NextEvent, Past, StorePlace, TakenPress};
use event_bytes::Event;
use past_steps::{Step, events_ahead, events_behind, import_again, step_back};
use sector_disk::Disk;
use status_line::{Deed, Saying};
use std::alloc::{AllocError, Global};

/// Of how many events before what the store shows it is asked which presses they were.
const MOST_BEHIND: usize = 1024;

/// Of how many events that can be done again it is asked at a time. As many presses are known as so many events can be.
const MOST_AHEAD: usize = MOST_DONE;

/// Takes the last press back, or does the next event again of what was taken back last, where that was asked for.
///
/// Errors: `NoMemory`, where memory runs out; `Fault`, where the disk fails.
pub fn travel<D: Disk>(alloc: Global, sitting: &mut Sitting, store: &mut Store<D>) -> Doing
    requires { store.old.must_reopen ≡ false }
    ensures { Travels the_desk D.Disk result sitting.old sitting.new store.old store.new }
{
    match sitting.travels {
        None => Ok(()),
        Some(Travel::Back) => take_back(alloc, sitting, store),
        Some(Travel::Again) => do_again(alloc, sitting, store),
    }
}

/// Where a store stands.
pub(crate) fn place<D: Disk>(store: &Store<D>) -> StorePlace
    requires { store.now.must_reopen ≡ false }
    ensures { result ≡ store_place store.now }
{
    match store.info() {
        Ok(info) => StorePlace {
            epoch: info.epoch,
            events: info.events,
        },
        Err(_) => unreachable!(),
    }
}

/// Takes the events of the last press back, or an import that came last.
fn take_back<D: Disk>(alloc: Global, sitting: &mut Sitting, store: &mut Store<D>) -> Doing
    requires usable { store.old.must_reopen ≡ false }
    requires asked { sitting.old.travels ≡ Some Back }
    ensures { Travels the_desk D.Disk result sitting.old sitting.new store.old store.new }
{
    sitting.look_behind(alloc, store)?;
    let from = place(store);
    let count = sitting.settle();
    match step_back(alloc, store, count) {
        Ok(Step::Events(events)) => {
            sitting.took_back(events, from, place(store));
            Ok(())
        }
        Ok(Step::Import(documents)) => {
            sitting.took_import(alloc, documents.as_slice(), from, place(store));
            Ok(())
        }
        Err(error) => sitting.stay(error),
    }
}

/// Does the next event again of what was taken back last, or an import.
fn do_again<D: Disk>(alloc: Global, sitting: &mut Sitting, store: &mut Store<D>) -> Doing
    requires usable { store.old.must_reopen ≡ false }
    requires asked { sitting.old.travels ≡ Some Forth }
    ensures { Travels the_desk D.Disk result sitting.old sitting.new store.old store.new }
{
    sitting.look_ahead(alloc, store)?;
    let from = place(store);
    match sitting.next_again(from) {
        None => {
            match import_again(alloc, store)? {
                None => sitting.end_there(),
                Some(documents) => sitting.did_import(documents.as_slice(), place(store)),
            }
            Ok(())
        }
        Some(event) => {
            sitting.post(alloc, &event.event, store)?;
            sitting.did_again(event.deed, from, place(store));
            Ok(())
        }
    }
}

impl Sitting {
    /// Where no press is known that was done, nor one that was refused, those are of which the past tells.
    ///
    /// Errors: those of `events_behind`.
    fn look_behind<D: Disk>(&mut self, alloc: Global, store: &mut Store<D>) -> Result<(), Error>
        requires { store.old.must_reopen ≡ false }
        ensures knows { OnOk result ((told : Option (List Event))
            × (self.new ≡ recalled told self.old)) }
        ensures looks { OnlyLooks D.Disk result store.old store.new }
    {
        if !self.past.is_empty() {
            return Ok(());
        }
        let found = events_behind(alloc, store, MOST_BEHIND)?;
        self.recall(found);
        Ok(())
    }

    /// These events were done before, if any are told of.
    fn recall(&mut self, told: Option<Vec<Event>>)
        requires { knows_none self.old.past ≡ true }
        ensures { self.new ≡ recalled (option_map (λ events. events.items) told) self.old }
    {
        if let Some(events) = told {
            self.past = Past::of(events.as_slice());
        }
    }

    /// Where nothing is known that was taken back, those presses are of which the past tells.
    ///
    /// Errors: those of `events_ahead`; `NoMemory`.
    fn look_ahead<D: Disk>(&mut self, alloc: Global, store: &mut Store<D>) -> Result<(), Error>
        requires { store.old.must_reopen ≡ false }
        ensures knows { OnOk result ((told : Option (List Event))
            × (self.new ≡ foreseen (store_place store.old) told self.old)) }
        ensures looks { OnlyLooks D.Disk result store.old store.new }
    {
        let here = place(store);
        if self.again.has_again(here) {
            return Ok(());
        }
        let found = events_ahead(alloc, store, MOST_AHEAD)?;
        self.foresee(found, here)?;
        Ok(())
    }

    /// These events were taken back, if any are told of, which led to this place.
    fn foresee(&mut self, told: Option<Vec<Event>>, here: StorePlace) -> Result<(), AllocError>
        requires { has_again here self.old.again ≡ false }
        ensures { OnOk result (self.new
            ≡ foreseen here (option_map (λ events. events.items) told) self.old) }
    {
        if let Some(events) = told {
            self.again = Again::of(events, here)?;
            self.kept = true;
        }
        Ok(())
    }

    /// The next event that is to be done again, at this place. While others of its press are left, they are asked for.
    fn next_again(&mut self, place: StorePlace) -> Option<NextEvent>
        ensures event { result ≡ next_event place self.old.again }
        ensures sitting { self.new ≡ goes_again place self.old }
    {
        let found = self.again.next(place);
        self.travels = on_to(&found);
        found
    }

    /// How many events are to be taken back: those of the last press, with what only moved behind it. Nothing is asked for
    /// any more.
    fn settle(&mut self) -> u32
        ensures count { result ≡ step_count self.old }
        ensures sitting { self.new ≡ settled self.old }
    {
        self.travels = None;
        self.past.gather();
        self.past.count()
    }

    /// These events were taken back.
    fn took_back(&mut self, events: Vec<Event>, from: StorePlace, to: StorePlace)
        ensures { self.new ≡ took_back events.items from to self.old }
    {
        if events.as_slice().is_empty() {
            self.refuse(none_back(to));
        } else {
            self.took_some(events, from, to);
        }
    }

    /// The same of one event or more. It is compiled apart, so that its frame, which is large, is made before anything is
    /// read: LLVM's code that makes a large frame spoils what was read into a register before it.
    #[inline(never)]
    fn took_some(&mut self, events: Vec<Event>, from: StorePlace, to: StorePlace)
        requires { (length events.items == 0) ≡ false }
        ensures { self.new ≡ took_back events.items from to self.old }
    {
        let deed = self.past.take_back(events.as_slice());
        self.kept = self.still_kept(from, to);
        self.tell_back(deed, events, from, to);
    }

    /// An import of these documents was taken back.
    fn took_import(
        &mut self,
        alloc: Global,
        documents: &[Document],
        from: StorePlace,
        to: StorePlace,
    )
        ensures { self.new ≡ took_import documents.now from to self.old }
    {
        self.past = Past::none();
        self.kept = self.still_kept(from, to);
        self.tell_back(Some(import_deed(documents)), Vec::new(alloc), from, to);
    }

    /// There is nothing to do again.
    fn end_there(&mut self)
        ensures { self.new ≡ ended_there self.old }
    {
        self.again = Again::none();
        self.refuse(Saying::NothingAgain);
    }

    /// An import of these documents was done again, which led to this place.
    fn did_import(&mut self, documents: &[Document], to: StorePlace)
        ensures { self.new ≡ did_import documents.now to self.old }
    {
        self.saying = Saying::DidAgain(import_deed(documents));
        self.follows = true;
        self.again.come_to(to);
        self.past = Past::none();
    }

    /// Whether a past has all that can be done again, once events were taken back.
    fn still_kept(&self, from: StorePlace, to: StorePlace) -> bool
        ensures { result ≡ still_kept from to self.now }
    {
        from.epoch < to.epoch && (self.kept || !self.again.has_again(from))
    }

    /// What they did is said, and they can be done again. Where they did nothing, that is said.
    fn tell_back(
        &mut self,
        deed: Option<Deed>,
        events: Vec<Event>,
        from: StorePlace,
        to: StorePlace,
    )
        ensures { self.new ≡ took_deed deed events.items from to self.old }
    {
        match deed {
            None => {
                self.again.move_on(from, to);
                self.refuse(none_back(to));
            }
            Some(deed) => {
                self.saying = Saying::TookBack(deed);
                self.follows = true;
                self.again.keep(TakenPress::of(events, deed), from, to);
            }
        }
    }

    /// Nothing was taken back, for this reason. Out of memory and a failure of the disk are passed on.
    fn stay(&mut self, error: Error) -> Doing
        ensures stays { OnOk result ((error ≢ Error.NoMemory) × (error ≢ Error.Fault)) }
        ensures said { OnOk result (self.new ≡ refused NotBack self.old) }
        ensures passed { IfErr result (λ e. (e ≡ error) × OfPresses error) }
    {
        match error {
            Error::NoMemory | Error::Fault => Err(error),
            _ => {
                self.refuse(Saying::NotBack);
                Ok(())
            }
        }
    }

    /// An event was done again, of a press that did this, which led from one place to another. Where the store took it,
    /// that is said, and it doesn't ring for an event that is refused again.
    fn did_again(&mut self, deed: Deed, from: StorePlace, to: StorePlace)
        ensures { self.new ≡ did_again deed from to self.old }
    {
        if from.epoch == to.epoch && from.events == to.events {
            return;
        }
        self.saying = Saying::DidAgain(deed);
        self.rings = false;
        self.changed = true;
        self.again.come_to(to);
        self.past.name(deed);
    }
}

/// That so many documents came by an import.
fn import_deed(documents: &[Document]) -> Deed
    ensures { result ≡ import_deed documents.now }
{
    Deed::Import(documents.len().min(u32::MAX as usize) as u32)
}

/// Why nothing is taken back, where a store stands at this place.
fn none_back(place: StorePlace) -> Saying
    ensures { result ≡ none_back place }
{
    if place.is_first() {
        Saying::NothingBack
    } else {
        Saying::NoFurtherBack
    }
}

/// What is asked for once the next event is done again.
fn on_to(found: &Option<NextEvent>) -> Option<Travel>
    ensures { result ≡ on_to found.now }
{
    match found {
        None => None,
        Some(event) => if event.is_last {
            None
        } else {
            Some(Travel::Again)
        },
    }
}
