//! What was taken back, as far as it can be done again.
ghost use Rattle.std.specs.Prelude.{◌≡◌, ◌-◌, length, take, slice_get, IfOk, OnOk};
ghost use Rattle.done_presses.specs.Again.{carried_again, events_behind, has_again, holds_at, is_first, kept_at};
ghost use Rattle.done_presses.specs.Again.{next_event, next_of_press, no_again, put_back};
ghost use Rattle.done_presses.specs.Again.{again_of, deed_or_part, one_back, press_back, unmade};
ghost use Rattle.done_presses.specs.Past.{left_past};
ghost use Rattle.done_presses.specs.Again.{rest_at, taken_press, with_press, with_rest};

use crate::past::Past;
use arrayvec::ArrayVec;
use event_bytes::Event;
use status_line::Deed;
use std::alloc::AllocError;
use std::marker::Model;

/// How many presses can be done again at most.
pub const MOST_AGAIN: usize = 512;

/// The epoch in which a new store is when somebody sits down at it first: two checkpoints lie behind it, from before which
/// nothing is taken back.
pub const FIRST_EPOCH: u32 = 3;

/// Where a store stands: its epoch, and how many events its journal has.
#[derive(Clone, Copy, Debug, PartialEq, Eq)]
pub struct StorePlace {
    pub epoch: u32,
    pub events: u32,
}

impl StorePlace {
    /// Whether nobody has done anything before this epoch.
    pub fn is_first(self) -> bool
        ensures { result ≡ is_first self }
    {
        self.epoch <= FIRST_EPOCH
    }
}

/// A press that was taken back: its events that can be done again, of which the next stands last, and what it did.
#[derive(Drop)]
pub struct TakenPress {
    events: Vec<Event>,
    deed: Deed,
}

impl Model for TakenPress {
    ghost use Rattle.done_presses.specs.Again.{TakenPressView};

    ghost Value = { TakenPressView };

    ghost view = { λ p. record { events = p.events.items; deed = p.deed } };
}

impl TakenPress {
    /// A press of which these events were taken back, in their order.
    pub fn of(events: Vec<Event>, deed: Deed) -> TakenPress
        ensures { result ≡ taken_press events.items deed }
    {
        let mut events = events;
        events.reverse();
        TakenPress { events, deed }
    }

    /// Takes off the event that is to be done again next, if one is left.
    fn take_next(&mut self) -> Option<NextEvent>
        ensures event { result ≡ next_of_press self.old }
        ensures rest { self.new ≡ record self.old { events = events_behind self.old } }
    {
        match take_last(&mut self.events) {
            None => None,
            Some(event) => Some(NextEvent {
                event,
                deed: self.deed,
                is_last: self.events.as_slice().is_empty(),
            }),
        }
    }
}

/// What these events did, or a part of something.
fn deed_or_part(deed: Option<Deed>) -> Deed
    ensures { result ≡ deed_or_part deed }
{
    match deed {
        None => Deed::Part,
        Some(deed) => deed,
    }
}

/// The press of these events, which are taken back.
fn press_back(events: Vec<Event>, past: &mut Past) -> TakenPress
    ensures past { past.new ≡ left_past (length events.items) past.old }
    ensures press { result ≡ press_back events.items past.old }
{
    let deed = deed_or_part(past.take_back(events.as_slice()));
    TakenPress::of(events, deed)
}

/// Takes the last of these events off, if there is one.
pub fn take_last(events: &mut Vec<Event>) -> Option<Event>
    ensures last { result ≡ slice_get events.old.items (length events.old.items - 1) }
    ensures rest { events.new.items ≡ take (length events.old.items - 1) events.old.items }
{
    events.pop()
}

/// An event that is to be done again, what its press did, and whether it is the last one of that.
#[derive(Drop)]
pub struct NextEvent {
    pub event: Event,
    pub deed: Deed,
    pub is_last: bool,
}

/// The presses that were taken back one after another, of which the next to be done again stands last, and the place to
/// which that has led. At another place something else was posted since, and nothing can be done again.
#[derive(Drop)]
pub struct Again {
    presses: ArrayVec<Option<TakenPress>, MOST_AGAIN>,
    place: StorePlace,
}

impl Model for Again {
    ghost use Rattle.done_presses.specs.Again.{AgainView};

    ghost Value = { AgainView };

    ghost view = { λ a. record { presses = a.presses.items; place = a.place } };
}

impl Again {
    /// Nothing was taken back.
    pub fn none() -> Again
        ensures { result ≡ no_again }
    {
        Again {
            presses: ArrayVec::new(),
            place: StorePlace {
                epoch: 0,
                events: 0,
            },
        }
    }

    /// These events were taken back, and that has led to this place. They are of the presses of which they would be if each
    /// was one, and the presses of the last ones were taken back first.
    pub fn of(events: Vec<Event>, place: StorePlace) -> Result<Again, AllocError>
        ensures { IfOk result (λ again. again ≡ again_of events.items place) }
    {
        let mut again = Again::none();
        let mut past = Past::of(events.as_slice());
        let mut events = events;
        for _count in 0..events.len() {
            again.take_press(&mut events, &mut past)?;
        }
        again.place = place;
        Ok(again)
    }

    /// The press of the last of these events is taken back, if there are any left.
    #[tactic(auto, unfolding(crate::specs::Again::one_back))]
    fn take_press(&mut self, events: &mut Vec<Event>, past: &mut Past) -> Result<(), AllocError>
        ensures { OnOk result (unmade events.new.items past.new self.new
            ≡ one_back (unmade events.old.items past.old self.old)) }
    {
        if events.as_slice().is_empty() {
            return Ok(());
        }
        past.gather();
        let first = events.len().saturating_sub(past.count().max(1) as usize);
        let last = events.split_off(first)?;
        self.push(press_back(last, past));
        Ok(())
    }

    /// Whether this is the place.
    fn is_at(&self, place: StorePlace) -> bool
        ensures { result ≡ holds_at place self.now }
    {
        self.place.epoch == place.epoch && self.place.events == place.events
    }

    /// Whether something can be done again at this place.
    pub fn has_again(&self, place: StorePlace) -> bool
        ensures { result ≡ has_again place self.now }
    {
        self.is_at(place) && !self.presses.as_slice().is_empty()
    }

    /// What led from one place to another changed nothing.
    #[tactic(auto, unfolding(crate::specs::Again::carried_again))]
    pub fn move_on(&mut self, from: StorePlace, to: StorePlace)
        ensures { self.new ≡ carried_again from to self.old }
    {
        if !self.is_at(from) {
            self.presses = ArrayVec::new();
        }
        self.place = to;
    }

    /// A press was taken back at a place, which led to another one.
    #[tactic(auto, unfolding(crate::specs::Again::kept_at))]
    pub fn keep(&mut self, press: TakenPress, from: StorePlace, to: StorePlace)
        ensures { self.new ≡ kept_at press from to self.old }
    {
        if !self.is_at(from) {
            self.presses = ArrayVec::new();
        }
        self.push(press);
        self.place = to;
    }

    /// A press more. Of as many as there may be the oldest is forgotten.
    fn push(&mut self, press: TakenPress)
        ensures { self.new ≡ with_press press self.old }
    {
        if self.presses.is_full() {
            let _oldest = self.presses.remove(0);
        }
        self.presses.push(Some(press));
    }

    /// The event that is to be done again next, at this place.
    #[tactic(auto, unfolding(crate::specs::Again::next_event, crate::specs::Again::rest_at))]
    pub fn next(&mut self, place: StorePlace) -> Option<NextEvent>
        ensures event { result ≡ next_event place self.old }
        ensures rest { self.new ≡ rest_at place self.old }
    {
        if !self.is_at(place) {
            self.presses = ArrayVec::new();
        }
        match self.presses.pop() {
            None | Some(None) => None,
            Some(Some(press)) => self.go_on(press),
        }
    }

    /// The next event of this press, which was taken off the others.
    fn go_on(&mut self, press: TakenPress) -> Option<NextEvent>
        ensures event { result ≡ next_of_press press }
        ensures rest { self.new ≡ with_rest press self.old }
    {
        let mut press = press;
        let found = press.take_next();
        self.put_back(&found, press);
        found
    }

    /// What is left of a press is put back, unless its last event was taken off.
    fn put_back(&mut self, found: &Option<NextEvent>, press: TakenPress)
        ensures { self.new ≡ put_back found.now press self.old }
    {
        match found {
            None => {}
            Some(event) => {
                if !event.is_last {
                    self.push(press);
                }
            }
        }
    }

    /// It has led to this place.
    pub fn come_to(&mut self, place: StorePlace)
        ensures { self.new ≡ record self.old { place = place } }
    {
        self.place = place;
    }
}
