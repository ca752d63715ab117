//! What the presses of a sitting did, as far as they can be taken back, in the steps in which they are.
ghost use Rattle.std.specs.Prelude.{◌≡◌, None, length};
ghost use Rattle.done_presses.specs.Past.{past_after, past_of, past_with, back_count, back_deed, but_last_press, counted, deed_back};
ghost use Rattle.done_presses.specs.Past.{continues, first_deed, gathered, gathered_from, knows_none, last_press, left_past, moved_on};
ghost use Rattle.done_presses.specs.Past.{named, no_past, pushed, selects, with_event, with_moves, with_refused};

use crate::kind::PressKind;
use arrayvec::ArrayVec;
use event_bytes::Event;
use status_line::Deed;
use std::marker::Model;

/// Of how many presses it is known what they did: of as many as a store can take back, if each has one event.
pub const MOST_DONE: usize = 512;

/// What a press did, and how many events it posted. Those that were refused after it are among them: they change nothing,
/// and go with it.
#[derive(Clone, Copy, Debug, Default, PartialEq, Eq)]
pub struct DonePress {
    pub events: u32,
    pub deed: Deed,
    pub kind: PressKind,
}

/// The presses that changed something, of which the last stands last.
#[derive(Drop)]
pub struct Past {
    presses: ArrayVec<DonePress, MOST_DONE>,
    /// How many events were refused before the first of them.
    refused: u32,
    /// The press that was done last went on with a word that was typed before it.
    goes_on: bool,
}

impl Model for Past {
    ghost use Rattle.done_presses.specs.Past.{PastView};

    ghost Value = { PastView };

    ghost view = { λ p. record {
      presses = p.presses.items;
      refused = p.refused;
      goes_on = p.goes_on;
    } };
}

impl Past {
    /// Nothing was pressed.
    pub fn none() -> Past
        ensures { result ≡ no_past }
    {
        Past {
            presses: ArrayVec::new(),
            refused: 0,
            goes_on: false,
        }
    }

    /// These events were done, each of which was a press of its own.
    pub fn of(events: &[Event]) -> Past
        ensures { result ≡ past_of events.now no_past }
    {
        let mut past = Past::none();
        for event in events {
            past.add(event, false, false);
        }
        past
    }

    /// An event was done, which is one of the press that was done last where it joins that. It may be of a paste.
    #[tactic(auto, unfolding(crate::specs::Past::past_after))]
    pub fn add(&mut self, event: &Event, joins: bool, pastes: bool)
        ensures { self.new ≡ past_after joins pastes event.now self.old }
    {
        let kind = PressKind::of(event, pastes);
        let goes_on = continues(self.last(), kind);
        if !joins {
            self.goes_on = goes_on;
        }
        self.add_with(joins || goes_on, kind, event);
    }

    /// An event more of the last press, or of one of its own.
    fn add_with(&mut self, joins: bool, kind: PressKind, event: &Event)
        ensures { self.new ≡ past_with joins kind event.now self.old }
    {
        if joins {
            let last = self.presses.pop();
            self.push(with_event(last, kind, event));
        } else {
            self.gather();
            self.push(with_event(None, kind, event));
        }
    }

    /// Whether no press is known, and no event that was refused.
    pub fn is_empty(&self) -> bool
        ensures { result ≡ knows_none self.now }
    {
        self.presses.as_slice().is_empty() && self.refused == 0
    }

    /// The press that was done last.
    fn last(&self) -> Option<DonePress>
        ensures { result ≡ last_press self.now }
    {
        self.presses.as_slice().last().copied()
    }

    /// Whether the press that was done last selected something last.
    pub fn selects(&self) -> bool
        ensures { result ≡ selects self.now }
    {
        match self.last() {
            None => false,
            Some(press) => press.kind.is_selecting(),
        }
    }

    /// Where the last press only moved something it goes with the one before it.
    #[tactic(auto, unfolding(crate::specs::Past::gathered))]
    pub fn gather(&mut self)
        ensures { self.new ≡ gathered self.old }
    {
        let last = self.presses.pop();
        self.gather_from(last);
    }

    /// The same, where this was the last press.
    fn gather_from(&mut self, last: Option<DonePress>)
        ensures { self.new ≡ gathered_from last self.old }
    {
        if let Some(press) = last {
            if press.kind.is_moving() {
                self.move_on(press);
            } else {
                self.push(press);
            }
        }
    }

    /// What only moved something goes with the last press, if there is one.
    fn move_on(&mut self, moves: DonePress)
        ensures { self.new ≡ moved_on (last_press self.old) moves (but_last_press self.old) }
    {
        match self.presses.pop() {
            None => self.push(moves),
            Some(press) => self.push(with_moves(press, moves)),
        }
    }

    /// A press more. Of as many as there may be the oldest is forgotten.
    #[tactic(auto, unfolding(crate::specs::Past::pushed))]
    fn push(&mut self, press: DonePress)
        ensures { self.new ≡ pushed press self.old }
    {
        if self.presses.is_full() {
            let _oldest = self.presses.remove(0);
        }
        self.presses.push(press);
    }

    /// An event was refused.
    #[tactic(auto, unfolding(crate::specs::Past::with_refused))]
    pub fn add_refused(&mut self)
        ensures { self.new ≡ with_refused self.old }
    {
        match self.presses.pop() {
            None => self.refused = self.refused.saturating_add(1),
            Some(press) => self.push(DonePress {
                events: press.events.saturating_add(1),
                ..press
            }),
        }
    }

    /// What the press did that was done last. What goes on with a word keeps the name of that.
    #[tactic(auto, unfolding(crate::specs::Past::named))]
    pub fn name(&mut self, deed: Deed)
        ensures { self.new ≡ named deed self.old }
    {
        if self.goes_on {
            return;
        }
        if let Some(press) = self.presses.pop() {
            self.push(DonePress { deed, ..press });
        }
    }

    /// How many events are taken back next: those of the last press; where none is known the last one that wasn't refused.
    #[tactic(auto, unfolding(crate::specs::Past::back_count))]
    pub fn count(&self) -> u32
        ensures { result ≡ back_count self.now }
    {
        match self.presses.as_slice().last() {
            None => self.refused.saturating_add(1),
            Some(press) => press.events,
        }
    }

    /// These events were taken back, the last ones. Says what they did: nothing, where all of them were refused, and no press
    /// is known that did something before.
    #[tactic(auto, unfolding(crate::specs::Past::left_past, crate::specs::Past::back_deed))]
    pub fn take_back(&mut self, events: &[Event]) -> Option<Deed>
        ensures past { self.new ≡ left_past (length events.now) self.old }
        ensures deed { result ≡ back_deed events.now self.old }
    {
        let count = counted(events.len());
        match self.presses.pop() {
            None => {
                let deed = deed_behind(events, self.refused);
                self.refused = self.refused.saturating_sub(count);
                deed
            }
            Some(press) => {
                if press.events <= count {
                    return Some(press.deed);
                }
                self.push(DonePress {
                    events: press.events - count,
                    ..press
                });
                Some(Deed::Part)
            }
        }
    }
}

/// So many, as far as that is counted.
fn counted(count: usize) -> u32
    ensures { result ≡ counted count }
{
    count.min(u32::MAX as usize) as u32
}

/// A press that posted an event more, of this kind.
fn with_event(press: Option<DonePress>, kind: PressKind, event: &Event) -> DonePress
    ensures { result ≡ with_event press kind event.now }
{
    match press {
        None => DonePress {
            events: 1,
            deed: Deed::of(event),
            kind,
        },
        Some(press) => DonePress {
            events: press.events.saturating_add(1),
            deed: press.deed.with(event),
            kind: press.kind.with(kind),
        },
    }
}

/// A press, with what only moved something behind it.
fn with_moves(press: DonePress, moves: DonePress) -> DonePress
    ensures { result ≡ with_moves press moves }
{
    DonePress {
        events: press.events.saturating_add(moves.events),
        deed: press.deed,
        kind: press.kind.moved(),
    }
}

/// Whether an event of this kind goes on with the word of a press.
fn continues(press: Option<DonePress>, kind: PressKind) -> bool
    ensures { result ≡ continues press kind }
{
    match press {
        None => false,
        Some(press) => press.kind.goes_on(kind),
    }
}

/// What these events did where no press is known, of which so many at the end were refused.
fn deed_behind(events: &[Event], refused: u32) -> Option<Deed>
    ensures { result ≡ deed_back events.now None refused }
{
    if counted(events.len()) <= refused {
        None
    } else {
        Some(first_deed(events))
    }
}

/// What the first of these events did.
fn first_deed(events: &[Event]) -> Deed
    ensures { result ≡ first_deed events.now }
{
    match events.first() {
        None => Deed::Part,
        Some(event) => Deed::of(event),
    }
}
