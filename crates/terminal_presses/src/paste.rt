//! What is pasted, on its way into events.
ghost use Rattle.std.specs.Prelude.{◌≡◌, [], IsTrue};
ghost use Rattle.event_bytes.specs.Bytes.{is_text_byte as text_byte};
ghost use Rattle.terminal_presses.specs.Outcomes.{ComesTo};
ghost use Rattle.terminal_presses.specs.Pastes.{typing_action as typed_by, added, in_profile as profile_byte};
ghost use Rattle.terminal_presses.specs.Pastes.{becomes_mark, is_unfit, pasted_byte};
ghost use Rattle.terminal_presses.specs.Pastes.{new_paste, dropped, with_byte, after_line_feed as line_fed};
ghost use Rattle.terminal_presses.specs.Pastes.{pasted_more};
ghost use Rattle.terminal_presses.specs.Pastes.{pasted_on, pasted_if_any};

use crate::action::Action;
use crate::press::Press;
use arrayvec::ArrayVec;
use event_bytes::{CARRIAGE_RETURN, Event, TypedBytes, is_text_byte};
use std::marker::Model;

/// The most bytes that one event types.
const MOST: usize = 900;

/// The byte of a line feed.
pub(crate) const LINE_FEED: u8 = 10;

/// Bytes that can be typed, too few for an event of their own unless nothing follows. A clause sees the list of them.
#[derive(Drop)]
pub(crate) struct Pasted {
    bytes: ArrayVec<u8, MOST>,
}

impl Model for Pasted {
    ghost use Rattle.std.specs.Prelude.{ℕ, List, IsTrue, length, ◌<◌};
    ghost use Rattle.event_bytes.specs.Bytes.{is_file_bytes};

    ghost Value = { List ℕ };

    ghost view = { λ p. p.bytes.items };

    ghost invariant = { λ p. IsTrue (is_file_bytes p.bytes.items) × (length p.bytes.items < 900) };
}

impl Pasted {
    /// No bytes.
    pub fn none() -> Pasted
        ensures { result ≡ [] }
    {
        Pasted {
            bytes: ArrayVec::new(),
        }
    }

    /// Adds a byte. With 900 bytes they are what is typed, and none are left.
    #[tactic(auto, unfolding(crate::specs::Pastes::added))]
    pub fn add(&mut self, byte: u8) -> Action
        requires { IsTrue (text_byte byte) }
        ensures { ComesTo (added byte self.old) self.new result }
    {
        self.bytes.push(byte);
        if self.bytes.len() < MOST {
            return Action::Nothing;
        }
        let action = typed(self.bytes.as_slice());
        self.bytes.clear();
        action
    }

    /// The bytes are what is typed; nothing where there are none.
    pub fn typed(&self) -> Action
        ensures { result ≡ typed_by self.now }
    {
        typed(self.bytes.as_slice())
    }
}

/// What is pasted, as far as it is in no event yet.
#[derive(Drop)]
pub(crate) struct Paste {
    /// Whether a carriage return came last, so that a line feed is nothing more.
    after_return: bool,
    bytes: Pasted,
    /// What still comes of it comes to nothing.
    drops: bool,
}

impl Paste {
    /// Nothing is pasted yet.
    pub fn new() -> Paste
        ensures { result ≡ new_paste }
    {
        Paste {
            after_return: false,
            bytes: Pasted::none(),
            drops: false,
        }
    }

    /// The rest of it comes to nothing, and so does what is in no event yet.
    pub fn drop_rest(&mut self)
        ensures { self.new ≡ dropped self.old }
    {
        *self = Paste {
            after_return: false,
            bytes: Pasted::none(),
            drops: true,
        };
    }

    /// Something is pressed while a text is pasted.
    #[tactic(auto, unfolding(crate::specs::Pastes::pasted_on))]
    pub fn take(&mut self, press: Press) -> Action
        ensures { ComesTo (pasted_on press self.old) self.new result }
    {
        if let Press::Size(rows, columns) = press {
            return Action::Fit(rows, columns);
        }
        if self.drops {
            return Action::Nothing;
        }
        self.take_byte(press)
    }

    /// A byte of it, if the press is one.
    fn take_byte(&mut self, press: Press) -> Action
        ensures { ComesTo (pasted_if_any (pasted_byte press) self.old) self.new result }
    {
        match byte_of(press) {
            None => Action::Nothing,
            Some(byte) => self.add(byte),
        }
    }

    /// A byte more is pasted.
    #[tactic(auto, unfolding(crate::specs::Pastes::pasted_more))]
    fn add(&mut self, byte: u8) -> Action
        ensures { ComesTo (pasted_more byte self.old) self.new result }
    {
        if byte == LINE_FEED {
            self.feed()
        } else {
            self.add_typed(in_profile(byte), byte == CARRIAGE_RETURN)
        }
    }

    /// A line feed is a carriage return, but nothing right after one.
    #[tactic(auto, unfolding(crate::specs::Pastes::after_line_feed, event_bytes::specs::Bytes::is_text_byte))]
    fn feed(&mut self) -> Action
        ensures { ComesTo (line_fed self.old) self.new result }
    {
        if self.after_return {
            self.after_return = false;
            return Action::Nothing;
        }
        self.add_typed(CARRIAGE_RETURN, false)
    }

    /// A byte that can be typed.
    #[tactic(auto, unfolding(crate::specs::Pastes::with_byte))]
    fn add_typed(&mut self, byte: u8, is_return: bool) -> Action
        requires { IsTrue (text_byte byte) }
        ensures { ComesTo (with_byte byte is_return self.old) self.new result }
    {
        self.after_return = is_return;
        self.bytes.add(byte)
    }

    /// What is in no event yet is typed, as the paste ends.
    pub fn ended(&self) -> Action
        ensures { result ≡ typed_by self.now.bytes }
    {
        self.bytes.typed()
    }
}

/// The event that types the bytes; nothing where there are none, or they can't be typed.
#[tactic(auto, unfolding(crate::specs::Pastes::typing_action))]
pub(crate) fn typed(bytes: &[u8]) -> Action
    ensures { result ≡ typed_by bytes.now }
{
    match TypedBytes::new(bytes) {
        None => Action::Nothing,
        Some(bytes) => Action::Post(Event::Typed(bytes)),
    }
}

/// A byte that can be typed: this one, or else a question mark.
#[tactic(auto, unfolding(crate::specs::Pastes::in_profile, event_bytes::specs::Bytes::is_text_byte))]
fn in_profile(byte: u8) -> u8
    ensures byte { result ≡ profile_byte byte }
    ensures typed { IsTrue (text_byte result) }
{
    if is_text_byte(byte) { byte } else { b'?' }
}

/// Whether a byte of what is pasted becomes a question mark.
fn is_unfit(byte: u8) -> bool
    ensures { result ≡ is_unfit byte }
{
    byte != LINE_FEED && !is_text_byte(byte)
}

/// Whether a press within what is pasted is a character that becomes a question mark.
#[tactic(auto, unfolding(crate::specs::Pastes::becomes_mark))]
pub fn becomes_mark(press: Press) -> bool
    ensures { result ≡ becomes_mark press }
{
    match press {
        Press::Character(byte) | Press::Control(byte) => is_unfit(byte),
        Press::Foreign | Press::Back | Press::Escape => true,
        Press::Delete | Press::Arrow(_) | Press::Leap(_) | Press::Scroll(_) => false,
        Press::Page(_) | Press::Function(_) => false,
        Press::Mouse(_) | Press::Wheel(_) => false,
        Press::PasteBegins | Press::PasteEnds | Press::Size(_, _) => false,
        Press::FileFails | Press::Unknown => false,
    }
}

/// The byte that a press is within what is pasted. None where it was no part of that.
#[tactic(auto, unfolding(crate::specs::Pastes::pasted_byte))]
fn byte_of(press: Press) -> Option<u8>
    ensures { result ≡ pasted_byte press }
{
    match press {
        Press::Character(byte) | Press::Control(byte) => Some(byte),
        Press::Foreign | Press::Back | Press::Escape => Some(b'?'),
        Press::Delete | Press::Arrow(_) | Press::Leap(_) | Press::Scroll(_) => None,
        Press::Page(_) | Press::Function(_) => None,
        Press::Mouse(_) | Press::Wheel(_) => None,
        Press::PasteBegins | Press::PasteEnds | Press::Size(_, _) => None,
        Press::FileFails | Press::Unknown => None,
    }
}
