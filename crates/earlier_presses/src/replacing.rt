//! What is typed where the pattern was found, and is typed again in another such place.
ghost use Rattle.std.specs.Prelude.{◌≡◌, length, nat_lt};
ghost use Rattle.earlier_presses.specs.Replacing.{first_typed, is_untouched, is_untyped, kept_of, left_place};
ghost use Rattle.earlier_presses.specs.Replacing.{is_replaced, is_same_typing, no_replacing, noted, nothing_typed};
ghost use Rattle.earlier_presses.specs.Replacing.{replaced_by, replacement, rest_typed, rubbed, searched, typed_behind};
ghost use Rattle.earlier_presses.specs.Replacing.{with_back, with_typed};

use arrayvec::ArrayVec;
use event_bytes::{Event, Key, TypedBytes};
use std::marker::Model;
use terminal_presses::Action;

/// How many Backspaces, and how many bytes, are kept at most.
pub const MOST_TYPED: usize = 64;

/// So many Backspaces, and the bytes that are typed then: 64 at most of each.
#[derive(Drop)]
pub struct Typing {
    backs: u8,
    bytes: ArrayVec<u8, MOST_TYPED>,
}

impl Model for Typing {
    ghost use Rattle.std.specs.Prelude.{IsTrue};
    ghost use Rattle.std.specs.List.{list_all};
    ghost use Rattle.event_bytes.specs.Bytes.{is_text_byte};
    ghost use Rattle.earlier_presses.specs.Replacing.{TypingView};

    ghost Value = { TypingView };

    ghost view = { λ t. record { backs = t.backs; bytes = t.bytes.items } };

    ghost invariant = { λ t. IsTrue (list_all is_text_byte t.bytes.items) };
}

impl Typing {
    /// Nothing.
    fn none() -> Typing
        ensures { result ≡ nothing_typed }
    {
        Typing {
            backs: 0,
            bytes: ArrayVec::new(),
        }
    }

    /// These bytes. None where there is no room for them.
    pub fn of(bytes: &TypedBytes) -> Option<Typing>
        ensures { result ≡ typed_behind bytes.now nothing_typed }
    {
        Typing::none().with(bytes)
    }

    /// Whether it is nothing.
    fn is_none(&self) -> bool
        ensures { result ≡ is_untyped self.now }
    {
        self.backs == 0 && self.bytes.is_empty()
    }

    /// Whether the same is typed by both.
    fn is_same(&self, other: &Typing) -> bool
        ensures { result ≡ is_same_typing self.now other.now }
    {
        self.backs == other.backs && self.bytes.as_slice() == other.bytes.as_slice()
    }

    /// Whether it types a byte.
    pub fn types(&self) -> bool
        ensures { result ≡ nat_lt 0 (length self.now.bytes) }
    {
        !self.bytes.is_empty()
    }

    /// The same once more.
    fn copied(&self) -> Typing
        ensures { result ≡ self.now }
    {
        let mut bytes = ArrayVec::new();
        bytes.try_extend_from_slice(self.bytes.as_slice()).unwrap();
        Typing {
            backs: self.backs,
            bytes,
        }
    }

    /// With these bytes more. None where there is no room for them.
    fn with(self, bytes: &TypedBytes) -> Option<Typing>
        ensures { result ≡ typed_behind bytes.now self }
    {
        let mut typing = self;
        match typing.bytes.try_extend_from_slice(bytes.as_bytes()) {
            Ok(()) => Some(typing),
            Err(_) => None,
        }
    }

    /// With a Backspace. None where there is no room for it.
    fn rubbed(self) -> Option<Typing>
        ensures { result ≡ rubbed self }
    {
        let mut typing = self;
        if !typing.bytes.is_empty() {
            typing.bytes.pop();
            return Some(typing);
        }
        if usize::from(typing.backs) < MOST_TYPED {
            typing.backs += 1;
            return Some(typing);
        }
        None
    }

    /// Its first event. None where it is nothing.
    #[tactic(auto, unfolding(crate::specs::Replacing::first_typed))]
    pub fn first(&self) -> Option<Event>
        ensures { result ≡ first_typed self.now }
    {
        if self.backs > 0 {
            return Some(Event::Key(Key::Back));
        }
        match self.bytes.as_slice().first() {
            None => None,
            Some(byte) => Some(Event::Typed(TypedBytes::new(&[*byte]).unwrap())),
        }
    }

    /// What is left of it behind its first event.
    #[tactic(auto, unfolding(crate::specs::Replacing::rest_typed))]
    pub fn rest(self) -> Typing
        ensures { result ≡ rest_typed self }
    {
        let mut typing = self;
        if typing.backs > 0 {
            typing.backs -= 1;
        } else if !typing.bytes.is_empty() {
            typing.bytes.remove(0);
        }
        typing
    }
}

/// What was typed where the pattern was found, and what one press types in another such place.
///
/// A clause sees what was `typed` since the pattern was searched, where nothing else was done since, and what is `kept`:
/// what was typed where it had been found the time before.
#[derive(Drop)]
pub struct Replacing {
    typed: Option<Typing>,
    kept: Typing,
}

impl Model for Replacing {
    ghost use Rattle.earlier_presses.specs.Replacing.{ReplacingView};

    ghost Value = { ReplacingView };

    ghost view = { λ r. record { typed = r.typed; kept = r.kept } };
}

impl Replacing {
    /// Nothing was searched.
    pub fn none() -> Replacing
        ensures { result ≡ no_replacing }
    {
        Replacing {
            typed: None,
            kept: Typing::none(),
        }
    }

    /// Something else was done.
    pub fn leave(&mut self)
        ensures { self.new ≡ left_place self.old }
    {
        self.typed = None;
    }

    /// Whether the pattern was searched, and nothing was done since.
    pub fn is_untouched(&self) -> bool
        ensures { result ≡ is_untouched self.now.typed }
    {
        match &self.typed {
            None => false,
            Some(typing) => typing.is_none(),
        }
    }

    /// Whether the same was typed where it was found as the time before, and nothing else was done since.
    pub fn is_replaced(&self) -> bool
        ensures { result ≡ is_replaced self.now }
    {
        match &self.typed {
            None => false,
            Some(typing) => !typing.is_none() && typing.is_same(&self.kept),
        }
    }

    /// What is to be typed in its place now. None where it wasn't searched right before, or nothing was typed there.
    #[tactic(auto, unfolding(crate::specs::Replacing::replacement))]
    pub fn replacement(&self) -> Option<Typing>
        ensures { result ≡ replacement self.now }
    {
        if self.is_untouched() && !self.kept.is_none() {
            Some(self.kept.copied())
        } else {
            None
        }
    }

    /// A press is to be done: what it leaves of this, if it is done.
    #[tactic(auto, unfolding(crate::specs::Replacing::noted))]
    pub fn note(&mut self, action: &Action)
        ensures { self.new ≡ noted action.now self.old }
    {
        match action {
            Action::Post(Event::Typed(bytes)) => self.add(bytes),
            Action::Post(Event::Key(Key::Back)) => self.rub(),
            Action::Search | Action::SearchBefore | Action::Find(_, _) => self.search(),
            Action::Replace => self.replace(),
            Action::Nothing | Action::Ring | Action::LookAnew | Action::Leave => {}
            Action::TypeFile(_) | Action::Move(_) | Action::Seek(_) => {}
            Action::Fill | Action::Fit(_, _) | Action::FileFailed => {}
            _ => self.leave(),
        }
    }

    /// Bytes are typed.
    fn add(&mut self, bytes: &TypedBytes)
        ensures { self.new ≡ with_typed bytes.now self.old }
    {
        if let Some(typing) = self.typed.take() {
            self.typed = typing.with(bytes);
        }
    }

    /// A Backspace is pressed.
    fn rub(&mut self)
        ensures { self.new ≡ with_back self.old }
    {
        if let Some(typing) = self.typed.take() {
            self.typed = typing.rubbed();
        }
    }

    /// The pattern is searched.
    fn search(&mut self)
        ensures { self.new ≡ searched self.old }
    {
        if let Some(typing) = self.typed.take()
            && !typing.is_none()
        {
            self.kept = typing;
        }
        self.typed = Some(Typing::none());
    }

    /// What is kept is typed in its place, if it is to be.
    fn replace(&mut self)
        ensures { self.new ≡ replaced_by (replacement self.old) self.old }
    {
        if let Some(typing) = self.replacement() {
            self.typed = Some(typing);
        }
    }
}
