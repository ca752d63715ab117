//! What the keys mean while the past is shown.
ghost use Rattle.std.specs.Prelude.{◌≡◌, None, Some, MatchOption};

use event_bytes::Event;
use host_names::{HostName, is_host_byte};
use terminal_presses::{Action, Arrow, Hand, Page, Press, Scroll, Sight, Spot};

/// The byte of Ctrl-P.
pub const CONTROL_P: u8 = 16;

/// The byte of Ctrl-Q.
pub const CONTROL_Q: u8 = 17;

/// The letter by which one leaves the past.
pub const LEAVES: u8 = b'q';

/// How many events PageUp and PageDown go by.
pub(crate) const PAGE_EVENTS: u64 = 256;

/// The byte of Ctrl-C.
const CONTROL_C: u8 = 3;

/// The byte of Ctrl-L.
const CONTROL_L: u8 = 12;

/// The byte of the key Return.
const RETURN: u8 = 13;

/// Another moment that is wished.
#[derive(Clone, Copy, Debug, PartialEq, Eq)]
pub enum Way {
    /// An event earlier.
    Back,
    /// An event later.
    Forth,
    /// A step of a hand earlier.
    StepBack,
    /// A step of a hand later.
    StepForth,
    /// `PAGE_EVENTS` events earlier.
    PageBack,
    /// As many later.
    PageForth,
    /// The oldest moment.
    First,
    /// The present.
    Last,
}

/// What a press comes to.
#[derive(Debug, PartialEq, Eq, Drop)]
pub enum Wish {
    /// Nothing.
    Nothing,
    /// That key means nothing: the terminal rings.
    Ring,
    /// Another moment is to be shown.
    Go(Way),
    /// The moment is to be shown before which the word that is sought went from the screen last.
    Seek,
    /// What is selected at the moment that is shown is to be copied.
    Copy,
    /// The mouse does this at the moment that is shown.
    Point(Event),
    /// The wheel is turned there over a cell: up, or down.
    Wheel(Spot, bool),
    /// The store is to be turned back to the moment that is shown.
    Turn,
    /// The person goes back to the sitting.
    Leave,
    /// All that the terminal shows is shown anew, and its size is asked for.
    LookAnew,
    /// Other rows of the display come into sight, or the columns of a side.
    Move(Page),
    /// The terminal has so many rows, and so many columns.
    Fit(u16, u16),
}

/// What was pressed while the past is shown, as far as what is pressed next depends on it.
#[derive(Drop)]
pub struct ViewHand {
    /// The word that is asked for, as far as it is typed.
    asked: Option<HostName>,
    /// The word that was sought last.
    sought: HostName,
    /// A text is pasted.
    pastes: bool,
    /// What the buttons of the mouse have done.
    mouse: Hand,
}

impl ViewHand {
    /// Nothing was pressed.
    pub fn new() -> ViewHand {
        ViewHand {
            asked: None,
            sought: HostName::none(),
            pastes: false,
            mouse: Hand::new(),
        }
    }

    /// The word that is asked for, as far as it is typed, where one is.
    pub fn asked(&self) -> Option<&[u8]>
        ensures { MatchOption result (self.now.asked ≡ None)
            (λ word. self.now.asked ≡ Some word.now) }
    {
        match &self.asked {
            None => None,
            Some(word) => Some(word.as_bytes()),
        }
    }

    /// The word that was sought last.
    pub fn sought(&self) -> &[u8] {
        self.sought.as_bytes()
    }

    /// What a press comes to, where this part of the display is in sight.
    pub fn take(&mut self, sight: Sight, press: Press) -> Wish {
        match press {
            Press::PasteBegins => {
                self.pastes = true;
                return Wish::Nothing;
            }
            Press::PasteEnds => {
                self.pastes = false;
                return Wish::Nothing;
            }
            Press::Size(rows, columns) => return Wish::Fit(rows, columns),
            Press::Control(byte) if byte == CONTROL_L => return Wish::LookAnew,
            _ => {}
        }
        match self.asked.take() {
            Some(word) => self.typed(word, press),
            None if self.pastes => Wish::Nothing,
            None => self.fresh(sight, press),
        }
    }

    /// What a press comes to while a word is asked for.
    fn typed(&mut self, word: HostName, press: Press) -> Wish {
        let mut word = word;
        match press {
            Press::Character(byte) if byte == RETURN => {
                if !word.as_bytes().is_empty() {
                    self.sought = word;
                }
                return Wish::Seek;
            }
            Press::Escape => return Wish::Nothing,
            Press::Control(byte) if byte == CONTROL_P => return Wish::Nothing,
            _ => {}
        }
        let wish = spell(&mut word, press);
        self.asked = Some(word);
        wish
    }

    /// What a press comes to while no word is asked for.
    fn fresh(&mut self, sight: Sight, press: Press) -> Wish {
        match press {
            Press::Character(byte) => self.lettered(byte),
            Press::Control(byte) => controlled(byte),
            Press::Escape => Wish::Leave,
            Press::Arrow(arrow) => arrow_way(arrow),
            Press::Leap(Arrow::Left) => Wish::Go(Way::StepBack),
            Press::Leap(Arrow::Right) => Wish::Go(Way::StepForth),
            Press::Scroll(Scroll::PageUp) => Wish::Go(Way::PageBack),
            Press::Scroll(Scroll::PageDown) => Wish::Go(Way::PageForth),
            Press::Scroll(Scroll::First) => Wish::Go(Way::First),
            Press::Scroll(Scroll::Last) => Wish::Go(Way::Last),
            Press::Page(page) => Wish::Move(page),
            Press::Mouse(_) | Press::Wheel(_) => self.pointed(sight, press),
            Press::Unknown | Press::FileFails => Wish::Nothing,
            _ => Wish::Ring,
        }
    }

    /// What the mouse comes to.
    fn pointed(&mut self, sight: Sight, press: Press) -> Wish {
        match self.mouse.take(sight, press) {
            Action::Post(event) => Wish::Point(event),
            Action::Scroll(Some(spot), Scroll::WheelUp) => Wish::Wheel(spot, true),
            Action::Scroll(Some(spot), Scroll::WheelDown) => Wish::Wheel(spot, false),
            _ => Wish::Nothing,
        }
    }

    /// What a letter comes to.
    fn lettered(&mut self, byte: u8) -> Wish {
        if byte == RETURN {
            Wish::Turn
        } else if byte == b'/' {
            self.asked = Some(HostName::none());
            Wish::Nothing
        } else if byte == LEAVES {
            Wish::Leave
        } else {
            Wish::Ring
        }
    }
}

/// A press goes on with a word that is asked for.
fn spell(word: &mut HostName, press: Press) -> Wish {
    match press {
        Press::Character(byte) if is_host_byte(byte) && word.has_room_for_words() => {
            word.add(byte);
            Wish::Nothing
        }
        Press::Back => {
            word.shorten();
            Wish::Nothing
        }
        Press::Mouse(_) | Press::Wheel(_) | Press::Unknown | Press::FileFails => Wish::Nothing,
        _ => Wish::Ring,
    }
}

/// What Ctrl comes to with a letter.
fn controlled(byte: u8) -> Wish {
    if byte == CONTROL_P || byte == CONTROL_Q {
        Wish::Leave
    } else if byte == CONTROL_C {
        Wish::Copy
    } else {
        Wish::Ring
    }
}

/// The moment that an arrow wishes, or Home or End.
fn arrow_way(arrow: Arrow) -> Wish {
    match arrow {
        Arrow::Left => Wish::Go(Way::Back),
        Arrow::Right => Wish::Go(Way::Forth),
        Arrow::WordLeft => Wish::Go(Way::StepBack),
        Arrow::WordRight => Wish::Go(Way::StepForth),
        Arrow::Home => Wish::Go(Way::First),
        Arrow::End => Wish::Go(Way::Last),
        Arrow::Up | Arrow::Down => Wish::Ring,
    }
}
