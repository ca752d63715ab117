//! Gestures of the mouse: from the first button that goes down to the last that goes up.
ghost use Rattle.std.specs.Prelude.{◌≡◌};
ghost use Rattle.terminal_presses.specs.Gestures.{no_buttons, is_none_down as none_down, is_down as down, with_button};
ghost use Rattle.terminal_presses.specs.Gestures.{by_button as of_button, keys_with_button as joined_keys};
ghost use Rattle.terminal_presses.specs.Gestures.{click_called};
ghost use Rattle.terminal_presses.specs.Gestures.{pressed_more, released, released_at};

use crate::action::{Action, Click};
use crate::press::Button;
use crate::spot::Spot;
use event_bytes::{Event, Keys};

/// Which buttons are down.
#[derive(Clone, Copy)]
pub(crate) struct Buttons {
    pub left: bool,
    pub middle: bool,
    pub right: bool,
}

/// A gesture that has begun.
#[derive(Clone, Copy)]
pub(crate) struct Gesture {
    /// What it comes to; None where it is called off.
    pub click: Option<Click>,
    /// Where it began.
    pub start: Spot,
    /// The buttons that are down.
    pub down: Buttons,
}

impl Buttons {
    /// None is down.
    pub fn none() -> Buttons
        ensures { result ≡ no_buttons }
    {
        Buttons {
            left: false,
            middle: false,
            right: false,
        }
    }

    /// Whether none is down.
    pub fn is_empty(self) -> bool
        ensures { result ≡ none_down self }
    {
        !(self.left || self.middle || self.right)
    }

    /// Whether that button is down.
    pub fn has(self, button: Button) -> bool
        ensures { result ≡ down button self }
    {
        by_button(button, self.left, self.middle, self.right)
    }

    /// These, with that button down or up.
    pub fn with(self, button: Button, is_down: bool) -> Buttons
        ensures { result ≡ with_button button is_down self }
    {
        match button {
            Button::Left => Buttons {
                left: is_down,
                ..self
            },
            Button::Middle => Buttons {
                middle: is_down,
                ..self
            },
            Button::Right => Buttons {
                right: is_down,
                ..self
            },
        }
    }
}

impl Gesture {
    /// Another button goes down.
    #[tactic(auto, unfolding(crate::specs::Gestures::pressed_more))]
    pub fn pressed(self, button: Button) -> Gesture
        ensures { result ≡ pressed_more button self }
    {
        Gesture {
            click: called(self.click, button),
            start: self.start,
            down: self.down.with(button, true),
        }
    }

    /// A button goes up.
    #[tactic(auto, unfolding(crate::specs::Gestures::released))]
    pub fn released(self, button: Button) -> Gesture
        ensures { result ≡ released button self }
    {
        Gesture {
            down: self.down.with(button, false),
            ..self
        }
    }

    /// What it comes to, whose last button went up there.
    #[tactic(auto, unfolding(crate::specs::Gestures::released_at))]
    pub fn ended_at(self, end: Spot) -> Action
        ensures { result ≡ released_at self.click self.start end }
    {
        match self.click {
            None => Action::Nothing,
            Some(Click::Mark) => Action::Post(Event::Mark {
                x: self.start.x,
                y: self.start.y,
            }),
            Some(Click::Keys(keys)) => Action::Post(Event::Point {
                keys,
                x0: self.start.x,
                y0: self.start.y,
                x1: end.x,
                y1: end.y,
            }),
        }
    }
}

/// What a gesture comes to in which another button goes down.
#[tactic(auto, unfolding(crate::specs::Gestures::click_called))]
fn called(click: Option<Click>, button: Button) -> Option<Click>
    ensures { result ≡ click_called button click }
{
    match click {
        None => None,
        Some(Click::Mark) => None,
        Some(Click::Keys(keys)) => match joined(keys, button) {
            None => None,
            Some(keys) => Some(Click::Keys(keys)),
        },
    }
}

/// The keys with a button more. None with a third one.
#[tactic(auto, unfolding(crate::specs::Gestures::keys_with_button))]
fn joined(keys: Keys, button: Button) -> Option<Keys>
    ensures { result ≡ joined_keys button keys }
{
    match keys {
        Keys::Left => Some(by_button(button, keys, Keys::LeftMiddle, Keys::LeftRight)),
        Keys::Middle => Some(by_button(button, Keys::MiddleLeft, keys, Keys::MiddleRight)),
        Keys::Right => Some(by_button(button, Keys::RightLeft, Keys::RightMiddle, keys)),
        Keys::LeftMiddle | Keys::MiddleLeft => by_button(button, Some(keys), Some(keys), None),
        Keys::LeftRight | Keys::RightLeft => by_button(button, Some(keys), None, Some(keys)),
        Keys::MiddleRight | Keys::RightMiddle => by_button(button, None, Some(keys), Some(keys)),
    }
}

/// The one of three values that stands for the button.
fn by_button<T: Copy>(button: Button, left: T, middle: T, right: T) -> T
    ensures { result ≡ of_button button left middle right }
{
    match button {
        Button::Left => left,
        Button::Middle => middle,
        Button::Right => right,
    }
}
