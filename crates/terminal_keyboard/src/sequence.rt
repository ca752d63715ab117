//! Sequences: an escape byte, `[`, numbers, and a last byte.
ghost use Rattle.std.specs.Prelude.{◌≡◌, ◌<◌};
ghost use Rattle.terminal_keyboard.specs.Presses.{function_at, arrow_at, lettered as letter_says};
ghost use Rattle.terminal_keyboard.specs.Presses.{numbered_key as number_says, longer as longer_number, no_numbers};
ghost use Rattle.terminal_keyboard.specs.Presses.{with_digit, with_number, mouse_mark, reported_press, moused, sized};
ghost use Rattle.terminal_keyboard.specs.Presses.{tells_last_cell, unmarked_press};
ghost use Rattle.terminal_keyboard.specs.Presses.{sequence_end, is_bare_sequence, wheel_press, held_with};
ghost use Rattle.terminal_keyboard.specs.Presses.{with_alt as alt_says, with_control as control_says};
ghost use Rattle.terminal_keyboard.specs.Presses.{with_shift as shift_says};
ghost use Rattle.terminal_keyboard.specs.Presses.{arrow_with_alt as arrow_alternate};
ghost use Rattle.terminal_keyboard.specs.Presses.{arrow_with_control as arrow_controlled};
ghost use Rattle.terminal_keyboard.specs.Presses.{scroll_with_alt as scroll_alternate};

use crate::place::{Mark, Numbers, SequencePlace};
use terminal_presses::{
    Arrow, Button, FunctionKey, MouseReport, Page, Press, Presses, Scroll, WheelReport,
};

/// The function key at a place, counted from 0.
#[tactic(auto, unfolding(crate::specs::Presses::function_at))]
pub(crate) fn function(index: u8) -> Press
    ensures { result ≡ function_at index }
{
    let all = [
        FunctionKey::F1,
        FunctionKey::F2,
        FunctionKey::F3,
        FunctionKey::F4,
        FunctionKey::F5,
        FunctionKey::F6,
        FunctionKey::F7,
        FunctionKey::F8,
        FunctionKey::F9,
        FunctionKey::F10,
        FunctionKey::F11,
        FunctionKey::F12,
    ];
    match all.get(index as usize) {
        None => Press::Unknown,
        Some(key) => Press::Function(*key),
    }
}

/// The arrow at a place, counted from 0.
#[tactic(auto, unfolding(crate::specs::Presses::arrow_at))]
fn arrow(index: u8) -> Press
    ensures { result ≡ arrow_at index }
{
    let all = [Arrow::Up, Arrow::Down, Arrow::Right, Arrow::Left];
    match all.get(index as usize) {
        None => Press::Unknown,
        Some(key) => Press::Arrow(*key),
    }
}

/// The key that is spelled by a letter.
#[tactic(auto, unfolding(crate::specs::Presses::lettered))]
pub(crate) fn lettered(letter: u8) -> Press
    ensures { result ≡ letter_says letter }
{
    if b'A' <= letter && letter <= b'D' {
        arrow(letter - b'A')
    } else if b'P' <= letter && letter <= b'S' {
        function(letter - b'P')
    } else if letter == b'F' {
        Press::Arrow(Arrow::End)
    } else if letter == b'H' {
        Press::Arrow(Arrow::Home)
    } else {
        Press::Unknown
    }
}

/// A key with what is held with it, by the second number of its sequence.
#[tactic(auto, unfolding(crate::specs::Presses::held_with))]
fn held_with(number: u16, press: Press) -> Press
    ensures { result ≡ held_with number press }
{
    if number == 2 {
        with_shift(press)
    } else if number == 3 {
        with_alt(press)
    } else if number == 5 {
        with_control(press)
    } else {
        press
    }
}

/// A key with Shift, where it means another one.
#[tactic(auto, unfolding(crate::specs::Presses::with_shift))]
fn with_shift(press: Press) -> Press
    ensures { result ≡ shift_says press }
{
    match press {
        Press::Arrow(arrow) => Press::Leap(arrow),
        other => other,
    }
}

/// A key with Alt, where it means another one.
#[tactic(auto, unfolding(crate::specs::Presses::with_alt))]
fn with_alt(press: Press) -> Press
    ensures { result ≡ alt_says press }
{
    match press {
        Press::Scroll(scroll) => scroll_with_alt(scroll),
        Press::Arrow(arrow) => arrow_with_alt(arrow),
        other => other,
    }
}

/// A key that moves the caret, with Alt: the arrows to the sides show the columns of a side.
#[tactic(auto, unfolding(crate::specs::Presses::arrow_with_alt))]
fn arrow_with_alt(arrow: Arrow) -> Press
    ensures { result ≡ arrow_alternate arrow }
{
    match arrow {
        Arrow::Right => Press::Page(Page::Right),
        Arrow::Left => Press::Page(Page::Left),
        Arrow::Up | Arrow::Down | Arrow::Home | Arrow::End | Arrow::WordRight | Arrow::WordLeft =>
            Press::Arrow(arrow),
    }
}

/// A key that moves the text of a viewer, with Alt: those that go a page further move the rows in sight.
#[tactic(auto, unfolding(crate::specs::Presses::scroll_with_alt))]
fn scroll_with_alt(scroll: Scroll) -> Press
    ensures { result ≡ scroll_alternate scroll }
{
    match scroll {
        Scroll::PageUp => Press::Page(Page::Up),
        Scroll::PageDown => Press::Page(Page::Down),
        Scroll::WheelUp | Scroll::WheelDown | Scroll::First | Scroll::Last => Press::Scroll(scroll),
    }
}

/// A key with Ctrl, where it means another one.
#[tactic(auto, unfolding(crate::specs::Presses::with_control))]
fn with_control(press: Press) -> Press
    ensures { result ≡ control_says press }
{
    match press {
        Press::Arrow(arrow) => arrow_with_control(arrow),
        other => other,
    }
}

/// A key that moves the caret, with Ctrl: an arrow goes by words, and the ends are those of the text.
#[tactic(auto, unfolding(crate::specs::Presses::arrow_with_control))]
fn arrow_with_control(arrow: Arrow) -> Press
    ensures { result ≡ arrow_controlled arrow }
{
    match arrow {
        Arrow::Right => Press::Arrow(Arrow::WordRight),
        Arrow::Left => Press::Arrow(Arrow::WordLeft),
        Arrow::Home => Press::Scroll(Scroll::First),
        Arrow::End => Press::Scroll(Scroll::Last),
        Arrow::Up | Arrow::Down | Arrow::WordRight | Arrow::WordLeft => Press::Arrow(arrow),
    }
}

/// The key that is spelled by a number.
#[tactic(auto, unfolding(crate::specs::Presses::numbered_key))]
fn numbered(number: u16) -> Press
    ensures { result ≡ number_says number }
{
    if 11 <= number && number <= 15 {
        function((number - 11) as u8)
    } else if 17 <= number && number <= 21 {
        function((number - 12) as u8)
    } else if 23 <= number && number <= 24 {
        function((number - 13) as u8)
    } else if number == 5 {
        Press::Scroll(Scroll::PageUp)
    } else if number == 6 {
        Press::Scroll(Scroll::PageDown)
    } else if number == 3 {
        Press::Delete
    } else if number == 1 || number == 7 {
        Press::Arrow(Arrow::Home)
    } else if number == 4 || number == 8 {
        Press::Arrow(Arrow::End)
    } else if number == 200 {
        Press::PasteBegins
    } else if number == 201 {
        Press::PasteEnds
    } else if number == 202 {
        Press::FileFails
    } else {
        Press::Unknown
    }
}

/// A number with a digit more, as far as it is told apart.
#[tactic(auto, unfolding(crate::specs::Presses::longer))]
fn longer(number: u16, digit: u8) -> u16
    requires { digit < 10 }
    ensures { result ≡ longer_number number digit }
{
    let more = number as u32 * 10 + digit as u32;
    more.min(u16::MAX as u32) as u16
}

impl Numbers {
    /// No numbers yet.
    pub fn none() -> Numbers
        ensures { result ≡ no_numbers }
    {
        Numbers {
            mark: Mark::Plain,
            last: 0,
            first: 0,
            second: 0,
            third: 0,
        }
    }

    /// The number that stands last has a digit more.
    #[tactic(auto, unfolding(crate::specs::Presses::with_digit))]
    pub fn with_digit(self, digit: u8) -> Numbers
        requires { digit < 10 }
        ensures { result ≡ with_digit self digit }
    {
        let mut numbers = self;
        if self.last == 0 {
            numbers.first = longer(self.first, digit);
        } else if self.last == 1 {
            numbers.second = longer(self.second, digit);
        } else if self.last == 2 {
            numbers.third = longer(self.third, digit);
        }
        numbers
    }

    /// Another number begins.
    #[tactic(auto, unfolding(crate::specs::Presses::with_number))]
    pub fn with_number(self) -> Numbers
        ensures { result ≡ with_number self }
    {
        let last = if self.last < 3 { self.last + 1 } else { 3 };
        Numbers { last, ..self }
    }

    /// The mark of mouse reports stands in front.
    #[tactic(auto, unfolding(crate::specs::Presses::mouse_mark))]
    pub fn marked(self) -> Numbers
        ensures { result ≡ mouse_mark self self.mark }
    {
        let mark = match self.mark {
            Mark::Plain => Mark::Mouse,
            Mark::Mouse | Mark::Odd => Mark::Odd,
        };
        Numbers { mark, ..self }
    }

    /// Whether nothing is heard of them yet.
    #[tactic(auto, unfolding(crate::specs::Presses::is_bare_sequence))]
    pub fn is_bare(self) -> bool
        ensures { result ≡ is_bare_sequence self }
    {
        matches!(self.mark, Mark::Plain) && self.last == 0 && self.first == 0
    }

    /// What a sequence of these numbers says that ends with this byte.
    #[tactic(auto, unfolding(crate::specs::Presses::sequence_end))]
    pub fn ended(self, last: u8) -> (SequencePlace, Presses)
        ensures { result ≡ sequence_end self self.mark last }
    {
        match self.mark {
            Mark::Plain => {
                if last == b'M' {
                    (SequencePlace::Report(3), Presses::Nothing)
                } else {
                    (SequencePlace::Ground, Presses::One(self.plain(last)))
                }
            }
            Mark::Mouse => (SequencePlace::Ground, Presses::One(self.moused(last))),
            Mark::Odd => (SequencePlace::Ground, Presses::One(Press::Unknown)),
        }
    }

    /// What a sequence with no mark says.
    #[tactic(auto, unfolding(crate::specs::Presses::unmarked_press))]
    fn plain(self, last: u8) -> Press
        ensures { result ≡ unmarked_press self last }
    {
        if last == b'~' {
            held_with(self.second, numbered(self.first))
        } else if last == b't' {
            self.sized()
        } else if self.tells_last_cell(last) {
            Press::Size(self.first, self.second)
        } else {
            held_with(self.second, lettered(last))
        }
    }

    /// Whether it tells where the cursor is, which was sent to the last cell before. No row below the first one is told so
    /// by a key.
    fn tells_last_cell(self, last: u8) -> bool
        ensures { result ≡ tells_last_cell self last }
    {
        last == b'R' && self.first > 1
    }

    /// The terminal's size, as its answer or as news.
    #[tactic(auto, unfolding(crate::specs::Presses::sized))]
    fn sized(self) -> Press
        ensures { result ≡ sized self }
    {
        if self.first == 8 || self.first == 48 {
            Press::Size(self.second, self.third)
        } else {
            Press::Unknown
        }
    }

    /// What a mouse report says.
    #[tactic(auto, unfolding(crate::specs::Presses::moused))]
    fn moused(self, last: u8) -> Press
        ensures { result ≡ moused self last }
    {
        if last == b'M' {
            self.reported(true)
        } else if last == b'm' {
            self.reported(false)
        } else {
            Press::Unknown
        }
    }

    /// What is reported of the wheel.
    #[tactic(auto, unfolding(crate::specs::Presses::wheel_press))]
    fn wheeled(self, is_down: bool) -> Press
        ensures { result ≡ wheel_press self is_down }
    {
        if self.first < 64 || 95 < self.first || !is_down {
            return Press::Unknown;
        }
        match [true, false].get((self.first % 4) as usize) {
            None => Press::Unknown,
            Some(is_up) => Press::Wheel(WheelReport {
                is_up: *is_up,
                column: self.second,
                row: self.third,
            }),
        }
    }

    /// What is reported of a button that goes down or up, or of the wheel.
    #[tactic(auto, unfolding(crate::specs::Presses::reported_press))]
    fn reported(self, is_down: bool) -> Press
        ensures { result ≡ reported_press self is_down }
    {
        if self.first >= 32 {
            return self.wheeled(is_down);
        }
        let buttons = [Button::Left, Button::Middle, Button::Right];
        match buttons.get((self.first % 4) as usize) {
            None => Press::Unknown,
            Some(button) => Press::Mouse(MouseReport {
                button: *button,
                is_down,
                with_shift: self.first / 4 % 2 == 1,
                with_alt: self.first / 8 % 2 == 1,
                with_control: self.first / 16 % 2 == 1,
                column: self.second,
                row: self.third,
            }),
        }
    }
}
