//! What keys come to that move a pointer, or say what the next click is.
ghost use Rattle.std.specs.Prelude.{◌≡◌};
ghost use Rattle.terminal_presses.specs.Hands.{hand_after_escape as escaped_by, by_function};
ghost use Rattle.terminal_presses.specs.Hands.{scroll_place as place_of_scroll, hand_after_byte, hand_after_arrow};
ghost use Rattle.terminal_presses.specs.Hands.{clicked, armed_with, arming, hand_after_leap, is_armed_with};
ghost use Rattle.terminal_presses.specs.Hands.{is_same_click as are_same};
ghost use Rattle.terminal_presses.specs.Outcomes.{ComesTo};

use crate::action::{Action, Click};
use crate::asks::Asks;
use crate::gesture::{Buttons, Gesture};
use crate::hand::Hand;
use crate::paste::typed;
use crate::pointer::LEAP;
use crate::press::{Arrow, FunctionKey, Scroll};
use crate::sight::Sight;
use crate::spot::Spot;
use event_bytes::{CARRIAGE_RETURN, Event, Key, Keys, TABULATOR};

impl Hand {
    /// A byte that can be typed. Where the pointer is shown, Return is a click, and a tabulator seeks the next command;
    /// another byte puts it away.
    #[tactic(auto, unfolding(crate::specs::Hands::hand_after_byte))]
    pub(crate) fn character(&mut self, byte: u8) -> Action
        ensures { ComesTo (hand_after_byte byte self.old.pointer.shown self.old) self.new result }
    {
        match self.pointer.shown {
            Some(at) if byte == CARRIAGE_RETURN => self.click(at),
            Some(at) if byte == TABULATOR => Action::Seek(at),
            Some(_) => {
                self.pointer = self.pointer.put_away();
                typed(&[byte])
            }
            None => typed(&[byte]),
        }
    }

    /// An arrow, which moves the pointer by so many cells where that is shown.
    #[tactic(auto, unfolding(crate::specs::Hands::hand_after_arrow))]
    pub(crate) fn arrow(&mut self, cells: u8, arrow: Arrow) -> Action
        ensures { ComesTo (hand_after_arrow cells arrow self.old.pointer.shown self.old) self.new
            result }
    {
        match self.pointer.shown {
            None => Action::Step(arrow),
            Some(at) => {
                self.pointer = self.pointer.moved_to(at.moved(cells, arrow));
                Action::Nothing
            }
        }
    }

    /// An arrow with Shift: it moves the pointer further where that is shown, and else selects.
    #[tactic(auto, unfolding(crate::specs::Hands::hand_after_leap))]
    pub(crate) fn leap(&mut self, arrow: Arrow) -> Action
        ensures { ComesTo (hand_after_leap arrow self.old.pointer.shown self.old) self.new result }
    {
        match self.pointer.shown {
            None => Action::Select(arrow),
            Some(_) => self.arrow(LEAP, arrow),
        }
    }

    /// The click at the cell of the pointer that is shown.
    fn click(&mut self, at: Spot) -> Action
        ensures { ComesTo (clicked at self.old) self.new result }
    {
        let armed = self.armed.take();
        let gesture = Gesture {
            click: Some(armed.unwrap_or(Click::Keys(Keys::Left))),
            start: self.pointer.begins_at(armed, at),
            down: Buttons::none(),
        };
        gesture.ended_at(at)
    }

    /// A function key says what the next click is. The same key again is the click where the pointer is shown.
    #[tactic(auto, unfolding(crate::specs::Hands::armed_with))]
    fn arm(&mut self, click: Click) -> Action
        ensures { ComesTo (armed_with click self.old.pointer.shown self.old) self.new result }
    {
        match self.pointer.shown {
            Some(at) if is_armed_with(click, self.armed) => self.click(at),
            _ => self.begin_click(click),
        }
    }

    /// The next click is that, and a draw begins where the pointer is shown.
    fn begin_click(&mut self, click: Click) -> Action
        ensures { ComesTo (arming click self.old) self.new result }
    {
        self.armed = Some(click);
        self.pointer = self.pointer.started();
        Action::Nothing
    }

    /// The key Escape. Where a function key has said what the next click is, it does no more than call that off, and else
    /// no more than put a pointer away that is shown.
    #[tactic(auto, unfolding(crate::specs::Hands::hand_after_escape))]
    pub(crate) fn escaped(&mut self) -> Action
        ensures { ComesTo (escaped_by self.old) self.new result }
    {
        if self.armed.is_some() {
            self.armed = None;
            return Action::Nothing;
        }
        if self.pointer.shown.is_some() {
            self.pointer = self.pointer.put_away();
            return Action::Nothing;
        }
        Action::Post(Event::Key(Key::Escape))
    }

    /// What a function key comes to.
    #[tactic(auto, unfolding(crate::specs::Hands::by_function))]
    pub(crate) fn function(&mut self, sight: Sight, key: FunctionKey) -> Action
        ensures { ComesTo (by_function sight key self.old) self.new result }
    {
        match key {
            FunctionKey::F1 => self.arm(Click::Mark),
            FunctionKey::F2 => self.arm(Click::Keys(Keys::Middle)),
            FunctionKey::F3 => self.arm(Click::Keys(Keys::Right)),
            FunctionKey::F4 => self.arm(Click::Keys(Keys::LeftMiddle)),
            FunctionKey::F5 => self.arm(Click::Keys(Keys::LeftRight)),
            FunctionKey::F6 => self.arm(Click::Keys(Keys::RightLeft)),
            FunctionKey::F7 => self.arm(Click::Keys(Keys::RightMiddle)),
            FunctionKey::F8 => self.ask(Asks::File),
            FunctionKey::F9 => Action::LookAnew,
            FunctionKey::F10 => Action::Leave,
            FunctionKey::F11 => {
                self.pointer = self.pointer.toggled(sight);
                Action::Nothing
            }
            FunctionKey::F12 => self.arm(Click::Keys(Keys::Left)),
        }
    }
}

/// The viewer whose text a key moves: for a page that under the pointer, and for an end that of the caret.
#[tactic(auto, unfolding(crate::specs::Hands::scroll_place))]
pub(crate) fn scroll_place(scroll: Scroll, pointer: Option<Spot>) -> Option<Spot>
    ensures { result ≡ place_of_scroll scroll pointer }
{
    match scroll {
        Scroll::PageUp | Scroll::PageDown => pointer,
        Scroll::WheelUp | Scroll::WheelDown | Scroll::First | Scroll::Last => None,
    }
}

/// Whether a function key has said that the next click is that one.
#[tactic(auto, unfolding(crate::specs::Hands::is_armed_with))]
fn is_armed_with(click: Click, armed: Option<Click>) -> bool
    ensures { result ≡ is_armed_with click armed }
{
    match armed {
        None => false,
        Some(armed) => is_same(click, armed),
    }
}

/// Whether two clicks are the same.
#[tactic(auto, unfolding(crate::specs::Hands::is_same_click))]
fn is_same(one: Click, other: Click) -> bool
    ensures { result ≡ are_same one other }
{
    match (one, other) {
        (Click::Mark, Click::Mark) => true,
        (Click::Mark, Click::Keys(_)) | (Click::Keys(_), Click::Mark) => false,
        (Click::Keys(some), Click::Keys(others)) => some as u8 == others as u8,
    }
}
