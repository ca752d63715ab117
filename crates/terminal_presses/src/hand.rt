//! The events that presses make.
ghost use Rattle.std.specs.Prelude.{◌≡◌, ◌<◌, ◌↔◌, Some, None, IsNone, IfSome};
ghost use Rattle.terminal_presses.specs.Hands.{new_hand, handled, pasting as pasting_by, fresh, dropping};
ghost use Rattle.terminal_presses.specs.Hands.{with_pointer, without_pointer, pastes_text};
ghost use Rattle.terminal_presses.specs.Hands.{controlled as controlled_by, control as control_says};
ghost use Rattle.terminal_presses.specs.Pointers.{pointer_cell};
ghost use Rattle.terminal_presses.specs.Outcomes.{ComesTo};

use crate::action::{Action, Click};
use crate::asks::Asks;
use crate::gesture::Gesture;
use crate::keys::scroll_place;
use crate::paste::{LINE_FEED, Paste, typed};
use crate::pointer::Pointer;
use crate::press::Press;
use crate::sight::Sight;
use crate::spot::Spot;
use event_bytes::{CARRIAGE_RETURN, Event, Key};
use host_names::HostName;
use viewer_tracks::{COLUMNS, ROWS};

/// The byte of Ctrl-A.
pub(crate) const CONTROL_A: u8 = 1;
/// The byte of Ctrl-B.
pub const CONTROL_B: u8 = 2;
/// The byte of Ctrl-C.
pub(crate) const CONTROL_C: u8 = 3;
/// The byte of Ctrl-E.
pub(crate) const CONTROL_E: u8 = 5;
/// The byte of Ctrl-F.
pub(crate) const CONTROL_F: u8 = 6;
/// The byte of Ctrl-G.
pub(crate) const CONTROL_G: u8 = 7;
/// The byte of Ctrl-K.
pub(crate) const CONTROL_K: u8 = 11;
/// The byte of Ctrl-L.
pub(crate) const CONTROL_L: u8 = 12;
/// The byte of Ctrl-O.
pub(crate) const CONTROL_O: u8 = 15;
/// The byte of Ctrl-Q.
pub(crate) const CONTROL_Q: u8 = 17;
/// The byte of Ctrl-R.
pub(crate) const CONTROL_R: u8 = 18;
/// The byte of Ctrl-S.
pub(crate) const CONTROL_S: u8 = 19;
/// The byte of Ctrl-T.
pub(crate) const CONTROL_T: u8 = 20;
/// The byte of Ctrl-U.
pub(crate) const CONTROL_U: u8 = 21;
/// The byte of Ctrl-V.
pub(crate) const CONTROL_V: u8 = 22;
/// The byte of Ctrl-W.
pub(crate) const CONTROL_W: u8 = 23;
/// The byte of Ctrl-X.
pub(crate) const CONTROL_X: u8 = 24;
/// The byte of Ctrl-Y.
pub const CONTROL_Y: u8 = 25;
/// The byte of Ctrl-Z.
pub(crate) const CONTROL_Z: u8 = 26;

/// What was pressed so far, as far as later events depend on it.
#[derive(Drop)]
pub struct Hand {
    pub(crate) armed: Option<Click>,
    pub(crate) gesture: Option<Gesture>,
    pub(crate) paste: Option<Paste>,
    pub(crate) asked: Option<HostName>,
    /// What is asked for, if anything.
    pub asks: Asks,
    pub(crate) pointer: Pointer,
}

impl Hand {
    /// A hand that has pressed nothing.
    pub fn new() -> Hand
        ensures { result ≡ new_hand }
    {
        Hand {
            armed: None,
            gesture: None,
            paste: None,
            asked: None,
            asks: Asks::File,
            pointer: Pointer::nowhere(),
        }
    }

    /// What the next click is to be, where a function key has said so.
    pub fn armed(&self) -> Option<Click>
        ensures { result ≡ self.now.armed }
    {
        self.armed
    }

    /// The column and the row of the display at which a pointer is shown that keys move, both counted from 0 at the lower
    /// left.
    pub fn pointer(&self) -> Option<(u8, u8)>
        ensures value { result ≡ pointer_cell self.now.pointer }
        ensures column { IfSome result (λ at. at.0 < COLUMNS) }
        ensures row { IfSome result (λ at. at.1 < ROWS) }
    {
        self.pointer.cell()
    }

    /// The name of a host file, the number of a line, or the words that are sought, as far as they are typed, where they
    /// are asked for.
    pub fn asked(&self) -> Option<&[u8]>
        ensures none { IsNone result ↔ (self.now.asked ≡ None) }
        ensures name { IfSome result (λ name. self.now.asked ≡ Some name.now) }
    {
        match &self.asked {
            None => None,
            Some(name) => Some(name.as_bytes()),
        }
    }

    /// Whether a text is pasted.
    pub fn pastes_text(&self) -> bool
        ensures { result ≡ pastes_text self.now }
    {
        self.paste.is_some() && self.asked.is_none()
    }

    /// The rest of the text that is pasted, if one is, comes to nothing.
    pub fn drop_rest(&mut self)
        ensures { self.new ≡ dropping self.old }
    {
        if let Some(paste) = &mut self.paste {
            paste.drop_rest();
        }
    }

    /// The pointer that keys move is shown at the cell in that column and that row of the display, both counted from 0 at
    /// the lower left.
    pub fn move_pointer(&mut self, at: (u8, u8))
        ensures { self.new ≡ with_pointer at self.old }
    {
        self.pointer = self.pointer.moved_to(Spot { x: at.0, y: at.1 });
    }

    /// Nothing is pointed at any more: the pointer that keys move is put away, where it is shown, and the place counts no
    /// longer at which the mouse has pointed last.
    pub fn point_nowhere(&mut self)
        ensures { self.new ≡ without_pointer self.old }
    {
        self.pointer = self.pointer.unpointed();
    }

    /// What a press comes to, where this part of the display is in sight.
    #[tactic(auto, unfolding(crate::specs::Hands::handled, crate::specs::Hands::by_question))]
    pub fn take(&mut self, sight: Sight, press: Press) -> Action
        ensures { ComesTo (handled sight press self.old) self.new result }
    {
        match (self.asked.take(), self.paste.is_some()) {
            (None, false) => self.fresh(sight, press),
            (None, true) => self.pasting(press),
            (Some(name), pastes) => match self.asks {
                Asks::File => self.named(name, pastes, press),
                Asks::Line => self.numbered(name, pastes, press),
                Asks::Words => self.worded(name, false, pastes, press),
                Asks::WordsBefore => self.worded(name, true, pastes, press),
            },
        }
    }

    /// What a press comes to while a text is pasted.
    #[tactic(auto, unfolding(crate::specs::Hands::pasting))]
    fn pasting(&mut self, press: Press) -> Action
        ensures { ComesTo (pasting_by self.old.paste press self.old) self.new result }
    {
        let Some(paste) = &mut self.paste else {
            return Action::Nothing;
        };
        if !matches!(press, Press::PasteEnds) {
            return paste.take(press);
        }
        let action = paste.ended();
        self.paste = None;
        action
    }

    /// What a press comes to while nothing is pasted.
    #[tactic(auto, unfolding(crate::specs::Hands::fresh))]
    fn fresh(&mut self, sight: Sight, press: Press) -> Action
        ensures { ComesTo (fresh sight press self.old) self.new result }
    {
        match press {
            Press::Character(byte) => self.character(byte),
            Press::Foreign => Action::Ring,
            Press::Control(byte) => self.controlled(byte),
            Press::Back => Action::Post(Event::Key(Key::Back)),
            Press::Delete => Action::Delete,
            Press::Escape => self.escaped(),
            Press::Arrow(arrow) => self.arrow(1, arrow),
            Press::Leap(arrow) => self.leap(arrow),
            Press::Scroll(scroll) => Action::Scroll(
                scroll_place(scroll, self.pointer.place()),
                scroll,
            ),
            Press::Page(page) => Action::Move(page),
            Press::Function(key) => self.function(sight, key),
            Press::Mouse(report) => self.reported(sight, report),
            Press::Wheel(report) => self.wheeled(sight, report),
            Press::PasteBegins => {
                self.paste = Some(Paste::new());
                Action::Nothing
            }
            Press::PasteEnds | Press::Unknown => Action::Nothing,
            Press::Size(rows, columns) => Action::Fit(rows, columns),
            Press::FileFails => Action::FileFailed,
        }
    }

    /// What the key Ctrl comes to with a letter.
    #[tactic(auto, unfolding(crate::specs::Hands::controlled))]
    fn controlled(&mut self, byte: u8) -> Action
        ensures { ComesTo (controlled_by byte self.old) self.new result }
    {
        if byte == CONTROL_G {
            self.ask(Asks::Line)
        } else if byte == CONTROL_O {
            self.ask(Asks::File)
        } else {
            control(byte)
        }
    }
}

/// What the key Ctrl comes to with a letter that says nothing to the hand itself.
#[tactic(auto, unfolding(crate::specs::Hands::control))]
fn control(byte: u8) -> Action
    ensures { result ≡ control_says byte }
{
    match byte {
        CONTROL_A => Action::SelectAll,
        CONTROL_B => Action::SearchBefore,
        CONTROL_C => Action::Post(Event::Key(Key::Copy)),
        CONTROL_E => Action::CallLine,
        CONTROL_F => Action::Search,
        LINE_FEED => typed(&[CARRIAGE_RETURN]),
        CONTROL_K => Action::CutLine,
        CONTROL_L => Action::LookAnew,
        CONTROL_Q => Action::Leave,
        CONTROL_R => Action::Replace,
        CONTROL_S => Action::Store,
        CONTROL_T => Action::Mark,
        CONTROL_U => Action::Refill,
        CONTROL_V => Action::Post(Event::Key(Key::Paste)),
        CONTROL_W => Action::Fill,
        CONTROL_X => Action::Post(Event::Key(Key::Cut)),
        CONTROL_Y => Action::Redo,
        CONTROL_Z => Action::Undo,
        _ => Action::Ring,
    }
}
