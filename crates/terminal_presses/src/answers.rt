//! What presses come to while a name, a line or words are asked for.
ghost use Rattle.std.specs.Prelude.{◌≡◌, Some, None};
ghost use Rattle.terminal_presses.specs.Hands.{answering as answering_by, pasting_name as pasting_name_by};
ghost use Rattle.terminal_presses.specs.Hands.{with_asked, asks_for, hand_asking, words_asked, worded as worded_by};
ghost use Rattle.terminal_presses.specs.Hands.{answered_on, answering_words as answering_words_by};
ghost use Rattle.terminal_presses.specs.Hands.{pasting_words as pasting_words_by, is_pasting};
ghost use Rattle.terminal_presses.specs.Hands.{numbered as numbered_by};
ghost use Rattle.terminal_presses.specs.Asking.{answered, entered, lengthened, name_after_byte, shortened_name};
ghost use Rattle.terminal_presses.specs.Asking.{controlled_words as controlled_words_by, longer_words};
ghost use Rattle.terminal_presses.specs.Asking.{words_after_byte, controlled_name, by_function_amid, is_no_digit};
ghost use Rattle.terminal_presses.specs.Asking.{line_meant, pasted_name};
ghost use Rattle.terminal_presses.specs.declared.action.Action.TheVariants.{Find};
ghost use Rattle.terminal_presses.specs.Outcomes.{ComesTo};

use crate::action::Action;
use crate::asks::Asks;
use crate::hand::{CONTROL_B, CONTROL_F, CONTROL_L, CONTROL_Q, Hand};
use crate::paste::{LINE_FEED, Paste};
use crate::press::{FunctionKey, Press};
use event_bytes::{CARRIAGE_RETURN, is_digit};
use host_names::{HostName, is_host_byte};

impl Hand {
    /// It is asked for words that are sought behind the caret, or before it.
    pub fn ask_words(&mut self, before: bool)
        ensures { self.new ≡ hand_asking (words_asked before) self.old }
    {
        self.asked = Some(HostName::none());
        self.asks = words_asked(before);
    }

    /// That is asked for.
    pub(crate) fn ask(&mut self, asks: Asks) -> Action
        ensures { ComesTo (asks_for asks self.old) self.new result }
    {
        self.asked = Some(HostName::none());
        self.asks = asks;
        Action::Nothing
    }

    /// What a press comes to while a line is asked for.
    #[tactic(auto, unfolding(crate::specs::Hands::numbered))]
    pub(crate) fn numbered(&mut self, name: HostName, pastes: bool, press: Press) -> Action
        requires { pastes ≡ is_pasting self.old.paste }
        ensures { ComesTo (numbered_by name press (record self.old {
          asked =
              Some name;
        })) self.new result }
    {
        if is_no_digit(press) {
            return self.keep(name, Action::Ring);
        }
        let action = self.named(name, pastes, press);
        line_meant(action)
    }

    /// What a press comes to while a name is asked for, or digits in its place.
    #[tactic(auto, unfolding(crate::specs::Hands::answered_on))]
    pub(crate) fn named(&mut self, name: HostName, pastes: bool, press: Press) -> Action
        requires { pastes ≡ is_pasting self.old.paste }
        ensures { ComesTo (answered_on name press (record self.old {
          asked =
              Some name;
        })) self.new result }
    {
        if pastes {
            self.pasting_name(name, press)
        } else {
            self.answering(name, press)
        }
    }

    /// What a press comes to while a name is asked for that is typed as far as this, and none is pasted.
    #[tactic(auto, unfolding(crate::specs::Hands::answering))]
    fn answering(&mut self, name: HostName, press: Press) -> Action
        ensures { ComesTo (answering_by name press (record self.old {
          asked =
              Some name;
        })) self.new result }
    {
        if matches!(press, Press::PasteBegins) {
            self.paste = Some(Paste::new());
            return self.keep(name, Action::Nothing);
        }
        self.answered(name, press)
    }

    /// What a press comes to while the name that is asked for is pasted.
    #[tactic(auto, unfolding(crate::specs::Hands::pasting_name))]
    fn pasting_name(&mut self, name: HostName, press: Press) -> Action
        ensures { ComesTo (pasting_name_by name press (record self.old {
          asked =
              Some name;
        })) self.new result }
    {
        if matches!(press, Press::PasteEnds) {
            self.paste = None;
            return self.keep(name, Action::Nothing);
        }
        self.pasted(name, press)
    }

    /// What a press comes to within the paste of a name.
    #[tactic(auto, unfolding(crate::specs::Asking::pasted_name))]
    fn pasted(&mut self, name: HostName, press: Press) -> Action
        ensures { ComesTo (with_asked (pasted_name press name) self.old) self.new result }
    {
        match press {
            Press::Character(byte) => self.lengthen(name, byte),
            Press::Foreign | Press::Control(_) | Press::Back | Press::Delete | Press::Escape =>
                self.keep(name, Action::Ring),
            Press::Arrow(_) | Press::Leap(_) | Press::Scroll(_) => self.keep(name, Action::Ring),
            Press::Page(_) | Press::Function(_) => self.keep(name, Action::Ring),
            Press::Size(rows, columns) => self.keep(name, Action::Fit(rows, columns)),
            Press::Mouse(_) | Press::Wheel(_) | Press::PasteBegins | Press::PasteEnds => self.keep(
                name,
                Action::Nothing,
            ),
            Press::FileFails | Press::Unknown => self.keep(name, Action::Nothing),
        }
    }

    /// What a press comes to while a name is asked for that is typed as far as this.
    #[tactic(auto, unfolding(crate::specs::Asking::answered))]
    fn answered(&mut self, name: HostName, press: Press) -> Action
        ensures { ComesTo (with_asked (answered press name) self.old) self.new result }
    {
        match press {
            Press::Character(byte) => self.spelled(name, byte),
            Press::Control(byte) => self.controlled_name(name, byte),
            Press::Back => self.shortened(name),
            Press::Escape => {
                self.asked = None;
                Action::Nothing
            }
            Press::Foreign | Press::Delete | Press::Arrow(_) | Press::Leap(_) | Press::Scroll(_) =>
                self.keep(name, Action::Ring),
            Press::Page(page) => self.keep(name, Action::Move(page)),
            Press::Function(key) => self.keep(name, function_amid(key)),
            Press::Mouse(_) | Press::Wheel(_) | Press::PasteBegins | Press::PasteEnds => self.keep(
                name,
                Action::Nothing,
            ),
            Press::FileFails | Press::Unknown => self.keep(name, Action::Nothing),
            Press::Size(rows, columns) => self.keep(name, Action::Fit(rows, columns)),
        }
    }

    /// The name is still asked for.
    fn keep(&mut self, name: HostName, action: Action) -> Action
        ensures { ComesTo (with_asked (Some name, action) self.old) self.new result }
    {
        self.asked = Some(name);
        action
    }

    /// A byte of the name, or a carriage return, which ends it.
    #[tactic(auto, unfolding(crate::specs::Asking::name_after_byte))]
    fn spelled(&mut self, name: HostName, byte: u8) -> Action
        ensures { ComesTo (with_asked (name_after_byte byte name) self.old) self.new result }
    {
        if byte == CARRIAGE_RETURN {
            self.entered(name)
        } else {
            self.lengthen(name, byte)
        }
    }

    /// A byte of the name, where it can stand in one and there is room.
    #[tactic(auto, unfolding(crate::specs::Asking::lengthened))]
    fn lengthen(&mut self, name: HostName, byte: u8) -> Action
        ensures { ComesTo (with_asked (lengthened byte name) self.old) self.new result }
    {
        let mut name = name;
        if is_host_byte(byte) && name.has_room() {
            name.add(byte);
            self.keep(name, Action::Nothing)
        } else {
            self.keep(name, Action::Ring)
        }
    }

    /// What the key Ctrl comes to with a letter while a name is asked for.
    #[tactic(auto, unfolding(crate::specs::Asking::controlled_name))]
    fn controlled_name(&mut self, name: HostName, byte: u8) -> Action
        ensures { ComesTo (with_asked (controlled_name byte name) self.old) self.new result }
    {
        if byte == LINE_FEED {
            self.entered(name)
        } else if byte == CONTROL_L {
            self.keep(name, Action::LookAnew)
        } else if byte == CONTROL_Q {
            self.keep(name, Action::Leave)
        } else {
            self.keep(name, Action::Ring)
        }
    }

    /// The name is whole. One with no byte is none.
    #[tactic(auto, unfolding(crate::specs::Asking::entered))]
    fn entered(&mut self, name: HostName) -> Action
        ensures { ComesTo (with_asked (entered name) self.old) self.new result }
    {
        self.asked = None;
        if name.as_bytes().is_empty() {
            Action::Nothing
        } else {
            Action::TypeFile(name)
        }
    }

    /// The last byte of the name is taken off.
    #[tactic(auto, unfolding(crate::specs::Asking::shortened_name))]
    fn shortened(&mut self, name: HostName) -> Action
        ensures { ComesTo (with_asked (shortened_name name) self.old) self.new result }
    {
        let mut name = name;
        if name.as_bytes().is_empty() {
            return self.keep(name, Action::Ring);
        }
        name.shorten();
        self.keep(name, Action::Nothing)
    }

    /// What a press comes to while words are asked for that are sought before the caret, or behind it.
    #[tactic(auto, unfolding(crate::specs::Hands::worded))]
    pub(crate) fn worded(
        &mut self,
        words: HostName,
        before: bool,
        pastes: bool,
        press: Press,
    ) -> Action
        requires { pastes ≡ is_pasting self.old.paste }
        ensures { ComesTo (worded_by before words press (record self.old {
          asked =
              Some words;
        })) self.new result }
    {
        if pastes {
            self.pasting_words(words, press)
        } else {
            self.answering_words(words, before, press)
        }
    }

    /// What a press comes to while words are asked for and none are pasted.
    #[tactic(auto, unfolding(crate::specs::Hands::answering_words, crate::specs::Asking::answered_words))]
    fn answering_words(&mut self, words: HostName, before: bool, press: Press) -> Action
        ensures { ComesTo (answering_words_by before words press (record self.old {
          asked =
              Some words;
        })) self.new result }
    {
        match press {
            Press::PasteBegins => {
                self.paste = Some(Paste::new());
                self.keep(words, Action::Nothing)
            }
            Press::Character(byte) => self.spelled_words(words, before, byte),
            Press::Control(byte) => self.controlled_words(words, before, byte),
            other => self.answered(words, other),
        }
    }

    /// What it comes to while the words are pasted.
    #[tactic(auto, unfolding(crate::specs::Hands::pasting_words, crate::specs::Asking::pasted_words))]
    fn pasting_words(&mut self, words: HostName, press: Press) -> Action
        ensures { ComesTo (pasting_words_by words press (record self.old {
          asked =
              Some words;
        })) self.new result }
    {
        match press {
            Press::PasteEnds => {
                self.paste = None;
                self.keep(words, Action::Nothing)
            }
            Press::Character(byte) => self.lengthen_words(words, byte),
            other => self.pasted(words, other),
        }
    }

    /// A byte of the words, or a carriage return, which ends them.
    #[tactic(auto, unfolding(crate::specs::Asking::words_after_byte))]
    fn spelled_words(&mut self, words: HostName, before: bool, byte: u8) -> Action
        ensures { ComesTo (with_asked (words_after_byte before byte words) self.old) self.new
            result }
    {
        if byte == CARRIAGE_RETURN {
            self.find(words, before)
        } else {
            self.lengthen_words(words, byte)
        }
    }

    /// A byte of the words, where it can stand among them and there is room.
    #[tactic(auto, unfolding(crate::specs::Asking::longer_words))]
    fn lengthen_words(&mut self, words: HostName, byte: u8) -> Action
        ensures { ComesTo (with_asked (longer_words byte words) self.old) self.new result }
    {
        if words.has_room_for_words() {
            self.lengthen(words, byte)
        } else {
            self.keep(words, Action::Ring)
        }
    }

    /// What the key Ctrl comes to with a letter while words are asked for.
    #[tactic(auto, unfolding(crate::specs::Asking::controlled_words))]
    fn controlled_words(&mut self, words: HostName, before: bool, byte: u8) -> Action
        ensures { ComesTo (with_asked (controlled_words_by before byte words) self.old) self.new
            result }
    {
        if byte == LINE_FEED {
            self.find(words, before)
        } else if byte == CONTROL_F {
            self.find(words, false)
        } else if byte == CONTROL_B {
            self.find(words, true)
        } else {
            self.controlled_name(words, byte)
        }
    }

    /// The words are whole.
    fn find(&mut self, words: HostName, before: bool) -> Action
        ensures { ComesTo (with_asked (None, Find words before) self.old) self.new result }
    {
        self.asked = None;
        Action::Find(words, before)
    }
}

/// Which words are asked for.
fn words_asked(before: bool) -> Asks
    ensures { result ≡ words_asked before }
{
    if before {
        Asks::WordsBefore
    } else {
        Asks::Words
    }
}

/// Whether a press is a byte that neither stands in a number nor ends one.
fn is_no_digit(press: Press) -> bool
    ensures { result ≡ is_no_digit press }
{
    match press {
        Press::Character(byte) => !(is_digit(byte) || byte == CARRIAGE_RETURN),
        _ => false,
    }
}

/// What is entered as a name, where a line is asked for: its number.
fn line_meant(action: Action) -> Action
    ensures { result ≡ line_meant action }
{
    match action {
        Action::TypeFile(digits) => Action::GoTo(digits.number()),
        other => other,
    }
}

/// What a function key comes to while a name is asked for.
#[tactic(auto, unfolding(crate::specs::Asking::by_function_amid))]
fn function_amid(key: FunctionKey) -> Action
    ensures { result ≡ by_function_amid key }
{
    match key {
        FunctionKey::F9 => Action::LookAnew,
        FunctionKey::F10 => Action::Leave,
        FunctionKey::F1
        | FunctionKey::F2
        | FunctionKey::F3
        | FunctionKey::F4
        | FunctionKey::F5
        | FunctionKey::F6
        | FunctionKey::F7
        | FunctionKey::F8
        | FunctionKey::F11
        | FunctionKey::F12 => Action::Ring,
    }
}
