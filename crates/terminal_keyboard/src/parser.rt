//! The bytes of a terminal, told apart as presses one by one: so it is one whether they come in one piece or in many.
ghost use Rattle.std.specs.Prelude.{◌≡◌};
ghost use Rattle.terminal_presses.specs.Outcomes.{ComesTo};
ghost use Rattle.terminal_keyboard.specs.Presses.{grounded, preceded, cut_off, after_ground, after_escape, after_shift};
ghost use Rattle.terminal_keyboard.specs.Presses.{after_console, after_report, after_sequence, after_byte, after_quiet};
ghost use Rattle.terminal_keyboard.specs.Presses.{at_rest, heard_by};

use crate::place::{Mark, Numbers, SequencePlace};
use crate::sequence::{function, lettered};
use event_bytes::is_digit;
use terminal_presses::{CONTROL_B, CONTROL_Y, ESCAPE, FunctionKey, Heard, Press, Presses};

/// What was heard of a terminal so far, as far as later presses depend on it.
#[derive(Clone, Copy)]
pub struct Parser {
    place: SequencePlace,
}

impl Parser {
    /// A parser that has heard nothing.
    pub fn new() -> Parser
        ensures { result ≡ at_rest }
    {
        Parser {
            place: SequencePlace::Ground,
        }
    }

    /// Hears a byte, or that none came for a while. Returns what that completes.
    #[tactic(auto, unfolding(crate::specs::Presses::heard_by, crate::specs::Presses::sequence_after))]
    pub fn take(&mut self, heard: Heard) -> Presses
        ensures { ComesTo (heard_by self.old heard) self.new result }
    {
        let (place, presses) = match heard {
            Heard::Byte(byte) => after_byte(self.place, byte),
            Heard::Quiet => after_quiet(self.place),
        };
        self.place = place;
        presses
    }
}

/// Where one stands after a byte more, and what it completes.
#[tactic(auto, unfolding(crate::specs::Presses::after_byte))]
fn after_byte(place: SequencePlace, byte: u8) -> (SequencePlace, Presses)
    ensures { result ≡ after_byte place byte }
{
    match place {
        SequencePlace::Ground => after_ground(byte),
        SequencePlace::Escape => after_escape(byte),
        SequencePlace::Shift => after_shift(byte),
        SequencePlace::Sequence(numbers) => after_sequence(numbers, byte),
        SequencePlace::Console => after_console(byte),
        SequencePlace::Report(missing) => after_report(missing, byte),
    }
}

/// Where one stands after a quiet while: an escape byte was the key, and a sequence that has only begun is given up. All
/// else waits for its next byte.
#[tactic(auto, unfolding(crate::specs::Presses::after_quiet))]
fn after_quiet(place: SequencePlace) -> (SequencePlace, Presses)
    ensures { result ≡ after_quiet place }
{
    match place {
        SequencePlace::Escape => (SequencePlace::Ground, Presses::One(Press::Escape)),
        SequencePlace::Shift => (SequencePlace::Ground, Presses::One(Press::Unknown)),
        SequencePlace::Sequence(numbers) if numbers.is_bare() => (
            SequencePlace::Ground,
            Presses::One(Press::Unknown),
        ),
        waiting => (waiting, Presses::Nothing),
    }
}

/// What a byte says between two spellings.
#[tactic(auto, unfolding(crate::specs::Presses::grounded))]
fn grounded(byte: u8) -> (SequencePlace, Option<Press>)
    ensures { result ≡ grounded byte }
{
    if byte == ESCAPE {
        (SequencePlace::Escape, None)
    } else {
        (SequencePlace::Ground, Press::of_byte(byte))
    }
}

/// One press, and what may come after it.
#[tactic(auto, unfolding(crate::specs::Presses::preceded))]
fn preceded(press: Press, next: (SequencePlace, Option<Press>)) -> (SequencePlace, Presses)
    ensures { result ≡ preceded press next }
{
    match next {
        (place, None) => (place, Presses::One(press)),
        (place, Some(second)) => (place, Presses::Two(press, second)),
    }
}

/// The byte can't go on with the spelling that it stands in, and is heard anew.
#[tactic(auto, unfolding(crate::specs::Presses::cut_off))]
fn cut_off(byte: u8) -> (SequencePlace, Presses)
    ensures { result ≡ cut_off byte }
{
    preceded(Press::Unknown, grounded(byte))
}

#[tactic(auto, unfolding(crate::specs::Presses::after_ground))]
fn after_ground(byte: u8) -> (SequencePlace, Presses)
    ensures { result ≡ after_ground byte }
{
    match grounded(byte) {
        (place, None) => (place, Presses::Nothing),
        (place, Some(press)) => (place, Presses::One(press)),
    }
}

#[tactic(auto, unfolding(crate::specs::Presses::after_escape))]
fn after_escape(byte: u8) -> (SequencePlace, Presses)
    ensures { result ≡ after_escape byte }
{
    if byte == b'[' {
        (SequencePlace::Sequence(Numbers::none()), Presses::Nothing)
    } else if byte == b'O' {
        (SequencePlace::Shift, Presses::Nothing)
    } else if b'1' <= byte && byte <= b'7' {
        (SequencePlace::Ground, Presses::One(function(byte - b'1')))
    } else if byte == b' ' {
        (
            SequencePlace::Ground,
            Presses::One(Press::Function(FunctionKey::F11)),
        )
    } else if byte == b'z' {
        (
            SequencePlace::Ground,
            Presses::One(Press::Control(CONTROL_Y)),
        )
    } else if byte == b'f' {
        (
            SequencePlace::Ground,
            Presses::One(Press::Control(CONTROL_B)),
        )
    } else if byte < b' ' {
        preceded(Press::Escape, grounded(byte))
    } else {
        (SequencePlace::Ground, Presses::One(Press::Unknown))
    }
}

#[tactic(auto, unfolding(crate::specs::Presses::after_shift))]
fn after_shift(byte: u8) -> (SequencePlace, Presses)
    ensures { result ≡ after_shift byte }
{
    if 32 <= byte && byte <= 126 {
        (SequencePlace::Ground, Presses::One(lettered(byte)))
    } else {
        cut_off(byte)
    }
}

#[tactic(auto, unfolding(crate::specs::Presses::after_console))]
fn after_console(byte: u8) -> (SequencePlace, Presses)
    ensures { result ≡ after_console byte }
{
    if b'A' <= byte && byte <= b'E' {
        (SequencePlace::Ground, Presses::One(function(byte - b'A')))
    } else if 32 <= byte && byte <= 126 {
        (SequencePlace::Ground, Presses::One(Press::Unknown))
    } else {
        cut_off(byte)
    }
}

#[tactic(auto, unfolding(crate::specs::Presses::after_report))]
fn after_report(missing: u8, byte: u8) -> (SequencePlace, Presses)
    ensures { result ≡ after_report missing byte }
{
    if byte < 32 {
        cut_off(byte)
    } else if missing <= 1 {
        (SequencePlace::Ground, Presses::One(Press::Unknown))
    } else {
        (SequencePlace::Report(missing - 1), Presses::Nothing)
    }
}

#[tactic(auto, unfolding(crate::specs::Presses::after_sequence, event_bytes::specs::Bytes::is_digit))]
fn after_sequence(numbers: Numbers, byte: u8) -> (SequencePlace, Presses)
    ensures { result ≡ after_sequence numbers byte }
{
    if is_digit(byte) {
        (
            SequencePlace::Sequence(numbers.with_digit(byte - b'0')),
            Presses::Nothing,
        )
    } else if byte == b';' {
        (
            SequencePlace::Sequence(numbers.with_number()),
            Presses::Nothing,
        )
    } else if byte == b'<' {
        (SequencePlace::Sequence(numbers.marked()), Presses::Nothing)
    } else if byte == b'[' {
        (SequencePlace::Console, Presses::Nothing)
    } else if 64 <= byte && byte <= 126 {
        numbers.ended(byte)
    } else if 32 <= byte && byte <= 63 {
        let odd = Numbers {
            mark: Mark::Odd,
            ..numbers
        };
        (SequencePlace::Sequence(odd), Presses::Nothing)
    } else {
        cut_off(byte)
    }
}
