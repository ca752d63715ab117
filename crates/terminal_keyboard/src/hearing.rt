//! What is heard at one time.
ghost use Rattle.std.specs.Prelude.{◌≡◌, ◌≤◌, [], ◌∷◌, ◌++◌, length, take};
ghost use Rattle.terminal_presses.specs.declared.press.Heard.TheVariants.{Quiet};
ghost use Rattle.terminal_keyboard.specs.Spelling.{bytes_heard};
ghost use Rattle.terminal_keyboard.specs.Hearings.{IsWithinLine, is_line_end as line_ends, is_escape as escape_byte};
ghost use Rattle.terminal_keyboard.specs.Hearings.{kept_for_later};
ghost use Rattle.terminal_keyboard.specs.Hearings.{line_length as first_line};

use std::marker::Model;
use terminal_presses::Heard;

/// The byte of Ctrl-Y.
const CONTROL_Y: u8 = 25;
/// The byte of Ctrl-Z.
const CONTROL_Z: u8 = 26;
/// The byte that stands before the byte of a key with Alt.
const ESCAPE: u8 = 27;

/// How much is heard at one time at most.
pub const MOST_HEARD: usize = 64;

/// What is heard at one time, at least one thing and at most `MOST_HEARD`. A clause sees the list of it.
#[derive(Drop)]
pub struct Hearing {
    room: [Heard; MOST_HEARD],
    count: usize,
}

impl Model for Hearing {
    ghost use Rattle.std.specs.Prelude.{List, ◌≤◌, take};
    ghost use Rattle.terminal_presses.specs.declared.press.Heard.{Heard};

    ghost Value = { List Heard };

    ghost view = { λ h. take h.count h.room };

    ghost invariant = { λ h. (1 ≤ h.count) × (h.count ≤ 64) };
}

impl Hearing {
    /// These, in order.
    pub fn of(heard: &[Heard]) -> Hearing
        requires least { 1 ≤ length heard.now }
        requires most { length heard.now ≤ MOST_HEARD }
        ensures { result ≡ heard.now }
    {
        let mut room = [Heard::Quiet; MOST_HEARD];
        room[..heard.len()].copy_from_slice(heard);
        Hearing {
            room,
            count: heard.len(),
        }
    }

    /// These bytes, in order.
    pub fn of_bytes(heard: &[u8]) -> Hearing
        requires least { 1 ≤ length heard.now }
        requires most { length heard.now ≤ MOST_HEARD }
        ensures { result ≡ bytes_heard heard.now }
    {
        let mut room = [Heard::Quiet; MOST_HEARD];
        for i in 0..heard.len() {
            room[i] = Heard::Byte(heard[i]);
        }
        Hearing {
            room,
            count: heard.len(),
        }
    }

    /// A quiet while.
    pub fn quiet() -> Hearing
        ensures { result ≡ Quiet ∷ [] }
    {
        Hearing::of(&[Heard::Quiet])
    }

    /// What is heard, in order.
    pub fn as_slice(&self) -> &[Heard]
        ensures heard { result.now ≡ self.now }
        ensures least { 1 ≤ length result.now }
        ensures most { length result.now ≤ MOST_HEARD }
    {
        &self.room[..self.count]
    }

    /// What goes to the end of the first line, and what comes behind, if anything does.
    pub(crate) fn split(&self) -> (Hearing, Option<Hearing>)
        ensures parts { result.0 ++ kept_for_later result.1 ≡ self.now }
        ensures line { IsWithinLine result.0 }
    {
        let heard = self.as_slice();
        let count = line_length(heard);
        let line = Hearing::of(&heard[..count]);
        if count == heard.len() {
            (line, None)
        } else {
            (line, Some(Hearing::of(&heard[count..])))
        }
    }
}

/// How much is heard to the end of the first line, and with it.
pub(crate) fn line_length(heard: &[Heard]) -> usize
    ensures value { result ≡ first_line heard.now }
    ensures within { result ≤ length heard.now }
    ensures some { 1 ≤ length heard.now → 1 ≤ result }
    ensures line { IsWithinLine (take result heard.now) }
{
    first_end(heard)
}

/// The same, in one pass.
fn first_end(heard: &[Heard]) -> usize
    ensures { result ≡ first_line heard.now }
{
    let mut after_escape = false;
    for (i, one) in heard.iter().enumerate() {
        if ends_line(after_escape, *one) {
            return i + 1;
        }
        after_escape = is_escape(*one);
    }
    heard.len()
}

/// Whether a line ends there, behind an escape byte or not.
fn ends_line(after_escape: bool, heard: Heard) -> bool
    ensures { result ≡ line_ends after_escape heard }
{
    match heard {
        Heard::Byte(byte) => byte == b'\r'
            || byte == b'\n'
            || byte == b'\t'
            || byte == CONTROL_Y
            || byte == CONTROL_Z
            || (after_escape && byte == b'z'),
        Heard::Quiet => false,
    }
}

/// Whether an escape byte is heard.
fn is_escape(heard: Heard) -> bool
    ensures { result ≡ escape_byte heard }
{
    match heard {
        Heard::Byte(byte) => byte == ESCAPE,
        Heard::Quiet => false,
    }
}
