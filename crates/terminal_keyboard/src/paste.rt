//! A text on its way in as a paste.
ghost use Rattle.std.specs.Prelude.{◌≡◌, ◌≤◌, ◌<◌, ◌⊎◌, ◌↔◌, false, None, IfSome, IsNone, [], length, map, take};
ghost use Rattle.std.specs.Io.KnownBytes.{Consumes, IsAtEnd};
ghost use Rattle.terminal_keyboard.specs.HostPastes.{TakesText, harmless};
ghost use Rattle.terminal_keyboard.specs.Bringing.{TellsNext, goes_on as has_more};

use crate::{Count, Hearing, MOST_HEARD, Trace};
use std::io::{ErrorKind, Read};

/// What is told first: an escape byte and `[200~`.
const PASTE_BEGINS: [u8; 6] = [27, 91, 50, 48, 48, 126];

/// What is told last: an escape byte and `[201~`.
const PASTE_ENDS: [u8; 6] = [27, 91, 50, 48, 49, 126];

/// What is told last where the file can be read no further: the same, and an escape byte and `[202~`.
const PASTE_BREAKS: [u8; 12] = [27, 91, 50, 48, 49, 126, 27, 91, 50, 48, 50, 126];

/// The byte of the key Escape.
const ESCAPE: u8 = 27;

/// What is told for it: a byte that can't be typed, and is no key of the desk.
const SEPARATOR: u8 = 28;

/// How far a paste has come.
#[derive(Clone, Copy)]
pub(crate) enum Stage {
    /// Nothing of it is told yet.
    Begins,
    /// Its beginning is told, and its end isn't.
    GoesOn,
    /// All of it is told.
    Ended,
    /// It is told as far as it can be read, and that it ends there.
    Broken,
}

/// The text of a reader, on its way in.
#[derive(Drop)]
pub(crate) struct HostPaste<R> {
    reader: R,
    /// How many bytes may still be read.
    left: u64,
    stage: Stage,
    /// The reads that failed.
    failed: Count,
    /// The name by which the host was asked for it. Contracts alone see it.
    name: Trace<u8>,
}

impl<R: Read> HostPaste<R> {
    /// What the reader has left, but for what comes after so many bytes. The host was asked for it by this name.
    pub fn new(reader: R, most: u64, name: &[u8]) -> HostPaste<R>
        ensures name { result.name.items ≡ name.now }
        ensures stage { result.stage ≡ Stage.Begins }
        ensures left { result.left ≡ most }
        ensures text { R.remaining result.reader ≡ R.remaining reader }
    {
        let mut named = Trace::new();
        named.add(name);
        HostPaste {
            reader,
            left: most,
            stage: Stage::Begins,
            failed: Count::new(),
            name: named,
        }
    }

    /// What is told next. None where all is told. Where a read fails, the text ends there, and that is told.
    pub fn next(&mut self) -> Option<Hearing>
        ensures told { IfSome result (TellsNext R.remaining self.old self.new) }
        ensures none { IsNone result ↔ (has_more self.old.stage ≡ false) }
        ensures over { IsNone result → has_more self.new.stage ≡ false }
    {
        match self.stage {
            Stage::Begins => Some(self.begin()),
            Stage::GoesOn => Some(self.go_on()),
            Stage::Ended | Stage::Broken => None,
        }
    }

    /// Tells the beginning.
    fn begin(&mut self) -> Hearing
        requires { self.old.stage ≡ Stage.Begins }
        ensures { TakesText self.old.stage self.new.stage self.old.left self.new.left
            (R.remaining self.old.reader) (R.remaining self.new.reader) result }
    {
        self.stage = Stage::GoesOn;
        Hearing::of_bytes(&PASTE_BEGINS)
    }

    /// Tells bytes of the text, or the end.
    fn go_on(&mut self) -> Hearing
        requires { self.old.stage ≡ Stage.GoesOn }
        ensures text { TakesText self.old.stage self.new.stage self.old.left self.new.left
            (R.remaining self.old.reader) (R.remaining self.new.reader) result }
        ensures ended { self.new.stage ≡ Stage.Ended
            → (self.old.left ≡ 0) ⊎ IsAtEnd (R.remaining self.new.reader) }
        ensures broken { self.new.stage ≡ Stage.Broken → self.old.failed < self.new.failed }
    {
        let mut piece = [0; MOST_HEARD];
        let room = self.left.min(MOST_HEARD as u64) as usize;
        let buffer = &mut piece[..room];
        let count = match read_some(&mut self.reader, buffer, &mut self.failed) {
            Some(count) => count,
            None => {
                self.stage = Stage::Broken;
                return Hearing::of_bytes(&PASTE_BREAKS);
            }
        };
        if count == 0 {
            self.stage = Stage::Ended;
            return Hearing::of_bytes(&PASTE_ENDS);
        }
        self.left -= count as u64;
        let text = &mut buffer[..count];
        make_harmless(text);
        Hearing::of_bytes(text)
    }
}

/// Reads into the buffer, and returns how many bytes came: none at the end of the text, and where there is no room. An
/// interrupted read is tried again. None where a read failed.
fn read_some<R: Read>(reader: &mut R, buffer: &mut [u8], failed: &mut Count) -> Option<usize>
    ensures within { IfSome result (λ count. count ≤ length buffer.new) }
    ensures taken { IfSome result (λ count.
        Consumes (R.remaining reader.old) (R.remaining reader.new) (take count buffer.new)) }
    ensures end { IfSome result (λ count. count ≡ 0
        → (length buffer.old ≡ 0) ⊎ IsAtEnd (R.remaining reader.new)) }
    ensures none { result ≡ None → Consumes (R.remaining reader.old) (R.remaining reader.new) [] }
    ensures cause { result ≡ None → failed.old < failed.new }
{
    for _ in 0..u64::MAX {
        match reader.read(buffer) {
            Ok(count) => return Some(count),
            Err(error) if error.kind() == ErrorKind::Interrupted => {}
            Err(_) => {
                failed.rise();
                return None;
            }
        }
    }
    failed.rise();
    None
}

/// Makes each byte harmless.
fn make_harmless(text: &mut [u8])
    ensures { text.new ≡ map harmless text.old }
{
    for i in 0..text.len() {
        text[i] = harmless(text[i]);
    }
}

/// The byte, or another one that can't be typed where it is an escape byte.
#[tactic(auto, unfolding(crate::specs::HostPastes::harmless))]
fn harmless(byte: u8) -> u8
    ensures { result ≡ harmless byte }
{
    if byte == ESCAPE { SEPARATOR } else { byte }
}
