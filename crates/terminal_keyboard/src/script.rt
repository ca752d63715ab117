//! A keyboard for tests.
ghost use Rattle.std.specs.Prelude.{◌≡◌, ◌≤◌, [], false, None, Err, length, min, take, drop, IfOk, IfErr, OnErr};
ghost use Rattle.host_files.specs.declared.HostFault.TheVariants.{Missing};
ghost use Rattle.terminal_keyboard.specs.declared.keyboard.KeyboardEnd.TheVariants.{Closed};
ghost use Rattle.terminal_keyboard.specs.Hearings.{IsWithinLine};
ghost use Rattle.terminal_keyboard.specs.declared.hearing.TheConstants.{MOST_HEARD};

use crate::Trace;
use crate::completion::{Completion, note_rest};
use crate::hearing::{Hearing, MOST_HEARD, line_length};
use crate::keyboard::{Keyboard, KeyboardEnd};
use host_files::HostFault;
use terminal_presses::Heard;

/// A keyboard that tells what a script says, in pieces of one length that end with a line at the latest, and is closed
/// then.
#[derive(Drop)]
pub struct ScriptedKeyboard<'a> {
    script: &'a [Heard],
    piece: usize,
    told: usize,
    asked: Trace<u8>,
    ghost piece_least: { 1 ≤ piece },
    ghost piece_most: { piece ≤ MOST_HEARD },
    ghost told_in: { told ≤ length script.now },
}

impl<'a> ScriptedKeyboard<'a> {
    /// A keyboard that tells the script in pieces of that length. A piece is shorter where a line ends, or the script.
    pub fn new(script: &'a [Heard], piece: usize) -> ScriptedKeyboard<'a>
        requires least { 1 ≤ piece }
        requires most { piece ≤ MOST_HEARD }
        ensures script { result.script.now ≡ script.now }
        ensures piece { result.piece ≡ piece }
        ensures told { result.told ≡ 0 }
        ensures unasked { result.asked.items ≡ [] }
    {
        ScriptedKeyboard {
            script,
            piece,
            told: 0,
            asked: Trace::new(),
        }
    }
}

impl Keyboard for ScriptedKeyboard<'_> {
    ghost heard = { λ k. take k.told k.script.now };

    ghost left = { λ _. None };

    ghost asked = { λ k. k.asked.items };

    ghost brings = { λ _. false };

    ghost tells = { λ _ _ _. ⊥ };

    ghost ended = { λ k why. (why ≡ Closed) × (k.told ≡ length k.script.now) };

    ghost answers = { λ _ _ _ answer. answer ≡ Err Missing };

    fn hear(&mut self) -> Result<Hearing, KeyboardEnd> {
        let left = self.script.len() - self.told;
        if left == 0 {
            return Err(KeyboardEnd::Closed);
        }
        let most = self.told + left.min(self.piece);
        let piece = &self.script[self.told..most];
        let end = self.told + line_length(piece);
        let hearing = Hearing::of(&self.script[self.told..end]);
        self.told = end;
        Ok(hearing)
    }

    /// A script has no host files.
    fn bring(&mut self, name: &[u8]) -> Result<(), HostFault> {
        self.asked.add(name);
        self.asked.add(&[HostFault::Missing.number()]);
        Err(HostFault::Missing)
    }

    /// No name begins so.
    fn complete(&mut self, name: &[u8]) -> Completion {
        let told = Completion::none();
        note_rest(&mut self.asked, name, &told);
        told
    }
}
