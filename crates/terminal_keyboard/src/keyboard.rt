//! What every keyboard is and promises.
ghost use Rattle.std.specs.Prelude.{◌≡◌, ◌++◌, ℕ, Bool, true, false, [], List, Option, IfOk, IfErr, OnErr, is_ok};
ghost use Rattle.std.specs.Io.KnownBytes.{Consumes};
ghost use Rattle.terminal_presses.specs.declared.press.Heard.{Heard};
ghost use Rattle.terminal_keyboard.specs.Hearings.{IsWithinLine, asked_for, asked_rest, heard_bytes};

use crate::completion::Completion;
use crate::hearing::Hearing;
use host_files::HostFault;

/// Why a keyboard tells no more.
#[derive(Clone, Copy, Debug, PartialEq, Eq)]
pub enum KeyboardEnd {
    /// Nothing more will come.
    Closed,
    /// What is below failed.
    Fault,
}

/// What a person presses at a terminal, as it is heard.
pub trait KeySource {
    ghost use Rattle.terminal_keyboard.specs.declared.keyboard.KeyboardEnd.{KeyboardEnd};

    /// All that was heard so far, in order.
    ghost heard: { Self → List Heard };

    /// The bytes that are still to be heard, where they are known.
    ghost left: { Self → Option (List ℕ) };

    /// It has come to this end.
    ghost ended: { Self → KeyboardEnd → Type 0 };

    /// Waits for what is heard next, and goes no further than to the end of a line, or to a tabulator. `Closed`:
    /// nothing more will come. `Fault`: what is below failed in this call. In both cases nothing was heard.
    fn hear(&mut self) -> Result<Hearing, KeyboardEnd>
        ensures told { IfOk result (λ told. heard self.new ≡ heard self.old ++ told) }
        ensures bytes { IfOk result (λ told.
            Consumes (left self.old) (left self.new) (heard_bytes told)) }
        ensures line { IfOk result IsWithinLine }
        ensures silent { OnErr result (heard self.new ≡ heard self.old) }
        ensures none { OnErr result (Consumes (left self.old) (left self.new) []) }
        ensures cause { IfErr result (λ why. ended self.new why) };
}

/// A terminal, and files of the host's whose texts are brought in.
pub trait Keyboard {
    ghost use Rattle.terminal_keyboard.specs.declared.keyboard.KeyboardEnd.{KeyboardEnd};
    ghost use Rattle.std.specs.Prelude.{Result, ⊤};
    ghost use Rattle.host_files.specs.declared.HostFault.{HostFault};

    /// All that was heard so far, in order.
    ghost heard: { Self → List Heard };

    /// The bytes of the terminal that are still to be heard, where they are known.
    ghost left: { Self → Option (List ℕ) };

    /// The names for which `bring` and `complete` were called so far: the bytes of each, and behind them what was answered:
    /// 0, or the number of the cause; how the name goes on, and the number of names.
    ghost asked: { Self → List ℕ };

    /// Whether the text of a host file is on its way in.
    ghost brings: { Self → Bool };

    /// It has come to this end.
    ghost ended: { Self → KeyboardEnd → Type 0 };

    /// In a hearing from the one to the other this was told of the host file that is on its way in.
    ghost tells: { Self → Self → List Heard → Type 0 };

    /// In a call of `bring` from the one to the other, of this name, this was answered.
    ghost answers: { Self → Self → List ℕ → Result ⊤ HostFault → Type 0 };

    /// Waits for what is heard next. It is of a host file until all of that is told, and of the terminal else, where it
    /// goes no further than to the end of a line, or to a tabulator. No file comes that `bring` wasn't called for.
    /// `Closed`: nothing more will come. `Fault`: what is below failed in this call. In both cases nothing was heard.
    fn hear(&mut self) -> Result<Hearing, KeyboardEnd>
        ensures told { IfOk result (λ told. heard self.new ≡ heard self.old ++ told) }
        ensures unasked { asked self.new ≡ asked self.old }
        ensures bytes { brings self.old ≡ false → IfOk result (λ told. IsWithinLine told
            × Consumes (left self.old) (left self.new) (heard_bytes told)) }
        ensures file { brings self.old ≡ true
            → IfOk result (λ told. tells self.old self.new told × (left self.new ≡ left self.old)) }
        ensures alone { brings self.old ≡ false → brings self.new ≡ false }
        ensures silent { OnErr result (heard self.new ≡ heard self.old) }
        ensures none { OnErr result (Consumes (left self.old) (left self.new) []) }
        ensures cause { IfErr result (λ why. ended self.new why) };

    /// Has the text of a host file be heard next, as a paste, or says why it won't be. Nothing is heard in this call.
    ///
    /// Errors: those of `open_regular`; `NoHome`.
    fn bring(&mut self, name: &[u8]) -> Result<(), HostFault>
        ensures silent { heard self.new ≡ heard self.old }
        ensures asked { asked self.new ≡ asked self.old ++ asked_for name.now result }
        ensures answered { answers self.old self.new name.now result }
        ensures unread { left self.new ≡ left self.old }
        ensures brings { brings self.new ≡ is_ok result };

    /// How the name of a host file goes on that begins so. Nothing is heard in this call.
    fn complete(&mut self, name: &[u8]) -> Completion
        ensures silent { heard self.new ≡ heard self.old }
        ensures asked { asked self.new ≡ asked self.old ++ asked_rest name.now result }
        ensures unread { left self.new ≡ left self.old }
        ensures brings { brings self.new ≡ brings self.old };
}
