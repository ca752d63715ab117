//! A terminal and files of the host's as one keyboard.
ghost use Rattle.std.specs.Prelude.{◌≡◌, ◌≢◌, ◌++◌, true, false, Some, None, [], IfOk, IfErr, IfSome, IsNone, OnErr, OnOk};
ghost use Rattle.std.specs.Prelude.{option_map, string_bytes};
ghost use Rattle.std.specs.Io.KnownBytes.{Consumes};
ghost use Rattle.terminal_keyboard.specs.Hearings.{IsWithinLine, heard_bytes};
ghost use Rattle.terminal_keyboard.specs.Bringing.{IsUntold, TellsFile, answer_of, is_coming};
ghost use Rattle.terminal_keyboard.specs.Homes.{cause_of, path_meant};
ghost use Rattle.terminal_keyboard.specs.Hearings.{answer_number};
ghost use Rattle.terminal_keyboard.specs.declared.desk_keyboard.TheConstants.{MOST_BROUGHT};

use crate::completing::completion_of;
use crate::completion::note_rest;
use crate::home::{behind_home, folder_of, path_meant};
use crate::paste::HostPaste;
use crate::{Completion, Hearing, KeySource, Keyboard, KeyboardEnd, Trace};
use host_files::{HostFault, home_folder, open_regular};
use std::fs::File;
use std::io::Read;
use terminal_presses::Heard;

/// The most bytes of a file that is brought in: as many as a desktop can hold.
pub const MOST_BROUGHT: u64 = 262_144;

/// A terminal, and files of the host's that are brought in.
///
/// A file is told whole before the terminal is heard again, as if it were pasted: first an escape byte and `[200~`,
/// then its bytes, 64 at a time, and at the end an escape byte and `[201~`. Where a read of it fails, it ends there,
/// and an escape byte and `[202~` come behind. An escape byte of the file is told as a byte that can't be typed, so
/// nothing in it is a key. LF and CR LF are told as they are, since a paste makes carriage returns of them
/// (`texts_are_typed`). The terminal tells no more at one time than to the end of a line, with which the name of a file
/// ends too, or to a tabulator: so all that was pressed behind the name is heard after the file.
#[derive(Drop)]
pub struct DeskKeyboard<'a, K> {
    host: &'a HostRuntime,
    /// The home folder, if there is one.
    home: Option<String>,
    terminal: K,
    brought: Option<HostPaste<File>>,
    log: Trace<Heard>,
    asked: Trace<u8>,
}

impl<'a, K: KeySource> DeskKeyboard<'a, K> {
    /// A keyboard of which nothing was heard.
    pub fn new(host: &'a HostRuntime, terminal: K) -> DeskKeyboard<'a, K>
        ensures none { result.log.items ≡ [] }
        ensures unasked { result.asked.items ≡ [] }
        ensures terminal { result.terminal ≡ terminal }
        ensures calm { is_coming result.brought ≡ false }
    {
        DeskKeyboard {
            host,
            home: home_folder(host),
            terminal,
            brought: None,
            log: Trace::new(),
            asked: Trace::new(),
        }
    }

    /// What is told next of the file that is brought in. None where there is none, or all is told of it.
    fn told_of_file(&mut self) -> Option<Hearing>
        ensures log { self.new.log ≡ self.old.log }
        ensures asked { self.new.asked ≡ self.old.asked }
        ensures terminal { self.new.terminal ≡ self.old.terminal }
        ensures none { is_coming self.old.brought ≡ false → result ≡ None }
        ensures some { is_coming self.old.brought ≡ true → result ≢ None }
        ensures told { IfSome result (TellsFile ⟦<File as Read>⟧.remaining self.old.brought
            self.new.brought) }
        ensures over { IsNone result → is_coming self.new.brought ≡ false }
    {
        match &mut self.brought {
            Some(paste) => paste.next(),
            None => None,
        }
    }
}

impl<K: KeySource> Keyboard for DeskKeyboard<'_, K> {
    ghost heard = { λ k. k.log.items };

    ghost left = { λ k. K.left k.terminal };

    ghost asked = { λ k. k.asked.items };

    ghost brings = { λ k. is_coming k.brought };

    ghost tells = { λ old new told. TellsFile ⟦<File as Read>⟧.remaining old.brought new.brought told };

    ghost ended = { λ k why. K.ended k.terminal why };

    ghost answers = { λ _ new name answer. OnOk answer
        (IsUntold MOST_BROUGHT (path_meant (option_map string_bytes new.home) name) new.brought) };

    fn hear(&mut self) -> Result<Hearing, KeyboardEnd> {
        let hearing = match self.told_of_file() {
            Some(told) => told,
            None => self.terminal.hear()?,
        };
        self.log.add(hearing.as_slice());
        Ok(hearing)
    }

    /// The file has to be a regular one of `MOST_BROUGHT` bytes at most. In front of its name a tilde stands for the home
    /// folder, where there is one.
    fn bring(&mut self, name: &[u8]) -> Result<(), HostFault> {
        let brought = paste_of(self.host, &self.home, name);
        let answer = answer_of(&brought);
        self.brought = brought.ok();
        self.asked.add(name);
        self.asked.add(&[number_of(answer)]);
        answer
    }

    /// It is looked at the names of the folder that is meant. In front of the name a tilde stands for the home folder.
    fn complete(&mut self, name: &[u8]) -> Completion {
        let told = completion_of(self.host, &self.home, name);
        note_rest(&mut self.asked, name, &told);
        told
    }
}

/// What is answered where this is the text of a file, or why there is none.
fn answer_of<R: Drop>(brought: &Result<HostPaste<R>, HostFault>) -> Result<(), HostFault>
    ensures { result ≡ answer_of brought.now }
{
    match brought {
        Ok(_) => Ok(()),
        Err(why) => Err(*why),
    }
}

/// An answer as a number.
fn number_of(answer: Result<(), HostFault>) -> u8
    ensures { result ≡ answer_number answer }
{
    match answer {
        Ok(()) => 0,
        Err(why) => why.number(),
    }
}

/// The text of the file of that name, where this is the home folder.
///
/// Errors: those of `open_regular`; `NoHome` where there is no such file, and no folder for the tilde of its name.
fn paste_of(
    host: &HostRuntime,
    home: &Option<String>,
    name: &[u8],
) -> Result<HostPaste<File>, HostFault>
    ensures untold { IfOk result (λ paste.
        IsUntold MOST_BROUGHT (path_meant (option_map string_bytes home.now) name.now)
        (Some paste)) }
{
    let Ok(path) = path_meant(host.alloc(), folder_of(home), name) else {
        return Err(HostFault::NoMemory);
    };
    let Ok(text) = str::from_utf8(path.as_slice()) else {
        return Err(HostFault::Refused);
    };
    match open_regular(host, text, MOST_BROUGHT) {
        Ok(file) => Ok(HostPaste::new(file, MOST_BROUGHT, path.as_slice())),
        Err(fault) => Err(cause_of(fault, home.is_none(), name)),
    }
}

/// Why a file isn't opened that a person has named.
fn cause_of(fault: HostFault, is_homeless: bool, name: &[u8]) -> HostFault
    ensures { result ≡ cause_of fault is_homeless name.now }
{
    match fault {
        HostFault::Missing if is_homeless && behind_home(name).is_some() => HostFault::NoHome,
        other => other,
    }
}
