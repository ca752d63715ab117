//! The keyboard of a terminal.
ghost use Rattle.std.specs.Prelude.{◌≡◌, ◌<◌, ◌≤◌, ◌+◌, ◌-◌, ◌^◌, ◌⊎◌, Bool, true, false, [], ◌∷◌, Err, OnErr, IfOk};
ghost use Rattle.std.specs.Prelude.{IfErr};
ghost use Rattle.std.specs.Io.KnownBytes.{Consumes, IsAtEnd, prepend_known};
ghost use Rattle.terminal_keyboard.specs.declared.keyboard.KeyboardEnd.TheVariants.{Closed, Fault};
ghost use Rattle.terminal_keyboard.specs.Hearings.{HasEnded, IsWithinLine, heard_bytes, is_quiet as is_quiet_while};
ghost use Rattle.terminal_keyboard.specs.Hearings.{kept_for_later};

use crate::hearing::{Hearing, MOST_HEARD};
use crate::keyboard::{KeySource, KeyboardEnd};
use ghost_traces::{Count, Trace};
use std::io::{ErrorKind, IsTerminal, Read, Stdin};
use terminal_presses::Heard;

/// Standard input as a keyboard.
pub type StandardInput = TerminalInput<Stdin>;

/// A reader as a keyboard.
///
/// As a terminal it is set to give what there is, or nothing after a while (`stty min 0 time 1`: a tenth of a second):
/// so a read of no bytes is a quiet while where it is a terminal, and the end where it is none. A quiet while is told
/// once, and not again before a byte has come, so that nothing is done for a person who presses nothing. Of what is read
/// at one time each line is told by itself.
#[derive(Drop)]
pub struct TerminalInput<R> {
    reader: R,
    was_quiet: bool,
    /// What was read, and isn't told yet.
    later: Option<Hearing>,
    log: Trace<Heard>,
    counts: ReadCounts,
}

/// How often reads of a terminal came to nothing. Contracts alone see it.
#[derive(Drop)]
pub(crate) struct ReadCounts {
    /// The reads that failed, but for those that were interrupted.
    pub failed: Count,
    /// The reads that gave nothing to tell.
    pub idle: Count,
    /// The reads that gave no byte.
    pub empty: Count,
    /// How often the host said that it is no terminal.
    pub foreign: Count,
}

impl ReadCounts {
    /// None yet.
    fn new() -> ReadCounts {
        ReadCounts {
            failed: Count::new(),
            idle: Count::new(),
            empty: Count::new(),
            foreign: Count::new(),
        }
    }
}

impl<R: Read + IsTerminal> TerminalInput<R> {
    /// A keyboard of which nothing was heard.
    pub fn new(reader: R) -> TerminalInput<R>
        ensures none { result.log.items ≡ [] }
        ensures left { prepend_known (heard_bytes (kept_for_later result.later))
            (R.remaining result.reader)
            ≡ R.remaining reader }
    {
        TerminalInput {
            reader,
            was_quiet: false,
            later: None,
            log: Trace::new(),
            counts: ReadCounts::new(),
        }
    }
}

impl<R: Read + IsTerminal> KeySource for TerminalInput<R> {
    ghost heard = { λ k. k.log.items };

    ghost left = { λ k. prepend_known (heard_bytes (kept_for_later k.later)) (R.remaining k.reader) };

    ghost ended = { λ k why. HasEnded (R.remaining k.reader) k.counts why };

    fn hear(&mut self) -> Result<Hearing, KeyboardEnd> {
        let heard = self.gathered()?;
        let (line, later) = heard.split();
        self.later = later;
        self.log.add(line.as_slice());
        Ok(line)
    }
}

impl<R: Read + IsTerminal> TerminalInput<R> {
    /// What was read and isn't told yet; where there is none, what is read next.
    fn gathered(&mut self) -> Result<Hearing, KeyboardEnd>
        ensures bytes { IfOk result (λ heard.
            Consumes (prepend_known (heard_bytes (kept_for_later self.old.later))
            (R.remaining self.old.reader))
            (R.remaining self.new.reader) (heard_bytes heard)) }
        ensures none { OnErr result (
            Consumes (prepend_known (heard_bytes (kept_for_later self.old.later))
            (R.remaining self.old.reader))
            (prepend_known (heard_bytes (kept_for_later self.new.later))
            (R.remaining self.new.reader)) []) }
        ensures log { self.new.log.items ≡ self.old.log.items }
        ensures cause { IfErr result (λ why.
            HasEnded (R.remaining self.new.reader) self.new.counts why) }
    {
        match self.later.take() {
            Some(heard) => Ok(heard),
            None => listen(&mut self.reader, &mut self.was_quiet, &mut self.counts),
        }
    }
}

/// Reads until there is something to tell. An interrupted read is tried again. A quiet while is told where a read gives
/// no byte, at once, and not again before a byte has come.
fn listen<R: Read + IsTerminal>(
    reader: &mut R,
    was_quiet: &mut bool,
    counts: &mut ReadCounts,
) -> Result<Hearing, KeyboardEnd>
    ensures bytes { IfOk result
        (λ told. Consumes (R.remaining reader.old) (R.remaining reader.new) (heard_bytes told)) }
    ensures none { OnErr result (Consumes (R.remaining reader.old) (R.remaining reader.new) []) }
    ensures quiet { IfOk result (λ told. is_quiet_while told ≡ was_quiet.new) }
    ensures once { IfOk result (λ told. is_quiet_while told ≡ true → was_quiet.old ≡ false) }
    ensures paused { IfOk result (λ told. is_quiet_while told ≡ true
        → counts.old.empty < counts.new.empty) }
    ensures prompt { IfOk result (λ told. is_quiet_while told ≡ false → was_quiet.old ≡ false
        → counts.new.empty ≡ counts.old.empty) }
    ensures closed { result ≡ Err Closed → IsAtEnd (R.remaining reader.new)
        × (counts.old.foreign < counts.new.foreign) }
    ensures cause { result ≡ Err Fault → (counts.old.failed < counts.new.failed)
        ⊎ (counts.old.idle + (2 ^ 64 - 1) ≤ counts.new.idle) }
{
    let mut piece = [0; MOST_HEARD];
    for _count in 0..u64::MAX {
        match reader.read(&mut piece) {
            Ok(0) => {
                counts.empty.rise();
                if !is_terminal(reader, &mut counts.foreign) {
                    return Err(KeyboardEnd::Closed);
                }
                if !*was_quiet {
                    *was_quiet = true;
                    return Ok(Hearing::quiet());
                }
                counts.idle.rise();
            }
            Ok(count) => {
                *was_quiet = false;
                return Ok(Hearing::of_bytes(&piece[..count]));
            }
            Err(error) if error.kind() == ErrorKind::Interrupted => counts.idle.rise(),
            Err(_) => {
                counts.failed.rise();
                return Err(KeyboardEnd::Fault);
            }
        }
    }
    Err(KeyboardEnd::Fault)
}

/// Whether it is a terminal, as the host says now. It counts that it is none.
fn is_terminal<R: IsTerminal>(reader: &R, foreign: &mut Count) -> bool
    ensures there { result ≡ true → foreign.new ≡ foreign.old }
    ensures none { result ≡ false → foreign.old < foreign.new }
{
    let is = reader.is_terminal();
    if !is {
        foreign.rise();
    }
    is
}
