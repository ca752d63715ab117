//! A terminal's keys, up to the one that calls for the past.
ghost use Rattle.std.specs.Prelude.{◌≡◌, ◌≤◌, ◌⊎◌, ◌++◌, [], false, true, None, drop, length, take, IfErr, IfOk, OnErr, if◌then◌else◌};
ghost use Rattle.std.specs.Io.KnownBytes.{Consumes, prepend_known};
ghost use Rattle.terminal_presses.specs.declared.press.Heard.{Heard as AHeard};
ghost use Rattle.terminal_keyboard.specs.declared.keyboard.KeyboardEnd.TheVariants.{Closed};
ghost use Rattle.terminal_keyboard.specs.Hearings.{IsWithinLine, heard_bytes, kept_for_later};
ghost use Rattle.past_viewer.specs.Calling.{begins_call, calls_past, final_press, may_leave, pastes_behind, shows_escape, still_pastes, told_at_once, wants_quiet};
ghost use Rattle.terminal_keyboard.specs.Presses.{parser_after};

use past_looks::{CONTROL_P, CONTROL_Q, LEAVES};
use terminal_keyboard::{Hearing, KeySource, KeyboardEnd, Parser, Trace};
use terminal_presses::{Heard, Press, Presses};

/// The byte of Ctrl-V.
const CONTROL_V: u8 = 22;

/// The last one of these presses.
fn final_press(presses: Presses) -> Option<Press>
    ensures { result ≡ final_press presses }
{
    match presses {
        Presses::Nothing => None,
        Presses::One(press) => Some(press),
        Presses::Two(_cut, press) => Some(press),
    }
}

/// Whether these presses call for the past.
fn calls_past(presses: Presses) -> bool
    ensures { result ≡ calls_past presses }
{
    matches!(final_press(presses), Some(Press::Control(CONTROL_P)))
}

/// Whether one may leave the past by these presses, or a text that is held may come behind them, with a key that ends no line
/// and isn't Escape.
fn may_leave(presses: Presses) -> bool
    ensures { result ≡ may_leave presses }
{
    match final_press(presses) {
        Some(Press::Control(byte)) => byte == CONTROL_Q || byte == CONTROL_V,
        Some(Press::Character(byte)) => byte == LEAVES,
        _ => false,
    }
}

/// Whether this is a byte that shows that an escape byte before it was the key.
fn shows_escape(heard: Heard, presses: Presses) -> bool
    ensures { result ≡ shows_escape heard presses }
{
    match heard {
        Heard::Byte(_) => matches!(
            presses,
            Presses::One(Press::Escape) | Presses::Two(Press::Escape, _)
        ),
        Heard::Quiet => false,
    }
}

/// Whether a text is pasted behind these presses.
fn still_pastes(pastes: bool, presses: Presses) -> bool
    ensures { result ≡ still_pastes pastes presses }
{
    match presses {
        Presses::One(Press::PasteBegins) => true,
        Presses::One(Press::PasteEnds) => false,
        _ => pastes,
    }
}

/// Keys that are told up to Ctrl-P, unless that is pasted: then they say that nothing more comes, once, and tell it alone
/// when they are heard again.
///
/// Behind a press by which one may leave the past nothing is told in the same hearing, so that what was pressed behind it
/// is still to be heard when one has left; nor behind Ctrl-V, so that it is heard behind a text which that brings in. And a
/// byte that shows that an escape byte before it was the key is told behind a quiet while, which shows that too.
#[derive(Drop)]
pub struct PastKeys<K> {
    keys: K,
    /// What was told so far, as far as later presses depend on it.
    parser: Parser,
    pastes: bool,
    /// They have said that nothing more comes, and Ctrl-P is told next.
    stopped: bool,
    /// What was heard, and isn't told yet.
    later: Option<Hearing>,
    log: Trace<Heard>,
    ghost line: { IsWithinLine (kept_for_later later) },
}

/// How much of this is told at one time, by what was told so far.
fn told_at_once(parser: Parser, pastes: bool, heard: &[Heard]) -> usize
    ensures value { result ≡ told_at_once parser pastes heard.now }
    ensures within { result ≤ length heard.now }
{
    let mut parser = parser;
    let mut pastes = pastes;
    for (i, one) in heard.iter().enumerate() {
        let presses = parser.take(*one);
        if !pastes && (calls_past(presses) || shows_escape(*one, presses)) {
            return i;
        }
        if !pastes && may_leave(presses) {
            return i + 1;
        }
        pastes = still_pastes(pastes, presses);
    }
    heard.len()
}

/// Whether this is told behind a quiet while.
fn wants_quiet(parser: Parser, pastes: bool, heard: Heard) -> bool
    ensures { result ≡ wants_quiet parser pastes heard }
{
    let mut parser = parser;
    !pastes && shows_escape(heard, parser.take(heard))
}

impl<K: KeySource> PastKeys<K> {
    /// Keys of which nothing was told.
    pub fn new(keys: K) -> PastKeys<K>
        ensures keys { result.keys ≡ keys }
        ensures none { result.log.items ≡ [] }
        ensures later { kept_for_later result.later ≡ [] }
    {
        PastKeys {
            keys,
            parser: Parser::new(),
            pastes: false,
            stopped: false,
            later: None,
            log: Trace::new(),
        }
    }

    /// What was heard and isn't told yet; where there is none, what is heard next.
    fn gathered(&mut self) -> Result<Hearing, KeyboardEnd>
        ensures bytes { IfOk result (λ heard. Consumes
            (prepend_known (heard_bytes (kept_for_later self.old.later)) (K.left self.old.keys))
            (K.left self.new.keys) (heard_bytes heard)) }
        ensures line { IfOk result IsWithinLine }
        ensures none { OnErr result (Consumes
            (prepend_known (heard_bytes (kept_for_later self.old.later)) (K.left self.old.keys))
            (prepend_known (heard_bytes (kept_for_later self.new.later)) (K.left self.new.keys))
            []) }
        ensures log { self.new.log.items ≡ self.old.log.items }
        ensures cause { IfErr result (λ why. K.ended self.new.keys why) }
        ensures later { kept_for_later self.new.later ≡ [] }
    {
        match self.later.take() {
            Some(heard) => Ok(heard),
            None => self.keys.hear(),
        }
    }

    /// This is told, and this later.
    fn pass(&mut self, told: &[Heard], later: &[Heard])
        requires line { IsWithinLine later.now }
        requires short { length later.now ≤ 64 }
        ensures parser { self.new.parser ≡ parser_after self.old.parser told.now }
        ensures pastes { self.new.pastes ≡ pastes_behind self.old.parser self.old.pastes told.now }
        ensures log { self.new.log.items ≡ self.old.log.items ++ told.now }
        ensures later { kept_for_later self.new.later ≡ later.now }
        ensures keys { self.new.keys ≡ self.old.keys }
        ensures stopped { self.new.stopped ≡ self.old.stopped }
    {
        let mut parser = self.parser;
        let mut pastes = self.pastes;
        for one in told {
            let presses = parser.take(*one);
            pastes = still_pastes(pastes, presses);
        }
        self.parser = parser;
        self.pastes = pastes;
        self.log.add(told);
        self.later = kept(later);
    }
}

/// What is kept for later, if anything is.
fn kept(later: &[Heard]) -> Option<Hearing>
    requires { length later.now ≤ 64 }
    ensures { kept_for_later result ≡ later.now }
{
    if later.is_empty() {
        None
    } else {
        Some(Hearing::of(later))
    }
}

impl<K: KeySource> KeySource for PastKeys<K> {
    ghost heard = { λ k. k.log.items };

    ghost left = { λ k. prepend_known (heard_bytes (kept_for_later k.later)) (K.left k.keys) };

    ghost ended = { λ k why. (why ≡ Closed) × (k.stopped ≡ true)
        × (begins_call k.parser k.pastes (kept_for_later k.later) ≡ true) ⊎ K.ended k.keys why };

    fn hear(&mut self) -> Result<Hearing, KeyboardEnd> {
        let heard = self.gathered()?;
        let all = heard.as_slice();
        if wants_quiet(self.parser, self.pastes, all[0]) {
            self.pass(&[Heard::Quiet], all);
            return Ok(Hearing::quiet());
        }
        let count = told_at_once(self.parser, self.pastes, all);
        if count == 0 && !self.stopped {
            self.stopped = true;
            self.later = Some(heard);
            return Err(KeyboardEnd::Closed);
        }
        self.stopped = false;
        let (told, later) = all.split_at(count.max(1));
        self.pass(told, later);
        Ok(Hearing::of(told))
    }
}
