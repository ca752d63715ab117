//! A text that was copied in the past, for the present.
ghost use Rattle.std.specs.Prelude.{◌≡◌, ◌||◌, ℕ, true, false, List, [], map, Some, IfSome, IsNone, is_ok, is_some};
ghost use Rattle.terminal_keyboard.specs.Hearings.{answer_number};
ghost use Rattle.terminal_keyboard.specs.Presses.{at_rest, presses_heard};
ghost use Rattle.terminal_keyboard.specs.Spelling.{pasted};
ghost use Rattle.terminal_presses.specs.declared.hand.Hand.{Hand as AHand};
ghost use Rattle.terminal_presses.specs.declared.press.Heard.{Heard};
ghost use Rattle.terminal_keyboard.specs.HostPastes.{harmless};
ghost use Rattle.terminal_presses.specs.Hands.{idle};
ghost use Rattle.terminal_presses.specs.Runs.{Types, pasted_text, posted_events};
ghost use Rattle.terminal_presses.specs.Sights.{Sight as ASight};
ghost use Rattle.past_viewer.specs.declared.held.Coming.TheVariants.{No};
ghost use Rattle.past_viewer.specs.Held.{AnswersHeld, AreHeld, TellsHeld, is_coming_in, piece_told, text_held, told_next};

use host_files::HostFault;
use std::alloc::Global;
use std::marker::Model;
use terminal_keyboard::{
    Completion, Hearing, Keyboard, KeyboardEnd, MOST_HEARD, Trace, pastes_are_heard,
};
use terminal_presses::Heard;

/// What is told first of a text: an escape byte and `[200~`.
const PASTE_BEGINS: [u8; 6] = [27, 91, 50, 48, 48, 126];

/// What is told last: an escape byte and `[201~`.
const PASTE_ENDS: [u8; 6] = [27, 91, 50, 48, 49, 126];

/// The byte of the key Escape.
const ESCAPE: u8 = 27;

/// What is told for it: a byte that can't be typed, and is no key of the desk.
const SEPARATOR: u8 = 28;

/// A text that was copied in the past: its lines end with line feeds. A clause sees the list of its bytes.
#[derive(Drop)]
pub struct PastText {
    bytes: Vec<u8>,
}

impl Model for PastText {
    ghost use Rattle.std.specs.Prelude.{ℕ, List};

    ghost Value = { List ℕ };

    ghost view = { λ t. t.bytes.items };
}

impl PastText {
    /// These bytes.
    pub(crate) fn of(bytes: Vec<u8>) -> PastText
        ensures { result ≡ bytes.items }
    {
        PastText { bytes }
    }

    /// The bytes.
    fn into_bytes(self) -> Vec<u8>
        ensures { result.items ≡ self }
    {
        self.bytes
    }
}

/// How far the text that is held has come.
#[derive(Clone, Copy)]
pub(crate) enum Coming {
    /// It isn't on its way in.
    No,
    /// Nothing of it is told yet.
    Begins,
    /// So many bytes of it are told, and its end isn't.
    GoesOn(usize),
}

/// A keyboard that tells what another one does, and holds a text. Where the host file is to be brought in that has no name,
/// that text is told whole before anything else is heard, as if it were pasted, and any number of times. An escape byte in it
/// is told as a byte that can't be typed, so nothing in it is a key.
#[derive(Drop)]
pub struct HeldKeys<K> {
    pub keys: K,
    text: Vec<u8>,
    coming: Coming,
    log: Trace<Heard>,
    asked: Trace<u8>,
}

impl<K: Keyboard> HeldKeys<K> {
    /// A keyboard of which nothing was heard, and that holds no text.
    pub fn new(alloc: Global, keys: K) -> HeldKeys<K>
        ensures keys { result.keys ≡ keys }
        ensures none { result.log.items ≡ [] }
        ensures unasked { result.asked.items ≡ [] }
        ensures text { result.text.items ≡ [] }
        ensures calm { is_coming_in result.coming ≡ false }
    {
        HeldKeys {
            keys,
            text: Vec::new(alloc),
            coming: Coming::No,
            log: Trace::new(),
            asked: Trace::new(),
        }
    }

    /// The text is held in the place of another one, where there is one. Returns whether there is.
    pub fn hold(&mut self, text: Option<PastText>) -> bool
        ensures told { result ≡ is_some text }
        ensures text { self.new.text.items ≡ text_held self.old.text.items text }
        ensures keys { self.new.keys ≡ self.old.keys }
        ensures log { self.new.log ≡ self.old.log }
        ensures asked { self.new.asked ≡ self.old.asked }
    {
        match text {
            None => false,
            Some(text) => {
                self.text = text.into_bytes();
                make_harmless(self.text.as_mut_slice());
                self.coming = Coming::No;
                true
            }
        }
    }

    /// What is told next of the text that is held. None where it isn't on its way in.
    fn told_of_text(&mut self) -> Option<Hearing>
        ensures told { IfSome result (λ told. (is_coming_in self.old.coming ≡ true)
            × ((told, self.new.coming) ≡ told_next self.old.text.items self.old.coming)) }
        ensures none { IsNone result → (is_coming_in self.old.coming ≡ false)
            × (self.new.coming ≡ self.old.coming) }
        ensures text { self.new.text ≡ self.old.text }
        ensures keys { self.new.keys ≡ self.old.keys }
        ensures log { self.new.log ≡ self.old.log }
        ensures asked { self.new.asked ≡ self.old.asked }
    {
        match self.coming {
            Coming::No => None,
            Coming::Begins => {
                self.coming = Coming::GoesOn(0);
                Some(Hearing::of_bytes(&PASTE_BEGINS))
            }
            Coming::GoesOn(from) => {
                let (told, coming) = piece_told(self.text.as_slice(), from);
                self.coming = coming;
                Some(told)
            }
        }
    }

    /// Has the text be told that is held, where that is asked for, or asks the other keyboard.
    fn brought(&mut self, name: &[u8]) -> Result<(), HostFault>
        ensures answered { AnswersHeld (K.answers self.old.keys self.new.keys name.now result)
            self.old.text.items self.new.text.items self.new.coming name.now result }
        ensures brings { is_coming_in self.new.coming || K.brings self.new.keys ≡ is_ok result }
        ensures unread { K.left self.new.keys ≡ K.left self.old.keys }
        ensures log { self.new.log ≡ self.old.log }
        ensures asked { self.new.asked ≡ self.old.asked }
    {
        if name.is_empty() {
            self.coming = Coming::Begins;
            return Ok(());
        }
        self.coming = Coming::No;
        self.keys.bring(name)
    }
}

impl<K: Keyboard> Keyboard for HeldKeys<K> {
    ghost heard = { λ k. k.log.items };

    ghost left = { λ k. K.left k.keys };

    ghost asked = { λ k. k.asked.items };

    ghost brings = { λ k. is_coming_in k.coming || K.brings k.keys };

    ghost tells = { λ old new told. TellsHeld (K.tells old.keys new.keys told) old.text.items
        new.text.items old.coming new.coming told };

    ghost ended = { λ k why. K.ended k.keys why };

    ghost answers = { λ old new name answer. AnswersHeld (K.answers old.keys new.keys name answer)
        old.text.items new.text.items new.coming name answer };

    fn hear(&mut self) -> Result<Hearing, KeyboardEnd> {
        let hearing = match self.told_of_text() {
            Some(told) => told,
            None => self.keys.hear()?,
        };
        self.log.add(hearing.as_slice());
        Ok(hearing)
    }

    /// The text that is held has no name.
    fn bring(&mut self, name: &[u8]) -> Result<(), HostFault> {
        let answer = self.brought(name);
        self.asked.add(name);
        self.asked.add(&[number_of(answer)]);
        answer
    }

    fn complete(&mut self, name: &[u8]) -> Completion {
        let told = self.keys.complete(name);
        self.asked.add(name);
        self.asked.add(told.rest.as_bytes());
        self.asked.add(&[told.count]);
        told
    }
}

/// What is told of a text of which so many bytes are told: more of it, or its end. How far it has come then.
fn piece_told(text: &[u8], from: usize) -> (Hearing, Coming)
    ensures { result ≡ piece_told text.now from }
{
    if from >= text.len() {
        return (Hearing::of_bytes(&PASTE_ENDS), Coming::No);
    }
    let rest = &text[from..];
    let count = rest.len().min(MOST_HEARD);
    (
        Hearing::of_bytes(&rest[..count]),
        Coming::GoesOn(from + count),
    )
}

/// Makes each byte harmless.
fn make_harmless(text: &mut [u8])
    ensures { text.new ≡ map harmless text.old }
{
    for i in 0..text.len() {
        text[i] = harmless(text[i]);
    }
}

/// The byte, or another one that can't be typed where it is an escape byte.
#[tactic(auto, unfolding(terminal_keyboard::specs::HostPastes::harmless))]
fn harmless(byte: u8) -> u8
    ensures { result ≡ harmless byte }
{
    if byte == ESCAPE { SEPARATOR } else { byte }
}

/// An answer as a number.
fn number_of(answer: Result<(), HostFault>) -> u8
    ensures { result ≡ answer_number answer }
{
    match answer {
        Ok(()) => 0,
        Err(why) => why.number(),
    }
}

/// What is told of a text that is held, from its beginning to its end, is a paste of it, and its events type it: of each line
/// the end is a carriage return, and a question mark stands for each character that can't be typed.
pub fn held_texts_are_typed()
    ensures pasted { (text : List ℕ) (told : List Heard) → AreHeld text No told
        → told ≡ pasted text }
    ensures typed { (old text : List ℕ) (told : List Heard) (sight : ASight) (hand : AHand)
        → AreHeld (text_held old (Some text)) No told
        → Types (posted_events sight (idle hand) (presses_heard at_rest told))
        (pasted_text (text_held old (Some text))) }
{
    pastes_are_heard();
}
