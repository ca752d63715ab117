//! How far words are found in the caret's text.
ghost use Rattle.std.specs.Prelude.{◌≡◌};
ghost use Rattle.press_tasks.specs.Finding.{words_finding};

use event_bytes::TypedBytes;
use sought_words::Found;

/// How far words are found.
#[derive(Drop)]
pub enum Finding {
    /// What the press before it selected is sought, if it did, or it is asked for the words: before the caret, or behind it.
    Search { over: bool, before: bool },
    /// The words are sought that were searched last.
    On(bool),
    /// These words are sought.
    Words(TypedBytes, bool),
    /// They were found, and the caret goes there.
    Reach(Found),
    /// Their line comes into sight before.
    Bring(Found),
    /// It is in sight, and the caret goes there.
    Arrive(Found),
    /// The caret has gone there, as far as it can.
    Tell(Found),
}

/// Words are sought; where there are none, or they can't be typed, those that were searched last.
pub fn finding_of(words: &[u8], before: bool) -> Finding
    ensures { result ≡ words_finding words.now before }
{
    match TypedBytes::new(words) {
        None => Finding::On(before),
        Some(words) => Finding::Words(words, before),
    }
}
