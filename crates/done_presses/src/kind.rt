//! What events and presses were, as far as an undo takes others back with them.
ghost use Rattle.std.specs.Prelude.{◌≡◌};
ghost use Rattle.done_presses.specs.Kinds.{after_gap, ends_word, is_moving, is_of_bars, kind_moved, kind_of, kind_pointed};
ghost use Rattle.done_presses.specs.Kinds.{is_selecting, kind_posted, kind_typed, kind_with, only_moves, selects_at};
ghost use Rattle.done_presses.specs.Kinds.{word_goes_on};

use event_bytes::{Event, Keys};
use viewer_tracks::Track;

/// What a press was, as far as an undo takes others back with it.
#[derive(Clone, Copy, Debug, Default, PartialEq, Eq)]
pub enum PressKind {
    /// It typed a character of a word last: others go on with it, and blanks.
    Word,
    /// It typed a blank or an end of a line last: others go on with it.
    Gap,
    /// It moved the caret, a selection or a text in its viewer, and did nothing else: it goes with the press before it.
    Moves,
    /// It moved so, and selected something last: what is typed or deleted then is in the place of that.
    Selects,
    /// It is a step of its own.
    #[default]
    Alone,
}

impl PressKind {
    /// What an event was, which may be of a paste.
    pub(crate) fn of(event: &Event, pastes: bool) -> PressKind
        ensures { result ≡ kind_posted pastes event.now }
    {
        if pastes {
            PressKind::Alone
        } else {
            kind_of(event)
        }
    }

    /// Whether it only moved something.
    pub(crate) fn is_moving(self) -> bool
        ensures { result ≡ is_moving self }
    {
        matches!(self, PressKind::Moves | PressKind::Selects)
    }

    /// Whether it selected something last.
    pub(crate) fn is_selecting(self) -> bool
        ensures { result ≡ is_selecting self }
    {
        matches!(self, PressKind::Selects)
    }

    /// What a press was with what only moved something behind it.
    pub(crate) fn moved(self) -> PressKind
        ensures { result ≡ kind_moved self }
    {
        if self.is_moving() {
            PressKind::Moves
        } else {
            PressKind::Alone
        }
    }

    /// What a press was that posts an event more: what it does after it moved, or what it types.
    pub(crate) fn with(self, next: PressKind) -> PressKind
        ensures { result ≡ kind_with self next }
    {
        match self {
            PressKind::Moves | PressKind::Selects => next,
            PressKind::Word => if self.goes_on(next) {
                next
            } else {
                PressKind::Alone
            },
            PressKind::Gap => next.after_gap(),
            PressKind::Alone => PressKind::Alone,
        }
    }

    /// What a press was that typed a blank, and then does this: it may move and type on, as where it breaks a line.
    fn after_gap(self) -> PressKind
        ensures { result ≡ after_gap self }
    {
        match self {
            PressKind::Word => PressKind::Word,
            PressKind::Gap | PressKind::Moves | PressKind::Selects => PressKind::Gap,
            PressKind::Alone => PressKind::Alone,
        }
    }

    /// Whether a word that was typed goes on, or ends.
    pub(crate) fn goes_on(self, next: PressKind) -> bool
        ensures { result ≡ word_goes_on self next }
    {
        match self {
            PressKind::Word => matches!(next, PressKind::Word | PressKind::Gap),
            PressKind::Gap => matches!(next, PressKind::Gap),
            PressKind::Moves | PressKind::Selects | PressKind::Alone => false,
        }
    }
}

/// What an event was by itself.
fn kind_of(event: &Event) -> PressKind
    ensures { result ≡ kind_of event.now }
{
    match event {
        Event::Typed(bytes) => kind_typed(bytes.as_bytes()),
        Event::Point {
            keys,
            x0,
            y0,
            y1,
            ..
        } => kind_pointed(*keys, *x0, *y0, *y1),
        Event::Key(_) | Event::Mark { .. } | Event::File { .. } => PressKind::Alone,
    }
}

/// What typing these bytes was.
fn kind_typed(bytes: &[u8]) -> PressKind
    ensures { result ≡ kind_typed bytes.now }
{
    match bytes {
        [code] => if ends_word(*code) {
            PressKind::Gap
        } else {
            PressKind::Word
        },
        _ => PressKind::Alone,
    }
}

/// Whether a character ends a word.
fn ends_word(code: u8) -> bool
    ensures { result ≡ ends_word code }
{
    code == b' ' || code == b'\t' || code == b'\r'
}

/// What the mouse did, pressed in a column and a row and released in a row.
fn kind_pointed(keys: Keys, x0: u8, y0: u8, y1: u8) -> PressKind
    ensures { result ≡ kind_pointed keys x0 y0 y1 }
{
    if selects(keys, x0) {
        PressKind::Selects
    } else if only_moves(keys, x0, y0, y1) {
        PressKind::Moves
    } else {
        PressKind::Alone
    }
}

/// Whether the mouse selected something: the right button, but in a scroll bar.
fn selects(keys: Keys, x0: u8) -> bool
    ensures { result ≡ selects_at keys x0 }
{
    match keys {
        Keys::Right => !is_of_bars(x0),
        _ => false,
    }
}

/// Whether the mouse moved the caret, a selection or a text in its viewer.
fn only_moves(keys: Keys, x0: u8, y0: u8, y1: u8) -> bool
    ensures { result ≡ only_moves keys x0 y0 y1 }
{
    match keys {
        Keys::Left => y0 == y1,
        Keys::Right => true,
        Keys::Middle => is_of_bars(x0),
        _ => false,
    }
}

/// Whether viewers have their scroll bars in the column.
fn is_of_bars(x: u8) -> bool
    ensures { result ≡ is_of_bars x }
{
    x == Track::User.left() || x == Track::System.left()
}
