//! What is asked before a press loses something, in words.
ghost use Rattle.std.specs.Prelude.{◌≡◌, ◌≤◌, length};
ghost use Rattle.status_line.specs.Sayings.{closing_words, question_words, question_within, short_question};
ghost use Rattle.status_line.specs.Sayings.{reopening_words, rivalled_words, taking_words};

use crate::fitting::{or_shorter, words_within};
use crate::named::{behind_call, deleting_words, misnamed_shortly, misnamed_words};
use crate::question::Question;
use crate::saying::{SayingLine, cut, line};
use screen_cells::Screen;
use screen_reading::word_from;

/// What is asked, where this is the screen.
pub(crate) fn question_words(screen: &Screen, question: Question) -> SayingLine
    ensures { result.items ≡ question_words screen.now question }
{
    match question {
        Question::Leaving => line(
            b"This desktop is in memory: press Ctrl-Q again, and it is gone.",
        ),
        Question::Forgetting => line(
            b"Leaving loses what you took back: Ctrl-Q leaves, Ctrl-Y does it again.",
        ),
        Question::Closing { x, y } => {
            let name = word_from(screen, x, y);
            closing_words(name.as_slice())
        }
        Question::Taking { x, y } => {
            let name = word_from(screen, x, y);
            taking_words(name.as_slice())
        }
        Question::Rivalled { x, y } => {
            let name = word_from(screen, x, y);
            rivalled_words(name.as_slice())
        }
        Question::Deleting { x, y } => deleting_words(behind_call(screen, x, y)),
        Question::Misnamed { x, y } => misnamed_words(behind_call(screen, x, y)),
        Question::Reopening { x, y } => {
            let name = word_from(screen, x, y);
            reopening_words(name.as_slice())
        }
    }
}

/// What is asked in so many columns, where this is the screen. Where there is no room for a name that stands first it
/// is left out.
pub(crate) fn question_within(width: usize, screen: &Screen, question: Question) -> SayingLine
    requires { width ≤ 80 }
    ensures value { result.items ≡ question_within width screen.now question }
    ensures fits { length result.items ≤ width }
{
    or_shorter(
        width,
        question_words(screen, question),
        short_question(width, screen, question),
    )
}

/// The same in few words.
fn short_question(width: usize, screen: &Screen, question: Question) -> SayingLine
    requires { width ≤ 80 }
    ensures value { result.items ≡ short_question width screen.now question }
    ensures fits { length result.items ≤ width }
{
    match question {
        Question::Leaving | Question::Forgetting => cut(
            width,
            question_words(screen, question).as_slice(),
        ),
        Question::Closing { .. } => cut(width, b"It isn't stored: press again to close it"),
        Question::Taking { .. } => cut(width, b"This closes another viewer: press again"),
        Question::Rivalled { .. } => cut(width, b"It is in two viewers: press again to store"),
        Question::Deleting { x, y } => {
            let words = deleting_words(behind_call(screen, x, y));
            line(words_within(width, words.as_slice()))
        }
        Question::Misnamed { x, y } => {
            let words = misnamed_shortly(behind_call(screen, x, y));
            cut(width, words.as_slice())
        }
        Question::Reopening { .. } => cut(width, b"It is open, not stored: press again"),
    }
}

/// That a text isn't stored, by the name in its menu, where one is seen.
#[tactic(auto, unfolding(crate::specs::Sayings::closing_words))]
fn closing_words(name: &[u8]) -> SayingLine
    requires { length name.now ≤ 31 }
    ensures { result.items ≡ closing_words name.now }
{
    if name.is_empty() {
        return line(b"This text isn't stored: press again to close it");
    }
    let mut text = line(name);
    text.try_extend_from_slice(b" isn't stored: press again to close it")
        .unwrap();
    text
}

/// That a viewer goes, by the name in its menu, where one is seen.
#[tactic(auto, unfolding(crate::specs::Sayings::taking_words))]
fn taking_words(name: &[u8]) -> SayingLine
    requires { length name.now ≤ 31 }
    ensures { result.items ≡ taking_words name.now }
{
    if name.is_empty() {
        return line(b"This closes another viewer: press again");
    }
    let mut text = line(b"This closes the viewer of ");
    text.try_extend_from_slice(name).unwrap();
    text.try_extend_from_slice(b": press again").unwrap();
    text
}

/// That another viewer shows another text as the document of a name, where one is seen, to which this text is to go.
#[tactic(auto, unfolding(crate::specs::Sayings::rivalled_words))]
fn rivalled_words(name: &[u8]) -> SayingLine
    requires { length name.now ≤ 31 }
    ensures { result.items ≡ rivalled_words name.now }
{
    if name.is_empty() {
        return line(b"This name is in two viewers: press again to store this");
    }
    let mut text = line(name);
    text.try_extend_from_slice(b" is in two viewers: press again to store this")
        .unwrap();
    text
}

/// That a document is opened once more, by the name in the menu of the viewer that is open, where one is seen.
#[tactic(auto, unfolding(crate::specs::Sayings::reopening_words))]
fn reopening_words(name: &[u8]) -> SayingLine
    requires { length name.now ≤ 31 }
    ensures { result.items ≡ reopening_words name.now }
{
    if name.is_empty() {
        return line(b"It is open, not stored: press again to open it anew");
    }
    let mut text = line(name);
    text.try_extend_from_slice(b" is open, not stored: press again to open it anew")
        .unwrap();
    text
}
