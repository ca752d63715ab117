//! What the line below the screen says.
ghost use Rattle.std.specs.Prelude.{◌≡◌, ◌≤◌, length, option_map};
ghost use Rattle.status_line.specs.Sayings.{line_of};
ghost use Rattle.status_line.specs.Sayings.{is_in_memory as memory_said, resting_of as rest_after};
ghost use Rattle.status_line.specs.Sayings.{said_by_pointer as by_pointer};
ghost use Rattle.status_line.specs.Sayings.{unstored_words, words};
ghost use Rattle.status_line.specs.Fitting.{parts_within};

use crate::by_hand::line_by_hand;
use crate::deed::Deed;
use crate::fitting::parts_within;
use crate::losing::{question_within, question_words};
use crate::question::Question;
use crate::refusals::{cut_short, marked_words, no_document, reason, unread_words};
use crate::taken_back::{told, told_back};
use arrayvec::ArrayVec;
use desktop_definitions::codes::NO_CARET;
use event_bytes::Keys;
use host_files::HostFault;
use screen_cells::Screen;
use screen_reading::{parameter_word, word_from};
use terminal_presses::{Asks, Click};

/// What the line below the screen says, where it neither asks for a name nor says what the next click is.
#[derive(Clone, Copy, Debug, PartialEq, Eq)]
pub enum Saying {
    /// How to go on.
    Greeting,
    /// How to go on, and that the program isn't proved.
    Unproved,
    /// How the other side comes into sight, and how to go on.
    OneSide,
    /// The desktop is gone when the person leaves.
    InMemory,
    /// The keys that are needed most.
    Keys,
    /// Of the viewer with the caret, whose menu begins at this cell, the text isn't stored; and the keys.
    Unstored {
        /// The column of the menu's first cell.
        x: u8,
        /// Its row.
        y: u8,
    },
    /// How to use the pointer that keys move.
    Pointing,
    /// A press would lose something.
    Asks(Question),
    /// A key that means nothing.
    NoKey,
    /// A key for the caret, where none is set.
    NoCaret,
    /// An arrow that leads to no text.
    NoText,
    /// No character after the caret is in sight.
    NothingAfter,
    /// No line to cut.
    NoLine,
    /// Not both ends of what is to be selected or cut are in sight.
    PartHidden,
    /// A scroll where no text can move.
    NoScroll,
    /// No word of a command is in sight.
    NoWord,
    /// No word of a command is in sight whole.
    NoCommand,
    /// The pattern wasn't searched right before.
    NoSearch,
    /// Nothing was typed where the pattern had been found before.
    NothingTyped,
    /// Lines are broken from now on while they are typed.
    Fills,
    /// Lines are no longer broken.
    FillsNot,
    /// The text of all commands was gone, and is a document again.
    ToolFiled,
    /// An event was refused, with this code.
    Refused(u8),
    /// There is no document of a name, or it is named twice, says the word that was called at this cell.
    NoDocument {
        x: u8,
        y: u8,
    },
    /// Of a paste or a host file so many characters were typed. Then a piece was refused, with the code, and the rest
    /// was dropped.
    CutShort {
        /// How many characters were typed.
        typed: u32,
        /// The code of the refusal.
        code: u8,
    },
    /// The store takes no more events.
    Worn,
    /// The text of a host file isn't typed, for this cause.
    Unread(HostFault),
    /// So many characters of a paste or a host file became question marks.
    Marked(u32),
    /// A host file was typed as far as it can be read.
    Unfinished,
    /// The terminal has fewer columns than a person can sit down at.
    TooNarrow,
    /// The terminal has fewer rows than a person can sit down at.
    TooLow,
    /// This was taken back.
    TookBack(Deed),
    /// This was done again.
    DidAgain(Deed),
    /// There is no event that can be taken back.
    NothingBack,
    /// What was done before can't be taken back any more.
    NoFurtherBack,
    /// There is nothing that can be done again.
    NothingAgain,
    /// What was before can't be read.
    NotBack,
    /// The line that was added to the log last.
    Logged,
    /// The first of a store's two files failed, and the twin alone is written.
    FirstFailed,
    /// The twin failed, and the first of a store's two files alone is written.
    TwinFailed,
    /// The store has a twin, which isn't written.
    WithoutTwin,
    /// The store, which kept no past up to now, keeps one.
    PastBegins,
    /// The store keeps no past, since none can be written behind it.
    NoPast,
    /// What was copied is too long for the clipboard of the terminal.
    NotClipped,
    /// Words were found round the end of the text.
    WentRound,
    /// Words that are sought aren't in the text.
    NotThere,
    /// No words were sought yet.
    NoWords,
    /// Words were found right of the last column that the viewer shows.
    BeyondEdge,
    /// Each line of the paragraph ends where it is to end.
    IsFilled,
}

/// The first words of a line, as many as there are columns for.
pub(crate) fn cut(width: usize, words: &[u8]) -> SayingLine
    requires { width ≤ 80 }
    ensures value { result.items ≡ parts_within width words.now }
    ensures fits { length result.items ≤ width }
{
    line(parts_within(width, words))
}

/// What is said behind the name of a text that isn't stored.
const UNSTORED: &[u8] = b" isn't stored: Ctrl-S stores, Ctrl-Q leaves, F2 calls, F11 no mouse";

/// That a text isn't stored, by the name in its menu, where one is seen; and the keys, as far as there is room.
#[tactic(auto, unfolding(crate::specs::Sayings::unstored_words))]
fn unstored_words(name: &[u8]) -> SayingLine
    requires { length name.now ≤ 31 }
    ensures { result.items ≡ unstored_words name.now }
{
    if name.is_empty() {
        return line(
            b"This text isn't stored: Ctrl-S stores, Ctrl-Q leaves, F2 calls, F11 no mouse",
        );
    }
    let mut text = line(name);
    text.try_extend_from_slice(parts_within(80 - name.len(), UNSTORED))
        .unwrap();
    text
}

/// Whether it says that the desktop is in memory.
pub fn is_in_memory(saying: Saying) -> bool
    ensures { result ≡ memory_said saying }
{
    matches!(saying, Saying::InMemory)
}

/// What is said where nothing else is, in a sitting with this greeting.
pub fn resting_of(greeting: Saying) -> Saying
    ensures { result ≡ rest_after greeting }
{
    if is_in_memory(greeting) {
        Saying::InMemory
    } else {
        Saying::Keys
    }
}

/// What is said while a pointer is shown that keys move, or isn't: how to use it, where nothing else is to be said.
#[tactic(auto, unfolding(crate::specs::Sayings::said_by_pointer))]
pub fn said_by_pointer(is_shown: bool, saying: Saying) -> Saying
    ensures { result ≡ by_pointer is_shown saying }
{
    if !is_shown {
        return saying;
    }
    match saying {
        Saying::Greeting | Saying::Unproved | Saying::OneSide | Saying::InMemory | Saying::Keys =>
            Saying::Pointing,
        Saying::Unstored { .. } => Saying::Pointing,
        other => other,
    }
}

impl Saying {
    /// Its text, where this is the screen, and this the line of the log that is said.
    #[tactic(auto, unfolding(crate::specs::Sayings::words))]
    pub(crate) fn words(self, screen: &Screen, log: &SayingLine) -> SayingLine
        ensures { result.items ≡ words screen.now log.now.items self }
    {
        match self {
            Saying::Greeting => line(
                b"Help: F2, then click Edit.Open Help. F11 no mouse, Ctrl-S stores, Ctrl-Q leaves",
            ),
            Saying::Unproved => line(
                b"Not proved yet. Help: F2, click Edit.Open Help. F11 no mouse, Ctrl-S stores",
            ),
            Saying::OneSide => line(
                b"Alt-Left/Right: the other side. F11 no mouse, Ctrl-Q leaves, Ctrl-S stores",
            ),
            Saying::InMemory => line(
                b"This desktop is gone when you leave (Ctrl-Q): it is in memory.",
            ),
            Saying::Keys => line(
                b"Ctrl-Q leaves, F2 calls, F11 no mouse, F3 selects, Ctrl-S stores, Ctrl-Z undo",
            ),
            Saying::Unstored { x, y } => {
                let name = word_from(screen, x, y);
                unstored_words(name.as_slice())
            }
            Saying::Pointing => line(
                b"Arrows move the pointer, Return clicks, F2 calls, F3 selects, Escape ends it",
            ),
            Saying::Asks(question) => question_words(screen, question),
            Saying::NoKey => line(b"That key means nothing here."),
            Saying::NoCaret => line(reason(NO_CARET)),
            Saying::NoText => line(b"There is no text on that side of the caret."),
            Saying::NothingAfter => line(b"No character after the caret is in sight."),
            Saying::NoLine => line(b"There is no line to cut."),
            Saying::PartHidden => line(
                b"An end of it is out of sight: make the viewer taller, or take less of the text.",
            ),
            Saying::NoScroll => line(
                b"Nothing moves there: no viewer, no caret, or too few rows of a text.",
            ),
            Saying::NoWord => line(b"No such word is in sight: System.Tool shows the commands."),
            Saying::NoCommand => line(
                b"No command's whole word is in sight: System.Tool shows the commands.",
            ),
            Saying::NoSearch => line(
                b"Press Ctrl-F first: Ctrl-R puts what you typed after the last Ctrl-F",
            ),
            Saying::NothingTyped => line(b"Nothing was typed after the last Ctrl-F"),
            Saying::Fills => line(
                b"Lines are broken while you type: at the last blank before the edge.",
            ),
            Saying::FillsNot => line(b"Lines aren't broken while you type, and may pass the edge."),
            Saying::ToolFiled => line(
                b"System.Tool was gone, and is a document again: the same click opens it.",
            ),
            Saying::Refused(code) => line(reason(code)),
            Saying::NoDocument { x, y } => no_document(parameter_word(screen, x, y).as_slice()),
            Saying::CutShort { typed, code } => cut_short(typed, code),
            Saying::Worn => line(b"This store is used up: take its documents out by desk export."),
            Saying::Unread(why) => line(unread_words(why)),
            Saying::Marked(count) => marked_words(count),
            Saying::Unfinished => line(
                b"The host's file can't be read to its end; what came of it is typed.",
            ),
            Saying::TooNarrow => line(b"This window is too narrow: it has fewer than 45 columns."),
            Saying::TooLow => line(b"This window is too low: it has fewer than 12 rows."),
            Saying::TookBack(deed) => told_back(screen, deed),
            Saying::DidAgain(deed) => told(b"did again: ", deed),
            Saying::NothingBack => line(b"There is nothing to take back."),
            Saying::NoFurtherBack => line(b"Undo reaches no further back."),
            Saying::NothingAgain => line(b"There is nothing to do again."),
            Saying::NotBack => line(b"What was before can't be read, and nothing was taken back."),
            Saying::Logged => line(log.as_slice()),
            Saying::FirstFailed => line(
                b"The first file failed, the twin has all: mend it, then start again with both.",
            ),
            Saying::TwinFailed => line(
                b"The twin failed, the first file has all: mend it, then start again with both.",
            ),
            Saying::WithoutTwin => line(
                b"This store has a twin, which gets nothing now: start with --twin to pair them.",
            ),
            Saying::PastBegins => line(
                b"All you do is kept from now on: Ctrl-P shows it, desk forget deletes it.",
            ),
            Saying::NoPast => line(
                b"No past is kept in this sitting: it can't be written (is the disk full?).",
            ),
            Saying::NotClipped => line(
                b"Too long for the terminal's clipboard: copied here, and it takes 74,994 bytes.",
            ),
            Saying::WentRound => line(b"Found round the end of the text: none was on that side."),
            Saying::NotThere => line(b"These words aren't in this text."),
            Saying::NoWords => line(b"Nothing was sought yet: type the words first."),
            Saying::BeyondEdge => line(
                b"Found right of the edge, out of sight: the caret is in that line's last column.",
            ),
            Saying::IsFilled => line(b"This paragraph is filled already."),
        }
    }
}

/// The line below a screen, of 80 characters at most.
pub type SayingLine = ArrayVec<u8, 80>;

/// The text of the line below in a window of so many columns, where `log` is the line of the log that a saying says: a
/// question goes before all else. What there is no room for is left out, and what stays are whole words.
#[tactic(auto, unfolding(crate::specs::Sayings::line_of))]
pub fn line_of(
    width: u8,
    screen: &Screen,
    log: &SayingLine,
    asked: Option<&[u8]>,
    asks: Asks,
    names: u8,
    sought: &[u8],
    armed: Option<Click>,
    saying: Saying,
) -> SayingLine
    requires { width ≤ 80 }
    ensures value { result.items ≡ line_of width screen.now log.now.items
        (option_map (λ name. name.now) asked.entry) asks names sought.now armed saying }
    ensures fits { 17 ≤ width → length result.items ≤ width }
{
    let width = usize::from(width);
    match saying {
        Saying::Asks(question) => question_within(width, screen, question),
        other => line_by_hand(width, screen, log, asked, asks, names, sought, armed, other),
    }
}

/// Words of 80 characters at most.
pub(crate) fn line(words: &[u8]) -> SayingLine
    requires { length words.now ≤ 80 }
    ensures { result.items ≡ words.now }
{
    let mut text = SayingLine::new();
    text.try_extend_from_slice(words).unwrap();
    text
}
