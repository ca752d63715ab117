//! What a press comes to.

use crate::press::{Arrow, Page, Scroll};
use crate::spot::Spot;
use event_bytes::{Event, Keys};
use host_names::HostName;

/// What the next click is to be, or one that has begun.
#[derive(Clone, Copy, Debug, PartialEq, Eq)]
pub enum Click {
    /// It sets the marker.
    Mark,
    /// It is a click with these keys of the mouse.
    Keys(Keys),
}

/// What a press comes to.
#[derive(Debug, PartialEq, Eq, Drop)]
pub enum Action {
    /// Nothing yet, or nothing at all.
    Nothing,
    /// The event happens to the desktop.
    Post(Event),
    /// It can't be done: the terminal rings.
    Ring,
    /// All that the terminal shows is shown anew, and its size is asked for.
    LookAnew,
    /// The person leaves.
    Leave,
    /// The last event is taken back.
    Undo,
    /// What was taken back last is done again.
    Redo,
    /// The text of the host file of that name, which has at least one byte, is typed at the caret.
    TypeFile(HostName),
    /// Other rows of the display come into sight, or the columns of a side.
    Move(Page),
    /// The text of the viewer at that cell moves. None: of the viewer of the caret.
    Scroll(Option<Spot>, Scroll),
    /// The text of the viewer of the caret moves to that line, counted from 1.
    GoTo(u32),
    /// What is selected is searched behind the caret, or it is asked for the words.
    Search,
    /// The same before the caret.
    SearchBefore,
    /// These words are sought behind the caret, or before it. Where there is none, it is those that were sought last.
    Find(HostName, bool),
    /// The text of the viewer of the caret becomes a document.
    Store,
    /// What the pattern was found at is replaced by what was typed the time before.
    Replace,
    /// Lines are broken while they are typed, or are no longer.
    Fill,
    /// The pointer that keys move goes from that cell on to the next word of a command, as the screen has it.
    Seek(Spot),
    /// The caret goes a step.
    Step(Arrow),
    /// The caret goes a step, and what it passes is selected.
    Select(Arrow),
    /// What is selected is extended from its farther end to the second cell. Where nothing is in the viewer of the first cell, a
    /// right click goes from there to the second one.
    Extend(Spot, Spot),
    /// All of the caret's text is selected.
    SelectAll,
    /// The caret's line is cut.
    CutLine,
    /// The caret's paragraph is filled.
    Refill,
    /// The character after the caret is deleted.
    Delete,
    /// The command of the caret's line is called.
    CallLine,
    /// The marker goes to the caret.
    Mark,
    /// The terminal has so many rows, and so many columns.
    Fit(u16, u16),
    /// The host file whose text was typed could be read no further.
    FileFailed,
}
