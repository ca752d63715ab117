//! What becomes of files that come, as far as it is told.

use crate::sources::Sources;
use cli_documents::word_of;
use event_bytes::Name;

/// Which ends of lines a file has that won't come out as they came in.
#[derive(Clone, Copy, Debug, PartialEq, Eq)]
pub(crate) enum Returns {
    /// It has none.
    Absent,
    /// Each CR stands before an LF.
    BeforeFeeds,
    /// A CR stands alone.
    Alone,
}

/// What becomes of a file.
#[derive(Clone, Copy, Debug, PartialEq, Eq)]
pub(crate) struct Note {
    /// Its document isn't named as the file is.
    pub(crate) renamed: bool,
    /// A mark of UTF-8 at its beginning is left out.
    pub(crate) unmarked: bool,
    /// How many characters become the nearest of ASCII.
    pub(crate) near: u64,
    /// How many characters become a question mark.
    pub(crate) marks: u64,
    pub(crate) returns: Returns,
}

impl Note {
    /// Nothing but what it is.
    pub(crate) fn none() -> Note {
        Note {
            renamed: false,
            unmarked: false,
            near: 0,
            marks: 0,
            returns: Returns::Absent,
        }
    }
}

/// The ends of lines of a file that won't come out as they came in.
pub(crate) fn returns_in(bytes: &[u8]) -> Returns {
    let both = bytes
        .windows(2)
        .filter(|pair| pair.first() == Some(&b'\r') && pair.last() == Some(&b'\n'))
        .count();
    let returns = bytes.iter().filter(|byte| **byte == b'\r').count();
    if returns > both {
        Returns::Alone
    } else if both > 0 {
        Returns::BeforeFeeds
    } else {
        Returns::Absent
    }
}

/// Tells what becomes of each file.
pub(crate) fn tell_notes(rt: &HostRuntime, sources: &Sources) {
    for (index, note) in sources.notes.iter().enumerate() {
        if let (Some(file), Some(handed)) = (sources.files.get(index), sources.handed.get(index)) {
            tell_note(rt, file.as_str(), handed.name(), *note);
        }
    }
}

/// Tells what becomes of a file.
fn tell_note(rt: &HostRuntime, file: &str, name: &Name, note: Note) {
    if note.renamed {
        let name = word_of(name);
        let _ = eprintln!(rt; "desk: {file:?} becomes the document {name}");
    }
    if note.unmarked {
        let _ = eprintln!(rt; "desk: {file:?}: the mark of UTF-8 at its beginning was left out");
    }
    let Note { near, marks, .. } = note;
    if near > 0 || marks > 0 {
        let _ = eprintln!(rt;
            "desk: {file:?}: {near} characters became the nearest of ASCII, and {marks} a question mark"
        );
    }
    tell_returns(rt, file, note.returns);
}

/// Tells of ends of lines that won't come out as they came in.
fn tell_returns(rt: &HostRuntime, file: &str, returns: Returns) {
    let _ = match returns {
        Returns::Absent => Ok(()),
        Returns::BeforeFeeds => eprintln!(rt;
            "desk: {file:?} has CR LF at ends of lines: export makes LF of them"
        ),
        Returns::Alone => eprintln!(rt;
            "desk: {file:?} has CR at ends of lines: export makes LF of them"
        ),
    };
}
