//! The files that a person hands in: the words of the order are read.
ghost use Rattle.std.specs.Prelude.{◌≡◌};
ghost use Rattle.cli_documents.specs.Stops.{host_stop};

use crate::folders::{EntryKind, FolderEntry, entries_of, reason_left_out};
use crate::naming::{name_after, named};
use crate::notes::{Note, returns_in};
use cli_copies::{Progress, Stop};
use cli_stores::Trouble;
use event_bytes::Name;
use host_files::{HostFault, is_folder, is_there, read_input, read_whole};
use store_documents::{Handed, InAscii, MOST_BYTES, in_ascii};

/// The most bytes that are read of a file: more than four for each character of a document.
const MOST_READ: u64 = 1_048_577;

/// The bytes with which some programs begin a text in UTF-8.
const MARK_OF_UTF8: &[u8] = b"\xef\xbb\xbf";

// What isn't read of a file makes it no document that it wouldn't be.
const _: () = prove!(4 * (MOST_BYTES as u64) < MOST_READ);

/// How files are read.
#[derive(Clone, Copy, Debug, PartialEq, Eq)]
pub(crate) struct Wishes {
    /// What isn't ASCII is replaced by what is like it.
    pub(crate) ascii: bool,
    /// A file whose name is no document's gets the nearest one.
    pub(crate) rename: bool,
}

/// Files of the host's that are to be documents.
#[derive(Drop)]
pub(crate) struct Sources {
    /// How the person named each file.
    pub(crate) files: Vec<String>,
    /// The name of each document, and what its file has.
    pub(crate) handed: Vec<Handed>,
    /// What becomes of each file.
    pub(crate) notes: Vec<Note>,
    /// How many files can't come, and why the first one can't. It has been said of each.
    pub(crate) refused: Refused,
}

/// What was refused.
#[derive(Clone, Copy, Debug, PartialEq, Eq)]
pub(crate) struct Refused {
    pub(crate) count: u32,
    first: Option<Stop>,
}

impl Refused {
    /// Nothing.
    pub(crate) fn none() -> Refused {
        Refused {
            count: 0,
            first: None,
        }
    }

    /// One more. What isn't said yet stops at once.
    pub(crate) fn add(&mut self, stop: Stop) -> Result<(), Stop> {
        if let Stop::Trouble(_) = stop {
            return Err(stop);
        }
        self.count = self.count.saturating_add(1);
        if self.first.is_none() {
            self.first = Some(stop);
        }
        Ok(())
    }

    /// Says how many there were, if there were any, and that nothing was done.
    pub(crate) fn stop(self, rt: &HostRuntime) -> Result<(), Stop> {
        let Some(first) = self.first else {
            return Ok(());
        };
        let count = self.count;
        let _ = if count == 1 {
            eprintln!(rt; "desk: so nothing was done")
        } else {
            eprintln!(rt; "desk: so nothing was done, for these {count} reasons")
        };
        Err(first)
    }

    /// Says how many there were, if there were any, where the others come.
    pub(crate) fn leave_out(self, rt: &HostRuntime) {
        let count = self.count;
        let _ = match count {
            0 => Ok(()),
            1 => eprintln!(rt; "desk: so this was left out"),
            _ => eprintln!(rt; "desk: so these {count} were left out"),
        };
    }
}

/// The files that the words mean, in the order of the words: FILE, NAME=FILE, a folder, or `-`, standard input. What
/// can't come is said, each on a line. It is told how many were read where that takes more than a second.
pub(crate) fn sources_of(
    rt: &HostRuntime,
    words: &[&str],
    wishes: Wishes,
) -> Result<Sources, Stop> {
    let mut sources = Sources {
        files: Vec::new(rt.alloc()),
        handed: Vec::new(rt.alloc()),
        notes: Vec::new(rt.alloc()),
        refused: Refused::none(),
    };
    let mut reading = Reading {
        rt,
        wishes,
        progress: Progress::new(rt, "files read"),
    };
    let done = reading.read_words(&mut sources, words);
    let Reading {
        rt: _,
        wishes: _,
        progress,
    } = reading;
    progress.end();
    match done {
        Ok(()) => Ok(sources),
        Err(stop) => Err(stop),
    }
}

/// How files are read, and how far.
#[derive(Drop)]
struct Reading<'a> {
    rt: &'a HostRuntime,
    wishes: Wishes,
    progress: Progress<'a>,
}

impl Reading<'_> {
    /// Reads the files that words mean.
    fn read_words(&mut self, sources: &mut Sources, words: &[&str]) -> Result<(), Stop> {
        for word in words {
            if let Err(stop) = self.read_word(sources, word) {
                sources.refused.add(stop)?;
            }
        }
        Ok(())
    }

    /// Reads the files that a word means.
    fn read_word(&mut self, sources: &mut Sources, word: &str) -> Result<(), Stop> {
        if let Some((name, file)) = word.split_once('=') {
            return self.read_as(sources, name, file);
        }
        if is_folder(self.rt, word) {
            return self.read_folder(sources, word);
        }
        self.read_file(sources, word)
    }

    /// Reads the files of a folder, of which there must be some.
    fn read_folder(&mut self, sources: &mut Sources, folder: &str) -> Result<(), Stop> {
        let entries = sorted_entries(self.rt, folder)?;
        let before = sources.handed.len();
        let refused = sources.refused.count;
        self.read_entries(sources, folder.trim_end_matches('/'), entries.as_slice())?;
        if sources.handed.len() == before && sources.refused.count == refused {
            let _ = eprintln!(self.rt; "desk: the folder {folder:?} has no file");
            return Err(Stop::Host);
        }
        Ok(())
    }

    /// Reads entries of a folder.
    fn read_entries(
        &mut self,
        sources: &mut Sources,
        folder: &str,
        entries: &[FolderEntry],
    ) -> Result<(), Stop> {
        for entry in entries {
            if let Err(stop) = self.read_in(sources, folder, entry) {
                sources.refused.add(stop)?;
            }
        }
        Ok(())
    }

    /// Reads a file of a folder. What is no file, or is hidden, is told.
    fn read_in(
        &mut self,
        sources: &mut Sources,
        folder: &str,
        entry: &FolderEntry,
    ) -> Result<(), Stop> {
        let name = entry.name.as_str();
        let path = format!(in self.rt.alloc(); "{folder}/{name}")?;
        if entry.kind == EntryKind::File {
            return self.read_file(sources, path.as_str());
        }
        let path = path.as_str();
        let reason = reason_left_out(entry.kind);
        let _ = eprintln!(self.rt; "desk: {path:?} is left out: {reason}");
        Ok(())
    }

    /// Reads a file after which its document is to be named.
    fn read_file(&mut self, sources: &mut Sources, file: &str) -> Result<(), Stop> {
        let (name, renamed) = name_after(self.rt, file, self.wishes.rename)?;
        self.read(sources, name, renamed, file)
    }

    /// Reads a file whose document is to have this name.
    fn read_as(&mut self, sources: &mut Sources, name: &str, file: &str) -> Result<(), Stop> {
        let name = named(self.rt, name)?;
        self.read(sources, name, false, file)
    }

    /// Reads a file whose document is to have this name, which is the file's own or isn't.
    fn read(
        &mut self,
        sources: &mut Sources,
        name: Name,
        renamed: bool,
        file: &str,
    ) -> Result<(), Stop> {
        let (bytes, note) = text_of(self.rt, file, self.wishes.ascii)?;
        let returns = returns_in(bytes.as_slice());
        sources.notes.push(Note {
            renamed,
            returns,
            ..note
        })?;
        sources.handed.push(Handed::new(name, bytes))?;
        sources
            .files
            .push(String::from_str(self.rt.alloc(), file)?)?;
        self.progress.tell(sources.files.len());
        Ok(())
    }
}

/// What a folder has, by rising names.
fn sorted_entries(rt: &HostRuntime, folder: &str) -> Result<Vec<FolderEntry>, Stop> {
    let Ok(mut entries) = entries_of(rt, folder) else {
        let _ = eprintln!(rt; "desk: the folder {folder:?} could not be read");
        return Err(Stop::Host);
    };
    entries.sort_by(|one, other| one.name.cmp(&other.name))?;
    Ok(entries)
}

/// What a file has, in ASCII if so asked, and what becomes of it then. Why it can't be had is said.
fn text_of(rt: &HostRuntime, file: &str, ascii: bool) -> Result<(Vec<u8>, Note), Stop> {
    match bytes_of(rt, file) {
        Ok(bytes) if ascii => ascii_of(rt, bytes.as_slice()),
        Ok(bytes) => Ok((bytes, Note::none())),
        Err(fault) => Err(refused_source(rt, file, fault)),
    }
}

/// Bytes of a file in ASCII, how many characters were replaced, and whether a mark of UTF-8 was left out.
fn ascii_of(rt: &HostRuntime, bytes: &[u8]) -> Result<(Vec<u8>, Note), Stop> {
    let plain = bytes.strip_prefix(MARK_OF_UTF8).unwrap_or(bytes);
    let unmarked = plain.len() < bytes.len();
    let InAscii { text, near, marks } = in_ascii(rt.alloc(), plain)?;
    let note = Note {
        unmarked,
        near,
        marks,
        ..Note::none()
    };
    Ok((text, note))
}

/// Says why the host didn't give what a file has.
fn refused_source(rt: &HostRuntime, file: &str, fault: HostFault) -> Stop
    ensures { result ≡ host_stop fault }
{
    if matches!(fault, HostFault::NoMemory) {
        return Stop::Trouble(Trouble::Memory);
    }
    let _ = match fault {
        HostFault::Missing if matches!(is_there(rt, file), Ok(true)) => eprintln!(rt;
            "desk: {file:?} is a link to nothing"
        ),
        HostFault::Missing => eprintln!(rt; "desk: there is no file {file:?}"),
        HostFault::NoRight => eprintln!(rt; "desk: there is no right to read {file:?}"),
        _ => eprintln!(rt; "desk: the file {file:?} could not be read"),
    };
    Stop::Host
}

/// What a file has, or standard input.
fn bytes_of(rt: &HostRuntime, file: &str) -> Result<Vec<u8>, HostFault> {
    if file == "-" {
        read_input(rt, MOST_READ)
    } else {
        read_whole(rt, file, MOST_READ)
    }
}
