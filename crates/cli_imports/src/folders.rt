//! What a folder has, as far as it can come.

use std::fs::{self, DirEntry};
use std::io;

/// What an entry of a folder is.
#[derive(Clone, Copy, Debug, PartialEq, Eq)]
pub(crate) enum EntryKind {
    /// A regular file, also through a link.
    File,
    /// A name that begins with a period, which a shell doesn't show either.
    Hidden,
    /// A folder.
    Folder,
    /// A link to nothing.
    Dangling,
    /// A pipe, a socket or a device.
    Other,
    /// Something whose name is no UTF-8, and so isn't known.
    Unnamed,
}

/// An entry of a folder.
#[derive(Drop)]
pub(crate) struct FolderEntry {
    pub(crate) name: String,
    pub(crate) kind: EntryKind,
}

/// What a folder has, in the order in which the host tells it.
pub(crate) fn entries_of(rt: &HostRuntime, folder: &str) -> io::Result<Vec<FolderEntry>> {
    let mut entries = Vec::new(rt.alloc());
    for entry in fs::read_dir(rt, folder)? {
        entries.push(told_entry(rt, entry)?)?;
    }
    Ok(entries)
}

/// An entry as the host tells it; where its name is no UTF-8, one with the name `?`.
fn told_entry(rt: &HostRuntime, told: io::Result<DirEntry>) -> io::Result<FolderEntry> {
    match told {
        Ok(entry) => entry_named(rt, entry.file_name(), kind_of(rt, &entry)),
        Err(error) if error.kind() == io::ErrorKind::InvalidFilename => {
            entry_named(rt, "?", EntryKind::Unnamed)
        }
        Err(error) => Err(error),
    }
}

/// An entry of this name.
fn entry_named(rt: &HostRuntime, name: &str, kind: EntryKind) -> io::Result<FolderEntry> {
    let name = String::from_str(rt.alloc(), name)?;
    Ok(FolderEntry { name, kind })
}

/// What an entry is, behind a link too.
fn kind_of(rt: &HostRuntime, entry: &DirEntry) -> EntryKind {
    if entry.file_name().starts_with('.') {
        return EntryKind::Hidden;
    }
    match fs::metadata(rt, entry.path()) {
        Ok(metadata) if metadata.is_file() => EntryKind::File,
        Ok(metadata) if metadata.is_dir() => EntryKind::Folder,
        Ok(_) => EntryKind::Other,
        Err(_) => EntryKind::Dangling,
    }
}

/// Why what is there can't come.
pub(crate) fn reason_left_out(kind: EntryKind) -> &'static str {
    match kind {
        EntryKind::File => "",
        EntryKind::Hidden => "its name begins with a period",
        EntryKind::Folder => "it is a folder; name it too, and its files come",
        EntryKind::Dangling => "it is a link to nothing",
        EntryKind::Other => "it is a pipe or a device",
        EntryKind::Unnamed => "its name is no UTF-8",
    }
}
