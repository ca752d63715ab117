//! The names of a folder that begin as a person has typed.

use crate::completion::Completion;
use crate::home::{folder_of, path_meant};
use std::alloc::{AllocError, Global};
use std::fs::{self, DirEntry};
use std::io;

/// How names go on that begin so, as far as a folder is read.
#[derive(Drop)]
struct Found {
    /// How all of them do.
    rest: Vec<u8>,
    /// How many there are, up to 255.
    count: u8,
}

impl Found {
    /// None is read yet.
    fn none(alloc: Global) -> Found {
        Found {
            rest: Vec::new(alloc),
            count: 0,
        }
    }

    /// One more name goes on so.
    fn add(&mut self, rest: &[u8]) -> Result<(), AllocError> {
        if self.count == 0 {
            self.rest.extend_from_slice(rest)?;
        } else {
            self.rest.truncate(alike(self.rest.as_slice(), rest));
        }
        self.count = self.count.saturating_add(1);
        Ok(())
    }
}

/// How many bytes are the same in both from the first one on.
fn alike(one: &[u8], other: &[u8]) -> usize {
    let mut count: usize = 0;
    for (first, second) in one.iter().zip(other) {
        if *first != *second {
            return count;
        }
        count = count.saturating_add(1);
    }
    count
}

/// How a name goes on, where this is the home folder. Where its folder can't be read none begins so.
pub(crate) fn completion_of(host: &HostRuntime, home: &Option<String>, name: &[u8]) -> Completion {
    let Ok(path) = path_meant(host.alloc(), folder_of(home), name) else {
        return Completion::none();
    };
    let Ok(text) = str::from_utf8(path.as_slice()) else {
        return Completion::none();
    };
    let (folder, front) = parts_of(text);
    let mut found = Found::none(host.alloc());
    match read_names(host, folder, front, &mut found) {
        Ok(()) => Completion::of(found.rest.as_slice(), found.count),
        Err(_) => Completion::none(),
    }
}

/// The folder of a path, and how the name in it begins.
fn parts_of(path: &str) -> (&str, &str) {
    match path.rsplit_once('/') {
        None => (".", path),
        Some(("", front)) => ("/", front),
        Some((folder, front)) => (folder, front),
    }
}

/// Reads the names of a folder that begin so.
fn read_names(host: &HostRuntime, folder: &str, front: &str, found: &mut Found) -> io::Result<()> {
    for entry in fs::read_dir(host, folder)? {
        add_entry(host, &entry?, front, found)?;
    }
    Ok(())
}

/// Adds the name of an entry, if it begins so. A name that begins with a period has to be begun with it.
fn add_entry(
    host: &HostRuntime,
    entry: &DirEntry,
    front: &str,
    found: &mut Found,
) -> io::Result<()> {
    let name = entry.file_name();
    if front.is_empty() && name.starts_with('.') {
        return Ok(());
    }
    let Some(rest) = name.strip_prefix(front) else {
        return Ok(());
    };
    let mut bytes = Vec::from_slice(host.alloc(), rest.as_bytes())?;
    if is_folder(host, entry) {
        bytes.push(b'/')?;
    }
    found.add(bytes.as_slice())?;
    Ok(())
}

/// Whether it is a folder, also through a link.
fn is_folder(host: &HostRuntime, entry: &DirEntry) -> bool {
    match fs::metadata(host, entry.path()) {
        Ok(metadata) => metadata.is_dir(),
        Err(_) => false,
    }
}
