//! Files that a person hands in and takes out: read whole, listed in a folder, and made under a name that nobody has.

use crate::{HostFault, asked, locked, open_regular};
use std::fs::{File, OpenOptions};
use std::io::{Read, Take};
use std::{fs, io};

/// Reads a file whole, but no more than so many bytes.
pub fn read_whole(rt: &HostRuntime, path: &str, most: u64) -> Result<Vec<u8>, HostFault> {
    let file = asked(File::open(rt, path))?;
    read_from(rt, file.take(most))
}

/// Reads standard input to its end, but no more than so many bytes.
pub fn read_input(rt: &HostRuntime, most: u64) -> Result<Vec<u8>, HostFault> {
    read_from(rt, rt.stdin().take(most))
}

/// Reads to the end.
fn read_from<R: Read + Drop>(rt: &HostRuntime, reader: Take<R>) -> Result<Vec<u8>, HostFault> {
    let mut reader = reader;
    let mut bytes = Vec::new(rt.alloc());
    asked(reader.read_to_end(&mut bytes))?;
    Ok(bytes)
}

/// Whether there is a folder at this path.
pub fn is_folder(rt: &HostRuntime, path: &str) -> bool {
    match fs::metadata(rt, path) {
        Ok(metadata) => metadata.is_dir(),
        Err(_) => false,
    }
}

/// The names of the regular files in a folder, by rising names. A name that begins with a period is left out, as in a
/// shell.
pub fn files_in(rt: &HostRuntime, folder: &str) -> Result<Vec<String>, HostFault> {
    let mut names = Vec::new(rt.alloc());
    for entry in asked(fs::read_dir(rt, folder))? {
        asked(add_file(rt, asked(entry)?, &mut names))?;
    }
    match names.sort() {
        Ok(()) => Ok(names),
        Err(_) => Err(HostFault::NoMemory),
    }
}

/// Adds the name of an entry of a folder if it is a regular file, also through a link.
fn add_file(rt: &HostRuntime, entry: fs::DirEntry, names: &mut Vec<String>) -> io::Result<()> {
    let name = entry.file_name();
    if !name.starts_with('.') && fs::metadata(rt, entry.path())?.is_file() {
        names.push(String::from_str(rt.alloc(), name)?)?;
    }
    Ok(())
}

/// Makes a folder where there is none.
pub fn make_folder(rt: &HostRuntime, path: &str) -> Result<(), HostFault> {
    if is_folder(rt, path) {
        return Ok(());
    }
    asked(fs::create_dir(rt, path))
}

/// Makes a file, to be written, under a name that nobody has. It follows no link.
pub fn make_file(rt: &HostRuntime, path: &str) -> Result<File, HostFault> {
    asked(
        OpenOptions::new()
            .write(true)
            .create_new(true)
            .open(rt, path),
    )
}

/// Waits until the file's bytes are there for good.
pub fn sync_file(file: &File) -> Result<(), HostFault> {
    asked(file.sync_all())
}

/// Gives the file another name, in place of any other file that has it. A lock on the file stays.
///
/// Errors: `InUse` where a program holds a lock on the file that has the name, be it this one; `Missing`, `Refused` and
/// `NoMemory`.
pub fn rename_over(rt: &HostRuntime, from: &str, to: &str) -> Result<(), HostFault> {
    refuse_in_use(rt, to)?;
    asked(fs::rename(rt, from, to))
}

/// Refuses a regular file on which a lock is held.
fn refuse_in_use(rt: &HostRuntime, path: &str) -> Result<(), HostFault> {
    match open_regular(rt, path, u64::MAX) {
        Ok(file) => locked(file.try_lock()),
        Err(_) => Ok(()),
    }
}

/// How many bytes a file has.
pub fn length_of(rt: &HostRuntime, path: &str) -> Result<u64, HostFault> {
    Ok(asked(fs::metadata(rt, path))?.len())
}
