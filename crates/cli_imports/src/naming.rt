//! The names of documents that files are to be.

use cli_copies::Stop;
use event_bytes::Name;
use std::alloc::{AllocError, Global};
use std::path::Path;
use store_documents::{InAscii, in_ascii};

/// How many characters a name has at most.
const MOST_CHARACTERS: usize = 31;

/// What stands before a name that would begin with no letter.
const FRONT: &[u8] = b"File.";

/// The name that the person gave to a document.
pub(crate) fn named(rt: &HostRuntime, word: &str) -> Result<Name, Stop> {
    match Name::new(word.as_bytes()) {
        Some(name) => Ok(name),
        None => {
            let _ = eprintln!(rt;
                "desk: {word:?} is no name of a document, which has 1 to 31 letters, digits and periods, a letter first"
            );
            Err(Stop::Refused)
        }
    }
}

/// The name of the document that a file is to be: the last part of its path, or what is nearest to that; and whether it
/// is the latter.
pub(crate) fn name_after(
    rt: &HostRuntime,
    file: &str,
    nearest: bool,
) -> Result<(Name, bool), Stop> {
    if file == "-" {
        let _ = eprintln!(rt; "desk: what comes on standard input needs a name: NAME=-");
        return Err(Stop::Refused);
    }
    let last = Path::new(file).file_name().unwrap_or(file);
    match Name::new(last.as_bytes()) {
        Some(name) => Ok((name, false)),
        None if nearest => Ok((name_nearest(rt, file, last)?, true)),
        None => Err(no_name(rt, file)),
    }
}

/// Says that a file's name is no document's.
fn no_name(rt: &HostRuntime, file: &str) -> Stop {
    let _ = eprintln!(rt;
        "desk: no document can be named after {file:?}: a name has 1 to 31 letters, digits and periods, a letter first; NAME={file:?} gives it one, and --rename the nearest one"
    );
    Stop::Refused
}

/// The name that is nearest to the last part of a file's path.
fn name_nearest(rt: &HostRuntime, file: &str, last: &str) -> Result<Name, Stop> {
    let bytes = nearest(rt.alloc(), last)?;
    match Name::new(bytes.as_slice()) {
        Some(name) => Ok(name),
        None => Err(no_name(rt, file)),
    }
}

/// The nearest name: each run of characters that no name has is a period, and `File.` stands before it where it would
/// begin with no letter; its first 31 characters.
fn nearest(alloc: Global, last: &str) -> Result<Vec<u8>, AllocError> {
    let InAscii {
        text,
        near: _,
        marks: _,
    } = in_ascii(alloc, last.as_bytes())?;
    let mut name = Vec::new(alloc);
    for byte in text.as_slice() {
        add_byte(&mut name, *byte)?;
    }
    name.truncate(MOST_CHARACTERS);
    Ok(name)
}

/// Adds a byte to a name.
fn add_byte(name: &mut Vec<u8>, byte: u8) -> Result<(), AllocError> {
    if name.is_empty() && !byte.is_ascii_alphabetic() {
        name.extend_from_slice(FRONT)?;
    }
    if byte.is_ascii_alphanumeric() {
        name.push(byte)?;
    } else if name.as_slice().last() != Some(&b'.') {
        name.push(b'.')?;
    }
    Ok(())
}
