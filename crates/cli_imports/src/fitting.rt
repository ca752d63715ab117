//! The documents of files, or which files are none, and why.

use crate::sources::{Refused, Sources};
use bstr::decode_utf8;
use cli_copies::Stop;
use cli_documents::word_of;
use cli_stores::Trouble;
use desk_journal::Document;
use std::alloc::Global;
use std::io;
use store_documents::{FirstUnfit, Place, Unfit, documents_of};

/// The documents of files, where all of them can come. What can't come is said, each on a line.
pub(crate) fn documents_in(
    rt: &HostRuntime,
    sources: &Sources,
    fill: Option<usize>,
) -> Result<Vec<Document>, Stop> {
    let mut refused = sources.refused;
    refuse_twice(rt, sources, &mut refused)?;
    match documents_of(rt.alloc(), sources.handed.as_slice(), fill) {
        Ok(documents) => {
            refused.stop(rt)?;
            Ok(documents)
        }
        Err(first) => Err(refused_unfits(rt, sources, fill, refused, first)),
    }
}

/// Says of each file whose document another one before it is to be.
fn refuse_twice(rt: &HostRuntime, sources: &Sources, refused: &mut Refused) -> Result<(), Stop> {
    for index in 0..sources.handed.len() {
        if let Some(before) = named_so_before(sources, index) {
            refused.add(say_twice(rt, sources, before, index))?;
        }
    }
    Ok(())
}

/// The first file whose document has the same name as that of the file at an index, before it.
fn named_so_before(sources: &Sources, index: usize) -> Option<usize> {
    let name = sources.handed.get(index)?.name();
    let before = sources
        .handed
        .iter()
        .position(|handed| *handed.name() == *name)?;
    if before < index { Some(before) } else { None }
}

/// Says which files are to be one document.
fn say_twice(rt: &HostRuntime, sources: &Sources, before: usize, index: usize) -> Stop {
    if let (Some(first), Some(second), Some(handed)) = (
        sources.files.get(before),
        sources.files.get(index),
        sources.handed.get(index),
    ) {
        let first = first.as_str();
        let second = second.as_str();
        let name = word_of(handed.name());
        let _ = eprintln!(rt; "desk: {first:?} and {second:?} are both to be the document {name}");
    }
    Stop::Refused
}

/// Says of each file that is no document why it isn't.
fn refused_unfits(
    rt: &HostRuntime,
    sources: &Sources,
    fill: Option<usize>,
    refused: Refused,
    first: FirstUnfit,
) -> Stop {
    if matches!(first.why, Unfit::NoMemory) {
        return Stop::Trouble(Trouble::Memory);
    }
    let mut refused = refused;
    for index in first.index..sources.handed.len() {
        if let Err(stop) = refuse_unfit(rt, sources, fill, index, &mut refused) {
            return stop;
        }
    }
    match refused.stop(rt) {
        Ok(()) => Stop::Refused,
        Err(stop) => stop,
    }
}

/// Says of the file at an index why it is no document, if it is none.
pub(crate) fn refuse_unfit(
    rt: &HostRuntime,
    sources: &Sources,
    fill: Option<usize>,
    index: usize,
    refused: &mut Refused,
) -> Result<(), Stop> {
    let (Some(file), Some(handed)) = (sources.files.get(index), sources.handed.get(index)) else {
        return Ok(());
    };
    match unfit_of(rt.alloc(), sources, fill, index) {
        None => Ok(()),
        Some(Unfit::NoMemory) => Err(Stop::Trouble(Trouble::Memory)),
        Some(why) => {
            let _ = say_unfit(rt, file.as_str(), handed.as_bytes(), why);
            refused.add(Stop::Refused)
        }
    }
}

/// Why the file at an index is no document. None where it is one.
fn unfit_of(alloc: Global, sources: &Sources, fill: Option<usize>, index: usize) -> Option<Unfit> {
    let one = sources
        .handed
        .as_slice()
        .get(index..index.saturating_add(1))?;
    match documents_of(alloc, one, fill) {
        Ok(_) => None,
        Err(unfit) => Some(unfit.why),
    }
}

/// Says why a file is no document.
fn say_unfit(rt: &HostRuntime, file: &str, bytes: &[u8], unfit: Unfit) -> io::Result<()> {
    match unfit {
        Unfit::TooLong => eprintln!(rt; "desk: {file:?} has more than 262,144 characters"),
        Unfit::NoText => eprintln!(rt; "desk: {file:?} is no text, since it has a NUL"),
        Unfit::Strange { index, place } => say_strange(
            rt,
            file,
            bytes.get(index..).unwrap_or(&[]),
            place,
        ),
        Unfit::NoMemory => Ok(()),
    }
}

/// Says which byte or character of a file no document has, where the rest of the file begins with it.
fn say_strange(rt: &HostRuntime, file: &str, rest: &[u8], place: Place) -> io::Result<()> {
    let Place { line, column } = place;
    match decode_utf8(rest) {
        (Some(sign), _) if sign.is_alphanumeric() => eprintln!(rt;
            "desk: {file:?}, line {line}, column {column}: {sign} (UTF-8), which no document has; --ascii takes the file"
        ),
        (Some(sign), 2..) => {
            let code = u32::from(sign);
            eprintln!(rt;
                "desk: {file:?}, line {line}, column {column}: U+{code:04X} (UTF-8), which no document has; --ascii takes the file"
            )
        }
        _ => {
            let byte = rest.first().copied().unwrap_or(0);
            eprintln!(rt;
                "desk: {file:?}, line {line}, column {column}: the byte {byte}, which no document has; --ascii takes the file"
            )
        }
    }
}
