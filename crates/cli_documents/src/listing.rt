//! What a store has.

use crate::history::store_as;
use crate::sentences::word_of;
use cli_copies::Stop;
use cli_stores::Trouble;
use desktop_definitions::{Entry, MOST_FILES, MOST_HELD, MOST_WRITTEN};
use serde_json::{Value, json};
use std::alloc::Global;
use std::io;
use store_documents::Counts;
use unstored_texts::{Unstored, unstored_in};

/// Lists the documents of the store in a file, a line for each with its length, lines for the room that is left, and a
/// line for each text that is open and not stored; as they were so many events ago, if a number is given.
pub fn list(rt: &HostRuntime, path: &str, at: Option<u32>) -> Result<(), Stop> {
    let (entries, texts) = listed(rt, path, at)?;
    printed(print_entries(rt, entries.as_slice()))?;
    printed(print_unstored(rt, texts.as_slice()))
}

/// The same as an object of JSON on one line.
pub fn list_json(rt: &HostRuntime, path: &str, at: Option<u32>) -> Result<(), Stop> {
    let (entries, texts) = listed(rt, path, at)?;
    let text = text_of(rt.alloc(), entries.as_slice(), texts.as_slice())?;
    let text = text.as_str();
    printed(println!(rt; "{text}"))
}

/// Where the output fails that is to be told.
fn printed(lines: io::Result<()>) -> Result<(), Stop> {
    match lines {
        Ok(()) => Ok(()),
        Err(_) => Err(Stop::Trouble(Trouble::Output)),
    }
}

/// What the store in a file has, and its texts that are open and not stored: as it is, or as it was so many events ago.
fn listed(
    rt: &HostRuntime,
    path: &str,
    at: Option<u32>,
) -> Result<(Vec<Entry>, Vec<Unstored>), Stop> {
    let mut store = store_as(rt, path, at)?;
    let entries = store.list(rt.alloc())?;
    let texts = unstored_in(rt.alloc(), &mut store, false)?;
    Ok((entries, texts))
}

/// Prints the lines of documents and of the room that is left.
fn print_entries(rt: &HostRuntime, entries: &[Entry]) -> io::Result<()> {
    for entry in entries {
        if let Entry::File { name, len } = entry {
            let name = word_of(name);
            println!(rt; "{len:>7}  {name}")?;
        }
    }
    print_counts(rt, Counts::of(entries))
}

/// Prints a line for each text that is open and not stored.
fn print_unstored(rt: &HostRuntime, texts: &[Unstored]) -> io::Result<()> {
    for text in texts {
        let name = text.name();
        let len = text.len;
        println!(rt;
            "not stored: {len} characters of {name}, which is open; desk export --open takes them along"
        )?;
    }
    Ok(())
}

/// Prints what is counted, and what room is left.
fn print_counts(rt: &HostRuntime, counts: Counts) -> io::Result<()> {
    let documents = counts.documents;
    let held = counts.in_documents;
    let viewed = counts.in_viewers;
    let room = counts.room();
    let written = counts.written;
    let unwritten = counts.unwritten();
    println!(rt; "documents: {documents} of {MOST_FILES}")?;
    println!(rt;
        "held: {held} characters in documents, {viewed} in the texts of viewers, and those of menus, of closed viewers and of what was copied or deleted; of {MOST_HELD}, so room for at most {room}"
    )?;
    println!(rt;
        "written: {written} characters of {MOST_WRITTEN}, so room for {unwritten} before a System.Collect"
    )
}

/// The object, as it is spelled.
fn text_of(alloc: Global, entries: &[Entry], texts: &[Unstored]) -> Result<String, Stop> {
    let value = value_of(alloc, entries, texts)?;
    Ok(value.to_string(alloc)?)
}

/// The object.
fn value_of(alloc: Global, entries: &[Entry], texts: &[Unstored]) -> Result<Value, Stop> {
    let documents = Value::Array(documents_of(alloc, entries)?);
    let open = Value::Array(texts_of(alloc, texts)?);
    let counts = Counts::of(entries);
    let viewed = counts.in_viewers;
    let room = counts.room();
    let written = counts.written;
    Ok(json!(in alloc; {
        "documents": documents,
        "not_stored": open,
        "most_documents": MOST_FILES,
        "in_viewers": viewed,
        "most_characters": MOST_HELD,
        "most_room": room,
        "written": written,
        "most_written": MOST_WRITTEN
    })?)
}

/// An object for each document.
fn documents_of(alloc: Global, entries: &[Entry]) -> Result<Vec<Value>, Stop> {
    let mut documents = Vec::new(alloc);
    for entry in entries {
        if let Entry::File { name, len } = entry {
            documents.push(document_of(alloc, word_of(name), *len)?)?;
        }
    }
    Ok(documents)
}

/// The object for a document.
fn document_of(alloc: Global, name: &str, len: u32) -> Result<Value, Stop> {
    Ok(json!(in alloc; { "name": name, "characters": len })?)
}

/// An object for each text that is open and not stored.
fn texts_of(alloc: Global, texts: &[Unstored]) -> Result<Vec<Value>, Stop> {
    let mut values = Vec::new(alloc);
    for text in texts {
        values.push(document_of(alloc, text.name(), text.len)?)?;
    }
    Ok(values)
}
