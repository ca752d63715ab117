//! What an event does to a desktop, in words.
ghost use Rattle.std.specs.List.{join_by};
ghost use Rattle.std.specs.Prelude.{◌≡◌, ◌++◌, ℕ, List, codes, flat_map, take, IfErr, IfOk, OnOk};
ghost use Rattle.desktop_definitions.specs.Desktop.{Desktop};
ghost use Rattle.desktop_definitions.specs.Shown.{shown_screen};
ghost use Rattle.store_slots.specs.Errors.{OfLook};
ghost use Rattle.desk_journal.specs.Undoing.{IsLeft};
ghost use Rattle.status_line.specs.Deeds.{is_middle};
ghost use Rattle.told_pasts.specs.Words.{call_words, cell_line, event_line, file_line, import_line, shown_name, quoted, quoted_byte, told_end, typed_line, word_called, words_in as words_within};

use arrayvec::ArrayVec;
use desk_journal::{Document, Error, Store};
use event_bytes::{Event, Keys};
use screen_cells::Screen;
use screen_reading::{MOST_WORD, called_word, word_from};
use sector_disk::Disk;
use status_line::Deed;
use std::alloc::{AllocError, Global};
use viewer_tracks::Place;

/// How many characters of what was typed are told at most.
pub const MOST_TOLD: usize = 60;

/// What an event does to the desktop of a store, in words.
///
/// Errors: those of `Store::screen`.
pub(crate) fn line_of<D: Disk>(
    alloc: Global,
    store: &mut Store<D>,
    event: &Event,
) -> Result<Vec<u8>, Error>
    ensures is { IfOk result (λ line. D.honest store.old.disk
        → line.items ≡ event_line store.old.desktop event.now) }
    ensures left { IsLeft D.Disk store.old store.new }
    ensures usable { store.new.must_reopen ≡ store.old.must_reopen }
    ensures errors { IfErr result OfLook }
{
    match event {
        Event::Typed(bytes) => Ok(typed_line(alloc, bytes.as_bytes())?),
        Event::File { name, bytes } => Ok(file_line(
            alloc,
            name.as_bytes(),
            bytes.as_bytes().len() as u32,
        )?),
        Event::Key(_) => Ok(Vec::from_slice(alloc, Deed::of(event).words())?),
        Event::Mark { x, y } => cell_line(alloc, store, event, false, (*x, *y)),
        Event::Point { keys, x0, y0, .. } => {
            cell_line(alloc, store, event, is_middle(*keys), (*x0, *y0))
        }
    }
}

/// That documents of these names came.
pub(crate) fn import_line(alloc: Global, documents: &[Document]) -> Result<Vec<u8>, AllocError>
    ensures { IfOk result (λ line. line.items ≡ import_line documents.now) }
{
    let mut line = Vec::from_slice(alloc, b"import of ")?;
    push_names(&mut line, documents)?;
    Ok(line)
}

/// Puts the names of documents at the end of a line, with a comma between two.
fn push_names(line: &mut Vec<u8>, documents: &[Document]) -> Result<(), AllocError>
    ensures { OnOk result (line.new.items ≡ line.old.items
        ++ join_by (λ (document : List ℕ × List ℕ). document.0) (codes ", ") documents.now) }
{
    let Some(first) = documents.first() else {
        return Ok(());
    };
    let (_first, others) = documents.split_at(1);
    line.extend_from_slice(first.name().as_bytes())?;
    push_others(line, others)
}

/// Puts the names of documents behind others.
fn push_others(line: &mut Vec<u8>, documents: &[Document]) -> Result<(), AllocError>
    ensures { OnOk result (line.new.items ≡ line.old.items
        ++ flat_map (λ (document : List ℕ × List ℕ). codes ", " ++ document.0) documents.now) }
{
    for document in documents {
        line.extend_from_slice(b", ")?;
        line.extend_from_slice(document.name().as_bytes())?;
    }
    Ok(())
}

/// That these characters were typed, as far as they are told.
fn typed_line(alloc: Global, bytes: &[u8]) -> Result<Vec<u8>, AllocError>
    ensures { IfOk result (λ line. line.items ≡ typed_line bytes.now) }
{
    let mut line = Vec::from_slice(alloc, b"typed \"")?;
    push_quoted(&mut line, front_of(bytes))?;
    line.extend_from_slice(end_of(bytes))?;
    Ok(line)
}

/// The characters that are told.
fn front_of(bytes: &[u8]) -> &[u8]
    ensures { result.now ≡ take MOST_TOLD bytes.now }
{
    if bytes.len() > MOST_TOLD {
        let (front, _rest) = bytes.split_at(MOST_TOLD);
        front
    } else {
        bytes
    }
}

/// What stands behind them.
fn end_of(bytes: &[u8]) -> &'static [u8]
    ensures { result.now ≡ told_end bytes.now }
{
    if bytes.len() > MOST_TOLD {
        b"\" .."
    } else {
        b"\""
    }
}

/// Adds bytes as a quoted text has them.
fn push_quoted(line: &mut Vec<u8>, bytes: &[u8]) -> Result<(), AllocError>
    ensures { OnOk result (line.new.items ≡ line.old.items ++ quoted bytes.now) }
{
    for byte in bytes {
        line.extend_from_slice(quoted_byte(*byte).as_slice())?;
    }
    Ok(())
}

/// A byte as a quoted text has it.
fn quoted_byte(byte: u8) -> ArrayVec<u8, 2>
    ensures { result.items ≡ quoted_byte byte }
{
    let mut shown = ArrayVec::new();
    if byte == b'"' || byte == b'\\' {
        shown.push(b'\\');
        shown.push(byte);
    } else if byte == b'\t' {
        shown.push(b'\\');
        shown.push(b't');
    } else if byte == b'\r' {
        shown.push(b'\\');
        shown.push(b'r');
    } else {
        shown.push(byte);
    }
    shown
}

/// That a document of that name got so many characters.
fn file_line(alloc: Global, name: &[u8], count: u32) -> Result<Vec<u8>, AllocError>
    ensures { IfOk result (λ line. line.items ≡ file_line name.now count) }
{
    let mut digits = itoa::Buffer::new();
    let mut line = Vec::from_slice(alloc, b"the document ")?;
    line.extend_from_slice(name)?;
    line.extend_from_slice(b", of ")?;
    line.extend_from_slice(digits.format(count).as_bytes())?;
    line.extend_from_slice(b" characters")?;
    Ok(line)
}

/// What an event does at a cell, where it may call the word, and in which viewer.
fn cell_line<D: Disk>(
    alloc: Global,
    store: &mut Store<D>,
    event: &Event,
    calls: bool,
    cell: (u8, u8),
) -> Result<Vec<u8>, Error>
    ensures is { IfOk result (λ line. D.honest store.old.disk
        → line.items ≡ cell_line store.old.desktop event.now calls cell) }
    ensures left { IsLeft D.Disk store.old store.new }
    ensures usable { store.new.must_reopen ≡ store.old.must_reopen }
    ensures errors { IfErr result OfLook }
{
    let mut screen = Screen::new();
    store.screen(alloc, &mut screen)?;
    let word = word_at(&screen, calls, cell);
    let place = store.place_at(cell)?;
    let name = shown_name(&screen, place);
    let words = call_words(event, word.as_slice());
    Ok(words_in(alloc, words, name.as_slice())?)
}

/// Whether these keys call the word at a cell.
fn is_middle(keys: Keys) -> bool
    ensures { result ≡ is_middle keys }
{
    matches!(keys, Keys::Middle)
}

/// The word at a cell, if it is called.
fn word_at(screen: &Screen, calls: bool, cell: (u8, u8)) -> ArrayVec<u8, MOST_WORD>
    ensures { (d : Desktop) → screen.now ≡ shown_screen d
        → result.items ≡ word_called d calls cell }
{
    if calls {
        called_word(screen, cell.0, cell.1)
    } else {
        ArrayVec::new()
    }
}

/// The word that an event calls, or else what it does.
fn call_words<'a>(event: &Event, word: &'a [u8]) -> &'a [u8]
    ensures { result.now ≡ call_words event.now word.now }
{
    if word.is_empty() {
        Deed::of(event).words()
    } else {
        word
    }
}

/// The name in the menu of the viewer that stands there; no byte where there is none.
fn shown_name(screen: &Screen, place: Option<Place>) -> ArrayVec<u8, MOST_WORD>
    ensures { (d : Desktop) → screen.now ≡ shown_screen d
        → result.items ≡ shown_name d place }
{
    match place {
        None => ArrayVec::new(),
        Some(place) => word_from(screen, place.x, place.top.saturating_sub(1)),
    }
}

/// Words, and in which viewer, if one is seen.
fn words_in(alloc: Global, words: &[u8], name: &[u8]) -> Result<Vec<u8>, AllocError>
    ensures { IfOk result (λ line. line.items ≡ words_within words.now name.now) }
{
    let mut line = Vec::from_slice(alloc, words)?;
    if name.is_empty() {
        return Ok(line);
    }
    line.extend_from_slice(b", in ")?;
    line.extend_from_slice(name)?;
    Ok(line)
}
