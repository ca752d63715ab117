//! Documents on their way in: all that an order names come together, or none.
ghost use Rattle.std.specs.Prelude.{◌≡◌, ◌⊎◌, true, Err, OnOk};
ghost use Rattle.desktop_definitions.specs.declared.codes.TheConstants.{TOO_MANY_FILES};
ghost use Rattle.desktop_definitions.specs.declared.reply.Reply.TheVariants.{Done, No};
ghost use Rattle.cli_copies.specs.declared.sentences.Stop.TheVariants.{Refused};

use crate::collecting::collect;
use crate::fitting::documents_in;
use crate::notes::tell_notes;
use crate::skipping::without_unfits;
use crate::sources::{Wishes, sources_of};
use cli_copies::{Stop, store_in_memory};
use cli_documents::word_of;
use cli_stores::{Trouble, in_memory, make, new_file};
use desk_journal::{Document, Store};
use desk_past::go_on;
use desktop_definitions::codes::TOO_MANY_FILES;
use desktop_definitions::{MOST_FILES, MOST_HELD, MOST_WRITTEN, Reply};
use event_bytes::CARRIAGE_RETURN;
use host_files::{is_there, lock_alone, remove};
use host_stores::without_twin;
use sector_disk::{Disk, MemoryDisk};
use std::io;
use store_documents::{Coming, Imported, MOST_BYTES, import as bring_in};
use twin_files::{PairTrouble, open_pair};
use viewer_tracks::SYSTEM_LEFT;

/// How many characters of a line a viewer shows in the left column of the display, where it shows most.
const SHOWN: usize = SYSTEM_LEFT as usize - 1;

// A document may have as many characters as a desktop may hold.
const _: () = prove!(MOST_BYTES == MOST_HELD as usize);

/// How an import is done.
#[derive(Clone, Copy, Debug, PartialEq, Eq)]
pub struct Manner {
    /// Documents that are there may be replaced.
    pub replace: bool,
    /// It is only told what would come.
    pub dry_run: bool,
    /// What isn't ASCII is replaced by what is like it.
    pub ascii: bool,
    /// Lines are broken at blanks, so that none passes so many columns.
    pub fill: Option<usize>,
    /// A file whose name no document can have gives it the nearest one.
    pub rename: bool,
    /// Files that can't come are left out.
    pub skip: bool,
    /// System.Collect is done where the count of written characters alone is in the way.
    pub collect: bool,
}

/// Makes documents of files of the host's in the store in a file, which is locked for this program alone, and is made
/// where there is none; and tells each of them on a line. All are durable when this has returned, or none has come.
pub fn import(rt: &HostRuntime, path: &str, words: &[&str], manner: Manner) -> Result<(), Stop> {
    let documents = documents_for(rt, words, manner)?;
    if manner.dry_run {
        try_out(rt, path, documents, manner)
    } else {
        bring_alone(rt, path, documents, manner)
    }
}

/// The same in the store in a file and in its twin. Where one of them fails on the way, that is said.
///
/// The error is why the two files aren't one disk.
pub fn import_to_pair(
    rt: &HostRuntime,
    path: &str,
    twin: &str,
    words: &[&str],
    manner: Manner,
) -> Result<Result<(), Stop>, PairTrouble> {
    let documents = match documents_for(rt, words, manner) {
        Ok(documents) => documents,
        Err(stop) => return Ok(Err(stop)),
    };
    if manner.dry_run {
        return Ok(try_out(rt, path, documents, manner));
    }
    if !is_store_there(rt, path) && !is_store_there(rt, twin) {
        return bring_to_new_pair(rt, path, twin, documents, manner);
    }
    let mut pair = open_pair(rt, path, twin)?;
    let done = bring_into(rt, &mut pair.store, path, documents, manner);
    pair.end(rt, path, twin);
    Ok(done)
}

/// The documents that the words mean.
fn documents_for(rt: &HostRuntime, words: &[&str], manner: Manner) -> Result<Vec<Document>, Stop> {
    let wishes = Wishes {
        ascii: manner.ascii,
        rename: manner.rename,
    };
    let sources = sources_of(rt, words, wishes)?;
    let sources = if manner.skip {
        without_unfits(rt, sources, manner.fill)?
    } else {
        sources
    };
    let documents = documents_in(rt, &sources, manner.fill)?;
    tell_notes(rt, &sources);
    if manner.fill.is_none() {
        tell_wide(rt, documents.as_slice());
    }
    Ok(documents)
}

/// How many characters the longest line of a text has.
fn longest_line(text: &[u8]) -> usize {
    let mut longest: usize = 0;
    let mut length: usize = 0;
    for byte in text {
        length = if *byte == CARRIAGE_RETURN {
            0
        } else {
            length.saturating_add(1)
        };
        longest = longest.max(length);
    }
    longest
}

/// Whether a document has a line of which the desk doesn't show the end.
fn is_wide(document: &Document) -> bool {
    longest_line(document.as_bytes()) > SHOWN
}

/// Tells of lines that go on beyond the edge of a viewer, and how they are broken.
fn tell_wide(rt: &HostRuntime, documents: &[Document]) {
    let count = documents.iter().filter(|it| is_wide(*it)).count();
    let Some(first) = documents.iter().find(|it| is_wide(*it)) else {
        return;
    };
    let name = word_of(first.name());
    let _ = if count == 1 {
        eprintln!(rt;
            "desk: {name} has lines of more than {SHOWN} characters, which go on beyond the edge: --fill {SHOWN} breaks them"
        )
    } else {
        eprintln!(rt;
            "desk: {count} documents, as {name}, have lines of more than {SHOWN} characters, which go on beyond the edge: --fill {SHOWN} breaks them"
        )
    };
}

/// Brings documents into the store in a file, or into a new one where there is none. Where the store keeps a past, that
/// goes on, or begins, before they come, as where a sitting begins.
fn bring_alone(
    rt: &HostRuntime,
    path: &str,
    documents: Vec<Document>,
    manner: Manner,
) -> Result<(), Stop> {
    if !is_store_there(rt, path) {
        return bring_new(rt, path, documents, manner);
    }
    let file = match lock_alone(rt, path) {
        Ok(file) => file,
        Err(fault) => return Err(Stop::Trouble(Trouble::Host(fault))),
    };
    let (mut store, left_twin) = without_twin(rt, file)?;
    if left_twin {
        let _ = eprintln!(rt;
            "desk: {path:?} has a twin, which gets nothing of this: start with --twin to make them equal again"
        );
    }
    go_on(rt.alloc(), &mut store, false)?;
    bring_into(rt, &mut store, path, documents, manner)
}

/// Whether there is a file of that name, as far as the host tells.
fn is_store_there(rt: &HostRuntime, path: &str) -> bool {
    !matches!(is_there(rt, path), Ok(false))
}

/// Brings documents into a new store. Where none comes there is no store either.
fn bring_new(
    rt: &HostRuntime,
    path: &str,
    documents: Vec<Document>,
    manner: Manner,
) -> Result<(), Stop> {
    let mut store = make(rt, new_file(rt, path)?, path)?;
    let done = bring_into(rt, &mut store, path, documents, manner);
    if let Err(Stop::Refused) = done {
        let _ = remove(rt, path);
    } else {
        let _ = eprintln!(rt; "desk: a new store was made: {path}");
    }
    done
}

/// The same, and then makes the twin.
fn bring_to_new_pair(
    rt: &HostRuntime,
    path: &str,
    twin: &str,
    documents: Vec<Document>,
    manner: Manner,
) -> Result<Result<(), Stop>, PairTrouble> {
    if let Err(stop) = bring_new(rt, path, documents, manner) {
        return Ok(Err(stop));
    }
    open_pair(rt, path, twin)?.end(rt, path, twin);
    Ok(Ok(()))
}

/// Tells what would come, by an import into a copy of the store in memory.
fn try_out(
    rt: &HostRuntime,
    path: &str,
    documents: Vec<Document>,
    manner: Manner,
) -> Result<(), Stop> {
    let mut store = store_tried(rt, path)?;
    bring_into(rt, &mut store, path, documents, manner)
}

/// A copy of the store in a file, in memory; a new one where there is no file.
fn store_tried(rt: &HostRuntime, path: &str) -> Result<Store<MemoryDisk>, Stop> {
    if is_store_there(rt, path) {
        store_in_memory(rt, path)
    } else {
        Ok(in_memory(rt)?)
    }
}

/// Brings documents into a store and tells them. Where the count of written characters alone is in the way, and the
/// person asks for it, that is brought down first.
fn bring_into<D: Disk>(
    rt: &HostRuntime,
    store: &mut Store<D>,
    path: &str,
    documents: Vec<Document>,
    manner: Manner,
) -> Result<(), Stop> {
    match bring_in(rt.alloc(), store, documents, manner.replace)? {
        Imported::Kept(others) => Err(refused_others(rt, path, others.as_slice())),
        Imported::Told(reply, coming) => answer(rt, store, path, reply, coming, manner),
    }
}

/// Tells what a store's reply comes to.
fn answer<D: Disk>(
    rt: &HostRuntime,
    store: &mut Store<D>,
    path: &str,
    reply: Reply,
    coming: Coming,
    manner: Manner,
) -> Result<(), Stop>
    ensures number { reply ≡ No TOO_MANY_FILES → result ≡ Err Refused }
    ensures done { OnOk result ((reply ≡ Done) ⊎ (manner.collect ≡ true)) }
{
    match reply {
        Reply::Done => tell(rt, &coming, coming.same.as_slice()),
        Reply::No(TOO_MANY_FILES) => Err(refused_number(rt, path)),
        Reply::No(_) => bring_behind(rt, store, path, coming, manner),
    }
}

/// Where the documents would pass a limit on characters, brings them in behind a System.Collect, if that makes room and
/// the person asks for it.
fn bring_behind<D: Disk>(
    rt: &HostRuntime,
    store: &mut Store<D>,
    path: &str,
    coming: Coming,
    manner: Manner,
) -> Result<(), Stop>
    ensures asked { OnOk result (manner.collect ≡ true) }
{
    let room = make_room(rt, store, path, coming.documents.as_slice(), manner);
    match room {
        Ok(()) => bring_again(rt, store, path, coming, manner),
        Err(stop) => Err(stop),
    }
}

/// Has System.Collect done, if that makes the room that documents want and the person asks for it.
fn make_room<D: Disk>(
    rt: &HostRuntime,
    store: &mut Store<D>,
    path: &str,
    documents: &[Document],
    manner: Manner,
) -> Result<(), Stop>
    ensures asked { OnOk result (manner.collect ≡ true) }
{
    let written = store.info()?.written;
    if manner.collect && is_worn(written, documents) {
        return collect(rt, store);
    }
    Err(refused_length(rt, path, written, documents))
}

/// Brings documents into a store behind a System.Collect.
fn bring_again<D: Disk>(
    rt: &HostRuntime,
    store: &mut Store<D>,
    path: &str,
    coming: Coming,
    manner: Manner,
) -> Result<(), Stop> {
    let Coming {
        documents,
        fresh: _,
        same,
    } = coming;
    match bring_in(rt.alloc(), store, documents, true)? {
        Imported::Told(Reply::Done, again) => tell(rt, &again, same.as_slice()),
        _ => Err(refused_behind(rt, path, manner.dry_run)),
    }
}

/// Tells each document that came on a line, and those that were the same already. Where the output fails, the documents
/// are there all the same.
fn tell(rt: &HostRuntime, coming: &Coming, same: &[Document]) -> Result<(), Stop> {
    match tell_each(rt, coming.documents.as_slice(), coming.fresh, same) {
        Ok(()) => Ok(()),
        Err(_) => Err(Stop::Trouble(Trouble::Output)),
    }
}

/// Tells documents on lines: so many that are new, those that replace another one, and those that were there.
fn tell_each(
    rt: &HostRuntime,
    documents: &[Document],
    fresh: usize,
    same: &[Document],
) -> io::Result<()> {
    for (index, document) in documents.iter().enumerate() {
        let what = if index < fresh { "new" } else { "replaced" };
        tell_one(rt, document, what)?;
    }
    for document in same {
        tell_one(rt, document, "the same already")?;
    }
    Ok(())
}

/// Tells a document on a line.
fn tell_one(rt: &HostRuntime, document: &Document, what: &str) -> io::Result<()> {
    let name = word_of(document.name());
    let count = document.as_bytes().len();
    println!(rt; "{name}  {count} characters  {what}")
}

/// Says which documents would be replaced.
fn refused_others(rt: &HostRuntime, path: &str, others: &[Document]) -> Stop
    ensures { result ≡ Refused }
{
    for document in others {
        let name = word_of(document.name());
        let _ = eprintln!(rt;
            "desk: {path:?} has another document {name} already, so nothing was done; --replace replaces it"
        );
    }
    Stop::Refused
}

/// Says that there would be too many documents.
fn refused_number(rt: &HostRuntime, path: &str) -> Stop
    ensures { result ≡ Refused }
{
    let _ = eprintln!(rt;
        "desk: {path:?} would have more than {MOST_FILES} documents, so nothing was done"
    );
    Stop::Refused
}

/// Whether the documents would pass the limit on written characters, where so many were written.
fn is_worn(written: u32, documents: &[Document]) -> bool {
    let mut count = u64::from(written);
    for document in documents {
        count = count.saturating_add(document.as_bytes().len() as u64);
    }
    count > u64::from(MOST_WRITTEN)
}

/// Says that documents don't fit behind a System.Collect either, and that this was done, unless all of it is only tried.
fn refused_behind(rt: &HostRuntime, path: &str, dry_run: bool) -> Stop
    ensures { result ≡ Refused }
{
    let _ = if dry_run {
        eprintln!(rt;
            "desk: behind a System.Collect, too, {path:?} would hold more than {MOST_HELD} characters, so nothing would come; delete documents or close viewers"
        )
    } else {
        eprintln!(rt;
            "desk: System.Collect was done, but {path:?} would still hold more than {MOST_HELD} characters, so no document came; delete documents or close viewers"
        )
    };
    Stop::Refused
}

/// Says which limit on characters is passed, where so many were written.
fn refused_length(rt: &HostRuntime, path: &str, written: u32, documents: &[Document]) -> Stop
    ensures { result ≡ Refused }
{
    let _ = if is_worn(written, documents) {
        eprintln!(rt;
            "desk: {path:?} counts {written} characters as written, of {MOST_WRITTEN}, so nothing was done; System.Collect at the desk makes room, and --collect has it done"
        )
    } else {
        eprintln!(rt;
            "desk: {path:?} would hold more than {MOST_HELD} characters, so nothing was done; delete documents or close viewers"
        )
    };
    Stop::Refused
}
