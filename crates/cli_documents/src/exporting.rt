//! Documents on their way out.
ghost use Rattle.std.specs.Prelude.{◌≡◌};
ghost use Rattle.cli_copies.specs.declared.sentences.Stop.TheVariants.{Refused};

use crate::history::store_as;
use crate::sentences::{cut_off, refused_folder, word_of};
use byte_streams::CountedWriter;
use cli_copies::{Progress, Stop, store_at, store_in_memory};
use cli_stores::Trouble;
use desk_journal::Store;
use desktop_definitions::Entry;
use event_bytes::Name;
use host_files::{
    is_there, make_file, make_folder, remove, rename_new, rename_over, sync_file, sync_folder,
};
use sector_disk::{Disk, MemoryDisk};
use std::alloc::{AllocError, Global};
use std::fs::File;
use std::io::IsTerminal;
use store_documents::{Form, Reader, export};
use unstored_texts::{Fate, Unstored, unstored_in};

/// How documents come out.
#[derive(Clone, Copy, Debug, PartialEq, Eq)]
pub struct Putting {
    /// Files that are there may be replaced.
    pub replace: bool,
    /// Each line that ends with a blank is joined to the next.
    pub is_joined: bool,
    /// They are HTML, in which each character has its look.
    pub looks: bool,
    /// Texts of viewers that no document has come out as documents of their names.
    pub open: bool,
    /// They come out as they were so many events ago.
    pub at: Option<u32>,
}

impl Putting {
    /// The form in which a reader gets a document who is no browser.
    fn form_for(self, reader: Reader) -> Form {
        Form {
            reader: if self.looks { Reader::Browser } else { reader },
            is_joined: self.is_joined,
        }
    }

    /// What the name of a file has behind that of its document.
    fn ending(self) -> &'static str {
        if self.looks { ".html" } else { "" }
    }
}

/// Prints documents of the store in a file one after another, with LF at the end of each line, or as HTML, as they are
/// or as they were at a moment. The file is locked beside other programs that look. Nothing is printed where there is no
/// document of one of the names.
pub fn export_names(
    rt: &HostRuntime,
    path: &str,
    words: &[&str],
    putting: Putting,
) -> Result<(), Stop> {
    let names = names_for(rt.alloc(), words)?;
    if putting.open {
        let (mut store, left) = store_with_open(rt, path, Some(words), putting)?;
        print_all(rt, path, &mut store, names.as_slice(), putting)?;
        return none_left(left);
    }
    if putting.at.is_some() {
        let mut store = store_as(rt, path, putting.at)?;
        return print_all(rt, path, &mut store, names.as_slice(), putting);
    }
    let mut store = store_at(rt, path)?;
    print_all(rt, path, &mut store, names.as_slice(), putting)
}

/// A copy of the store in a file, in memory, in which texts of viewers that no document had are documents of their names;
/// and whether one of these names, or any, is left behind. What can't become a document is told.
fn store_with_open(
    rt: &HostRuntime,
    path: &str,
    words: Option<&[&str]>,
    putting: Putting,
) -> Result<(Store<MemoryDisk>, bool), Stop> {
    let mut store = store_as(rt, path, putting.at)?;
    let texts = unstored_in(rt.alloc(), &mut store, true)?;
    let mut left = false;
    for text in texts.as_slice() {
        tell_open(rt, text);
        left = left || is_left(text, words);
    }
    Ok((store, left))
}

/// Whether a text of one of these names, or of any, is left behind.
fn is_left(text: &Unstored, words: Option<&[&str]>) -> bool {
    if text.fate == Fate::Kept {
        return false;
    }
    match words {
        Some(words) => words.contains(&text.name()),
        None => true,
    }
}

/// Where a text is left behind that was to come, the order is refused in part.
fn none_left(left: bool) -> Result<(), Stop> {
    if left { Err(Stop::Refused) } else { Ok(()) }
}

/// Tells of a text that no document had whether it comes along.
fn tell_open(rt: &HostRuntime, text: &Unstored) {
    let name = text.name();
    let len = text.len;
    let _ = match text.fate {
        Fate::Kept => eprintln!(rt;
            "desk: {name} comes as it is open, not stored: {len} characters"
        ),
        Fate::NameTaken => eprintln!(rt;
            "desk: {len} characters of another open {name} can't come beside it: sit down, and store them under another name"
        ),
        Fate::Left => eprintln!(rt;
            "desk: {len} characters of {name}, which is open, can't come: sit down, and store it"
        ),
    };
}

/// Tells of texts that are open and not stored, and so stay behind. They are looked for in a copy of the store.
fn tell_left_behind(rt: &HostRuntime, store: &mut Store<MemoryDisk>) -> Result<(), Stop> {
    let texts = unstored_in(rt.alloc(), store, false)?;
    for text in texts.as_slice() {
        let name = text.name();
        let len = text.len;
        let _ = eprintln!(rt;
            "desk: {len} characters of {name} are open and not stored, and stay behind: --open takes them along"
        );
    }
    Ok(())
}

/// The names that words are.
fn names_for(alloc: Global, words: &[&str]) -> Result<Vec<Name>, Stop> {
    let mut names = Vec::new(alloc);
    for word in words {
        match Name::new(word.as_bytes()) {
            Some(name) => names.push(name)?,
            None => return Err(Stop::Trouble(Trouble::Name)),
        }
    }
    Ok(names)
}

/// Prints the documents of these names, if the store has them all.
fn print_all<D: Disk>(
    rt: &HostRuntime,
    path: &str,
    store: &mut Store<D>,
    names: &[Name],
    putting: Putting,
) -> Result<(), Stop> {
    for name in names {
        if store.file(rt.alloc(), name)?.is_none() {
            return Err(no_document(rt, path, name, putting.at));
        }
    }
    let mut progress = Progress::beside(rt, "documents printed");
    let done = print_each(rt, path, store, names, putting, &mut progress);
    progress.end();
    done
}

/// Says that there is no document of that name, or was none before an event.
fn no_document(rt: &HostRuntime, path: &str, name: &Name, at: Option<u32>) -> Stop
    ensures { result ≡ Refused }
{
    let name = word_of(name);
    let _ = match at {
        None | Some(0) => eprintln!(rt; "desk: there is no document {name} in {path:?}"),
        Some(count) => eprintln!(rt;
            "desk: before event {count} there was no document {name} in {path:?}"
        ),
    };
    Stop::Refused
}

/// Prints documents one after another.
fn print_each<D: Disk>(
    rt: &HostRuntime,
    path: &str,
    store: &mut Store<D>,
    names: &[Name],
    putting: Putting,
    progress: &mut Progress<'_>,
) -> Result<(), Stop> {
    let mut count = 0usize;
    for name in names {
        print(rt, path, store, name, putting)?;
        count = count.saturating_add(1);
        progress.tell(count);
    }
    Ok(())
}

/// Prints a document.
fn print<D: Disk>(
    rt: &HostRuntime,
    path: &str,
    store: &mut Store<D>,
    name: &Name,
    putting: Putting,
) -> Result<(), Stop> {
    let output = rt.stdout();
    let reader = if output.is_terminal() {
        Reader::Terminal
    } else {
        Reader::Program
    };
    match export(
        rt.alloc(),
        store,
        name,
        putting.form_for(reader),
        &mut CountedWriter::new(output),
    ) {
        Ok(true) => Ok(()),
        Ok(false) => Err(no_document(rt, path, name, putting.at)),
        Err(fault) => Err(cut_off(fault)),
    }
}

/// Makes each document of the store in a file a file in a folder, which is made where there is none, and tells each on a
/// line. A file that is there is replaced only if that is asked for: otherwise it is named, and nothing is done. Each
/// file is written under another name first, and is durable when it gets its own. It has the name of its document, with
/// `.html` behind it if it is HTML. Texts that are open and not stored are told. All are as they are or as they were at
/// a moment.
pub fn export_all(
    rt: &HostRuntime,
    path: &str,
    folder: &str,
    putting: Putting,
) -> Result<(), Stop> {
    let folder = folder.trim_end_matches('/');
    if putting.open {
        let (mut store, left) = store_with_open(rt, path, None, putting)?;
        put_all(rt, &mut store, folder, putting)?;
        return none_left(left);
    }
    if putting.at.is_some() {
        let mut store = store_as(rt, path, putting.at)?;
        put_all(rt, &mut store, folder, putting)?;
        return tell_left_behind(rt, &mut store);
    }
    let mut store = store_at(rt, path)?;
    put_all(rt, &mut store, folder, putting)?;
    tell_left_behind(rt, &mut store_in_memory(rt, path)?)
}

/// The same with a store.
fn put_all<D: Disk>(
    rt: &HostRuntime,
    store: &mut Store<D>,
    folder: &str,
    putting: Putting,
) -> Result<(), Stop> {
    let names = names_of(rt, store)?;
    put_names(rt, store, folder, names.as_slice(), putting)
}

/// The names of the documents of a store.
fn names_of<D: Disk>(rt: &HostRuntime, store: &mut Store<D>) -> Result<Vec<Name>, Stop> {
    let entries = store.list(rt.alloc())?;
    Ok(names_in(rt.alloc(), entries.as_slice())?)
}

/// The names of the documents of a list.
fn names_in(alloc: Global, entries: &[Entry]) -> Result<Vec<Name>, AllocError> {
    let mut names = Vec::new(alloc);
    for entry in entries {
        if let Entry::File { name, len: _ } = entry {
            names.push(name.clone()?)?;
        }
    }
    Ok(names)
}

/// Makes documents of these names files in a folder.
fn put_names<D: Disk>(
    rt: &HostRuntime,
    store: &mut Store<D>,
    folder: &str,
    names: &[Name],
    putting: Putting,
) -> Result<(), Stop> {
    if let Err(fault) = make_folder(rt, folder) {
        return Err(refused_folder(rt, folder, fault));
    }
    if !putting.replace {
        refuse_files(rt, folder, names, putting)?;
    }
    let mut progress = Progress::beside(rt, "documents made files");
    let done = put_each(rt, store, folder, names, putting, &mut progress);
    progress.end();
    done?;
    match names.first() {
        Some(name) => settle(rt, folder, name, putting),
        None => Ok(()),
    }
}

/// Says which files of a folder would be replaced by documents of these names.
fn refuse_files(
    rt: &HostRuntime,
    folder: &str,
    names: &[Name],
    putting: Putting,
) -> Result<(), Stop> {
    let mut some = false;
    for name in names {
        if is_in_the_way(rt, folder, name, putting)? {
            some = true;
        }
    }
    if some { Err(Stop::Refused) } else { Ok(()) }
}

/// Whether there is something already where a document is to be a file, which is said.
fn is_in_the_way(
    rt: &HostRuntime,
    folder: &str,
    name: &Name,
    putting: Putting,
) -> Result<bool, Stop> {
    let word = word_of(name);
    let ending = putting.ending();
    let file = format!(in rt.alloc(); "{folder}/{word}{ending}")?;
    let file = file.as_str();
    if matches!(is_there(rt, file), Ok(false)) {
        return Ok(false);
    }
    let _ = eprintln!(rt;
        "desk: there is a file {file:?} already, so nothing was done; --replace replaces it"
    );
    Ok(true)
}

/// Makes documents files in a folder, one after another.
fn put_each<D: Disk>(
    rt: &HostRuntime,
    store: &mut Store<D>,
    folder: &str,
    names: &[Name],
    putting: Putting,
    progress: &mut Progress<'_>,
) -> Result<(), Stop> {
    let mut count = 0usize;
    for name in names {
        put_out(rt, store, folder, name, putting)?;
        count = count.saturating_add(1);
        progress.tell(count);
    }
    Ok(())
}

/// Makes a document a file in a folder, and tells it.
fn put_out<D: Disk>(
    rt: &HostRuntime,
    store: &mut Store<D>,
    folder: &str,
    name: &Name,
    putting: Putting,
) -> Result<(), Stop> {
    let word = word_of(name);
    let ending = putting.ending();
    let file = format!(in rt.alloc(); "{folder}/{word}{ending}")?;
    let aside = format!(in rt.alloc(); "{folder}/.{word}.desk")?;
    put_by(rt, store, name, aside.as_str(), file.as_str(), putting)
}

/// The same by a file under another name.
fn put_by<D: Disk>(
    rt: &HostRuntime,
    store: &mut Store<D>,
    name: &Name,
    aside: &str,
    file: &str,
    putting: Putting,
) -> Result<(), Stop> {
    write_aside(rt, store, name, aside, putting)?;
    give_name(rt, aside, file, putting.replace)?;
    match println!(rt; "{file}") {
        Ok(()) => Ok(()),
        Err(_) => Err(Stop::Trouble(Trouble::Output)),
    }
}

/// Gives a file its name. Where that fails it is gone.
fn give_name(rt: &HostRuntime, aside: &str, file: &str, replace: bool) -> Result<(), Stop> {
    let named = if replace {
        rename_over(rt, aside, file)
    } else {
        rename_new(rt, aside, file)
    };
    if named.is_err() {
        let _ = remove(rt, aside);
        return Err(not_made(rt, file));
    }
    Ok(())
}

/// Writes a document into a new file, and waits until it is there for good. Where that fails there is no such file.
fn write_aside<D: Disk>(
    rt: &HostRuntime,
    store: &mut Store<D>,
    name: &Name,
    aside: &str,
    putting: Putting,
) -> Result<(), Stop> {
    let Ok(mut file) = make_file(rt, aside) else {
        return Err(not_made(rt, aside));
    };
    let done = write_into(rt, store, name, &mut file, aside, putting);
    if done.is_err() {
        let _ = remove(rt, aside);
    }
    done
}

/// Writes a document into a file of this name, and waits until it is there for good.
fn write_into<D: Disk>(
    rt: &HostRuntime,
    store: &mut Store<D>,
    name: &Name,
    file: &mut File,
    aside: &str,
    putting: Putting,
) -> Result<(), Stop> {
    let done = export(
        rt.alloc(),
        store,
        name,
        putting.form_for(Reader::Program),
        &mut CountedWriter::new(&mut *file),
    );
    match done {
        Ok(_) if sync_file(&*file).is_ok() => Ok(()),
        Ok(_) => Err(not_made(rt, aside)),
        Err(fault) => Err(cut_off(fault)),
    }
}

/// Says that a file could not be made.
fn not_made(rt: &HostRuntime, file: &str) -> Stop {
    let _ = eprintln!(rt;
        "desk: the file {file:?} could not be made; those that are told on lines before are there"
    );
    Stop::Host
}

/// Waits until the folder knows its new files, of which one is that of a document of this name.
fn settle(rt: &HostRuntime, folder: &str, name: &Name, putting: Putting) -> Result<(), Stop> {
    let word = word_of(name);
    let ending = putting.ending();
    let file = format!(in rt.alloc(); "{folder}/{word}{ending}")?;
    if sync_folder(rt, file.as_str()).is_ok() {
        return Ok(());
    }
    let _ = eprintln!(rt;
        "desk: the folder {folder:?} could not be synced, so a power failure may take files away"
    );
    Err(Stop::Host)
}
