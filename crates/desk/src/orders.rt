//! What the program is asked to do.

use crate::commands::COMMANDS;
use crate::sitting::Window;
use program_arguments::{Asked, Refusal, asked_by};
use std::alloc::{AllocError, Global};

/// What the program is asked to do.
#[derive(Drop)]
pub enum Order<'a> {
    /// To serve a person at a terminal.
    Sit(Sit<'a>),
    /// To print the screen of a store as a picture.
    Picture(&'a str),
    /// To put documents of a store out.
    Export(Export<'a>),
    /// To make documents of files of the host's.
    Import(Import<'a>),
    /// To list the documents of a store, as JSON if so asked, and as they were so many events ago if a number is given.
    List {
        path: &'a str,
        json: bool,
        at: Option<u32>,
    },
    /// To copy a store into a file that there isn't yet, with the past that it keeps or without.
    Backup {
        path: &'a str,
        copy: &'a str,
        past: bool,
    },
    /// To say how a store is, and if so asked how it is beside its twin.
    Check {
        path: &'a str,
        twin: Option<&'a str>,
    },
    /// To list the events that can be taken back, or all of a past that a store keeps.
    History {
        path: &'a str,
        all: bool,
    },
    /// To forget the past that a store keeps.
    Forget(&'a str),
    /// To copy a store as it was before so many of its last events.
    Earlier {
        path: &'a str,
        count: u32,
        copy: &'a str,
    },
}

/// A person at a terminal.
#[derive(Drop)]
pub struct Sit<'a> {
    /// The size of the terminal.
    pub window: Window,
    /// Whether the program is an unproved one.
    pub unproved: bool,
    /// Whether it asks before a press loses something.
    pub questions: bool,
    /// Whether a past is to begin where the store keeps none, if it can.
    pub past: bool,
    /// The store's file; without one the desktop is in memory.
    pub path: Option<&'a str>,
    /// The store's twin, if it is to have one.
    pub twin: Option<&'a str>,
}

/// Documents on their way out.
#[derive(Drop)]
pub struct Export<'a> {
    /// The store's file.
    pub path: &'a str,
    /// The documents that are asked for by their names, to be printed.
    pub names: Vec<&'a str>,
    /// A folder in which each document is to be a file.
    pub all: Option<&'a str>,
    /// Whether files that are there may be replaced.
    pub replace: bool,
    /// Whether each line that ends with a blank is to be joined to the next.
    pub join: bool,
    /// Whether they are to be HTML, with the looks of all characters.
    pub looks: bool,
    /// Whether texts of viewers that no document has come along.
    pub open: bool,
    /// How many events ago they are to be as they were, if a number is given.
    pub at: Option<u32>,
}

/// Documents on their way in.
#[derive(Drop)]
pub struct Import<'a> {
    /// The store's file.
    pub path: &'a str,
    /// Its twin, if it is to have one.
    pub twin: Option<&'a str>,
    /// The files, folders, or names with files.
    pub words: Vec<&'a str>,
    /// Whether documents that are there may be replaced.
    pub replace: bool,
    /// Whether it is only to be told what would come.
    pub dry_run: bool,
    /// Whether what isn't ASCII is to be replaced by what is like it.
    pub ascii: bool,
    /// Whether a file whose name no document can have gives it the nearest one.
    pub rename: bool,
    /// How many columns a line is to have at most, if lines are to be broken.
    pub fill: Option<u8>,
    /// Whether files that can't come are to be left out.
    pub skip: bool,
    /// Whether System.Collect is to be done where it makes the room that is wanted.
    pub collect: bool,
}

/// What the words ask for: one of the commands with what belongs to it, after the program's name.
pub fn order_of<'a>(alloc: Global, words: &'a [String]) -> Result<Order<'a>, Refusal> {
    match asked_by(alloc, "desk", COMMANDS, words)? {
        None => Err(Refusal::Usage),
        Some(asked) => order_named(alloc, &asked)?.ok_or(Refusal::Usage),
    }
}

/// The order of a command and what is given with it.
fn order_named<'a>(alloc: Global, asked: &Asked<'a>) -> Result<Option<Order<'a>>, AllocError> {
    match asked.command {
        "import" => importing(alloc, asked),
        "export" => exporting(alloc, asked),
        _ => Ok(short_order(asked)),
    }
}

/// The same for a command that takes no list of words.
fn short_order<'a>(asked: &Asked<'a>) -> Option<Order<'a>> {
    match asked.command {
        "sit" => Some(Order::Sit(Sit {
            window: window_of(asked)?,
            unproved: asked.chooses("unproved"),
            questions: !asked.chooses("no-questions"),
            past: asked.chooses("past"),
            path: asked.word("path"),
            twin: asked.word("twin"),
        })),
        "picture" => Some(Order::Picture(asked.word("path")?)),
        "list" => Some(Order::List {
            path: asked.word("path")?,
            json: asked.chooses("json"),
            at: count_of(asked.word("at"))?,
        }),
        "backup" => Some(Order::Backup {
            path: asked.word("path")?,
            copy: asked.word("copy")?,
            past: !asked.chooses("without-past"),
        }),
        "check" => Some(Order::Check {
            path: asked.word("path")?,
            twin: asked.word("twin"),
        }),
        "history" => Some(Order::History {
            path: asked.word("path")?,
            all: asked.chooses("all"),
        }),
        "forget" => Some(Order::Forget(asked.word("path")?)),
        "earlier" => Some(Order::Earlier {
            path: asked.word("path")?,
            count: asked.word("count")?.parse::<u32>().ok()?,
            copy: asked.word("copy")?,
        }),
        _ => None,
    }
}

/// The size of the terminal: its rows, and its columns, which are 80 where they aren't told.
fn window_of(asked: &Asked<'_>) -> Option<Window> {
    let columns = match asked.word("columns") {
        None => 80,
        Some(word) => word.parse::<u16>().ok()?,
    };
    Some(Window {
        rows: asked.word("rows")?.parse::<u16>().ok()?,
        columns,
        fills: !asked.chooses("no-fill"),
    })
}

/// The order of an import.
fn importing<'a>(alloc: Global, asked: &Asked<'a>) -> Result<Option<Order<'a>>, AllocError> {
    let Some(path) = asked.word("path") else {
        return Ok(None);
    };
    let Some(fill) = width_of(asked.word("fill")) else {
        return Ok(None);
    };
    Ok(Some(Order::Import(Import {
        path,
        twin: asked.word("twin"),
        words: words_of(alloc, asked, "files")?,
        replace: asked.chooses("replace"),
        dry_run: asked.chooses("dry-run"),
        ascii: asked.chooses("ascii"),
        rename: asked.chooses("rename"),
        fill,
        skip: asked.chooses("skip"),
        collect: asked.chooses("collect"),
    })))
}

/// The number of events that a word is, if there is a word. None where it is no such number.
fn count_of(word: Option<&str>) -> Option<Option<u32>> {
    match word {
        None => Some(None),
        Some(word) => Some(Some(word.parse::<u32>().ok()?)),
    }
}

/// The number of columns that a word is, 1 to 255, if there is a word. None where it is no such number.
fn width_of(word: Option<&str>) -> Option<Option<u8>> {
    match word {
        None => Some(None),
        Some(word) => match word.parse::<u8>().ok()? {
            0 => None,
            width => Some(Some(width)),
        },
    }
}

/// The order of an export.
fn exporting<'a>(alloc: Global, asked: &Asked<'a>) -> Result<Option<Order<'a>>, AllocError> {
    let all = asked.word("all");
    let names = words_of(alloc, asked, "names")?;
    if names.is_empty() != all.is_some() || has_looks_in_vain(asked, names.len()) {
        return Ok(None);
    }
    let (Some(path), Some(at)) = (asked.word("path"), count_of(asked.word("at"))) else {
        return Ok(None);
    };
    Ok(Some(Order::Export(Export {
        path,
        names,
        all,
        replace: asked.chooses("replace"),
        join: asked.chooses("join"),
        looks: asked.chooses("looks"),
        open: asked.chooses("open"),
        at,
    })))
}

/// Whether looks are asked for together with what they don't go with: joined lines, or several documents as one page.
fn has_looks_in_vain(asked: &Asked<'_>, names: usize) -> bool {
    asked.chooses("looks") && (asked.chooses("join") || names > 1)
}

/// The words of an argument that takes a list of them.
fn words_of<'a>(alloc: Global, asked: &Asked<'a>, name: &str) -> Result<Vec<&'a str>, AllocError> {
    match asked.words(name) {
        Some(words) => Vec::from_slice(alloc, words),
        None => Ok(Vec::new(alloc)),
    }
}
