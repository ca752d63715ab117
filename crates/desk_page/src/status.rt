//! What a call comes to, as the host is told.
ghost use Rattle.std.specs.Prelude.{◌≡◌, ◌≤◌};
ghost use Rattle.desk_page.specs.Statuses.{status_of_error, status_of_file};

use desk_journal::Error;
use store_documents::Unfit;

/// It is done.
pub const DONE: u32 = 0;

/// An allocation found no memory.
pub const NO_MEMORY: u32 = 1;

/// The bytes are no store.
pub const NOT_A_STORE: u32 = 2;

/// The bytes are a store that is damaged.
pub const DAMAGED: u32 = 3;

/// The store takes no more events: its epochs are used up.
pub const WORN: u32 = 4;

/// No page is kept: the store has to be opened anew.
pub const GONE: u32 = 5;

/// The bytes are no document's name.
pub const NO_NAME: u32 = 6;

/// The file has a byte that can't stand in a text, or is longer than a document may be.
pub const UNFIT: u32 = 7;

/// There is no such document.
pub const NO_DOCUMENT: u32 = 8;

/// The desktop has no room for the document, or has as many files as there may be.
pub const NO_ROOM: u32 = 9;

/// The store keeps no past that can be read.
pub const NO_PAST: u32 = 10;

/// The past isn't forgotten: there is no room for one that begins anew.
pub const PAST_STAYS: u32 = 11;

/// The status of an error.
pub(crate) fn status_of(error: Error) -> u32
    ensures status { result ≡ status_of_error error }
    ensures few { result ≤ 5 }
{
    match error {
        Error::NotAStore | Error::TooSmall => NOT_A_STORE,
        Error::Damaged(_) => DAMAGED,
        Error::Worn => WORN,
        Error::MustReopen => GONE,
        Error::Fault | Error::NoMemory => NO_MEMORY,
    }
}

/// The status where a file of the host's is no document.
pub(crate) fn status_of_unfit(unfit: Unfit) -> u32
    ensures { result ≡ status_of_file unfit }
{
    match unfit {
        Unfit::NoMemory => NO_MEMORY,
        _ => UNFIT,
    }
}
