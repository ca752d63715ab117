//! What goes wrong, in sentences.
ghost use Rattle.std.specs.Prelude.{◌≡◌};
ghost use Rattle.cli_stores.specs.Statuses.{host_status, trouble_status};

use desk_journal::Error;
use host_files::HostFault;
use std::alloc::AllocError;
use std::io;

/// What went wrong with a store, or with what is said of it.
#[derive(Clone, Copy, Debug, PartialEq, Eq)]
pub enum Trouble {
    /// An allocation found no memory.
    Memory,
    /// The host refused the store's file.
    Host(HostFault),
    /// It refused to make one.
    Making(HostFault),
    /// Another program has just made it.
    JustMade,
    /// It is made, but isn't known to be durable under its name.
    Unsynced,
    /// The store refused.
    Store(Error),
    /// A word is no document's name.
    Name,
    /// The output failed.
    Output,
}

impl From<AllocError> for Trouble {
    ghost use Rattle.std.specs.Prelude.{◌≡◌};
    ghost use Rattle.cli_stores.specs.declared.trouble.Trouble.TheVariants.{Memory as OfMemory};

    ghost from_gives = { λ refused trouble. trouble ≡ OfMemory };

    /// Want of memory.
    fn from(_refused: AllocError) -> Trouble {
        Trouble::Memory
    }
}

impl From<Error> for Trouble {
    ghost use Rattle.std.specs.Prelude.{◌≡◌};
    ghost use Rattle.cli_stores.specs.declared.trouble.Trouble.TheVariants.{Store as OfStore};

    ghost from_gives = { λ error trouble. trouble ≡ OfStore error };

    /// The store's refusal.
    fn from(error: Error) -> Trouble {
        Trouble::Store(error)
    }
}

impl Trouble {
    /// Says what went wrong, in one sentence on standard error, and returns the status of the program: 1 where a
    /// document is refused, 3 where the file holds no store or a damaged one, 4 where there is no file, the host
    /// refuses it, or the disk or the output failed, and 5 for want of memory. The path is that of the store.
    pub fn say(self, rt: &HostRuntime, path: &str) -> u8
        ensures { result ≡ trouble_status self }
    {
        // Where standard error can't be written there is the status alone.
        let _ = self.sentence(rt, path);
        self.status()
    }

    /// The status of the program.
    fn status(self) -> u8
        ensures { result ≡ trouble_status self }
    {
        match self {
            Trouble::Name => 1,
            Trouble::Store(Error::NotAStore | Error::Damaged(_)) => 3,
            Trouble::Memory | Trouble::Store(Error::NoMemory) => 5,
            Trouble::Host(fault) | Trouble::Making(fault) => status_of(fault),
            _ => 4,
        }
    }

    /// Says the sentence.
    fn sentence(self, rt: &HostRuntime, path: &str) -> io::Result<()> {
        match self {
            Trouble::Memory => no_memory(rt),
            Trouble::Host(fault) => refused_file(rt, path, fault),
            Trouble::Making(fault) => refused_making(rt, path, fault),
            Trouble::JustMade => eprintln!(rt;
                "desk: another program has just made {path:?}, so nothing was done"
            ),
            Trouble::Unsynced => eprintln!(rt;
                "desk: {path:?} was made, but its folder could not be synced, so a power failure may take it away"
            ),
            Trouble::Store(error) => refused_store(rt, path, error),
            Trouble::Name => eprintln!(rt;
                "desk: the name of a document is 1 to 31 letters, digits and periods, a letter first"
            ),
            Trouble::Output => eprintln!(rt; "desk: the output could not be written"),
        }
    }
}

/// The status where the host refuses a file.
fn status_of(fault: HostFault) -> u8
    ensures { result ≡ host_status fault }
{
    match fault {
        HostFault::NoMemory => 5,
        _ => 4,
    }
}

/// Says that an allocation found no memory.
fn no_memory(rt: &HostRuntime) -> io::Result<()> {
    eprintln!(rt; "desk: there was not enough memory")
}

/// Why the host refused the store's file.
fn refused_file(rt: &HostRuntime, path: &str, fault: HostFault) -> io::Result<()> {
    match fault {
        HostFault::Missing => eprintln!(rt;
            "desk: there is no store {path:?}; desk PATH, with nothing else, makes one"
        ),
        HostFault::InUse => eprintln!(rt;
            "desk: another program has {path:?} open, so nothing was done"
        ),
        HostFault::Folder => eprintln!(rt; "desk: {path:?} is a folder, and no store"),
        HostFault::NoRight => eprintln!(rt;
            "desk: there is no right to read and write {path:?}; desk list, export, check and backup need only reading"
        ),
        HostFault::ReadOnly => eprintln!(rt;
            "desk: {path:?} lies where nothing can be written; desk list, export, check and backup only read it"
        ),
        HostFault::Refused | HostFault::Taken | HostFault::NoHome => no_such_file(rt, path),
        HostFault::Special | HostFault::TooLong => no_such_file(rt, path),
        HostFault::NoMemory => no_memory(rt),
    }
}

/// Says that a file isn't one that a store can be in.
fn no_such_file(rt: &HostRuntime, path: &str) -> io::Result<()> {
    eprintln!(rt; "desk: {path:?} is no file that can be read and locked here")
}

/// Says that a store could not be made.
fn not_made(rt: &HostRuntime, path: &str) -> io::Result<()> {
    eprintln!(rt;
        "desk: {path:?} could not be made; it needs 16 MB, and the right to write in its folder"
    )
}

/// Why it refused to make one.
fn refused_making(rt: &HostRuntime, path: &str, fault: HostFault) -> io::Result<()> {
    match fault {
        HostFault::Missing => eprintln!(rt;
            "desk: there is no folder in which {path:?} could be made"
        ),
        HostFault::InUse => eprintln!(rt;
            "desk: another program is making {path:?}, so nothing was done"
        ),
        HostFault::Taken => eprintln!(rt;
            "desk: {path:?} could not be made, since all its names for that are taken, .new to .new9 behind it"
        ),
        HostFault::NoRight => eprintln!(rt;
            "desk: {path:?} could not be made: there is no right to write in its folder"
        ),
        HostFault::ReadOnly => eprintln!(rt;
            "desk: {path:?} could not be made: nothing can be written there"
        ),
        HostFault::Refused | HostFault::Folder | HostFault::NoHome => not_made(rt, path),
        HostFault::Special | HostFault::TooLong => not_made(rt, path),
        HostFault::NoMemory => no_memory(rt),
    }
}

/// Why the store refused.
fn refused_store(rt: &HostRuntime, path: &str, error: Error) -> io::Result<()> {
    match error {
        Error::NotAStore => eprintln!(rt; "desk: {path:?} is no store, so nothing was done"),
        Error::Damaged(sector) => eprintln!(rt;
            "desk: the store {path:?} is damaged in sector {sector}, so nothing was done"
        ),
        Error::NoMemory => no_memory(rt),
        Error::Worn => eprintln!(rt;
            "desk: the store {path:?} takes no more events, since its epochs are used up: export its documents into a new store"
        ),
        _ => eprintln!(rt; "desk: reading or writing {path:?} failed"),
    }
}
