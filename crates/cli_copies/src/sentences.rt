//! What is refused, in sentences.
ghost use Rattle.std.specs.Prelude.{◌≡◌};
ghost use Rattle.cli_copies.specs.Stops.{stop_status};

use cli_stores::Trouble;
use desk_journal::Error;
use std::alloc::{AllocError, AllocFailed};

/// Why an order was not done.
#[derive(Clone, Copy, Debug, PartialEq, Eq)]
pub enum Stop {
    /// What is still to be said.
    Trouble(Trouble),
    /// A document, or what was asked for, is refused, and why has been said.
    Refused,
    /// The host refused a file or a folder, and that has been said.
    Host,
    /// The store's file was cut short, and that has been said.
    Cut,
}

impl From<Trouble> for Stop {
    fn from(trouble: Trouble) -> Stop {
        Stop::Trouble(trouble)
    }
}

impl From<Error> for Stop {
    fn from(error: Error) -> Stop {
        Stop::Trouble(Trouble::Store(error))
    }
}

impl From<AllocError> for Stop {
    fn from(_refused: AllocError) -> Stop {
        Stop::Trouble(Trouble::Memory)
    }
}

impl<T: Drop> From<AllocFailed<T>> for Stop {
    fn from(_refused: AllocFailed<T>) -> Stop {
        Stop::Trouble(Trouble::Memory)
    }
}

impl Stop {
    /// Says what is still to be said of the store at this path, and returns the status of the program.
    pub fn say(self, rt: &HostRuntime, path: &str) -> u8
        ensures { result ≡ stop_status self }
    {
        match self {
            Stop::Trouble(trouble) => trouble.say(rt, path),
            Stop::Refused => 1,
            Stop::Host => 4,
            Stop::Cut => 3,
        }
    }
}
