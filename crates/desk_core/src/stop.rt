//! Why a call on a desktop gives up.
ghost use Rattle.std.specs.Prelude.{◌≡◌};
ghost use Rattle.desk_core.specs.declared.stop.Stop.{Stop};
ghost use Rattle.desk_core.specs.declared.stop.Stop.TheVariants as stops;

use char_file::Fault;
use desktop_definitions::Reply;
use std::alloc::AllocFailed;

/// An allocation was refused.
pub use std::alloc::AllocError as NoMemory;

/// Why a call on a desktop gives up.
#[derive(Clone, Copy, Debug, PartialEq, Eq)]
pub enum Stop {
    /// An allocation was refused.
    NoMemory,
    /// A character could not be read. It comes only where the source of characters failed in that call.
    Fault,
}

/// What an event or a command comes to: its reply, or why the call gave up.
pub type StepResult = Result<Reply, Stop>;

impl From<NoMemory> for Stop {
    ghost from_gives = { λ _ stop. stop ≡ stops.NoMemory };

    fn from(_refused: NoMemory) -> Stop {
        Stop::NoMemory
    }
}

impl<T: Drop> From<AllocFailed<T>> for Stop {
    ghost from_gives = { λ _ stop. stop ≡ stops.NoMemory };

    fn from(_refused: AllocFailed<T>) -> Stop {
        Stop::NoMemory
    }
}

impl From<Fault> for Stop {
    ghost from_gives = { λ _ stop. stop ≡ stops.Fault };

    fn from(_fault: Fault) -> Stop {
        Stop::Fault
    }
}
