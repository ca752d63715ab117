//! Why a call of the store was refused.
ghost use Rattle.std.specs.Prelude.{◌≡◌};
ghost use Rattle.store_slots.specs.declared.error.Error.TheVariants.{NoMemory as OutOfMemory, Fault as Failed};

use event_loop::Stop;
use sector_disk::Fault;
use std::alloc::AllocError;
use thiserror::Error as ErrorText;

/// Why a call of the store was refused.
#[derive(Clone, Copy, Debug, PartialEq, Eq, ErrorText)]
pub enum Error {
    /// An allocation was refused.
    #[error("memory")]
    NoMemory,
    /// The disk failed in this call.
    #[error("fault")]
    Fault,
    /// An earlier call failed in the middle of its work: close the store and open it again.
    #[error("the store must be opened again")]
    MustReopen,
    /// The disk has too few sectors or another label.
    #[error("not a store")]
    NotAStore,
    /// The store's damage shows in this sector.
    #[error("damaged {0}")]
    Damaged(u32),
    /// The disk has fewer sectors than a store needs.
    #[error("too small")]
    TooSmall,
    /// A checkpoint is due and the epoch is the last one, so none is possible.
    #[error("worn")]
    Worn,
}

impl From<Fault> for Error {
    ghost from_gives = { λ _ e. e ≡ Failed };

    /// `Fault`.
    fn from(_: Fault) -> Self {
        Error::Fault
    }
}

impl From<AllocError> for Error {
    ghost from_gives = { λ _ e. e ≡ OutOfMemory };

    /// `NoMemory`.
    fn from(_: AllocError) -> Self {
        Error::NoMemory
    }
}

impl From<Stop> for Error {
    ghost use Rattle.std.specs.Prelude.{◌≡◌};
    ghost use Rattle.store_slots.specs.Stops.{error_of};

    ghost from_gives = { λ stop e. e ≡ error_of stop };

    /// The same reason.
    fn from(stop: Stop) -> Self {
        match stop {
            Stop::NoMemory => Error::NoMemory,
            Stop::Fault => Error::Fault,
        }
    }
}
