//! Why an image isn't read.
ghost use Rattle.std.specs.Prelude.{◌≡◌};
ghost use Rattle.image_format.specs.declared.fault.ImageFault.TheVariants as faults;

use sector_disk::Fault;
use std::alloc::{AllocError, AllocFailed};

/// Why an image isn't read.
#[derive(Clone, Copy, Debug, PartialEq, Eq)]
pub enum ImageFault {
    /// The bytes are the image of no desktop.
    Damaged,
    /// A byte could not be read. It comes only where the source of bytes failed in that call.
    Fault,
    /// An allocation was refused.
    NoMemory,
}

impl From<Fault> for ImageFault {
    ghost from_gives = { λ _ e. e ≡ faults.Fault };

    /// `Fault`.
    fn from(_: Fault) -> Self {
        ImageFault::Fault
    }
}

impl From<AllocError> for ImageFault {
    ghost from_gives = { λ _ e. e ≡ faults.NoMemory };

    /// `NoMemory`.
    fn from(_: AllocError) -> Self {
        ImageFault::NoMemory
    }
}

impl<T: Drop> From<AllocFailed<T>> for ImageFault {
    ghost from_gives = { λ _ e. e ≡ faults.NoMemory };

    /// `NoMemory`.
    fn from(_: AllocFailed<T>) -> Self {
        ImageFault::NoMemory
    }
}
