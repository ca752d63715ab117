//! How a sitting ends.

ghost use Rattle.std.specs.Prelude.{◌≡◌};
ghost use Rattle.terminal_sittings.specs.declared.ending.SittingEnd.TheVariants.{Output as TakesNoMore};
ghost use Rattle.terminal_sittings.specs.Endings.{sitting_end_of, end_of_keyboard};

use byte_streams::OutputFault;
use desk_journal::Error;
use terminal_keyboard::KeyboardEnd;

/// How a sitting came to its end.
#[derive(Clone, Copy, Debug, PartialEq, Eq)]
pub enum SittingEnd {
    /// The person left.
    Left,
    /// The keyboard told that nothing more comes.
    Closed,
    /// A read of the keyboard failed.
    Input,
    /// There were `MOST_TURNS` turns.
    TooLong,
    /// A write or a flush of the output failed, or a write took no byte.
    Output,
    /// The disk failed.
    Fault,
    /// An allocation was refused.
    Memory,
}

impl From<OutputFault> for SittingEnd {
    ghost from_gives = { λ _ end. end ≡ TakesNoMore };

    /// A sitting ends by `Output` where the output takes no more.
    fn from(_fault: OutputFault) -> SittingEnd {
        SittingEnd::Output
    }
}

impl From<KeyboardEnd> for SittingEnd {
    ghost from_gives = { λ why end. end ≡ end_of_keyboard why };

    /// A sitting ends by `Closed` or by `Input` where the keyboard does.
    fn from(why: KeyboardEnd) -> SittingEnd {
        match why {
            KeyboardEnd::Closed => SittingEnd::Closed,
            KeyboardEnd::Fault => SittingEnd::Input,
        }
    }
}

impl From<Error> for SittingEnd {
    ghost from_gives = { λ error end. end ≡ sitting_end_of error };

    /// A sitting ends by `Memory` where the store is out of memory, and by `Fault` where it refuses otherwise.
    fn from(error: Error) -> SittingEnd {
        match error {
            Error::NoMemory => SittingEnd::Memory,
            _ => SittingEnd::Fault,
        }
    }
}
