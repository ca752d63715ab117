//! Why arguments are refused, and the words of the command line.
ghost use Rattle.std.specs.Prelude.{◌≡◌};
ghost use Rattle.program_arguments.specs.Refusals.{refusal_of_host};

use std::alloc::AllocError;
use std::env;
use std::io::ErrorKind;

/// Why the arguments name no order.
#[derive(Clone, Copy, Debug, PartialEq, Eq)]
pub enum Refusal {
    /// They aren't of the program's language, or a word isn't UTF-8.
    Usage,
    /// An allocation found no memory.
    Memory,
}

impl From<AllocError> for Refusal {
    /// The arguments are refused where an allocation is.
    fn from(_refused: AllocError) -> Refusal {
        Refusal::Memory
    }
}

/// The words of the command line, the program's name first.
pub fn words(rt: &HostRuntime) -> Result<Vec<String>, Refusal> {
    match env::args(rt) {
        Ok(words) => Ok(words.collect(rt.alloc())?),
        Err(error) => Err(untold(error.kind())),
    }
}

/// Why the arguments name no order where the host doesn't tell the words.
fn untold(kind: ErrorKind) -> Refusal
    ensures { result ≡ refusal_of_host kind }
{
    match kind {
        ErrorKind::OutOfMemory => Refusal::Memory,
        _ => Refusal::Usage,
    }
}
