//! What gives the bytes of a script.
ghost use Rattle.std.specs.Prelude.{◌≡◌, ◌+◌, ◌<◌, ℕ, List, Option, Ok, IfOk, OnErr};
ghost use Rattle.std.specs.Io.{ReadsAtMost};
ghost use Rattle.std.specs.Io.KnownBytes.{ReadConsumes};
ghost use Rattle.byte_streams.specs.Counting.{CountsFault, PassesOn};

use ghost_traces::Count;
use std::io::{self, Read};

/// A read that failed.
#[derive(Clone, Copy, Debug, PartialEq, Eq)]
pub struct InputFault;

/// Gives the bytes of a script, in pieces of any size.
pub trait ScriptReader {
    /// The bytes that reads will give from here on, where they are known.
    ghost remaining: { Self → Option (List ℕ) };

    /// How many reads there were. Contracts alone see it, so nothing bounds it.
    ghost calls: { Self → ℕ };

    /// How many of them have given bytes. Contracts alone see it too.
    ghost reads: { Self → ℕ };

    /// How many of them have failed. Contracts alone see it too.
    ghost failures: { Self → ℕ };

    /// Reads the next bytes into the buffer. Returns how many there are: 0 at the end of the script, and where the
    /// buffer has no room. `InputFault`: the read failed.
    fn read_some(&mut self, buffer: &mut [u8]) -> Result<usize, InputFault>
        ensures bound { ReadsAtMost result buffer.new }
        ensures bytes { ReadConsumes (remaining self.old) (remaining self.new) result buffer.new }
        ensures called { calls self.new ≡ calls self.old + 1 }
        ensures counted { IfOk result (λ n. 0 < n → reads self.new ≡ reads self.old + 1) }
        ensures end { result ≡ Ok 0 → reads self.new ≡ reads self.old }
        ensures lost { OnErr result (reads self.new ≡ reads self.old) }
        ensures cause { CountsFault result (failures self.old) (failures self.new) };
}

/// A reader whose reads are counted.
#[derive(Drop)]
pub struct CountedReader<R: Read> {
    stream: R,
    called: Count,
    given: Count,
    failed: Count,
}

impl<R: Read> CountedReader<R> {
    /// This reader, of which no read is counted yet.
    pub fn new(stream: R) -> CountedReader<R>
        ensures stream { result.stream ≡ stream }
        ensures called { result.called ≡ 0 }
        ensures given { result.given ≡ 0 }
        ensures failed { result.failed ≡ 0 }
    {
        CountedReader {
            stream,
            called: Count::new(),
            given: Count::new(),
            failed: Count::new(),
        }
    }
}

impl<R: Read> ScriptReader for CountedReader<R> {
    ghost remaining = { λ r. R.remaining r.stream };

    ghost calls = { λ r. r.called };

    ghost reads = { λ r. r.given };

    ghost failures = { λ r. r.failed };

    fn read_some(&mut self, buffer: &mut [u8]) -> Result<usize, InputFault> {
        let read = self.stream.read(buffer);
        self.called.rise();
        match count_read(read) {
            Ok(0) => Ok(0),
            Ok(count) => {
                self.given.rise();
                Ok(count)
            }
            Err(fault) => {
                self.failed.rise();
                Err(fault)
            }
        }
    }
}

/// What a read of the host returned, as a read of a script returns it.
fn count_read(read: io::Result<usize>) -> Result<usize, InputFault>
    ensures { PassesOn read result }
{
    match read {
        Ok(count) => Ok(count),
        Err(_) => Err(InputFault),
    }
}
