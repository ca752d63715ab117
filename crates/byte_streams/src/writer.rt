//! What takes the answers to a script.
ghost use Rattle.std.specs.Prelude.{◌≡◌, ◌+◌, ◌<◌, ℕ, List, Option, IfOk, OnOk, OnErr};
ghost use Rattle.std.specs.Io.{WritesAtMost};
ghost use Rattle.std.specs.Io.KnownBytes.{Keeps, WriteAppends};
ghost use Rattle.byte_streams.specs.Counting.{CountsFault, PassesOn};

use crate::OutputFault;
use ghost_traces::Count;
use std::io::{self, Write};

/// Takes the answers to a script.
pub trait AnswerWriter {
    /// The bytes that it holds, where they are known.
    ghost contents: { Self → Option (List ℕ) };

    /// How many writes have taken bytes since the last flush that was done. Contracts alone see it, so nothing bounds
    /// it.
    ghost unflushed: { Self → ℕ };

    /// How many calls have failed. Contracts alone see it too.
    ghost failures: { Self → ℕ };

    /// Takes bytes from the front of these, and returns how many: one at least. `OutputFault`: the write failed, or
    /// took no byte.
    fn write_some(&mut self, bytes: &[u8]) -> Result<usize, OutputFault>
        ensures some { IfOk result (λ n. 0 < n) }
        ensures bound { WritesAtMost result bytes.now }
        ensures taken { WriteAppends (contents self.old) (contents self.new) result bytes.now }
        ensures waiting { OnOk result (unflushed self.new ≡ unflushed self.old + 1) }
        ensures lost { OnErr result (unflushed self.new ≡ unflushed self.old) }
        ensures cause { CountsFault result (failures self.old) (failures self.new) };

    /// Hands on what it took. `OutputFault`: that failed.
    fn flush(&mut self) -> Result<(), OutputFault>
        ensures kept { Keeps (contents self.old) (contents self.new) }
        ensures handed { OnOk result (unflushed self.new ≡ 0) }
        ensures lost { OnErr result (unflushed self.new ≡ unflushed self.old) }
        ensures cause { CountsFault result (failures self.old) (failures self.new) };
}

/// A writer whose failures are counted, and the writes that no flush has handed on.
#[derive(Drop)]
pub struct CountedWriter<W: Write> {
    stream: W,
    waiting: Count,
    failed: Count,
}

impl<W: Write> CountedWriter<W> {
    /// This writer, of which no call is counted yet.
    pub fn new(stream: W) -> CountedWriter<W>
        ensures stream { result.stream ≡ stream }
        ensures waiting { result.waiting ≡ 0 }
        ensures failed { result.failed ≡ 0 }
    {
        CountedWriter {
            stream,
            waiting: Count::new(),
            failed: Count::new(),
        }
    }

    /// Counts a call that failed.
    fn fault(&mut self) -> OutputFault
        ensures counted { self.new.failed ≡ self.old.failed + 1 }
        ensures same { self.new.stream ≡ self.old.stream }
        ensures waiting { self.new.waiting ≡ self.old.waiting }
    {
        self.failed.rise();
        OutputFault
    }
}

impl<W: Write> AnswerWriter for CountedWriter<W> {
    ghost contents = { λ w. W.contents w.stream };

    ghost unflushed = { λ w. w.waiting };

    ghost failures = { λ w. w.failed };

    fn write_some(&mut self, bytes: &[u8]) -> Result<usize, OutputFault> {
        match self.stream.write(bytes) {
            Ok(0) | Err(_) => Err(self.fault()),
            Ok(taken) => {
                self.waiting.rise();
                Ok(taken)
            }
        }
    }

    fn flush(&mut self) -> Result<(), OutputFault> {
        let flushed = self.stream.flush();
        match count_flush(flushed) {
            Ok(()) => {
                self.waiting = Count::new();
                Ok(())
            }
            Err(_) => Err(self.fault()),
        }
    }
}

/// What a flush of the host returned, as a flush of answers returns it.
fn count_flush(flushed: io::Result<()>) -> Result<(), OutputFault>
    ensures { PassesOn flushed result }
{
    match flushed {
        Ok(()) => Ok(()),
        Err(_) => Err(OutputFault),
    }
}
