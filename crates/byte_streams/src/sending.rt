//! Writing all of some bytes.
ghost use Rattle.std.specs.Prelude.{◌≡◌, ◌<◌, ◌≤◌, length, take, OnErr, IfOk};
ghost use Rattle.std.specs.Io.KnownBytes.{Appends, Keeps};
ghost use Rattle.byte_streams.specs.Sent.{Sends};

use std::io::Write;

/// The output took no more.
#[derive(Clone, Copy, Debug, PartialEq, Eq)]
pub struct OutputFault;

/// Writes all of the bytes. It fails where a write does, and where a write takes no byte; then a front of the bytes may
/// have been taken.
pub fn send<W: Write>(writer: &mut W, bytes: &[u8]) -> Result<(), OutputFault>
    ensures { Sends result (W.contents writer.old) (W.contents writer.new) bytes.now }
{
    let mut rest = bytes;
    while !rest.is_empty() {
        let taken = take_some(writer, rest)?;
        rest = &rest[taken..];
    }
    Ok(())
}

/// One write, which takes at least one of the bytes. It returns how many it took.
fn take_some<W: Write>(writer: &mut W, bytes: &[u8]) -> Result<usize, OutputFault>
    ensures some { IfOk result (λ n. 0 < n) }
    ensures within { IfOk result (λ n. n ≤ length bytes.now) }
    ensures taken { IfOk result (λ n. Appends (W.contents writer.old) (W.contents writer.new)
        (take n bytes.now)) }
    ensures kept { OnErr result (Keeps (W.contents writer.old) (W.contents writer.new)) }
{
    match writer.write(bytes) {
        Ok(0) | Err(_) => Err(OutputFault),
        Ok(taken) => Ok(taken),
    }
}

/// Has the writer pass on what it took.
pub fn flush<W: Write>(writer: &mut W) -> Result<(), OutputFault>
    ensures { Keeps (W.contents writer.old) (W.contents writer.new) }
{
    match writer.flush() {
        Ok(()) => Ok(()),
        Err(_) => Err(OutputFault),
    }
}
