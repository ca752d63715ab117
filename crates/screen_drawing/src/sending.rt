//! Sending operations.
ghost use Rattle.byte_streams.specs.Counting.{CountsFault};
ghost use Rattle.byte_streams.specs.Sent.{Sends};
ghost use Rattle.screen_drawing.specs.Spelling.{spelled_all};

use crate::operation::Operation;
use byte_streams::{AnswerWriter, OutputFault};

/// Writes the bytes of the operations, one after another. (Who writes to a terminal gathers them.)
pub(crate) fn send<W: AnswerWriter>(
    writer: &mut W,
    operations: &[Operation],
) -> Result<(), OutputFault>
    ensures sent { Sends result (W.contents writer.old) (W.contents writer.new)
        (spelled_all operations.now) }
    ensures cause { CountsFault result (W.failures writer.old) (W.failures writer.new) }
{
    for operation in operations {
        send_bytes(writer, operation.spell().as_slice())?;
    }
    Ok(())
}

/// Writes all of the bytes. It fails where a write does, and where a write takes no byte; then a front of the bytes
/// may have been taken.
pub fn send_bytes<W: AnswerWriter>(writer: &mut W, bytes: &[u8]) -> Result<(), OutputFault>
    ensures sent { Sends result (W.contents writer.old) (W.contents writer.new) bytes.now }
    ensures cause { CountsFault result (W.failures writer.old) (W.failures writer.new) }
{
    let mut rest = bytes;
    while !rest.is_empty() {
        let taken = writer.write_some(rest)?;
        rest = &rest[taken..];
    }
    Ok(())
}
