//! Writing an answer.
ghost use Rattle.std.specs.Prelude.{◌≡◌, OnOk};
ghost use Rattle.byte_streams.specs.Sent.{Sends};
ghost use Rattle.byte_streams.specs.Counting.{CountsFault};

use byte_streams::{AnswerWriter, OutputFault};

/// Writes all of the bytes and then flushes the writer, so that nothing waits in it. It fails where a write or the flush
/// does; then a prefix of the bytes may have been taken.
pub fn send<W: AnswerWriter>(writer: &mut W, bytes: &[u8]) -> Result<(), OutputFault>
    ensures sent { Sends result (W.contents writer.old) (W.contents writer.new) bytes.now }
    ensures handed { OnOk result (W.unflushed writer.new ≡ 0) }
    ensures cause { CountsFault result (W.failures writer.old) (W.failures writer.new) }
{
    let mut rest = bytes;
    while !rest.is_empty() {
        let taken = writer.write_some(rest)?;
        rest = &rest[taken..];
    }
    writer.flush()
}
