//! A text that is written piece by piece.
ghost use Rattle.std.specs.Prelude.{◌≡◌};
ghost use Rattle.byte_streams.specs.Sent.{Sends};
ghost use Rattle.screen_drawing.specs.Strokes.{joined_pieces};

use byte_streams::{OutputFault, send};
use std::io::Write;

/// What drawing comes to: all of it is written, or the output took no more.
pub(crate) type Drawing = Result<(), OutputFault>;

/// Writes the pieces, one after another.
pub(crate) fn send_all<W: Write>(writer: &mut W, pieces: &[&[u8]]) -> Drawing
    ensures { Sends result (W.contents writer.old) (W.contents writer.new)
        (joined_pieces pieces.now) }
{
    for piece in pieces {
        send(writer, piece)?;
    }
    Ok(())
}
