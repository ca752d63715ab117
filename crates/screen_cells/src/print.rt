//! Printing a screen.
ghost use Rattle.byte_streams.specs.Sent.{Sends};
ghost use Rattle.screen_pictures.specs.Printed.{printed, character_lines, mark_lines};

use crate::line::{character_line, has_mark_line, mark_line};
use crate::screen::Screen;
use byte_streams::{OutputFault, flush, send};
use std::io::Write;
use viewer_tracks::ROWS;

impl Screen {
    /// Writes the characters of the screen, a line for each row from the top, then its marks and `end`, and flushes the
    /// writer.
    ///
    /// It returns `OutputFault` where a write or the flush fails, and where a write takes no byte; the writer may then have
    /// taken a prefix of the text. It takes no memory.
    pub fn print<W: Write>(&self, writer: &mut W) -> Result<(), OutputFault>
        ensures { Sends result (W.contents writer.old) (W.contents writer.new) (printed self.now) }
    {
        self.print_characters(writer)?;
        send(writer, b"marks\n")?;
        self.print_marks(writer)?;
        send(writer, b"end\n")?;
        flush(writer)
    }

    /// Writes the line of each row's characters, from the top.
    fn print_characters<W: Write>(&self, writer: &mut W) -> Result<(), OutputFault>
        ensures { Sends result (W.contents writer.old) (W.contents writer.new)
            (character_lines self.now) }
    {
        for y in (0..ROWS).rev() {
            let row = self.row(y);
            send(writer, character_line(y, row).as_slice())?;
        }
        Ok(())
    }

    /// Writes the line of each row that has a mark line, from the top.
    fn print_marks<W: Write>(&self, writer: &mut W) -> Result<(), OutputFault>
        ensures { Sends result (W.contents writer.old) (W.contents writer.new)
            (mark_lines self.now) }
    {
        for y in (0..ROWS).rev() {
            let row = self.row(y);
            if has_mark_line(row) {
                send(writer, mark_line(y, row).as_slice())?;
            }
        }
        Ok(())
    }
}
