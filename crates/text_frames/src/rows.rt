//! The rows of a frame, read one after another.
ghost use Rattle.std.specs.Prelude.{◌≡◌, ◌≤◌, ◌<◌, ℕ, List, ⊤, length, IfOk, OnOk};
ghost use Rattle.readers_scanners.specs.Words.{ReadsOrFails, flat, AreWithin};
ghost use Rattle.text_frames.specs.declared.row.TheConstants.{MOST_COLUMNS};
ghost use Rattle.text_frames.specs.Row.{AreRowCells};
ghost use Rattle.text_frames.specs.Rows.{AreRows};

use crate::place::RowPlace;
use crate::row::{RowCells, cells_of_row, rest_of_row};
use crate::{CharSource, Fault, Frame, Text};
use readers_scanners::Reader;

/// How far the rows of a frame have been read. Those that are asked for from the upper one on take one pass over the
/// text. Where one isn't asked for, less than 128 characters before the start of the next are read again.
#[derive(Drop)]
pub struct FrameRows<'a> {
    reader: Reader<'a>,
    /// The row and the column of the character before which the reader stands.
    place: RowPlace,
    /// No character that was passed is in this row or in one below it.
    next: u8,
}

impl Frame {
    /// The rows of the frame in this text, before any of them is read.
    pub fn rows<'a>(&self, text: &'a Text) -> FrameRows<'a>
        requires org { self.now.org ≤ length (flat text.now) }
        ensures rows { (characters : List ℕ)
            → AreRows ⊤ characters (flat text.now) self.now.org result }
    {
        FrameRows {
            reader: Reader::open(text, self.org),
            place: RowPlace { row: 0, column: 0 },
            next: 0,
        }
    }

    /// The filled cells of the row `row`, as `cells_of_row` gives them, where `rows` tells how far the frame's rows in
    /// this text have been read. The text is read from there as `line` reads it from `org`, and from `org` for a row
    /// that was read already. `Fault`: the source failed in this call.
    pub fn read_line<'a, S: CharSource>(
        &self,
        text: &'a Text,
        w: u8,
        h: u8,
        row: u8,
        rows: &mut FrameRows<'a>,
        source: &mut S,
    ) -> Result<RowCells, Fault>
        requires columns { w ≤ MOST_COLUMNS }
        requires row { (row < h) × (h ≤ 31) }
        requires org { self.now.org ≤ length (flat text.now) }
        requires offsets { AreWithin (length (S.characters source.old)) (flat text.now) }
        requires so_far { AreRows (S.honest source.old) (S.characters source.old)
            (flat text.now) self.now.org
            rows.old }
        ensures cells { IfOk result (λ line. AreRowCells (S.honest source.old)
            (S.characters source.old) (flat text.now)
            w self.now.org row line.items) }
        ensures read { OnOk result (AreRows (S.honest source.new) (S.characters source.new)
            (flat text.now)
            self.now.org rows.new) }
        ensures source { ReadsOrFails S.CharSource result source.old source.new }
    {
        if row < rows.next {
            return cells_of_row(text, self.org, w, row, source);
        }
        let line = rest_of_row(
            text,
            self.org,
            w,
            row,
            &mut rows.reader,
            &mut rows.place,
            source,
        )?;
        rows.next = row + 1;
        Ok(line)
    }
}
