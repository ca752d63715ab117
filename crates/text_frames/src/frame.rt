//! A frame, and the rules by which it follows its text.
ghost use Rattle.std.specs.Prelude.{◌≡◌, ◌⊎◌, ◌+◌, ◌<◌, ◌≤◌, Some, length, IfOk, OnOk, OnErr};
ghost use Rattle.readers_scanners.specs.Words.{ReadsOrFails, flat, AreWithin, bytes_of_text};
ghost use Rattle.text_frames.specs.Cells.{IsPositionAt, IsCellOf};
ghost use Rattle.text_frames.specs.Rules.{moved_position, changed_org, shown_org, IsFollowed, IsScrolledTo};
ghost use Rattle.text_frames.specs.declared.row.TheConstants.{MOST_COLUMNS};
ghost use Rattle.text_frames.specs.Row.{AreRowCells};

use crate::lines::{ends_between, line_above, line_start};
use crate::place::{self, cell_in, column_below};
use crate::row::{RowCells, cells_of_row};
use crate::{CharSource, Fault, Text};

/// The characters from `beg` up to before `end`, with the rank of the selection among all.
#[derive(Clone, Copy, Debug, PartialEq, Eq)]
pub struct FrameSelection {
    /// The position of the first character.
    pub beg: u32,
    /// The position after the last one.
    pub end: u32,
    /// Its place among all selections by age, 1 the oldest.
    pub rank: u8,
}

/// Shows a text from a position on, a line a row. Positions count characters.
#[derive(Clone, Copy, Debug, PartialEq, Eq)]
pub struct Frame {
    /// The number of the text.
    pub text: u16,
    /// The position of the first character shown.
    pub org: u32,
    /// The position before which the caret stands.
    pub caret: Option<u32>,
    /// The characters selected.
    pub selection: Option<FrameSelection>,
}

impl Frame {
    /// Sets the caret before the character at `pos`.
    pub fn set_caret(&mut self, pos: u32)
        ensures { self.new ≡ record self.old { caret = Some pos } }
    {
        self.caret = Some(pos);
    }

    /// Selects the characters from `beg` up to before `end`.
    pub fn select(&mut self, beg: u32, end: u32, rank: u8)
        requires { beg < end }
        ensures { self.new ≡ record self.old {
          selection =
              Some (record { beg = beg; end = end; rank = rank });
        } }
    {
        self.selection = Some(FrameSelection { beg, end, rank });
    }

    /// Shows the text from `org` on.
    pub fn scroll(&mut self, org: u32)
        ensures { self.new ≡ record self.old { org = org } }
    {
        self.org = org;
    }

    /// Follows a change of its text: at `p` so many characters were inserted, or so many from `p` on deleted. `text` is
    /// the changed text. The frame loses its caret and its selection. `org` stays where it is at most `p`; else it goes
    /// with its character, or to `p` where that was deleted, and from there to the start of its line. Where nothing was
    /// inserted or deleted nothing changes. `Fault`: the source failed in this call; the frame is as it was.
    pub fn update<S: CharSource>(
        &mut self,
        text: &Text,
        p: u32,
        inserted: u32,
        deleted: u32,
        source: &mut S,
    ) -> Result<(), Fault>
        requires one { (inserted ≡ 0) ⊎ (deleted ≡ 0) }
        requires place { p + inserted ≤ length (flat text.now) }
        requires org { self.old.org + inserted ≤ length (flat text.now) + deleted }
        requires offsets { AreWithin (length (S.characters source.old)) (flat text.now) }
        ensures followed { OnOk result
            (IsFollowed (S.honest source.old) (S.characters source.old) (flat text.now)
            p inserted deleted self.old self.new) }
        ensures refused { OnErr result (self.new ≡ self.old) }
        ensures source { ReadsOrFails S.CharSource result source.old source.new }
    {
        if inserted == 0 && deleted == 0 {
            return Ok(());
        }
        let followed = org_after(self.org, text, p, inserted, deleted, source)?;
        self.org = followed;
        self.caret = None;
        self.selection = None;
        Ok(())
    }

    /// Brings the position `p` into the `h` rows shown: where it is above `org`, or its line isn't in one of these
    /// rows, `org` becomes the start of the line that stands `h / 2` lines above that of `p`, 0 where there are fewer.
    /// The text is read from `org` to `p`, or to less than 512 characters past the end of these rows, and then from `p`
    /// back to that start. `Fault`: the source failed in this call; the frame is as it was.
    pub fn show<S: CharSource>(
        &mut self,
        text: &Text,
        h: u8,
        p: u32,
        source: &mut S,
    ) -> Result<(), Fault>
        requires rows { h ≤ 31 }
        requires place { p ≤ length (flat text.now) }
        requires org { self.old.org ≤ length (flat text.now) }
        requires offsets { AreWithin (length (S.characters source.old)) (flat text.now) }
        ensures brought { OnOk result (IsScrolledTo (S.honest source.old) (S.characters source.old)
            (flat text.now)
            h p self.old self.new) }
        ensures refused { OnErr result (self.new ≡ self.old) }
        ensures source { ReadsOrFails S.CharSource result source.old source.new }
    {
        let org = org_to_show(self.org, text, h, p, source)?;
        self.org = org;
        Ok(())
    }

    /// The filled cells of the row `row`, counted from 0, in a frame of `w` columns: from the left one on, at most `w`,
    /// the byte, the look and the position of the character in each. A tabulator stands in each of its cells, a carriage
    /// return in none. The text is read from `org` to the end of that row at most, or to less than 128 characters past
    /// its start. `Fault`: the source failed in this call.
    pub fn line<S: CharSource>(
        &self,
        text: &Text,
        w: u8,
        row: u8,
        source: &mut S,
    ) -> Result<RowCells, Fault>
        requires columns { w ≤ MOST_COLUMNS }
        requires org { self.now.org ≤ length (flat text.now) }
        requires offsets { AreWithin (length (S.characters source.old)) (flat text.now) }
        ensures cells { IfOk result (λ line. AreRowCells (S.honest source.old)
            (S.characters source.old) (flat text.now)
            w self.now.org row line.items) }
        ensures source { ReadsOrFails S.CharSource result source.old source.new }
    {
        let line = cells_of_row(text, self.org, w, row, source)?;
        Ok(line)
    }

    /// The position at the cell of the column `col` and the row `row`, counted from 0: of the character whose cells
    /// hold the column; past the last character of a line the line's end; in a row without a line the text's end. A
    /// column past the frame's is one of the line all the same. The text is read from `org` to that cell, or to less
    /// than 128 characters past the start of that row. `Fault`: the source failed in this call.
    pub fn pos_at<S: CharSource>(
        &self,
        text: &Text,
        col: u8,
        row: u8,
        source: &mut S,
    ) -> Result<u32, Fault>
        requires org { self.now.org ≤ length (flat text.now) }
        requires offsets { AreWithin (length (S.characters source.old)) (flat text.now) }
        ensures position { IfOk result
            (IsPositionAt (S.honest source.old) (S.characters source.old) (flat text.now)
            self.now.org col row) }
        ensures source { ReadsOrFails S.CharSource result source.old source.new }
    {
        let pos = place::position_at(text, self.org, col, row, source)?;
        Ok(pos)
    }

    /// The column and the row in which the character at `p` begins, or would begin that is put in there; None where it
    /// isn't shown in `h` rows of `w` columns. The text is read from `org` to `p`, or to less than 512 characters past
    /// the end of these rows, and then at most `w` characters before `p`, twice. `Fault`: the source failed in this
    /// call.
    pub fn cell_of<S: CharSource>(
        &self,
        text: &Text,
        w: u8,
        h: u8,
        p: u32,
        source: &mut S,
    ) -> Result<Option<(u8, u8)>, Fault>
        requires columns { w ≤ MOST_COLUMNS }
        requires rows { h ≤ 31 }
        requires place { p ≤ length (flat text.now) }
        requires offsets { AreWithin (length (S.characters source.old)) (flat text.now) }
        ensures cell { IfOk result (IsCellOf (S.honest source.old) (S.characters source.old)
            (flat text.now)
            w h self.now.org p) }
        ensures source { ReadsOrFails S.CharSource result source.old source.new }
    {
        if p < self.org {
            return Ok(None);
        }
        let ends = ends_between(text, self.org, h, p, source)?;
        let column = column_below(text, self.org, w, p, source)?;
        Ok(cell_in(column, ends, h))
    }
}

/// Where a frame that began at `org` begins after a change of its text: at `p` so many characters were inserted, or so
/// many from `p` on deleted. `text` is the changed text. `org` stays where it is at most `p`; else it goes with its
/// character, or to `p` where that was deleted, and from there to the start of its line. `Fault`: the source failed in
/// this call.
pub fn org_after<S: CharSource>(
    org: u32,
    text: &Text,
    p: u32,
    inserted: u32,
    deleted: u32,
    source: &mut S,
) -> Result<u32, Fault>
    requires one { (inserted ≡ 0) ⊎ (deleted ≡ 0) }
    requires place { p + inserted ≤ length (flat text.now) }
    requires org { org + inserted ≤ length (flat text.now) + deleted }
    requires offsets { AreWithin (length (S.characters source.old)) (flat text.now) }
    ensures exact { IfOk result (λ new. S.honest source.old
        → new ≡ changed_org (bytes_of_text (S.characters source.old) (flat text.now)) p inserted
        deleted org) }
    ensures range { IfOk result (λ new. new ≤ length (flat text.now)) }
    ensures source { ReadsOrFails S.CharSource result source.old source.new }
{
    if org <= p {
        return Ok(org);
    }
    let len = text.len();
    let place = place_after(org, p, inserted, deleted, len);
    let start = line_start(text, place, source)?;
    Ok(start)
}

/// Where the character at `org` stands after a change, or `p` where it was deleted. The text has `len` characters then.
fn place_after(org: u32, p: u32, inserted: u32, deleted: u32, len: u32) -> u32
    requires one { (inserted ≡ 0) ⊎ (deleted ≡ 0) }
    requires after { p < org }
    requires place { p + inserted ≤ len }
    requires org { org + inserted ≤ len + deleted }
    ensures place { result ≡ moved_position p inserted deleted org }
    ensures within { result ≤ len }
{
    if deleted == 0 {
        org + inserted
    } else if org - p < deleted {
        p
    } else {
        org - deleted
    }
}

/// Where a frame of `h` rows that began at `org` begins so that the position `p` is shown: at `org` where the line of
/// `p` is in one of its rows, else at the start of the line that stands `h / 2` lines above that of `p`, or at 0 where
/// there are fewer. The text is read from `org` to `p`, or to less than 512 characters past the end of these rows, and
/// then from `p` back to that start. `Fault`: the source failed in this call.
pub fn org_to_show<S: CharSource>(
    org: u32,
    text: &Text,
    h: u8,
    p: u32,
    source: &mut S,
) -> Result<u32, Fault>
    requires place { p ≤ length (flat text.now) }
    requires org { org ≤ length (flat text.now) }
    requires offsets { AreWithin (length (S.characters source.old)) (flat text.now) }
    ensures exact { IfOk result (λ new. S.honest source.old
        → new ≡ shown_org (bytes_of_text (S.characters source.old) (flat text.now)) h p org) }
    ensures range { IfOk result (λ new. new ≤ length (flat text.now)) }
    ensures source { ReadsOrFails S.CharSource result source.old source.new }
{
    if p < org {
        let start = line_above(text, h / 2, p, source)?;
        return Ok(start);
    }
    let ends = ends_between(text, org, h, p, source)?;
    if ends < h as u32 {
        return Ok(org);
    }
    let above = line_above(text, h / 2, p, source)?;
    Ok(above)
}
