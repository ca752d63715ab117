//! Lines that are kept from one screen to the next.
ghost use Rattle.std.specs.Prelude.{◌≡◌, ◌==◌, ◌&&◌, ◌+◌, ◌-◌, ◌≤◌, ◌<◌, nat_lt, ℕ, List, length, take, All, Some};
ghost use Rattle.std.specs.Prelude.{IfOk, IfSome, IfNone, OnOk, true, false};
ghost use Rattle.text_frames.specs.declared.row.TheConstants.{MOST_COLUMNS};
ghost use Rattle.piece_ring.specs.Flat.{flat};
ghost use Rattle.piece_ring.specs.Text.{Text as AText};
ghost use Rattle.readers_scanners.specs.Words.{CountsFault, OnlyReads, ReadsOrFails};
ghost use Rattle.text_frames.specs.Row.{row_cells};
ghost use Rattle.screen_pictures.specs.Picture.{caret_at};
ghost use Rattle.screen_cells.specs.Shown.{IsShowable, as_read};
ghost use Rattle.screen_cells.specs.Lines.{IsSlotOf, IsCaretOf, AreLinesOf, IsNumbered, HasLine, HasCaretKey, HavePlaces};
ghost use Rattle.screen_cells.specs.Lines.{IsAbove, HasSameRows, kept_cells};
ghost use Rattle.screen_cells.specs.Walks.{IsKeptWalk, IsWalk, IsOfSame, IsRowOf, IsViewerRow};

use crate::painted::PaintedLine;
use crate::shown::Shown;
use crate::strip::Filled;
use crate::walk::{ViewerRow, Walk, walk_of};
use std::alloc::{AllocError, Global};
use std::vec::Vec;
use text_frames::{CharSource, Fault, Frame, cells_of_row};
use viewer_tracks::ROWS;

/// Which frame it is: one of so many columns that shows the text of that number from `org` on.
#[derive(Clone, Copy, Debug, PartialEq, Eq)]
pub(crate) struct FrameKey {
    pub(crate) text: u16,
    pub(crate) org: u32,
    pub(crate) width: u8,
}

/// Which line it is: in that row of a frame.
#[derive(Clone, Copy, Debug, PartialEq, Eq)]
pub(crate) struct LineKey {
    pub(crate) frame: FrameKey,
    pub(crate) row: u8,
}

/// A line with its filled cells.
#[derive(Drop)]
pub(crate) struct KeptLine {
    pub(crate) key: LineKey,
    pub(crate) cells: PaintedLine,
}

/// Which caret it is: before that position of its text, in a frame of so many rows.
#[derive(Clone, Copy, Debug, PartialEq, Eq)]
pub(crate) struct CaretKey {
    pub(crate) frame: FrameKey,
    pub(crate) rows: u8,
    pub(crate) position: u32,
}

/// A caret with its cell. None: it isn't shown.
#[derive(Clone, Copy, Debug, PartialEq, Eq)]
pub(crate) struct KeptCaret {
    pub(crate) key: CaretKey,
    pub(crate) cell: Option<(u8, u8)>,
}

/// The place of a kept line.
pub(crate) type Slot = Option<KeptLine>;

/// The lines that were painted last in the rows of both tracks, and where the caret stood, so that a row whose line is
/// kept is painted without reading. Marker, selections and caret aren't in them. They hold no text: whoever changes
/// texts says so by `forget_text` and `forget_all`.
#[derive(Drop)]
pub struct KeptLines {
    pub(crate) user: Vec<Slot>,
    pub(crate) system: Vec<Slot>,
    pub(crate) caret: Option<KeptCaret>,
}

impl KeptLines {
    /// No lines. It takes no memory.
    pub fn new(alloc: Global) -> KeptLines
        ensures { (texts : ℕ → AText ℕ) → AreLinesOf texts result }
    {
        KeptLines {
            user: Vec::new(alloc),
            system: Vec::new(alloc),
            caret: None,
        }
    }

    /// Makes a place for a line of each row, where there is none yet. NoMemory where an allocation is refused.
    pub fn prepare(&mut self) -> Result<(), AllocError>
        ensures ready { OnOk result (HavePlaces self.new) }
        ensures lines { (texts : ℕ → AText ℕ) → AreLinesOf texts self.old
            → AreLinesOf texts self.new }
    {
        fill(&mut self.user)?;
        fill(&mut self.system)?;
        Ok(())
    }

    /// Gives up all lines.
    pub fn forget_all(&mut self)
        ensures { (texts : ℕ → AText ℕ) → AreLinesOf texts self.new }
    {
        self.user.clear();
        self.system.clear();
        self.caret = None;
    }

    /// Gives up the lines of the text of that number that may change where it changes from that position on: all but
    /// those in rows above the caret, where the one that was painted last stood before that position. What is left is
    /// so of all texts that are as before but for it, while it has the same characters before the position.
    pub fn forget_text(&mut self, number: u16, position: u32)
        ensures { (before after : ℕ → AText ℕ) → ((n : ℕ) → ¬ (n ≡ number) → after n ≡ before n)
            → take position (after number) ≡ take position (before number)
            → AreLinesOf before self.old → AreLinesOf after self.new }
    {
        let (org, row) = rows_above(self.caret, number, position);
        forget_in(&mut self.user, number, org, row);
        forget_in(&mut self.system, number, org, row);
        forget_caret(&mut self.caret, number);
    }
}

/// Makes a place for a line of each row.
fn fill(slots: &mut Vec<Slot>) -> Result<(), AllocError>
    ensures ready { OnOk result (ROWS ≤ length slots.new.items) }
    ensures lines { (texts : ℕ → AText ℕ) → All (IsSlotOf texts) slots.old.items
        → All (IsSlotOf texts) slots.new.items }
{
    while slots.len() < ROWS as usize {
        slots.push(None)?;
    }
    Ok(())
}

/// From where on the frame shows the text of that number whose caret was painted last, and in which of its rows that
/// caret stands. It is row 0 where that wasn't the caret before that position.
fn rows_above(caret: Option<KeptCaret>, number: u16, position: u32) -> (u32, u8)
    ensures { (texts : ℕ → AText ℕ) → IfSome caret (IsCaretOf texts)
        → IsAbove (texts number) position result.0 result.1 }
{
    match caret {
        Some(kept) if kept.key.frame.text == number && kept.key.position == position => {
            (kept.key.frame.org, row_of_cell(kept.cell))
        }
        _ => (0, 0),
    }
}

/// The row of a cell, or row 0 where there is none.
fn row_of_cell(cell: Option<(u8, u8)>) -> u8
    ensures some { IfSome cell (λ c. result ≡ c.1) }
    ensures none { IfNone cell (result ≡ 0) }
{
    match cell {
        None => 0,
        Some((_, row)) => row,
    }
}

/// Gives up the lines of a text, but for those above that row of a frame that shows it from `org` on.
fn forget_in(slots: &mut Vec<Slot>, number: u16, org: u32, row: u8)
    ensures { (before after : ℕ → AText ℕ) → ((n : ℕ) → ¬ (n ≡ number) → after n ≡ before n)
        → HasSameRows (before number) (after number) org row
        → All (IsSlotOf before) slots.old.items → All (IsSlotOf after) slots.new.items }
{
    for at in 0..slots.len() {
        forget_slot(&mut slots[at], number, org, row);
    }
}

/// Gives up a line, where it is one of that text, and not above that row of a frame that shows it from `org` on.
fn forget_slot(slot: &mut Slot, number: u16, org: u32, row: u8)
    ensures { (before after : ℕ → AText ℕ) → ((n : ℕ) → ¬ (n ≡ number) → after n ≡ before n)
        → HasSameRows (before number) (after number) org row → IsSlotOf before slot.old
        → IsSlotOf after slot.new }
{
    if is_of(slot, number) && !is_above(slot, org, row) {
        *slot = None;
    }
}

/// Whether a line is kept of a row above that one of a frame that shows its text from `org` on.
fn is_above(slot: &Slot, org: u32, row: u8) -> bool
    ensures { IfSome slot.now (λ line. result
        ≡ ((line.key.frame.org == org) && nat_lt line.key.row row)) }
{
    match slot {
        None => false,
        Some(line) => line.key.frame.org == org && line.key.row < row,
    }
}

/// Whether a line is kept of that text.
fn is_of(slot: &Slot, number: u16) -> bool
    ensures { IfSome slot.now (λ line. result ≡ (line.key.frame.text == number)) }
{
    match slot {
        None => false,
        Some(line) => line.key.frame.text == number,
    }
}

/// Gives up the caret, where it is one of that text.
fn forget_caret(caret: &mut Option<KeptCaret>, number: u16)
    ensures { (before after : ℕ → AText ℕ) → ((n : ℕ) → ¬ (n ≡ number) → after n ≡ before n)
        → IfSome caret.old (IsCaretOf before) → IfSome caret.new (IsCaretOf after) }
{
    let Some(kept) = *caret else {
        return;
    };
    if kept.key.frame.text == number {
        *caret = None;
    }
}

/// The cells that are kept in a line's place.
pub(crate) fn kept_cells(slot: &Slot) -> &[Filled]
    ensures { result.now ≡ kept_cells slot.now }
{
    match slot {
        None => &[],
        Some(line) => line.cells.filled(),
    }
}

/// Whether the line that is kept is the one of that key.
fn is_kept(slot: &Slot, key: LineKey) -> bool
    ensures cells { result ≡ true → (texts : ℕ → AText ℕ) → IsSlotOf texts slot.now
        → kept_cells slot.now ≡ row_cells key.frame.width
        (texts key.frame.text) key.frame.org key.row }
    ensures none { result ≡ false → ¬ HasLine key slot.now }
{
    match slot {
        None => false,
        Some(line) => line.key == key,
    }
}

/// Keeps the first line of a viewer's menu of that width: it is read, where it isn't kept yet. `Fault`: the source
/// failed in this call.
pub(crate) fn keep_menu<S: CharSource>(
    shown: &Shown<'_>,
    width: u8,
    slot: &mut Slot,
    source: &mut S,
) -> Result<(), Fault>
    requires fits { width ≤ MOST_COLUMNS }
    requires showable { IsShowable (length (S.characters source.old)) shown.now }
    ensures cells { OnOk result (S.honest source.old → (texts : ℕ → AText ℕ)
        → IsNumbered texts (S.characters source.old) shown.now → IsSlotOf texts slot.old
        → kept_cells slot.new ≡ row_cells width
        (as_read (S.characters source.old) shown.now).menu 0 0) }
    ensures slot { S.honest source.old → (texts : ℕ → AText ℕ)
        → IsNumbered texts (S.characters source.old) shown.now → IsSlotOf texts slot.old
        → IsSlotOf texts slot.new }
    ensures reads { OnlyReads S.characters S.failures S.honest S.same_ground source.old source.new }
    ensures cause { CountsFault result (S.failures source.old) (S.failures source.new) }
{
    let key = LineKey {
        frame: FrameKey {
            text: shown.menu_text,
            org: 0,
            width,
        },
        row: 0,
    };
    if is_kept(slot, key) {
        return Ok(());
    }
    let cells = cells_of_row(shown.menu, 0, width, 0, source)?;
    *slot = Some(KeptLine {
        key,
        cells: PaintedLine::new(cells),
    });
    Ok(())
}

/// Keeps the line of a row of a viewer's main frame, with one cell more than are beside its bar. Where it isn't kept
/// yet, it is read by the walk that is kept, or by a new one where that is another viewer's. `Fault`: the source failed
/// in this call.
pub(crate) fn keep_row<'a, S: CharSource>(
    viewer: &Shown<'a>,
    shown: &[Shown<'a>],
    at: ViewerRow,
    kept: &mut Option<Walk<'a>>,
    slot: &mut Slot,
    source: &mut S,
) -> Result<(), Fault>
    requires at { IsViewerRow shown.now viewer.now at × (at.y + 1 < at.top) }
    requires showable { All (IsShowable (length (S.characters source.old))) shown.now }
    requires kept { IfSome kept.old
        (IsKeptWalk (S.honest source.old) (S.characters source.old) shown.now) }
    ensures cells { OnOk result (S.honest source.old → (texts : ℕ → AText ℕ)
        → IsNumbered texts (S.characters source.old) viewer.now → IsSlotOf texts slot.old
        → let v = as_read (S.characters source.old) viewer.now in
        kept_cells slot.new ≡ row_cells at.width v.main v.frame.org (at.top - 2 - at.y)) }
    ensures slot { S.honest source.old → (texts : ℕ → AText ℕ)
        → IsNumbered texts (S.characters source.old) viewer.now → IsSlotOf texts slot.old
        → IsSlotOf texts slot.new }
    ensures kept { OnOk result (IfSome kept.new
        (IsKeptWalk (S.honest source.new) (S.characters source.new) shown.now)) }
    ensures source { ReadsOrFails S.CharSource result source.old source.new }
{
    let w = at.width;
    let row = at.top - 2 - at.y;
    if is_kept(slot, row_key(&viewer.frame, w, row)) {
        return Ok(());
    }
    let mut walk = walk_of(kept.take(), shown, at.index, at.top - at.bottom - 1, source);
    read_row(&mut walk, w, row, slot, source)?;
    *kept = Some(walk);
    Ok(())
}

/// The line of a row of a frame of `w` columns.
fn row_key(frame: &Frame, w: u8, row: u8) -> LineKey
    ensures text { result.frame.text ≡ frame.now.text }
    ensures org { result.frame.org ≡ frame.now.org }
    ensures width { result.frame.width ≡ w }
    ensures row { result.row ≡ row }
{
    LineKey {
        frame: FrameKey {
            text: frame.text,
            org: frame.org,
            width: w,
        },
        row,
    }
}

/// Reads the line of a row of a viewer's main frame of `w` columns, and keeps it. `Fault`: the source failed in this
/// call.
fn read_row<S: CharSource>(
    walk: &mut Walk<'_>,
    w: u8,
    row: u8,
    slot: &mut Slot,
    source: &mut S,
) -> Result<(), Fault>
    requires row { IsRowOf w row walk.old }
    requires walk { IsWalk (S.honest source.old) (S.characters source.old) walk.old }
    ensures cells { OnOk result (S.honest source.old
        → let v = as_read (S.characters source.old) walk.old.shown in
        kept_cells slot.new ≡ row_cells w v.main v.frame.org row) }
    ensures slot { S.honest source.old → (texts : ℕ → AText ℕ)
        → IsNumbered texts (S.characters source.old) walk.old.shown → IsSlotOf texts slot.old
        → IsSlotOf texts slot.new }
    ensures walk { OnOk result (IsWalk (S.honest source.new) (S.characters source.new) walk.new) }
    ensures viewer { IsOfSame walk.old walk.new }
    ensures source { ReadsOrFails S.CharSource result source.old source.new }
{
    let frame = walk.shown.frame;
    let key = row_key(&frame, w, row);
    let cells = frame.read_line(walk.shown.main, w, walk.h, row, &mut walk.rows, source)?;
    *slot = Some(KeptLine {
        key,
        cells: PaintedLine::new(cells),
    });
    Ok(())
}

/// The caret that is kept, where it is the one of that key.
fn caret_kept(caret: Option<KeptCaret>, key: CaretKey) -> Option<KeptCaret>
    ensures some { IfSome result (λ found. (caret ≡ Some found) × (found.key ≡ key)) }
    ensures none { IfNone result (¬ HasCaretKey key caret) }
{
    match caret {
        Some(kept) if kept.key == key => Some(kept),
        _ => None,
    }
}

/// The cell of a viewer's main frame of `w` columns and `h` rows at which its caret stands, if it has one that is
/// shown; it is read where it isn't kept, and then kept. `Fault`: the source failed in this call.
pub(crate) fn caret_cell<S: CharSource>(
    shown: &Shown<'_>,
    w: u8,
    h: u8,
    caret: &mut Option<KeptCaret>,
    source: &mut S,
) -> Result<Option<(u8, u8)>, Fault>
    requires columns { w ≤ MOST_COLUMNS }
    requires rows { h ≤ 31 }
    requires showable { IsShowable (length (S.characters source.old)) shown.now }
    ensures cell { IfOk result (λ cell. S.honest source.old → (texts : ℕ → AText ℕ)
        → IsNumbered texts (S.characters source.old) shown.now → IfSome caret.old (IsCaretOf texts)
        → let v = as_read (S.characters source.old) shown.now in
        cell ≡ caret_at w h v.main v.frame.org v.frame.caret) }
    ensures caret { S.honest source.old → (texts : ℕ → AText ℕ)
        → IsNumbered texts (S.characters source.old) shown.now → IfSome caret.old (IsCaretOf texts)
        → IfSome caret.new (IsCaretOf texts) }
    ensures reads { OnlyReads S.characters S.failures S.honest S.same_ground source.old source.new }
    ensures cause { CountsFault result (S.failures source.old) (S.failures source.new) }
{
    let Some(position) = shown.frame.caret else {
        return Ok(None);
    };
    let key = CaretKey {
        frame: FrameKey {
            text: shown.frame.text,
            org: shown.frame.org,
            width: w,
        },
        rows: h,
        position,
    };
    if let Some(kept) = caret_kept(*caret, key) {
        return Ok(kept.cell);
    }
    let cell = cell_at(shown, w, h, position, source)?;
    *caret = Some(KeptCaret { key, cell });
    Ok(cell)
}

/// The cell of a viewer's main frame of `w` columns and `h` rows at which a position is shown, if it is one of its text
/// and shown. `Fault`: the source failed in this call.
fn cell_at<S: CharSource>(
    shown: &Shown<'_>,
    w: u8,
    h: u8,
    position: u32,
    source: &mut S,
) -> Result<Option<(u8, u8)>, Fault>
    requires columns { w ≤ MOST_COLUMNS }
    requires rows { h ≤ 31 }
    requires showable { IsShowable (length (S.characters source.old)) shown.now }
    ensures cell { IfOk result (λ cell. S.honest source.old
        → let v = as_read (S.characters source.old) shown.now in
        cell ≡ caret_at w h v.main v.frame.org (Some position)) }
    ensures reads { OnlyReads S.characters S.failures S.honest S.same_ground source.old source.new }
    ensures cause { CountsFault result (S.failures source.old) (S.failures source.new) }
{
    if position > shown.main.len() {
        return Ok(None);
    }
    shown.frame.cell_of(shown.main, w, h, position, source)
}
