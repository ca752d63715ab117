//! What is sent to a terminal so that it shows a scene.
ghost use Rattle.std.specs.Prelude.{◌≡◌, ◌+◌, ◌<◌, ◌≤◌, [], length, replicate, slice_index_or, true};
ghost use Rattle.std.specs.Prelude.{OnOk, OnErr, IfSome};
ghost use Rattle.byte_streams.specs.Counting.{CountsFault};
ghost use Rattle.byte_streams.specs.Sent.{AppendsFront, Sends};
ghost use Rattle.viewer_tracks.specs.declared.display.TheConstants.{COLUMNS as columns, ROWS as rows};
ghost use Rattle.screen_drawing.specs.Scene.{scene_row, scene_rows, height_of, IsInSight};
ghost use Rattle.screen_drawing.specs.Painting.{IsShown, Leads, Paints, PaintsFront};
ghost use Rattle.screen_drawing.specs.Painting.{are_of_size as rows_known, are_wide as rows_wide, beginning, begun_rows, ending, rows_changes};
ghost use Rattle.screen_drawing.specs.Changes.{changes};
ghost use Rattle.screen_drawing.specs.Pen.{blank_face};
ghost use Rattle.screen_drawing.specs.Seen.{cells_seen};
ghost use Rattle.screen_drawing.specs.Spelling.{operation_bytes, spelled_all};

use crate::changes::row_changes;
use crate::face::WIDTH;
use crate::operation::Operation;
use crate::pen::{Pen, WHITE};
use crate::scene::Scene;
use crate::seen_row::{SeenRow, letter_cells};
use crate::sending::send;
use arrayvec::ArrayVec;
use byte_streams::{AnswerWriter, OutputFault};
use screen_pictures::Cell;
use std::marker::Model;

/// The number of rows that are painted, at most: those of the screen, and the line below.
const MOST_ROWS: usize = 33;

/// Rows of a terminal, from the top.
type Rows = ArrayVec<SeenRow, MOST_ROWS>;

/// What a terminal shows, as far as it is known. A clause sees it as the list of the rows that are known, from the top,
/// each the list of what its cells show: of the scene that was painted last, or none.
#[derive(Drop)]
pub struct Painter {
    known: Rows,
}

impl Model for Painter {
    ghost use Rattle.std.specs.Prelude.{List};
    ghost use Rattle.screen_drawing.specs.declared.face.Face.{Face};

    ghost Value = { List (List Face) };

    ghost view = { λ p. p.known.items };
}

impl Painter {
    /// Of a terminal of which nothing is known.
    pub fn new() -> Self
        ensures { result ≡ [] }
    {
        Painter { known: Rows::new() }
    }

    /// The next scene is painted whole: something else may have been written to the terminal.
    pub fn forget(&mut self)
        ensures { self.new ≡ [] }
    {
        self.known = Rows::new();
    }

    /// Has the terminal show a scene, with the cursor at its pointer, or else at a caret in sight.
    ///
    /// Only what changed since the last scene is sent, and all of it where none is known, and then it is flushed. It
    /// returns `OutputFault` where a write or the flush fails: then a front of the painting may have been taken, and
    /// nothing is known of the terminal.
    pub fn paint<W: AnswerWriter>(
        &mut self,
        writer: &mut W,
        scene: &Scene<'_>,
    ) -> Result<(), OutputFault>
        requires { IsInSight scene.now }
        ensures shown { OnOk result (Paints (W.contents writer.old)
            (W.contents writer.new) self.old scene.now) }
        ensures known { OnOk result (self.new ≡ scene_rows scene.now) }
        ensures front { OnErr result (PaintsFront (W.contents writer.old)
            (W.contents writer.new) self.old scene.now) }
        ensures unknown { OnErr result (self.new ≡ []) }
        ensures handed { OnOk result (W.unflushed writer.new ≡ 0) }
        ensures cause { CountsFault result (W.failures writer.old) (W.failures writer.new) }
    {
        match paint_known(writer, &mut self.known, scene) {
            Ok(()) => Ok(()),
            Err(fault) => {
                self.known = Rows::new();
                Err(fault)
            }
        }
    }
}

/// Rings the terminal's bell, and flushes the writer.
pub fn ring<W: AnswerWriter>(writer: &mut W) -> Result<(), OutputFault>
    ensures sent { Sends result (W.contents writer.old) (W.contents writer.new)
        (operation_bytes Operation.Ring) }
    ensures handed { OnOk result (W.unflushed writer.new ≡ 0) }
    ensures cause { CountsFault result (W.failures writer.old) (W.failures writer.new) }
{
    send_last(writer, &[Operation::Ring])
}

/// Has a terminal that shows the known rows show a scene, and knows its rows then. Where it fails, the rows may be any.
fn paint_known<W: AnswerWriter>(
    writer: &mut W,
    known: &mut Rows,
    scene: &Scene<'_>,
) -> Result<(), OutputFault>
    requires { IsInSight scene.now }
    ensures shown { OnOk result (Paints (W.contents writer.old)
        (W.contents writer.new) known.old.items scene.now) }
    ensures known { OnOk result (known.new.items ≡ scene_rows scene.now) }
    ensures front { OnErr result (PaintsFront (W.contents writer.old)
        (W.contents writer.new) known.old.items scene.now) }
    ensures handed { OnOk result (W.unflushed writer.new ≡ 0) }
    ensures cause { CountsFault result (W.failures writer.old) (W.failures writer.new) }
{
    let place = scene.cursor();
    begin(writer, known, scene.width, scene.height())?;
    paint_rows(writer, known, scene)?;
    finish(writer, place)?;
    Ok(())
}

/// Begins a painting of so many columns and rows: where the known rows are as many and as wide, they stay, and else all
/// cells become blank. Known are the rows that are shown then.
fn begin<W: AnswerWriter>(
    writer: &mut W,
    known: &mut Rows,
    width: u8,
    height: u8,
) -> Result<(), OutputFault>
    requires wide { width ≤ columns }
    requires high { height ≤ MOST_ROWS }
    ensures led { OnOk result (Leads (beginning (rows_known width height known.old.items))
        (W.contents writer.old) (W.contents writer.new) (IsShown width height known.old.items)
        (IsShown width height (begun_rows width height known.old.items))) }
    ensures rows { OnOk result (known.new.items ≡ begun_rows width height known.old.items) }
    ensures front { OnErr result (AppendsFront (W.contents writer.old) (W.contents writer.new)
        (spelled_all (beginning (rows_known width height known.old.items)))) }
    ensures long { OnOk result (length known.new.items ≡ height) }
    ensures wide { OnOk result (rows_wide width known.new.items ≡ true) }
    ensures cause { CountsFault result (W.failures writer.old) (W.failures writer.new) }
{
    if are_of_size(known, width, height) {
        send(writer, &[Operation::Hold, Operation::Hide])?;
        return Ok(());
    }
    send(
        writer,
        &[
            Operation::Hold,
            Operation::Hide,
            Operation::Take(Pen::plain(WHITE)),
            Operation::Wipe,
        ],
    )?;
    *known = blank_rows(width, height);
    Ok(())
}

/// Whether the known rows are so many, and each has so many columns.
#[tactic(auto, unfolding(crate::specs::Painting::are_of_size))]
fn are_of_size(known: &Rows, width: u8, height: u8) -> bool
    ensures { result ≡ rows_known width height known.now.items }
{
    known.len() == usize::from(height) && are_wide(known.as_slice(), width)
}

/// Whether each row has so many columns.
fn are_wide(known: &[SeenRow], width: u8) -> bool
    ensures { result ≡ rows_wide width known.now }
{
    known.iter().all(|row| row.width() == width)
}

/// So many blank rows of so many columns.
fn blank_rows(width: u8, height: u8) -> Rows
    requires wide { width ≤ columns }
    requires high { height ≤ MOST_ROWS }
    ensures { result.items ≡ replicate height (replicate width (blank_face WHITE)) }
{
    let mut rows = Rows::new();
    for _ in 0..height {
        rows.push(SeenRow::blank(width));
    }
    rows
}

/// Paints the rows of a scene where the known ones are shown. Where it fails, the rows may be any.
fn paint_rows<W: AnswerWriter>(
    writer: &mut W,
    known: &mut Rows,
    scene: &Scene<'_>,
) -> Result<(), OutputFault>
    requires in_sight { IsInSight scene.now }
    requires known { length known.old.items ≡ height_of scene.now }
    requires wide { rows_wide scene.now.width known.old.items ≡ true }
    ensures rows { OnOk result (known.new.items ≡ scene_rows scene.now) }
    ensures led { OnOk result (Leads
        (rows_changes (height_of scene.now) (λ y. slice_index_or known.old.items y [])
        (scene_row scene.now))
        (W.contents writer.old) (W.contents writer.new)
        (IsShown scene.now.width (height_of scene.now) known.old.items)
        (IsShown scene.now.width (height_of scene.now) (scene_rows scene.now))) }
    ensures front { OnErr result (AppendsFront (W.contents writer.old) (W.contents writer.new)
        (spelled_all
        (rows_changes (height_of scene.now) (λ y. slice_index_or known.old.items y [])
        (scene_row scene.now)))) }
    ensures cause { CountsFault result (W.failures writer.old) (W.failures writer.new) }
{
    for y in 0..scene.height() {
        paint_row(writer, &mut known[usize::from(y)], scene, y)?;
    }
    Ok(())
}

/// Paints a row of a scene, given from the top, where the terminal shows the known one.
#[tactic(auto, unfolding(crate::specs::Scene::scene_row))]
fn paint_row<W: AnswerWriter>(
    writer: &mut W,
    known: &mut SeenRow,
    scene: &Scene<'_>,
    y: u8,
) -> Result<(), OutputFault>
    requires in_sight { IsInSight scene.now }
    requires within { y < height_of scene.now }
    requires wide { length known.old ≡ scene.now.width }
    ensures sent { Sends result (W.contents writer.old) (W.contents writer.new)
        (spelled_all (changes (y + 1) known.old (scene_row scene.now y))) }
    ensures row { OnOk result (known.new ≡ scene_row scene.now y) }
    ensures cause { CountsFault result (W.failures writer.old) (W.failures writer.new) }
{
    if y < scene.rows {
        let cells = scene.seen(y);
        return paint_cells(writer, known, y + 1, cells, scene.left, scene.columns);
    }
    let cells = letter_cells(scene.text());
    paint_cells(writer, known, y + 1, &cells, 0, scene.width)
}

/// Has the terminal show so many cells from the column `left` on in a row, where it shows the known one. Where the same
/// cells are known, it is known to show them.
fn paint_cells<W: AnswerWriter>(
    writer: &mut W,
    known: &mut SeenRow,
    row: u8,
    cells: &[Cell; WIDTH],
    left: u8,
    count: u8,
) -> Result<(), OutputFault>
    requires sight { left + count ≤ columns }
    requires few { length known.old ≤ columns }
    ensures sent { Sends result (W.contents writer.old) (W.contents writer.new) (spelled_all
        (changes row known.old (cells_seen left count (length known.old) cells.now))) }
    ensures row { OnOk result (known.new ≡ cells_seen left count (length known.old) cells.now) }
    ensures cause { CountsFault result (W.failures writer.old) (W.failures writer.new) }
{
    if known.is_of(cells, left, count) {
        return Ok(());
    }
    repaint(writer, known, row, cells, left, count)
}

/// The same, where other cells are known.
#[inline(never)]
fn repaint<W: AnswerWriter>(
    writer: &mut W,
    known: &mut SeenRow,
    row: u8,
    cells: &[Cell; WIDTH],
    left: u8,
    count: u8,
) -> Result<(), OutputFault>
    requires sight { left + count ≤ columns }
    requires few { length known.old ≤ columns }
    ensures sent { Sends result (W.contents writer.old) (W.contents writer.new) (spelled_all
        (changes row known.old (cells_seen left count (length known.old) cells.now))) }
    ensures row { OnOk result (known.new ≡ cells_seen left count (length known.old) cells.now) }
    ensures cause { CountsFault result (W.failures writer.old) (W.failures writer.new) }
{
    let olds = known.faces();
    known.take(cells, left, count);
    let news = known.faces();
    let changes = row_changes(row, olds.faces(), news.faces());
    send(writer, changes.as_slice())
}

/// Ends a painting: the cursor goes to its place, or is hidden.
fn finish<W: AnswerWriter>(writer: &mut W, place: Option<(u8, u8)>) -> Result<(), OutputFault>
    requires { IfSome place (λ place. (place.0 < columns) × (place.1 < rows)) }
    ensures sent { Sends result (W.contents writer.old) (W.contents writer.new)
        (spelled_all (ending place)) }
    ensures handed { OnOk result (W.unflushed writer.new ≡ 0) }
    ensures cause { CountsFault result (W.failures writer.old) (W.failures writer.new) }
{
    let Some((x, y)) = place else {
        return send_last(writer, &[Operation::Hide, Operation::Release]);
    };
    let place = Operation::Go {
        column: x + 1,
        row: y + 1,
    };
    send_last(writer, &[place, Operation::Show, Operation::Release])
}

/// Writes the bytes of the operations and flushes the writer.
fn send_last<W: AnswerWriter>(writer: &mut W, operations: &[Operation]) -> Result<(), OutputFault>
    ensures sent { Sends result (W.contents writer.old) (W.contents writer.new)
        (spelled_all operations.now) }
    ensures handed { OnOk result (W.unflushed writer.new ≡ 0) }
    ensures cause { CountsFault result (W.failures writer.old) (W.failures writer.new) }
{
    send(writer, operations)?;
    writer.flush()
}
