//! The screen, and what is painted on it.
ghost use Rattle.piece_ring.specs.Text.{Text as AText};
ghost use Rattle.std.specs.Prelude.{◌≡◌, ◌<◌, ◌-◌, ℕ, if◌then◌else◌, nat_lt, length, map, All, OnOk, IfSome};
ghost use Rattle.std.specs.Prelude.{IfNone, Some, true, false};
ghost use Rattle.sector_disk.specs.Trail.{CountsFault};
ghost use Rattle.char_file.specs.Source.{OnlyReads};
ghost use Rattle.readers_scanners.specs.Words.{ReadsOrFails};
ghost use Rattle.screen_pictures.specs.Picture.{filler, is_at, with_marker, picture};
ghost use Rattle.screen_cells.specs.Shown.{IsShowable, as_read, strip_cell};
ghost use Rattle.screen_pictures.specs.Screen.{screen_of, cell_at, column_at, row_at, values};
ghost use Rattle.screen_cells.specs.Rows.{painted_row, strips_cell};
ghost use Rattle.screen_cells.specs.Walks.{AreKept};
ghost use Rattle.screen_cells.specs.Lines.{AreLinesOf, IsNumbered, HavePlaces, kept_cells};

use crate::lines::{KeptLines, Slot};
use crate::shown::Shown;
use crate::strip::{Strip, track_strip};
use crate::walk::Walks;
use screen_pictures::{Cell, Mark};
use std::marker::Model;
use text_frames::{CharSource, Fault};
use viewer_tracks::{COLUMNS, ROWS, SYSTEM_LEFT, Track, Tracks};

pub(crate) const WIDTH: usize = COLUMNS as usize;

const HEIGHT: usize = ROWS as usize;

/// A row, from the left.
pub(crate) type Row = [Cell; WIDTH];

/// The screen, in place. A clause sees it as the list of its 32 rows from the bottom up, each the list of its 80 cells
/// from the left.
#[derive(Debug, Drop)]
pub struct Screen {
    rows: [Row; HEIGHT],
}

impl Model for Screen {
    ghost use Rattle.std.specs.Prelude.{◌≡◌, List, length};
    ghost use Rattle.screen_pictures.specs.declared.cell.Cell.{Cell};
    ghost use Rattle.viewer_tracks.specs.declared.display.TheConstants.{ROWS};

    ghost Value = { List (List Cell) };

    ghost view = { λ s. s.rows };

    ghost invariant = { λ s. length s.rows ≡ ROWS };
}

impl Screen {
    /// A screen of which all is filler, without a marker.
    pub fn new() -> Self
        ensures { result ≡ screen_of (λ x y. filler) }
    {
        Screen {
            rows: [[Cell::filler(false); WIDTH]; HEIGHT],
        }
    }

    /// The cell at column `x` and row `y`.
    pub fn cell(&self, x: u8, y: u8) -> Cell
        requires column_in_display { x < COLUMNS }
        requires row_in_display { y < ROWS }
        ensures { result ≡ cell_at self.now x y }
    {
        cell_of(&self.rows[usize::from(y)], x)
    }

    /// The row `y`.
    pub(crate) fn row(&self, y: u8) -> &Row
        requires { y < ROWS }
        ensures { result.now ≡ row_at self.now y }
    {
        &self.rows[usize::from(y)]
    }

    /// The rows from the bottom up, each with its cells from the left.
    pub fn rows(&self) -> &[Row; HEIGHT]
        ensures { result.now ≡ self.now }
    {
        &self.rows
    }

    /// Paints the viewers that the tracks show, and the marker where it stands in the display. `shown` has what each of
    /// them shows: of several with one number the first counts, those in no track are ignored, and a viewer that isn't
    /// among them is painted as a filler. Rows whose line is kept aren't read; of the others the lines are kept.
    /// `Fault`: the source failed in this call, and the screen may show anything; what is kept is so all the same.
    pub fn paint<S: CharSource>(
        &mut self,
        tracks: &Tracks,
        shown: &[Shown<'_>],
        marker: Option<(u8, u8)>,
        lines: &mut KeptLines,
        source: &mut S,
    ) -> Result<(), Fault>
        requires showable { All (IsShowable (length (S.characters source.old))) shown.now }
        requires ready { HavePlaces lines.old }
        ensures painted { OnOk result (S.honest source.old → (texts : ℕ → AText ℕ)
            → All (IsNumbered texts (S.characters source.old)) shown.now
            → AreLinesOf texts lines.old
            → self.new ≡ screen_of (picture tracks.now
            (map (as_read (S.characters source.old)) shown.now) marker)) }
        ensures lines { S.honest source.old → (texts : ℕ → AText ℕ)
            → All (IsNumbered texts (S.characters source.old)) shown.now
            → AreLinesOf texts lines.old
            → AreLinesOf texts lines.new }
        ensures reads { OnlyReads S.characters S.failures S.honest S.same_ground source.old
            source.new }
        ensures cause { CountsFault result (S.failures source.old) (S.failures source.new) }
    {
        let mut walks = Walks {
            user: None,
            system: None,
        };
        for y in (0..ROWS).rev() {
            paint_row(
                &mut self.rows[usize::from(y)],
                y,
                tracks,
                shown,
                marker,
                &mut walks,
                lines,
                source,
            )?;
        }
        Ok(())
    }
}

/// The cell of a row at a column.
fn cell_of(row: &Row, x: u8) -> Cell
    requires { x < COLUMNS }
    ensures { result ≡ column_at row.now x }
{
    row[usize::from(x)]
}

/// Paints a row of the display. `walks` tells what was read for the rows above it, `lines` what is kept. `Fault`: the
/// source failed in this call.
fn paint_row<'a, S: CharSource>(
    row: &mut Row,
    y: u8,
    tracks: &Tracks,
    shown: &[Shown<'a>],
    marker: Option<(u8, u8)>,
    walks: &mut Walks<'a>,
    lines: &mut KeptLines,
    source: &mut S,
) -> Result<(), Fault>
    requires row { (y < ROWS) × HavePlaces lines.old }
    requires showable { All (IsShowable (length (S.characters source.old))) shown.now }
    requires kept { AreKept (S.honest source.old) (S.characters source.old) shown.now walks.old }
    ensures painted { OnOk result (S.honest source.old → (texts : ℕ → AText ℕ)
        → All (IsNumbered texts (S.characters source.old)) shown.now → AreLinesOf texts lines.old
        → row.new ≡ painted_row tracks.now
        (map (as_read (S.characters source.old)) shown.now) marker y) }
    ensures lines { S.honest source.old → (texts : ℕ → AText ℕ)
        → All (IsNumbered texts (S.characters source.old)) shown.now → AreLinesOf texts lines.old
        → AreLinesOf texts lines.new }
    ensures ready { HavePlaces lines.new }
    ensures kept { OnOk result (AreKept (S.honest source.new)
        (S.characters source.new) shown.now walks.new) }
    ensures source { ReadsOrFails S.CharSource result source.old source.new }
{
    let at = usize::from(y);
    let user = track_strip(
        tracks,
        shown,
        Track::User,
        y,
        &mut walks.user,
        &mut lines.user[at],
        &mut lines.caret,
        source,
    )?;
    let system = track_strip(
        tracks,
        shown,
        Track::System,
        y,
        &mut walks.system,
        &mut lines.system[at],
        &mut lines.caret,
        source,
    )?;
    let line = &lines.user[at];
    let other = &lines.system[at];
    put_strips(row, y, user, line, system, other, marker);
    Ok(())
}

/// Puts what both tracks show in a row into its cells, with the marker where it stands there. `line` has the line that
/// the user track shows, and `other` that of the system track.
fn put_strips(
    row: &mut Row,
    y: u8,
    user: Strip,
    line: &Slot,
    system: Strip,
    other: &Slot,
    marker: Option<(u8, u8)>,
)
    ensures { row.new ≡ values COLUMNS
        (strips_cell user (kept_cells line.now) system (kept_cells other.now) marker y) }
{
    put_both(row, user, line, system, other);
    put_marker(row, y, marker);
}

/// Puts what both tracks show in a row into its cells.
fn put_both(row: &mut Row, user: Strip, line: &Slot, system: Strip, other: &Slot)
    ensures { row.new ≡ values COLUMNS (λ x. if nat_lt x SYSTEM_LEFT
        then strip_cell user (kept_cells line.now) x
        else strip_cell system (kept_cells other.now) (x - SYSTEM_LEFT)) }
{
    let (left, right) = row.split_at_mut(usize::from(SYSTEM_LEFT));
    user.put(line, left);
    system.put(other, right);
}

/// Puts the marker into a row, where it stands there.
fn put_marker(row: &mut Row, y: u8, marker: Option<(u8, u8)>)
    ensures { row.new ≡ values COLUMNS (λ x. with_marker (is_at marker x y) (column_at row.old x)) }
{
    let Some(x) = marker_in(marker, y) else {
        return;
    };
    let at = usize::from(x);
    row[at] = marked(row[at]);
}

/// The column at which the marker stands in a row of the display, if it does.
fn marker_in(marker: Option<(u8, u8)>, y: u8) -> Option<u8>
    ensures some { IfSome result (λ x. marker ≡ Some (x, y)) }
    ensures inside { IfSome result (λ x. x < COLUMNS) }
    ensures none { IfNone result ((x : ℕ) → x < COLUMNS → is_at marker x y ≡ false) }
{
    let Some((x, row)) = marker else {
        return None;
    };
    if row == y && x < COLUMNS {
        Some(x)
    } else {
        None
    }
}

/// A cell with the marker on it.
fn marked(cell: Cell) -> Cell
    ensures { result ≡ with_marker true cell }
{
    Cell {
        mark: Mark::Marker,
        ..cell
    }
}
