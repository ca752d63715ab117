//! What a track shows in a row.
ghost use Rattle.std.specs.Prelude.{◌≡◌, ◌+◌, ◌<◌, ◌≤◌, ◌-◌, ◌==◌, ℕ, List, length, map, All};
ghost use Rattle.std.specs.Prelude.{IfOk, OnOk, IfSome};
ghost use Rattle.std.specs.List.{position_or_len};
ghost use Rattle.text_frames.specs.declared.row.TheConstants.{MOST_COLUMNS};
ghost use Rattle.readers_scanners.specs.Words.{CountsFault, OnlyReads, ReadsOrFails};
ghost use Rattle.viewer_tracks.specs.Display.{left_of};
ghost use Rattle.viewer_tracks.specs.Viewers.{viewer_at, id_number};
ghost use Rattle.viewer_tracks.specs.Columns.{shown_track as shown_track, StandsAt};
ghost use Rattle.screen_pictures.specs.Picture.{viewer_cell, width_of, track_cell};
ghost use Rattle.screen_cells.specs.Shown.{IsShowable, as_read, strip_cell};
ghost use Rattle.piece_ring.specs.Text.{Text as AText};
ghost use Rattle.screen_cells.specs.Lines.{IsSlotOf, IsCaretOf, IsNumbered, kept_cells};
ghost use Rattle.screen_cells.specs.Walks.{IsKeptWalk, IsViewerRow};

use crate::lines::{KeptCaret, Slot, caret_cell, keep_menu, keep_row};
use crate::shown::Shown;
use crate::walk::{ViewerRow, Walk};
use arrayvec::ArrayVec;
use piece_ring::Look;
use text_frames::{CharSource, Fault, FrameSelection, MOST_COLUMNS};
use viewer_tracks::{COLUMNS, ROWS, SYSTEM_LEFT, Track, Tracks, ViewerId};

/// What fills a cell of a line: a character's byte and look, and its position in the text.
pub(crate) type Filled = (u8, Look, u32);

/// The filled cells of a line, from the left.
pub(crate) type StripLine = ArrayVec<Filled, MOST_COLUMNS>;

/// What a track shows in a row, beside the line that is kept of it.
#[derive(Clone, Copy)]
pub(crate) enum Strip {
    /// No viewer.
    Filler,
    /// The menu of a viewer.
    Menu,
    /// A row of a viewer's main frame, with its bar.
    Frame(FrameRow),
}

/// A row of a main frame, but for its line.
#[derive(Clone, Copy)]
pub(crate) struct FrameRow {
    /// The cell of the frame at which the caret stands.
    pub(crate) caret: Option<(u8, u8)>,
    pub(crate) selection: Option<FrameSelection>,
    /// The number of the row, from the top of the frame.
    pub(crate) row: u8,
    /// The number of columns beside the bar.
    pub(crate) columns: u8,
}

/// The viewer that is seen in a row of a track.
fn seen(tracks: &Tracks, track: Track, y: u8) -> Option<ViewerId>
    requires { y < ROWS }
    ensures seen { id_number result ≡ viewer_at (shown_track tracks.now track) y }
    ensures stands { IfSome result (λ v. StandsAt tracks.now v.0 (left_of track) y) }
{
    match track {
        Track::User => tracks.at(0, y),
        Track::System => tracks.at(SYSTEM_LEFT, y),
    }
}

/// The first viewer of that number, or how many there are.
fn index_of(shown: &[Shown<'_>], viewer: ViewerId) -> usize
    ensures { result ≡ position_or_len (λ s. s.id.0 == viewer.0) shown.now }
{
    shown
        .iter()
        .position(|s| s.id == viewer)
        .unwrap_or(shown.len())
}

/// The menu row of a viewer of that width, whatever rows are below it.
fn menu_strip<S: CharSource>(
    shown: &Shown<'_>,
    width: u8,
    slot: &mut Slot,
    source: &mut S,
) -> Result<Strip, Fault>
    requires fits { width ≤ MOST_COLUMNS }
    requires showable { IsShowable (length (S.characters source.old)) shown.now }
    ensures strip { IfOk result (λ strip. S.honest source.old → (texts : ℕ → AText ℕ)
        → IsNumbered texts (S.characters source.old) shown.now → IsSlotOf texts slot.old
        → (bottom column y : ℕ) → strip_cell strip (kept_cells slot.new) column
        ≡ viewer_cell (as_read (S.characters source.old) shown.now) width bottom (y + 1) column y) }
    ensures slot { S.honest source.old → (texts : ℕ → AText ℕ)
        → IsNumbered texts (S.characters source.old) shown.now → IsSlotOf texts slot.old
        → IsSlotOf texts slot.new }
    ensures reads { OnlyReads S.characters S.failures S.honest S.same_ground source.old source.new }
    ensures cause { CountsFault result (S.failures source.old) (S.failures source.new) }
{
    keep_menu(shown, width, slot, source)?;
    Ok(Strip::Menu)
}

/// A row of a viewer: of its menu, or of its main frame. `kept` is the walk of the viewer that was painted last there.
/// `Fault`: the source failed in this call.
fn viewer_strip<'a, S: CharSource>(
    viewer: &Shown<'a>,
    shown: &[Shown<'a>],
    at: ViewerRow,
    kept: &mut Option<Walk<'a>>,
    slot: &mut Slot,
    caret: &mut Option<KeptCaret>,
    source: &mut S,
) -> Result<Strip, Fault>
    requires at { IsViewerRow shown.now viewer.now at }
    requires showable { All (IsShowable (length (S.characters source.old))) shown.now }
    requires kept { IfSome kept.old
        (IsKeptWalk (S.honest source.old) (S.characters source.old) shown.now) }
    ensures strip { IfOk result (λ strip. S.honest source.old → (texts : ℕ → AText ℕ)
        → IsNumbered texts (S.characters source.old) viewer.now → IsSlotOf texts slot.old
        → IfSome caret.old (IsCaretOf texts) → (column : ℕ)
        → strip_cell strip (kept_cells slot.new) column
        ≡ viewer_cell (as_read (S.characters source.old) viewer.now) at.width at.bottom at.top
        column at.y) }
    ensures slot { S.honest source.old → (texts : ℕ → AText ℕ)
        → IsNumbered texts (S.characters source.old) viewer.now → IsSlotOf texts slot.old
        → IsSlotOf texts slot.new }
    ensures caret { S.honest source.old → (texts : ℕ → AText ℕ)
        → IsNumbered texts (S.characters source.old) viewer.now
        → IfSome caret.old (IsCaretOf texts)
        → IfSome caret.new (IsCaretOf texts) }
    ensures kept { OnOk result (IfSome kept.new
        (IsKeptWalk (S.honest source.new) (S.characters source.new) shown.now)) }
    ensures source { ReadsOrFails S.CharSource result source.old source.new }
{
    if at.y + 1 == at.top {
        return menu_strip(viewer, at.width, slot, source);
    }
    let row = at.top - 2 - at.y;
    let h = at.top - at.bottom - 1;
    let cell = caret_cell(viewer, at.width - 1, h, caret, source)?;
    keep_row(viewer, shown, at, kept, slot, source)?;
    Ok(Strip::Frame(FrameRow {
        caret: cell,
        selection: viewer.frame.selection,
        row,
        columns: at.width - 1,
    }))
}

/// The width of a track.
fn width(track: Track) -> u8
    ensures value { result ≡ width_of track }
    ensures some { 0 < result }
    ensures fits { result ≤ MOST_COLUMNS }
{
    match track {
        Track::User => SYSTEM_LEFT,
        Track::System => COLUMNS - SYSTEM_LEFT,
    }
}

/// What a track shows in a row, where `kept` is the walk of the viewer that was painted last there, `slot` has the line
/// that is kept of this row, and `caret` the caret that is kept. `Fault`: the source failed in this call.
pub(crate) fn track_strip<'a, S: CharSource>(
    tracks: &Tracks,
    shown: &[Shown<'a>],
    track: Track,
    y: u8,
    kept: &mut Option<Walk<'a>>,
    slot: &mut Slot,
    caret: &mut Option<KeptCaret>,
    source: &mut S,
) -> Result<Strip, Fault>
    requires row { y < ROWS }
    requires showable { All (IsShowable (length (S.characters source.old))) shown.now }
    requires kept { IfSome kept.old
        (IsKeptWalk (S.honest source.old) (S.characters source.old) shown.now) }
    ensures strip { IfOk result (λ strip. S.honest source.old → (texts : ℕ → AText ℕ)
        → All (IsNumbered texts (S.characters source.old)) shown.now → IsSlotOf texts slot.old
        → IfSome caret.old (IsCaretOf texts) → (column : ℕ)
        → strip_cell strip (kept_cells slot.new) column
        ≡ track_cell tracks.now (map (as_read (S.characters source.old)) shown.now) track column
        y) }
    ensures slot { S.honest source.old → (texts : ℕ → AText ℕ)
        → All (IsNumbered texts (S.characters source.old)) shown.now → IsSlotOf texts slot.old
        → IsSlotOf texts slot.new }
    ensures caret { S.honest source.old → (texts : ℕ → AText ℕ)
        → All (IsNumbered texts (S.characters source.old)) shown.now
        → IfSome caret.old (IsCaretOf texts)
        → IfSome caret.new (IsCaretOf texts) }
    ensures kept { OnOk result (IfSome kept.new
        (IsKeptWalk (S.honest source.new) (S.characters source.new) shown.now)) }
    ensures source { ReadsOrFails S.CharSource result source.old source.new }
{
    let Some(viewer) = seen(tracks, track, y) else {
        return Ok(Strip::Filler);
    };
    let index = index_of(shown, viewer);
    if index >= shown.len() {
        return Ok(Strip::Filler);
    }
    let place = tracks.place_of(viewer);
    let at = ViewerRow {
        index,
        width: width(track),
        bottom: place.bottom,
        top: place.top,
        y,
    };
    viewer_strip(&shown[index], shown, at, kept, slot, caret, source)
}
