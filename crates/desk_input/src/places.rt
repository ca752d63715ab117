//! Where cells of the display lie, and what is shown there.
ghost use Rattle.std.specs.Prelude.{◌≡◌, ◌==◌, ◌+◌, ◌<◌, ◌≤◌, min, max, length, true, IfOk, if◌then◌else◌};
ghost use Rattle.viewer_tracks.specs.declared.display.Track.{Track as ATrack};
ghost use Rattle.viewer_tracks.specs.Display.{left_of};
ghost use Rattle.screen_pictures.specs.Picture.{width_of};
ghost use Rattle.desktop_definitions.specs.declared.region.Region.TheVariants.{Menu, Bar, Body};
ghost use Rattle.desktop_definitions.specs.Gesture.{region_at, frame_row, width, menu_column, text_column, text_row};
ghost use Rattle.desktop_definitions.specs.Gesture.{text_position, stretch_drawn, menu_position, IsRegionOf};
ghost use Rattle.desktop_definitions.specs.Viewers.{rows_of};
ghost use Rattle.desktop_definitions.specs.Call.{text_called};
ghost use Rattle.desk_core.specs.Mouse.{position_in};
ghost use Rattle.desk_core.specs.Words.{flat, ROWS, COLUMNS, IsOnTop, viewer_or_none, IsOver, kept_desktop, IsPosition};
ghost use Rattle.desk_input.specs.Reads.{IsMainRow, TellsValue};

use char_file::{CharSource, Fault};
use desk_core::desk::Desk;
use desk_core::viewers::viewer_or_none;
use desktop_definitions::{Region, Selection};
use text_frames::Frame;
use viewer_tracks::{COLUMNS, Place, SYSTEM_LEFT, ViewerId};

/// What a call reads. Fault: the source failed in that call.
pub type Read<T> = Result<T, Fault>;

/// The part of a viewer in which a cell of its place lies.
fn part_of(id: u16, place: Place, x: u8, y: u8) -> Region
    requires { y < ROWS }
    ensures { result
        ≡ (if y + 1 == place.top then Menu id else (if x == place.x then Bar id else Body id)) }
{
    if y + 1 == place.top {
        Region::Menu(id)
    } else if x == place.x {
        Region::Bar(id)
    } else {
        Region::Body(id)
    }
}

/// How many columns a track has whose leftmost column is `left`.
fn width(left: u8) -> u8
    ensures value { (track : ATrack) → left ≡ left_of track → result ≡ width_of track }
    ensures some { 30 ≤ result }
    ensures fits { result ≤ 50 }
{
    if left == 0 {
        SYSTEM_LEFT
    } else {
        COLUMNS - SYSTEM_LEFT
    }
}

/// The characters between two positions of a viewer's text of `len` characters, with those at both.
fn stretch(id: u16, p: u32, q: u32, len: u32) -> Selection
    ensures { result ≡ record { viewer = id; beg = min p q; end = min (max p q + 1) len } }
{
    Selection {
        viewer: id,
        beg: p.min(q),
        end: p.max(q).saturating_add(1).min(len),
    }
}

/// Where a cell of the display lies.
pub fn region_under(desk: &Desk, x: u8, y: u8) -> Region
    requires column { x < COLUMNS }
    requires row { y < ROWS }
    ensures region { result ≡ region_at (kept_desktop desk.now) x y }
    ensures stands { IsRegionOf (kept_desktop desk.now) y result }
{
    match desk.tracks.at(x, y) {
        None => Region::Filler,
        Some(viewer) => {
            let place = desk.tracks.place_of(viewer);
            part_of(viewer.0, place, x, y)
        }
    }
}

/// The row of a viewer's main frame at row `y` of the display, counted from the frame's top.
pub fn frame_row(desk: &Desk, id: u16, y: u8) -> u8
    requires placed { IsOnTop id (kept_desktop desk.now).columns }
    ensures { result ≡ frame_row (kept_desktop desk.now) id y }
{
    let place = desk.tracks.place_of(ViewerId(id));
    place.top.saturating_sub(2).saturating_sub(y)
}

/// How many columns of text cells a viewer has.
pub fn text_width(desk: &Desk, id: u16) -> u8
    requires placed { IsOnTop id (kept_desktop desk.now).columns }
    ensures width { result + 1 ≡ width (kept_desktop desk.now) id }
    ensures some { 0 < result }
    ensures fits { result < 50 }
{
    let place = desk.tracks.place_of(ViewerId(id));
    width(place.x) - 1
}

/// The nearest column of a viewer's text cells to a column of the display.
fn text_column(desk: &Desk, id: u16, x: u8) -> u8
    requires placed { IsOnTop id (kept_desktop desk.now).columns }
    ensures { result ≡ text_column (kept_desktop desk.now) id x }
{
    let left = desk.tracks.place_of(ViewerId(id)).x;
    let width = text_width(desk, id);
    x.min(left + width).max(left + 1) - (left + 1)
}

/// The nearest column of a viewer's menu to a column of the display.
fn menu_column(desk: &Desk, id: u16, x: u8) -> u8
    requires placed { IsOnTop id (kept_desktop desk.now).columns }
    ensures { result ≡ menu_column (kept_desktop desk.now) id x }
{
    let left = desk.tracks.place_of(ViewerId(id)).x;
    let width = text_width(desk, id);
    x.min(left + width).max(left) - left
}

/// The nearest row of a viewer's main frame to a row of the display.
fn text_row(desk: &Desk, id: u16, y: u8) -> u8
    requires placed { IsOnTop id (kept_desktop desk.now).columns }
    requires some { 0 < rows_of (kept_desktop desk.now) id }
    ensures row { result ≡ text_row (kept_desktop desk.now) id y }
    ensures within { result < rows_of (kept_desktop desk.now) id }
{
    let place = desk.tracks.place_of(ViewerId(id));
    frame_row(desk, id, y.min(place.top - 2).max(place.bottom))
}

/// The position in a viewer's main text at column `x` and a row of its main frame.
pub fn position_in<S: CharSource>(desk: &Desk, id: u16, x: u8, row: u8, source: &mut S) -> Read<u32>
    requires at { IsMainRow (S.characters source.old) (kept_desktop desk.now) id row }
    ensures told { TellsValue S.CharSource result (λ d. position_in d id x row) source.old
        source.new (kept_desktop desk.now) }
    ensures from { IfOk result (λ p. (viewer_or_none (kept_desktop desk.now).viewers id).org ≤ p) }
    ensures within { IfOk result (IsPosition (kept_desktop desk.now) id) }
{
    let frame = desk.main_frame(id);
    let text = desk.main_text(id);
    let pos = frame.pos_at(text, x, row, source)?;
    Ok(pos)
}

/// The position in a viewer's main text that is shown nearest to a cell.
pub fn text_position<S: CharSource>(desk: &Desk, id: u16, x: u8, y: u8, source: &mut S) -> Read<u32>
    requires at { IsMainRow (S.characters source.old) (kept_desktop desk.now) id 0 }
    ensures told { TellsValue S.CharSource result (λ d. text_position d id x y) source.old
        source.new (kept_desktop desk.now) }
    ensures within { IfOk result (IsPosition (kept_desktop desk.now) id) }
{
    let column = text_column(desk, id, x);
    let row = text_row(desk, id, y);
    position_in(desk, id, column, row, source)
}

/// The position in a viewer's menu that is shown nearest to a column.
pub fn menu_position<S: CharSource>(desk: &Desk, id: u16, x: u8, source: &mut S) -> Read<u32>
    requires placed { IsOnTop id (kept_desktop desk.now).columns }
    requires over { IsOver (S.characters source.old) (kept_desktop desk.now) }
    ensures told { TellsValue S.CharSource result (λ d. menu_position d id x) source.old source.new
        (kept_desktop desk.now) }
    ensures within { IfOk result
        (λ p. p ≤ length (flat (text_called (kept_desktop desk.now) id true))) }
{
    let viewer = viewer_or_none(&desk.viewers, id);
    let frame = Frame {
        text: viewer.menu,
        org: 0,
        caret: None,
        selection: None,
    };
    let menu = desk.text_called(id, true);
    let column = menu_column(desk, id, x);
    frame.pos_at(menu, column, 0, source)
}

/// The stretch of a viewer's main text that was drawn between two cells, each as column and row.
pub fn stretch_drawn<S: CharSource>(
    desk: &Desk,
    id: u16,
    from: (u8, u8),
    to: (u8, u8),
    source: &mut S,
) -> Read<Selection>
    requires at { IsMainRow (S.characters source.old) (kept_desktop desk.now) id 0 }
    ensures told { TellsValue S.CharSource result (λ d. stretch_drawn d id from.0 from.1 to.0 to.1)
        source.old source.new
        (kept_desktop desk.now) }
    ensures viewer { IfOk result (λ s. s.viewer ≡ id) }
    ensures within { IfOk result (λ s. IsPosition (kept_desktop desk.now) s.viewer s.end) }
{
    let first = text_position(desk, id, from.0, from.1, source)?;
    let last = text_position(desk, id, to.0, to.1, source)?;
    let len = desk.main_text(id).len();
    Ok(stretch(id, first, last, len))
}
