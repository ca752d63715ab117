//! What the mouse does, by the region in which its keys went down. A gesture that isn't in the table is done and
//! changes nothing.
ghost use Rattle.std.specs.Prelude.{◌≡◌, ◌<◌, true};
ghost use Rattle.event_bytes.specs.declared.event.Event.TheVariants.{Point};
ghost use Rattle.desktop_definitions.specs.declared.region.Region.TheVariants.{Filler, Menu, Bar, Body};
ghost use Rattle.desktop_definitions.specs.Gesture.{menu_position, text_position, stretch_drawn, pointed};
ghost use Rattle.desktop_definitions.specs.Gesture.{done_in_filler, done_in_menu, done_in_bar, done_at, done_with};
ghost use Rattle.desktop_definitions.specs.Commands.{after_call};
ghost use Rattle.desktop_definitions.specs.Unread.{gesture_needs_no_byte, gesture_brings};
ghost use Rattle.desk_core.specs.Words.{COLUMNS, ROWS, IsOnTop, IsOver, kept_desktop, Does, DoesUnread, DoesBringing};
ghost use Rattle.desk_commands.specs.Words.{version_number};
ghost use Rattle.desk_input.specs.Reads.{IsMainRow, IsMainPlace};
ghost use Rattle.event_loop.specs.Doing.{DoesEvent};
ghost use Rattle.event_loop.specs.Regions.{IsRegionBetween};

use char_file::CharSource;
use command_table::Version;
use desk_commands::calls::call;
use desk_commands::documents::open_tool;
use desk_core::desk::Desk;
use desk_core::stop::StepResult;
use desk_input::bars::{scroll_row, scroll_share, scroll_top};
use desk_input::places::{frame_row, menu_position, stretch_drawn, text_position};
use desk_input::stretches::{copy_to, send_to_caret, take_looks, take_out};
use desktop_definitions::{Region, Reply, Selection, codes};
use event_bytes::Keys;

/// The keys that were pressed, which went down at the cell `from`, as column and row, and up at `to`.
#[derive(Clone, Copy)]
pub struct Gesture {
    /// The keys.
    pub keys: Keys,
    /// The cell where they went down.
    pub from: (u8, u8),
    /// The cell where they went up.
    pub to: (u8, u8),
}

/// Does what a gesture means in the region where its keys went down. Refused without one: where one of its cells is
/// outside the display. The version is that of the table of commands, of which one may be called.
pub fn point<S: CharSource>(
    desk: &mut Desk,
    version: Version,
    gesture: Gesture,
    region: Option<Region>,
    source: &mut S,
) -> StepResult
    requires over { IsOver (S.characters source.old) (kept_desktop desk.old) }
    requires region { IsRegionBetween (kept_desktop desk.old) gesture.from gesture.to region }
    ensures { DoesEvent S.CharSource (version_number version)
        (Point gesture.keys gesture.from.0 gesture.from.1 gesture.to.0 gesture.to.1) result
        source.old source.new (kept_desktop desk.old) (kept_desktop desk.new) }
{
    let Gesture { keys, from, to } = gesture;
    let Some(region) = region else {
        return Ok(Reply::No(codes::OUTSIDE));
    };
    match region {
        Region::Filler => point_filler(desk, keys, from, source),
        Region::Menu(id) => point_menu(desk, version, keys, id, to, source),
        Region::Bar(id) => {
            let row = frame_row(desk, id, from.1);
            point_bar(desk, keys, id, row, source)
        }
        Region::Body(id) => point_text(desk, version, id, gesture, source),
    }
}

/// In a filler, at a cell.
#[tactic(auto, unfolding(desktop_definitions::specs::Gesture::done_in_filler, desktop_definitions::specs::Unread::gesture_brings))]
fn point_filler<S: CharSource>(
    desk: &mut Desk,
    keys: Keys,
    cell: (u8, u8),
    source: &mut S,
) -> StepResult
    requires over { IsOver (S.characters source.old) (kept_desktop desk.old) }
    requires cell { (cell.0 < COLUMNS) × (cell.1 < ROWS) }
    ensures { DoesBringing S.CharSource (gesture_brings Filler keys)
        (λ all d. done_in_filler d keys cell.0 cell.1) result
        source.old source.new (kept_desktop desk.old) (kept_desktop desk.new) }
{
    match keys {
        Keys::Middle => open_tool(desk, cell.0, cell.1, source),
        _ => Ok(Reply::Done),
    }
}

/// In the menu of a viewer; the keys went up at a cell.
#[tactic(auto, unfolding(desktop_definitions::specs::Gesture::done_in_menu, desktop_definitions::specs::Unread::gesture_needs_no_byte))]
fn point_menu<S: CharSource>(
    desk: &mut Desk,
    version: Version,
    keys: Keys,
    id: u16,
    cell: (u8, u8),
    source: &mut S,
) -> StepResult
    requires placed { IsOnTop id (kept_desktop desk.old).columns }
    requires over { IsOver (S.characters source.old) (kept_desktop desk.old) }
    requires cell { (cell.0 < COLUMNS) × (cell.1 < ROWS) }
    ensures { DoesUnread S.CharSource (gesture_needs_no_byte (kept_desktop desk.old) (Menu id) keys
        ≡ true)
        (λ d. done_in_menu (version_number version) d keys id cell.0 cell.1) result
        source.old source.new (kept_desktop desk.old) (kept_desktop desk.new) }
{
    match keys {
        Keys::Left => desk.resize(id, cell.1, source),
        Keys::LeftMiddle => desk.carry(id, cell.0, cell.1, source),
        Keys::Middle => call_in_menu(desk, version, id, cell.0, source),
        _ => Ok(Reply::Done),
    }
}

/// The word that a viewer's menu shows nearest to a column is called.
fn call_in_menu<S: CharSource>(
    desk: &mut Desk,
    version: Version,
    id: u16,
    x: u8,
    source: &mut S,
) -> StepResult
    requires placed { IsOnTop id (kept_desktop desk.old).columns }
    requires over { IsOver (S.characters source.old) (kept_desktop desk.old) }
    ensures { Does S.CharSource
        (λ d. after_call (version_number version) d id true (menu_position d id x)) result
        source.old source.new (kept_desktop desk.old) (kept_desktop desk.new) }
{
    let pos = menu_position(desk, id, x, source)?;
    call(desk, version, id, true, pos, source)
}

/// In the scroll bar of a viewer, at a row of its main frame.
#[tactic(auto, unfolding(desktop_definitions::specs::Gesture::done_in_bar, desktop_definitions::specs::Unread::gesture_needs_no_byte))]
fn point_bar<S: CharSource>(
    desk: &mut Desk,
    keys: Keys,
    id: u16,
    row: u8,
    source: &mut S,
) -> StepResult
    requires at { IsMainRow (S.characters source.old) (kept_desktop desk.old) id row }
    ensures { DoesUnread S.CharSource (gesture_needs_no_byte (kept_desktop desk.old) (Bar id) keys
        ≡ true)
        (λ d. done_in_bar d keys id row) result source.old source.new (kept_desktop desk.old)
        (kept_desktop desk.new) }
{
    match keys {
        Keys::Left => scroll_row(desk, id, row, source),
        Keys::Middle => scroll_share(desk, id, row, source),
        Keys::Right => scroll_top(desk, id, source),
        _ => Ok(Reply::Done),
    }
}

/// In the main text of a viewer: with the stretch that was drawn between both cells, or at the position that it shows
/// nearest to the cell where the keys went up.
#[tactic(auto, unfolding(desktop_definitions::specs::Unread::gesture_needs_no_byte))]
fn point_text<S: CharSource>(
    desk: &mut Desk,
    version: Version,
    id: u16,
    gesture: Gesture,
    source: &mut S,
) -> StepResult
    requires at { IsMainRow (S.characters source.old) (kept_desktop desk.old) id 0 }
    ensures { DoesUnread S.CharSource
        (gesture_needs_no_byte (kept_desktop desk.old) (Body id) gesture.keys ≡ true)
        (λ d. pointed (version_number version) d (Body id) gesture.keys gesture.from.0
        gesture.from.1 gesture.to.0 gesture.to.1)
        result source.old source.new (kept_desktop desk.old) (kept_desktop desk.new) }
{
    match gesture.keys {
        Keys::Right | Keys::RightLeft | Keys::RightMiddle => draw(desk, id, gesture, source),
        Keys::MiddleLeft => Ok(Reply::Done),
        Keys::MiddleRight => Ok(Reply::Done),
        keys => {
            let pos = text_position(desk, id, gesture.to.0, gesture.to.1, source)?;
            match keys {
                Keys::Left => desk.set_caret(id, pos, source),
                Keys::LeftMiddle => copy_to(desk, id, pos, source),
                Keys::LeftRight => take_looks(desk, id, pos, source),
                _ => call(desk, version, id, false, pos, source),
            }
        }
    }
}

/// With a stretch of a viewer's main text.
#[tactic(auto, unfolding(desktop_definitions::specs::Gesture::done_with))]
fn point_stretch<S: CharSource>(
    desk: &mut Desk,
    keys: Keys,
    drawn: Selection,
    source: &mut S,
) -> StepResult
    requires { IsMainPlace (S.characters source.old) (kept_desktop desk.old) drawn.viewer
        drawn.end }
    ensures { Does S.CharSource (λ d. done_with d keys drawn) result source.old source.new
        (kept_desktop desk.old) (kept_desktop desk.new) }
{
    match keys {
        Keys::Right => desk.select(drawn, source),
        Keys::RightLeft => take_out(desk, drawn, source),
        Keys::RightMiddle => send_to_caret(desk, drawn, source),
        _ => Ok(Reply::Done),
    }
}

/// With the stretch that was drawn between two cells of a viewer.
fn draw<S: CharSource>(desk: &mut Desk, id: u16, gesture: Gesture, source: &mut S) -> StepResult
    requires at { IsMainRow (S.characters source.old) (kept_desktop desk.old) id 0 }
    ensures { Does S.CharSource (λ d.
        done_with d gesture.keys
        (stretch_drawn d id gesture.from.0 gesture.from.1 gesture.to.0 gesture.to.1)) result
        source.old source.new (kept_desktop desk.old) (kept_desktop desk.new) }
{
    let drawn = stretch_drawn(desk, id, gesture.from, gesture.to, source)?;
    point_stretch(desk, gesture.keys, drawn, source)
}
