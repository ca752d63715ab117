//! The presses that lead a viewer to a line.
ghost use Rattle.std.specs.Prelude.{◌≡◌, ◌++◌, ◌%◌, ◌<◌, replicate, Some, OnOk, IfOk, option_map};
ghost use Rattle.desktop_definitions.specs.Viewers.{rows_of};
ghost use Rattle.desk_core.specs.Words.{FailsAs, OnlyReads, IsOnTop, IsOver, IsPosition, kept_desktop, seen, IsStop};
ghost use Rattle.desk_core.specs.Words.{TellsValue};
ghost use Rattle.event_bytes.specs.declared.keys.Keys.TheVariants.{Left};
ghost use Rattle.desk_input.specs.Scrolling.{viewer_meant, bar_press, share_presses, rest_presses, way_presses};
ghost use Rattle.desk_input.specs.Scrolling.{wished_in, way_in, is_passable, line_presses, presses_in, Scrolls};

use crate::lines::{way_to, wished};
use crate::places::frame_row;
use crate::way::Way;
use crate::wish::Wish;
use char_file::{CharSource, Fault};
use desk_core::desk::Desk;
use desk_core::marks::are_on_display;
use desk_core::stop::{NoMemory, Stop};
use desktop_definitions::Caret;
use event_bytes::{Event, Keys};
use std::vec::Vec;
use viewer_tracks::ViewerId;

/// How many presses of the left button lead to a line at most that go down a page.
pub const MOST_PRESSES: u32 = 100;

/// The id of a viewer.
fn id_of(viewer: Option<ViewerId>) -> Option<u16>
    ensures { result ≡ option_map (λ v. v.0) viewer }
{
    match viewer {
        None => None,
        Some(viewer) => Some(viewer.0),
    }
}

/// The viewer in which the caret stands.
fn viewer_with(caret: Option<Caret>) -> Option<u16>
    ensures { result ≡ option_map (λ c. c.viewer) caret }
{
    match caret {
        None => None,
        Some(caret) => Some(caret.viewer),
    }
}

/// The viewer that is seen at a cell of the display, as column and row. None outside of it, and in a filler.
fn viewer_at(desk: &Desk, x: u8, y: u8) -> Option<u16>
    ensures { result ≡ viewer_meant (kept_desktop desk.now) (Some (x, y)) }
{
    if !are_on_display((x, y), (x, y)) {
        return None;
    }
    id_of(desk.tracks.at(x, y))
}

/// The viewer that is seen at a cell, or the one with the caret where no cell is meant.
#[tactic(auto, unfolding(crate::specs::Scrolling::viewer_meant))]
fn viewer_meant(desk: &Desk, at: Option<(u8, u8)>) -> Option<u16>
    ensures { result ≡ viewer_meant (kept_desktop desk.now) at }
{
    match at {
        None => viewer_with(desk.caret),
        Some((x, y)) => viewer_at(desk, x, y),
    }
}

/// Buttons are pressed in a viewer's scroll bar, at a row of its frame.
#[tactic(auto, unfolding(crate::specs::Scrolling::bar_press))]
fn bar_press(desk: &Desk, id: u16, keys: Keys, row: u8) -> Event
    requires { IsOnTop id (kept_desktop desk.now).columns }
    ensures { result ≡ bar_press (kept_desktop desk.now) id keys row }
{
    let x = desk.tracks.place_of(ViewerId(id)).x;
    let y = frame_row(desk, id, row);
    Event::Point {
        keys,
        x0: x,
        y0: y,
        x1: x,
        y1: y,
    }
}

/// Adds a press of the middle button, where it is in the way. NoMemory where an allocation is refused.
fn press_share(
    desk: &Desk,
    id: u16,
    share: Option<u8>,
    events: &mut Vec<Event>,
) -> Result<(), NoMemory>
    requires { IsOnTop id (kept_desktop desk.now).columns }
    ensures { OnOk result (events.new.items
        ≡ events.old.items ++ share_presses (kept_desktop desk.now) id share) }
{
    match share {
        None => Ok(()),
        Some(row) => {
            events.push(bar_press(desk, id, Keys::Middle, row))?;
            Ok(())
        }
    }
}

/// Adds so many presses of the left button at that row. NoMemory where an allocation is refused.
fn press_pages(
    desk: &Desk,
    id: u16,
    row: u8,
    pages: u32,
    events: &mut Vec<Event>,
) -> Result<(), NoMemory>
    requires { IsOnTop id (kept_desktop desk.now).columns }
    ensures { OnOk result (events.new.items
        ≡ events.old.items ++ replicate pages (bar_press (kept_desktop desk.now) id Left row)) }
{
    for page in 0..pages {
        events.push(bar_press(desk, id, Keys::Left, row))?;
    }
    Ok(())
}

/// Adds a press of the left button for the lines that are left, where there are any. NoMemory where an allocation is
/// refused.
fn press_rest(desk: &Desk, id: u16, rest: u8, events: &mut Vec<Event>) -> Result<(), NoMemory>
    requires { IsOnTop id (kept_desktop desk.now).columns }
    ensures { OnOk result (events.new.items
        ≡ events.old.items ++ rest_presses (kept_desktop desk.now) id rest) }
{
    if rest == 0 {
        return Ok(());
    }
    events.push(bar_press(desk, id, Keys::Left, rest))?;
    Ok(())
}

/// How many lines are left of some that are gone down by pages.
fn lines_left(lines: u32, page: u8) -> u8
    requires { 0 < page }
    ensures { result ≡ lines % page }
{
    (lines % page as u32) as u8
}

/// The presses that go a way. NoMemory where an allocation is refused.
fn way_presses(desk: &Desk, id: u16, way: Way) -> Result<Vec<Event>, NoMemory>
    requires placed { IsOnTop id (kept_desktop desk.now).columns }
    requires rows { 1 < rows_of (kept_desktop desk.now) id }
    ensures { IfOk result (λ events. events.items ≡ way_presses (kept_desktop desk.now) id way) }
{
    let page = desk.rows_of(id) - 1;
    let pages = way.lines / page as u32;
    let rest = lines_left(way.lines, page);
    let mut events = Vec::new(desk.alloc);
    press_share(desk, id, way.share, &mut events)?;
    press_pages(desk, id, page, pages, &mut events)?;
    press_rest(desk, id, rest, &mut events)?;
    Ok(events)
}

/// Where the line starts that is wished of a viewer. `Fault`: the source failed in this call.
fn wished_in<S: CharSource>(desk: &Desk, id: u16, wish: Wish, source: &mut S) -> Result<u32, Fault>
    requires over { IsOver (S.characters source.old) (kept_desktop desk.now) }
    requires placed { IsOnTop id (kept_desktop desk.now).columns }
    ensures told { TellsValue S.CharSource result (λ d. wished_in d id wish) source.old source.new
        (kept_desktop desk.now) }
    ensures within { IfOk result (IsPosition (kept_desktop desk.now) id) }
{
    let h = desk.rows_of(id);
    let frame = desk.main_frame(id);
    let text = desk.main_text(id);
    let target = wished(text, h, frame.org, wish, source)?;
    Ok(target)
}

/// The way of a viewer to the line that starts at the target. `Fault`: the source failed in this call.
fn way_in<S: CharSource>(desk: &Desk, id: u16, target: u32, source: &mut S) -> Result<Way, Fault>
    requires over { IsOver (S.characters source.old) (kept_desktop desk.now) }
    requires at { IsPosition (kept_desktop desk.now) id target }
    ensures { TellsValue S.CharSource result (λ d. way_in d id target) source.old source.new
        (kept_desktop desk.now) }
{
    let h = desk.rows_of(id);
    let frame = desk.main_frame(id);
    let text = desk.main_text(id);
    let way = way_to(text, h, frame.org, target, source)?;
    Ok(way)
}

/// Whether a viewer of so many rows can go a way: it has two rows, and it isn't too far.
fn is_passable(rows: u8, way: Way) -> bool
    ensures { result ≡ is_passable rows way }
{
    rows > 1 && way.lines / (rows - 1) as u32 <= MOST_PRESSES
}

/// The presses in a viewer's scroll bar after which it shows the line first that starts at the target. None where it
/// shows fewer than two rows of its text, or where it would take more than `MOST_PRESSES` presses that go down a page.
/// NoMemory where an allocation is refused; Fault where a character could not be read.
pub fn line_presses<S: CharSource>(
    desk: &Desk,
    id: u16,
    target: u32,
    source: &mut S,
) -> Result<Option<Vec<Event>>, Stop>
    requires over { IsOver (S.characters source.old) (kept_desktop desk.now) }
    requires at { IsPosition (kept_desktop desk.now) id target }
    ensures told { IfOk result (λ presses. S.honest source.old
        → option_map (λ events. events.items) presses
        ≡ line_presses (seen (S.characters source.old) (kept_desktop desk.now)) id target) }
    ensures reads { OnlyReads S.characters S.failures S.honest S.same_ground source.old
        source.new }
    ensures faults { FailsAs Stop.Fault IsStop result (S.failures source.old)
        (S.failures source.new) }
{
    let rows = desk.rows_of(id);
    let way = way_in(desk, id, target, source)?;
    if is_passable(rows, way) {
        let events = way_presses(desk, id, way)?;
        return Ok(Some(events));
    }
    Ok(None)
}

/// The presses that lead to the line that is wished of a viewer. None where it can't go that way.
fn presses_in<S: CharSource>(
    desk: &Desk,
    id: u16,
    wish: Wish,
    source: &mut S,
) -> Result<Option<Vec<Event>>, Stop>
    requires over { IsOver (S.characters source.old) (kept_desktop desk.now) }
    requires placed { IsOnTop id (kept_desktop desk.now).columns }
    ensures told { IfOk result (λ presses. S.honest source.old
        → option_map (λ events. events.items) presses
        ≡ presses_in (seen (S.characters source.old) (kept_desktop desk.now)) wish (Some id)) }
    ensures reads { OnlyReads S.characters S.failures S.honest S.same_ground source.old
        source.new }
    ensures faults { FailsAs Stop.Fault IsStop result (S.failures source.old)
        (S.failures source.new) }
{
    let target = wished_in(desk, id, wish, source)?;
    line_presses(desk, id, target, source)
}

/// The presses after which the viewer at a cell, or the one with the caret where no cell is meant, shows the line first
/// that is wished, and nothing else is changed. A line that stands first needs none.
///
/// None where there is no such viewer, where it shows fewer than two rows of its text, or where it would take more than
/// `MOST_PRESSES` presses that go down a page. NoMemory where an allocation is refused; Fault where a character could
/// not be read.
pub fn presses_to<S: CharSource>(
    desk: &Desk,
    at: Option<(u8, u8)>,
    wish: Wish,
    source: &mut S,
) -> Result<Option<Vec<Event>>, Stop>
    requires { IsOver (S.characters source.old) (kept_desktop desk.now) }
    ensures scrolls { IfOk result (λ presses. S.honest source.old
        → Scrolls (seen (S.characters source.old) (kept_desktop desk.now)) at wish
        (option_map (λ events. events.items) presses)) }
    ensures reads { OnlyReads S.characters S.failures S.honest S.same_ground source.old
        source.new }
    ensures faults { FailsAs Stop.Fault IsStop result (S.failures source.old)
        (S.failures source.new) }
{
    let Some(id) = viewer_meant(desk, at) else {
        return Ok(None);
    };
    let presses = presses_in(desk, id, wish, source)?;
    Ok(presses)
}
