//! The events that do what is wished of the caret.
ghost use Rattle.std.specs.Prelude.{◌≡◌, ◌+◌, ◌-◌, ◌<◌, ◌≤◌, ◌==◌, ◌++◌, ◌∷◌, [], length, if◌then◌else◌, IfOk, IfSome};
ghost use Rattle.std.specs.Prelude.{option_map, unwrap_or, Ok, Err, Some, None};
ghost use Rattle.std.specs.Result.{result_map_both};
ghost use Rattle.desktop_definitions.specs.Viewers.{rows_of};
ghost use Rattle.desk_core.specs.Words.{FailsAs, OnlyReads, IsOnTop, IsOver, IsPosition, kept_desktop, seen, IsStop};
ghost use Rattle.desk_core.specs.Words.{TellsValue, viewer_or_none};
ghost use Rattle.desk_input.specs.Lines.{lines_in_sight};
ghost use Rattle.caret_moves.specs.Leading.{text_width, text_click, step_goal_in, org_in, has_column, click_for, org_presses};
ghost use Rattle.caret_moves.specs.Leading.{events_to, led_from, DoesWish, display_cell, character_cell, marker_cell};
ghost use Rattle.caret_moves.specs.Calling.{marked_call, middle_press};
ghost use Rattle.caret_moves.specs.declared.wish.KeyWish.TheVariants as KeyWish;

use crate::calling::{line_word, mark_cell, word_cell};
use crate::filling::{lead_break, lead_place, lead_reach};
use crate::selecting::{
    cell_from, lead_cut_line, lead_cut_selected, lead_select, lead_select_all, lead_select_on,
};
use crate::steps::{column_below, column_cut, org_for, step_goal};
use crate::wish::{CaretCommand, KeyWish, Step, WhyNot};
use char_file::{CharSource, Fault};
use desk_core::desk::Desk;
use desk_core::stop::{NoMemory, Stop};
use desk_input::places::{Read, frame_row, text_width};
use desk_input::{line_presses, lines_in_sight};
use desktop_definitions::Caret;
use event_bytes::{Event, Key, Keys};
use std::vec::Vec;
use viewer_tracks::ViewerId;

/// The events for a wish, or why there are none.
pub(crate) type Led = Result<Vec<Event>, WhyNot>;

/// A left click at a column and a row of a viewer's text.
#[tactic(auto, unfolding(crate::specs::Leading::text_click))]
fn text_click(desk: &Desk, id: u16, column: u8, row: u8) -> Event
    requires placed { IsOnTop id (kept_desktop desk.now).columns }
    requires inside { column < text_width (kept_desktop desk.now) id }
    ensures { result ≡ text_click (kept_desktop desk.now) id column row }
{
    let x = desk.tracks.place_of(ViewerId(id)).x + 1 + column;
    let y = frame_row(desk, id, row);
    Event::Point {
        keys: Keys::Left,
        x0: x,
        y0: y,
        x1: x,
        y1: y,
    }
}

/// The position to which a step leads in a viewer's main text.
pub(crate) fn step_goal_in<S: CharSource>(
    desk: &Desk,
    id: u16,
    pos: u32,
    step: Step,
    source: &mut S,
) -> Read<u32>
    requires over { IsOver (S.characters source.old) (kept_desktop desk.now) }
    requires at { IsPosition (kept_desktop desk.now) id pos }
    ensures told { TellsValue S.CharSource result (λ d. step_goal_in d id pos step) source.old
        source.new (kept_desktop desk.now) }
    ensures within { IfOk result (IsPosition (kept_desktop desk.now) id) }
{
    let h = desk.rows_of(id);
    let w = text_width(desk, id);
    let text = desk.main_text(id);
    let place = step_goal(text, w, h, pos, step, source)?;
    Ok(place)
}

/// Where a viewer is to show its text from, so that the line of a position is in sight.
pub(crate) fn org_in<S: CharSource>(desk: &Desk, id: u16, pos: u32, source: &mut S) -> Read<u32>
    requires over { IsOver (S.characters source.old) (kept_desktop desk.now) }
    requires at { IsPosition (kept_desktop desk.now) id pos }
    ensures told { TellsValue S.CharSource result (λ d. org_in d id pos) source.old source.new
        (kept_desktop desk.now) }
    ensures from { IfOk result (λ org. org ≤ pos) }
{
    let h = desk.rows_of(id);
    let frame = desk.main_frame(id);
    let text = desk.main_text(id);
    let org = org_for(text, h, frame.org, pos, source)?;
    Ok(org)
}

/// Whether a position has a column once its line is in sight.
pub(crate) fn has_column<S: CharSource>(
    desk: &Desk,
    id: u16,
    pos: u32,
    source: &mut S,
) -> Read<bool>
    requires over { IsOver (S.characters source.old) (kept_desktop desk.now) }
    requires at { IsPosition (kept_desktop desk.now) id pos }
    ensures { TellsValue S.CharSource result (λ d. has_column d id pos) source.old source.new
        (kept_desktop desk.now) }
{
    let w = text_width(desk, id);
    let text = desk.main_text(id);
    let org = org_in(desk, id, pos, source)?;
    let column = column_below(text, w, org, pos, source)?;
    Ok(column.is_some())
}

/// The row of `h` in which a line is in sight, so many lines below the first one.
fn row_told(lines: Option<u32>, h: u8) -> u8
    requires { IfSome lines (λ lines. lines < h) }
    ensures { result ≡ unwrap_or lines 0 }
{
    match lines {
        None => 0,
        Some(lines) => lines as u8,
    }
}

/// The click at the cell of a position, where the viewer shows its text from `org` on.
fn click_for<S: CharSource>(desk: &Desk, id: u16, org: u32, pos: u32, source: &mut S) -> Read<Event>
    requires over { IsOver (S.characters source.old) (kept_desktop desk.now) }
    requires at { IsPosition (kept_desktop desk.now) id pos }
    requires from { org ≤ pos }
    ensures { TellsValue S.CharSource result (λ d. click_for d id org pos) source.old source.new
        (kept_desktop desk.now) }
{
    let h = desk.rows_of(id);
    let w = text_width(desk, id);
    let text = desk.main_text(id);
    let column = column_cut(text, w, org, pos, source)?;
    let lines = lines_in_sight(text, h, org, pos, source)?;
    Ok(text_click(desk, id, column, row_told(lines, h)))
}

/// The presses after which a viewer shows its text from `org` on. None where none lead there.
fn org_presses<S: CharSource>(
    desk: &Desk,
    id: u16,
    org: u32,
    source: &mut S,
) -> Result<Option<Vec<Event>>, Stop>
    requires over { IsOver (S.characters source.old) (kept_desktop desk.now) }
    requires at { IsPosition (kept_desktop desk.now) id org }
    ensures told { IfOk result (λ presses. S.honest source.old
        → option_map (λ events. events.items) presses
        ≡ org_presses (seen (S.characters source.old) (kept_desktop desk.now)) id org) }
    ensures reads { OnlyReads S.characters S.failures S.honest S.same_ground source.old
        source.new }
    ensures faults { FailsAs Stop.Fault IsStop result (S.failures source.old)
        (S.failures source.new) }
{
    let frame = desk.main_frame(id);
    if org == frame.org {
        return Ok(Some(Vec::new(desk.alloc)));
    }
    line_presses(desk, id, org, source)
}

/// Events with one more. NoMemory where an allocation is refused.
pub(crate) fn with_event(events: Vec<Event>, last: Event) -> Result<Vec<Event>, NoMemory>
    ensures { IfOk result (λ all. all.items ≡ events.items ++ last ∷ []) }
{
    let mut events = events;
    events.push(last)?;
    Ok(events)
}

/// The events after which the caret stands where it can stand for a position of its viewer's text, with its line in sight.
/// None where no presses lead there.
pub(crate) fn events_to<S: CharSource>(
    desk: &Desk,
    id: u16,
    pos: u32,
    source: &mut S,
) -> Result<Option<Vec<Event>>, Stop>
    requires over { IsOver (S.characters source.old) (kept_desktop desk.now) }
    requires at { IsPosition (kept_desktop desk.now) id pos }
    ensures told { IfOk result (λ events. S.honest source.old
        → option_map (λ events. events.items) events
        ≡ events_to (seen (S.characters source.old) (kept_desktop desk.now)) id pos) }
    ensures reads { OnlyReads S.characters S.failures S.honest S.same_ground source.old
        source.new }
    ensures faults { FailsAs Stop.Fault IsStop result (S.failures source.old)
        (S.failures source.new) }
{
    let org = org_in(desk, id, pos, source)?;
    let click = click_for(desk, id, org, pos, source)?;
    let found = org_presses(desk, id, org, source)?;
    let Some(presses) = found else {
        return Ok(None);
    };
    let events = with_event(presses, click)?;
    Ok(Some(events))
}

/// The events for a step of the caret.
fn lead_step<S: CharSource>(
    desk: &Desk,
    caret: Caret,
    step: Step,
    source: &mut S,
) -> Result<Led, Stop>
    requires over { IsOver (S.characters source.old) (kept_desktop desk.now) }
    requires at { IsPosition (kept_desktop desk.now) caret.viewer caret.position }
    ensures told { IfOk result (λ told. S.honest source.old
        → result_map_both (λ events. events.items) (λ why. why) told
        ≡ led_from (seen (S.characters source.old) (kept_desktop desk.now)) caret.viewer
        caret.position (KeyWish.Step step)) }
    ensures reads { OnlyReads S.characters S.failures S.honest S.same_ground source.old
        source.new }
    ensures faults { FailsAs Stop.Fault IsStop result (S.failures source.old)
        (S.failures source.new) }
{
    let pos = step_goal_in(desk, caret.viewer, caret.position, step, source)?;
    let events = events_to(desk, caret.viewer, pos, source)?;
    Ok(events.ok_or(WhyNot::TooFar))
}

/// The events that delete the character behind the caret.
fn lead_delete<S: CharSource>(desk: &Desk, caret: Caret, source: &mut S) -> Result<Led, Stop>
    requires over { IsOver (S.characters source.old) (kept_desktop desk.now) }
    requires at { IsPosition (kept_desktop desk.now) caret.viewer caret.position }
    ensures told { IfOk result (λ told. S.honest source.old
        → result_map_both (λ events. events.items) (λ why. why) told
        ≡ led_from (seen (S.characters source.old) (kept_desktop desk.now)) caret.viewer
        caret.position KeyWish.DeleteNext) }
    ensures reads { OnlyReads S.characters S.failures S.honest S.same_ground source.old
        source.new }
    ensures faults { FailsAs Stop.Fault IsStop result (S.failures source.old)
        (S.failures source.new) }
{
    if caret.position >= desk.main_text(caret.viewer).len() {
        return Ok(Err(WhyNot::NothingBehind));
    }
    let next = caret.position + 1;
    let has_column = has_column(desk, caret.viewer, next, source)?;
    if !has_column {
        return Ok(Err(WhyNot::PastEdge));
    }
    let found = events_to(desk, caret.viewer, next, source)?;
    let Some(events) = found else {
        return Ok(Err(WhyNot::TooFar));
    };
    let all = with_event(events, Event::Key(Key::Back))?;
    Ok(Ok(all))
}

/// One event, as the events for a wish. NoMemory where an allocation is refused.
pub(crate) fn one_event(desk: &Desk, event: Event) -> Result<Vec<Event>, NoMemory>
    ensures { IfOk result (λ all. all.items ≡ event ∷ []) }
{
    with_event(Vec::new(desk.alloc), event)
}

/// The middle button is pressed at a cell.
fn middle_press(cell: (u8, u8)) -> Event
    ensures { result ≡ middle_press cell }
{
    let (x, y) = cell;
    Event::Point {
        keys: Keys::Middle,
        x0: x,
        y0: y,
        x1: x,
        y1: y,
    }
}

/// The events that call a command on a viewer by a word of another text, after the marker is set in the viewer.
fn marked_call(desk: &Desk, id: u16, cell: (u8, u8)) -> Result<Vec<Event>, NoMemory>
    requires placed { IsOnTop id (kept_desktop desk.now).columns }
    ensures { IfOk result (λ events. events.items ≡ marked_call (kept_desktop desk.now) id cell) }
{
    let (x, y) = mark_cell(desk, id);
    let marked = one_event(desk, Event::Mark { x, y })?;
    with_event(marked, middle_press(cell))
}

/// The events that call a command on a viewer.
fn lead_call<S: CharSource>(
    desk: &Desk,
    caret: Caret,
    command: CaretCommand,
    source: &mut S,
) -> Result<Led, Stop>
    requires over { IsOver (S.characters source.old) (kept_desktop desk.now) }
    requires at { IsPosition (kept_desktop desk.now) caret.viewer caret.position }
    ensures told { IfOk result (λ told. S.honest source.old
        → result_map_both (λ events. events.items) (λ why. why) told
        ≡ led_from (seen (S.characters source.old) (kept_desktop desk.now)) caret.viewer
        caret.position (KeyWish.Call command)) }
    ensures reads { OnlyReads S.characters S.failures S.honest S.same_ground source.old
        source.new }
    ensures faults { FailsAs Stop.Fault IsStop result (S.failures source.old)
        (S.failures source.new) }
{
    let in_menu = word_cell(desk, command, Some(caret.viewer), source)?;
    if let Some(cell) = in_menu {
        let events = one_event(desk, middle_press(cell))?;
        return Ok(Ok(events));
    }
    let in_text = word_cell(desk, command, None, source)?;
    let Some(cell) = in_text else {
        return Ok(Err(WhyNot::NoWord));
    };
    let events = marked_call(desk, caret.viewer, cell)?;
    Ok(Ok(events))
}

/// A cell of the display, by the column and the row of a viewer's text.
#[tactic(auto, unfolding(crate::specs::Leading::display_cell))]
pub(crate) fn display_cell(desk: &Desk, id: u16, cell: Option<(u8, u8)>) -> Option<(u8, u8)>
    requires placed { IsOnTop id (kept_desktop desk.now).columns }
    requires inside { IfSome cell (λ c. c.0 < text_width (kept_desktop desk.now) id) }
    ensures { result ≡ option_map (display_cell (kept_desktop desk.now) id) cell }
{
    match cell {
        None => None,
        Some((column, row)) => {
            let left = desk.tracks.place_of(ViewerId(id)).x;
            Some((left + 1 + column, frame_row(desk, id, row)))
        }
    }
}

/// The cell of the display at which a viewer shows the character at a position. None where it shows it nowhere.
fn character_cell<S: CharSource>(
    desk: &Desk,
    id: u16,
    pos: u32,
    source: &mut S,
) -> Read<Option<(u8, u8)>>
    requires over { IsOver (S.characters source.old) (kept_desktop desk.now) }
    requires at { IsPosition (kept_desktop desk.now) id pos }
    ensures { TellsValue S.CharSource result (λ d. character_cell d id pos) source.old source.new
        (kept_desktop desk.now) }
{
    let frame = desk.main_frame(id);
    cell_from(desk, id, frame.org, pos, source)
}

/// The events that call the command of the caret's line.
fn lead_line<S: CharSource>(desk: &Desk, caret: Caret, source: &mut S) -> Result<Led, Stop>
    requires over { IsOver (S.characters source.old) (kept_desktop desk.now) }
    requires at { IsPosition (kept_desktop desk.now) caret.viewer caret.position }
    ensures told { IfOk result (λ told. S.honest source.old
        → result_map_both (λ events. events.items) (λ why. why) told
        ≡ led_from (seen (S.characters source.old) (kept_desktop desk.now)) caret.viewer
        caret.position KeyWish.CallLine) }
    ensures reads { OnlyReads S.characters S.failures S.honest S.same_ground source.old
        source.new }
    ensures faults { FailsAs Stop.Fault IsStop result (S.failures source.old)
        (S.failures source.new) }
{
    let w = text_width(desk, caret.viewer);
    let text = desk.main_text(caret.viewer);
    let word = line_word(text, w, caret.position, source)?;
    let Some(pos) = word else {
        return Ok(Err(WhyNot::NoWord));
    };
    let found = character_cell(desk, caret.viewer, pos, source)?;
    let Some(cell) = found else {
        return Ok(Err(WhyNot::NotInSight));
    };
    let events = one_event(desk, middle_press(cell))?;
    Ok(Ok(events))
}

/// The cell of a position, and where that isn't in sight the middle of its viewer.
fn marker_cell<S: CharSource>(desk: &Desk, id: u16, pos: u32, source: &mut S) -> Read<(u8, u8)>
    requires over { IsOver (S.characters source.old) (kept_desktop desk.now) }
    requires at { IsPosition (kept_desktop desk.now) id pos }
    ensures { TellsValue S.CharSource result (λ d. marker_cell d id pos) source.old source.new
        (kept_desktop desk.now) }
{
    let cell = character_cell(desk, id, pos, source)?;
    Ok(cell.unwrap_or(mark_cell(desk, id)))
}

/// The event that sets the marker to the caret.
fn lead_mark<S: CharSource>(desk: &Desk, caret: Caret, source: &mut S) -> Result<Led, Stop>
    requires over { IsOver (S.characters source.old) (kept_desktop desk.now) }
    requires at { IsPosition (kept_desktop desk.now) caret.viewer caret.position }
    ensures told { IfOk result (λ told. S.honest source.old
        → result_map_both (λ events. events.items) (λ why. why) told
        ≡ led_from (seen (S.characters source.old) (kept_desktop desk.now)) caret.viewer
        caret.position KeyWish.Mark) }
    ensures reads { OnlyReads S.characters S.failures S.honest S.same_ground source.old
        source.new }
    ensures faults { FailsAs Stop.Fault IsStop result (S.failures source.old)
        (S.failures source.new) }
{
    let (x, y) = marker_cell(desk, caret.viewer, caret.position, source)?;
    let events = one_event(desk, Event::Mark { x, y })?;
    Ok(Ok(events))
}

/// The events that do what is wished of the caret, which stands in a viewer with a row of text.
#[tactic(auto, unfolding(crate::specs::Leading::led_from))]
fn lead_from<S: CharSource>(
    desk: &Desk,
    caret: Caret,
    wish: KeyWish,
    source: &mut S,
) -> Result<Led, Stop>
    requires over { IsOver (S.characters source.old) (kept_desktop desk.now) }
    requires at { IsPosition (kept_desktop desk.now) caret.viewer caret.position }
    ensures told { IfOk result (λ told. S.honest source.old
        → result_map_both (λ events. events.items) (λ why. why) told
        ≡ led_from (seen (S.characters source.old) (kept_desktop desk.now)) caret.viewer
        caret.position wish) }
    ensures reads { OnlyReads S.characters S.failures S.honest S.same_ground source.old
        source.new }
    ensures faults { FailsAs Stop.Fault IsStop result (S.failures source.old)
        (S.failures source.new) }
{
    match wish {
        KeyWish::Step(step) => lead_step(desk, caret, step, source),
        KeyWish::DeleteNext => lead_delete(desk, caret, source),
        KeyWish::Call(command) => lead_call(desk, caret, command, source),
        KeyWish::CallLine => lead_line(desk, caret, source),
        KeyWish::Mark => lead_mark(desk, caret, source),
        KeyWish::Select(step) => lead_select(desk, caret, step, source),
        KeyWish::SelectOn(step) => lead_select_on(desk, caret, step, source),
        KeyWish::SelectAll => lead_select_all(desk, caret, source),
        KeyWish::CutSelected => lead_cut_selected(desk, caret, source),
        KeyWish::CutLine => lead_cut_line(desk, caret, source),
        KeyWish::Break(count) => lead_break(desk, caret, count, source),
        KeyWish::Place(place) => lead_place(desk, caret, place, source),
        KeyWish::Reach(place) => lead_reach(desk, caret, place, source),
    }
}

/// The events after which what is wished of the caret is done, and nothing else is changed; or why there are none. Done in
/// their order, none is refused; of a command that is called the last one comes to what the command does, and where a line
/// is broken to what typing an end of line does there. What `Step` and
/// `KeyWish` say is where the caret comes to stand; where that has no cell, since it stands right of the last column that
/// the viewer shows, it comes to stand in that column of the line.
///
/// NoMemory where an allocation is refused; Fault where a character could not be read.
pub fn lead<S: CharSource>(desk: &Desk, wish: KeyWish, source: &mut S) -> Result<Led, Stop>
    requires { IsOver (S.characters source.old) (kept_desktop desk.now) }
    ensures leads { IfOk result (λ told. S.honest source.old
        → DoesWish (seen (S.characters source.old) (kept_desktop desk.now)) wish
        (result_map_both (λ events. events.items) (λ why. why) told)) }
    ensures reads { OnlyReads S.characters S.failures S.honest S.same_ground source.old
        source.new }
    ensures faults { FailsAs Stop.Fault IsStop result (S.failures source.old)
        (S.failures source.new) }
{
    let Some(caret) = desk.caret_place() else {
        return Ok(Err(WhyNot::NoCaret));
    };
    if desk.rows_of(caret.viewer) == 0 {
        return Ok(Err(WhyNot::NoRow));
    }
    lead_from(desk, caret, wish, source)
}
