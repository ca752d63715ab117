//! The events that select a stretch of a text, or cut one.
ghost use Rattle.std.specs.Prelude.{◌≡◌, ◌<◌, ◌≤◌, IfOk, option_map};
ghost use Rattle.std.specs.Result.{result_map_both};
ghost use Rattle.desk_core.specs.Words.{FailsAs, OnlyReads, IsOver, IsPosition, IsKeptWhole, kept_desktop, seen, IsStop};
ghost use Rattle.desk_core.specs.Words.{TellsValue};
ghost use Rattle.caret_moves.specs.Stretches.{stretch_of, stop_by, up_to, other_end, anchor_by, line_around, drag_by};
ghost use Rattle.caret_moves.specs.Leading.{cell_from, drawn, draw_led, select_led, cut_led, led_from};
ghost use Rattle.caret_moves.specs.Leading.{stop_in, without_hidden_end, anchor_in, select_all_led, cut_all_led};
ghost use Rattle.caret_moves.specs.declared.wish.KeyWish.TheVariants as KeyWish;

use crate::leading::{
    Led, display_cell, events_to, has_column, one_event, org_in, step_goal_in, with_event,
};
use crate::steps::{end_of_line, frame_from};
use crate::wish::{Step, WhyNot};
use char_file::CharSource;
use desk_core::desk::Desk;
use desk_core::stop::Stop;
use desk_input::places::{Read, text_width};
use desktop_definitions::{Caret, Selection};
use event_bytes::{Event, Keys};
use text_frames::line_start;

/// The cell of the display at which a viewer shows the character at a position, where it shows its text from `org` on.
/// None where it shows it nowhere.
pub(crate) fn cell_from<S: CharSource>(
    desk: &Desk,
    id: u16,
    org: u32,
    pos: u32,
    source: &mut S,
) -> Read<Option<(u8, u8)>>
    requires over { IsOver (S.characters source.old) (kept_desktop desk.now) }
    requires at { IsPosition (kept_desktop desk.now) id pos }
    ensures { TellsValue S.CharSource result (λ d. cell_from d id org pos) source.old source.new
        (kept_desktop desk.now) }
{
    let h = desk.rows_of(id);
    let w = text_width(desk, id);
    let text = desk.main_text(id);
    let cell = frame_from(org).cell_of(text, w, h, pos, source)?;
    Ok(display_cell(desk, id, cell))
}

/// The stretch between two positions of a viewer's text.
fn stretch_of(id: u16, pos: u32, other: u32) -> Selection
    ensures { result ≡ stretch_of id pos other }
{
    Selection {
        viewer: id,
        beg: pos.min(other),
        end: pos.max(other),
    }
}

/// Where a stretch up to a position ends whose line begins at `start`: before the line end before it, where that isn't shown.
fn stop_by(pos: u32, start: u32, is_shown: bool) -> u32
    ensures { result ≡ stop_by pos start is_shown }
{
    if start != pos || is_shown {
        pos
    } else {
        pos.saturating_sub(1)
    }
}

/// Where a stretch up to a position ends: before a line end that has no column, since its line fills the row.
fn stop_in<S: CharSource>(desk: &Desk, id: u16, pos: u32, source: &mut S) -> Read<u32>
    requires over { IsOver (S.characters source.old) (kept_desktop desk.now) }
    requires at { IsPosition (kept_desktop desk.now) id pos }
    ensures told { TellsValue S.CharSource result (λ d. stop_in d id pos) source.old source.new
        (kept_desktop desk.now) }
    ensures within { IfOk result (λ stop. stop ≤ pos) }
{
    let text = desk.main_text(id);
    let start = line_start(text, pos, source)?;
    let is_shown = has_column(desk, id, pos.saturating_sub(1), source)?;
    Ok(stop_by(pos, start, is_shown))
}

/// A stretch without a line end at its end that has no column.
fn without_hidden_end<S: CharSource>(
    desk: &Desk,
    stretch: Selection,
    source: &mut S,
) -> Read<Selection>
    requires over { IsOver (S.characters source.old) (kept_desktop desk.now) }
    requires end { IsPosition (kept_desktop desk.now) stretch.viewer stretch.end }
    ensures told { TellsValue S.CharSource result (λ d. without_hidden_end d stretch) source.old
        source.new (kept_desktop desk.now) }
    ensures viewer { IfOk result (λ part. part.viewer ≡ stretch.viewer) }
    ensures within { IfOk result (λ part. part.end ≤ stretch.end) }
{
    let stop = stop_in(desk, stretch.viewer, stretch.end, source)?;
    Ok(Selection {
        viewer: stretch.viewer,
        beg: stretch.beg.min(stop),
        end: stop,
    })
}

/// The other end of a selection of which one end is that position of a viewer's text, or whose end is where a stretch up to
/// that stops; of another selection that position.
fn other_end(selection: Selection, id: u16, pos: u32, stop: u32) -> u32
    ensures { result ≡ other_end selection id pos stop }
{
    if selection.viewer != id {
        return pos;
    }
    if selection.beg == pos {
        selection.end
    } else if selection.end == pos || selection.end == stop {
        selection.beg
    } else {
        pos
    }
}

/// Where what is selected begins that ends at a position, or where a stretch up to that stops; and else that position.
#[tactic(auto, unfolding(crate::specs::Stretches::anchor_by))]
fn anchor_by(desk: &Desk, id: u16, pos: u32, stop: u32) -> u32
    requires whole { IsKeptWhole (kept_desktop desk.now) }
    requires at { IsPosition (kept_desktop desk.now) id pos }
    ensures anchor { result ≡ anchor_by (kept_desktop desk.now) id pos stop }
    ensures within { IsPosition (kept_desktop desk.now) id result }
{
    match desk.selection() {
        None => pos,
        Some(selection) => other_end(selection, id, pos, stop),
    }
}

/// Where what is selected up to a position begins, and else that position.
fn anchor_in<S: CharSource>(desk: &Desk, id: u16, pos: u32, source: &mut S) -> Read<u32>
    requires over { IsOver (S.characters source.old) (kept_desktop desk.now) }
    requires at { IsPosition (kept_desktop desk.now) id pos }
    ensures told { TellsValue S.CharSource result (λ d. anchor_in d id pos) source.old source.new
        (kept_desktop desk.now) }
    ensures within { IfOk result (IsPosition (kept_desktop desk.now) id) }
{
    let stop = stop_in(desk, id, pos, source)?;
    Ok(anchor_by(desk, id, pos, stop))
}

/// The line of a position, with its end.
fn line_around<S: CharSource>(desk: &Desk, id: u16, pos: u32, source: &mut S) -> Read<Selection>
    requires over { IsOver (S.characters source.old) (kept_desktop desk.now) }
    requires at { IsPosition (kept_desktop desk.now) id pos }
    ensures told { TellsValue S.CharSource result (λ d. line_around d id pos) source.old source.new
        (kept_desktop desk.now) }
    ensures viewer { IfOk result (λ line. line.viewer ≡ id) }
    ensures within { IfOk result (λ line. IsPosition (kept_desktop desk.now) id line.end) }
{
    let text = desk.main_text(id);
    let start = line_start(text, pos, source)?;
    let end = end_of_line(text, pos, source)?;
    Ok(stretch_of(id, start, end.saturating_add(1).min(text.len())))
}

/// Buttons go down at one cell and up at another. None where one isn't there.
fn drag_by(keys: Keys, from: Option<(u8, u8)>, to: Option<(u8, u8)>) -> Option<Event>
    ensures { result ≡ drag_by keys from to }
{
    let (x0, y0) = from?;
    let (x1, y1) = to?;
    Some(Event::Point {
        keys,
        x0,
        y0,
        x1,
        y1,
    })
}

/// The event that draws a stretch with these keys, where the text is shown from `org` on. None where not both ends are in
/// sight.
fn drawn<S: CharSource>(
    desk: &Desk,
    keys: Keys,
    org: u32,
    stretch: Selection,
    source: &mut S,
) -> Read<Option<Event>>
    requires over { IsOver (S.characters source.old) (kept_desktop desk.now) }
    requires some { stretch.beg < stretch.end }
    requires at { IsPosition (kept_desktop desk.now) stretch.viewer stretch.end }
    ensures { TellsValue S.CharSource result (λ d. drawn d keys org stretch) source.old source.new
        (kept_desktop desk.now) }
{
    let from = cell_from(desk, stretch.viewer, org, stretch.beg, source)?;
    let to = cell_from(desk, stretch.viewer, org, stretch.end - 1, source)?;
    Ok(drag_by(keys, from, to))
}

/// The events after which the caret stands at a position, which has a column, and a stretch is selected.
fn lead_drawn<S: CharSource>(
    desk: &Desk,
    pos: u32,
    stretch: Selection,
    source: &mut S,
) -> Result<Led, Stop>
    requires over { IsOver (S.characters source.old) (kept_desktop desk.now) }
    requires at { IsPosition (kept_desktop desk.now) stretch.viewer pos }
    requires some { stretch.beg < stretch.end }
    requires end { IsPosition (kept_desktop desk.now) stretch.viewer stretch.end }
    ensures told { IfOk result (λ told. S.honest source.old
        → result_map_both (λ events. events.items) (λ why. why) told
        ≡ draw_led (seen (S.characters source.old) (kept_desktop desk.now)) pos stretch) }
    ensures reads { OnlyReads S.characters S.failures S.honest S.same_ground source.old
        source.new }
    ensures faults { FailsAs Stop.Fault IsStop result (S.failures source.old)
        (S.failures source.new) }
{
    let found = events_to(desk, stretch.viewer, pos, source)?;
    let Some(events) = found else {
        return Ok(Err(WhyNot::TooFar));
    };
    let org = org_in(desk, stretch.viewer, pos, source)?;
    let drawn = drawn(desk, Keys::Right, org, stretch, source)?;
    let Some(event) = drawn else {
        return Ok(Err(WhyNot::NotInSight));
    };
    let all = with_event(events, event)?;
    Ok(Ok(all))
}

/// The events after which the caret stands at a position and a stretch is selected, if it has a character.
fn lead_select_all_of<S: CharSource>(
    desk: &Desk,
    pos: u32,
    stretch: Selection,
    source: &mut S,
) -> Result<Led, Stop>
    requires over { IsOver (S.characters source.old) (kept_desktop desk.now) }
    requires at { IsPosition (kept_desktop desk.now) stretch.viewer pos }
    requires end { IsPosition (kept_desktop desk.now) stretch.viewer stretch.end }
    ensures told { IfOk result (λ told. S.honest source.old
        → result_map_both (λ events. events.items) (λ why. why) told
        ≡ select_all_led (seen (S.characters source.old) (kept_desktop desk.now)) pos stretch) }
    ensures reads { OnlyReads S.characters S.failures S.honest S.same_ground source.old
        source.new }
    ensures faults { FailsAs Stop.Fault IsStop result (S.failures source.old)
        (S.failures source.new) }
{
    if stretch.beg >= stretch.end {
        let alone = events_to(desk, stretch.viewer, pos, source)?;
        return Ok(alone.ok_or(WhyNot::TooFar));
    }
    let has_column = has_column(desk, stretch.viewer, pos, source)?;
    if !has_column {
        return Ok(Err(WhyNot::PastEdge));
    }
    lead_drawn(desk, pos, stretch, source)
}

/// The events after which the caret stands at a position and a stretch is selected, without a line end at its end that has no
/// column.
fn lead_selected<S: CharSource>(
    desk: &Desk,
    pos: u32,
    stretch: Selection,
    source: &mut S,
) -> Result<Led, Stop>
    requires over { IsOver (S.characters source.old) (kept_desktop desk.now) }
    requires at { IsPosition (kept_desktop desk.now) stretch.viewer pos }
    requires end { IsPosition (kept_desktop desk.now) stretch.viewer stretch.end }
    ensures told { IfOk result (λ told. S.honest source.old
        → result_map_both (λ events. events.items) (λ why. why) told
        ≡ select_led (seen (S.characters source.old) (kept_desktop desk.now)) pos stretch) }
    ensures reads { OnlyReads S.characters S.failures S.honest S.same_ground source.old
        source.new }
    ensures faults { FailsAs Stop.Fault IsStop result (S.failures source.old)
        (S.failures source.new) }
{
    let part = without_hidden_end(desk, stretch, source)?;
    lead_select_all_of(desk, pos, part, source)
}

/// The event that cuts a stretch as it is in sight.
fn lead_cut_all_of<S: CharSource>(
    desk: &Desk,
    stretch: Selection,
    source: &mut S,
) -> Result<Led, Stop>
    requires over { IsOver (S.characters source.old) (kept_desktop desk.now) }
    requires end { IsPosition (kept_desktop desk.now) stretch.viewer stretch.end }
    ensures told { IfOk result (λ told. S.honest source.old
        → result_map_both (λ events. events.items) (λ why. why) told
        ≡ cut_all_led (seen (S.characters source.old) (kept_desktop desk.now)) stretch) }
    ensures reads { OnlyReads S.characters S.failures S.honest S.same_ground source.old
        source.new }
    ensures faults { FailsAs Stop.Fault IsStop result (S.failures source.old)
        (S.failures source.new) }
{
    if stretch.beg >= stretch.end {
        return Ok(Err(WhyNot::NothingThere));
    }
    let frame = desk.main_frame(stretch.viewer);
    let drawn = drawn(desk, Keys::RightLeft, frame.org, stretch, source)?;
    let Some(event) = drawn else {
        return Ok(Err(WhyNot::NotInSight));
    };
    let events = one_event(desk, event)?;
    Ok(Ok(events))
}

/// The event that cuts a stretch as it is in sight, without a line end at its end that has no column.
fn lead_cut<S: CharSource>(desk: &Desk, stretch: Selection, source: &mut S) -> Result<Led, Stop>
    requires over { IsOver (S.characters source.old) (kept_desktop desk.now) }
    requires end { IsPosition (kept_desktop desk.now) stretch.viewer stretch.end }
    ensures told { IfOk result (λ told. S.honest source.old
        → result_map_both (λ events. events.items) (λ why. why) told
        ≡ cut_led (seen (S.characters source.old) (kept_desktop desk.now)) stretch) }
    ensures reads { OnlyReads S.characters S.failures S.honest S.same_ground source.old
        source.new }
    ensures faults { FailsAs Stop.Fault IsStop result (S.failures source.old)
        (S.failures source.new) }
{
    let part = without_hidden_end(desk, stretch, source)?;
    lead_cut_all_of(desk, part, source)
}

/// The events that go a step and select what is passed, with what was selected up to the caret.
pub(crate) fn lead_select_on<S: CharSource>(
    desk: &Desk,
    caret: Caret,
    step: Step,
    source: &mut S,
) -> Result<Led, Stop>
    requires over { IsOver (S.characters source.old) (kept_desktop desk.now) }
    requires at { IsPosition (kept_desktop desk.now) caret.viewer caret.position }
    ensures told { IfOk result (λ told. S.honest source.old
        → result_map_both (λ events. events.items) (λ why. why) told
        ≡ led_from (seen (S.characters source.old) (kept_desktop desk.now)) caret.viewer
        caret.position (KeyWish.SelectOn step)) }
    ensures reads { OnlyReads S.characters S.failures S.honest S.same_ground source.old
        source.new }
    ensures faults { FailsAs Stop.Fault IsStop result (S.failures source.old)
        (S.failures source.new) }
{
    let Caret { viewer, position } = caret;
    let goal = step_goal_in(desk, viewer, position, step, source)?;
    let anchor = anchor_in(desk, viewer, position, source)?;
    let stretch = stretch_of(viewer, anchor, goal);
    lead_selected(desk, goal, stretch, source)
}

/// The events that go a step and select what is passed.
pub(crate) fn lead_select<S: CharSource>(
    desk: &Desk,
    caret: Caret,
    step: Step,
    source: &mut S,
) -> Result<Led, Stop>
    requires over { IsOver (S.characters source.old) (kept_desktop desk.now) }
    requires at { IsPosition (kept_desktop desk.now) caret.viewer caret.position }
    ensures told { IfOk result (λ told. S.honest source.old
        → result_map_both (λ events. events.items) (λ why. why) told
        ≡ led_from (seen (S.characters source.old) (kept_desktop desk.now)) caret.viewer
        caret.position (KeyWish.Select step)) }
    ensures reads { OnlyReads S.characters S.failures S.honest S.same_ground source.old
        source.new }
    ensures faults { FailsAs Stop.Fault IsStop result (S.failures source.old)
        (S.failures source.new) }
{
    let Caret { viewer, position } = caret;
    let goal = step_goal_in(desk, viewer, position, step, source)?;
    let stretch = stretch_of(viewer, position, goal);
    lead_selected(desk, goal, stretch, source)
}

/// The events that select all of a text.
pub(crate) fn lead_select_all<S: CharSource>(
    desk: &Desk,
    caret: Caret,
    source: &mut S,
) -> Result<Led, Stop>
    requires over { IsOver (S.characters source.old) (kept_desktop desk.now) }
    requires at { IsPosition (kept_desktop desk.now) caret.viewer caret.position }
    ensures told { IfOk result (λ told. S.honest source.old
        → result_map_both (λ events. events.items) (λ why. why) told
        ≡ led_from (seen (S.characters source.old) (kept_desktop desk.now)) caret.viewer
        caret.position KeyWish.SelectAll) }
    ensures reads { OnlyReads S.characters S.failures S.honest S.same_ground source.old
        source.new }
    ensures faults { FailsAs Stop.Fault IsStop result (S.failures source.old)
        (S.failures source.new) }
{
    let len = desk.main_text(caret.viewer).len();
    lead_selected(desk, len, stretch_of(caret.viewer, 0, len), source)
}

/// The events that cut what is selected up to the caret.
pub(crate) fn lead_cut_selected<S: CharSource>(
    desk: &Desk,
    caret: Caret,
    source: &mut S,
) -> Result<Led, Stop>
    requires over { IsOver (S.characters source.old) (kept_desktop desk.now) }
    requires at { IsPosition (kept_desktop desk.now) caret.viewer caret.position }
    ensures told { IfOk result (λ told. S.honest source.old
        → result_map_both (λ events. events.items) (λ why. why) told
        ≡ led_from (seen (S.characters source.old) (kept_desktop desk.now)) caret.viewer
        caret.position KeyWish.CutSelected) }
    ensures reads { OnlyReads S.characters S.failures S.honest S.same_ground source.old
        source.new }
    ensures faults { FailsAs Stop.Fault IsStop result (S.failures source.old)
        (S.failures source.new) }
{
    let Caret { viewer, position } = caret;
    let anchor = anchor_in(desk, viewer, position, source)?;
    let stretch = stretch_of(viewer, anchor, position);
    lead_cut(desk, stretch, source)
}

/// The events that cut the caret's line.
pub(crate) fn lead_cut_line<S: CharSource>(
    desk: &Desk,
    caret: Caret,
    source: &mut S,
) -> Result<Led, Stop>
    requires over { IsOver (S.characters source.old) (kept_desktop desk.now) }
    requires at { IsPosition (kept_desktop desk.now) caret.viewer caret.position }
    ensures told { IfOk result (λ told. S.honest source.old
        → result_map_both (λ events. events.items) (λ why. why) told
        ≡ led_from (seen (S.characters source.old) (kept_desktop desk.now)) caret.viewer
        caret.position KeyWish.CutLine) }
    ensures reads { OnlyReads S.characters S.failures S.honest S.same_ground source.old
        source.new }
    ensures faults { FailsAs Stop.Fault IsStop result (S.failures source.old)
        (S.failures source.new) }
{
    let line = line_around(desk, caret.viewer, caret.position, source)?;
    lead_cut(desk, line, source)
}
