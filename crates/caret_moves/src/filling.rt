//! Where the line of the caret is broken, so that what is typed stays in sight.
//!
//! A line isn't wrapped: what is behind the last column of a viewer isn't seen. So where the line has no room for
//! what is to be typed, the word before the caret begins a new line.
ghost use Rattle.std.specs.Prelude.{◌≡◌, ◌+◌, ◌<◌, ◌≤◌, nat_lt, length, option_map, IfOk, IfSome};
ghost use Rattle.std.specs.Result.{result_map_both};
ghost use Rattle.readers_scanners.specs.Words.{ReadsOrFails, flat, bytes_of_text};
ghost use Rattle.text_frames.specs.Walks.{CanWalk};
ghost use Rattle.text_frames.specs.Cells.{column_of};
ghost use Rattle.text_frames.specs.declared.row.TheConstants.{MOST_COLUMNS};
ghost use Rattle.desk_core.specs.Words.{FailsAs, OnlyReads, IsOver, IsPosition, kept_desktop, seen, IsStop};
ghost use Rattle.caret_moves.specs.Filling.{behind_start, break_behind, line_break};
ghost use Rattle.caret_moves.specs.Leading.{ended_led, led_from, line_end, near_events};
ghost use Rattle.caret_moves.specs.declared.wish.KeyWish.TheVariants as KeyWish;

use crate::leading::{Led, events_to, has_column, one_event, org_in, with_event};
use crate::runs::run_start;
use crate::steps::column_below;
use crate::wish::WhyNot;
use char_file::{CharSource, Fault};
use desk_core::desk::Desk;
use desk_core::stop::Stop;
use desk_input::places::text_width;
use desktop_definitions::Caret;
use event_bytes::{CARRIAGE_RETURN, Event, TypedBytes};
use std::vec::Vec;
use text_core::Text;
use text_frames::line_start;

/// Whether a position stands left of a column of its line. `Fault`: the source failed in this call.
fn is_before<S: CharSource>(text: &Text, edge: u8, pos: u32, source: &mut S) -> Result<bool, Fault>
    requires walk { CanWalk (S.characters source.old) (flat text.now) 0 pos }
    requires fits { edge ≤ MOST_COLUMNS }
    ensures is { IfOk result (λ is. S.honest source.old
        → is ≡ nat_lt (column_of (bytes_of_text (S.characters source.old) (flat text.now)) 0 pos)
        edge) }
    ensures source { ReadsOrFails S.CharSource result source.old source.new }
{
    let column = column_below(text, edge, 0, pos, source)?;
    Ok(column.is_some())
}

/// Where the word before a position begins, if that isn't the first one of its line. `Fault`: the source failed in this
/// call.
fn break_behind<S: CharSource>(text: &Text, pos: u32, source: &mut S) -> Result<Option<u32>, Fault>
    requires walk { CanWalk (S.characters source.old) (flat text.now) 0 pos }
    ensures place { IfOk result (λ place. S.honest source.old
        → place ≡ break_behind (bytes_of_text (S.characters source.old) (flat text.now)) pos) }
    ensures within { IfOk result (λ place. IfSome place (λ q. q ≤ pos)) }
    ensures source { ReadsOrFails S.CharSource result source.old source.new }
{
    let start = line_start(text, pos, source)?;
    let place = run_start(text, false, pos, source)?;
    Ok(behind_start(start, place))
}

/// A place, where it is behind the start of a line.
fn behind_start(start: u32, place: u32) -> Option<u32>
    ensures is { result ≡ behind_start start place }
    ensures same { IfSome result (λ q. q ≡ place) }
{
    if start < place { Some(place) } else { None }
}

/// Where the line of a position is broken that has no room for a word of so many characters. None where it has, where it
/// has no blank, and where the character before the position isn't in sight. `Fault`: the source failed in this call.
fn line_break<S: CharSource>(
    text: &Text,
    w: u8,
    count: u8,
    pos: u32,
    source: &mut S,
) -> Result<Option<u32>, Fault>
    requires walk { CanWalk (S.characters source.old) (flat text.now) 0 pos }
    requires fits { w ≤ MOST_COLUMNS }
    ensures place { IfOk result (λ place. S.honest source.old → place
        ≡ line_break (bytes_of_text (S.characters source.old) (flat text.now)) w count pos) }
    ensures within { IfOk result (λ place. IfSome place (λ q. q ≤ pos)) }
    ensures source { ReadsOrFails S.CharSource result source.old source.new }
{
    let has_room = is_before(text, w.saturating_sub(count), pos, source)?;
    if has_room {
        return Ok(None);
    }
    let is_near = is_before(text, w, pos.saturating_sub(1), source)?;
    if !is_near {
        return Ok(None);
    }
    break_behind(text, pos, source)
}

/// An end of line is typed.
fn line_end() -> Event
    ensures { result ≡ line_end }
{
    Event::Typed(TypedBytes::new(&[CARRIAGE_RETURN]).unwrap())
}

/// The events that break the line of the caret, if it has no room for a word of so many characters.
pub(crate) fn lead_break<S: CharSource>(
    desk: &Desk,
    caret: Caret,
    count: u8,
    source: &mut S,
) -> Result<Led, Stop>
    requires over { IsOver (S.characters source.old) (kept_desktop desk.now) }
    requires at { IsPosition (kept_desktop desk.now) caret.viewer caret.position }
    ensures told { IfOk result (λ told. S.honest source.old
        → result_map_both (λ events. events.items) (λ why. why) told
        ≡ led_from (seen (S.characters source.old) (kept_desktop desk.now)) caret.viewer
        caret.position (KeyWish.Break count)) }
    ensures reads { OnlyReads S.characters S.failures S.honest S.same_ground source.old
        source.new }
    ensures faults { FailsAs Stop.Fault IsStop result (S.failures source.old)
        (S.failures source.new) }
{
    let w = text_width(desk, caret.viewer);
    let text = desk.main_text(caret.viewer);
    let broken = line_break(text, w, count, caret.position, source)?;
    let Some(pos) = broken else {
        return Ok(Err(WhyNot::NoBreak));
    };
    if pos == caret.position {
        let events = one_event(desk, line_end())?;
        return Ok(Ok(events));
    }
    lead_end(desk, caret.viewer, pos, source)
}

/// The events that type an end of line at a position of a viewer's text.
fn lead_end<S: CharSource>(desk: &Desk, id: u16, pos: u32, source: &mut S) -> Result<Led, Stop>
    requires over { IsOver (S.characters source.old) (kept_desktop desk.now) }
    requires at { IsPosition (kept_desktop desk.now) id pos }
    ensures told { IfOk result (λ told. S.honest source.old
        → result_map_both (λ events. events.items) (λ why. why) told
        ≡ ended_led (seen (S.characters source.old) (kept_desktop desk.now)) id pos) }
    ensures reads { OnlyReads S.characters S.failures S.honest S.same_ground source.old
        source.new }
    ensures faults { FailsAs Stop.Fault IsStop result (S.failures source.old)
        (S.failures source.new) }
{
    let has_column = has_column(desk, id, pos, source)?;
    if !has_column {
        return Ok(Err(WhyNot::PastEdge));
    }
    let found = near_events(desk, id, pos, source)?;
    let Some(events) = found else {
        return Ok(Err(WhyNot::NotInSight));
    };
    let all = with_event(events, line_end())?;
    Ok(Ok(all))
}

/// The events after which the caret stands where it can stand for a position of its viewer's text, of which the line is in
/// sight. None where that isn't.
fn near_events<S: CharSource>(
    desk: &Desk,
    id: u16,
    pos: u32,
    source: &mut S,
) -> Result<Option<Vec<Event>>, Stop>
    requires over { IsOver (S.characters source.old) (kept_desktop desk.now) }
    requires at { IsPosition (kept_desktop desk.now) id pos }
    ensures told { IfOk result (λ events. S.honest source.old
        → option_map (λ events. events.items) events
        ≡ near_events (seen (S.characters source.old) (kept_desktop desk.now)) id pos) }
    ensures reads { OnlyReads S.characters S.failures S.honest S.same_ground source.old
        source.new }
    ensures faults { FailsAs Stop.Fault IsStop result (S.failures source.old)
        (S.failures source.new) }
{
    let frame = desk.main_frame(id);
    let org = org_in(desk, id, pos, source)?;
    if org != frame.org {
        return Ok(None);
    }
    events_to(desk, id, pos, source)
}

/// The event after which the caret stands at a position of its text, or at the end of that.
pub(crate) fn lead_place<S: CharSource>(
    desk: &Desk,
    caret: Caret,
    place: u32,
    source: &mut S,
) -> Result<Led, Stop>
    requires over { IsOver (S.characters source.old) (kept_desktop desk.now) }
    requires at { IsPosition (kept_desktop desk.now) caret.viewer caret.position }
    ensures told { IfOk result (λ told. S.honest source.old
        → result_map_both (λ events. events.items) (λ why. why) told
        ≡ led_from (seen (S.characters source.old) (kept_desktop desk.now)) caret.viewer
        caret.position (KeyWish.Place place)) }
    ensures reads { OnlyReads S.characters S.failures S.honest S.same_ground source.old
        source.new }
    ensures faults { FailsAs Stop.Fault IsStop result (S.failures source.old)
        (S.failures source.new) }
{
    let pos = place.min(desk.main_text(caret.viewer).len());
    let events = near_events(desk, caret.viewer, pos, source)?;
    Ok(events.ok_or(WhyNot::NotInSight))
}

/// The events after which the caret stands at a position of its text, or at the end of that, wherever its line is.
pub(crate) fn lead_reach<S: CharSource>(
    desk: &Desk,
    caret: Caret,
    place: u32,
    source: &mut S,
) -> Result<Led, Stop>
    requires over { IsOver (S.characters source.old) (kept_desktop desk.now) }
    requires at { IsPosition (kept_desktop desk.now) caret.viewer caret.position }
    ensures told { IfOk result (λ told. S.honest source.old
        → result_map_both (λ events. events.items) (λ why. why) told
        ≡ led_from (seen (S.characters source.old) (kept_desktop desk.now)) caret.viewer
        caret.position (KeyWish.Reach place)) }
    ensures reads { OnlyReads S.characters S.failures S.honest S.same_ground source.old
        source.new }
    ensures faults { FailsAs Stop.Fault IsStop result (S.failures source.old)
        (S.failures source.new) }
{
    let goal = place.min(desk.main_text(caret.viewer).len());
    let events = events_to(desk, caret.viewer, goal, source)?;
    Ok(events.ok_or(WhyNot::TooFar))
}
