//! What is typed by a press where lines are filled.
//!
//! A line isn't wrapped: what is behind the last column of a viewer isn't seen. So before a character is typed for which
//! the line has no room, it is broken, and the caret goes back behind the same character.
ghost use Rattle.std.specs.Prelude.{◌≡◌, false};
ghost use Rattle.std.specs.Result.{result_map_both};
ghost use Rattle.press_plans.specs.Filling.{is_place, room_for, room_for_byte, room_if};
ghost use Rattle.press_tasks.specs.Refilling.{one_behind};
ghost use Rattle.press_plans.specs.Plans.{Makes, Plans, broken_plan, go_then, placed_plan, seen_plan, unbroken_plan};
ghost use Rattle.press_tasks.specs.declared.task.Task.TheVariants as Task;

use crate::plan::{Plan, info_of, why_not};
use desk_journal::{Error, KeyWish, Store, WhyNot};
use earlier_presses::Typing;
use event_bytes::{CARRIAGE_RETURN, Event};
use filled_pastes::is_gap;
use press_tasks::{Task, one_behind};
use sector_disk::Disk;
use status_line::Deed;
use std::alloc::Global;
use std::vec::Vec;

/// For a word of how many characters the line is to have room where this byte is typed next. None: it isn't looked at.
fn room_for_byte(byte: u8) -> Option<u8>
    ensures { result ≡ room_for_byte byte }
{
    if is_gap(byte) {
        return Some(0);
    }
    if byte == CARRIAGE_RETURN {
        return None;
    }
    Some(1)
}

/// For a word of how many characters the line is to have room before an event. None: it isn't looked at.
#[tactic(auto, unfolding(crate::specs::Filling::room_for))]
fn room_for(next: &Option<Event>) -> Option<u8>
    ensures { result ≡ room_for next.now }
{
    match next {
        None => Some(0),
        Some(Event::Typed(bytes)) => match bytes.as_bytes() {
            [byte] => room_for_byte(*byte),
            _ => None,
        },
        Some(_) => None,
    }
}

/// The same, where lines are filled. Where they aren't, it isn't looked at.
fn room_if(fills: bool, next: &Option<Event>) -> Option<u8>
    ensures { result ≡ room_if fills next.now }
{
    if fills { room_for(next) } else { None }
}

/// Whether this is the place.
pub(crate) fn is_place(place: u32, at: Option<u32>) -> bool
    ensures { result ≡ is_place place at }
{
    match at {
        None => false,
        Some(at) => at == place,
    }
}

/// What is left of what a press types: this event comes first, if any is left.
fn unbroken_plan(next: Option<Event>, typing: Typing, fills: bool, deed: Deed) -> Plan
    ensures { seen_plan result ≡ unbroken_plan next typing fills deed }
{
    match next {
        None => Plan::Next(None),
        Some(event) => Plan::Event(event, Some(Task::TypeOn(typing.rest(), fills, deed))),
    }
}

/// The same after these events, which break the line, and after the caret has gone back to that position; or at once, where
/// there are none.
fn broken_plan(
    told: Result<Vec<Event>, WhyNot>,
    place: u32,
    next: Option<Event>,
    typing: Typing,
    fills: bool,
    deed: Deed,
) -> Plan
    ensures { seen_plan result
        ≡ broken_plan (result_map_both (λ events. events.items) (λ why. why) told) place next typing
        fills deed }
{
    match told {
        Err(_) => unbroken_plan(next, typing, fills, deed),
        Ok(events) => Plan::Events(events, Some(Task::GoBack(place, typing, fills, deed))),
    }
}

/// What is left of what a press types.
pub(crate) fn type_plan<D: Disk>(
    alloc: Global,
    typing: Typing,
    fills: bool,
    deed: Deed,
    store: &mut Store<D>,
) -> Result<Plan, Error>
    requires { store.old.must_reopen ≡ false }
    ensures { Plans D.Disk (Task.TypeOn typing fills deed) result store.old store.new }
{
    let next = typing.first();
    let Some(count) = room_if(fills, &next) else {
        return Ok(unbroken_plan(next, typing, fills, deed));
    };
    let place = one_behind(info_of(store).caret_position);
    let told = store.lead(alloc, KeyWish::Break(count))?;
    Ok(broken_plan(told, place, next, typing, fills, deed))
}

/// The caret goes to a position by these events, and then this is left to do; or why there are none.
pub(crate) fn placed_plan(wish: KeyWish, told: Result<Vec<Event>, WhyNot>, next: Task) -> Plan
    ensures { seen_plan result
        ≡ placed_plan wish (result_map_both (λ events. events.items) (λ why. why) told) next }
{
    match told {
        Err(why) => Plan::Refused(why_not(wish, why)),
        Ok(events) => Plan::Events(events, Some(next)),
    }
}

/// The caret goes to a position by what is wished of it, where it doesn't stand there, and then this is left to do.
pub(crate) fn go_then<D: Disk>(
    alloc: Global,
    wish: KeyWish,
    place: u32,
    next: Task,
    store: &mut Store<D>,
) -> Result<Plan, Error>
    requires { store.old.must_reopen ≡ false }
    ensures { Makes D.Disk (go_then wish place next) result store.old store.new }
{
    if is_place(place, info_of(store).caret_position) {
        return Ok(Plan::Next(Some(next)));
    }
    let told = store.lead(alloc, wish)?;
    Ok(placed_plan(wish, told, next))
}
