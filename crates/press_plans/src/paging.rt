//! A page of a viewer's text, with which the caret goes along.
ghost use Rattle.std.specs.Prelude.{◌≡◌, false, option_map};
ghost use Rattle.press_plans.specs.Plans.{Plans, click_of, goes_along, is_one_viewer, paged_plan, seen_plan, seen_start};
ghost use Rattle.press_tasks.specs.declared.task.Task.TheVariants as Task;

use crate::by_screen::click;
use crate::plan::{Plan, caret_place, page_wish, place_meant};
use desk_journal::{Error, Store};
use event_bytes::Event;
use press_tasks::{CellPlace, Task};
use screen_reading::{text_rows_in_sight, text_start};
use sector_disk::Disk;
use status_line::Saying;
use std::alloc::Global;
use std::vec::Vec;
use terminal_presses::Sight;
use viewer_tracks::Place;

/// A page of a viewer's text, where this part of the display is in sight. In its own viewer the caret goes along.
pub(crate) fn page_plan<D: Disk>(
    alloc: Global,
    at: Option<CellPlace>,
    is_up: bool,
    sight: Sight,
    store: &mut Store<D>,
) -> Result<Plan, Error>
    requires { store.old.must_reopen ≡ false }
    ensures { Plans D.Disk (Task.Page at is_up sight) result store.old store.new }
{
    let place = place_meant(at, store);
    let caret = goes_along(sight, place, caret_place(store));
    let wish = page_wish(is_up, text_rows_in_sight(sight, place));
    let presses = store.scroll(alloc, at, wish)?;
    Ok(paged_plan(caret, presses))
}

/// The presses of a page, where there are any to be found, and then the click that takes the caret to a cell.
fn paged_plan(caret: Option<CellPlace>, presses: Option<Vec<Event>>) -> Plan
    ensures { seen_plan result ≡ paged_plan caret (option_map (λ events. events.items) presses) }
{
    match presses {
        None => Plan::Refused(Saying::NoScroll),
        Some(events) => Plan::Events(events, click_then(caret)),
    }
}

/// What takes the caret to a cell, where there is one.
fn click_then(caret: Option<CellPlace>) -> Option<Task>
    ensures { result ≡ option_map (λ cell. Task.Post (click_of cell)) caret }
{
    match caret {
        None => None,
        Some(cell) => Some(Task::Post(click(cell))),
    }
}

/// Where the caret goes with a page: in its own viewer to the first cell of the text in sight.
fn goes_along(sight: Sight, place: Option<Place>, caret: Option<Place>) -> Option<CellPlace>
    ensures { result ≡ goes_along sight place caret }
{
    match (place, caret) {
        (Some(place), Some(caret)) if is_one_viewer(place, caret) => seen_start(sight, caret),
        _ => None,
    }
}

/// Whether it is one viewer that stands here and there.
fn is_one_viewer(place: Place, other: Place) -> bool
    ensures { result ≡ is_one_viewer place other }
{
    place.x == other.x && place.top == other.top
}

/// The first cell of a viewer's text that is in sight, and where none is its first cell.
fn seen_start(sight: Sight, place: Place) -> Option<CellPlace>
    ensures { result ≡ seen_start sight place }
{
    if text_rows_in_sight(sight, Some(place)) == 0 {
        text_start(place)
    } else {
        let top = place.top.min(sight.top() + 2);
        text_start(Place { top, ..place })
    }
}
