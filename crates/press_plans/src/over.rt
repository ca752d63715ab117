//! What a press does in the place of what is selected up to the caret.
ghost use Rattle.std.specs.Prelude.{◌≡◌};
ghost use Rattle.std.specs.Result.{result_map_both};
ghost use Rattle.press_plans.specs.Plans.{erase_plan, erasing, over_plan, seen_plan};

use crate::plan::Plan;
use desk_journal::{KeyWish, WhyNot};
use event_bytes::{Event, Key};
use press_tasks::Task;
use std::vec::Vec;

/// What is selected up to the caret is cut, where anything is, and then this is left to do.
pub(crate) fn over_plan(next: Task, told: Result<Vec<Event>, WhyNot>) -> Plan
    ensures { seen_plan result
        ≡ over_plan next (result_map_both (λ events. events.items) (λ why. why) told) }
{
    match told {
        Ok(events) => Plan::Events(events, Some(next)),
        Err(_) => Plan::Next(Some(next)),
    }
}

/// What is selected up to the caret is cut, or where nothing is the character behind the caret, or the one before it.
pub(crate) fn erase_plan(behind: bool, told: Result<Vec<Event>, WhyNot>) -> Plan
    ensures { seen_plan result
        ≡ erase_plan behind (result_map_both (λ events. events.items) (λ why. why) told) }
{
    match told {
        Ok(events) => Plan::Events(events, None),
        Err(_) => Plan::Next(Some(erasing(behind))),
    }
}

/// The character behind the caret is deleted, or the one before it.
#[tactic(auto, unfolding(crate::specs::Plans::erasing))]
fn erasing(behind: bool) -> Task
    ensures { result ≡ erasing behind }
{
    if behind {
        Task::Lead(KeyWish::DeleteNext)
    } else {
        Task::Post(Event::Key(Key::Back))
    }
}
