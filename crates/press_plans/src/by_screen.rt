//! What a task becomes by what the screen shows.
ghost use Rattle.std.specs.Prelude.{◌≡◌};
ghost use Rattle.press_plans.specs.Plans.{click_of, draw_of, go_plan, plan_on, seek_plan, seen_plan, word_plan};

use crate::plan::Plan;
use event_bytes::{Event, Keys};
use press_tasks::{CellPlace, Task};
use screen_cells::Screen;
use screen_reading::{next_command, picked_word};
use status_line::Saying;

/// What a task becomes where this is the screen.
#[tactic(auto, unfolding(crate::specs::Plans::plan_on))]
pub(crate) fn plan_on(task: Task, screen: &Screen) -> Plan
    ensures { seen_plan result ≡ plan_on task screen.now }
{
    match task {
        Task::Seek(at) => seek_plan(next_command(at, screen)),
        Task::Reveal(cell) => Plan::Shows(cell),
        Task::Word(at) => word_plan(at, picked_word(screen, at)),
        Task::Post(_)
        | Task::Call(_, _)
        | Task::After(_, _)
        | Task::Enter(_)
        | Task::Scroll(_, _)
        | Task::Page { .. }
        | Task::Show
        | Task::TypeOn(_, _, _)
        | Task::GoBack(_, _, _, _)
        | Task::TypeOver(_, _)
        | Task::Pour(_, _, _)
        | Task::Erase { .. }
        | Task::Find(_)
        | Task::Refill(_)
        | Task::Extend(_, _)
        | Task::Lead(_) => Plan::Next(None),
    }
}

/// The pointer that keys move goes to a cell, where there is one to go to.
fn seek_plan(cell: Option<CellPlace>) -> Plan
    ensures { seen_plan result ≡ seek_plan cell }
{
    match cell {
        None => Plan::Refused(Saying::NoCommand),
        Some(cell) => Plan::Aims(cell),
    }
}

/// A left click at a cell.
pub(crate) fn click(place: CellPlace) -> Event
    ensures { result ≡ click_of place }
{
    let (x, y) = place;
    Event::Point {
        keys: Keys::Left,
        x0: x,
        y0: y,
        x1: x,
        y1: y,
    }
}

/// What is between two cells is selected.
pub(crate) fn draw(from: CellPlace, to: CellPlace) -> Event
    ensures { result ≡ draw_of from to }
{
    Event::Point {
        keys: Keys::Right,
        x0: from.0,
        y0: from.1,
        x1: to.0,
        y1: to.1,
    }
}

/// The caret goes to a cell, where there is one.
pub(crate) fn go_plan(cell: Option<CellPlace>) -> Plan
    ensures { seen_plan result ≡ go_plan cell }
{
    match cell {
        None => Plan::Next(None),
        Some(cell) => Plan::Event(click(cell), None),
    }
}

/// A word that stands in these columns of a cell's row is selected, and the caret goes before it. Where there is none the caret
/// goes to the cell.
fn word_plan(at: CellPlace, word: Option<(u8, u8)>) -> Plan
    ensures { seen_plan result ≡ word_plan at word }
{
    match word {
        None => Plan::Event(click(at), None),
        Some((first, last)) => Plan::Event(
            click((first, at.1)),
            Some(Task::Post(draw((first, at.1), (last, at.1)))),
        ),
    }
}
