//! What is sought in the caret's text.
//!
//! What the press before it selected is searched by the command; else it is asked for the words. They are found by a look at
//! the text of the caret, which is led behind them: by a click where their line is in sight, and else after presses in the
//! scroll bar.
ghost use Rattle.std.specs.Prelude.{◌≡◌, false, option_map, IfOk, IfErr};
ghost use Rattle.std.specs.Result.{result_map_both};
ghost use Rattle.press_plans.specs.Plans.{bring_plan, found_plan, on_plan, reach_plan, search_plan};
ghost use Rattle.press_plans.specs.Plans.{Plans, seen_plan, selected_plan, selected_task, told_plan};
ghost use Rattle.press_tasks.specs.declared.task.Task.TheVariants as Task;
ghost use Rattle.press_tasks.specs.declared.finding.Finding.TheVariants as Finding;

use crate::filling::placed_plan;
use crate::plan::{Plan, caret_place, info_of, why_not};
use desk_journal::{CaretCommand, Error, KeyWish, Store, WhyNot, Wish};
use event_bytes::{Event, TypedBytes};
use host_names::{HostName, first_words};
use piece_ring::Look;
use press_tasks::{Finding, Task, finding_of};
use sector_disk::Disk;
use sought_words::{Found, bytes_of, search_from, sought};
use status_line::Saying;
use std::alloc::Global;
use std::vec::Vec;

/// What is left of finding words.
pub(crate) fn finding_plan<D: Disk>(
    alloc: Global,
    finding: Finding,
    store: &mut Store<D>,
) -> Result<Plan, Error>
    requires { store.old.must_reopen ≡ false }
    ensures { Plans D.Disk (Task.Find finding) result store.old store.new }
{
    match finding {
        Finding::Search { over, before } => begin_plan(alloc, over, before, store),
        Finding::On(before) => Ok(on_plan(pattern_of(store), before)),
        Finding::Words(words, before) => words_plan(alloc, words, before, store),
        Finding::Reach(found) => {
            let told = store.lead(alloc, KeyWish::Place(found.place))?;
            Ok(reach_plan(found, told))
        }
        Finding::Bring(found) => {
            let presses = store.scroll(alloc, None, Wish::Line(found.top))?;
            Ok(bring_plan(found, presses))
        }
        Finding::Arrive(found) => {
            let wish = KeyWish::Place(found.place);
            let told = store.lead(alloc, wish)?;
            Ok(placed_plan(wish, told, Task::Find(Finding::Tell(found))))
        }
        Finding::Tell(found) => Ok(told_plan(found, info_of(store).caret_position)),
    }
}

/// What the press before it selected is sought, or it is asked for the words. Where no viewer has the caret there is nothing to
/// search.
fn begin_plan<D: Disk>(
    alloc: Global,
    over: bool,
    before: bool,
    store: &mut Store<D>,
) -> Result<Plan, Error>
    requires { store.old.must_reopen ≡ false }
    ensures { Plans D.Disk (Task.Find (Finding.Search over before)) result store.old store.new }
{
    if info_of(store).caret_viewer.is_none() {
        return Ok(Plan::Refused(Saying::NoCaret));
    }
    if !over {
        return Ok(Plan::Asks(before));
    }
    let found = store.selected(alloc)?;
    search_plan(alloc, before, found)
}

/// What is searched is what is selected, where something is; else it is asked for the words.
///
/// Error: `NoMemory`.
fn search_plan(
    alloc: Global,
    before: bool,
    selected: Option<Vec<(u8, Look)>>,
) -> Result<Plan, Error>
    ensures plan { IfOk result (λ plan. seen_plan plan
        ≡ search_plan before (option_map (λ characters. characters.items) selected)) }
    ensures error { IfErr result (λ error. error ≡ Error.NoMemory) }
{
    let Some(characters) = selected else {
        return Ok(Plan::Asks(before));
    };
    match bytes_of(alloc, characters.as_slice()) {
        Ok(bytes) => Ok(selected_plan(before, first_words(bytes.as_slice()))),
        Err(_) => Err(Error::NoMemory),
    }
}

/// These bytes are selected: they are kept as the words that were sought last, and searched by the command, or before the
/// caret by a look at the text.
fn selected_plan(before: bool, bytes: &[u8]) -> Plan
    ensures { seen_plan result ≡ selected_plan before bytes.now }
{
    Plan::Keeps(HostName::of(bytes), selected_task(before, bytes))
}

/// These bytes are selected: they are searched by the command, or sought before the caret.
fn selected_task(before: bool, bytes: &[u8]) -> Task
    ensures { result ≡ selected_task before bytes.now }
{
    if before {
        Task::Find(finding_of(bytes, true))
    } else {
        Task::Lead(KeyWish::Call(CaretCommand::Search))
    }
}

/// The bytes that were searched last.
fn pattern_of<D: Disk>(store: &Store<D>) -> &[u8]
    requires { store.now.must_reopen ≡ false }
    ensures { result.now ≡ store.now.desktop.pattern }
{
    match store.pattern() {
        Ok(pattern) => pattern,
        Err(_) => unreachable!(),
    }
}

/// The words that were searched last are sought, where there are any.
fn on_plan(pattern: &[u8], before: bool) -> Plan
    ensures { seen_plan result ≡ on_plan pattern.now before }
{
    match TypedBytes::new(pattern) {
        None => Plan::Refused(Saying::NoWords),
        Some(words) => Plan::Next(Some(Task::Find(Finding::Words(words, before)))),
    }
}

/// Words are sought in the text of the caret.
fn words_plan<D: Disk>(
    alloc: Global,
    words: TypedBytes,
    before: bool,
    store: &mut Store<D>,
) -> Result<Plan, Error>
    requires { store.old.must_reopen ≡ false }
    ensures { Plans D.Disk (Task.Find (Finding.Words words before)) result store.old store.new }
{
    let start = search_from(info_of(store).caret_position, caret_place(store), before);
    let found = store.caret_text(alloc)?;
    let Some(characters) = found else {
        return Ok(Plan::Refused(Saying::NoCaret));
    };
    if start.rows == 0 {
        return Ok(Plan::Refused(Saying::NoScroll));
    }
    match bytes_of(alloc, characters.as_slice()) {
        Ok(bytes) => Ok(found_plan(sought(bytes.as_slice(), words.as_bytes(), start))),
        Err(_) => Err(Error::NoMemory),
    }
}

/// The caret goes to where words were found, if they were.
fn found_plan(found: Option<Found>) -> Plan
    ensures { seen_plan result ≡ found_plan found }
{
    match found {
        None => Plan::Refused(Saying::NotThere),
        Some(found) => Plan::Next(Some(Task::Find(Finding::Reach(found)))),
    }
}

/// These events lead there; where the line isn't in sight that comes first.
fn reach_plan(found: Found, told: Result<Vec<Event>, WhyNot>) -> Plan
    ensures { seen_plan result
        ≡ reach_plan found (result_map_both (λ events. events.items) (λ why. why) told) }
{
    match told {
        Ok(events) => Plan::Events(events, Some(Task::Find(Finding::Tell(found)))),
        Err(WhyNot::NotInSight) => Plan::Next(Some(Task::Find(Finding::Bring(found)))),
        Err(why) => Plan::Refused(why_not(KeyWish::Place(found.place), why)),
    }
}

/// These presses bring the line into sight, where there are any to be found.
fn bring_plan(found: Found, presses: Option<Vec<Event>>) -> Plan
    ensures { seen_plan result ≡ bring_plan found (option_map (λ events. events.items) presses) }
{
    match presses {
        None => Plan::Refused(Saying::NoScroll),
        Some(events) => Plan::Events(events, Some(Task::Find(Finding::Arrive(found)))),
    }
}

/// What is said once the caret has gone as far as it can.
#[tactic(auto, unfolding(crate::specs::Plans::told_plan))]
fn told_plan(found: Found, caret: Option<u32>) -> Plan
    ensures { seen_plan result ≡ told_plan found caret }
{
    match caret {
        Some(place) if place == found.place => {
            if found.around {
                Plan::Tells(Saying::WentRound)
            } else {
                Plan::Next(None)
            }
        }
        _ => Plan::Refused(Saying::BeyondEdge),
    }
}
