//! What a part of a paste becomes where lines are filled.
ghost use Rattle.std.specs.Prelude.{◌≡◌, drop, false, option_map, take, unwrap_or};
ghost use Rattle.std.specs.Result.{result_map_both};
ghost use Rattle.filled_pastes.specs.Poured.{poured_at};
ghost use Rattle.press_plans.specs.Plans.{Plans, column_clicked, first_plan, from_column, front_plan, poured_plan, room_plan};
ghost use Rattle.press_plans.specs.Plans.{seen_plan, standing, typable, typed_plan};
ghost use Rattle.press_tasks.specs.declared.task.Task.TheVariants as Task;
ghost use Rattle.press_tasks.specs.declared.task.Stage.TheVariants as Stage;

use crate::filling::go_then;
use crate::plan::{Plan, info_of};
use desk_journal::{Error, KeyWish, Store, WhyNot};
use event_bytes::{Event, TypedBytes};
use filled_pastes::{MOST_PASTED, poured_at, word_length};
use press_tasks::{Stage, Task, one_behind};
use sector_disk::Disk;
use std::alloc::Global;
use std::vec::Vec;

/// What is left of a part of a paste.
pub(crate) fn pour_plan<D: Disk>(
    alloc: Global,
    stage: Stage,
    bytes: TypedBytes,
    typed: u32,
    store: &mut Store<D>,
) -> Result<Plan, Error>
    requires { store.old.must_reopen ≡ false }
    ensures { Plans D.Disk (Task.Pour stage bytes typed) result store.old store.new }
{
    match stage {
        Stage::First => make_room(alloc, bytes, typed, store),
        Stage::Back(place) => {
            let next = Task::Pour(Stage::On, bytes, typed);
            go_then(alloc, KeyWish::Place(place), place, next, store)
        }
        Stage::On => pour(alloc, bytes, typed, store),
    }
}

/// The line is broken before the first word, if it has no room for it.
fn make_room<D: Disk>(
    alloc: Global,
    bytes: TypedBytes,
    typed: u32,
    store: &mut Store<D>,
) -> Result<Plan, Error>
    requires { store.old.must_reopen ≡ false }
    ensures { Plans D.Disk (Task.Pour Stage.First bytes typed) result store.old store.new }
{
    let count = word_length(bytes.as_bytes()).min(255) as u8;
    let place = one_behind(info_of(store).caret_position);
    let told = store.lead(alloc, KeyWish::Break(count))?;
    Ok(room_plan(told, place, bytes, typed))
}

/// These events break the line, and the caret goes back to a position then; or none do.
fn room_plan(told: Result<Vec<Event>, WhyNot>, place: u32, bytes: TypedBytes, typed: u32) -> Plan
    ensures { seen_plan result
        ≡ room_plan (result_map_both (λ events. events.items) (λ why. why) told) place bytes
        typed }
{
    match told {
        Ok(events) => Plan::Events(events, Some(Task::Pour(Stage::Back(place), bytes, typed))),
        Err(_) => Plan::Next(Some(Task::Pour(Stage::On, bytes, typed))),
    }
}

/// A position, where there is one.
fn standing(place: Option<u32>) -> u32
    ensures { result ≡ unwrap_or place 0 }
{
    match place {
        None => 0,
        Some(place) => place,
    }
}

/// The part is typed from where the caret stands.
fn pour<D: Disk>(
    alloc: Global,
    bytes: TypedBytes,
    typed: u32,
    store: &mut Store<D>,
) -> Result<Plan, Error>
    requires { store.old.must_reopen ≡ false }
    ensures { Plans D.Disk (Task.Pour Stage.On bytes typed) result store.old store.new }
{
    let place = standing(info_of(store).caret_position);
    let told = store.lead(alloc, KeyWish::Place(place))?;
    Ok(poured_plan(told, bytes, typed))
}

/// The same, where these events lead to the caret's own place, or none do.
fn poured_plan(told: Result<Vec<Event>, WhyNot>, bytes: TypedBytes, typed: u32) -> Plan
    ensures { seen_plan result
        ≡ poured_plan (result_map_both (λ events. events.items) (λ why. why) told) bytes typed }
{
    match told {
        Ok(events) => from_column(column_clicked(events.as_slice()), bytes),
        Err(WhyNot::NotInSight) => first_plan(bytes.as_bytes(), typed),
        Err(_) => Plan::Event(Event::Typed(bytes), None),
    }
}

/// The column that is clicked by a single click.
fn column_clicked(events: &[Event]) -> Option<u8>
    ensures { result ≡ column_clicked events.now }
{
    match events {
        [Event::Point { x0, .. }] => Some(*x0),
        _ => None,
    }
}

/// The bytes are typed from a column on, or as they are.
fn from_column(column: Option<u8>, bytes: TypedBytes) -> Plan
    ensures { seen_plan result ≡ from_column column bytes }
{
    match column {
        None => Plan::Event(Event::Typed(bytes), None),
        Some(x) => typed_plan(poured_at(x, bytes.as_bytes()).as_slice()),
    }
}

/// These bytes, by one event, or by two. What is typed for a part of a paste has at most 1,350 of them.
fn typed_plan(bytes: &[u8]) -> Plan
    ensures { seen_plan result ≡ typed_plan bytes.now }
{
    let next = match TypedBytes::new(behind(bytes, MOST_PASTED)) {
        None => None,
        Some(more) => Some(Task::Post(Event::Typed(more))),
    };
    front_plan(TypedBytes::new(front(bytes, MOST_PASTED)), next)
}

/// The first of these bytes, and then what is left.
fn first_plan(bytes: &[u8], typed: u32) -> Plan
    ensures { seen_plan result ≡ first_plan bytes.now typed }
{
    let next = match TypedBytes::new(behind(bytes, 1)) {
        None => None,
        Some(more) => Some(Task::Pour(Stage::First, more, typed.saturating_add(1))),
    };
    front_plan(TypedBytes::new(front(bytes, 1)), next)
}

/// These bytes are typed, where there are any, and then this is left to do.
fn front_plan(bytes: Option<TypedBytes>, next: Option<Task>) -> Plan
    ensures { seen_plan result ≡ front_plan bytes next }
{
    match bytes {
        None => Plan::Next(None),
        Some(bytes) => Plan::Event(Event::Typed(bytes), next),
    }
}

/// The first bytes, so many of them.
fn front(bytes: &[u8], count: usize) -> &[u8]
    ensures { result.now ≡ take count bytes.now }
{
    if count < bytes.len() {
        &bytes[..count]
    } else {
        bytes
    }
}

/// The bytes behind so many of them.
fn behind(bytes: &[u8], count: usize) -> &[u8]
    ensures { result.now ≡ drop count bytes.now }
{
    if count < bytes.len() {
        &bytes[count..]
    } else {
        &[]
    }
}
