//! The paragraph of the caret is filled, edit by edit.
//!
//! Of each edit `filled_pastes` says which it is (`fill_edit`), by a look at the text of the caret. What is done for it where
//! the caret stands is said in `press_tasks`.
ghost use Rattle.std.specs.Prelude.{◌≡◌, false};
ghost use Rattle.press_plans.specs.Plans.{Plans, begin_refill, edit_plan, seen_plan, stroke_plan};
ghost use Rattle.press_tasks.specs.declared.task.Task.TheVariants as Task;
ghost use Rattle.press_tasks.specs.declared.refill.Refilling.TheVariants as Refilling;

use crate::filling::{go_then, is_place};
use crate::plan::{Plan, caret_place, info_of};
use desk_journal::{Error, KeyWish, Store};
use filled_pastes::{Edit, fill_edit};
use press_tasks::{Refilling, Stroke, Task, after_stroke, edit_place, edit_stroke, stroke_event};
use sector_disk::Disk;
use sought_words::{bytes_of, search_from};
use status_line::Saying;
use std::alloc::Global;

/// What is left of filling a paragraph.
pub(crate) fn refill_plan<D: Disk>(
    alloc: Global,
    refilling: Refilling,
    store: &mut Store<D>,
) -> Result<Plan, Error>
    requires { store.old.must_reopen ≡ false }
    ensures { Plans D.Disk (Task.Refill refilling) result store.old store.new }
{
    match refilling {
        Refilling::Begin => Ok(begin_plan(info_of(store).caret_position)),
        Refilling::Next(home, begins) => seek_edit(alloc, home, begins, store),
        Refilling::Go(home, at, stroke) => {
            let next = Task::Refill(Refilling::Do(home, at, stroke));
            go_then(alloc, KeyWish::Reach(at), at, next, store)
        }
        Refilling::Do(home, at, stroke) => Ok(stroke_plan(
            is_place(at, info_of(store).caret_position),
            home,
            at,
            stroke,
        )),
    }
}

/// The first edit is sought, where a viewer has the caret.
fn begin_plan(caret: Option<u32>) -> Plan
    ensures { seen_plan result ≡ begin_refill caret }
{
    match caret {
        None => Plan::Refused(Saying::NoCaret),
        Some(home) => Plan::Next(Some(Task::Refill(Refilling::Next(home, true)))),
    }
}

/// The next edit is sought in the text of the caret.
fn seek_edit<D: Disk>(
    alloc: Global,
    home: u32,
    begins: bool,
    store: &mut Store<D>,
) -> Result<Plan, Error>
    requires { store.old.must_reopen ≡ false }
    ensures { Plans D.Disk (Task.Refill (Refilling.Next home begins)) result store.old store.new }
{
    let start = search_from(None, caret_place(store), false);
    let found = store.caret_text(alloc)?;
    let Some(characters) = found else {
        return Ok(Plan::Refused(Saying::NoCaret));
    };
    if start.rows == 0 {
        return Ok(Plan::Refused(Saying::NoScroll));
    }
    match bytes_of(alloc, characters.as_slice()) {
        Ok(bytes) => Ok(edit_plan(
            fill_edit(bytes.as_slice(), usize::from(start.columns), home as usize),
            home,
            begins,
        )),
        Err(_) => Err(Error::NoMemory),
    }
}

/// This edit is made, and where there is none the caret goes back. If none was made it is said so.
fn edit_plan(edit: Option<Edit>, home: u32, begins: bool) -> Plan
    ensures { seen_plan result ≡ edit_plan edit home begins }
{
    match edit {
        None if begins => Plan::Tells(Saying::IsFilled),
        None => Plan::Next(Some(Task::Lead(KeyWish::Reach(home)))),
        Some(edit) => Plan::Next(Some(Task::Refill(Refilling::Go(
            edit.moved(home),
            edit_place(edit),
            edit_stroke(edit),
        )))),
    }
}

/// This is done, if the caret stands where it is to be done, and then what is left.
fn stroke_plan(stands: bool, home: u32, at: u32, stroke: Stroke) -> Plan
    ensures { seen_plan result ≡ stroke_plan stands home at stroke }
{
    if !stands {
        return Plan::Refused(Saying::PartHidden);
    }
    Plan::Event(
        stroke_event(stroke),
        Some(Task::Refill(after_stroke(home, at, stroke))),
    )
}
