//! What a task becomes over a desktop.
ghost use Rattle.std.specs.Prelude.{◌≡◌, true, false, None, if◌then◌else◌, option_map};
ghost use Rattle.std.specs.Result.{result_map_both};
ghost use Rattle.press_plans.specs.Plans.{Plans, caret_place, empty_plan, entry_plan, is_call, lead_plan, nothing_there};
ghost use Rattle.press_plans.specs.Plans.{Events, call_plan, comeback_plan, has_lost_caret, is_calling, part_hidden};
ghost use Rattle.press_plans.specs.Plans.{opened_plan, opened_viewer, page_wish, place_meant, plan_of};
ghost use Rattle.press_plans.specs.Plans.{plan_on, scroll_plan, seen_plan, shown_plan, shown_then, why_not};
ghost use Rattle.desk_journal.specs.Views.{desk_info};
ghost use Rattle.desk_journal.specs.Views.{shown_viewer};
ghost use Rattle.desktop_definitions.specs.Shown.{shown_screen};

use crate::by_screen::{click, draw, go_plan, plan_on};
use crate::filling::{go_then, type_plan};
use crate::finding::finding_plan;
use crate::listed::{begins_in_viewer, has_tool, place_at, uncalled_event};
use crate::over::{erase_plan, over_plan};
use crate::paging::page_plan;
use crate::pouring::pour_plan;
use crate::refill::refill_plan;
use desk_journal::{DeskInfo, Error, KeyWish, ShownViewer, Store, WhyNot, Wish};
use desktop_definitions::Entry;
use done_presses::take_last;
use event_bytes::{Event, Key, Keys};
use host_names::HostName;
use press_tasks::{CellPlace, Task, lead_deed, posting};
use screen_cells::Screen;
use screen_reading::{caret_of, kept_end, text_start};
use sector_disk::Disk;
use starter_desktop::tool_event;
use status_line::{Deed, Saying, SayingLine};
use std::alloc::Global;
use std::vec::Vec;

/// What a task becomes over a desktop.
#[derive(Drop)]
pub enum Plan {
    /// It can't be done, for this reason.
    Refused(Saying),
    /// No event, and then what is left to do.
    Next(Option<Task>),
    /// An event, and what is left to do once it is done.
    Event(Event, Option<Task>),
    /// Events, one after another, and what is left to do once they are done.
    Events(Vec<Event>, Option<Task>),
    /// No event: the line below says this line of the log.
    Says(SayingLine),
    /// No event: the pointer that keys move goes to that cell.
    Aims(CellPlace),
    /// No event: the rows in sight go to that cell.
    Shows(CellPlace),
    /// No event: the line below says that.
    Tells(Saying),
    /// No event: it is asked for words that are sought before the caret, or behind it.
    Asks(bool),
    /// No event: these are the words that were sought last, if they can be typed. Then this is left to do.
    Keeps(HostName, Task),
    /// No event: nothing is pointed at any more. The pointer that keys move is put away, and it is forgotten where the
    /// mouse has pointed. Then this is left to do.
    PutsAway(Task),
}

/// What a task becomes over the desktop of a store.
///
/// Errors: `NoMemory`, where memory runs out; `Fault`, where the disk fails; `MustReopen`.
pub fn plan_of<D: Disk>(alloc: Global, task: Task, store: &mut Store<D>) -> Result<Plan, Error>
    requires { store.old.must_reopen ≡ false }
    ensures { Plans D.Disk task result store.old store.new }
{
    match task {
        Task::Post(event) => post_plan(alloc, event, store),
        Task::Call(event, _) => post_plan(alloc, event, store),
        Task::After(before, cell) => after_plan(before, cell, store),
        Task::Enter(cell) => Ok(entry_plan(info_of(store).is_marked, cell)),
        Task::Page { at, is_up, sight } => page_plan(alloc, at, is_up, sight, store),
        Task::Show => Ok(shown_plan(caret_place(store))),
        Task::Scroll(at, wish) => {
            let presses = store.scroll(alloc, at, wish)?;
            Ok(scroll_plan(wish, presses))
        }
        Task::Lead(wish) => {
            let told = store.lead(alloc, wish)?;
            Ok(lead_plan(wish, told))
        }
        Task::TypeOver(event, fills) => {
            let told = store.lead(alloc, KeyWish::CutSelected)?;
            Ok(over_plan(posting(fills, event), told))
        }
        Task::Erase { behind } => {
            let told = store.lead(alloc, KeyWish::CutSelected)?;
            Ok(erase_plan(behind, told))
        }
        Task::Find(finding) => finding_plan(alloc, finding, store),
        Task::Refill(refilling) => refill_plan(alloc, refilling, store),
        Task::Pour(stage, bytes, typed) => pour_plan(alloc, stage, bytes, typed, store),
        Task::TypeOn(typing, fills, deed) => type_plan(alloc, typing, fills, deed, store),
        Task::GoBack(place, typing, fills, deed) => {
            let next = Task::TypeOn(typing, fills, deed);
            go_then(alloc, KeyWish::Place(place), place, next, store)
        }
        Task::Extend(start, at) => extend_plan(alloc, start, at, store),
        seen => plan_seen(alloc, seen, store),
    }
}

/// An event of the hand as it is meant at the desk.
fn post_plan<D: Disk>(alloc: Global, event: Event, store: &mut Store<D>) -> Result<Plan, Error>
    requires { store.old.must_reopen ≡ false }
    ensures { Plans D.Disk (Task.Post event) result store.old store.new }
{
    if is_call(&event) {
        calling_plan(alloc, event, store)
    } else {
        Ok(Plan::Event(uncalled_event(event, store), None))
    }
}

/// A click that calls a word. The list of the desktop is asked only where it begins on the empty display.
fn calling_plan<D: Disk>(alloc: Global, event: Event, store: &mut Store<D>) -> Result<Plan, Error>
    requires usable { store.old.must_reopen ≡ false }
    requires call { is_call event ≡ true }
    ensures { Plans D.Disk (Task.Post event) result store.old store.new }
{
    let before = info_of(store);
    if begins_in_viewer(&event, store) {
        let mut screen = Screen::new();
        store.screen(alloc, &mut screen)?;
        return Ok(Plan::Event(event, Some(Task::After(before, caret_of(&screen)))));
    }
    let entries = store.list(alloc)?;
    Ok(empty_plan(event, before, entries.as_slice()))
}

/// A click of that button on the empty display, by the list of the desktop.
fn empty_plan(event: Event, before: DeskInfo, entries: &[Entry]) -> Plan
    ensures { seen_plan result ≡ empty_plan event before entries.now }
{
    if has_tool(entries) {
        Plan::Event(event, Some(Task::After(before, None)))
    } else {
        Plan::Event(tool_event(), None)
    }
}

/// Whether an event is a click of the middle button.
fn is_call(event: &Event) -> bool
    ensures { result ≡ is_call event.now }
{
    matches!(
        event,
        Event::Point {
            keys: Keys::Middle,
            ..
        }
    )
}

/// What a desktop says of itself.
pub(crate) fn info_of<D: Disk>(store: &Store<D>) -> DeskInfo
    requires { store.now.must_reopen ≡ false }
    ensures { result ≡ desk_info store.now.desktop }
{
    match store.desk_info() {
        Ok(info) => info,
        Err(_) => unreachable!(),
    }
}

/// The viewer of an id, if it is shown.
fn viewer_of<D: Disk>(id: u16, store: &Store<D>) -> Option<ShownViewer>
    requires { store.now.must_reopen ≡ false }
    ensures { result ≡ shown_viewer store.now.desktop id }
{
    match store.shown_viewer(id) {
        Ok(viewer) => viewer,
        Err(_) => unreachable!(),
    }
}

/// The viewer that was opened since a desktop said this of itself.
#[tactic(auto, unfolding(crate::specs::Plans::opened_viewer))]
fn opened_viewer<D: Disk>(before: DeskInfo, store: &Store<D>) -> Option<ShownViewer>
    requires { store.now.must_reopen ≡ false }
    ensures { result ≡ opened_viewer before store.now.desktop }
{
    match viewer_of(before.next_viewer, store) {
        None => viewer_of(before.closed_viewer?, store),
        viewer => viewer,
    }
}

/// Where the viewer stands that has the caret. None where none has it.
#[tactic(auto, unfolding(crate::specs::Plans::caret_place))]
pub fn caret_place<D: Disk>(store: &Store<D>) -> Option<viewer_tracks::Place>
    requires { store.now.must_reopen ≡ false }
    ensures { result ≡ caret_place store.now.desktop }
{
    let id = info_of(store).caret_viewer?;
    match viewer_of(id, store) {
        None => None,
        Some(viewer) => Some(viewer.place),
    }
}

/// Where the viewer stands that is meant: at a cell, or that of the caret.
pub(crate) fn place_meant<D: Disk>(
    at: Option<CellPlace>,
    store: &Store<D>,
) -> Option<viewer_tracks::Place>
    requires { store.now.must_reopen ≡ false }
    ensures { result ≡ place_meant at store.now.desktop }
{
    match at {
        None => caret_place(store),
        Some(cell) => place_at(cell, store),
    }
}

/// A page, where so many rows of the text are in sight.
#[tactic(auto, unfolding(crate::specs::Plans::page_wish))]
pub(crate) fn page_wish(is_up: bool, rows: u8) -> Wish
    ensures { result ≡ page_wish is_up rows }
{
    let lines = u32::from(rows.saturating_sub(1).max(1));
    match (is_up, rows == 0) {
        (true, true) => Wish::PageUp,
        (true, false) => Wish::Up(lines),
        (false, true) => Wish::PageDown,
        (false, false) => Wish::Down(lines),
    }
}

/// The caret goes to the first cell of the text of a viewer that stands there.
fn shown_plan(place: Option<viewer_tracks::Place>) -> Plan
    ensures { seen_plan result ≡ shown_plan place }
{
    match place {
        None => Plan::Next(None),
        Some(place) => go_plan(text_start(place)),
    }
}

/// What is left to do once a word was called, over a desktop that said this of itself before, on which the caret was seen at
/// this cell.
fn after_plan<D: Disk>(
    before: DeskInfo,
    cell: Option<CellPlace>,
    store: &mut Store<D>,
) -> Result<Plan, Error>
    requires { store.old.must_reopen ≡ false }
    ensures { Plans D.Disk (Task.After before cell) result store.old store.new }
{
    match opened_viewer(before, store) {
        Some(viewer) => Ok(opened_plan(viewer)),
        None => log_plan(before, cell, store),
    }
}

/// Whether no viewer has the caret any more, though the one is shown that had it.
fn has_lost_caret<D: Disk>(before: DeskInfo, store: &Store<D>) -> bool
    requires { store.now.must_reopen ≡ false }
    ensures { result ≡ has_lost_caret before store.now.desktop }
{
    match before.caret_viewer {
        None => false,
        Some(id) => viewer_of(id, store).is_some() && info_of(store).caret_viewer.is_none(),
    }
}

/// The caret comes back to the cell at which it was seen, if it has gone from a viewer that is shown.
fn comeback_plan<D: Disk>(before: DeskInfo, cell: Option<CellPlace>, store: &Store<D>) -> Plan
    requires { store.now.must_reopen ≡ false }
    ensures { seen_plan result ≡ comeback_plan before cell store.now.desktop }
{
    if has_lost_caret(before, store) {
        go_plan(cell)
    } else {
        Plan::Next(None)
    }
}

/// Nothing is pointed at any more, and the caret goes into a viewer that opened, but not into the log: that comes into
/// sight.
fn opened_plan(viewer: ShownViewer) -> Plan
    ensures { seen_plan result ≡ opened_plan viewer }
{
    match text_start(viewer.place) {
        None => Plan::Next(None),
        Some(cell) if viewer.is_log => Plan::PutsAway(Task::Reveal(cell)),
        Some(cell) => Plan::PutsAway(Task::Enter(cell)),
    }
}

/// The caret goes to a cell, and before it the marker goes away, if it is set.
fn entry_plan(is_marked: bool, cell: CellPlace) -> Plan
    ensures { seen_plan result ≡ entry_plan is_marked cell }
{
    if is_marked {
        Plan::Event(Event::Key(Key::Escape), Some(Task::Post(click(cell))))
    } else {
        Plan::Event(click(cell), None)
    }
}

/// The line below says what was added to the log, if anything was, where no viewer was opened. Else the caret comes back.
fn log_plan<D: Disk>(
    before: DeskInfo,
    cell: Option<CellPlace>,
    store: &mut Store<D>,
) -> Result<Plan, Error>
    requires usable { store.old.must_reopen ≡ false }
    requires none { opened_viewer before store.old.desktop ≡ None }
    ensures { Plans D.Disk (Task.After before cell) result store.old store.new }
{
    let is_longer = before.log_length < info_of(store).log_length;
    if !is_longer {
        return Ok(comeback_plan(before, cell, store));
    }
    let line = store.last_log_line()?;
    Ok(Plan::Says(line))
}

/// What a task becomes by what the screen shows.
fn plan_seen<D: Disk>(alloc: Global, task: Task, store: &mut Store<D>) -> Result<Plan, Error>
    requires usable { store.old.must_reopen ≡ false }
    requires seen { plan_of task store.old.desktop ≡ plan_on task (shown_screen store.old.desktop) }
    ensures { Plans D.Disk task result store.old store.new }
{
    let mut screen = Screen::new();
    store.screen(alloc, &mut screen)?;
    Ok(plan_on(task, &screen))
}

/// What is selected in the viewer of a cell is extended to another one. Where nothing is the click goes on as it began.
fn extend_plan<D: Disk>(
    alloc: Global,
    start: CellPlace,
    at: CellPlace,
    store: &mut Store<D>,
) -> Result<Plan, Error>
    requires { store.old.must_reopen ≡ false }
    ensures { Plans D.Disk (Task.Extend start at) result store.old store.new }
{
    let place = place_at(start, store);
    let mut screen = Screen::new();
    store.screen(alloc, &mut screen)?;
    let kept = kept_end(place, start, at, &screen);
    Ok(Plan::Event(draw(kept.unwrap_or(start), at), None))
}

/// The presses that scroll for a wish, where there are any to be found.
fn scroll_plan(wish: Wish, presses: Option<Vec<Event>>) -> Plan
    ensures { seen_plan result ≡ scroll_plan wish (option_map (λ events. events.items) presses) }
{
    match presses {
        None => Plan::Refused(Saying::NoScroll),
        Some(events) => Plan::Events(events, shown_then(wish)),
    }
}

/// What is left to do after the presses for a wish: where it is a line by its number, the caret goes there.
fn shown_then(wish: Wish) -> Option<Task>
    ensures { result ≡ shown_then wish }
{
    match wish {
        Wish::Line(_) => Some(Task::Show),
        Wish::Up(_) | Wish::Down(_) | Wish::PageUp | Wish::PageDown => None,
    }
}

/// The events for what is wished of the caret, or why there are none.
fn lead_plan(wish: KeyWish, told: Result<Vec<Event>, WhyNot>) -> Plan
    ensures { seen_plan result
        ≡ lead_plan wish (result_map_both (λ events. events.items) (λ why. why) told) }
{
    match told {
        Err(why) => Plan::Refused(why_not(wish, why)),
        Ok(events) => led_plan(is_calling(wish), lead_deed(wish), events),
    }
}

/// The events, of which the last one is made as the hand makes a click, where they call a command: that is what the
/// press did.
fn led_plan(calls: bool, deed: Option<Deed>, events: Vec<Event>) -> Plan
    ensures { seen_plan result
        ≡ (if calls then call_plan deed events.items else Events events.items None) }
{
    if calls {
        call_plan(deed, events)
    } else {
        Plan::Events(events, None)
    }
}

/// The events that call a command: the last one is made as the hand makes a click, and this is what the press did by
/// it.
fn call_plan(deed: Option<Deed>, events: Vec<Event>) -> Plan
    ensures { seen_plan result ≡ call_plan deed events.items }
{
    let mut events = events;
    match take_last(&mut events) {
        None => Plan::Next(None),
        Some(click) => Plan::Events(events, Some(Task::Call(click, deed))),
    }
}

/// Whether a command is called.
fn is_calling(wish: KeyWish) -> bool
    ensures { result ≡ is_calling wish }
{
    matches!(wish, KeyWish::Call(_) | KeyWish::CallLine)
}

/// What is said where there is nothing to which the caret could go, nothing to delete or to cut, or no word to call.
#[tactic(auto, unfolding(crate::specs::Plans::nothing_there))]
fn nothing_there(wish: KeyWish) -> Saying
    ensures { result ≡ nothing_there wish }
{
    match wish {
        KeyWish::DeleteNext => Saying::NothingAfter,
        KeyWish::Call(_) => Saying::NoWord,
        KeyWish::CallLine => Saying::NoWord,
        KeyWish::CutLine => Saying::NoLine,
        _ => Saying::NoText,
    }
}

/// What is said where an end of what is meant isn't in sight.
#[tactic(auto, unfolding(crate::specs::Plans::part_hidden))]
fn part_hidden(wish: KeyWish) -> Saying
    ensures { result ≡ part_hidden wish }
{
    match wish {
        KeyWish::Select(_) => Saying::PartHidden,
        KeyWish::SelectOn(_) => Saying::PartHidden,
        KeyWish::SelectAll => Saying::PartHidden,
        KeyWish::CutSelected => Saying::PartHidden,
        KeyWish::CutLine => Saying::PartHidden,
        _ => nothing_there(wish),
    }
}

/// What is said where no events do what is wished of the caret.
#[tactic(auto, unfolding(crate::specs::Plans::why_not))]
pub(crate) fn why_not(wish: KeyWish, why: WhyNot) -> Saying
    ensures { result ≡ why_not wish why }
{
    match why {
        WhyNot::NoRow => Saying::NoScroll,
        WhyNot::TooFar => Saying::NoScroll,
        WhyNot::NoCaret => Saying::NoCaret,
        WhyNot::NothingBehind => nothing_there(wish),
        WhyNot::PastEdge => part_hidden(wish),
        WhyNot::NotInSight => part_hidden(wish),
        WhyNot::NothingThere => nothing_there(wish),
        WhyNot::NoBreak => nothing_there(wish),
        WhyNot::NoWord => Saying::NoWord,
    }
}
