//! What an event of the hand is at the desk.
ghost use Rattle.std.specs.Prelude.{◌≡◌, false};
ghost use Rattle.std.specs.List.{list_any};
ghost use Rattle.desk_journal.specs.Views.{place_at};
ghost use Rattle.press_plans.specs.Listed.{begins_in_viewer, event_meant, is_tool, middle_or};
ghost use Rattle.press_plans.specs.Plans.{is_call};

use desk_journal::Store;
use desktop_definitions::Entry;
use event_bytes::Event;
use press_tasks::CellPlace;
use sector_disk::Disk;
use starter_desktop::TOOL_NAME;

/// Where the viewer stands that is seen at a cell.
pub(crate) fn place_at<D: Disk>(cell: CellPlace, store: &Store<D>) -> Option<viewer_tracks::Place>
    requires { store.now.must_reopen ≡ false }
    ensures { result ≡ place_at store.now.desktop cell }
{
    match store.place_at(cell) {
        Ok(place) => place,
        Err(_) => unreachable!(),
    }
}

/// The row in the middle of a viewer that stands there, where one does, and else the row itself.
fn middle_or(y: u8, place: Option<viewer_tracks::Place>) -> u8
    ensures { result ≡ middle_or y place }
{
    match place {
        None => y,
        Some(place) => ((u16::from(place.bottom) + u16::from(place.top)).saturating_sub(1)
            / 2) as u8,
    }
}

/// Whether an entry is the text of all commands.
fn is_tool(entry: &Entry) -> bool
    ensures { result ≡ is_tool entry.now }
{
    match entry {
        Entry::File { name, .. } => name.as_bytes() == TOOL_NAME,
        _ => false,
    }
}

/// Whether the text of all commands is in the list.
pub(crate) fn has_tool(entries: &[Entry]) -> bool
    ensures { result ≡ list_any is_tool entries.now }
{
    entries.iter().any(|entry| is_tool(entry))
}

/// Whether a click begins at a viewer.
pub(crate) fn begins_in_viewer<D: Disk>(event: &Event, store: &Store<D>) -> bool
    requires { store.now.must_reopen ≡ false }
    ensures { result ≡ begins_in_viewer store.now.desktop event.now }
{
    match event {
        Event::Point { x0, y0, .. } => place_at((*x0, *y0), store).is_some(),
        _ => false,
    }
}

/// What an event that calls no word is at the desk.
#[tactic(auto, unfolding(crate::specs::Listed::event_meant))]
pub(crate) fn uncalled_event<D: Disk>(event: Event, store: &Store<D>) -> Event
    requires usable { store.now.must_reopen ≡ false }
    requires uncalled { is_call event ≡ false }
    ensures { result ≡ event_meant store.now.desktop event }
{
    match event {
        Event::Mark { x, y } => Event::Mark {
            x,
            y: middle_or(y, place_at((x, y), store)),
        },
        other => other,
    }
}
