//! The region that an event of the mouse means. It is found once, before the event is done.
ghost use Rattle.desk_core.specs.Kept.{kept_desktop};
ghost use Rattle.event_loop.specs.Regions.{IsRegionBetween, IsRegionOfEvent};

use desk_core::desk::Desk;
use desk_core::marks::are_on_display;
use desk_input::places::region_under;
use desktop_definitions::Region;
use event_bytes::Event;

/// The region in which the keys of the mouse go down. None where one of its cells is outside the display, and of an
/// event of another kind.
pub fn region_of(desk: &Desk, event: &Event) -> Option<Region>
    ensures { IsRegionOfEvent (kept_desktop desk.now) event.now result }
{
    match event {
        Event::Point {
            keys: _,
            x0,
            y0,
            x1,
            y1,
        } => region_between(desk, (*x0, *y0), (*x1, *y1)),
        Event::Typed(_) => None,
        Event::Key(_) => None,
        Event::Mark { x: _, y: _ } => None,
        Event::File { name: _, bytes: _ } => None,
    }
}

/// The region of the cell `from`. None where it or the cell `to` is outside the display.
fn region_between(desk: &Desk, from: (u8, u8), to: (u8, u8)) -> Option<Region>
    ensures { IsRegionBetween (kept_desktop desk.now) from to result }
{
    if !are_on_display(from, to) {
        return None;
    }
    Some(region_under(desk, from.0, from.1))
}
