//! The click of the middle button that a press makes, about which it may be asked first.
ghost use Rattle.std.specs.Prelude.{◌≡◌};
ghost use Rattle.status_line.specs.Clicks.{click_in, click_posted, marked_click, middle_click};

use event_bytes::{Event, Keys};
use terminal_presses::Action;

/// A click of the middle button.
#[derive(Clone, Copy, Debug, PartialEq, Eq)]
pub struct MiddleClick {
    /// The cell to which the marker is set before it. None: it stays as it is.
    pub marker: Option<(u8, u8)>,
    /// The cell at which the button goes down.
    pub from: (u8, u8),
    /// The cell at which it goes up.
    pub to: (u8, u8),
}

/// An event, where it is a click of the middle button.
fn middle_click(event: &Event) -> Option<MiddleClick>
    ensures { result ≡ middle_click event.now }
{
    match event {
        Event::Point {
            keys: Keys::Middle,
            x0,
            y0,
            x1,
            y1,
        } => Some(MiddleClick {
            marker: None,
            from: (*x0, *y0),
            to: (*x1, *y1),
        }),
        _ => None,
    }
}

/// The click of the middle button with which events end that call a command of the caret, and before which the marker may be
/// set.
pub fn click_in(events: &[Event]) -> Option<MiddleClick>
    ensures { result ≡ click_in events.now }
{
    match events {
        [click] => middle_click(click),
        [Event::Mark { x, y }, click] => marked_click((*x, *y), click),
        _ => None,
    }
}

/// A click of the middle button, before which the marker is set to a cell.
fn marked_click(cell: (u8, u8), event: &Event) -> Option<MiddleClick>
    ensures { result ≡ marked_click cell event.now }
{
    match middle_click(event) {
        None => None,
        Some(click) => Some(MiddleClick {
            marker: Some(cell),
            from: click.from,
            to: click.to,
        }),
    }
}

/// The click of the middle button that an event of the hand is.
pub fn click_posted(action: &Action) -> Option<MiddleClick>
    ensures { result ≡ click_posted action.now }
{
    match action {
        Action::Post(event) => middle_click(event),
        _ => None,
    }
}
