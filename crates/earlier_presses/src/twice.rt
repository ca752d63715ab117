//! What a press is by the one before it: a second click at a cell, and a search behind one that found nothing.
ghost use Rattle.std.specs.Prelude.{◌≡◌, ◌&&◌};
ghost use Rattle.terminal_presses.specs.Hands.{handled};
ghost use Rattle.earlier_presses.specs.Twice.{action_meant, cell_again, cell_clicked, cell_kept, cell_pointed, is_same_cell};
ghost use Rattle.earlier_presses.specs.Twice.{is_no_deed, is_nothing, is_of_terminal, or_sought};

use event_bytes::{Event, Keys};
use host_names::HostName;
use terminal_presses::{Action, Hand, Press, Scroll, Sight};

/// The cell of a left click, which goes down and up there.
fn cell_pointed(event: &Event) -> Option<(u8, u8)>
    ensures { result ≡ cell_pointed event.now }
{
    match event {
        Event::Point {
            keys: Keys::Left,
            x0,
            y0,
            x1,
            y1,
        } if *x0 == *x1 && *y0 == *y1 => Some((*x0, *y0)),
        _ => None,
    }
}

/// The same of a press.
pub fn cell_clicked(action: &Action) -> Option<(u8, u8)>
    ensures { result ≡ cell_clicked action.now }
{
    match action {
        Action::Post(event) => cell_pointed(event),
        _ => None,
    }
}

/// Whether two cells are the same.
fn is_same_cell(one: (u8, u8), other: (u8, u8)) -> bool
    ensures { result ≡ is_same_cell one other }
{
    one.0 == other.0 && one.1 == other.1
}

/// The cell of a click that is the second one there.
pub fn cell_again(clicked: Option<(u8, u8)>, before: Option<(u8, u8)>) -> Option<(u8, u8)>
    ensures { result ≡ cell_again clicked before }
{
    match (clicked, before) {
        (Some(cell), Some(before)) if is_same_cell(cell, before) => Some(cell),
        _ => None,
    }
}

/// Whether a press comes to nothing.
pub fn is_nothing(action: &Action) -> bool
    ensures { result ≡ is_nothing action.now }
{
    matches!(action, Action::Nothing)
}

/// Whether it is done to the terminal alone.
pub fn is_of_terminal(action: &Action) -> bool
    ensures { result ≡ is_of_terminal action.now }
{
    matches!(action, Action::Fit(_, _) | Action::LookAnew)
}

/// Whether it is no press between two others: it comes to nothing yet, or is done to the terminal alone.
fn is_no_deed(action: &Action) -> bool
    ensures { result ≡ is_no_deed action.now }
{
    matches!(
        action,
        Action::Nothing | Action::Fit(_, _) | Action::LookAnew
    )
}

/// The cell to be kept of a press, at which the next click is the second one. A third one is a first one again.
pub fn cell_kept(action: &Action, before: Option<(u8, u8)>) -> Option<(u8, u8)>
    ensures { result ≡ cell_kept action.now before }
{
    if is_no_deed(action) {
        return before;
    }
    let clicked = cell_clicked(action);
    if cell_again(clicked, before).is_some() {
        None
    } else {
        clicked
    }
}

/// What a press means: a search behind one that found nothing goes to the beginning of the text, and one behind a replacement
/// goes on. Where no words are typed those are sought that were sought last.
fn action_meant(missed: bool, goes_on: bool, sought: &HostName, action: Action) -> Action
    ensures { result ≡ action_meant missed goes_on sought.now action }
{
    match action {
        Action::Search if missed => Action::Scroll(None, Scroll::First),
        Action::Search if goes_on => Action::Find(sought.copied(), false),
        Action::Find(words, before) => Action::Find(or_sought(words, sought), before),
        other => other,
    }
}

/// Words, and where there are none those that were sought last.
fn or_sought(words: HostName, sought: &HostName) -> HostName
    ensures { result ≡ or_sought words sought.now }
{
    if words.as_bytes().is_empty() {
        sought.copied()
    } else {
        words
    }
}

/// The hand takes a press, and says what it means behind a search that found nothing, or behind none, behind a replacement or
/// none, and behind words that were sought.
pub fn hand_meant(
    hand: &mut Hand,
    missed: bool,
    goes_on: bool,
    sought: &HostName,
    sight: Sight,
    press: Press,
) -> Action
    ensures state { hand.new ≡ (handled sight press hand.old).0 }
    ensures answer { result
        ≡ action_meant missed goes_on sought.now (handled sight press hand.old).1 }
{
    action_meant(missed, goes_on, sought, hand.take(sight, press))
}

/// Whether a search found nothing right before, after another press.
pub fn still_missed(missed: bool, action: &Action) -> bool
    ensures { result ≡ missed && is_no_deed action.now }
{
    missed && is_no_deed(action)
}
