//! Which saying is due, by what came about.
ghost use Rattle.std.specs.Prelude.{◌≡◌};
ghost use Rattle.status_line.specs.Choosing.{came_to, done_saying, fill_saying, first_saying, fitted_saying};
ghost use Rattle.status_line.specs.Choosing.{tells_of_store, refused_saying, rest_saying, rests};

use crate::Saying;
use desktop_definitions::codes::NO_FILE;
use event_bytes::{Event, Keys};
use viewer_tracks::COLUMNS;

/// What the line below says first: where one side of the display is in sight, how the other one comes into sight, unless
/// it tells of the store.
pub fn first_saying(width: u16, greeting: Saying) -> Saying
    ensures { result ≡ first_saying width greeting }
{
    if tells_of_store(greeting) {
        greeting
    } else if width < u16::from(COLUMNS) {
        Saying::OneSide
    } else {
        greeting
    }
}

/// Whether it tells of the store: that of its two files one isn't written, or that it keeps a past from now on, or none.
fn tells_of_store(saying: Saying) -> bool
    ensures { result ≡ tells_of_store saying }
{
    matches!(
        saying,
        Saying::FirstFailed
            | Saying::TwinFailed
            | Saying::WithoutTwin
            | Saying::PastBegins
            | Saying::NoPast
    )
}

/// What the line below says once an event is done.
pub fn done_saying(event: &Event, resting: Saying) -> Saying
    ensures { result ≡ done_saying event.now resting }
{
    match event {
        Event::File { .. } => Saying::ToolFiled,
        _ => resting,
    }
}

/// What the line below says of a refusal. Where there is no document of a name, the word that was called has it.
pub fn refused_saying(event: &Event, code: u8) -> Saying
    ensures { result ≡ refused_saying event.now code }
{
    match event {
        Event::Point {
            keys: Keys::Middle,
            x0,
            y0,
            ..
        } if code == NO_FILE => Saying::NoDocument { x: *x0, y: *y0 },
        _ => Saying::Refused(code),
    }
}

/// Why a paste is cut short, and how far it came where any of it is typed.
pub fn came_to(typed: u32, why: Saying) -> Saying
    ensures { result ≡ came_to typed why }
{
    match why {
        Saying::Refused(code) if typed != 0 => Saying::CutShort { typed, code },
        other => other,
    }
}

/// What the line below says once the terminal has told its size.
pub fn fitted_saying(narrow: bool, low: bool, resting: Saying, saying: Saying) -> Saying
    ensures { result ≡ fitted_saying narrow low resting saying }
{
    match saying {
        _ if narrow => Saying::TooNarrow,
        _ if low => Saying::TooLow,
        Saying::TooNarrow | Saying::TooLow => resting,
        other => other,
    }
}

/// What the line below says of lines that are filled from now on, or no longer.
pub fn fill_saying(fills: bool) -> Saying
    ensures { result ≡ fill_saying fills }
{
    if fills {
        Saying::Fills
    } else {
        Saying::FillsNot
    }
}

/// Whether the line below rests: it says which keys there are, and that a text isn't stored or not.
pub fn rests(saying: Saying) -> bool
    ensures { result ≡ rests saying }
{
    matches!(saying, Saying::Keys | Saying::Unstored { .. })
}

/// What it says where it rests: that the text isn't stored of the viewer whose menu begins at a cell, where one is meant.
pub fn rest_saying(unstored: Option<(u8, u8)>) -> Saying
    ensures { result ≡ rest_saying unstored }
{
    match unstored {
        None => Saying::Keys,
        Some((x, y)) => Saying::Unstored { x, y },
    }
}
