//! The part of the display that is in sight in a terminal.
ghost use Rattle.std.specs.Prelude.{◌≡◌, ◌<◌, ◌≤◌, IfSome};
ghost use Rattle.viewer_tracks.specs.Display.{track_at};
ghost use Rattle.screen_reading.specs.Windows.{columns_in, height_told, is_low, is_narrow, is_turned, rows_in};
ghost use Rattle.screen_reading.specs.Windows.{width_told};
ghost use Rattle.screen_reading.specs.Windows.{fitted, moved_sight, following_sight};

use terminal_presses::{Page, Sight};
use viewer_tracks::{COLUMNS, ROWS, SYSTEM_LEFT, Track};

/// How many rows a terminal has at least at which a person sits down.
pub const LEAST_HEIGHT: u16 = 12;

/// How many columns a terminal has at least at which a person sits down.
pub const LEAST_WIDTH: u16 = 45;

/// Whether a terminal that tells these two numbers for its rows and columns has told them in the other order, as tmux 3.3
/// does. Nobody sits down at fewer than 45 columns, and a terminal with fewer columns than the display has no more rows
/// than that has columns.
#[tactic(auto, unfolding(crate::specs::Windows::is_turned))]
fn is_turned(rows: u16, columns: u16) -> bool
    ensures { result ≡ is_turned rows columns }
{
    let width = u16::from(COLUMNS);
    (columns < width && width <= rows) || (columns < LEAST_WIDTH && LEAST_WIDTH <= rows)
}

/// How many rows a terminal has that tells these two numbers for its rows and columns, in this order or, as tmux 3.3
/// does, in the other one.
#[tactic(auto, unfolding(crate::specs::Windows::height_told))]
pub fn height_told(rows: u16, columns: u16) -> u16
    ensures { result ≡ height_told rows columns }
{
    if is_turned(rows, columns) {
        columns
    } else {
        rows
    }
}

/// How many columns it has.
#[tactic(auto, unfolding(crate::specs::Windows::width_told))]
pub fn width_told(rows: u16, columns: u16) -> u16
    ensures { result ≡ width_told rows columns }
{
    if is_turned(rows, columns) {
        rows
    } else {
        columns
    }
}

/// Whether it has fewer columns than a person can sit down at.
#[tactic(auto, unfolding(crate::specs::Windows::is_narrow))]
pub fn is_narrow(rows: u16, columns: u16) -> bool
    ensures { result ≡ is_narrow rows columns }
{
    width_told(rows, columns) < LEAST_WIDTH
}

/// Whether it has fewer rows than a person can sit down at.
#[tactic(auto, unfolding(crate::specs::Windows::is_low))]
pub fn is_low(rows: u16, columns: u16) -> bool
    ensures { result ≡ is_low rows columns }
{
    height_told(rows, columns) < LEAST_HEIGHT
}

/// How many rows are in sight in a terminal of so many rows: one is the line below them.
fn rows_in(height: u16) -> u8
    ensures value { result ≡ rows_in height }
    ensures least { 1 ≤ result }
    ensures most { result ≤ ROWS }
{
    height.saturating_sub(1).min(u16::from(ROWS)).max(1) as u8
}

/// How many columns a terminal of so many has, as far as the display has them.
fn columns_in(width: u16) -> u8
    ensures value { result ≡ columns_in width }
    ensures least { 1 ≤ result }
    ensures most { result ≤ COLUMNS }
{
    width.min(u16::from(COLUMNS)).max(1) as u8
}

/// The part in sight in a terminal of so many rows and columns. The first row stays where there are rows enough from it
/// downward, and the side stays.
#[tactic(auto, unfolding(crate::specs::Windows::fitted))]
pub fn fitted(height: u16, width: u16, sight: Sight) -> Sight
    ensures { result ≡ fitted height width sight }
{
    let rows = rows_in(height);
    sight
        .with_rows(sight.top().max(rows - 1), rows)
        .with_width(columns_in(width))
}

/// As many rows upward or downward as are in sight, as far as there are any, or the columns of a side.
#[tactic(auto, unfolding(crate::specs::Windows::moved_sight))]
pub fn moved(page: Page, sight: Sight) -> Sight
    ensures { result ≡ moved_sight page sight }
{
    let rows = sight.rows();
    match page {
        Page::Up => sight.with_rows((sight.top() + rows).min(ROWS - 1), rows),
        Page::Down => sight.with_rows(sight.top().saturating_sub(rows).max(rows - 1), rows),
        Page::Left => sight.on(Track::User),
        Page::Right => sight.on(Track::System),
    }
}

/// As few rows further as bring the cell at that column and row into sight, and its side.
#[tactic(auto, unfolding(crate::specs::Windows::following_sight))]
pub fn followed(place: Option<(u8, u8)>, sight: Sight) -> Sight
    requires { IfSome place (λ at. at.1 < ROWS) }
    ensures { result ≡ following_sight place sight }
{
    match place {
        None => sight,
        Some((x, y)) => {
            let rows = sight.rows();
            sight
                .with_rows(sight.top().min(y + rows - 1).max(y), rows)
                .on(side_at(x))
        }
    }
}

/// The side that has a column of the display.
fn side_at(x: u8) -> Track
    ensures { result ≡ track_at x }
{
    if x < SYSTEM_LEFT {
        Track::User
    } else {
        Track::System
    }
}
