//! Viewers that are open, as their menus are seen.
ghost use Rattle.std.specs.Prelude.{◌≡◌, ◌<◌, ◌*◌, Some, position, slice_get, IfSome};
ghost use Rattle.std.specs.List.{range_with_len};
ghost use Rattle.status_line.specs.Opened.{closing_cell, is_menu, menu_spot, menu_named, menu_for, menu_reopened};
ghost use Rattle.status_line.specs.Opened.{names_menu, shows_menu_in};
ghost use Rattle.viewer_tracks.specs.declared.display.TheConstants.{ROWS};

use crate::named::opens;
use screen_cells::Screen;
use screen_pictures::{Cell, Mark};
use screen_reading::{called_word, parameter_word, word_from};
use viewer_tracks::{COLUMNS, ROWS, SYSTEM_LEFT};

/// How many cells there are in which a menu may begin: one in each row of each track.
const MENUS: u8 = 2 * ROWS;

/// The cell, as column and row, at which the word is called that closes a viewer, where its menu begins at a cell as that of
/// a viewer that opens: with a name, a blank, a bar and a blank.
#[tactic(auto, unfolding(crate::specs::Opened::closing_cell))]
pub fn closing_cell(screen: &Screen, at: (u8, u8)) -> (u8, u8)
    ensures { result ≡ closing_cell screen.now at }
{
    let (x, y) = at;
    let name = word_from(screen, x, y);
    (x.saturating_add(name.len() as u8 + 3), y)
}

/// The cell in which a menu may begin, by its number: the rows from the bottom, first those on the left.
#[tactic(auto, unfolding(crate::specs::Opened::menu_spot))]
fn menu_spot(count: u8) -> (u8, u8)
    ensures { result ≡ menu_spot count }
{
    if count < ROWS {
        (0, count)
    } else {
        (SYSTEM_LEFT, count - ROWS)
    }
}

/// Whether a menu is shown at a cell of that mark.
fn is_menu(mark: Mark) -> bool
    ensures { result ≡ is_menu mark }
{
    matches!(mark, Mark::Menu)
}

/// Whether a cell shows a menu.
fn shows_menu(row: &[Cell; COLUMNS as usize], x: u8) -> bool
    ensures { result ≡ shows_menu_in (Some row.now) x }
{
    match row.get(usize::from(x)) {
        None => false,
        Some(cell) => is_menu(cell.mark),
    }
}

/// The same of a screen.
fn shows_menu_at(screen: &Screen, at: (u8, u8)) -> bool
    ensures { result ≡ shows_menu_in (slice_get screen.now at.1) at.0 }
{
    match screen.rows().get(usize::from(at.1)) {
        None => false,
        Some(row) => shows_menu(row, at.0),
    }
}

/// Whether a menu begins at a cell with a name.
fn names_menu(screen: &Screen, name: &[u8], at: (u8, u8)) -> bool
    ensures { result ≡ names_menu screen.now name.now at }
{
    shows_menu_at(screen, at) && word_from(screen, at.0, at.1).as_slice() == name
}

/// The number of the first cell in which a menu begins with a name.
fn menu_number(screen: &Screen, name: &[u8]) -> Option<usize>
    ensures value { result ≡ position (λ k. names_menu screen.now name.now (menu_spot k))
        (range_with_len 0 (2 * ROWS)) }
    ensures within { IfSome result (λ k. k < 2 * ROWS) }
{
    (0..MENUS).position(|count| names_menu(screen, name, menu_spot(count)))
}

/// The first cell in which a menu begins with a name.
fn menu_named(screen: &Screen, name: &[u8]) -> Option<(u8, u8)>
    ensures { result ≡ menu_named screen.now name.now }
{
    match menu_number(screen, name) {
        None => None,
        Some(count) => Some(menu_spot(count as u8)),
    }
}

/// The same. No menu begins with an empty name.
#[tactic(auto, unfolding(crate::specs::Opened::menu_for))]
fn menu_for(screen: &Screen, name: &[u8]) -> Option<(u8, u8)>
    ensures { result ≡ menu_for screen.now name.now }
{
    if name.is_empty() {
        return None;
    }
    menu_named(screen, name)
}

/// The first cell, as column and row, of the menu of a viewer that is open, where the word that is called at a cell opens the
/// document of its name. None where none is seen.
#[tactic(auto, unfolding(crate::specs::Opened::menu_reopened))]
pub fn menu_reopened(screen: &Screen, x: u8, y: u8) -> Option<(u8, u8)>
    ensures { result ≡ menu_reopened screen.now x y }
{
    if !opens(called_word(screen, x, y).as_slice()) {
        return None;
    }
    menu_for(screen, parameter_word(screen, x, y).as_slice())
}
