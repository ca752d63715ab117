//! Whether a text that is open is stored, as far as the menu of its viewer is seen.
ghost use Rattle.std.specs.Prelude.{◌≡◌, false, Some, None, IfOk, OnOk, if◌then◌else◌};
ghost use Rattle.desk_journal.specs.Looking.{OnlyLooks};
ghost use Rattle.desk_sitting.specs.Stored.{is_closed_at, names_unstored, menu_begin, unstored_at, unstored_caret};
ghost use Rattle.desk_sitting.specs.Telling.{rest_marked};
ghost use Rattle.desktop_definitions.specs.Shown.{shown_screen};

use crate::Sitting;
use desk_journal::{Error, Loss, Store};
use press_plans::caret_place;
use screen_cells::Screen;
use sector_disk::Disk;
use status_line::{closing_cell, rest_saying, rests};
use std::alloc::Global;
use viewer_tracks::Place;

/// Whether a viewer's text would be lost by closing it whose menu begins at a cell.
fn is_closed_at(at: (u8, u8), loss: Option<Loss>) -> bool
    ensures { result ≡ is_closed_at at loss }
{
    match loss {
        Some(Loss::Closed(cell)) => cell.0 == at.0 && cell.1 == at.1,
        _ => false,
    }
}

/// Whether the text of the viewer isn't stored whose menu begins at a cell of the screen. It only looks at the store.
///
/// Errors: `Fault`; `MustReopen`.
#[tactic(auto, unfolding(crate::specs::Stored::names_unstored))]
pub(crate) fn names_unstored<D: Disk>(
    screen: &Screen,
    at: (u8, u8),
    store: &mut Store<D>,
) -> Result<bool, Error>
    ensures told { IfOk result (λ found. D.honest store.old.disk
        → found ≡ names_unstored screen.now at store.old.desktop) }
    ensures looks { OnlyLooks D.Disk result store.old store.new }
{
    let cell = closing_cell(screen, at);
    let loss = store.loss_at(None, cell, cell)?;
    Ok(is_closed_at(at, loss))
}

/// The first cell of the menu of a viewer that stands there.
fn menu_begin(place: Place) -> (u8, u8)
    ensures { result ≡ menu_begin place }
{
    (place.x, place.top.saturating_sub(1))
}

/// A cell, where it is so.
fn cell_if(is_so: bool, cell: (u8, u8)) -> Option<(u8, u8)>
    ensures { result ≡ (if is_so then Some cell else None) }
{
    if is_so { Some(cell) } else { None }
}

/// The first cell of the menu of the viewer that stands there, where its text isn't stored. It only looks at the store.
///
/// Errors: `NoMemory`; `Fault`; `MustReopen`.
fn unstored_at<D: Disk>(
    alloc: Global,
    place: Place,
    store: &mut Store<D>,
) -> Result<Option<(u8, u8)>, Error>
    ensures told { IfOk result (λ found. D.honest store.old.disk
        → found ≡ unstored_at (Some place) (shown_screen store.old.desktop) store.old.desktop) }
    ensures looks { OnlyLooks D.Disk result store.old store.new }
{
    let mut screen = Screen::new();
    store.screen(alloc, &mut screen)?;
    let cell = menu_begin(place);
    let found = names_unstored(&screen, cell, store)?;
    Ok(cell_if(found, cell))
}

/// The first cell of the menu of the viewer with the caret, where its text isn't stored. It only looks at the store.
///
/// Errors: `NoMemory`; `Fault`.
fn unstored_caret<D: Disk>(alloc: Global, store: &mut Store<D>) -> Result<Option<(u8, u8)>, Error>
    requires { store.old.must_reopen ≡ false }
    ensures told { IfOk result (λ found. D.honest store.old.disk
        → found ≡ unstored_caret store.old.desktop) }
    ensures looks { OnlyLooks D.Disk result store.old store.new }
{
    match caret_place(store) {
        None => Ok(None),
        Some(place) => unstored_at(alloc, place, store),
    }
}

/// Where the line below rests, it says whether the text with the caret isn't stored. It only looks at the store.
///
/// Errors: `NoMemory`; `Fault`.
pub fn mark<D: Disk>(
    alloc: Global,
    sitting: &mut Sitting,
    store: &mut Store<D>,
) -> Result<(), Error>
    requires { store.old.must_reopen ≡ false }
    ensures marked { OnOk result (D.honest store.old.disk
        → sitting.new ≡ rest_marked store.old.desktop sitting.old) }
    ensures looks { OnlyLooks D.Disk result store.old store.new }
{
    if !rests(sitting.saying) {
        return Ok(());
    }
    let found = unstored_caret(alloc, store)?;
    sitting.saying = rest_saying(found);
    Ok(())
}
