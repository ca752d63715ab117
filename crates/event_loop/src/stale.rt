//! Which texts an event may change, and lines that are given up for it.
ghost use Rattle.std.specs.Prelude.{◌≡◌, ℕ, List, Option, MatchOption, false, take};
ghost use Rattle.piece_ring.specs.Text.{Text as AText};
ghost use Rattle.desktop_definitions.specs.declared.region.Region.TheVariants.{Filler, Menu, Body};
ghost use Rattle.desktop_definitions.specs.declared.viewer.Viewer.{Viewer as AViewer};
ghost use Rattle.desktop_definitions.specs.declared.viewer.Caret.{Caret as ACaret};
ghost use Rattle.desktop_definitions.specs.declared.viewer.Selection.{Selection as ASelection};
ghost use Rattle.desktop_definitions.specs.Viewers.{newest};
ghost use Rattle.desk_input.specs.declared.stale.Stale.TheVariants.{Nothing};
ghost use Rattle.desk_input.specs.Stale.{is_stale, stale_in, stale_at_caret, stale_selected, stale_by_key};
ghost use Rattle.desk_input.specs.Stale.{stale_by_gesture, stale_of, stale_from, position_or_zero};
ghost use Rattle.screen_cells.specs.Lines.{AreLinesOf};
ghost use Rattle.desk_core.specs.Kept.{kept_desktop};
ghost use Rattle.event_loop.specs.Regions.{IsRegionOfEvent};

use desk_core::desk::Desk;
use desk_core::viewers::{ViewerTable, viewer_or_none};
use desk_input::Stale;
use desktop_definitions::{Caret, Region, Selection};
use event_bytes::{Event, Key, Keys};
use screen_cells::KeptLines;

/// Which texts the event may change, whose region is handed over.
pub fn stale_of(desk: &Desk, event: &Event, region: Option<Region>) -> Stale
    requires { IsRegionOfEvent (kept_desktop desk.now) event.now region }
    ensures { result ≡ stale_of (kept_desktop desk.now) event.now }
{
    match event {
        Event::Typed(_) => stale_at_caret(&desk.viewers, desk.caret),
        Event::Key(key) => stale_by_key(&desk.viewers, desk.caret, desk.newest(), *key),
        Event::Mark { x: _, y: _ } => Stale::Nothing,
        Event::Point {
            keys,
            x0: _,
            y0: _,
            x1: _,
            y1: _,
        } => stale_by_point(desk, *keys, region),
        Event::File { name: _, bytes: _ } => Stale::Nothing,
    }
}

/// Which texts the mouse may change, whose keys went down in that region: none where there is none.
fn stale_by_point(desk: &Desk, keys: Keys, region: Option<Region>) -> Stale
    ensures { MatchOption region (result ≡ Nothing) (λ there. result
        ≡ stale_by_gesture (kept_desktop desk.now).viewers (kept_desktop desk.now).caret
        (newest (kept_desktop desk.now)) there keys) }
{
    match region {
        None => Stale::Nothing,
        Some(there) => stale_by_gesture(&desk.viewers, desk.caret, desk.newest(), there, keys),
    }
}

/// Which texts a key of the keyboard may change.
#[tactic(auto, unfolding(desk_input::specs::Stale::stale_by_key))]
fn stale_by_key(
    viewers: &ViewerTable,
    caret: Option<Caret>,
    newest: Option<Selection>,
    key: Key,
) -> Stale
    ensures { result ≡ stale_by_key viewers.now.items caret newest key }
{
    match key {
        Key::Back | Key::Paste => stale_at_caret(viewers, caret),
        Key::Cut => stale_selected(viewers, newest),
        Key::Copy | Key::Escape => Stale::Nothing,
    }
}

/// Which texts the keys of the mouse may change in a region.
fn stale_by_gesture(
    viewers: &ViewerTable,
    caret: Option<Caret>,
    newest: Option<Selection>,
    region: Region,
    keys: Keys,
) -> Stale
    ensures { result ≡ stale_by_gesture viewers.now.items caret newest region keys }
{
    match region {
        Region::Filler => stale_in_filler(keys),
        Region::Menu(_) => stale_in_menu(keys),
        Region::Bar(_) => Stale::Nothing,
        Region::Body(id) => stale_in_text(viewers, caret, newest, id, keys),
    }
}

/// Which texts the keys of the mouse may change in a filler.
#[tactic(auto, unfolding(desk_input::specs::Stale::stale_by_gesture))]
fn stale_in_filler(keys: Keys) -> Stale
    ensures { (viewers : List (ℕ × AViewer)) (caret : Option ACaret) (newest : Option ASelection)
        → result ≡ stale_by_gesture viewers caret newest Filler keys }
{
    match keys {
        Keys::Middle => Stale::All,
        _ => Stale::Nothing,
    }
}

/// Which texts the keys of the mouse may change in the menu of a viewer.
#[tactic(auto, unfolding(desk_input::specs::Stale::stale_by_gesture))]
fn stale_in_menu(keys: Keys) -> Stale
    ensures { (viewers : List (ℕ × AViewer)) (caret : Option ACaret) (newest : Option ASelection)
        (v : ℕ)
        → result ≡ stale_by_gesture viewers caret newest (Menu v) keys }
{
    match keys {
        Keys::LeftMiddle | Keys::Middle => Stale::All,
        _ => Stale::Nothing,
    }
}

/// Which texts the keys of the mouse may change in the main text of a viewer.
#[tactic(auto, unfolding(desk_input::specs::Stale::stale_by_gesture))]
fn stale_in_text(
    viewers: &ViewerTable,
    caret: Option<Caret>,
    newest: Option<Selection>,
    id: u16,
    keys: Keys,
) -> Stale
    ensures { result ≡ stale_by_gesture viewers.now.items caret newest (Body id) keys }
{
    match keys {
        Keys::Middle => Stale::All,
        Keys::LeftMiddle | Keys::RightLeft => stale_in(viewers, id),
        Keys::LeftRight => stale_selected(viewers, newest),
        Keys::RightMiddle => stale_at_caret(viewers, caret),
        _ => Stale::Nothing,
    }
}

/// The main text of a viewer.
fn stale_in(viewers: &ViewerTable, id: u16) -> Stale
    ensures { result ≡ stale_in viewers.now.items id }
{
    Stale::Text(viewer_or_none(viewers, id).main)
}

/// The text in which the caret stands.
fn stale_at_caret(viewers: &ViewerTable, caret: Option<Caret>) -> Stale
    ensures { result ≡ stale_at_caret viewers.now.items caret }
{
    match caret {
        None => Stale::Nothing,
        Some(caret) => stale_in(viewers, caret.viewer),
    }
}

/// The text of a selection.
fn stale_selected(viewers: &ViewerTable, selection: Option<Selection>) -> Stale
    ensures { result ≡ stale_selected viewers.now.items selection }
{
    match selection {
        None => Stale::Nothing,
        Some(selection) => stale_in(viewers, selection.viewer),
    }
}

/// From which position on the event may change a text.
#[tactic(auto, unfolding(desk_input::specs::Stale::stale_from))]
pub fn stale_from(desk: &Desk, event: &Event) -> u32
    ensures { result ≡ stale_from (kept_desktop desk.now) event.now }
{
    match event {
        Event::Typed(_) => position_or_zero(desk.caret),
        _ => 0,
    }
}

/// Where the caret stands.
fn position_or_zero(caret: Option<Caret>) -> u32
    ensures { result ≡ position_or_zero caret }
{
    match caret {
        None => 0,
        Some(caret) => caret.position,
    }
}

/// Gives up the lines of these texts that may change where a text changes from that position on. Those that are left
/// are so of all texts of which the others are as before, and all have the same characters before the position.
pub fn forget(lines: &mut KeptLines, stale: Stale, from: u32)
    ensures { (before after : ℕ → AText ℕ)
        → ((n : ℕ) → is_stale stale n ≡ false → after n ≡ before n)
        → ((n : ℕ) → take from (after n) ≡ take from (before n))
        → AreLinesOf before lines.old → AreLinesOf after lines.new }
{
    match stale {
        Stale::Nothing => (),
        Stale::Text(number) => lines.forget_text(number, from),
        Stale::All => lines.forget_all(),
    }
}
