//! Texts that would be lost where their viewer is closed.
ghost use Rattle.std.specs.Prelude.{◌≡◌, ◌↔◌, ℕ, true, List, length, IfOk, option_map};
ghost use Rattle.piece_ring.specs.Text.{Text as AText};
ghost use Rattle.readers_scanners.specs.Form.{symbol};
ghost use Rattle.readers_scanners.specs.Words.{ReadsOrFails, bytes_of_text};
ghost use Rattle.command_table.specs.Parameters.{name_in};
ghost use Rattle.desktop_definitions.specs.Desktop.{file_of as file_of_desktop};
ghost use Rattle.desktop_definitions.specs.Viewers.{main_of};
ghost use Rattle.desktop_definitions.specs.Effects.{menu_name};
ghost use Rattle.desk_core.specs.Words.{flat, AreWithin, IsOnTop, IsKeptWhole, IsOver, kept_desktop, seen, TellsValue};
ghost use Rattle.desk_views.specs.Unstored.{is_same_text, is_in_file, is_stored, was_closed};
ghost use Rattle.desk_views.specs.Unstored.{closed_id, shows_too, is_shown_too, is_single, is_its_own, is_unstored};

use crate::same_texts::is_same_text;
use char_file::{CharSource, Fault};
use command_table::{name_in, symbol_at};
use desk_core::desk::Desk;
use desk_core::files::file_of;
use desk_core::viewers::viewer_or_none;
use desktop_definitions::{ClosedViewer, Viewer};
use event_bytes::Name;
use text_core::Text;

/// Texts have the same characters just where they are one and the same list of characters with their looks.
pub fn same_texts_are_equal()
    ensures { (text other : AText ℕ) → is_same_text text other ≡ true ↔ text ≡ other }
{}

/// Whether the file of that name is there and has a viewer's main text. `Fault`: the source failed in this call.
pub(crate) fn is_in_file<S: CharSource>(
    desk: &Desk,
    id: u16,
    name: &Name,
    source: &mut S,
) -> Result<bool, Fault>
    requires over { IsOver (S.characters source.old) (kept_desktop desk.now) }
    requires placed { IsOnTop id (kept_desktop desk.now).columns }
    ensures { TellsValue S.CharSource result
        (λ d. is_in_file (main_of d id) (file_of_desktop d name.now)) source.old source.new
        (kept_desktop desk.now) }
{
    match file_of(&desk.files, name) {
        None => Ok(false),
        Some(file) => is_same_text(desk.main_text(id), file, source),
    }
}

/// The document that a menu names by its first symbol. None where that is no name. `Fault`: the source failed in this
/// call.
pub(crate) fn document_name<S: CharSource>(
    menu: &Text,
    source: &mut S,
) -> Result<Option<Name>, Fault>
    requires { AreWithin (length (S.characters source.old)) (flat menu.now) }
    ensures name { IfOk result (λ name. S.honest source.old → name
        ≡ name_in (symbol (bytes_of_text (S.characters source.old) (flat menu.now)) 0).0) }
    ensures source { ReadsOrFails S.CharSource result source.old source.new }
{
    let symbol = symbol_at(menu, 0, source)?;
    Ok(name_in(&symbol))
}

/// The document that a viewer's menu names. None where its first symbol is no name. `Fault`: the source failed in this
/// call.
pub(crate) fn document_of<S: CharSource>(
    desk: &Desk,
    id: u16,
    source: &mut S,
) -> Result<Option<Name>, Fault>
    requires over { IsOver (S.characters source.old) (kept_desktop desk.now) }
    requires placed { IsOnTop id (kept_desktop desk.now).columns }
    ensures { TellsValue S.CharSource result (λ d. menu_name d id) source.old source.new
        (kept_desktop desk.now) }
{
    document_name(desk.text_called(id, true), source)
}

/// Whether the file that a viewer's menu names has its main text. `Fault`: the source failed in this call.
fn is_stored<S: CharSource>(desk: &Desk, id: u16, source: &mut S) -> Result<bool, Fault>
    requires over { IsOver (S.characters source.old) (kept_desktop desk.now) }
    requires placed { IsOnTop id (kept_desktop desk.now).columns }
    ensures { TellsValue S.CharSource result (λ d. is_stored d id) source.old source.new
        (kept_desktop desk.now) }
{
    match document_of(desk, id, source)? {
        None => Ok(false),
        Some(name) => is_in_file(desk, id, &name, source),
    }
}

/// The id of the viewer that was closed last.
pub(crate) fn closed_id(closed: Option<ClosedViewer>) -> Option<u16>
    ensures { result ≡ option_map (λ k. k.viewer) closed }
{
    match closed {
        None => None,
        Some(closed) => Some(closed.viewer),
    }
}

/// Whether that viewer was closed last.
pub(crate) fn was_closed(closed: Option<u16>, id: u16) -> bool
    ensures { result ≡ was_closed closed id }
{
    match closed {
        None => false,
        Some(closed) => id == closed,
    }
}

/// Whether a viewer of the table is on the display, has another id, and shows the text of that number.
fn shows_too(id: u16, number: u16, closed: Option<u16>, entry: &(u16, Viewer)) -> bool
    ensures { result ≡ shows_too id number closed entry.now }
{
    entry.1.main == number && entry.0 != id && !was_closed(closed, entry.0)
}

/// Whether another viewer on the display shows a viewer's main text.
fn is_shown_too(desk: &Desk, id: u16) -> bool
    ensures { result ≡ is_shown_too (kept_desktop desk.now) id }
{
    let number = viewer_or_none(&desk.viewers, id).main;
    let closed = closed_id(desk.closed);
    desk.viewers
        .iter()
        .any(|entry| shows_too(id, number, closed, entry))
}

/// Whether a text isn't the log, has a character, and is shown by no other viewer.
fn is_single(number: u16, len: u32, is_shown_too: bool) -> bool
    ensures { result ≡ is_single number len is_shown_too }
{
    number != 0 && len > 0 && !is_shown_too
}

/// Whether a viewer's main text is such a one.
fn is_its_own(desk: &Desk, id: u16) -> bool
    requires whole { IsKeptWhole (kept_desktop desk.now) }
    requires placed { IsOnTop id (kept_desktop desk.now).columns }
    ensures { (characters : List ℕ)
        → result ≡ is_its_own (seen characters (kept_desktop desk.now)) id }
{
    let number = viewer_or_none(&desk.viewers, id).main;
    let len = desk.main_text(id).len();
    is_single(number, len, is_shown_too(desk, id))
}

/// Whether a viewer's main text is lost where the viewer is closed. `Fault`: the source failed in this call.
pub(crate) fn is_unstored<S: CharSource>(
    desk: &Desk,
    id: u16,
    source: &mut S,
) -> Result<bool, Fault>
    requires over { IsOver (S.characters source.old) (kept_desktop desk.now) }
    requires placed { IsOnTop id (kept_desktop desk.now).columns }
    ensures { TellsValue S.CharSource result (λ d. is_unstored d id) source.old source.new
        (kept_desktop desk.now) }
{
    if !is_its_own(desk, id) {
        return Ok(false);
    }
    let stored = is_stored(desk, id, source)?;
    Ok(!stored)
}
