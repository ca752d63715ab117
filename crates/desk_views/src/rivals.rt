//! Documents that are open in two viewers, with two texts.
ghost use Rattle.std.specs.Prelude.{◌≡◌, ℕ, List};
ghost use Rattle.std.specs.List.{list_any};
ghost use Rattle.desktop_definitions.specs.Viewers.{viewer_of};
ghost use Rattle.desk_core.specs.Words.{IsOnTop, IsOver, kept_desktop, TellsValue};
ghost use Rattle.desk_views.specs.Views.{AreThere};
ghost use Rattle.desk_views.specs.Losses.{is_named, is_rival, is_stored_over, is_rivalled};

use crate::unstored::{closed_id, document_name, document_of, is_in_file, was_closed};
use char_file::{CharSource, Fault};
use desk_core::desk::Desk;
use desk_core::viewers::viewer_or_none;
use desk_core::views::text_there;
use desktop_definitions::Viewer;
use event_bytes::Name;

/// Whether a menu names that document.
fn is_named(named: Option<Name>, name: &Name) -> bool
    ensures { result ≡ is_named named name.now }
{
    match named {
        None => false,
        Some(other) => other == *name,
    }
}

/// Whether a viewer of the table is on the display, shows another text than that of a number, and is named so. `Fault`:
/// the source failed in this call.
fn is_rival<S: CharSource>(
    desk: &Desk,
    number: u16,
    name: &Name,
    entry: (u16, Viewer),
    source: &mut S,
) -> Result<bool, Fault>
    requires over { IsOver (S.characters source.old) (kept_desktop desk.now) }
    requires there { AreThere (kept_desktop desk.now) entry }
    ensures { TellsValue S.CharSource result (λ d. is_rival d number name.now entry) source.old
        source.new (kept_desktop desk.now) }
{
    if entry.1.main == number {
        return Ok(false);
    }
    if was_closed(closed_id(desk.closed), entry.0) {
        return Ok(false);
    }
    let named = document_name(text_there(&desk.texts, entry.1.menu), source)?;
    Ok(is_named(named, name))
}

/// Whether such a viewer is in the table. `Fault`: the source failed in this call.
fn has_rival<S: CharSource>(
    desk: &Desk,
    number: u16,
    name: &Name,
    source: &mut S,
) -> Result<bool, Fault>
    requires { IsOver (S.characters source.old) (kept_desktop desk.now) }
    ensures { TellsValue S.CharSource result (λ d. list_any (is_rival d number name.now) d.viewers)
        source.old source.new (kept_desktop desk.now) }
{
    let viewers = desk.viewers.as_slice();
    for at in 0..viewers.len() {
        let rivals = is_rival(desk, number, name, viewers[at], source)?;
        if rivals {
            return Ok(true);
        }
    }
    Ok(false)
}

/// Whether the document of a name has another text than a viewer, and is open in a rival of it. `Fault`: the source
/// failed in this call.
fn is_stored_over<S: CharSource>(
    desk: &Desk,
    id: u16,
    name: &Name,
    source: &mut S,
) -> Result<bool, Fault>
    requires over { IsOver (S.characters source.old) (kept_desktop desk.now) }
    requires placed { IsOnTop id (kept_desktop desk.now).columns }
    ensures { TellsValue S.CharSource result (λ d. is_stored_over d id (Some name.now)) source.old
        source.new (kept_desktop desk.now) }
{
    let stored = is_in_file(desk, id, name, source)?;
    if stored {
        return Ok(false);
    }
    let number = viewer_or_none(&desk.viewers, id).main;
    has_rival(desk, number, name, source)
}

/// The same of the document that the viewer's menu names. `Fault`: the source failed in this call.
pub(crate) fn is_rivalled<S: CharSource>(
    desk: &Desk,
    id: u16,
    source: &mut S,
) -> Result<bool, Fault>
    requires over { IsOver (S.characters source.old) (kept_desktop desk.now) }
    requires placed { IsOnTop id (kept_desktop desk.now).columns }
    ensures { TellsValue S.CharSource result (λ d. is_rivalled d id) source.old source.new
        (kept_desktop desk.now) }
{
    match document_of(desk, id, source)? {
        None => Ok(false),
        Some(name) => is_stored_over(desk, id, &name, source),
    }
}
