//! What goes with a viewer: its entry, its marks, and the texts that no other viewer shows.
ghost use Rattle.std.specs.Prelude.{◌≡◌, ◌==◌, ◌||◌, ◌<◌, ◌^◌, length, Some};
ghost use Rattle.std.specs.List.{list_any, position_or_len};
ghost use Rattle.std.specs.Map.{remove_entry};
ghost use Rattle.desktop_definitions.specs.Viewers.{without_viewer};
ghost use Rattle.desktop_definitions.specs.Opening.{least_unused};
ghost use Rattle.desk_core.specs.Words.{is_at, keys_of, nat_cmp, id_number, caret_outside, selections_outside};
ghost use Rattle.desk_core.specs.Words.{unmarked, without_unshown, kept_desktop};

use crate::desk::Desk;
use crate::viewers::ViewerTable;
use desktop_definitions::{Caret, Selection, Viewer};
use std::collections::BTreeMap;
use std::vec::Vec;
use text_core::Text;
use viewer_tracks::ViewerId;

/// The place of the viewer of that id in the table, or the number of viewers.
fn place_of(viewers: &[(u16, Viewer)], id: u16) -> usize
    ensures { result ≡ position_or_len (λ e. e.0 == id) viewers.now }
{
    viewers
        .iter()
        .position(|entry| entry.0 == id)
        .unwrap_or(viewers.len())
}

/// The viewer of that id goes from the table. Where there is none nothing changes.
fn remove_viewer(viewers: &mut ViewerTable, id: u16)
    ensures { viewers.new.items ≡ remove_entry (is_at (nat_cmp id)) viewers.old.items }
{
    let at = place_of(viewers.as_slice(), id);
    if at < viewers.len() {
        viewers.remove(at);
    }
}

/// The caret, unless it stands in that viewer.
fn caret_outside(caret: Option<Caret>, id: u16) -> Option<Caret>
    ensures { result ≡ caret_outside (λ w. w == id) caret }
{
    match caret {
        Some(there) => if there.viewer == id { None } else { caret },
        None => None,
    }
}

/// The selections in that viewer go.
pub fn unselect(selections: &mut Vec<Selection>, id: u16)
    ensures { selections.new.items ≡ selections_outside (λ w. w == id) selections.old.items }
{
    selections.retain(|selection| selection.viewer != id);
}

/// Whether a viewer shows the text of that number.
pub fn is_in_sight(viewers: &ViewerTable, number: u16) -> bool
    ensures { result ≡ list_any (λ e. (e.1.menu == number) || (e.1.main == number))
        viewers.now.items }
{
    viewers
        .iter()
        .any(|entry| entry.1.menu == number || entry.1.main == number)
}

/// The least number that no text has.
pub fn unused_number(texts: &BTreeMap<u16, Text>) -> u16
    requires { length texts.now.entries < 2 ^ 16 }
    ensures { result ≡ least_unused (keys_of texts.now.entries) }
{
    let len = texts.len() as u16;
    (0..len)
        .position(|number| !texts.contains_key(&number))
        .unwrap_or(len as usize) as u16
}

/// Whether there is a viewer of that id.
pub fn has_id(viewers: &[(u16, Viewer)], id: u16) -> bool
    ensures { result ≡ list_any (λ e. e.0 == id) viewers.now }
{
    viewers.iter().any(|entry| entry.0 == id)
}

/// The least id that no viewer has.
pub fn unused_id(viewers: &[(u16, Viewer)]) -> u16
    requires { length viewers.now < 2 ^ 16 }
    ensures { result ≡ least_unused (keys_of viewers.now) }
{
    let len = viewers.len() as u16;
    (0..len)
        .position(|id| !has_id(viewers, id))
        .unwrap_or(len as usize) as u16
}

impl Desk {
    /// Neither the caret nor a selection stands in that viewer any more.
    pub fn unmark_viewer(&mut self, id: u16)
        ensures { kept_desktop self.new ≡ unmarked (λ w. w == id) (kept_desktop self.old) }
    {
        self.caret = caret_outside(self.caret, id);
        unselect(&mut self.selections, id);
    }

    /// The viewer of that id goes, with what is marked in it.
    fn remove_viewer(&mut self, id: u16)
        ensures { kept_desktop self.new ≡ without_viewer (kept_desktop self.old) (Some id) }
    {
        remove_viewer(&mut self.viewers, id);
        self.unmark_viewer(id);
    }

    /// Removes the texts that no viewer shows.
    fn drop_unshown(&mut self)
        ensures { kept_desktop self.new ≡ without_unshown (kept_desktop self.old) }
    {
        let viewers = &self.viewers;
        self.texts
            .retain(|number, _| *number == 0 || is_in_sight(viewers, *number));
    }

    /// Removes a viewer that has lost its whole place, where there is one, and the texts that no viewer shows then.
    pub fn let_go(&mut self, gone: Option<ViewerId>)
        ensures { kept_desktop self.new
            ≡ without_unshown (without_viewer (kept_desktop self.old) (id_number gone)) }
    {
        if let Some(gone) = gone {
            self.remove_viewer(gone.0);
        }
        self.drop_unshown();
    }
}
