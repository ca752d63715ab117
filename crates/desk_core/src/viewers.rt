//! The table of viewers by their ids, and what a change of a text does to them.
ghost use Rattle.std.specs.Prelude.{◌≡◌, ◌∷◌, [], ◌++◌, ◌+◌, ◌≤◌, ◌==◌, length, IfOk, OnOk, All, IsSome};
ghost use Rattle.std.specs.Map.{set_value};
ghost use Rattle.text_frames.specs.Rules.{shown_org};
ghost use Rattle.desktop_definitions.specs.Viewers.{viewer_in};
ghost use Rattle.desktop_definitions.specs.DeskWords.{IsMoved};
ghost use Rattle.desk_core.specs.Movable.{IsMovable, IsChangeOf};
ghost use Rattle.desk_core.specs.Words.{is_at, with_values, following_viewer, AreMoved, CanFollow, nat_cmp, CountsFault};
ghost use Rattle.desk_core.specs.Words.{OnlyReads, flat, AreWithin, bytes_of_text, text_numbered, viewer_or_none, text_in};
ghost use Rattle.desk_core.specs.Words.{caret_outside, selections_outside};

use crate::stop::NoMemory;
use char_file::{CharSource, Fault};
use desktop_definitions::{Caret, Selection, Viewer};
use std::collections::BTreeMap;
use std::vec::Vec;
use text_core::Text;
use text_frames::{org_after, org_to_show};

/// Viewers by rising ids.
pub type ViewerTable = Vec<(u16, Viewer)>;

/// Texts by number.
pub type Texts = BTreeMap<u16, Text>;

/// A change of the text of a number: at a position `more` characters came in, or from it on `fewer` went out.
#[derive(Clone, Copy, Debug, PartialEq, Eq)]
pub struct TextChange {
    pub number: u16,
    pub pos: u32,
    pub more: u32,
    pub fewer: u32,
}

/// The viewer of that id. None where there is none.
pub fn viewer_of(viewers: &ViewerTable, id: u16) -> Option<Viewer>
    ensures { result ≡ viewer_in viewers.now.items id }
{
    for (number, viewer) in viewers {
        if *number == id {
            return Some(*viewer);
        }
    }
    None
}

/// The viewer of that id shows its main text from that position on. Where there is no such viewer nothing changes.
pub fn set_org(viewers: &mut ViewerTable, id: u16, org: u32)
    ensures { viewers.new.items ≡ set_value (is_at (nat_cmp id)) viewers.old.items
        (record (viewer_or_none viewers.old.items id) { org = org }) }
{
    for at in 0..viewers.len() {
        if viewers[at].0 == id {
            viewers[at].1.org = org;
            return;
        }
    }
}

/// The viewer of that id, and where there is none one of no texts.
pub fn viewer_or_none(viewers: &ViewerTable, id: u16) -> Viewer
    ensures { result ≡ viewer_or_none viewers.now.items id }
{
    match viewer_of(viewers, id) {
        None => Viewer {
            menu: 0,
            main: 0,
            org: 0,
        },
        Some(viewer) => viewer,
    }
}

/// Whether the viewer of that id shows the text of a number as its main one.
fn shows(viewers: &ViewerTable, number: u16, id: u16) -> bool
    ensures { result ≡ ((viewer_or_none viewers.now.items id).main == number) }
{
    viewer_or_none(viewers, id).main == number
}

/// The caret, unless it stands in a viewer that shows the text of that number.
pub fn caret_outside(viewers: &ViewerTable, number: u16, caret: Option<Caret>) -> Option<Caret>
    ensures { result ≡ caret_outside (λ v. (viewer_or_none viewers.now.items v).main == number)
        caret }
{
    match caret {
        None => None,
        Some(caret) => {
            if shows(viewers, number, caret.viewer) {
                None
            } else {
                Some(caret)
            }
        }
    }
}

/// No selection stands in a viewer any more that shows the text of that number.
pub fn unselect(viewers: &ViewerTable, number: u16, selections: &mut Vec<Selection>)
    ensures { selections.new.items
        ≡ selections_outside (λ v. (viewer_or_none viewers.now.items v).main == number)
        selections.old.items }
{
    selections.retain(|s| !shows(viewers, number, s.viewer));
}

/// The selection is the newest one, and no other stands in its viewer.
pub fn select(selections: &mut Vec<Selection>, newest: Selection) -> Result<(), NoMemory>
    ensures { OnOk result (selections.new.items
        ≡ selections_outside (λ w. w == newest.viewer) selections.old.items ++ newest ∷ []) }
{
    let id = newest.viewer;
    selections.retain(|s| s.viewer != id);
    selections.push(newest)?;
    Ok(())
}

/// `Fault`: the source failed in this call.
fn follow<S: CharSource>(
    entry: &mut (u16, Viewer),
    text: &Text,
    change: TextChange,
    source: &mut S,
) -> Result<(), Fault>
    requires change { IsChangeOf change (length (flat text.now)) }
    requires org { CanFollow change.number change.more change.fewer (length (flat text.now))
        entry.old }
    requires offsets { AreWithin (length (S.characters source.old)) (flat text.now) }
    ensures exact { OnOk result (S.honest source.old → entry.new ≡ (
      entry.old.0,
      following_viewer change.number (bytes_of_text (S.characters source.old) (flat text.now))
          change.pos change.more change.fewer
          entry.old.1,
    )) }
    ensures moved { OnOk result
        (IsMoved change.number (length (flat text.now)) entry.old entry.new) }
    ensures reads { OnlyReads S.characters S.failures S.honest S.same_ground source.old source.new }
    ensures cause { CountsFault result (S.failures source.old) (S.failures source.new) }
{
    let viewer = entry.1;
    if viewer.main == change.number {
        let org = org_after(
            viewer.org,
            text,
            change.pos,
            change.more,
            change.fewer,
            source,
        )?;
        entry.1.org = org;
    }
    Ok(())
}

/// The change rule at all viewers. `Fault`: the source failed in this call.
fn follow_all<S: CharSource>(
    viewers: &mut ViewerTable,
    text: &Text,
    change: TextChange,
    source: &mut S,
) -> Result<(), Fault>
    requires change { IsChangeOf change (length (flat text.now)) }
    requires orgs { All (CanFollow change.number change.more change.fewer (length (flat text.now)))
        viewers.old.items }
    requires offsets { AreWithin (length (S.characters source.old)) (flat text.now) }
    ensures exact { OnOk result (S.honest source.old → viewers.new.items ≡ with_values
        (following_viewer change.number (bytes_of_text (S.characters source.old) (flat text.now))
        change.pos change.more change.fewer)
        viewers.old.items) }
    ensures moved { OnOk result
        (AreMoved change.number (length (flat text.now)) viewers.old.items viewers.new.items) }
    ensures reads { OnlyReads S.characters S.failures S.honest S.same_ground source.old source.new }
    ensures cause { CountsFault result (S.failures source.old) (S.failures source.new) }
{
    for at in 0..viewers.len() {
        let entry = &mut viewers[at];
        follow(entry, text, change, source)?;
    }
    Ok(())
}

/// The same for the text that changed, as it is after the change.
pub fn follow_text<S: CharSource>(
    texts: &Texts,
    viewers: &mut ViewerTable,
    change: TextChange,
    source: &mut S,
) -> Result<(), Fault>
    requires there { IsSome (text_numbered texts.now.entries change.number) }
    requires change { IsChangeOf change (length (flat (text_in texts.now.entries change.number))) }
    requires orgs { All (CanFollow change.number change.more change.fewer
        (length (flat (text_in texts.now.entries change.number)))) viewers.old.items }
    requires offsets { AreWithin (length (S.characters source.old))
        (flat (text_in texts.now.entries change.number)) }
    ensures exact { OnOk result (S.honest source.old → viewers.new.items ≡ with_values
        (following_viewer change.number
        (bytes_of_text (S.characters source.old) (flat (text_in texts.now.entries change.number)))
        change.pos change.more change.fewer) viewers.old.items) }
    ensures moved { OnOk result
        (AreMoved change.number (length (flat (text_in texts.now.entries change.number)))
        viewers.old.items viewers.new.items) }
    ensures reads { OnlyReads S.characters S.failures S.honest S.same_ground source.old source.new }
    ensures cause { CountsFault result (S.failures source.old) (S.failures source.new) }
{
    match texts.get(&change.number) {
        Some(text) => follow_all(viewers, text, change, source),
        None => unreachable!(),
    }
}

/// Where the main frame of a viewer, of so many rows, begins so that a position is shown. `Fault`: the source failed in
/// this call.
pub fn org_in<S: CharSource>(
    texts: &Texts,
    viewers: &ViewerTable,
    id: u16,
    rows: u8,
    pos: u32,
    source: &mut S,
) -> Result<u32, Fault>
    requires movable { IsMovable (length (S.characters source.old)) texts.now.entries
        (viewer_or_none viewers.now.items id) }
    requires rows { rows ≤ 31 }
    requires place { pos ≤ length (flat
        (text_in texts.now.entries (viewer_or_none viewers.now.items id).main)) }
    ensures exact { IfOk result
        (λ new. S.honest source.old → new ≡ shown_org (bytes_of_text (S.characters source.old)
        (flat (text_in texts.now.entries (viewer_or_none viewers.now.items id).main)))
        rows pos (viewer_or_none viewers.now.items id).org) }
    ensures within { IfOk result (λ new. new
        ≤ length (flat (text_in texts.now.entries (viewer_or_none viewers.now.items id).main))) }
    ensures reads { OnlyReads S.characters S.failures S.honest S.same_ground source.old source.new }
    ensures cause { CountsFault result (S.failures source.old) (S.failures source.new) }
{
    let viewer = viewer_or_none(viewers, id);
    match texts.get(&viewer.main) {
        Some(text) => org_to_show(viewer.org, text, rows, pos, source),
        None => unreachable!(),
    }
}
