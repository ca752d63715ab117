//! What the parts of an image have to do with each other: tests of lengths and numbers.
ghost use Rattle.std.specs.Prelude.{◌≡◌, ◌+◌, ◌==◌, ◌<◌, ◌≤◌, ◌^◌, length, map, nat_lt, option_map};
ghost use Rattle.std.specs.List.{list_all};
ghost use Rattle.std.specs.Map.{keys_of};
ghost use Rattle.viewer_tracks.specs.Viewers.{times_in};
ghost use Rattle.viewer_tracks.specs.Columns.{times_on, times_meant};
ghost use Rattle.desktop_definitions.specs.Opening.{is_shown};
ghost use Rattle.image_format.specs.Pictures.{entry_of_stretch, stack_of_stretches as levels_of};
ghost use Rattle.desktop_image.specs.Images.{size_of, leaves_menu, is_framed, are_texts, has_id};
ghost use Rattle.desktop_image.specs.Images.{are_known, is_closed_known, highest};
ghost use Rattle.desktop_image.specs.Images.{stands_once, are_placed, is_on_top, main_size, is_caret_within, is_selection};
ghost use Rattle.desktop_image.specs.Images.{same_ranked, is_pictured};

use crate::imaging::ranked_in;
use desk_core::tables::{has_id, is_in_sight};
use desk_core::viewers::{Texts, ViewerTable, viewer_or_none};
use desk_core::views::position_in;
use desktop_definitions::{Caret, ClosedViewer, Selection, Viewer};
use image_format::{Ranked, Stretch, Stretches, ViewerPicture};

// ---- texts and the viewers that show them

/// How many characters the text of that number has.
fn size_of(texts: &Texts, number: u16) -> u32
    ensures { result ≡ size_of texts.now.entries number }
{
    match texts.get(&number) {
        Some(text) => text.len(),
        None => 0,
    }
}

/// Whether another viewer leaves its menu to a viewer.
fn leaves_menu(entry: (u16, Viewer), other: (u16, Viewer)) -> bool
    ensures { result ≡ leaves_menu entry other }
{
    other.1.main != entry.1.menu && (other.1.menu != entry.1.menu || other.0 == entry.0)
}

/// Whether all viewers do.
fn all_leave_menu(viewers: &ViewerTable, entry: (u16, Viewer)) -> bool
    ensures { result ≡ list_all (leaves_menu entry) viewers.now.items }
{
    viewers.iter().all(|other| leaves_menu(entry, *other))
}

/// Whether both texts of a viewer are there, and its menu is its own.
#[tactic(auto, unfolding(crate::specs::Images::is_framed))]
fn is_framed(texts: &Texts, viewers: &ViewerTable, entry: (u16, Viewer)) -> bool
    ensures { result ≡ is_framed texts.now.entries viewers.now.items entry }
{
    let viewer = entry.1;
    texts.contains_key(&viewer.menu)
        && texts.contains_key(&viewer.main)
        && viewer.org <= size_of(texts, viewer.main)
        && viewer.menu != 0
        && all_leave_menu(viewers, entry)
}

/// Whether that holds of all viewers.
fn are_framed(texts: &Texts, viewers: &ViewerTable) -> bool
    ensures { result ≡ list_all (is_framed texts.now.entries viewers.now.items) viewers.now.items }
{
    viewers
        .iter()
        .all(|entry| is_framed(texts, viewers, *entry))
}

/// Whether each text is the log or shown by a viewer.
fn are_shown(texts: &Texts, viewers: &ViewerTable) -> bool
    ensures { result ≡ list_all (is_shown viewers.now.items) (keys_of texts.now.entries) }
{
    for number in texts.keys() {
        if *number != 0 && !is_in_sight(viewers, *number) {
            return false;
        }
    }
    true
}

/// Whether the texts are just those of the viewers, and the log.
#[tactic(auto, unfolding(crate::specs::Images::are_texts))]
pub fn are_texts(texts: &Texts, viewers: &ViewerTable) -> bool
    ensures { result ≡ are_texts texts.now.entries viewers.now.items }
{
    texts.contains_key(&0) && are_framed(texts, viewers) && are_shown(texts, viewers)
}

// ---- places

/// How often a viewer stands in a track.
#[tactic(auto, using(crate::proofs::DraftLemmas::times_are))]
fn times_in(stretches: &[Stretch], id: u16) -> usize
    ensures { result ≡ times_in id (map entry_of_stretch stretches.now) }
{
    let mut times = 0;
    for stretch in stretches {
        if stretch.viewer == id {
            times += 1;
        }
    }
    times
}

/// How often a viewer stands in the tracks of a column.
#[tactic(auto, using(crate::proofs::DraftLemmas::times_over))]
fn times_on(stack: &[Stretches], id: u16) -> usize
    requires { length stack.now < 2 ^ 8 }
    ensures value { result ≡ times_on id (levels_of stack.now) }
    ensures few { result < 2 ^ 16 }
{
    let mut times = 0;
    for track in stack {
        times += times_in(track.as_slice(), id);
    }
    times
}

/// Once where that viewer is the closed one.
fn times_closed(closed: Option<ClosedViewer>, id: u16) -> usize
    ensures value { result ≡ times_meant id (option_map (λ k. k.viewer) closed) }
    ensures few { result ≤ 1 }
{
    match closed {
        None => 0,
        Some(closed) => { if closed.viewer == id { 1 } else { 0 } }
    }
}

/// Whether all of a track are viewers.
fn are_viewers(viewers: &ViewerTable, stretches: &[Stretch]) -> bool
    ensures { result ≡ list_all (λ e. has_id viewers.now.items e.viewer)
        (map entry_of_stretch stretches.now) }
{
    stretches
        .iter()
        .all(|stretch| has_id(viewers.as_slice(), stretch.viewer))
}

/// Whether all of the tracks of a column are.
fn are_known(viewers: &ViewerTable, stack: &[Stretches]) -> bool
    ensures { result ≡ are_known viewers.now.items (levels_of stack.now) }
{
    stack
        .iter()
        .all(|track| are_viewers(viewers, track.as_slice()))
}

/// Whether the closed one is a viewer, where there is one.
fn is_closed_known(viewers: &ViewerTable, closed: Option<ClosedViewer>) -> bool
    ensures { result ≡ is_closed_known viewers.now.items closed }
{
    match closed {
        None => true,
        Some(closed) => has_id(viewers.as_slice(), closed.viewer),
    }
}

/// Whether a viewer stands in one place.
fn stands_once(
    user: &[Stretches],
    system: &[Stretches],
    closed: Option<ClosedViewer>,
    id: u16,
) -> bool
    requires user { length user.now < 2 ^ 8 }
    requires system { length system.now < 2 ^ 8 }
    ensures { result ≡ (times_on id (levels_of user.now) + times_on id (levels_of system.now)
        + times_meant id (option_map (λ k. k.viewer) closed) == 1) }
{
    times_on(user, id) + times_on(system, id) + times_closed(closed, id) == 1
}

/// Whether each viewer does.
fn stand_once(
    viewers: &ViewerTable,
    user: &[Stretches],
    system: &[Stretches],
    closed: Option<ClosedViewer>,
) -> bool
    requires user { length user.now < 2 ^ 8 }
    requires system { length system.now < 2 ^ 8 }
    ensures { result ≡ list_all (stands_once (levels_of user.now) (levels_of system.now) closed)
        viewers.now.items }
{
    viewers
        .iter()
        .all(|entry| stands_once(user, system, closed, entry.0))
}

/// Whether each viewer stands in one place, in a track or as the closed one, and nothing else does.
#[tactic(auto, unfolding(crate::specs::Images::are_placed))]
pub fn are_placed(
    user: &[Stretches],
    system: &[Stretches],
    closed: Option<ClosedViewer>,
    viewers: &ViewerTable,
) -> bool
    requires user { length user.now < 2 ^ 8 }
    requires system { length system.now < 2 ^ 8 }
    ensures { result ≡ are_placed (levels_of user.now) (levels_of system.now) closed
        viewers.now.items }
{
    stand_once(viewers, user, system, closed)
        && are_known(viewers, user)
        && are_known(viewers, system)
        && is_closed_known(viewers, closed)
}

// ---- what is marked

/// Whether a viewer stands in the highest track of a column.
fn stands_highest(stack: &[Stretches], id: u16) -> bool
    ensures { result ≡ nat_lt 0 (times_in id (highest (levels_of stack.now))) }
{
    match stack.last() {
        Some(track) => times_in(track.as_slice(), id) > 0,
        None => false,
    }
}

/// Whether a viewer stands in a track that is shown.
fn is_on_top(user: &[Stretches], system: &[Stretches], id: u16) -> bool
    ensures { result ≡ is_on_top (levels_of user.now) (levels_of system.now) id }
{
    stands_highest(user, id) || stands_highest(system, id)
}

/// How many characters the main text of a viewer has.
fn main_size(texts: &Texts, viewers: &ViewerTable, id: u16) -> u32
    ensures { result ≡ main_size texts.now.entries viewers.now.items id }
{
    size_of(texts, viewer_or_none(viewers, id).main)
}

/// Whether a caret stands in a viewer of a track that is shown, within its text.
#[tactic(auto, unfolding(crate::specs::Images::is_caret_within))]
pub fn is_caret(
    texts: &Texts,
    viewers: &ViewerTable,
    user: &[Stretches],
    system: &[Stretches],
    caret: Option<Caret>,
) -> bool
    ensures { result ≡ is_caret_within texts.now.entries viewers.now.items (levels_of user.now)
        (levels_of system.now)
        caret }
{
    match caret {
        None => true,
        Some(caret) => {
            is_on_top(user, system, caret.viewer)
                && caret.position <= main_size(texts, viewers, caret.viewer)
        }
    }
}

/// Whether a selection has some character, of a viewer of a track that is shown.
#[tactic(auto, unfolding(crate::specs::Images::is_selection))]
fn is_selection(
    texts: &Texts,
    viewers: &ViewerTable,
    user: &[Stretches],
    system: &[Stretches],
    selection: Selection,
) -> bool
    ensures { result ≡ is_selection texts.now.entries viewers.now.items (levels_of user.now)
        (levels_of system.now) selection }
{
    is_on_top(user, system, selection.viewer)
        && selection.beg < selection.end
        && selection.end <= main_size(texts, viewers, selection.viewer)
}

/// Whether all selections have.
pub fn are_selections(
    texts: &Texts,
    viewers: &ViewerTable,
    user: &[Stretches],
    system: &[Stretches],
    selections: &[Selection],
) -> bool
    ensures { result
        ≡ list_all (is_selection texts.now.entries viewers.now.items (levels_of user.now)
        (levels_of system.now)) selections.now }
{
    selections.iter().all(|selection| is_selection(texts, viewers, user, system, *selection))
}

// ---- a viewer's caret and selection are those that the desktop has there

/// Whether two selections are the same, or both are missing.
fn same_ranked(a: Option<Ranked>, b: Option<Ranked>) -> bool
    ensures { result ≡ same_ranked a b }
{
    match a {
        None => b.is_none(),
        Some(r) => match b {
            None => false,
            Some(s) => r.rank == s.rank && r.beg == s.beg && r.end == s.end,
        },
    }
}

/// Whether the caret and the selection of a viewer are these.
#[tactic(auto, unfolding(crate::specs::Images::is_pictured))]
fn is_pictured(caret: Option<Caret>, selections: &[Selection], picture: &ViewerPicture) -> bool
    requires { length selections.now < 2 ^ 8 }
    ensures { result ≡ is_pictured caret selections.now picture.now }
{
    position_in(picture.id, caret) == picture.caret
        && same_ranked(ranked_in(selections, picture.id), picture.selection)
}

/// Whether those of all viewers are.
pub fn are_pictured(
    caret: Option<Caret>,
    selections: &[Selection],
    pictures: &[ViewerPicture],
) -> bool
    requires { length selections.now < 2 ^ 8 }
    ensures { result ≡ list_all (is_pictured caret selections.now) pictures.now }
{
    pictures
        .iter()
        .all(|picture| is_pictured(caret, selections, picture))
}
