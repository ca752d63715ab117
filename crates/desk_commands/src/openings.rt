//! Viewers open: new texts and new viewers, and the limits before them.
ghost use Rattle.std.specs.Prelude.{◌≡◌, ◌+◌, ◌<◌, ◌≤◌, ◌^◌, ◌==◌, ◌||◌, ◌&&◌, ◌⊎◌, ℕ, List, [], length, if◌then◌else◌};
ghost use Rattle.std.specs.Prelude.{IfOk, OnOk, IsTrue, None, nat_lt};
ghost use Rattle.std.specs.List.{position_or_len};
ghost use Rattle.std.specs.BTreeMap.{insert_entry};
ghost use Rattle.viewer_tracks.specs.Columns.{replaced_at, times_meant};
ghost use Rattle.desktop_definitions.specs.Opening.{least_unused, with_new, new_id, with_viewer, opening_on};
ghost use Rattle.desktop_definitions.specs.Opening.{opening_over};
ghost use Rattle.desktop_definitions.specs.DeskWords.{CanOpen, is_taken, still_shown, kept_left};
ghost use Rattle.desk_core.specs.Words.{keys_of, nat_cmp, flat, Text as AText, COLUMNS, DEPTH, id_number, stack_of};
ghost use Rattle.desk_core.specs.Words.{most_written, most_held, lengths, without_unshown, seen, seen_table, IsKeptWhole, kept_desktop};
ghost use Rattle.desk_commands.specs.Words.{Track as ATrack, characters_held, viewer_in, without_viewer, more_written, after_opening};
ghost use Rattle.desk_commands.specs.Words.{fits};

use desk_core::desk::Desk;
use desk_core::held::{lengths, within_limits};
use desk_core::stop::NoMemory;
use desk_core::tables::{unused_id, unused_number};
use desk_core::viewers::{Texts, ViewerTable};
use desktop_definitions::Viewer;
use std::alloc::Global;
use std::collections::BTreeMap;
use text_core::{Buffer, Text};
use viewer_tracks::{Track, ViewerId, edits_place_viewers};

/// A copy of a text. NoMemory where an allocation is refused.
pub fn copy_of(alloc: Global, text: &Text) -> Result<Text, NoMemory>
    ensures { IfOk result (λ copy. flat copy ≡ flat text.now) }
{
    let mut buffer = Buffer::new(alloc)?;
    text.save(alloc, 0, text.len(), &mut buffer)?;
    let mut copy = Text::new(alloc)?;
    copy.append(alloc, &mut buffer)?;
    Ok(copy)
}

/// Whether a viewer is the one that goes.
fn is_taken(gone: Option<ViewerId>, id: u16) -> bool
    ensures { result ≡ is_taken (id_number gone) id }
{
    match gone {
        Some(gone) => gone.0 == id,
        None => false,
    }
}

/// Whether a viewer but the one that goes shows the text of that number.
fn is_still_shown(viewers: &ViewerTable, gone: Option<ViewerId>, number: u16) -> bool
    ensures { result ≡ still_shown (id_number gone) viewers.now.items number }
{
    viewers.iter().any(|entry| !is_taken(gone, entry.0)
        && (entry.1.menu == number || entry.1.main == number))
}

/// How many characters of a text stay once a viewer is gone: all, or none where nobody else shows it.
fn length_left(viewers: &ViewerTable, gone: Option<ViewerId>, number: u16, text: &Text) -> usize
    ensures { result ≡ (if (number == 0) || still_shown (id_number gone) viewers.now.items number
        then length (flat text.now) else 0) }
{
    if number == 0 || is_still_shown(viewers, gone, number) {
        text.len() as usize
    } else {
        0
    }
}

/// How many characters the texts have that stay once a viewer is gone.
fn lengths_left(texts: &BTreeMap<u16, Text>, viewers: &ViewerTable, gone: Option<ViewerId>) -> usize
    requires { lengths (seen_table [] texts.now.entries) ≤ most_held }
    ensures { result ≡ kept_left (λ n. (n == 0) || still_shown (id_number gone) viewers.now.items n)
        texts.now.entries }
{
    let mut sum = 0;
    for (number, text) in texts {
        sum += length_left(viewers, gone, *number, text);
    }
    sum
}

/// The place of the first viewer of a greater id, or the number of viewers.
fn place_above(viewers: &[(u16, Viewer)], id: u16) -> usize
    ensures value { result ≡ position_or_len (λ e. nat_lt id e.0) viewers.now }
    ensures within { result ≤ length viewers.now }
{
    viewers
        .iter()
        .position(|entry| id < entry.0)
        .unwrap_or(viewers.len())
}

/// A text more, of the least number that no text has; returns that number. NoMemory where an allocation is refused.
pub fn add_text(texts: &mut Texts, text: Text) -> Result<u16, NoMemory>
    requires { length texts.old.entries < 2 ^ 16 }
    ensures texts { OnOk result (texts.new.entries ≡ with_new texts.old.entries text) }
    ensures number { IfOk result (λ n. n ≡ least_unused (keys_of texts.old.entries)) }
{
    let number = unused_number(texts);
    texts.insert(number, text)?;
    Ok(number)
}

/// A viewer of a new id comes into the table. NoMemory where an allocation is refused.
fn add_viewer(viewers: &mut ViewerTable, id: u16, viewer: Viewer) -> Result<(), NoMemory>
    requires { viewer_in viewers.old.items id ≡ None }
    ensures { OnOk result (viewers.new.items ≡ insert_entry nat_cmp viewers.old.items id viewer) }
{
    let at = place_above(viewers.as_slice(), id);
    viewers.insert(at, (id, viewer))?;
    Ok(())
}

/// How many characters the desktop holds without that viewer and without the texts that nobody shows then.
fn held_without(desk: &Desk, gone: Option<ViewerId>) -> usize
    requires { IsKeptWhole (kept_desktop desk.now) }
    ensures held { (characters : List ℕ)
        → result ≡ characters_held
        (without_unshown
        (without_viewer (seen characters (kept_desktop desk.now)) (id_number gone))) }
    ensures few { result ≤ most_held }
{
    let texts = lengths_left(&desk.texts, &desk.viewers, gone);
    texts + lengths(&desk.files) + desk.copied.len() as usize + desk.deleted.len() as usize
}

/// How many characters the desktop holds without the viewer that one replaces which opens at a cell. That isn't the
/// new one.
fn held_before(desk: &Desk, x: u8, y: u8) -> usize
    requires whole { IsKeptWhole (kept_desktop desk.now) }
    requires column { x < COLUMNS }
    ensures held { (characters : List ℕ) → result ≡ characters_held (without_unshown
        (without_viewer (seen characters (kept_desktop desk.now))
        (replaced_at (kept_desktop desk.now).columns x y))) }
    ensures few { result ≤ most_held }
    ensures apart { times_meant (new_id (kept_desktop desk.now))
        (replaced_at (kept_desktop desk.now).columns x y) ≡ 0 }
{
    edits_place_viewers();
    held_without(desk, desk.tracks.replaced(x, y))
}

/// Whether the limits on characters hold once a viewer opens at a cell, with a menu that is written anew and a main
/// text of so many characters.
pub fn opening_fits(desk: &Desk, menu: usize, main: u32, x: u8, y: u8) -> bool
    requires whole { IsKeptWhole (kept_desktop desk.now) }
    requires short { menu < 2 ^ 32 }
    requires column { x < COLUMNS }
    ensures room { IsTrue result → desk.now.written + menu ≤ most_written }
    ensures fits { (characters : List ℕ) (menu_text main_text : AText ℕ) → length menu_text ≡ menu
        → length main_text ≡ main
        → result ≡ fits (without_unshown (more_written
        (after_opening (seen characters (kept_desktop desk.now)) menu_text main_text (x, y))
        menu)) }
{
    within_limits(
        desk.written as usize + menu,
        held_before(desk, x, y) + main as usize + menu,
    )
}

/// Whether the limits on characters hold once a viewer opens at a cell on a text that is there and stays, with a
/// menu of so many characters, of which `made` are written anew.
pub fn opening_on_fits(desk: &Desk, made: usize, menu: usize, x: u8, y: u8) -> bool
    requires whole { IsKeptWhole (kept_desktop desk.now) }
    requires made { made < 2 ^ 32 }
    requires menu { menu < 2 ^ 32 }
    requires column { x < COLUMNS }
    ensures room { IsTrue result → desk.now.written + made ≤ most_written }
    ensures fits { (characters : List ℕ) (menu_text : AText ℕ) (main org : ℕ) → length menu_text
        ≡ menu
        → (main ≡ 0) ⊎ (replaced_at (kept_desktop desk.now).columns x y ≡ None)
        → result ≡ fits (without_unshown (more_written
        (opening_on (seen characters (kept_desktop desk.now)) menu_text main org (x, y)) made)) }
{
    within_limits(desk.written as usize + made, held_before(desk, x, y) + menu)
}

/// A viewer of a new menu and of the text of a number comes to the desktop, but stands nowhere yet; returns its id.
/// NoMemory where an allocation is refused.
fn join(desk: &mut Desk, menu: Text, main: u16, org: u32) -> Result<u16, NoMemory>
    requires { CanOpen (kept_desktop desk.old) }
    ensures desk { OnOk result
        (kept_desktop desk.new ≡ with_viewer (kept_desktop desk.old) menu main org) }
    ensures id { IfOk result (λ id. id ≡ new_id (kept_desktop desk.old)) }
{
    let number = add_text(&mut desk.texts, menu)?;
    let id = unused_id(desk.viewers.as_slice());
    let viewer = Viewer {
        menu: number,
        main,
        org,
    };
    add_viewer(&mut desk.viewers, id, viewer)?;
    Ok(id)
}

/// A viewer of a new menu and of the text of a number opens in the track of column `x`, up to row `y`. If it takes the
/// whole place of another viewer, that one is removed, with the texts that no other viewer shows. NoMemory where an
/// allocation is refused.
pub fn open_on(
    desk: &mut Desk,
    menu: Text,
    main: u16,
    org: u32,
    x: u8,
    y: u8,
) -> Result<(), NoMemory>
    requires can { CanOpen (kept_desktop desk.old) }
    requires column { x < COLUMNS }
    ensures { OnOk result
        (kept_desktop desk.new
        ≡ without_unshown (opening_on (kept_desktop desk.old) menu main org (x, y))) }
{
    let id = join(desk, menu, main, org)?;
    desk.open_at(id, x, y);
    Ok(())
}

/// Whether the limits on characters hold once a viewer has a new track, over one that is shown, with a menu of so many
/// characters, none of them written anew.
pub fn opening_over_fits(desk: &Desk, menu: usize) -> bool
    requires whole { IsKeptWhole (kept_desktop desk.now) }
    requires menu { menu < 2 ^ 32 }
    ensures { (characters : List ℕ) (menu_text : AText ℕ) (main org : ℕ) (k : ATrack)
        → length menu_text ≡ menu
        → result ≡ fits
        (without_unshown
        (opening_over (seen characters (kept_desktop desk.now)) menu_text main org k)) }
{
    within_limits(desk.written as usize, desk.held() + menu)
}

/// A viewer of a new menu and of the text of a number has a new track, over the one that the column shows, in which
/// nothing is marked any more. NoMemory where an allocation is refused.
pub fn open_over(
    desk: &mut Desk,
    menu: Text,
    main: u16,
    org: u32,
    track: Track,
) -> Result<(), NoMemory>
    requires { CanOpen (kept_desktop desk.old)
        × (length (stack_of (kept_desktop desk.old).columns track) < DEPTH) }
    ensures { OnOk result
        (kept_desktop desk.new ≡ opening_over (kept_desktop desk.old) menu main org track) }
{
    let id = join(desk, menu, main, org)?;
    desk.cover(id, track);
    Ok(())
}
