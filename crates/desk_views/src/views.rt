//! What a desk shows and lists of its viewers.
ghost use Rattle.std.specs.Prelude.{◌≡◌, ◌<◌, ◌≤◌, ◌+◌, ◌==◌, ◌++◌, ◌∷◌, [], ℕ, List};
ghost use Rattle.std.specs.Prelude.{if◌then◌else◌, length, map, All, IfOk, OnOk};
ghost use Rattle.readers_scanners.specs.Words.{contents};
ghost use Rattle.viewer_tracks.specs.Display.{left_of};
ghost use Rattle.viewer_tracks.specs.Columns.{track_on};
ghost use Rattle.desktop_definitions.specs.declared.entry.Entry.TheVariants.{Over};
ghost use Rattle.desktop_definitions.specs.Listing.{listed_name, viewer_entry, track_entries, column_entries};
ghost use Rattle.desktop_definitions.specs.Shown.{selection_in, shown_screen};
ghost use Rattle.desktop_definitions.specs.Unread.{without_name};
ghost use Rattle.desktop_definitions.specs.Viewers.{text_of};
ghost use Rattle.screen_cells.specs.Lines.{AreLinesOf};
ghost use Rattle.desk_core.specs.Words.{FailsAs, OnlyReads, flat, AreWithin, DEPTH, IsPlaced, stack_of, seen, IsOver};
ghost use Rattle.desk_core.specs.Words.{kept_desktop, IsStop};
ghost use Rattle.desk_views.specs.Views.{view_in, kept_view, AreThere};

use char_file::CharSource;
use desk_core::desk::Desk;
use desk_core::stop::{NoMemory, Stop};
use desk_core::viewers::viewer_or_none;
use desk_core::views::{position_in, text_there};
use desktop_definitions::{Entry, MenuName, Selection, Viewer};
use readers_scanners::Reader;
use screen_cells::{KeptLines, Screen, Shown};
use std::alloc::Global;
use std::vec::Vec;
use text_core::Text;
use text_frames::{Frame, FrameSelection};
use viewer_tracks::{Track, ViewerId};

/// Paints what the desktop shows; rows whose line is kept aren't read. NoMemory where an allocation is refused. Fault:
/// the source failed in this call, and the screen may show anything.
pub fn paint<S: CharSource>(
    desk: &Desk,
    lines: &mut KeptLines,
    source: &mut S,
    screen: &mut Screen,
) -> Result<(), Stop>
    requires { IsOver (S.characters source.old) (kept_desktop desk.now) }
    ensures shown { OnOk result (S.honest source.old
        → AreLinesOf (text_of (seen (S.characters source.old) (kept_desktop desk.now))) lines.old
        → screen.new ≡ shown_screen (seen (S.characters source.old) (kept_desktop desk.now))) }
    ensures lines { S.honest source.old
        → AreLinesOf (text_of (seen (S.characters source.old) (kept_desktop desk.now))) lines.old
        → AreLinesOf (text_of (seen (S.characters source.old) (kept_desktop desk.now))) lines.new }
    ensures reads { OnlyReads S.characters S.failures S.honest S.same_ground source.old source.new }
    ensures faults { FailsAs Stop.Fault IsStop result (S.failures source.old)
        (S.failures source.new) }
{
    let shown = shown_of(desk, &desk.viewers)?;
    lines.prepare()?;
    screen.paint(&desk.tracks, &shown, desk.marker, lines, source)?;
    Ok(())
}

/// Adds the entries of a column: its tracks from the lowest up, each with an entry for each of its viewers from the
/// bottom up, and before these one of how many tracks there are up to it, where it lies over others. NoMemory where an
/// allocation is refused, Fault where a character could not be read; the list then has some of them.
pub fn list_column<S: CharSource>(
    desk: &Desk,
    track: Track,
    entries: &mut Vec<Entry>,
    source: &mut S,
) -> Result<(), Stop>
    requires { IsOver (S.characters source.old) (kept_desktop desk.now) }
    ensures entries { OnOk result (S.honest source.old → entries.new.items
        ≡ entries.old.items ++ column_entries
        (seen (S.characters source.old) (kept_desktop desk.now)) track) }
    ensures unread { OnOk result ((all : List ℕ) → length all ≡ (kept_desktop desk.now).written
        → map without_name entries.new.items
        ≡ map without_name entries.old.items
        ++ map without_name (column_entries (seen all (kept_desktop desk.now)) track)) }
    ensures reads { OnlyReads S.characters S.failures S.honest S.same_ground source.old source.new }
    ensures faults { FailsAs Stop.Fault IsStop result (S.failures source.old)
        (S.failures source.new) }
{
    for below in 0..desk.tracks.levels(track) {
        list_over(track, below, entries)?;
        list_level(desk, track, below + 1, entries, source)?;
    }
    Ok(())
}

/// Adds the entry of a track that lies over so many others, where there are any. NoMemory where an allocation is
/// refused.
fn list_over(track: Track, below: u8, entries: &mut Vec<Entry>) -> Result<(), NoMemory>
    requires { below < DEPTH }
    ensures { OnOk result (entries.new.items
        ≡ entries.old.items ++ (if below == 0 then [] else Over (left_of track) (below + 1) ∷ [])) }
{
    if below == 0 {
        return Ok(());
    }
    entries.push(Entry::Over {
        x: track.left(),
        depth: below + 1,
    })?;
    Ok(())
}

/// Adds an entry for each viewer of the track of a level, from the bottom up. The lowest track has level 1. NoMemory
/// where an allocation is refused, Fault where a character could not be read; the list then has some of them.
fn list_level<S: CharSource>(
    desk: &Desk,
    track: Track,
    level: u8,
    entries: &mut Vec<Entry>,
    source: &mut S,
) -> Result<(), Stop>
    requires over { IsOver (S.characters source.old) (kept_desktop desk.now) }
    requires some { 0 < level }
    requires within { level ≤ length (stack_of (kept_desktop desk.now).columns track) }
    ensures entries { OnOk result (S.honest source.old → entries.new.items
        ≡ entries.old.items ++ track_entries
        (seen (S.characters source.old) (kept_desktop desk.now)) track
        (track_on (stack_of (kept_desktop desk.now).columns track) level)) }
    ensures unread { OnOk result ((all : List ℕ) → length all ≡ (kept_desktop desk.now).written
        → map without_name entries.new.items
        ≡ map without_name entries.old.items
        ++ map without_name (track_entries (seen all (kept_desktop desk.now)) track
        (track_on (stack_of (kept_desktop desk.now).columns track) level))) }
    ensures reads { OnlyReads S.characters S.failures S.honest S.same_ground source.old source.new }
    ensures faults { FailsAs Stop.Fault IsStop result (S.failures source.old)
        (S.failures source.new) }
{
    for index in 0..desk.tracks.count(track, level) {
        let (id, _) = desk.tracks.entry_in(track, level, index);
        let entry = entry_of(desk, track, id, source)?;
        entries.push(entry)?;
    }
    Ok(())
}

/// The entry of a viewer that stands in a track of that column, be that covered or not. NoMemory where an allocation is
/// refused, Fault where a character could not be read.
fn entry_of<S: CharSource>(
    desk: &Desk,
    track: Track,
    id: ViewerId,
    source: &mut S,
) -> Result<Entry, Stop>
    requires over { IsOver (S.characters source.old) (kept_desktop desk.now) }
    requires placed { IsPlaced id.0 (kept_desktop desk.now).columns }
    ensures entry { IfOk result (λ entry. S.honest source.old
        → entry ≡ viewer_entry (seen (S.characters source.old) (kept_desktop desk.now)) track
        id.0) }
    ensures unread { IfOk result (λ entry. (all : List ℕ)
        → length all ≡ (kept_desktop desk.now).written
        → without_name entry ≡ without_name (viewer_entry
        (seen all (kept_desktop desk.now)) track id.0)) }
    ensures reads { OnlyReads S.characters S.failures S.honest S.same_ground source.old source.new }
    ensures faults { FailsAs Stop.Fault IsStop result (S.failures source.old)
        (S.failures source.new) }
{
    let place = desk.tracks.place_of(id);
    let viewer = viewer_or_none(&desk.viewers, id.0);
    let menu = text_there(&desk.texts, viewer.menu);
    let main = text_there(&desk.texts, viewer.main);
    let name = menu_name(desk.alloc, menu, source)?;
    Ok(Entry::Viewer {
        x: track.left(),
        bottom: place.bottom,
        top: place.top,
        name,
        len: main.len(),
    })
}

/// The bytes of a menu up to its first space, or all where it has none. NoMemory where an allocation is refused, Fault
/// where a character could not be read.
fn menu_name<S: CharSource>(alloc: Global, menu: &Text, source: &mut S) -> Result<MenuName, Stop>
    requires { AreWithin (length (S.characters source.old)) (flat menu.now) }
    ensures name { IfOk result (λ name. S.honest source.old
        → name ≡ listed_name (contents (S.characters source.old) (flat menu.now))) }
    ensures reads { OnlyReads S.characters S.failures S.honest S.same_ground source.old source.new }
    ensures faults { FailsAs Stop.Fault IsStop result (S.failures source.old)
        (S.failures source.new) }
{
    let mut reader = Reader::open(menu, 0);
    let mut bytes = Vec::new(alloc);
    while let Some(character) = reader.read(source)? {
        if character.0 == b' ' {
            return Ok(MenuName::new(bytes));
        }
        bytes.push(character.0)?;
    }
    Ok(MenuName::new(bytes))
}

/// What is selected in that viewer.
fn selection_in(selections: &[Selection], id: u16) -> Option<FrameSelection>
    requires { length selections.now ≤ 255 }
    ensures { result ≡ selection_in selections.now id }
{
    for at in 0..selections.len() {
        let selection = selections[at];
        if selection.viewer == id {
            return Some(FrameSelection {
                beg: selection.beg,
                end: selection.end,
                rank: at as u8 + 1,
            });
        }
    }
    None
}

/// Viewers of a desk with their texts, as they are painted.
fn shown_of<'a>(desk: &'a Desk, viewers: &[(u16, Viewer)]) -> Result<Vec<Shown<'a>>, NoMemory>
    requires there { All (AreThere (kept_desktop desk.now)) viewers.now }
    requires few { length (kept_desktop desk.now).selections ≤ 255 }
    ensures { IfOk result (λ shown. map kept_view shown.items
        ≡ map (view_in (kept_desktop desk.now)) viewers.now) }
{
    let mut shown = Vec::new(desk.alloc);
    for entry in viewers {
        shown.push(shown_as(desk, entry))?;
    }
    Ok(shown)
}

/// A viewer with its texts, and its frame with what is marked there.
fn shown_as<'a>(desk: &'a Desk, entry: &(u16, Viewer)) -> Shown<'a>
    requires there { AreThere (kept_desktop desk.now) entry.now }
    requires few { length (kept_desktop desk.now).selections ≤ 255 }
    ensures { kept_view result ≡ view_in (kept_desktop desk.now) entry.now }
{
    let (id, viewer) = *entry;
    Shown {
        id: ViewerId(id),
        menu: text_there(&desk.texts, viewer.menu),
        menu_text: viewer.menu,
        main: text_there(&desk.texts, viewer.main),
        frame: Frame {
            text: viewer.main,
            org: viewer.org,
            caret: position_in(id, desk.caret),
            selection: selection_in(&desk.selections, id),
        },
    }
}
