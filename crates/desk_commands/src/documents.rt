//! Viewers open on files, on the log, and on the text of another viewer.
ghost use Rattle.std.specs.Prelude.{◌≡◌, ◌<◌, ◌≤◌, ◌+◌, ℕ, List, [], length, codes, true, IfOk, Ok};
ghost use Rattle.std.specs.Option.{unwrap_or};
ghost use Rattle.viewer_tracks.specs.Columns.{allocated};
ghost use Rattle.desktop_definitions.specs.Effects.{opened_on_copy, document_opened, file_opened, log_opened};
ghost use Rattle.desktop_definitions.specs.Effects.{viewer_copied, viewer_grown};
ghost use Rattle.desktop_definitions.specs.Gesture.{tool_opened};
ghost use Rattle.desktop_definitions.specs.DeskWords.{IsPlaceOf};
ghost use Rattle.desk_core.specs.Words.{flat, AreWithin, Text as AText, ROWS, COLUMNS, IsOnTop, most_written, without_unshown};
ghost use Rattle.desk_core.specs.Words.{seen, seen_text, IsKeptWhole, IsOver, kept_desktop};
ghost use Rattle.desk_core.specs.Words.{Does, DoesBringing};
ghost use Rattle.desk_commands.specs.Calls.{IsViewerOnTop};
ghost use Rattle.desk_commands.specs.Words.{AreLooks, file_named, file_of, plain_text, more_written, menu_line, after_opening, fits};

use crate::closings::track_from;
use crate::openings::{
    add_text, copy_of, open_on, open_over, opening_fits, opening_on_fits, opening_over_fits,
};
use arrayvec::ArrayVec;
use char_file::CharSource;
use desk_core::desk::Desk;
use desk_core::files::{Files, file_of};
use desk_core::stop::{NoMemory, StepResult};
use desk_core::viewers::viewer_or_none;
use desktop_definitions::{Reply, codes};
use event_bytes::Name;
use piece_ring::DEFAULT_LOOK;
use std::alloc::Global;
use text_core::Text;
use viewer_tracks::{DEPTH, Place, Track, ViewerId, edits_keep_columns, edits_place_viewers};

/// The menu of a viewer of that name.
fn menu_line(name: &[u8]) -> ArrayVec<u8, 100>
    requires { length name.now ≤ 31 }
    ensures { result.items ≡ menu_line name.now }
{
    let mut menu = ArrayVec::new();
    menu.try_extend_from_slice(name).unwrap();
    menu.try_extend_from_slice(b" | System.Close System.Copy Edit.Search Edit.Store")
        .unwrap();
    menu
}

/// How many characters the file of that name has, and 0 where there is none.
fn file_len(files: &Files, name: &Name) -> u32
    ensures { result ≡ length (flat (unwrap_or (file_named files.now.entries name.now) [])) }
{
    match file_of(files, name) {
        Some(text) => text.len(),
        None => 0,
    }
}

/// A copy of the file of that name, and an empty text where there is none. NoMemory where an allocation is refused.
fn copy_of_file(alloc: Global, files: &Files, name: &Name) -> Result<Text, NoMemory>
    ensures { IfOk result
        (λ copy. flat copy ≡ flat (unwrap_or (file_named files.now.entries name.now) [])) }
{
    match file_of(files, name) {
        Some(text) => copy_of(alloc, text),
        None => Text::new(alloc),
    }
}

/// The cell, as column and row, at which a viewer opens: above the marker, or else in that track.
fn free_cell(desk: &Desk, track: Track) -> (u8, u8)
    requires { IsKeptWhole (kept_desktop desk.now) }
    ensures cell { result ≡ allocated (kept_desktop desk.now).columns track
        (kept_desktop desk.now).marker }
    ensures column { result.0 < COLUMNS }
    ensures row { result.1 ≤ ROWS }
{
    desk.tracks.allocate(track, desk.marker)
}

/// Where a viewer stands.
fn place_of(desk: &Desk, id: u16) -> Place
    requires { IsOnTop id (kept_desktop desk.now).columns }
    ensures { IsPlaceOf (kept_desktop desk.now).columns id result.x result.bottom result.top }
{
    desk.tracks.place_of(ViewerId(id))
}

/// A copy of a file, or an empty text where there is none of that name, opens in the user track.
pub fn open_document<S: CharSource>(desk: &mut Desk, name: &Name, source: &mut S) -> StepResult
    requires over { IsOver (S.characters source.old) (kept_desktop desk.old) }
    ensures { Does S.CharSource (λ d. Ok (document_opened d name.now)) result
        source.old source.new (kept_desktop desk.old) (kept_desktop desk.new) }
{
    let (x, y) = free_cell(desk, Track::User);
    open_named(desk, name, x, y, source)
}

/// A copy of a file opens in the system track. Refused where there is no file of that name.
pub fn open_file<S: CharSource>(desk: &mut Desk, name: &Name, source: &mut S) -> StepResult
    requires over { IsOver (S.characters source.old) (kept_desktop desk.old) }
    ensures { Does S.CharSource (λ d. file_opened d name.now) result
        source.old source.new (kept_desktop desk.old) (kept_desktop desk.new) }
{
    if !desk.files.contains_key(name) {
        return Ok(Reply::No(codes::NO_FILE));
    }
    let (x, y) = free_cell(desk, Track::System);
    open_named(desk, name, x, y, source)
}

/// The file `System.Tool` opens in a viewer at the cell above (`x`, `y`). Refused where there is no such file.
pub fn open_tool<S: CharSource>(desk: &mut Desk, x: u8, y: u8, source: &mut S) -> StepResult
    requires column { x < COLUMNS }
    requires row { y < ROWS }
    requires over { IsOver (S.characters source.old) (kept_desktop desk.old) }
    ensures { DoesBringing S.CharSource (menu_line (codes "System.Tool"))
        (λ all d. tool_opened d x y) result
        source.old source.new (kept_desktop desk.old) (kept_desktop desk.new) }
{
    let Some(name) = Name::new(b"System.Tool") else {
        unreachable!()
    };
    if !desk.files.contains_key(&name) {
        return Ok(Reply::No(codes::NO_FILE));
    }
    open_named(desk, &name, x, y + 1, source)
}

/// A copy of a file, or an empty text where there is none of that name, opens in the track of column `x`, up to row
/// `y`, in a viewer of that name.
fn open_named<S: CharSource>(
    desk: &mut Desk,
    name: &Name,
    x: u8,
    y: u8,
    source: &mut S,
) -> StepResult
    requires column { x < COLUMNS }
    requires over { IsOver (S.characters source.old) (kept_desktop desk.old) }
    ensures { DoesBringing S.CharSource (menu_line name.now)
        (λ all d. Ok (opened_on_copy d name.now (unwrap_or (file_of d name.now) []) (x, y))) result
        source.old source.new (kept_desktop desk.old) (kept_desktop desk.new) }
{
    let menu = menu_line(name.as_bytes());
    let len = file_len(&desk.files, name);
    if !opening_fits(desk, menu.len(), len, x, y) {
        return Ok(Reply::No(codes::FULL));
    }
    let main = copy_of_file(desk.alloc, &desk.files, name)?;
    open_viewer(desk, menu.as_slice(), main, x, y, source)
}

/// A new viewer opens in the track of column `x`, up to row `y`, with a menu that is written anew and this main
/// text. NoMemory where an allocation is refused.
fn open_viewer<S: CharSource>(
    desk: &mut Desk,
    menu: &[u8],
    main: Text,
    x: u8,
    y: u8,
    source: &mut S,
) -> StepResult
    requires column { x < COLUMNS }
    requires within { AreWithin (kept_desktop desk.old).written (flat main) }
    requires looks { AreLooks (flat main) }
    requires room { desk.old.written + length menu.now ≤ most_written }
    requires fits { (characters : List ℕ) (menu_text main_text : AText ℕ) → length menu_text
        ≡ length menu.now
        → length main_text ≡ length (flat main)
        → fits (without_unshown
        (more_written
        (after_opening (seen characters (kept_desktop desk.old)) menu_text main_text (x, y))
        (length menu.now))) ≡ true }
    requires over { IsOver (S.characters source.old) (kept_desktop desk.old) }
    ensures { DoesBringing S.CharSource menu.now (λ all d.
        Ok (more_written (after_opening d (plain_text menu.now) (seen_text all main) (x, y))
        (length menu.now))) result
        source.old source.new (kept_desktop desk.old) (kept_desktop desk.new) }
{
    edits_keep_columns();
    edits_place_viewers();
    let text = Text::of_run(desk.alloc, desk.written, menu.len() as u32, DEFAULT_LOOK)?;
    source.append(menu)?;
    let number = add_text(&mut desk.texts, main)?;
    open_on(desk, text, number, 0, x, y)?;
    desk.written += menu.len() as u32;
    Ok(Reply::Done)
}

/// The log opens in the system track.
pub fn open_log<S: CharSource>(desk: &mut Desk, source: &mut S) -> StepResult
    requires over { IsOver (S.characters source.old) (kept_desktop desk.old) }
    ensures { Does S.CharSource (λ d. Ok (log_opened d)) result
        source.old source.new (kept_desktop desk.old) (kept_desktop desk.new) }
{
    edits_keep_columns();
    edits_place_viewers();
    let (x, y) = free_cell(desk, Track::System);
    let menu = menu_line(b"System.Log");
    let len = menu.len();
    if !opening_on_fits(desk, len, len, x, y) {
        return Ok(Reply::No(codes::FULL));
    }
    let text = Text::of_run(desk.alloc, desk.written, len as u32, DEFAULT_LOOK)?;
    source.append(menu.as_slice())?;
    open_on(desk, text, 0, 0, x, y)?;
    desk.written += len as u32;
    Ok(Reply::Done)
}

/// A second viewer of a viewer's text opens in the lower half of its place, with a copy of its menu and the same
/// first line. Refused where its place has one row.
pub fn copy_viewer<S: CharSource>(desk: &mut Desk, id: u16, source: &mut S) -> StepResult
    requires { IsViewerOnTop (S.characters source.old) (kept_desktop desk.old) id }
    ensures { Does S.CharSource (λ d. viewer_copied d id) result
        source.old source.new (kept_desktop desk.old) (kept_desktop desk.new) }
{
    edits_keep_columns();
    edits_place_viewers();
    let place = place_of(desk, id);
    let rows = place.top - place.bottom;
    if rows == 1 {
        return Ok(Reply::No(codes::TOO_LOW));
    }
    let viewer = viewer_or_none(&desk.viewers, id);
    let menu = desk.text_called(id, true);
    let y = place.bottom + rows / 2;
    if !opening_on_fits(desk, 0, menu.len() as usize, place.x, y) {
        return Ok(Reply::No(codes::FULL));
    }
    let menu = copy_of(desk.alloc, menu)?;
    open_on(desk, menu, viewer.main, viewer.org, place.x, y)?;
    Ok(Reply::Done)
}

/// A second viewer of a viewer's text has the column of that whole, over the track in which it stands, with a copy of
/// its menu and the same first line; nothing is marked in the covered track any more. Refused where the column has as
/// many tracks as it may have.
pub fn grow_viewer<S: CharSource>(desk: &mut Desk, id: u16, source: &mut S) -> StepResult
    requires { IsViewerOnTop (S.characters source.old) (kept_desktop desk.old) id }
    ensures { Does S.CharSource (λ d. viewer_grown d id) result
        source.old source.new (kept_desktop desk.old) (kept_desktop desk.new) }
{
    let track = track_from(place_of(desk, id).x);
    if desk.tracks.levels(track) == DEPTH {
        return Ok(Reply::No(codes::TOO_DEEP));
    }
    let viewer = viewer_or_none(&desk.viewers, id);
    let menu = desk.text_called(id, true);
    if !opening_over_fits(desk, menu.len() as usize) {
        return Ok(Reply::No(codes::FULL));
    }
    let menu = copy_of(desk.alloc, menu)?;
    open_over(desk, menu, viewer.main, viewer.org, track)?;
    Ok(Reply::Done)
}
