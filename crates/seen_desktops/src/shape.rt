//! The shape of a desktop: all but its characters.
ghost use Rattle.std.specs.Prelude.{◌≡◌, ◌<◌, ◌≤◌, length, IfOk};
ghost use Rattle.std.specs.Bool.{Decides};
ghost use Rattle.viewer_tracks.specs.Columns.{stack_of, track_on};
ghost use Rattle.desk_core.specs.Kept.{kept_desktop};
ghost use Rattle.seen_desktops.specs.Shape.{HaveOneShape, HaveSameCounts, HaveSameLists, HaveSameMarks, kept_sizes};

use desk_core::desk::Desk;
use desk_core::stop::NoMemory;
use desktop_definitions::{Caret, ClosedViewer, Selection, Viewer};
use event_bytes::Name;
use piece_ring::Look;
use std::alloc::Global;
use std::collections::BTreeMap;
use text_core::Text;
use viewer_tracks::{Track, Tracks, ViewerId};

/// Whether two desktops have one shape. `NoMemory` where an allocation is refused.
pub fn have_one_shape(alloc: Global, one: &Desk, other: &Desk) -> Result<bool, NoMemory>
    ensures { IfOk result (λ same. Decides same
        (HaveOneShape (kept_desktop one.now) (kept_desktop other.now))) }
{
    if !have_same_marks(one, other) {
        return Ok(false);
    }
    if !have_same_counts(one, other) {
        return Ok(false);
    }
    if !have_same_lists(one, other) {
        return Ok(false);
    }
    if !have_same_tracks(&one.tracks, &other.tracks) {
        return Ok(false);
    }
    if !are_texts_as_long(alloc, &one.texts, &other.texts)? {
        return Ok(false);
    }
    are_files_as_long(alloc, &one.files, &other.files)
}

// ---- all but lists

/// Whether two desktops have the same caret, marker and closed viewer.
fn have_same_marks(one: &Desk, other: &Desk) -> bool
    ensures { Decides result (HaveSameMarks (kept_desktop one.now) (kept_desktop other.now)) }
{
    if !is_same_caret(one.caret, other.caret) {
        return false;
    }
    if !is_same_marker(one.marker, other.marker) {
        return false;
    }
    is_same_closed(one.closed, other.closed)
}

/// Whether two carets are the same.
fn is_same_caret(one: Option<Caret>, other: Option<Caret>) -> bool
    ensures { Decides result (one ≡ other) }
{
    one == other
}

/// Whether two markers are the same.
fn is_same_marker(one: Option<(u8, u8)>, other: Option<(u8, u8)>) -> bool
    ensures { Decides result (one ≡ other) }
{
    one == other
}

/// Whether two closed viewers are the same.
fn is_same_closed(one: Option<ClosedViewer>, other: Option<ClosedViewer>) -> bool
    ensures { Decides result (one ≡ other) }
{
    one == other
}

/// Whether two desktops have the same look, and as many characters written, copied and deleted.
fn have_same_counts(one: &Desk, other: &Desk) -> bool
    ensures { Decides result (HaveSameCounts (kept_desktop one.now) (kept_desktop other.now)) }
{
    if !is_same_look(one.look, other.look) {
        return false;
    }
    if one.written != other.written {
        return false;
    }
    if one.copied.len() != other.copied.len() {
        return false;
    }
    one.deleted.len() == other.deleted.len()
}

/// Whether two looks are the same.
fn is_same_look(one: Look, other: Look) -> bool
    ensures { Decides result (one ≡ other) }
{
    one == other
}

// ---- lists

/// Whether two desktops have the same viewers, the same selections and the same pattern.
fn have_same_lists(one: &Desk, other: &Desk) -> bool
    ensures { Decides result (HaveSameLists (kept_desktop one.now) (kept_desktop other.now)) }
{
    if !are_same_viewers(one.viewers.as_slice(), other.viewers.as_slice()) {
        return false;
    }
    if !are_same_selections(one.selections.as_slice(), other.selections.as_slice()) {
        return false;
    }
    are_same_bytes(one.pattern.as_slice(), other.pattern.as_slice())
}

/// Whether two lists of viewers are the same.
fn are_same_viewers(one: &[(u16, Viewer)], other: &[(u16, Viewer)]) -> bool
    ensures { Decides result (one.now ≡ other.now) }
{
    one == other
}

/// Whether two lists of selections are the same.
fn are_same_selections(one: &[Selection], other: &[Selection]) -> bool
    ensures { Decides result (one.now ≡ other.now) }
{
    one == other
}

/// Whether two lists of bytes are the same.
fn are_same_bytes(one: &[u8], other: &[u8]) -> bool
    ensures { Decides result (one.now ≡ other.now) }
{
    one == other
}

// ---- tracks

/// Whether the viewers stand in the same places.
fn have_same_tracks(one: &Tracks, other: &Tracks) -> bool
    ensures { Decides result (one.now ≡ other.now) }
{
    if !is_same_column(one, other, Track::User) {
        return false;
    }
    is_same_column(one, other, Track::System)
}

/// Whether the tracks of a column are the same.
fn is_same_column(one: &Tracks, other: &Tracks, column: Track) -> bool
    ensures { Decides result (stack_of one.now column ≡ stack_of other.now column) }
{
    let depth = one.levels(column);
    let others = other.levels(column);
    if depth != others {
        return false;
    }
    for below in 0..depth {
        if !is_same_track(one, other, column, below + 1) {
            return false;
        }
    }
    true
}

/// Whether the viewers in the track of a level are the same, and as high.
fn is_same_track(one: &Tracks, other: &Tracks, column: Track, level: u8) -> bool
    requires some { 0 < level }
    requires one { level ≤ length (stack_of one.now column) }
    requires other { level ≤ length (stack_of other.now column) }
    ensures { Decides result
        (track_on (stack_of one.now column) level ≡ track_on (stack_of other.now column) level) }
{
    let count = one.count(column, level);
    let others = other.count(column, level);
    if count != others {
        return false;
    }
    for index in 0..count {
        let here = one.entry_in(column, level, index);
        let there = other.entry_in(column, level, index);
        if !is_same_entry(here, there) {
            return false;
        }
    }
    true
}

/// Whether two viewers are the same, and as high.
fn is_same_entry(one: (ViewerId, u8), other: (ViewerId, u8)) -> bool
    ensures { Decides result (one ≡ other) }
{
    one == other
}

// ---- tables

/// Whether two tables have texts of the same numbers, as long as one another.
fn are_texts_as_long(
    alloc: Global,
    one: &BTreeMap<u16, Text>,
    other: &BTreeMap<u16, Text>,
) -> Result<bool, NoMemory>
    ensures { IfOk result (λ same. Decides same
        (kept_sizes one.now.entries ≡ kept_sizes other.now.entries)) }
{
    let sizes = text_sizes(alloc, one)?;
    let others = text_sizes(alloc, other)?;
    Ok(are_same_numbers(sizes.as_slice(), others.as_slice()))
}

/// Whether two lists of numbers with sizes are the same.
fn are_same_numbers(one: &[(u16, u32)], other: &[(u16, u32)]) -> bool
    ensures { Decides result (one.now ≡ other.now) }
{
    one == other
}

/// The numbers of texts, and how long these are.
fn text_sizes(alloc: Global, texts: &BTreeMap<u16, Text>) -> Result<Vec<(u16, u32)>, NoMemory>
    ensures { IfOk result (λ sizes. sizes.items ≡ kept_sizes texts.now.entries) }
{
    let mut sizes = Vec::new(alloc);
    for (number, text) in texts {
        sizes.push((*number, text.len()))?;
    }
    Ok(sizes)
}

/// Whether two tables have files of the same names, as long as one another.
fn are_files_as_long(
    alloc: Global,
    one: &BTreeMap<Name, Text>,
    other: &BTreeMap<Name, Text>,
) -> Result<bool, NoMemory>
    ensures { IfOk result (λ same. Decides same
        (kept_sizes one.now.entries ≡ kept_sizes other.now.entries)) }
{
    let sizes = file_sizes(alloc, one)?;
    let others = file_sizes(alloc, other)?;
    Ok(are_same_names(sizes.as_slice(), others.as_slice()))
}

/// Whether two lists of names with sizes are the same.
fn are_same_names(one: &[(Name, u32)], other: &[(Name, u32)]) -> bool
    ensures { Decides result (one.now ≡ other.now) }
{
    one == other
}

/// The names of files, and how long these are.
fn file_sizes(alloc: Global, files: &BTreeMap<Name, Text>) -> Result<Vec<(Name, u32)>, NoMemory>
    ensures { IfOk result (λ sizes. sizes.items ≡ kept_sizes files.now.entries) }
{
    let mut sizes = Vec::new(alloc);
    for (name, text) in files {
        sizes.push((name.clone()?, text.len()))?;
    }
    Ok(sizes)
}
