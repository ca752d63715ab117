//! How many bytes the image of a desktop has, in the newest version.
ghost use Rattle.std.specs.Prelude.{◌≡◌, ◌<◌, ◌≤◌, ◌^◌, ◌+◌, length, map, reverse};
ghost use Rattle.desktop_definitions.specs.Limits.{newest_version};
ghost use Rattle.event_bytes.specs.Parts.{word_bytes};
ghost use Rattle.viewer_tracks.specs.Columns.{stack_of, track_on};
ghost use Rattle.desktop_definitions.specs.Sound.{IsKeptWhole};
ghost use Rattle.image_format.specs.Image.{picture_of, image_of, listed_bytes, text_bytes, file_bytes, viewers_bytes};
ghost use Rattle.image_format.specs.Image.{pieces_bytes, track_bytes, stack_bytes};
ghost use Rattle.image_format.specs.Image.{image_bytes, IsSpellable};
ghost use Rattle.image_format.specs.declared.limits.TheConstants.{IMAGE_BYTES};
ghost use Rattle.desktop_image.specs.Images.{settings_long, tables_long, display_long};
ghost use Rattle.desk_core.specs.Kept.{kept_desktop};

use crate::imaging::picture_of;
use desk_core::desk::Desk;
use desk_core::files::Files;
use desk_core::viewers::Texts;
use desktop_definitions::{Caret, Selection, Viewer};
use event_bytes::Name;
use image_format::{
    LOOK_BYTES, cell_len, closed_len, entries_len, images_have_room, pieces_len, viewer_len,
};
use text_core::{Buffer, Text};
use viewer_tracks::{Track, Tracks};

/// How many bytes the pieces of a text have, after how many there are.
fn text_pieces_len(text: &Text) -> usize
    ensures value { result ≡ length (pieces_bytes text.now) }
    ensures few { result < 2 ^ 36 }
{
    pieces_len(text.pieces())
}

/// How many bytes a buffer has.
fn buffer_len(buffer: &Buffer) -> usize
    ensures value { result ≡ length (pieces_bytes buffer.now) }
    ensures few { result < 2 ^ 36 }
{
    pieces_len(buffer.pieces())
}

/// How many bytes a text has with its number.
fn text_len(number: u16, text: &Text) -> usize
    ensures { result ≡ length (text_bytes (number, text.now)) }
{
    number.to_be_bytes().len() + text_pieces_len(text)
}

/// How many bytes texts have, after how many there are.
fn texts_len(texts: &Texts) -> usize
    requires { length (listed_bytes word_bytes text_bytes texts.now.entries) < 2 ^ 32 }
    ensures { result ≡ length (listed_bytes word_bytes text_bytes texts.now.entries) }
{
    let mut sum = 2;
    for (number, text) in texts {
        sum += text_len(*number, text);
    }
    sum
}

/// How many bytes a file has.
fn file_len(name: &Name, text: &Text) -> usize
    ensures { result ≡ length (file_bytes (name.now, text.now)) }
{
    1 + name.as_bytes().len() + text_pieces_len(text)
}

/// How many bytes files have, after how many there are.
fn files_len(files: &Files) -> usize
    requires { length (listed_bytes word_bytes file_bytes files.now.entries) < 2 ^ 32 }
    ensures { result ≡ length (listed_bytes word_bytes file_bytes files.now.entries) }
{
    let mut sum = 2;
    for (name, text) in files {
        sum += file_len(name, text);
    }
    sum
}

/// How many bytes viewers have with what is marked in them, after how many there are.
fn viewers_len(viewers: &[(u16, Viewer)], caret: Option<Caret>, selections: &[Selection]) -> usize
    requires marks { length selections.now ≤ 255 }
    requires few { length (viewers_bytes newest_version
        (map (picture_of caret selections.now) viewers.now)) < 2 ^ 32 }
    ensures { result
        ≡ length (viewers_bytes newest_version
        (map (picture_of caret selections.now) viewers.now)) }
{
    let mut sum = 2;
    for place in 0..viewers.len() {
        let (id, viewer) = viewers[place];
        let picture = picture_of(id, viewer, caret, selections);
        sum += viewer_len(picture);
    }
    sum
}

/// How many bytes the look in which characters are typed, the pattern and the marker have.
fn settings_len(desk: &Desk) -> usize
    requires { length (kept_desktop desk.now).pattern < 2 ^ 8 }
    ensures { result ≡ settings_long (kept_desktop desk.now) }
{
    LOOK_BYTES + (1 + desk.pattern.len() + cell_len(desk.marker))
}

/// How many bytes the texts, files and buffers have.
fn tables_len(desk: &Desk) -> usize
    requires { tables_long (kept_desktop desk.now) < 2 ^ 32 }
    ensures { result ≡ tables_long (kept_desktop desk.now) }
{
    let buffers = buffer_len(&desk.copied) + buffer_len(&desk.deleted);
    texts_len(&desk.texts) + (files_len(&desk.files) + buffers)
}

/// How many bytes the viewers have with what is marked in them.
fn pictures_len(desk: &Desk) -> usize
    requires marks { length (kept_desktop desk.now).selections ≤ 255 }
    requires few { length (viewers_bytes newest_version
        (map (picture_of (kept_desktop desk.now).caret (kept_desktop desk.now).selections)
        (kept_desktop desk.now).viewers)) < 2 ^ 32 }
    ensures { result ≡ length (viewers_bytes newest_version
        (map (picture_of (kept_desktop desk.now).caret (kept_desktop desk.now).selections)
        (kept_desktop desk.now).viewers)) }
{
    viewers_len(&desk.viewers, desk.caret, &desk.selections)
}

/// How many bytes the viewers of the track of a level have. The lowest track has level 1.
fn track_len(tracks: &Tracks, track: Track, level: u8) -> usize
    requires some { 0 < level }
    requires within { level ≤ length (stack_of tracks.now track) }
    ensures value { result
        ≡ length (track_bytes newest_version (track_on (stack_of tracks.now track) level)) }
    ensures few { result ≤ 766 }
{
    entries_len(tracks.count(track, level))
}

/// How many bytes the tracks of a column have.
fn stack_len(tracks: &Tracks, track: Track) -> usize
    ensures value { result
        ≡ length (stack_bytes newest_version (reverse (stack_of tracks.now track))) }
    ensures few { result < 2 ^ 16 }
{
    let mut sum = 1;
    for below in 0..tracks.levels(track) {
        sum += track_len(tracks, track, below + 1);
    }
    sum
}

/// How many bytes the viewers, the tracks and the viewer that was closed last have.
fn display_len(desk: &Desk) -> usize
    requires marks { length (kept_desktop desk.now).selections ≤ 255 }
    requires few { length (viewers_bytes newest_version
        (map (picture_of (kept_desktop desk.now).caret (kept_desktop desk.now).selections)
        (kept_desktop desk.now).viewers)) < 2 ^ 32 }
    ensures { result ≡ display_long (kept_desktop desk.now) }
{
    let system = stack_len(&desk.tracks, Track::System) + closed_len(desk.closed);
    pictures_len(desk) + (stack_len(&desk.tracks, Track::User) + system)
}

/// The image of the desktop has room, and has as many bytes as its parts.
fn image_has_room(desk: &Desk)
    requires whole { IsKeptWhole (kept_desktop desk.now) }
    requires spellable { IsSpellable newest_version (kept_desktop desk.now) }
    ensures room { length (image_bytes newest_version
        (image_of (kept_desktop desk.now))) ≤ IMAGE_BYTES }
    ensures parts { length (image_bytes newest_version (image_of (kept_desktop desk.now)))
        ≡ settings_long (kept_desktop desk.now)
        + (tables_long (kept_desktop desk.now) + display_long (kept_desktop desk.now)) }
{
    images_have_room();
}

/// How many bytes the image of the desktop has.
pub fn image_len(desk: &Desk) -> u32
    requires whole { IsKeptWhole (kept_desktop desk.now) }
    requires spellable { IsSpellable newest_version (kept_desktop desk.now) }
    ensures { result ≡ length (image_bytes newest_version (image_of (kept_desktop desk.now))) }
{
    image_has_room(desk);
    (settings_len(desk) + (tables_len(desk) + display_len(desk))) as u32
}
