//! The image of a desktop, in the newest version, put part by part.
ghost use Rattle.std.specs.Prelude.{◌≡◌, ◌<◌, ◌≤◌, ◌^◌, ◌++◌, [], length, map, reverse, All, IfOk, OnOk};
ghost use Rattle.std.specs.Map.{keys_of, values_of};
ghost use Rattle.desktop_definitions.specs.Limits.{newest_version};
ghost use Rattle.event_bytes.specs.Parts.{byte, word_bytes, counted_bytes};
ghost use Rattle.viewer_tracks.specs.declared.display.Track.TheVariants.{User, System};
ghost use Rattle.viewer_tracks.specs.Columns.{stack_of, track_on};
ghost use Rattle.desktop_definitions.specs.Looks.{IsLook, AreLooks};
ghost use Rattle.desktop_definitions.specs.Seen.{seen_text};
ghost use Rattle.desktop_definitions.specs.Sound.{IsKeptWhole};
ghost use Rattle.image_format.specs.Streams.{Puts};
ghost use Rattle.image_format.specs.Image.{ranked_in, picture_of, image_of, listed_bytes, text_bytes, file_bytes};
ghost use Rattle.image_format.specs.Image.{pieces_bytes, viewers_bytes, track_bytes, stack_bytes, image_bytes};
ghost use Rattle.image_format.specs.Image.{look_bytes, cell_bytes, closed_bytes, optional};
ghost use Rattle.image_format.specs.Image.{InWord, AreSome, AreSpellable, IsSpellable};
ghost use Rattle.desk_core.specs.Kept.{kept_desktop};
ghost use Rattle.desktop_image.specs.Images.{CanBeImaged, CanBePut};

use crate::image_size::image_len;
use char_file::Fault;
use desk_core::desk::Desk;
use desk_core::files::Files;
use desk_core::viewers::Texts;
use desk_core::views::position_in;
use desktop_definitions::{Caret, Selection, Viewer};
use event_bytes::Name;
use image_format::{
    ByteSink, Ranked, Stretch, ViewerPicture, put_byte, put_cell, put_closed, put_counted,
    put_entry, put_look, put_pieces, put_viewer, put_word,
};
use piece_ring::Cursor;
use text_core::{Buffer, Text};
use viewer_tracks::{Track, Tracks};

/// All pieces of a text.
fn all_of(text: &Text) -> Cursor<'_>
    ensures { result.left ≡ text.now }
{
    text.cursor(0)
}

/// Puts pieces that are left, after how many there are. Once they were put none was empty.
fn put_left<K: ByteSink>(sink: &mut K, count: u32, left: Cursor<'_>) -> Result<(), Fault>
    requires count { length left.left ≡ count }
    requires looks { AreLooks (seen_text [] left.left) }
    ensures puts { Puts K.ByteSink result (pieces_bytes left.entry.left) sink.old sink.new }
    ensures some { OnOk result (AreSome left.entry.left) }
{
    put_pieces(sink, count, left)
}

/// Puts the pieces of a text, after how many there are. Once they were put none was empty.
fn put_pieces_of<K: ByteSink>(sink: &mut K, text: &Text) -> Result<(), Fault>
    requires { AreLooks (seen_text [] text.now) }
    ensures puts { Puts K.ByteSink result (pieces_bytes text.now) sink.old sink.new }
    ensures some { OnOk result (AreSome text.now) }
{
    put_left(sink, text.pieces(), all_of(text))
}

/// Puts a text after its number.
fn put_text<K: ByteSink>(sink: &mut K, number: u16, text: &Text) -> Result<(), Fault>
    requires { AreLooks (seen_text [] text.now) }
    ensures puts { Puts K.ByteSink result (text_bytes (number, text.now)) sink.old sink.new }
    ensures some { OnOk result (AreSome text.now) }
    ensures small { InWord number }
{
    put_word(sink, number)?;
    put_pieces_of(sink, text)
}

/// Puts texts with their numbers, after how many there are. Once they were put no piece was empty.
fn put_texts<K: ByteSink>(sink: &mut K, texts: &Texts) -> Result<(), Fault>
    requires can { CanBePut texts.now.entries }
    ensures puts { Puts K.ByteSink result (listed_bytes word_bytes text_bytes texts.now.entries)
        sink.old sink.new }
    ensures some { OnOk result (All AreSome (values_of texts.now.entries)) }
    ensures numbers { OnOk result (All InWord (keys_of texts.now.entries)) }
{
    put_word(sink, texts.len() as u16)?;
    for (number, text) in texts {
        put_text(sink, *number, text)?;
    }
    Ok(())
}

/// Puts a file.
fn put_file<K: ByteSink>(sink: &mut K, name: &Name, text: &Text) -> Result<(), Fault>
    requires { AreLooks (seen_text [] text.now) }
    ensures puts { Puts K.ByteSink result (file_bytes (name.now, text.now)) sink.old sink.new }
    ensures some { OnOk result (AreSome text.now) }
{
    put_counted(sink, name.as_bytes())?;
    put_pieces_of(sink, text)
}

/// Puts files, after how many there are. Once they were put no piece was empty.
fn put_files<K: ByteSink>(sink: &mut K, files: &Files) -> Result<(), Fault>
    requires can { CanBePut files.now.entries }
    ensures puts { Puts K.ByteSink result (listed_bytes word_bytes file_bytes files.now.entries)
        sink.old sink.new }
    ensures some { OnOk result (All AreSome (values_of files.now.entries)) }
{
    put_word(sink, files.len() as u16)?;
    for (name, text) in files {
        put_file(sink, name, text)?;
    }
    Ok(())
}

/// All pieces of a buffer.
fn all_in(buffer: &Buffer) -> Cursor<'_>
    ensures { result.left ≡ buffer.now }
{
    buffer.cursor(0)
}

/// Puts a buffer. Once it was put no piece was empty.
fn put_buffer<K: ByteSink>(sink: &mut K, buffer: &Buffer) -> Result<(), Fault>
    requires { AreLooks (seen_text [] buffer.now) }
    ensures puts { Puts K.ByteSink result (pieces_bytes buffer.now) sink.old sink.new }
    ensures some { OnOk result (AreSome buffer.now) }
{
    put_left(sink, buffer.pieces(), all_in(buffer))
}

/// What is selected in the viewer of that id, and its rank.
pub fn ranked_in(selections: &[Selection], id: u16) -> Option<Ranked>
    requires { length selections.now ≤ 255 }
    ensures { result ≡ ranked_in 1 selections.now id }
{
    for place in 0..selections.len() {
        let selection = selections[place];
        if selection.viewer == id {
            return Some(Ranked {
                rank: place as u8 + 1,
                beg: selection.beg,
                end: selection.end,
            });
        }
    }
    None
}

/// A viewer with what is marked in it.
pub fn picture_of(
    id: u16,
    viewer: Viewer,
    caret: Option<Caret>,
    selections: &[Selection],
) -> ViewerPicture
    requires { length selections.now ≤ 255 }
    ensures picture { result ≡ picture_of caret selections.now (id, viewer) }
    ensures small { InWord id }
{
    let caret = position_in(id, caret);
    let selection = ranked_in(selections, id);
    ViewerPicture {
        id,
        viewer,
        caret,
        selection,
    }
}

/// Puts viewers with what is marked in them, after how many there are.
fn put_viewers<K: ByteSink>(
    sink: &mut K,
    viewers: &[(u16, Viewer)],
    caret: Option<Caret>,
    selections: &[Selection],
) -> Result<(), Fault>
    requires few { length viewers.now < 2 ^ 16 }
    requires marks { length selections.now ≤ 255 }
    ensures puts { Puts K.ByteSink result
        (viewers_bytes newest_version (map (picture_of caret selections.now) viewers.now)) sink.old
        sink.new }
    ensures ids { OnOk result (All InWord (keys_of viewers.now)) }
{
    put_word(sink, viewers.len() as u16)?;
    for place in 0..viewers.len() {
        let (id, viewer) = viewers[place];
        let picture = picture_of(id, viewer, caret, selections);
        put_viewer(sink, picture)?;
    }
    Ok(())
}

/// Puts the viewers of the track of a level, after how many there are. The lowest track has level 1.
fn put_track<K: ByteSink>(
    sink: &mut K,
    tracks: &Tracks,
    track: Track,
    level: u8,
) -> Result<(), Fault>
    requires some { 0 < level }
    requires within { level ≤ length (stack_of tracks.now track) }
    ensures { Puts K.ByteSink result
        (track_bytes newest_version (track_on (stack_of tracks.now track) level))
        sink.old sink.new }
{
    let count = tracks.count(track, level);
    put_byte(sink, count)?;
    for index in 0..count {
        let (viewer, height) = tracks.entry_in(track, level, index);
        let entry = Stretch {
            viewer: viewer.0,
            height,
        };
        put_entry(sink, entry)?;
    }
    Ok(())
}

/// Puts the tracks of a column from the lowest up, after how many there are.
fn put_stack<K: ByteSink>(sink: &mut K, tracks: &Tracks, track: Track) -> Result<(), Fault>
    ensures { Puts K.ByteSink result
        (stack_bytes newest_version (reverse (stack_of tracks.now track)))
        sink.old sink.new }
{
    let depth = tracks.levels(track);
    put_byte(sink, depth)?;
    for below in 0..depth {
        put_track(sink, tracks, track, below + 1)?;
    }
    Ok(())
}

/// Puts the bytes for which a text was searched last.
fn put_pattern<K: ByteSink>(desk: &Desk, sink: &mut K) -> Result<(), Fault>
    requires { length (kept_desktop desk.now).pattern < 2 ^ 8 }
    ensures { Puts K.ByteSink result (counted_bytes byte (kept_desktop desk.now).pattern) sink.old
        sink.new }
{
    put_counted(sink, desk.pattern.as_slice())
}

/// Puts the viewers with what is marked in them.
fn put_pictures<K: ByteSink>(desk: &Desk, sink: &mut K) -> Result<(), Fault>
    requires few { length (kept_desktop desk.now).viewers < 2 ^ 16 }
    requires marks { length (kept_desktop desk.now).selections ≤ 255 }
    ensures puts { Puts K.ByteSink result (viewers_bytes newest_version
        (map (picture_of (kept_desktop desk.now).caret (kept_desktop desk.now).selections)
        (kept_desktop desk.now).viewers))
        sink.old sink.new }
    ensures ids { OnOk result (All InWord (keys_of (kept_desktop desk.now).viewers)) }
{
    put_viewers(sink, &desk.viewers, desk.caret, &desk.selections)
}

/// Puts the look in which characters are typed, the pattern and the marker.
fn put_settings<K: ByteSink>(desk: &Desk, sink: &mut K) -> Result<(), Fault>
    requires look { IsLook (kept_desktop desk.now).look }
    requires short { length (kept_desktop desk.now).pattern < 2 ^ 8 }
    ensures { Puts K.ByteSink result
        (look_bytes (kept_desktop desk.now).look
        ++ (counted_bytes byte (kept_desktop desk.now).pattern
        ++ optional cell_bytes (kept_desktop desk.now).marker)) sink.old sink.new }
{
    put_look(sink, desk.look)?;
    put_pattern(desk, sink)?;
    put_cell(sink, desk.marker)
}

/// Puts the texts, the files and both buffers. Once they were put no piece was empty.
fn put_tables<K: ByteSink>(desk: &Desk, sink: &mut K) -> Result<(), Fault>
    requires { CanBeImaged (kept_desktop desk.now) }
    ensures puts { Puts K.ByteSink result
        (listed_bytes word_bytes text_bytes (kept_desktop desk.now).texts
        ++ (listed_bytes word_bytes file_bytes (kept_desktop desk.now).files
        ++ (pieces_bytes (kept_desktop desk.now).copied
        ++ pieces_bytes (kept_desktop desk.now).deleted))) sink.old sink.new }
    ensures tables { OnOk result (AreSpellable (kept_desktop desk.now)) }
{
    put_texts(sink, &desk.texts)?;
    put_files(sink, &desk.files)?;
    put_buffer(sink, &desk.copied)?;
    put_buffer(sink, &desk.deleted)
}

/// Puts the viewers, the tracks in which they stand, and the one that was closed last.
fn put_display<K: ByteSink>(desk: &Desk, sink: &mut K) -> Result<(), Fault>
    requires few { length (kept_desktop desk.now).viewers < 2 ^ 16 }
    requires marks { length (kept_desktop desk.now).selections ≤ 255 }
    ensures puts { Puts K.ByteSink result (viewers_bytes newest_version
        (map (picture_of (kept_desktop desk.now).caret (kept_desktop desk.now).selections)
        (kept_desktop desk.now).viewers)
        ++ (stack_bytes newest_version (reverse (stack_of (kept_desktop desk.now).columns User))
        ++ (stack_bytes newest_version (reverse (stack_of (kept_desktop desk.now).columns System))
        ++ optional (closed_bytes newest_version) (kept_desktop desk.now).closed))) sink.old
        sink.new }
    ensures ids { OnOk result (All InWord (keys_of (kept_desktop desk.now).viewers)) }
{
    put_pictures(desk, sink)?;
    put_stack(sink, &desk.tracks, Track::User)?;
    put_stack(sink, &desk.tracks, Track::System)?;
    put_closed(sink, desk.closed)
}

/// Puts the parts of the image, one after another.
fn put_parts<K: ByteSink>(desk: &Desk, sink: &mut K) -> Result<(), Fault>
    requires { CanBeImaged (kept_desktop desk.now) }
    ensures puts { Puts K.ByteSink result
        (image_bytes newest_version (image_of (kept_desktop desk.now))) sink.old sink.new }
    ensures spellable { OnOk result (IsSpellable newest_version (kept_desktop desk.now)) }
{
    put_settings(desk, sink)?;
    put_tables(desk, sink)?;
    put_display(desk, sink)
}

/// Puts the image of the desktop, and returns how many bytes it has. `Fault`: the sink failed in this call.
pub fn put_image<K: ByteSink>(desk: &Desk, sink: &mut K) -> Result<u32, Fault>
    requires { IsKeptWhole (kept_desktop desk.now) }
    ensures spelled { IfOk result (λ n. IsSpellable newest_version (kept_desktop desk.now)
        × (n ≡ length (image_bytes newest_version (image_of (kept_desktop desk.now))))) }
    ensures puts { Puts K.ByteSink result
        (image_bytes newest_version (image_of (kept_desktop desk.now))) sink.old sink.new }
{
    put_parts(desk, sink)?;
    Ok(image_len(desk))
}
