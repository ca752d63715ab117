//! Texts and files.
ghost use Rattle.std.specs.Prelude.{◌≡◌, ◌-◌, IfOk, None};
ghost use Rattle.image_format.specs.Fitting.{length_of_pieces, totals, FitsText, after_text, FitsTexts};
ghost use Rattle.image_format.specs.Fitting.{FitsFile, after_file, FitsFiles, follows};
ghost use Rattle.image_format.specs.Reading.{text_at, texts_at, image_file_at, files_at};
ghost use Rattle.image_format.specs.Steps.{ReadsItems, last_key};
ghost use Rattle.image_format.specs.Streams.{ReadsWithin};

use super::Read;
use super::numbers::{name_from, word_from};
use super::pieces::{Base, pieces_from};
use crate::{ByteSource, ImageFault};
use desktop_definitions::MOST_FILES;
use event_bytes::Name;
use std::collections::BTreeMap;
use text_core::Text;

pub(crate) type Texts = BTreeMap<u16, Text>;

pub(crate) type Files = BTreeMap<Name, Text>;

/// A text after its number, which is `least` or above.
fn text_from<S: ByteSource>(
    source: &mut S,
    base: Base,
    room: &mut u32,
    least: u32,
) -> Read<(u16, Text)>
    ensures { ReadsWithin S.ByteSource (λ text. text) result
        (text_at base.written (least, room.old))
        (FitsText base.written (least, room.old)) (λ text. length_of_pieces text.1) room.old
        room.new source.old source.new }
{
    let number = word_from(source)?;
    if (number as u32) < least {
        return Err(ImageFault::Damaged);
    }
    let text: Text = pieces_from(source, base, room)?;
    Ok((number, text))
}

/// So many texts, by rising numbers.
fn many_texts<S: ByteSource>(source: &mut S, base: Base, room: &mut u32, count: u16) -> Read<Texts>
    ensures items { ReadsItems S.ByteSource (λ texts. texts.entries) result (text_at base.written)
        (FitsText base.written) after_text count (0, room.old) source.old source.new }
    ensures left { IfOk result (λ texts. room.new ≡ room.old - totals texts.entries) }
{
    let mut texts = BTreeMap::new(base.alloc);
    let mut least = 0;
    for _ in 0..count {
        let (number, text) = text_from(source, base, room, least)?;
        least = number as u32 + 1;
        texts.insert(number, text)?;
    }
    Ok(texts)
}

/// Texts after their number.
#[tactic(auto, unfolding(crate::specs::Reading::texts_at))]
pub(crate) fn texts_from<S: ByteSource>(source: &mut S, base: Base, room: &mut u32) -> Read<Texts>
    ensures { ReadsWithin S.ByteSource (λ texts. texts.entries) result
        (texts_at base.written room.old)
        (FitsTexts base.written room.old) totals room.old room.new source.old source.new }
{
    let count = word_from(source)?;
    many_texts(source, base, room, count)
}

/// Whether the name comes after those of all files.
fn comes_last(files: &Files, name: &Name) -> bool
    ensures { result ≡ follows (last_key files.now.entries) name.now }
{
    match files.last_key_value() {
        None => true,
        Some((last, _)) => last < name,
    }
}

/// So many files, by rising names.
fn many_files<S: ByteSource>(source: &mut S, base: Base, room: &mut u32, count: u16) -> Read<Files>
    ensures items { ReadsItems S.ByteSource (λ files. files.entries) result
        (image_file_at base.written)
        (FitsFile base.written) after_file count (None, room.old) source.old source.new }
    ensures left { IfOk result (λ files. room.new ≡ room.old - totals files.entries) }
{
    let mut files = BTreeMap::new(base.alloc);
    for _ in 0..count {
        let (name, text) = file_from(source, base, room, &files)?;
        files.insert(name, text)?;
    }
    Ok(files)
}

/// A file, whose name comes after those of the files before it.
fn file_from<S: ByteSource>(
    source: &mut S,
    base: Base,
    room: &mut u32,
    files: &Files,
) -> Read<(Name, Text)>
    ensures { ReadsWithin S.ByteSource (λ file. file) result
        (image_file_at base.written (last_key files.now.entries, room.old))
        (FitsFile base.written (last_key files.now.entries, room.old))
        (λ file. length_of_pieces file.1)
        room.old room.new source.old source.new }
{
    let name = name_from(source)?;
    if !comes_last(files, &name) {
        return Err(ImageFault::Damaged);
    }
    let text: Text = pieces_from(source, base, room)?;
    Ok((name, text))
}

/// Files after their number.
#[tactic(auto, unfolding(crate::specs::Reading::files_at))]
pub(crate) fn files_from<S: ByteSource>(source: &mut S, base: Base, room: &mut u32) -> Read<Files>
    ensures { ReadsWithin S.ByteSource (λ files. files.entries) result
        (files_at base.written room.old)
        (FitsFiles base.written room.old) totals room.old room.new source.old source.new }
{
    let count = word_from(source)?;
    if count as u32 > MOST_FILES {
        return Err(ImageFault::Damaged);
    }
    many_files(source, base, room, count)
}
