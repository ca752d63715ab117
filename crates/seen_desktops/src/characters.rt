//! The characters of a desktop.
ghost use Rattle.std.specs.Prelude.{◌≡◌, ◌++◌, length, IfOk, OnOk};
ghost use Rattle.readers_scanners.specs.Reading.{contents};
ghost use Rattle.desktop_definitions.specs.Sound.{AllWithin};
ghost use Rattle.desk_core.specs.Words.{AreWithin, FailsAs, IsOver, IsStop, OnlyReads, flat, kept_desktop, seen, seen_table};
ghost use Rattle.seen_desktops.specs.Shape.{all_characters_of, characters_in};

use char_file::CharSource;
use desk_core::desk::Desk;
use desk_core::stop::Stop;
use piece_ring::{Cursor, Look};
use std::alloc::Global;
use std::collections::BTreeMap;
use text_core::{Buffer, Text};

/// The characters of the texts and files of a desktop and then those of its buffers, each with its look.
///
/// Errors: `NoMemory`; `Fault` where a character could not be read.
pub fn all_characters<S: CharSource>(
    alloc: Global,
    desk: &Desk,
    source: &mut S,
) -> Result<Vec<(u8, Look)>, Stop>
    requires { IsOver (S.characters source.old) (kept_desktop desk.now) }
    ensures read { IfOk result (λ all. S.honest source.old → all.items
        ≡ all_characters_of (seen (S.characters source.old) (kept_desktop desk.now))) }
    ensures reads { OnlyReads S.characters S.failures S.honest S.same_ground source.old source.new }
    ensures faults { FailsAs Stop.Fault IsStop result (S.failures source.old)
        (S.failures source.new) }
{
    let mut all = Vec::new(alloc);
    add_table(&mut all, &desk.texts, source)?;
    add_table(&mut all, &desk.files, source)?;
    add_left(&mut all, pieces_in(&desk.copied), source)?;
    add_left(&mut all, pieces_in(&desk.deleted), source)?;
    Ok(all)
}

/// All pieces of a text.
fn pieces_of(text: &Text) -> Cursor<'_>
    ensures { result.left ≡ text.now }
{
    text.cursor(0)
}

/// All pieces of a buffer.
fn pieces_in(buffer: &Buffer) -> Cursor<'_>
    ensures { result.left ≡ buffer.now }
{
    buffer.cursor(0)
}

/// The characters of the texts of a table go behind those that are there.
fn add_table<K: Ord, S: CharSource>(
    all: &mut Vec<(u8, Look)>,
    table: &BTreeMap<K, Text>,
    source: &mut S,
) -> Result<(), Stop>
    requires { AllWithin (length (S.characters source.old)) table.now.entries }
    ensures added { OnOk result (S.honest source.old → all.new.items
        ≡ all.old.items ++ characters_in (seen_table (S.characters source.old) table.now.entries)) }
    ensures reads { OnlyReads S.characters S.failures S.honest S.same_ground source.old source.new }
    ensures faults { FailsAs Stop.Fault IsStop result (S.failures source.old)
        (S.failures source.new) }
{
    for text in table.values() {
        add_left(all, pieces_of(text), source)?;
    }
    Ok(())
}

/// The characters that are left to a cursor go behind those that are there.
fn add_left<S: CharSource>(
    all: &mut Vec<(u8, Look)>,
    mut left: Cursor<'_>,
    source: &mut S,
) -> Result<(), Stop>
    requires { AreWithin (length (S.characters source.old)) (flat left.left) }
    ensures added { OnOk result (S.honest source.old → all.new.items
        ≡ all.old.items ++ contents (S.characters source.old) (flat left.entry.left)) }
    ensures reads { OnlyReads S.characters S.failures S.honest S.same_ground source.old source.new }
    ensures faults { FailsAs Stop.Fault IsStop result (S.failures source.old)
        (S.failures source.new) }
{
    while let Some(next) = left.next() {
        let (offset, look) = next;
        let byte = source.char_at(offset)?;
        all.push((byte, look))?;
    }
    Ok(())
}
