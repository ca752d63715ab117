//! Texts that are written anew: their characters go behind those that were written anew before them, and the new texts
//! name them there. The old texts stay.
ghost use Rattle.std.specs.Prelude.{◌≡◌, ◌+◌, ◌<◌, ◌≤◌, ◌^◌, length};
ghost use Rattle.piece_ring.specs.Flat.{characters_of};
ghost use Rattle.desk_core.specs.Words.{flat, bytes_of_text};
ghost use Rattle.desk_commands.specs.Rewriting.{CanPut, CanPutAll, Adds, Rewrites, RewritesAll};

use char_file::CharSource;
use desk_core::stop::Stop;
use piece_ring::{Cursor, Piece};
use std::alloc::Global;
use std::collections::BTreeMap;
use std::vec::Vec;
use text_core::{Buffer, Text};

/// All pieces of a text.
fn pieces_of(text: &Text) -> Cursor<'_>
    ensures { result.left ≡ text.now }
{
    text.cursor(0)
}

/// All pieces of a buffer.
pub fn pieces_in(buffer: &Buffer) -> Cursor<'_>
    ensures { result.left ≡ buffer.now }
{
    buffer.cursor(0)
}

/// The characters of a piece go behind those that are there.
fn put_piece<S: CharSource>(piece: Piece, made: &mut Vec<u8>, source: &mut S) -> Result<(), Stop>
    requires offsets { piece.off + piece.len < 2 ^ 32 }
    requires inside { piece.off + piece.len ≤ length (S.characters source.old) }
    ensures { Adds S.CharSource (bytes_of_text (S.characters source.old) (characters_of piece))
        piece.len result
        source.old source.new made.old.items made.new.items }
{
    for i in 0..piece.len {
        let byte = source.char_at(piece.off + i)?;
        made.push(byte)?;
    }
    Ok(())
}

/// The characters of the pieces that are left to a cursor go behind those that are there, and are returned as they
/// stand there. NoMemory where an allocation is refused, Fault where a character could not be read.
pub fn put_pieces<S: CharSource>(
    alloc: Global,
    mut left: Cursor<'_>,
    made: &mut Vec<u8>,
    source: &mut S,
) -> Result<Buffer, Stop>
    requires { CanPut (length (S.characters source.old)) (flat left.left) made.old.items }
    ensures { Rewrites S.CharSource (flat left.entry.left) result source.old source.new
        made.old.items made.new.items }
{
    let mut buffer = Buffer::new(alloc)?;
    while let Some(piece) = left.next_piece() {
        let off = made.len() as u32;
        put_piece(piece, made, source)?;
        let moved = Piece {
            off,
            len: piece.len,
            look: piece.look,
        };
        buffer.add(alloc, moved)?;
    }
    Ok(buffer)
}

/// The characters of a text go behind those that are there, and a text of them as they stand there is returned.
/// NoMemory where an allocation is refused, Fault where a character could not be read.
fn put_text<S: CharSource>(
    alloc: Global,
    text: &Text,
    made: &mut Vec<u8>,
    source: &mut S,
) -> Result<Text, Stop>
    requires { CanPut (length (S.characters source.old)) (flat text.now) made.old.items }
    ensures { Rewrites S.CharSource (flat text.now) result source.old source.new made.old.items
        made.new.items }
{
    let mut buffer = put_pieces(alloc, pieces_of(text), made, source)?;
    let mut new = Text::new(alloc)?;
    new.append(alloc, &mut buffer)?;
    Ok(new)
}

/// The same of the texts of a table, one after another, whose keys are copied as they are.
pub fn put_table<K: Ord + Clone, S: CharSource>(
    alloc: Global,
    table: &BTreeMap<K, Text>,
    made: &mut Vec<u8>,
    source: &mut S,
) -> Result<BTreeMap<K, Text>, Stop>
    requires { CanPutAll K.cmp K.is_clone (length (S.characters source.old)) table.now.entries
        made.old.items }
    ensures { RewritesAll S.CharSource table.now.entries (λ new. new.entries) result
        source.old source.new made.old.items made.new.items }
{
    let mut new = BTreeMap::new(alloc);
    for (key, text) in table {
        let moved = put_text(alloc, text, made, source)?;
        new.insert(key.clone()?, moved)?;
    }
    Ok(new)
}
