//! Putting an image of the newest version, part by part.
ghost use Rattle.std.specs.Prelude.{◌≡◌, ◌<◌, ◌≤◌, ◌^◌, ◌+◌, ◌++◌, length, OnOk};
ghost use Rattle.event_bytes.specs.Parts.{byte, word_bytes, counted_bytes};
ghost use Rattle.command_table.specs.Versions.{newest_version};
ghost use Rattle.piece_ring.specs.Flat.{flat};
ghost use Rattle.desktop_definitions.specs.Looks.{IsLook, AreLooks};
ghost use Rattle.image_format.specs.Streams.{Puts, PutsFront};
ghost use Rattle.image_format.specs.declared.lengths.TheConstants.{PIECE_BYTES};
ghost use Rattle.image_format.specs.declared.writing.TheConstants.{BLOCK_BYTES};
ghost use Rattle.image_format.specs.Pictures.{entry_of_stretch};
ghost use Rattle.image_format.specs.Image.{look_bytes, piece_bytes, pieces_bytes, cell_bytes, ranked_bytes, viewer_bytes};
ghost use Rattle.image_format.specs.Image.{entry_bytes, closed_bytes, long, offset_code, optional, AreSome};

use crate::lengths::PIECE_BYTES;
use crate::{ByteSink, Ranked, Stretch, ViewerPicture};
use arrayvec::ArrayVec;
use desktop_definitions::{ClosedViewer, LEAST_OFFSET};
use piece_ring::{Cursor, Look, Piece};
use sector_disk::Fault;

/// Puts a number of one byte.
pub fn put_byte<K: ByteSink>(sink: &mut K, number: u8) -> Result<(), Fault>
    ensures { Puts K.ByteSink result (byte number) sink.old sink.new }
{
    sink.put(&[number])
}

/// Puts a number of two bytes.
pub fn put_word<K: ByteSink>(sink: &mut K, number: u16) -> Result<(), Fault>
    ensures { Puts K.ByteSink result (word_bytes number) sink.old sink.new }
{
    sink.put(&number.to_be_bytes())
}

/// Puts a number of four bytes.
fn put_long<K: ByteSink>(sink: &mut K, number: u32) -> Result<(), Fault>
    ensures { Puts K.ByteSink result (long number) sink.old sink.new }
{
    sink.put(&number.to_be_bytes())
}

/// Puts bytes after their number.
pub fn put_counted<K: ByteSink>(sink: &mut K, bytes: &[u8]) -> Result<(), Fault>
    requires { length bytes.now < 2 ^ 8 }
    ensures { Puts K.ByteSink result (counted_bytes byte bytes.now) sink.old sink.new }
{
    put_byte(sink, bytes.len() as u8)?;
    put_bytes(sink, bytes)
}

/// Puts bytes.
fn put_bytes<K: ByteSink>(sink: &mut K, bytes: &[u8]) -> Result<(), Fault>
    ensures { Puts K.ByteSink result bytes.now sink.old sink.new }
{
    sink.put(bytes)
}

/// The vertical offset of a look, counted from the least one.
fn offset_byte(look: Look) -> u8
    requires { IsLook look }
    ensures { result ≡ offset_code look.voff }
{
    (look.voff - LEAST_OFFSET) as u8
}

/// Puts a look, its vertical offset counted from the least one.
pub fn put_look<K: ByteSink>(sink: &mut K, look: Look) -> Result<(), Fault>
    requires { IsLook look }
    ensures { Puts K.ByteSink result (look_bytes look) sink.old sink.new }
{
    sink.put(&[look.font, look.colour, offset_byte(look)])
}

/// Puts a cell, if there is one.
pub fn put_cell<K: ByteSink>(sink: &mut K, cell: Option<(u8, u8)>) -> Result<(), Fault>
    ensures { Puts K.ByteSink result (optional cell_bytes cell) sink.old sink.new }
{
    match cell {
        None => sink.put(&[0]),
        Some((x, y)) => sink.put(&[1, x, y]),
    }
}

/// The bytes of a piece.
fn bytes_of_piece(piece: Piece) -> [u8; PIECE_BYTES]
    requires { IsLook piece.look }
    ensures { result ≡ piece_bytes piece }
{
    let [a, b, c, d] = piece.off.to_be_bytes();
    let [e, f, g, h] = piece.len.to_be_bytes();
    let Look { font, colour, .. } = piece.look;
    [
        a,
        b,
        c,
        d,
        e,
        f,
        g,
        h,
        font,
        colour,
        offset_byte(piece.look),
        0,
    ]
}

/// How many bytes of pieces are put at once, at most.
const BLOCK_BYTES: usize = 16 * PIECE_BYTES;

/// Bytes of pieces that are put at once.
type Block = ArrayVec<u8, BLOCK_BYTES>;

/// Puts the bytes of a block that has no room for a piece more, which is empty then.
fn put_full<K: ByteSink>(sink: &mut K, block: &mut Block) -> Result<(), Fault>
    ensures puts { PutsFront K.ByteSink result block.old.items block.new.items sink.old sink.new }
    ensures room { OnOk result (length block.new.items + PIECE_BYTES ≤ BLOCK_BYTES) }
{
    if block.remaining_capacity() >= PIECE_BYTES {
        return Ok(());
    }
    sink.put(block.as_slice())?;
    block.clear();
    Ok(())
}

/// Adds the bytes of a piece.
fn add_piece(block: &mut Block, piece: Piece)
    requires look { IsLook piece.look }
    requires room { length block.old.items + PIECE_BYTES ≤ BLOCK_BYTES }
    ensures { block.new.items ≡ block.old.items ++ piece_bytes piece }
{
    block.try_extend_from_slice(&bytes_of_piece(piece)).unwrap();
}

/// Puts the pieces that are left to a cursor, of which there are so many, after their number: block by block. Once they
/// were put none of them was empty.
pub fn put_pieces<K: ByteSink>(
    sink: &mut K,
    count: u32,
    mut pieces: Cursor<'_>,
) -> Result<(), Fault>
    requires count { length pieces.left ≡ count }
    requires looks { AreLooks (flat pieces.left) }
    ensures puts { Puts K.ByteSink result (pieces_bytes pieces.entry.left) sink.old sink.new }
    ensures some { OnOk result (AreSome pieces.entry.left) }
{
    put_long(sink, count)?;
    let mut block = Block::new();
    while let Some(piece) = pieces.next_piece() {
        put_full(sink, &mut block)?;
        add_piece(&mut block, piece);
    }
    put_bytes(sink, block.as_slice())
}

/// Puts the position of a caret, if there is one.
fn put_caret<K: ByteSink>(sink: &mut K, caret: Option<u32>) -> Result<(), Fault>
    ensures { Puts K.ByteSink result (optional long caret) sink.old sink.new }
{
    let Some(position) = caret else {
        return put_byte(sink, 0);
    };
    put_byte(sink, 1)?;
    put_long(sink, position)
}

/// Puts a selection, if there is one.
fn put_ranked<K: ByteSink>(sink: &mut K, selection: Option<Ranked>) -> Result<(), Fault>
    ensures { Puts K.ByteSink result (optional ranked_bytes selection) sink.old sink.new }
{
    let Some(ranked) = selection else {
        return put_byte(sink, 0);
    };
    sink.put(&[1, ranked.rank])?;
    put_long(sink, ranked.beg)?;
    put_long(sink, ranked.end)
}

/// Puts a viewer with what is marked in it.
pub fn put_viewer<K: ByteSink>(sink: &mut K, picture: ViewerPicture) -> Result<(), Fault>
    ensures { Puts K.ByteSink result (viewer_bytes newest_version picture) sink.old sink.new }
{
    put_word(sink, picture.id)?;
    put_word(sink, picture.viewer.menu)?;
    put_word(sink, picture.viewer.main)?;
    put_long(sink, picture.viewer.org)?;
    put_caret(sink, picture.caret)?;
    put_ranked(sink, picture.selection)
}

/// Puts a viewer of a track with how many rows it has.
pub fn put_entry<K: ByteSink>(sink: &mut K, entry: Stretch) -> Result<(), Fault>
    ensures { Puts K.ByteSink result (entry_bytes newest_version (entry_of_stretch entry)) sink.old
        sink.new }
{
    put_word(sink, entry.viewer)?;
    put_byte(sink, entry.height)
}

/// Puts the viewer that was closed last, if there is one.
pub fn put_closed<K: ByteSink>(sink: &mut K, closed: Option<ClosedViewer>) -> Result<(), Fault>
    ensures { Puts K.ByteSink result (optional (closed_bytes newest_version) closed) sink.old
        sink.new }
{
    let Some(closed) = closed else {
        return put_byte(sink, 0);
    };
    put_byte(sink, 1)?;
    put_word(sink, closed.viewer)?;
    sink.put(&[closed.track.left(), closed.top])
}
