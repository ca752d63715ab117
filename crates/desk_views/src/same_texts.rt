//! Whether two texts have the same characters, of which only those are read that stand apart.
ghost use Rattle.std.specs.Prelude.{◌≡◌, ◌+◌, ◌^◌, ◌<◌, ◌≤◌, [], ◌++◌, length, IfOk};
ghost use Rattle.piece_ring.specs.Flat.{characters_of, run};
ghost use Rattle.readers_scanners.specs.Words.{ReadsOrFails, contents};
ghost use Rattle.desk_core.specs.Words.{flat, AreWithin};
ghost use Rattle.desk_views.specs.Unstored.{is_same_character, looks_alike, is_same_text};

use char_file::{CharSource, Fault};
use piece_ring::{Cursor, DEFAULT_LOOK, Look, Piece};
use text_core::Text;

/// Whether two looks are the same.
fn looks_alike(one: Look, other: Look) -> bool
    ensures { result ≡ looks_alike one other }
{
    one.font == other.font && one.colour == other.colour && one.voff == other.voff
}

/// Whether two characters are the same, with their looks.
fn is_same_character(one: (u8, Look), other: (u8, Look)) -> bool
    ensures { result ≡ is_same_character one other }
{
    one.0 == other.0 && looks_alike(one.1, other.1)
}

/// All pieces of a text.
fn pieces_of(text: &Text) -> Cursor<'_>
    ensures { result.left ≡ text.now }
{
    text.cursor(0)
}

/// The next piece, which a cursor then passes; one without characters at the end.
fn next_stretch(cursor: &mut Cursor<'_>) -> Piece
    ensures text { flat cursor.old.left ≡ characters_of result ++ flat cursor.new.left }
    ensures last { result.len ≡ 0 → flat cursor.new.left ≡ [] }
    ensures fits { result.off + result.len < 2 ^ 32 }
{
    match cursor.next_piece() {
        Some(piece) => piece,
        None => Piece {
            off: 0,
            len: 0,
            look: DEFAULT_LOOK,
        },
    }
}

/// What is left of a piece behind its first `n` characters; where nothing is, the next piece, which the cursor behind it
/// then passes.
fn passed(here: Piece, n: u32, cursor: &mut Cursor<'_>) -> Piece
    requires within { n ≤ here.len }
    requires fits { here.off + here.len < 2 ^ 32 }
    ensures text { characters_of here ++ flat cursor.old.left
        ≡ run here.off n here.look ++ (characters_of result ++ flat cursor.new.left) }
    ensures last { result.len ≡ 0 → flat cursor.new.left ≡ [] }
    ensures fits { result.off + result.len < 2 ^ 32 }
{
    let Piece { off, len, look } = here;
    if n < len {
        return Piece {
            off: off + n,
            len: len - n,
            look,
        };
    }
    next_stretch(cursor)
}

/// Whether the first `n` characters of two pieces are the same in the same looks. They aren't read where they are the
/// same ones. `Fault`: the source failed in this call.
fn is_same_stretch<S: CharSource>(
    here: Piece,
    there: Piece,
    n: u32,
    source: &mut S,
) -> Result<bool, Fault>
    requires some { 0 < n }
    requires here { (here.off + n ≤ length (S.characters source.old)) × (here.off + n < 2 ^ 32) }
    requires there { (there.off + n ≤ length (S.characters source.old)) × (there.off + n < 2 ^ 32) }
    ensures same { IfOk result (λ same. S.honest source.old → same
        ≡ is_same_text (contents (S.characters source.old) (run here.off n here.look))
        (contents (S.characters source.old) (run there.off n there.look))) }
    ensures source { ReadsOrFails S.CharSource result source.old source.new }
{
    if here.off == there.off {
        return Ok(looks_alike(here.look, there.look));
    }
    for at in 0..n {
        let byte = source.char_at(here.off + at)?;
        let other = source.char_at(there.off + at)?;
        if !is_same_character((byte, here.look), (other, there.look)) {
            return Ok(false);
        }
    }
    Ok(true)
}

/// Whether two texts have the same characters in the same looks. `Fault`: the source failed in this call.
pub(crate) fn is_same_text<S: CharSource>(
    text: &Text,
    other: &Text,
    source: &mut S,
) -> Result<bool, Fault>
    requires offsets { AreWithin (length (S.characters source.old)) (flat text.now) }
    requires others { AreWithin (length (S.characters source.old)) (flat other.now) }
    ensures same { IfOk result (λ same. S.honest source.old
        → same ≡ is_same_text (contents (S.characters source.old) (flat text.now))
        (contents (S.characters source.old) (flat other.now))) }
    ensures source { ReadsOrFails S.CharSource result source.old source.new }
{
    let len = text.len();
    if len != other.len() {
        return Ok(false);
    }
    let mut left = pieces_of(text);
    let mut beside = pieces_of(other);
    let mut here = next_stretch(&mut left);
    let mut there = next_stretch(&mut beside);
    while here.len > 0 {
        if there.len == 0 {
            return Ok(false);
        }
        let n = here.len.min(there.len);
        if !is_same_stretch(here, there, n, source)? {
            return Ok(false);
        }
        here = passed(here, n, &mut left);
        there = passed(there, n, &mut beside);
    }
    Ok(there.len == 0)
}
