//! Characters that stand together in the source.
ghost use Rattle.std.specs.Prelude.{◌≡◌, ◌+◌, ◌^◌, ◌<◌, ◌≤◌, [], ◌++◌, drop};
ghost use Rattle.readers_scanners.specs.Words.{flat};
ghost use Rattle.piece_ring.specs.Flat.{characters_of};

use piece_ring::{Cursor, DEFAULT_LOOK, Piece};

/// The rest of the piece in which a cursor stands, which it then passes. No character at the end.
pub(crate) fn next_stretch(cursor: &mut Cursor<'_>) -> Piece
    ensures text { flat cursor.old.left ≡ characters_of result ++ flat cursor.new.left }
    ensures last { result.len ≡ 0 → flat cursor.new.left ≡ [] }
    ensures fits { result.off + result.len < 2 ^ 32 }
{
    match cursor.next_piece() {
        Some(piece) => piece,
        None => Piece {
            off: 0,
            len: 0,
            look: DEFAULT_LOOK,
        },
    }
}

/// The characters that stand together after the first `n` of `here`, behind which the cursor stands.
pub(crate) fn passed(here: Piece, n: u32, cursor: &mut Cursor<'_>) -> Piece
    requires within { n ≤ here.len }
    requires fits { here.off + here.len < 2 ^ 32 }
    ensures text { characters_of result ++ flat cursor.new.left
        ≡ drop n (characters_of here ++ flat cursor.old.left) }
    ensures last { result.len ≡ 0 → flat cursor.new.left ≡ [] }
    ensures fits { result.off + result.len < 2 ^ 32 }
{
    let Piece { off, len, look } = here;
    if n < len {
        return Piece {
            off: off + n,
            len: len - n,
            look,
        };
    }
    next_stretch(cursor)
}
