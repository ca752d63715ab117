//! A walk backwards along the characters of a ring.
//!
//! A clause sees such a cursor as the characters that stand before it, with the links that were followed.
ghost use Rattle.std.specs.Prelude.{◌≡◌, ◌+◌, ◌<◌, ◌≤◌, ◌∷◌, [], ◌++◌, MatchOption, IfSome};
ghost use Rattle.piece_ring.specs.BackCursor.{IsBackCursor, text_before};

use crate::list::PieceList;
use crate::piece::{Look, Piece};
use crate::place::Seam;
use crate::ring::Followed;
use std::marker::Model;

/// Stands after a character of a ring, or at its beginning. It borrows the ring.
#[derive(Drop)]
pub struct BackCursor<'a> {
    pub(crate) list: &'a PieceList,
    /// Before the piece that the cursor stands in or after.
    pub(crate) before: Seam,
    /// The characters of that piece that stand before the cursor. None where it stands at the seam.
    pub(crate) front: Piece,
    // The links that were followed to the first place, and those since.
    pub(crate) to: Followed,
    pub(crate) since: Followed,
}

impl<'a> Model for BackCursor<'a> {
    ghost use Rattle.piece_ring.specs.BackCursor.{IsBackCursor, walk_before};
    ghost use Rattle.piece_ring.specs.FingeredPieces.{BackWalk};

    ghost Value = { BackWalk };

    ghost view = { λ c. walk_before c.list.now.chain.nodes c.before c.front c.to c.since };

    ghost invariant = { λ c. IsBackCursor c.list.now.chain.nodes c.before c.front };
}

impl<'a> BackCursor<'a> {
    /// The offset and the look of the character that the cursor stands after, before which it then stands. None at the
    /// beginning of the ring, where it stays. It follows a link between pieces only where it stands before the first
    /// character of one.
    pub fn previous(&mut self) -> Option<(u32, Look)>
        ensures text { MatchOption result ((self.old.text ≡ []) × (self.new.text ≡ []))
            (λ c. self.old.text ≡ self.new.text ++ c ∷ []) }
        ensures walked { self.new.walked ≡ self.old.walked }
        ensures since { self.new.since ≤ self.old.since + 1 }
    {
        let Some((before, front)) = entered(self.list, self.before, self.front, &mut self.since)
        else {
            return None;
        };
        let Piece { off, len, look } = front;
        let len = len - 1;
        self.before = before;
        self.front = Piece { off, len, look };
        Some((off + len, look))
    }
}

/// The place of a cursor that has a character of its front before it: at a seam it goes to the end of the piece before.
/// None at the beginning of the ring.
fn entered(
    list: &PieceList,
    before: Seam,
    front: Piece,
    followed: &mut Followed,
) -> Option<(Seam, Piece)>
    requires { IsBackCursor list.now.chain.nodes before front }
    ensures cursor { IfSome result (λ c. IsBackCursor list.now.chain.nodes c.0 c.1) }
    ensures some { IfSome result (λ c. 0 < c.1.len) }
    ensures text { MatchOption result (text_before list.now.chain.nodes before front ≡ [])
        (λ c. text_before list.now.chain.nodes c.0 c.1
        ≡ text_before list.now.chain.nodes before front) }
    ensures short { followed.new ≤ followed.old + 1 }
{
    if front.len > 0 {
        Some((before, front))
    } else if before.pos > 0 {
        Some(list.piece_before(before, followed))
    } else {
        None
    }
}
