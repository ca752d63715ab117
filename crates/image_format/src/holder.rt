//! What pieces are read into.
ghost use Rattle.std.specs.Prelude.{◌≡◌, ◌+◌, ◌^◌, ◌<◌, List, [], ◌∷◌, ◌++◌, IfOk, OnOk};
ghost use Rattle.piece_ring.specs.declared.piece.Piece.{Piece as APiece};
ghost use Rattle.piece_ring.specs.Flat.{IsWhole};
ghost use Rattle.image_format.specs.Fitting.{length_of_pieces};

use piece_ring::Piece;
use std::alloc::{AllocError, Global};
use text_core::{Buffer, Text};

/// Pieces, to which others can be added as they are.
pub trait Holder: Drop + Sized {
    /// The pieces.
    ghost held: { Self → List APiece };

    /// No pieces. It takes a little memory all the same.
    fn empty(alloc: Global) -> Result<Self, AllocError>
        ensures { IfOk result (λ holder. held holder ≡ []) };

    /// Puts a piece at the end.
    fn put(&mut self, alloc: Global, piece: Piece) -> Result<(), AllocError>
        requires whole { IsWhole piece }
        requires fits { length_of_pieces (held self.old) + piece.len < 2 ^ 32 }
        ensures { OnOk result (held self.new ≡ held self.old ++ piece ∷ []) };
}

#[tactic(auto, using(crate::proofs::Totals::length_flat))]
impl Holder for Text {
    ghost held = { λ text. text };

    fn empty(alloc: Global) -> Result<Text, AllocError> {
        Text::new(alloc)
    }

    fn put(&mut self, alloc: Global, piece: Piece) -> Result<(), AllocError> {
        self.push(alloc, piece)
    }
}

#[tactic(auto, using(crate::proofs::Totals::length_flat))]
impl Holder for Buffer {
    ghost held = { λ buffer. buffer };

    fn empty(alloc: Global) -> Result<Buffer, AllocError> {
        Buffer::new(alloc)
    }

    fn put(&mut self, alloc: Global, piece: Piece) -> Result<(), AllocError> {
        self.push(alloc, piece)
    }
}
