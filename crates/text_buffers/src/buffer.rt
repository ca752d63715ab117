//! The buffer.
ghost use Rattle.std.specs.Prelude.{◌≡◌, ◌+◌, ◌^◌, ◌<◌, ◌≤◌, ◌∷◌, ◌++◌, [], length, IfOk, OnOk};
ghost use Rattle.piece_ring.specs.Merging.{IsMergedAt};
ghost use Rattle.piece_ring.specs.Flat.{flat, characters_of};
ghost use Rattle.piece_ring.specs.Promises.{ChangesTo, HasRoomFor, IsCursorAt};

use crate::{NoMemory, Piece};
use piece_ring::{Cursor, Ring};
use std::alloc::Global;
use std::marker::Model;
use std::mem::replace;

/// Characters of the file in their looks, in an order of their own. Fewer than 2^32.
#[derive(Drop)]
pub struct Buffer {
    ring: Ring,
}

impl Model for Buffer {
    ghost use Rattle.std.specs.Prelude.{List};
    ghost use Rattle.piece_ring.specs.declared.piece.Piece.{Piece as APiece};

    ghost Value = { List APiece };

    ghost view = { λ b. b.ring.pieces };
}

impl Buffer {
    /// An empty buffer. It takes a little memory all the same.
    pub fn new(alloc: Global) -> Result<Buffer, NoMemory>
        ensures { IfOk result (λ b. b ≡ []) }
    {
        Ok(Buffer {
            ring: Ring::new(alloc)?,
        })
    }

    /// The number of characters.
    pub fn len(&self) -> u32
        ensures { result ≡ length (flat self.now) }
    {
        self.ring.len()
    }

    /// The number of pieces.
    pub fn pieces(&self) -> u32
        ensures { result ≡ length self.now }
    {
        self.ring.pieces()
    }

    /// Adds its characters to another buffer, at the end, and keeps them. If memory is refused the other buffer stays.
    pub fn copy_to(&self, alloc: Global, other: &mut Buffer) -> Result<(), NoMemory>
        requires fits { length (flat other.old) + length (flat self.now) < 2 ^ 32 }
        ensures added { ChangesTo (flat other.old
            ++ flat self.now) result (flat other.old) (flat other.new) }
    {
        let copy = self.ring.copy(alloc, 0, self.ring.len())?;
        other.append(alloc, copy)
    }

    /// A cursor before the character at `pos`, or at the end.
    pub fn cursor(&self, pos: u32) -> Cursor<'_>
        requires { pos ≤ length (flat self.now) }
        ensures { IsCursorAt pos self.now result }
    {
        self.ring.cursor(pos)
    }

    /// Lets all characters go. It takes no memory.
    pub fn clear(&mut self)
        ensures { flat self.new ≡ [] }
    {
        self.ring.clear();
    }

    /// Adds a piece at the end. If memory is refused the buffer stays.
    pub fn add(&mut self, alloc: Global, piece: Piece) -> Result<(), NoMemory>
        requires { HasRoomFor piece self.old }
        ensures added { ChangesTo (flat self.old
            ++ characters_of piece) result (flat self.old) (flat self.new) }
    {
        self.ring.add(alloc, piece)
    }

    /// Puts a piece at the end as it is, also where it could be one with the piece before it. If memory is refused the
    /// pieces stay.
    pub fn push(&mut self, alloc: Global, piece: Piece) -> Result<(), NoMemory>
        requires { HasRoomFor piece self.old }
        ensures { ChangesTo (self.old ++ piece ∷ []) result self.old self.new }
    {
        self.ring.push(alloc, piece)
    }

    /// For layers that own rings: hands all characters out as a ring, and leaves none. If memory is
    /// refused the buffer stays.
    pub fn take(&mut self, alloc: Global) -> Result<Ring, NoMemory>
        ensures taken { IfOk result (λ r. flat r.pieces ≡ flat self.old) }
        ensures left { ChangesTo [] result (flat self.old) (flat self.new) }
    {
        let none = Ring::new(alloc)?;
        Ok(replace(&mut self.ring, none))
    }

    /// For layers that own rings: has exactly the ring's characters from now on, whatever it had before. It takes no
    /// memory.
    pub fn replace(&mut self, ring: Ring)
        ensures { flat self.new ≡ flat ring.pieces }
    {
        self.ring = ring;
    }

    /// For layers that own rings: adds the ring's characters at the end. If memory is refused the buffer stays, and the
    /// ring is gone.
    pub fn append(&mut self, alloc: Global, ring: Ring) -> Result<(), NoMemory>
        requires fits { length (flat self.old) + length (flat ring.pieces) < 2 ^ 32 }
        ensures added { ChangesTo (flat self.old
            ++ flat ring.pieces) result (flat self.old) (flat self.new) }
        ensures merged { OnOk result (IsMergedAt self.new (length (flat self.old))) }
    {
        let end = self.ring.len();
        match self.ring.splice(alloc, end, ring) {
            Ok(()) => Ok(()),
            Err((refused, _ring)) => Err(refused),
        }
    }
}
