//! The ring: a text as a list of pieces that no other owner shares.
//!
//! A clause sees a ring as the list of its nonempty pieces, and most speak of the flat list of each
//! character's offset and look alone. How a text is cut into pieces isn't promised, but for the cut
//! that `split_at` makes, the pieces that `push` puts in, which `Cursor::next_piece` gives back, and
//! how many `add` makes.
ghost use Rattle.std.specs.Prelude.{◌≡◌, ◌+◌, ◌*◌, ◌/◌, ◌^◌, ◌<◌, ◌≤◌, ◌∷◌, ◌++◌, [], length, IfOk, IfErr, OnOk};
ghost use Rattle.piece_ring.specs.Cut.{IsCutAt};
ghost use Rattle.piece_ring.specs.Flat.{flat, characters_of};
ghost use Rattle.piece_ring.specs.Finger.{IsFingerAt, IsSettledAt};
ghost use Rattle.piece_ring.specs.Merging.{AddsAtMost, IsMergedAt};
ghost use Rattle.piece_ring.specs.Promises.{ChangesTo, HasRoomFor, IsBackCursorAt, IsCursorAt, IsStretchOf};
ghost use Rattle.piece_ring.specs.Text.{stretch, inserted, deleted, looks_changed};

mod followed;

use crate::back_cursor::BackCursor;
use crate::cursor::Cursor;
use crate::list::PieceList;
use crate::piece::{Look, Piece};
use crate::spare::Spare;
use crate::stretch::Stretch;
pub(crate) use followed::Followed;
use std::alloc::{AllocError as NoMemory, Global};
use std::marker::Model;

/// A text, as a ring of pieces of the file. It owns its nodes. Positions count characters from 0.
pub struct Ring {
    list: PieceList,
    alloc: Global,
    /// The links that its edits have followed on their ways to places.
    followed: Followed,
}

impl Model for Ring {
    ghost use Rattle.piece_ring.specs.Finger.{ringed};
    ghost use Rattle.piece_ring.specs.FingeredPieces.{FingeredPieces};

    ghost Value = { FingeredPieces };

    ghost view = { λ r. ringed r.list.chain.nodes r.list.finger r.followed };
}

impl Ring {
    /// An empty ring. It takes memory for its trailer.
    pub fn new(alloc: Global) -> Result<Ring, NoMemory>
        ensures { IfOk result (λ r. r.pieces ≡ []) }
    {
        let list = PieceList::new(Spare::new(alloc)?, Followed::none());
        Ok(Ring {
            list,
            alloc,
            followed: Followed::none(),
        })
    }

    /// The number of characters.
    pub fn len(&self) -> u32
        ensures { result ≡ length (flat self.now.pieces) }
    {
        self.list.len
    }

    /// The number of pieces.
    pub fn pieces(&self) -> u32
        ensures { result ≡ length self.now.pieces }
    {
        self.list.count as u32
    }

    /// The number of chunks into which marks part the pieces. A walk to a place stays within one or two.
    pub fn chunks(&self) -> u32
        ensures few { result ≤ length self.now.pieces / 16 + 1 }
        ensures enough { length self.now.pieces ≤ 128 * result }
    {
        self.list.table.len(&self.list.chain) as u32 + 1
    }

    /// Keeps the place of the piece that has the character at `pos`, or of the trailer at the end.
    /// Walks to places near it start there.
    pub fn locate(&mut self, pos: u32)
        requires { pos ≤ length (flat self.old.pieces) }
        ensures same { self.new.pieces ≡ self.old.pieces }
        ensures finger { IsFingerAt self.new pos }
        ensures short { self.new.followed ≤ self.old.followed + 128 }
    {
        self.list.locate(pos, &mut self.followed);
    }

    /// Cuts the piece that has `pos` inside, so that a piece begins there. The text stays, also if memory was refused.
    pub fn split_at(&mut self, alloc: Global, pos: u32) -> Result<(), NoMemory>
        requires { pos ≤ length (flat self.old.pieces) }
        ensures same { flat self.new.pieces ≡ flat self.old.pieces }
        ensures finger { OnOk result (IsFingerAt self.new pos) }
        ensures cut { OnOk result (IsCutAt self.new.pieces pos) }
        ensures short { self.new.followed ≤ self.old.followed + 256 }
    {
        self.list.seam_at(alloc, pos, &mut self.followed)?;
        self.list.locate(pos, &mut self.followed);
        Ok(())
    }

    /// Takes the characters from `beg` up to before `end` out. Their pieces move, and no character is copied. If memory
    /// is refused the text stays.
    pub fn cut(&mut self, alloc: Global, beg: u32, end: u32) -> Result<Ring, NoMemory>
        requires { IsStretchOf beg end (flat self.old.pieces) }
        ensures taken { IfOk result (λ r. flat r.pieces ≡ stretch beg end (flat self.old.pieces)) }
        ensures text { ChangesTo (deleted beg end (flat self.old.pieces)) result
            (flat self.old.pieces) (flat self.new.pieces) }
        ensures settled { OnOk result (IsSettledAt self.new beg) }
        ensures short { self.new.followed ≤ self.old.followed + 259 }
    {
        let mut taken = Ring::new(alloc)?;
        if beg == end {
            self.list.settle(&alloc, beg, &mut self.followed);
            return Ok(taken);
        }
        let (from, upto) = self.list.seams(alloc, beg, end, &mut self.followed)?;
        taken.list.reserve(alloc, upto.index - from.index)?;
        let pieces = self.list.take_out(from, upto, &mut self.followed);
        taken.list.put_all(pieces);
        self.list.settle_at(&alloc, from, &mut self.followed);
        Ok(taken)
    }

    /// Puts the characters of `other` in at `pos`. Its pieces move, and no character is copied.
    /// If memory is refused both texts stay, and `other` comes back. An empty `other` needs none.
    pub fn splice(&mut self, alloc: Global, pos: u32, other: Ring) -> Result<(), (NoMemory, Ring)>
        requires within { pos ≤ length (flat self.old.pieces) }
        requires fits { length (flat self.old.pieces) + length (flat other.pieces) < 2 ^ 32 }
        ensures text { ChangesTo (inserted pos (flat other.pieces) (flat self.old.pieces)) result
            (flat self.old.pieces) (flat self.new.pieces) }
        ensures settled { OnOk result (IsSettledAt self.new pos) }
        ensures merged { OnOk result (IsMergedAt self.new.pieces (pos
            + length (flat other.pieces))) }
        ensures returned { IfErr result (λ e. flat e.1.pieces ≡ flat other.pieces) }
        ensures short { self.new.followed ≤ self.old.followed + 256 }
    {
        if other.list.len == 0 {
            self.list.settle(&alloc, pos, &mut self.followed);
            return Ok(());
        }
        if let Err(refused) = self.list.reserve(alloc, other.list.count + 1) {
            return Err((refused, other));
        }
        let seam = match self.list.seam_at(alloc, pos, &mut self.followed) {
            Ok(seam) => seam,
            Err(refused) => return Err((refused, other)),
        };
        let Ring {
            list,
            alloc: own,
            followed: _,
        } = other;
        let pieces = list.into_stretch(&own);
        let after = self.list.insert(seam, pieces);
        self.list.merge(&alloc, after, &mut self.followed);
        self.list.settle_at(&alloc, seam, &mut self.followed);
        Ok(())
    }

    /// A ring with the characters from `beg` up to before `end`, in their looks.
    pub fn copy(&self, alloc: Global, beg: u32, end: u32) -> Result<Ring, NoMemory>
        requires { IsStretchOf beg end (flat self.now.pieces) }
        ensures { IfOk result (λ r. flat r.pieces ≡ stretch beg end (flat self.now.pieces)) }
    {
        let mut copy = Ring::new(alloc)?;
        let mut cursor = self.cursor(beg);
        let mut left = end - beg;
        while left > 0 {
            let piece = cursor.next_run(left);
            copy.add(alloc, piece)?;
            left -= piece.len;
        }
        Ok(copy)
    }

    /// Puts a piece at the end, where it becomes one with the last piece if it continues it. If memory
    /// is refused the text stays.
    pub fn add(&mut self, alloc: Global, piece: Piece) -> Result<(), NoMemory>
        requires { HasRoomFor piece self.old.pieces }
        ensures text { ChangesTo (flat self.old.pieces ++ characters_of piece) result
            (flat self.old.pieces) (flat self.new.pieces) }
        ensures settled { OnOk result (IsSettledAt self.new (length (flat self.old.pieces))) }
        ensures pieces { OnOk result (AddsAtMost self.old.pieces piece self.new.pieces) }
        ensures short { self.new.followed ≤ self.old.followed + 2 }
    {
        self.list.reserve(alloc, 1)?;
        let one = Stretch::of_piece(&alloc, piece)?;
        let end = self.list.end();
        self.list.insert(end, one);
        self.list.settle_at(&alloc, end, &mut self.followed);
        Ok(())
    }

    /// Puts a piece at the end as it is, also where it could be one with the piece before it. If memory is refused the
    /// pieces stay.
    pub fn push(&mut self, alloc: Global, piece: Piece) -> Result<(), NoMemory>
        requires { HasRoomFor piece self.old.pieces }
        ensures pieces { ChangesTo (self.old.pieces ++ piece ∷ []) result self.old.pieces
            self.new.pieces }
        ensures none_followed { self.new.followed ≡ self.old.followed }
    {
        self.list.reserve(alloc, 1)?;
        let alone = Stretch::of_piece(&alloc, piece)?;
        let end = self.list.end();
        self.list.insert(end, alone);
        Ok(())
    }

    /// Takes all characters out, and frees their nodes. It takes no memory.
    pub fn clear(&mut self)
        ensures text { flat self.new.pieces ≡ [] }
        ensures short { self.new.followed ≤ self.old.followed + 1 }
    {
        if self.list.len > 0 {
            let start = self.list.start();
            let end = self.list.end();
            self.list
                .take_out(start, end, &mut self.followed)
                .destroy(&self.alloc);
        }
    }

    /// Changes the looks of the characters from `beg` up to before `end`, in the fields that `sel` names: bit 0 the
    /// font, bit 1 the colour, bit 2 the offset. Other bits are ignored. If memory is refused the text stays.
    pub fn set_looks(
        &mut self,
        alloc: Global,
        beg: u32,
        end: u32,
        sel: u8,
        look: Look,
    ) -> Result<(), NoMemory>
        requires { IsStretchOf beg end (flat self.old.pieces) }
        ensures text { ChangesTo (looks_changed beg end sel look (flat self.old.pieces)) result
            (flat self.old.pieces) (flat self.new.pieces) }
        ensures settled { OnOk result (IsSettledAt self.new beg) }
        ensures merged { OnOk result (IsMergedAt self.new.pieces end) }
        ensures short { self.new.followed ≤ self.old.followed + 513 }
    {
        if beg == end {
            self.list.settle(&alloc, beg, &mut self.followed);
            return Ok(());
        }
        let (from, upto) = self.list.seams(alloc, beg, end, &mut self.followed)?;
        let mut passed = Followed::none();
        self.list.relook(from, upto, sel, look, &mut passed);
        self.list.merge(&alloc, upto, &mut self.followed);
        self.list.settle(&alloc, beg, &mut self.followed);
        Ok(())
    }

    /// A cursor before the character at `pos`, or at the end. It follows no link if the finger is there, and never
    /// more than there are pieces, nor more than 128.
    pub fn cursor(&self, pos: u32) -> Cursor<'_>
        requires { pos ≤ length (flat self.now.pieces) }
        ensures at { IsCursorAt pos self.now.pieces result }
        ensures near { IsFingerAt self.now pos → result.walked ≡ 0 }
    {
        if pos == self.list.len {
            return Cursor {
                list: &self.list,
                at: self.list.trailer,
                index: self.list.count + 1,
                within: 0,
                links: 0,
                walked: 0,
                to: Followed::none(),
                since: Followed::none(),
            };
        }
        if let Some(within) = self.list.within_finger(pos) {
            return Cursor {
                list: &self.list,
                at: self.list.finger.at,
                index: self.list.finger.index,
                within,
                links: 0,
                walked: 0,
                to: Followed::none(),
                since: Followed::none(),
            };
        }
        let mut to = Followed::none();
        let found = self.list.find(pos, &mut to);
        Cursor {
            list: &self.list,
            at: found.after.at,
            index: found.after.index,
            within: pos - found.before.pos,
            links: 0,
            walked: found.links as u32,
            to,
            since: Followed::none(),
        }
    }

    /// A cursor that goes backwards, after the first `pos` characters. It follows at most 128 links.
    pub fn back_cursor(&self, pos: u32) -> BackCursor<'_>
        requires { pos ≤ length (flat self.now.pieces) }
        ensures { IsBackCursorAt pos self.now.pieces result }
    {
        let mut to = Followed::none();
        let (before, front) = self.list.front(pos, &mut to);
        BackCursor {
            list: &self.list,
            before,
            front,
            to,
            since: Followed::none(),
        }
    }

    /// Frees all nodes, and says how many there were: one for each piece, and the trailer.
    pub fn destroy(self) -> usize
        ensures { result ≡ length self.pieces + 1 }
    {
        let Ring {
            list,
            alloc,
            followed: _,
        } = self;
        list.destroy(&alloc)
    }
}

impl Drop for Ring {
    fn drop(self) {
        self.destroy();
    }
}
