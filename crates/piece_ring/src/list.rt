//! A list of pieces in a chain of nodes: first the trailer, a node without characters, then a node for each piece. This
//! layer has no raw pointer: it names nodes by their spots and indexes, and goes through the calls of `Chain`.
ghost use Rattle.std.specs.Prelude.{ℕ, ◌≡◌, ◌+◌, ◌-◌, ◌<◌, ◌≤◌, ◌∷◌, [], ◌++◌, ◌^◌, length, Some, slice_get, IfOk};
ghost use Rattle.std.specs.Prelude.{OnErr, OnOk, MatchOption, take, true, false};
ghost use Rattle.std.proofs.Props.{props};
ghost use Rattle.piece_ring.specs.BackCursor.{IsBackCursor, text_before};
ghost use Rattle.piece_ring.specs.declared.place.Seam.{Seam as ASeam};
ghost use Rattle.piece_ring.specs.Flat.{flat, relooked_piece, IsWhole};
ghost use Rattle.piece_ring.specs.Finger.{IsFingerAt, IsSettledAt, fingered};
ghost use Rattle.piece_ring.specs.Merging.{AreUnited, Continues, IsMergedAt, UnitesAtMost};
ghost use Rattle.piece_ring.specs.Nodes.{places, pieces, with_put_in, with_range};
ghost use Rattle.piece_ring.specs.Place.{pieces_of, text_along, IsSeam, IsFound, IsPlace, IsOpenedAt, HasWithin};
ghost use Rattle.piece_ring.specs.PieceList.{IsPieceList, IsStretch};
ghost use Rattle.piece_ring.specs.Table.{CanHold, IsTable, KeepsRoom};
ghost use Rattle.piece_ring.specs.Text.{inserted, deleted, stretch, looks_changed};

use crate::chain::{Chain, Spot};
use crate::piece::{EMPTY, Look, Piece};
use crate::place::{Found, RingPlace, Seam};
use crate::ring::Followed;
use crate::spare::Spare;
use crate::stretch::Stretch;
use crate::table::Table;
use std::alloc::{AllocError as NoMemory, Global};

/// How many characters from the finger a walk starts there.
const NEAR: u32 = 128;

/// The trailer and the nodes of the pieces, with the number of the pieces and of their characters, and the finger,
/// from which walks start: it is on the piece before the seam, or on the trailer.
pub(crate) struct PieceList {
    pub(crate) chain: Chain,
    pub(crate) trailer: Spot,
    pub(crate) count: usize,
    pub(crate) len: u32,
    pub(crate) finger: Seam,
    /// Its marks, from which walks start that would be long from the finger.
    pub(crate) table: Table,
    /// The links that were followed where marks were laid.
    pub(crate) laid: Followed,
    ghost sound: { IsPieceList chain.nodes trailer.ptr count len },
    ghost keeps: { IsSeam chain.nodes finger },
    ghost indexed: { IsTable chain.nodes table } by { Prim.hlevel props },
    ghost room: { CanHold table count } by { Prim.hlevel props },
}

impl PieceList {
    /// A list without pieces, whose trailer is the spare node.
    pub(crate) fn new(spare: Spare, laid: Followed) -> PieceList
        ensures { pieces_of result.chain.nodes ≡ [] }
    {
        let (chain, trailer) = spare.into_node();
        PieceList {
            chain,
            trailer,
            count: 0,
            len: 0,
            finger: Seam {
                at: trailer,
                index: 0,
                pos: 0,
            },
            table: Table::new(),
            laid,
        }
    }

    /// Takes the memory that the marks of so many further pieces want, where it isn't there.
    pub(crate) fn reserve(&mut self, alloc: Global, more: usize) -> Result<(), NoMemory>
        requires { more < 2 ^ 33 }
        ensures same { self.new.chain.nodes ≡ self.old.chain.nodes }
        ensures long { self.new.len ≡ self.old.len }
        ensures count { self.new.count ≡ self.old.count }
        ensures finger { self.new.finger ≡ self.old.finger }
        ensures room { OnOk result (CanHold self.new.table (self.old.count + more)) }
        ensures kept { KeepsRoom self.old.table self.new.table }
    {
        if self.table.has_room(self.count, more) {
            return Ok(());
        }
        self.table.reserve(alloc, self.count, more)
    }

    /// The seam before the first piece.
    pub(crate) fn start(&self) -> Seam
        ensures seam { IsSeam self.now.chain.nodes result }
        ensures first { result.pos ≡ 0 }
        ensures index { result.index ≡ 0 }
    {
        Seam {
            at: self.trailer,
            index: 0,
            pos: 0,
        }
    }

    /// The seam after the last piece.
    pub(crate) fn end(&self) -> Seam
        ensures seam { IsSeam self.now.chain.nodes result }
        ensures last { result.pos ≡ self.now.len }
        ensures index { result.index ≡ length (pieces_of self.now.chain.nodes) }
    {
        Seam {
            at: self.chain.last(self.trailer),
            index: self.count,
            pos: self.len,
        }
    }

    /// The seam after the piece that follows `seam`.
    pub(crate) fn step(&self, seam: Seam, followed: &mut Followed) -> Seam
        requires seam { IsSeam self.now.chain.nodes seam }
        requires more { seam.pos < self.now.len }
        ensures after { IsSeam self.now.chain.nodes result }
        ensures next { result.index ≡ seam.index + 1 }
        ensures followed { followed.new ≡ followed.old + 1 }
    {
        let at = self.chain.next(seam.at, seam.index, followed);
        let index = seam.index + 1;
        let piece = self.chain.piece(at, index);
        Seam {
            at,
            index,
            pos: seam.pos + piece.len,
        }
    }

    /// The seam before the piece that stands before `seam`.
    fn step_back(&self, seam: Seam, followed: &mut Followed) -> Seam
        requires seam { IsSeam self.now.chain.nodes seam }
        requires more { 0 < seam.pos }
        ensures before { IsSeam self.now.chain.nodes result }
        ensures next { seam.index ≡ result.index + 1 }
        ensures followed { followed.new ≡ followed.old + 1 }
    {
        let piece = self.chain.piece(seam.at, seam.index);
        Seam {
            at: self.chain.prev(seam.at, seam.index, followed),
            index: seam.index - 1,
            pos: seam.pos - piece.len,
        }
    }

    /// The seam before the piece that stands before `seam`, and that piece.
    pub(crate) fn piece_before(&self, seam: Seam, followed: &mut Followed) -> (Seam, Piece)
        requires seam { IsSeam self.now.chain.nodes seam }
        requires more { 0 < seam.pos }
        ensures cursor { IsBackCursor self.now.chain.nodes result.0 result.1 }
        ensures some { 0 < result.1.len }
        ensures text { text_before self.now.chain.nodes result.0 result.1
            ≡ flat (take seam.index (pieces_of self.now.chain.nodes)) }
        ensures followed { followed.new ≡ followed.old + 1 }
    {
        let piece = self.chain.piece(seam.at, seam.index);
        (self.step_back(seam, followed), piece)
    }

    /// The piece that has the character at `pos`, which is after `from`, by a walk towards the end.
    fn find_ahead(&self, from: Seam, pos: u32, followed: &mut Followed) -> Found
        requires from { IsSeam self.now.chain.nodes from }
        requires order { from.pos ≤ pos }
        requires within { pos < self.now.len }
        ensures found { IsFound self.now.chain.nodes pos result }
        ensures links { from.index + result.links ≡ result.after.index }
        ensures followed { followed.new ≡ followed.old + result.links }
    {
        let mut before = from;
        let mut after = self.step(before, followed);
        while after.pos <= pos {
            before = after;
            after = self.step(before, followed);
        }
        Found {
            before,
            after,
            links: after.index - from.index,
        }
    }

    /// The piece that has the character at `pos`, which is before `from`, by a walk towards the beginning. The piece
    /// before `from` is the first link of the walk.
    fn find_back(&self, from: Seam, pos: u32, followed: &mut Followed) -> Found
        requires from { IsSeam self.now.chain.nodes from }
        requires order { pos < from.pos }
        ensures found { IsFound self.now.chain.nodes pos result }
        ensures links { result.after.index + result.links ≡ from.index + 1 }
        ensures followed { followed.new ≡ followed.old + result.links }
    {
        let mut after = from;
        let mut before = self.step_back(after, followed);
        while pos < before.pos {
            after = before;
            before = self.step_back(after, followed);
        }
        Found {
            before,
            after,
            links: from.index - after.index + 1,
        }
    }

    /// The piece that has the character at `pos`, by a walk from the nearer of the marks on its two sides.
    fn find_far(&self, pos: u32, followed: &mut Followed) -> Found
        requires { pos < self.now.len }
        ensures found { IsFound self.now.chain.nodes pos result }
        ensures followed { followed.new ≡ followed.old + result.links }
        ensures short { result.links ≤ 128 }
    {
        let (low, high) = self
            .table
            .around(&self.chain, self.start(), self.end(), pos);
        if pos - low.pos < high.pos - pos {
            self.find_ahead(low, pos, followed)
        } else {
            self.find_back(high, pos, followed)
        }
    }

    /// How many characters of the piece that the finger is on stand before the one at `pos`. None where another piece
    /// has that one.
    pub(crate) fn within_finger(&self, pos: u32) -> Option<u32>
        requires { pos < self.now.len }
        ensures { MatchOption result
            (IsFingerAt (fingered self.now.chain.nodes self.now.finger) pos → ⊥)
            (HasWithin self.now.chain.nodes self.now.finger pos) }
    {
        let Seam {
            at,
            index,
            pos: end,
        } = self.finger;
        if end <= pos {
            return None;
        }
        let len = self.chain.piece(at, index).len;
        let begin = end - len;
        if pos < begin {
            return None;
        }
        Some(pos - begin)
    }

    /// The piece that has the character at `pos`, by a walk from the finger where it is near, and from a mark elsewhere.
    pub(crate) fn find(&self, pos: u32, followed: &mut Followed) -> Found
        requires { pos < self.now.len }
        ensures found { IsFound self.now.chain.nodes pos result }
        ensures followed { followed.new ≡ followed.old + result.links }
        ensures short { result.links ≤ 128 }
    {
        let finger = self.finger;
        if finger.pos <= pos {
            if pos - finger.pos < NEAR {
                return self.find_ahead(finger, pos, followed);
            }
            return self.find_far(pos, followed);
        }
        let len = self.chain.piece(finger.at, finger.index).len;
        let begin = finger.pos - len;
        if begin <= pos {
            let before = self.step_back(finger, followed);
            return Found {
                before,
                after: finger,
                links: 1,
            };
        }
        if begin - pos < NEAR {
            return self.find_back(finger, pos, followed);
        }
        self.find_far(pos, followed)
    }

    /// The seam at `pos`, or the piece that has it inside.
    fn place(&self, pos: u32, followed: &mut Followed) -> RingPlace
        requires { pos ≤ self.now.len }
        ensures place { IsPlace self.now.chain.nodes pos result }
        ensures short { followed.new ≤ followed.old + 128 }
    {
        if pos == self.len {
            return RingPlace::Between(self.end());
        }
        let found = self.find(pos, followed);
        if found.before.pos == pos {
            return RingPlace::Between(found.before);
        }
        RingPlace::Inside(found)
    }

    /// The seam before the piece that has `pos` inside, and that piece without the characters from
    /// `pos` on. Where a seam stands at `pos`, that seam and no character.
    pub(crate) fn front(&self, pos: u32, followed: &mut Followed) -> (Seam, Piece)
        requires { pos ≤ self.now.len }
        ensures cursor { IsBackCursor self.now.chain.nodes result.0 result.1 }
        ensures text { text_before self.now.chain.nodes result.0 result.1
            ≡ take pos (text_along self.now.chain.nodes) }
        ensures short { followed.new ≤ followed.old + 128 }
    {
        match self.place(pos, followed) {
            RingPlace::Between(seam) => (seam, EMPTY),
            RingPlace::Inside(found) => {
                let Seam { at, index, pos: _ } = found.after;
                let piece = self.chain.piece(at, index);
                let len = pos - found.before.pos;
                (found.before, Piece { len, ..piece })
            }
        }
    }

    /// The place of the piece that follows `seam`, or of the trailer at the end.
    fn place_after(&self, seam: Seam, followed: &mut Followed) -> Seam
        requires { IsSeam self.now.chain.nodes seam }
        ensures seam { IsSeam self.now.chain.nodes result }
        ensures finger { IsFingerAt (fingered self.now.chain.nodes result) seam.pos }
        ensures short { followed.new ≤ followed.old + 1 }
    {
        if seam.index == self.count {
            return self.start();
        }
        self.step(seam, followed)
    }

    /// The place of the piece that has the character at `pos`, or of the trailer at the end.
    fn place_to_point_at(&self, pos: u32, followed: &mut Followed) -> Seam
        requires { pos ≤ self.now.len }
        ensures seam { IsSeam self.now.chain.nodes result }
        ensures finger { IsFingerAt (fingered self.now.chain.nodes result) pos }
        ensures short { followed.new ≤ followed.old + 128 }
    {
        if pos == self.len {
            return self.start();
        }
        self.find(pos, followed).after
    }

    /// Keeps the place of the piece that has the character at `pos`, or of the trailer at the end.
    pub(crate) fn locate(&mut self, pos: u32, followed: &mut Followed)
        requires { pos ≤ self.old.len }
        ensures same { self.new.chain.nodes ≡ self.old.chain.nodes }
        ensures long { self.new.len ≡ self.old.len }
        ensures finger { IsFingerAt (fingered self.new.chain.nodes self.new.finger) pos }
        ensures short { followed.new ≤ followed.old + 128 }
    {
        self.finger = self.place_to_point_at(pos, followed);
    }

    /// Cuts a piece in two at `pos`, inside it. The spare node takes the second part.
    fn divide(&mut self, pos: u32, found: Found, spare: Spare) -> Seam
        requires found { IsFound self.old.chain.nodes pos found }
        requires inside { found.before.pos < pos }
        requires room { CanHold self.old.table (self.old.count + 1) }
        ensures grown { self.new.count ≡ self.old.count + 1 }
        ensures room { KeepsRoom self.old.table self.new.table }
        ensures long { self.new.len ≡ self.old.len }
        ensures opened { IsOpenedAt self.old.chain.nodes self.new.chain.nodes pos result }
    {
        let Seam { at, index, pos: _ } = found.after;
        let keep = pos - found.before.pos;
        let Piece { off, len, look } = self.chain.piece(at, index);
        self.table.open(&self.chain, found.before.index, index, self.count, self.len);
        let (mut node, second) = spare.into_node();
        node.set_piece(
            second,
            0,
            Piece {
                off: off + keep,
                len: len - keep,
                look,
            },
        );
        self.chain.set_piece(
            at,
            index,
            Piece {
                off,
                len: keep,
                look,
            },
        );
        self.chain.join(at, index, node, second);
        self.count += 1;
        let start = Seam {
            at: self.trailer,
            index: 0,
            pos: 0,
        };
        self.table
            .fill(&self.chain, start, self.count, self.len, &mut self.laid);
        self.finger = Seam { at, index, pos };
        self.finger
    }

    /// The seam at `pos`. Where it takes a node to cut a piece there, the node is taken before anything is changed.
    pub(crate) fn seam_at(
        &mut self,
        alloc: Global,
        pos: u32,
        followed: &mut Followed,
    ) -> Result<Seam, NoMemory>
        requires { pos ≤ self.old.len }
        ensures same { text_along self.new.chain.nodes ≡ text_along self.old.chain.nodes }
        ensures long { self.new.len ≡ self.old.len }
        ensures seam { IfOk result (λ s. IsSeam self.new.chain.nodes s × (s.pos ≡ pos)) }
        ensures kept { OnOk result ((s : ASeam) → s.pos ≤ pos → IsSeam self.old.chain.nodes s
            → IsSeam self.new.chain.nodes s) }
        ensures refused { OnErr result (self.new.chain.nodes ≡ self.old.chain.nodes) }
        ensures room { (self.new.count ≤ self.old.count + 1)
            × KeepsRoom self.old.table self.new.table }
        ensures short { followed.new ≤ followed.old + 128 }
    {
        match self.place(pos, followed) {
            RingPlace::Between(seam) => Ok(seam),
            RingPlace::Inside(found) => {
                self.reserve(alloc, 1)?;
                let spare = Spare::new(alloc)?;
                Ok(self.divide(pos, found, spare))
            }
        }
    }

    /// The seam at `pos`, with the spare node to cut a piece there.
    fn seam_with(&mut self, pos: u32, spare: Spare, followed: &mut Followed) -> Seam
        requires within { pos ≤ self.old.len }
        requires room { CanHold self.old.table (self.old.count + 1) }
        ensures long { self.new.len ≡ self.old.len }
        ensures opened { IsOpenedAt self.old.chain.nodes self.new.chain.nodes pos result }
        ensures short { followed.new ≤ followed.old + 128 }
    {
        match self.place(pos, followed) {
            RingPlace::Between(seam) => seam,
            RingPlace::Inside(found) => self.divide(pos, found, spare),
        }
    }

    /// The seams at two positions. All nodes that it takes are taken before anything is changed.
    pub(crate) fn seams(
        &mut self,
        alloc: Global,
        beg: u32,
        end: u32,
        followed: &mut Followed,
    ) -> Result<(Seam, Seam), NoMemory>
        requires order { beg ≤ end }
        requires within { end ≤ self.old.len }
        ensures same { text_along self.new.chain.nodes ≡ text_along self.old.chain.nodes }
        ensures long { self.new.len ≡ self.old.len }
        ensures from { IfOk result (λ s. IsSeam self.new.chain.nodes s.0 × (s.0.pos ≡ beg)) }
        ensures upto { IfOk result (λ s. IsSeam self.new.chain.nodes s.1 × (s.1.pos ≡ end)) }
        ensures refused { OnErr result (self.new.chain.nodes ≡ self.old.chain.nodes) }
        ensures short { followed.new ≤ followed.old + 256 }
    {
        match self.place(beg, followed) {
            RingPlace::Between(from) => {
                self.finger = from;
                let upto = self.seam_at(alloc, end, followed)?;
                Ok((from, upto))
            }
            RingPlace::Inside(found) => {
                self.reserve(alloc, 2)?;
                let first = Spare::new(alloc)?;
                let second = Spare::new(alloc)?;
                let from = self.divide(beg, found, first);
                let upto = self.seam_with(end, second, followed);
                Ok((from, upto))
            }
        }
    }

    /// Puts pieces in at `seam`, and gives the seam after them.
    pub(crate) fn insert(&mut self, seam: Seam, other: Stretch) -> Seam
        requires seam { IsSeam self.old.chain.nodes seam }
        requires fits { self.old.len + other.len < 2 ^ 32 }
        requires room { CanHold self.old.table (self.old.count + other.count) }
        ensures text { text_along self.new.chain.nodes
            ≡ inserted seam.pos (flat (pieces other.chain.nodes))
            (text_along self.old.chain.nodes) }
        ensures made { pieces_of self.new.chain.nodes
            ≡ with_put_in seam.index (pieces other.chain.nodes) (pieces_of self.old.chain.nodes) }
        ensures kept { IsSeam self.new.chain.nodes seam }
        ensures after { IsSeam self.new.chain.nodes result }
        ensures at { result.pos ≡ seam.pos + other.len }
    {
        let Stretch {
            chain,
            first,
            count,
            len,
        } = other;
        let last = chain.last(first);
        let missing = self
            .table
            .open_for(&self.chain, seam.index, count, self.count, self.len);
        self.chain.join(seam.at, seam.index, chain, first);
        self.count += count;
        self.len += len;
        let start = Seam {
            at: self.trailer,
            index: 0,
            pos: 0,
        };
        self.table.fill_where(
            missing,
            &self.chain,
            start,
            self.count,
            self.len,
            &mut self.laid,
        );
        self.finger = seam;
        Seam {
            at: last,
            index: seam.index + count,
            pos: seam.pos + len,
        }
    }

    /// Puts pieces into an empty list.
    pub(crate) fn put_all(&mut self, other: Stretch)
        requires none { self.old.count ≡ 0 }
        requires room { CanHold self.old.table other.count }
        ensures text { text_along self.new.chain.nodes ≡ flat (pieces other.chain.nodes) }
        ensures long { self.new.len ≡ other.len }
    {
        let Stretch {
            chain,
            first,
            count,
            len,
        } = other;
        self.chain.join(self.trailer, 0, chain, first);
        self.count = count;
        self.len = len;
        let start = Seam {
            at: self.trailer,
            index: 0,
            pos: 0,
        };
        self.table
            .fill(&self.chain, start, self.count, self.len, &mut self.laid);
    }

    /// Takes the pieces between two seams out.
    pub(crate) fn take_out(&mut self, from: Seam, upto: Seam, followed: &mut Followed) -> Stretch
        requires from { IsSeam self.old.chain.nodes from }
        requires upto { IsSeam self.old.chain.nodes upto }
        requires order { from.pos < upto.pos }
        ensures kept { IsSeam self.new.chain.nodes from }
        ensures count { from.index + result.count ≡ upto.index }
        ensures text { text_along self.new.chain.nodes
            ≡ deleted from.pos upto.pos (text_along self.old.chain.nodes) }
        ensures taken { flat (pieces result.chain.nodes)
            ≡ stretch from.pos upto.pos (text_along self.old.chain.nodes) }
        ensures followed { followed.new ≡ followed.old + 1 }
    {
        self.table
            .open(&self.chain, from.index, upto.index, self.count, self.len);
        let first = self.chain.next(from.at, from.index, followed);
        let chain = self.chain.split(from.at, from.index, upto.at, upto.index);
        let count = upto.index - from.index;
        let len = upto.pos - from.pos;
        self.count -= count;
        self.len -= len;
        let start = Seam {
            at: self.trailer,
            index: 0,
            pos: 0,
        };
        self.table
            .fill(&self.chain, start, self.count, self.len, &mut self.laid);
        self.finger = from;
        Stretch {
            chain,
            first,
            count,
            len,
        }
    }

    /// Changes the looks between two seams, in the fields that the selector names.
    pub(crate) fn relook(
        &mut self,
        from: Seam,
        upto: Seam,
        sel: u8,
        look: Look,
        followed: &mut Followed,
    )
        requires from { IsSeam self.old.chain.nodes from }
        requires upto { IsSeam self.old.chain.nodes upto }
        requires order { from.pos < upto.pos }
        ensures text { text_along self.new.chain.nodes
            ≡ looks_changed from.pos upto.pos sel look (text_along self.old.chain.nodes) }
        ensures kept { IsSeam self.new.chain.nodes upto }
    {
        relook_nodes(
            &mut self.chain,
            from.at,
            from.index,
            upto.index,
            sel,
            look,
            followed,
        );
        self.finger = from;
    }

    /// Makes one piece of the two that meet at `seam`, where `second` continues `first`, and frees the node at `next`,
    /// which holds the second.
    fn unite(&mut self, alloc: &Global, seam: Seam, next: Spot, first: Piece, second: Piece)
        requires seam { IsSeam self.old.chain.nodes seam }
        requires started { 0 < seam.index }
        requires next { slice_get (places self.old.chain.nodes) (seam.index + 1) ≡ Some next.ptr }
        requires first { slice_get (pieces self.old.chain.nodes) seam.index ≡ Some first }
        requires second { slice_get (pieces self.old.chain.nodes) (seam.index + 1) ≡ Some second }
        requires continued { Continues first second }
        ensures left { (self.new.len ≡ self.old.len)
            × IsFingerAt (fingered self.new.chain.nodes self.new.finger) seam.pos }
        ensures united { AreUnited self.old.chain.nodes self.new.chain.nodes seam.pos }
    {
        let Seam { at, index, pos } = seam;
        let len = first.len + second.len;
        self.table
            .open(&self.chain, index - 1, index + 1, self.count, self.len);
        self.chain.set_piece(at, index, Piece { len, ..first });
        self.chain
            .split(at, index, next, index + 1)
            .free(alloc, next);
        self.count -= 1;
        let start = Seam {
            at: self.trailer,
            index: 0,
            pos: 0,
        };
        self.table
            .fill(&self.chain, start, self.count, self.len, &mut self.laid);
        self.finger = Seam {
            at,
            index,
            pos: pos + second.len,
        };
    }

    /// Makes one piece of the two that meet at `seam`, if the second continues the first in the file and has its look.
    /// It takes no memory. Returns whether it did; the finger is on the one piece then.
    pub(crate) fn merge(&mut self, alloc: &Global, seam: Seam, followed: &mut Followed) -> bool
        requires { IsSeam self.old.chain.nodes seam }
        ensures same { text_along self.new.chain.nodes ≡ text_along self.old.chain.nodes }
        ensures long { self.new.len ≡ self.old.len }
        ensures merged { IsMergedAt (pieces_of self.new.chain.nodes) seam.pos }
        ensures earlier { (s : ASeam) → s.pos < seam.pos → IsSeam self.old.chain.nodes s
            → IsSeam self.new.chain.nodes s }
        ensures elsewhere { (pos : ℕ) → seam.pos < pos
            → IsMergedAt (pieces_of self.old.chain.nodes) pos
            → IsMergedAt (pieces_of self.new.chain.nodes) pos }
        ensures pieces { UnitesAtMost (pieces_of self.old.chain.nodes)
            (pieces_of self.new.chain.nodes) }
        ensures told { (result ≡ true
            → IsFingerAt (fingered self.new.chain.nodes self.new.finger) seam.pos)
            × (result ≡ false → self.new.chain.nodes ≡ self.old.chain.nodes)
            × (followed.new ≤ followed.old + 1) }
    {
        if seam.index == 0 || seam.index == self.count {
            return false;
        }
        let next = self.chain.next(seam.at, seam.index, followed);
        let first = self.chain.piece(seam.at, seam.index);
        let second = self.chain.piece(next, seam.index + 1);
        if !first.is_continued_by(second) {
            return false;
        }
        self.unite(alloc, seam, next, first, second);
        true
    }

    /// Merges the neighbours that meet at `seam`, and keeps the place of the piece that has its position.
    pub(crate) fn settle_at(&mut self, alloc: &Global, seam: Seam, followed: &mut Followed)
        requires { IsSeam self.old.chain.nodes seam }
        ensures same { text_along self.new.chain.nodes ≡ text_along self.old.chain.nodes }
        ensures settled { IsSettledAt (fingered self.new.chain.nodes self.new.finger) seam.pos }
        ensures elsewhere { (at : ℕ) → seam.pos < at
            → IsMergedAt (pieces_of self.old.chain.nodes) at
            → IsMergedAt (pieces_of self.new.chain.nodes) at }
        ensures pieces { UnitesAtMost (pieces_of self.old.chain.nodes)
            (pieces_of self.new.chain.nodes) }
        ensures short { followed.new ≤ followed.old + 2 }
    {
        if self.merge(alloc, seam, followed) {
            return;
        }
        self.finger = self.place_after(seam, followed);
    }

    /// Merges the neighbours that meet at `pos`, if pieces do, and keeps the place of the piece that has it.
    pub(crate) fn settle(&mut self, alloc: &Global, pos: u32, followed: &mut Followed)
        requires { pos ≤ self.old.len }
        ensures same { text_along self.new.chain.nodes ≡ text_along self.old.chain.nodes }
        ensures settled { IsSettledAt (fingered self.new.chain.nodes self.new.finger) pos }
        ensures elsewhere { (at : ℕ) → pos < at → IsMergedAt (pieces_of self.old.chain.nodes) at
            → IsMergedAt (pieces_of self.new.chain.nodes) at }
        ensures short { followed.new ≤ followed.old + 256 }
    {
        match self.place(pos, followed) {
            RingPlace::Between(seam) => self.settle_at(alloc, seam, followed),
            RingPlace::Inside(_) => self.locate(pos, followed),
        }
    }

    /// The pieces, of which there is at least one. The trailer is freed.
    pub(crate) fn into_stretch(self, alloc: &Global) -> Stretch
        requires { 0 < self.len }
        ensures text { flat (pieces result.chain.nodes) ≡ text_along self.chain.nodes }
        ensures count { result.count ≡ self.count }
    {
        let PieceList {
            mut chain,
            trailer,
            count,
            len,
            finger: _,
            table: _,
            laid: _,
        } = self;
        let first = chain.second(trailer);
        let last = chain.last(trailer);
        let pieces = chain.split(trailer, 0, last, count);
        chain.free(alloc, trailer);
        Stretch {
            chain: pieces,
            first,
            count,
            len,
        }
    }

    /// Frees all nodes, and says how many there were.
    pub(crate) fn destroy(self, alloc: &Global) -> usize
        ensures { result ≡ length self.chain.nodes }
    {
        let PieceList {
            mut chain,
            trailer,
            count,
            len: _,
            finger: _,
            table: _,
            laid: _,
        } = self;
        let mut freed = 0;
        for _ in 0..count {
            let first = chain.second(trailer);
            chain.split(trailer, 0, first, 1).free(alloc, first);
            freed += 1;
        }
        chain.free(alloc, trailer);
        freed + 1
    }
}

/// Changes the looks of the pieces after the node of index `i` up to that of index `j`.
fn relook_nodes(
    chain: &mut Chain,
    at: Spot,
    i: usize,
    j: usize,
    sel: u8,
    look: Look,
    followed: &mut Followed,
)
    requires at { slice_get (places chain.old.nodes) i ≡ Some at.ptr }
    requires order { i ≤ j }
    requires within { j < length chain.old.nodes }
    ensures lie { places chain.new.nodes ≡ places chain.old.nodes }
    ensures relooked { pieces chain.new.nodes
        ≡ with_range (i + 1) (j + 1) (relooked_piece sel look) (pieces chain.old.nodes) }
{
    let mut node = at;
    for index in i..j {
        node = chain.next(node, index, followed);
        let piece = chain.piece(node, index + 1);
        let changed = Piece {
            look: piece.look.relooked(sel, look),
            ..piece
        };
        chain.set_piece(node, index + 1, changed);
    }
}
