//! Marks along a list of pieces, from which a place is reached in few steps however many pieces there are.
//!
//! A mark is a seam. The marks are two stacks, with a window between them: those before it count pieces and characters
//! from the beginning of the text, those behind it from the end. So an edit in the window changes no mark.
ghost use Rattle.std.specs.Prelude.{ℕ, ◌≡◌, ◌+◌, ◌-◌, ◌*◌, ◌/◌, ◌<◌, ◌≤◌, ◌^◌, List, [], length, All, true, false};
ghost use Rattle.std.specs.Prelude.{Some, None, slice_get, IfOk, OnOk, vec_capacity};
ghost use denote.RawPtr.{Ptr};
ghost use Rattle.piece_ring.specs.declared.piece.Piece.{Piece as APiece};
ghost use Rattle.piece_ring.specs.declared.table.Mark.{Mark as AMark};
ghost use Rattle.piece_ring.specs.Place.{text_along, IsSeam};
ghost use Rattle.piece_ring.specs.Table.{AreSeamMarks, CanHold, HasRoom, IsAround, IsEdgeMoved, IsWindowFilled, IsKept};
ghost use Rattle.piece_ring.specs.Table.{IsMeasured, IsNoted, IsWindowOpened, IsParted, IsPopped, IsReserved, IsSameRoom};
ghost use Rattle.piece_ring.specs.Table.{IsTable, IsTableParted, IsWalkStart, KeepsRoom, back_of, front_of, past_top};
ghost use Rattle.piece_ring.specs.Table.{mark_of_seam, top as top_of, turned as turned_mark, turned_seam as turned_back};

use crate::chain::{Chain, Spot};
use crate::place::Seam;
use crate::ring::Followed;
use std::alloc::{AllocError as NoMemory, Global};

/// The most pieces from one mark to the next.
pub(crate) const MOST: usize = 128;

/// The least pieces for each mark, on the average.
pub(crate) const LEAST: usize = 16;

/// How far a mark is put behind another.
const STRIDE: usize = 64;

/// A seam, by the number of pieces and characters before it, or behind it.
#[derive(Clone, Copy)]
pub(crate) struct Mark {
    pub(crate) at: Spot,
    pub(crate) index: u32,
    pub(crate) pos: u32,
}

/// What is kept of the stacks, so that most edits look at nothing else.
#[derive(Clone, Copy)]
pub(crate) struct Kept {
    /// The numbers of pieces before the window and behind it.
    pub(crate) before: usize,
    pub(crate) behind: usize,
    /// One more than `behind`, or 0 where no mark is behind the window.
    pub(crate) past: usize,
    /// The least number of pieces for as many marks.
    pub(crate) least: usize,
}

/// The marks, nearest to the window last.
#[derive(Drop)]
pub(crate) struct Stacks {
    /// Those before the window, measured from the beginning.
    pub(crate) front: Vec<Mark>,
    /// Those behind it, measured from the end.
    pub(crate) back: Vec<Mark>,
    pub(crate) kept: Kept,
    /// The number of pieces for whose marks there is memory.
    pub(crate) room: usize,
}

/// The marks of a list. One of at most `MOST` pieces may do without stacks.
#[derive(Drop)]
pub(crate) struct Table {
    pub(crate) stacks: Option<Box<Stacks>>,
}

impl Table {
    /// No marks. It takes no memory.
    pub(crate) fn new() -> Table
        ensures { result.stacks ≡ None }
    {
        Table { stacks: None }
    }

    /// The number of marks.
    pub(crate) fn len(&self, chain: &Chain) -> usize
        requires table { IsTable chain.now.nodes self.now }
        ensures few { 16 * result < length chain.now.nodes }
        ensures enough { length chain.now.nodes ≤ 128 * result + 129 }
        ensures small { result < 2 ^ 32 }
    {
        match &self.stacks {
            Some(stacks) => stacks.len(),
            None => 0,
        }
    }

    /// What is kept of the stacks.
    fn kept(&self) -> Kept
        requires { IsNoted self.now }
        ensures { IsKept (front_of self.now) (back_of self.now) result }
    {
        match &self.stacks {
            Some(stacks) => stacks.kept,
            None => Kept {
                before: 0,
                behind: 0,
                past: 0,
                least: 0,
            },
        }
    }

    /// Whether there is memory for the marks of so many pieces, and of so many further ones.
    pub(crate) fn has_room(&self, count: usize, more: usize) -> bool
        requires room { CanHold self.now count }
        requires count { count < 2 ^ 32 }
        requires more { more < 2 ^ 33 }
        ensures { result ≡ true → CanHold self.now (count + more) }
    {
        match &self.stacks {
            Some(stacks) => count + more <= stacks.room,
            None => count + more <= MOST,
        }
    }

    /// Takes the memory for the marks of so many pieces, and of so many further ones.
    #[inline(never)]
    pub(crate) fn reserve(
        &mut self,
        alloc: Global,
        count: usize,
        more: usize,
    ) -> Result<(), NoMemory>
        requires room { CanHold self.old count }
        requires count { count < 2 ^ 32 }
        requires more { more < 2 ^ 33 }
        ensures front { front_of self.new ≡ front_of self.old }
        ensures back { back_of self.new ≡ back_of self.old }
        ensures noted { IsNoted self.old → IsNoted self.new }
        ensures room { OnOk result (CanHold self.new (count + more)) }
        ensures kept { KeepsRoom self.old self.new }
    {
        if let Some(stacks) = &mut self.stacks {
            return stacks.reserve(count + more);
        }
        let stacks = Stacks::with_room(alloc, count + more)?;
        self.stacks = Some(Box::new(alloc, stacks)?);
        Ok(())
    }

    /// Moves the window to what is between the nodes of indexes `a` and `b`, and forgets the marks there. Mostly it is
    /// there already.
    pub(crate) fn open(&mut self, chain: &Chain, a: usize, b: usize, count: usize, len: u32)
        requires list { IsMeasured chain.now.nodes count len }
        requires table { IsTable chain.now.nodes self.old }
        requires room { CanHold self.old count }
        requires order { a ≤ b }
        requires within { b ≤ count }
        ensures opened { IsWindowOpened chain.now.nodes self.new a b }
        ensures room { KeepsRoom self.old self.new }
    {
        if is_held(self.kept(), a, b, count) {
            return;
        }
        self.move_window(chain, a, b, count, len);
    }

    /// Opens the window at a seam where so many pieces go in. Returns whether marks may be missing in it then.
    pub(crate) fn open_for(
        &mut self,
        chain: &Chain,
        index: usize,
        more: usize,
        count: usize,
        len: u32,
    ) -> bool
        requires list { IsMeasured chain.now.nodes count len }
        requires table { IsTable chain.now.nodes self.old }
        requires room { CanHold self.old count }
        requires within { index ≤ count }
        requires more { more < 2 ^ 32 }
        ensures opened { IsWindowOpened chain.now.nodes self.new index index }
        ensures room { KeepsRoom self.old self.new }
        ensures filled { result ≡ false
            → IsWindowFilled (front_of self.new) (back_of self.new) (count + more) }
    {
        if takes(self.kept(), index, more, count) {
            return false;
        }
        self.move_window(chain, index, index, count, len);
        true
    }

    /// Moves the window to what is between the nodes of indexes `a` and `b`, and forgets the marks there.
    fn move_window(&mut self, chain: &Chain, a: usize, b: usize, count: usize, len: u32)
        requires list { IsMeasured chain.now.nodes count len }
        requires table { IsTable chain.now.nodes self.old }
        requires room { CanHold self.old count }
        requires order { a ≤ b }
        requires within { b ≤ count }
        ensures opened { IsWindowOpened chain.now.nodes self.new a b }
        ensures room { KeepsRoom self.old self.new }
    {
        let Some(stacks) = &mut self.stacks else {
            return;
        };
        stacks.open(chain, a, b, count, len);
    }

    /// Puts in what marks are missing in the window; all are made anew where they are too many. Mostly nothing is to do.
    pub(crate) fn fill(
        &mut self,
        chain: &Chain,
        start: Seam,
        count: usize,
        len: u32,
        laid: &mut Followed,
    )
        requires list { IsMeasured chain.now.nodes count len }
        requires parted { IsTableParted chain.now.nodes self.old }
        requires room { CanHold self.old count }
        requires start { IsWalkStart chain.now.nodes start }
        ensures table { IsTable chain.now.nodes self.new }
        ensures room { KeepsRoom self.old self.new }
    {
        let missing = !is_filled(self.kept(), count);
        self.fill_where(missing, chain, start, count, len, laid);
    }

    /// The same, where it is known whether any may be missing.
    pub(crate) fn fill_where(
        &mut self,
        missing: bool,
        chain: &Chain,
        start: Seam,
        count: usize,
        len: u32,
        laid: &mut Followed,
    )
        requires list { IsMeasured chain.now.nodes count len }
        requires parted { IsTableParted chain.now.nodes self.old }
        requires room { CanHold self.old count }
        requires start { IsWalkStart chain.now.nodes start }
        requires filled { missing ≡ false
            → IsWindowFilled (front_of self.old) (back_of self.old) count }
        ensures table { IsTable chain.now.nodes self.new }
        ensures room { KeepsRoom self.old self.new }
    {
        if !missing {
            return;
        }
        let Some(stacks) = &mut self.stacks else {
            return;
        };
        stacks.fill(chain, start, count, len, laid);
    }

    /// The marks on both sides of the character at `pos`, or the start or the end of the text where there is none.
    pub(crate) fn around(&self, chain: &Chain, start: Seam, end: Seam, pos: u32) -> (Seam, Seam)
        requires list { IsMeasured chain.now.nodes end.index end.pos }
        requires table { IsTable chain.now.nodes self.now }
        requires start { IsWalkStart chain.now.nodes start }
        requires end { IsSeam chain.now.nodes end }
        requires within { pos < end.pos }
        ensures { IsAround chain.now.nodes pos result }
    {
        match &self.stacks {
            Some(stacks) => stacks.around(chain, start, end, pos),
            None => (start, end),
        }
    }
}

/// Whether the window has what an edit between the nodes of indexes `a` and `b` changes.
fn is_held(kept: Kept, a: usize, b: usize, count: usize) -> bool
    requires small { b + kept.past < 2 ^ 64 }
    ensures before { result ≡ true → kept.before ≤ a }
    ensures behind { result ≡ true → b + kept.past ≤ count }
{
    kept.before <= a && b + kept.past <= count
}

/// Whether so many pieces go in at a seam without a change of marks.
fn takes(kept: Kept, index: usize, more: usize, count: usize) -> bool
    requires small { index + kept.past < 2 ^ 64 }
    requires all { count + more < 2 ^ 64 }
    requires within { kept.before + kept.behind ≤ count }
    ensures before { result ≡ true → kept.before ≤ index }
    ensures behind { result ≡ true → index + kept.past ≤ count }
    ensures close { result ≡ true → count + more ≤ kept.before + kept.behind + 128 }
{
    is_held(kept, index, index, count) && count + more - kept.before - kept.behind <= MOST
}

/// Whether the window has at most `MOST` pieces, and marks are few enough for the number of pieces.
fn is_filled(kept: Kept, count: usize) -> bool
    requires { kept.before + kept.behind ≤ count }
    ensures close { result ≡ true → count ≤ kept.before + kept.behind + 128 }
    ensures least { result ≡ true → kept.least ≤ count }
{
    count - kept.before - kept.behind <= MOST && kept.least <= count
}

impl Stacks {
    /// No marks, and the memory for those of so many pieces.
    fn with_room(alloc: Global, count: usize) -> Result<Stacks, NoMemory>
        requires { count < 2 ^ 34 }
        ensures front { IfOk result (λ s. s.front.items ≡ []) }
        ensures back { IfOk result (λ s. s.back.items ≡ []) }
        ensures kept { IfOk result (λ s. IsKept [] [] s.kept) }
        ensures room { IfOk result (λ s. HasRoom s count) }
        ensures some { IfOk result (λ s. HasRoom s 128) }
    {
        let mut stacks = Stacks {
            front: Vec::new(alloc),
            back: Vec::new(alloc),
            kept: Kept {
                before: 0,
                behind: 0,
                past: 0,
                least: 0,
            },
            room: 0,
        };
        stacks.reserve(count)?;
        Ok(stacks)
    }

    /// The number of marks.
    fn len(&self) -> usize
        requires { length self.now.front.items + length self.now.back.items < 2 ^ 32 }
        ensures { result ≡ length self.now.front.items + length self.now.back.items }
    {
        self.front.len() + self.back.len()
    }

    /// Takes the memory for the marks of so many pieces.
    fn reserve(&mut self, count: usize) -> Result<(), NoMemory>
        requires small { count < 2 ^ 34 }
        requires room { IsReserved self.old }
        ensures front { self.new.front.items ≡ self.old.front.items }
        ensures back { self.new.back.items ≡ self.old.back.items }
        ensures kept { self.new.kept ≡ self.old.kept }
        ensures room { OnOk result (HasRoom self.new count) }
        ensures some { OnOk result (HasRoom self.new 128) }
        ensures keeps { (n : ℕ) → HasRoom self.old n → HasRoom self.new n }
    {
        let wanted = (count + count / 2) / LEAST + 8;
        self.front.reserve(wanted.saturating_sub(self.front.len()))?;
        self.back.reserve(wanted.saturating_sub(self.back.len()))?;
        self.room = self.room.max(wanted * LEAST);
        Ok(())
    }

    /// Works out what is kept.
    fn note(&mut self)
        requires { length self.old.front.items + length self.old.back.items < 2 ^ 32 }
        ensures front { self.new.front ≡ self.old.front }
        ensures back { self.new.back ≡ self.old.back }
        ensures room { self.new.room ≡ self.old.room }
        ensures kept { IsKept self.new.front.items self.new.back.items self.new.kept }
    {
        self.kept = Kept {
            before: top(&self.front),
            behind: top(&self.back),
            past: past(&self.back),
            least: self.len() * LEAST,
        };
    }

    /// Moves the marks past the node of that index behind the window.
    fn retreat(&mut self, chain: &Chain, index: usize, count: usize, len: u32)
        requires list { IsMeasured chain.now.nodes count len }
        requires table { AreSeamMarks chain.now.nodes self.old.front.items self.old.back.items }
        requires room { HasRoom self.old count }
        requires within { index ≤ count }
        ensures table { AreSeamMarks chain.now.nodes self.new.front.items self.new.back.items }
        ensures room { IsSameRoom self.old self.new }
        ensures before { All (λ m. m.index ≤ index) self.new.front.items }
    {
        while let Some(mark) = popped(&mut self.front, index + 1) {
            self.back.push_reserved(turned(mark, count, len));
        }
    }

    /// Moves the other marks before it.
    fn advance(&mut self, chain: &Chain, index: usize, count: usize, len: u32)
        requires list { IsMeasured chain.now.nodes count len }
        requires table { AreSeamMarks chain.now.nodes self.old.front.items self.old.back.items }
        requires room { HasRoom self.old count }
        requires within { index ≤ count }
        requires before { All (λ m. m.index ≤ index) self.old.front.items }
        ensures table { AreSeamMarks chain.now.nodes self.new.front.items self.new.back.items }
        ensures room { IsSameRoom self.old self.new }
        ensures sides { All (λ m. m.index ≤ index) self.new.front.items
            × All (λ m. m.index + index + 1 < length chain.now.nodes) self.new.back.items }
    {
        while let Some(mark) = popped(&mut self.back, count - index) {
            self.front.push_reserved(turned(mark, count, len));
        }
    }

    /// Forgets the last marks before the window, those past the node of that index.
    fn forget(&mut self, chain: &Chain, index: usize)
        requires parted { IsParted chain.now.nodes self.old.front.items self.old.back.items }
        requires small { index < 2 ^ 32 }
        ensures parted { IsParted chain.now.nodes self.new.front.items self.new.back.items }
        ensures back { self.new.back.items ≡ self.old.back.items }
        ensures room { IsSameRoom self.old self.new }
        ensures before { All (λ m. m.index ≤ index) self.new.front.items }
    {
        while let Some(_) = popped(&mut self.front, index + 1) {}
    }

    /// Moves the window to what is between the nodes of indexes `a` and `b`, and forgets the marks there.
    #[inline(never)]
    fn open(&mut self, chain: &Chain, a: usize, b: usize, count: usize, len: u32)
        requires list { IsMeasured chain.now.nodes count len }
        requires table { AreSeamMarks chain.now.nodes self.old.front.items self.old.back.items }
        requires room { HasRoom self.old count }
        requires order { a ≤ b }
        requires within { b ≤ count }
        ensures opened { IsEdgeMoved chain.now.nodes self.new.front.items self.new.back.items a b }
        ensures kept { IsKept self.new.front.items self.new.back.items self.new.kept }
        ensures room { IsSameRoom self.old self.new }
    {
        self.retreat(chain, b, count, len);
        self.advance(chain, b, count, len);
        self.forget(chain, a);
        self.note();
    }

    /// Puts in what marks are missing in the window; all are made anew where they are too many.
    #[inline(never)]
    fn fill(&mut self, chain: &Chain, start: Seam, count: usize, len: u32, laid: &mut Followed)
        requires list { IsMeasured chain.now.nodes count len }
        requires parted { IsParted chain.now.nodes self.old.front.items self.old.back.items }
        requires kept { IsKept self.old.front.items self.old.back.items self.old.kept }
        requires room { HasRoom self.old count }
        requires start { IsWalkStart chain.now.nodes start }
        ensures table { AreSeamMarks chain.now.nodes self.new.front.items self.new.back.items }
        ensures kept { IsKept self.new.front.items self.new.back.items self.new.kept }
        ensures room { IsSameRoom self.old self.new }
    {
        let gap = count - self.kept.before - self.kept.behind;
        if self.len() + gap / STRIDE > count / LEAST {
            self.front.clear();
            self.back.clear();
        }
        self.fill_gap(chain, start, count, len, laid);
        self.note();
    }

    /// Puts in what marks are missing in the window, which are few enough.
    fn fill_gap(&mut self, chain: &Chain, start: Seam, count: usize, len: u32, laid: &mut Followed)
        requires list { IsMeasured chain.now.nodes count len }
        requires parted { IsParted chain.now.nodes self.old.front.items self.old.back.items }
        requires room { HasRoom self.old count }
        requires start { IsWalkStart chain.now.nodes start }
        requires least { 16 * (length self.old.front.items + length self.old.back.items
            + (count - top_of 0 self.old.front.items - top_of 0 self.old.back.items) / 64) ≤ count }
        ensures table { AreSeamMarks chain.now.nodes self.new.front.items self.new.back.items }
        ensures room { IsSameRoom self.old self.new }
    {
        let end = count - top(&self.back);
        let mut mark = nth(&self.front, self.front.len(), start);
        while end - mark.index > MOST {
            mark = walk(chain, mark, STRIDE, len, laid);
            self.front.push_reserved(marked(mark));
        }
    }

    /// The marks on both sides of the character at `pos`, or the start or the end of the text where there is none.
    fn around(&self, chain: &Chain, start: Seam, end: Seam, pos: u32) -> (Seam, Seam)
        requires list { IsMeasured chain.now.nodes end.index end.pos }
        requires table { AreSeamMarks chain.now.nodes self.now.front.items self.now.back.items }
        requires start { IsWalkStart chain.now.nodes start }
        requires end { IsSeam chain.now.nodes end }
        requires within { pos < end.pos }
        ensures { IsAround chain.now.nodes pos result }
    {
        let passed = search(&self.front, pos);
        let low = nth(&self.front, passed, start);
        if passed < self.front.len() {
            let high = nth(&self.front, passed + 1, start);
            return (low, high);
        }
        self.around_back(chain, low, end, pos)
    }

    /// The same where no mark before the window is past `pos`, and `low` is the last of these.
    fn around_back(&self, chain: &Chain, low: Seam, end: Seam, pos: u32) -> (Seam, Seam)
        requires list { IsMeasured chain.now.nodes end.index end.pos }
        requires table { AreSeamMarks chain.now.nodes self.now.front.items self.now.back.items }
        requires low { IsSeam chain.now.nodes low }
        requires from { low.pos ≤ pos }
        requires last { low.index ≡ top_of 0 self.now.front.items }
        requires end { IsSeam chain.now.nodes end }
        requires within { pos < end.pos }
        ensures { IsAround chain.now.nodes pos result }
    {
        let behind = search(&self.back, end.pos - pos - 1);
        let none = Seam {
            at: end.at,
            index: 0,
            pos: 0,
        };
        let mark = nth(&self.back, behind, none);
        let high = turned_seam(mark, end.index, end.pos);
        if behind < self.back.len() {
            let next = nth(&self.back, behind + 1, none);
            return (turned_seam(next, end.index, end.pos), high);
        }
        (low, high)
    }
}

/// The mark that is measured from the other end.
fn turned(mark: Mark, count: usize, len: u32) -> Mark
    requires few { count < 2 ^ 32 }
    requires index { mark.index ≤ count }
    requires pos { mark.pos ≤ len }
    ensures { result ≡ turned_mark count len mark }
{
    Mark {
        at: mark.at,
        index: count as u32 - mark.index,
        pos: len - mark.pos,
    }
}

/// The seam that is measured from the other end.
fn turned_seam(seam: Seam, count: usize, len: u32) -> Seam
    requires index { seam.index ≤ count }
    requires pos { seam.pos ≤ len }
    ensures { result ≡ turned_back count len seam }
{
    Seam {
        at: seam.at,
        index: count - seam.index,
        pos: len - seam.pos,
    }
}

/// The mark of a seam.
fn marked(seam: Seam) -> Mark
    requires { seam.index < 2 ^ 32 }
    ensures { result ≡ mark_of_seam seam }
{
    Mark {
        at: seam.at,
        index: seam.index as u32,
        pos: seam.pos,
    }
}

/// Takes the last mark, if its index is at least `least`.
fn popped(marks: &mut Vec<Mark>, least: usize) -> Option<Mark>
    ensures marks { IsPopped least marks.old.items result marks.new.items }
    ensures room { vec_capacity marks.new ≡ vec_capacity marks.old }
{
    let Some(mark) = marks.last() else {
        return None;
    };
    if (mark.index as usize) < least {
        return None;
    }
    marks.pop()
}

/// The index of the last mark, or 0.
fn top(marks: &Vec<Mark>) -> usize
    ensures { result ≡ top_of 0 marks.now.items }
{
    match marks.last() {
        Some(mark) => mark.index as usize,
        None => 0,
    }
}

/// One more than the index of the last mark, or 0.
fn past(marks: &Vec<Mark>) -> usize
    ensures { result ≡ past_top marks.now.items }
{
    match marks.last() {
        Some(mark) => mark.index as usize + 1,
        None => 0,
    }
}

/// The seam of the mark before that of index `n`, or the start.
fn nth(marks: &Vec<Mark>, n: usize, start: Seam) -> Seam
    requires { n ≤ length marks.now.items }
    ensures first { n ≡ 0 → result ≡ start }
    ensures inner { (k : ℕ) → n ≡ k + 1 → slice_get marks.now.items k ≡ Some (mark_of_seam result) }
{
    if n == 0 {
        return start;
    }
    let mark = marks[n - 1];
    Seam {
        at: mark.at,
        index: mark.index as usize,
        pos: mark.pos,
    }
}

/// How many of the marks are at `pos` or before it.
fn search(marks: &Vec<Mark>, pos: u32) -> usize
    ensures within { result ≤ length marks.now.items }
    ensures low { (k : ℕ) (m : AMark) → slice_get marks.now.items k ≡ Some m → k + 1 ≡ result
        → m.pos ≤ pos }
    ensures high { (m : AMark) → slice_get marks.now.items result ≡ Some m → pos < m.pos }
{
    let mut low = 0;
    let mut high = marks.len();
    while low < high {
        let middle = low + (high - low) / 2;
        if marks[middle].pos <= pos {
            low = middle + 1;
        } else {
            high = middle;
        }
    }
    low
}

/// The seam so many pieces after another.
fn walk(chain: &Chain, from: Seam, links: usize, len: u32, laid: &mut Followed) -> Seam
    requires seam { IsSeam chain.now.nodes from }
    requires within { from.index + links < length chain.now.nodes }
    requires text { length (text_along chain.now.nodes) ≡ len }
    requires few { length chain.now.nodes ≤ 2 ^ 32 }
    ensures seam { IsSeam chain.now.nodes result }
    ensures index { result.index ≡ from.index + links }
{
    let mut seam = from;
    for _ in 0..links {
        seam = next_seam(chain, seam, len, laid);
    }
    seam
}

/// The seam after the piece that follows `seam`.
fn next_seam(chain: &Chain, seam: Seam, len: u32, laid: &mut Followed) -> Seam
    requires seam { IsSeam chain.now.nodes seam }
    requires more { seam.index + 1 < length chain.now.nodes }
    requires text { length (text_along chain.now.nodes) ≡ len }
    requires few { length chain.now.nodes ≤ 2 ^ 32 }
    ensures after { IsSeam chain.now.nodes result }
    ensures next { result.index ≡ seam.index + 1 }
{
    let _ = len;
    let at = chain.next(seam.at, seam.index, laid);
    let index = seam.index + 1;
    let piece = chain.piece(at, index);
    Seam {
        at,
        index,
        pos: seam.pos + piece.len,
    }
}
