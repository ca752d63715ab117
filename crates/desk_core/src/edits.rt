//! Edits that several events have: what is put in or taken out, with the caret where it was, and copies of stretches.
ghost use Rattle.std.specs.Prelude.{◌≡◌, ◌+◌, ◌-◌, ◌<◌, ◌≤◌, ◌^◌, ◌&&◌, ℕ, List, length, nat_le, IfOk, IfSome, IsSome};
ghost use Rattle.std.specs.Prelude.{OnOk, is_none, true, Ok, if◌then◌else◌};
ghost use Rattle.desktop_definitions.specs.Change.{put_in, put_at_caret, cut_out};
ghost use Rattle.desktop_definitions.specs.DeskWords.{has_space};
ghost use Rattle.desk_core.specs.Words.{stretch, newest, kept_main, CanGo, run, no_caret, FailsAs, OnlyReads, flat};
ghost use Rattle.desk_core.specs.Words.{most_written, most_held, text_numbered, viewer_or_none, seen, seen_text};
ghost use Rattle.desk_core.specs.Words.{IsKeptWhole, IsBuilt, IsOver, IsChanged, kept_desktop, IsPosition, IsStop, needs};
ghost use Rattle.desk_core.specs.Words.{IsOpenAt, DoesUnread};
ghost use Rattle.desk_core.specs.Buffers.{buffer_of};

use crate::desk::Desk;
use crate::stop::{NoMemory, StepResult, Stop};
use crate::viewers::viewer_of;
use char_file::CharSource;
use desktop_definitions::{Caret, MOST_HELD, MOST_WRITTEN, Reply, Selection, codes};
use piece_ring::{Look, Piece};
use std::alloc::Global;
use text_core::Buffer;

impl Desk {
    /// Whether the limits on characters hold once `made` more are written, and `more` more and `fewer` fewer held.
    pub fn fits_more(&self, made: usize, more: usize, fewer: usize) -> bool
        requires whole { IsKeptWhole (kept_desktop self.now) }
        requires made { made < 2 ^ 32 }
        requires more { more < 2 ^ 32 }
        requires fewer { fewer < 2 ^ 32 }
        ensures { (characters : List ℕ) → result
            ≡ has_space (seen characters (kept_desktop self.now)) made more fewer }
    {
        let held = self.held();
        is_space(self.written as usize + made, held + more, fewer)
    }

    /// The selection that was made last, if there is one.
    pub fn newest(&self) -> Option<Selection>
        ensures { result ≡ newest (kept_desktop self.now) }
    {
        self.selections.last().copied()
    }

    /// The selection that was made last, if there is one: a stretch that stands there.
    pub fn selection(&self) -> Option<Selection>
        requires { IsKeptWhole (kept_desktop self.now) }
        ensures is { result ≡ newest (kept_desktop self.now) }
        ensures some { IfSome result (λ s. s.beg < s.end) }
        ensures stands { IfSome result (λ s. IsPosition (kept_desktop self.now) s.viewer s.end) }
        ensures there { IfSome result (λ s. IsSome (text_numbered (kept_desktop self.now).texts
            (viewer_or_none (kept_desktop self.now).viewers s.viewer).main)) }
    {
        self.newest()
    }

    /// Where the caret stands, if there is one.
    pub fn caret_place(&self) -> Option<Caret>
        requires { IsKeptWhole (kept_desktop self.now) }
        ensures is { result ≡ (kept_desktop self.now).caret }
        ensures stands { IfSome result
            (λ c. IsPosition (kept_desktop self.now) c.viewer c.position) }
    {
        self.caret
    }

    /// The number of a viewer's main text.
    pub fn main_of(&self, id: u16) -> u16
        ensures { result ≡ (viewer_or_none (kept_desktop self.now).viewers id).main }
    {
        match viewer_of(&self.viewers, id) {
            Some(viewer) => viewer.main,
            None => 0,
        }
    }

    /// The characters of a stretch of a viewer's main text.
    fn characters_of(&self, selection: Selection) -> Result<Buffer, NoMemory>
        requires order { selection.beg ≤ selection.end }
        requires within { selection.end ≤ length (flat
            (kept_main (kept_desktop self.now) selection.viewer)) }
        ensures { IfOk result (λ copy. flat copy
            ≡ stretch selection.beg selection.end
            (flat (kept_main (kept_desktop self.now) selection.viewer))) }
    {
        let mut copy = Buffer::new(self.alloc)?;
        let number = self.main_of(selection.viewer);
        if let Some(text) = self.texts.get(&number) {
            text.save(self.alloc, selection.beg, selection.end, &mut copy)?;
        }
        Ok(copy)
    }

    /// A copy of a stretch of a viewer's main text, which can go into any viewer's.
    pub fn copy_of(&self, selection: Selection) -> Result<Buffer, NoMemory>
        requires order { selection.beg ≤ selection.end }
        requires within { selection.end ≤ length (flat
            (kept_main (kept_desktop self.now) selection.viewer)) }
        ensures is { IfOk result (λ copy. flat copy
            ≡ stretch selection.beg selection.end
            (flat (kept_main (kept_desktop self.now) selection.viewer))) }
        ensures goes { IfOk result
            (λ copy. (characters : List ℕ) (v : ℕ) → IsOver characters (kept_desktop self.now)
            → CanGo (length characters) (kept_desktop self.now) v copy) }
    {
        let copy = self.characters_of(selection)?;
        Ok(copy)
    }

    /// Puts the buffer's characters into a viewer's main text at `pos`, and the caret after them, where it is shown.
    pub fn put_in<S: CharSource>(
        &mut self,
        id: u16,
        pos: u32,
        buffer: &mut Buffer,
        source: &mut S,
    ) -> Result<(), Stop>
        requires at { IsOpenAt (length (S.characters source.old)) (kept_desktop self.old) id pos }
        requires goes { CanGo (length (S.characters source.old)) (kept_desktop self.old) id
            buffer.old }
        ensures changed { OnOk result
            (IsChanged (S.honest source.old) (S.characters source.old) (kept_desktop self.old)
            (kept_desktop self.new)
            (put_in (seen (S.characters source.old) (kept_desktop self.old)) id pos
            (seen_text (S.characters source.old) buffer.old)) (length (flat buffer.old)) 0) }
        ensures reads { OnlyReads S.characters S.failures S.honest S.same_ground source.old
            source.new }
        ensures faults { FailsAs Stop.Fault IsStop result (S.failures source.old)
            (S.failures source.new) }
    {
        let number = self.main_of(id);
        let len = buffer.len();
        self.insert(number, pos, buffer, source)?;
        self.show_caret(id, pos + len, source)?;
        Ok(())
    }

    /// Puts the buffer's characters in at the caret, and the caret after them, where it is shown. Where there are none
    /// nothing changes.
    pub fn put_at_caret<S: CharSource>(
        &mut self,
        caret: Caret,
        buffer: &mut Buffer,
        source: &mut S,
    ) -> Result<(), Stop>
        requires at { IsOpenAt (length (S.characters source.old)) (kept_desktop self.old)
            caret.viewer caret.position }
        requires goes { CanGo (length (S.characters source.old)) (kept_desktop self.old)
            caret.viewer buffer.old }
        ensures changed { OnOk result
            (IsChanged (S.honest source.old) (S.characters source.old) (kept_desktop self.old)
            (kept_desktop self.new)
            (put_at_caret (seen (S.characters source.old) (kept_desktop self.old))
            (seen_text (S.characters source.old) buffer.old) caret) (length (flat buffer.old)) 0) }
        ensures reads { OnlyReads S.characters S.failures S.honest S.same_ground source.old
            source.new }
        ensures faults { FailsAs Stop.Fault IsStop result (S.failures source.old)
            (S.failures source.new) }
    {
        if buffer.len() == 0 {
            return Ok(());
        }
        self.put_in(caret.viewer, caret.position, buffer, source)?;
        Ok(())
    }

    /// Takes a viewer's stretch out and returns it, and puts the caret where it was, which is shown.
    pub fn cut_out<S: CharSource>(
        &mut self,
        selection: Selection,
        source: &mut S,
    ) -> Result<Buffer, Stop>
        requires built { IsBuilt (length (S.characters source.old)) (kept_desktop self.old) }
        requires some { selection.beg < selection.end }
        requires at { IsPosition (kept_desktop self.old) selection.viewer selection.end }
        ensures changed { OnOk result
            (IsChanged (S.honest source.old) (S.characters source.old) (kept_desktop self.old)
            (kept_desktop self.new)
            (cut_out (seen (S.characters source.old) (kept_desktop self.old)) selection)
            0 (selection.end - selection.beg)) }
        ensures taken { IfOk result (λ taken. flat taken
            ≡ stretch selection.beg selection.end
            (flat (kept_main (kept_desktop self.old) selection.viewer))) }
        ensures reads { OnlyReads S.characters S.failures S.honest S.same_ground source.old
            source.new }
        ensures faults { FailsAs Stop.Fault IsStop result (S.failures source.old)
            (S.failures source.new) }
    {
        let number = self.main_of(selection.viewer);
        let taken = self.delete(number, selection.beg, selection.end, source)?;
        self.show_caret(selection.viewer, selection.beg, source)?;
        Ok(taken)
    }
}

/// Whether so many characters written, and so many held with `fewer` to go, are within the limits.
pub(crate) fn is_space(written: usize, held: usize, fewer: usize) -> bool
    requires { fewer < 2 ^ 32 }
    ensures { result ≡ (nat_le written most_written && nat_le held (most_held + fewer)) }
{
    written <= MOST_WRITTEN as usize && held <= MOST_HELD as usize + fewer
}

/// Which buffer of a desktop.
#[derive(Clone, Copy, Debug, PartialEq, Eq)]
pub enum DeskBuffer {
    /// What a key copied or cut last.
    Copied,
    /// What a gesture took out last.
    Deleted,
}

/// A buffer of `count` characters in one look, which stand together from the offset `first` on.
pub fn buffer_of_run(alloc: Global, first: u32, count: u32, look: Look) -> Result<Buffer, NoMemory>
    requires some { 0 < count }
    requires offsets { first + count < 2 ^ 32 }
    ensures { IfOk result (λ buffer. flat buffer ≡ run first count look) }
{
    let mut buffer = Buffer::new(alloc)?;
    let piece = Piece {
        off: first,
        len: count,
        look,
    };
    buffer.add(alloc, piece)?;
    Ok(buffer)
}

impl Desk {
    /// A copy of a buffer is put in at the caret. Refused without a caret.
    pub fn put_buffer<S: CharSource>(&mut self, buffer: DeskBuffer, source: &mut S) -> StepResult
        requires over { IsOver (S.characters source.old) (kept_desktop self.old) }
        ensures { DoesUnread S.CharSource (is_none (kept_desktop self.old).caret ≡ true)
            (λ d. needs d.caret no_caret λ c.
            Ok (put_at_caret d (buffer_of d buffer) c)) result
            source.old source.new (kept_desktop self.old) (kept_desktop self.new) }
    {
        let Some(caret) = self.caret_place() else {
            return Ok(Reply::No(codes::NO_CARET));
        };
        let buffer = self.buffer(buffer);
        if !self.fits_more(0, buffer.len() as usize, 0) {
            return Ok(Reply::No(codes::FULL));
        }
        let mut copy = Buffer::new(self.alloc)?;
        buffer.copy_to(self.alloc, &mut copy)?;
        self.put_at_caret(caret, &mut copy, source)?;
        Ok(Reply::Done)
    }
}

impl Desk {
    /// The buffer of that name.
    fn buffer(&self, buffer: DeskBuffer) -> &Buffer
        ensures { result.now ≡ buffer_of (kept_desktop self.now) buffer }
    {
        match buffer {
            DeskBuffer::Copied => &self.copied,
            DeskBuffer::Deleted => &self.deleted,
        }
    }
}
