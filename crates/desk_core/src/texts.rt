//! Changes of texts, which the frames that show them follow.
//!
//! Each method says in one word (`IsChanged`) what it makes of the desktop: over an honest source what the
//! definition says, and over any source what holds whatever was read.
ghost use Rattle.std.specs.Prelude.{◌≡◌, ◌+◌, ◌-◌, ◌<◌, ◌≤◌, ◌^◌, ℕ, List, length, All, IsSome, IfOk, OnOk, ⊤};
ghost use Rattle.piece_ring.specs.Text.{inserted, deleted, looks_changed};
ghost use Rattle.readers_scanners.specs.Words.{ReadsOrFails};
ghost use Rattle.desktop_definitions.specs.Looks.{IsLook};
ghost use Rattle.desktop_definitions.specs.Viewers.{shows, rows_of};
ghost use Rattle.desktop_definitions.specs.Change.{insertion, deletion, looks_set, showing, caret_shown};
ghost use Rattle.desktop_definitions.specs.DeskWords.{IsSet};
ghost use Rattle.desk_core.specs.Words.{stretch, with_values, following_viewer, CanFollow, AreMoved, FailsAs, IsOnTop};
ghost use Rattle.desk_core.specs.Words.{IsPlaced, OnlyReads, flat, AreWithin, bytes_of_text, text_numbered, text_in};
ghost use Rattle.desk_core.specs.Words.{viewer_or_none, unmarked, seen, seen_text, IsBuilt, IsChanged, kept_desktop, IsStop};
ghost use Rattle.desk_core.specs.Words.{IsPosition, IsTextPosition, CanJoin};
ghost use Rattle.desk_core.specs.Movable.{IsChangeOf};

use crate::desk::Desk;
use crate::stop::{NoMemory, Stop};
use crate::viewers::{
    TextChange, Texts, caret_outside, follow_text, org_in, select, set_org, unselect,
    viewer_or_none,
};
use char_file::{CharSource, Fault};
use desktop_definitions::{Caret, Selection};
use piece_ring::Look;
use std::alloc::Global;
use text_core::Buffer;
use viewer_tracks::ViewerId;

/// Puts the buffer's characters into the text of that number at `pos`, and leaves the buffer empty.
fn put_in(
    texts: &mut Texts,
    alloc: Global,
    number: u16,
    pos: u32,
    buffer: &mut Buffer,
) -> Result<(), NoMemory>
    requires there { IsSome (text_numbered texts.old.entries number) }
    requires place { pos ≤ length (flat (text_in texts.old.entries number)) }
    requires short { length (flat (text_in texts.old.entries number))
        + length (flat buffer.old) < 2 ^ 32 }
    ensures { OnOk result (IsSet texts.old.entries texts.new.entries number
        (inserted pos (flat buffer.old) (flat (text_in texts.old.entries number)))) }
{
    match texts.get_mut(&number) {
        Some(text) => {
            text.insert(alloc, pos, buffer)?;
            Ok(())
        }
        None => unreachable!(),
    }
}

/// Takes the characters from `beg` up to before `end` out of the text of that number.
fn take_out(
    texts: &mut Texts,
    alloc: Global,
    number: u16,
    beg: u32,
    end: u32,
) -> Result<Buffer, NoMemory>
    requires there { IsSome (text_numbered texts.old.entries number) }
    requires some { beg < end }
    requires place { end ≤ length (flat (text_in texts.old.entries number)) }
    ensures text { OnOk result (IsSet texts.old.entries texts.new.entries number
        (deleted beg end (flat (text_in texts.old.entries number)))) }
    ensures taken { IfOk result
        (λ taken. flat taken ≡ stretch beg end (flat (text_in texts.old.entries number))) }
{
    let mut taken = Buffer::new(alloc)?;
    match texts.get_mut(&number) {
        Some(text) => {
            text.delete(alloc, beg, end, &mut taken)?;
            Ok(taken)
        }
        None => unreachable!(),
    }
}

/// The selected characters of the text of that number get the looks that `selector` takes of this one.
fn relook(
    texts: &mut Texts,
    alloc: Global,
    number: u16,
    selection: Selection,
    selector: u8,
    look: Look,
) -> Result<(), NoMemory>
    requires there { IsSome (text_numbered texts.old.entries number) }
    requires some { selection.beg < selection.end }
    requires place { selection.end ≤ length (flat (text_in texts.old.entries number)) }
    ensures { OnOk result (IsSet texts.old.entries texts.new.entries number
        (looks_changed selection.beg selection.end selector look
        (flat (text_in texts.old.entries number)))) }
{
    match texts.get_mut(&number) {
        Some(text) => {
            text.change_looks(alloc, selection.beg, selection.end, selector, look)?;
            Ok(())
        }
        None => unreachable!(),
    }
}

impl Desk {
    /// Neither the caret nor a selection stands any more in a viewer that shows the text of that number.
    fn unmark(&mut self, number: u16)
        ensures { kept_desktop self.new ≡ unmarked (shows (kept_desktop self.old) number)
            (kept_desktop self.old) }
    {
        self.caret = caret_outside(&self.viewers, number, self.caret);
        unselect(&self.viewers, number, &mut self.selections);
    }

    /// Each frame of the text that changed loses caret and selection and follows its first character. `Fault`: the
    /// source failed in this call.
    fn follow<S: CharSource>(&mut self, change: TextChange, source: &mut S) -> Result<(), Fault>
        requires there { IsSome (text_numbered (kept_desktop self.old).texts change.number) }
        requires change { IsChangeOf change
            (length (flat (text_in (kept_desktop self.old).texts change.number))) }
        requires orgs { All (CanFollow change.number change.more change.fewer
            (length (flat (text_in (kept_desktop self.old).texts change.number))))
            (kept_desktop self.old).viewers }
        requires offsets { AreWithin (length (S.characters source.old))
            (flat (text_in (kept_desktop self.old).texts change.number)) }
        ensures rest { OnOk result (kept_desktop self.new
            ≡ record (unmarked (shows (kept_desktop self.old) change.number)
            (kept_desktop self.old)) {
              viewers = (kept_desktop self.new).viewers;
            }) }
        ensures exact { OnOk result (S.honest source.old → (kept_desktop self.new).viewers
            ≡ with_values
            (following_viewer change.number
            (bytes_of_text (S.characters source.old)
            (flat (text_in (kept_desktop self.old).texts change.number)))
            change.pos change.more change.fewer) (kept_desktop self.old).viewers) }
        ensures moved { OnOk result (AreMoved change.number
            (length (flat (text_in (kept_desktop self.old).texts change.number)))
            (kept_desktop self.old).viewers (kept_desktop self.new).viewers) }
        ensures source { ReadsOrFails S.CharSource result source.old source.new }
    {
        self.unmark(change.number);
        follow_text(&self.texts, &mut self.viewers, change, source)?;
        Ok(())
    }

    /// How many rows a viewer's main frame has.
    pub fn rows_of(&self, id: u16) -> u8
        requires { IsPlaced id (kept_desktop self.now).columns }
        ensures rows { result ≡ rows_of (kept_desktop self.now) id }
        ensures few { result ≤ 31 }
    {
        let place = self.tracks.place_of(ViewerId(id));
        place.top - place.bottom - 1
    }

    /// Puts the buffer's characters into the text of that number at `pos`, and leaves the buffer empty. Each frame of
    /// the text loses caret and selection and follows its first character. Where the buffer is empty nothing changes.
    pub fn insert<S: CharSource>(
        &mut self,
        number: u16,
        pos: u32,
        buffer: &mut Buffer,
        source: &mut S,
    ) -> Result<(), Stop>
        requires at { IsTextPosition (length (S.characters source.old)) (kept_desktop self.old)
            number pos }
        requires goes { CanJoin (length (S.characters source.old))
            (flat (text_in (kept_desktop self.old).texts number)) buffer.old }
        ensures changed { OnOk result
            (IsChanged (S.honest source.old) (S.characters source.old) (kept_desktop self.old)
            (kept_desktop self.new)
            (insertion (seen (S.characters source.old) (kept_desktop self.old)) number pos
            (seen_text (S.characters source.old) buffer.old)) (length (flat buffer.old)) 0) }
        ensures longer { OnOk result (length (flat (text_in (kept_desktop self.new).texts number))
            ≡ length (flat (text_in (kept_desktop self.old).texts number))
            + length (flat buffer.old)) }
        ensures columns { OnOk result
            ((kept_desktop self.new).columns ≡ (kept_desktop self.old).columns) }
        ensures reads { OnlyReads S.characters S.failures S.honest S.same_ground source.old
            source.new }
        ensures faults { FailsAs Stop.Fault IsStop result (S.failures source.old)
            (S.failures source.new) }
    {
        let count = buffer.len();
        if count == 0 {
            return Ok(());
        }
        put_in(&mut self.texts, self.alloc, number, pos, buffer)?;
        let put = TextChange {
            number,
            pos,
            more: count,
            fewer: 0,
        };
        self.follow(put, source)?;
        Ok(())
    }

    /// Takes the characters from `beg` up to before `end` out of the text of that number, and returns them. Each frame
    /// of the text loses caret and selection and follows its first character.
    pub fn delete<S: CharSource>(
        &mut self,
        number: u16,
        beg: u32,
        end: u32,
        source: &mut S,
    ) -> Result<Buffer, Stop>
        requires at { IsTextPosition (length (S.characters source.old)) (kept_desktop self.old)
            number end }
        requires some { beg < end }
        ensures changed { OnOk result
            (IsChanged (S.honest source.old) (S.characters source.old) (kept_desktop self.old)
            (kept_desktop self.new)
            (deletion (seen (S.characters source.old) (kept_desktop self.old)) number beg end) 0
            (end - beg)) }
        ensures taken { IfOk result (λ taken. flat taken
            ≡ stretch beg end (flat (text_in (kept_desktop self.old).texts number))) }
        ensures shorter { OnOk result
            (length (flat (text_in (kept_desktop self.new).texts number)) + (end - beg)
            ≡ length (flat (text_in (kept_desktop self.old).texts number))) }
        ensures columns { OnOk result
            ((kept_desktop self.new).columns ≡ (kept_desktop self.old).columns) }
        ensures reads { OnlyReads S.characters S.failures S.honest S.same_ground source.old
            source.new }
        ensures faults { FailsAs Stop.Fault IsStop result (S.failures source.old)
            (S.failures source.new) }
    {
        let taken = take_out(&mut self.texts, self.alloc, number, beg, end)?;
        let cut = TextChange {
            number,
            pos: beg,
            more: 0,
            fewer: end - beg,
        };
        self.follow(cut, source)?;
        Ok(taken)
    }

    /// A selection gets the looks that `selector` takes of this one (bit 0 the font, bit 1 the colour, bit 2 the
    /// offset). The frames of its text lose caret and selection, and then it is selected again, as the newest.
    pub fn set_looks(
        &mut self,
        selection: Selection,
        selector: u8,
        look: Look,
    ) -> Result<(), NoMemory>
        requires placed { IsOnTop selection.viewer (kept_desktop self.old).columns }
        requires there { IsSome (text_numbered (kept_desktop self.old).texts
            (viewer_or_none (kept_desktop self.old).viewers selection.viewer).main) }
        requires some { selection.beg < selection.end }
        requires look { IsLook look }
        requires within { selection.end ≤ length (flat (text_in (kept_desktop self.old).texts
            (viewer_or_none (kept_desktop self.old).viewers selection.viewer).main)) }
        ensures changed { OnOk result
            ((characters : List ℕ) → IsBuilt (length characters) (kept_desktop self.old)
            → IsChanged ⊤ characters (kept_desktop self.old) (kept_desktop self.new)
            (looks_set (seen characters (kept_desktop self.old)) selection selector look) 0 0) }
        ensures columns { OnOk result
            ((kept_desktop self.new).columns ≡ (kept_desktop self.old).columns) }
    {
        let number = viewer_or_none(&self.viewers, selection.viewer).main;
        relook(
            &mut self.texts,
            self.alloc,
            number,
            selection,
            selector,
            look,
        )?;
        self.unmark(number);
        select(&mut self.selections, selection)?;
        Ok(())
    }

    /// A viewer shows a position of its main text. Fault: the source failed in this call.
    pub fn show<S: CharSource>(&mut self, id: u16, pos: u32, source: &mut S) -> Result<(), Stop>
        requires built { IsBuilt (length (S.characters source.old)) (kept_desktop self.old) }
        requires placed { IsPlaced id (kept_desktop self.old).columns }
        requires place { pos ≤ length (flat (text_in (kept_desktop self.old).texts
            (viewer_or_none (kept_desktop self.old).viewers id).main)) }
        ensures changed { OnOk result
            (IsChanged (S.honest source.old) (S.characters source.old) (kept_desktop self.old)
            (kept_desktop self.new)
            (showing (seen (S.characters source.old) (kept_desktop self.old)) id pos) 0 0) }
        ensures reads { OnlyReads S.characters S.failures S.honest S.same_ground source.old
            source.new }
        ensures faults { FailsAs Stop.Fault IsStop result (S.failures source.old)
            (S.failures source.new) }
    {
        let rows = self.rows_of(id);
        let first = org_in(&self.texts, &self.viewers, id, rows, pos, source)?;
        set_org(&mut self.viewers, id, first);
        Ok(())
    }

    /// The caret comes to stand at `pos` in a viewer, which shows that position.
    pub fn show_caret<S: CharSource>(
        &mut self,
        id: u16,
        pos: u32,
        source: &mut S,
    ) -> Result<(), Stop>
        requires built { IsBuilt (length (S.characters source.old)) (kept_desktop self.old) }
        requires at { IsPosition (kept_desktop self.old) id pos }
        ensures changed { OnOk result
            (IsChanged (S.honest source.old) (S.characters source.old) (kept_desktop self.old)
            (kept_desktop self.new)
            (caret_shown (seen (S.characters source.old) (kept_desktop self.old)) id pos) 0 0) }
        ensures columns { OnOk result
            ((kept_desktop self.new).columns ≡ (kept_desktop self.old).columns) }
        ensures reads { OnlyReads S.characters S.failures S.honest S.same_ground source.old
            source.new }
        ensures faults { FailsAs Stop.Fault IsStop result (S.failures source.old)
            (S.failures source.new) }
    {
        let rows = self.rows_of(id);
        let org = org_in(&self.texts, &self.viewers, id, rows, pos, source)?;
        self.caret = Some(Caret {
            viewer: id,
            position: pos,
        });
        set_org(&mut self.viewers, id, org);
        Ok(())
    }
}
