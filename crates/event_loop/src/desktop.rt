//! The desktop.
ghost use Rattle.std.specs.Prelude.{◌≡◌, ℕ, List, [], length, IfOk, IfSome, OnOk, IsErrOf, option_map};
ghost use Rattle.readers_scanners.specs.Words.{contents};
ghost use Rattle.command_table.specs.Versions.{version_number, newest_version};
ghost use Rattle.desktop_definitions.specs.Desktop.{KeptDesktop, empty_desktop, file_of};
ghost use Rattle.desktop_definitions.specs.Unread.{ListsUnread, characters_after};
ghost use Rattle.desktop_definitions.specs.Outcome.{IsSameSource};
ghost use Rattle.desktop_definitions.specs.Listing.{entries_of};
ghost use Rattle.desktop_definitions.specs.Shown.{shown_screen};
ghost use Rattle.document_filing.specs.Bringing.{all_bytes};
ghost use Rattle.desktop_definitions.specs.Stepped.{IsStep};
ghost use Rattle.document_filing.specs.Bringing.{IsBringing};
ghost use Rattle.image_format.specs.Streams.{Puts, IsImageFault};
ghost use Rattle.image_format.specs.Image.{Spells, image_of, image_bytes, IsSpellable};
ghost use Rattle.image_format.specs.Passing.{OnlyGets};
ghost use Rattle.desktop_definitions.specs.Viewers.{text_of};
ghost use Rattle.desk_input.specs.Scrolling.{Scrolls};
ghost use Rattle.caret_moves.specs.Leading.{DoesWish};
ghost use Rattle.std.specs.Result.{result_map_both};
ghost use Rattle.screen_cells.specs.Lines.{AreLinesOf};
ghost use Rattle.event_loop.specs.Keeping.{KeepsLines};
ghost use Rattle.desk_core.specs.Words.{FailsAs, OnlyReads, flat, AreWithin, seen, IsKeptWhole, IsOver, IsStop};

mod comparing;
mod copying;
mod views;

use crate::events::act;
use crate::regions::region_of;
use crate::stale::{forget, stale_from, stale_of};
use caret_moves::{KeyWish, WhyNot, lead};
use char_file::{CharSource, Fault};
use command_table::Version;
use desk_core::desk::{Desk, empty_desk};
use desk_core::files::{entries, file_of};
use desk_core::stop::{NoMemory, Stop};
use desk_input::{Wish, presses_to};
use desk_views::{list_column, paint};
use desktop_definitions::{Entry, Reply};
use desktop_image::images::assemble;
use desktop_image::imaging::put_image;
use document_filing::{Document, bring};
use event_bytes::{Event, Name};
use image_format::{ByteSink, ByteSource, ImageFault, desktops_fit, images_are_read, read_picture};
use screen_cells::{KeptLines, Screen};
use std::alloc::Global;
use std::marker::Model;
use text_core::Text;
use viewer_tracks::Track;

/// A desktop: texts by number, the viewers that show them, files by name, and how many characters count as written.
///
/// A clause sees it as it is kept (`KeptDesktop` in `specs/Desktop.antt` of `desktop_definitions`), each text as pieces
/// that name characters. These stand in a source, among which the desktop is `seen`. Each call that makes or reads
/// characters is handed the source, and asks that the desktop is over it (`IsOver`): the source has just the characters
/// that were written. It takes memory from the allocator that it was handed last.
#[derive(Drop)]
pub struct Desktop {
    desk: Desk,
}

impl Model for Desktop {
    ghost use Rattle.desktop_definitions.specs.Desktop.{KeptDesktop};

    ghost Value = { KeptDesktop };

    ghost use Rattle.desk_core.specs.Kept.{kept_desktop};

    ghost view = { λ d. kept_desktop d.desk };
}

impl Desktop {
    /// The empty desktop: no file, nothing written. It is over no character. NoMemory where an allocation is refused.
    pub fn empty(alloc: Global) -> Result<Desktop, NoMemory>
        ensures seen { IfOk result (λ d. (characters : List ℕ) → seen characters d
            ≡ empty_desktop) }
        ensures over { IfOk result (λ d. IsOver [] d) }
    {
        let desk = empty_desk(alloc)?;
        Ok(Desktop { desk })
    }

    /// The desktop of which the bytes of the source, to its end, are the image in that version, where so many
    /// characters were written for it. Damaged exactly where an honest source has the image of no desktop; NoMemory
    /// where an allocation is refused; Fault where a byte could not be read.
    pub fn from_image<S: ByteSource>(
        alloc: Global,
        version: Version,
        source: &mut S,
        written: u32,
    ) -> Result<Desktop, ImageFault>
        ensures spelled { IfOk result (λ d. S.honest source.old
            → Spells (version_number version) written (S.remaining source.old) d) }
        ensures damaged { IsErrOf result ImageFault.Damaged → S.honest source.old
            → (d : KeptDesktop) → ¬ Spells (version_number version) written (S.remaining source.old)
            d }
        ensures whole { IfOk result (λ d. IsKeptWhole d) }
        ensures count { IfOk result (λ d. d.written ≡ written) }
        ensures only { OnlyGets S.honest S.same_ground source.old source.new }
        ensures faults { FailsAs ImageFault.Fault IsImageFault result (S.failures source.old)
            (S.failures source.new) }
    {
        images_are_read();
        desktops_fit();
        let picture = read_picture(alloc, source, version, written)?;
        let desk = assemble(alloc, picture, written)?;
        Ok(Desktop { desk })
    }

    /// Does the event, by this profile's rules with the commands of that version, and returns Done, or No with the code
    /// of a refusal, which leaves the desktop and the length of the source. The source has just the characters that
    /// count as written, before and after any reply: they were added to, or were exchanged for those that the desktop
    /// holds. Where the event reads no character (`needs_no_byte`), reply and desktop rest on no source.
    ///
    /// NoMemory where an allocation is refused; Fault where a character could not be read. The desktop isn't used again
    /// after either.
    pub fn step<S: CharSource>(
        &mut self,
        alloc: Global,
        version: Version,
        event: &Event,
        source: &mut S,
    ) -> Result<Reply, Stop>
        requires { IsOver (S.characters source.old) self.old }
        ensures stepped { IfOk result (IsStep (S.honest source.old) (version_number version)
            event.now self.old self.new (seen (S.characters source.old) self.old)
            (seen (S.characters source.new) self.new)) }
        ensures over { OnOk result (IsOver (S.characters source.new) self.new) }
        ensures source { IsSameSource S.failures S.honest S.same_ground source.old source.new }
        ensures faults { FailsAs Stop.Fault IsStop result (S.failures source.old)
            (S.failures source.new) }
    {
        self.step_with_lines(alloc, version, event, &mut KeptLines::new(alloc), source)
    }

    /// Does the event as `step` does, and gives up the lines of texts that it may change, whatever it returns. Those
    /// that are left are so of the texts after it, by whatever version.
    pub fn step_with_lines<S: CharSource>(
        &mut self,
        alloc: Global,
        version: Version,
        event: &Event,
        lines: &mut KeptLines,
        source: &mut S,
    ) -> Result<Reply, Stop>
        requires { IsOver (S.characters source.old) self.old }
        ensures lines { KeepsLines self.old event.now lines.old lines.new }
        ensures stepped { IfOk result (IsStep (S.honest source.old) (version_number version)
            event.now self.old self.new (seen (S.characters source.old) self.old)
            (seen (S.characters source.new) self.new)) }
        ensures over { OnOk result (IsOver (S.characters source.new) self.new) }
        ensures source { IsSameSource S.failures S.honest S.same_ground source.old source.new }
        ensures faults { FailsAs Stop.Fault IsStop result (S.failures source.old)
            (S.failures source.new) }
    {
        self.desk.alloc = alloc;
        let region = region_of(&self.desk, event);
        let stale = stale_of(&self.desk, event, region);
        forget(lines, stale, stale_from(&self.desk, event));
        act(&mut self.desk, version, event, region, source)
    }

    /// Each document becomes the file of its name, in their order: then Done. No where there would be more files at the
    /// end than there may be, or where the desktop would pass the limits on characters; that leaves the desktop and the
    /// source. No character is read, and the source is only added to.
    ///
    /// NoMemory where an allocation is refused. The desktop isn't used again after it.
    pub fn bring<S: CharSource>(
        &mut self,
        alloc: Global,
        documents: &[Document],
        source: &mut S,
    ) -> Result<Reply, Stop>
        requires { IsOver (S.characters source.old) self.old }
        ensures brought { IfOk result (IsBringing (S.honest source.old) documents.now
            self.old self.new (seen (S.characters source.old) self.old)
            (seen (S.characters source.new) self.new)) }
        ensures added { IfOk result (λ reply. S.characters source.new
            ≡ characters_after (S.characters source.old) (all_bytes documents.now) reply) }
        ensures over { OnOk result (IsOver (S.characters source.new) self.new) }
        ensures source { IsSameSource S.failures S.honest S.same_ground source.old source.new }
        ensures faults { FailsAs Stop.Fault IsStop result (S.failures source.old)
            (S.failures source.new) }
    {
        self.desk.alloc = alloc;
        bring(&mut self.desk, documents, source)
    }

    /// The text of the file of that name. None exactly where there is no file of that name.
    pub fn file(&self, name: &Name) -> Option<&Text>
        ensures kept { option_map (λ text. text.now) result ≡ file_of self.now name.now }
        ensures seen { (characters : List ℕ)
            → option_map (λ text. contents characters (flat text.now)) result
            ≡ file_of (seen characters self.now) name.now }
        ensures within { (characters : List ℕ) → IsOver characters self.now
            → IfSome result (λ text. AreWithin (length characters) (flat text.now)) }
    {
        file_of(&self.desk.files, name)
    }

    /// An entry for each file, by rising names; one for each viewer of the user's and then of the system's column, the
    /// tracks from the lowest up and each from the bottom up, with one before a track that lies over others; and at
    /// last one for how many characters count as written.
    ///
    /// Nothing but the names of viewers is read. NoMemory where an allocation is refused; Fault where a character could
    /// not be read. The desktop stays, whatever is returned.
    pub fn list<S: CharSource>(&mut self, alloc: Global, source: &mut S) -> Result<Vec<Entry>, Stop>
        requires { IsOver (S.characters source.old) self.old }
        ensures entries { IfOk result (λ entries. S.honest source.old
            → entries.items ≡ entries_of (seen (S.characters source.old) self.old)) }
        ensures unread { IfOk result (λ entries. ListsUnread self.old entries.items) }
        ensures unchanged { self.new ≡ self.old }
        ensures reads { OnlyReads S.characters S.failures S.honest S.same_ground source.old
            source.new }
        ensures faults { FailsAs Stop.Fault IsStop result (S.failures source.old)
            (S.failures source.new) }
    {
        self.desk.alloc = alloc;
        let mut entries = entries(alloc, &self.desk.files)?;
        list_column(&self.desk, Track::User, &mut entries, source)?;
        list_column(&self.desk, Track::System, &mut entries, source)?;
        entries.push(Entry::Written(self.desk.written))?;
        Ok(entries)
    }

    /// Paints what the desktop shows: its viewers, with the caret and what is selected, and the marker. `lines` has
    /// what is kept of the screens before: a row whose line is kept isn't read, and the lines of the others are kept.
    ///
    /// NoMemory where an allocation is refused; Fault where a character could not be read, and the screen may then show
    /// anything. The desktop stays, whatever is returned.
    pub fn screen<S: CharSource>(
        &mut self,
        alloc: Global,
        lines: &mut KeptLines,
        source: &mut S,
        screen: &mut Screen,
    ) -> Result<(), Stop>
        requires { IsOver (S.characters source.old) self.old }
        ensures shown { OnOk result (S.honest source.old
            → AreLinesOf (text_of (seen (S.characters source.old) self.old)) lines.old
            → screen.new ≡ shown_screen (seen (S.characters source.old) self.old)) }
        ensures lines { S.honest source.old
            → AreLinesOf (text_of (seen (S.characters source.old) self.old)) lines.old
            → AreLinesOf (text_of (seen (S.characters source.old) self.old)) lines.new }
        ensures unchanged { self.new ≡ self.old }
        ensures reads { OnlyReads S.characters S.failures S.honest S.same_ground source.old
            source.new }
        ensures faults { FailsAs Stop.Fault IsStop result (S.failures source.old)
            (S.failures source.new) }
    {
        self.desk.alloc = alloc;
        paint(&self.desk, lines, source, screen)
    }

    /// The presses after which the viewer at a cell, or the one with the caret where no cell is meant, shows the line
    /// first that is wished, and nothing else is changed. A line that stands first needs none. None where there is no such
    /// viewer, where it shows fewer than two rows of its text, or where it is too far.
    ///
    /// NoMemory where an allocation is refused; Fault where a character could not be read. The desktop stays, whatever
    /// is returned.
    pub fn scroll<S: CharSource>(
        &mut self,
        alloc: Global,
        at: Option<(u8, u8)>,
        wish: Wish,
        source: &mut S,
    ) -> Result<Option<Vec<Event>>, Stop>
        requires { IsOver (S.characters source.old) self.old }
        ensures scrolls { IfOk result (λ presses. S.honest source.old
            → Scrolls (seen (S.characters source.old) self.old) at wish
            (option_map (λ events. events.items) presses)) }
        ensures unchanged { self.new ≡ self.old }
        ensures reads { OnlyReads S.characters S.failures S.honest S.same_ground source.old
            source.new }
        ensures faults { FailsAs Stop.Fault IsStop result (S.failures source.old)
            (S.failures source.new) }
    {
        self.desk.alloc = alloc;
        presses_to(&self.desk, at, wish, source)
    }

    /// The events after which what is wished of the caret is done, and nothing else is changed; or why there are none. Done
    /// in their order, none is refused.
    ///
    /// NoMemory where an allocation is refused; Fault where a character could not be read. The desktop stays, whatever
    /// is returned.
    pub fn lead<S: CharSource>(
        &mut self,
        alloc: Global,
        wish: KeyWish,
        source: &mut S,
    ) -> Result<Result<Vec<Event>, WhyNot>, Stop>
        requires { IsOver (S.characters source.old) self.old }
        ensures leads { IfOk result (λ told. S.honest source.old
            → DoesWish (seen (S.characters source.old) self.old) wish
            (result_map_both (λ events. events.items) (λ why. why) told)) }
        ensures unchanged { self.new ≡ self.old }
        ensures reads { OnlyReads S.characters S.failures S.honest S.same_ground source.old
            source.new }
        ensures faults { FailsAs Stop.Fault IsStop result (S.failures source.old)
            (S.failures source.new) }
    {
        self.desk.alloc = alloc;
        lead(&self.desk, wish, source)
    }

    /// Puts the image of the desktop in the newest version, the bytes that say how it is kept, and returns how many
    /// bytes these are. The characters that were written aren't among them. It takes no memory. `Fault`: the sink
    /// failed in this call, and it may have taken some of the bytes.
    pub fn put_image<K: ByteSink>(&self, sink: &mut K) -> Result<u32, Fault>
        requires { IsKeptWhole self.now }
        ensures spelled { IfOk result (λ n. IsSpellable newest_version self.now
            × (n ≡ length (image_bytes newest_version (image_of self.now)))) }
        ensures puts { Puts K.ByteSink result (image_bytes newest_version (image_of self.now))
            sink.old sink.new }
    {
        put_image(&self.desk, sink)
    }

    /// How many characters count as written, at most 4,194,304.
    pub fn written(&self) -> u32
        ensures { (characters : List ℕ) → result ≡ (seen characters self.now).written }
    {
        self.desk.written
    }
}
