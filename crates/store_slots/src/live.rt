//! The desktop that a store has in memory, with its characters.
ghost use Rattle.std.specs.Prelude.{◌≡◌, ◌<◌, ◌≤◌, ◌*◌, ◌++◌, ℕ, IfOk, OnOk, IsErrOf, None, option_map, length};
ghost use Rattle.char_pages.specs.Pages.{base_of, saved_of, saved_sectors, rest_of, renewed_of};
ghost use Rattle.command_table.specs.Versions.{version_number, newest_version};
ghost use Rattle.desktop_definitions.specs.Desktop.{file_of};
ghost use Rattle.image_format.specs.Image.{image_of, image_bytes, IsSpellable};
ghost use Rattle.image_format.specs.Streams.{Puts};
ghost use Rattle.store_layout.specs.Layout.{area_start};
ghost use Rattle.store_layout.specs.Kept.{HasFront, chosen_area};
ghost use Rattle.store_layout.specs.Meaning.{full_sectors};
ghost use Rattle.store_slots.specs.Errors.{OfDesktop};
ghost use Rattle.store_slots.specs.Live.{live_characters, seen_live, IsLive, IsNamed, IsOverPages};
ghost use Rattle.store_slots.specs.Live.{IsLiveOn, IsLiveStep, IsLiveBringing, IsSavedIn, KeepsDesktop, StaysLive, ReadsThrough};
ghost use Rattle.piece_ring.specs.Text.{Text as AText};
ghost use Rattle.screen_cells.specs.Lines.{AreLinesOf};
ghost use Rattle.desk_input.specs.Scrolling.{Scrolls};
ghost use Rattle.caret_moves.specs.Leading.{DoesWish};
ghost use Rattle.std.specs.Result.{result_map_both};
ghost use Rattle.store_slots.specs.Words.{Nowhere, now, IsConfined, FailsAs, entries_of, shown_screen};
ghost use Rattle.store_slots.specs.Words.{Content, ListsUnread};

mod comparing;
mod copying;
mod gathering;
mod views;

use crate::Error;
use crate::over::{
    bring_over, lead_over, list_over, read_over, screen_over, scroll_over, step_over,
};
use char_pages::Pages;
use event_bytes::{Event, Name};
use event_loop::{Desktop, Document, Entry, KeyWish, Reply, Version, WhyNot, Wish};
use image_format::ByteSink;
use piece_ring::Look;
use screen_cells::{KeptLines, Screen};
use sector_disk::{Disk, Fault, SECTOR_BYTES};
use std::alloc::Global;
use store_layout::{AREAS, STORE_SECTORS, area_start};

/// A desktop and the characters that its texts name: those that fill whole sectors of an area of the disk stand there,
/// the others in memory.
///
/// A clause sees it as its characters read over what the disk reads (`seen_live`), and asks that it is live on the disk
/// (`IsLiveOn`): it stands over its characters (`IsLive`), and what it has in memory of the disk is so (`HasTrueCache`).
/// Its calls are handed the disk, from which they only read, and what they say of characters stands under its premise.
/// After an error of `step` it isn't used again.
#[derive(Drop)]
pub struct LiveDesktop {
    desktop: Desktop,
    pages: Pages,
    /// The area in which the characters that are on the disk stand.
    area: u32,
    /// What is kept of the screens that were painted.
    lines: KeptLines,
}

impl LiveDesktop {
    /// A desktop over its characters. No line of it is kept yet. It takes no memory.
    pub fn over(alloc: Global, desktop: Desktop, pages: Pages, area: u32) -> LiveDesktop
        requires over { IsOverPages pages desktop }
        requires low { area < AREAS }
        requires based { base_of pages ≡ area_start area }
        ensures desktop { result.desktop ≡ desktop }
        ensures pages { result.pages ≡ pages }
        ensures area { result.area ≡ area }
        ensures live { IsLive result }
        ensures lines { (texts : ℕ → AText ℕ) → AreLinesOf texts result.lines }
    {
        LiveDesktop {
            desktop,
            pages,
            area,
            lines: KeptLines::new(alloc),
        }
    }

    /// The characters that are in memory: those behind the ones in the area.
    pub fn rest(&self) -> &[u8]
        ensures { result.now ≡ rest_of self.now.pages }
    {
        self.pages.rest()
    }

    /// How many sectors of its area the others fill.
    pub fn saved(&self) -> u32
        ensures { result ≡ saved_sectors self.now.pages }
    {
        self.pages.saved_sectors()
    }

    /// The area that a checkpoint writes: it goes on in its own, or takes the other one where all characters were
    /// exchanged since the slot in use was written.
    pub fn next_area(&self) -> u32
        requires { IsLive self.now }
        ensures area { result ≡ chosen_area (renewed_of self.now.pages) self.now.area }
        ensures low { result < AREAS }
    {
        if self.pages.renewed() {
            1 - self.area
        } else {
            self.area
        }
    }

    /// Puts these characters and then its image, in the newest version, and returns how many bytes the image has. It
    /// takes no memory.
    pub fn put_image<K: ByteSink>(&self, tail: &[u8], sink: &mut K) -> Result<u32, Fault>
        requires { IsLive self.now }
        ensures spelled { IfOk result (λ n. IsSpellable newest_version self.now.desktop
            × (n ≡ length (image_bytes newest_version (image_of self.now.desktop)))) }
        ensures puts { Puts K.ByteSink result
            (tail.now ++ image_bytes newest_version (image_of self.now.desktop))
            sink.old sink.new }
    {
        sink.put(tail)?;
        self.desktop.put_image(sink)
    }

    /// Does the event, with the commands of that version.
    pub fn step<D: Disk>(
        &mut self,
        alloc: Global,
        version: Version,
        event: &Event,
        disk: &mut D,
    ) -> Result<Reply, Error>
        requires on { IsLiveOn D.Disk disk.old self.old }
        requires room { STORE_SECTORS ≤ D.size disk.old }
        ensures stepped { IfOk result (IsLiveStep D.Disk (version_number version) event.now
            disk.old disk.new self.old self.new) }
        ensures left { OnOk result (IsLiveOn D.Disk disk.new self.new) }
        ensures reads { ReadsThrough D.Disk disk.old disk.new self.old.pages self.new.pages }
        ensures area { self.new.area ≡ self.old.area }
        ensures faults { FailsAs Error.Fault OfDesktop result (D.failures disk.old)
            (D.failures disk.new) }
    {
        Ok(step_over(
            alloc,
            version,
            &mut self.desktop,
            event,
            &mut self.lines,
            disk,
            &mut self.pages,
        )?)
    }

    /// Each document becomes the file of its name: then Done. Or none does: then No, and the desktop stays. Nothing is
    /// written to the disk. The lines that are kept stay, since no text is changed.
    pub fn bring<D: Disk>(
        &mut self,
        alloc: Global,
        documents: &[Document],
        disk: &mut D,
    ) -> Result<Reply, Error>
        requires on { IsLiveOn D.Disk disk.old self.old }
        requires room { STORE_SECTORS ≤ D.size disk.old }
        ensures brought { IfOk result (IsLiveBringing D.Disk documents.now disk.old disk.new
            self.old self.new) }
        ensures left { OnOk result (IsLiveOn D.Disk disk.new self.new) }
        ensures named { (slot : ℕ) → D.honest disk.old
            → IsNamed (now (D.trail disk.old)).reads slot self.old
            → IsNamed (now (D.trail disk.new)).reads slot self.new }
        ensures disk { IsConfined D.size D.honest D.trail Nowhere disk.old disk.new }
        ensures faults { FailsAs Error.Fault OfDesktop result (D.failures disk.old)
            (D.failures disk.new) }
    {
        Ok(bring_over(alloc, &mut self.desktop, documents, disk, &mut self.pages)?)
    }

    /// The characters of the file of that name, with their looks; None where there is none.
    pub fn file<D: Disk>(
        &mut self,
        alloc: Global,
        name: &Name,
        disk: &mut D,
    ) -> Result<Option<Vec<(u8, Look)>>, Error>
        requires on { IsLiveOn D.Disk disk.old self.old }
        requires room { STORE_SECTORS ≤ D.size disk.old }
        ensures found { IfOk result
            (λ file. D.honest disk.old → option_map (λ characters. characters.items) file
            ≡ file_of (seen_live (now (D.trail disk.old)).reads self.old) name.now) }
        ensures memory { IsErrOf result Error.NoMemory → D.honest disk.old
            → ¬ (file_of (seen_live (now (D.trail disk.old)).reads self.old) name.now ≡ None) }
        ensures same { StaysLive D.Disk disk.old disk.new self.old self.new }
        ensures disk { IsConfined D.size D.honest D.trail Nowhere disk.old disk.new }
        ensures faults { FailsAs Error.Fault OfDesktop result (D.failures disk.old)
            (D.failures disk.new) }
    {
        match self.desktop.file(name) {
            None => Ok(None),
            Some(text) => Ok(Some(read_over(alloc, text, disk, &mut self.pages)?)),
        }
    }

    /// What the desktop has.
    pub fn list<D: Disk>(&mut self, alloc: Global, disk: &mut D) -> Result<Vec<Entry>, Error>
        requires on { IsLiveOn D.Disk disk.old self.old }
        requires room { STORE_SECTORS ≤ D.size disk.old }
        ensures entries { IfOk result (λ entries. D.honest disk.old
            → entries.items ≡ entries_of (seen_live (now (D.trail disk.old)).reads self.old)) }
        ensures unread { IfOk result (λ entries. ListsUnread self.old.desktop entries.items) }
        ensures same { StaysLive D.Disk disk.old disk.new self.old self.new }
        ensures disk { IsConfined D.size D.honest D.trail Nowhere disk.old disk.new }
        ensures faults { FailsAs Error.Fault OfDesktop result (D.failures disk.old)
            (D.failures disk.new) }
    {
        Ok(list_over(alloc, &mut self.desktop, disk, &mut self.pages)?)
    }

    /// Paints what the desktop shows. Rows whose line is kept aren't read.
    pub fn screen<D: Disk>(
        &mut self,
        alloc: Global,
        screen: &mut Screen,
        disk: &mut D,
    ) -> Result<(), Error>
        requires on { IsLiveOn D.Disk disk.old self.old }
        requires room { STORE_SECTORS ≤ D.size disk.old }
        ensures shown { OnOk result (D.honest disk.old
            → screen.new ≡ shown_screen (seen_live (now (D.trail disk.old)).reads self.old)) }
        ensures same { StaysLive D.Disk disk.old disk.new self.old self.new }
        ensures disk { IsConfined D.size D.honest D.trail Nowhere disk.old disk.new }
        ensures faults { FailsAs Error.Fault OfDesktop result (D.failures disk.old)
            (D.failures disk.new) }
    {
        screen_over(
            alloc,
            &mut self.desktop,
            &mut self.lines,
            screen,
            disk,
            &mut self.pages,
        )?;
        Ok(())
    }

    /// The presses after which the viewer at a cell, or the one with the caret where no cell is meant, shows the line
    /// first that is wished. None where it can't.
    pub fn scroll<D: Disk>(
        &mut self,
        alloc: Global,
        at: Option<(u8, u8)>,
        wish: Wish,
        disk: &mut D,
    ) -> Result<Option<Vec<Event>>, Error>
        requires on { IsLiveOn D.Disk disk.old self.old }
        requires room { STORE_SECTORS ≤ D.size disk.old }
        ensures scrolls { IfOk result (λ presses. D.honest disk.old
            → Scrolls (seen_live (now (D.trail disk.old)).reads self.old) at wish
            (option_map (λ events. events.items) presses)) }
        ensures same { StaysLive D.Disk disk.old disk.new self.old self.new }
        ensures disk { IsConfined D.size D.honest D.trail Nowhere disk.old disk.new }
        ensures faults { FailsAs Error.Fault OfDesktop result (D.failures disk.old)
            (D.failures disk.new) }
    {
        Ok(scroll_over(alloc, &mut self.desktop, at, wish, disk, &mut self.pages)?)
    }

    /// The events after which what is wished of the caret is done, or why there are none.
    pub fn lead<D: Disk>(
        &mut self,
        alloc: Global,
        wish: KeyWish,
        disk: &mut D,
    ) -> Result<Result<Vec<Event>, WhyNot>, Error>
        requires on { IsLiveOn D.Disk disk.old self.old }
        requires room { STORE_SECTORS ≤ D.size disk.old }
        ensures leads { IfOk result (λ told. D.honest disk.old
            → DoesWish (seen_live (now (D.trail disk.old)).reads self.old) wish
            (result_map_both (λ events. events.items) (λ why. why) told)) }
        ensures same { StaysLive D.Disk disk.old disk.new self.old self.new }
        ensures disk { IsConfined D.size D.honest D.trail Nowhere disk.old disk.new }
        ensures faults { FailsAs Error.Fault OfDesktop result (D.failures disk.old)
            (D.failures disk.new) }
    {
        Ok(lead_over(alloc, &mut self.desktop, wish, disk, &mut self.pages)?)
    }

    /// Gives up the characters in memory that fill whole sectors of that area by now, in which all that are on the disk
    /// stand. It takes no memory.
    pub fn settle(&mut self, area: u32)
        requires live { IsLive self.old }
        requires low { area < AREAS }
        requires place { 0 < saved_of self.old.pages → area ≡ self.old.area }
        ensures live { IsLive self.new }
        ensures saved { IsSavedIn area self.old self.new }
        ensures stays { KeepsDesktop self.old self.new }
        ensures same { (c : Content)
            → HasFront c area (full_sectors self.old.desktop.written) (live_characters c self.old)
            → live_characters c self.new ≡ live_characters c self.old }
    {
        let full = self.desktop.written() / SECTOR_BYTES * SECTOR_BYTES;
        self.pages.settle(area_start(area), full);
        self.area = area;
    }

    /// How many characters count as written.
    pub fn written(&self) -> u32
        ensures { (c : Content) → result ≡ (seen_live c self.now).written }
    {
        self.desktop.written()
    }
}
