//! Calls of a desktop over pages and a disk.
ghost use Rattle.std.specs.Prelude.{◌≡◌, IfOk, OnOk, length, option_map};
ghost use Rattle.char_pages.specs.Pages.{paged_characters};
ghost use Rattle.command_table.specs.Versions.{version_number};
ghost use Rattle.desktop_definitions.specs.Sound.{IsOver};
ghost use Rattle.desktop_definitions.specs.Viewers.{text_of};
ghost use Rattle.desktop_definitions.specs.Stepped.{IsStep};
ghost use Rattle.document_filing.specs.Bringing.{IsBringing};
ghost use Rattle.screen_cells.specs.Lines.{AreLinesOf};
ghost use Rattle.desk_input.specs.Scrolling.{Scrolls};
ghost use Rattle.caret_moves.specs.Leading.{DoesWish};
ghost use Rattle.std.specs.Result.{result_map_both};
ghost use Rattle.event_loop.specs.Keeping.{KeepsLines};
ghost use Rattle.desk_views.specs.Losses.{loss_at};
ghost use Rattle.desk_views.specs.Info.{last_log_line};
ghost use Rattle.seen_desktops.specs.Shape.{all_characters_of};
ghost use Rattle.store_slots.specs.Live.{CanReadThrough, CanStepThrough, ReadsThrough, LooksThrough, seen_through};
ghost use Rattle.store_slots.specs.Words.{Content, now, FailsAs, IsStop, entries_of, shown_screen};
ghost use Rattle.store_slots.specs.Words.{ListsUnread, AreWithin, contents, flat};

use crate::reading::read_all;
use char_pages::{Paged, Pages};
use event_bytes::Event;
use event_loop::{
    Desktop, Document, Entry, KeyWish, LogRow, Loss, Reply, Stop, Version, WhyNot, Wish,
};
use piece_ring::Look;
use screen_cells::{KeptLines, Screen};
use sector_disk::Disk;
use std::alloc::Global;
use text_core::Text;

/// Does the event, with the commands of that version, and gives up the lines of texts that it may change.
pub(crate) fn step_over<D: Disk>(
    alloc: Global,
    version: Version,
    desktop: &mut Desktop,
    event: &Event,
    lines: &mut KeptLines,
    disk: &mut D,
    pages: &mut Pages,
) -> Result<Reply, Stop>
    requires { CanStepThrough D.Disk disk.old pages.old desktop.old }
    ensures lines { KeepsLines desktop.old event.now lines.old lines.new }
    ensures stepped { IfOk result (IsStep (D.honest disk.old) (version_number version) event.now
        desktop.old desktop.new (seen_through D.Disk disk.old pages.old desktop.old)
        (seen_through D.Disk disk.new pages.new desktop.new)) }
    ensures over { OnOk result
        (IsOver (paged_characters (now (D.trail disk.new)).reads pages.new) desktop.new) }
    ensures reads { ReadsThrough D.Disk disk.old disk.new pages.old pages.new }
    ensures faults { FailsAs Stop.Fault IsStop result (D.failures disk.old) (D.failures disk.new) }
{
    let mut source = Paged::over(disk, pages);
    desktop.step_with_lines(alloc, version, event, lines, &mut source)
}

/// Each document becomes the file of its name, or none does.
pub(crate) fn bring_over<D: Disk>(
    alloc: Global,
    desktop: &mut Desktop,
    documents: &[Document],
    disk: &mut D,
    pages: &mut Pages,
) -> Result<Reply, Stop>
    requires { CanStepThrough D.Disk disk.old pages.old desktop.old }
    ensures brought { IfOk result (IsBringing (D.honest disk.old) documents.now
        desktop.old desktop.new (seen_through D.Disk disk.old pages.old desktop.old)
        (seen_through D.Disk disk.new pages.new desktop.new)) }
    ensures over { OnOk result
        (IsOver (paged_characters (now (D.trail disk.new)).reads pages.new) desktop.new) }
    ensures reads { ReadsThrough D.Disk disk.old disk.new pages.old pages.new }
    ensures faults { FailsAs Stop.Fault IsStop result (D.failures disk.old) (D.failures disk.new) }
{
    let mut source = Paged::over(disk, pages);
    desktop.bring(alloc, documents, &mut source)
}

/// All characters of a text with their looks.
pub(crate) fn read_over<D: Disk>(
    alloc: Global,
    text: &Text,
    disk: &mut D,
    pages: &mut Pages,
) -> Result<Vec<(u8, Look)>, Stop>
    requires within { (c : Content) → AreWithin (length (paged_characters c pages.old))
        (flat text.now) }
    requires through { CanReadThrough D.Disk disk.old pages.old }
    ensures read { IfOk result (λ characters. D.honest disk.old → characters.items
        ≡ contents (paged_characters (now (D.trail disk.old)).reads pages.old) (flat text.now)) }
    ensures looks { LooksThrough D.Disk disk.old disk.new pages.old pages.new }
    ensures faults { FailsAs Stop.Fault IsStop result (D.failures disk.old) (D.failures disk.new) }
{
    let mut source = Paged::over(disk, pages);
    read_all(alloc, text, &mut source)
}

/// All characters of the desktop with their looks.
pub(crate) fn characters_over<D: Disk>(
    alloc: Global,
    desktop: &Desktop,
    disk: &mut D,
    pages: &mut Pages,
) -> Result<Vec<(u8, Look)>, Stop>
    requires { CanStepThrough D.Disk disk.old pages.old desktop.now }
    ensures read { IfOk result (λ all. D.honest disk.old → all.items
        ≡ all_characters_of (seen_through D.Disk disk.old pages.old desktop.now)) }
    ensures looks { LooksThrough D.Disk disk.old disk.new pages.old pages.new }
    ensures faults { FailsAs Stop.Fault IsStop result (D.failures disk.old) (D.failures disk.new) }
{
    let mut source = Paged::over(disk, pages);
    desktop.characters(alloc, &mut source)
}

/// What the desktop has.
pub(crate) fn list_over<D: Disk>(
    alloc: Global,
    desktop: &mut Desktop,
    disk: &mut D,
    pages: &mut Pages,
) -> Result<Vec<Entry>, Stop>
    requires { CanStepThrough D.Disk disk.old pages.old desktop.old }
    ensures entries { IfOk result (λ entries. D.honest disk.old
        → entries.items ≡ entries_of (seen_through D.Disk disk.old pages.old desktop.old)) }
    ensures unread { IfOk result (λ entries. ListsUnread desktop.old entries.items) }
    ensures unchanged { desktop.new ≡ desktop.old }
    ensures looks { LooksThrough D.Disk disk.old disk.new pages.old pages.new }
    ensures faults { FailsAs Stop.Fault IsStop result (D.failures disk.old) (D.failures disk.new) }
{
    let mut source = Paged::over(disk, pages);
    desktop.list(alloc, &mut source)
}

/// Paints what the desktop shows.
pub(crate) fn screen_over<D: Disk>(
    alloc: Global,
    desktop: &mut Desktop,
    lines: &mut KeptLines,
    screen: &mut Screen,
    disk: &mut D,
    pages: &mut Pages,
) -> Result<(), Stop>
    requires { CanStepThrough D.Disk disk.old pages.old desktop.old }
    ensures shown { OnOk result (D.honest disk.old
        → AreLinesOf (text_of (seen_through D.Disk disk.old pages.old desktop.old)) lines.old
        → screen.new ≡ shown_screen (seen_through D.Disk disk.old pages.old desktop.old)) }
    ensures lines { D.honest disk.old
        → AreLinesOf (text_of (seen_through D.Disk disk.old pages.old desktop.old)) lines.old
        → AreLinesOf (text_of (seen_through D.Disk disk.old pages.old desktop.old)) lines.new }
    ensures unchanged { desktop.new ≡ desktop.old }
    ensures looks { LooksThrough D.Disk disk.old disk.new pages.old pages.new }
    ensures faults { FailsAs Stop.Fault IsStop result (D.failures disk.old) (D.failures disk.new) }
{
    let mut source = Paged::over(disk, pages);
    desktop.screen(alloc, lines, &mut source, screen)
}

/// The presses that lead to the line that is wished.
pub(crate) fn scroll_over<D: Disk>(
    alloc: Global,
    desktop: &mut Desktop,
    at: Option<(u8, u8)>,
    wish: Wish,
    disk: &mut D,
    pages: &mut Pages,
) -> Result<Option<Vec<Event>>, Stop>
    requires { CanStepThrough D.Disk disk.old pages.old desktop.old }
    ensures scrolls { IfOk result (λ presses. D.honest disk.old
        → Scrolls (seen_through D.Disk disk.old pages.old desktop.old) at wish
        (option_map (λ events. events.items) presses)) }
    ensures unchanged { desktop.new ≡ desktop.old }
    ensures looks { LooksThrough D.Disk disk.old disk.new pages.old pages.new }
    ensures faults { FailsAs Stop.Fault IsStop result (D.failures disk.old) (D.failures disk.new) }
{
    let mut source = Paged::over(disk, pages);
    desktop.scroll(alloc, at, wish, &mut source)
}

/// The events that do what is wished of the caret.
pub(crate) fn lead_over<D: Disk>(
    alloc: Global,
    desktop: &mut Desktop,
    wish: KeyWish,
    disk: &mut D,
    pages: &mut Pages,
) -> Result<Result<Vec<Event>, WhyNot>, Stop>
    requires { CanStepThrough D.Disk disk.old pages.old desktop.old }
    ensures leads { IfOk result (λ told. D.honest disk.old
        → DoesWish (seen_through D.Disk disk.old pages.old desktop.old) wish
        (result_map_both (λ events. events.items) (λ why. why) told)) }
    ensures unchanged { desktop.new ≡ desktop.old }
    ensures looks { LooksThrough D.Disk disk.old disk.new pages.old pages.new }
    ensures faults { FailsAs Stop.Fault IsStop result (D.failures disk.old) (D.failures disk.new) }
{
    let mut source = Paged::over(disk, pages);
    desktop.lead(alloc, wish, &mut source)
}

/// What a click would lose, once the marker was set.
pub(crate) fn loss_over<D: Disk>(
    desktop: &mut Desktop,
    marked: Option<(u8, u8)>,
    from: (u8, u8),
    to: (u8, u8),
    disk: &mut D,
    pages: &mut Pages,
) -> Result<Option<Loss>, Stop>
    requires { CanStepThrough D.Disk disk.old pages.old desktop.old }
    ensures told { IfOk result (λ loss. D.honest disk.old → loss
        ≡ loss_at (seen_through D.Disk disk.old pages.old desktop.old) marked from to) }
    ensures unchanged { desktop.new ≡ desktop.old }
    ensures looks { LooksThrough D.Disk disk.old disk.new pages.old pages.new }
    ensures faults { FailsAs Stop.Fault IsStop result (D.failures disk.old) (D.failures disk.new) }
{
    let mut source = Paged::over(disk, pages);
    desktop.loss_at(marked, from, to, &mut source)
}

/// The last whole line of the log.
pub(crate) fn log_line_over<D: Disk>(
    desktop: &Desktop,
    disk: &mut D,
    pages: &mut Pages,
) -> Result<LogRow, Stop>
    requires { CanStepThrough D.Disk disk.old pages.old desktop.now }
    ensures told { IfOk result (λ line. D.honest disk.old → line.items
        ≡ last_log_line (seen_through D.Disk disk.old pages.old desktop.now)) }
    ensures looks { LooksThrough D.Disk disk.old disk.new pages.old pages.new }
    ensures faults { FailsAs Stop.Fault IsStop result (D.failures disk.old) (D.failures disk.new) }
{
    let mut source = Paged::over(disk, pages);
    desktop.last_log_line(&mut source)
}
