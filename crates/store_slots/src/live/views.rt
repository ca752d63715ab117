//! What a desktop on a disk tells before and after a command is called.
ghost use Rattle.std.specs.Prelude.{◌≡◌, ◌≤◌, IfOk};
ghost use Rattle.desk_views.specs.Losses.{loss_at};
ghost use Rattle.desk_views.specs.Info.{shown_viewer, place_at, desk_info, last_log_line};
ghost use Rattle.store_slots.specs.Errors.{OfDesktop};
ghost use Rattle.store_slots.specs.Live.{seen_live, IsLive, IsLiveOn, StaysLive};
ghost use Rattle.store_slots.specs.Words.{Content, Nowhere, now, IsConfined, FailsAs};

use super::LiveDesktop;
use crate::Error;
use crate::over::{log_line_over, loss_over};
use event_loop::{DeskInfo, LogRow, Loss, Place, ShownViewer};
use sector_disk::Disk;
use store_layout::STORE_SECTORS;

impl LiveDesktop {
    /// What the command would lose that is called by the middle button, which went down at a cell and up at another, once
    /// the marker was set to a cell, if one is meant.
    pub fn loss_at<D: Disk>(
        &mut self,
        marked: Option<(u8, u8)>,
        from: (u8, u8),
        to: (u8, u8),
        disk: &mut D,
    ) -> Result<Option<Loss>, Error>
        requires on { IsLiveOn D.Disk disk.old self.old }
        requires room { STORE_SECTORS ≤ D.size disk.old }
        ensures told { IfOk result (λ loss. D.honest disk.old → loss
            ≡ loss_at (seen_live (now (D.trail disk.old)).reads self.old) marked from to) }
        ensures same { StaysLive D.Disk disk.old disk.new self.old self.new }
        ensures disk { IsConfined D.size D.honest D.trail Nowhere disk.old disk.new }
        ensures faults { FailsAs Error.Fault OfDesktop result (D.failures disk.old)
            (D.failures disk.new) }
    {
        Ok(loss_over(&mut self.desktop, marked, from, to, disk, &mut self.pages)?)
    }

    /// The viewer of an id, if it is shown on the display.
    pub fn shown_viewer(&self, id: u16) -> Option<ShownViewer>
        ensures { (c : Content) → result ≡ shown_viewer (seen_live c self.now) id }
    {
        self.desktop.shown_viewer(id)
    }

    /// Where the viewer stands that is seen at a cell.
    pub fn place_at(&self, cell: (u8, u8)) -> Option<Place>
        ensures { (c : Content) → result ≡ place_at (seen_live c self.now) cell }
    {
        self.desktop.place_at(cell)
    }

    /// What the desktop says of itself before a command is called.
    pub fn info(&self) -> DeskInfo
        requires { IsLive self.now }
        ensures { (c : Content) → result ≡ desk_info (seen_live c self.now) }
    {
        self.desktop.info()
    }

    /// The bytes of the log's last whole line, the first 80 of them at most.
    pub fn last_log_line<D: Disk>(&mut self, disk: &mut D) -> Result<LogRow, Error>
        requires on { IsLiveOn D.Disk disk.old self.old }
        requires room { STORE_SECTORS ≤ D.size disk.old }
        ensures told { IfOk result (λ line. D.honest disk.old → line.items
            ≡ last_log_line (seen_live (now (D.trail disk.old)).reads self.old)) }
        ensures same { StaysLive D.Disk disk.old disk.new self.old self.new }
        ensures disk { IsConfined D.size D.honest D.trail Nowhere disk.old disk.new }
        ensures faults { FailsAs Error.Fault OfDesktop result (D.failures disk.old)
            (D.failures disk.new) }
    {
        Ok(log_line_over(&self.desktop, disk, &mut self.pages)?)
    }
}
