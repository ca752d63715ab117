//! What a desktop on a disk hands out of its selections, of what was copied, of the caret's text and of what was searched.
ghost use Rattle.std.specs.Prelude.{◌≡◌, ◌≤◌, IfOk, option_map};
ghost use Rattle.desktop_definitions.specs.Viewers.{newest, selected};
ghost use Rattle.store_slots.specs.Errors.{OfDesktop};
ghost use Rattle.store_slots.specs.Live.{seen_live, IsLiveOn, StaysLive};
ghost use Rattle.store_slots.specs.Words.{Content, Nowhere, now, IsConfined, FailsAs, caret_text};

use super::LiveDesktop;
use crate::Error;
use crate::over::read_over;
use piece_ring::Look;
use sector_disk::Disk;
use std::alloc::Global;
use store_layout::STORE_SECTORS;

impl LiveDesktop {
    /// The characters that were copied or cut last, with their looks.
    pub fn copied<D: Disk>(&mut self, alloc: Global, disk: &mut D) -> Result<Vec<(u8, Look)>, Error>
        requires on { IsLiveOn D.Disk disk.old self.old }
        requires room { STORE_SECTORS ≤ D.size disk.old }
        ensures told { IfOk result (λ characters. D.honest disk.old → characters.items
            ≡ (seen_live (now (D.trail disk.old)).reads self.old).copied) }
        ensures same { StaysLive D.Disk disk.old disk.new self.old self.new }
        ensures disk { IsConfined D.size D.honest D.trail Nowhere disk.old disk.new }
        ensures faults { FailsAs Error.Fault OfDesktop result (D.failures disk.old)
            (D.failures disk.new) }
    {
        let text = self.desktop.copied(alloc)?;
        Ok(read_over(alloc, &text, disk, &mut self.pages)?)
    }

    /// The characters of the newest selection, with their looks. None where nothing is selected.
    pub fn selected<D: Disk>(
        &mut self,
        alloc: Global,
        disk: &mut D,
    ) -> Result<Option<Vec<(u8, Look)>>, Error>
        requires on { IsLiveOn D.Disk disk.old self.old }
        requires room { STORE_SECTORS ≤ D.size disk.old }
        ensures told { IfOk result (λ found. D.honest disk.old
            → option_map (λ characters. characters.items) found
            ≡ option_map (selected (seen_live (now (D.trail disk.old)).reads self.old))
            (newest (seen_live (now (D.trail disk.old)).reads self.old))) }
        ensures same { StaysLive D.Disk disk.old disk.new self.old self.new }
        ensures disk { IsConfined D.size D.honest D.trail Nowhere disk.old disk.new }
        ensures faults { FailsAs Error.Fault OfDesktop result (D.failures disk.old)
            (D.failures disk.new) }
    {
        match self.desktop.selected(alloc)? {
            None => Ok(None),
            Some(text) => Ok(Some(read_over(alloc, &text, disk, &mut self.pages)?)),
        }
    }

    /// The characters of the main text of the viewer with the caret, with their looks. None where no viewer has it.
    pub fn caret_text<D: Disk>(
        &mut self,
        alloc: Global,
        disk: &mut D,
    ) -> Result<Option<Vec<(u8, Look)>>, Error>
        requires on { IsLiveOn D.Disk disk.old self.old }
        requires room { STORE_SECTORS ≤ D.size disk.old }
        ensures told { IfOk result (λ found. D.honest disk.old
            → option_map (λ characters. characters.items) found
            ≡ caret_text (seen_live (now (D.trail disk.old)).reads self.old)) }
        ensures same { StaysLive D.Disk disk.old disk.new self.old self.new }
        ensures disk { IsConfined D.size D.honest D.trail Nowhere disk.old disk.new }
        ensures faults { FailsAs Error.Fault OfDesktop result (D.failures disk.old)
            (D.failures disk.new) }
    {
        match self.desktop.caret_text() {
            None => Ok(None),
            Some(text) => Ok(Some(read_over(alloc, text, disk, &mut self.pages)?)),
        }
    }

    /// The bytes for which a text was searched last, 31 at most.
    pub fn pattern(&self) -> &[u8]
        ensures { (c : Content) → result.now ≡ (seen_live c self.now).pattern }
    {
        self.desktop.pattern()
    }
}
