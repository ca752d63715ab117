//! Whether two desktops over one disk show the same.
ghost use Rattle.std.specs.Prelude.{◌≡◌, ◌≤◌, IfOk};
ghost use Rattle.std.specs.Bool.{Decides};
ghost use Rattle.seen_desktops.specs.Shape.{all_characters_of};
ghost use Rattle.store_slots.specs.Errors.{OfDesktop};
ghost use Rattle.store_slots.specs.Live.{IsLiveOn, StaysLive, seen_live};
ghost use Rattle.store_slots.specs.Words.{FailsAs, IsConfined, Nowhere, now};

use super::LiveDesktop;
use crate::Error;
use crate::over::characters_over;
use piece_ring::Look;
use sector_disk::Disk;
use seen_desktops::desktops_are_shapes;
use std::alloc::Global;
use store_layout::STORE_SECTORS;

/// Whether these characters are the same, in the same looks.
fn are_same(one: &[(u8, Look)], other: &[(u8, Look)]) -> bool
    ensures { Decides result (one.now ≡ other.now) }
{
    one == other
}

impl LiveDesktop {
    /// All its characters, each with its look.
    fn characters<D: Disk>(&mut self, alloc: Global, disk: &mut D) -> Result<Vec<(u8, Look)>, Error>
        requires on { IsLiveOn D.Disk disk.old self.old }
        requires room { STORE_SECTORS ≤ D.size disk.old }
        ensures read { IfOk result (λ all. D.honest disk.old
            → all.items ≡ all_characters_of (seen_live (now (D.trail disk.old)).reads self.old)) }
        ensures kept { StaysLive D.Disk disk.old disk.new self.old self.new }
        ensures disk { IsConfined D.size D.honest D.trail Nowhere disk.old disk.new }
        ensures faults { FailsAs Error.Fault OfDesktop result (D.failures disk.old)
            (D.failures disk.new) }
    {
        Ok(characters_over(alloc, &self.desktop, disk, &mut self.pages)?)
    }

    /// Whether another desktop over this disk shows the same. All characters of both are in memory for the time of the call.
    pub fn shows_same<D: Disk>(
        &mut self,
        alloc: Global,
        other: &mut LiveDesktop,
        disk: &mut D,
    ) -> Result<bool, Error>
        requires on { IsLiveOn D.Disk disk.old self.old }
        requires other { IsLiveOn D.Disk disk.old other.old }
        requires room { STORE_SECTORS ≤ D.size disk.old }
        ensures same { IfOk result (λ same. D.honest disk.old → Decides same
            (seen_live (now (D.trail disk.old)).reads self.old
            ≡ seen_live (now (D.trail disk.old)).reads other.old)) }
        ensures kept { StaysLive D.Disk disk.old disk.new self.old self.new }
        ensures disk { IsConfined D.size D.honest D.trail Nowhere disk.old disk.new }
        ensures faults { FailsAs Error.Fault OfDesktop result (D.failures disk.old)
            (D.failures disk.new) }
    {
        desktops_are_shapes();
        if !self.desktop.has_shape_of(alloc, &other.desktop)? {
            return Ok(false);
        }
        let one = self.characters(alloc, disk)?;
        let two = other.characters(alloc, disk)?;
        Ok(are_same(one.as_slice(), two.as_slice()))
    }
}
