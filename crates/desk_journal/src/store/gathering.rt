//! The desktop that a store shows, when the store is let go: all of its characters are in memory.
ghost use Rattle.std.specs.Prelude.{◌≡◌, ◌<◌, ◌↔◌, true, IfOk, IsErrOf};
ghost use Rattle.std.specs.Bool.{Decides};
ghost use Rattle.store_layout.specs.declared.layout.TheConstants.{AREAS};
ghost use Rattle.store_slots.specs.Gathering.{IsInMemory};
ghost use Rattle.store_slots.specs.Live.{seen_live};
ghost use Rattle.store_slots.specs.Words.{Content};
ghost use Rattle.desk_journal.specs.Gathering.{LetsGo};
ghost use Rattle.desk_journal.specs.Looking.{OnlyLooks};

use super::Store;
use sector_disk::Disk;
use std::alloc::Global;
use std::marker::Model;
use store_slots::{Error, LiveDesktop};

/// A desktop with all of its characters in memory. It rests on no disk, and a store may come to show it.
#[derive(Drop)]
pub struct GatheredDesktop {
    live: LiveDesktop,
}

impl Model for GatheredDesktop {
    ghost use Rattle.char_pages.specs.Pages.{rest_of};
    ghost use Rattle.desktop_definitions.specs.Seen.{seen};
    ghost use Rattle.store_slots.specs.Gathering.{IsInMemory};
    ghost use Rattle.desk_journal.specs.Gathering.{GatheredView};

    ghost Value = { GatheredView };

    ghost view = { λ g. record {
      desktop = seen (rest_of g.live.pages) g.live.desktop;
      kept = g.live.desktop;
    } };

    ghost invariant = { λ g. IsInMemory g.live };
}

impl GatheredDesktop {
    /// The desktop, whose characters go to the front of that area. It takes no memory.
    pub(super) fn in_area(self, area: u32) -> LiveDesktop
        requires { area < AREAS }
        ensures gathered { IsInMemory result }
        ensures area { result.area ≡ area }
        ensures kept { result.desktop ≡ self.kept }
        ensures shown { (c : Content) → seen_live c result ≡ self.desktop }
    {
        self.live.in_area(area)
    }
}

impl<D: Disk + Drop> Store<D> {
    /// The desktop that the store shows, with all of its characters, for which memory is taken. Store and disk are let
    /// go.
    ///
    /// Errors: `MustReopen`; `NoMemory`; `Fault`.
    pub fn gathered(self, alloc: Global) -> Result<GatheredDesktop, Error>
        ensures shown { IfOk result (λ gathered. D.honest self.disk
            → gathered.desktop ≡ self.desktop) }
        ensures kept { IfOk result (λ gathered. gathered.kept ≡ self.kept) }
        ensures reopen { IsErrOf result Error.MustReopen ↔ (self.must_reopen ≡ true) }
        ensures left { LetsGo D.Disk result self }
    {
        if self.must_reopen {
            return Err(Error::MustReopen);
        }
        let Store {
            disk,
            desktop,
            slot: _,
            version: _,
            epoch: _,
            events: _,
            must_reopen: _,
        } = self;
        let mut disk = disk;
        let live = desktop.gathered(alloc, &mut disk, 0)?;
        Ok(GatheredDesktop { live })
    }
}

impl<D: Disk> Store<D> {
    /// Whether the store shows what this desktop shows, which is let go. All characters of both are in memory for the
    /// time of the call.
    ///
    /// Errors: `MustReopen`; `NoMemory`; `Fault`.
    pub fn shows_same(&mut self, alloc: Global, other: GatheredDesktop) -> Result<bool, Error>
        ensures same { IfOk result (λ same. D.honest self.old.disk
            → Decides same (self.old.desktop ≡ other.desktop)) }
        ensures looks { OnlyLooks D.Disk result self.old self.new }
    {
        if self.must_reopen {
            return Err(Error::MustReopen);
        }
        let mut live = other.in_area(0);
        self.desktop.shows_same(alloc, &mut live, &mut self.disk)
    }
}
