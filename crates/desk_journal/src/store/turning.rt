//! A store that comes to show another desktop.
ghost use Rattle.std.specs.Prelude.{IsErrOf, OnOk, length};
ghost use Rattle.store_slots.specs.Errors.{OfCheckpoint};
ghost use Rattle.desk_journal.specs.Behind.{BehavesBehind, FitBehind, TurnsWith, turned_from};
ghost use Rattle.desk_journal.specs.Posting.{IsBroken, IsLast, TurnsAway};
ghost use Rattle.desk_journal.specs.Turning.{IsTurnedTo, LeavesThisOrThat};

use super::Store;
use super::coming::renew_behind;
use super::gathering::GatheredDesktop;
use command_table::NEWEST;
use sector_disk::Disk;
use store_layout::{LAST_EPOCH, PastEnd, standing_law};
use store_slots::{Error, SlotPlace};

impl<D: Disk> Store<D> {
    /// The store comes to show this desktop. First the bytes are written to sectors behind those of the store, from
    /// `from` on, at most so many, with zeros after them, and settled. Then the desktop goes whole into the slot and
    /// the area that aren't in use, in the newest version, with a head that tells of this past. That is the slot in
    /// use then, with an empty journal. It takes no memory. At each moment a crash leaves the desktop from before, or
    /// this one and the bytes.
    ///
    /// Errors: those of `checkpoint`.
    pub fn turn_behind(
        &mut self,
        desktop: GatheredDesktop,
        past: PastEnd,
        from: u32,
        limit: u32,
        bytes: &[u8],
    ) -> Result<(), Error>
        requires { FitBehind (D.size self.old.disk) from limit (length bytes.now) }
        ensures any_moment { LeavesThisOrThat D.Disk desktop.desktop self.old self.new }
        ensures ok { OnOk result (IsTurnedTo D.Disk desktop self.old self.new) }
        ensures fault { IsErrOf result Error.Fault → IsBroken self.new }
        ensures worn { TurnsAway (IsErrOf result Error.Worn) (IsLast self.old) self.old self.new }
        ensures behaves { BehavesBehind D.Disk OfCheckpoint from limit result self.old self.new }
        ensures comes { TurnsWith D.Disk (turned_from past desktop.desktop) from bytes.now result
            self.old self.new }
    {
        standing_law();
        if self.must_reopen {
            return Err(Error::MustReopen);
        }
        if self.epoch == LAST_EPOCH {
            return Err(Error::Worn);
        }
        let area = self.desktop.other_area();
        let mut turned = desktop.in_area(area);
        let place = SlotPlace {
            slot: 1 - self.slot,
            epoch: self.epoch + 1,
            area,
            saved: 0,
            past,
        };
        self.must_reopen = true;
        renew_behind(&mut self.disk, &mut turned, place, from, limit, bytes)?;
        self.desktop = turned;
        self.slot = place.slot;
        self.version = NEWEST;
        self.epoch = place.epoch;
        self.events = 0;
        self.must_reopen = false;
        Ok(())
    }
}
