//! Documents that come into a store which keeps a past: what tells of them there is written before they count.
ghost use Rattle.std.specs.Prelude.{◌≡◌, IfOk, IsErrOf, OnOk, length};
ghost use Rattle.sector_disk.specs.Stored.{HoldsBytes};
ghost use Rattle.store_slots.specs.Errors.{OfPost};
ghost use Rattle.store_slots.specs.Live.{seen_live, IsLiveAnew};
ghost use Rattle.store_slots.specs.Words.{now};
ghost use Rattle.store_slots.specs.Written.{CanRenew, IsAnew};
ghost use Rattle.desk_journal.specs.Behind.{BehavesBehind, ComesWith, FitBehind, KeepsEitherWith, UsesBehind, brought_from};
ghost use Rattle.desk_journal.specs.Bringing.{AreBrought, IsUnwritten, LeavesAllOrNone};
ghost use Rattle.desk_journal.specs.Posting.{IsBroken, IsLast, TurnsAway};

use super::Store;
use super::behind::put_behind;
use command_table::NEWEST;
use desktop_definitions::Reply;
use sector_disk::{Disk, Fault};
use std::alloc::Global;
use store_layout::{LAST_EPOCH, PastEnd, standing_law};
use store_slots::{Document, Error, LiveDesktop, SlotPlace, renew};

/// Writes the bytes to sectors behind the store, and settles them; then puts the desktop into the other slot, and makes
/// that the slot in use.
pub(super) fn renew_behind<D: Disk>(
    disk: &mut D,
    desktop: &mut LiveDesktop,
    place: SlotPlace,
    from: u32,
    limit: u32,
    bytes: &[u8],
) -> Result<(), Fault>
    requires place { CanRenew (D.size disk.old) place desktop.old }
    requires fit { FitBehind (D.size disk.old) from limit (length bytes.now) }
    ensures device { UsesBehind D.Disk from limit result disk.old disk.new }
    ensures any_moment { KeepsEitherWith D.Disk place from bytes.now desktop.old disk.old disk.new }
    ensures renewed { OnOk result (IsAnew D.Disk place desktop.old disk.old disk.new
        (seen_live (now (D.trail disk.new)).reads desktop.new)) }
    ensures held { OnOk result (D.honest disk.old
        → HoldsBytes (now (D.trail disk.new)).reads from bytes.now) }
    ensures left { OnOk result (IsLiveAnew D.Disk place.slot disk.old disk.new desktop.old
        desktop.new) }
    ensures kept { desktop.new.desktop ≡ desktop.old.desktop }
{
    put_behind(disk, from, limit, bytes)?;
    renew(disk, desktop, place)
}

impl<D: Disk> Store<D> {
    /// As `bring_with`; and when it is known that the documents come, and before they count, the bytes are written to
    /// sectors behind those of the store, from `from` on, at most so many, with zeros after them, and settled. So a
    /// refusal writes nothing, and at each moment at which the documents count the bytes are there.
    ///
    /// Errors: those of `bring`.
    pub fn bring_behind(
        &mut self,
        alloc: Global,
        documents: &[Document],
        past: PastEnd,
        from: u32,
        limit: u32,
        bytes: &[u8],
    ) -> Result<Reply, Error>
        requires { FitBehind (D.size self.old.disk) from limit (length bytes.now) }
        ensures any_moment { LeavesAllOrNone D.Disk documents.now self.old self.new }
        ensures ok { IfOk result (λ reply. AreBrought D.Disk documents.now reply self.old
            self.new) }
        ensures memory { IsErrOf result Error.NoMemory → IsUnwritten D.Disk self.old self.new }
        ensures fault { IsErrOf result Error.Fault → IsBroken self.new }
        ensures worn { TurnsAway (IsErrOf result Error.Worn) (IsLast self.old) self.old self.new }
        ensures behaves { BehavesBehind D.Disk OfPost from limit result self.old self.new }
        ensures comes { ComesWith D.Disk (brought_from past documents.now) from bytes.now result
            self.old self.new }
    {
        standing_law();
        if self.must_reopen {
            return Err(Error::MustReopen);
        }
        if self.epoch == LAST_EPOCH {
            return Err(Error::Worn);
        }
        self.must_reopen = true;
        let reply = self.desktop.bring(alloc, documents, &mut self.disk)?;
        if let Reply::No(_) = reply {
            self.must_reopen = false;
            return Ok(reply);
        }
        let place = SlotPlace {
            slot: 1 - self.slot,
            epoch: self.epoch + 1,
            area: self.desktop.next_area(),
            saved: self.desktop.saved(),
            past,
        };
        renew_behind(&mut self.disk, &mut self.desktop, place, from, limit, bytes)?;
        self.slot = place.slot;
        self.version = NEWEST;
        self.epoch = place.epoch;
        self.events = 0;
        self.must_reopen = false;
        Ok(reply)
    }
}
