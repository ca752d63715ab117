//! Documents that come into a store.
ghost use Rattle.std.specs.Prelude.{◌≡◌, ◌≤◌, IfOk, IsErrOf};
ghost use Rattle.desktop_definitions.specs.declared.reply.Reply.{Reply};
ghost use Rattle.store_layout.specs.Layout.{untold};
ghost use Rattle.store_slots.specs.Errors.{OfPost};
ghost use Rattle.desk_journal.specs.Behind.{GoesToNext, LeavesNext, brought_from};
ghost use Rattle.desk_journal.specs.Bringing.{LeavesAllOrNone, AreBrought, IsUnwritten};
ghost use Rattle.desk_journal.specs.Posting.{Behaves, IsBroken, IsLast, TurnsAway};

use super::Store;
use command_table::NEWEST;
use desktop_definitions::Reply;
use sector_disk::Disk;
use std::alloc::Global;
use store_layout::{LAST_EPOCH, PastEnd, UNTOLD, standing_law};
use store_slots::{Document, Error, SlotPlace, renew};

impl<D: Disk> Store<D> {
    /// Each document becomes the file of its name, in their order, or none does: the desktop with all of them goes whole
    /// into the slot that isn't in use, in the newest version, and that is the slot in use then, with an empty journal.
    /// No where there would be more files at the end than there may be, or where the desktop would pass the limits on
    /// characters: then nothing is written. At each moment a crash leaves the desktop from before or the one with all
    /// documents.
    ///
    /// Errors: `MustReopen` after an earlier `NoMemory` or `Fault`; `Worn` where the epoch is the last one. These change
    /// nothing. `NoMemory`, and nothing was written; `Fault`, and the documents may be there, all or none. After these
    /// the store must be opened again.
    pub fn bring(&mut self, alloc: Global, documents: &[Document]) -> Result<Reply, Error>
        ensures any_moment { LeavesAllOrNone D.Disk documents.now self.old self.new }
        ensures ok { IfOk result (λ reply. AreBrought D.Disk documents.now reply self.old
            self.new) }
        ensures memory { IsErrOf result Error.NoMemory → IsUnwritten D.Disk self.old self.new }
        ensures fault { IsErrOf result Error.Fault → IsBroken self.new }
        ensures worn { TurnsAway (IsErrOf result Error.Worn) (IsLast self.old) self.old self.new }
        ensures behaves { Behaves D.Disk OfPost result self.old self.new }
        ensures standings { LeavesNext D.Disk (brought_from untold documents.now) self.old
            self.new }
        ensures next { IfOk result (λ reply. reply ≡ Reply.Done
            → GoesToNext D.Disk (brought_from untold documents.now) self.old self.new) }
    {
        self.bring_with(alloc, documents, UNTOLD)
    }

    /// As `bring`, with a head that tells of this past, where `bring` tells of none.
    ///
    /// Errors: those of `bring`.
    pub fn bring_with(
        &mut self,
        alloc: Global,
        documents: &[Document],
        past: PastEnd,
    ) -> Result<Reply, Error>
        ensures any_moment { LeavesAllOrNone D.Disk documents.now self.old self.new }
        ensures ok { IfOk result (λ reply. AreBrought D.Disk documents.now reply self.old
            self.new) }
        ensures memory { IsErrOf result Error.NoMemory → IsUnwritten D.Disk self.old self.new }
        ensures fault { IsErrOf result Error.Fault → IsBroken self.new }
        ensures worn { TurnsAway (IsErrOf result Error.Worn) (IsLast self.old) self.old self.new }
        ensures behaves { Behaves D.Disk OfPost result self.old self.new }
        ensures standings { LeavesNext D.Disk (brought_from past documents.now) self.old self.new }
        ensures next { IfOk result (λ reply. reply ≡ Reply.Done
            → GoesToNext D.Disk (brought_from past documents.now) self.old self.new) }
    {
        standing_law();
        if self.must_reopen {
            return Err(Error::MustReopen);
        }
        if self.epoch == LAST_EPOCH {
            return Err(Error::Worn);
        }
        self.must_reopen = true;
        let reply = self.desktop.bring(alloc, documents, &mut self.disk)?;
        if let Reply::No(_) = reply {
            self.must_reopen = false;
            return Ok(reply);
        }
        let place = SlotPlace {
            slot: 1 - self.slot,
            epoch: self.epoch + 1,
            area: self.desktop.next_area(),
            saved: self.desktop.saved(),
            past,
        };
        renew(&mut self.disk, &mut self.desktop, place)?;
        self.slot = place.slot;
        self.version = NEWEST;
        self.epoch = place.epoch;
        self.events = 0;
        self.must_reopen = false;
        Ok(reply)
    }
}
