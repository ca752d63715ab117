//! A past behind a store: what a crate above writes and reads there while the store holds the disk, the journal in use as
//! bytes, and what the head of the slot in use tells of the past.
ghost use Rattle.std.specs.Prelude.{◌≡◌, ◌<◌, ℕ, false, IfErr, IfOk, IsErrOf, OnOk, length};
ghost use Rattle.sector_disk.specs.Stored.{HoldsBytes};
ghost use Rattle.store_layout.specs.Filling.{InRange};
ghost use Rattle.store_slots.specs.Words.{CountsFault, FailsAs, IsConfined, now};
ghost use Rattle.store_layout.specs.Meaning.{Standing};
ghost use Rattle.store_slots.specs.Bodies.{spellings};
ghost use Rattle.store_slots.specs.Errors.{OfCheckpoint, OfLook};
ghost use Rattle.desk_journal.specs.Behind.{FitBehind, GoesToNext, IsWrittenBehind, KeepsStanding, LeavesNext, renewed_from};
ghost use Rattle.desk_journal.specs.Checkpointing.{IsRenewed, LeavesDesktop};
ghost use Rattle.desk_journal.specs.Looking.{OnlyLooks};
ghost use Rattle.desk_journal.specs.Posting.{AnswersMustReopen, Behaves, IsBroken, IsLast, TurnsAway};
ghost use Rattle.desk_journal.specs.Undoing.{IsLeft, OfUndo, ShowsStanding};

use super::Store;
use command_table::NEWEST;
use sector_disk::{Disk, Fault, Sector};
use std::alloc::Global;
use store_layout::{Filling, LAST_EPOCH, PastEnd, standing_law};
use store_slots::{Error, SlotPlace, read_journal, read_past, renew};

/// Writes the bytes to the sectors from `from` on, with zeros after them, and settles them.
pub(super) fn put_behind<D: Disk>(
    disk: &mut D,
    from: u32,
    limit: u32,
    bytes: &[u8],
) -> Result<(), Fault>
    requires { FitBehind (D.size disk.old) from limit (length bytes.now) }
    ensures kept { IsConfined D.size D.honest D.trail (InRange from limit) disk.old disk.new }
    ensures cause { CountsFault result (D.failures disk.old) (D.failures disk.new) }
    ensures held { OnOk result (D.honest disk.old
        → HoldsBytes (now (D.trail disk.new)).reads from bytes.now) }
    ensures quiet { OnOk result (D.honest disk.old → (n : ℕ) → (now (D.trail disk.new)).pending n
        ≡ false) }
{
    let mut filling = Filling::new(from, limit);
    filling.put_over(disk, bytes)?;
    filling.finish(disk)?;
    disk.sync()?;
    Ok(())
}

impl<D: Disk> Store<D> {
    /// Writes the bytes to sectors behind those of the store, from `from` on, at most so many, with zeros after them,
    /// and settles them. What the store shows stays, and no other sector is touched: at each moment a crash leaves the
    /// same desktop, in the same epoch, by the same events.
    ///
    /// Errors: `MustReopen`, which changes nothing; `Fault`, after which the store must be opened again.
    pub fn write_behind(&mut self, from: u32, limit: u32, bytes: &[u8]) -> Result<(), Error>
        requires { FitBehind (D.size self.old.disk) from limit (length bytes.now) }
        ensures any_moment { KeepsStanding D.Disk self.old self.new }
        ensures only { IsConfined D.size D.honest D.trail (InRange from limit) self.old.disk
            self.new.disk }
        ensures ok { OnOk result (IsWrittenBehind D.Disk from bytes.now self.old self.new) }
        ensures fault { IsErrOf result Error.Fault → IsBroken self.new }
        ensures reopen { AnswersMustReopen result self.old self.new }
        ensures faults { FailsAs Error.Fault OfLook result (D.failures self.old.disk)
            (D.failures self.new.disk) }
    {
        standing_law();
        if self.must_reopen {
            return Err(Error::MustReopen);
        }
        self.must_reopen = true;
        put_behind(&mut self.disk, from, limit, bytes)?;
        self.must_reopen = false;
        Ok(())
    }

    /// Copies sector `n` of the disk to the buffer. After a `Fault` the buffer may hold anything.
    ///
    /// Errors: `MustReopen`; `Fault`.
    pub fn read_behind(&mut self, n: u32, buffer: &mut Sector) -> Result<(), Error>
        requires { n < D.size self.old.disk }
        ensures bytes { OnOk result (D.honest self.old.disk
            → buffer.new ≡ (now (D.trail self.old.disk)).reads n) }
        ensures looks { OnlyLooks D.Disk result self.old self.new }
    {
        if self.must_reopen {
            return Err(Error::MustReopen);
        }
        self.disk.read(n, buffer)?;
        Ok(())
    }

    /// What the head of the slot in use tells of the past.
    ///
    /// Errors: `MustReopen`; `Fault`.
    pub fn past(&mut self) -> Result<PastEnd, Error>
        ensures told { IfOk result (λ past. D.honest self.old.disk → (s : Standing)
            → ShowsStanding D.Disk self.old s → past ≡ s.past) }
        ensures looks { OnlyLooks D.Disk result self.old self.new }
    {
        standing_law();
        if self.must_reopen {
            return Err(Error::MustReopen);
        }
        let past = read_past(&mut self.disk, self.slot)?;
        Ok(past)
    }

    /// The events of the journal in use, as they are spelled, one behind another.
    ///
    /// Errors: `MustReopen`; `NoMemory`; `Fault`. Over a disk that isn't honest, `Damaged` too.
    pub fn journal(&mut self, alloc: Global) -> Result<Vec<u8>, Error>
        ensures bytes { IfOk result (λ bytes. D.honest self.old.disk → (s : Standing)
            → ShowsStanding D.Disk self.old s → bytes.items ≡ spellings s.events) }
        ensures looks { IsLeft D.Disk self.old self.new }
        ensures usable { self.new.must_reopen ≡ self.old.must_reopen }
        ensures reopen { AnswersMustReopen result self.old self.new }
        ensures stops { D.honest self.old.disk → IfErr result OfLook }
        ensures faults { FailsAs Error.Fault OfUndo result (D.failures self.old.disk)
            (D.failures self.new.disk) }
    {
        standing_law();
        if self.must_reopen {
            return Err(Error::MustReopen);
        }
        read_journal(alloc, &mut self.disk, self.slot, self.events)
    }

    /// Puts the desktop whole into the slot that isn't in use, in the newest version, with a head that tells of this past,
    /// and makes that the slot in use, with an empty journal: as `checkpoint`, whose head tells of none.
    ///
    /// Errors: those of `checkpoint`.
    pub fn checkpoint_with(&mut self, past: PastEnd) -> Result<(), Error>
        ensures any_moment { LeavesDesktop D.Disk self.old self.new }
        ensures ok { OnOk result (IsRenewed D.Disk self.old self.new) }
        ensures fault { IsErrOf result Error.Fault → IsBroken self.new }
        ensures worn { TurnsAway (IsErrOf result Error.Worn) (IsLast self.old) self.old self.new }
        ensures behaves { Behaves D.Disk OfCheckpoint result self.old self.new }
        ensures standings { LeavesNext D.Disk (renewed_from past) self.old self.new }
        ensures next { OnOk result (GoesToNext D.Disk (renewed_from past) self.old self.new) }
    {
        standing_law();
        if self.must_reopen {
            return Err(Error::MustReopen);
        }
        if self.epoch == LAST_EPOCH {
            return Err(Error::Worn);
        }
        let place = SlotPlace {
            slot: 1 - self.slot,
            epoch: self.epoch + 1,
            area: self.desktop.next_area(),
            saved: self.desktop.saved(),
            past,
        };
        self.must_reopen = true;
        renew(&mut self.disk, &mut self.desktop, place)?;
        self.slot = place.slot;
        self.version = NEWEST;
        self.epoch = place.epoch;
        self.events = 0;
        self.must_reopen = false;
        Ok(())
    }

    /// How many sectors the disk has.
    pub fn sectors(&self) -> u32
        ensures { result ≡ D.size self.now.disk }
    {
        self.disk.sectors()
    }
}
