//! The store and its calls.
//!
//! A clause sees a store as a `StoreView`. What each call promises is said in words, one for an outcome, of
//! `specs/Opening.antt`, `specs/Posting.antt`, `specs/Checkpointing.antt` and `specs/Looking.antt`.
ghost use Rattle.std.specs.Prelude.{◌≡◌, ◌≢◌, ◌<◌, ◌≤◌, ◌↔◌, true, false, Ok, Err, None, IfOk, IfErr, IfSome, IfNone, OnOk};
ghost use Rattle.std.specs.Prelude.{IsErr, IsErrOf};
ghost use Rattle.std.specs.Prelude.{ℕ, option_map, IsTrue};
ghost use Rattle.desktop_definitions.specs.Desktop.{empty_desktop, file_of};
ghost use Rattle.store_slots.specs.Device.{IsOnlyRead, StaysWithin, disk_after, result_of};
ghost use Rattle.store_slots.specs.Errors.{OfFormat, OfOpen, OfPost, OfLook, OfCheckpoint};
ghost use Rattle.desk_journal.specs.Looking.{OnlyLooks};
ghost use Rattle.store_layout.specs.Meaning.{Shows, Standing};
ghost use Rattle.store_layout.specs.declared.layout.TheConstants.{FIRST_LAYOUT};
ghost use Rattle.desk_journal.specs.Checkpointing.{LeavesDesktop, IsRenewed};
ghost use Rattle.desk_journal.specs.Opening.{IsOpened, IsNoStore};
ghost use Rattle.desk_journal.specs.Posting.{LeavesEither, IsAcknowledged, IsStarved, IsBroken, IsLast, AnswersWorn};
ghost use Rattle.desk_journal.specs.Posting.{Behaves, HasJournalRoom, AnswersMustReopen, IsDueBefore, RecordsDone, TurnsAway};
ghost use Rattle.desk_journal.specs.Migrating.{ChecksFirst};
ghost use Rattle.command_table.specs.Versions.{version_number};
ghost use Rattle.store_slots.specs.Beside.{IsHistory};
ghost use Rattle.desk_journal.specs.Undoing.{ShowsStanding, IsLeft, IsTakenBack, LeavesUndone, OfUndo};
ghost use Rattle.desk_journal.specs.Behind.{AddsEvent, GoesToNext, LeavesNext, renewed_from};
ghost use Rattle.store_layout.specs.Layout.{untold};
ghost use Rattle.desk_journal.specs.View.{IsDurable};
ghost use Rattle.store_slots.specs.Words.{Leaves, Nowhere, now, IsConfined, FailsAs, entries_of};
ghost use Rattle.store_slots.specs.Words.{ListsUnread, shown_screen};

mod behind;
mod bringing;
mod coming;
mod copying;
mod forgetting;
mod gathering;
mod leading;
mod scrolling;
mod turning;
mod views;

use command_table::{NEWEST, Version};
use desktop_definitions::{Entry, Reply};
use event_bytes::{Event, Name};
pub use forgetting::NotingDisk;
pub use gathering::GatheredDesktop;
use piece_ring::Look;
use screen_cells::Screen;
use sector_disk::{Disk, Fault};
use std::alloc::Global;
use std::marker::Model;
use store_layout::{JOURNAL_EVENTS, LAYOUT, STORE_SECTORS, UNTOLD, standing_law};
use store_slots::{
    Earlier, Error, LiveDesktop, lay_out, load, load_earlier, read_history, record, undo_to,
};

/// What a store says of itself: the version of the slot in use and its epoch, the number of events in its journal, and
/// how many characters count as written.
#[derive(Clone, Copy, Debug, PartialEq, Eq)]
pub struct Info {
    pub layout: u32,
    pub epoch: u32,
    pub events: u32,
    pub written: u32,
}

/// A desktop on a disk. The characters that fill sectors of an area of the disk stay there, but for 64 sectors that
/// were read last; the others are in memory.
///
/// After `NoMemory` or `Fault` of a post or of `bring`, after `Fault` of a checkpoint, and after one that came in the write
/// of an undo, the store isn't used again: each call but `close` returns `MustReopen`, and what is on the disk is found by
/// opening it.
#[derive(Drop)]
pub struct Store<D: Disk> {
    disk: D,
    desktop: LiveDesktop,
    /// The slot in use, its version and its epoch.
    slot: u32,
    version: Version,
    epoch: u32,
    /// How many events its journal has.
    events: u32,
    must_reopen: bool,
}

impl<D: Disk> Model for Store<D> {
    ghost use Rattle.std.specs.Prelude.{◌≡◌, ◌<◌, ◌≤◌, false};
    ghost use Rattle.sector_disk.specs.Trail.{now};
    ghost use Rattle.command_table.specs.Versions.{version_number};
    ghost use Rattle.store_layout.specs.declared.layout.TheConstants.{JOURNAL_EVENTS, SLOTS, STORE_SECTORS};
    ghost use Rattle.store_layout.specs.Kept.{ShowsSettled};
    ghost use Rattle.store_slots.specs.Live.{seen_live, IsLive, IsNamed, HasTrueCache};
    ghost use Rattle.desk_journal.specs.View.{StoreView};

    ghost Value = { StoreView D };

    ghost view = { λ s. record {
      disk = s.disk;
      desktop = seen_live (now (D.Disk.trail s.disk)).reads s.desktop;
      kept = s.desktop.desktop;
      layout = version_number s.version;
      epoch = s.epoch;
      events = s.events;
      must_reopen = s.must_reopen;
    } };

    ghost invariant = { λ s. s.must_reopen ≡ false → (s.slot < SLOTS) × (s.events ≤ JOURNAL_EVENTS)
        × (STORE_SECTORS ≤ D.Disk.size s.disk) × IsLive s.desktop × HasTrueCache D.Disk s.disk s.desktop
        × (D.Disk.honest s.disk
        → ShowsSettled (D.Disk.size s.disk) (D.Disk.trail s.disk) s.slot (version_number s.version) s.epoch s.events
        (seen_live (now (D.Disk.trail s.disk)).reads s.desktop)
        × IsNamed (now (D.Disk.trail s.disk)).reads s.slot s.desktop) };
}

impl<D: Disk> Store<D> {
    /// Makes the disk a store of the empty desktop, in the newest version. It takes no memory, and hands the disk back.
    ///
    /// Errors, each with the disk: `TooSmall` where it has fewer sectors than a store needs, and then it is untouched;
    /// `Fault`, after which it may be no store.
    pub fn format(disk: D) -> Result<D, (Error, D)>
        ensures empty { IfOk result (λ new. D.honest disk
            → Leaves (now (D.trail new)) (Shows (D.size new) LAYOUT 1 0 empty_desktop)) }
        ensures small { IsErrOf (result_of result) Error.TooSmall ↔ (D.size disk < STORE_SECTORS) }
        ensures untouched { IfErr result (λ e. e.0 ≡ Error.TooSmall → e.1 ≡ disk) }
        ensures within { StaysWithin D.Disk disk (disk_after (λ new. new) result) }
        ensures faults { FailsAs Error.Fault OfFormat (result_of result) (D.failures disk)
            (D.failures (disk_after
            (λ new. new) result)) }
    {
        Store::format_as(disk, NEWEST)
    }

    /// Makes the disk a store of the empty desktop, in that version. It takes no memory, and hands the disk back.
    ///
    /// Errors, each with the disk: `TooSmall` where it has fewer sectors than a store needs, and then it is untouched;
    /// `Fault`, after which it may be no store.
    pub fn format_as(disk: D, version: Version) -> Result<D, (Error, D)>
        ensures empty { IfOk result (λ new. D.honest disk
            → Leaves (now (D.trail new)) (Shows (D.size new)
            (version_number version) 1 0 empty_desktop)) }
        ensures small { IsErrOf (result_of result) Error.TooSmall ↔ (D.size disk < STORE_SECTORS) }
        ensures untouched { IfErr result (λ e. e.0 ≡ Error.TooSmall → e.1 ≡ disk) }
        ensures within { StaysWithin D.Disk disk (disk_after (λ new. new) result) }
        ensures faults { FailsAs Error.Fault OfFormat (result_of result) (D.failures disk)
            (D.failures (disk_after
            (λ new. new) result)) }
    {
        let mut disk = disk;
        if disk.sectors() < STORE_SECTORS {
            return Err((Error::TooSmall, disk));
        }
        match lay_out(&mut disk, version) {
            Ok(()) => Ok(disk),
            Err(Fault) => Err((Error::Fault, disk)),
        }
    }

    /// Opens a disk: reads the image of the slot in use, and does the events of its journal. It begins with a sync and
    /// writes nothing.
    ///
    /// Errors, each with the disk: `NotAStore` where it has fewer sectors than a store needs, or another label;
    /// `Damaged(n)`, in this order, where no slot is open (sector 1), where the head in sector n stands under an open
    /// gate and isn't one of this layout, where the image that begins in sector n is none, or where the body in sector
    /// n, under an open gate, begins with no event; `Fault`; `NoMemory`. Memory is taken for the image of the slot in
    /// use and the characters that it has, and for the events of its journal, and for nothing that is read before them:
    /// a wrong label, closed slots and a bad head are told whatever memory there is. Of the characters in the area it
    /// reads only those that the events of the journal read.
    pub fn open(alloc: Global, disk: D) -> Result<Store<D>, (Error, D)>
        ensures ok { IfOk result (λ store. IsOpened D.Disk disk store) }
        ensures no_store { IfErr result (λ e. IsNoStore D.Disk disk e.0) }
        ensures any_moment { IsOnlyRead D.Disk disk (disk_after (λ store. store.disk) result) }
        ensures untouched { IsConfined D.size D.honest D.trail Nowhere disk (disk_after (λ store.
            store.disk) result) }
        ensures faults { FailsAs Error.Fault OfOpen (result_of result) (D.failures disk)
            (D.failures (disk_after
            (λ store. store.disk) result)) }
    {
        let mut disk = disk;
        match load(alloc, &mut disk) {
            Ok(loaded) => Ok(Store {
                disk,
                desktop: loaded.desktop,
                slot: loaded.slot,
                version: loaded.version,
                epoch: loaded.epoch,
                events: loaded.events,
                must_reopen: false,
            }),
            Err(error) => Err((error, disk)),
        }
    }

    /// Takes one event: does it, with the commands of the newest version, and puts it into the journal. Where the
    /// journal is full, or the slot in use has an older version, a checkpoint comes first. At `Ok` the event is
    /// acknowledged, whatever the reply.
    ///
    /// Errors: `MustReopen` after an earlier `NoMemory` or `Fault`; `Worn` where a checkpoint is due and the epoch is
    /// the last one; `NoMemory`, and the event is on the disk in no image; `Fault`, and it may be there or not. The
    /// first two change nothing; after the last two the store must be opened again.
    pub fn post(&mut self, alloc: Global, event: &Event) -> Result<Reply, Error>
        ensures any_moment { LeavesEither D.Disk event.now self.old self.new }
        ensures ok { IfOk result (λ reply. IsAcknowledged D.Disk event.now reply self.old
            self.new) }
        ensures memory { IsErrOf result Error.NoMemory → IsStarved D.Disk self.old self.new }
        ensures fault { IsErrOf result Error.Fault → IsBroken self.new
            × RecordsDone D.Disk event.now self.old self.new }
        ensures worn { AnswersWorn result self.old self.new }
        ensures behaves { Behaves D.Disk OfPost result self.old self.new }
        ensures first { self.old.must_reopen ≡ false → IsDueBefore self.old
            → ChecksFirst D.Disk event.now result self.old self.new }
        ensures added { AddsEvent D.Disk event.now result self.old self.new }
    {
        if self.needs() {
            self.checkpoint()?;
        }
        self.put(alloc, event)
    }

    /// Whether a checkpoint is due before the next event: the journal is full, or the slot in use has an older version.
    fn needs(&self) -> bool
        ensures due { IsTrue result ↔ IsDueBefore self.now }
        ensures room { result ≡ false → HasJournalRoom self.now }
    {
        self.events >= JOURNAL_EVENTS || self.version.number() != LAYOUT
    }

    /// The rest of a post: the journal has room, and the slot in use has the newest version.
    fn put(&mut self, alloc: Global, event: &Event) -> Result<Reply, Error>
        requires { self.old.must_reopen ≡ false → HasJournalRoom self.old }
        ensures any_moment { LeavesEither D.Disk event.now self.old self.new }
        ensures ok { IfOk result (λ reply. IsAcknowledged D.Disk event.now reply self.old
            self.new) }
        ensures memory { IsErrOf result Error.NoMemory → IsStarved D.Disk self.old self.new }
        ensures fault { IsErrOf result Error.Fault → IsBroken self.new
            × RecordsDone D.Disk event.now self.old self.new }
        ensures behaves { Behaves D.Disk OfLook result self.old self.new }
        ensures added { AddsEvent D.Disk event.now result self.old self.new }
    {
        standing_law();
        if self.must_reopen {
            return Err(Error::MustReopen);
        }
        self.must_reopen = true;
        let reply = record(
            alloc,
            &mut self.desktop,
            &mut self.disk,
            self.slot,
            self.events,
            event,
        )?;
        self.events += 1;
        self.must_reopen = false;
        Ok(reply)
    }

    /// Takes the last events back, so many, or all, if there are fewer: those of the journal, and before them those of the
    /// journal before, if the slot in use starts from the desktop to which they led. The disk shows what there was without
    /// them, and so does the store: its desktop is read from the disk beside the one in memory before anything is written.
    /// It writes one gate, or two, and a crash leaves either desktop. It hands back the events in their order.
    ///
    /// Errors: `MustReopen` after an earlier `NoMemory` or `Fault` of a call that writes; `NoMemory`, and the store
    /// is in use and shows what it showed; `Fault`, and the same holds, unless it came in the write, after which the
    /// store must be opened again. Over a disk that isn't honest, those of `open` too.
    pub fn undo(&mut self, alloc: Global, count: u32) -> Result<Vec<Event>, Error>
        ensures any_moment { LeavesUndone D.Disk count self.old self.new }
        ensures ok { IfOk result (λ events. IsTakenBack D.Disk count events.items self.old
            self.new) }
        ensures left { IsErr result → self.old.must_reopen ≡ false → self.new.must_reopen ≡ false
            → IsLeft D.Disk self.old self.new }
        ensures in_use { IfErr result (λ e. e ≢ Error.Fault → e ≢ Error.MustReopen
            → self.new.must_reopen ≡ false) }
        ensures stops { D.honest self.old.disk → IfErr result OfLook }
        ensures behaves { Behaves D.Disk OfUndo result self.old self.new }
    {
        standing_law();
        if self.must_reopen {
            return Err(Error::MustReopen);
        }
        let earlier = load_earlier(
            alloc,
            &mut self.disk,
            self.slot,
            self.epoch,
            self.events,
            count,
        )?;
        let Earlier {
            desktop,
            slot,
            epoch,
            left,
            events,
        } = earlier;
        if events.is_empty() {
            return Ok(events);
        }
        self.must_reopen = true;
        undo_to(&mut self.disk, self.slot, slot, left)?;
        self.desktop = desktop;
        self.slot = slot;
        self.epoch = epoch;
        self.events = left;
        self.must_reopen = false;
        Ok(events)
    }

    /// The events that can be taken back, in their order: those of the journal, and before them those of the journal
    /// before, if the slot in use starts from the desktop to which they led.
    ///
    /// Errors: `MustReopen`; `NoMemory`; `Fault`. Over a disk that isn't honest, `Damaged` too.
    pub fn history(&mut self, alloc: Global) -> Result<Vec<Event>, Error>
        ensures events { IfOk result (λ events. D.honest self.old.disk → (s : Standing)
            → ShowsStanding D.Disk self.old s
            → IsHistory (now (D.trail self.old.disk)).reads s events.items) }
        ensures looks { IsLeft D.Disk self.old self.new }
        ensures usable { self.new.must_reopen ≡ self.old.must_reopen }
        ensures reopen { AnswersMustReopen result self.old self.new }
        ensures stops { D.honest self.old.disk → IfErr result OfLook }
        ensures faults { FailsAs Error.Fault OfUndo result (D.failures self.old.disk)
            (D.failures self.new.disk) }
    {
        standing_law();
        if self.must_reopen {
            return Err(Error::MustReopen);
        }
        read_history(alloc, &mut self.disk, self.slot, self.epoch, self.events)
    }

    /// Puts the desktop whole into the slot that isn't in use, in the newest version, and makes that the slot in use,
    /// with an empty journal. It takes no memory. At each moment a crash leaves the same desktop.
    ///
    /// Errors: `MustReopen` after an earlier `NoMemory` or `Fault`; `Worn` where the epoch is the last one. These
    /// change nothing. `Fault`, after which the store must be opened again.
    pub fn checkpoint(&mut self) -> Result<(), Error>
        ensures any_moment { LeavesDesktop D.Disk self.old self.new }
        ensures ok { OnOk result (IsRenewed D.Disk self.old self.new) }
        ensures fault { IsErrOf result Error.Fault → IsBroken self.new }
        ensures worn { TurnsAway (IsErrOf result Error.Worn) (IsLast self.old) self.old self.new }
        ensures behaves { Behaves D.Disk OfCheckpoint result self.old self.new }
        ensures standings { LeavesNext D.Disk (renewed_from untold) self.old self.new }
        ensures next { OnOk result (GoesToNext D.Disk (renewed_from untold) self.old self.new) }
    {
        self.checkpoint_with(UNTOLD)
    }

    /// The characters of the file of that name, each a byte and its look; None where there is none.
    ///
    /// Errors: `MustReopen`; `NoMemory`, only where there is such a file; `Fault`.
    pub fn file(&mut self, alloc: Global, name: &Name) -> Result<Option<Vec<(u8, Look)>>, Error>
        ensures found { IfOk result (λ file. D.honest self.old.disk
            → option_map (λ characters. characters.items) file
            ≡ file_of self.old.desktop name.now) }
        ensures memory { IsErrOf result Error.NoMemory → D.honest self.old.disk
            → ¬ (file_of self.old.desktop name.now ≡ None) }
        ensures looks { OnlyLooks D.Disk result self.old self.new }
    {
        if self.must_reopen {
            return Err(Error::MustReopen);
        }
        self.desktop.file(alloc, name, &mut self.disk)
    }

    /// What the desktop has: an entry for each file, by rising names, and then how much was written.
    ///
    /// Errors: `MustReopen`; `NoMemory`; `Fault`.
    pub fn list(&mut self, alloc: Global) -> Result<Vec<Entry>, Error>
        ensures entries { IfOk result (λ entries. D.honest self.old.disk
            → entries.items ≡ entries_of self.old.desktop) }
        ensures unread { IfOk result (λ entries. ListsUnread self.old.kept entries.items) }
        ensures looks { OnlyLooks D.Disk result self.old self.new }
    {
        if self.must_reopen {
            return Err(Error::MustReopen);
        }
        self.desktop.list(alloc, &mut self.disk)
    }

    /// Paints what the desktop shows. After an error the screen may show anything.
    ///
    /// Errors: `MustReopen`; `NoMemory`; `Fault`.
    pub fn screen(&mut self, alloc: Global, screen: &mut Screen) -> Result<(), Error>
        ensures shown { OnOk result (D.honest self.old.disk
            → screen.new ≡ shown_screen self.old.desktop) }
        ensures looks { OnlyLooks D.Disk result self.old self.new }
    {
        if self.must_reopen {
            return Err(Error::MustReopen);
        }
        self.desktop.screen(alloc, screen, &mut self.disk)
    }

    /// What the store says of itself. While it is in use, what it shows is what every crash leaves.
    ///
    /// Error: `MustReopen`.
    pub fn info(&self) -> Result<Info, Error>
        ensures value { self.now.must_reopen ≡ false
            → result ≡ Ok
            (record {
              layout = self.now.layout;
              epoch = self.now.epoch;
              events = self.now.events;
              written = self.now.desktop.written;
            }) }
        ensures reopen { self.now.must_reopen ≡ true → result ≡ Err Error.MustReopen }
        ensures few { self.now.must_reopen ≡ false → self.now.events ≤ JOURNAL_EVENTS }
        ensures known { (FIRST_LAYOUT ≤ self.now.layout) × (self.now.layout ≤ LAYOUT) }
        ensures durable { self.now.must_reopen ≡ false → IsDurable D.Disk self.now }
    {
        if self.must_reopen {
            return Err(Error::MustReopen);
        }
        Ok(Info {
            layout: self.version.number(),
            epoch: self.epoch,
            events: self.events,
            written: self.desktop.written(),
        })
    }

    /// A law of a store in use: what it shows is what every crash leaves, and its journal is no longer than it may be.
    pub fn shows_what_crashes_leave(&self)
        ensures few { self.now.must_reopen ≡ false → self.now.events ≤ JOURNAL_EVENTS }
        ensures durable { self.now.must_reopen ≡ false → IsDurable D.Disk self.now }
        ensures quiet { self.now.must_reopen ≡ false → D.honest self.now.disk → (n : ℕ)
            → (now (D.trail self.now.disk)).pending n ≡ false }
    {
        // What every store keeps is known once a part of it is read.
        let _must_reopen = self.must_reopen;
    }

    /// The disk on which the store stands.
    pub fn disk(&self) -> &D
        ensures { result.now ≡ self.now.disk }
    {
        &self.disk
    }

    /// Hands out the disk. It writes nothing, and works after any error.
    pub fn close(self) -> D
        ensures { result ≡ self.disk }
    {
        let Store {
            disk,
            desktop: _,
            slot: _,
            version: _,
            epoch: _,
            events: _,
            must_reopen: _,
        } = self;
        disk
    }
}
