//! Stores in files and in memory, as programs have them.
//!
//! A store whose file has to be locked stands in a `LockedFile`, whose lock lasts as long as the store: so a file is
//! locked before it is opened, and until the store is gone.
#![tactic(auto)]

ghost use Rattle.std.specs.Prelude.{◌≡◌, ◌<◌, ◌≤◌, ◌+◌, ◌⊎◌, IfErr, IfOk, OnOk, false, true};
ghost use Rattle.sector_disk.specs.Confined.{IsConfined};
ghost use Rattle.sector_disk.specs.Trail.{Leaves, Nowhere, now};
ghost use Rattle.desktop_definitions.specs.Desktop.{empty_desktop};
ghost use Rattle.store_layout.specs.Meaning.{Shows};
ghost use Rattle.store_layout.specs.declared.layout.TheConstants.{LAYOUT, STORE_SECTORS};
ghost use Rattle.desk_journal.specs.Errors.{OfFormat, OfOpen};
ghost use Rattle.desk_journal.specs.Opening.{IsOpened, IsNoStore};
ghost use Rattle.host_stores.specs.Found.{IsFoundIn, IsFoundOn, IsNoneIn, IsNoneOn, IsScreenOf};
ghost use Rattle.past_pages.specs.declared.parts.TheConstants.{PAST_SECTORS};
ghost use Rattle.twin_disk.specs.Flags.{IsNameless, ShowsFlag, pair_name, says_alone, says_closed};

pub use desk_journal::{Error, Store};
use host_files::{HostFault, LockedFile, empty};
use past_pages::PAST_SECTORS;
use screen_cells::Screen;
use sector_disk::{FILE_SECTORS, HostFile};
pub use sector_disk::{Disk, FileDisk, MemoryDisk};
use store_layout::showing_law;
use twin_disk::{flag_at, has_name, leave_twin};

/// The store on a disk. A disk that is refused is left as it is: it isn't formatted.
///
/// Errors: those of `Store::open`.
pub fn opened<D: Disk + Drop>(rt: &HostRuntime, disk: D) -> Result<Store<D>, Error>
    ensures usable { IfOk result (λ store. store.must_reopen ≡ false) }
    ensures ok { IfOk result (λ store. IsOpened D.Disk disk store) }
    ensures no_store { IfErr result (λ e. IsNoStore D.Disk disk e) }
    ensures errors { IfErr result OfOpen }
    ensures untouched { IfOk result (λ store. IsConfined D.size D.honest D.trail Nowhere disk
        store.disk) }
{
    match Store::open(rt.alloc(), disk) {
        Ok(store) => Ok(store),
        Err((error, _disk)) => Err(error),
    }
}

/// The disk with a new store, whose desktop is empty.
///
/// Errors: those of `Store::format`.
pub fn formatted<D: Disk + Drop>(disk: D) -> Result<D, Error>
    ensures empty { IfOk result (λ new. D.honest disk
        → Leaves (now (D.trail new)) (Shows (D.size new) LAYOUT 1 0 empty_desktop)) }
    ensures still { IfOk result (λ new. D.honest disk → D.honest new) }
    ensures errors { IfErr result OfFormat }
{
    match Store::format(disk) {
        Ok(disk) => Ok(disk),
        Err((error, _disk)) => Err(error),
    }
}

/// A new store on a disk, whose desktop is empty.
///
/// Errors: those of `Store::format` and `Store::open`.
pub fn opened_new<D: Disk + Drop>(rt: &HostRuntime, disk: D) -> Result<Store<D>, Error>
    ensures usable { IfOk result (λ store. store.must_reopen ≡ false) }
    ensures empty { IfOk result (λ store. D.honest disk → store.desktop ≡ empty_desktop) }
    ensures still { IfOk result (λ store. D.honest disk → D.honest store.disk) }
{
    showing_law();
    opened(rt, formatted(disk)?)
}

/// The store in a file, which stays locked, if it is, as long as there is the store.
///
/// Errors: those of `Store::open`.
pub fn in_locked_file<F: HostFile + Drop>(
    rt: &HostRuntime,
    file: F,
) -> Result<Store<FileDisk<F>>, Error>
    requires { F.intact file ≡ true }
    ensures usable { IfOk result (λ store. store.must_reopen ≡ false) }
    ensures ok { IfOk result (IsFoundIn F.HostFile file) }
    ensures no_store { IfErr result (IsNoneIn F.HostFile file) }
    ensures errors { IfErr result OfOpen }
    ensures still { IfOk result (λ store. F.honest file
        → ⟦<FileDisk<F> as Disk>⟧.honest store.disk) }
{
    opened(rt, FileDisk::new(file))
}

/// The same on a disk that has room for a past behind the store: 40 parts of 32,768 sectors. What the file hasn't reads as
/// zeros.
///
/// Errors: those of `Store::open`.
pub fn with_past_room<F: HostFile + Drop>(
    rt: &HostRuntime,
    file: F,
) -> Result<Store<FileDisk<F>>, Error>
    requires { F.intact file ≡ true }
    ensures usable { IfOk result (λ store. store.must_reopen ≡ false) }
    ensures ok { IfOk result (IsFoundOn F.HostFile PAST_SECTORS file) }
    ensures no_store { IfErr result (IsNoneOn F.HostFile PAST_SECTORS file) }
    ensures errors { IfErr result OfOpen }
    ensures room { IfOk result (λ store. ⟦<FileDisk<F> as Disk>⟧.size store.disk ≡ PAST_SECTORS) }
    ensures still { IfOk result (λ store. F.honest file
        → ⟦<FileDisk<F> as Disk>⟧.honest store.disk) }
{
    opened(rt, FileDisk::with_sectors(file, PAST_SECTORS))
}

/// The store in a file that is locked, which is to be written without its twin, and whether the file was in a pair: then it
/// says *alone* for good in the sector behind the store when this has returned. What opens as no store is left as it is.
/// The disk has room for a past.
///
/// Errors: those of `Store::open`.
pub fn without_twin(
    rt: &HostRuntime,
    file: LockedFile,
) -> Result<(Store<FileDisk<LockedFile>>, bool), Error>
    ensures usable { IfOk result (λ found. found.0.must_reopen ≡ false) }
    ensures room { IfOk result (λ found. ⟦<FileDisk<LockedFile> as Disk>⟧.size found.0.disk
        ≡ PAST_SECTORS) }
    ensures errors { IfErr result OfOpen }
{
    left_alone(rt, FileDisk::with_sectors(file, PAST_SECTORS), FILE_SECTORS)
}

/// The store on a leg whose flag stands in sector `at`, and whether the leg was in a pair: then it says *alone* there, for
/// good. If not, it said so before, or has no name. It doesn't say *closed* in the sector behind that.
///
/// Errors: those of `Store::open`.
pub fn left_alone<D: Disk + Drop>(
    rt: &HostRuntime,
    leg: D,
    at: u32,
) -> Result<(Store<D>, bool), Error>
    requires within { at + 1 < D.size leg }
    requires behind { STORE_SECTORS ≤ at }
    ensures usable { IfOk result (λ found. found.0.must_reopen ≡ false) }
    ensures alone { IfOk result (λ found. found.1 ≡ true → D.honest leg
        → ShowsFlag at true (now (D.trail found.0.disk))) }
    ensures stays { IfOk result (λ found. found.1 ≡ false → D.honest leg
        → (says_alone ((now (D.trail leg)).reads at) ≡ true)
        ⊎ IsNameless (pair_name ((now (D.trail leg)).reads at))) }
    ensures in_use { IfOk result (λ found. D.honest leg
        → says_closed ((now (D.trail found.0.disk)).reads (at + 1)) ≡ false) }
    ensures as_large { IfOk result (λ found. D.size found.0.disk ≡ D.size leg) }
    ensures errors { IfErr result OfOpen }
{
    let mut leg = leg;
    let flag = flag_at(&mut leg, at)?;
    if !flag.closed && (flag.alone || !has_name(&flag)) {
        return Ok((opened(rt, leg)?, false));
    }
    let mut leg = opened(rt, leg)?.close();
    let left = leave_twin(&mut leg, at)?;
    Ok((opened(rt, leg)?, left))
}

/// A disk of zeros in a file that is locked, of which nothing is left. Nothing is synced.
///
/// Error: `Fault` where the host refuses that, as for want of room; the file may then have any number of its sectors.
pub fn emptied(file: LockedFile) -> Result<FileDisk<LockedFile>, Error> {
    let mut file = file;
    match empty(&mut file) {
        Ok(()) => Ok(FileDisk::new(file).zeroed()?),
        Err(HostFault::NoMemory) => Err(Error::NoMemory),
        Err(_) => Err(Error::Fault),
    }
}

/// A new store in memory, on as many sectors as one in a file has.
///
/// Errors: `NoMemory`.
pub fn new_in_memory(rt: &HostRuntime) -> Result<Store<MemoryDisk>, Error>
    ensures usable { IfOk result (λ store. store.must_reopen ≡ false) }
    ensures empty { IfOk result (λ store. store.desktop ≡ empty_desktop) }
{
    opened_new(rt, MemoryDisk::new(rt.alloc(), FILE_SECTORS)?)
}

/// Paints the screen of the store in a file.
///
/// Errors: those of `in_locked_file` and `Store::screen`.
pub fn show<F: HostFile + Drop>(rt: &HostRuntime, file: F, screen: &mut Screen) -> Result<(), Error>
    requires { F.intact file ≡ true }
    ensures shown { OnOk result (IsScreenOf F.HostFile file screen.new) }
{
    let mut store = in_locked_file(rt, file)?;
    store.screen(rt.alloc(), screen)
}
