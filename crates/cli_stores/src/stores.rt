//! Stores in files and in memory.
ghost use Rattle.std.specs.Prelude.{◌≡◌, true, false, IfErr, IfOk, OnOk};
ghost use Rattle.desktop_definitions.specs.Desktop.{empty_desktop};
ghost use Rattle.desktop_definitions.specs.Step.{steps};
ghost use Rattle.starter_desktop.specs.StarterDesktop.{furnishing};
ghost use Rattle.cli_stores.specs.NewStores.{HasNoPast};
ghost use Rattle.cli_stores.specs.Refusals.{IsNotOpened};
ghost use Rattle.host_stores.specs.Found.{IsFoundIn};

use crate::trouble::Trouble;
use desk_journal::{Error, Store};
use host_files::{LockedFile, lock_shared};
use host_stores::{in_locked_file, opened_new};
use sector_disk::{Disk, FILE_SECTORS, FileDisk, HostFile, MemoryDisk};
use starter_desktop::furnish;

/// Takes the lock of a store's file for a look, beside other programs that look.
pub fn looked_at(rt: &HostRuntime, path: &str) -> Result<LockedFile, Trouble> {
    match lock_shared(rt, path) {
        Ok(lock) => Ok(lock),
        Err(fault) => Err(Trouble::Host(fault)),
    }
}

/// The store in a file that is locked, and stays so as long as there is the store.
///
/// Errors: `Store` with those of `Store::open`, and no others.
pub fn opened_locked<F: HostFile + Drop>(
    rt: &HostRuntime,
    file: F,
) -> Result<Store<FileDisk<F>>, Trouble>
    requires { F.intact file ≡ true }
    ensures usable { IfOk result (λ store. store.must_reopen ≡ false) }
    ensures ok { IfOk result (IsFoundIn F.HostFile file) }
    ensures errors { IfErr result (IsNotOpened F.HostFile file) }
{
    Ok(in_locked_file(rt, file)?)
}

/// A new store on a disk, whose desktop has a text with all commands. Its journal is empty, and so is that of the slot
/// beside it, so that nobody takes that desktop back.
pub(crate) fn new_store<D: Disk + Drop>(rt: &HostRuntime, disk: D) -> Result<Store<D>, Error>
    ensures usable { IfOk result (λ store. store.must_reopen ≡ false) }
    ensures desktop { IfOk result (λ store. D.honest disk
        → store.desktop ≡ steps empty_desktop furnishing) }
    ensures first { IfOk result (λ store. D.honest disk → HasNoPast D.Disk store) }
{
    let mut store = opened_new(rt, disk)?;
    furnish(rt.alloc(), &mut store)?;
    forget_past(&mut store)?;
    Ok(store)
}

/// Has no event of a store be taken back any more: two checkpoints, since the slot from before the first one has the events
/// that led to its desktop, until it is written over.
fn forget_past<D: Disk>(store: &mut Store<D>) -> Result<(), Error>
    ensures usable { OnOk result (store.new.must_reopen ≡ false) }
    ensures same { OnOk result (D.honest store.old.disk
        → store.new.desktop ≡ store.old.desktop) }
    ensures first { OnOk result (D.honest store.old.disk → HasNoPast D.Disk store.new) }
{
    store.checkpoint()?;
    store.checkpoint()
}

/// A new store in memory.
///
/// Error: `Memory`.
pub fn in_memory(rt: &HostRuntime) -> Result<Store<MemoryDisk>, Trouble>
    ensures usable { IfOk result (λ store. store.must_reopen ≡ false) }
    ensures desktop { IfOk result (λ store. store.desktop ≡ steps empty_desktop furnishing) }
    ensures errors { IfErr result (λ trouble. trouble ≡ Trouble.Memory) }
{
    let disk = MemoryDisk::new(rt.alloc(), FILE_SECTORS)?;
    match new_store(rt, disk) {
        Ok(store) => Ok(store),
        Err(_) => Err(Trouble::Memory),
    }
}
