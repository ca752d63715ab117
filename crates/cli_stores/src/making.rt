//! The file of a new store.
ghost use Rattle.std.specs.Prelude.{◌≡◌, false, IfErr, IfOk};
ghost use Rattle.cli_stores.specs.Refusals.{OfMaking};

use crate::stores::new_store;
use crate::trouble::Trouble;
use desk_journal::{Error, Store};
use host_files::{HostFault, LockedFile, is_there, lock_new, remove, rename_new, sync_folder};
use host_stores::emptied;
use sector_disk::FileDisk;

/// How many names are tried for the file that is to become a store.
const MOST_NAMES: u8 = 9;

/// A file that this program has made and locked.
#[derive(Drop)]
pub struct NewFile {
    pub name: String,
    pub file: LockedFile,
}

/// Makes the file that is to become the store `path`, in the same folder, under a name that nothing has: that of the
/// store with `.new` behind it, or with `.new2` to `.new9`. So what is there of anybody's stays.
pub fn new_file(rt: &HostRuntime, path: &str) -> Result<NewFile, Trouble> {
    for number in 1..=MOST_NAMES {
        let name = name_of(rt, path, number)?;
        match lock_new(rt, name.as_str()) {
            Ok(file) => return Ok(NewFile { name, file }),
            Err(HostFault::Taken) => {}
            Err(fault) => return Err(Trouble::Making(fault)),
        }
    }
    Err(Trouble::Making(HostFault::Taken))
}

/// The name that is tried so many times.
fn name_of(rt: &HostRuntime, path: &str, number: u8) -> Result<String, Trouble> {
    if number == 1 {
        Ok(format!(in rt.alloc(); "{path}.new")?)
    } else {
        Ok(format!(in rt.alloc(); "{path}.new{number}")?)
    }
}

/// Makes a store in the new file, and gives it the name `path`. Where that fails the file is taken away, and what has the
/// name `path` by then stays. The store is durable under its name when this has returned it, and locked as long as it
/// lasts.
///
/// Errors: `JustMade`, `Making`, `Unsynced`, `Memory`.
pub fn make(
    rt: &HostRuntime,
    made: NewFile,
    path: &str,
) -> Result<Store<FileDisk<LockedFile>>, Trouble>
    ensures usable { IfOk result (λ store. store.must_reopen ≡ false) }
    ensures errors { IfErr result OfMaking }
{
    let NewFile { name, file } = made;
    let store = made_store(rt, name.as_str(), file, path);
    if store.is_err() {
        let _ = remove(rt, name.as_str());
    }
    store
}

/// The same in the file of the name `made`, but where it fails this may stay.
fn made_store(
    rt: &HostRuntime,
    made: &str,
    file: LockedFile,
    path: &str,
) -> Result<Store<FileDisk<LockedFile>>, Trouble>
    ensures usable { IfOk result (λ store. store.must_reopen ≡ false) }
    ensures errors { IfErr result OfMaking }
{
    look_for_another(rt, path)?;
    let store = store_in(rt, file)?;
    give_name(rt, made, path)?;
    Ok(store)
}

/// Where there is a file `path` by now, another program has made it since.
fn look_for_another(rt: &HostRuntime, path: &str) -> Result<(), Trouble>
    ensures { IfErr result OfMaking }
{
    match is_there(rt, path) {
        Ok(false) => Ok(()),
        Ok(true) => Err(Trouble::JustMade),
        Err(fault) => Err(Trouble::Making(fault)),
    }
}

/// A new store in a file of which nothing is left.
fn store_in(rt: &HostRuntime, file: LockedFile) -> Result<Store<FileDisk<LockedFile>>, Trouble>
    ensures usable { IfOk result (λ store. store.must_reopen ≡ false) }
    ensures errors { IfErr result OfMaking }
{
    let Ok(disk) = emptied(file) else {
        return Err(Trouble::Making(HostFault::Refused));
    };
    match new_store(rt, disk) {
        Ok(store) => Ok(store),
        Err(Error::NoMemory) => Err(Trouble::Memory),
        Err(_) => Err(Trouble::Making(HostFault::Refused)),
    }
}

/// Gives the file `made` the name `path`, where nothing has it, and waits until that is durable.
pub fn give_name(rt: &HostRuntime, made: &str, path: &str) -> Result<(), Trouble>
    ensures { IfErr result OfMaking }
{
    match rename_new(rt, made, path) {
        Ok(()) => {}
        Err(HostFault::Taken) => return Err(Trouble::JustMade),
        Err(fault) => return Err(Trouble::Making(fault)),
    }
    match sync_folder(rt, path) {
        Ok(()) => Ok(()),
        Err(_) => Err(Trouble::Unsynced),
    }
}
