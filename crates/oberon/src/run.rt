//! What a run of the program `oberon` does: its arguments say what (`arguments`), the store's file is
//! locked (the crate `host_files`), and it is done over a store.

ghost use Rattle.std.specs.Prelude.{◌≡◌, false};
ghost use Rattle.oberon.specs.Statuses.{declined_status, error_of_host};

use crate::arguments::{Order, Refusal, order_of, words};
use host_files::{
    HostFault, LockedFile, hold_streams, lock_alone, lock_or_make, lock_shared, sync_folder,
};
use host_stores::{Disk, emptied, formatted, in_locked_file, new_in_memory, show, without_twin};
use oberon_main::{CountedReader, CountedWriter, Error, Store, check, play, refuse, status};
use screen_cells::Screen;
use script_lines::send;

/// The status where the arguments are none of the program's.
const USAGE: u8 = 2;

/// The status where the disk, the input or the output failed.
const FAULT: u8 = 4;

/// Does what the arguments of the program ask for, and returns the status: 0 when done, 2 for other arguments, 3 where
/// there is no store or a damaged one, 4 after a fault of the disk, the input or the output, and 5 for want of memory.
pub fn run(rt: &HostRuntime) -> u8 {
    // No file takes the place of a standard stream that is closed.
    match hold_streams(rt) {
        Ok(_held) => follow(rt),
        Err(fault) => refuse(&mut CountedWriter::new(rt.stderr()), &store_error(fault)),
    }
}

/// Does what the arguments ask for, where each standard stream has its place.
fn follow(rt: &HostRuntime) -> u8 {
    let words = match words(rt) {
        Ok(words) => words,
        Err(refusal) => return decline(rt, refusal),
    };
    let done = match order_of(rt.alloc(), words.as_slice()) {
        Ok(Order::PlayInMemory) => play_in_memory(rt),
        Ok(Order::Format(path)) => format_file(rt, path),
        Ok(Order::Play(path)) => play_file(rt, path),
        Ok(Order::Screen(path)) => print_file(rt, path),
        Ok(Order::Check(path)) => check_file(rt, path),
        Err(refusal) => return decline(rt, refusal),
    };
    match done {
        Ok(status) => status,
        Err(error) => refuse(&mut CountedWriter::new(rt.stderr()), &error),
    }
}

/// Says on standard error why the arguments weren't taken, and returns the status.
fn decline(rt: &HostRuntime, refusal: Refusal) -> u8
    ensures { result ≡ declined_status refusal }
{
    match refusal {
        Refusal::Memory => refuse(&mut CountedWriter::new(rt.stderr()), &Error::NoMemory),
        Refusal::Usage => {
            let _ = eprintln!(rt; "usage: oberon format|play|screen|check PATH");
            USAGE
        }
    }
}

/// Plays the script on standard input over a new store in memory.
fn play_in_memory(rt: &HostRuntime) -> Result<u8, Error> {
    Ok(play_over(rt, new_in_memory(rt)?))
}

/// Makes a new store in the file, and says so when the store and the file's name are durable.
fn format_file(rt: &HostRuntime, path: &str) -> Result<u8, Error> {
    let file = lock_or_make(rt, path).map_err(store_error)?;
    make_store(rt, file, path)
}

/// The same, in the file of that path, which is locked.
fn make_store(rt: &HostRuntime, file: LockedFile, path: &str) -> Result<u8, Error> {
    let _disk = formatted(emptied(file)?)?;
    sync_folder(rt, path).map_err(store_error)?;
    match send(&mut CountedWriter::new(rt.stdout()), b"ok\n") {
        Ok(()) => Ok(0),
        Err(_) => Ok(FAULT),
    }
}

/// What the host refuses as the store's refusals have it.
fn store_error(fault: HostFault) -> Error
    ensures { result ≡ error_of_host fault }
{
    match fault {
        HostFault::NoMemory => Error::NoMemory,
        _ => Error::Fault,
    }
}

/// Plays the script on standard input over the store in the file.
fn play_file(rt: &HostRuntime, path: &str) -> Result<u8, Error> {
    let file = lock_alone(rt, path).map_err(store_error)?;
    let (store, left_twin) = without_twin(rt, file)?;
    if left_twin {
        let _ = eprintln!(rt;
            "oberon: {path:?} has a twin, which gets nothing of this: desk --twin makes them equal again"
        );
    }
    Ok(play_over(rt, store))
}

/// Plays the script on standard input over a store.
fn play_over<D: Disk + Drop>(rt: &HostRuntime, store: Store<D>) -> u8
    requires { store.must_reopen ≡ false }
{
    let mut store = store;
    let mut reader = CountedReader::new(rt.stdin());
    let mut writer = CountedWriter::new(rt.stdout());
    status(&play(rt.alloc(), &mut reader, &mut writer, &mut store))
}

/// Prints the screen of the store in the file.
fn print_file(rt: &HostRuntime, path: &str) -> Result<u8, Error> {
    let file = lock_shared(rt, path).map_err(store_error)?;
    let mut screen = Screen::new();
    show(rt, file, &mut screen)?;
    match screen.print(&mut rt.stdout()) {
        Ok(()) => Ok(0),
        Err(_) => Ok(FAULT),
    }
}

/// Says of the store in the file that it can be used.
fn check_file(rt: &HostRuntime, path: &str) -> Result<u8, Error> {
    let file = lock_shared(rt, path).map_err(store_error)?;
    let store = in_locked_file(rt, file)?;
    Ok(status(&check(&mut CountedWriter::new(rt.stdout()), &store)))
}
