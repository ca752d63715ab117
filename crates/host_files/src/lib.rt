//! What a program asks of the host for a file that it keeps, beside reads and writes: the lock on the file, its name,
//! and that the folder of a new file is durable; and for a file of the person's that it reads.
#![tactic(auto)]

ghost use Rattle.std.specs.Prelude.{◌≡◌, ◌<◌, ◌≤◌, Ok, Err, IfOk, IfErr, IsErrOf, IsOk, OnOk, length};
ghost use Rattle.std.specs.Fs.{IsDir, IsFile, file_type, metadata_len};
ghost use Rattle.std_io.specs.IoError.{error_kind};
ghost use Rattle.host_files.specs.Faults.{fault_number, fault_of_kind, fault_of_lock};
ghost use Rattle.host_files.specs.declared.HostFault.TheVariants.{Folder as AFolder, TooLong as TooManyBytes};

mod locked_file;
mod streams;
mod texts;

pub use locked_file::LockedFile;
use std::fs::{File, Metadata, OpenOptions, TryLockError};
use std::io::{ErrorKind, Read};
use std::{env, fs, io};
pub use streams::{HeldStreams, hold_streams};
pub use texts::{
    files_in, is_folder, length_of, make_file, make_folder, read_input, read_whole, rename_over,
    sync_file,
};

/// Why the host did not do what it was asked.
#[derive(Clone, Copy, Debug, PartialEq, Eq)]
pub enum HostFault {
    /// There is no such file, or no folder where it could be.
    Missing,
    /// Another program holds a lock on the file.
    InUse,
    /// There is something of that name.
    Taken,
    /// A folder has that name.
    Folder,
    /// This program has no right to it.
    NoRight,
    /// The file system can only be read.
    ReadOnly,
    /// It is no regular file: a pipe or a device.
    Special,
    /// It has more bytes than are wanted.
    TooLong,
    /// There is no such file, and its name begins with a tilde, which stands for no folder: the environment has no HOME.
    NoHome,
    /// It refused for another reason.
    Refused,
    /// An allocation found no memory.
    NoMemory,
}

impl HostFault {
    /// Its number, from 1 on.
    pub fn number(self) -> u8
        ensures { result ≡ fault_number self }
    {
        match self {
            HostFault::Missing => 1,
            HostFault::InUse => 2,
            HostFault::Taken => 3,
            HostFault::Folder => 4,
            HostFault::NoRight => 5,
            HostFault::ReadOnly => 6,
            HostFault::Special => 7,
            HostFault::TooLong => 8,
            HostFault::NoHome => 9,
            HostFault::Refused => 10,
            HostFault::NoMemory => 11,
        }
    }
}

/// Opens the file and takes its lock for this program alone. The lock lasts as long as the file that is returned, or
/// the disk in it.
///
/// Errors: `Missing`; `InUse`; `Folder`; `NoRight` and `ReadOnly`, where the file can't be read and written; `Refused`
/// where it has no locks.
pub fn lock_alone(rt: &HostRuntime, path: &str) -> Result<LockedFile, HostFault> {
    lock(asked(OpenOptions::new().read(true).write(true).open(rt, path))?)
}

/// As `lock_alone`, but makes the file where there is none, empty. A file that is there isn't changed.
pub fn lock_or_make(rt: &HostRuntime, path: &str) -> Result<LockedFile, HostFault> {
    let file = OpenOptions::new()
        .read(true)
        .write(true)
        .create(true)
        .open(rt, path);
    lock(asked(file)?)
}

/// Makes a file, empty, and takes its lock as `lock_alone` does. What is there isn't touched, and no link is followed.
///
/// Errors: `Taken` where there is something of that name, be it a link to nothing; `Missing` where there is no folder
/// for it; `InUse`, `Refused` and `NoMemory`.
pub fn lock_new(rt: &HostRuntime, path: &str) -> Result<LockedFile, HostFault> {
    let file = OpenOptions::new()
        .read(true)
        .write(true)
        .create_new(true)
        .open(rt, path);
    lock(asked(file)?)
}

/// As `lock_alone`, but for a program that only reads: several such programs may hold the lock together. A regular file
/// that can't be written is opened all the same.
pub fn lock_shared(rt: &HostRuntime, path: &str) -> Result<LockedFile, HostFault> {
    let file = open_to_look(rt, path)?;
    locked(file.try_lock_shared())?;
    Ok(LockedFile::new(file))
}

/// Opens a file to be read and written, or a regular one to be read where it can't be written.
fn open_to_look(rt: &HostRuntime, path: &str) -> Result<File, HostFault> {
    match asked(OpenOptions::new().read(true).write(true).open(rt, path)) {
        Err(HostFault::NoRight | HostFault::ReadOnly) => open_regular(rt, path, u64::MAX),
        other => other,
    }
}

/// Takes the file's lock for this program alone.
fn lock(file: File) -> Result<LockedFile, HostFault> {
    locked(file.try_lock())?;
    Ok(LockedFile::new(file))
}

/// Takes all bytes of the file away.
pub fn empty(file: &mut LockedFile) -> Result<(), HostFault> {
    asked(file.cut())
}

/// Waits until the medium knows the file by its name, which is so when the folder that has it is synced. It fails where
/// the host refuses that.
pub fn sync_folder(rt: &HostRuntime, path: &str) -> Result<(), HostFault> {
    asked(synced_folder(rt, path))
}

/// Whether there is a file, or something else, at this path, be it a link to nothing.
pub fn is_there(rt: &HostRuntime, path: &str) -> Result<bool, HostFault> {
    match asked(fs::symlink_metadata(rt, path)) {
        Ok(_) => Ok(true),
        Err(HostFault::Missing) => Ok(false),
        Err(fault) => Err(fault),
    }
}

/// Gives the file another name, which nothing has. A lock on the file stays. On file systems without links of this kind
/// a file that gets the name at the same moment is lost.
///
/// Errors: `Taken` where there is something of that name; `Missing`, `Refused` and `NoMemory`.
pub fn rename_new(rt: &HostRuntime, from: &str, to: &str) -> Result<(), HostFault> {
    match asked(fs::hard_link(rt, from, to)) {
        Ok(()) => {
            // Where this fails the file has both names.
            let _ = fs::remove_file(rt, from);
            Ok(())
        }
        Err(HostFault::Refused | HostFault::NoRight) => rename_looked(rt, from, to),
        Err(fault) => Err(fault),
    }
}

/// The same, where nothing has the name when it is looked for.
fn rename_looked(rt: &HostRuntime, from: &str, to: &str) -> Result<(), HostFault> {
    if is_there(rt, to)? {
        return Err(HostFault::Taken);
    }
    asked(fs::rename(rt, from, to))
}

/// Takes a file away.
pub fn remove(rt: &HostRuntime, path: &str) -> Result<(), HostFault> {
    asked(fs::remove_file(rt, path))
}

/// Reads a file from its beginning, as far as the buffer has room, and returns how many bytes there were.
pub fn read_front(rt: &HostRuntime, path: &str, buffer: &mut [u8]) -> Result<usize, HostFault>
    ensures { IfOk result (λ count. count ≤ length buffer.new) }
{
    let mut file = asked(File::open(rt, path))?;
    let mut count = 0;
    for _ in 0..u64::MAX {
        if count >= buffer.len() {
            return Ok(buffer.len());
        }
        match asked(file.read(&mut buffer[count..]))? {
            0 => return Ok(count),
            more => count += more,
        }
    }
    Err(HostFault::Refused)
}

/// Opens a regular file that has so many bytes at most, to be read. Nothing else is opened: a pipe would wait for its
/// other end, and a device may have no end. (It may wait where another program puts a pipe in the file's place between
/// the look at it and its opening.)
///
/// Errors: `Missing`; `Folder`; `Special`; `TooLong` where the file has more bytes; `NoRight`; `Refused`; `NoMemory`.
pub fn open_regular(rt: &HostRuntime, path: &str, most: u64) -> Result<File, HostFault> {
    is_regular(&asked(fs::metadata(rt, path))?, most)?;
    let file = asked(File::open(rt, path))?;
    // Another file may have got the name since.
    is_regular(&asked(file.metadata())?, most)?;
    Ok(file)
}

/// Refuses what is no regular file, or has more bytes, and says which it is.
fn is_regular(file: &Metadata, most: u64) -> Result<(), HostFault>
    ensures regular { OnOk result (IsFile (file_type file.now)) }
    ensures within { OnOk result (metadata_len file.now ≤ most) }
    ensures folder { result ≡ Err AFolder → IsDir (file_type file.now) }
    ensures long { result ≡ Err TooManyBytes → most < metadata_len file.now }
{
    if file.is_dir() {
        Err(HostFault::Folder)
    } else if !file.is_file() {
        Err(HostFault::Special)
    } else if file.len() <= most {
        Ok(())
    } else {
        Err(HostFault::TooLong)
    }
}

/// The home folder of the person, as the environment has it. None where it has none, or it can't be read.
pub fn home_folder(rt: &HostRuntime) -> Option<String> {
    match env::home_dir(rt) {
        Ok(Some(path)) => Some(path.into_string()),
        _ => None,
    }
}

/// Finds the folder that has the file, through links too, and syncs it.
fn synced_folder(rt: &HostRuntime, path: &str) -> io::Result<()> {
    let path = fs::canonicalize(rt, path)?;
    match path.parent() {
        Some(folder) => File::open(rt, folder)?.sync_all(),
        None => Ok(()),
    }
}

/// What the host was asked for, or why it refused.
fn asked<T: Drop>(answer: io::Result<T>) -> Result<T, HostFault>
    ensures value { IfOk result (λ value. answer ≡ Ok value) }
    ensures done { OnOk answer (IsOk result) }
    ensures refused { IfErr answer (λ error. IsErrOf result (fault_of_kind (error_kind error))) }
{
    match answer {
        Ok(value) => Ok(value),
        Err(error) => Err(fault_of(error.kind())),
    }
}

/// The fault that an error of this kind is.
fn fault_of(kind: ErrorKind) -> HostFault
    ensures { result ≡ fault_of_kind kind }
{
    match kind {
        ErrorKind::NotFound => HostFault::Missing,
        ErrorKind::AlreadyExists => HostFault::Taken,
        ErrorKind::OutOfMemory => HostFault::NoMemory,
        ErrorKind::IsADirectory => HostFault::Folder,
        ErrorKind::PermissionDenied => HostFault::NoRight,
        ErrorKind::ReadOnlyFilesystem => HostFault::ReadOnly,
        _ => HostFault::Refused,
    }
}

/// A lock that wasn't taken is a fault.
fn locked(lock: Result<(), TryLockError>) -> Result<(), HostFault>
    ensures taken { OnOk lock (IsOk result) }
    ensures refused { IfErr lock (λ error. IsErrOf result (fault_of_lock error)) }
{
    match lock {
        Ok(()) => Ok(()),
        Err(TryLockError::WouldBlock) => Err(HostFault::InUse),
        Err(TryLockError::Error(_)) => Err(HostFault::Refused),
    }
}
