//! A file with its lock.
ghost use Rattle.std.specs.Prelude.{true};
ghost use Rattle.sector_disk.specs.File.{unknown};

use sector_disk::{HostError, HostFile};
use std::fs::File;
use std::io;

/// A file, open to be read and written, with a lock of it that lasts as long as this does. The lock is of the very handle
/// by which the file is read and written, so a disk in a `LockedFile` is locked for as long as there is one, and opened
/// after it was locked.
///
/// No clause of std says what a file holds: the premise `honest` is false by definition, as that of a `File`.
#[derive(Drop)]
pub struct LockedFile {
    file: File,
}

impl LockedFile {
    /// The file, which is locked.
    pub(crate) fn new(file: File) -> LockedFile {
        LockedFile { file }
    }

    /// Takes all bytes of the file away.
    pub(crate) fn cut(&mut self) -> io::Result<()> {
        self.file.set_len(0)
    }
}

impl HostFile for LockedFile {
    ghost trail = { λ _. unknown };

    ghost honest = { λ _. ⊥ };

    ghost intact = { λ _. true };

    fn read_at(&mut self, buffer: &mut [u8], offset: u64) -> Result<usize, HostError> {
        self.file.read_at(buffer, offset)
    }

    fn write_at(&mut self, bytes: &[u8], offset: u64) -> Result<usize, HostError> {
        self.file.write_at(bytes, offset)
    }

    fn sync_data(&mut self) -> Result<(), HostError> {
        HostFile::sync_data(&mut self.file)
    }
}
