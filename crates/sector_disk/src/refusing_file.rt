//! Files that refuse a sync, for tests of what stands above a file.
ghost use Rattle.std.specs.Prelude.{◌≡◌, if◌then◌else◌, false};

use crate::host_file::{HostError, HostFile};

/// A file over another one, of which one sync is refused, counted from 0. It passes every other call on. As a host that
/// has dropped what it couldn't write, it would say of each later sync that it is done; but none may be asked for.
#[derive(Drop)]
pub struct RefusingFile<F: HostFile> {
    file: F,

    /// How many syncs are done before the one that is refused.
    ahead: u64,
    refused: bool,
}

impl<F: HostFile> RefusingFile<F> {
    /// A file over this one that does so many syncs, and refuses the next one.
    pub fn new(file: F, syncs: u64) -> RefusingFile<F>
        ensures trail { ⟦<RefusingFile<F> as HostFile>⟧.trail result ≡ F.trail file }
        ensures intact { ⟦<RefusingFile<F> as HostFile>⟧.intact result ≡ F.intact file }
    {
        RefusingFile {
            file,
            ahead: syncs,
            refused: false,
        }
    }
}

impl<F: HostFile> HostFile for RefusingFile<F> {
    ghost trail = { λ f. F.HostFile.trail f.file };

    ghost honest = { λ f. F.HostFile.honest f.file };

    ghost intact = { λ f. if f.refused then false else F.HostFile.intact f.file };

    fn read_at(&mut self, buffer: &mut [u8], offset: u64) -> Result<usize, HostError> {
        self.file.read_at(buffer, offset)
    }

    fn write_at(&mut self, bytes: &[u8], offset: u64) -> Result<usize, HostError> {
        self.file.write_at(bytes, offset)
    }

    fn sync_data(&mut self) -> Result<(), HostError> {
        if self.refused {
            return Ok(());
        }
        if self.ahead == 0 {
            self.refused = true;
            return Err(HostError::Refused);
        }
        self.ahead -= 1;
        self.file.sync_data()
    }
}
