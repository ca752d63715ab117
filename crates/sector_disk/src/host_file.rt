//! A file of the host: what its three calls promise.
//!
//! The promises are those of POSIX `pread`, `pwrite` and `fdatasync`: a call may move fewer bytes than it was asked to,
//! a signal may interrupt it, and what was written is on the medium only once a sync has returned.
ghost use Rattle.std.specs.Prelude.{◌≡◌, ◌<◌, ◌≤◌, ◌+◌, ℕ, Bool, true, length, take, get_or, IfOk, OnOk, OnErr, IsErrOf};
ghost use Rattle.sector_disk.specs.Trail.{Nowhere};
ghost use Rattle.sector_disk.specs.File.{unknown};
ghost use Rattle.sector_disk.specs.FileTrail.{FileTrail, current, Span, overwritten, file_synced, IsFileConfined, EndsTrail};

use std::fs::File;
use std::io;
use std::io::ErrorKind;
use std::os::unix::fs::FileExt;

/// Why the host didn't do a call.
#[derive(Clone, Copy, Debug, PartialEq, Eq)]
pub enum HostError {
    /// A signal came before anything was done (`EINTR`).
    Interrupted,

    /// Anything else.
    Refused,
}

impl From<io::Error> for HostError {
    /// Which of the two an error of the host is.
    fn from(error: io::Error) -> HostError {
        if error.kind() == ErrorKind::Interrupted {
            HostError::Interrupted
        } else {
            HostError::Refused
        }
    }
}

/// A file of the host, open to be read and written. Its calls have the names and the sense of std's `FileExt::read_at`,
/// `FileExt::write_at` and `File::sync_data`. Offsets are in bytes from the file's beginning.
///
/// A clause sees a file as bytes without end: from the file's end on each is zero. What a call promises of them stands
/// under `honest`. After a sync that was refused no call may be made, since the host may have dropped what it couldn't
/// write: a read then gives something else, and the next sync finds nothing to refuse (Linux, `fsync(2)`).
pub trait HostFile {
    /// What the bytes read as at each moment up to now, and which of them a crash then may have spoiled.
    ghost trail: { Self → FileTrail };

    /// Up to now the host kept what it was given, a crash spoils no byte but those that are pending, and nobody else
    /// wrote to the file.
    ghost honest: { Self → Type 0 };

    /// No sync of it was refused.
    ghost intact: { Self → Bool };

    /// Reads into the buffer from this offset on, and returns how many bytes it read, from the buffer's beginning on.
    /// They may be fewer than there is room for, and none where the file has ended. What the buffer holds behind them
    /// isn't said.
    ///
    /// Errors: `Interrupted`, `Refused`. The buffer may then hold anything.
    fn read_at(&mut self, buffer: &mut [u8], offset: u64) -> Result<usize, HostError>
        requires { intact self.old ≡ true }
        ensures kept { IsFileConfined honest trail Nowhere self.old self.new }
        ensures still_intact { intact self.new ≡ true }
        ensures within { IfOk result (λ n. n ≤ length buffer.new) }
        ensures bytes { IfOk result (λ n. honest self.old → (i : ℕ) → i < n
            → get_or buffer.new i 0 ≡ (current (trail self.old)).reads (offset + i)) }
        ensures ended { IfOk result (λ n. honest self.old → n ≡ 0 → 0 < length buffer.new
            → (i : ℕ) → offset ≤ i → (current (trail self.old)).reads i ≡ 0) };

    /// Writes bytes from this offset on, and returns how many it took, from their beginning on, which may be fewer than
    /// it was given. Those are pending until the next sync.
    ///
    /// Errors: `Interrupted`, and it took none; `Refused`, and any of the bytes that it was given may have been written
    /// or not, and may read as anything.
    fn write_at(&mut self, bytes: &[u8], offset: u64) -> Result<usize, HostError>
        requires { intact self.old ≡ true }
        ensures kept { IsFileConfined honest trail
            (Span offset (length bytes.now)) self.old self.new }
        ensures still_intact { intact self.new ≡ true }
        ensures within { IfOk result (λ n. n ≤ length bytes.now) }
        ensures written { IfOk result (λ n. honest self.old
            → current (trail self.new) ≡ overwritten (current (trail self.old)) offset
            (take n bytes.now)) }
        ensures interrupted { IsErrOf result HostError.Interrupted → honest self.old
            → current (trail self.new) ≡ current (trail self.old) };

    /// Settles every pending byte.
    ///
    /// After an error of either kind the trail goes no further: nothing is said of the file any more.
    fn sync_data(&mut self) -> Result<(), HostError>
        requires { intact self.old ≡ true }
        ensures kept { OnOk result (IsFileConfined honest trail Nowhere self.old self.new) }
        ensures still_intact { OnOk result (intact self.new ≡ true) }
        ensures settled { OnOk result (honest self.old
            → current (trail self.new) ≡ file_synced (current (trail self.old))) }
        ensures refused { OnErr result (EndsTrail honest trail self.old self.new) };
}

/// A file of the operating system. No clause of std says what such a file holds, so the premise `honest` is false by
/// definition: nothing is shown of its bytes. That these three calls do as the trait says is what one has to believe.
impl HostFile for File {
    ghost trail = { λ _. unknown };

    ghost honest = { λ _. ⊥ };

    ghost intact = { λ _. true };

    fn read_at(&mut self, buffer: &mut [u8], offset: u64) -> Result<usize, HostError> {
        Ok(FileExt::read_at(self, buffer, offset)?)
    }

    fn write_at(&mut self, bytes: &[u8], offset: u64) -> Result<usize, HostError> {
        Ok(FileExt::write_at(self, bytes, offset)?)
    }

    fn sync_data(&mut self) -> Result<(), HostError> {
        Ok(File::sync_data(self)?)
    }
}
