//! Bytes of a file that are read and written whole, however few of them a call of the host moves.
ghost use Rattle.std.specs.Prelude.{◌≡◌, ◌<◌, ◌≤◌, ◌+◌, ◌^◌, true, length};
ghost use Rattle.sector_disk.specs.Trail.{Nowhere};
ghost use Rattle.sector_disk.specs.FileTrail.{current, Span, overwritten, IsFileConfined};
ghost use Rattle.sector_disk.specs.FileSectors.{bytes_from};

use crate::host_file::{HostError, HostFile};

/// Fills the buffer with the bytes from this offset on, zeros from the file's end on, and returns whether it did: false
/// where the host refused, and then the buffer may hold anything. A read that a signal interrupted is made again; one
/// that gave fewer bytes than asked is gone on with where it stopped.
pub(crate) fn read_whole<F: HostFile>(file: &mut F, buffer: &mut [u8], offset: u64) -> bool
    requires intact { F.intact file.old ≡ true }
    requires room { offset + length buffer.old < 2 ^ 64 }
    ensures kept { IsFileConfined F.honest F.trail Nowhere file.old file.new }
    ensures still_intact { F.intact file.new ≡ true }
    ensures bytes { result ≡ true → F.honest file.old
        → buffer.new ≡ bytes_from (current (F.trail file.old)).reads offset (length buffer.old) }
{
    let mut filled = 0;
    'calls: for _ in 0..u64::MAX {
        if filled >= buffer.len() {
            return true;
        }
        match file.read_at(&mut buffer[filled..], offset + filled as u64) {
            Ok(0) => {
                buffer[filled..].fill(0);
                return true;
            }
            Ok(more) => filled += more,
            Err(HostError::Interrupted) => {}
            Err(HostError::Refused) => return false,
        }
    }
    false
}

/// Writes the bytes from this offset on, and returns whether it did: false where the host refused, and then any of them
/// may be written or not. A write that a signal interrupted is made again; one that took fewer bytes than it was given
/// is gone on with where it stopped, and one that took none counts as refused.
pub(crate) fn write_whole<F: HostFile>(file: &mut F, bytes: &[u8], offset: u64) -> bool
    requires intact { F.intact file.old ≡ true }
    requires room { offset + length bytes.now < 2 ^ 64 }
    ensures kept { IsFileConfined F.honest F.trail
        (Span offset (length bytes.now)) file.old file.new }
    ensures still_intact { F.intact file.new ≡ true }
    ensures written { result ≡ true → F.honest file.old
        → current (F.trail file.new) ≡ overwritten (current (F.trail file.old)) offset bytes.now }
{
    let mut taken = 0;
    'calls: for _ in 0..u64::MAX {
        if taken >= bytes.len() {
            return true;
        }
        match file.write_at(&bytes[taken..], offset + taken as u64) {
            Ok(0) => return false,
            Ok(more) => taken += more,
            Err(HostError::Interrupted) => {} // It took none.
            Err(HostError::Refused) => return false,
        }
    }
    false
}
