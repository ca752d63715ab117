//! What a sector that was pending may hold after a crash.

ghost use Rattle.std.specs.Prelude.{◌≤◌};

use sector_disk::{Disk, MemoryDisk, SECTOR_BYTES, Sector};

/// How many fillings there are.
pub const FILLINGS: u32 = 9;

/// The heads of the slots.
const HEADS: [u32; 2] = [2, 4];

/// The bytes of an event of an earlier use.
const OLD_RECORD: &[u8] = b"\x05\x06A.Text\x00\x03old";

/// A sector that begins so, and has zeros after that.
fn beginning_with(prefix: &[u8]) -> Sector {
    let mut bytes = [0; SECTOR_BYTES as usize];
    for (byte, given) in bytes.iter_mut().zip(prefix) {
        *byte = *given;
    }
    bytes
}

/// So many bytes of one sector, and the rest of another.
fn torn(front: &Sector, rest: &Sector, at: usize) -> Sector
    requires { at ≤ SECTOR_BYTES }
{
    let mut bytes = *rest;
    for (byte, given) in bytes.iter_mut().zip(&front[..at]) {
        *byte = *given;
    }
    bytes
}

/// The head of the slot to which sector n doesn't belong.
fn other_head(n: u32) -> u32 {
    match n {
        3 | 4 | 517..=1028 | 4229..=7428 => HEADS[0],
        _ => HEADS[1],
    }
}

/// A filling of sector n, by its number: as at the last sync, as written, an open gate, an event of an earlier use, the
/// head of the other slot, as written up to the middle of a gate's word or up to the middle, as written from the middle
/// on, zeros.
pub fn filled(disk: &mut MemoryDisk, n: u32, filling: u32) -> Sector {
    let (mut old, mut new, mut head) = ([0; 1024], [0; 1024], [0; 1024]);
    let other = other_head(n);
    if n >= disk.sectors() || other >= disk.sectors() {
        return old;
    }
    disk.synced(n, &mut old);
    disk.synced(other, &mut head);
    disk.read(n, &mut new).unwrap_or(());
    match filling {
        0 => old,
        1 => new,
        2 => beginning_with(b"OPENGATE"),
        3 => beginning_with(OLD_RECORD),
        4 => head,
        5 => torn(&new, &old, 4),
        6 => torn(&new, &old, 512),
        7 => torn(&old, &new, 512),
        _ => [0; 1024],
    }
}
