//! Bytes of sectors, which a cache keeps for a while.
ghost use Rattle.std.specs.Prelude.{◌≡◌, ◌<◌, ◌≤◌, ◌+◌, get_or, length, IfOk, IfSome};
ghost use Rattle.sector_disk.specs.declared.disk.TheConstants.{SECTOR_BYTES};
ghost use Rattle.sector_disk.specs.Trail.{Content, CountsFault, Nowhere, now};
ghost use Rattle.sector_disk.specs.Confined.{IsConfined};
ghost use Rattle.char_pages.specs.Cached.{AreTrue, AddsNone, AddsSector, LooksUp, IsCountIn, TellsSector};

use crate::part::Part;
use char_file::count_range;
use lru::LruCache;
use sector_disk::{Disk, Fault, SECTOR_BYTES, Sector};

/// Sectors, each under its number.
pub(crate) type Cache = LruCache<u32, Sector>;

/// Byte `at` of sector n, if that is the sector that was asked for last. It looks nothing up and moves nothing.
fn newest(cache: &Cache, n: u32, at: usize) -> Option<u8>
    requires { at < SECTOR_BYTES }
    ensures { IfSome result (λ byte. (c : Content) → AreTrue c cache.now.entries
        → byte ≡ get_or (c n) at 0) }
{
    if let Some((number, sector)) = cache.peek_mru() {
        if *number == n {
            return Some(sector[at]);
        }
    }
    None
}

/// The bytes of a sector, copied.
fn copied(sector: &Sector) -> Sector
    ensures same { result ≡ sector.now }
    ensures whole { length result ≡ SECTOR_BYTES }
{
    *sector
}

/// The bytes of sector n. A sector that the cache doesn't hold is read from the disk and put into it. Where there is no
/// memory to put it there, it is returned all the same.
pub(crate) fn sector_of<D: Disk>(disk: &mut D, cache: &mut Cache, n: u32) -> Result<Sector, Fault>
    requires { n < D.size disk.old }
    ensures value { IfOk result (λ sector. D.honest disk.old
        → AreTrue (now (D.trail disk.old)).reads cache.old.entries
        → sector ≡ (now (D.trail disk.old)).reads n) }
    ensures whole { IfOk result (λ sector. length sector ≡ SECTOR_BYTES) }
    ensures cached { AddsSector (D.honest disk.old)
        (now (D.trail disk.old)).reads n cache.old.entries
        cache.new.entries }
    ensures capacity { cache.new.cap ≡ cache.old.cap }
    ensures kept { IsConfined D.size D.honest D.trail Nowhere disk.old disk.new }
    ensures cause { CountsFault result (D.failures disk.old) (D.failures disk.new) }
{
    if let Some(sector) = cache.peek(&n) {
        let sector = copied(sector);
        cache.promote(&n);
        return Ok(sector);
    }
    let mut sector = [0; SECTOR_BYTES as usize];
    disk.read(n, &mut sector)?;
    let _ = cache.put(n, sector);
    Ok(sector)
}

/// Byte `at` of sector n, if the cache holds that sector, which then is the one that was asked for last. No byte is
/// copied.
fn held(cache: &mut Cache, n: u32, at: usize) -> Option<u8>
    requires { at < SECTOR_BYTES }
    ensures value { IfSome result (λ byte. (c : Content) → AreTrue c cache.old.entries
        → byte ≡ get_or (c n) at 0) }
    ensures cached { AddsNone cache.old.entries cache.new.entries }
    ensures capacity { cache.new.cap ≡ cache.old.cap }
{
    cache.promote(&n);
    newest(cache, n, at)
}

/// Byte `at` of sector n, which isn't in the cache.
#[inline(never)]
fn read_in<D: Disk>(disk: &mut D, cache: &mut Cache, n: u32, at: usize) -> Result<u8, Fault>
    requires there { n < D.size disk.old }
    requires within { at < SECTOR_BYTES }
    ensures value { TellsSector D.Disk n (λ sector byte. byte
        ≡ get_or sector at 0) result disk.old cache.old }
    ensures looked { LooksUp D.Disk n result disk.old disk.new cache.old cache.new }
{
    let sector = sector_of(disk, cache, n)?;
    Ok(sector[at])
}

/// Byte `at` of sector n, which mostly isn't the one that was asked for last. It is compiled apart, so that a byte of the
/// newest sector takes no room for a sector on the stack.
#[inline(never)]
fn looked_up<D: Disk>(disk: &mut D, cache: &mut Cache, n: u32, at: usize) -> Result<u8, Fault>
    requires there { n < D.size disk.old }
    requires within { at < SECTOR_BYTES }
    ensures value { TellsSector D.Disk n (λ sector byte. byte
        ≡ get_or sector at 0) result disk.old cache.old }
    ensures looked { LooksUp D.Disk n result disk.old disk.new cache.old cache.new }
{
    match held(cache, n, at) {
        Some(byte) => Ok(byte),
        None => read_in(disk, cache, n, at),
    }
}

/// Byte `at` of sector n. A sector that the cache doesn't hold is read from the disk and put into it. Where there is no
/// memory to put it there, the byte is returned all the same.
pub(crate) fn byte_of<D: Disk>(
    disk: &mut D,
    cache: &mut Cache,
    n: u32,
    at: usize,
) -> Result<u8, Fault>
    requires there { n < D.size disk.old }
    requires within { at < SECTOR_BYTES }
    ensures value { TellsSector D.Disk n (λ sector byte. byte
        ≡ get_or sector at 0) result disk.old cache.old }
    ensures looked { LooksUp D.Disk n result disk.old disk.new cache.old cache.new }
{
    match newest(cache, n, at) {
        Some(byte) => Ok(byte),
        None => looked_up(disk, cache, n, at),
    }
}

/// How many bytes of a part of a sector are the wanted byte.
pub(crate) fn count_in(sector: &Sector, part: Part) -> u32
    ensures count { IsCountIn sector.now part result }
    ensures most { result ≤ part.few }
{
    count_range(sector, part.at as usize, part.few, part.wanted)
}
