//! Whether a slot starts from a desktop: whether its head, its image and the characters in its area are those that a
//! checkpoint of the desktop writes. Nothing is written.
ghost use Rattle.std.specs.Prelude.{◌≡◌, ◌+◌, ◌*◌, ◌/◌, ◌<◌, ◌≤◌, ◌++◌, ◌∷◌, [], true, ℕ, List, Some, length, take, drop, OnOk, IfOk};
ghost use Rattle.sector_disk.specs.Stored.{stored};
ghost use Rattle.store_layout.specs.Draining.{IsOnDisk, IsSectorLoaded, bytes_left, extent_of, start_sector};
ghost use Rattle.command_table.specs.Versions.{newest_version};
ghost use Rattle.image_format.specs.Image.{image_of, image_bytes, IsSpellable};
ghost use Rattle.image_format.specs.Passing.{IsNext};
ghost use Rattle.store_layout.specs.Layout.{area_at, head as head_at, image_at, IsGoodHead};
ghost use Rattle.store_layout.specs.Meaning.{HasImage, left_over};
ghost use Rattle.store_layout.specs.Kept.{HasFront};
ghost use Rattle.store_slots.specs.Comparing.{HasAgreed};
ghost use Rattle.store_slots.specs.Live.{seen_live, IsLive};
ghost use Rattle.store_slots.specs.Words.{Content, Nowhere, CountsFault, now, IsConfined};
ghost use Rattle.store_slots.specs.Written.{HasSlot};

use crate::live::LiveDesktop;
use image_format::{ByteSink, ByteSource, IMAGE_BYTES, images_have_room};
use sector_disk::{Disk, Fault, SECTOR_BYTES, Sector};
use store_layout::{
    AREA_SECTORS, AREAS, Draining, Head, LAYOUT, SLOTS, STORE_SECTORS, SectorSource, area_at,
    image_at,
};

/// The next byte that is read out of sectors; None at the end.
fn next_of<D: Disk>(disk: &mut D, draining: &mut Draining) -> Result<Option<u8>, Fault>
    requires { IsOnDisk (D.size disk.old) draining.old }
    ensures kept { IsConfined D.size D.honest D.trail Nowhere disk.old disk.new }
    ensures cause { CountsFault result (D.failures disk.old) (D.failures disk.new) }
    ensures from { start_sector draining.new ≡ start_sector draining.old }
    ensures extent { extent_of draining.new ≡ extent_of draining.old }
    ensures loaded { D.honest disk.old → IsSectorLoaded (now (D.trail disk.old)).reads draining.old
        → IsSectorLoaded (now (D.trail disk.new)).reads draining.new }
    ensures next { D.honest disk.old → IsSectorLoaded (now (D.trail disk.old)).reads draining.old
        → IfOk result (λ byte. IsNext byte (bytes_left (now (D.trail disk.old)).reads draining.old)
        (bytes_left (now (D.trail disk.new)).reads draining.new)) }
{
    let mut source = SectorSource::over(disk, draining);
    source.get()
}

/// Whether this byte was found.
fn is_byte(found: Option<u8>, byte: u8) -> bool
    ensures { result ≡ true → found ≡ Some byte }
{
    match found {
        Some(other) => other == byte,
        None => false,
    }
}

/// Bytes that are compared with those that stand in sectors, as they come.
#[derive(Drop)]
pub struct Comparing {
    draining: Draining,
    /// None of those that came so far is another than the one that stands there.
    same: bool,
}

impl Comparing {
    /// No byte has come yet, and so many stand from that sector on.
    fn new(from: u32, extent: u32) -> Comparing
        requires { from + extent < 4_294_967_296 }
        ensures from { start_sector result.draining ≡ from }
        ensures extent { extent_of result.draining ≡ extent }
        ensures agreed { (c : Content) → HasAgreed c result [] }
    {
        Comparing {
            draining: Draining::new(from, extent),
            same: true,
        }
    }

    /// One byte comes.
    fn take<D: Disk>(&mut self, disk: &mut D, byte: u8) -> Result<(), Fault>
        requires { IsOnDisk (D.size disk.old) self.old.draining }
        ensures kept { IsConfined D.size D.honest D.trail Nowhere disk.old disk.new }
        ensures cause { CountsFault result (D.failures disk.old) (D.failures disk.new) }
        ensures from { start_sector self.new.draining ≡ start_sector self.old.draining }
        ensures extent { extent_of self.new.draining ≡ extent_of self.old.draining }
        ensures agreed { OnOk result (D.honest disk.old → (bytes : List ℕ)
            → HasAgreed (now (D.trail disk.old)).reads self.old bytes
            → HasAgreed (now (D.trail disk.new)).reads self.new (bytes ++ byte ∷ [])) }
    {
        let found = next_of(disk, &mut self.draining)?;
        let here = is_byte(found, byte);
        self.same = self.same && here;
        Ok(())
    }

    /// These bytes come.
    fn put_over<D: Disk>(&mut self, disk: &mut D, bytes: &[u8]) -> Result<(), Fault>
        requires { IsOnDisk (D.size disk.old) self.old.draining }
        ensures kept { IsConfined D.size D.honest D.trail Nowhere disk.old disk.new }
        ensures cause { CountsFault result (D.failures disk.old) (D.failures disk.new) }
        ensures from { start_sector self.new.draining ≡ start_sector self.old.draining }
        ensures extent { extent_of self.new.draining ≡ extent_of self.old.draining }
        ensures agreed { OnOk result (D.honest disk.old → (before : List ℕ)
            → HasAgreed (now (D.trail disk.old)).reads self.old before
            → HasAgreed (now (D.trail disk.new)).reads self.new (before ++ bytes.now)) }
    {
        for i in 0..bytes.len() {
            self.take(disk, bytes[i])?;
        }
        Ok(())
    }
}

/// Bytes on their way to be compared with sectors of a disk, for the time of a call. It borrows the disk and the
/// comparison, and leaves both as its last call left them.
#[derive(Drop)]
struct ComparingSink<'a, D: Disk> {
    disk: &'a mut D,
    comparing: &'a mut Comparing,
    ghost on_disk: { IsOnDisk (D.size disk.now) comparing.now.draining },
}

impl<'a, D: Disk> ComparingSink<'a, D> {
    /// A sink that goes on where the comparison stands.
    fn over(disk: &'a mut D, comparing: &'a mut Comparing) -> Self
        requires { IsOnDisk (D.size disk.old) comparing.old.draining }
        ensures disk { result.disk ≡ disk.entry }
        ensures comparing { result.comparing ≡ comparing.entry }
    {
        ComparingSink { disk, comparing }
    }
}

impl<'a, D: Disk> ByteSink for ComparingSink<'a, D> {
    ghost use Rattle.sector_disk.specs.Trail.{now};
    ghost use Rattle.store_layout.specs.Draining.{OnSameBytes};
    ghost use Rattle.store_layout.specs.JoinedLaws.{stretch_self, stretch_through};
    ghost use Rattle.store_slots.specs.Comparing.{HasAgreed};

    ghost has_put = { λ s bytes. D.honest s.disk.now → HasAgreed (now (D.trail s.disk.now)).reads s.comparing.now bytes };

    ghost failures = { λ s. D.Disk.failures s.disk.now };

    ghost same_ground = { λ a b. OnSameBytes D.Disk a.disk.now b.disk.now a.comparing.now.draining b.comparing.now.draining
        a.disk.ghost_name b.disk.ghost_name a.comparing.ghost_name b.comparing.ghost_name };

    ghost ground_self = { λ s. stretch_self };

    ghost ground_through = { λ a b c ab bc. stretch_through ab bc };

    /// Compares the bytes. `Fault`: the disk failed in this call.
    fn put(&mut self, bytes: &[u8]) -> Result<(), Fault> {
        self.comparing.put_over(self.disk, bytes)
    }
}

/// Compares these characters and then the image of the desktop with the bytes that come next, and returns how many bytes
/// the image has.
fn compare_through<D: Disk>(
    disk: &mut D,
    comparing: &mut Comparing,
    tail: &[u8],
    desktop: &LiveDesktop,
) -> Result<u32, Fault>
    requires room { IsOnDisk (D.size disk.old) comparing.old.draining }
    requires live { IsLive desktop.now }
    ensures kept { IsConfined D.size D.honest D.trail Nowhere disk.old disk.new }
    ensures cause { CountsFault result (D.failures disk.old) (D.failures disk.new) }
    ensures from { start_sector comparing.new.draining ≡ start_sector comparing.old.draining }
    ensures extent { extent_of comparing.new.draining ≡ extent_of comparing.old.draining }
    ensures spelled { IfOk result (λ n. IsSpellable newest_version desktop.now.desktop
        × (n ≡ length (image_bytes newest_version (image_of desktop.now.desktop)))) }
    ensures agreed { OnOk result (D.honest disk.old → (before : List ℕ)
        → HasAgreed (now (D.trail disk.old)).reads comparing.old before
        → HasAgreed (now (D.trail disk.new)).reads comparing.new
        (before ++ (tail.now ++ image_bytes newest_version (image_of desktop.now.desktop)))) }
{
    let mut sink = ComparingSink::over(disk, comparing);
    desktop.put_image(tail, &mut sink)
}

/// Whether these characters and then the image of the desktop are the bytes of a slot's image, so many.
fn has_image<D: Disk>(
    disk: &mut D,
    tail: &[u8],
    desktop: &LiveDesktop,
    slot: u32,
    extent: u32,
) -> Result<bool, Fault>
    requires at { HasSlot (D.size disk.old) slot }
    requires fits { extent ≤ IMAGE_BYTES }
    requires tail { length tail.now ≡ left_over desktop.now.desktop.written }
    requires live { IsLive desktop.now }
    ensures kept { IsConfined D.size D.honest D.trail Nowhere disk.old disk.new }
    ensures cause { CountsFault result (D.failures disk.old) (D.failures disk.new) }
    ensures stored { IfOk result (λ same. IsSpellable newest_version desktop.now.desktop
        × (same ≡ true → D.honest disk.old
        → stored (now (D.trail disk.old)).reads (image_at slot) extent
        ≡ tail.now ++ image_bytes newest_version (image_of desktop.now.desktop))) }
{
    images_have_room();
    let mut comparing = Comparing::new(image_at(slot), extent);
    let length = compare_through(disk, &mut comparing, tail, desktop)?;
    Ok(comparing.same && tail.len() as u32 + length == extent)
}

/// Whether a sector has these bytes, and no others.
fn is_same(sector: &Sector, bytes: &[u8]) -> bool
    ensures { result ≡ true → sector.now ≡ bytes.now }
{
    sector.as_slice() == bytes
}

/// Whether a sector of an area has sector i of the characters after those that stand in the area already.
fn has_sector<D: Disk>(
    disk: &mut D,
    rest: &[u8],
    area: u32,
    saved: u32,
    i: u32,
) -> Result<bool, Fault>
    requires room { STORE_SECTORS ≤ D.size disk.old }
    requires low { area < AREAS }
    requires full { SECTOR_BYTES * (i + 1) ≤ length rest.now }
    requires few { SECTOR_BYTES * saved + length rest.now ≤ SECTOR_BYTES * AREA_SECTORS }
    ensures kept { IsConfined D.size D.honest D.trail Nowhere disk.old disk.new }
    ensures cause { CountsFault result (D.failures disk.old) (D.failures disk.new) }
    ensures same { IfOk result (λ same. same ≡ true → D.honest disk.old
        → (now (D.trail disk.old)).reads (area_at area (saved + i))
        ≡ take SECTOR_BYTES (drop (SECTOR_BYTES * i) rest.now)) }
{
    let width = SECTOR_BYTES as usize;
    let start = width * i as usize;
    let mut sector = [0; SECTOR_BYTES as usize];
    disk.read(area_at(area, saved + i), &mut sector)?;
    Ok(is_same(&sector, &rest[start..start + width]))
}

/// Whether these characters stand in an area after those that stand there already, as far as they fill sectors.
fn has_characters<D: Disk>(disk: &mut D, rest: &[u8], area: u32, saved: u32) -> Result<bool, Fault>
    requires room { STORE_SECTORS ≤ D.size disk.old }
    requires low { area < AREAS }
    requires few { SECTOR_BYTES * saved + length rest.now ≤ SECTOR_BYTES * AREA_SECTORS }
    ensures kept { IsConfined D.size D.honest D.trail Nowhere disk.old disk.new }
    ensures cause { CountsFault result (D.failures disk.old) (D.failures disk.new) }
    ensures front { IfOk result (λ same. same ≡ true → D.honest disk.old → (front : List ℕ)
        → length front ≡ SECTOR_BYTES * saved
        → HasFront (now (D.trail disk.old)).reads area saved (front ++ rest.now)
        → HasFront (now (D.trail disk.old)).reads area (saved + length rest.now / SECTOR_BYTES)
        (front ++ rest.now)) }
{
    let full = rest.len() as u32 / SECTOR_BYTES;
    for i in 0..full {
        if !has_sector(disk, rest, area, saved, i)? {
            return Ok(false);
        }
    }
    Ok(true)
}

/// Whether a slot of this head starts from the desktop, byte by byte: what stands in it is what a checkpoint of the
/// desktop writes there.
pub fn starts_from<D: Disk>(
    disk: &mut D,
    slot: u32,
    head: &Head,
    desktop: &LiveDesktop,
) -> Result<bool, Fault>
    requires at { HasSlot (D.size disk.old) slot }
    requires good { IsGoodHead head.now }
    requires live { IsLive desktop.now }
    ensures kept { IsConfined D.size D.honest D.trail Nowhere disk.old disk.new }
    ensures cause { CountsFault result (D.failures disk.old) (D.failures disk.new) }
    ensures newest { IfOk result (λ same. same ≡ true → head.now.version ≡ LAYOUT) }
    ensures starts { IfOk result (λ same. same ≡ true → D.honest disk.old
        → head_at (now (D.trail disk.old)).reads slot ≡ head.now
        → HasImage (now (D.trail disk.old)).reads slot (seen_live (now (D.trail disk.old)).reads
        desktop.now)) }
{
    let written = desktop.written();
    let area = desktop.next_area();
    if head.version != LAYOUT || head.written != written || head.area != area {
        return Ok(false);
    }
    let rest = desktop.rest();
    let width = SECTOR_BYTES as usize;
    let full = rest.len() / width * width;
    if !has_characters(disk, rest, area, desktop.saved())? {
        return Ok(false);
    }
    has_image(disk, &rest[full..], desktop, slot, head.extent)
}
