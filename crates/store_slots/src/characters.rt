//! Loading what a slot starts from: its desktop, and the characters that its image has. Those of the area stay on the
//! disk. Nothing is written.
ghost use Rattle.std.specs.Prelude.{◌≡◌, ◌+◌, ◌*◌, ◌<◌, ◌≤◌, ◌++◌, ◌∷◌, [], ℕ, OnOk, IfOk, IsErrOf, length, take, drop};
ghost use Rattle.sector_disk.specs.Trail.{Content};
ghost use Rattle.sector_disk.specs.Stored.{stored};
ghost use Rattle.store_layout.specs.Draining.{IsSectorLoaded, IsOnDisk, bytes_left};
ghost use Rattle.command_table.specs.Versions.{version_number};
ghost use Rattle.desktop_definitions.specs.Desktop.{Desktop as ADesktop};
ghost use Rattle.desktop_definitions.specs.Sound.{IsKeptWhole};
ghost use Rattle.image_format.specs.Passing.{OnlyGets};
ghost use Rattle.image_format.specs.Streams.{IsImageFault};
ghost use Rattle.store_layout.specs.Layout.{head as head_at, image_at, IsGoodHead};
ghost use Rattle.store_layout.specs.Meaning.{HasImage, area_bytes, full_sectors, left_over};
ghost use Rattle.store_slots.specs.Errors.{OfReplay};
ghost use Rattle.store_slots.specs.Live.{live_characters, seen_live, HasEmptyCache, IsLive, IsLiveOn, StandsUnder};
ghost use Rattle.store_slots.specs.Load.{image_error, IsHeadOf, IsStart, HasNoStart};
ghost use Rattle.store_slots.specs.Words.{Nowhere, now, IsConfined, FailsAs};
ghost use Rattle.store_slots.specs.Written.{HasSlot};

use crate::Error;
use crate::live::LiveDesktop;
use char_pages::Pages;
use event_loop::{Desktop, Version};
use image_format::{ByteSource, ImageFault};
use sector_disk::{Disk, SECTOR_BYTES, Sector};
use std::alloc::{AllocError as NoMemory, Global};
use store_layout::{
    AREAS, Draining, Head, SLOTS, STORE_SECTORS, SectorSource, area_start, image_at,
};

/// Why a store isn't opened, where its image isn't read: it is damaged at the image's first sector, or for the same
/// reason.
fn error_of(fault: ImageFault, slot: u32) -> Error
    requires { slot < SLOTS }
    ensures { result ≡ image_error slot fault }
{
    match fault {
        ImageFault::Damaged => Error::Damaged(image_at(slot)),
        ImageFault::Fault => Error::Fault,
        ImageFault::NoMemory => Error::NoMemory,
    }
}

/// The next byte, of which there must be one.
fn next_byte<S: ByteSource>(source: &mut S) -> Result<u8, ImageFault>
    ensures next { IfOk result (λ byte. S.honest source.old → S.remaining source.old
        ≡ byte ∷ S.remaining source.new) }
    ensures damaged { IsErrOf result ImageFault.Damaged → S.honest source.old
        → S.remaining source.old ≡ [] }
    ensures only { OnlyGets S.honest S.same_ground source.old source.new }
    ensures faults { FailsAs ImageFault.Fault IsImageFault result (S.failures source.old)
        (S.failures source.new) }
{
    match source.get()? {
        Some(byte) => Ok(byte),
        None => Err(ImageFault::Damaged),
    }
}

/// Reads so many bytes from the source, fewer than a sector has, to the front of a sector.
fn read_tail<S: ByteSource>(
    source: &mut S,
    count: usize,
    tail: &mut Sector,
) -> Result<(), ImageFault>
    requires { count < SECTOR_BYTES }
    ensures tail { OnOk result
        (S.honest source.old → take count tail.new ≡ take count (S.remaining source.old)) }
    ensures rest { OnOk result (S.honest source.old → S.remaining source.new
        ≡ drop count (S.remaining source.old)) }
    ensures enough { OnOk result (S.honest source.old → count ≤ length (S.remaining source.old)) }
    ensures damaged { IsErrOf result ImageFault.Damaged → S.honest source.old
        → length (S.remaining source.old) < count }
    ensures only { OnlyGets S.honest S.same_ground source.old source.new }
    ensures faults { FailsAs ImageFault.Fault IsImageFault result (S.failures source.old)
        (S.failures source.new) }
{
    for i in 0..count {
        let byte = next_byte(source)?;
        tail[i] = byte;
    }
    Ok(())
}

/// Reads the characters at the front of an image, and then its desktop.
fn read_image<S: ByteSource>(
    alloc: Global,
    source: &mut S,
    version: Version,
    written: u32,
    tail: &mut Sector,
) -> Result<Desktop, ImageFault>
    ensures start { IfOk result
        (IsStart (S.honest source.old) (S.remaining source.old) (version_number version) written
        tail.new) }
    ensures damaged { IsErrOf result ImageFault.Damaged → S.honest source.old
        → HasNoStart (S.remaining source.old) (version_number version) written }
    ensures only { OnlyGets S.honest S.same_ground source.old source.new }
    ensures faults { FailsAs ImageFault.Fault IsImageFault result (S.failures source.old)
        (S.failures source.new) }
{
    read_tail(source, (written % SECTOR_BYTES) as usize, tail)?;
    Desktop::from_image(alloc, version, source, written)
}

/// Reads an image through its sectors, from where the draining stands.
fn read_through<D: Disk>(
    alloc: Global,
    disk: &mut D,
    draining: &mut Draining,
    version: Version,
    written: u32,
    tail: &mut Sector,
) -> Result<Desktop, ImageFault>
    requires there { IsOnDisk (D.size disk.old) draining.old }
    requires loaded { IsSectorLoaded (now (D.trail disk.old)).reads draining.old }
    ensures kept { IsConfined D.size D.honest D.trail Nowhere disk.old disk.new }
    ensures faults { FailsAs ImageFault.Fault IsImageFault result (D.failures disk.old)
        (D.failures disk.new) }
    ensures start { IfOk result (IsStart (D.honest disk.old)
        (bytes_left (now (D.trail disk.old)).reads draining.old) (version_number version) written
        tail.new) }
    ensures damaged { IsErrOf result ImageFault.Damaged → D.honest disk.old
        → HasNoStart (bytes_left (now (D.trail disk.old)).reads draining.old)
        (version_number version) written }
{
    let mut source = SectorSource::over(disk, draining);
    read_image(alloc, &mut source, version, written, tail)
}

/// Reads the image of a slot of this head, in that version: the characters that are left over, to the front of a
/// sector, and then its desktop. The characters of the area aren't read.
fn load_start<D: Disk>(
    alloc: Global,
    disk: &mut D,
    slot: u32,
    version: Version,
    head: &Head,
    tail: &mut Sector,
) -> Result<Desktop, ImageFault>
    requires at { HasSlot (D.size disk.old) slot }
    requires good { IsGoodHead head.now }
    ensures kept { IsConfined D.size D.honest D.trail Nowhere disk.old disk.new }
    ensures faults { FailsAs ImageFault.Fault IsImageFault result (D.failures disk.old)
        (D.failures disk.new) }
    ensures start { IfOk result (IsStart (D.honest disk.old)
        (stored (now (D.trail disk.old)).reads (image_at slot) head.now.extent)
        (version_number version)
        head.now.written tail.new) }
    ensures damaged { IsErrOf result ImageFault.Damaged → D.honest disk.old
        → HasNoStart (stored (now (D.trail disk.old)).reads (image_at slot) head.now.extent)
        (version_number version)
        head.now.written }
{
    let mut draining = Draining::new(image_at(slot), head.extent);
    read_through(alloc, disk, &mut draining, version, head.written, tail)
}

/// A desktop of the characters that a head names: those that fill sectors stand in its area, and the others at the
/// front of a sector. Its error is NoMemory.
fn with_pages(
    alloc: Global,
    desktop: Desktop,
    head: &Head,
    tail: &Sector,
) -> Result<LiveDesktop, NoMemory>
    requires whole { IsKeptWhole desktop }
    requires count { desktop.written ≡ head.now.written }
    requires low { head.now.area < AREAS }
    ensures live { IfOk result IsLive }
    ensures desktop { IfOk result (λ live. live.desktop ≡ desktop) }
    ensures characters { IfOk result (λ live. (c : Content) → live_characters c live
        ≡ area_bytes c head.now.area (full_sectors head.now.written)
        ++ take (left_over head.now.written) tail.now) }
    ensures under { IfOk result (StandsUnder head.now) }
    ensures empty { IfOk result HasEmptyCache }
{
    let left = head.written % SECTOR_BYTES;
    let full = head.written - left;
    let pages = Pages::new(alloc, area_start(head.area), full, &tail[..left as usize])?;
    Ok(LiveDesktop::over(alloc, desktop, pages, head.area))
}

/// Loads what a slot of this head, which has that version, starts from. Memory is taken for the image and for the
/// characters that are left over, fewer than a sector has.
pub fn load_slot<D: Disk>(
    alloc: Global,
    disk: &mut D,
    slot: u32,
    version: Version,
    head: &Head,
) -> Result<LiveDesktop, Error>
    requires at { HasSlot (D.size disk.old) slot }
    requires head { IsHeadOf (version_number version) head.now }
    ensures kept { IsConfined D.size D.honest D.trail Nowhere disk.old disk.new }
    ensures faults { FailsAs Error.Fault OfReplay result (D.failures disk.old)
        (D.failures disk.new) }
    ensures left { IfOk result (IsLiveOn D.Disk disk.new) }
    ensures under { IfOk result (StandsUnder head.now) }
    ensures image { IfOk result
        (λ live. D.honest disk.old → head_at (now (D.trail disk.old)).reads slot ≡ head.now
        → HasImage (now (D.trail disk.old)).reads slot
        (seen_live (now (D.trail disk.new)).reads live)) }
    ensures damaged { (n : ℕ) → IsErrOf result (Error.Damaged n) → D.honest disk.old
        → head_at (now (D.trail disk.old)).reads slot ≡ head.now
        → (n ≡ image_at slot)
        × ((start : ADesktop) → HasImage (now (D.trail disk.old)).reads slot start → ⊥) }
{
    let mut tail = [0; SECTOR_BYTES as usize];
    match load_start(alloc, disk, slot, version, head, &mut tail) {
        Ok(desktop) => Ok(with_pages(alloc, desktop, head, &tail)?),
        Err(fault) => Err(error_of(fault, slot)),
    }
}
