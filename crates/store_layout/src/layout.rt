//! Which sector of a store holds what.
//!
//! A store has a label and two slots, 0 and 1. Each slot has a gate, a head, a journal of gates and bodies in turn, and
//! an image. The characters that fill whole sectors stand in one of two areas, which the head of the slot names.
ghost use Rattle.std.specs.Prelude.{◌≡◌, ◌<◌};
ghost use Rattle.store_layout.specs.Layout.{slot_gate, slot_head, gate, body, image_at, area_start, area_at};

use image_format::IMAGE_BYTES;
use sector_disk::{FILE_SECTORS, SECTOR_BYTES};

/// How many sectors a store has. A larger disk holds one too.
pub const STORE_SECTORS: u32 = FILE_SECTORS;

/// The sector of the label.
pub const LABEL: u32 = 0;

/// How many slots there are.
pub const SLOTS: u32 = 2;

/// The gate of slot 0. The gate of slot 1 comes two sectors after it.
pub const SLOT_GATES: u32 = 1;

/// The head of slot 0. The head of slot 1 comes two sectors after it.
pub const SLOT_HEADS: u32 = 2;

/// The first sector of journal 0. Journal 1 comes directly after journal 0.
pub const JOURNALS: u32 = 5;

/// How many events a journal holds.
pub const JOURNAL_EVENTS: u32 = 256;

/// How many sectors a journal has: a gate and a body for each event.
pub const JOURNAL_SECTORS: u32 = 512;

/// The first sector of image 0. Image 1 comes directly after image 0.
pub const IMAGES: u32 = 1029;

/// How many sectors an image has.
pub const IMAGE_SECTORS: u32 = IMAGE_BYTES / SECTOR_BYTES;

/// The first sector of area 0 of characters.
pub const AREA: u32 = 7429;

/// How many sectors an area has.
pub const AREA_SECTORS: u32 = 4096;

/// How many areas there are. Area 1 comes directly after area 0.
pub const AREAS: u32 = 2;

/// The first version of the layout, whose heads name area 0 alone.
pub const FIRST_LAYOUT: u32 = 1;

/// The newest version of the layout, which is written.
pub const LAYOUT: u32 = 3;

/// The greatest epoch. After it no checkpoint is possible.
pub const LAST_EPOCH: u32 = u32::MAX;

/// The sector of a slot's gate.
pub fn slot_gate(slot: u32) -> u32
    requires { slot < SLOTS }
    ensures { result ≡ slot_gate slot }
{
    SLOT_GATES + 2 * slot
}

/// The sector of a slot's head.
pub fn slot_head(slot: u32) -> u32
    requires { slot < SLOTS }
    ensures { result ≡ slot_head slot }
{
    SLOT_HEADS + 2 * slot
}

/// The sector of gate k of a slot's journal.
pub fn gate(slot: u32, k: u32) -> u32
    requires slot { slot < SLOTS }
    requires index { k < JOURNAL_EVENTS }
    ensures { result ≡ gate slot k }
{
    JOURNALS + JOURNAL_SECTORS * slot + 2 * k
}

/// The sector of body k of a slot's journal.
pub fn body(slot: u32, k: u32) -> u32
    requires slot { slot < SLOTS }
    requires index { k < JOURNAL_EVENTS }
    ensures { result ≡ body slot k }
{
    gate(slot, k) + 1
}

/// The first sector of a slot's image.
pub fn image_at(slot: u32) -> u32
    requires { slot < SLOTS }
    ensures { result ≡ image_at slot }
{
    IMAGES + IMAGE_SECTORS * slot
}

/// The first sector of an area of characters.
pub fn area_start(area: u32) -> u32
    requires { area < AREAS }
    ensures { result ≡ area_start area }
{
    AREA + AREA_SECTORS * area
}

/// Sector k of an area of characters.
pub fn area_at(area: u32, k: u32) -> u32
    requires area { area < AREAS }
    requires index { k < AREA_SECTORS }
    ensures { result ≡ area_at area k }
{
    area_start(area) + k
}
