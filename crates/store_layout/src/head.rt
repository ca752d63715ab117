//! The head of a slot.
ghost use Rattle.std.specs.Prelude.{◌≡◌, ◌↔◌, IsTrue, take, drop};
ghost use Rattle.std.specs.Int.{from_be_bytes, w32, w64};
ghost use Rattle.store_layout.specs.Layout.{head_of, IsGoodHead};

use crate::layout::{AREAS, FIRST_LAYOUT, LAYOUT};
use byteorder::{BigEndian, ByteOrder};
use desktop_definitions::MOST_WRITTEN;
use image_format::IMAGE_BYTES;
use sector_disk::{SECTOR_BYTES, Sector};

/// What a head tells of the past that a store may keep behind its sectors. Both are zero where it tells of none.
#[derive(Clone, Copy, Debug, PartialEq, Eq)]
pub struct PastEnd {
    /// The sector where the next page goes.
    pub next: u32,
    /// How many events came before the slot.
    pub before: u64,
}

/// What a head tells where there is no past.
pub const UNTOLD: PastEnd = PastEnd { next: 0, before: 0 };

/// What the head of a slot says: its numbers, and what it tells of the past, which gives no content another meaning.
#[derive(Clone, Copy, Debug, PartialEq, Eq)]
pub struct Head {
    /// The version of the layout.
    pub version: u32,
    /// How new the slot is: of two slots that are open the one with the greater epoch is in use.
    pub epoch: u32,
    /// How many characters the character file has.
    pub written: u32,
    /// How many bytes the image has, the characters before it among them.
    pub extent: u32,
    /// The area whose first sectors hold its characters, as far as they fill sectors.
    pub area: u32,
    /// The past that its desktop has behind the store.
    pub past: PastEnd,
}

impl Head {
    /// The head that a sector has.
    #[tactic(auto, unfolding(crate::specs::Layout::head_of))]
    pub fn of(sector: &Sector) -> Head
        ensures { result ≡ head_of sector.now }
    {
        let version = BigEndian::read_u32(&sector[..4]);
        Head {
            version,
            epoch: BigEndian::read_u32(&sector[4..8]),
            written: BigEndian::read_u32(&sector[8..12]),
            extent: BigEndian::read_u32(&sector[12..16]),
            area: if version == FIRST_LAYOUT {
                0
            } else {
                BigEndian::read_u32(&sector[16..20])
            },
            past: PastEnd {
                next: BigEndian::read_u32(&sector[20..24]),
                before: BigEndian::read_u64(&sector[24..32]),
            },
        }
    }

    /// A sector that has the head, and then zeros. One of the first version names area 0.
    pub fn sector(&self) -> Sector
        requires { self.now.version ≡ FIRST_LAYOUT → self.now.area ≡ 0 }
        ensures { head_of result ≡ self.now }
    {
        self.numbers()
    }

    /// Its numbers, and then zeros.
    fn numbers(&self) -> Sector
        ensures version { from_be_bytes w32 (take 4 result) ≡ self.now.version }
        ensures epoch { from_be_bytes w32 (take 4 (drop 4 result)) ≡ self.now.epoch }
        ensures written { from_be_bytes w32 (take 4 (drop 8 result)) ≡ self.now.written }
        ensures extent { from_be_bytes w32 (take 4 (drop 12 result)) ≡ self.now.extent }
        ensures area { from_be_bytes w32 (take 4 (drop 16 result)) ≡ self.now.area }
        ensures next { from_be_bytes w32 (take 4 (drop 20 result)) ≡ self.now.past.next }
        ensures before { from_be_bytes w64 (take 8 (drop 24 result)) ≡ self.now.past.before }
    {
        let mut sector = [0; SECTOR_BYTES as usize];
        sector[..4].copy_from_slice(&bytes_of(self.version));
        sector[4..8].copy_from_slice(&bytes_of(self.epoch));
        sector[8..12].copy_from_slice(&bytes_of(self.written));
        sector[12..16].copy_from_slice(&bytes_of(self.extent));
        sector[16..20].copy_from_slice(&bytes_of(self.area));
        sector[20..24].copy_from_slice(&bytes_of(self.past.next));
        sector[24..32].copy_from_slice(&long_bytes_of(self.past.before));
        sector
    }

    /// Whether a slot in use can have it.
    pub fn is_good(&self) -> bool
        ensures { IsTrue result ↔ IsGoodHead self.now }
    {
        self.version >= FIRST_LAYOUT
            && self.version <= LAYOUT
            && self.epoch >= 1
            && self.written <= MOST_WRITTEN
            && self.extent <= IMAGE_BYTES
            && self.area < AREAS
    }
}

/// The four bytes of a number, the highest first.
fn bytes_of(number: u32) -> [u8; 4]
    ensures { from_be_bytes w32 result ≡ number }
{
    number.to_be_bytes()
}

/// The eight bytes of a number, the highest first.
fn long_bytes_of(number: u64) -> [u8; 8]
    ensures { from_be_bytes w64 result ≡ number }
{
    number.to_be_bytes()
}
