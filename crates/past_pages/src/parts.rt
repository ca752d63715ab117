//! The parts of the room behind a store, all of the same size. Each begins with a start, and pages stand behind that.
ghost use Rattle.std.specs.Prelude.{◌≡◌, ◌+◌, ◌≤◌, ◌<◌, ◌^◌, ℕ, Decides, IfSome, IsSomeAnd};
ghost use Rattle.store_layout.specs.declared.layout.TheConstants.{STORE_SECTORS};
ghost use Rattle.past_pages.specs.Parts.{GoesOnIn, HasParts, IsPastPart, part_base, part_count};
ghost use Rattle.past_pages.specs.declared.parts.TheConstants.{PART_SECTORS};

use desk_journal::STORE_SECTORS;

/// The first sector of the first part. The two before it are kept for what a disk of a pair says of itself.
pub const PARTS: u32 = STORE_SECTORS + 2;

/// How many sectors a part has.
pub const PART_SECTORS: u32 = 32_768;

/// How many sectors a disk has that has room for a past: those of a store, two that are for pairs of disks, and 40 parts.
pub const PAST_SECTORS: u32 = PARTS + 40 * PART_SECTORS;

/// Into how many sectors of pages a part is filled, before the next one begins.
pub const FULL_PART: u32 = 8_192;

/// How many of these are kept for other pages than marks: so many have a part's letters, whatever its marks take.
pub const BARE_PART: u32 = 512;

/// For how many sectors of pages a part has room at least that isn't full.
pub const LEAST_ROOM: u32 = PART_SECTORS - STORE_SECTORS - FULL_PART;

/// A part, from sector `base` up to sector `end`, which isn't of it.
#[derive(Clone, Copy, Debug, PartialEq, Eq)]
pub struct Part {
    pub base: u32,
    pub end: u32,
}

/// How many parts a disk of so many sectors has.
pub fn part_count(sectors: u32) -> u32
    ensures value { result ≡ part_count sectors }
    ensures few { result ≤ 2 ^ 17 }
{
    sectors.saturating_sub(PARTS) / PART_SECTORS
}

/// Whether a disk of so many sectors has two parts at least.
pub fn has_parts(sectors: u32) -> bool
    ensures { Decides result (HasParts sectors) }
{
    sectors >= PARTS + 2 * PART_SECTORS
}

/// In which sector the part at this place begins, the first of which is 0, on a disk of so many sectors, which has it.
pub fn part_base(sectors: u32, place: u32) -> u32
    requires { place < part_count sectors }
    ensures value { result ≡ part_base place }
    ensures is { IsPastPart sectors result (result + PART_SECTORS) }
{
    PARTS + PART_SECTORS * place
}

/// Whether pages go on in this sector of the part that begins in sector `base`.
pub fn goes_on_in(base: u32, next: u32) -> bool
    requires { base + PART_SECTORS < 2 ^ 32 }
    ensures { Decides result (GoesOnIn base (base + PART_SECTORS) next) }
{
    next >= base + STORE_SECTORS && next <= base + PART_SECTORS
}

/// The part in which pages go on in this sector. None where they can do so in no part.
pub fn part_at(sectors: u32, next: u32) -> Option<Part>
    ensures is { IfSome result (λ part. IsPastPart sectors part.base part.end) }
    ensures within { IfSome result (λ part. (part.base + STORE_SECTORS ≤ next)
        × (next ≤ part.end)) }
    ensures all { (base end : ℕ) → IsPastPart sectors base end → base + STORE_SECTORS ≤ next
        → next ≤ end → IsSomeAnd result (λ part. (part.base ≡ base) × (part.end ≡ end)) }
{
    if next < PARTS + STORE_SECTORS {
        return None;
    }
    let place = (next - PARTS - STORE_SECTORS) / PART_SECTORS;
    if place >= part_count(sectors) {
        return None;
    }
    let base = part_base(sectors, place);
    if next - base > PART_SECTORS {
        return None;
    }
    Some(Part {
        base,
        end: base + PART_SECTORS,
    })
}
