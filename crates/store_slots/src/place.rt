//! Where a checkpoint goes.
ghost use Rattle.std.specs.Prelude.{◌<◌, ◌≤◌};
ghost use Rattle.store_layout.specs.declared.layout.TheConstants.{AREAS, SLOTS};

use store_layout::PastEnd;

/// Where a checkpoint goes.
#[derive(Clone, Copy)]
pub struct SlotPlace {
    /// The slot that isn't in use.
    pub slot: u32,
    /// Its epoch from then on.
    pub epoch: u32,
    /// The area that its characters stand in.
    pub area: u32,
    /// How many sectors of it hold characters already.
    pub saved: u32,
    /// What its head tells of the past.
    pub past: PastEnd,
    ghost two: { slot < SLOTS },
    ghost low: { area < AREAS },
    ghost numbered: { 1 ≤ epoch },
}
