//! A part of a sector.
ghost use Rattle.std.specs.Prelude.{◌≤◌, ◌+◌};
ghost use Rattle.sector_disk.specs.declared.disk.TheConstants.{SECTOR_BYTES};

/// So many bytes of a sector from byte `at` on, and a byte that is wanted among them.
#[derive(Clone, Copy)]
pub(crate) struct Part {
    pub at: u32,
    pub few: u32,
    pub wanted: u8,
    ghost within: { at + few ≤ SECTOR_BYTES },
}
