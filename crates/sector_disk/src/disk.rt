//! What every disk is and promises.
ghost use Rattle.std.specs.Prelude.{◌≡◌, ◌<◌, ℕ, OnOk, OnErr};
ghost use Rattle.sector_disk.specs.Trail.{Trail, now, Nowhere, Only, written, after_sync, CountsFault};
ghost use Rattle.sector_disk.specs.Confined.{IsConfined};

/// The error of a call that the device didn't do.
#[derive(Clone, Copy, Debug, PartialEq, Eq)]
pub struct Fault;

/// How many bytes a sector has.
pub const SECTOR_BYTES: u32 = 1024;

/// The bytes of a sector.
pub type Sector = [u8; SECTOR_BYTES as usize];

/// Sectors of 1,024 bytes, numbered from 0.
///
/// What a call promises of contents stands under `honest`. What holds of every disk stands under nothing: how large
/// it is, and that its failures rise exactly where a call returns `Fault`.
pub trait Disk {
    /// How many sectors there are.
    ghost size: { Self → ℕ };

    /// What the sectors held at each moment up to now, and which of them a crash then may have spoiled.
    ghost trail: { Self → Trail };

    /// How many calls have failed. Contracts alone see it, so nothing bounds it.
    ghost failures: { Self → ℕ };

    /// The device keeps what it is given, and nobody else writes to it.
    ghost honest: { Self → Type 0 };

    /// The number of sectors.
    fn sectors(&self) -> u32
        ensures { result ≡ size self.now };

    /// Copies sector `n` to the buffer. After a `Fault` the buffer may hold anything.
    fn read(&mut self, n: u32, buffer: &mut Sector) -> Result<(), Fault>
        requires { n < size self.old }
        ensures kept { IsConfined size honest trail Nowhere self.old self.new }
        ensures cause { CountsFault result (failures self.old) (failures self.new) }
        ensures bytes { OnOk result (honest self.old
            → buffer.new ≡ (now (trail self.old)).reads n) };

    /// Writes sector `n`, which is pending until the next sync. After a `Fault` that sector may read as anything.
    fn write(&mut self, n: u32, bytes: &Sector) -> Result<(), Fault>
        requires { n < size self.old }
        ensures kept { IsConfined size honest trail (Only n) self.old self.new }
        ensures cause { CountsFault result (failures self.old) (failures self.new) }
        ensures written { OnOk result (honest self.old
            → now (trail self.new) ≡ written (now (trail self.old)) n bytes.now) };

    /// Settles every pending sector. After a `Fault` they are all still pending.
    fn sync(&mut self) -> Result<(), Fault>
        ensures kept { IsConfined size honest trail Nowhere self.old self.new }
        ensures cause { CountsFault result (failures self.old) (failures self.new) }
        ensures settled { OnOk result (honest self.old
            → now (trail self.new) ≡ after_sync (now (trail self.old))) }
        ensures unsettled { OnErr result (honest self.old
            → now (trail self.new) ≡ now (trail self.old)) };
}
