//! A source whose bytes come from sectors of a disk.
ghost use Rattle.std.specs.Prelude.{◌≡◌};
ghost use Rattle.store_layout.specs.Draining.{IsOnDisk};

use crate::draining::Draining;
use image_format::ByteSource;
use sector_disk::{Disk, Fault};

/// Bytes on their way out of sectors of a disk, for the time of a call. It borrows the disk and the draining, and
/// leaves both as its last call left them.
#[derive(Drop)]
pub struct SectorSource<'a, D: Disk> {
    disk: &'a mut D,
    draining: &'a mut Draining,
    ghost on_disk: { IsOnDisk (D.size disk.now) draining.now },
}

impl<'a, D: Disk> SectorSource<'a, D> {
    /// A source that goes on where the draining stands.
    pub fn over(disk: &'a mut D, draining: &'a mut Draining) -> Self
        requires { IsOnDisk (D.size disk.old) draining.old }
        ensures disk { result.disk ≡ disk.entry }
        ensures draining { result.draining ≡ draining.entry }
    {
        SectorSource { disk, draining }
    }
}

impl<'a, D: Disk> ByteSource for SectorSource<'a, D> {
    ghost use Rattle.sector_disk.specs.Trail.{now};
    ghost use Rattle.store_layout.specs.Draining.{IsSectorLoaded, bytes_left, OnSameBytes};
    ghost use Rattle.store_layout.specs.JoinedLaws.{stretch_self, stretch_through};

    ghost remaining = { λ s. bytes_left (now (D.trail s.disk.now)).reads s.draining.now };

    ghost failures = { λ s. D.Disk.failures s.disk.now };

    ghost honest = { λ s. D.honest s.disk.now × IsSectorLoaded (now (D.trail s.disk.now)).reads s.draining.now };

    ghost same_ground = { λ a b. OnSameBytes D.Disk a.disk.now b.disk.now a.draining.now b.draining.now
        a.disk.ghost_name b.disk.ghost_name a.draining.ghost_name b.draining.ghost_name };

    ghost ground_self = { λ s. stretch_self };

    ghost ground_through = { λ a b c ab bc. stretch_through ab bc };

    /// The next byte; None at the end. `Fault`: the disk failed in this call.
    fn get(&mut self) -> Result<Option<u8>, Fault> {
        self.draining.next(self.disk)
    }
}
