//! A sink whose bytes fill sectors of a disk.
ghost use Rattle.std.specs.Prelude.{◌≡◌, ◌≤◌, ◌+◌};
ghost use Rattle.store_layout.specs.Filling.{first_sector, most_sectors};

use crate::filling::Filling;
use image_format::ByteSink;
use sector_disk::{Disk, Fault};

/// Bytes on their way to sectors of a disk, for the time of a call. It borrows the disk and the filling, and leaves
/// both as its last call left them.
#[derive(Drop)]
pub struct SectorSink<'a, D: Disk> {
    disk: &'a mut D,
    filling: &'a mut Filling,
    ghost on_disk: { first_sector filling.now + most_sectors filling.now ≤ D.size disk.now },
}

impl<'a, D: Disk> SectorSink<'a, D> {
    /// A sink that goes on where the filling stands.
    pub fn over(disk: &'a mut D, filling: &'a mut Filling) -> Self
        requires { first_sector filling.old + most_sectors filling.old ≤ D.size disk.old }
        ensures disk { result.disk ≡ disk.entry }
        ensures filling { result.filling ≡ filling.entry }
    {
        SectorSink { disk, filling }
    }
}

impl<'a, D: Disk> ByteSink for SectorSink<'a, D> {
    ghost use Rattle.sector_disk.specs.Trail.{now};
    ghost use Rattle.store_layout.specs.Filling.{HasTaken, OnSameSectors};
    ghost use Rattle.store_layout.specs.JoinedLaws.{stretch_self, stretch_through};

    ghost has_put = { λ s bytes. D.honest s.disk.now → HasTaken (now (D.trail s.disk.now)).reads s.filling.now bytes };

    ghost failures = { λ s. D.Disk.failures s.disk.now };

    ghost same_ground = { λ a b. OnSameSectors D.Disk a.disk.now b.disk.now a.filling.now b.filling.now
        a.disk.ghost_name b.disk.ghost_name a.filling.ghost_name b.filling.ghost_name };

    ghost ground_self = { λ s. stretch_self };

    ghost ground_through = { λ a b c ab bc. stretch_through ab bc };

    /// Takes the bytes. `Fault`: the disk failed in this call.
    fn put(&mut self, bytes: &[u8]) -> Result<(), Fault> {
        self.filling.put_over(self.disk, bytes)
    }
}
