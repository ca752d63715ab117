//! A store whose disk forgets what it took down.
ghost use Rattle.std.specs.Prelude.{◌≡◌};
ghost use Rattle.desk_journal.specs.Forgetting.{HoldsTheSame};

use super::Store;
use sector_disk::Disk;

/// A disk that takes down what is done to it, for somebody who is told of that.
pub trait NotingDisk {
    /// The disk after it forgot what it took down.
    ghost forgetting: { Self → Self };

    /// Forgets what it took down.
    fn forget(&mut self)
        ensures { self.new ≡ forgetting self.old };
}

impl<D: Disk + NotingDisk> Store<D> {
    /// Has the disk forget what it took down. The store is in use as before, with all that it has in memory.
    pub fn forget_noted(&mut self)
        requires { HoldsTheSame D.Disk self.old.disk (D.NotingDisk.forgetting self.old.disk) }
        ensures { self.new ≡ record self.old {
          disk = D.NotingDisk.forgetting self.old.disk;
        } }
    {
        self.disk.forget();
    }
}
