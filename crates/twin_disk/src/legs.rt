//! Two disks, and which of them are in use.
ghost use Rattle.std.specs.Prelude.{◌≡◌, ◌<◌, ◌+◌, true};
ghost use Rattle.twin_disk.specs.Legs.{Joins, LegsOpened, LegsRead, StandsAlone, LegsSynced, LegsWritten};
ghost use Rattle.twin_disk.specs.declared.legs.Left.TheVariants.{First, Second};

use crate::flags::{Flag, Name, put_flag};
use crate::marks::{open_leg, write_open, write_opened};
use sector_disk::{Disk, Fault, Sector};

/// Which legs are in use.
#[derive(Clone, Copy)]
pub(crate) enum Left {
    Both,
    First,
    Second,
}

/// Two disks, which of them are in use, and what is to be recorded of the next call: that it writes a sector, or settles
/// all.
#[derive(Drop)]
pub(crate) struct Legs<A: Disk, B: Disk> {
    pub(crate) first: A,
    pub(crate) second: B,
    pub(crate) left: Left,
    pub(crate) mark: Option<u32>,
}

/// Which legs may still say that they were closed together, as nothing has been written to them since.
#[derive(Clone, Copy)]
pub(crate) struct Closed {
    pub(crate) first: bool,
    pub(crate) second: bool,
}

/// In which sector of each leg its flag stands, and the name of the pair.
#[derive(Clone, Copy)]
pub(crate) struct Beside {
    pub(crate) sector: u32,
    pub(crate) name: Name,
}

impl Beside {
    /// The flag of a leg that goes on alone.
    fn alone(&self) -> Flag
        ensures { result.alone ≡ true }
    {
        Flag {
            alone: true,
            closed: false,
            name: self.name,
        }
    }
}

impl<A: Disk, B: Disk> Legs<A, B> {
    /// Leaves the first leg alone in use: its flag says so for good, and then the second one is dropped.
    fn leave_first(&mut self, beside: &Beside) -> Result<(), Fault>
        requires { beside.now.sector < A.size self.old.first }
        ensures { StandsAlone A.Disk beside.now.sector First result self.old.first self.new.first
            self.old.second self.new.second self.old.left self.new.left }
    {
        put_flag(&mut self.first, beside.sector, beside.alone())?;
        self.left = Left::First;
        Ok(())
    }

    /// Leaves the second leg alone in use.
    fn leave_second(&mut self, beside: &Beside) -> Result<(), Fault>
        requires { beside.now.sector < B.size self.old.second }
        ensures { StandsAlone B.Disk beside.now.sector Second result self.old.second self.new.second
            self.old.first self.new.first self.old.left self.new.left }
    {
        put_flag(&mut self.second, beside.sector, beside.alone())?;
        self.left = Left::Second;
        Ok(())
    }

    /// What two legs together did: what one of them did is done. A leg that didn't is dropped where the other one did it.
    fn join(
        &mut self,
        first: Result<(), Fault>,
        second: Result<(), Fault>,
        beside: &Beside,
    ) -> Result<(), Fault>
        requires first { beside.now.sector < A.size self.old.first }
        requires second { beside.now.sector < B.size self.old.second }
        ensures { Joins A.Disk B.Disk beside.now.sector first second result self.old self.new }
    {
        match (first, second) {
            (Ok(()), Ok(())) => Ok(()),
            (Ok(()), Err(_)) => self.leave_first(beside),
            (Err(_), Ok(())) => self.leave_second(beside),
            (Err(_), Err(_)) => Err(Fault),
        }
    }

    /// LegsRead from the first leg in use; where that fails, from the other one.
    pub(crate) fn read(&mut self, n: u32, buffer: &mut Sector, beside: &Beside) -> Result<(), Fault>
        requires within { n < beside.now.sector }
        requires first { beside.now.sector < A.size self.old.first }
        requires second { beside.now.sector < B.size self.old.second }
        ensures { LegsRead A.Disk B.Disk beside.now.sector n buffer.new result self.old self.new }
    {
        match self.left {
            Left::Both => self.read_both(n, buffer, beside),
            Left::First => self.first.read(n, buffer),
            Left::Second => self.second.read(n, buffer),
        }
    }

    fn read_both(&mut self, n: u32, buffer: &mut Sector, beside: &Beside) -> Result<(), Fault>
        requires within { n < beside.now.sector }
        requires first { beside.now.sector < A.size self.old.first }
        requires second { beside.now.sector < B.size self.old.second }
        requires both { self.old.left ≡ Left.Both }
        ensures { LegsRead A.Disk B.Disk beside.now.sector n buffer.new result self.old self.new }
    {
        if self.first.read(n, buffer).is_ok() {
            return Ok(());
        }
        self.second.read(n, buffer)?;
        self.leave_second(beside)
    }

    /// Writes to each leg in use, after none of these says *closed* any more: so if they differ, none does.
    pub(crate) fn write(
        &mut self,
        n: u32,
        bytes: &Sector,
        beside: &Beside,
        closed: &mut Closed,
    ) -> Result<(), Fault>
        requires within { n < beside.now.sector }
        requires first { beside.now.sector + 1 < A.size self.old.first }
        requires second { beside.now.sector + 1 < B.size self.old.second }
        ensures did { LegsWritten A.Disk B.Disk beside.now.sector n bytes.now result self.old
            self.new }
        ensures marks { LegsOpened A.Disk B.Disk beside.now.sector closed.old closed.new self.old
            self.new }
    {
        let at = beside.sector;
        match self.left {
            Left::Both => self.write_both(n, bytes, beside, closed),
            Left::First => write_open(&mut self.first, at, &mut closed.first, n, bytes),
            Left::Second => write_open(&mut self.second, at, &mut closed.second, n, bytes),
        }
    }

    fn write_both(
        &mut self,
        n: u32,
        bytes: &Sector,
        beside: &Beside,
        closed: &mut Closed,
    ) -> Result<(), Fault>
        requires within { n < beside.now.sector }
        requires first { beside.now.sector + 1 < A.size self.old.first }
        requires second { beside.now.sector + 1 < B.size self.old.second }
        requires both { self.old.left ≡ Left.Both }
        ensures did { LegsWritten A.Disk B.Disk beside.now.sector n bytes.now result self.old
            self.new }
        ensures marks { LegsOpened A.Disk B.Disk beside.now.sector closed.old closed.new self.old
            self.new }
    {
        let at = beside.sector;
        let one = open_leg(&mut self.first, at, &mut closed.first);
        let other = open_leg(&mut self.second, at, &mut closed.second);
        let first = write_opened(&mut self.first, one, n, bytes);
        let second = write_opened(&mut self.second, other, n, bytes);
        self.join(first, second, beside)
    }

    /// LegsSynced each leg in use.
    pub(crate) fn sync(&mut self, beside: &Beside) -> Result<(), Fault>
        requires first { beside.now.sector < A.size self.old.first }
        requires second { beside.now.sector < B.size self.old.second }
        ensures { LegsSynced A.Disk B.Disk beside.now.sector result self.old self.new }
    {
        match self.left {
            Left::Both => self.sync_both(beside),
            Left::First => self.first.sync(),
            Left::Second => self.second.sync(),
        }
    }

    fn sync_both(&mut self, beside: &Beside) -> Result<(), Fault>
        requires first { beside.now.sector < A.size self.old.first }
        requires second { beside.now.sector < B.size self.old.second }
        requires both { self.old.left ≡ Left.Both }
        ensures { LegsSynced A.Disk B.Disk beside.now.sector result self.old self.new }
    {
        let first = self.first.sync();
        let second = self.second.sync();
        self.join(first, second, beside)
    }
}
