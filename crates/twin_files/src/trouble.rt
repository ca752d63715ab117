//! What goes wrong with two files, in sentences.
ghost use Rattle.std.specs.Prelude.{◌≡◌};
ghost use Rattle.twin_files.specs.PairStatuses.{pair_status};

use crate::pairing::Unpaired;
use cli_stores::Trouble;
use sector_disk::Fault;
use std::alloc::AllocError;
use std::io;
use twin_disk::Leg;

/// Why two files aren't one disk.
#[derive(Clone, Copy, Debug, PartialEq, Eq)]
pub enum PairTrouble {
    /// What is wrong with one of them.
    One(Leg, Trouble),
    /// There is neither file.
    NoFile,
    /// One of them is missing, and the other one says *in pair*: so the missing one may be newer.
    Missing(Leg),
    /// They were never in pair with one another.
    Strangers,
    /// Each was used without the other.
    BothAlone,
    /// One of them was put back as an older copy.
    PutBack,
    /// Reading or writing either failed.
    Fault,
}

impl From<Fault> for PairTrouble {
    fn from(_fault: Fault) -> PairTrouble {
        PairTrouble::Fault
    }
}

impl From<AllocError> for PairTrouble {
    fn from(_refused: AllocError) -> PairTrouble {
        PairTrouble::One(Leg::First, Trouble::Memory)
    }
}

impl From<io::Error> for PairTrouble {
    fn from(_error: io::Error) -> PairTrouble {
        PairTrouble::One(Leg::First, Trouble::Output)
    }
}

impl From<Unpaired> for PairTrouble {
    fn from(why: Unpaired) -> PairTrouble {
        match why {
            Unpaired::Strangers => PairTrouble::Strangers,
            Unpaired::BothAlone => PairTrouble::BothAlone,
            Unpaired::PutBack => PairTrouble::PutBack,
            Unpaired::NoStore(false, error) => PairTrouble::One(Leg::First, Trouble::Store(error)),
            Unpaired::NoStore(true, error) => PairTrouble::One(Leg::Second, Trouble::Store(error)),
            Unpaired::Fault => PairTrouble::Fault,
        }
    }
}

impl PairTrouble {
    /// Says what went wrong, in one sentence on standard error, and returns the status of the program: that of the trouble
    /// with one file where there is one, and 4 for all else.
    pub fn say(self, rt: &HostRuntime, path: &str, twin: &str) -> u8
        ensures { result ≡ pair_status self }
    {
        match self {
            PairTrouble::One(Leg::First, trouble) => trouble.say(rt, path),
            PairTrouble::One(Leg::Second, trouble) => trouble.say(rt, twin),
            other => {
                let _ = other.sentence(rt, path, twin);
                4
            }
        }
    }

    /// The sentence of what is of two files.
    fn sentence(self, rt: &HostRuntime, path: &str, twin: &str) -> io::Result<()> {
        match self {
            PairTrouble::NoFile => eprintln!(rt;
                "desk: there is no store {path:?}, and no twin {twin:?}; desk PATH --twin PATH2, with nothing else, makes both"
            ),
            PairTrouble::Missing(Leg::Second) => missing(rt, path, twin),
            PairTrouble::Missing(Leg::First) => missing(rt, twin, path),
            PairTrouble::Strangers => eprintln!(rt;
                "desk: {path:?} and {twin:?} are not two files of one store, so nothing was done; name a file that is not there, and it becomes the twin"
            ),
            PairTrouble::BothAlone => eprintln!(rt;
                "desk: {path:?} and {twin:?} were each used without the other, so nothing was done; look at both, move away the one that you give up, and it is made anew"
            ),
            PairTrouble::PutBack => eprintln!(rt;
                "desk: {path:?} and {twin:?} differ, and one seems to be an older copy that was put back, so nothing was done; look at both, move away the one that you give up, and sit down at the other one once without --twin"
            ),
            _ => eprintln!(rt; "desk: reading or writing {path:?} or {twin:?} failed"),
        }
    }
}

/// Says that a file is missing that may be newer.
fn missing(rt: &HostRuntime, there: &str, gone: &str) -> io::Result<()> {
    eprintln!(rt;
        "desk: {gone:?} is not there, and may be newer than {there:?}, so nothing was done; if it is lost, sit down at {there:?} once without --twin"
    )
}
