//! What holds of stores that are closed and opened, and of runs of calls.
ghost use Rattle.store_runs.specs.Deeds.{ComposingLaw};
ghost use Rattle.store_runs.specs.Reopening.{ReopeningLaw};
ghost use Rattle.store_runs.specs.Run.{PrefixLaw, SurvivalLaw};

use sector_disk::Disk;
use store_layout::showing_law;

/// Opening finds what was closed: the desktop, the version, the epoch and the number of events.
pub fn reopening_law<D: Disk>()
    ensures { ReopeningLaw D.Disk }
{
    showing_law();
}

/// One run of calls after another is a run.
pub fn runs_compose<D: Disk>()
    ensures { ComposingLaw D.Disk }
{}

/// Whatever the deeds of a run returned, and wherever a crash cuts them off, each image means the desktop to which those
/// before the deed led, or the one to which this one leads: with its event or its documents, or without the events that
/// it takes back. When it was answered each image means the latter, from which the next deed goes on.
pub fn runs_survive<D: Disk>()
    ensures { SurvivalLaw D.Disk }
{}

/// Whatever posts and checkpoints returned, and wherever a crash cuts them off, each image means the desktop after some
/// of the accepted events, the first of them and none left out, and among them is every event acknowledged until then.
/// Behind an undo or a bringing that was answered Ok it is counted anew.
pub fn runs_keep_acknowledged<D: Disk>()
    ensures { PrefixLaw D.Disk }
{}
