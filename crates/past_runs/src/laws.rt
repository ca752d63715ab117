//! What holds of runs of calls on a store with a past.
ghost use Rattle.past_runs.specs.Runs.{FormerStaysOverRuns, MomentStaysLaw, MomentsStayLaw, PastRunsCompose, PastRunsCut, PastRunsLaw};

use sector_disk::Disk;

/// Nothing is forgotten over a run of calls. Behind it the store keeps the past to which they led, with each deed that was
/// acknowledged. Amid each of them, and amid one more, whatever that answers, a crash leaves the past to which the calls
/// before it led, or that past with its own deed; amid an undo, that past or the same without some of its last events.
pub fn past_runs_keep_all<D: Disk>()
    ensures { PastRunsLaw D.Disk }
{}

/// One run of calls after another is a run, and a run is cut into two between any two of its calls.
pub fn past_runs_compose<D: Disk>()
    ensures joined { PastRunsCompose D.Disk }
    ensures cut { PastRunsCut D.Disk }
{}

/// A moment stays what it was: over a call, as long as it is there, and over calls that take nothing back, where it is
/// there, too.
pub fn moments_stay()
    ensures one { MomentStaysLaw }
    ensures all { MomentsStayLaw }
{}

/// Where a past has begun behind a former one, in the other part, that one stays at every moment of a run whose calls write
/// ahead alone: a crash leaves it until a past begins there anew.
pub fn former_stays<D: Disk>()
    ensures { FormerStaysOverRuns D.Disk }
{}
