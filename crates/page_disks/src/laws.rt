//! What holds of a medium on which the calls of a disk are repeated.
ghost use Rattle.page_disks.specs.Repeating.{BeginsAnew, RepeatsAll, RepeatsMoments};

/// Repeated in order on a medium that is as the disk was when it was last told to forget, the first k calls that it still
/// has to tell give the k-th moment of its trail, and all of them the present one. That is the first moment once it was
/// told to forget again.
pub fn repeating_law()
    ensures moments { RepeatsMoments }
    ensures whole { RepeatsAll }
    ensures anew { BeginsAnew }
{}
