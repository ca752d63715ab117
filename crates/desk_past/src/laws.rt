//! What holds of every past.
ghost use Rattle.desk_past.specs.Chain.{SpanStaysLaw};
ghost use Rattle.desk_past.specs.Past.{OnePastLaw, PresentLaw};
ghost use Rattle.desk_past.specs.Writing.{FormerStaysLaw};

use event_bytes::at_most_one_begins;
use sector_disk::Disk;
use store_layout::standing_law;

/// The desktop after all events of a past is the one that the store shows.
pub fn present_law()
    ensures { PresentLaw }
{}

/// A content has one past at most from a start: its head says where the pages end, and their bytes say which events they
/// have.
pub fn one_past_law()
    ensures { OnePastLaw }
{
    at_most_one_begins();
    standing_law();
}

/// The former past stays over a call that writes ahead alone, at every moment of it.
pub fn former_stays_law<D: Disk>()
    ensures { FormerStaysLaw D.Disk }
{}

/// What a past has in other parts stays over a call on it, at every moment of it, but in the oldest one.
pub fn span_stays_law<D: Disk>()
    ensures { SpanStaysLaw D.Disk }
{}
