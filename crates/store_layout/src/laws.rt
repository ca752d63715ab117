//! What holds of contents and their meaning, whatever made them.
ghost use Rattle.store_layout.specs.Footprint.{FootprintLaw};
ghost use Rattle.store_layout.specs.Finding.{FindingLaw, ShowingLaw, StandingLaw};

use event_bytes::at_most_one_begins;
use image_format::one_desktop;

/// A meaning depends on its footprint alone: the label, the gates of the slots, the heads under open gates, and of the
/// slot in use the image to its length, the sectors of characters that its head names, the journal's gates up to the
/// first closed one and the bodies before it. So writes anywhere else, however many, change the meaning of no image.
pub fn footprint_law()
    ensures { FootprintLaw }
{}

/// A content is found to be one thing: the store of one desktop, no store, or a store with its damage in one sector. So
/// what opening returns, it returns exactly where it is so.
pub fn finding_law()
    ensures { FindingLaw }
{
    at_most_one_begins();
    one_desktop();
}

/// A content shows one desktop at most, by one version, one epoch and one number of events.
pub fn showing_law()
    ensures { ShowingLaw }
{
    at_most_one_begins();
    one_desktop();
}

/// A content shows one standing at most: one slot, by one version and epoch, from one desktop and with one list of
/// events.
pub fn standing_law()
    ensures { StandingLaw }
{
    at_most_one_begins();
    one_desktop();
}
