//! What holds of all spellings.
ghost use Rattle.std.specs.Prelude.{◌≡◌, ◌≤◌, ℕ, List, length};
ghost use Rattle.event_bytes.specs.declared.event.Event.{Event};
ghost use Rattle.event_bytes.specs.Spelling.{IsEvent, spelling, BeginsWithEvent};

/// Bytes begin with at most one event: two events never have one spelling, and no event's spelling is the beginning of
/// another's.
pub fn at_most_one_begins()
    ensures { (bytes : List ℕ) (e f : Event) → BeginsWithEvent bytes e → BeginsWithEvent bytes f
        → e ≡ f }
{}

/// A spelling has at least 2 bytes and at most 935: it fits a sector of 1,024.
pub fn spelling_fits()
    ensures least { (event : Event) → IsEvent event → 2 ≤ length (spelling event) }
    ensures most { (event : Event) → IsEvent event → length (spelling event) ≤ 935 }
{}
