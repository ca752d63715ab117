//! How far a past reaches.
ghost use Rattle.std.specs.Prelude.{◌≡◌, ◌+◌, ◌<◌, ◌≤◌, ◌^◌, List, false, length, IfNone, IfOk, IfSome, IsSomeAnd, OnOk};
ghost use Rattle.desktop_definitions.specs.Desktop.{Desktop};
ghost use Rattle.store_layout.specs.declared.layout.TheConstants.{STORE_SECTORS};
ghost use Rattle.past_pages.specs.Reading.{IsOnlyReadFrom};
ghost use Rattle.desk_past.specs.Deeds.{PastDeed};
ghost use Rattle.desk_past.specs.Going.{LiesInPart};
ghost use Rattle.desk_past.specs.Past.{KeepsAll, Start};
ghost use Rattle.told_pasts.specs.Reaching.{IsReach};
ghost use Rattle.told_pasts.specs.Stopping.{StopsAs};

use desk_journal::{Error, STORE_SECTORS, Store};
use past_pages::{Part, part_at};
use sector_disk::Disk;
use store_layout::standing_law;

/// How far a past reaches: the part in which it lies, the sector behind its pages, how many deeds came before the
/// journal in use, and how many events that has.
#[derive(Clone, Copy, Debug, PartialEq, Eq)]
pub struct Reach {
    pub part: Part,
    pub next: u32,
    pub before: u64,
    pub journal: u32,
}

impl Reach {
    /// How many deeds came before what the store shows, as far as they can be counted.
    pub fn now(self) -> u64
        ensures sum { self.before + self.journal < 2 ^ 64 → result ≡ self.before + self.journal }
        ensures most { result ≤ self.before + self.journal }
    {
        sum_of(self.before, self.journal as u64)
    }
}

/// The sector of the first page. None where the pages can't begin there.
pub(crate) fn first_of(reach: Reach) -> Option<u32>
    ensures at { IfSome result (λ at. at ≡ reach.part.base + STORE_SECTORS) }
    ensures none { IfNone result (reach.next < reach.part.base + STORE_SECTORS) }
{
    if reach.next < STORE_SECTORS || reach.part.base > reach.next - STORE_SECTORS {
        None
    } else {
        Some(reach.part.base + STORE_SECTORS)
    }
}

/// The sum of two numbers, as far as it can be counted.
pub(crate) fn sum_of(first: u64, second: u64) -> u64
    ensures sum { first + second < 2 ^ 64 → result ≡ first + second }
    ensures most { result ≤ first + second }
{
    first.saturating_add(second)
}

/// How far the past of a store reaches. None where its head tells of none.
///
/// Errors: `MustReopen`; `Fault`.
pub fn reach_of<D: Disk>(store: &mut Store<D>) -> Result<Option<Reach>, Error>
    ensures told { IfOk result (λ found. D.honest store.old.disk
        → (start : Start) (deeds : List PastDeed) (desktop : Desktop)
        → (keeps : KeepsAll D.Disk start deeds desktop store.old) → LiesInPart D.Disk keeps
        → IsSomeAnd found (IsReach D.Disk keeps)) }
    ensures still { OnOk result (IsOnlyReadFrom D.Disk store.old store.new) }
    ensures stops { StopsAs D.Disk (store.old.must_reopen ≡ false) result store.old store.new }
{
    standing_law();
    store.shows_what_crashes_leave();
    let told = store.past()?;
    let info = store.info()?;
    match part_at(store.sectors(), told.next) {
        None => Ok(None),
        Some(part) => Ok(Some(Reach {
            part,
            next: told.next,
            before: told.before,
            journal: info.events,
        })),
    }
}
