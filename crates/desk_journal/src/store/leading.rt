//! What is wished of the caret.
ghost use Rattle.std.specs.Prelude.{IfOk};
ghost use Rattle.std.specs.Result.{result_map_both};
ghost use Rattle.caret_moves.specs.Leading.{DoesWish};
ghost use Rattle.desk_journal.specs.Looking.{OnlyLooks};

use super::Store;
use event_bytes::Event;
use sector_disk::Disk;
use std::alloc::Global;
use std::vec::Vec;
use store_slots::{Error, KeyWish, WhyNot};

impl<D: Disk> Store<D> {
    /// The events after which what is wished of the caret is done: it stands there, with its line in sight, and nothing
    /// else of the desktop changes but what is deleted or selected, and the marker. Posted in their order none is refused;
    /// of a command that is called the last event comes to what the command does, and where a line is broken to what
    /// typing an end of line does there. Where the position that is wished stands right of the last column that the viewer
    /// shows, the caret comes to stand in that column of the line.
    ///
    /// Where there are none, why: `NoCaret`; `NoRow`, where the viewer of the caret shows no row of its text; `TooFar`,
    /// where its scroll bar doesn't lead to the line, since the viewer has one row or more than `MOST_PRESSES` presses
    /// would have to go down a page; of a character to delete also `NothingBehind` and `PastEdge`; of a command also
    /// `NoWord` and `NotInSight`; of a line to break also `NoBreak`; of what is to be selected or cut also `PastEdge`,
    /// `NotInSight` and `NothingThere`.
    ///
    /// Errors: `MustReopen`; `NoMemory`; `Fault`.
    pub fn lead(
        &mut self,
        alloc: Global,
        wish: KeyWish,
    ) -> Result<Result<Vec<Event>, WhyNot>, Error>
        ensures leads { IfOk result (λ told. D.honest self.old.disk
            → DoesWish self.old.desktop wish
            (result_map_both (λ events. events.items) (λ why. why) told)) }
        ensures looks { OnlyLooks D.Disk result self.old self.new }
    {
        if self.must_reopen {
            return Err(Error::MustReopen);
        }
        self.desktop.lead(alloc, wish, &mut self.disk)
    }
}
