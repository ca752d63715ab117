//! Scrolling.
ghost use Rattle.std.specs.Prelude.{IfOk, option_map};
ghost use Rattle.desk_input.specs.Scrolling.{Scrolls};
ghost use Rattle.desk_journal.specs.Looking.{OnlyLooks};

use super::Store;
use event_bytes::Event;
use sector_disk::Disk;
use std::alloc::Global;
use std::vec::Vec;
use store_slots::{Error, Wish};

impl<D: Disk> Store<D> {
    /// The presses in a scroll bar after which the viewer at a cell of the display (column and row), or the one with the
    /// caret where no cell is meant, shows the line first that is wished. Posted in their order none is refused, and
    /// nothing else of the desktop changes. A line that stands first needs no press.
    ///
    /// None where there is no such viewer, where it shows fewer than two rows of its text, or where more than
    /// `MOST_PRESSES` presses would have to go down a page.
    ///
    /// Errors: `MustReopen`; `NoMemory`; `Fault`.
    pub fn scroll(
        &mut self,
        alloc: Global,
        at: Option<(u8, u8)>,
        wish: Wish,
    ) -> Result<Option<Vec<Event>>, Error>
        ensures scrolls { IfOk result (λ presses. D.honest self.old.disk
            → Scrolls self.old.desktop at wish (option_map (λ events. events.items) presses)) }
        ensures looks { OnlyLooks D.Disk result self.old self.new }
    {
        if self.must_reopen {
            return Err(Error::MustReopen);
        }
        self.desktop.scroll(alloc, at, wish, &mut self.disk)
    }
}
