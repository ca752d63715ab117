//! What a store hands out of what is selected, of what was copied, of the caret's text and of what was searched.
ghost use Rattle.std.specs.Prelude.{◌≡◌, ◌↔◌, true, IfOk, IfErr, IsErr, option_map};
ghost use Rattle.desktop_definitions.specs.Viewers.{newest, selected};
ghost use Rattle.desk_journal.specs.Looking.{OnlyLooks};
ghost use Rattle.desk_journal.specs.Views.{caret_text};

use super::Store;
use piece_ring::Look;
use sector_disk::Disk;
use std::alloc::Global;
use store_slots::Error;

impl<D: Disk> Store<D> {
    /// The characters that were copied or cut last, each a byte and its look: all of them, in their order. Empty where
    /// nothing was copied.
    ///
    /// Errors: `MustReopen`; `NoMemory`; `Fault`.
    pub fn copied(&mut self, alloc: Global) -> Result<Vec<(u8, Look)>, Error>
        ensures told { IfOk result (λ characters. D.honest self.old.disk
            → characters.items ≡ self.old.desktop.copied) }
        ensures looks { OnlyLooks D.Disk result self.old self.new }
    {
        if self.must_reopen {
            return Err(Error::MustReopen);
        }
        self.desktop.copied(alloc, &mut self.disk)
    }

    /// The characters of the stretch that was selected last and is selected still, each a byte and its look: all of
    /// them, in their order, be they on the display or not. None where nothing is selected.
    ///
    /// Errors: `MustReopen`; `NoMemory`; `Fault`.
    pub fn selected(&mut self, alloc: Global) -> Result<Option<Vec<(u8, Look)>>, Error>
        ensures told { IfOk result (λ found. D.honest self.old.disk
            → option_map (λ characters. characters.items) found
            ≡ option_map (selected self.old.desktop) (newest self.old.desktop)) }
        ensures looks { OnlyLooks D.Disk result self.old self.new }
    {
        if self.must_reopen {
            return Err(Error::MustReopen);
        }
        self.desktop.selected(alloc, &mut self.disk)
    }

    /// The characters of the main text of the viewer that has the caret, each a byte and its look: all of them, in their
    /// order, be they on the display or not. None where no viewer has the caret.
    ///
    /// Errors: `MustReopen`; `NoMemory`; `Fault`.
    pub fn caret_text(&mut self, alloc: Global) -> Result<Option<Vec<(u8, Look)>>, Error>
        ensures told { IfOk result (λ found. D.honest self.old.disk
            → option_map (λ characters. characters.items) found
            ≡ caret_text self.old.desktop) }
        ensures looks { OnlyLooks D.Disk result self.old self.new }
    {
        if self.must_reopen {
            return Err(Error::MustReopen);
        }
        self.desktop.caret_text(alloc, &mut self.disk)
    }

    /// The bytes for which `Edit.Search` looked last and that it found, 31 at most. Empty where it has found none.
    ///
    /// Error: `MustReopen`.
    pub fn pattern(&self) -> Result<&[u8], Error>
        ensures value { IfOk result (λ bytes. bytes.now ≡ self.now.desktop.pattern) }
        ensures reopen { IsErr result ↔ (self.now.must_reopen ≡ true) }
        ensures error { IfErr result (λ error. error ≡ Error.MustReopen) }
    {
        if self.must_reopen {
            return Err(Error::MustReopen);
        }
        Ok(self.desktop.pattern())
    }
}
