//! What a store tells of its desktop before and after a command is called.
ghost use Rattle.std.specs.Prelude.{◌≡◌, true, false, Ok, Err, IfOk};
ghost use Rattle.desk_views.specs.Losses.{loss_at};
ghost use Rattle.desk_views.specs.Info.{shown_viewer, place_at, desk_info, last_log_line};
ghost use Rattle.desk_journal.specs.Looking.{OnlyLooks};

use super::Store;
use sector_disk::Disk;
use store_slots::{DeskInfo, Error, LogRow, Loss, Place, ShownViewer};

impl<D: Disk> Store<D> {
    /// What the command would lose that is called by the middle button, which went down at the cell `from` and up at the
    /// cell `to` (each as column and row), once the marker was set to the cell `marked`; where that is None it stays as it
    /// is. The command is the one that a call there finds, by the newest version of the table:
    ///
    /// - `System.Close`: `Closed`, if neither the document that the viewer's menu names nor another viewer has its text,
    ///   with the same characters in the same looks. Nothing is lost of the log, and of an empty text.
    /// - `Edit.Open`, `System.Open`, `System.OpenLog`, `System.Recall`: `Taken`, if the viewer that opens would take the
    ///   whole place of another one.
    /// - `Edit.Store`: `Rivalled`, if another viewer on the display, be it covered or not, shows another text under a menu
    ///   of the same name, and the document of that name hasn't the text that is to be stored.
    ///
    /// None where nothing would be lost, also by all other commands; where no command is called there; and where one of
    /// the cells isn't on the display. It doesn't say whether the command would be refused.
    ///
    /// Errors: `MustReopen`; `Fault`.
    pub fn loss_at(
        &mut self,
        marked: Option<(u8, u8)>,
        from: (u8, u8),
        to: (u8, u8),
    ) -> Result<Option<Loss>, Error>
        ensures told { IfOk result (λ loss. D.honest self.old.disk
            → loss ≡ loss_at self.old.desktop marked from to) }
        ensures looks { OnlyLooks D.Disk result self.old self.new }
    {
        if self.must_reopen {
            return Err(Error::MustReopen);
        }
        self.desktop.loss_at(marked, from, to, &mut self.disk)
    }

    /// The viewer of an id, if it is shown on the display: where it stands, in columns and rows, with its menu as the
    /// topmost row, and whether it shows the log. None where no viewer has that id, and where it is closed or covered.
    ///
    /// Error: `MustReopen`.
    pub fn shown_viewer(&self, id: u16) -> Result<Option<ShownViewer>, Error>
        ensures value { self.now.must_reopen ≡ false
            → result ≡ Ok (shown_viewer self.now.desktop id) }
        ensures reopen { self.now.must_reopen ≡ true → result ≡ Err Error.MustReopen }
    {
        if self.must_reopen {
            return Err(Error::MustReopen);
        }
        Ok(self.desktop.shown_viewer(id))
    }

    /// Where the viewer stands that is seen at a cell, by its column and row. None on the empty display, and off it.
    ///
    /// Error: `MustReopen`.
    pub fn place_at(&self, cell: (u8, u8)) -> Result<Option<Place>, Error>
        ensures value { self.now.must_reopen ≡ false
            → result ≡ Ok (place_at self.now.desktop cell) }
        ensures reopen { self.now.must_reopen ≡ true → result ≡ Err Error.MustReopen }
    {
        if self.must_reopen {
            return Err(Error::MustReopen);
        }
        Ok(self.desktop.place_at(cell))
    }

    /// What the desktop says of itself: the id of the next viewer that opens, that of the one that was closed last and
    /// that of the one with the caret, whether the marker is set, and how many characters the log has.
    ///
    /// Error: `MustReopen`.
    pub fn desk_info(&self) -> Result<DeskInfo, Error>
        ensures value { self.now.must_reopen ≡ false → result ≡ Ok (desk_info self.now.desktop) }
        ensures reopen { self.now.must_reopen ≡ true → result ≡ Err Error.MustReopen }
    {
        if self.must_reopen {
            return Err(Error::MustReopen);
        }
        Ok(self.desktop.info())
    }

    /// The bytes of the log's last whole line without the carriage return that ends it, the first 80 of them at most.
    /// Empty where the log has no whole line.
    ///
    /// Errors: `MustReopen`; `Fault`.
    pub fn last_log_line(&mut self) -> Result<LogRow, Error>
        ensures told { IfOk result (λ line. D.honest self.old.disk
            → line.items ≡ last_log_line self.old.desktop) }
        ensures looks { OnlyLooks D.Disk result self.old self.new }
    {
        if self.must_reopen {
            return Err(Error::MustReopen);
        }
        self.desktop.last_log_line(&mut self.disk)
    }
}
