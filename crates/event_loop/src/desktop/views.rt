//! What a desktop tells before and after a command is called.
ghost use Rattle.std.specs.Prelude.{◌≡◌, ℕ, List, IfOk};
ghost use Rattle.desk_core.specs.Words.{FailsAs, OnlyReads, seen, IsKeptWhole, IsOver, IsStop};
ghost use Rattle.desk_views.specs.Losses.{loss_at};
ghost use Rattle.desk_views.specs.Info.{shown_viewer, place_at, desk_info, last_log_line};

use super::Desktop;
use crate::losses::loss_at;
use char_file::CharSource;
use desk_core::stop::Stop;
use desk_views::{
    DeskInfo, LogRow, Loss, ShownViewer, desk_info, last_log_line, place_at, shown_viewer,
};
use viewer_tracks::Place;

impl Desktop {
    /// What the command would lose that is called by the middle button, which went down at the cell `from` and up at `to`
    /// (each as column and row), once the marker was set to `marked`, if that is a cell. None where nothing would be
    /// lost, where no command is called there, and where a cell isn't on the display.
    ///
    /// It takes no memory. Fault where a character could not be read. The desktop stays, whatever is returned.
    pub fn loss_at<S: CharSource>(
        &mut self,
        marked: Option<(u8, u8)>,
        from: (u8, u8),
        to: (u8, u8),
        source: &mut S,
    ) -> Result<Option<Loss>, Stop>
        requires { IsOver (S.characters source.old) self.old }
        ensures told { IfOk result (λ loss. S.honest source.old
            → loss ≡ loss_at (seen (S.characters source.old) self.old) marked from to) }
        ensures unchanged { self.new ≡ self.old }
        ensures reads { OnlyReads S.characters S.failures S.honest S.same_ground source.old
            source.new }
        ensures faults { FailsAs Stop.Fault IsStop result (S.failures source.old)
            (S.failures source.new) }
    {
        Ok(loss_at(&mut self.desk, marked, from, to, source)?)
    }

    /// The viewer of an id, if it stands in a track that is shown. None where no viewer of that id does.
    pub fn shown_viewer(&self, id: u16) -> Option<ShownViewer>
        ensures { (characters : List ℕ) → result ≡ shown_viewer (seen characters self.now) id }
    {
        shown_viewer(&self.desk, id)
    }

    /// Where the viewer stands that is seen at a cell, by its column and row. None where none is, and off the display.
    pub fn place_at(&self, cell: (u8, u8)) -> Option<Place>
        ensures { (characters : List ℕ) → result ≡ place_at (seen characters self.now) cell }
    {
        place_at(&self.desk, cell)
    }

    /// The id of the next viewer that opens, that of the one that was closed last and that of the one with the caret,
    /// whether the marker is set, and how many characters the log has.
    pub fn info(&self) -> DeskInfo
        requires { IsKeptWhole self.now }
        ensures { (characters : List ℕ) → result ≡ desk_info (seen characters self.now) }
    {
        desk_info(&self.desk)
    }

    /// The bytes of the log's last whole line without the carriage return that ends it, the first 80 of them at most.
    /// Empty where the log has no whole line.
    ///
    /// It takes no memory. Fault where a character could not be read.
    pub fn last_log_line<S: CharSource>(&self, source: &mut S) -> Result<LogRow, Stop>
        requires { IsOver (S.characters source.old) self.now }
        ensures told { IfOk result (λ line. S.honest source.old
            → line.items ≡ last_log_line (seen (S.characters source.old) self.now)) }
        ensures reads { OnlyReads S.characters S.failures S.honest S.same_ground source.old
            source.new }
        ensures faults { FailsAs Stop.Fault IsStop result (S.failures source.old)
            (S.failures source.new) }
    {
        Ok(last_log_line(&self.desk, source)?)
    }
}
