//! What the mouse does in a menu: viewers move and change their height.
ghost use Rattle.std.specs.Prelude.{◌≡◌, ◌<◌, ◌+◌, Ok, ⊤};
ghost use Rattle.desktop_definitions.specs.Viewers.{opened_at};
ghost use Rattle.desktop_definitions.specs.Gesture.{resized, after_move};
ghost use Rattle.desk_core.specs.Words.{IsOnTop, IsPlaced, without_unshown, IsOver, kept_desktop, DoesUnread, ROWS, COLUMNS};

use crate::desk::Desk;
use crate::stop::StepResult;
use char_file::CharSource;
use desktop_definitions::Reply;
use viewer_tracks::{ViewerId, edits_keep_columns, edits_place_viewers};

impl Desk {
    /// The top of a viewer goes to row `y`, or as near to it as the display and the viewer above let it.
    pub fn resize<S: CharSource>(&mut self, id: u16, y: u8, source: &mut S) -> StepResult
        requires placed { IsOnTop id (kept_desktop self.old).columns }
        requires row { y < ROWS }
        requires over { IsOver (S.characters source.old) (kept_desktop self.old) }
        ensures { DoesUnread S.CharSource ⊤ (λ d. Ok (resized d id y)) result
            source.old source.new (kept_desktop self.old) (kept_desktop self.new) }
    {
        edits_place_viewers();
        self.tracks.change(ViewerId(id), y + 1);
        Ok(Reply::Done)
    }

    /// A viewer is closed and opened at the cell above (`x`, `y`), with what is marked in it. If it takes the
    /// whole place of another viewer, that one is removed, with the texts that no other viewer shows.
    pub fn carry<S: CharSource>(&mut self, id: u16, x: u8, y: u8, source: &mut S) -> StepResult
        requires placed { IsOnTop id (kept_desktop self.old).columns }
        requires column { x < COLUMNS }
        requires row { y < ROWS }
        requires over { IsOver (S.characters source.old) (kept_desktop self.old) }
        ensures { DoesUnread S.CharSource ⊤ (λ d. Ok (after_move d id x y)) result
            source.old source.new (kept_desktop self.old) (kept_desktop self.new) }
    {
        edits_keep_columns();
        edits_place_viewers();
        self.tracks.close(ViewerId(id));
        self.open_at(id, x, y + 1);
        Ok(Reply::Done)
    }

    /// A viewer that stands nowhere opens in the track of column `x`, up to row `y`. If it takes the whole
    /// place of another viewer, that one is removed, with the texts that no other viewer shows.
    pub fn open_at(&mut self, id: u16, x: u8, y: u8)
        requires fresh { ¬ IsPlaced id (kept_desktop self.old).columns }
        requires column { x < COLUMNS }
        ensures { kept_desktop self.new
            ≡ without_unshown (opened_at (kept_desktop self.old) id (x, y)) }
    {
        let gone = self.tracks.open(ViewerId(id), x, y);
        self.let_go(gone);
    }
}
