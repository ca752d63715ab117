//! What is marked: the marker, the caret, selections.
ghost use Rattle.std.specs.Prelude.{◌≡◌, ◌&&◌, Ok, ⊤};
ghost use Rattle.desktop_definitions.specs.Step.{marked};
ghost use Rattle.desktop_definitions.specs.Limits.{outside};
ghost use Rattle.desktop_definitions.specs.Viewers.{with_caret};
ghost use Rattle.desktop_definitions.specs.Gesture.{is_on_display, is_some_stretch, drawn_in};
ghost use Rattle.desk_core.specs.Words.{IsOver, kept_desktop, IsPosition, Does, DoesUnread, unless};

use crate::desk::Desk;
use crate::stop::StepResult;
use crate::tables::unselect;
use crate::viewers::select;
use char_file::CharSource;
use desktop_definitions::{Caret, Reply, Selection, codes};
use viewer_tracks::{COLUMNS, ROWS};

/// Whether a cell is on the display.
fn is_on_display(x: u8, y: u8) -> bool
    ensures { result ≡ is_on_display x y }
{
    x < COLUMNS && y < ROWS
}

/// Whether both cells are, each as column and row.
pub fn are_on_display(from: (u8, u8), to: (u8, u8)) -> bool
    ensures { result ≡ (is_on_display from.0 from.1 && is_on_display to.0 to.1) }
{
    is_on_display(from.0, from.1) && is_on_display(to.0, to.1)
}

/// Whether a stretch has a character.
fn is_some_stretch(stretch: Selection) -> bool
    ensures { result ≡ is_some_stretch stretch }
{
    stretch.beg < stretch.end
}

impl Desk {
    /// Sets the marker to a cell. Refused where that is outside the display.
    pub fn mark<S: CharSource>(&mut self, x: u8, y: u8, source: &mut S) -> StepResult
        requires over { IsOver (S.characters source.old) (kept_desktop self.old) }
        ensures { DoesUnread S.CharSource ⊤
            (λ d. unless (is_on_display x y) outside (Ok (marked d x y))) result
            source.old source.new (kept_desktop self.old) (kept_desktop self.new) }
    {
        if !is_on_display(x, y) {
            return Ok(Reply::No(codes::OUTSIDE));
        }
        self.marker = Some((x, y));
        Ok(Reply::Done)
    }

    /// The caret comes to stand at `pos` in a viewer.
    pub fn set_caret<S: CharSource>(&mut self, id: u16, pos: u32, source: &mut S) -> StepResult
        requires at { IsPosition (kept_desktop self.old) id pos }
        requires over { IsOver (S.characters source.old) (kept_desktop self.old) }
        ensures { Does S.CharSource (λ d. Ok (with_caret d id pos)) result
            source.old source.new (kept_desktop self.old) (kept_desktop self.new) }
    {
        self.caret = Some(Caret {
            viewer: id,
            position: pos,
        });
        Ok(Reply::Done)
    }

    /// A stretch is selected; where it is empty, nothing of its viewer is.
    pub fn select<S: CharSource>(&mut self, drawn: Selection, source: &mut S) -> StepResult
        requires at { IsPosition (kept_desktop self.old) drawn.viewer drawn.end }
        requires over { IsOver (S.characters source.old) (kept_desktop self.old) }
        ensures { Does S.CharSource (λ d. Ok (drawn_in d drawn)) result
            source.old source.new (kept_desktop self.old) (kept_desktop self.new) }
    {
        if is_some_stretch(drawn) {
            select(&mut self.selections, drawn)?;
            return Ok(Reply::Done);
        }
        unselect(&mut self.selections, drawn.viewer);
        Ok(Reply::Done)
    }
}
