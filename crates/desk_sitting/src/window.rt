//! The window has another size.
ghost use Rattle.std.specs.Prelude.{◌≡◌};
ghost use Rattle.desk_sitting.specs.Sittings.{fitted_in, is_other_size, told_sight};

use crate::sitting::Sitting;
use screen_reading::{fitted, height_told, is_low, is_narrow, width_told};
use status_line::fitted_saying;
use terminal_presses::Sight;

/// What is in sight in a window of which this size is told.
fn told_sight(rows: u16, columns: u16, sight: Sight) -> Sight
    ensures { result ≡ told_sight rows columns sight }
{
    fitted(height_told(rows, columns), width_told(rows, columns), sight)
}

/// Whether two windows have other sizes.
fn is_other_size(old: Sight, new: Sight) -> bool
    ensures { result ≡ is_other_size old new }
{
    !(old.rows() == new.rows() && old.width() == new.width())
}

impl Sitting {
    /// The size of the window is told. Where it is another one the rows in sight follow the caret.
    pub(crate) fn fit(&mut self, rows: u16, columns: u16)
        ensures { self.new ≡ fitted_in rows columns self.old }
    {
        let sight = told_sight(rows, columns, self.sight);
        self.follows = self.follows || is_other_size(self.sight, sight);
        self.sight = sight;
        self.saying = fitted_saying(
            is_narrow(rows, columns),
            is_low(rows, columns),
            self.resting,
            self.saying,
        );
        self.forgets = true;
    }
}
