//! Cells of the display, as a terminal points at them.
ghost use Rattle.std.specs.Prelude.{◌≡◌};
ghost use Rattle.terminal_presses.specs.Sights.{cell_shown, spot_in};

use crate::sight::Sight;

/// A cell of the display, by its column and its row, both counted from 0 at the lower left.
#[derive(Clone, Copy, Debug, PartialEq, Eq)]
pub struct Spot {
    pub x: u8,
    pub y: u8,
}

impl Spot {
    /// The cell in sight that is nearest to a column and a row of the terminal, which are counted from 1.
    #[tactic(auto, unfolding(crate::specs::Sights::spot_in))]
    pub fn nearest(sight: Sight, column: u16, row: u16) -> Spot
        ensures { result ≡ spot_in sight column row }
    {
        let right = column.saturating_sub(1).min(sight.columns() as u16 - 1);
        let down = row.saturating_sub(1).min(sight.rows() as u16 - 1);
        Spot {
            x: sight.first_column() + right as u8,
            y: sight.top() - down as u8,
        }
    }

    /// The cell that a column and a row of the terminal show. None outside the display.
    pub fn shown(sight: Sight, column: u16, row: u16) -> Option<Spot>
        ensures { result ≡ cell_shown sight column row }
    {
        if sight.shows(column, row) {
            Some(Spot::nearest(sight, column, row))
        } else {
            None
        }
    }
}
