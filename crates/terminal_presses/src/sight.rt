//! The part of the display that a terminal shows.
ghost use Rattle.std.specs.Prelude.{◌≡◌, ◌+◌, ◌-◌, ◌<◌, ◌≤◌};
ghost use Rattle.viewer_tracks.specs.declared.display.TheConstants.{COLUMNS as display_columns, ROWS};
ghost use Rattle.viewer_tracks.specs.declared.display.Track.TheVariants.{User};
ghost use Rattle.terminal_presses.specs.Sights.{IsSight, columns_in_sight, first_column, is_in_sight, terminal_place};

use std::marker::Model;
use viewer_tracks::{COLUMNS, ROWS, SYSTEM_LEFT, Track};

/// The part of the display that a terminal shows: rows from its own first row downward, at least one, and all columns, or
/// where it has fewer than the display those of one side. A clause sees `top`, the row of the display that the terminal's
/// first row shows, counted upward from 0 at the bottom, and how many `rows` are in sight; how many columns the terminal
/// has, as far as the display has them, as `width`, and the `side`.
#[derive(Clone, Copy, Debug, PartialEq, Eq)]
pub struct Sight {
    top: u8,
    rows: u8,
    width: u8,
    side: Track,
}

impl Model for Sight {
    ghost use Rattle.std.specs.Prelude.{◌≡◌};
    ghost use Rattle.terminal_presses.specs.Sights.{IsSight, Sight as SightView};

    ghost Value = { SightView };

    ghost view = { λ s. record { top = s.top; rows = s.rows; width = s.width; side = s.side } };

    ghost inverse = { λ s. record { top = s.top; rows = s.rows; width = s.width; side = s.side } };

    ghost invariant = { λ s. IsSight (record {
      top = s.top;
      rows = s.rows;
      width = s.width;
      side = s.side;
    }) };
}

impl Sight {
    /// The rows from `top` downward, with all columns.
    pub fn new(top: u8, rows: u8) -> Sight
        requires top { top < ROWS }
        requires least { 1 ≤ rows }
        requires within { rows ≤ top + 1 }
        ensures { result ≡ record { top = top; rows = rows; width = display_columns; side = User } }
    {
        Sight {
            top,
            rows,
            width: COLUMNS,
            side: Track::User,
        }
    }

    /// The whole display.
    pub fn whole() -> Sight
        ensures { result
            ≡ record { top = ROWS - 1; rows = ROWS; width = display_columns; side = User } }
    {
        Sight::new(ROWS - 1, ROWS)
    }

    /// Other rows: those from `top` downward.
    pub fn with_rows(self, top: u8, rows: u8) -> Sight
        requires top { top < ROWS }
        requires least { 1 ≤ rows }
        requires within { rows ≤ top + 1 }
        ensures { result ≡ record self { top = top; rows = rows } }
    {
        Sight { top, rows, ..self }
    }

    /// In a terminal of so many columns, as far as the display has them.
    pub fn with_width(self, width: u8) -> Sight
        requires least { 1 ≤ width }
        requires within { width ≤ display_columns }
        ensures { result ≡ record self { width = width } }
    {
        Sight { width, ..self }
    }

    /// With that side, where the terminal has fewer columns than the display.
    pub fn on(self, side: Track) -> Sight
        ensures { result ≡ record self { side = side } }
    {
        Sight { side, ..self }
    }

    /// The row of the display in the terminal's first row.
    pub fn top(self) -> u8
        ensures top { result ≡ self.top }
        ensures within { IsSight self }
    {
        self.top
    }

    /// How many rows are in sight.
    pub fn rows(self) -> u8
        ensures rows { result ≡ self.rows }
        ensures within { IsSight self }
    {
        self.rows
    }

    /// How many columns the terminal has, as far as the display has them.
    pub fn width(self) -> u8
        ensures width { result ≡ self.width }
        ensures within { IsSight self }
    {
        self.width
    }

    /// The column of the display in the terminal's first column.
    #[tactic(auto, unfolding(crate::specs::Sights::first_column))]
    pub fn first_column(self) -> u8
        ensures value { result ≡ first_column self }
        ensures within { result ≤ SYSTEM_LEFT }
    {
        if self.width == COLUMNS {
            0
        } else {
            self.side.left()
        }
    }

    /// How many columns are in sight.
    #[tactic(auto, unfolding(crate::specs::Sights::columns_in_sight, crate::specs::Sights::first_column))]
    pub fn columns(self) -> u8
        ensures value { result ≡ columns_in_sight self }
        ensures least { 1 ≤ result }
        ensures most { result ≤ self.width }
        ensures within { first_column self + result ≤ display_columns }
    {
        if self.width == COLUMNS {
            return COLUMNS;
        }
        match self.side {
            Track::User => self.width.min(SYSTEM_LEFT),
            Track::System => self.width.min(COLUMNS - SYSTEM_LEFT),
        }
    }

    /// The column and the row of the terminal, counted from 0 at its upper left, at which a cell of the display is. None to
    /// the left of what is in sight, or above it.
    #[tactic(auto, unfolding(crate::specs::Sights::terminal_place))]
    pub fn place(self, cell: (u8, u8)) -> Option<(u8, u8)>
        ensures { result ≡ terminal_place self cell }
    {
        let (x, y) = cell;
        let left = self.first_column();
        if left <= x && y <= self.top {
            Some((x - left, self.top - y))
        } else {
            None
        }
    }

    /// Whether a column and a row of the terminal, which are counted from 1, show a cell of the display.
    #[tactic(auto, unfolding(crate::specs::Sights::is_in_sight))]
    pub(crate) fn shows(self, column: u16, row: u16) -> bool
        ensures { result ≡ is_in_sight self column row }
    {
        1 <= column
            && column <= u16::from(self.columns())
            && 1 <= row
            && row <= u16::from(self.rows)
    }
}
