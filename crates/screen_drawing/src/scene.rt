//! What a terminal is to show: a part of a screen, and a line below it.
ghost use Rattle.std.specs.Prelude.{◌≡◌, ◌+◌, ◌-◌, ◌<◌, ◌≤◌, ◌≢◌, ℕ, IfSome, None};
ghost use Rattle.viewer_tracks.specs.declared.display.TheConstants.{COLUMNS as columns, ROWS as rows};
ghost use Rattle.screen_pictures.specs.declared.cell.Mark.{Mark as AMark};
ghost use Rattle.screen_pictures.specs.Screen.{column_at};
ghost use Rattle.screen_drawing.specs.Scene.{IsCaretCell, IsCursorCell, seen_pointer, height_of, IsInSight};
ghost use Rattle.screen_drawing.specs.Scene.{row_of_cells, seen_row, text_below};

use crate::face::{Face, WIDTH};
use crate::pen::WHITE;
use screen_pictures::{Cell, Mark};
use viewer_tracks::{COLUMNS, ROWS};

const HEIGHT: usize = ROWS as usize;

/// What a terminal is to show, from the top: the part of a screen that is in sight, and below it a line of text where
/// there is room for it.
#[derive(Clone, Copy)]
pub struct Scene<'a> {
    /// The rows of the screen, from the bottom up.
    pub screen: &'a [[Cell; WIDTH]; HEIGHT],
    /// The number of rows of the screen above those in sight.
    pub first: u8,
    /// The number of rows of the screen in sight.
    pub rows: u8,
    /// The number of columns of the screen to the left of those in sight.
    pub left: u8,
    /// The number of columns of the screen in sight.
    pub columns: u8,
    /// The number of columns of the terminal, as far as the screen has them. Beside the columns in sight it is blank.
    pub width: u8,
    /// The column and the row of the terminal, from its upper left, of a pointer that keys move. One that isn't in sight
    /// counts for nothing.
    pub pointer: Option<(u8, u8)>,
    /// The text of the line below, of which as many bytes are shown as the terminal has columns.
    pub below: Option<&'a [u8]>,
}

impl Scene<'_> {
    /// The number of rows that it takes.
    pub fn height(&self) -> u8
        requires { IsInSight self.now }
        ensures value { result ≡ height_of self.now }
        ensures fits { result ≤ rows + 1 }
    {
        match self.below {
            Some(_) => self.rows + 1,
            None => self.rows,
        }
    }

    /// The row of the screen in sight that is to be shown in the row `y` from the top.
    pub(crate) fn seen(&self, y: u8) -> &[Cell; WIDTH]
        requires in_sight { IsInSight self.now }
        requires within { y < self.now.rows }
        ensures { result.now ≡ seen_row self.now y }
    {
        &self.screen[usize::from(ROWS - 1 - self.first - y)]
    }

    /// The text of the line below.
    pub(crate) fn text(&self) -> &[u8]
        ensures { result.now ≡ text_below self.now.below }
    {
        match self.below {
            Some(text) => text,
            None => &[],
        }
    }

    /// The column and the row of the terminal, from its upper left, at which the cursor is to be seen: those of the
    /// pointer, or else of a caret in sight.
    pub(crate) fn cursor(&self) -> Option<(u8, u8)>
        requires { IsInSight self.now }
        ensures stands { IsCursorCell self.now result }
        ensures within { IfSome result (λ place. (place.0 < columns) × (place.1 < rows)) }
    {
        match self.seen_pointer() {
            None => self.caret(),
            seen => seen,
        }
    }

    /// The pointer, where that is in sight.
    #[tactic(auto, unfolding(crate::specs::Scene::pointer_in))]
    fn seen_pointer(&self) -> Option<(u8, u8)>
        requires { IsInSight self.now }
        ensures value { result ≡ seen_pointer self.now }
        ensures within { IfSome result (λ place. (place.0 < columns) × (place.1 < rows)) }
    {
        match self.pointer {
            Some((x, y)) if x < self.columns && y < self.rows => Some((x, y)),
            _ => None,
        }
    }

    /// The column and the row of the terminal, from its upper left, of a caret in sight.
    fn caret(&self) -> Option<(u8, u8)>
        requires { IsInSight self.now }
        ensures stands { IsCaretCell self.now result }
        ensures within { IfSome result (λ place. (place.0 < columns) × (place.1 < rows)) }
    {
        for y in 0..self.rows {
            if let Some(x) = caret_in(self.seen(y), self.left, self.columns) {
                return Some((x, y));
            }
        }
        None
    }
}

/// What a terminal shows for a whole row of cells.
pub fn row_of_cells(cells: &[Cell; WIDTH]) -> [Face; WIDTH]
    ensures { result ≡ row_of_cells cells.now }
{
    let mut row = [Face::blank(WHITE); WIDTH];
    for x in 0..COLUMNS {
        row[usize::from(x)] = Face::of(&cells[usize::from(x)], x);
    }
    row
}

/// The column of the first caret in so many columns of a row, counted from `left`.
fn caret_in(cells: &[Cell; WIDTH], left: u8, count: u8) -> Option<u8>
    requires { left + count ≤ columns }
    ensures there { IfSome result (λ x. x < count) }
    ensures caret { IfSome result (λ x. (column_at cells.now (left + x)).mark ≡ AMark.Caret) }
    ensures nowhere { result ≡ None → (x : ℕ) → x < count
        → (column_at cells.now (left + x)).mark ≢ AMark.Caret }
{
    for x in 0..count {
        if cells[usize::from(left + x)].mark == Mark::Caret {
            return Some(x);
        }
    }
    None
}
