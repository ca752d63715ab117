//! What holds of all screens, for crates above.
ghost use Rattle.std.specs.Prelude.{◌≡◌, ◌<◌, ℕ, Option, List};
ghost use Rattle.viewer_tracks.specs.Columns.{no_viewers};
ghost use Rattle.screen_pictures.specs.declared.cell.Cell.{Cell as ACell};
ghost use Rattle.screen_pictures.specs.Picture.{Painted, filler_cell, is_at, picture};
ghost use Rattle.screen_pictures.specs.Screen.{screen_of, cell_at};

use viewer_tracks::{COLUMNS, ROWS};

/// A screen has the cells that it is made of.
pub fn cells_of_a_screen()
    ensures { (f : ℕ → ℕ → ACell) (x y : ℕ) → x < COLUMNS → y < ROWS
        → cell_at (screen_of f) x y ≡ f x y }
{}

/// Where there is no viewer, all is filler.
pub fn all_filler_without_viewers()
    ensures { (viewers : List Painted) (marker : Option (ℕ × ℕ)) (x y : ℕ)
        → picture no_viewers viewers marker x y ≡ filler_cell (is_at marker x y) }
{}
