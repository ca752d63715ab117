//! What holds of all tracks: laws of the definitions, which a crate above may learn from these calls.
ghost use Rattle.std.specs.Prelude.{◌≡◌, ◌<◌, ◌≤◌, ◌+◌, ℕ, List, [], ◌∷◌, length, Some};
ghost use Rattle.viewer_tracks.specs.declared.display.TheConstants.{ROWS, DEPTH};
ghost use Rattle.viewer_tracks.specs.Display.{track_at};
ghost use Rattle.viewer_tracks.specs.Viewers.{Entry, IsTrack, bottom_of, times_in};
ghost use Rattle.viewer_tracks.specs.Edits.{change_top};
ghost use Rattle.viewer_tracks.specs.Columns.{Columns, IsColumns, IsPlaced, IsOnTop, StandsAt, seen_at, shown_track};
ghost use Rattle.viewer_tracks.specs.Columns.{times_placed, times_shown, times_meant, stack_of, with_stack};
ghost use Rattle.viewer_tracks.specs.Columns.{covered_of, placed_in, track_of};
ghost use Rattle.viewer_tracks.specs.Columns.{replaced_at, after_open, after_open_track, columns_changed, after_close};
ghost use Rattle.viewer_tracks.specs.Rows.{OpensRows, ChangesRows, ClosesRows};

/// A viewer that opens takes rows of one viewer or of the filler alone, and no other row changes hands.
pub fn open_takes_rows_of_one_entry()
    ensures { (t : List Entry) (v y : ℕ) → IsTrack t → OpensRows t v y }
{}

/// A viewer whose top moves trades rows with the one above it alone.
pub fn change_moves_one_border()
    ensures { (t : List Entry) (i y : ℕ) → IsTrack t → i < length t
        → bottom_of t i < change_top t i y
        → ChangesRows t i y }
{}

/// The rows of a closed viewer go to the one above it, and no other row changes hands.
pub fn close_gives_to_the_one_above()
    ensures { (t : List Entry) (i : ℕ) → IsTrack t → i < length t → ClosesRows t i }
{}

/// Columns stay sound: heights fit the display, overlays have viewers, and each viewer stands in one place at most.
pub fn edits_keep_columns()
    ensures opened { (c : Columns) (v x y : ℕ) → IsColumns c → ¬ IsPlaced v c
        → IsColumns (after_open c v x y) }
    ensures covered { (c : Columns) (v x : ℕ) → IsColumns c → ¬ IsPlaced v c
        → length (stack_of c (track_at x)) < DEPTH → IsColumns (after_open_track c v x) }
    ensures changed { (c : Columns) (v y : ℕ) → IsColumns c → IsOnTop v c
        → IsColumns (columns_changed c v y) }
    ensures closed { (c : Columns) (v : ℕ) → IsColumns c → IsOnTop v c
        → IsColumns (after_close c v) }
{}

/// An opened viewer is placed and the replaced one is no longer, a closed one is no longer, and no other comes or goes.
pub fn edits_place_viewers()
    ensures opened { (c : Columns) (v x y w : ℕ) → IsColumns c →
        times_placed w (after_open c v x y) + times_meant w (replaced_at c x y)
        ≡ times_placed w c + times_meant w (Some v) }
    ensures covered { (c : Columns) (v x w : ℕ) →
        times_placed w (after_open_track c v x) ≡ times_placed w c + times_meant w (Some v) }
    ensures changed { (c : Columns) (v y w : ℕ) → IsColumns c → IsOnTop v c →
        times_placed w (columns_changed c v y) ≡ times_placed w c }
    ensures closed { (c : Columns) (v w : ℕ) → IsColumns c → IsOnTop v c →
        times_placed w (after_close c v) + times_meant w (Some v) ≡ times_placed w c }
{}

/// Who is shown after an edit: as who is placed, but that a new track covers those that its column showed, and that an
/// overlay which goes shows those under it.
pub fn edits_show_viewers()
    ensures opened { (c : Columns) (v x y w : ℕ) → IsColumns c →
        times_shown w (after_open c v x y) + times_meant w (replaced_at c x y)
        ≡ times_shown w c + times_meant w (Some v) }
    ensures covered { (c : Columns) (v x w : ℕ) →
        times_shown w (after_open_track c v x) + times_in w (shown_track c (track_at x))
        ≡ times_shown w c + times_meant w (Some v) }
    ensures changed { (c : Columns) (v y w : ℕ) → IsColumns c → IsOnTop v c →
        times_shown w (columns_changed c v y) ≡ times_shown w c }
    ensures closed { (c : Columns) (v w : ℕ) → IsColumns c → IsOnTop v c →
        times_shown w c ≤ times_shown w (after_close c v) + times_meant w (Some v) }
{}

/// What opens, changes or closes in the shown tracks leaves the covered ones; only an overlay that goes takes the
/// track under it from them.
pub fn edits_leave_the_covered()
    ensures opened { (c : Columns) (v x y : ℕ) → covered_of (after_open c v x y) ≡ covered_of c }
    ensures changed { (c : Columns) (v y : ℕ) → covered_of (columns_changed c v y) ≡ covered_of c }
{}

/// A viewer that opened in a track of its own and is closed leaves the columns as they were.
pub fn close_uncovers()
    ensures { (c : Columns) (v x : ℕ) → IsColumns c → ¬ IsPlaced v c
        → length (stack_of c (track_at x)) < DEPTH
        → after_close (after_open_track c v x) v ≡ c }
{}

/// A viewer that opened in a track of its own and is changed to a row has the rows below it, and the filler the others.
pub fn change_lowers_a_new_track()
    ensures { (c : Columns) (v x y : ℕ) → IsColumns c → ¬ IsPlaced v c
        → length (stack_of c (track_at x)) < DEPTH
        → 0 < y → y ≤ ROWS
        → columns_changed (after_open_track c v x) v y
        ≡ with_stack c (track_at x)
        ((record { viewer = v; height = y } ∷ []) ∷ stack_of c (track_at x)) }
{}

/// A shown viewer is placed.
pub fn shown_viewers_are_placed()
    ensures { (c : Columns) (v : ℕ) → times_shown v c ≤ times_placed v c }
{}

/// The track in which a shown viewer stands is the one that its column shows.
pub fn shown_viewers_stand_on_top()
    ensures { (c : Columns) (v : ℕ) → IsColumns c → IsOnTop v c → placed_in c v
        ≡ shown_track c (track_of c v) }
{}

/// A viewer that is seen at a cell is shown and has that cell.
pub fn seen_viewers_stand_there()
    ensures { (c : Columns) (v x y : ℕ) → IsColumns c → seen_at c x y ≡ Some v → StandsAt c v x y }
{}
