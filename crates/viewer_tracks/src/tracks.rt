//! The tracks of the display, which callers open, change and close viewers in.
ghost use Rattle.std.specs.Prelude.{◌≡◌, ◌<◌, ◌≤◌, ◌↔◌, IsTrue, IfSome, length, slice_get, Some};
ghost use Rattle.std.specs.Option.{ForSome};
ghost use Rattle.viewer_tracks.specs.Display.{left_of, track_at};
ghost use Rattle.viewer_tracks.specs.Viewers.{id_number, entry_viewer, times_in};
ghost use Rattle.viewer_tracks.specs.Heights.{as_entry};

use crate::display::{COLUMNS, DEPTH, ROWS, Track};
use crate::stack::Stack;
use crate::viewer_id::ViewerId;
use std::marker::Model;

/// The tracks of the display, each viewer in one place at most. They take no memory. A clause sees them as two columns,
/// each the list of its tracks with the topmost first, and a track as the list of its viewers with their heights.
#[derive(Debug, Drop)]
pub struct Tracks {
    user: Stack,
    system: Stack,
}

impl Model for Tracks {
    ghost use Rattle.viewer_tracks.specs.Columns.{Columns, IsColumns};

    ghost Value = { Columns };

    ghost view = { λ t. record { user = t.user; system = t.system } };

    ghost invariant = { λ t. IsColumns (record { user = t.user; system = t.system }) };
}

/// Where a viewer stands.
#[derive(Clone, Copy, Debug, PartialEq, Eq)]
pub struct Place {
    /// The leftmost column of its track, 0 or 50, wherever in the track it was opened.
    pub x: u8,
    /// The row at which it begins.
    pub bottom: u8,
    /// The row before which it ends, at most 32.
    pub top: u8,
}

impl Tracks {
    ghost use Rattle.viewer_tracks.specs.Columns.{Columns, IsColumns, IsPlaced, IsOnTop, no_viewers, track_of};
    ghost use Rattle.viewer_tracks.specs.Columns.{placed_bottom, placed_top, StandsAt, stack_of, shown_track, track_on};
    ghost use Rattle.viewer_tracks.specs.Columns.{seen_at, at_level, replaced_at, allocated};
    ghost use Rattle.viewer_tracks.specs.Columns.{after_open, after_open_track, columns_changed, after_close};

    /// Two tracks that are all filler.
    pub fn new() -> Self
        ensures empty { result ≡ no_viewers }
        ensures sound { IsColumns result }
    {
        Tracks {
            user: Stack::new(),
            system: Stack::new(),
        }
    }

    /// Whether a viewer stands in a track, be it shown or covered. Callers of the other calls meet their conditions by
    /// it.
    pub fn contains(&self, viewer: ViewerId) -> bool
        ensures placed { IsTrue result ↔ IsPlaced viewer.0 self.now }
        ensures sound { IsColumns self.now }
    {
        self.user.contains(viewer) || self.system.contains(viewer)
    }

    /// Whether a viewer stands in a track that is shown.
    pub fn is_on_top(&self, viewer: ViewerId) -> bool
        ensures shown { IsTrue result ↔ IsOnTop viewer.0 self.now }
        ensures sound { IsColumns self.now }
    {
        self.user.shown().contains(viewer) || self.system.shown().contains(viewer)
    }

    /// Whether a viewer stands in the track that a column shows.
    pub fn is_shown_in(&self, track: Track, viewer: ViewerId) -> bool
        ensures { IsTrue result ↔ (0 < times_in viewer.0 (shown_track self.now track)) }
    {
        self.stack(track).shown().contains(viewer)
    }

    /// How many tracks lie over one another in the column of the display that has the column `x` of characters.
    pub fn depth(&self, x: u8) -> u8
        requires { x < COLUMNS }
        ensures depth { result ≡ length (stack_of self.now (track_at x)) }
        ensures some { 0 < result }
        ensures few { result ≤ DEPTH }
    {
        self.levels(Track::at(x))
    }

    /// How many tracks lie over one another in a column.
    pub fn levels(&self, track: Track) -> u8
        ensures depth { result ≡ length (stack_of self.now track) }
        ensures some { 0 < result }
        ensures few { result ≤ DEPTH }
    {
        self.stack(track).depth()
    }

    /// The tracks of a column.
    fn stack(&self, track: Track) -> &Stack
        ensures { result.now ≡ stack_of self.now track }
    {
        match track {
            Track::User => &self.user,
            Track::System => &self.system,
        }
    }

    /// Opens a viewer in the track of column `x`, up to row `y` (any row above the display is its upper edge), and
    /// returns the viewer whose whole place it took.
    #[tactic(auto, using(crate::proofs::ColumnLemmas::after_opens))]
    pub fn open(&mut self, viewer: ViewerId, x: u8, y: u8) -> Option<ViewerId>
        requires fresh { ¬ IsPlaced viewer.0 self.old }
        requires in_display { x < COLUMNS }
        ensures opened { self.new ≡ after_open self.old viewer.0 x y }
        ensures replaced { id_number result ≡ replaced_at self.old x y }
        ensures sound { IsColumns self.new }
    {
        match Track::at(x) {
            Track::User => self.user.open(viewer, y),
            Track::System => self.system.open(viewer, y),
        }
    }

    /// Covers the track of column `x` by a new one, all of which a viewer has.
    #[tactic(auto, using(crate::proofs::ColumnLemmas::after_covers))]
    pub fn open_track(&mut self, viewer: ViewerId, x: u8)
        requires fresh { ¬ IsPlaced viewer.0 self.old }
        requires in_display { x < COLUMNS }
        requires room { length (stack_of self.old (track_at x)) < DEPTH }
        ensures opened { self.new ≡ after_open_track self.old viewer.0 x }
        ensures sound { IsColumns self.new }
    {
        match Track::at(x) {
            Track::User => self.user.cover(viewer),
            Track::System => self.system.cover(viewer),
        }
    }

    /// The viewer whose whole place one takes that opens in the track of column `x`, up to row `y`.
    pub fn replaced(&self, x: u8, y: u8) -> Option<ViewerId>
        requires { x < COLUMNS }
        ensures { id_number result ≡ replaced_at self.now x y }
    {
        self.stack(Track::at(x)).shown().replaced(y)
    }

    /// Moves the top of a shown viewer to row `y`, or as near to it as the display and a viewer above let it. Where `y`
    /// would leave the viewer no row, nothing changes.
    #[tactic(auto, using(crate::proofs::ColumnLemmas::after_changes))]
    pub fn change(&mut self, viewer: ViewerId, y: u8)
        requires { IsOnTop viewer.0 self.old }
        ensures changed { self.new ≡ columns_changed self.old viewer.0 y }
        ensures sound { IsColumns self.new }
    {
        match self.column_of(viewer) {
            Track::User => self.user.change(viewer, y),
            Track::System => self.system.change(viewer, y),
        }
    }

    /// Takes a shown viewer away. The viewer above it, or the filler, gets its rows; the only viewer of a track that
    /// covers another takes its track away with it.
    #[tactic(auto, using(crate::proofs::ColumnLemmas::after_closes))]
    pub fn close(&mut self, viewer: ViewerId)
        requires { IsOnTop viewer.0 self.old }
        ensures closed { self.new ≡ after_close self.old viewer.0 }
        ensures sound { IsColumns self.new }
    {
        match self.column_of(viewer) {
            Track::User => self.user.close(viewer),
            Track::System => self.system.close(viewer),
        }
    }

    /// The column in which a shown viewer stands.
    fn column_of(&self, viewer: ViewerId) -> Track
        requires { IsOnTop viewer.0 self.now }
        ensures column { result ≡ track_of self.now viewer.0 }
        ensures shown { 0 < times_in viewer.0 (shown_track self.now result) }
    {
        if self.user.shown().contains(viewer) {
            Track::User
        } else {
            Track::System
        }
    }

    /// The viewer that is seen at column `x` and row `y`, or `None` in a filler.
    pub fn at(&self, x: u8, y: u8) -> Option<ViewerId>
        requires column_in_display { x < COLUMNS }
        requires row_in_display { y < ROWS }
        ensures seen { id_number result ≡ seen_at self.now x y }
        ensures stands { IfSome result (λ v. StandsAt self.now v.0 x y) }
    {
        let _ = &self.user;
        self.stack(Track::at(x)).shown().at(y)
    }

    /// The viewer that the track of a level has at column `x` and row `y`, or `None` in its filler. The lowest track
    /// has level 1.
    pub fn at_level(&self, level: u8, x: u8, y: u8) -> Option<ViewerId>
        requires column_in_display { x < COLUMNS }
        requires row_in_display { y < ROWS }
        requires some { 0 < level }
        requires within { level ≤ length (stack_of self.now (track_at x)) }
        ensures { id_number result ≡ at_level self.now level x y }
    {
        self.stack(Track::at(x)).track(level).at(y)
    }

    /// Where a viewer stands, in a shown track or a covered one.
    #[tactic(auto, using(crate::proofs::ColumnLemmas::track_of_user, crate::proofs::ColumnLemmas::track_of_system))]
    pub fn place_of(&self, viewer: ViewerId) -> Place
        requires { IsPlaced viewer.0 self.now }
        ensures x { result.x ≡ left_of (track_of self.now viewer.0) }
        ensures bottom { result.bottom ≡ placed_bottom self.now viewer.0 }
        ensures top { result.top ≡ placed_top self.now viewer.0 }
        ensures some { result.bottom < result.top }
        ensures within { result.top ≤ ROWS }
    {
        let (track, rows) = if self.user.contains(viewer) {
            (Track::User, self.user.rows_of(viewer))
        } else {
            (Track::System, self.system.rows_of(viewer))
        };
        Place {
            x: track.left(),
            bottom: rows.start,
            top: rows.end,
        }
    }

    /// The viewer of that place in the track that a column shows, counted from 0 at the bottom. None past the topmost.
    pub fn viewer_in(&self, track: Track, index: u8) -> Option<ViewerId>
        ensures viewer { id_number result ≡ entry_viewer (shown_track self.now track) index }
        ensures shown { IfSome result (λ v. IsOnTop v.0 self.now) }
    {
        self.stack(track).shown().nth(index)
    }

    /// How many viewers stand in the track of a level, where the lowest has level 1.
    pub fn count(&self, track: Track, level: u8) -> u8
        requires some { 0 < level }
        requires within { level ≤ length (stack_of self.now track) }
        ensures count { result ≡ length (track_on (stack_of self.now track) level) }
        ensures few { result ≤ ROWS }
    {
        self.stack(track).track(level).count()
    }

    /// The viewer of that place in the track of a level, counted from 0 at the bottom, and how many rows it has. The
    /// lowest track has level 1.
    pub fn entry_in(&self, track: Track, level: u8, index: u8) -> (ViewerId, u8)
        requires some { 0 < level }
        requires within { level ≤ length (stack_of self.now track) }
        requires in_bounds { index < length (track_on (stack_of self.now track) level) }
        ensures entry { slice_get (track_on (stack_of self.now track) level) index
            ≡ Some (as_entry result) }
        ensures placed { IsPlaced result.0.0 self.now }
    {
        self.stack(track).track(level).entry(index)
    }

    /// The cell, as column and row, at which to open a new viewer: right above the marker, in whichever track that is,
    /// or without a marker in the left column of `track` where the track that is shown there has room.
    pub fn allocate(&self, track: Track, marker: Option<(u8, u8)>) -> (u8, u8)
        requires { ForSome marker (λ m. (m.0 < COLUMNS) × (m.1 < ROWS)) }
        ensures cell { result ≡ allocated self.now track marker }
        ensures column { result.0 < COLUMNS }
        ensures row { result.1 ≤ ROWS }
    {
        match marker {
            Some((x, y)) => (x, y + 1),
            None => (track.left(), self.stack(track).shown().free_row()),
        }
    }
}
