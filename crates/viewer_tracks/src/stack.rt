//! The tracks of a column, over one another. A clause sees them as a list with the topmost first.
ghost use Rattle.std.specs.Prelude.{◌≡◌, ◌<◌, ◌≤◌, ◌↔◌, [], ◌∷◌, IsTrue, length};
ghost use Rattle.viewer_tracks.specs.Viewers.{times_in, entry_of, bottom_of, top_of, id_number};
ghost use Rattle.viewer_tracks.specs.Edits.{opened, replaced, changed};
ghost use Rattle.viewer_tracks.specs.Columns.{topmost, with_topmost, track_on, track_with, times_on};
ghost use Rattle.viewer_tracks.specs.Columns.{whole_track, closed_on};

use crate::display::{DEPTH, ROWS};
use crate::levels;
use crate::viewer_id::ViewerId;
use crate::viewers::Viewers;
use std::array;
use std::marker::Model;
use std::ops::Range;

const LEVELS: usize = DEPTH as usize;

/// One to eight tracks, from the lowest up; the last of them is shown, and the others are covered. Tracks past it are
/// what closed overlays left.
#[derive(Debug, Drop)]
pub struct Stack {
    tracks: [Viewers; LEVELS],
    covered: usize,
}

impl Model for Stack {
    ghost use Rattle.std.specs.Prelude.{◌<◌, List};
    ghost use Rattle.viewer_tracks.specs.Viewers.{Entry};
    ghost use Rattle.viewer_tracks.specs.Levels.{stack_over};
    ghost use Rattle.viewer_tracks.specs.declared.stack.TheConstants.{LEVELS};

    ghost Value = { List (List Entry) };

    ghost view = { λ s. stack_over s.tracks s.covered };

    ghost invariant = { λ s. s.covered < LEVELS };
}

impl Stack {
    /// A track that is all filler.
    pub fn new() -> Self
        ensures { result ≡ [] ∷ [] }
    {
        Stack {
            tracks: array::from_fn(|_| Viewers::new()),
            covered: 0,
        }
    }

    /// How many tracks there are.
    pub fn depth(&self) -> u8
        ensures depth { result ≡ length self.now }
        ensures some { 0 < result }
        ensures few { result ≤ DEPTH }
    {
        self.covered as u8 + 1
    }

    /// The track that is shown.
    pub fn shown(&self) -> &Viewers
        ensures { result.now ≡ topmost self.now }
    {
        &self.tracks[self.covered]
    }

    /// The track of a level, counted from 1 at the lowest.
    pub fn track(&self, level: u8) -> &Viewers
        requires some { 0 < level }
        requires within { level ≤ length self.now }
        ensures { result.now ≡ track_on self.now level }
    {
        &self.tracks[usize::from(level) - 1]
    }

    /// Whether a viewer stands in a track.
    pub fn contains(&self, viewer: ViewerId) -> bool
        ensures { IsTrue result ↔ (0 < times_on viewer.0 self.now) }
    {
        levels::have(&self.tracks, self.covered, viewer)
    }

    /// The rows that a viewer has in its track.
    pub fn rows_of(&self, viewer: ViewerId) -> Range<u8>
        requires { 0 < times_on viewer.0 self.now }
        ensures start { let t =
            track_with viewer.0 self.now in result.start ≡ bottom_of t (entry_of t viewer.0) }
        ensures end { let t =
            track_with viewer.0 self.now in result.end ≡ top_of t (entry_of t viewer.0) }
        ensures some { result.start < result.end }
        ensures within { result.end ≤ ROWS }
    {
        let index = levels::index_with(&self.tracks, self.covered, viewer);
        self.tracks[index].rows_of(viewer)
    }

    /// Opens a viewer at row `y` of the shown track, and returns the one whose whole place it took.
    pub fn open(&mut self, viewer: ViewerId, y: u8) -> Option<ViewerId>
        ensures stack { self.new ≡ with_topmost self.old (opened (topmost self.old) viewer.0 y) }
        ensures replaced { id_number result ≡ replaced (topmost self.old) y }
    {
        self.tracks[self.covered].open(viewer, y)
    }

    /// Covers the shown track by one that a viewer has whole.
    pub fn cover(&mut self, viewer: ViewerId)
        requires { length self.old < DEPTH }
        ensures { self.new ≡ whole_track viewer.0 ∷ self.old }
    {
        let mut track = Viewers::new();
        track.open(viewer, ROWS);
        self.covered += 1;
        self.tracks[self.covered] = track;
    }

    /// Moves the top of a viewer of the shown track to row `y`, or as near to it as may be.
    pub fn change(&mut self, viewer: ViewerId, y: u8)
        requires { 0 < times_in viewer.0 (topmost self.old) }
        ensures { let t =
            topmost self.old in self.new
            ≡ with_topmost self.old (changed t (entry_of t viewer.0) y) }
    {
        self.tracks[self.covered].change(viewer, y);
    }

    /// Takes a viewer out of the shown track. An overlay without viewers goes, and the track under it is shown.
    pub fn close(&mut self, viewer: ViewerId)
        requires { 0 < times_in viewer.0 (topmost self.old) }
        ensures { self.new ≡ closed_on self.old viewer.0 }
    {
        self.tracks[self.covered].close(viewer);
        if self.tracks[self.covered].count() == 0 {
            self.covered = self.covered.saturating_sub(1);
        }
    }
}
