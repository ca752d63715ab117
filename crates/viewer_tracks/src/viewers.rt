//! The viewers of one track. A clause sees them as the list of viewers with their heights, bottom up.
ghost use Rattle.std.specs.Prelude.{◌≡◌, ◌<◌, ◌≤◌, ◌↔◌, [], IsTrue, length, slice_get, Some};
ghost use Rattle.viewer_tracks.specs.Viewers.{times_in, entry_of, bottom_of, top_of, entry_viewer, viewer_at};
ghost use Rattle.viewer_tracks.specs.Viewers.{id_number};
ghost use Rattle.viewer_tracks.specs.Edits.{opened, replaced, changed, closed};
ghost use Rattle.viewer_tracks.specs.Room.{free_row};
ghost use Rattle.viewer_tracks.specs.Heights.{as_entry};

use crate::display::ROWS;
use crate::edge_list::EdgeList;
use crate::edges;
use crate::edges::Edge;
use crate::viewer_id::ViewerId;
use std::marker::Model;
use std::ops::Range;

/// How many rows the filler has where a new viewer goes there.
const ROOM: u8 = 4;

/// The viewers of a track, each with the row before which it ends.
#[derive(Debug, Drop)]
pub struct Viewers {
    edges: EdgeList,
}

impl Model for Viewers {
    ghost use Rattle.std.specs.Prelude.{List};
    ghost use Rattle.viewer_tracks.specs.Viewers.{Entry};
    ghost use Rattle.viewer_tracks.specs.Edges.{entries_from, Rises};

    ghost Value = { List Entry };

    ghost view = { λ t. entries_from 0 t.edges };

    ghost invariant = { λ t. Rises 0 t.edges };
}

impl Viewers {
    /// No viewer.
    pub fn new() -> Self
        ensures { result ≡ [] }
    {
        Viewers {
            edges: EdgeList::new(),
        }
    }

    /// Whether a viewer stands in the track.
    pub fn contains(&self, viewer: ViewerId) -> bool
        ensures { IsTrue result ↔ (0 < times_in viewer.0 self.now) }
    {
        let edges = self.edges.as_slice();
        edges::index_of(edges, viewer) < edges.len()
    }

    /// Opens a viewer at row `y`, and returns the one whose whole place it took.
    #[tactic(auto, using(crate::proofs::Opening::opening_steps))]
    pub fn open(&mut self, viewer: ViewerId, y: u8) -> Option<ViewerId>
        ensures track { self.new ≡ opened self.old viewer.0 y }
        ensures replaced { id_number result ≡ replaced self.old y }
    {
        let edges = self.edges.as_slice();
        let index = edges::open_entry(edges, y);
        let top = edges::open_top(edges, y);
        let edge = Edge { viewer, top };
        if edges::takes_place(edges, index, top) {
            let replaced = edges[index].viewer;
            self.edges.set(index, edge);
            return Some(replaced);
        }
        self.edges.insert(index, edge);
        None
    }

    /// The viewer whose whole place one takes that opens at row `y`.
    #[tactic(auto, using(crate::proofs::Opening::opening_steps))]
    pub fn replaced(&self, y: u8) -> Option<ViewerId>
        ensures { id_number result ≡ replaced self.now y }
    {
        let edges = self.edges.as_slice();
        let index = edges::open_entry(edges, y);
        let top = edges::open_top(edges, y);
        if edges::takes_place(edges, index, top) {
            return Some(edges[index].viewer);
        }
        None
    }

    /// Moves the top of a viewer to row `y`, or as near to it as may be.
    #[tactic(auto, using(crate::proofs::Moving::changing_steps))]
    pub fn change(&mut self, viewer: ViewerId, y: u8)
        requires { 0 < times_in viewer.0 self.old }
        ensures track { self.new ≡ changed self.old (entry_of self.old viewer.0) y }
    {
        let edges = self.edges.as_slice();
        let index = edges::index_of(edges, viewer);
        let top = edges::change_top(edges, index, y);
        if edges::bottom(edges, index) < top {
            let viewer = edges[index].viewer;
            self.edges.set(index, Edge { viewer, top });
        }
    }

    /// Takes a viewer out. The one above it, or the filler, gets its rows.
    #[tactic(auto, using(crate::proofs::Moving::closed_edges, crate::proofs::Moving::rises_removed))]
    pub fn close(&mut self, viewer: ViewerId)
        requires { 0 < times_in viewer.0 self.old }
        ensures track { self.new ≡ closed self.old (entry_of self.old viewer.0) }
    {
        let index = edges::index_of(self.edges.as_slice(), viewer);
        self.edges.remove(index);
    }

    /// The viewer of that place, counted from 0 at the bottom. None past the topmost.
    pub fn nth(&self, index: u8) -> Option<ViewerId>
        ensures { id_number result ≡ entry_viewer self.now index }
    {
        edges::viewer_of(self.edges.as_slice(), usize::from(index))
    }

    /// How many viewers there are.
    pub fn count(&self) -> u8
        ensures count { result ≡ length self.now }
        ensures few { result ≤ ROWS }
    {
        self.edges.as_slice().len() as u8
    }

    /// The viewer of that place, counted from 0 at the bottom, and how many rows it has.
    pub fn entry(&self, index: u8) -> (ViewerId, u8)
        requires { index < length self.now }
        ensures { slice_get self.now index ≡ Some (as_entry result) }
    {
        edges::entry(self.edges.as_slice(), usize::from(index))
    }

    /// The viewer that has the row `y`.
    pub fn at(&self, y: u8) -> Option<ViewerId>
        requires { y < ROWS }
        ensures { id_number result ≡ viewer_at self.now y }
    {
        edges::viewer_at(self.edges.as_slice(), y)
    }

    /// The rows of a viewer.
    pub fn rows_of(&self, viewer: ViewerId) -> Range<u8>
        requires { 0 < times_in viewer.0 self.now }
        ensures start { result.start ≡ bottom_of self.now (entry_of self.now viewer.0) }
        ensures end { result.end ≡ top_of self.now (entry_of self.now viewer.0) }
        ensures some { result.start < result.end }
        ensures within { result.end ≤ ROWS }
    {
        let edges = self.edges.as_slice();
        let index = edges::index_of(edges, viewer);
        edges::bottom(edges, index)..edges::top(edges, index)
    }

    /// The row at which to open a new viewer.
    #[tactic(auto, using(crate::proofs::Tallest::free_row_filler, crate::proofs::Tallest::free_row_divided))]
    pub fn free_row(&self) -> u8
        ensures value { result ≡ free_row self.now }
        ensures within { result ≤ ROWS }
    {
        let edges = self.edges.as_slice();
        if edges::bottom(edges, edges.len()) + ROOM <= ROWS {
            return ROWS;
        }
        edges::middle_of_tallest(edges)
    }
}
