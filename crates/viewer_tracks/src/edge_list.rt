//! A list of edges that is kept in place. A clause sees it as that list.
ghost use Rattle.std.specs.Prelude.{◌≡◌, ◌<◌, ◌≤◌, [], length, insert, remove, slice_set};

use crate::display::ROWS;
use crate::edges::Edge;
use crate::viewer_id::ViewerId;
use std::marker::Model;

const CAPACITY: usize = ROWS as usize;

/// At most as many edges as the display has rows.
#[derive(Debug, Drop)]
pub struct EdgeList {
    edges: [Edge; CAPACITY],
    count: usize,
}

impl Model for EdgeList {
    ghost use Rattle.std.specs.Prelude.{◌≤◌, List, take};
    ghost use Rattle.viewer_tracks.specs.declared.edges.Edge.{Edge};
    ghost use Rattle.viewer_tracks.specs.declared.edge_list.TheConstants.{CAPACITY};

    ghost Value = { List Edge };

    ghost view = { λ l. take l.count l.edges };

    ghost invariant = { λ l. l.count ≤ CAPACITY };
}

impl EdgeList {
    /// No edge.
    pub fn new() -> Self
        ensures { result ≡ [] }
    {
        let none = Edge {
            viewer: ViewerId(0),
            top: 0,
        };
        EdgeList {
            edges: [none; CAPACITY],
            count: 0,
        }
    }

    /// The edges, from the lowest.
    pub fn as_slice(&self) -> &[Edge]
        ensures { result.now ≡ self.now }
    {
        &self.edges[..self.count]
    }

    /// Puts an edge before the one at `index`, or after the last.
    #[tactic(auto, using(crate::proofs::InPlace::moved_up, crate::proofs::InPlace::as_many))]
    pub fn insert(&mut self, index: usize, edge: Edge)
        requires in_bounds { index ≤ length self.old }
        requires room { length self.old < ROWS }
        ensures { self.new ≡ insert self.old index edge }
    {
        self.edges.copy_within(index..self.count, index + 1);
        self.edges[index] = edge;
        self.count += 1;
    }

    /// Takes out the edge at `index`.
    #[tactic(auto, using(crate::proofs::InPlace::moved_down, crate::proofs::InPlace::as_many))]
    pub fn remove(&mut self, index: usize)
        requires { index < length self.old }
        ensures { self.new ≡ remove self.old index }
    {
        self.edges.copy_within(index + 1..self.count, index);
        self.count -= 1;
    }

    /// Puts an edge in place of the one at `index`.
    #[tactic(auto, using(crate::proofs::InPlace::set_within, crate::proofs::InPlace::as_many))]
    pub fn set(&mut self, index: usize, edge: Edge)
        requires { index < length self.old }
        ensures { self.new ≡ slice_set self.old index edge }
    {
        let edges = &mut self.edges;
        edges[index] = edge;
    }
}
