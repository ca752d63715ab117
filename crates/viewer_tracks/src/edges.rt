//! What is read off the edges of a track. An edge is a viewer with the row before which it ends, so that each viewer
//! begins where the one under it ends; clauses speak of the viewers with their heights.
ghost use Rattle.std.specs.Prelude.{◌≡◌, ◌+◌, ◌/◌, ◌<◌, ◌≤◌, ◌↔◌, length, nat_le, slice_get, Some};
ghost use Rattle.std.specs.List.{position_or_len};
ghost use Rattle.viewer_tracks.specs.Viewers.{bottom_of, top_of, entry_of, times_in, entry_viewer, viewer_at};
ghost use Rattle.viewer_tracks.specs.Viewers.{id_number};
ghost use Rattle.viewer_tracks.specs.Edits.{open_entry, open_top, takes_place, change_top};
ghost use Rattle.viewer_tracks.specs.Room.{tallest, greatest_height};
ghost use Rattle.viewer_tracks.specs.Edges.{entries_from, Rises};
ghost use Rattle.viewer_tracks.specs.Heights.{as_entry};

use crate::display::ROWS;
use crate::viewer_id::ViewerId;

/// A viewer, and the row before which it ends.
#[derive(Clone, Copy, Debug)]
pub struct Edge {
    pub viewer: ViewerId,
    pub top: u8,
}

/// The lowest edge at row `y` or above it, or the number of edges.
pub fn reaching(edges: &[Edge], y: u8) -> usize
    ensures lowest { result ≡ position_or_len (λ e. nat_le y e.top) edges.now }
    ensures within { result ≤ length edges.now }
{
    edges
        .iter()
        .position(|edge| y <= edge.top)
        .unwrap_or(edges.len())
}

/// The edge of a viewer, or the number of edges.
pub fn index_of(edges: &[Edge], viewer: ViewerId) -> usize
    ensures entry { result ≡ entry_of (entries_from 0 edges.now) viewer.0 }
    ensures placed { (0 < times_in viewer.0 (entries_from 0 edges.now))
        ↔ (result < length edges.now) }
{
    edges
        .iter()
        .position(|edge| edge.viewer == viewer)
        .unwrap_or(edges.len())
}

/// The row at which the viewer of an edge begins, or at the number of edges the filler.
pub fn bottom(edges: &[Edge], index: usize) -> u8
    requires rising { Rises 0 edges.now }
    requires in_bounds { index ≤ length edges.now }
    ensures value { result ≡ bottom_of (entries_from 0 edges.now) index }
    ensures within { result ≤ ROWS }
{
    if index == 0 { 0 } else { edges[index - 1].top }
}

/// The row before which the viewer of an edge ends.
pub fn top(edges: &[Edge], index: usize) -> u8
    requires rising { Rises 0 edges.now }
    requires in_bounds { index < length edges.now }
    ensures value { result ≡ top_of (entries_from 0 edges.now) index }
    ensures above { bottom_of (entries_from 0 edges.now) index < result }
    ensures within { result ≤ ROWS }
{
    edges[index].top
}

/// The viewer of an edge. None past the last one.
pub fn viewer_of(edges: &[Edge], index: usize) -> Option<ViewerId>
    ensures { id_number result ≡ entry_viewer (entries_from 0 edges.now) index }
{
    let edge = edges.get(index)?;
    Some(edge.viewer)
}

/// The viewer of an edge, and how many rows it has.
pub fn entry(edges: &[Edge], index: usize) -> (ViewerId, u8)
    requires rising { Rises 0 edges.now }
    requires in_bounds { index < length edges.now }
    ensures { slice_get (entries_from 0 edges.now) index ≡ Some (as_entry result) }
{
    let Edge { viewer, top } = edges[index];
    (viewer, top - bottom(edges, index))
}

/// The viewer that has the row `y`.
pub fn viewer_at(edges: &[Edge], y: u8) -> Option<ViewerId>
    requires rising { Rises 0 edges.now }
    requires in_display { y < ROWS }
    ensures { id_number result ≡ viewer_at (entries_from 0 edges.now) y }
{
    viewer_of(edges, reaching(edges, y + 1))
}

/// The row at half the height of the tallest viewer, the lowest of several.
pub fn middle_of_tallest(edges: &[Edge]) -> u8
    requires { Rises 0 edges.now }
    ensures value { let t = entries_from 0 edges.now in
        result ≡ bottom_of t (tallest t) + greatest_height t / 2 }
    ensures within { result ≤ ROWS }
{
    let mut bottom = 0;
    let mut greatest = 0;
    let mut middle = 0;
    for edge in edges {
        let height = edge.top - bottom;
        if height > greatest {
            greatest = height;
            middle = bottom + height / 2;
        }
        bottom = edge.top;
    }
    middle
}

/// The row of a viewer's top after a move to `y`.
#[tactic(auto, using(crate::proofs::Moving::change_tops))]
pub fn change_top(edges: &[Edge], index: usize, y: u8) -> u8
    requires rising { Rises 0 edges.now }
    requires in_bounds { index < length edges.now }
    ensures value { result ≡ change_top (entries_from 0 edges.now) index y }
{
    let highest = y.min(ROWS);
    match edges.get(index + 1) {
        Some(next) => highest.min(next.top - 1),
        None => highest,
    }
}

/// The entry, a viewer's or the filler, whose place a viewer that opens at row `y` takes or divides.
#[tactic(auto, using(crate::proofs::Opening::lowest_entry))]
pub fn open_entry(edges: &[Edge], y: u8) -> usize
    requires { Rises 0 edges.now }
    ensures entry { result ≡ open_entry (entries_from 0 edges.now) y }
    ensures within { result ≤ length edges.now }
{
    reaching(edges, y.min(ROWS))
}

/// The row before which it ends.
pub fn open_top(edges: &[Edge], y: u8) -> u8
    requires { Rises 0 edges.now }
    ensures { result ≡ open_top (entries_from 0 edges.now) y }
{
    y.min(ROWS).max(bottom(edges, open_entry(edges, y)) + 1)
}

/// Whether a viewer that ends before row `top` takes the whole place of the entry's viewer.
#[tactic(auto, using(crate::proofs::Opening::place_tests))]
pub fn takes_place(edges: &[Edge], index: usize, top: u8) -> bool
    requires { Rises 0 edges.now }
    ensures { result ≡ takes_place (entries_from 0 edges.now) index top }
{
    index < edges.len() && edges[index].top == top
}
