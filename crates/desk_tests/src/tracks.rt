//! Opening a viewer, against a plain program over the rows of a track. Worked rows stand in `proofs/FrameRows.antt`.
ghost use Rattle.std.specs.Prelude.{◌≡◌, length};

use std::process::Abort;
use viewer_tracks::{ROWS, Tracks, ViewerId};

/// Opens a viewer in the user track.
fn open(rt: &impl Abort, tracks: &mut Tracks, viewer: u16, y: u8) -> Option<ViewerId> {
    assert!(rt; !tracks.contains(ViewerId(viewer)));
    tracks.open(ViewerId(viewer), 0, y)
}

/// Opens a viewer in a track that is told by the viewer of each row, 0 in the filler, and returns the viewer that is
/// gone, or 0. The new viewer gets the rows of the one that has the row under y, the lowest row where y is 0, from its
/// first row up to y.
fn open_in_rows(rows: &mut [u16], viewer: u16, y: u8) -> u16
    requires { length rows.old ≡ 32 }
{
    let height = usize::from(y.min(32));
    let there = rows[height.max(1) - 1];
    let bottom = rows.iter().position(|has| *has == there).unwrap_or(0);
    for (row, has) in rows.iter_mut().enumerate() {
        if row == bottom || bottom < row && row < height {
            *has = viewer;
        }
    }
    if rows.iter().any(|has| *has == there) {
        0
    } else {
        there
    }
}

/// Opens viewers 1, 2, .. at rows ys in an empty track, and compares with the program over rows.
fn opens_as_in_rows(rt: &impl Abort, ys: &[u8]) {
    let mut tracks = Tracks::new();
    let mut rows = [0; 32];
    for (y, viewer) in ys.iter().zip(1..=4) {
        let gone = open(rt, &mut tracks, viewer, *y).map_or(0, |v| v.0);
        assert!(rt; gone == open_in_rows(&mut rows, viewer, *y));
    }
    for y in 0..ROWS {
        let seen = tracks.at(0, y).map_or(0, |v| v.0);
        assert!(rt; seen == rows[usize::from(y)]);
    }
}

#[test]
fn every_placement_of_four_viewers(rt: HostRuntime) {
    for a in 0..34 {
        opens_as_in_rows(&rt, &[a]);
        for b in 0..34 {
            opens_as_in_rows(&rt, &[a, b]);
            for c in 0..34 {
                opens_as_in_rows(&rt, &[a, b, c]);
                for d in 0..34 {
                    opens_as_in_rows(&rt, &[a, b, c, d]);
                }
            }
        }
    }
}
