//! How many bytes the parts of an image have, in the newest version.
ghost use Rattle.std.specs.Prelude.{◌≡◌, ◌<◌, ◌≤◌, ◌^◌, List, length};
ghost use Rattle.command_table.specs.Versions.{newest_version};
ghost use Rattle.piece_ring.specs.declared.piece.Piece.{Piece};
ghost use Rattle.viewer_tracks.specs.Viewers.{Entry};
ghost use Rattle.image_format.specs.Image.{pieces_bytes, cell_bytes, ranked_bytes, viewer_bytes, track_bytes};
ghost use Rattle.image_format.specs.Image.{closed_bytes, long, optional};

use crate::{Ranked, ViewerPicture};
use desktop_definitions::ClosedViewer;

/// How many bytes a look has.
pub const LOOK_BYTES: usize = 3;

/// How many bytes a piece has: its offset and its length, its look, and a zero.
pub(crate) const PIECE_BYTES: usize = 12;

/// How many bytes a viewer of a track has: its id and its height.
const ENTRY_BYTES: usize = 3;

/// How many bytes so many pieces have, after their number.
pub fn pieces_len(count: u32) -> usize
    ensures value { (pieces : List Piece) → length pieces ≡ count → result
        ≡ length (pieces_bytes pieces) }
    ensures few { result < 2 ^ 36 }
{
    4 + PIECE_BYTES * count as usize
}

/// How many bytes a cell has, if there is one.
pub fn cell_len(cell: Option<(u8, u8)>) -> usize
    ensures value { result ≡ length (optional cell_bytes cell) }
    ensures few { result ≤ 3 }
{
    match cell {
        None => 1,
        Some(_) => 3,
    }
}

/// How many bytes the position of a caret has, if there is one.
fn caret_len(caret: Option<u32>) -> usize
    ensures { result ≡ length (optional long caret) }
{
    match caret {
        None => 1,
        Some(_) => 5,
    }
}

/// How many bytes a selection has, if there is one.
fn ranked_len(selection: Option<Ranked>) -> usize
    ensures { result ≡ length (optional ranked_bytes selection) }
{
    match selection {
        None => 1,
        Some(_) => 10,
    }
}

/// How many bytes a viewer has with what is marked in it.
pub fn viewer_len(picture: ViewerPicture) -> usize
    ensures { result ≡ length (viewer_bytes newest_version picture) }
{
    10 + caret_len(picture.caret) + ranked_len(picture.selection)
}

/// How many bytes so many viewers of a track have, after their number.
pub fn entries_len(count: u8) -> usize
    ensures value { (entries : List Entry) → length entries ≡ count
        → result ≡ length (track_bytes newest_version entries) }
    ensures few { result ≤ 766 }
{
    1 + ENTRY_BYTES * count as usize
}

/// How many bytes the viewer that was closed last has, if there is one.
pub fn closed_len(closed: Option<ClosedViewer>) -> usize
    ensures value { result ≡ length (optional (closed_bytes newest_version) closed) }
    ensures few { result ≤ 5 }
{
    match closed {
        None => 1,
        Some(_) => 5,
    }
}
