//! In which track of a stack a viewer stands. The tracks are a slice from the lowest up; those from `top` down count.
ghost use Rattle.std.specs.Prelude.{◌≡◌, ◌<◌, ◌≤◌, ◌↔◌, IsTrue, Any, [], length, get_or};
ghost use Rattle.viewer_tracks.specs.Viewers.{times_in};
ghost use Rattle.viewer_tracks.specs.Columns.{track_with, times_on};
ghost use Rattle.viewer_tracks.specs.Levels.{stack_over};

use crate::viewer_id::ViewerId;
use crate::viewers::Viewers;

/// Whether a viewer stands in one of the tracks.
pub fn have(tracks: &[Viewers], top: usize, viewer: ViewerId) -> bool
    requires { top < length tracks.now }
    ensures { IsTrue result ↔ (0 < times_on viewer.0 (stack_over tracks.now top)) }
{
    any_has(&tracks[..=top], viewer)
}

/// Whether a viewer stands in one of these tracks.
fn any_has(tracks: &[Viewers], viewer: ViewerId) -> bool
    ensures { IsTrue result ↔ Any (λ t. 0 < times_in viewer.0 t) tracks.now }
{
    tracks.iter().any(|track| track.contains(viewer))
}

/// The index of the track in which a viewer stands.
pub fn index_with(tracks: &[Viewers], top: usize, viewer: ViewerId) -> usize
    requires in_bounds { top < length tracks.now }
    requires placed { 0 < times_on viewer.0 (stack_over tracks.now top) }
    ensures track { get_or tracks.now result [] ≡ track_with viewer.0 (stack_over tracks.now top) }
    ensures there { 0 < times_in viewer.0 (get_or tracks.now result []) }
    ensures within { result ≤ top }
{
    let mut index = top;
    while index > 0 && !tracks[index].contains(viewer) {
        index -= 1;
    }
    index
}
