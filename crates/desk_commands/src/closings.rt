//! Viewers close, and the one that was closed last opens again.
ghost use Rattle.std.specs.Prelude.{◌≡◌, Ok, option_map};
ghost use Rattle.viewer_tracks.specs.Display.{left_of};
ghost use Rattle.desktop_definitions.specs.Effects.{put_away, brought_back};
ghost use Rattle.desktop_definitions.specs.DeskWords.{place_closed};
ghost use Rattle.desk_core.specs.Words.{IsOnTop, id_number, needs, IsOver, kept_desktop, Does};
ghost use Rattle.desk_commands.specs.Calls.{IsViewerOnTop};
ghost use Rattle.desk_commands.specs.Words.{Track as ATrack, no_viewer, IsClosedPlace};

use char_file::CharSource;
use desk_core::desk::Desk;
use desk_core::stop::StepResult;
use desktop_definitions::{ClosedViewer, Reply, codes};
use viewer_tracks::{SYSTEM_LEFT, Track, ViewerId, edits_keep_columns, edits_place_viewers};

/// The track whose leftmost column this is.
pub fn track_from(left: u8) -> Track
    ensures { (track : ATrack) → left ≡ left_of track → result ≡ track }
{
    if left == SYSTEM_LEFT {
        Track::System
    } else {
        Track::User
    }
}

/// The viewer that was closed last, where there is one.
fn viewer_closed(closed: Option<ClosedViewer>) -> Option<ViewerId>
    ensures { id_number result ≡ option_map (λ k. k.viewer) closed }
{
    closed.map(|closed| ViewerId(closed.viewer))
}

/// Takes a viewer from the display, with what is marked in it; it is the closed one then, with its place. The one that
/// was closed before is gone, with the texts that no other viewer shows.
pub fn close_viewer<S: CharSource>(desk: &mut Desk, id: u16, source: &mut S) -> StepResult
    requires { IsViewerOnTop (S.characters source.old) (kept_desktop desk.old) id }
    ensures { Does S.CharSource (λ d. Ok (put_away d id)) result
        source.old source.new (kept_desktop desk.old) (kept_desktop desk.new) }
{
    edits_keep_columns();
    edits_place_viewers();
    let gone = viewer_closed(desk.closed);
    desk.closed = Some(place_closed(desk, id));
    desk.tracks.close(ViewerId(id));
    desk.unmark_viewer(id);
    desk.let_go(gone);
    Ok(Reply::Done)
}

/// A viewer of the display with its place, as a closed one.
fn place_closed(desk: &Desk, id: u16) -> ClosedViewer
    requires { IsOnTop id (kept_desktop desk.now).columns }
    ensures value { result ≡ place_closed (kept_desktop desk.now).columns id }
    ensures place { IsClosedPlace result }
{
    let place = desk.tracks.place_of(ViewerId(id));
    ClosedViewer {
        viewer: id,
        track: track_from(place.x),
        top: place.top,
    }
}

/// The viewer that was closed last opens in its track, up to the row where it ended. If it takes the whole
/// place of another viewer, that one is removed, with the texts that no other viewer shows. Refused where none was
/// closed.
pub fn recall_viewer<S: CharSource>(desk: &mut Desk, source: &mut S) -> StepResult
    requires over { IsOver (S.characters source.old) (kept_desktop desk.old) }
    ensures { Does S.CharSource (λ d. needs d.closed no_viewer λ k. Ok (brought_back d k)) result
        source.old source.new (kept_desktop desk.old) (kept_desktop desk.new) }
{
    let Some(viewer) = desk.closed else {
        return Ok(Reply::No(codes::NO_VIEWER));
    };
    edits_keep_columns();
    edits_place_viewers();
    desk.closed = None;
    desk.open_at(viewer.viewer, viewer.track.left(), viewer.top);
    Ok(Reply::Done)
}
