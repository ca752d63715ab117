//! Tracks are covered by new ones.
ghost use Rattle.std.specs.Prelude.{◌≡◌, ◌<◌, length, nat_lt};
ghost use Rattle.viewer_tracks.specs.Columns.{shown_track};
ghost use Rattle.viewer_tracks.specs.Viewers.{times_in};
ghost use Rattle.desktop_definitions.specs.Viewers.{is_shown_in, covered_by};
ghost use Rattle.desk_core.specs.Words.{DEPTH, IsPlaced, stack_of, caret_outside, selections_outside, unmarked, kept_desktop};

use crate::desk::Desk;
use desktop_definitions::{Caret, Selection};
use std::vec::Vec;
use viewer_tracks::{Track, Tracks, ViewerId};

/// The caret, unless it stands in the track that a column shows.
fn caret_outside(tracks: &Tracks, track: Track, caret: Option<Caret>) -> Option<Caret>
    ensures { result ≡ caret_outside (λ v. nat_lt 0 (times_in v (shown_track tracks.now track)))
        caret }
{
    match caret {
        Some(there) => if tracks.is_shown_in(track, ViewerId(there.viewer)) {
            None
        } else {
            caret
        },
        None => None,
    }
}

/// Takes away the selections in the track that a column shows.
fn unselect(tracks: &Tracks, track: Track, selections: &mut Vec<Selection>)
    ensures { selections.new.items
        ≡ selections_outside (λ v. nat_lt 0 (times_in v (shown_track tracks.now track)))
        selections.old.items }
{
    selections.retain(|selection| !tracks.is_shown_in(track, ViewerId(selection.viewer)));
}

impl Desk {
    /// Nothing is marked any more in the track that a column shows.
    fn unmark_shown(&mut self, track: Track)
        ensures { kept_desktop self.new ≡ unmarked (is_shown_in (kept_desktop self.old) track)
            (kept_desktop self.old) }
    {
        self.caret = caret_outside(&self.tracks, track, self.caret);
        unselect(&self.tracks, track, &mut self.selections);
    }

    /// A viewer that stands nowhere has a new track whole, over the one that the column shows, in which nothing is
    /// marked any more.
    pub fn cover(&mut self, id: u16, track: Track)
        requires fresh { ¬ IsPlaced id (kept_desktop self.old).columns }
        requires room { length (stack_of (kept_desktop self.old).columns track) < DEPTH }
        ensures { kept_desktop self.new ≡ covered_by (kept_desktop self.old) id track }
    {
        self.unmark_shown(track);
        self.tracks.open_track(ViewerId(id), track.left());
    }
}
