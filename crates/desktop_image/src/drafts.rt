//! From the parts of an image to what a desktop keeps of its viewers, and what is marked in them.
ghost use Rattle.std.specs.Prelude.{◌≡◌, ◌+◌, ◌<◌, ◌≤◌, ◌∷◌, ◌++◌, ℕ, [], length, get_or, map, reverse};
ghost use Rattle.std.specs.Prelude.{IfOk, OnOk};
ghost use Rattle.std.specs.Option.{option_to_list};
ghost use Rattle.viewer_tracks.specs.declared.display.TheConstants.{DEPTH, ROWS};
ghost use Rattle.viewer_tracks.specs.Viewers.{IsTrack, bottom_of, times_in};
ghost use Rattle.viewer_tracks.specs.Columns.{IsColumns, IsPlaced, IsStack, shown_track, stack_of, with_shown, with_stack};
ghost use Rattle.viewer_tracks.specs.Columns.{times_placed};
ghost use Rattle.image_format.specs.Pictures.{entry_of_stretch, stack_of_stretches as levels_of};
ghost use Rattle.desktop_image.specs.Images.{viewers_of, first_caret, selected_at, selected_as, selections_of};
ghost use Rattle.desktop_image.specs.Images.{most_ranks, times_tracked, CanBuild};

use desk_core::stop::NoMemory;
use desk_core::viewers::ViewerTable;
use desktop_definitions::{Caret, Selection};
use image_format::{Stretch, Stretches, ViewerPicture};
use std::alloc::Global;
use std::vec::Vec;
use viewer_tracks::{Track, Tracks, ViewerId};

/// How many ranks there are: a rank has a byte.
const MOST_RANKS: usize = 255;

/// The viewers by their ids.
pub fn viewers_of(alloc: Global, pictures: &[ViewerPicture]) -> Result<ViewerTable, NoMemory>
    ensures { IfOk result (λ viewers. viewers.items ≡ viewers_of pictures.now) }
{
    let mut viewers = Vec::new(alloc);
    for picture in pictures {
        viewers.push((picture.id, picture.viewer))?;
    }
    Ok(viewers)
}

/// The caret of the first viewer that has one.
pub fn caret_of(pictures: &[ViewerPicture]) -> Option<Caret>
    ensures { result ≡ first_caret pictures.now }
{
    for picture in pictures {
        if let Some(position) = picture.caret {
            return Some(Caret {
                viewer: picture.id,
                position,
            });
        }
    }
    None
}

/// The selection of a viewer, where it has that rank.
fn selected_at(rank: u8, picture: &ViewerPicture) -> Option<Selection>
    ensures { result ≡ selected_at rank picture.now }
{
    match picture.selection {
        None => None,
        Some(ranked) => {
            if ranked.rank == rank {
                Some(Selection {
                    viewer: picture.id,
                    beg: ranked.beg,
                    end: ranked.end,
                })
            } else {
                None
            }
        }
    }
}

/// The selection of the first viewer that has one of that rank.
fn selected_as(pictures: &[ViewerPicture], rank: u8) -> Option<Selection>
    ensures { result ≡ selected_as pictures.now rank }
{
    for picture in pictures {
        if let Some(selection) = selected_at(rank, picture) {
            return Some(selection);
        }
    }
    None
}

/// Adds the selection of that rank, where there is one.
fn add_ranked(
    pictures: &[ViewerPicture],
    rank: u8,
    selections: &mut Vec<Selection>,
) -> Result<(), NoMemory>
    ensures items { OnOk result (selections.new.items
        ≡ selections.old.items ++ option_to_list (selected_as pictures.now rank)) }
    ensures few { OnOk result (length selections.new.items ≤ length selections.old.items + 1) }
{
    if let Some(selection) = selected_as(pictures, rank) {
        selections.push(selection)?;
    }
    Ok(())
}

/// The selections by their ranks.
pub fn selections_of(alloc: Global, pictures: &[ViewerPicture]) -> Result<Vec<Selection>, NoMemory>
    ensures items { IfOk result (λ selections. selections.items ≡ selections_of pictures.now) }
    ensures few { IfOk result (λ selections. length selections.items ≤ most_ranks) }
{
    let mut selections = Vec::new(alloc);
    for at in 0..pictures.len().min(MOST_RANKS) {
        add_ranked(pictures, at as u8 + 1, &mut selections)?;
    }
    Ok(selections)
}

/// Puts viewers on those of the track that a column shows, bottom up with their heights; the first goes on row
/// `bottom`, up to which the track is full.
fn pile(tracks: &mut Tracks, stretches: &[Stretch], track: Track, bottom: u8)
    requires sound { IsColumns tracks.old }
    requires heights { IsTrack
        (shown_track tracks.old track ++ map entry_of_stretch stretches.now) }
    requires bottom { bottom ≡ bottom_of (shown_track tracks.old track)
        (length (shown_track tracks.old track)) }
    requires once { (v : ℕ) → times_placed v tracks.old
        + times_in v (map entry_of_stretch stretches.now) ≤ 1 }
    ensures piled { tracks.new
        ≡ with_shown tracks.old track
        (shown_track tracks.old track ++ map entry_of_stretch stretches.now) }
    ensures sound { IsColumns tracks.new }
{
    let mut top = bottom;
    for stretch in stretches {
        top += stretch.height;
        let _ = tracks.open(ViewerId(stretch.viewer), track.left(), top);
    }
}

/// Puts a viewer into a track of its own over those of a column, with its height.
fn lay_lowest(tracks: &mut Tracks, lowest: Stretch, track: Track)
    requires sound { IsColumns tracks.old }
    requires fresh { ¬ IsPlaced lowest.viewer tracks.old }
    requires room { length (stack_of tracks.old track) < DEPTH }
    requires fits { (0 < lowest.height) × (lowest.height ≤ ROWS) }
    ensures laid { tracks.new
        ≡ with_stack tracks.old track ((entry_of_stretch lowest ∷ []) ∷ stack_of tracks.old track) }
    ensures sound { IsColumns tracks.new }
{
    tracks.open_track(ViewerId(lowest.viewer), track.left());
    tracks.change(ViewerId(lowest.viewer), lowest.height);
}

/// Puts a track with these viewers, bottom up, over those of a column.
fn lay(tracks: &mut Tracks, stretches: &[Stretch], track: Track)
    requires sound { IsColumns tracks.old }
    requires some { 0 < length stretches.now }
    requires room { length (stack_of tracks.old track) < DEPTH }
    requires heights { IsTrack (map entry_of_stretch stretches.now) }
    requires once { (v : ℕ) → times_placed v tracks.old
        + times_in v (map entry_of_stretch stretches.now) ≤ 1 }
    ensures laid { tracks.new
        ≡ with_stack tracks.old track
        (map entry_of_stretch stretches.now ∷ stack_of tracks.old track) }
    ensures sound { IsColumns tracks.new }
{
    let Some((lowest, above)) = stretches.split_first() else {
        return;
    };
    lay_lowest(tracks, *lowest, track);
    pile(tracks, above, track, lowest.height);
}

/// The viewers of the track of a level, bottom up. The lowest track has level 0.
fn on_level(stack: &[Stretches], level: usize) -> &[Stretch]
    requires { level < length stack.now }
    ensures viewers { map entry_of_stretch result.now ≡ get_or (levels_of stack.now) level [] }
    ensures within { level < length (levels_of stack.now) }
{
    stack[level].as_slice()
}

/// Puts the tracks of a column, from the lowest up, into one that has no viewer.
fn build(tracks: &mut Tracks, stack: &[Stretches], track: Track)
    requires sound { IsColumns tracks.old }
    requires can { CanBuild tracks.old track (levels_of stack.now) }
    ensures built { tracks.new ≡ with_stack tracks.old track (reverse (levels_of stack.now)) }
    ensures sound { IsColumns tracks.new }
{
    pile(tracks, on_level(stack, 0), track, 0);
    for level in 1..stack.len() {
        lay(tracks, on_level(stack, level), track);
    }
}

/// The tracks of both columns, each from the lowest up.
pub fn tracks_of(user: &[Stretches], system: &[Stretches]) -> Tracks
    requires user { IsStack (reverse (levels_of user.now)) }
    requires system { IsStack (reverse (levels_of system.now)) }
    requires once { (v : ℕ) → times_tracked (levels_of user.now) (levels_of system.now) v ≤ 1 }
    ensures { result ≡ record {
      user = reverse (levels_of user.now);
      system = reverse (levels_of system.now);
    } }
{
    let mut tracks = Tracks::new();
    build(&mut tracks, user, Track::User);
    build(&mut tracks, system, Track::System);
    tracks
}
