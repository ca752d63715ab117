//! How far a viewer has been painted.
ghost use Rattle.std.specs.Prelude.{◌≡◌, ◌<◌, length, All, IfSome};
ghost use Rattle.screen_cells.specs.Shown.{IsShowable};
ghost use Rattle.screen_cells.specs.Walks.{IsKeptWalk};

use crate::shown::Shown;
use text_frames::{CharSource, FrameRows};

/// A viewer whose rows are painted from the upper one on, and what was read of its main frame.
#[derive(Drop)]
pub(crate) struct Walk<'a> {
    /// The viewer's place among those that are handed in.
    pub(crate) index: usize,
    /// The number of rows of its main frame.
    pub(crate) h: u8,
    pub(crate) shown: Shown<'a>,
    /// How far these rows have been read.
    pub(crate) rows: FrameRows<'a>,
}

/// A row of a viewer: the viewer's place among those that are handed in, how wide it is, from which row of the display up
/// to before which it stands, and the row of the display.
#[derive(Clone, Copy)]
pub(crate) struct ViewerRow {
    pub(crate) index: usize,
    pub(crate) width: u8,
    pub(crate) bottom: u8,
    pub(crate) top: u8,
    pub(crate) y: u8,
}

/// The walks of both tracks, each that of the viewer that was painted there last.
#[derive(Drop)]
pub(crate) struct Walks<'a> {
    pub(crate) user: Option<Walk<'a>>,
    pub(crate) system: Option<Walk<'a>>,
}

/// The walk that is kept, where it is one of that viewer with `h` rows; else one before the first row of the viewer's
/// frame.
pub(crate) fn walk_of<'a, S: CharSource>(
    kept: Option<Walk<'a>>,
    shown: &[Shown<'a>],
    index: usize,
    h: u8,
    source: &S,
) -> Walk<'a>
    requires within { index < length shown.now }
    requires showable { All (IsShowable (length (S.characters source.now))) shown.now }
    requires kept { IfSome kept (IsKeptWalk (S.honest source.now)
        (S.characters source.now) shown.now) }
    ensures walk { IsKeptWalk (S.honest source.now) (S.characters source.now) shown.now result }
    ensures index { result.index ≡ index }
    ensures rows { result.h ≡ h }
{
    match kept {
        Some(walk) if walk.index == index && walk.h == h => walk,
        _ => first_walk(shown, index, h, source),
    }
}

/// Before the first row of a viewer's frame of `h` rows.
fn first_walk<'a, S: CharSource>(shown: &[Shown<'a>], index: usize, h: u8, source: &S) -> Walk<'a>
    requires within { index < length shown.now }
    requires showable { All (IsShowable (length (S.characters source.now))) shown.now }
    ensures walk { IsKeptWalk (S.honest source.now) (S.characters source.now) shown.now result }
    ensures index { result.index ≡ index }
    ensures rows { result.h ≡ h }
{
    let _ = source;
    let viewer = shown[index];
    let rows = viewer.frame.rows(viewer.main);
    Walk {
        index,
        h,
        shown: viewer,
        rows,
    }
}
