//! What an image says, part by part.

use arrayvec::ArrayVec;
use desktop_definitions::{ClosedViewer, MOST_PATTERN, Viewer};
use event_bytes::Name;
use piece_ring::Look;
use std::collections::BTreeMap;
use std::vec::Vec;
use text_core::{Buffer, Text};
use viewer_tracks::ROWS;

/// How many bytes a pattern has at most.
pub const PATTERN: usize = MOST_PATTERN as usize;

/// How many viewers a track has at most: each has a row.
pub const TRACK: usize = ROWS as usize;

/// A selection as an image has it: its rank among all selections, from 1 for the oldest, and its characters from `beg`
/// up to before `end`.
#[derive(Clone, Copy, Debug, PartialEq, Eq)]
pub struct Ranked {
    pub rank: u8,
    pub beg: u32,
    pub end: u32,
}

/// A viewer as an image has it: with the position of the caret and the selection, if it has them.
#[derive(Clone, Copy, Debug, PartialEq, Eq)]
pub struct ViewerPicture {
    pub id: u16,
    pub viewer: Viewer,
    pub caret: Option<u32>,
    pub selection: Option<Ranked>,
}

/// A viewer of a track, and how many rows it has.
#[derive(Clone, Copy, Debug, Default, PartialEq, Eq)]
pub struct Stretch {
    pub viewer: u16,
    pub height: u8,
}

/// The viewers of a track, bottom up.
pub type Stretches = ArrayVec<Stretch, TRACK>;

/// The tracks of a column, from the lowest up.
pub type Levels = Vec<Stretches>;

/// What was read of an image. Its parts fit each for itself (`specs/Fitting.antt`); whether they make a desktop is for
/// the reader to find out.
#[derive(Drop)]
pub struct Picture {
    pub look: Look,
    pub pattern: ArrayVec<u8, PATTERN>,
    pub marker: Option<(u8, u8)>,
    pub texts: BTreeMap<u16, Text>,
    pub files: BTreeMap<Name, Text>,
    pub copied: Buffer,
    pub deleted: Buffer,
    pub viewers: Vec<ViewerPicture>,
    pub user: Levels,
    pub system: Levels,
    pub closed: Option<ClosedViewer>,
}
