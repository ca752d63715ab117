//! Viewers, and what is marked in them.

use viewer_tracks::Track;

/// What a viewer shows. Its texts are told by their numbers.
#[derive(Clone, Copy, Debug, PartialEq, Eq)]
pub struct Viewer {
    /// The number of its menu text, which no other frame shows.
    pub menu: u16,
    /// The number of its main text.
    pub main: u16,
    /// The position of the first character of the main text that is shown.
    pub org: u32,
}

/// A place between two characters of a viewer's main text.
#[derive(Clone, Copy, Debug, PartialEq, Eq)]
pub struct Caret {
    /// The viewer's id.
    pub viewer: u16,
    /// The position of the character before which it stands, or the text's length.
    pub position: u32,
}

/// The characters of a viewer's main text from `beg` up to before `end`.
#[derive(Clone, Copy, Debug, PartialEq, Eq)]
pub struct Selection {
    /// The viewer's id.
    pub viewer: u16,
    /// The position of the first character.
    pub beg: u32,
    /// The position after the last one.
    pub end: u32,
}

/// The viewer that was closed last, and where it stood.
#[derive(Clone, Copy, Debug, PartialEq, Eq)]
pub struct ClosedViewer {
    /// The viewer's id.
    pub viewer: u16,
    /// The track in which it stood.
    pub track: Track,
    /// The row before which it ended, 1 to 32.
    pub top: u8,
}
