//! The display and the two columns of tracks that it has.
ghost use Rattle.std.specs.Prelude.{◌≡◌, ◌<◌};
ghost use Rattle.viewer_tracks.specs.Display.{track_at, left_of};

/// The number of rows of the display. Rows count upward from 0 at the bottom.
pub const ROWS: u8 = 32;

/// How many tracks may lie over one another in a column of the display.
pub const DEPTH: u8 = 8;

/// The number of columns of characters of the display.
pub const COLUMNS: u8 = 80;

/// The first column of characters of the system track; the user track has those before it.
pub const SYSTEM_LEFT: u8 = 50;

/// One of the two columns that the display shows side by side, and the track that is shown there (this profile, after
/// the book's chapter on the display).
#[derive(Clone, Copy, Debug, PartialEq, Eq)]
pub enum Track {
    User,
    System,
}

impl Track {
    /// The track that has the column of characters `x`.
    pub(crate) fn at(x: u8) -> Self
        requires { x < COLUMNS }
        ensures { result ≡ track_at x }
    {
        if x < SYSTEM_LEFT {
            Track::User
        } else {
            Track::System
        }
    }

    /// Its leftmost column of characters.
    pub fn left(self) -> u8
        ensures { result ≡ left_of self }
    {
        match self {
            Track::User => 0,
            Track::System => SYSTEM_LEFT,
        }
    }
}
