//! A row of a terminal.
ghost use Rattle.std.specs.Prelude.{◌≡◌, ◌<◌, ◌≤◌, [], ◌∷◌, ◌++◌, length};
ghost use Rattle.viewer_tracks.specs.declared.display.TheConstants.{COLUMNS as columns};

use crate::face::{Face, WIDTH};
use arrayvec::ArrayVec;
use std::marker::Model;

/// What a terminal shows in a row, from the left: at most 80 cells. A clause sees it as the list of them.
#[derive(Drop)]
pub struct Row {
    faces: ArrayVec<Face, WIDTH>,
}

impl Model for Row {
    ghost use Rattle.std.specs.Prelude.{List};
    ghost use Rattle.screen_drawing.specs.declared.face.Face.{Face};

    ghost Value = { List Face };

    ghost view = { λ r. r.faces.items };
}

impl Row {
    /// A row of no cells.
    pub fn new() -> Self
        ensures { result ≡ [] }
    {
        Row {
            faces: ArrayVec::new(),
        }
    }

    /// A cell more, at the right.
    pub fn add(&mut self, face: Face)
        requires { length self.old < columns }
        ensures { self.new ≡ self.old ++ face ∷ [] }
    {
        self.faces.push(face);
    }

    /// Its cells.
    pub fn faces(&self) -> &[Face]
        ensures cells { result.now ≡ self.now }
        ensures few { length self.now ≤ columns }
    {
        self.faces.as_slice()
    }
}

impl Default for Row {
    fn default() -> Row {
        Row::new()
    }
}
