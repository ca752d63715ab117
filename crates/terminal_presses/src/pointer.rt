//! Where one points: with the mouse, or with a pointer that keys move.
ghost use Rattle.std.specs.Prelude.{◌≡◌, ◌+◌, ◌<◌, min, IfSome};
ghost use Rattle.terminal_presses.specs.Pointers.{nowhere, appears, toggled as toggled_by, laid_aside};
ghost use Rattle.terminal_presses.specs.Pointers.{unpointed};
ghost use Rattle.terminal_presses.specs.Pointers.{spot_moved, moved_to, begins_at, started, pointed_cell, pointer_cell};

use crate::action::Click;
use crate::press::Arrow;
use crate::sight::Sight;
use crate::spot::Spot;
use viewer_tracks::{COLUMNS, ROWS};

/// How many cells an arrow with Shift moves the pointer.
pub(crate) const LEAP: u8 = 8;

/// Where one points.
#[derive(Clone, Copy)]
pub(crate) struct Pointer {
    /// The cell that the last report of the mouse has told, where it was within the display. A report that is heard
    /// amid a paste or a name counts for nothing.
    pub mouse: Option<Spot>,
    /// The cell of the pointer that keys move, while that is shown.
    pub shown: Option<Spot>,
    /// The cell at which it was put away last.
    pub left: Option<Spot>,
    /// The cell at which it was shown as a function key said what the next click is.
    pub start: Option<Spot>,
}

impl Pointer {
    /// Nothing was pointed at.
    pub fn nowhere() -> Pointer
        ensures { result ≡ nowhere }
    {
        Pointer {
            mouse: None,
            shown: None,
            left: None,
            start: None,
        }
    }

    /// The pointer that keys move is shown where it wasn't, and is put away where it was.
    #[tactic(auto, unfolding(crate::specs::Pointers::toggled))]
    pub fn toggled(self, sight: Sight) -> Pointer
        ensures { result ≡ toggled_by sight self }
    {
        if self.shown.is_some() {
            return self.put_away();
        }
        self.moved_to(self.appears(sight))
    }

    /// It is put away, and begins no draw.
    pub fn put_away(self) -> Pointer
        ensures { result ≡ laid_aside self }
    {
        Pointer {
            shown: None,
            left: self.shown,
            start: None,
            ..self
        }
    }

    /// Nothing is pointed at any more: it is put away, where it is shown, and the place of the mouse counts no longer.
    #[tactic(auto, unfolding(crate::specs::Pointers::unpointed))]
    pub fn unpointed(self) -> Pointer
        ensures { result ≡ unpointed self }
    {
        let away = if self.shown.is_some() {
            self.put_away()
        } else {
            self
        };
        Pointer {
            mouse: None,
            ..away
        }
    }

    /// It is shown there.
    pub fn moved_to(self, at: Spot) -> Pointer
        ensures { result ≡ moved_to at self }
    {
        Pointer {
            shown: Some(at),
            ..self
        }
    }

    /// A function key has said what the next click is.
    pub fn started(self) -> Pointer
        ensures { result ≡ started self }
    {
        Pointer {
            start: self.shown,
            ..self
        }
    }

    /// Where it is shown first.
    fn appears(self, sight: Sight) -> Spot
        ensures { result ≡ appears sight self }
    {
        let middle = Spot::nearest(
            sight,
            u16::from(COLUMNS / 2),
            u16::from(sight.rows() / 2 + 1),
        );
        self.mouse.unwrap_or(self.left.unwrap_or(middle))
    }

    /// Where a click begins that is made at that cell, where a function key has said what the next click is, or none has.
    #[tactic(auto, unfolding(crate::specs::Pointers::begins_at))]
    pub fn begins_at(self, armed: Option<Click>, at: Spot) -> Spot
        ensures { result ≡ begins_at armed self.start at }
    {
        match armed {
            None | Some(Click::Mark) => at,
            Some(Click::Keys(_)) => self.start.unwrap_or(at),
        }
    }

    /// The cell that is pointed at.
    pub fn place(self) -> Option<Spot>
        ensures { result ≡ pointed_cell self }
    {
        match self.shown {
            None => self.mouse,
            Some(at) => Some(at),
        }
    }

    /// The column and the row of the display at which the pointer is shown that keys move.
    pub fn cell(self) -> Option<(u8, u8)>
        ensures value { result ≡ pointer_cell self }
        ensures column { IfSome result (λ at. at.0 < COLUMNS) }
        ensures row { IfSome result (λ at. at.1 < ROWS) }
    {
        match self.shown {
            None => None,
            Some(at) => Some((at.x.min(COLUMNS - 1), at.y.min(ROWS - 1))),
        }
    }
}

impl Spot {
    /// So many cells further, within the display. With Ctrl an arrow goes as far as with Shift.
    #[tactic(auto, unfolding(crate::specs::Pointers::spot_moved))]
    pub(crate) fn moved(self, cells: u8, arrow: Arrow) -> Spot
        ensures { result ≡ spot_moved cells arrow self }
    {
        match arrow {
            Arrow::Up => Spot {
                y: up(self.y, cells, ROWS - 1),
                ..self
            },
            Arrow::Down => Spot {
                y: self.y.saturating_sub(cells),
                ..self
            },
            Arrow::Right => Spot {
                x: up(self.x, cells, COLUMNS - 1),
                ..self
            },
            Arrow::Left => Spot {
                x: self.x.saturating_sub(cells),
                ..self
            },
            Arrow::Home => Spot { x: 0, ..self },
            Arrow::End => Spot {
                x: COLUMNS - 1,
                ..self
            },
            Arrow::WordRight => Spot {
                x: up(self.x, LEAP, COLUMNS - 1),
                ..self
            },
            Arrow::WordLeft => Spot {
                x: self.x.saturating_sub(LEAP),
                ..self
            },
        }
    }
}

/// A number with another one added, or the greatest that there is.
fn up(number: u8, more: u8, greatest: u8) -> u8
    ensures { result ≡ min (number + more) greatest }
{
    number.saturating_add(more).min(greatest)
}
