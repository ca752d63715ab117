//! What a screen shows: the cells of 80 columns by 32 rows, in definitions.
//!
//! `specs/Picture.antt` says what each cell shows of tracks, viewers and a marker, `specs/Screen.antt` what a screen
//! is, and `specs/Printed.antt` the text that is printed of one. The crate `screen_cells` paints and prints.
#![tactic(auto)]

mod cell;

pub use cell::{Cell, Mark};
