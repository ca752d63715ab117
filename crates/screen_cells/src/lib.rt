//! The screen of 80 columns by 32 rows as cells: painted from the tracks of viewers, and printed as text.
//!
//! A clause sees a `Screen` as the list of its rows from the bottom up, a row being the list of its cells from the left
//! (`Screen.antt` of `screen_pictures`). What a cell shows is said in its `Picture.antt`, and how a screen is printed
//! in its `Printed.antt`. `KeptLines` has the lines that were painted, from one screen to the next: only its `prepare`
//! takes memory.
#![tactic(auto)]

mod laws;
mod line;
mod lines;
mod painted;
mod print;
mod putting;
mod screen;
mod shown;
mod strip;
mod walk;

pub use laws::{all_filler_without_viewers, cells_of_a_screen};
pub use lines::KeptLines;
pub use screen::Screen;
pub use screen_pictures::{Cell, Mark};
pub use shown::Shown;
