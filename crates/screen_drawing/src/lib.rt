//! A screen as it is shown: what is sent to a terminal so that it shows one, and the screen as a drawing.
//!
//! A terminal is a grid of cells that does operations (`specs/Grid.antt`), and each operation has one spelling
//! (`specs/Spelling.antt`). A `Scene` is what is to be shown: the part of a screen that is in sight, and a line of
//! text below it. A `Painter` knows what the terminal shows and sends what changes it to the next scene
//! (`specs/Painting.antt`).
//!
//! The drawing is an SVG that a browser shows, with the looks of all characters, which are those of a terminal
//! (`specs/Pen.antt`). What is drawn for a screen is a list of bytes (`specs/Drawn.antt`). Nothing here takes memory.
#![tactic(auto)]

mod changes;
mod drawing;
mod face;
mod laws;
mod operation;
mod painter;
mod pen;
mod pieces;
mod row;
mod scene;
mod seen_row;
mod sending;
mod shapes;
mod spelling;

pub use byte_streams::OutputFault;
pub use changes::{Changes, row_changes};
pub use drawing::draw;
pub use face::Face;
pub use laws::{
    cells_are_shown, constants_are_defined, nothing_is_shown, one_telling, rest_is_kept,
    rows_are_shown, same_rows_change_nothing, spelled_is_told,
};
pub use operation::Operation;
pub use painter::{Painter, ring};
pub use pen::{BLACK, Pen, Rule, WHITE, Weight};
pub use row::Row;
pub use scene::{Scene, row_of_cells};
pub use sending::send_bytes;
