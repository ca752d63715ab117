//! What turns a row of a terminal into another.
ghost use Rattle.std.specs.Prelude.{◌≡◌, ◌++◌, ◌+◌, ◌≤◌, length};
ghost use Rattle.std.specs.List.{list_all};
ghost use Rattle.arrayvec.specs.ArrayVec.{array_vec_len};
ghost use Rattle.viewer_tracks.specs.declared.display.TheConstants.{COLUMNS as columns};
ghost use Rattle.screen_drawing.specs.Changes.{changes, is_blank_face, operations_to_reach};

use crate::face::Face;
use crate::operation::Operation;
use crate::pen::{Pen, WHITE};
use arrayvec::ArrayVec;

/// The number of operations that change a row, at most: each cell with its place and its pen.
pub(crate) const MOST: usize = 240;

/// The operations that change a row.
pub type Changes = ArrayVec<Operation, MOST>;

/// Where the cursor stands in the row that is painted, and the pen that the terminal has.
#[derive(Clone, Copy, Debug, PartialEq, Eq)]
pub(crate) struct Brush {
    pub(crate) column: u8,
    pub(crate) pen: Pen,
}

/// What changes a row that shows `olds` to one that shows `news`.
pub fn row_changes(row: u8, olds: &[Face], news: &[Face]) -> Changes
    requires same { length olds.now ≡ length news.now }
    requires few { length news.now ≤ columns }
    ensures { result.items ≡ changes row olds.now news.now }
{
    let mut operations = Changes::new();
    let mut brush = None;
    for x in 0..news.len() as u8 {
        let at = usize::from(x);
        let column = x + 1;
        let face = news[at];
        if olds[at].is_same(face) {
            continue;
        }
        if is_blank(&news[at..]) {
            reach(&mut operations, brush, row, column, Pen::plain(WHITE));
            operations.push(Operation::Clear);
            return operations;
        }
        reach(&mut operations, brush, row, column, face.pen);
        operations.push(Operation::Put(face.byte));
        brush = Some(Brush {
            column: column + 1,
            pen: face.pen,
        });
    }
    operations
}

/// Whether all of the faces are blank, on white paper.
fn is_blank(faces: &[Face]) -> bool
    ensures { result ≡ list_all is_blank_face faces.now }
{
    faces.iter().all(|face| face.is_same(Face::blank(WHITE)))
}

/// Adds what brings the cursor to a cell and the pen into its hand.
fn reach(operations: &mut Changes, brush: Option<Brush>, row: u8, column: u8, pen: Pen)
    requires { array_vec_len operations.old + 2 ≤ MOST }
    ensures value { operations.new.items
        ≡ operations.old.items ++ operations_to_reach brush row column pen }
    ensures few { array_vec_len operations.new ≤ array_vec_len operations.old + 2 }
{
    let Some(brush) = brush else {
        operations.push(Operation::Go { column, row });
        operations.push(Operation::Take(pen));
        return;
    };
    if brush.column != column {
        operations.push(Operation::Go { column, row });
    }
    if !brush.pen.is_same(pen) {
        operations.push(Operation::Take(pen));
    }
}
