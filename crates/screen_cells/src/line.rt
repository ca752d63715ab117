//! A printed line of a row.
ghost use Rattle.std.specs.Prelude.{◌≡◌, ◌<◌, ◌≤◌, length, map};
ghost use Rattle.screen_pictures.specs.Mark.{letter};
ghost use Rattle.screen_pictures.specs.Printed.{row_line, without_trailing, character_line, mark_line, has_mark_line};

use crate::screen::{Row, WIDTH};
use arrayvec::ArrayVec;
use screen_pictures::Cell;

/// A row's number and colon, its 80 bytes and a line feed.
pub(crate) type PrintedLine = ArrayVec<u8, 84>;

/// The bytes of a row's marks.
type RowBytes = ArrayVec<u8, 80>;

/// The line of a row's characters.
pub(crate) fn character_line(y: u8, row: &Row) -> PrintedLine
    requires { y < 100 }
    ensures { result.items ≡ character_line y row.now }
{
    row_line(y, &characters(row), b' ')
}

/// The line of a row's marks.
pub(crate) fn mark_line(y: u8, row: &[Cell]) -> PrintedLine
    requires two_digits { y < 100 }
    requires fits { length row.now ≤ 80 }
    ensures { result.items ≡ mark_line y row.now }
{
    row_line(y, letters(row).as_slice(), b'.')
}

/// Whether a row has a mark line.
pub(crate) fn has_mark_line(row: &[Cell]) -> bool
    ensures { result ≡ has_mark_line row.now }
{
    row.iter().any(|cell| cell.mark.has_letter())
}

/// The bytes of a row's characters.
fn characters(row: &Row) -> [u8; WIDTH]
    ensures { result ≡ map (λ c. c.ch) row.now }
{
    let mut bytes = [b' '; WIDTH];
    for x in 0..WIDTH {
        bytes[x] = row[x].ch;
    }
    bytes
}

/// The letters of a row's marks.
fn letters(row: &[Cell]) -> RowBytes
    requires { length row.now ≤ 80 }
    ensures { result.items ≡ map (λ c. letter c.mark) row.now }
{
    let mut bytes = RowBytes::new();
    for cell in row {
        bytes.push(cell.mark.letter());
    }
    bytes
}

/// A line with a row's number and its bytes, without blanks at their end.
fn row_line(y: u8, bytes: &[u8], blank: u8) -> PrintedLine
    requires two_digits { y < 100 }
    requires fits { length bytes.now ≤ 80 }
    ensures { result.items ≡ row_line y blank bytes.now }
{
    let mut line = PrintedLine::new();
    line.push(b'0' + y / 10);
    line.push(b'0' + y % 10);
    line.push(b':');
    line.try_extend_from_slice(without_trailing(bytes, blank))
        .unwrap();
    line.push(b'\n');
    line
}

/// The bytes up to the last one that isn't `blank`.
fn without_trailing(bytes: &[u8], blank: u8) -> &[u8]
    ensures front { result.now ≡ without_trailing blank bytes.now }
    ensures shorter { length result.now ≤ length bytes.now }
{
    let mut len = bytes.len();
    while len > 0 && bytes[len - 1] == blank {
        len -= 1;
    }
    &bytes[..len]
}
