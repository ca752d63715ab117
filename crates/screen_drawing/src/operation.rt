//! Operations of a terminal, and the bytes that spell them.
ghost use Rattle.std.specs.Prelude.{◌≡◌, ◌++◌, ◌+◌, ◌<◌, ◌≤◌, length};
ghost use Rattle.arrayvec.specs.ArrayVec.{array_vec_len};
ghost use Rattle.screen_drawing.specs.Spelling.{operation_bytes, spelled_pen, three_digits, two_digits};

use crate::pen::Pen;
use arrayvec::ArrayVec;

/// What a terminal is told to do. Columns and rows count from 1.
#[derive(Clone, Copy, Debug, PartialEq, Eq)]
pub enum Operation {
    /// What follows is to be seen at once, when it is released.
    Hold,
    /// What was held is to be seen.
    Release,
    /// The cursor isn't to be seen.
    Hide,
    /// The cursor is to be seen.
    Show,
    /// The bell rings.
    Ring,
    /// The cursor goes to a cell.
    Go { column: u8, row: u8 },
    /// What is put from now on is drawn with this pen.
    Take(Pen),
    /// A byte is put at the cursor, which goes to the next column.
    Put(u8),
    /// The cells from the cursor to the right edge become blank, on the background of the pen.
    Clear,
    /// All cells become blank, on the background of the pen.
    Wipe,
}

/// The number of bytes that an operation has at most.
pub(crate) const LONGEST: usize = 31;

/// The bytes of an operation.
type Bytes = ArrayVec<u8, LONGEST>;

impl Operation {
    /// Its bytes.
    pub fn spell(self) -> Bytes
        ensures bytes { result.items ≡ operation_bytes self }
    {
        let mut bytes = Bytes::new();
        match self {
            Operation::Hold => put(&mut bytes, b"\x1b[?2026h"),
            Operation::Release => put(&mut bytes, b"\x1b[?2026l"),
            Operation::Hide => put(&mut bytes, b"\x1b[?25l"),
            Operation::Show => put(&mut bytes, b"\x1b[?25h"),
            Operation::Ring => put(&mut bytes, b"\x07"),
            Operation::Go { column, row } => {
                put(&mut bytes, b"\x1b[");
                put_three_digits(&mut bytes, row);
                put(&mut bytes, b";");
                put_three_digits(&mut bytes, column);
                put(&mut bytes, b"H");
            }
            Operation::Take(pen) => put_pen(&mut bytes, pen),
            Operation::Put(byte) => bytes.push(byte),
            Operation::Clear => put(&mut bytes, b"\x1b[K"),
            Operation::Wipe => put(&mut bytes, b"\x1b[2J"),
        }
        bytes
    }
}

/// The bytes by which a pen is taken. They begin by taking all styles away.
fn put_pen(bytes: &mut Bytes, pen: Pen)
    requires { array_vec_len bytes.old ≡ 0 }
    ensures { bytes.new.items ≡ operation_bytes (Operation.Take pen) }
{
    let (weight, slant, rule) = pen.style_codes();
    put(bytes, b"\x1b[0;");
    put_two_digits(bytes, weight);
    put(bytes, b";");
    put_two_digits(bytes, slant);
    put(bytes, b";");
    put_two_digits(bytes, rule);
    put(bytes, b";38;5;");
    put_three_digits(bytes, pen.ink);
    put(bytes, b";48;5;");
    put_three_digits(bytes, pen.paper);
    put(bytes, b"m");
}

fn put(bytes: &mut Bytes, more: &[u8])
    requires { array_vec_len bytes.old + length more.now ≤ LONGEST }
    ensures { bytes.new.items ≡ bytes.old.items ++ more.now }
{
    bytes.try_extend_from_slice(more).unwrap();
}

/// A number in two digits.
fn put_two_digits(bytes: &mut Bytes, number: u8)
    requires fits { number < 100 }
    requires room { array_vec_len bytes.old + 2 ≤ LONGEST }
    ensures { bytes.new.items ≡ bytes.old.items ++ two_digits number }
{
    put(bytes, &[b'0' + number / 10, b'0' + number % 10]);
}

/// A number in three digits.
fn put_three_digits(bytes: &mut Bytes, number: u8)
    requires { array_vec_len bytes.old + 3 ≤ LONGEST }
    ensures { bytes.new.items ≡ bytes.old.items ++ three_digits number }
{
    put(
        bytes,
        &[
            b'0' + number / 100,
            b'0' + number / 10 % 10,
            b'0' + number % 10,
        ],
    );
}

impl Default for Operation {
    fn default() -> Operation {
        Operation::Put(b' ')
    }
}
