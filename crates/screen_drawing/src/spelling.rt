//! Colours, numbers and characters as a drawing spells them.
ghost use Rattle.std.specs.Prelude.{◌≡◌, ◌++◌, ◌+◌, ◌*◌, ◌<◌, ◌≤◌, length};
ghost use Rattle.std.specs.Fmt.{decimal};
ghost use Rattle.arrayvec.specs.ArrayVec.{array_vec_len};
ghost use Rattle.screen_drawing.specs.Strokes.{colour_code, escaped_byte, step_strength, strength};
ghost use Rattle.screen_drawing.specs.Drawn.{escaped_text};

use crate::Face;
use arrayvec::ArrayVec;
use byte_streams::hex_digit;

/// The width of a cell, in units of the drawing.
pub(crate) const CELL_WIDTH: u16 = 9;

/// The height of a cell, in units.
pub(crate) const CELL_HEIGHT: u16 = 19;

/// How far below the upper edge of a cell its characters stand, in units.
pub(crate) const BASELINE: u16 = 14;

/// The width of a caret, in units.
pub(crate) const CARET_WIDTH: u16 = 2;

/// The digits of a number.
pub(crate) type Digits = ArrayVec<u8, 5>;

/// The characters of a row's cells.
pub(crate) type Escaped = ArrayVec<u8, 400>;

/// The digits of a number.
pub(crate) fn digits(number: u16) -> Digits
    ensures { result.items ≡ decimal number }
{
    let mut buffer = itoa::Buffer::new();
    let mut digits = Digits::new();
    digits
        .try_extend_from_slice(buffer.format(number).as_bytes())
        .unwrap();
    digits
}

/// A colour of the terminal.
#[tactic(auto, unfolding(crate::specs::Strokes::colour_code))]
pub(crate) fn colour_code(colour: u8) -> [u8; 7]
    ensures { result ≡ colour_code colour }
{
    let red = strength(36, colour);
    let green = strength(6, colour);
    let blue = strength(1, colour);
    [
        b'#',
        hex_digit(red / 16),
        hex_digit(red % 16),
        hex_digit(green / 16),
        hex_digit(green % 16),
        hex_digit(blue / 16),
        hex_digit(blue % 16),
    ]
}

/// How strong the part of a colour is of which a step is this.
fn strength(one_step: u8, colour: u8) -> u8
    requires { 0 < one_step }
    ensures { result ≡ strength one_step colour }
{
    if colour >= 232 {
        8 + 10 * (colour - 232)
    } else {
        step_strength(colour.saturating_sub(16) / one_step % 6)
    }
}

/// How strong a colour is by its step in the cube.
fn step_strength(step: u8) -> u8
    requires { step < 6 }
    ensures { result ≡ step_strength step }
{
    if step == 0 { 0 } else { 55 + 40 * step }
}

/// The characters of cells.
pub(crate) fn escaped(faces: &[Face]) -> Escaped
    requires { length faces.now ≤ 80 }
    ensures { result.items ≡ escaped_text faces.now }
{
    let mut text = Escaped::new();
    for face in faces {
        put_escaped(&mut text, face.byte);
    }
    text
}

/// Adds a character.
#[tactic(auto, unfolding(crate::specs::Strokes::escaped_byte))]
fn put_escaped(text: &mut Escaped, byte: u8)
    requires { array_vec_len text.old + 5 ≤ 400 }
    ensures value { text.new.items ≡ text.old.items ++ escaped_byte byte }
    ensures few { array_vec_len text.new ≤ array_vec_len text.old + 5 }
{
    if byte == b'&' {
        text.try_extend_from_slice(b"&amp;").unwrap();
    } else if byte == b'<' {
        text.try_extend_from_slice(b"&lt;").unwrap();
    } else if byte == b'>' {
        text.try_extend_from_slice(b"&gt;").unwrap();
    } else {
        text.push(byte);
    }
}
