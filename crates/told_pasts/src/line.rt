//! A line of words.

ghost use Rattle.std.specs.Prelude.{◌≡◌};
ghost use Rattle.std.specs.Str.{IsUtf8};

use std::marker::Model;
use std::str::from_utf8;

/// A line of words.
///
/// A clause sees its bytes.
#[derive(Drop)]
pub struct Line {
    bytes: Vec<u8>,
}

impl Model for Line {
    ghost use Rattle.std.specs.Prelude.{ℕ, List};

    ghost Value = { List ℕ };

    ghost view = { λ line. line.bytes.items };
}

impl Line {
    /// A line of these bytes.
    pub fn new(bytes: Vec<u8>) -> Line
        ensures { result ≡ bytes.items }
    {
        Line { bytes }
    }

    /// The bytes of the line.
    pub fn as_bytes(&self) -> &[u8]
        ensures { result.now ≡ self.now }
    {
        self.bytes.as_slice()
    }

    /// The line as text. It has nothing but ASCII.
    pub fn as_str(&self) -> &str
        ensures { IsUtf8 self.now → result.now ≡ self.now }
    {
        from_utf8(self.bytes.as_slice()).unwrap_or("?")
    }
}
