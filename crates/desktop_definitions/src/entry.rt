//! What a desktop's listing is made of.
ghost use Rattle.std.specs.Prelude.{◌≡◌};

use event_bytes::Name;
use std::marker::Model;
use std::vec::Vec;

/// The bytes of a menu up to its first space, or all where it has none.
///
/// A clause sees the list of them.
#[derive(Drop)]
pub struct MenuName {
    bytes: Vec<u8>,
}

impl Model for MenuName {
    ghost use Rattle.std.specs.Prelude.{ℕ, List};

    ghost Value = { List ℕ };

    ghost view = { λ name. name.bytes.items };
}

impl MenuName {
    /// The name of these bytes.
    pub fn new(bytes: Vec<u8>) -> MenuName
        ensures { result ≡ bytes.items }
    {
        MenuName { bytes }
    }

    /// The bytes.
    pub fn as_bytes(&self) -> &[u8]
        ensures { result.now ≡ self.now }
    {
        &self.bytes
    }
}

/// One entry of a desktop's listing.
#[derive(Drop)]
pub enum Entry {
    /// A file, and its length in characters.
    File {
        name: Name,
        len: u32,
    },
    /// A viewer: the leftmost column of its track, the row at which it begins and the one before which it ends, the
    /// name in its menu, and the length of its main text in characters.
    Viewer {
        x: u8,
        bottom: u8,
        top: u8,
        name: MenuName,
        len: u32,
    },
    /// The viewers that follow stand in a track over others: the leftmost column of its characters, and how many tracks
    /// there are up to it, 2 at least.
    Over {
        x: u8,
        depth: u8,
    },
    /// How many characters count as written.
    Written(u32),
}
