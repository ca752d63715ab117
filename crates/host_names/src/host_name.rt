//! The name of a host file, or words that are sought, as they are asked for and typed.
ghost use Rattle.std.specs.Prelude.{◌≡◌, ◌<◌, ◌∷◌, ◌++◌, [], IsTrue, length, nat_lt, take};
ghost use Rattle.std.specs.List.{list_all};
ghost use Rattle.host_names.specs.HostNames.{is_host_byte as host_byte, is_host_name, but_last};
ghost use Rattle.host_names.specs.HostNames.{are_words, first_words, words_kept};
ghost use Rattle.host_names.specs.HostNames.{line_number, longer_line};
ghost use Rattle.host_names.specs.declared.host_name.TheConstants.{MOST_SOUGHT};

use arrayvec::ArrayVec;
use std::marker::Model;

/// The most bytes of a name.
const MOST: usize = 255;

/// How many bytes words have at most that are sought: as many as a pattern of `Edit.Search`.
pub const MOST_SOUGHT: usize = 31;

/// The name of a host file, or words that are sought, as far as they are typed: 0 to 255 bytes, each from the space to the
/// tilde (32 to 126).
///
/// A clause sees the list of them.
#[derive(Debug, PartialEq, Eq, Drop)]
pub struct HostName {
    bytes: ArrayVec<u8, MOST>,
}

impl Model for HostName {
    ghost use Rattle.std.specs.Prelude.{ℕ, List, IsTrue};
    ghost use Rattle.host_names.specs.HostNames.{is_host_name};

    ghost Value = { List ℕ };

    ghost view = { λ n. n.bytes.items };

    ghost invariant = { λ n. IsTrue (is_host_name n.bytes.items) };

    ghost inverse = { λ bytes. record { bytes = record { items = bytes } } };
}

impl HostName {
    /// No byte yet.
    pub fn none() -> HostName
        ensures { result ≡ [] }
    {
        HostName {
            bytes: ArrayVec::new(),
        }
    }

    /// These bytes, where they are words that can be typed and sought: 31 at most. Else no byte.
    pub fn of(bytes: &[u8]) -> HostName
        ensures { result ≡ words_kept bytes.now }
    {
        let mut name = HostName::none();
        if are_words(bytes) {
            name.bytes.try_extend_from_slice(bytes).unwrap();
        }
        name
    }

    /// The same once more.
    pub fn copied(&self) -> HostName
        ensures { result ≡ self.now }
    {
        let mut bytes = ArrayVec::new();
        bytes.try_extend_from_slice(self.bytes.as_slice()).unwrap();
        HostName { bytes }
    }

    /// The bytes.
    pub fn as_bytes(&self) -> &[u8]
        ensures value { result.now ≡ self.now }
        ensures valid { IsTrue (is_host_name self.now) }
    {
        self.bytes.as_slice()
    }

    /// The number that it spells, where its bytes are digits, as far as that is counted.
    pub fn number(&self) -> u32
        ensures { result ≡ line_number self.now }
    {
        let mut number = 0;
        for byte in self.as_bytes() {
            number = longer_line(number, *byte);
        }
        number
    }

    /// Whether words have room for a byte more.
    pub fn has_room_for_words(&self) -> bool
        ensures { result ≡ nat_lt (length self.now) MOST_SOUGHT }
    {
        self.bytes.len() < MOST_SOUGHT
    }

    /// Whether it has room for a byte more.
    pub fn has_room(&self) -> bool
        ensures { result ≡ nat_lt (length self.now) 255 }
    {
        self.bytes.len() < MOST
    }

    /// Adds a byte.
    pub fn add(&mut self, byte: u8)
        requires byte { IsTrue (host_byte byte) }
        requires room { IsTrue (nat_lt (length self.old) 255) }
        ensures { self.new ≡ self.old ++ byte ∷ [] }
    {
        self.bytes.push(byte);
    }

    /// Takes the last byte off, if there is one.
    pub fn shorten(&mut self)
        ensures { self.new ≡ but_last self.old }
    {
        self.bytes.pop();
    }
}

/// A number with a digit more, as far as it is counted.
fn longer_line(number: u32, digit: u8) -> u32
    ensures { result ≡ longer_line number digit }
{
    number
        .saturating_mul(10)
        .saturating_add(u32::from(digit.saturating_sub(b'0')))
}

/// Whether each of these bytes can stand in a name.
fn are_host_bytes(bytes: &[u8]) -> bool
    ensures { result ≡ list_all host_byte bytes.now }
{
    bytes.iter().all(|byte| is_host_byte(*byte))
}

/// Whether these bytes are words that can be typed and sought.
fn are_words(bytes: &[u8]) -> bool
    ensures { result ≡ are_words bytes.now }
{
    bytes.len() <= MOST_SOUGHT && are_host_bytes(bytes)
}

/// The first of these bytes: so many as are sought at most.
pub fn first_words(bytes: &[u8]) -> &[u8]
    ensures { result.now ≡ first_words bytes.now }
{
    front(bytes, MOST_SOUGHT)
}

/// The first bytes, so many of them.
fn front(bytes: &[u8], count: usize) -> &[u8]
    ensures { result.now ≡ take count bytes.now }
{
    if count < bytes.len() {
        &bytes[..count]
    } else {
        bytes
    }
}

/// Whether a byte can stand in a name.
pub fn is_host_byte(byte: u8) -> bool
    ensures { result ≡ host_byte byte }
{
    32 <= byte && byte <= 126
}
