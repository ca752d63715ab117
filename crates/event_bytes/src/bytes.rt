//! What an event can put into a file, and what it can type.
ghost use Rattle.std.specs.Prelude.{◌≡◌, Some, None, IsTrue, false, if◌then◌else◌};
ghost use Rattle.std.specs.List.{list_all};
ghost use Rattle.event_bytes.specs.Bytes.{is_text_byte as text_byte, is_file_bytes as file_bytes};
ghost use Rattle.event_bytes.specs.Bytes.{is_typed_bytes as typed_bytes};

use crate::kinds::is_text_byte;
use arrayvec::ArrayVec;
use std::marker::Model;

/// The most bytes that one event puts into a file or types.
const MOST: usize = 900;

/// The bytes that one event puts into a file, by this profile's rule: 0 to 900, each a tabulator (9), a carriage
/// return (13) or one from the space to the tilde (32 to 126).
///
/// A clause sees the list of them.
#[derive(Debug, PartialEq, Eq, Drop)]
pub struct FileBytes {
    bytes: ArrayVec<u8, MOST>,
}

impl Model for FileBytes {
    ghost use Rattle.std.specs.Prelude.{ℕ, List, IsTrue};
    ghost use Rattle.event_bytes.specs.Bytes.{is_file_bytes};

    ghost Value = { List ℕ };

    ghost view = { λ f. f.bytes.items };

    ghost invariant = { λ f. IsTrue (is_file_bytes f.bytes.items) };

    ghost inverse = { λ bytes. record { bytes = record { items = bytes } } };
}

impl FileBytes {
    /// These bytes. None exactly where one of them can't stand in a file, or they are more than 900.
    pub fn new(bytes: &[u8]) -> Option<FileBytes>
        ensures { result ≡ (if file_bytes bytes.now then Some bytes.now else None) }
    {
        let mut made = FileBytes {
            bytes: ArrayVec::new(),
        };
        if made.set(bytes) { Some(made) } else { None }
    }

    /// Makes it these bytes. False exactly where one of them can't stand in a file, or they are more than 900: then it
    /// stays.
    fn set(&mut self, bytes: &[u8]) -> bool
        ensures is { result ≡ file_bytes bytes.now }
        ensures set { IsTrue result → self.new ≡ bytes.now }
        ensures stays { result ≡ false → self.new ≡ self.old }
    {
        if !is_file_bytes(bytes) {
            return false;
        }
        self.bytes.clear();
        self.bytes.try_extend_from_slice(bytes).is_ok()
    }

    /// The bytes, 0 to 900.
    pub fn as_bytes(&self) -> &[u8]
        ensures value { result.now ≡ self.now }
        ensures valid { IsTrue (file_bytes self.now) }
    {
        self.bytes.as_slice()
    }
}

/// The bytes that one event types: 1 to 900, each a tabulator (9), a carriage return (13) or one from the space to the
/// tilde (32 to 126).
///
/// A clause sees the list of them.
#[derive(Debug, PartialEq, Eq, Drop)]
pub struct TypedBytes {
    bytes: FileBytes,
}

impl Model for TypedBytes {
    ghost use Rattle.std.specs.Prelude.{ℕ, List, IsTrue};
    ghost use Rattle.event_bytes.specs.Bytes.{is_typed_bytes};

    ghost Value = { List ℕ };

    ghost view = { λ t. t.bytes };

    ghost invariant = { λ t. IsTrue (is_typed_bytes t.bytes) };

    ghost inverse = { λ bytes. record { bytes = bytes } };
}

impl TypedBytes {
    /// These bytes. None exactly where there is none of them, one of them can't be typed, or they are more than 900.
    pub fn new(bytes: &[u8]) -> Option<TypedBytes>
        ensures { result ≡ (if typed_bytes bytes.now then Some bytes.now else None) }
    {
        if bytes.is_empty() {
            return None;
        }
        let bytes = FileBytes::new(bytes)?;
        Some(TypedBytes { bytes })
    }

    /// Makes it these bytes, in their place. False exactly where there is none of them, one of them can't be typed, or
    /// they are more than 900: then it stays.
    pub fn set(&mut self, bytes: &[u8]) -> bool
        ensures is { result ≡ typed_bytes bytes.now }
        ensures set { IsTrue result → self.new ≡ bytes.now }
        ensures stays { result ≡ false → self.new ≡ self.old }
    {
        !bytes.is_empty() && self.bytes.set(bytes)
    }

    /// The bytes, 1 to 900.
    pub fn as_bytes(&self) -> &[u8]
        ensures value { result.now ≡ self.now }
        ensures valid { IsTrue (typed_bytes self.now) }
    {
        self.bytes.as_bytes()
    }
}

/// Whether one event can put these bytes into a file.
fn is_file_bytes(bytes: &[u8]) -> bool
    ensures { result ≡ file_bytes bytes.now }
{
    bytes.len() <= MOST && are_text_bytes(bytes)
}

/// Whether each of the bytes may stand in a file.
fn are_text_bytes(bytes: &[u8]) -> bool
    ensures { result ≡ list_all text_byte bytes.now }
{
    bytes.iter().all(|byte| is_text_byte(*byte))
}
