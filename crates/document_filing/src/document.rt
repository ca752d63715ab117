//! A document.
ghost use Rattle.std.specs.Prelude.{◌≡◌, Some, None, IsTrue, if◌then◌else◌};
ghost use Rattle.std.specs.List.{list_all};
ghost use Rattle.event_bytes.specs.Bytes.{is_name, is_text_byte as text_byte};

use event_bytes::{Name, is_text_byte};
use std::marker::Model;

/// A document: its name and its bytes, as many as there are, each a tabulator (9), a carriage return (13) or one from
/// the space to the tilde (32 to 126).
///
/// A clause sees the pair of them.
#[derive(Drop)]
pub struct Document {
    name: Name,
    bytes: Vec<u8>,
}

impl Model for Document {
    ghost use Rattle.std.specs.Prelude.{ℕ, List, IsTrue};
    ghost use Rattle.std.specs.List.{list_all};
    ghost use Rattle.event_bytes.specs.Bytes.{is_text_byte};

    ghost Value = { List ℕ × List ℕ };

    ghost view = { λ d. (d.name, d.bytes.items) };

    ghost invariant = { λ d. IsTrue (list_all is_text_byte d.bytes.items) };
}

impl Document {
    /// The document of that name with these bytes. None exactly where one of them can't stand in a text.
    pub fn new(name: Name, bytes: Vec<u8>) -> Option<Document>
        ensures { result
            ≡ (if list_all text_byte bytes.items then Some (name, bytes.items) else None) }
    {
        if are_text_bytes(&bytes) {
            Some(Document { name, bytes })
        } else {
            None
        }
    }

    /// Its name.
    pub fn name(&self) -> &Name
        ensures value { result.now ≡ self.now.0 }
    {
        &self.name
    }

    /// Its bytes.
    pub fn as_bytes(&self) -> &[u8]
        ensures value { result.now ≡ self.now.1 }
        ensures valid { IsTrue (list_all text_byte self.now.1) }
    {
        &self.bytes
    }
}

/// Whether each of the bytes may stand in a text.
fn are_text_bytes(bytes: &[u8]) -> bool
    ensures { result ≡ list_all text_byte bytes.now }
{
    bytes.iter().all(|byte| is_text_byte(*byte))
}
