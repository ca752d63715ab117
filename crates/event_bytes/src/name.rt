//! Names of files.
ghost use Rattle.std.specs.Prelude.{⊤, ◌≡◌, Ok, Some, None, IsTrue, if◌then◌else◌};
ghost use Rattle.std.specs.List.{list_all};
ghost use Rattle.event_bytes.specs.Bytes.{begins, is_letter as letter, is_name_byte as name_byte, is_name as names};

use crate::kinds::{is_letter, is_name_byte};
use arrayvec::ArrayVec;
use std::alloc::AllocError;
use std::marker::Model;

/// The most bytes of a name.
const LONGEST: usize = 31;

/// A file's name, by this profile's rule: a letter, and then letters, digits and periods, 1 to 31 bytes in all. A
/// letter is A to Z or a to z.
///
/// A clause sees the list of its bytes. Names are ordered byte by byte, a name before its longer ones.
#[derive(Debug, PartialEq, Eq, PartialOrd, Ord, Drop)]
pub struct Name {
    bytes: ArrayVec<u8, LONGEST>,
}

impl Model for Name {
    ghost use Rattle.std.specs.Prelude.{ℕ, List, IsTrue};
    ghost use Rattle.event_bytes.specs.Bytes.{is_name};

    ghost Value = { List ℕ };

    ghost view = { λ n. n.bytes.items };

    ghost invariant = { λ n. IsTrue (is_name n.bytes.items) };

    ghost inverse = { λ bytes. record { bytes = record { items = bytes } } };
}

/// A copy, which takes no memory and so never fails.
impl Clone for Name {
    ghost is_clone = { λ name copy. copy ≡ name };

    ghost is_infallible = { λ _. ⊤ };

    fn clone(&self) -> Result<Name, AllocError>
        ensures copy { result ≡ Ok self.now }
        ensures valid { IsTrue (names self.now) }
    {
        Ok(Name {
            bytes: self.bytes.clone()?,
        })
    }
}

impl Name {
    /// The name of these bytes. None exactly where they are no name.
    pub fn new(bytes: &[u8]) -> Option<Name>
        ensures { result ≡ (if names bytes.now then Some bytes.now else None) }
    {
        if !is_name(bytes) {
            return None;
        }
        let bytes = ArrayVec::try_from(bytes).ok()?;
        Some(Name { bytes })
    }

    /// Its bytes, 1 to 31.
    pub fn as_bytes(&self) -> &[u8]
        ensures value { result.now ≡ self.now }
        ensures valid { IsTrue (names self.now) }
    {
        self.bytes.as_slice()
    }
}

/// The name `A`, a blank that no list shows: the places of an array that hold no name yet have this value.
impl Default for Name {
    ghost use Rattle.std.specs.Prelude.{◌≡◌, [], ◌∷◌};

    ghost is_default = { λ name. name ≡ 65 ∷ [] };

    #[tactic(auto, using(crate::proofs::Names::blank_is_name))]
    fn default() -> Name {
        let mut bytes = ArrayVec::new();
        bytes.push(b'A');
        Name { bytes }
    }
}

/// Whether the bytes are a name.
fn is_name(bytes: &[u8]) -> bool
    ensures { result ≡ names bytes.now }
{
    bytes.len() <= LONGEST && begins_with_letter(bytes) && are_name_bytes(bytes)
}

/// Whether each of the bytes may stand in a name.
fn are_name_bytes(bytes: &[u8]) -> bool
    ensures { result ≡ list_all name_byte bytes.now }
{
    bytes.iter().all(|byte| is_name_byte(*byte))
}

/// Whether the first byte is a letter; not so where there is none.
fn begins_with_letter(bytes: &[u8]) -> bool
    ensures { result ≡ begins letter bytes.now }
{
    match bytes.first() {
        None => false,
        Some(first) => is_letter(*first),
    }
}
