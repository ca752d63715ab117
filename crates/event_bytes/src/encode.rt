//! The bytes of an event.
ghost use Rattle.std.specs.Prelude.{◌≡◌, ◌+◌, ◌<◌, ◌≤◌, ◌^◌, ◌++◌, length, IfSome};
ghost use Rattle.arrayvec.specs.ArrayVec.{array_vec_len};
ghost use Rattle.event_bytes.specs.Parts.{byte, word_bytes, counted_bytes};
ghost use Rattle.event_bytes.specs.Spelling.{IsEvent, spelling};

use crate::event::{Event, FILE, KEY, MARK, POINT, TYPED};
use arrayvec::ArrayVec;

/// As much of a spelling as is written; the longest has 935 bytes.
type Written = ArrayVec<u8, 935>;

impl Event {
    /// The bytes that spell the event, from 2 to 935 of them. The format is this profile's: the number of the event's
    /// kind in one byte, then what it holds.
    #[tactic(auto, unfolding(crate::specs::Spelling::spelling))]
    pub fn encode(&self) -> ArrayVec<u8, 935>
        ensures spelled { result.items ≡ spelling self.now }
        ensures valid { IsEvent self.now }
    {
        let mut written = Written::new();
        match self {
            Event::Typed(bytes) => {
                written.push(TYPED);
                put_long(&mut written, bytes.as_bytes());
            }
            Event::Key(key) => put(&mut written, &[KEY, key.number()]),
            Event::Mark { x, y } => put(&mut written, &[MARK, *x, *y]),
            Event::Point {
                keys,
                x0,
                y0,
                x1,
                y1,
            } => {
                put(&mut written, &[POINT, keys.number(), *x0, *y0, *x1, *y1]);
            }
            Event::File { name, bytes } => {
                written.push(FILE);
                put_name(&mut written, name.as_bytes());
                put_long(&mut written, bytes.as_bytes());
            }
        }
        written
    }

    /// The bytes that spell the event, if it has no text: 6 of them at most.
    #[tactic(auto, unfolding(crate::specs::Spelling::spelling))]
    pub fn encode_short(&self) -> Option<ArrayVec<u8, 6>>
        ensures spelled { IfSome result (λ short. short.items ≡ spelling self.now) }
        ensures valid { IsEvent self.now }
    {
        match self {
            Event::Key(key) => Some(short(&[KEY, key.number()])),
            Event::Mark { x, y } => Some(short(&[MARK, *x, *y])),
            Event::Point {
                keys,
                x0,
                y0,
                x1,
                y1,
            } => Some(short(&[POINT, keys.number(), *x0, *y0, *x1, *y1])),
            // (reading a text says that it is one)
            Event::Typed(bytes) => {
                let _ = bytes.as_bytes();
                None
            }
            Event::File { name, bytes } => {
                let _ = name.as_bytes();
                let _ = bytes.as_bytes();
                None
            }
        }
    }
}

/// So many bytes, which are few.
fn short(bytes: &[u8]) -> ArrayVec<u8, 6>
    requires { length bytes.now ≤ 6 }
    ensures { result.items ≡ bytes.now }
{
    let mut short = ArrayVec::new();
    short.try_extend_from_slice(bytes).unwrap();
    short
}

/// Adds a name, after its length in one byte.
fn put_name(written: &mut Written, name: &[u8])
    requires short { length name.now < 2 ^ 8 }
    requires room { array_vec_len written.old + 1 + length name.now ≤ 935 }
    ensures { written.new.items ≡ written.old.items ++ counted_bytes byte name.now }
{
    written.push(name.len() as u8);
    put(written, name);
}

/// Adds bytes, after their number in two bytes.
fn put_long(written: &mut Written, bytes: &[u8])
    requires short { length bytes.now < 2 ^ 16 }
    requires room { array_vec_len written.old + 2 + length bytes.now ≤ 935 }
    ensures { written.new.items ≡ written.old.items ++ counted_bytes word_bytes bytes.now }
{
    put(written, &(bytes.len() as u16).to_be_bytes());
    put(written, bytes);
}

/// Adds bytes as they are.
fn put(written: &mut Written, bytes: &[u8])
    requires { array_vec_len written.old + length bytes.now ≤ 935 }
    ensures { written.new.items ≡ written.old.items ++ bytes.now }
{
    written.try_extend_from_slice(bytes).unwrap();
}
