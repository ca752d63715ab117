//! The event that bytes begin with.
ghost use Rattle.std.specs.Prelude.{◌≡◌, ◌≤◌, length, Some, IfSome};
ghost use Rattle.std.specs.Option.{option_map};
ghost use Rattle.event_bytes.specs.Parts.{value_and_rest, byte_at, pair_at, bytes_at, counted_at};
ghost use Rattle.event_bytes.specs.Spelling.{spelling, BeginsWithEvent};
ghost use Rattle.event_bytes.specs.Reading.{name_at, event_file_at, keys_at, event_cell_at};
ghost use Rattle.event_bytes.specs.Reading.{drag_at, typed_body_at, key_body_at, mark_body_at, point_body_at};
ghost use Rattle.event_bytes.specs.Reading.{file_body_at, body_at, event_at};

use crate::bytes::{FileBytes, TypedBytes};
use crate::event::{Cell, Drag, Event, FILE, KEY, MARK, POINT, TYPED};
use crate::keys::{Key, Keys};
use crate::name::Name;

impl Event {
    /// The event that the bytes begin with, and how many bytes spell it. None exactly where they begin with no event's
    /// spelling, as where it is cut off. What follows the spelling doesn't matter.
    pub fn decode(bytes: &[u8]) -> Option<(Event, usize)>
        ensures found { IfSome result (λ x. BeginsWithEvent bytes.now x.0) }
        ensures count { IfSome result (λ x. x.1 ≡ length (spelling x.0)) }
        ensures within { IfSome result (λ x. x.1 ≤ length bytes.now) }
        ensures only { (event : Event) → BeginsWithEvent bytes.now event
            → result ≡ Some (event, length (spelling event)) }
    {
        let (event, rest) = event_from(bytes)?;
        Some((event, bytes.len() - rest.len()))
    }
}

/// The event at the beginning, and the rest.
#[tactic(auto, unfolding(crate::specs::Reading::event_at))]
fn event_from(bytes: &[u8]) -> Option<(Event, &[u8])>
    ensures { value_and_rest result ≡ event_at bytes.now }
{
    let (number, rest) = byte_from(bytes)?;
    body_from(number, rest)
}

/// The event of the kind of that number, and the rest.
#[tactic(auto, unfolding(crate::specs::Reading::body_at))]
fn body_from(number: u8, bytes: &[u8]) -> Option<(Event, &[u8])>
    ensures { value_and_rest result ≡ body_at number bytes.now }
{
    if number == TYPED {
        typed_from(bytes)
    } else if number == KEY {
        key_event_from(bytes)
    } else if number == MARK {
        mark_from(bytes)
    } else if number == POINT {
        point_from(bytes)
    } else if number == FILE {
        file_event_from(bytes)
    } else {
        None
    }
}

/// What is typed, and the rest.
#[tactic(auto, unfolding(crate::specs::Reading::typed_body_at, crate::specs::Reading::typed_bytes_at))]
fn typed_from(bytes: &[u8]) -> Option<(Event, &[u8])>
    ensures { value_and_rest result ≡ typed_body_at bytes.now }
{
    let (bytes, rest) = counted_from(bytes)?;
    Some((Event::Typed(TypedBytes::new(bytes)?), rest))
}

/// The event of a key of the keyboard, and the rest.
#[tactic(auto, unfolding(crate::specs::Reading::key_body_at, crate::specs::Reading::key_at))]
fn key_event_from(bytes: &[u8]) -> Option<(Event, &[u8])>
    ensures { value_and_rest result ≡ key_body_at bytes.now }
{
    let (number, rest) = byte_from(bytes)?;
    let key = *Key::ALL.get(number as usize)?;
    Some((Event::Key(key), rest))
}

/// The event that sets the marker, and the rest.
#[tactic(auto, unfolding(crate::specs::Reading::mark_body_at))]
fn mark_from(bytes: &[u8]) -> Option<(Event, &[u8])>
    ensures { value_and_rest result ≡ mark_body_at bytes.now }
{
    let (cell, rest) = cell_from(bytes)?;
    let Cell { x, y } = cell;
    Some((Event::Mark { x, y }, rest))
}

/// The event of the mouse, and the rest.
#[tactic(auto, unfolding(crate::specs::Reading::point_body_at))]
fn point_from(bytes: &[u8]) -> Option<(Event, &[u8])>
    ensures { value_and_rest result ≡ point_body_at bytes.now }
{
    let (drag, rest) = drag_from(bytes)?;
    let event = Event::Point {
        keys: drag.keys,
        x0: drag.pressed.x,
        y0: drag.pressed.y,
        x1: drag.released.x,
        y1: drag.released.y,
    };
    Some((event, rest))
}

/// The event that fills a file, and the rest.
#[tactic(auto, unfolding(crate::specs::Reading::file_body_at))]
fn file_event_from(bytes: &[u8]) -> Option<(Event, &[u8])>
    ensures { value_and_rest result ≡ file_body_at bytes.now }
{
    let ((name, bytes), rest) = file_from(bytes)?;
    Some((Event::File { name, bytes }, rest))
}

/// Keys of the mouse, and the rest.
#[tactic(auto, unfolding(crate::specs::Reading::keys_at))]
fn keys_from(bytes: &[u8]) -> Option<(Keys, &[u8])>
    ensures { value_and_rest result ≡ keys_at bytes.now }
{
    let (number, rest) = byte_from(bytes)?;
    let keys = *Keys::ALL.get(number as usize)?;
    Some((keys, rest))
}

/// A column and a row, and the rest.
#[tactic(auto, unfolding(crate::specs::Reading::event_cell_at))]
fn cell_from(bytes: &[u8]) -> Option<(Cell, &[u8])>
    ensures { value_and_rest result ≡ event_cell_at bytes.now }
{
    let (x, rest) = byte_from(bytes)?;
    let (y, rest) = byte_from(rest)?;
    Some((Cell { x, y }, rest))
}

/// Keys of the mouse with the cells where they were pressed and released, and the rest.
#[tactic(auto, unfolding(crate::specs::Reading::drag_at))]
fn drag_from(bytes: &[u8]) -> Option<(Drag, &[u8])>
    ensures { value_and_rest result ≡ drag_at bytes.now }
{
    let (keys, rest) = keys_from(bytes)?;
    let (pressed, rest) = cell_from(rest)?;
    let (released, rest) = cell_from(rest)?;
    let drag = Drag {
        keys,
        pressed,
        released,
    };
    Some((drag, rest))
}

/// The name and the bytes of a file, and the rest.
#[tactic(auto, unfolding(crate::specs::Reading::event_file_at, crate::specs::Reading::file_bytes_at))]
fn file_from(bytes: &[u8]) -> Option<((Name, FileBytes), &[u8])>
    ensures { value_and_rest result ≡ event_file_at bytes.now }
{
    let (name, rest) = name_from(bytes)?;
    let (bytes, rest) = counted_from(rest)?;
    Some(((name, FileBytes::new(bytes)?), rest))
}

/// A name after its length in one byte, and the rest.
#[tactic(auto, unfolding(crate::specs::Reading::name_at, crate::specs::Parts::counted_at))]
fn name_from(bytes: &[u8]) -> Option<(Name, &[u8])>
    ensures { value_and_rest result ≡ name_at bytes.now }
{
    let (len, rest) = byte_from(bytes)?;
    let (name, rest) = bytes_from(len as usize, rest)?;
    Some((Name::new(name)?, rest))
}

/// Bytes after their number in two bytes, and the rest.
#[tactic(auto, unfolding(crate::specs::Parts::counted_at))]
fn counted_from(bytes: &[u8]) -> Option<(&[u8], &[u8])>
    ensures { option_map (λ x. (x.0.now, x.1.now)) result ≡ counted_at pair_at bytes.now }
{
    let (len, rest) = word_from(bytes)?;
    bytes_from(len as usize, rest)
}

/// The first byte, and the rest.
#[tactic(auto, unfolding(crate::specs::Parts::byte_at))]
fn byte_from(bytes: &[u8]) -> Option<(u8, &[u8])>
    ensures { value_and_rest result ≡ byte_at bytes.now }
{
    let (first, rest) = bytes.split_first()?;
    Some((*first, rest))
}

/// A number in two bytes, the higher first, and the rest.
#[tactic(auto, unfolding(crate::specs::Parts::pair_at))]
fn word_from(bytes: &[u8]) -> Option<(u16, &[u8])>
    ensures { value_and_rest result ≡ pair_at bytes.now }
{
    let (high, rest) = byte_from(bytes)?;
    let (low, rest) = byte_from(rest)?;
    Some((u16::from_be_bytes([high, low]), rest))
}

/// So many bytes, and the rest.
#[tactic(auto, unfolding(crate::specs::Parts::bytes_at))]
fn bytes_from(len: usize, bytes: &[u8]) -> Option<(&[u8], &[u8])>
    ensures { option_map (λ x. (x.0.now, x.1.now)) result ≡ bytes_at len bytes.now }
{
    if bytes.len() < len {
        None
    } else {
        Some(bytes.split_at(len))
    }
}
