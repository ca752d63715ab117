//! What an event is, and the bytes that spell it.
//!
//! An event is what happens to the desktop: all that it is, is a fold over events. They are kept as bytes, so each
//! event has exactly one spelling, and no spelling begins another.
#![tactic(auto)]

mod bytes;
mod decode;
mod encode;
mod event;
mod keys;
mod kinds;
mod laws;
mod name;

pub use bytes::{FileBytes, TypedBytes};
pub use event::Event;
pub use keys::{Key, Keys};
pub use kinds::{CARRIAGE_RETURN, TABULATOR, is_digit, is_letter, is_name_byte, is_text_byte};
pub use laws::{at_most_one_begins, spelling_fits};
pub use name::Name;
