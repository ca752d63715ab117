//! Writers: bytes and numbers that become characters of a text.
//!
//! A writer adds bytes to a source of characters and gathers the new characters in a buffer, each in
//! the look that is current when it is written; the buffer is handed out and goes into a text. A clause
//! sees a writer as the record `Written` of `specs/Written.antt`, where `IsWritten` and `IsRefused`
//! say what a call leaves; what a number is written as is in `specs/Number.antt`.
#![tactic(auto)]

mod laws;
mod number;
mod writer;

pub use char_file::CharSource;
pub use laws::numbers_are_short;
pub use text_buffers::{Buffer, Look, NoMemory};
pub use writer::Writer;
