//! Bytes on their way out and in: all of them are taken, or it is known that a front of them was (`sending`); and where
//! the bytes of a script come from, and where its answers go (`reader`, `writer`).
//!
//! Reads and writes of a script that fail are counted, and so are the reads that gave bytes. Contracts alone see these
//! counts: by them a call that says that its reader or its writer failed has to say so truly.
#![tactic(auto)]

mod digits;
mod reader;
mod sending;
mod writer;

pub use digits::hex_digit;
pub use reader::{CountedReader, InputFault, ScriptReader};
pub use sending::{OutputFault, flush, send};
pub use writer::{AnswerWriter, CountedWriter};
