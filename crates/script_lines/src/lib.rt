//! The lines of scripts, as they come in, and of their answers, as they go out.
//!
//! A script comes from a reader in pieces of any size, and its lines are taken from it (`line`). Each is read as a
//! request (`request`): by its words and the numbers and keys that they name (`words`), and by the bytes that its texts
//! stand for (`percent`). `answer` makes the bytes of an answer: of a reply, of a file's text, of a listing, of a screen;
//! `sending` writes them. Nothing here knows a store.
#![tactic(auto)]

mod answer;
mod laws;
mod line;
mod percent;
mod request;
mod sending;
mod words;

pub use answer::{
    ShortLine, list_bytes, numbered_line, refusal_bytes, reply_bytes, screen_bytes, short_line,
    text_bytes,
};
pub use byte_streams::OutputFault;
pub use laws::{numbers_are_decimal, one_split};
pub use line::{Line, LineEnd, Script};
pub use request::Request;
pub use sending::send;
