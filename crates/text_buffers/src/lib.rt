//! Buffers: characters on their way between texts.
//!
//! What is cut or copied from a text waits in a buffer until it is put in elsewhere, and what is written gathers there.
//! Most clauses speak of the flat list of (offset, look), one item a character. How a buffer is cut into pieces isn't
//! promised, but for the pieces that `push` puts in.
#![tactic(auto)]

mod buffer;

pub use buffer::Buffer;
pub use piece_ring::{Look, NoMemory, Piece};
