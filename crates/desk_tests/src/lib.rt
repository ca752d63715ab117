//! The tests of the libraries below the desktop, one module a topic: characters, rings, texts, events, readers,
//! tracks, cells and writers, and presses, paintings and drawings. Beside them stand tables of what the definitions give,
//! proved by computing: steps of whole desktops that another model works out (`proofs/Steps.antt`), symbols, calls and
//! parameters (`proofs/SymbolRows.antt`), frames, tracks and numbers (`proofs/FrameRows.antt`), and rows of screens
//! (`proofs/ScreenRows.antt`). The code is proved to do what these definitions say, so that a row needs no run of it.
//!
//! They stand in a crate of their own, since a crate with tests is proved twice. What a module tests is what no clause
//! says: texts as they are printed, that a call can succeed, and what happens where a device or an allocation fails in
//! mid-stream. What a disk keeps is tested by `store_tests`.
#![tactic(auto)]

#[cfg(test)]
mod cells;
#[cfg(test)]
mod characters;
#[cfg(test)]
mod drawings;
#[cfg(test)]
mod events;
#[cfg(test)]
mod paging;
#[cfg(test)]
mod paintings;
#[cfg(test)]
mod presses;
#[cfg(test)]
mod readers;
#[cfg(test)]
mod rings;
#[cfg(test)]
mod sources;
#[cfg(test)]
mod texts_and_buffers;
#[cfg(test)]
mod tracks;
#[cfg(test)]
mod writers;
