//! The moments of a store's past, worked out in memory: the desktop as it was, and in words what led to it.
//!
//! A past is an extent of pages and the journal in use (`extent`). A moment is worked out from the nearest one before it
//! that is kept in memory (`marks`), or from the last page with a desktop that comes behind that one. From there the deeds of
//! the pages between them are done once more (`legs`); `moments` has both. What is said of one is defined in
//! `specs/Moments.antt`. What led to it is told in words (`words`). Where a step of a hand ends is in `steps`, and from which
//! moment on a word stood no more on the screen in `seeking`. The store is only read.
#![tactic(auto)]

mod extent;
mod legs;
mod marks;
mod moments;
mod seeking;
mod steps;
mod words;

pub use extent::{Extent, Place};
pub use legs::of_memory;
pub use marks::{Mark, Marks};
pub use moments::{Look, Moments};
pub use seeking::Sought;
