//! What a store does to the sectors of its disk.
//!
//! `store_layout` says what the sectors mean (in words: docs/STORE.md). Here they are read and written: a new store is
//! laid out, the slot in use is found and read, an event goes into its journal (first its body and a closed gate after
//! it, then, after a sync, its gate is opened, and a sync follows), and the desktop goes whole into the other slot.
//! What a store has in memory beside its disk is a `LiveDesktop`; the characters that fill sectors of the disk's area
//! stay there. The store itself is in `desk_journal`.
#![tactic(auto)]

mod bodies;
mod characters;
mod checkpoint;
mod comparing;
mod error;
mod format;
mod former;
mod leaving;
mod live;
mod loaded;
mod over;
mod place;
mod reading;
mod records;
mod sector;
mod slots;

pub use bodies::{read_journal, read_past};
pub use checkpoint::renew;
pub use error::Error;
pub use event_loop::{
    CaretCommand, DeskInfo, Document, KeyWish, LogRow, Loss, MOST_PRESSES, Place, ShownViewer,
    Step, WhyNot, Wish,
};
pub use format::lay_out;
pub use former::{Earlier, load_earlier, read_history};
pub use leaving::undo_to;
pub use live::LiveDesktop;
pub use loaded::{Loaded, load, load_front};
pub use place::SlotPlace;
pub use records::record;
