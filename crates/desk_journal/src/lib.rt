//! The store: a desktop on a disk of sectors, which survives a crash at any moment.
//!
//! What the sectors mean, `store_layout` says (in words: docs/STORE.md), and `store_slots` reads and writes them. Each
//! event that is posted goes into the journal of the slot in use before it is acknowledged: first its body and a closed
//! gate after it, then, after a sync, its gate is opened, and a sync follows. When the journal is full, or the store is
//! of an older version, the desktop first goes whole into the other slot (`checkpoint`). A crash leaves a gate closed
//! or open and nothing in between, so what the disk means is at each moment the desktop before the event or the one
//! after it. What follows of many calls, one after another, `store_runs` says.
#![tactic(auto)]

mod files;
mod store;
mod undone;

pub use command_table::{NEWEST, Version};
pub use files::{open_in_a_file, post_in_a_file};
pub use store::{GatheredDesktop, Info, NotingDisk, Store};
pub use store_layout::{JOURNAL_EVENTS, STORE_SECTORS, finding_law, footprint_law, showing_law};
pub use store_slots::{
    CaretCommand, DeskInfo, Document, Error, KeyWish, LogRow, Loss, MOST_PRESSES, Place,
    ShownViewer, Step, WhyNot, Wish,
};
pub use undone::{post_and_undo, post_and_undo_some, undo_and_redo};
