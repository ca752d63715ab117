//! The desktop, and what events do to it.
//!
//! A desktop is a fold over events. `Desktop::step` does one event to it and returns the reply. What a desktop is, and
//! what an event does to it, the definitions of `desktop_definitions` say: rules over bytes alone.
//!
//! A desktop keeps texts, and a text keeps offsets: the characters stand in a source, which each call that makes or
//! reads them is handed. The calls promise what the definitions say of the desktop as it is seen among its characters.
#![tactic(auto)]

mod copies;
mod desktop;
mod events;
mod gestures;
mod losses;
mod regions;
mod stale;

pub use caret_moves::{CaretCommand, KeyWish, Step, WhyNot};
pub use command_table::{NEWEST, Version};
pub use desk_core::stop::{NoMemory, Stop};
pub use desk_input::{MOST_PRESSES, Wish};
pub use desk_views::{DeskInfo, LogRow, Loss, ShownViewer};
pub use desktop::Desktop;
pub use desktop_definitions::{Entry, Reply, codes};
pub use document_filing::Document;
pub use image_format::{ByteSink, ByteSource, ImageFault};
pub use viewer_tracks::Place;
