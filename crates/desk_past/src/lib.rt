//! A past behind a store: the events of all epochs, and the documents of all imports, in pages (`past_pages`).
//!
//! The journal of an epoch becomes a page when the epoch ends: it is written and settled, and then a checkpoint begins
//! the next one, whose head names the sector behind that page. An import or a turn ends its epoch too, by a page of its
//! own. So the gate that opens a slot also says which pages count, and nobody reads a page before the checkpoint is
//! whole.
//! `specs/Past.antt` says what a past is, and what a store keeps of it; `moment` lays any moment of it in memory.
#![tactic(auto)]

mod again;
mod ahead;
mod beginning;
mod bringing;
mod chain;
mod forgetting;
mod going_on;
mod keeping;
mod laws;
mod reading;
mod routes;
mod turning;

pub use beginning::begin;
pub use bringing::bring;
pub use chain::{any_moment, first_start};
pub use forgetting::forget;
pub use going_on::{Outset, go_on};
pub use keeping::{end_epoch, post, undo};
pub use laws::{former_stays_law, one_past_law, present_law, span_stays_law};
pub use reading::{copy_of, moment, post_all, start_of};
pub use turning::{turn, turn_far, turn_to};
