//! Runs of calls of a store, and their laws.
//!
//! A run is posts, checkpoints, undos and bringings, one after another, each with what it returned. Wherever a crash cuts
//! it off, each image that it may leave means the desktop from before the deed that is cut off, or the one to which this
//! leads (`runs_survive`). Of posts and checkpoints it means the desktop after some of the accepted events, the first of
//! them and none left out, and among them is every event that was acknowledged until then (`runs_keep_acknowledged`). A
//! store that is closed and opened again shows what it showed before (`reopening_law`).
#![tactic(auto)]

mod call;
mod laws;
mod run;

pub use call::{StoreAnswer, StoreCall};
pub use laws::{reopening_law, runs_compose, runs_keep_acknowledged, runs_survive};
pub use run::{bring_in, serve, serve_all, serve_and_reopen, take_back};
