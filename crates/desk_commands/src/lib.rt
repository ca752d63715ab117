//! What commands do to a desktop.
#![tactic(auto)]

pub mod calls;
mod closings;
mod collecting;
pub mod documents;
mod log;
mod looks;
mod openings;
mod rewriting;
mod searches;
mod stores;
