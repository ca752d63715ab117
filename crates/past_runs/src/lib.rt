//! Runs of calls on a store with a past, in which nothing is forgotten.
//!
//! A run is posts, in the part in use or over to the next one, imports, turns, undos, looks, ends of epochs and beginnings
//! of pasts, each of which was done. Wherever a crash cuts it off, what it leaves is the past to which all calls before that
//! moment led, or the one to which the call at hand leads (`past_runs_keep_all`). The premises are an honest disk, a store
//! that keeps a past, and what each call's promise asks for: room, or that there is such a moment. A past that begins goes
//! on from the desktop and the count of the former one. That one stays behind it (`former_stays`).
#![tactic(auto)]

mod laws;

pub use laws::{former_stays, moments_stay, past_runs_compose, past_runs_keep_all};
