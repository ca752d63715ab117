//! Stores on two disks: what a crash leaves of either one, and of both.
//!
//! A store on a twin promises what one on any disk does. Here it is said of the legs: a post (`posts`), an opening
//! (`openings`), and whatever leaves a prefix of events, as scripts do (`twin_laws`). It is said of each moment that a leg
//! has between two states of the twin, the second of which came of the first by calls of the twin (`GoesOn`).
#![tactic(auto)]

mod openings;
mod posts;
mod twin_laws;

pub use openings::open_on_twins;
pub use posts::post_on_twins;
pub use twin_laws::{scripts_survive_on_twins, twins_keep};
