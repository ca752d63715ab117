//! Documents that come into a desktop together, all of them or none.
#![tactic(auto)]

mod bringing;
mod document;
mod laws;
mod sizes;

pub use bringing::bring;
pub use document::Document;
pub use laws::bringing_keeps_sound;
