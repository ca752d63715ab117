//! A sitting at a terminal over a store, turn by turn, and what holds of all sittings.
//!
//! `serve` goes on turn by turn (`specs/Serving.antt`): a scene is shown (`specs/Scenes.antt`), something is heard, and
//! what is pressed by it is done (`desk_sitting`), each event acknowledged before the next scene. A whole sitting is `Sits` of
//! `specs/Sitting.antt`. What a crash leaves of it, from any of its places on, is said in `specs/Surviving.antt`, and
//! `sittings_survive` is the theorem: what was shown is never lost. These definitions and the theorem speak of any desk;
//! that of `serve` is `the_desk` of `desk_sitting`.
#![tactic(auto)]

mod ending;
mod laws;
mod serving;
mod serving_laws;
mod telling;

pub use ending::SittingEnd;
pub use laws::{clicks_are_told, later_steps_are_turns, presses_are_steps, questions_post_nothing};
pub use serving::serve;
pub use serving_laws::{sittings_keep_pasts, sittings_survive, sittings_survive_in_files};
