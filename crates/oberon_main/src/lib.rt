//! Scripts over a store: what they are answered, and what else the program says of a store.
//!
//! A script's lines come in as requests (the crate `script_lines`), the answer to each is worked out over the store
//! (`answering`), and its bytes are written (the crate `script_lines`); `playing` is the whole of that. `report` says
//! what else there is to say of a store.
#![tactic(auto)]

mod answering;
mod laws;
mod playing;
mod report;

pub use byte_streams::{AnswerWriter, CountedReader, CountedWriter, ScriptReader};
pub use desk_journal::{Error, STORE_SECTORS, Store, Version};
pub use laws::{
    lines_are_steps, scripts_are_answered, scripts_are_cut_off, scripts_survive,
    scripts_survive_in_files,
};
pub use playing::{PlayEnd, play, play_bounded};
pub use report::{check, refuse, status};
