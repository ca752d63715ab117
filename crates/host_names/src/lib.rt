//! The name of a host file, the number of a line, or words that are sought, as far as they are typed.
//!
//! A `HostName` takes no memory and knows no terminal. What a press adds to it is in `terminal_presses`.
#![tactic(auto)]

mod host_name;

pub use host_name::{HostName, MOST_SOUGHT, first_words, is_host_byte};
