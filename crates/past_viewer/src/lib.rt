//! The past of a store on the screen of a terminal: the desktop as it was at any moment, and turning back to one.
//!
//! A sitting ends where Ctrl-P is pressed (`keys`), and `view` has the terminal until the person goes back to it. It shows
//! moment by moment (`viewer`, `specs/Viewing.antt`), and only reads the store, unless the person turns it back. What each key
//! means, and what the line below says, is in `past_looks`. What is shown goes through `pane`. What is selected there is copied
//! for the present (`copies`, `words`), in which it is typed where it is asked for (`held`). `absent` says that there is no past.
#![tactic(auto)]

mod absent;
mod copies;
mod held;
mod keys;
mod pane;
mod viewer;
mod words;

pub use held::{HeldKeys, PastText, held_texts_are_typed};
pub use keys::PastKeys;
pub use pane::Window;
pub use viewer::{ViewEnd, Viewed, view};
