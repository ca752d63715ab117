//! Where words are in a text, from a place of it on.
//!
//! The words are sought behind the caret, or before it, and round the end of the text once (`sought`). That it is the
//! nearest place each way says `laws`. Nothing here knows a store.
#![tactic(auto)]

mod laws;
mod places;
mod seeking;

pub use laws::nearest_places_are_found;
pub use seeking::{Found, SearchStart, bytes_of, search_from, sought};
