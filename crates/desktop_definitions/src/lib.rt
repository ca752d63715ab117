//! What a desktop is and what events do to it, in definitions, with the types that they speak of.
//!
//! A desktop is a fold over events. `specs/Desktop.antt` says what it has, and `specs/Step.antt` what one event does to
//! it: rules over bytes alone. A desktop that is kept has texts of pieces, which name characters of a source;
//! `specs/Seen.antt` says how it is seen among them, `specs/Sound.antt` what holds of it at all times, and
//! `specs/Outcome.antt` what a call promises that does an event. Their laws stand in
//! `proofs`; the code is in the crates above, with `event_loop` on top.
#![tactic(auto)]

mod call;
pub mod codes;
mod entry;
mod laws;
mod limits;
mod look_change;
mod region;
mod reply;
mod step_laws;
mod viewer;

pub use call::{Call, NameCommand, NumberCommand, ViewerCommand};
pub use entry::{Entry, MenuName};
pub use laws::constants_are_defined;
pub use limits::{
    COLOURS, FONTS, GREATEST_OFFSET, LEAST_OFFSET, MOST_FILES, MOST_HELD, MOST_PATTERN,
    MOST_WRITTEN,
};
pub use look_change::LookChange;
pub use region::Region;
pub use reply::Reply;
pub use step_laws::{
    empty_is_sound, more_characters_change_no_view, steps_keep_sound, steps_of_more,
};
pub use viewer::{Caret, ClosedViewer, Selection, Viewer};
