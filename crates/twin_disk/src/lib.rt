//! One disk over two, its legs: a call is done as long as one leg does it.
//!
//! The sectors of a twin read as those of the first leg in use. What a crash may leave of a leg in use is what it may
//! leave of the twin (`either_survives`), so what is shown of each crash image of the twin holds of each leg's.
#![tactic(auto)]

mod choosing;
mod closing;
mod copying;
mod files;
mod flags;
mod leaving;
mod legs;
mod marks;
mod notes;
mod pairing;
mod twin;
mod twin_laws;

pub use choosing::{Choice, Leg, choose};
pub use closing::closed_together;
pub use copying::{copy_disk, differing, flag_at, hold_same, mirror};
pub use files::{FileLegs, file_legs};
pub use flags::{ALONE, Flag, NAME_BYTES, Name, has_name, put_flag};
pub use leaving::leave_twin;
pub use pairing::paired;
pub use twin::TwinDisk;
pub use twin_laws::{
    calls_compose, calls_follow, dropped_leg_is_old, each_moment_survives, either_survives,
    flags_choose_newest, marks_stay_honest,
};
