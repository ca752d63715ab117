//! Two files of the host as one disk, as the program `desk` has them: which of two legs is right (`pairing`), the files
//! found, made and paired again (`opening`), both looked at (`checking`), and a sitting that is told of a leg that fails (`watching`). What goes wrong is a `PairTrouble` (`trouble`).
#![tactic(auto)]

mod checking;
mod legs;
mod opening;
mod pairing;
mod trouble;
mod watching;

pub use checking::check_pair;
pub use legs::{LEG_SECTORS, LegDisk, PairDisk};
pub use opening::{OpenedPair, open_pair};
pub use pairing::{Pair, Unpaired, pair_both, pair_from};
pub use trouble::PairTrouble;
pub use watching::{PairWatch, Watch, WatchedKeyboard};
