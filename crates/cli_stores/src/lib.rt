//! Stores in files and in memory, as the program `desk` has them: opened and made (`stores`, `making`), and the screen
//! as a picture (`pictures`). What goes wrong is a `Trouble`, which is said in one sentence (`trouble`).
#![tactic(auto)]

mod making;
mod pictures;
mod stores;
mod trouble;

pub use making::{NewFile, give_name, make, new_file};
pub use pictures::picture;
pub use stores::{in_memory, looked_at, opened_locked};
pub use trouble::Trouble;
