//! Whether two desktops show the same, however their texts are cut into pieces and wherever their characters stand.
//!
//! A desktop is its shape, in which each text stands for how many characters it has, and the characters of all its texts
//! one behind the other (`desktops_are_shapes`). Shapes are compared without a source (`have_one_shape`). Characters are
//! read from one source at a time (`all_characters`), so that two desktops may stand over one disk.
#![tactic(auto)]

mod characters;
mod laws;
mod shape;

pub use characters::all_characters;
pub use laws::desktops_are_shapes;
pub use shape::have_one_shape;
