//! The desktop for a page of a browser, over any disk: a store, a sitting before it, and what was heard.
//!
//! A page has no definition of its own of what a press is: what it hears are a terminal's bytes, and what they come to is
//! said over the sitting and the session of `desk_sitting`. It shows the desktop as a drawing (`screen_drawing`), it
//! brings and gives documents, and `close` hands out the disk.
//!
//! The disk of a page that a host keeps (`Kept`) stands in memory, and spells its calls for a host that repeats them on a
//! medium of its own (`page_disks`).
#![tactic(auto)]

mod apart;
mod documents;
mod forgetting;
mod heard;
mod held;
mod kept;
mod laws;
mod looks;
mod page;
mod scene;
mod status;

pub use documents::{bring, give, selected};
pub use heard::{hear, hearing};
pub use held::{Held, put, take};
pub use kept::{Kept, Made};
pub use laws::looking_law;
pub use looks::{Desk, Looking};
pub use page::{Page, begin, begin_new, close, show};
pub use scene::{HostPage, Scene};
pub use status::{DONE, NO_MEMORY};
