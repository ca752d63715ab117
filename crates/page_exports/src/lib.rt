//! The desktop for a page of a browser, as functions that a host calls. What is kept between calls is owned by a `Held`, a
//! place that the host lends to each call: it has to be zeros at first, and is filled by `page_start`.
//!
//! What a call makes is kept, and copied out by `page_copy`: the drawing of the desktop, the line below it, and the calls
//! of the disk. A host that repeats these calls on a medium of its own, each after the one before, has on it at each
//! moment what the disk was at a moment of its own (`page_disks::repeating_law`). A status of 1 to 5 says why a call failed:
//! then the host opens the store anew, from its medium. After another one it goes on.
#![tactic(auto)]

pub mod calls;
