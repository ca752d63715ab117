//! The image of a desktop: put out part by part, and made into a desktop again.
#![tactic(auto)]

mod drafts;
mod image_size;
pub mod images;
pub mod imaging;
mod parts;
