//! The image of a desktop: its bytes, how they are put, part by part, and how they are read.
//!
//! `specs/Image.antt` says what the bytes are, and of which desktops they are the image (`Spells`). Bytes go into a
//! `ByteSink` and come from a `ByteSource`; neither is ever in memory as a whole.
#![tactic(auto)]

mod empty;
mod fault;
mod forms;
mod holder;
mod laws;
mod lengths;
mod limits;
mod picture;
mod reading;
mod sink;
mod source;
mod writing;

pub use empty::{EMPTY_IMAGE, FLAT_EMPTY_IMAGE, empty_image_of};
pub use fault::ImageFault;
pub use forms::{FIRST_WITH_OVERLAYS, has_overlays};
pub use laws::{
    desktops_fit, empty_image, images_are_read, images_have_room, one_desktop,
    parts_make_one_desktop,
};
pub use lengths::{LOOK_BYTES, cell_len, closed_len, entries_len, pieces_len, viewer_len};
pub use limits::{IMAGE_BYTES, MOST_VIEWERS};
pub use picture::{Levels, PATTERN, Picture, Ranked, Stretch, Stretches, TRACK, ViewerPicture};
pub use reading::read_picture;
pub use sink::ByteSink;
pub use source::ByteSource;
pub use writing::{
    put_byte, put_cell, put_closed, put_counted, put_entry, put_look, put_pieces, put_viewer,
    put_word,
};
