//! A viewer as it is handed in to be painted.

use text_frames::{Frame, Text};
use viewer_tracks::ViewerId;

/// A viewer with what it shows.
#[derive(Clone, Copy)]
pub struct Shown<'a> {
    /// The number by which the tracks know it.
    pub id: ViewerId,
    /// The text whose first line is in its top row, and its number.
    pub menu: &'a Text,
    pub menu_text: u16,
    /// The text in the rows below.
    pub main: &'a Text,
    /// The part of the main text that is shown, its caret and its selection.
    pub frame: Frame,
}
