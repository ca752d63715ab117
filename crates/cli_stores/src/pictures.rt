//! The screen of a store as a picture.

use crate::stores::{looked_at, opened_locked};
use crate::trouble::Trouble;
use screen_cells::Screen;
use screen_drawing::draw;

/// Prints the screen of the store in a file as an SVG. The file is locked beside other programs that look.
pub fn picture(rt: &HostRuntime, path: &str) -> Result<(), Trouble> {
    let mut store = opened_locked(rt, looked_at(rt, path)?)?;
    let mut screen = Screen::new();
    store.screen(rt.alloc(), &mut screen)?;
    match draw(&mut rt.stdout(), screen.rows()) {
        Ok(()) => Ok(()),
        Err(_) => Err(Trouble::Output),
    }
}
