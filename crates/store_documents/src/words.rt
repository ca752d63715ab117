//! A word on a screen.

use event_bytes::is_name_byte;
use screen_cells::{Cell, Screen};

/// The column and the row, from the bottom, at which a word begins on a screen, where it stands alone.
pub fn place_of_word(screen: &Screen, word: &[u8]) -> Option<(u8, u8)> {
    let mut y = 0u8;
    for row in screen.rows() {
        if let Some(x) = column_of_word(row, word) {
            return Some((x, y));
        }
        y = y.saturating_add(1);
    }
    None
}

/// The column at which the word begins in a row, where it stands alone.
fn column_of_word(row: &[Cell], word: &[u8]) -> Option<u8> {
    for x in 0..row.len() {
        let (before, rest) = row.split_at(x);
        if begins_word(rest, word) && !before.last().is_some_and(|cell| is_name_byte(cell.ch)) {
            return u8::try_from(x).ok();
        }
    }
    None
}

/// Whether cells begin with the word, and go on with something else.
fn begins_word(cells: &[Cell], word: &[u8]) -> bool {
    match cells.get(..word.len()) {
        Some(front) => {
            front.iter().zip(word).all(|(cell, byte)| cell.ch == *byte)
                && !cells
                    .get(word.len())
                    .is_some_and(|cell| is_name_byte(cell.ch))
        }
        None => false,
    }
}
