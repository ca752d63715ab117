//! What the line below says of a copy.
ghost use Rattle.std.specs.Prelude.{◌≡◌, IfOk};
ghost use Rattle.past_viewer.specs.Copies.{copied_unit, copied_words};

use past_looks::push_grouped;
use std::alloc::{AllocError, Global};
use terminal_clipboards::MOST_CLIPPED;

/// What is said where there is nothing to be copied.
const NOTHING_SELECTED: &[u8] = b"nothing is selected: drag over a text with the right button";

/// What is said of a copy of so many characters.
pub(crate) fn copied_words(alloc: Global, count: usize) -> Result<Vec<u8>, AllocError>
    ensures { IfOk result (λ words. words.items ≡ copied_words count) }
{
    if count == 0 {
        return Vec::from_slice(alloc, NOTHING_SELECTED);
    }
    let mut words = Vec::from_slice(alloc, b"copied ")?;
    push_grouped(&mut words, count as u64)?;
    words.extend_from_slice(unit_of(count))?;
    Ok(words)
}

/// What so many of them are called, and what puts them in.
fn unit_of(count: usize) -> &'static [u8]
    ensures { result.now ≡ copied_unit count }
{
    if count == 1 {
        b" character for Ctrl-V and your terminal's paste"
    } else if count > MOST_CLIPPED {
        b" characters for Ctrl-V, too many for your terminal's paste"
    } else {
        b" characters for Ctrl-V and your terminal's paste"
    }
}
