//! What is copied of a moment, for the present.
ghost use Rattle.std.specs.Prelude.{◌≡◌, length, IfOk};
ghost use Rattle.past_viewer.specs.Copies.{copied_words, exported_selection};
ghost use Rattle.terminal_clipboards.specs.Clips.{clip_of};

use crate::words::copied_words;
use desk_journal::{Error, Store};
use past_moments::of_memory;
use sector_disk::MemoryDisk;
use std::alloc::Global;
use store_documents::host_text;
use terminal_clipboards::clip_of;

/// What is copied, as a text, in words, and as the bytes that give it to the clipboard of a terminal, if there are any.
#[derive(Drop)]
pub(crate) struct Copied {
    pub text: Vec<u8>,
    pub words: Vec<u8>,
    pub clip: Vec<u8>,
}

/// What is copied of a desktop in memory: what is selected there, whole, be it on the display or not.
///
/// Errors: those of `Store::selected`, whose faults are want of memory.
pub(crate) fn copied_of(alloc: Global, shown: &mut Store<MemoryDisk>) -> Result<Copied, Error>
    ensures text { IfOk result (λ copied. copied.text.items
        ≡ exported_selection shown.old.desktop) }
    ensures words { IfOk result (λ copied. copied.words.items
        ≡ copied_words (length (exported_selection shown.old.desktop))) }
    ensures clip { IfOk result (λ copied. copied.clip.items
        ≡ clip_of (exported_selection shown.old.desktop)) }
    ensures same { shown.new.desktop ≡ shown.old.desktop }
{
    let text = selected_text(alloc, shown)?;
    let words = copied_words(alloc, text.len())?;
    let clip = clip_of(alloc, text.as_slice())?;
    Ok(Copied { text, words, clip })
}

/// What is selected, as a text of the host's. Empty where nothing is.
///
/// Errors: those of `copied_of`.
fn selected_text(alloc: Global, shown: &mut Store<MemoryDisk>) -> Result<Vec<u8>, Error>
    ensures text { IfOk result (λ text. text.items ≡ exported_selection shown.old.desktop) }
    ensures same { shown.new.desktop ≡ shown.old.desktop }
{
    match of_memory(shown.selected(alloc))? {
        None => Ok(Vec::new(alloc)),
        Some(characters) => Ok(host_text(alloc, characters.as_slice())?),
    }
}
