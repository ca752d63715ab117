//! Texts over characters in memory.
ghost use Rattle.std.specs.Prelude.{length, IfOk};
ghost use Rattle.piece_ring.specs.Flat.{flat};
ghost use Rattle.piece_ring.specs.Text.{AreWithin};

use char_file::{CharSource, NoMemory};
use piece_ring::DEFAULT_LOOK;
use std::alloc::Global;
use std::process::Abort;
use text_core::Text;

/// A text of these bytes, in the default look, which are added to the source.
#[tactic(auto, using(crate::proofs::Texts::within_run))]
pub(crate) fn text_of<S: CharSource>(
    rt: &impl Abort,
    alloc: Global,
    source: &mut S,
    bytes: &[u8],
) -> Result<Text, NoMemory>
    ensures { IfOk result (λ text. AreWithin (length (S.characters source.new)) (flat text)) }
{
    assert!(rt; source.len() < 100_000 && bytes.len() < 100_000);
    let first = source.append(bytes)?;
    let count = bytes.len() as u32;
    let text = Text::of_run(alloc, first, count, DEFAULT_LOOK)?;
    Ok(text)
}

/// The character at an offset. None past the last one, and where the source fails.
pub(crate) fn char_at<S: CharSource>(source: &mut S, offset: u32) -> Option<u8> {
    if offset >= source.len() {
        return None;
    }
    source.char_at(offset).ok()
}
