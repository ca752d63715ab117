//! Numbers as they are written.
ghost use Rattle.std.specs.Prelude.{◌≡◌, IfOk};
ghost use Rattle.writer_core.specs.Number.{number_text};

use crate::NoMemory;
use std::alloc::Global;

/// The decimal digits of a number, with a `-` before a negative one, and blanks before them so that they fill the
/// width. Wider numbers are whole. `NoMemory`: an allocation was refused.
pub(crate) fn aligned(alloc: Global, value: i64, width: u8) -> Result<Vec<u8>, NoMemory>
    ensures { IfOk result (λ text. text.items ≡ number_text width value) }
{
    let mut digits = itoa::Buffer::new();
    let digits = digits.format(value).as_bytes();
    let blanks = (width as usize).saturating_sub(digits.len());
    let mut text = vec![in alloc; b' '; blanks]?;
    text.extend_from_slice(digits)?;
    Ok(text)
}
