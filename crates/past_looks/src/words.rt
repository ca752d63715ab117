//! What the line below says.
ghost use Rattle.std.specs.Prelude.{◌≡◌, ◌++◌, ◌<◌, length, IfOk, OnOk};
ghost use Rattle.past_looks.specs.Words.{asked_line, digit_group, grouped, moment_line, seeking_line};

use std::alloc::{AllocError, Global};

/// Adds the digit of that number, and before it a comma where one belongs.
fn push_digit(line: &mut Vec<u8>, digits: &[u8], i: usize) -> Result<(), AllocError>
    requires { i < length digits.now }
    ensures { OnOk result (line.new.items ≡ line.old.items ++ digit_group digits.now i) }
{
    if i > 0 && (digits.len() - i) % 3 == 0 {
        line.extend_from_slice(b",")?;
    }
    line.push(digits[i])?;
    Ok(())
}

/// Adds a number, with a comma between three of its digits and three.
pub fn push_grouped(line: &mut Vec<u8>, n: u64) -> Result<(), AllocError>
    ensures { OnOk result (line.new.items ≡ line.old.items ++ grouped n) }
{
    let mut buffer = itoa::Buffer::new();
    let digits = buffer.format(n).as_bytes();
    for i in 0..digits.len() {
        push_digit(line, digits, i)?;
    }
    Ok(())
}

/// Which moment is shown of a past of so many, and words.
pub fn moment_line(alloc: Global, k: u64, last: u64, words: &[u8]) -> Result<Vec<u8>, AllocError>
    ensures { IfOk result (λ line. line.items ≡ moment_line k last words.now) }
{
    let mut line = Vec::from_slice(alloc, b"moment ")?;
    push_grouped(&mut line, k)?;
    line.extend_from_slice(b" of ")?;
    push_grouped(&mut line, last)?;
    line.extend_from_slice(b": ")?;
    line.extend_from_slice(words)?;
    Ok(line)
}

/// The word that is asked for, as far as it is typed.
pub(crate) fn asked_line(alloc: Global, word: &[u8]) -> Result<Vec<u8>, AllocError>
    ensures { IfOk result (λ line. line.items ≡ asked_line word.now) }
{
    let mut line = Vec::from_slice(alloc, b"Which word was it that went from the screen: ")?;
    line.extend_from_slice(word)?;
    Ok(line)
}

/// That a word is sought, and up to which moment.
pub(crate) fn seeking_line(alloc: Global, k: u64) -> Result<Vec<u8>, AllocError>
    ensures { IfOk result (λ line. line.items ≡ seeking_line k) }
{
    let mut line = Vec::from_slice(alloc, b"seeking before moment ")?;
    push_grouped(&mut line, k)?;
    line.extend_from_slice(b", a key stops it")?;
    Ok(line)
}
