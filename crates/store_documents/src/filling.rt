//! Lines broken at blanks, and joined again.
ghost use Rattle.std.specs.Prelude.{◌≡◌, ◌+◌, ◌*◌, ◌<◌, ◌≤◌, Ok, Err, IfOk, IfErr, IsTrue, length};
ghost use Rattle.std.specs.List.{list_all};
ghost use Rattle.event_bytes.specs.Bytes.{is_text_byte};
ghost use Rattle.text_frames.specs.Cells.{column_after as next_column};
ghost use Rattle.store_documents.specs.Filling.{filled_text, document_laid_out, joined_text, kept_byte, unit_end as end_of_unit};
ghost use Rattle.store_documents.specs.Filling.{is_broken_behind, has_wide_unit as is_unit_wide, column_behind as next_behind};
ghost use Rattle.store_documents.specs.declared.file_bytes.TheConstants.{MOST_BYTES};

use crate::file_bytes::{Unfit, document};
use event_bytes::{CARRIAGE_RETURN, TABULATOR};
use std::alloc::{AllocError, Global};

/// The byte of a blank.
const SPACE: u8 = 32;

/// The text of a document with a CR behind each blank at which its line would pass so many columns: no line does that
/// has a blank to be broken at. A tabulator ends at the next multiple of 4 columns. It fails for want of memory alone.
pub fn filled(alloc: Global, text: &[u8], width: usize) -> Result<Vec<u8>, AllocError>
    requires { length text.now ≤ MOST_BYTES }
    ensures { IfOk result (λ new. new.items ≡ filled_text width text.now) }
{
    let mut new = Vec::with_capacity(alloc, text.len())?;
    let mut column = 0;
    for index in 0..text.len() {
        let byte = text[index];
        new.push(byte)?;
        if is_broken(width, column, byte, &text[index + 1..]) {
            new.push(CARRIAGE_RETURN)?;
            column = 0;
        } else {
            column = column_behind(column, byte);
        }
    }
    Ok(new)
}

/// The document of a file as `document` has it, with its lines broken by `filled` if a width is given. What is too long
/// is so before its lines are broken.
pub fn document_within(alloc: Global, file: &[u8], width: Option<usize>) -> Result<Vec<u8>, Unfit>
    ensures text { IfOk result (λ text. document_laid_out width file.now ≡ Ok text.items) }
    ensures plain { IfOk result (λ text. IsTrue (list_all is_text_byte text.items)) }
    ensures why { IfErr result (λ unfit. ¬ (unfit ≡ Unfit.NoMemory)
        → document_laid_out width file.now ≡ Err unfit) }
{
    let text = document(alloc, file)?;
    match width {
        None => Ok(text),
        Some(width) => Ok(filled(alloc, &text, width)?),
    }
}

/// The text of a document without the CRs that stand right behind a blank. It fails for want of memory alone.
pub fn joined(alloc: Global, text: &[u8]) -> Result<Vec<u8>, AllocError>
    ensures { IfOk result (λ new. new.items ≡ joined_text text.now) }
{
    let mut new = Vec::with_capacity(alloc, text.len())?;
    let mut before = 0;
    for byte in text {
        if let Some(byte) = kept(before, *byte) {
            new.push(byte)?;
        }
        before = *byte;
    }
    Ok(new)
}

/// What a byte is behind another one, where lines are joined.
fn kept(before: u8, byte: u8) -> Option<u8>
    ensures { result ≡ kept_byte before byte }
{
    if byte == CARRIAGE_RETURN && before == SPACE {
        None
    } else {
        Some(byte)
    }
}

/// Whether a line is broken behind a byte that begins in a column, with this behind it.
fn is_broken(width: usize, column: usize, byte: u8, behind: &[u8]) -> bool
    requires { column + 4 * length behind.now + 4 ≤ 4 * MOST_BYTES + 4 }
    ensures { result ≡ is_broken_behind width column byte behind.now }
{
    byte == SPACE && has_wide_unit(width, column + 1, behind)
}

/// Whether something stays together from a column on, and passes the width.
fn has_wide_unit(width: usize, column: usize, behind: &[u8]) -> bool
    requires { column + 4 * length behind.now ≤ 4 * MOST_BYTES + 4 }
    ensures { result ≡ is_unit_wide width column behind.now }
{
    let end = unit_end(column, behind);
    width < end && column < end
}

/// The column behind what stays together from a column on.
fn unit_end(column: usize, text: &[u8]) -> usize
    requires { column + 4 * length text.now ≤ 4 * MOST_BYTES + 4 }
    ensures { result ≡ end_of_unit column text.now }
{
    let mut end = column;
    for byte in text {
        if *byte == CARRIAGE_RETURN {
            return end;
        }
        if *byte == SPACE {
            return end + 1;
        }
        end = column_after(end, *byte);
    }
    end
}

/// The column behind a byte that begins in a column.
fn column_behind(column: usize, byte: u8) -> usize
    requires { column ≤ 4 * MOST_BYTES }
    ensures next { result ≡ next_behind column byte }
    ensures near { result ≤ column + 4 }
{
    if byte == CARRIAGE_RETURN {
        0
    } else {
        column_after(column, byte)
    }
}

/// The same for a byte that ends no line.
fn column_after(column: usize, byte: u8) -> usize
    requires { column ≤ 4 * MOST_BYTES }
    ensures next { result ≡ next_column column byte }
    ensures near { result ≤ column + 4 }
{
    if byte == TABULATOR {
        (column / 4 + 1) * 4
    } else {
        column + 1
    }
}
