//! What led to a moment, in words.
ghost use Rattle.std.specs.Prelude.{◌≡◌, ◌++◌, List, ℕ, codes, flat_map, IfOk, OnOk};
ghost use Rattle.std.specs.List.{join_by};
ghost use Rattle.told_pasts.specs.Words.{import_line};

use desk_journal::Document;
use std::alloc::{AllocError, Global};

/// That documents of these names came.
pub(crate) fn import_words(alloc: Global, documents: &[Document]) -> Result<Vec<u8>, AllocError>
    ensures { IfOk result (λ line. line.items ≡ import_line documents.now) }
{
    let mut line = Vec::from_slice(alloc, b"import of ")?;
    push_names(&mut line, documents)?;
    Ok(line)
}

/// Adds the names of documents, with a comma between two.
fn push_names(line: &mut Vec<u8>, documents: &[Document]) -> Result<(), AllocError>
    ensures { OnOk result (line.new.items ≡ line.old.items
        ++ join_by (λ (document : List ℕ × List ℕ). document.0) (codes ", ") documents.now) }
{
    let Some(first) = documents.first() else {
        return Ok(());
    };
    let (_first, others) = documents.split_at(1);
    line.extend_from_slice(first.name().as_bytes())?;
    push_others(line, others)
}

/// Adds the names of documents behind others.
fn push_others(line: &mut Vec<u8>, documents: &[Document]) -> Result<(), AllocError>
    ensures { OnOk result (line.new.items ≡ line.old.items
        ++ flat_map (λ (document : List ℕ × List ℕ). codes ", " ++ document.0) documents.now) }
{
    for document in documents {
        line.extend_from_slice(b", ")?;
        line.extend_from_slice(document.name().as_bytes())?;
    }
    Ok(())
}
