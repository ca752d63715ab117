//! A document on its way out.
ghost use Rattle.std.specs.Prelude.{◌≡◌, ◌↔◌, ◌⊎◌, true, Some, IfOk, IfErr, IsErrOf};
ghost use Rattle.byte_streams.specs.Counting.{RisesWhere};
ghost use Rattle.desktop_definitions.specs.Desktop.{file_of};
ghost use Rattle.sector_disk.specs.Faults.{FailsAs};
ghost use Rattle.store_documents.specs.HostText.{exported, printable};
ghost use Rattle.store_documents.specs.Exporting.{IsExported, IsExportCutOff, IsHandedOn, OfExport, text_in_form};
ghost use Rattle.store_documents.specs.Exporting.{with_lines};
ghost use Rattle.store_documents.specs.Standings.{bytes_of};
ghost use Rattle.store_documents.specs.Standings.{HasOnlyLooked};

use crate::sorting::text_of;
use crate::{host_bytes, html, joined, printable_bytes};
use byte_streams::AnswerWriter;
use desk_journal::{Error, Store};
use event_bytes::Name;
use piece_ring::Look;
use script_lines::send;
use sector_disk::Disk;
use std::alloc::{AllocError, Global};

/// Who reads what comes out.
#[derive(Clone, Copy, Debug, PartialEq, Eq)]
pub enum Reader {
    /// A file or a program: it gets the bytes as they are.
    Program,
    /// A terminal: it gets a question mark in the place of each byte that it might take for an order.
    Terminal,
    /// A browser: it gets HTML, in which each character has its look.
    Browser,
}

/// How a document comes out.
#[derive(Clone, Copy, Debug, PartialEq, Eq)]
pub struct Form {
    /// Who reads it.
    pub reader: Reader,
    /// Whether each line that ends with a blank is joined to the next, but for a browser.
    pub is_joined: bool,
}

/// Why a document did not come out whole.
#[derive(Clone, Copy, Debug, PartialEq, Eq)]
pub enum ExportFault {
    /// The store refused, and nothing was written.
    Store(Error),
    /// The output failed. A front of the document may have been written.
    Output,
}

impl From<Error> for ExportFault {
    ghost use Rattle.std.specs.Prelude.{◌≡◌};
    ghost use Rattle.store_documents.specs.declared.exporting.ExportFault.TheVariants.{Store as OfStore};

    ghost from_gives = { λ error fault. fault ≡ OfStore error };

    /// The store's refusal.
    fn from(error: Error) -> ExportFault {
        ExportFault::Store(error)
    }
}

/// Writes the document of that name whole, with LF at the end of each line, has the writer hand it on, and says whether
/// there is one. Where there is none nothing is written.
///
/// Errors: those of `Store::file`; `Output` where a call of the writer failed, and nowhere else.
pub fn export<D: Disk, W: AnswerWriter>(
    alloc: Global,
    store: &mut Store<D>,
    name: &Name,
    form: Form,
    output: &mut W,
) -> Result<bool, ExportFault>
    ensures done { IfOk result (λ found. D.honest store.old.disk
        → IsExported form (file_of store.old.desktop name.now) found (W.contents output.old)
        (W.contents output.new)) }
    ensures stopped { IfErr result (λ fault. D.honest store.old.disk
        → IsExportCutOff form (file_of store.old.desktop name.now) fault (W.contents output.old)
        (W.contents output.new)) }
    ensures looked { HasOnlyLooked D.Disk store.old store.new }
    ensures handed { IfOk result (λ found. IsHandedOn found (W.unflushed output.old)
        (W.unflushed output.new)) }
    ensures reopen { IsErrOf result (ExportFault.Store Error.MustReopen)
        ↔ (store.old.must_reopen ≡ true) }
    ensures faults { FailsAs (ExportFault.Store Error.Fault) OfExport result
        (D.failures store.old.disk) (D.failures store.new.disk) }
    ensures cause { RisesWhere (IsErrOf result ExportFault.Output) (W.failures output.old)
        (W.failures output.new) }
{
    match store.file(alloc, name)? {
        None => Ok(false),
        Some(characters) => write_text(alloc, characters.as_slice(), form, output),
    }
}

/// Writes characters in a form, and has the writer hand them on.
fn write_text<W: AnswerWriter>(
    alloc: Global,
    characters: &[(u8, Look)],
    form: Form,
    output: &mut W,
) -> Result<bool, ExportFault>
    ensures done { IfOk result (λ found. IsExported form (Some characters.now) found
        (W.contents output.old) (W.contents output.new)) }
    ensures stopped { IfErr result (λ fault. IsExportCutOff form (Some characters.now) fault
        (W.contents output.old) (W.contents output.new)) }
    ensures handed { IfOk result (λ found. IsHandedOn found (W.unflushed output.old)
        (W.unflushed output.new)) }
    ensures errors { IfErr result (λ fault. (fault ≡ ExportFault.Store Error.NoMemory)
        ⊎ (fault ≡ ExportFault.Output)) }
    ensures cause { RisesWhere (IsErrOf result ExportFault.Output) (W.failures output.old)
        (W.failures output.new) }
{
    let Ok(text) = text_for(alloc, characters, form) else {
        return Err(ExportFault::Store(Error::NoMemory));
    };
    match send(output, text.as_slice()) {
        Ok(()) => Ok(true),
        Err(_) => Err(ExportFault::Output),
    }
}

/// The bytes of characters as they come out.
fn text_for(alloc: Global, characters: &[(u8, Look)], form: Form) -> Result<Vec<u8>, AllocError>
    ensures { IfOk result (λ text. text.items ≡ text_in_form form characters.now) }
{
    match form.reader {
        Reader::Program => program_text(alloc, characters, form.is_joined),
        Reader::Terminal => terminal_text(alloc, characters, form.is_joined),
        Reader::Browser => html(alloc, characters),
    }
}

/// The bytes of characters for a file or a program.
fn program_text(
    alloc: Global,
    characters: &[(u8, Look)],
    is_joined: bool,
) -> Result<Vec<u8>, AllocError>
    ensures { IfOk result (λ text. text.items
        ≡ exported (with_lines is_joined (bytes_of characters.now))) }
{
    let text = lines_of(alloc, characters, is_joined)?;
    host_bytes(alloc, &text)
}

/// The bytes of characters for a terminal.
fn terminal_text(
    alloc: Global,
    characters: &[(u8, Look)],
    is_joined: bool,
) -> Result<Vec<u8>, AllocError>
    ensures { IfOk result (λ text. text.items
        ≡ printable (with_lines is_joined (bytes_of characters.now))) }
{
    let text = lines_of(alloc, characters, is_joined)?;
    printable_bytes(alloc, &text)
}

/// Characters without their looks, and with their lines joined if they are to be.
fn lines_of(
    alloc: Global,
    characters: &[(u8, Look)],
    is_joined: bool,
) -> Result<Vec<u8>, AllocError>
    ensures { IfOk result (λ text. text.items ≡ with_lines is_joined (bytes_of characters.now)) }
{
    let text = text_of(alloc, characters)?;
    if is_joined {
        joined(alloc, &text)
    } else {
        Ok(text)
    }
}
