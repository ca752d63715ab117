//! Documents come into a desktop.
ghost use Rattle.std.specs.Prelude.{◌≡◌, ◌+◌, ◌≤◌, length, IfOk, OnOk};
ghost use Rattle.desk_core.specs.Words.{IsOver, kept_desktop, most_written, Uses, DoesBringing};
ghost use Rattle.desktop_definitions.specs.Unread.{characters_after};
ghost use Rattle.document_filing.specs.Bringing.{all_brought, all_bytes, many_bytes};
ghost use Rattle.document_filing.specs.Gathered.{IsFiledAs, IsGathered};

use crate::document::Document;
use crate::sizes::{all_fit, sizes_after};
use char_file::CharSource;
use desk_core::desk::Desk;
use desk_core::files::put;
use desk_core::stop::{StepResult, Stop};
use desktop_definitions::{MOST_FILES, Reply, codes};
use piece_ring::DEFAULT_LOOK;
use text_core::Text;

/// Each document becomes the file of its name, one after another; none does where there would be more files at the end
/// than there may be, or where the desktop would pass the limits on characters. No character is read.
pub fn bring<S: CharSource>(desk: &mut Desk, documents: &[Document], source: &mut S) -> StepResult
    requires { IsOver (S.characters source.old) (kept_desktop desk.old) }
    ensures does { DoesBringing S.CharSource (all_bytes documents.now)
        (λ _ d. all_brought d documents.now) result
        source.old source.new (kept_desktop desk.old) (kept_desktop desk.new) }
    ensures added { IfOk result (λ reply. S.characters source.new
        ≡ characters_after (S.characters source.old) (all_bytes documents.now) reply) }
{
    let sizes = sizes_after(desk, documents)?;
    if sizes.len() > MOST_FILES as usize {
        return Ok(Reply::No(codes::TOO_MANY_FILES));
    }
    if !all_fit(desk, documents, &sizes) {
        return Ok(Reply::No(codes::FULL));
    }
    file_all(desk, documents, source)?;
    Ok(Reply::Done)
}

/// Each document becomes the file of its name.
fn file_all<S: CharSource>(
    desk: &mut Desk,
    documents: &[Document],
    source: &mut S,
) -> Result<(), Stop>
    requires over { IsOver (S.characters source.old) (kept_desktop desk.old) }
    requires room { desk.old.written + many_bytes documents.now ≤ most_written }
    ensures gathered { OnOk result (IsGathered (S.characters source.old) (S.characters source.new)
        (kept_desktop desk.old) (kept_desktop desk.new) documents.now) }
    ensures uses { Uses S.CharSource result source.old source.new }
{
    for document in documents {
        file_one(desk, document, source)?;
    }
    Ok(())
}

/// A document becomes the file of its name, whatever the limits.
fn file_one<S: CharSource>(desk: &mut Desk, document: &Document, source: &mut S) -> Result<(), Stop>
    requires counted { length (S.characters source.old) ≡ desk.old.written }
    requires room { desk.old.written + length document.now.1 ≤ most_written }
    ensures filed { OnOk result
        (IsFiledAs document.now (S.characters source.old) (S.characters source.new)
        (kept_desktop desk.old) (kept_desktop desk.new)) }
    ensures uses { Uses S.CharSource result source.old source.new }
{
    let bytes = document.as_bytes();
    let text = Text::of_run(desk.alloc, desk.written, bytes.len() as u32, DEFAULT_LOOK)?;
    source.append(bytes)?;
    put(&mut desk.files, document.name(), text)?;
    desk.written += bytes.len() as u32;
    Ok(())
}
