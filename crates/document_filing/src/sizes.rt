//! How long files are, and whether there is room for them.
ghost use Rattle.std.specs.Prelude.{◌≡◌, ◌+◌, ◌<◌, ◌≤◌, ℕ, List, length, false, sum_by, IsTrue, OnOk, IfOk, IsErrOf};
ghost use Rattle.std.specs.Map.{values_of};
ghost use Rattle.std.specs.BTreeMap.{insert_entry};
ghost use Rattle.std.specs.List.Sorted.{IsStrictlySortedBy};
ghost use Rattle.desktop_definitions.specs.Tables.{name_cmp};
ghost use Rattle.desk_core.specs.Words.{seen, seen_table, keys_of, kept_desktop, IsKeptWhole, most_written};
ghost use Rattle.desktop_definitions.specs.Step.{fits};
ghost use Rattle.document_filing.specs.Bringing.{all_filed, file_sizes, many_bytes};

use crate::document::Document;
use desk_core::desk::Desk;
use desk_core::files::Files;
use desk_core::held::lengths;
use desk_core::stop::Stop;
use desktop_definitions::{MOST_HELD, MOST_WRITTEN};
use event_bytes::Name;
use std::alloc::Global;
use std::collections::BTreeMap;

/// How long each file is.
pub type Sizes = BTreeMap<Name, usize>;

/// The file of that name is so long.
fn put_size(sizes: &mut Sizes, name: &Name, len: usize) -> Result<(), Stop>
    ensures put { OnOk result
        (sizes.new.entries ≡ insert_entry name_cmp sizes.old.entries name.now len) }
    ensures never_fault { ¬ IsErrOf result Stop.Fault }
{
    sizes.insert(name.clone()?, len)?;
    Ok(())
}

/// How long each file is.
fn sizes_of(alloc: Global, files: &Files) -> Result<Sizes, Stop>
    requires { IsStrictlySortedBy name_cmp (keys_of files.now.entries) }
    ensures sizes { IfOk result (λ sizes. (characters : List ℕ)
        → sizes.entries ≡ file_sizes (seen_table characters files.now.entries)) }
    ensures never_fault { ¬ IsErrOf result Stop.Fault }
{
    let mut sizes = BTreeMap::new(alloc);
    for (name, text) in files {
        put_size(&mut sizes, name, text.len() as usize)?;
    }
    Ok(sizes)
}

/// How long each file is once the documents are filed.
pub fn sizes_after(desk: &Desk, documents: &[Document]) -> Result<Sizes, Stop>
    requires { IsKeptWhole (kept_desktop desk.now) }
    ensures sizes { IfOk result (λ sizes. (characters : List ℕ)
        → sizes.entries
        ≡ file_sizes (all_filed (seen characters (kept_desktop desk.now)) documents.now).files) }
    ensures never_fault { ¬ IsErrOf result Stop.Fault }
{
    let mut sizes = sizes_of(desk.alloc, &desk.files)?;
    for document in documents {
        put_size(&mut sizes, document.name(), document.as_bytes().len())?;
    }
    Ok(sizes)
}

/// Whether documents have no more bytes than that.
fn documents_fit(documents: &[Document], room: usize) -> bool
    ensures within { IsTrue result → many_bytes documents.now ≤ room }
    ensures more { result ≡ false → room < many_bytes documents.now }
{
    let mut left = room;
    for document in documents {
        let len = document.as_bytes().len();
        if len > left {
            return false;
        }
        left -= len;
    }
    true
}

/// Whether files have no more characters than that.
fn sizes_fit(sizes: &Sizes, room: usize) -> bool
    ensures within { IsTrue result → sum_by (λ n. n) (values_of sizes.now.entries) ≤ room }
    ensures more { result ≡ false → room < sum_by (λ n. n) (values_of sizes.now.entries) }
{
    let mut left = room;
    for size in sizes.values() {
        if *size > left {
            return false;
        }
        left -= *size;
    }
    true
}

/// Whether the limits on characters hold once the documents are filed, and the files are so long.
pub fn all_fit(desk: &Desk, documents: &[Document], sizes: &Sizes) -> bool
    requires whole { IsKeptWhole (kept_desktop desk.now) }
    requires sizes { (characters : List ℕ)
        → sizes.now.entries
        ≡ file_sizes (all_filed (seen characters (kept_desktop desk.now)) documents.now).files }
    ensures fits { (characters : List ℕ)
        → result ≡ fits (all_filed (seen characters (kept_desktop desk.now)) documents.now) }
    ensures room { IsTrue result → desk.now.written + many_bytes documents.now ≤ most_written }
{
    let others = desk.held() - lengths(&desk.files);
    if !documents_fit(documents, MOST_WRITTEN as usize - desk.written as usize) {
        return false;
    }
    sizes_fit(sizes, MOST_HELD as usize - others)
}
