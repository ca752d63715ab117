//! Files by name, as a desktop keeps them.
ghost use Rattle.std.specs.Prelude.{◌≡◌, ℕ, List, map, option_map, IsTrue, OnOk, OnErr, IfOk, IsErrOf};
ghost use Rattle.event_bytes.specs.Bytes.{is_name};
ghost use Rattle.desktop_definitions.specs.Tables.{file_named, file_put as with_file};
ghost use Rattle.desktop_definitions.specs.Rewriting.{kept_length};
ghost use Rattle.desktop_definitions.specs.DeskWords.{kept_size};
ghost use Rattle.desktop_definitions.specs.Listing.{file_entry};
ghost use Rattle.desk_core.specs.Words.{seen_table};

use crate::stop::Stop;
use desktop_definitions::Entry;
use event_bytes::Name;
use std::alloc::Global;
use std::collections::BTreeMap;
use text_core::Text;

pub type Files = BTreeMap<Name, Text>;

/// The text of the file of that name.
pub fn file_of<'a>(files: &'a Files, name: &Name) -> Option<&'a Text>
    ensures { option_map (λ text. text.now) result ≡ file_named files.now.entries name.now }
{
    files.get(name)
}

/// How many characters the file of that name has. None where there is no file of that name.
fn size_found(files: &Files, name: &Name) -> Option<usize>
    ensures { result ≡ option_map kept_length (file_named files.now.entries name.now) }
{
    match file_of(files, name) {
        None => None,
        Some(text) => Some(text.len() as usize),
    }
}

/// How many characters the file of that name has, and 0 where there is none.
pub fn size_of(files: &Files, name: &Name) -> usize
    ensures { result ≡ kept_size files.now.entries name.now }
{
    size_found(files, name).unwrap_or(0)
}

/// The file of that name becomes this text. After an error the files are as they were.
pub fn put(files: &mut Files, name: &Name, text: Text) -> Result<(), Stop>
    ensures put { OnOk result (files.new.entries ≡ with_file files.old.entries name.now text) }
    ensures valid { OnOk result (IsTrue (is_name name.now)) }
    ensures refused { OnErr result (files.new.entries ≡ files.old.entries) }
    ensures never_fault { ¬ IsErrOf result Stop.Fault }
{
    files.insert(name.clone()?, text)?;
    Ok(())
}

/// An entry for each file, by rising names.
pub fn entries(alloc: Global, files: &Files) -> Result<Vec<Entry>, Stop>
    ensures entries { IfOk result (λ entries. (characters : List ℕ)
        → entries.items ≡ map file_entry (seen_table characters files.now.entries)) }
    ensures never_fault { ¬ IsErrOf result Stop.Fault }
{
    let mut entries = Vec::new(alloc);
    for (name, text) in files {
        entries.push(Entry::File {
            name: name.clone()?,
            len: text.len(),
        })?;
    }
    Ok(entries)
}
