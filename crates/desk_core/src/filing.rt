//! A text becomes the file of a name, which is looked up once.
ghost use Rattle.std.specs.Prelude.{◌≡◌, ◌<◌, ◌^◌, ◌+◌, ℕ, List, length, nat_lt, IsTrue, IfOk, OnOk, IsErrOf};
ghost use Rattle.event_bytes.specs.Bytes.{is_name};
ghost use Rattle.desktop_definitions.specs.declared.reply.Reply.TheVariants.{Done, No};
ghost use Rattle.desktop_definitions.specs.Limits.{most_files};
ghost use Rattle.desktop_definitions.specs.Tables.{file_named, file_put};
ghost use Rattle.desktop_definitions.specs.DeskWords.{kept_size};
ghost use Rattle.desk_core.specs.Words.{Text as AText, lengths, seen_table, IsKeptWhole, kept_desktop};
ghost use Rattle.desk_core.specs.Filing.{IsFiled, given_up, put_reply};

use crate::desk::Desk;
use crate::edits::is_space;
use crate::files::Files;
use crate::stop::{StepResult, Stop};
use desktop_definitions::{MOST_FILES, Reply, codes};
use event_bytes::Name;
use std::collections::btree_map::Entry;
use text_core::Text;

impl Desk {
    /// The file of that name becomes this text, with which `made` characters more are written, and `more` more held but
    /// for those of the file that goes. Refused where there is no room for one more file, and then where the limits on
    /// characters would be passed. NoMemory where an allocation is refused.
    pub fn put_file(&mut self, name: &Name, text: Text, made: usize, more: usize) -> StepResult
        requires whole { IsKeptWhole (kept_desktop self.old) }
        requires made { made < 2 ^ 32 }
        requires more { more < 2 ^ 32 }
        ensures filed { IfOk result (IsFiled (kept_desktop self.old) name.now text made more
            (kept_desktop self.new)) }
        ensures never_fault { ¬ IsErrOf result Stop.Fault }
    {
        let held = self.held();
        put_within(
            &mut self.files,
            name,
            text,
            self.written as usize + made,
            held + more,
        )
    }
}

/// The file of that name becomes this text, where so many characters are then written, and so many held less those of
/// the file that goes.
fn put_within(files: &mut Files, name: &Name, text: Text, written: usize, held: usize) -> StepResult
    ensures answered { IfOk result (λ reply. reply ≡ put_reply
        (given_up (file_named files.old.entries name.now)
        (nat_lt (length files.old.entries) most_files))
        written held) }
    ensures put { IfOk result (λ reply. reply ≡ Done
        → files.new.entries ≡ file_put files.old.entries name.now text) }
    ensures stays { IfOk result (λ reply. (code : ℕ) → reply ≡ No code
        → files.new.entries ≡ files.old.entries) }
    ensures valid { OnOk result (IsTrue (is_name name.now)) }
    ensures gone { OnOk result ((characters : List ℕ) (new : AText ℕ)
        → lengths (file_put (seen_table characters files.old.entries) name.now new)
        + kept_size files.old.entries name.now
        ≡ lengths (seen_table characters files.old.entries) + length new) }
    ensures never_fault { ¬ IsErrOf result Stop.Fault }
{
    // The contract of `len` says that the names rise.
    let room = files.len() < MOST_FILES as usize;
    match files.entry(name.clone()?)? {
        Entry::Vacant(place) => {
            if !room {
                return Ok(Reply::No(codes::TOO_MANY_FILES));
            }
            if !is_space(written, held, 0) {
                return Ok(Reply::No(codes::FULL));
            }
            let _ = place.insert_entry(text);
            Ok(Reply::Done)
        }
        Entry::Occupied(mut place) => {
            if !is_space(written, held, place.get().len() as usize) {
                return Ok(Reply::No(codes::FULL));
            }
            let _ = place.insert(text);
            Ok(Reply::Done)
        }
    }
}
