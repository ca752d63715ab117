//! What is told with a scene: what the clipboard of the terminal is given of what is copied, and on the line below.
ghost use Rattle.std.specs.Prelude.{◌≡◌, IfOk, OnOk, true, false};
ghost use Rattle.desk_journal.specs.Looking.{OnlyLooks};
ghost use Rattle.desk_sitting.specs.Clips.{clip_saying, clip_sent, clip_told, copied_text, unless_asked};
ghost use Rattle.desk_sitting.specs.Telling.{mark_told, scene_told};
ghost use Rattle.terminal_clipboards.specs.Clips.{clip_bytes};

use desk_journal::{Error, Store};
use desk_sitting::{Sitting, mark};
use sector_disk::Disk;
use status_line::Saying;
use std::alloc::Global;
use std::vec::Vec;
use store_documents::host_text;
use terminal_clipboards::{MOST_CLIPPED, clip_of};

/// What gives the clipboard of the terminal what was copied since the last scene, and nothing where nothing was. Where a text
/// is too long for it, that is said.
///
/// Errors: `NoMemory`; `Fault`.
fn clip<D: Disk>(
    alloc: Global,
    sitting: &mut Sitting,
    store: &mut Store<D>,
) -> Result<Vec<u8>, Error>
    requires { store.old.must_reopen ≡ false }
    ensures sent { IfOk result (λ clip. D.honest store.old.disk
        → (clip.items ≡ clip_bytes (clip_sent store.old.desktop sitting.old))
        × (sitting.new ≡ clip_told store.old.desktop sitting.old)) }
    ensures looks { OnlyLooks D.Disk result store.old store.new }
{
    if !sitting.copies {
        return Ok(Vec::new(alloc));
    }
    let text = copied_text(alloc, store)?;
    tell_clip(sitting, text.as_slice());
    match clip_of(alloc, text.as_slice()) {
        Ok(clip) => Ok(clip),
        Err(_) => Err(Error::NoMemory),
    }
}

/// The line below says whether the text with the caret isn't stored, where it rests. Returns what gives the clipboard of the
/// terminal what was copied since the last scene, as `clip` does.
///
/// Errors: `NoMemory`; `Fault`.
pub(crate) fn tell<D: Disk>(
    alloc: Global,
    sitting: &mut Sitting,
    store: &mut Store<D>,
) -> Result<Vec<u8>, Error>
    requires { store.old.must_reopen ≡ false }
    ensures sent { IfOk result (λ clip. D.honest store.old.disk
        → (clip.items ≡ clip_bytes (clip_sent store.old.desktop sitting.old))
        × (sitting.new ≡ scene_told store.old.desktop sitting.old)) }
    ensures looks { OnlyLooks D.Disk result store.old store.new }
{
    mark_if_due(alloc, sitting, store)?;
    clip(alloc, sitting, store)
}

/// What was copied last, as a text of the host's.
///
/// Errors: `NoMemory`; `Fault`.
fn copied_text<D: Disk>(alloc: Global, store: &mut Store<D>) -> Result<Vec<u8>, Error>
    ensures told { IfOk result (λ text. D.honest store.old.disk
        → text.items ≡ copied_text store.old.desktop) }
    ensures looks { OnlyLooks D.Disk result store.old store.new }
{
    let copied = store.copied(alloc)?;
    match host_text(alloc, copied.as_slice()) {
        Ok(text) => Ok(text),
        Err(_) => Err(Error::NoMemory),
    }
}

/// A text is copied: where it is too long for the clipboard of a terminal, that is said, unless something is asked.
fn tell_clip(sitting: &mut Sitting, text: &[u8])
    ensures { sitting.new ≡ record sitting.old {
      saying = clip_saying true text.now sitting.old.saying;
    } }
{
    if text.len() > MOST_CLIPPED {
        sitting.saying = unless_asked(sitting.saying);
    }
}

/// That a text is too long, unless something is asked.
fn unless_asked(saying: Saying) -> Saying
    ensures { result ≡ unless_asked saying }
{
    match saying {
        Saying::Asks(question) => Saying::Asks(question),
        _ => Saying::NotClipped,
    }
}

/// Where a scene is due, the line below says whether the text with the caret isn't stored, as `mark` has it.
///
/// Errors: `NoMemory`; `Fault`.
fn mark_if_due<D: Disk>(
    alloc: Global,
    sitting: &mut Sitting,
    store: &mut Store<D>,
) -> Result<(), Error>
    requires { store.old.must_reopen ≡ false }
    ensures marked { OnOk result (D.honest store.old.disk
        → sitting.new ≡ mark_told store.old.desktop sitting.old) }
    ensures looks { OnlyLooks D.Disk result store.old store.new }
{
    if !sitting.is_scene_due() {
        return Ok(());
    }
    mark(alloc, sitting, store)
}
