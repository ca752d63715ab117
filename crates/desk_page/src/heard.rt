//! What a page hears, and doing it.
ghost use Rattle.std.specs.Prelude.{◌≡◌, false, OnOk, IfOk, IfErr};
ghost use Rattle.desk_journal.specs.Device.{IsSameDevice};
ghost use Rattle.desk_journal.specs.View.{IsDurable};
ghost use Rattle.sector_disk.specs.Faults.{FailsAs};
ghost use Rattle.terminal_keyboard.specs.Presses.{parser_after, presses_heard};
ghost use Rattle.desk_sitting.specs.Doing.{Breaks, OfPresses};
ghost use Rattle.desk_sitting.specs.TheDesk.{the_desk};
ghost use Rattle.desk_page.specs.Hearing.{Hears, heard_of};

use crate::page::Page;
use desk_journal::Error;
use desk_sitting::do_presses;
use host_files::HostFault;
use sector_disk::{Disk, NoMemory};
use std::alloc::Global;
use terminal_presses::Heard;

/// The bytes as they are heard, and a quiet while after them. `NoMemory`: there was no memory for the list.
pub fn hearing(alloc: Global, bytes: &[u8]) -> Result<Vec<Heard>, NoMemory>
    ensures { IfOk result (λ heard. heard.items ≡ heard_of bytes.now) }
{
    let mut heard = Vec::new(alloc);
    for byte in bytes {
        heard.push(Heard::Byte(*byte))?;
    }
    heard.push(Heard::Quiet)?;
    Ok(heard)
}

/// Does what is pressed by all that is heard, one press after another, each event acknowledged before the next press.
/// The host has no files for a page, so the text of one that is asked for by name is told as unread.
///
/// Errors: `NoMemory`, where memory runs out, and the event of the press that failed is on the disk in no image;
/// `Fault`, where the disk fails, and it may be there or not. Nothing that was pressed after it is done, and the store
/// must be opened again where its event was posted.
pub fn hear<D: Disk>(alloc: Global, page: &mut Page<D>, heard: &[Heard]) -> Result<(), Error>
    requires { page.old.store.must_reopen ≡ false }
    ensures parser { OnOk result (page.new.parser ≡ parser_after page.old.parser heard.now) }
    ensures done { OnOk result (D.honest page.old.store.disk → IsDurable D.Disk page.old.store
        → Hears D.Disk (presses_heard page.old.parser heard.now) page.old.sitting page.new.sitting
        page.old.store page.new.store) }
    ensures broke { IfErr result (λ error. D.honest page.old.store.disk
        → IsDurable D.Disk page.old.store
        → Breaks the_desk D.Disk error (presses_heard page.old.parser heard.now) page.old.sitting
        page.old.store page.new.store) }
    ensures usable { OnOk result (page.new.store.must_reopen ≡ false) }
    ensures faults { FailsAs Error.Fault OfPresses result (D.failures page.old.store.disk)
        (D.failures page.new.store.disk) }
    ensures device { IsSameDevice D.Disk page.old.store.disk page.new.store.disk }
{
    do_presses(
        alloc,
        &mut page.sitting,
        &mut page.parser,
        heard,
        &mut page.store,
    )?;
    page.sitting.bring(Err(HostFault::Refused));
    Ok(())
}
