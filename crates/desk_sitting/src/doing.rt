//! Presses that are done over a store.
ghost use Rattle.std.specs.Prelude.{◌≡◌, false, [], ◌∷◌, OnOk, IfErr};
ghost use Rattle.desk_journal.specs.Device.{IsSameDevice};
ghost use Rattle.desk_journal.specs.View.{IsDurable};
ghost use Rattle.sector_disk.specs.Faults.{FailsAs};
ghost use Rattle.terminal_keyboard.specs.Presses.{in_order, parser_after, presses_heard};
ghost use Rattle.desk_sitting.specs.Doing.{Breaks, DoesPresses, OfPresses, DoesAllPresses};
ghost use Rattle.desk_sitting.specs.TheDesk.{the_desk};

use crate::sitting::Sitting;
use desk_journal::{Error, Store};
use sector_disk::Disk;
use std::alloc::Global;
use terminal_keyboard::Parser;
use terminal_presses::{Heard, Press, Presses};

/// Does what is pressed by all that was heard, one press after another, each event acknowledged before the next one.
///
/// Errors: `NoMemory`, where memory runs out, and the event that was begun is on the disk in no image; `Fault`, where the
/// disk fails, and it may be there or not. Those that were posted before it are there. Nothing that was pressed after it
/// is done, and the store must be opened again where that event was posted.
pub fn do_presses<D: Disk>(
    alloc: Global,
    sitting: &mut Sitting,
    parser: &mut Parser,
    hearing: &[Heard],
    store: &mut Store<D>,
) -> Result<(), Error>
    requires { store.old.must_reopen ≡ false }
    ensures parser { OnOk result (parser.new ≡ parser_after parser.old hearing.now) }
    ensures done { OnOk result (D.honest store.old.disk → IsDurable D.Disk store.old
        → DoesPresses the_desk D.Disk (presses_heard parser.old hearing.now) sitting.old sitting.new
        store.old store.new) }
    ensures broke { IfErr result (λ error. D.honest store.old.disk → IsDurable D.Disk store.old
        → Breaks the_desk D.Disk error (presses_heard parser.old hearing.now) sitting.old store.old
        store.new) }
    ensures usable { OnOk result (store.new.must_reopen ≡ false) }
    ensures faults { FailsAs Error.Fault OfPresses result (D.failures store.old.disk)
        (D.failures store.new.disk) }
    ensures device { IsSameDevice D.Disk store.old.disk store.new.disk }
{
    for heard in hearing {
        do_each(alloc, sitting, parser.take(*heard), store)?;
    }
    Ok(())
}

/// Does at most two presses.
///
/// Errors: `NoMemory`, where memory runs out; `Fault`, where the disk fails.
fn do_each<D: Disk>(
    alloc: Global,
    sitting: &mut Sitting,
    presses: Presses,
    store: &mut Store<D>,
) -> Result<(), Error>
    requires { store.old.must_reopen ≡ false }
    ensures { DoesAllPresses the_desk D.Disk (in_order presses) result sitting.old sitting.new
        store.old store.new }
{
    match presses {
        Presses::Nothing => Ok(()),
        Presses::One(press) => sitting.press(alloc, press, store),
        Presses::Two(first, second) => do_both(alloc, sitting, first, second, store),
    }
}

/// Does a press, and then another one.
///
/// Errors: `NoMemory`, where memory runs out; `Fault`, where the disk fails. Where the first press fails the other one
/// isn't done.
fn do_both<D: Disk>(
    alloc: Global,
    sitting: &mut Sitting,
    first: Press,
    second: Press,
    store: &mut Store<D>,
) -> Result<(), Error>
    requires { store.old.must_reopen ≡ false }
    ensures { DoesAllPresses the_desk D.Disk (first ∷ second ∷ []) result sitting.old sitting.new
        store.old store.new }
{
    sitting.press(alloc, first, store)?;
    sitting.press(alloc, second, store)
}
