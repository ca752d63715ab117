//! Runs of calls.
ghost use Rattle.std.specs.Prelude.{◌≡◌, [], false, length, zip, IfOk, IfErr, IsErr};
ghost use Rattle.std.specs.Result.{result_map_both};
ghost use Rattle.sector_disk.specs.Trail.{LeavesOnly};
ghost use Rattle.sector_disk.specs.Faults.{FailsAs};
ghost use Rattle.desk_journal.specs.Device.{IsSameDevice, disk_after, result_of};
ghost use Rattle.desk_journal.specs.Errors.{OfReopen};
ghost use Rattle.desk_journal.specs.Prefixes.{MeansPrefix};
ghost use Rattle.store_runs.specs.Deeds.{DoesDeed, IsRun, PromisesBringing, PromisesUndo, called, deeds_of};
ghost use Rattle.store_runs.specs.Reopening.{IsReopened, LeadsToLastEpoch, StopsAReopening, events_in};
ghost use Rattle.store_runs.specs.Run.{SurvivesRun};

use crate::call::{StoreAnswer, StoreCall};
use crate::laws::{reopening_law, runs_survive};
use desk_journal::{Document, Error, Store, finding_law};
use desktop_definitions::Reply;
use event_bytes::Event;
use sector_disk::{Disk, NoMemory};
use std::alloc::Global;

/// Makes one call.
///
/// Errors: those of `Store::post` and `Store::checkpoint`.
pub fn serve<D: Disk>(alloc: Global, store: &mut Store<D>, call: &StoreCall) -> StoreAnswer
    ensures { DoesDeed D.Disk (called call.now result) store.old store.new }
{
    match call {
        StoreCall::Post(event) => store.post(alloc, event),
        StoreCall::Checkpoint => match store.checkpoint() {
            Ok(()) => Ok(Reply::Done),
            Err(error) => Err(error),
        },
    }
}

/// Takes the last events back, so many, and hands them back.
///
/// Errors: those of `Store::undo`.
pub fn take_back<D: Disk>(
    alloc: Global,
    store: &mut Store<D>,
    count: u32,
) -> Result<Vec<Event>, Error>
    ensures { PromisesUndo D.Disk count (result_map_both (λ events. events.items) (λ e. e) result)
        store.old store.new }
{
    store.undo(alloc, count)
}

/// Brings the documents, all or none.
///
/// Errors: those of `Store::bring`.
pub fn bring_in<D: Disk>(alloc: Global, store: &mut Store<D>, documents: &[Document]) -> StoreAnswer
    ensures { PromisesBringing D.Disk documents.now result store.old store.new }
{
    store.bring(alloc, documents)
}

/// Makes the calls in order, and returns what each returned. It allocates the memory for that first, and changes
/// nothing where there is none.
///
/// Error: `NoMemory`.
pub fn serve_all<D: Disk>(
    alloc: Global,
    store: &mut Store<D>,
    calls: &[StoreCall],
) -> Result<Vec<StoreAnswer>, NoMemory>
    requires { store.old.must_reopen ≡ false }
    ensures each { IfOk result (λ answers. length answers.items ≡ length calls.now) }
    ensures run { IfOk result (λ answers.
        IsRun D.Disk (deeds_of (zip calls.now answers.items)) store.old store.new) }
    // However the calls ended, and wherever a crash cuts them off.
    ensures any_moment { IfOk result (λ answers. SurvivesRun D.Disk
        (deeds_of (zip calls.now answers.items)) store.old store.new) }
    ensures refused { IsErr result → store.new ≡ store.old }
{
    let mut answers = Vec::with_capacity(alloc, calls.len())?;
    store.shows_what_crashes_leave();
    runs_survive::<D>();
    for call in calls {
        let answer = serve(alloc, store, call);
        answers.push_reserved(answer);
    }
    Ok(answers)
}

/// Makes the calls in order up to the first that is refused, closes the store and opens it again.
///
/// Errors, each with the disk: those of `post`, `checkpoint` and `open`, but over an honest disk `NoMemory`, `Fault`
/// and `Worn` alone: the store that was closed is found again, and is never told as damaged or as none.
pub fn serve_and_reopen<D: Disk>(
    alloc: Global,
    store: Store<D>,
    calls: &[StoreCall],
) -> Result<Store<D>, (Error, D)>
    requires { store.must_reopen ≡ false }
    ensures ok { IfOk result (λ reopened. IsReopened D.Disk calls.now store reopened) }
    // Wherever a crash cuts it off, and whatever it returns.
    ensures any_moment { D.honest store.disk
        → LeavesOnly (D.trail store.disk) (D.trail (disk_after (λ reopened. reopened.disk) result))
        (MeansPrefix (D.size store.disk) store.desktop [] (events_in calls.now)) }
    ensures stops { D.honest store.disk → IfErr result (λ e. StopsAReopening e.0) }
    // It is worn only after calls that led to the last epoch.
    ensures worn { IfErr result (λ e. e.0 ≡ Error.Worn → LeadsToLastEpoch calls.now store) }
    ensures device { IsSameDevice D.Disk store.disk
        (disk_after (λ reopened. reopened.disk) result) }
    ensures faults { FailsAs Error.Fault OfReopen (result_of result) (D.failures store.disk)
        (D.failures (disk_after
        (λ reopened. reopened.disk) result)) }
{
    let mut store = store;
    store.shows_what_crashes_leave();
    for call in calls {
        if let Err(error) = serve(alloc, &mut store, call) {
            return Err((error, store.close()));
        }
    }
    reopening_law::<D>();
    finding_law();
    Store::open(alloc, store.close())
}
