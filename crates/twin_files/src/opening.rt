//! A store on two files.
ghost use Rattle.std.specs.Prelude.{◌≡◌, ◌<◌, ◌+◌, false, IfOk};

use crate::legs::{LegDisk, PairDisk, leg_in};
use crate::pairing::{Pair, pair_both, pair_from};
use crate::trouble::PairTrouble;
use cli_stores::{NewFile, Trouble, give_name, new_file};
use desk_journal::{Error, Store};
use host_files::{HostFault, LockedFile, lock_alone, read_front, remove};
use host_stores::opened;
use sector_disk::{Disk, FILE_SECTORS};
use twin_disk::{
    FileLegs, Leg, NAME_BYTES, Name, closed_together, file_legs, flag_at, has_name, hold_same,
    leave_twin,
};

/// A store on two files.
#[derive(Drop)]
pub struct OpenedPair {
    pub store: Store<PairDisk>,

    /// Whether the disk's first leg is the second file.
    pub swapped: bool,
}

/// The store in a file and in its twin, which are locked for this program alone as long as it lasts. Their flags say which
/// of them is right, and the other one is made equal to it before the store is opened. Where one of them isn't there it is
/// made, unless it may be newer than the one that is.
pub fn open_pair(rt: &HostRuntime, path: &str, twin: &str) -> Result<OpenedPair, PairTrouble>
    ensures { IfOk result (λ pair. pair.store.must_reopen ≡ false) }
{
    let Pair { disk, swapped } = pair_at(rt, path, twin)?;
    match opened(rt, disk) {
        Ok(store) => Ok(OpenedPair { store, swapped }),
        Err(error) => Err(PairTrouble::One(Leg::First, Trouble::Store(error))),
    }
}

/// The disk over both files.
fn pair_at(rt: &HostRuntime, path: &str, twin: &str) -> Result<Pair<LegDisk>, PairTrouble> {
    let first = found(rt, path, Leg::First)?;
    let second = found(rt, twin, Leg::Second)?;
    match (first, second) {
        (Some(first), Some(second)) => pair_there(rt, first, second),
        (Some(first), None) => pair_new(rt, leg_in(first), twin, Leg::Second),
        (None, Some(second)) => pair_new(rt, leg_in(second), path, Leg::First),
        (None, None) => Err(PairTrouble::NoFile),
    }
}

/// The disk over two files that are there, which needn't be compared where they were closed together.
fn pair_there(
    rt: &HostRuntime,
    first: LockedFile,
    second: LockedFile,
) -> Result<Pair<LegDisk>, PairTrouble> {
    let mut first = leg_in(first);
    let mut second = leg_in(second);
    if closed_together(&mut first, &mut second, FILE_SECTORS)? {
        return Ok(pair_both(rt.alloc(), first, second, FILE_SECTORS, true)?);
    }
    pair_compared(rt, first.into_file(), second.into_file())
}

/// The same after both were compared.
fn pair_compared(
    rt: &HostRuntime,
    first: LockedFile,
    second: LockedFile,
) -> Result<Pair<LegDisk>, PairTrouble> {
    let FileLegs {
        first,
        second,
        same,
    } = file_legs(rt.alloc(), first, second, FILE_SECTORS);
    let mut first = first;
    let mut second = second;
    let same = hold_same(&mut first, &mut second, FILE_SECTORS, same)?;
    Ok(pair_both(rt.alloc(), first, second, FILE_SECTORS, same)?)
}

/// The file at this path, locked. None where there is none.
fn found(rt: &HostRuntime, path: &str, which: Leg) -> Result<Option<LockedFile>, PairTrouble> {
    match lock_alone(rt, path) {
        Ok(file) => Ok(Some(file)),
        Err(HostFault::Missing) => Ok(None),
        Err(fault) => Err(PairTrouble::One(which, Trouble::Host(fault))),
    }
}

/// The disk over a leg and a new file, which becomes the missing one.
fn pair_new(
    rt: &HostRuntime,
    leg: LegDisk,
    path: &str,
    missing: Leg,
) -> Result<Pair<LegDisk>, PairTrouble>
    requires { FILE_SECTORS + 1 < ⟦<LegDisk as Disk>⟧.size leg }
{
    let mut leg = leg;
    let flag = flag_at(&mut leg, FILE_SECTORS)?;
    if has_name(&flag) && !flag.alone {
        return Err(PairTrouble::Missing(missing));
    }
    // With another name, so that no file of an earlier pair is taken for one of this.
    let name = new_name(rt)?;
    match new_file(rt, path) {
        Ok(made) => pair_made(rt, leg, made, path, name, missing),
        Err(trouble) => Err(PairTrouble::One(missing, trouble)),
    }
}

/// The same by a file of another name, which gets its own when it is a copy of the whole store, and is taken away where
/// this fails.
fn pair_made(
    rt: &HostRuntime,
    leg: LegDisk,
    made: NewFile,
    path: &str,
    name: Name,
    missing: Leg,
) -> Result<Pair<LegDisk>, PairTrouble>
    requires { FILE_SECTORS + 1 < ⟦<LegDisk as Disk>⟧.size leg }
{
    let NewFile { name: aside, file } = made;
    let swapped = missing == Leg::First;
    let pair = match pair_from(
        rt.alloc(),
        leg,
        leg_in(file),
        FILE_SECTORS,
        name,
        swapped,
        false,
    ) {
        Ok(pair) => named(rt, pair, aside.as_str(), path, missing),
        Err(why) => Err(PairTrouble::from(why)),
    };
    if pair.is_err() {
        let _ = remove(rt, aside.as_str());
    }
    pair
}

/// Gives a copy its name. Where it can't get it the leg that was copied goes on alone, as far as it can say so.
fn named(
    rt: &HostRuntime,
    pair: Pair<LegDisk>,
    aside: &str,
    path: &str,
    missing: Leg,
) -> Result<Pair<LegDisk>, PairTrouble> {
    match give_name(rt, aside, path) {
        Ok(()) => Ok(pair),
        Err(trouble) => {
            let (mut leg, _copy) = pair.disk.into_legs();
            if FILE_SECTORS + 1 < leg.sectors() {
                let _ = leave_twin(&mut leg, FILE_SECTORS);
            }
            Err(PairTrouble::One(missing, trouble))
        }
    }
}

/// A name that no other pair has, by chance.
fn new_name(rt: &HostRuntime) -> Result<Name, PairTrouble> {
    let mut name = [0; NAME_BYTES];
    match read_front(rt, "/dev/urandom", &mut name) {
        Ok(NAME_BYTES) => Ok(name),
        _ => Err(PairTrouble::Fault),
    }
}

impl OpenedPair {
    /// Closes the store, and both files together, so that the next start needn't compare them. Where one of the files failed
    /// since it was opened, that is said, and that the other one has all.
    pub fn end(self, rt: &HostRuntime, path: &str, twin: &str) {
        let OpenedPair { store, swapped } = self;
        let disk = store.close();
        let (gone, left) = match (disk.dropped(), swapped) {
            (None, _) => {
                close_both(rt, disk);
                return;
            }
            (Some(Leg::First), false) | (Some(Leg::Second), true) => (path, twin),
            _ => (twin, path),
        };
        let _ = eprintln!(rt;
            "desk: reading or writing {gone:?} failed, so only {left:?} has all that was shown; the next start with both makes them equal again"
        );
    }
}

/// Has both files say that they were closed together, at a time that no other closing had, by chance.
fn close_both(rt: &HostRuntime, disk: PairDisk) {
    if let Ok(stamp) = new_name(rt) {
        let _ = disk.close(&stamp);
    }
}
