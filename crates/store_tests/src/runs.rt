//! Runs of posts and checkpoints, and stores that are closed and opened again.
use crate::disks::{new_store, played};
use desktop_definitions::Reply;
use event_bytes::Event;
use oberon_main::{Error, Store, Version};
use sector_disk::{Disk, Fuse, MemoryDisk, OneFault};
use std::alloc::{AllocError, Global};
use store_runs::{StoreAnswer, StoreCall, serve_all, serve_and_reopen};

/// How many calls opening a new store makes: a sync, the label, a slot's gate and head, the other slot's gate, the
/// image, gate 0.
const CALLS_TO_OPEN: u64 = 7;

/// How many calls three posts make.
const CALLS_TO_POST: u64 = 15;

/// How many calls the first checkpoint makes: a read of the slot's gate and a sync, the image, the head, gate 0 and a
/// sync, the gate and a sync.
const CALLS_TO_RENEW: u64 = 8;

/// How many calls opening a store of three events makes.
const CALLS_TO_REOPEN: u64 = 13;

/// What is said of a store of none of three events, and of all of them.
const EVENTS: [&[u8]; 4] = [
    b"ok layout 3 epoch 1 events 0\n",
    b"ok layout 3 epoch 1 events 1\n",
    b"ok layout 3 epoch 1 events 2\n",
    b"ok layout 3 epoch 1 events 3\n",
];

/// The marker is set in a column.
fn mark(x: u8) -> StoreCall {
    StoreCall::Post(Event::Mark { x, y: 0 })
}

/// Makes the calls as one run over a store: what each returned, and the disk.
fn run_over<D: Disk + Drop>(
    alloc: Global,
    made: &[StoreCall],
    disk: D,
) -> Result<(Vec<StoreAnswer>, D), AllocError> {
    match Store::open(alloc, disk) {
        Err(_) => Err(AllocError),
        Ok(mut store) => {
            let returned = serve_all(alloc, &mut store, made)?;
            Ok((returned, store.close()))
        }
    }
}

/// The same over a new store whose disk passes so many calls after it is opened, and then none, or all but the next
/// one.
fn run(
    alloc: Global,
    made: &[StoreCall],
    calls: u64,
    once: bool,
) -> Result<(Vec<StoreAnswer>, MemoryDisk), AllocError> {
    let calls = CALLS_TO_OPEN.saturating_add(calls);
    let disk = new_store(alloc, Version::V3)?;
    if once {
        let (returned, disk) = run_over(alloc, made, OneFault::new(disk, calls))?;
        Ok((returned, disk.into_inner()))
    } else {
        let (returned, disk) = run_over(alloc, made, Fuse::new(disk, calls))?;
        Ok((returned, disk.into_inner()))
    }
}

/// Whether the calls return that, and that is said of the store then.
fn returns(
    alloc: Global,
    made: &[StoreCall],
    calls: u64,
    once: bool,
    wanted: &[StoreAnswer],
    itself: &[u8],
) -> Result<bool, AllocError> {
    let (returned, disk) = run(alloc, made, calls, once)?;
    let mut said = Vec::new(alloc);
    played(alloc, disk, b"", &mut said);
    Ok(returned.as_slice() == wanted && said.as_slice() == itself)
}

#[test]
fn a_run_of_posts(rt: HostRuntime) -> Result<(), AllocError> {
    let done = Ok(Reply::Done);
    let made = [mark(0), mark(1), mark(2)];
    for (calls, wanted, left) in [
        (CALLS_TO_POST, [done, done, done], 3),
        (6, [done, Err(Error::Fault), Err(Error::MustReopen)], 1),
    ] {
        assert!(rt; returns(rt.alloc(), &made, calls, false, &wanted, EVENTS[left])?);
    }
    Ok(())
}

/// Where the first of three posts fails at a call of its own, nothing is posted after it, also where the disk passes
/// all later calls. The first event is there where the last call failed, whose gate was written by then.
#[test]
fn nothing_is_posted_after_a_fault(rt: HostRuntime) -> Result<(), AllocError> {
    let reopen = Err(Error::MustReopen);
    let wanted = [Err(Error::Fault), reopen, reopen];
    let made = [mark(0), mark(1), mark(2)];
    for (call, left) in [(0, 0), (1, 0), (2, 0), (3, 0), (4, 1)] {
        for once in [false, true] {
            assert!(rt; returns(rt.alloc(), &made, call, once, &wanted, EVENTS[left])?);
        }
    }
    Ok(())
}

/// An event between two checkpoints, over a disk that passes every call, fails from the second checkpoint on, or from
/// the first on.
#[test]
fn a_run_with_checkpoints(rt: HostRuntime) -> Result<(), AllocError> {
    let done = Ok(Reply::Done);
    let reopen = Err(Error::MustReopen);
    let made = [StoreCall::Checkpoint, mark(0), StoreCall::Checkpoint];
    let rows: [(u64, [StoreAnswer; 3], &[u8]); 3] = [
        (100, [done, done, done], b"ok layout 3 epoch 3 events 0\n"),
        (
            CALLS_TO_RENEW + 5,
            [done, done, Err(Error::Fault)],
            b"ok layout 3 epoch 2 events 1\n",
        ),
        (0, [Err(Error::Fault), reopen, reopen], EVENTS[0]),
    ];
    for (calls, wanted, itself) in rows {
        assert!(rt; returns(rt.alloc(), &made, calls, false, &wanted, itself)?);
    }
    Ok(())
}

/// Posts three events over a new store whose disk passes so many calls after that, closes the store and opens it again.
/// Why that was refused, or what is said of it then.
fn reopened(alloc: Global, calls: u64) -> Result<(Option<Error>, Vec<u8>), AllocError> {
    let calls = CALLS_TO_OPEN
        .saturating_add(CALLS_TO_POST)
        .saturating_add(calls);
    let made = [mark(0), mark(1), mark(2)];
    let mut said = Vec::new(alloc);
    match Store::open(alloc, Fuse::new(new_store(alloc, Version::V3)?, calls)) {
        Err(_) => Err(AllocError),
        Ok(store) => match serve_and_reopen(alloc, store, &made) {
            Err((error, _)) => Ok((Some(error), said)),
            Ok(store) => {
                played(alloc, store.close().into_inner(), b"", &mut said);
                Ok((None, said))
            }
        },
    }
}

/// The disk passes every call of opening it again, or fails at the first one.
#[test]
fn reopening_left_out(rt: HostRuntime) -> Result<(), AllocError> {
    let rows: [(u64, Option<Error>, &[u8]); 2] = [
        (CALLS_TO_REOPEN, None, EVENTS[3]),
        (0, Some(Error::Fault), b""),
    ];
    for (calls, refused, itself) in rows {
        let (error, said) = reopened(rt.alloc(), calls)?;
        assert!(rt; error == refused && said.as_slice() == itself);
    }
    Ok(())
}

/// Of three events takes the last one back where that call of an undo fails: whether it is taken back, and whether it is
/// when that is asked for once more.
fn undone(alloc: Global, call: u64) -> Result<(bool, bool), AllocError> {
    let calls = CALLS_TO_OPEN
        .saturating_add(CALLS_TO_POST)
        .saturating_add(call);
    match Store::open(alloc, OneFault::new(new_store(alloc, Version::V3)?, calls)) {
        Err(_) => Err(AllocError),
        Ok(mut store) => {
            let made = [mark(0), mark(1), mark(2)];
            let _answers = serve_all(alloc, &mut store, &made)?;
            let done = store.undo(alloc, 1).is_ok();
            Ok((done, done || store.undo(alloc, 1).is_ok()))
        }
    }
}

/// A call that fails before anything is written leaves the store in use. After the last two, a write and a sync, it must
/// be opened again.
#[test]
fn each_call_of_an_undo_fails(rt: HostRuntime) -> Result<(), AllocError> {
    let mut closed = 0u8;
    for call in 0..64 {
        let (done, again) = undone(rt.alloc(), call)?;
        if done {
            assert!(rt; 10 < call && closed == 2);
            return Ok(());
        }
        assert!(rt; !again || closed == 0);
        closed = closed.saturating_add(u8::from(!again));
    }
    assert!(rt; false);
    Ok(())
}
