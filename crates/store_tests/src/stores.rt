//! Stores, by the scripts that are played over them: worked rows, bytes of sectors, and stores of the first version,
//! which become stores of the newest one. What is said of a disk that has no store, the scripts `damaged_stores` and
//! `head_fields` show.

use crate::disks::{Row, Step, expect};
use oberon_main::{Error, Store, Version};
use sector_disk::MemoryDisk;
use std::alloc::AllocError;

/// The scripts of the first events of three, from none on.
pub const FIRST: [&[u8]; 4] = [
    b"",
    b"file A.Text a\n",
    b"file A.Text a\nfile B.Text bc\n",
    b"file A.Text a\nfile B.Text bc\nfile A.Text def\n",
];

/// A script that shows all that the three events make.
pub const SHOW: &[u8] = b"list\nshow A.Text\nshow B.Text\n";

/// Shows it.
const SHOWS: &[Step] = &[Step::Play(SHOW)];

/// A script that says nothing but what the store is.
const CHECK: &[Step] = &[Step::Play(b"")];

#[test]
fn hello(rt: HostRuntime) -> Result<(), AllocError> {
    let rows: [Row; 4] = [
        (
            Version::V3,
            &[],
            SHOWS,
            b"written 0\nend\nno 5\nno 5\nok layout 3 epoch 1 events 0\n",
        ),
        (
            Version::V3,
            &[Step::Play(FIRST[1])],
            SHOWS,
            b"file A.Text 1\nwritten 1\nend\n0 15 0 a\nend\nno 5\nok layout 3 epoch 1 events 1\n",
        ),
        (
            Version::V3,
            &[Step::Play(FIRST[2])],
            SHOWS,
            b"file A.Text 1\nfile B.Text 2\nwritten 3\nend\n0 15 0 a\nend\n0 15 0 bc\nend\n\
            ok layout 3 epoch 1 events 2\n",
        ),
        (
            Version::V3,
            &[Step::Play(FIRST[3])],
            SHOWS,
            b"file A.Text 3\nfile B.Text 2\nwritten 6\nend\n0 15 0 def\nend\n0 15 0 bc\nend\n\
            ok layout 3 epoch 1 events 3\n",
        ),
    ];
    expect(&rt, rt.alloc(), &rows)
}

/// A disk of 100 sectors takes no store, and has none.
#[test]
fn too_few_sectors(rt: HostRuntime) -> Result<(), AllocError> {
    let made = Store::format(MemoryDisk::new(rt.alloc(), 100)?);
    assert!(rt; matches!(&made, Err((Error::TooSmall, _))));
    let opened = Store::open(rt.alloc(), MemoryDisk::new(rt.alloc(), 100)?);
    assert!(rt; matches!(&opened, Err((Error::NotAStore, _))));
    Ok(())
}

/// The label, a slot's gate and head, its image, the gate of its first event and the event.
#[test]
fn layout_of_one_event(rt: HostRuntime) -> Result<(), AllocError> {
    let rows: [Row; 1] = [(
        Version::V3,
        &[Step::Play(FIRST[1])],
        &[
            Step::Tell(0, 0, 18),
            Step::Tell(1, 0, 10),
            Step::Tell(2, 0, 22),
            Step::Tell(1029, 0, 32),
            Step::Tell(5, 0, 10),
            Step::Tell(6, 0, 12),
            Step::Tell(7, 0, 2),
        ],
        b"OBERONDESKSTORE1\x00\x00OPENGATE\x00\x00\
        \x00\x00\x00\x03\x00\x00\x00\x01\x00\x00\x00\x00\x00\x00\x00\x1e\x00\x00\x00\x00\x00\x00\
        \x00\x0f\x40\x00\x00\x00\x01\x00\x00\x00\x00\x00\x00\x00\x00\x00\x00\x00\
        \x00\x00\x00\x00\x00\x00\x00\x01\x00\x01\x00\x00\x00\x00\
        OPENGATE\x00\x00\x05\x06A.Text\x00\x01a\x00\x00\x00",
    )];
    expect(&rt, rt.alloc(), &rows)
}

/// The image of the empty desktop has 30 bytes, and is none with fewer or with more.
#[test]
fn empty_image(rt: HostRuntime) -> Result<(), AllocError> {
    let rows: [Row; 5] = [
        (
            Version::V3,
            &[Step::Put(
                2,
                b"\x00\x00\x00\x03\x00\x00\x00\x01\x00\x00\x00\x00\x00\x00\x00\x1e",
            )],
            CHECK,
            b"ok layout 3 epoch 1 events 0\n",
        ),
        (
            Version::V3,
            &[Step::Put(
                2,
                b"\x00\x00\x00\x03\x00\x00\x00\x01\x00\x00\x00\x00\x00\x00\x00\x00",
            )],
            CHECK,
            b"damaged 1029\n",
        ),
        (
            Version::V3,
            &[Step::Put(
                2,
                b"\x00\x00\x00\x03\x00\x00\x00\x01\x00\x00\x00\x00\x00\x00\x00\x1b",
            )],
            CHECK,
            b"damaged 1029\n",
        ),
        (
            Version::V3,
            &[Step::Put(
                2,
                b"\x00\x00\x00\x03\x00\x00\x00\x01\x00\x00\x00\x00\x00\x00\x00\x1d",
            )],
            CHECK,
            b"damaged 1029\n",
        ),
        (
            Version::V3,
            &[Step::Put(
                2,
                b"\x00\x00\x00\x03\x00\x00\x00\x01\x00\x00\x00\x00\x00\x00\x00\x1f",
            )],
            CHECK,
            b"damaged 1029\n",
        ),
    ];
    expect(&rt, rt.alloc(), &rows)
}

/// The events of a journal, each in its body, of which the last gate opens first: a tool text is filed, it is opened,
/// and its command is called.
const JOURNAL: &[Step] = &[
    Step::Put(6, b"\x05\x0bSystem.Tool\x00\x0eSystem.Collect"),
    Step::Put(8, b"\x04\x03\x3c\x1f\x3c\x1f"),
    Step::Put(10, b"\x04\x03\x34\x1e\x34\x1e"),
    Step::Put(9, b"OPENGATE"),
    Step::Put(7, b"OPENGATE"),
    Step::Put(5, b"OPENGATE"),
];

/// The same journal, an event that makes the store one of the newest version, and the call of the command.
const COLLECTED: &[Step] = &[
    Step::Put(6, b"\x05\x0bSystem.Tool\x00\x0eSystem.Collect"),
    Step::Put(8, b"\x04\x03\x3c\x1f\x3c\x1f"),
    Step::Put(10, b"\x04\x03\x34\x1e\x34\x1e"),
    Step::Put(9, b"OPENGATE"),
    Step::Put(7, b"OPENGATE"),
    Step::Put(5, b"OPENGATE"),
    Step::Play(b"mark 0 0\n"),
    Step::Play(b"point m 52 30 52 30\n"),
];

/// A journal of the first version is stepped by its commands: the one that gives up characters is none of them.
#[test]
fn old_journal_with_collect(rt: HostRuntime) -> Result<(), AllocError> {
    let rows: [Row; 1] = [(
        Version::V1,
        JOURNAL,
        &[Step::Play(b"list\n")],
        b"file System.Tool 14\nviewer 50 0 32 System.Tool 14\nwritten 75\nend\nok layout 1 epoch 1 events 3\n",
    )];
    expect(&rt, rt.alloc(), &rows)
}

/// The first post makes it a store of the newest version, in which there is that command.
#[test]
fn migrated(rt: HostRuntime) -> Result<(), AllocError> {
    let rows: [Row; 1] = [(
        Version::V1,
        JOURNAL,
        &[
            Step::Play(b"mark 0 0\n"),
            Step::Play(b"point m 52 30 52 30\n"),
            Step::Play(b"list\n"),
        ],
        b"ok\nok layout 3 epoch 2 events 1\nok\nok layout 3 epoch 2 events 2\n\
        file System.Tool 14\nviewer 50 0 32 System.Tool 14\nwritten 89\nend\nok layout 3 epoch 2 events 2\n",
    )];
    expect(&rt, rt.alloc(), &rows)
}

/// After the exchange a checkpoint writes into the other area, and after the next exchange into the first one again.
#[test]
fn collect_areas(rt: HostRuntime) -> Result<(), AllocError> {
    let rows: [Row; 1] = [(
        Version::V1,
        COLLECTED,
        &[
            Step::Files(1, 2),
            Step::Play(b"checkpoint\n"),
            Step::Tell(2, 0, 12),
            Step::Tell(2, 16, 21),
            Step::Play(b"point m 52 30 52 30\ncheckpoint\n"),
            Step::Tell(4, 0, 12),
            Step::Tell(4, 16, 21),
        ],
        b"ok\nok\nok layout 3 epoch 2 events 4\nok\nok layout 3 epoch 3 events 0\n\
        \x00\x00\x00\x03\x00\x00\x00\x03\x00\x00\x07\x61\x00\x00\x00\x01\x00\
        ok\nok\nok layout 3 epoch 4 events 0\n\
        \x00\x00\x00\x03\x00\x00\x00\x04\x00\x00\x07\x61\x00\x00\x00\x00\x00",
    )];
    expect(&rt, rt.alloc(), &rows)
}

/// In the last epoch a store of the first version takes no event, and is shown still.
#[test]
fn worn_migration(rt: HostRuntime) -> Result<(), AllocError> {
    let rows: [Row; 1] = [(
        Version::V1,
        &[Step::Put(
            2,
            b"\x00\x00\x00\x01\xff\xff\xff\xff\x00\x00\x00\x00\x00\x00\x00\x1b",
        )],
        &[Step::Play(b"mark 0 0\ncheckpoint\nlist\n")],
        b"worn\nworn\nwritten 0\nend\nok layout 1 epoch 4294967295 events 0\n",
    )];
    expect(&rt, rt.alloc(), &rows)
}
