//! Stores in files of the host: what a crash leaves of the file's bytes, and what is opened from them.
ghost use Rattle.std.specs.Prelude.{◌≡◌, true, IfOk, IfErr};
ghost use Rattle.sector_disk.specs.FileTrail.{current};
ghost use Rattle.desktop_definitions.specs.Desktop.{Desktop};
ghost use Rattle.desk_journal.specs.Files.{BytesMean, StopsOpening, FileLeavesEither, FileLeavesAfter};

use crate::store::Store;
use desktop_definitions::Reply;
use event_bytes::Event;
use sector_disk::{FileDisk, HostFile};
use std::alloc::Global;
use store_layout::finding_law;
use store_slots::Error;

/// Posts an event to a store in a file: `Store::post`, said of the bytes of the file. At every moment each image that a
/// crash may leave of them means the desktop before the event or the one after it, and from `Ok` on the one after it.
///
/// Errors: those of `Store::post`.
pub fn post_in_a_file<F: HostFile>(
    alloc: Global,
    store: &mut Store<FileDisk<F>>,
    event: &Event,
) -> Result<Reply, Error>
    ensures any_moment { FileLeavesEither F.HostFile event.now store.old store.new }
    ensures ok { IfOk result (λ reply. FileLeavesAfter F.HostFile event.now store.old store.new) }
{
    store.post(alloc, event)
}

/// Opens a store in a file of which no sync was refused: `Store::open`, said of the bytes of the file. Where they mean a
/// desktop, as each image that a crash leaves does, the store shows that one, or the memory or a call of the host is
/// wanting: it is never told that they are no store, or a damaged one.
///
/// Errors, each with the disk: those of `Store::open`.
pub fn open_in_a_file<F: HostFile>(
    alloc: Global,
    file: F,
) -> Result<Store<FileDisk<F>>, (Error, FileDisk<F>)>
    requires { F.intact file ≡ true }
    ensures shows { IfOk result (λ store. F.honest file → (desktop : Desktop)
        → BytesMean desktop (current (F.trail file)).reads → store.desktop ≡ desktop) }
    ensures stops { IfErr result (λ e. F.honest file → (desktop : Desktop)
        → BytesMean desktop (current (F.trail file)).reads → StopsOpening e.0) }
{
    finding_law();
    Store::open(alloc, FileDisk::new(file))
}
