//! A post to a store on two disks.
ghost use Rattle.std.specs.Prelude.{IfOk};
ghost use Rattle.twin_store.specs.OnTwins.{LegsMeanAfter, LegsMeanEither, NotedLegsMeanEither};

use desk_journal::{Error, Store};
use desktop_definitions::Reply;
use event_bytes::Event;
use sector_disk::Disk;
use std::alloc::Global;
use twin_disk::TwinDisk;

/// Posts an event to a store on two disks: `Store::post`, said of the legs. At every moment each image that a crash may
/// leave of a leg that was in use means the desktop before the event or the one after it, and so does that of both which
/// their flags choose. After `Ok` each image of a leg in use, and each that the flags choose, means the one after it.
///
/// Errors: those of `Store::post`.
pub fn post_on_twins<A: Disk, B: Disk>(
    alloc: Global,
    store: &mut Store<TwinDisk<A, B>>,
    event: &Event,
) -> Result<Reply, Error>
    ensures any_moment { LegsMeanEither event.now store.old store.new }
    // The same by what the twin has noted of its calls, whatever came of it: of a leg that is dropped, too.
    ensures noted { NotedLegsMeanEither event.now store.old store.new }
    ensures ok { IfOk result (λ reply. LegsMeanAfter event.now store.old store.new) }
{
    store.post(alloc, event)
}
