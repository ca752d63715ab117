//! A page whose past is forgotten.
ghost use Rattle.std.specs.Prelude.{◌≡◌, false, IfErr, IfOk};
ghost use Rattle.desk_page.specs.Forgetting.{ForgetsOrNot};
ghost use Rattle.desk_page.specs.Turns.{IsStopped};

use crate::looks::seated_again;
use crate::scene::{HostPage, Scene, settled, usable};
use desk_journal::Error;
use desk_past::forget;
use page_disks::RecordedDisk;
use sector_disk::Disk;
use std::alloc::Global;
use store_layout::showing_law;

/// The page after its past was forgotten, with what is handed of it, or the page as it was where the past stays, for want of room
/// or since the events before it can't be counted. The sitting before it begins anew, so of what it took back before nothing is
/// done again.
///
/// Errors: those of `desk_past::forget`.
pub(crate) fn forgotten(alloc: Global, page: HostPage) -> Result<(HostPage, Option<Scene>), Error>
    ensures done { IfOk result (λ both.
        ForgetsOrNot ⟦<RecordedDisk as Disk>⟧ page both.0 both.1) }
    ensures failed { IfErr result (IsStopped page) }
{
    showing_law();
    let mut page = page;
    usable(&page.store)?;
    let is_forgotten = forget(alloc, &mut page.store)?;
    page.store.shows_what_crashes_leave();
    if !is_forgotten {
        return Ok((page, None));
    }
    let (page, scene) = settled(alloc, seated_again(page))?;
    Ok((page, Some(scene)))
}
