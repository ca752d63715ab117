//! What holds of a past that is looked at.
ghost use Rattle.desk_page.specs.Known.{StaysKnown};

use page_disks::RecordedDisk;
use sector_disk::Disk;

/// Whatever a host calls, each moment that it is handed of a past was one of the past of the page's store.
pub fn looking_law()
    ensures { StaysKnown ⟦<RecordedDisk as Disk>⟧ }
{}
