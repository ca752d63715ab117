//! What a crash of a file is to the disk in it.
ghost use Rattle.std.specs.Prelude.{ℕ};
ghost use Rattle.sector_disk.specs.Trail.{IsCrashImage};
ghost use Rattle.sector_disk.specs.FileTrail.{FileMoment, IsFileImage};
ghost use Rattle.sector_disk.specs.FileSectors.{sectors_in, sectors_at};

/// The law that whatever a crash may leave of a file is, by its sectors, what it may leave of the disk in it. So what is
/// shown of each crash image of the disk holds of the bytes of each crash image of the file.
pub fn file_crash_law()
    ensures { (m : FileMoment) (image : ℕ → ℕ) → IsFileImage m image
        → IsCrashImage (sectors_at m) (sectors_in image) }
{}
