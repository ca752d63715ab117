//! What holds of all sittings.
ghost use Rattle.desk_sitting.specs.Desk.{Desk};
ghost use Rattle.terminal_sittings.specs.Files.{FileSittingsSurvive};
ghost use Rattle.terminal_sittings.specs.Forgetting.{PostsForgetNothing};
ghost use Rattle.terminal_sittings.specs.Surviving.{EndsSurvive, ScenesSurvive, TurnsSurvive};

use sector_disk::{Disk, FileDisk, HostFile};

/// Whatever presses mean at a desk, and whatever it says: however a sitting ends, from any of its places on a crash leaves
/// the desktop that is shown there, after the first of the events accepted since then. What was shown is never lost.
pub fn sittings_survive<D: Disk>()
    ensures turns { (desk : Desk) → TurnsSurvive desk D.Disk }
    ensures scenes { (desk : Desk) → ScenesSurvive desk D.Disk }
    ensures ends { (desk : Desk) → EndsSurvive desk D.Disk }
{}

/// Of a past nothing is forgotten while events are posted in a sitting (the parts `past` of `GoesBy` and `SurvivesEnd`), in
/// its part, and over to the next one where that is full. Wherever a crash cuts it off, what it leaves has the past from
/// before, and all events that were acknowledged since then.
pub fn sittings_keep_pasts<D: Disk>()
    ensures { PostsForgetNothing D.Disk }
{}

/// What a sitting leaves of a store in a file (the part `survives` of `IsSat`), it leaves of the bytes of the file: no
/// image that a crash may leave of them loses what was shown.
pub fn sittings_survive_in_files<F: HostFile>()
    ensures { FileSittingsSurvive F.HostFile ⟦<FileDisk<F> as Disk>⟧ }
{}
