//! What a crash leaves of the legs of a store's twin, whatever was done.
ghost use Rattle.twin_store.specs.OnTwins.{TwinScriptsSurvive, TwinsKeep};

use sector_disk::Disk;
use twin_disk::TwinDisk;

/// Whatever leaves of a twin the desktop after a prefix of some events, leaves it of each leg in use, and of the one that
/// the flags choose. Sittings, scripts and runs of calls say of any disk what they leave in this form.
pub fn twins_keep<A: Disk, B: Disk>()
    ensures { TwinsKeep A.Disk B.Disk }
{}

/// What a script leaves of a store's twin (`scripts_survive` of `oberon_main`), it leaves of the legs.
pub fn scripts_survive_on_twins<A: Disk, B: Disk>()
    ensures { TwinScriptsSurvive ⟦<TwinDisk<A, B> as Disk>⟧ }
{}
