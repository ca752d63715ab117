//! A keyboard that stops a sitting when one of a store's two files has failed, so that the next one can begin with it.
ghost use Rattle.std.specs.Prelude.{◌≡◌, ◌<◌, ◌+◌, ◌⊎◌, true, false, is_some, IfOk, IfErr, IfSome, OnErr};
ghost use Rattle.sector_disk.specs.declared.file.TheConstants.{FILE_SECTORS};
ghost use Rattle.terminal_keyboard.specs.declared.keyboard.KeyboardEnd.TheVariants.{Closed};
ghost use Rattle.twin_files.specs.Pairing.{HasLegFailed, leg_flag};

use crate::legs::LEG_SECTORS;
use host_files::{HostFault, open_regular};
use sector_disk::{Disk, FILE_SECTORS, FileDisk};
use std::fs::File;
use terminal_keyboard::{Completion, Hearing, Keyboard, KeyboardEnd};
use terminal_presses::Heard;
use twin_disk::{Leg, flag_at};

/// Both legs of a store, to be looked at beside the disk over them: the one that says *alone* is the one that is left.
#[derive(Drop)]
pub struct Watch<D: Disk> {
    first: D,
    second: D,
    ghost first_size: { FILE_SECTORS + 1 < D.Disk.size first },
    ghost second_size: { FILE_SECTORS + 1 < D.Disk.size second },
}

/// The same of files of the host.
pub type PairWatch = Watch<FileDisk<File>>;

impl Watch<FileDisk<File>> {
    /// A look at the files at these paths.
    pub fn new(rt: &HostRuntime, path: &str, twin: &str) -> Result<PairWatch, HostFault> {
        let first = FileDisk::with_sectors(open_regular(rt, path, u64::MAX)?, LEG_SECTORS);
        let second = FileDisk::with_sectors(open_regular(rt, twin, u64::MAX)?, LEG_SECTORS);
        Ok(Watch { first, second })
    }
}

impl<D: Disk> Watch<D> {
    /// Which leg failed, as the flag of the other one says.
    pub fn failed(&mut self) -> Option<Leg>
        ensures { IfSome result (HasLegFailed D.Disk FILE_SECTORS self.old.first self.old.second) }
    {
        if says_alone(&mut self.first) {
            Some(Leg::Second)
        } else if says_alone(&mut self.second) {
            Some(Leg::First)
        } else {
            None
        }
    }
}

/// Whether a leg says *alone*, as far as it can be read.
fn says_alone<D: Disk>(leg: &mut D) -> bool
    requires { FILE_SECTORS + 1 < D.size leg.old }
    ensures size { D.size leg.new ≡ D.size leg.old }
    ensures told { result ≡ true → D.honest leg.old → leg_flag D.Disk FILE_SECTORS leg.old ≡ true }
{
    match flag_at(leg, FILE_SECTORS) {
        Ok(flag) => flag.alone,
        Err(_) => false,
    }
}

/// A keyboard that tells what another one does. After a quiet while in which one of the files has failed it says that
/// nothing more comes, once, and then tells which one.
#[derive(Drop)]
pub struct WatchedKeyboard<K, D: Disk> {
    keyboard: K,
    watch: Option<Watch<D>>,
    was_quiet: bool,
    failed: Option<Leg>,
}

impl<K: Keyboard, D: Disk + Drop> WatchedKeyboard<K, D> {
    /// The keyboard. Without a watch it tells all that the other one does.
    pub fn new(keyboard: K, watch: Option<Watch<D>>) -> WatchedKeyboard<K, D>
        ensures { result.keyboard ≡ keyboard }
    {
        WatchedKeyboard {
            keyboard,
            watch,
            was_quiet: false,
            failed: None,
        }
    }

    /// Which of the files failed, if it has stopped for that.
    pub fn failed(&self) -> Option<Leg>
        ensures { result ≡ self.now.failed }
    {
        self.failed
    }

    /// Whether one of the files has failed, which is told once.
    fn stops(&mut self) -> bool
        ensures keyboard { self.new.keyboard ≡ self.old.keyboard }
        ensures told { result ≡ true → is_some self.new.failed ≡ true }
        ensures watched { result ≡ true → is_some self.old.watch ≡ true }
        ensures right { IfSome self.old.watch (λ watch. result ≡ true → IfSome self.new.failed
            (HasLegFailed D.Disk FILE_SECTORS watch.first watch.second)) }
    {
        if !self.was_quiet {
            return false;
        }
        let Some(watch) = &mut self.watch else {
            return false;
        };
        self.failed = watch.failed();
        if self.failed.is_some() {
            self.watch = None;
        }
        self.failed.is_some()
    }
}

impl<K: Keyboard, D: Disk + Drop> Keyboard for WatchedKeyboard<K, D> {
    ghost heard = { λ k. K.heard k.keyboard };

    ghost left = { λ k. K.left k.keyboard };

    ghost asked = { λ k. K.asked k.keyboard };

    ghost brings = { λ k. K.brings k.keyboard };

    ghost tells = { λ old new told. K.tells old.keyboard new.keyboard told };

    ghost ended = { λ k why. (why ≡ Closed) × (is_some k.failed ≡ true) ⊎ K.ended k.keyboard why };

    ghost answers = { λ old new name will. K.answers old.keyboard new.keyboard name will };

    fn hear(&mut self) -> Result<Hearing, KeyboardEnd> {
        if self.stops() {
            return Err(KeyboardEnd::Closed);
        }
        let hearing = self.keyboard.hear()?;
        self.was_quiet = matches!(hearing.as_slice(), [Heard::Quiet]);
        Ok(hearing)
    }

    fn bring(&mut self, name: &[u8]) -> Result<(), HostFault> {
        self.keyboard.bring(name)
    }

    fn complete(&mut self, name: &[u8]) -> Completion {
        self.keyboard.complete(name)
    }
}
