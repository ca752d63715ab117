//! What a desktop is compared by: its shape, and its characters.
ghost use Rattle.std.specs.Prelude.{◌≡◌, IfOk};
ghost use Rattle.std.specs.Bool.{Decides};
ghost use Rattle.desk_core.specs.Words.{FailsAs, IsOver, IsStop, OnlyReads, seen};
ghost use Rattle.seen_desktops.specs.Shape.{HaveOneShape, all_characters_of};

use super::Desktop;
use char_file::CharSource;
use desk_core::stop::{NoMemory, Stop};
use piece_ring::Look;
use seen_desktops::{all_characters, have_one_shape};
use std::alloc::Global;

impl Desktop {
    /// Whether it has the shape of another one: the same of all but its characters. NoMemory where an allocation is refused.
    pub fn has_shape_of(&self, alloc: Global, other: &Desktop) -> Result<bool, NoMemory>
        ensures { IfOk result (λ same. Decides same (HaveOneShape self.now other.now)) }
    {
        have_one_shape(alloc, &self.desk, &other.desk)
    }

    /// The characters of its texts and files and then those of its buffers, each with its look. Two desktops of one shape with
    /// the same characters are the same (`desktops_are_shapes` of `seen_desktops`).
    ///
    /// Errors: `NoMemory`; `Fault` where a character could not be read.
    pub fn characters<S: CharSource>(
        &self,
        alloc: Global,
        source: &mut S,
    ) -> Result<Vec<(u8, Look)>, Stop>
        requires { IsOver (S.characters source.old) self.now }
        ensures read { IfOk result (λ all. S.honest source.old → all.items
            ≡ all_characters_of (seen (S.characters source.old) self.now)) }
        ensures reads { OnlyReads S.characters S.failures S.honest S.same_ground source.old
            source.new }
        ensures faults { FailsAs Stop.Fault IsStop result (S.failures source.old)
            (S.failures source.new) }
    {
        all_characters(alloc, &self.desk, source)
    }
}
