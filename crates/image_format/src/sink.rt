//! Where the bytes of an image go.
ghost use Rattle.std.specs.Prelude.{ℕ, List, ◌++◌, OnOk};
ghost use Rattle.sector_disk.specs.Trail.{CountsFault};

use sector_disk::Fault;

/// Takes bytes, each list after the one before it.
pub trait ByteSink {
    /// It has taken these bytes.
    ghost has_put: { Self → List ℕ → Type 0 };

    /// How many calls have failed. Contracts alone see it, so nothing bounds it.
    ghost failures: { Self → ℕ };

    /// In both states the sink stands on the same, but for what a sink writes. No call changes it.
    ghost same_ground: { Self → Self → Type 0 };

    /// Takes the bytes. `Fault`: what is below failed in this call.
    fn put(&mut self, bytes: &[u8]) -> Result<(), Fault>
        ensures put { OnOk result ((before : List ℕ) → has_put self.old before
            → has_put self.new (before ++ bytes.now)) }
        ensures stands { same_ground self.old self.new }
        ensures cause { CountsFault result (failures self.old) (failures self.new) };

    /// A sink stands on its own ground.
    ghost ground_self: { (s : Self) → same_ground s s };

    /// What stands on the same ground as what stands on the same ground does so too.
    ghost ground_through: { (a b c : Self) → same_ground a b → same_ground b c → same_ground a c };
}
