//! Where the bytes of an image come from.
ghost use Rattle.std.specs.Prelude.{ℕ, List, IfOk};
ghost use Rattle.sector_disk.specs.Trail.{CountsFault};
ghost use Rattle.image_format.specs.Passing.{IsNext, OnlyGets};

use sector_disk::Fault;

/// Bytes, one after another.
pub trait ByteSource {
    /// The bytes that are still to come.
    ghost remaining: { Self → List ℕ };

    /// How many calls have failed. Contracts alone see it, so nothing bounds it.
    ghost failures: { Self → ℕ };

    /// What is below does as it promises.
    ghost honest: { Self → Type 0 };

    /// In both states the source stands on the same, as on a disk with the same content. No call changes it.
    ghost same_ground: { Self → Self → Type 0 };

    /// The next byte; None at the end. `Fault`: what is below failed in this call.
    fn get(&mut self) -> Result<Option<u8>, Fault>
        ensures next { honest self.old
            → IfOk result (λ byte. IsNext byte (remaining self.old) (remaining self.new)) }
        ensures only { OnlyGets honest same_ground self.old self.new }
        ensures cause { CountsFault result (failures self.old) (failures self.new) };

    /// A source stands on its own ground.
    ghost ground_self: { (s : Self) → same_ground s s };

    /// What stands on the same ground as what stands on the same ground does so too.
    ghost ground_through: { (a b c : Self) → same_ground a b → same_ground b c → same_ground a c };
}
