//! What the numbers are of which the definitions speak.
ghost use Rattle.std.specs.Prelude.{◌≡◌};
ghost use Rattle.done_presses.specs.declared.again.TheConstants.{FIRST_EPOCH, MOST_AGAIN};
ghost use Rattle.done_presses.specs.declared.past.TheConstants.{MOST_DONE};

/// Of as many presses it is known what they did, and as many can be done again, as two journals have events. Two
/// checkpoints are behind a new store.
pub fn constants_are_defined()
    ensures known { MOST_DONE ≡ 512 }
    ensures again { MOST_AGAIN ≡ 512 }
    ensures first { FIRST_EPOCH ≡ 3 }
{}
