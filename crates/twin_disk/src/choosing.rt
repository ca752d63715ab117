//! Which leg of a twin is right when both are there.
ghost use Rattle.std.specs.Prelude.{◌≡◌};
ghost use Rattle.twin_disk.specs.Choosing.{choice_of};

use crate::flags::Flag;

/// One of two legs.
#[derive(Clone, Copy, Debug, PartialEq, Eq)]
pub enum Leg {
    First,
    Second,
}

/// Which of two legs goes on.
#[derive(Clone, Copy, Debug, PartialEq, Eq)]
pub enum Choice {
    First,
    Second,

    /// Each has gone on without the other.
    Neither,
}

/// Which leg is right by what both flags say: the one that is alone, and of two in pair the first.
pub fn choose(first: Flag, second: Flag) -> Choice
    ensures { result ≡ choice_of first.alone second.alone }
{
    match (first.alone, second.alone) {
        (_, false) => Choice::First,
        (false, true) => Choice::Second,
        (true, true) => Choice::Neither,
    }
}
