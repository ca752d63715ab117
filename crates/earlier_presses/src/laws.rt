//! What the number is of which the definitions speak.
ghost use Rattle.std.specs.Prelude.{◌≡◌};
ghost use Rattle.earlier_presses.specs.declared.replacing.TheConstants.{MOST_TYPED};

/// How much is typed again in another place at most.
pub fn constants_are_defined()
    ensures { MOST_TYPED ≡ 64 }
{}
