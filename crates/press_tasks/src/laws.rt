//! What the number is of which the definitions speak.
ghost use Rattle.std.specs.Prelude.{◌≡◌};
ghost use Rattle.press_tasks.specs.declared.task.TheConstants.{MOST_PLANS};

/// In how many steps a press is done at most.
pub fn constants_are_defined()
    ensures { MOST_PLANS ≡ 321 }
{}
