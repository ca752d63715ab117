//! What holds of all presses.
ghost use Rattle.terminal_sittings.specs.Laws.{ClicksAreTold, QuestionsComeOnce, QuestionsPostNothing};
ghost use Rattle.terminal_sittings.specs.Laws.{PressesAreSteps};
ghost use Rattle.terminal_sittings.specs.Laws.{LaterStepsAreTurns};

use sector_disk::Disk;

/// Presses lead to the desktop to which the events lead that are accepted of them.
pub fn presses_are_steps()
    ensures { PressesAreSteps }
{}

/// A press that asks posts nothing and changes nothing of the desktop, and nobody leaves by it. Pressed again it asks no
/// more.
pub fn questions_post_nothing()
    ensures nothing { QuestionsPostNothing }
    ensures once { QuestionsComeOnce }
{}

/// Each click of the middle button that a press makes by itself is the one about which it is asked, as far as it is
/// accepted.
pub fn clicks_are_told()
    ensures { ClicksAreTold }
{}

/// Where a step back leads to a later epoch, what was taken back is in a past: that goes on over a turn.
pub fn later_steps_are_turns<D: Disk>()
    ensures { LaterStepsAreTurns D.Disk }
{}
