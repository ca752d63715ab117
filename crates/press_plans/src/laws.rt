//! What holds of all plans.
ghost use Rattle.press_plans.specs.Pastes.{PartsComeWhole};

use filled_pastes::nothing_is_lost;

/// Nothing of a paste is lost where lines are filled: what is typed by a plan, and left to be typed, is the part of the paste
/// with ends of lines that come into it.
pub fn pastes_come_whole()
    ensures { PartsComeWhole }
{
    nothing_is_lost();
}
