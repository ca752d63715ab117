//! What the mouse comes to: its buttons and its wheel.
ghost use Rattle.std.specs.Prelude.{◌≡◌};
ghost use Rattle.terminal_presses.specs.Hands.{hand_after_report as reported_by, hand_after_wheel as wheeled_by};
ghost use Rattle.terminal_presses.specs.Hands.{gone_down, gone_up, begun};
ghost use Rattle.terminal_presses.specs.Hands.{click_meant, extending as extending_by, pointed_at};
ghost use Rattle.terminal_presses.specs.Outcomes.{ComesTo};

use crate::action::{Action, Click};
use crate::gesture::{Buttons, Gesture};
use crate::hand::Hand;
use crate::press::{Button, MouseReport, Scroll, WheelReport};
use crate::sight::Sight;
use crate::spot::Spot;
use event_bytes::{Event, Keys};

impl Hand {
    /// The mouse points there.
    fn point(&mut self, sight: Sight, column: u16, row: u16)
        ensures { self.new ≡ pointed_at sight column row self.old }
    {
        self.pointer.mouse = Spot::shown(sight, column, row);
    }

    /// What a report of the wheel comes to: nothing while a gesture is under way.
    #[tactic(auto, unfolding(crate::specs::Hands::wheel_action))]
    pub(crate) fn wheeled(&mut self, sight: Sight, report: WheelReport) -> Action
        ensures { ComesTo (wheeled_by sight report self.old) self.new result }
    {
        self.point(sight, report.column, report.row);
        match self.pointer.mouse {
            Some(spot) if self.gesture.is_none() => Action::Scroll(
                Some(spot),
                if report.is_up {
                    Scroll::WheelUp
                } else {
                    Scroll::WheelDown
                },
            ),
            _ => Action::Nothing,
        }
    }

    /// What a report of the mouse comes to: a button goes down or up.
    #[tactic(auto, unfolding(crate::specs::Hands::hand_after_button))]
    pub(crate) fn reported(&mut self, sight: Sight, report: MouseReport) -> Action
        ensures { ComesTo (reported_by sight report self.old) self.new result }
    {
        self.point(sight, report.column, report.row);
        if report.is_down {
            self.go_down(sight, report);
            return Action::Nothing;
        }
        let spot = Spot::nearest(sight, report.column, report.row);
        let action = self.go_up(report.button, spot);
        if report.with_shift || report.with_alt {
            return extending(action);
        }
        action
    }

    /// A button goes down.
    #[tactic(auto, unfolding(crate::specs::Hands::gone_down))]
    fn go_down(&mut self, sight: Sight, report: MouseReport)
        ensures { self.new ≡ gone_down self.old.gesture sight report self.old }
    {
        let Some(gesture) = self.gesture else {
            self.begin(sight, report);
            return;
        };
        if gesture.down.has(report.button) {
            self.begin(sight, report);
        } else {
            self.gesture = Some(gesture.pressed(report.button));
        }
    }

    /// A gesture begins. One whose end was lost is forgotten. One that begins outside the display comes to nothing.
    #[tactic(auto, unfolding(crate::specs::Hands::begun))]
    fn begin(&mut self, sight: Sight, report: MouseReport)
        ensures { self.new ≡ begun sight report self.old }
    {
        let mut click = None;
        if sight.shows(report.column, report.row) {
            click = Some(meant(self.armed, report));
            self.armed = None;
        }
        self.gesture = Some(Gesture {
            click,
            start: Spot::nearest(sight, report.column, report.row),
            down: Buttons::none().with(report.button, true),
        });
    }

    /// A button goes up.
    #[tactic(auto, unfolding(crate::specs::Hands::gone_up, crate::specs::Hands::rested))]
    fn go_up(&mut self, button: Button, spot: Spot) -> Action
        ensures { ComesTo (gone_up self.old.gesture button spot self.old) self.new result }
    {
        let Some(gesture) = self.gesture else {
            return Action::Nothing;
        };
        let gesture = gesture.released(button);
        if gesture.down.is_empty() {
            self.gesture = None;
            return gesture.ended_at(spot);
        }
        self.gesture = Some(gesture);
        Action::Nothing
    }
}

/// What a click is that begins so: the left button is the middle one with Alt and the right one with Ctrl, and is
/// without them what a function key has said.
#[tactic(auto, unfolding(crate::specs::Hands::click_meant))]
fn meant(armed: Option<Click>, report: MouseReport) -> Click
    ensures { result ≡ click_meant report.button report armed }
{
    match report.button {
        Button::Left => {
            if report.with_alt {
                Click::Keys(Keys::Middle)
            } else if report.with_control {
                Click::Keys(Keys::Right)
            } else {
                armed.unwrap_or(Click::Keys(Keys::Left))
            }
        }
        Button::Middle => Click::Keys(Keys::Middle),
        Button::Right => Click::Keys(Keys::Right),
    }
}

/// An action as it is, but that a right click extends what is selected.
#[tactic(auto, unfolding(crate::specs::Hands::extending))]
fn extending(action: Action) -> Action
    ensures { result ≡ extending_by action }
{
    match action {
        Action::Post(
            Event::Point {
                keys: Keys::Right,
                x0,
                y0,
                x1,
                y1,
            },
        ) => Action::Extend(Spot { x: x0, y: y0 }, Spot { x: x1, y: y1 }),
        other => other,
    }
}
