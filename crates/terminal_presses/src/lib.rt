//! Presses of a terminal's keyboard and mouse, and the events that they make.
//!
//! A `Press` is what is pressed (`press`), and a byte by itself is one (`single`). A `Hand` takes presses and says what
//! each comes to (`hand`): an event for the desktop, made of a key (`keys`), of a gesture of the mouse (`mouse`, `gesture`)
//! or of what is pasted (`paste`), or something that the session does. It moves a pointer by keys (`pointer`), and takes the
//! name of a host file, the number of a line, or words that are sought, where that is asked for (`asks`, `answers`).
//! It is told which rows of the display are in sight (`sight`), so that a click goes to the cell that is seen (`spot`).
//! What holds of all presses is in `laws`. Nothing here takes memory or knows a store.
#![tactic(auto)]

mod action;
mod answers;
mod asks;
mod gesture;
mod hand;
mod keys;
mod laws;
mod mouse;
mod paste;
mod pointer;
mod press;
mod sight;
mod single;
mod spot;

pub use action::{Action, Click};
pub use asks::Asks;
pub use hand::{CONTROL_B, CONTROL_Y, Hand};
pub use laws::{
    buttons_make_one_point, names_are_typed, one_button_is_enough, one_pointer_is_enough,
    pastes_are_typed, runs_of_presses_compose, spots_are_in_sight,
};
pub use paste::becomes_mark;
pub use press::{
    Arrow, Button, FunctionKey, Heard, MouseReport, Page, Press, Presses, Scroll, WheelReport,
};
pub use sight::Sight;
pub use single::ESCAPE;
pub use spot::Spot;
