//! What the desk says to a person: the line below the screen, and what it asks before a press loses something.
//!
//! A `Deed` is what a press did, in words (`deed`). A `Saying` is what there is to be said, and `line_of` is its words over
//! a screen, of 80 characters at most: a word that was called, or a name, is read from there (`saying`). What the hand
//! types stands there too (`by_hand`), why something isn't done (`refusals`), and what was taken back (`taken_back`). A
//! `Question` is asked once (`question`), in the words of `losing`, about the click of the middle button that a press
//! makes (`clicks`). Which saying is due, by what came about, is in `choosing`, what is seen behind the word of a
//! command in `named`, and which viewers are open in `opened`. Nothing here knows a store.
#![tactic(auto)]

mod by_hand;
mod choosing;
mod clicks;
mod deed;
mod fitting;
mod losing;
mod named;
mod opened;
mod question;
mod refusals;
mod saying;
mod taken_back;

pub use choosing::{
    came_to, done_saying, fill_saying, first_saying, fitted_saying, refused_saying, rest_saying,
    rests,
};
pub use clicks::{MiddleClick, click_in, click_posted};
pub use deed::{Deed, typed_more};
pub use named::named_question;
pub use opened::{closing_cell, menu_reopened};
pub use question::{Question, asks_to_leave, comes_first, left_behind};
pub use saying::{Saying, SayingLine, is_in_memory, line_of, resting_of, said_by_pointer};
