//! What a desktop keeps, and the changes of its texts and viewers that events and commands are made of.
#![tactic(auto)]

mod covers;
pub mod desk;
pub mod edits;
pub mod files;
mod filing;
pub mod held;
pub mod marks;
mod menus;
pub mod stop;
pub mod tables;
mod texts;
pub mod viewers;
pub mod views;
