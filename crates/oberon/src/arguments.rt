//! The arguments of the program `oberon`: what they ask for, or why they ask for nothing.

use program_arguments::{Argument, CommandShape, Kind, asked_by};
pub use program_arguments::{Refusal, words};
use std::alloc::Global;

/// What the program is asked to do, with the path of the store where there is one.
#[derive(Drop)]
pub enum Order<'a> {
    /// To play a script over a new store in memory.
    PlayInMemory,
    /// To make a new store.
    Format(&'a str),
    /// To play a script over a store.
    Play(&'a str),
    /// To print the screen of a store.
    Screen(&'a str),
    /// To say of a store that it can be used.
    Check(&'a str),
}

/// The path of a store.
const PATH: &[Argument<'static>] = &[Argument {
    name: "path",
    kind: Kind::Wanted,
}];

/// The commands.
const COMMANDS: &[CommandShape<'static>] = &[
    CommandShape {
        name: "format",
        arguments: PATH,
    },
    CommandShape {
        name: "play",
        arguments: PATH,
    },
    CommandShape {
        name: "screen",
        arguments: PATH,
    },
    CommandShape {
        name: "check",
        arguments: PATH,
    },
];

/// What the words ask for: nothing after the program's name, or one of the commands and a path.
pub fn order_of<'a>(alloc: Global, words: &'a [String]) -> Result<Order<'a>, Refusal> {
    match asked_by(alloc, "oberon", COMMANDS, words)? {
        None => Ok(Order::PlayInMemory),
        Some(asked) => order_named(asked.command, asked.word("path")),
    }
}

/// The order of a command and its path.
fn order_named<'a>(name: &str, path: Option<&'a str>) -> Result<Order<'a>, Refusal> {
    match (name, path) {
        ("format", Some(path)) => Ok(Order::Format(path)),
        ("play", Some(path)) => Ok(Order::Play(path)),
        ("screen", Some(path)) => Ok(Order::Screen(path)),
        ("check", Some(path)) => Ok(Order::Check(path)),
        _ => Err(Refusal::Usage),
    }
}
