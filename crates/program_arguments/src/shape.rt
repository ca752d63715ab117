//! The commands of a program and their arguments, as a table has them.

use clap::{Arg, ArgAction, Command};
use std::alloc::{AllocError, Global};

/// How an argument is given.
#[derive(Clone, Copy, Debug, PartialEq, Eq)]
pub enum Kind {
    /// A word that must be there.
    Wanted,
    /// A word that may be there.
    Optional,
    /// A word after the argument's name and two dashes, which may be there.
    Named,
    /// Any number of words.
    Several,
    /// Any number of words, one at least.
    SeveralWanted,
    /// A choice: it is made where the argument's name stands there, after two dashes.
    Choice,
}

/// An argument of a command.
#[derive(Clone, Copy, Debug, PartialEq, Eq)]
pub struct Argument<'a> {
    pub name: &'a str,
    pub kind: Kind,
}

/// A command, with its arguments in the order of the words.
#[derive(Clone, Copy, Debug, PartialEq, Eq)]
pub struct CommandShape<'a> {
    pub name: &'a str,
    pub arguments: &'a [Argument<'a>],
}

/// The program of that name with these commands, as `clap` has it.
pub(crate) fn program_of<'a>(
    alloc: Global,
    name: &'a str,
    shapes: &'a [CommandShape<'a>],
) -> Result<Command<'a>, AllocError> {
    let mut program = Command::new(alloc, name);
    for shape in shapes {
        program = with_command(alloc, program, shape)?;
    }
    Ok(program)
}

/// The same with a command more.
fn with_command<'a>(
    alloc: Global,
    program: Command<'a>,
    shape: &'a CommandShape<'a>,
) -> Result<Command<'a>, AllocError> {
    let command = command_of(alloc, shape)?;
    program.subcommand(command)
}

/// A command.
fn command_of<'a>(alloc: Global, shape: &'a CommandShape<'a>) -> Result<Command<'a>, AllocError> {
    let mut command = Command::new(alloc, shape.name);
    for argument in shape.arguments {
        command = command.arg(argument_of(alloc, argument))?;
    }
    Ok(command)
}

/// An argument.
fn argument_of<'a>(alloc: Global, argument: &'a Argument<'a>) -> Arg<'a> {
    let plain = Arg::new(alloc, argument.name);
    match argument.kind {
        Kind::Wanted => plain.required(true).action(ArgAction::Set),
        Kind::Optional => plain.action(ArgAction::Set),
        Kind::Named => plain.long(argument.name).action(ArgAction::Set),
        Kind::Several => plain.action(ArgAction::Append).num_args(1..),
        Kind::SeveralWanted => plain.required(true).action(ArgAction::Append).num_args(1..),
        Kind::Choice => plain.long(argument.name).action(ArgAction::SetTrue),
    }
}
