//! What the words of a command line give to the arguments of a command.
ghost use Rattle.std.specs.Prelude.{◌≡◌};
ghost use Rattle.program_arguments.specs.Refusals.{refusal_of_words};

use crate::refusal::Refusal;
use crate::shape::{Argument, CommandShape, Kind, program_of};
use clap::error::ErrorKind;
use clap::{ArgMatches, Command};
use std::alloc::{AllocError, Global};

/// What the words give to one argument.
#[derive(Drop)]
struct Given<'a> {
    name: &'a str,
    words: Vec<&'a str>,
    chosen: bool,
}

/// A command of the program, and what the words give to its arguments.
#[derive(Drop)]
pub struct Asked<'a> {
    /// The command's name.
    pub command: &'a str,
    given: Vec<Given<'a>>,
}

impl<'a> Asked<'a> {
    /// The words that are given to the argument of this name. None where the command has no such argument.
    pub fn words(&self, name: &str) -> Option<&[&'a str]> {
        match self.given.iter().find(|it| it.name == name) {
            Some(given) => Some(given.words.as_slice()),
            None => None,
        }
    }

    /// The first of them, if there is one.
    pub fn word(&self, name: &str) -> Option<&'a str> {
        self.words(name)?.first().copied()
    }

    /// Whether the choice of this name is made.
    pub fn chooses(&self, name: &str) -> bool {
        match self.given.iter().find(|it| it.name == name) {
            Some(given) => given.chosen,
            None => false,
        }
    }
}

/// What the words ask of the program of that name with these commands: one of them, or nothing where no word stands
/// after the program's name.
pub fn asked_by<'a>(
    alloc: Global,
    name: &'a str,
    shapes: &'a [CommandShape<'a>],
    words: &'a [String],
) -> Result<Option<Asked<'a>>, Refusal> {
    let matches = matches_of(program_of(alloc, name, shapes)?, words)?;
    Ok(asked_in(alloc, shapes, &matches)?)
}

/// What the words give to the program, after its name, as `clap` has it.
fn matches_of<'a>(program: Command<'a>, words: &'a [String]) -> Result<ArgMatches<'a>, Refusal> {
    match program.try_get_matches_from(words) {
        Ok(matches) => Ok(matches),
        Err(error) => Err(unfit(error.kind())),
    }
}

/// Why they name no order where the words don't fit the program.
fn unfit(kind: ErrorKind) -> Refusal
    ensures { result ≡ refusal_of_words kind }
{
    match kind {
        ErrorKind::OutOfMemory => Refusal::Memory,
        _ => Refusal::Usage,
    }
}

/// The same, of what `clap` found.
fn asked_in<'a>(
    alloc: Global,
    shapes: &'a [CommandShape<'a>],
    matches: &ArgMatches<'a>,
) -> Result<Option<Asked<'a>>, AllocError> {
    let Some((command, found)) = matches.subcommand() else {
        return Ok(None);
    };
    match shapes.iter().find(|shape| shape.name == command) {
        Some(shape) => Ok(Some(Asked {
            command,
            given: given_to(alloc, shape.arguments, found)?,
        })),
        None => Ok(None),
    }
}

/// What is given to each of these arguments.
fn given_to<'a>(
    alloc: Global,
    arguments: &'a [Argument<'a>],
    found: &ArgMatches<'a>,
) -> Result<Vec<Given<'a>>, AllocError> {
    let mut all = Vec::with_capacity(alloc, arguments.len())?;
    for argument in arguments {
        all.push(given_one(alloc, argument, found)?)?;
    }
    Ok(all)
}

/// What is given to an argument.
fn given_one<'a>(
    alloc: Global,
    argument: &'a Argument<'a>,
    found: &ArgMatches<'a>,
) -> Result<Given<'a>, AllocError> {
    let name = argument.name;
    if argument.kind == Kind::Choice {
        return Ok(Given {
            name,
            words: Vec::new(alloc),
            chosen: found.get_flag(name),
        });
    }
    Ok(Given {
        name,
        words: words_of(alloc, found, name)?,
        chosen: false,
    })
}

/// The words that are given to the argument of this name.
fn words_of<'a>(
    alloc: Global,
    found: &ArgMatches<'a>,
    name: &str,
) -> Result<Vec<&'a str>, AllocError> {
    match found.get_strs(name) {
        Some(words) => Vec::from_slice(alloc, words),
        None => Ok(Vec::new(alloc)),
    }
}
