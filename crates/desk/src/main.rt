//! The Oberon desktop at a terminal, as a program: what a run of it does is in `run`.
#![tactic(auto)]

mod commands;
mod endings;
mod orders;
mod run;
mod sitting;
mod usages;

use crate::run::run;
use std::process::ExitCode;

/// The program. Its status is 0 when done, 1 where a document is refused, 2 for other arguments, 3 where the file holds
/// no store or a damaged one, 4 where there is no file, the host refuses it, or the disk, the input or the output
/// failed, and 5 for want of memory.
fn main(rt: HostRuntime) -> ExitCode {
    ExitCode::from(run(&rt))
}
