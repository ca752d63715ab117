//! The Oberon desktop as a program: what a run of it does is in `run`.
#![tactic(auto)]

mod arguments;
mod run;

use crate::run::run;
use std::process::ExitCode;

/// The program. Its status is 0 when done, 2 for other arguments, 3 where there is no store or a damaged one, 4 after
/// a fault of the disk, the input or the output, and 5 for want of memory.
fn main(rt: HostRuntime) -> ExitCode {
    ExitCode::from(run(&rt))
}
