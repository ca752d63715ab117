//! Standard streams that are closed.

use crate::{HostFault, asked};
use std::fs::{File, OpenOptions};
use std::os::fd::AsFd;

/// What stands in the place of standard streams that are closed, as long as it lasts. Without it the next file that is
/// opened would get the number of such a stream, and what is printed would be written into that file.
#[derive(Drop)]
pub struct HeldStreams {
    input: Option<File>,
    output: Option<File>,
    errors: Option<File>,
}

/// Holds the place of each standard stream that is closed: a read of standard input still fails, and so does a write to
/// the others. It comes before anything is opened.
///
/// Errors: those of opening `/dev/null`, where a stream is closed.
pub fn hold_streams(rt: &HostRuntime) -> Result<HeldStreams, HostFault> {
    let input = is_open(&rt.stdin());
    let output = is_open(&rt.stdout());
    let errors = is_open(&rt.stderr());
    Ok(HeldStreams {
        input: held(rt, input, false)?,
        output: held(rt, output, true)?,
        errors: held(rt, errors, true)?,
    })
}

/// Whether a stream is open: whether it has a copy.
fn is_open<S: AsFd>(stream: &S) -> bool {
    stream.as_fd().try_clone_to_owned().is_ok()
}

/// A file that gets the lowest free number where a stream isn't open, to be read or to be written alone.
fn held(rt: &HostRuntime, open: bool, reads: bool) -> Result<Option<File>, HostFault> {
    if open {
        return Ok(None);
    }
    let file = OpenOptions::new()
        .read(reads)
        .write(!reads)
        .open(rt, "/dev/null");
    Ok(Some(asked(file)?))
}
