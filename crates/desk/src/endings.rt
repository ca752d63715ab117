//! How sittings end, in sentences.
ghost use Rattle.std.specs.Prelude.{◌≡◌};
ghost use Rattle.desk.specs.Statuses.{kept_status, lost_status, named_status};

use host_files::is_there;
use std::io;
use terminal_sittings::SittingEnd;

/// Says how a sitting over a store in a file ended, where the person didn't leave, and that the file of that name is gone,
/// if it is; and returns the status.
pub(crate) fn kept(rt: &HostRuntime, path: &str, ending: SittingEnd) -> u8 {
    kept_under(rt, path, matches!(is_there(rt, path), Ok(false)), ending)
}

/// The same, where it is known whether the file of that name is gone.
fn kept_under(rt: &HostRuntime, path: &str, gone: bool, ending: SittingEnd) -> u8
    ensures { result ≡ kept_status gone ending }
{
    let _ = say_kept(rt, path, ending);
    if gone {
        let _ = eprintln!(rt;
            "desk: while the desk was open the file {path:?} was removed, or got another name: what was shown is in that file alone"
        );
        return 4;
    }
    named_status(ending)
}

/// The status where the file has its name still.
fn named_status(ending: SittingEnd) -> u8
    ensures { result ≡ named_status ending }
{
    match ending {
        SittingEnd::Left | SittingEnd::Closed => 0,
        SittingEnd::Input | SittingEnd::TooLong | SittingEnd::Output | SittingEnd::Fault => 4,
        SittingEnd::Memory => 5,
    }
}

/// The sentence.
fn say_kept(rt: &HostRuntime, path: &str, ending: SittingEnd) -> io::Result<()> {
    if matches!(ending, SittingEnd::Fault) {
        return eprintln!(rt;
            "desk: reading or writing {path:?} failed; what was shown had been written to it"
        );
    }
    match failure(ending) {
        None => Ok(()),
        Some(what) => eprintln!(rt; "desk: {what}; what was shown is in the store"),
    }
}

/// Says how a sitting over a store in memory ended, where the person didn't leave, and returns the status. A disk in
/// memory fails for want of memory alone.
pub(crate) fn lost(rt: &HostRuntime, ending: SittingEnd) -> u8
    ensures { result ≡ lost_status ending }
{
    let _ = say_lost(rt, ending);
    match ending {
        SittingEnd::Left | SittingEnd::Closed => 0,
        SittingEnd::Input | SittingEnd::TooLong | SittingEnd::Output => 4,
        SittingEnd::Fault | SittingEnd::Memory => 5,
    }
}

/// The sentence.
fn say_lost(rt: &HostRuntime, ending: SittingEnd) -> io::Result<()> {
    match failure(ending) {
        None => Ok(()),
        Some(what) => eprintln!(rt; "desk: {what}; the desktop in memory is gone"),
    }
}

/// What failed, but for a disk in a file. None where the person left or nothing more can be heard.
fn failure(ending: SittingEnd) -> Option<&'static str> {
    match ending {
        SittingEnd::Left | SittingEnd::Closed => None,
        SittingEnd::Input => Some("the keyboard failed"),
        SittingEnd::TooLong => Some("there were more turns than can be counted"),
        SittingEnd::Output => Some("the terminal took no more"),
        SittingEnd::Fault | SittingEnd::Memory => Some("there was not enough memory"),
    }
}
