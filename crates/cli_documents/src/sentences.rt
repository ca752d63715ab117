//! What is refused, in sentences.
ghost use Rattle.std.specs.Prelude.{◌≡◌};
ghost use Rattle.cli_documents.specs.Stops.{export_stop, host_stop};

use cli_copies::Stop;
use cli_stores::Trouble;
use event_bytes::Name;
use host_files::HostFault;
use std::str::from_utf8;
use store_documents::ExportFault;

/// Says why the host made no folder.
pub(crate) fn refused_folder(rt: &HostRuntime, folder: &str, fault: HostFault) -> Stop
    ensures { result ≡ host_stop fault }
{
    if matches!(fault, HostFault::NoMemory) {
        return Stop::Trouble(Trouble::Memory);
    }
    let _ = eprintln!(rt; "desk: the folder {folder:?} could not be made, so nothing was done");
    Stop::Host
}

/// Why a document did not come out.
pub(crate) fn cut_off(fault: ExportFault) -> Stop
    ensures { result ≡ export_stop fault }
{
    match fault {
        ExportFault::Store(error) => Stop::Trouble(Trouble::Store(error)),
        ExportFault::Output => Stop::Trouble(Trouble::Output),
    }
}

/// The name of a document as text. A name has nothing but ASCII.
pub fn word_of(name: &Name) -> &str {
    from_utf8(name.as_bytes()).unwrap_or("?")
}
