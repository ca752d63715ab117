//! Documents on their way into a store and out of it, and what a person may ask of a store: over any disk and any
//! writer. A line of a document ends with CR, one of a text of the host's with LF (`file_bytes`, `file_text`). The files
//! of the host's are the matter of the crate `cli_documents`.
#![tactic(auto)]

mod ascii;
mod copying;
mod counts;
mod examining;
mod exporting;
mod file_bytes;
mod file_text;
mod filling;
mod handing;
mod importing;
mod laws;
mod markup;
mod places;
mod sorting;
mod words;

pub use ascii::{InAscii, in_ascii};
pub use copying::{Watch, are_same, copy};
pub use counts::Counts;
pub use examining::{Examined, Part, SlotState, examine, part_of, parts_are_of_layout};
pub use exporting::{ExportFault, Form, Reader, export};
pub use file_bytes::{MOST_BYTES, Unfit, document};
pub use file_text::{host_bytes, host_text, printable_bytes, printable_text};
pub use filling::{document_within, filled, joined};
pub use handing::{FirstUnfit, Handed, documents_of, named_before};
pub use importing::{Coming, Imported, import};
pub use laws::{lines_come_back, looks_come_back, texts_come_back};
pub use markup::html;
pub use places::Place;
pub use sorting::{Sorted, Standing, sort, standing_in};
pub use words::place_of_word;
