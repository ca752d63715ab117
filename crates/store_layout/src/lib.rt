//! What the sectors of a store mean.
//!
//! A store has a label and two slots; one slot is in use. A slot has a head, the image of a desktop, and a journal of
//! the events since. `src/layout.rt` says which sector has what, `specs/Meaning.antt` what a content of the disk means,
//! `specs/Footprint.antt` on which sectors that depends, and `specs/Finding.antt` what opening finds.
//!
//! A `Filling` gathers bytes and writes each sector that they fill; a `Draining` reads sectors and gives their bytes. A
//! `SectorSink` and a `SectorSource` join one of them to its disk for the time of a call, so that what puts or gets
//! bytes knows of no disk. Never more than one sector is in memory. `stored` of `sector_disk` says which bytes
//! stand in sectors.
#![tactic(auto)]

mod draining;
mod filling;
mod head;
mod laws;
mod layout;
mod sectors;
mod sink;
mod source;

pub use draining::Draining;
pub use filling::Filling;
pub use head::{Head, PastEnd, UNTOLD};
pub use laws::{finding_law, footprint_law, showing_law, standing_law};
pub use layout::{
    AREA_SECTORS, AREAS, FIRST_LAYOUT, IMAGE_SECTORS, JOURNAL_EVENTS, LABEL, LAST_EPOCH, LAYOUT,
    SLOTS, STORE_SECTORS, area_at, area_start, body, gate, image_at, slot_gate, slot_head,
};
pub use sectors::{closed_gate, event_of, has_label, is_open_gate, label, open_gate, put_body};
pub use sink::SectorSink;
pub use source::SectorSource;
