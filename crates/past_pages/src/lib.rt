//! The pages of a past, as they stand behind a store: their bytes, made and read, and the parts in which they lie; and a
//! store behind a store, which is laid in memory.
//!
//! `specs/Page.antt` says what a page is. What pages mean, one after another, is `desk_past`'s: nothing here steps an event.
#![tactic(auto)]

mod copies;
mod documents;
mod laying;
mod page;
mod pages;
mod parts;
mod sectors;

pub use copies::{copy_at, copy_in, copy_page};
pub use laying::lay;
pub use page::{
    EVENTS_PAGE, FAR_PAGE, IMPORT_PAGE, MARK_PAGE, PAGE_FRONT, TURN_PAGE, import_page, page_read,
    sectors_for, turn_page,
};
pub use pages::{PageDeeds, PageFront, PageKind, PageRead, front_at, front_in, page_at, page_in};
pub use parts::{
    BARE_PART, FULL_PART, LEAST_ROOM, PART_SECTORS, PARTS, PAST_SECTORS, Part, goes_on_in,
    has_parts, part_at, part_base, part_count,
};
pub use sectors::{bytes_at, is_blank, is_copied, sector_at, zeros};
