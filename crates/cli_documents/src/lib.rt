//! What a person asks of a store's file from the shell: documents out (`exporting`), a list of them (`listing`), what can
//! be taken back (`history`), the past behind a store (`pasts`), and how a store is (`checking`). A past is told by
//! `told_pasts`, and texts that no document has are found by `unstored_texts`; a store is copied by the crate `cli_copies`,
//! and documents come in by `cli_imports`. Their bytes, and the store, are the matter of `store_documents`; what is refused
//! is said in one sentence here (`sentences`) or there. No function has many exits while it owns memory, since such exits are what a
//! proof costs.
#![tactic(auto)]

mod checking;
mod exporting;
mod history;
mod listing;
mod pasts;
mod sentences;

pub use checking::check;
pub use exporting::{Putting, export_all, export_names};
pub use history::{earlier, events_back};
pub use listing::{list, list_json};
pub use pasts::{events_all, forget_past};
pub use sentences::word_of;
