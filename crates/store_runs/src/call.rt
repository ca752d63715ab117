//! What is asked of a store.

use desk_journal::Error;
use desktop_definitions::Reply;
use event_bytes::Event;

/// A call that changes a store.
#[derive(Drop)]
pub enum StoreCall {
    /// An event is posted.
    Post(Event),
    /// The desktop is put into the other slot.
    Checkpoint,
}

/// What such a call returns. A checkpoint that succeeds is answered `Done`.
pub type StoreAnswer = Result<Reply, Error>;
