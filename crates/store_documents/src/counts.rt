//! What is counted of a store.

use desktop_definitions::{Entry, MOST_HELD, MOST_WRITTEN};

/// What is counted of a store.
#[derive(Clone, Copy, Debug, PartialEq, Eq)]
pub struct Counts {
    /// How many documents there are, and how many characters they have.
    pub documents: u64,
    pub in_documents: u64,
    /// How many characters the texts of viewers have.
    pub in_viewers: u64,
    /// How many characters count as written.
    pub written: u32,
}

impl Counts {
    /// The counts of a list.
    pub fn of(entries: &[Entry]) -> Counts {
        let mut counts = Counts {
            documents: 0,
            in_documents: 0,
            in_viewers: 0,
            written: 0,
        };
        for entry in entries {
            counts.add(entry);
        }
        counts
    }

    /// Counts an entry.
    fn add(&mut self, entry: &Entry) {
        match entry {
            Entry::File { name: _, len } => {
                self.documents = self.documents.saturating_add(1);
                self.in_documents = self.in_documents.saturating_add(u64::from(*len));
            }
            Entry::Viewer { len, .. } => {
                self.in_viewers = self.in_viewers.saturating_add(u64::from(*len));
            }
            Entry::Written(written) => self.written = *written,
            Entry::Over { .. } => {}
        }
    }

    /// How many characters the store can still hold at most.
    pub fn room(&self) -> u64 {
        u64::from(MOST_HELD).saturating_sub(self.in_documents.saturating_add(self.in_viewers))
    }

    /// How many can still be written before a System.Collect.
    pub fn unwritten(&self) -> u32 {
        MOST_WRITTEN.saturating_sub(self.written)
    }
}
