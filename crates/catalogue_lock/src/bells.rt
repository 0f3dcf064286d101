//! The bells by which threads sleep until their tickets are served.
use std::sync::atomic::AtomicU64;
use std::sync::atomic::Ordering::SeqCst;

/// How many bells there are. So many threads wait with a bell of their own each.
const BELLS: usize = 64;

/// A bell for each ticket: the tickets take them in turn. A bell counts how often it was rung.
#[derive(Drop)]
pub(crate) struct Bells {
    rung: [AtomicU64; BELLS],
}

impl Bells {
    /// Bells that were never rung.
    pub(crate) fn new() -> Bells {
        Bells {
            rung: Default::default(),
        }
    }

    /// The bell of this ticket.
    pub(crate) fn of(&self, ticket: u64) -> &AtomicU64 {
        &self.rung[ticket as usize % BELLS]
    }

    /// Rings the bell of this ticket, which wakes the threads that sleep by it.
    pub(crate) fn ring(&self, ticket: u64) {
        let bell = self.of(ticket);
        bell.fetch_add(1, SeqCst);
        bell.wake_all();
    }
}
