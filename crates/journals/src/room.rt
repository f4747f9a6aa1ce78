//! How many lines are on their way.

use std::sync::atomic::{AtomicU64, Ordering};

/// How many lines wait to be written at most.
pub const MAX_LINES: u64 = 1_024;

/// How many lines wait to be written, and how many found no room and have not been told of yet.
#[derive(Drop)]
pub struct Room {
    waiting: AtomicU64,
    dropped: AtomicU64,
}

impl Room {
    /// Makes room for all lines that may wait.
    pub fn new() -> Self {
        Room {
            waiting: AtomicU64::new(0),
            dropped: AtomicU64::new(0),
        }
    }

    /// Says whether there is room for a line, which has it then. A line that finds none is counted.
    pub(crate) fn take(&self) -> bool {
        if self.waiting.fetch_add(1, Ordering::SeqCst) < MAX_LINES {
            return true;
        }
        self.lose(1);
        false
    }

    /// Gives the room of a line back that was written.
    pub(crate) fn give_back(&self) {
        self.waiting.fetch_sub(1, Ordering::SeqCst);
    }

    /// Gives the room of a line back, and counts so many that are dropped.
    pub(crate) fn lose(&self, count: u64) {
        self.give_back();
        self.dropped.fetch_add(count, Ordering::SeqCst);
    }

    /// Gives how many lines were dropped since this was asked last.
    pub(crate) fn take_dropped(&self) -> u64 {
        self.dropped.swap(0, Ordering::SeqCst)
    }
}
