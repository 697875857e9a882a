//! How far a command is.

use std::sync::atomic::{AtomicU64, Ordering};

/// How far a command is, for another thread to look at.
#[derive(Drop)]
pub struct ProgressCounter {
    done: AtomicU64,
    all: AtomicU64,
}

impl ProgressCounter {
    /// Nothing is done, and how much there is to do is not known.
    pub fn new() -> ProgressCounter {
        ProgressCounter {
            done: AtomicU64::new(0),
            all: AtomicU64::new(0),
        }
    }

    /// How many items are done.
    pub fn items_done(&self) -> u64 {
        self.done.load(Ordering::SeqCst)
    }

    /// How many items there are, if that is known. `None` also if there are no items.
    pub fn known_total(&self) -> Option<u64> {
        match self.all.load(Ordering::SeqCst) {
            0 => None,
            all => Some(all),
        }
    }

    /// There are `all` items, and none of them is done yet. If `all` is 0, their number counts as not known.
    pub fn restart_with_total(&self, all: usize) {
        self.done.store(0, Ordering::SeqCst);
        self.all.store(all as u64, Ordering::SeqCst);
    }

    /// So many more items are done.
    pub fn add(&self, count: usize) {
        self.done.fetch_add(count as u64, Ordering::SeqCst);
    }
}
