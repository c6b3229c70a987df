//! One count.
use std::sync::atomic::{AtomicU64, Ordering};

/// A count that any thread raises and reads. After 2^64 - 1 it begins again at 0.
#[derive(Drop)]
pub struct Counter {
    count: AtomicU64,
}

impl Counter {
    /// Nothing is counted yet.
    pub fn new() -> Counter {
        Counter {
            count: AtomicU64::new(0),
        }
    }

    /// Counts so many more.
    pub fn add(&self, more: u64) {
        self.count.fetch_add(more, Ordering::SeqCst);
    }

    /// How many were counted.
    pub fn count(&self) -> u64 {
        self.count.load(Ordering::SeqCst)
    }
}
