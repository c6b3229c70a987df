//! The counts of requests.
use std::sync::atomic::{AtomicU64, Ordering};

/// The requests of a server, counted by those that serve them.
#[derive(Drop)]
pub struct Traffic {
    begun: AtomicU64,
    served: AtomicU64,
}

impl Traffic {
    /// No request has come.
    pub fn new() -> Traffic {
        Traffic {
            begun: AtomicU64::new(0),
            served: AtomicU64::new(0),
        }
    }

    /// A request has come, and is going to be served.
    pub fn begin(&self) {
        self.begun.fetch_add(1, Ordering::SeqCst);
    }

    /// A request that had begun was served.
    pub fn end(&self) {
        self.served.fetch_add(1, Ordering::SeqCst);
    }

    /// How many requests have begun.
    pub fn begun(&self) -> u64 {
        self.begun.load(Ordering::SeqCst)
    }

    /// Whether no request has begun since `heard` was read of `begun`, and none is being served.
    pub fn is_quiet_since(&self, heard: u64) -> bool {
        let served = self.served.load(Ordering::SeqCst);
        let begun = self.begun.load(Ordering::SeqCst);
        begun == heard && served == begun
    }
}
