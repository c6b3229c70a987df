//! The messages that wait at a time, of all links.
ghost use Rattle.std.specs.Prelude.{◌≡◌, ◌≤◌, ◌+◌, None, IfSome};

use std::sync::atomic::{AtomicU64, Ordering};

/// How many wait when one more does beside those that wait. None where as many wait as may.
pub fn one_more_waits(waiting: u64, limit: u64) -> Option<u64>
    ensures more { IfSome result (λ n. (n ≡ waiting + 1) × (n ≤ limit)) }
    ensures full { result ≡ None → limit ≤ waiting }
{
    if waiting < limit {
        Some(waiting + 1)
    } else {
        None
    }
}

/// Counts those that wait.
#[derive(Drop)]
pub struct Crowd {
    waiting: AtomicU64,
    limit: u64,
}

impl Crowd {
    /// Nobody waits, of so many that may.
    pub fn new(limit: u64) -> Crowd {
        Crowd {
            waiting: AtomicU64::new(0),
            limit,
        }
    }

    /// Takes a place. False where as many wait as may. Nobody is counted for a moment who finds no place, so that none is turned away
    /// for one that was.
    pub fn enter(&self) -> bool {
        let mut waiting = self.waiting.load(Ordering::SeqCst);
        for _ in 0..u64::MAX {
            let Some(more) = one_more_waits(waiting, self.limit) else {
                return false;
            };
            match self.replace(waiting, more) {
                Ok(_) => return true,
                Err(now) => waiting = now,
            }
        }
        false
    }

    /// Gives a place back.
    pub fn leave(&self) {
        let mut waiting = self.waiting.load(Ordering::SeqCst);
        for _ in 0..u64::MAX {
            match self.replace(waiting, waiting.saturating_sub(1)) {
                Ok(_) => return,
                Err(now) => waiting = now,
            }
        }
    }

    fn replace(&self, old: u64, new: u64) -> Result<u64, u64> {
        self.waiting
            .compare_exchange(old, new, Ordering::SeqCst, Ordering::SeqCst)
    }
}
