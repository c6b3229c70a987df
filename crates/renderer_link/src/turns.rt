//! How many renders are asked for at a time.
//!
//! Who comes when no turn is left waits for one. No clause says how many have one, nor that who waits gets one.
use std::sync::{Condvar, Mutex, Wait};

/// The turns that are left, for those who ask.
#[derive(Drop)]
pub struct RenderTurns {
    left: Mutex<u32>,
    given_back: Condvar,
}

impl RenderTurns {
    /// So many turns.
    pub fn new(count: u32) -> RenderTurns {
        RenderTurns {
            left: Mutex::new(count),
            given_back: Condvar::new(),
        }
    }

    /// Takes a turn, for which it waits where none is left.
    pub fn take<R: Wait>(&self, rt: &R) {
        let mut left = self
            .given_back
            .wait_while(rt, self.left.lock(rt), |left| *left == 0);
        *left -= 1;
    }

    /// Gives a turn back, and wakes one that waits for it.
    pub fn give_back<R: Wait>(&self, rt: &R) {
        let mut left = self.left.lock(rt);
        *left = left.saturating_add(1);
        drop(left);
        self.given_back.notify_one();
    }
}
