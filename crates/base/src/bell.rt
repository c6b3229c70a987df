//! A bell for threads that wait until another one has done something.
//!
//! Who waits reads how often the bell was rung, looks whether what it waits for has come, and otherwise sleeps until the next ring; a
//! ring between the reading and the sleep ends it at once, so that none is missed. A sleep may be for a time, too. No clause says that a
//! sleeper wakes.
use std::sync::atomic::{AtomicU64, Ordering};
use std::sync::{Condvar, Mutex, Wait};
use std::time::{Clock, Duration};

/// What is rung for those that sleep.
#[derive(Drop)]
pub struct Bell {
    /// How often it was rung.
    rings: AtomicU64,
    sleepers: AtomicU64,
    door: Mutex<()>,
    rung: Condvar,
}

impl Bell {
    /// A bell that was never rung.
    pub fn new() -> Bell {
        Bell {
            rings: AtomicU64::new(0),
            sleepers: AtomicU64::new(0),
            door: Mutex::new(()),
            rung: Condvar::new(),
        }
    }

    /// How often it was rung. To be read before the look after which the caller may sleep.
    pub fn rings(&self) -> u64 {
        self.rings.load(Ordering::SeqCst)
    }

    /// Sleeps until the bell is rung, unless it was rung since `heard` was read.
    pub fn sleep<R: Wait>(&self, rt: &R, heard: u64) {
        let guard = self.door.lock(rt);
        self.sleepers.fetch_add(1, Ordering::SeqCst);
        if self.rings() == heard {
            drop(self.rung.wait(rt, guard));
        }
        self.sleepers.fetch_sub(1, Ordering::SeqCst);
    }

    /// Sleeps until the bell is rung, unless it was rung since `heard` was read, but for no longer than so many milliseconds. Where the
    /// clock can't be read it may sleep until the next ring.
    pub fn sleep_for<R: Wait + Clock>(&self, rt: &R, heard: u64, milliseconds: u64) {
        let guard = self.door.lock(rt);
        self.sleepers.fetch_add(1, Ordering::SeqCst);
        if self.rings() == heard {
            let time = Duration::from_millis(milliseconds);
            let (guard, _) = self.rung.wait_timeout(rt, guard, time);
            drop(guard);
        }
        self.sleepers.fetch_sub(1, Ordering::SeqCst);
    }

    /// Rings for one of the sleepers. Where nobody sleeps it takes no lock.
    pub fn ring_one<R: Wait>(&self, rt: &R) {
        if self.has_sleepers_after_ring(rt) {
            self.rung.notify_one();
        }
    }

    /// Rings for all sleepers. Where nobody sleeps it takes no lock.
    pub fn ring_all<R: Wait>(&self, rt: &R) {
        if self.has_sleepers_after_ring(rt) {
            self.rung.notify_all();
        }
    }

    /// Counts a ring. Whether somebody sleeps, or is about to: who counted itself has then let the door go, so that it hears what is
    /// notified from now on, and who is woken finds the door open.
    fn has_sleepers_after_ring<R: Wait>(&self, rt: &R) -> bool {
        self.rings.fetch_add(1, Ordering::SeqCst);
        if self.sleepers.load(Ordering::SeqCst) == 0 {
            return false;
        }
        drop(self.door.lock(rt));
        true
    }
}
