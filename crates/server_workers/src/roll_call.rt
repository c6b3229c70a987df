//! Whether a server's threads can be made, before the first link is asked for.
//!
//! A `join` runs a closure for which no thread can be made last, behind the one beside it. Here one that accepts links for workers that are
//! not there would wait for ever. No clause speaks of it: which threads a system grants, contracts don't know.
use base::Bell;
use std::sync::Wait;
use std::sync::atomic::{AtomicBool, Ordering};
use std::thread;
use std::thread::Threads;

/// What holds threads until all of them were made that can be.
#[derive(Drop)]
struct RollCall {
    is_over: AtomicBool,
    ended: Bell,
}

impl RollCall {
    fn new() -> RollCall {
        RollCall {
            is_over: AtomicBool::new(false),
            ended: Bell::new(),
        }
    }

    /// Waits until it is over.
    fn answer<R: Wait>(&self, rt: &R) {
        for _ in rt.forever() {
            let heard = self.ended.rings();
            if self.is_over.load(Ordering::SeqCst) {
                return;
            }
            self.ended.sleep(rt, heard);
        }
    }

    fn end<R: Wait>(&self, rt: &R) {
        self.is_over.store(true, Ordering::SeqCst);
        self.ended.ring_all(rt);
    }
}

/// Whether so many threads can be made beside those that are. They are made, all at a time, and end at once.
pub(crate) fn can_make<R: Threads + Wait + Sync>(rt: &R, count: u32) -> bool {
    let call = RollCall::new();
    let shared = &call;
    thread::scope(thread::scope_env(), rt, |scope| {
        let mut all = true;
        for _ in 0..count {
            all = all && scope.spawn(move || shared.answer(rt)).is_ok();
        }
        shared.end(rt);
        all
    })
}
