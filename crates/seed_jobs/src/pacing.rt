//! How a job is paced: while requests are served, the members of its crew rest together, longer than they worked.
//!
//! A place of a job takes processors, and a cabinet on a disk has no turn for others while it writes. So after each place, where requests
//! came meanwhile, the whole crew rests, so that requests have most of the time for themselves; where none comes, nobody rests.
use crate::gate::Gate;
use crate::gates::JobGate;
use base::Traffic;
use std::sync::atomic::{AtomicU64, Ordering};
use std::thread;
use std::time::{Clock, Duration};

/// How long the crew rests for a place, in halves of the time that it took.
const HALVES: u64 = 5;

/// The longest rest that is taken for a place, in microseconds.
const LONGEST_REST: u64 = 2_000_000;

/// The longest time between two looks whether requests still come, in microseconds.
const STEP: u64 = 5_000;

/// How often a member looks at most at one place: a rest may grow while others end their work.
const LOOKS: u64 = 2 * LONGEST_REST / STEP;

/// The time in microseconds, on a clock that never goes back. A clock that can't be read stands still.
fn micros<R: Clock>(clock: &R) -> u64 {
    match clock.monotonic() {
        Ok(time) => u64::try_from(time.as_micros()).unwrap_or(u64::MAX),
        Err(_) => 0,
    }
}

/// Until when the members of a crew rest. They share it.
#[derive(Drop)]
pub struct Pace {
    /// In microseconds of the clock.
    rests_until: AtomicU64,
}

impl Pace {
    /// Nobody rests.
    pub fn new() -> Pace {
        Pace {
            rests_until: AtomicU64::new(0),
        }
    }

    /// All rest for a place at which a member worked so long until now.
    fn rest_for(&self, worked: u64, now: u64) {
        let rest = (worked.min(LONGEST_REST) * HALVES / 2).min(LONGEST_REST);
        self.rests_until
            .fetch_max(now.saturating_add(rest), Ordering::SeqCst);
    }

    /// How long they rest from now on.
    fn time_left(&self, now: u64) -> u64 {
        self.rests_until.load(Ordering::SeqCst).saturating_sub(now)
    }
}

/// The gate of a member that rests after a place where requests came meanwhile, two and a half times as long as the place took and two
/// seconds at most, unless no more requests come.
#[derive(Drop)]
pub struct PacedGate<'a, R: Clock> {
    clock: &'a R,
    traffic: &'a Traffic,
    pace: &'a Pace,
    /// How many requests had begun at the last look.
    heard: u64,
    /// Whether a place of the job was let through, when the last one was, and how long one took at most, in microseconds.
    has_worked: bool,
    passed: u64,
    longest: u64,
}

impl<'a, R: Clock> PacedGate<'a, R> {
    /// A gate of a member without a job.
    pub fn new(clock: &'a R, traffic: &'a Traffic, pace: &'a Pace) -> PacedGate<'a, R> {
        PacedGate {
            clock,
            traffic,
            pace,
            heard: traffic.begun(),
            has_worked: false,
            passed: 0,
            longest: 0,
        }
    }

    /// Whether requests came since the last look, or are being served.
    fn is_busy(&mut self) -> bool {
        let heard = self.heard;
        self.heard = self.traffic.begun();
        !self.traffic.is_quiet_since(heard)
    }

    /// How long the member has worked at its last place until now, 0 where the job has given it none.
    fn time_worked(&self, now: u64) -> u64 {
        if self.has_worked {
            now.saturating_sub(self.passed)
        } else {
            0
        }
    }

    /// Rests with the others, unless no more requests come.
    fn rest(&mut self) {
        for _ in 0..LOOKS {
            let left = self.pace.time_left(micros(self.clock));
            if left == 0 {
                return;
            }
            thread::sleep(self.clock, Duration::from_micros(left.min(STEP)));
            if !self.is_busy() {
                return;
            }
        }
    }
}

impl<'a, R: Clock> Gate for PacedGate<'a, R> {
    fn at(&mut self, _place: u64) {
        let now = micros(self.clock);
        let worked = self.time_worked(now);
        self.longest = self.longest.max(worked);
        if self.is_busy() {
            self.pace.rest_for(worked, now);
            self.rest();
        }
        self.has_worked = true;
        self.passed = micros(self.clock);
    }
}

impl<'a, R: Clock> JobGate for PacedGate<'a, R> {
    fn begin(&mut self) {
        self.has_worked = false;
        self.longest = 0;
    }

    /// The members of the next job rest for the last place, too. The others may have worked on since that was done, so it counts no longer
    /// than the places before.
    fn end(&mut self) {
        let now = micros(self.clock);
        let mut worked = self.time_worked(now);
        if self.longest > 0 {
            worked = worked.min(self.longest);
        }
        if self.is_busy() {
            self.pace.rest_for(worked, now);
        }
    }
}
