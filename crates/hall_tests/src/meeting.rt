//! Gates at which two members wait for each other.
use seed_jobs::{Gate, JobGate};
use std::sync::atomic::{AtomicU64, Ordering};
use std::thread;

/// How often is looked at most.
const LOOKS: u64 = 10_000_000;

/// Where two members meet.
#[derive(Drop)]
pub struct Meeting {
    arrived: AtomicU64,
    missed: AtomicU64,
}

impl Meeting {
    /// Nobody is there.
    pub fn new() -> Meeting {
        Meeting {
            arrived: AtomicU64::new(0),
            missed: AtomicU64::new(0),
        }
    }

    /// Whether both came, and neither waited in vain.
    pub fn is_held(&self) -> bool {
        self.arrived.load(Ordering::SeqCst) == 2 && self.missed.load(Ordering::SeqCst) == 0
    }

    /// Comes, and waits for the other one.
    fn come(&self) {
        self.arrived.fetch_add(1, Ordering::SeqCst);
        for _ in 0..LOOKS {
            if self.arrived.load(Ordering::SeqCst) >= 2 {
                return;
            }
            thread::yield_now();
        }
        self.missed.fetch_add(1, Ordering::SeqCst);
    }
}

/// A gate that holds its first place until the gate of another member was reached.
#[derive(Drop)]
pub struct MeetingGate<'a> {
    meeting: &'a Meeting,
    has_come: bool,
}

impl<'a> MeetingGate<'a> {
    /// A gate that was not reached yet.
    pub fn new(meeting: &'a Meeting) -> MeetingGate<'a> {
        MeetingGate {
            meeting,
            has_come: false,
        }
    }
}

impl<'a> Gate for MeetingGate<'a> {
    fn at(&mut self, _place: u64) {
        if !self.has_come {
            self.has_come = true;
            self.meeting.come();
        }
    }
}

impl<'a> JobGate for MeetingGate<'a> {
    fn begin(&mut self) {}

    fn end(&mut self) {}
}
