//! Requests by what they came to.
use crate::counter::Counter;
use crate::kinds::Outcome;

/// The requests of a layer.
#[derive(Drop)]
pub struct Outcomes {
    hits: Counter,
    misses: Counter,
    refusals: Counter,
    faults: Counter,
}

/// The same as numbers.
#[derive(Clone, Copy, PartialEq, Eq)]
pub struct OutcomeTally {
    pub hits: u64,
    pub misses: u64,
    pub refusals: u64,
    pub faults: u64,
}

impl Outcomes {
    /// No request has come.
    pub fn new() -> Outcomes {
        Outcomes {
            hits: Counter::new(),
            misses: Counter::new(),
            refusals: Counter::new(),
            faults: Counter::new(),
        }
    }

    /// A request came to this.
    pub fn add(&self, outcome: Outcome) {
        match outcome {
            Outcome::Hit => self.hits.add(1),
            Outcome::Miss => self.misses.add(1),
            Outcome::Refusal => self.refusals.add(1),
            Outcome::Fault => self.faults.add(1),
        }
    }

    /// The counts as they stand.
    pub fn tally(&self) -> OutcomeTally {
        OutcomeTally {
            hits: self.hits.count(),
            misses: self.misses.count(),
            refusals: self.refusals.count(),
            faults: self.faults.count(),
        }
    }
}

impl OutcomeTally {
    /// No request has come.
    pub fn new() -> OutcomeTally {
        OutcomeTally {
            hits: 0,
            misses: 0,
            refusals: 0,
            faults: 0,
        }
    }

    /// Adds what another worker counted. A count stays at 2^64 - 1.
    pub fn add(&mut self, other: &OutcomeTally) {
        self.hits = self.hits.saturating_add(other.hits);
        self.misses = self.misses.saturating_add(other.misses);
        self.refusals = self.refusals.saturating_add(other.refusals);
        self.faults = self.faults.saturating_add(other.faults);
    }
}
