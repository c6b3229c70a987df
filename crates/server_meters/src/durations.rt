//! How long something took, by bounds.
use crate::counter::Counter;

/// The bounds, in microseconds: what took longer than the last is counted behind them.
pub(crate) const BOUNDS: [u64; 10] = [
    1_000, 3_000, 10_000, 30_000, 100_000, 300_000, 1_000_000, 3_000_000, 10_000_000, 30_000_000,
];

/// How often something took so long.
#[derive(Drop)]
pub struct Durations {
    within: [Counter; 11],
    micros: Counter,
}

/// The same as numbers.
#[derive(Clone, Copy, PartialEq, Eq)]
pub struct DurationTally {
    /// How many took at most as long as the bound at this place, and longer than the one before it. The last took longer than each bound.
    pub within: [u64; 11],
    /// How long all took together, in microseconds.
    pub micros: u64,
}

/// The place of the first bound that isn't passed, or 10 where all are.
fn place_of(micros: u64) -> usize {
    for place in 0..BOUNDS.len() {
        if micros <= BOUNDS[place] {
            return place;
        }
    }
    BOUNDS.len()
}

impl Durations {
    /// Nothing has taken any time yet.
    pub fn new() -> Durations {
        Durations {
            within: [
                Counter::new(),
                Counter::new(),
                Counter::new(),
                Counter::new(),
                Counter::new(),
                Counter::new(),
                Counter::new(),
                Counter::new(),
                Counter::new(),
                Counter::new(),
                Counter::new(),
            ],
            micros: Counter::new(),
        }
    }

    /// Something took so many microseconds.
    pub fn add(&self, micros: u64) {
        if let Some(counter) = self.within.get(place_of(micros)) {
            counter.add(1);
        }
        self.micros.add(micros);
    }

    /// The counts as they stand.
    pub fn tally(&self) -> DurationTally {
        let mut within = [0; 11];
        for place in 0..within.len() {
            if let Some(counter) = self.within.get(place) {
                within[place] = counter.count();
            }
        }
        DurationTally {
            within,
            micros: self.micros.count(),
        }
    }
}

impl DurationTally {
    /// Nothing has taken any time.
    pub fn new() -> DurationTally {
        DurationTally {
            within: [0; 11],
            micros: 0,
        }
    }

    /// Adds what another worker counted. A count stays at 2^64 - 1.
    pub fn add(&mut self, other: &DurationTally) {
        for place in 0..11usize {
            self.within[place] = self.within[place].saturating_add(other.within[place]);
        }
        self.micros = self.micros.saturating_add(other.micros);
    }

    /// How many there were.
    pub fn count(&self) -> u64 {
        let mut count = 0u64;
        for place in 0..11usize {
            count = count.saturating_add(self.within[place]);
        }
        count
    }
}
