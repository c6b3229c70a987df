//! How many steps came to what they expect.
use std::fmt;

/// The steps of a case, or of all cases: how many ran, and how many came to what they expect.
#[derive(Clone, Copy)]
pub struct Tally {
    steps: u64,
    agreed: u64,
}

impl Tally {
    /// No step yet.
    pub fn new() -> Tally {
        Tally {
            steps: 0,
            agreed: 0,
        }
    }

    /// Counts a step.
    pub fn count(&mut self, agrees: bool) {
        self.steps = self.steps.saturating_add(1);
        self.agreed = self.agreed.saturating_add(u64::from(agrees));
    }

    /// Counts the steps of another tally.
    pub fn add(&mut self, other: Tally) {
        self.steps = self.steps.saturating_add(other.steps);
        self.agreed = self.agreed.saturating_add(other.agreed);
    }

    /// Whether there are steps, and all of them came to what they expect.
    pub fn is_whole(&self) -> bool {
        self.steps > 0 && self.agreed == self.steps
    }
}

impl fmt::Display for Tally {
    fn fmt<W: fmt::Write>(&self, f: &mut fmt::Formatter<W>) -> fmt::Result {
        let agreed = self.agreed;
        let steps = self.steps;
        write!(f, "{agreed} of {steps} steps agree")
    }
}
