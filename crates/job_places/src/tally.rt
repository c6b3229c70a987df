//! How the places of a job ended, counted.
ghost use Rattle.std.specs.Prelude.{◌+◌, ◌<◌, ◌≡◌, ◌≤◌};
ghost use Rattle.job_places.specs.Tallies.{one_more};

use crate::place::PlaceEnd;

/// How many places were visited, how many of them are done, how many failed, and how many of those done could not be kept.
#[derive(Clone, Copy, PartialEq, Eq)]
pub struct Tally {
    pub places: u64,
    pub done: u64,
    pub failed: u64,
    pub unkept: u64,
}

impl Tally {
    /// The tally of no places.
    pub fn new() -> Tally
        ensures { result ≡ record { places = 0; done = 0; failed = 0; unkept = 0 } }
    {
        Tally {
            places: 0,
            done: 0,
            failed: 0,
            unkept: 0,
        }
    }

    /// One place more, which ended so.
    pub fn and(self, end: &PlaceEnd) -> Tally
        requires { (self.places < 10000000) × (self.done + self.failed ≤ self.places) × (self.unkept ≤ self.done) }
        ensures { result ≡ one_more end.now self }
    {
        let places = self.places + 1;
        match end {
            PlaceEnd::Done => Tally {
                places,
                done: self.done + 1,
                failed: self.failed,
                unkept: self.unkept,
            },
            PlaceEnd::Unkept => Tally {
                places,
                done: self.done + 1,
                failed: self.failed,
                unkept: self.unkept + 1,
            },
            PlaceEnd::Failed(_) => Tally {
                places,
                done: self.done,
                failed: self.failed + 1,
                unkept: self.unkept,
            },
        }
    }
}
