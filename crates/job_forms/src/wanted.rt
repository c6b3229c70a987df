//! What a cover wants of a style or of a dimension.
ghost use Rattle.std.specs.Prelude.{◌≡◌, ◌<◌, ◌≤◌, Some, length, slice_get};
ghost use Rattle.job_forms.specs.Steps.{IsPicked, numbers};

/// The numbers that a cover wants: one alone, or all below a count.
#[derive(Clone, Copy, PartialEq, Eq)]
pub struct Wanted {
    /// How many numbers there are.
    pub below: u32,
    /// The one that is wanted; `None` for all of them.
    pub only: Option<u32>,
}

/// A number that is wanted, picked by a place among many.
#[derive(Clone, Copy, PartialEq, Eq)]
pub struct PickedNumber {
    pub number: u32,
    /// How often all numbers went round before the place.
    pub rounds: u128,
}

impl Wanted {
    /// How many numbers are wanted.
    #[tactic(auto, using(crate::proofs::Pieces::range_length), unfolding(crate::specs::Steps::numbers))]
    pub fn count(self) -> u64
        ensures { result ≡ length (numbers self) }
    {
        match self.only {
            None => u64::from(self.below),
            Some(_) => 1,
        }
    }

    /// The wanted number at this place.
    #[tactic(auto, using(crate::proofs::Pieces::range_length, crate::proofs::Pieces::get_below), unfolding(crate::specs::Steps::numbers))]
    pub fn at(self, place: u128) -> u32
        requires { place < length (numbers self) }
        ensures { slice_get (numbers self) place ≡ Some result }
    {
        match self.only {
            None => {
                prove!(place < u128::from(self.below));
                place as u32
            }
            Some(number) => number,
        }
    }

    /// Picks the wanted number at a place of a list in which these numbers go round and round.
    pub fn pick(self, place: u128) -> PickedNumber
        requires { 1 ≤ length (numbers self) }
        ensures { IsPicked (numbers self) place result.number result.rounds }
    {
        let count = u128::from(self.count());
        PickedNumber {
            number: self.at(place % count),
            rounds: place / count,
        }
    }
}
