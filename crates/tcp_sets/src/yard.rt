//! The sets that nobody owns, and the workers that wait for one.
use crate::set::Set;
use std::alloc::{AllocError, Global};
use std::collections::VecDeque;
use std::mem;

/// What becomes of a set whose owner gave it up.
#[derive(Drop)]
pub enum GivenUp {
    /// It lies in the yard, for who comes next.
    Lies,
    /// It lies there, and one that waits is to be woken.
    IsCalledFor,
    /// Nobody takes it soon, so that its connections have to go to the sets of others.
    Retires(Box<Set>),
}

/// The sets that nobody owns, and who waits.
#[derive(Drop)]
pub struct Yard {
    /// Those in front are live, those behind are retired.
    sets: VecDeque<Box<Set>>,
    /// How many workers wait for a set. One that was notified is among them until it wakes, so this is compared with how many sets lie
    /// here, and not with 0.
    parked: usize,
    /// How many sets have owners.
    owned: usize,
    /// How many links were given that haven't asked for a set yet.
    fresh: usize,
}

impl Yard {
    /// A yard where no set lies, with room for so many. `AllocError` where memory runs out.
    pub fn new(alloc: Global, sets: usize) -> Result<Yard, AllocError> {
        Ok(Yard {
            sets: VecDeque::with_capacity(alloc, sets)?,
            parked: 0,
            owned: 0,
            fresh: 0,
        })
    }

    /// Notes that a link was given.
    pub fn expect(&mut self) {
        self.fresh = self.fresh.saturating_add(1);
    }

    /// Notes that one has asked for its first set, or has ended without.
    pub fn expect_no_longer(&mut self) {
        self.fresh = self.fresh.saturating_sub(1);
    }

    /// Notes that a worker waits for a set.
    pub fn park(&mut self) {
        self.parked = self.parked.saturating_add(1);
    }

    /// Notes that one does so no longer.
    pub fn unpark(&mut self) {
        self.parked = self.parked.saturating_sub(1);
    }

    /// The set in front, which the caller owns from now on.
    pub fn lend(&mut self) -> Option<Box<Set>> {
        let set = self.sets.pop_front()?;
        self.owned = self.owned.saturating_add(1);
        Some(set)
    }

    /// Takes a set back whose owner gives it up: since it waits, or since its link has ended, so that it goes on with its next one where
    /// links were given.
    pub fn take_back(&mut self, set: Box<Set>, has_ended: bool) -> GivenUp {
        self.owned = self.owned.saturating_sub(1);
        let lying = self.sets.len();
        let coming = if has_ended { self.fresh } else { 0 };
        if self.owned > 0 && lying >= self.parked.saturating_add(coming) {
            return GivenUp::Retires(set);
        }
        // There is room for every set.
        let _ = self.sets.push_front(set);
        if self.parked > 0 && lying >= coming {
            GivenUp::IsCalledFor
        } else {
            GivenUp::Lies
        }
    }

    /// Takes a set without connections, which lies behind the others. Whether one that waits is to be woken. Where memory runs out for
    /// it, it is let go.
    pub fn lay_by(&mut self, set: Box<Set>) -> bool {
        let _ = self.sets.push_back(set);
        self.parked > 0
    }

    /// All sets that lie here, to be emptied by the caller and given back by `lay_by`. They don't count as owned: nobody serves them.
    pub fn clear(&mut self, alloc: Global) -> VecDeque<Box<Set>> {
        mem::replace(&mut self.sets, VecDeque::new(alloc))
    }

    /// Takes a set back at the end of all.
    pub fn close_up(&mut self, set: Box<Set>) {
        self.owned = self.owned.saturating_sub(1);
        self.lay_by(set);
    }
}
