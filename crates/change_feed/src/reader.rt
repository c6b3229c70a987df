//! The visitor that reads the marks of a file while it is opened.
ghost use Rattle.std.specs.Prelude.{ℕ, [], ◌∷◌, ◌++◌, ◌≡◌, length, List, MatchOption, None};
ghost use Rattle.change_feed.specs.Marks.{IsNext, LeadsTo, StandsAt, last_of};
ghost use Rattle.change_feed.specs.declared.mark.Mark.{Mark};

use crate::bodies::mark_of;
use crate::mark::Mark;
use base::Trace;
use gate_journal::Visit;
use std::alloc::{AllocError, Global};
use std::marker::Model;

/// Reads marks. Contracts see the bodies that it was shown.
#[derive(Drop)]
pub(crate) struct MarkReader {
    /// The last mark; or the slot of the first body that isn't a mark above the one before it.
    found: Result<Option<Mark>, u64>,
    /// How many bodies it was shown.
    count: u64,
    bodies: Trace<[u8; 63]>,
}

impl Model for MarkReader {
    ghost use Rattle.std.specs.Prelude.{ℕ, List};
    ghost use Rattle.change_feed.specs.Marks.{IsReadTo};

    ghost Value = { List (List ℕ) };

    ghost view = { λ r. r.bodies.entries };

    ghost invariant = { λ r. IsReadTo r.bodies.entries r.count r.found };
}

/// The number of a mark, and 0 where there is none.
pub(crate) fn number_of(mark: &Option<Mark>) -> u64
    ensures { result ≡ last_of mark.now }
{
    match mark {
        Some(mark) => mark.number,
        None => 0,
    }
}

/// The mark that a body spells, where it is above the last one.
#[tactic(auto, using(crate::proofs::Following::none_next, crate::proofs::Following::low_next))]
fn next_of(last: &Option<Mark>, body: &[u8; 63]) -> Option<Mark>
    ensures { MatchOption result ((next : Mark) → IsNext last.now body.now next → ⊥) (IsNext last.now body.now) }
{
    match mark_of(body) {
        None => None,
        Some(mark) => {
            if mark.number > number_of(last) {
                Some(mark)
            } else {
                None
            }
        }
    }
}

/// What bodies that lead to a mark lead to with one more, in this slot.
fn with_next(last: Option<Mark>, slot: u64, body: &[u8; 63]) -> Result<Option<Mark>, u64>
    ensures { (bodies : List (List ℕ)) → slot ≡ length bodies → LeadsTo None bodies last → StandsAt (bodies ++ body.now ∷ []) result }
{
    match next_of(&last, body) {
        Some(mark) => Ok(Some(mark)),
        None => Err(slot),
    }
}

/// What was found with one more body, in this slot.
fn found_with(
    found: Result<Option<Mark>, u64>,
    slot: u64,
    body: &[u8; 63],
) -> Result<Option<Mark>, u64>
    ensures { (bodies : List (List ℕ)) → slot ≡ length bodies → StandsAt bodies found → StandsAt (bodies ++ body.now ∷ []) result }
{
    match found {
        Ok(last) => with_next(last, slot, body),
        Err(bad) => Err(bad),
    }
}

impl MarkReader {
    /// No body was shown yet.
    pub(crate) fn new() -> MarkReader
        ensures { result ≡ [] }
    {
        MarkReader {
            found: Ok(None),
            count: 0,
            bodies: Trace::new(),
        }
    }

    /// The last mark; or the slot, counted from 0, of the first body that isn't a mark above the one before it.
    pub(crate) fn found(self) -> Result<Option<Mark>, u64>
        ensures { StandsAt self result }
    {
        self.found
    }
}

impl Visit for MarkReader {
    ghost visits = { λ slot body old new. new ≡ old ++ body ∷ [] };

    ghost leaves = { λ old new. new ≡ old };

    fn body(&mut self, _: Global, _: u64, body: &[u8; 63]) -> Result<(), AllocError> {
        if self.count == u64::MAX {
            return Err(AllocError);
        }
        self.found = found_with(self.found, self.count, body);
        self.count += 1;
        self.bodies = self.bodies.and(body);
        Ok(())
    }
}
