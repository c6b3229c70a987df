//! A new sheet with two hands, and its watch.
ghost use Rattle.std.specs.Prelude.{◌≡◌, ◌≤◌, IfOk, IfSome, None, Some};
ghost use Rattle.job_board.specs.Hands.{fresh_holding};

use job_board::{Desk, Hand, JobSheet};
use std::alloc::{AllocError, Global};

/// A sheet with two hands, and its watch.
#[derive(Drop)]
pub struct Pair {
    pub sheet: JobSheet,
    pub first: Hand,
    pub second: Hand,
    pub watch: Hand,
}

/// A new sheet of so many places.
pub fn new_pair(alloc: Global, places: u64) -> Result<Option<Pair>, AllocError>
    requires { places ≤ 10000000 }
    ensures size { IfOk result (λ o. IfSome o (λ p. (p.sheet.places ≡ places) × (p.sheet.hands ≡ 2))) }
    ensures fresh { IfOk result (λ o. IfSome o (λ p. (p.first ≡ fresh_holding p.sheet (Some 0)) × (p.second ≡ fresh_holding p.sheet (Some 1)) × (p.watch ≡ fresh_holding p.sheet None))) }
{
    let Desk {
        sheet,
        hands,
        watch,
    } = JobSheet::make(alloc, places, 2)?;
    let mut hands = hands;
    let Some(second) = hands.pop() else {
        return Ok(None);
    };
    let Some(first) = hands.pop() else {
        return Ok(None);
    };
    Ok(Some(Pair {
        sheet,
        first,
        second,
        watch,
    }))
}
