//! All jobs of a board, told one after the other.
ghost use Rattle.std.specs.Prelude.{◌≡◌};
ghost use Rattle.job_board.specs.Calls.{IsBoardPass};
ghost use Rattle.job_requests.specs.Served.{AreStatusesServed};

use crate::texts::add_status;
use exact_ratio::Words;
use job_board::{Board, Posts};
use std::alloc::Global;
use std::sync::Wait;
use tile_requests::{Outcome, Plain};
use turnstile::Pass;

/// How many jobs a board has at most in its life.
const JOBS: u64 = 1024;

/// It is looked where each job stands, from the first on, until there is none of the next number. Where memory runs out, the outcome says
/// so.
pub(crate) fn statuses<R: Wait>(
    rt: &R,
    alloc: Global,
    board: &Board,
    pass: &mut Pass<Posts>,
) -> Outcome
    requires of { IsBoardPass board.now.turnstile.table pass.old }
    ensures serves { AreStatusesServed pass.old pass.new result }
    ensures of { IsBoardPass board.now.turnstile.table pass.new }
{
    let mut text = Vec::new(alloc);
    let mut number = 1;
    'looking: while number <= JOBS {
        let Some(status) = board.look(rt, pass, number) else {
            return Outcome::Job(Words::of(text));
        };
        let Ok(()) = add_status(alloc, &mut text, number, &status) else {
            return Outcome::Plain(Plain::NoMemory);
        };
        number += 1;
    }
    Outcome::Job(Words::of(text))
}
