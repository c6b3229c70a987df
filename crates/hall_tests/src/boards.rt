//! A job on a board: submitted, posted and looked at.
ghost use Rattle.job_board.specs.Calls.{IsBoardPass};

use crate::stage::{PLACES, board_of, seed};
use job_board::{Board, BoardPass, JobState, JobStatus, Progress};
use job_forms::JobKind;
use std::alloc::Global;
use std::sync::Wait;
use std::test::Fail;

/// Whether the first job of a board is posted once, with a hand for each of its three threads.
fn is_posted_once<R: Wait>(rt: &R, alloc: Global, board: &Board, pass: &mut BoardPass) -> bool
    requires { IsBoardPass board.now.turnstile.table pass.old }
{
    if board.submit(rt, alloc, pass, seed(3), PLACES) != Ok(1) {
        return false;
    }
    let Some(posted) = board.next(rt, pass) else {
        return false;
    };
    let is_it = posted.number == 1 && posted.job == seed(3) && posted.hands.len() == 3;
    is_it && board.next(rt, pass).is_none()
}

/// Whether the first job is told to run while nothing of it was claimed, and there is no second one.
fn is_untouched<R: Wait>(rt: &R, board: &Board, pass: &mut BoardPass) -> bool
    requires { IsBoardPass board.now.turnstile.table pass.old }
{
    let untouched = JobStatus {
        kind: JobKind::Seed,
        state: JobState::Running,
        progress: Progress {
            places: PLACES,
            claimed: 0,
            done: 0,
            failed: 0,
            unkept: 0,
            cancelled: false,
        },
    };
    let first = board.look(rt, pass, 1);
    let second = board.look(rt, pass, 2);
    let stopped = board.stop(rt, pass, 2);
    first == Some(untouched) && second.is_none() && !stopped
}

/// Whether a job of a new board is posted once, by one pass, and looked at by another one.
fn is_shared<R: Wait>(rt: &R, alloc: Global) -> bool {
    let Ok(Some((board, mut submitting, mut looking))) = board_of(alloc) else {
        return false;
    };
    is_posted_once(rt, alloc, &board, &mut submitting) && is_untouched(rt, &board, &mut looking)
}

#[test]
fn a_job_is_posted_once_and_looked_at_by_another_pass(rt: HostRuntime) -> Result<(), Fail> {
    assert!(rt; is_shared(&rt, rt.alloc()));
    Ok(())
}
