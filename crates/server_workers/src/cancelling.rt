//! How the jobs of a server are cancelled at its end.
ghost use Rattle.job_board.specs.Calls.{IsBoardPass};
ghost use Rattle.server_workers.specs.Cancelled.{HasStoppedTo};

use job_board::{Board, BoardPass};
use std::sync::Wait;

/// How many jobs a board takes at most.
const JOBS: u64 = 1024;

/// Cancels each job of a board, whether it runs or waits.
pub(crate) fn cancel_all<R: Wait>(rt: &R, board: &Board, pass: &mut BoardPass)
    requires of { IsBoardPass board.now.turnstile.table pass.old }
    ensures of { IsBoardPass board.now.turnstile.table pass.new }
    ensures stops { HasStoppedTo 1024 pass.old pass.new }
{
    'cancelling: for index in 0..JOBS {
        let _ = board.stop(rt, pass, index + 1);
    }
}
