//! What a look at a job finds.
ghost use Rattle.std.specs.Prelude.{◌≡◌};
ghost use Rattle.job_board.specs.Boards.{state_of};

use crate::progress::Progress;
use job_forms::JobKind;

/// Where a job stands.
#[derive(Clone, Copy, PartialEq, Eq)]
pub enum JobState {
    /// It was submitted, and not yet taken to be run.
    Waiting,
    /// It was taken to be run, and the board was not yet told of its end.
    Running,
    /// It has ended, and none of its places is left.
    Done,
    /// It has ended early: it was cancelled, and places are left.
    Cancelled,
}

/// A job as a look finds it: what it does, where it stands, and how far it is.
#[derive(Clone, Copy, PartialEq, Eq)]
pub struct JobStatus {
    pub kind: JobKind,
    pub state: JobState,
    pub progress: Progress,
}

/// Where a job stands that waits or doesn't, has ended or not, and is so far.
pub(crate) fn state_of(is_waiting: bool, has_ended: bool, progress: &Progress) -> JobState
    ensures { result ≡ state_of is_waiting has_ended progress.now }
{
    if is_waiting {
        return JobState::Waiting;
    }
    if !has_ended {
        return JobState::Running;
    }
    if u128::from(progress.done) + u128::from(progress.failed) == u128::from(progress.places) {
        return JobState::Done;
    }
    JobState::Cancelled
}
