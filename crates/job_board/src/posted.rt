//! A job that is to be run.
ghost use Rattle.std.specs.Prelude.{◌≡◌, None};
ghost use Rattle.job_board.specs.Hands.{AreFresh};

use crate::hand::Hand;
use crate::sheet::JobSheet;
use job_forms::Job;
use std::sync::Arc;

/// A job with what it takes to run it: its number, its sheet, which the board shares, and all hands of the sheet, none of which has
/// claimed a place or met None. There are as many hands as the job has threads.
#[derive(Drop)]
pub struct Posted {
    pub number: u64,
    pub job: Job,
    pub sheet: Arc<JobSheet>,
    pub hands: Vec<Hand>,
    pub ghost fresh: { AreFresh sheet.value hands.items },
}

/// A job's sheet with a watch of it: what stays on the board of a job, and what is handed in of one that has ended.
#[derive(Drop)]
pub struct WatchedJob {
    pub sheet: Arc<JobSheet>,
    pub watch: Hand,
    pub ghost own: { watch.sheet ≡ sheet.value },
    pub ghost claims_none: { watch.number ≡ None },
}
