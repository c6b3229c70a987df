//! The commands of the board, one by one.
ghost use Rattle.std.specs.Prelude.{◌≡◌, ◌==◌, IfOk, OnErr};
ghost use Rattle.job_board.specs.Boards.{Finishes, IsSubmission, Looks, MaySubmit, Stops, Submits, TakesNext, TakesOver, empty, is_numbered};
ghost use Rattle.job_board.specs.SheetCalls.{Cancels, IsSettled, StaysEnded};

use crate::posted::{Posted, WatchedJob};
use crate::posts::Posts;
use crate::sheet::{Desk, JobSheet};
use crate::status::{JobStatus, state_of};
use job_forms::Job;
use std::alloc::{AllocError, Global};
use std::sync::Arc;

/// How many jobs may wait.
pub const WAITING_LIMIT: usize = 64;

/// How many jobs may be submitted in the life of a board.
pub const JOB_LIMIT: usize = 1024;

/// A new job of so many places: what it takes to run it, and what stays on the board.
fn new_job(
    alloc: Global,
    number: u64,
    job: Job,
    places: u64,
) -> Result<(Posted, WatchedJob), AllocError>
    requires { MaySubmit job places }
    ensures { IfOk result (λ t. IsSubmission number job places t.0 t.1.watch) }
{
    let Desk {
        sheet,
        hands,
        watch,
    } = JobSheet::make(alloc, places, job.threads)?;
    let Ok(sheet) = Arc::new(alloc, sheet) else {
        return Err(AllocError);
    };
    let shared = Arc::try_clone(&sheet)?;
    Ok((
        Posted {
            number,
            job,
            sheet,
            hands,
        },
        WatchedJob {
            sheet: shared,
            watch,
        },
    ))
}

/// Cancels a job by its watch.
fn cancel(job: &mut WatchedJob)
    ensures cancels { Cancels job.old.watch job.new.watch }
    ensures stays { StaysEnded job.old.watch.sheet.hands job.old.watch.seen job.new.watch.seen }
{
    job.sheet.cancel(&mut job.watch);
}

/// What stays on the board of a job that has ended: what was handed in takes the place of what was there, and where the job is known to be
/// cancelled it is so by its watch, too.
#[tactic(auto, using(crate::proofs::Watches::as_cancelled, crate::proofs::Watches::as_it_is))]
fn taken_over(old: &mut WatchedJob, ended: WatchedJob) -> WatchedJob
    ensures { TakesOver old.old.watch ended.watch result.watch }
{
    if !old.sheet.progress(&mut old.watch).cancelled {
        return ended;
    }
    let mut ended = ended;
    cancel(&mut ended);
    ended
}

/// Whether one of these jobs has the number.
fn is_numbered(jobs: &[Posted], number: u64) -> bool
    ensures { result ≡ is_numbered number jobs.now }
{
    'seeking: for job in jobs {
        if job.number == number {
            return true;
        }
    }
    false
}

impl Posts {
    /// A board without jobs.
    pub(crate) fn new(alloc: Global) -> Posts
        ensures { result ≡ empty }
    {
        Posts {
            waiting: Vec::new(alloc),
            jobs: Vec::new(alloc),
            kinds: Vec::new(alloc),
            ends: Vec::new(alloc),
        }
    }

    /// Submits a job, which is then the last to wait, and answers its number; none where the board is full. `AllocError` where memory
    /// runs out; all is then as before.
    pub(crate) fn submit(
        &mut self,
        alloc: Global,
        job: Job,
        places: u64,
    ) -> Result<Option<u64>, AllocError>
        requires { MaySubmit job places }
        ensures submits { IfOk result (λ number. Submits self.old job places number self.new) }
        ensures err { OnErr result (self.new ≡ self.old) }
    {
        if self.waiting.len() >= WAITING_LIMIT || self.jobs.len() >= JOB_LIMIT {
            return Ok(None);
        }
        self.waiting.reserve(1)?;
        self.jobs.reserve(1)?;
        self.kinds.reserve(1)?;
        self.ends.reserve(1)?;
        let number = self.jobs.len() as u64 + 1;
        let (posted, watched) = new_job(alloc, number, job, places)?;
        self.waiting.push_reserved(posted);
        self.jobs.push_reserved(watched);
        self.kinds.push_reserved(job.kind);
        self.ends.push_reserved(false);
        Ok(Some(number))
    }

    /// Takes the job that has waited longest from those that wait; none where none waits.
    pub(crate) fn next(&mut self) -> Option<Posted>
        ensures { TakesNext self.old result self.new }
    {
        if self.waiting.is_empty() {
            return None;
        }
        Some(self.waiting.remove(0))
    }

    /// Where a job stands, and how far it is; none where no job has the number.
    pub(crate) fn look(&mut self, number: u64) -> Option<JobStatus>
        ensures { Looks self.old number result self.new }
    {
        if number == 0 || number > self.jobs.len() as u64 {
            return None;
        }
        let is_waiting = is_numbered(&self.waiting, number);
        let kind = self.kinds[number as usize - 1];
        let has_ended = self.ends[number as usize - 1];
        let job = &mut self.jobs[number as usize - 1];
        let progress = job.sheet.progress(&mut job.watch);
        Some(JobStatus {
            kind,
            state: state_of(is_waiting, has_ended, &progress),
            progress,
        })
    }

    /// Cancels a job, and says whether there is one of this number.
    pub(crate) fn stop(&mut self, number: u64) -> bool
        ensures { Stops self.old number result self.new }
    {
        if number == 0 || number > self.jobs.len() as u64 {
            return false;
        }
        let job = &mut self.jobs[number as usize - 1];
        job.sheet.cancel(&mut job.watch);
        true
    }

    /// Takes over what the hands of a job that has ended have seen, and says whether there is one of this number.
    pub(crate) fn finish(&mut self, number: u64, ended: WatchedJob) -> bool
        requires ended { IsSettled ended.watch.sheet.hands ended.watch.seen }
        ensures { Finishes self.old number ended.watch result self.new }
    {
        if number == 0 || number > self.jobs.len() as u64 {
            return false;
        }
        let job = &mut self.jobs[number as usize - 1];
        *job = taken_over(job, ended);
        self.ends[number as usize - 1] = true;
        true
    }
}
