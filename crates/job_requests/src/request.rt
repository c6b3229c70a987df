//! What is asked for under the paths of jobs and of their board.
use job_forms::{Job, JobFault};

/// What a message under `/jobs` or `/board` asks for.
#[derive(Clone, Copy, PartialEq, Eq)]
pub enum JobRequest {
    /// That this job, which fits the catalogue, is run.
    Submission(Job),
    /// That a text is run which is no job.
    Unformed(JobFault),
    /// How far the job of this number is.
    Look(u64),
    /// That the job of this number ends early.
    Stop(u64),
    /// Where the job of this number stands, in full.
    Status(u64),
    /// Where each job stands that was ever submitted.
    Statuses,
    /// Its path leads nowhere.
    NotFound,
    /// Its path takes another method.
    WrongMethod,
}
