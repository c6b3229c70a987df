//! What a turn at the board does and is answered, and what the board shows between two turns.
use crate::hand::Hand;
use crate::posted::{Posted, WatchedJob};
use crate::status::JobStatus;
use job_forms::{Job, JobKind};
use std::collections::LinkedList;

/// What a turn does.
#[derive(Drop)]
pub enum BoardCommand {
    /// Submits a job of so many places.
    Submit(Job, u64),
    /// Posts the job that has waited longest.
    Next,
    /// Tells how far the job of this number is.
    Look(u64),
    /// Cancels the job of this number.
    Stop(u64),
    /// Hands in what the hands of the job of this number have seen, which has ended.
    Finish(u64, WatchedJob),
}

/// What a turn is answered.
#[derive(Drop)]
pub enum BoardReply {
    /// The number of the job, from 1; none where the board is full.
    Submit(Option<u64>),
    /// The job that has waited longest; none where none waits.
    Next(Option<Posted>),
    /// Where the job stands, and how far it is; none where no job has the number.
    Look(Option<JobStatus>),
    /// Whether a job has the number.
    Stop(bool),
    /// Whether a job has the number.
    Finish(bool),
}

/// What a board shows: the jobs that wait, in the order of their submissions, and of each job that was ever submitted, in the order of
/// their numbers, the watch of its sheet, as it has seen the sheet last, what it does, and whether the board was told of
/// its end. No value of it is made.
pub struct BoardShown {
    pub waiting: LinkedList<Posted>,
    pub watches: LinkedList<Hand>,
    pub kinds: LinkedList<JobKind>,
    pub ends: LinkedList<bool>,
}

/// A command, its reply, and what the board showed before and after. No value of it is made.
pub struct BoardNote {
    pub command: BoardCommand,
    pub reply: BoardReply,
    pub before: BoardShown,
    pub after: BoardShown,
}
