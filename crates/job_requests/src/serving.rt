//! A request for a job, served at the board.
ghost use Rattle.std.specs.Prelude.{◌≡◌, ◌≤◌};
ghost use Rattle.catalog.specs.Valid.{IsValid};
ghost use Rattle.job_board.specs.Boards.{MaySubmit};
ghost use Rattle.job_board.specs.Calls.{IsBoardPass};
ghost use Rattle.job_forms.specs.Job.{Fits};
ghost use Rattle.job_requests.specs.Routes.{IsOf};
ghost use Rattle.job_requests.specs.Served.{IsLookServed, IsStatusServed, IsStopServed, IsSubmissionServed, ServesJob};

use crate::listing::statuses;
use crate::request::JobRequest;
use crate::texts::{progress_text, status_text, submitted_text};
use catalog::Catalogue;
use job_board::{Board, BoardFault, Posts};
use job_forms::{Job, count};
use std::alloc::Global;
use std::sync::Wait;
use tile_requests::{Outcome, Plain};
use turnstile::Pass;

/// A job is submitted, with as many places as it has.
fn submission<R: Wait>(
    rt: &R,
    alloc: Global,
    catalogue: &Catalogue,
    board: &Board,
    pass: &mut Pass<Posts>,
    job: Job,
) -> Outcome
    requires valid { IsValid catalogue.now }
    requires fits { Fits catalogue.now job }
    requires of { IsBoardPass board.now.turnstile.table pass.old }
    ensures serves { IsSubmissionServed catalogue.now job pass.old pass.new result }
    ensures of { IsBoardPass board.now.turnstile.table pass.new }
{
    let places = count(catalogue, &job);
    match board.submit(rt, alloc, pass, job, places) {
        Err(BoardFault::Full) => Outcome::Plain(Plain::BoardFull),
        Err(BoardFault::OutOfMemory) => Outcome::Plain(Plain::NoMemory),
        Ok(number) => match submitted_text(alloc, number) {
            Ok(text) => Outcome::Job(text),
            Err(_) => Outcome::Plain(Plain::NoMemory),
        },
    }
}

/// It is looked how far a job is.
fn look<R: Wait>(
    rt: &R,
    alloc: Global,
    board: &Board,
    pass: &mut Pass<Posts>,
    number: u64,
) -> Outcome
    requires of { IsBoardPass board.now.turnstile.table pass.old }
    ensures serves { IsLookServed number pass.old pass.new result }
    ensures of { IsBoardPass board.now.turnstile.table pass.new }
{
    let Some(status) = board.look(rt, pass, number) else {
        return Outcome::Plain(Plain::NotFound);
    };
    match progress_text(alloc, number, &status.progress) {
        Ok(text) => Outcome::Job(text),
        Err(_) => Outcome::Plain(Plain::NoMemory),
    }
}

/// A job is ended early, and then it is looked how far it came.
fn stop<R: Wait>(
    rt: &R,
    alloc: Global,
    board: &Board,
    pass: &mut Pass<Posts>,
    number: u64,
) -> Outcome
    requires of { IsBoardPass board.now.turnstile.table pass.old }
    ensures serves { IsStopServed number pass.old pass.new result }
    ensures of { IsBoardPass board.now.turnstile.table pass.new }
{
    if board.stop(rt, pass, number) {
        look(rt, alloc, board, pass, number)
    } else {
        Outcome::Plain(Plain::NotFound)
    }
}

/// It is looked where a job stands, which is told in full.
fn status<R: Wait>(
    rt: &R,
    alloc: Global,
    board: &Board,
    pass: &mut Pass<Posts>,
    number: u64,
) -> Outcome
    requires of { IsBoardPass board.now.turnstile.table pass.old }
    ensures serves { IsStatusServed number pass.old pass.new result }
    ensures of { IsBoardPass board.now.turnstile.table pass.new }
{
    let Some(status) = board.look(rt, pass, number) else {
        return Outcome::Plain(Plain::NotFound);
    };
    match status_text(alloc, number, &status) {
        Ok(text) => Outcome::Job(text),
        Err(_) => Outcome::Plain(Plain::NoMemory),
    }
}

/// Serves a request for a job: a submission, a look or a stop makes its turns at the board, and the outcome is what they were answered.
/// Where memory runs out, the outcome says so.
pub fn serve_job<R: Wait>(
    rt: &R,
    alloc: Global,
    catalogue: &Catalogue,
    board: &Board,
    pass: &mut Pass<Posts>,
    request: JobRequest,
) -> Outcome
    requires valid { IsValid catalogue.now }
    requires asks { IsOf catalogue.now request }
    requires of { IsBoardPass board.now.turnstile.table pass.old }
    ensures serves { ServesJob catalogue.now request pass.old pass.new result }
    ensures of { IsBoardPass board.now.turnstile.table pass.new }
{
    match request {
        JobRequest::Submission(job) => submission(rt, alloc, catalogue, board, pass, job),
        JobRequest::Unformed(fault) => Outcome::Unformed(fault),
        JobRequest::Look(number) => look(rt, alloc, board, pass, number),
        JobRequest::Stop(number) => stop(rt, alloc, board, pass, number),
        JobRequest::Status(number) => status(rt, alloc, board, pass, number),
        JobRequest::Statuses => statuses(rt, alloc, board, pass),
        JobRequest::NotFound => Outcome::Plain(Plain::NotFound),
        JobRequest::WrongMethod => Outcome::Plain(Plain::WrongMethod),
    }
}
