//! Where a message leads under the paths of jobs and of their board.
ghost use Rattle.std.specs.Prelude.{◌≡◌, IfOk, IfSome};
ghost use Rattle.catalog.specs.declared.catalogue.Catalogue.{Catalogue};
ghost use Rattle.catalog.specs.Valid.{IsValid};
ghost use Rattle.job_forms.specs.Reading.{job_of};
ghost use Rattle.job_requests.specs.Routes.{IsOf, asked_of, below, job_at, listed, number_in, request_for, status_at, status_of, submission_of};
ghost use Rattle.tile_requests.specs.Shown.{shown_message};

use crate::request::JobRequest;
use catalog::Catalogue;
use http_wire::Method;
use job_forms::{JobFault, read_job};
use std::alloc::{AllocError, Global};
use tile_requests::{MessageRef, path_of};
use wmts_kvp::{is_number, short_number};

/// The number that a text of 1 to 18 digits spells; none where it is no such text.
#[tactic(auto, using(wmts_kvp::proofs::Numbers::digits_of_number))]
fn number_in(text: &[u8]) -> Option<u64>
    ensures { result ≡ number_in text.now }
{
    if text.len() > 18 {
        return None;
    }
    if !is_number(text) {
        return None;
    }
    Some(short_number(text))
}

/// What is asked of a job by a method.
fn asked_of(method: Method, number: u64) -> JobRequest
    ensures value { result ≡ asked_of method number }
{
    match method {
        Method::Get => JobRequest::Look(number),
        Method::Delete => JobRequest::Stop(number),
        Method::Post | Method::Other => JobRequest::WrongMethod,
    }
}

/// What is asked for where the path is that of a job, by what stands behind `/jobs/`.
fn job_at(method: Method, behind: &[u8]) -> JobRequest
    ensures value { result ≡ job_at method behind.now }
{
    match number_in(behind) {
        None => JobRequest::NotFound,
        Some(number) => asked_of(method, number),
    }
}

/// What is asked of the board by a method.
fn request_at_board(method: Method) -> JobRequest
    ensures value { result ≡ listed method }
{
    match method {
        Method::Get => JobRequest::Statuses,
        Method::Post | Method::Delete | Method::Other => JobRequest::WrongMethod,
    }
}

/// What is asked of a job at the board by a method.
fn status_of(method: Method, number: u64) -> JobRequest
    ensures value { result ≡ status_of method number }
{
    match method {
        Method::Get => JobRequest::Status(number),
        Method::Post | Method::Delete | Method::Other => JobRequest::WrongMethod,
    }
}

/// What is asked for where the path is that of a job at the board, by what stands behind `/board/`.
fn status_at(method: Method, behind: &[u8]) -> JobRequest
    ensures value { result ≡ status_at method behind.now }
{
    match number_in(behind) {
        None => JobRequest::NotFound,
        Some(number) => status_of(method, number),
    }
}

/// What a body asks for that is posted to `/jobs`. `AllocError` where memory runs out.
fn submission_of(
    alloc: Global,
    catalogue: &Catalogue,
    body: &[u8],
) -> Result<JobRequest, AllocError>
    requires { IsValid catalogue.now }
    ensures value { IfOk result (λ r. r ≡ submission_of (job_of catalogue.now body.now)) }
    ensures of { IfOk result (λ r. IsOf catalogue.now r) }
{
    match read_job(alloc, catalogue, body) {
        Ok(job) => Ok(JobRequest::Submission(job)),
        Err(JobFault::OutOfMemory) => Err(AllocError),
        Err(fault) => Ok(JobRequest::Unformed(fault)),
    }
}

/// What is asked for below `/board` or `/jobs`; none where the path is below neither.
#[tactic(auto, unfolding(crate::specs::Routes::below))]
fn below(method: Method, path: &[u8]) -> Option<JobRequest>
    ensures value { result ≡ below method path.now }
    ensures of { (c : Catalogue) → IfSome result (IsOf c) }
{
    match path.strip_prefix(b"/board/") {
        Some(behind) => Some(status_at(method, behind)),
        None => match path.strip_prefix(b"/jobs/") {
            Some(behind) => Some(job_at(method, behind)),
            None => None,
        },
    }
}

/// What a message asks for under the paths of jobs and of their board; none where its path is neither `/jobs` nor `/board` nor below these.
/// `AllocError` where memory runs out.
#[tactic(auto, unfolding(crate::specs::Routes::request_for))]
pub fn read_job_request(
    alloc: Global,
    catalogue: &Catalogue,
    message: &MessageRef<'_>,
) -> Result<Option<JobRequest>, AllocError>
    requires { IsValid catalogue.now }
    ensures value { IfOk result (λ r. r ≡ request_for catalogue.now (shown_message message.now)) }
    ensures of { IfOk result (λ r. IfSome r (IsOf catalogue.now)) }
{
    let path = path_of(message.target);
    if path == b"/jobs".as_slice() {
        return match message.method {
            Method::Post => Ok(Some(submission_of(alloc, catalogue, message.body)?)),
            Method::Get | Method::Delete | Method::Other => Ok(Some(JobRequest::WrongMethod)),
        };
    }
    if path == b"/board".as_slice() {
        return Ok(Some(request_at_board(message.method)));
    }
    Ok(below(message.method, path))
}
