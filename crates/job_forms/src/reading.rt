//! The reading of a job.
ghost use Rattle.std.specs.Prelude.{◌≡◌, ◌≤◌, codes, IfOk};
ghost use Rattle.catalog.specs.Valid.{IsValid};
ghost use Rattle.job_forms.specs.Job.{Fits};
ghost use Rattle.job_forms.specs.Members.{required};
ghost use Rattle.job_forms.specs.Outcome.{Gives};
ghost use Rattle.job_forms.specs.Reading as spec;
ghost use Rattle.job_forms.specs.Reading.{few_enough, job_in, job_of, kind_named, limited, threads_or_one};
ghost use Rattle.serde_json.specs.Find.{get};
ghost use Rattle.serde_json.specs.View.{view};
ghost use Rattle.served_covers.specs.OfCatalogue.{IsCoverOf};

use crate::cover::read_cover;
use crate::fault::{JobFault, JobField};
use crate::job::{Job, JobKind};
use crate::places::has_few_places;
use catalog::Catalogue;
use json_forms::object_in;
use serde_json::Value;
use std::alloc::Global;
use truncation_list::Cover;

fn kind_named(name: &str) -> Option<JobKind>
    ensures { result ≡ kind_named name.now }
{
    if name == "seed" {
        return Some(JobKind::Seed);
    }
    if name == "reseed" {
        return Some(JobKind::Reseed);
    }
    if name == "truncate" {
        return Some(JobKind::Truncate);
    }
    None
}

fn kind(value: &Value) -> Option<JobKind>
    ensures { result ≡ spec.kind (view value.now) }
{
    match value.as_str() {
        Some(name) => kind_named(name),
        None => None,
    }
}

/// What a job does, which has to be given.
fn required_kind(object: &Value) -> Result<JobKind, JobFault>
    ensures { result ≡ required spec.kind JobField.Kind (get (codes "type") (view object.now)) }
{
    match object.get("type") {
        None => Err(JobFault::Missing(JobField::Kind)),
        Some(value) => kind(value).ok_or(JobFault::Bad(JobField::Kind)),
    }
}

/// One to eight threads.
fn thread_count(threads: u64) -> Result<u32, JobFault>
    ensures value { result ≡ limited threads }
    ensures least { IfOk result (λ n. 1 ≤ n) }
    ensures most { IfOk result (λ n. n ≤ 8) }
{
    if 1 <= threads && threads <= 8 {
        Ok(threads as u32)
    } else {
        Err(JobFault::Limit(JobField::Threads))
    }
}

fn threads(value: &Value) -> Result<u32, JobFault>
    ensures value { result ≡ threads_or_one (Some (view value.now)) }
    ensures least { IfOk result (λ n. 1 ≤ n) }
    ensures most { IfOk result (λ n. n ≤ 8) }
{
    match value.as_u64() {
        Some(threads) => thread_count(threads),
        None => Err(JobFault::Bad(JobField::Threads)),
    }
}

/// How many threads run a job: one where none are given.
fn threads_or_one(object: &Value) -> Result<u32, JobFault>
    ensures value { result ≡ threads_or_one (get (codes "threads") (view object.now)) }
    ensures least { IfOk result (λ n. 1 ≤ n) }
    ensures most { IfOk result (λ n. n ≤ 8) }
{
    match object.get("threads") {
        None => Ok(1),
        Some(value) => threads(value),
    }
}

/// The job, where it has few enough places.
fn few_enough(catalogue: &Catalogue, job: Job) -> Result<Job, JobFault>
    requires valid { IsValid catalogue.now }
    requires cover { IsCoverOf catalogue.now job.cover }
    requires least { 1 ≤ job.threads }
    requires most { job.threads ≤ 8 }
    ensures value { result ≡ few_enough catalogue.now job }
    ensures fits { IfOk result (Fits catalogue.now) }
{
    if has_few_places(catalogue, &job) {
        Ok(job)
    } else {
        Err(JobFault::Limit(JobField::ZoomStop))
    }
}

/// The job of an object's members, whose cover was read.
#[tactic(auto, unfolding(crate::specs::Reading::job_in))]
fn job_in(catalogue: &Catalogue, cover: Cover, object: &Value) -> Result<Job, JobFault>
    requires valid { IsValid catalogue.now }
    requires cover { IsCoverOf catalogue.now cover }
    ensures value { result ≡ job_in catalogue.now cover (view object.now) }
    ensures fits { IfOk result (Fits catalogue.now) }
{
    let kind = match required_kind(object) {
        Ok(kind) => kind,
        Err(fault) => return Err(fault),
    };
    let threads = match threads_or_one(object) {
        Ok(threads) => threads,
        Err(fault) => return Err(fault),
    };
    few_enough(
        catalogue,
        Job {
            kind,
            cover,
            threads,
        },
    )
}

/// The job of a text, which is one JSON object (RFC 8259): a cover's members, then `type` (`"seed"`, `"reseed"` or
/// `"truncate"`), then `threads` (1 to 8, and 1 where it is absent). Its first fault in this order is that of the cover;
/// `Missing(Kind)` where there is no `type`, `Bad(Kind)` where it is another; `Bad(Threads)` where `threads` is no whole
/// number, `Limit(Threads)` where it is another one; and at last `Limit(ZoomStop)` where the job would have more than ten
/// million places. `OutOfMemory` where memory runs out.
#[tactic(auto, unfolding(crate::specs::Reading::job_of))]
pub fn read_job(alloc: Global, catalogue: &Catalogue, text: &[u8]) -> Result<Job, JobFault>
    requires { IsValid catalogue.now }
    ensures gives { Gives (λ job. job) result (job_of catalogue.now text.now) }
    ensures fits { IfOk result (Fits catalogue.now) }
{
    let cover = match read_cover(alloc, catalogue, text) {
        Ok(cover) => cover,
        Err(fault) => return Err(fault),
    };
    match object_in(alloc, text) {
        Ok(Some(object)) => job_in(catalogue, cover, &object),
        Ok(None) => Err(JobFault::NotJson),
        Err(_) => Err(JobFault::OutOfMemory),
    }
}
