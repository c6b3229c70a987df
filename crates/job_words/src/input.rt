//! The job of an input, read to its end.
ghost use Rattle.std.specs.Prelude.{◌≡◌, IfOk};
ghost use Rattle.catalog.specs.Valid.{IsValid};
ghost use Rattle.job_forms.specs.Job.{Fits};
ghost use Rattle.job_words.specs.Input.{ReadsJob};
ghost use Rattle.sessions.specs.Outside.{InputChange};

use catalog::Catalogue;
use command_status::{Status, status_of_form};
use http_wire::ByteSource;
use job_forms::{Job, read_job};
use opened_cache::text_in;
use std::alloc::Global;

/// The most bytes of a job.
const JOB_LIMIT: usize = 65_536;

/// Reads the job that an input has.
pub fn job_in<I: ByteSource>(
    alloc: Global,
    catalogue: &Catalogue,
    input: &mut I,
) -> Result<Job, Status>
    requires { IsValid catalogue.now }
    ensures reads { ReadsJob catalogue.now (record { reads = record { before = I.faults input.old; after = I.faults input.new }; from = I.left input.old; to = I.left input.new }) result }
    ensures fits { IfOk result (λ job. Fits catalogue.now job) }
{
    match text_in(alloc, input, JOB_LIMIT) {
        Ok(text) => match read_job(alloc, catalogue, text.as_slice()) {
            Ok(job) => Ok(job),
            Err(fault) => Err(status_of_form(fault)),
        },
        Err(status) => Err(status),
    }
}
