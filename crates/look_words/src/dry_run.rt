//! The words `job --dry-run`: how large a job is.
ghost use Rattle.std.specs.Prelude.{◌≡◌, ◌↔◌, IfOk, false, true};
ghost use Rattle.catalog.specs.Valid.{IsValid};
ghost use Rattle.job_forms.specs.Job.{Fits};
ghost use Rattle.job_forms.specs.Reading.{job_of};
ghost use Rattle.job_sizes.specs.declared.sizes.JobSize.{JobSize};
ghost use Rattle.look_words.specs.DryRuns.{DryRunChange, DryRunTells, DryRuns};
ghost use Rattle.look_words.specs.Texts.{size_text};
ghost use Rattle.look_words.specs.Words.{is_dry_run};
ghost use Rattle.opened_cache.specs.Inputs.{Reads};
ghost use Rattle.opened_cache.specs.Texts.{Sends};
ghost use Rattle.sessions.specs.Outside.{InputChange, OutputChange, counts};

use crate::check_text::add_numbered;
use crate::words::is_dry_run;
use arrayvec::ArrayVec;
use catalog::Catalogue;
use command_setup::{read_configuration, status_of_refusal};
use command_status::{Status, status_of_form};
use exact_ratio::Words;
use http_wire::{ByteSink, ByteSource};
use job_forms::{Job, read_job};
use job_sizes::{JobSize, size_of};
use opened_cache::{text_in, write_text};
use std::alloc::Global;

/// The most bytes of a job.
const JOB_LIMIT: usize = 65_536;

/// Reads the job that an input has.
fn job_in<I: ByteSource>(alloc: Global, catalogue: &Catalogue, input: &mut I) -> Result<Job, Status>
    requires { IsValid catalogue.now }
    ensures reads { Reads JOB_LIMIT (job_of catalogue.now) (record { reads = record { before = I.faults input.old; after = I.faults input.new }; from = I.left input.old; to = I.left input.new }) result }
    ensures fits { IfOk result (λ job. Fits catalogue.now job) }
{
    match text_in(alloc, input, JOB_LIMIT) {
        Ok(text) => match read_job(alloc, catalogue, text.as_slice()) {
            Ok(job) => Ok(job),
            Err(fault) => Err(status_of_form(fault)),
        },
        Err(status) => Err(status),
    }
}

/// Writes how large a job is.
#[tactic(auto, unfolding(crate::specs::Texts::size_text))]
fn tell_size<O: ByteSink>(output: &mut O, size: JobSize) -> Status
    ensures { Sends (record { writes = counts (O.faults output.old) (O.faults output.new); from = O.taken output.old; to = O.taken output.new }) (size_text size) result }
{
    let mut text = ArrayVec::new();
    add_numbered(&mut text, b"places ", size.places);
    add_numbered(&mut text, b" bytes ", size.bytes);
    write_text(output, text, b"\n")
}

/// Reads the job, and tells how large it is.
fn tell_job<I: ByteSource, O: ByteSink>(
    alloc: Global,
    catalogue: &Catalogue,
    input: &mut I,
    output: &mut O,
) -> Status
    requires { IsValid catalogue.now }
    ensures { DryRuns catalogue.now
        (record { reads = counts (I.faults input.old) (I.faults input.new); from = I.left input.old; to = I.left input.new })
        (record { writes = counts (O.faults output.old) (O.faults output.new); from = O.taken output.old; to = O.taken output.new })
        (output.new ≡ output.old) result }
{
    match job_in(alloc, catalogue, input) {
        Ok(job) => tell_size(output, size_of(catalogue, &job)),
        Err(status) => status,
    }
}

/// Reads the catalogue and the job that the input has, and writes how many places the job has and how many bytes the blobs of their metatiles
/// take, cut to their matrices. No disk is handed in, and nothing is rendered.
///
/// `Usage` exactly where the words aren't `job --dry-run`, and nothing is then read or written; each other end comes as `DryRunTells` says.
pub fn run_dry_run<I: ByteSource, O: ByteSink>(
    alloc: Global,
    words: &[Words],
    catalogue: &mut I,
    input: &mut I,
    output: &mut O,
) -> Status
    ensures { DryRunTells (is_dry_run words.now)
        (record {
          catalogue = record { reads = counts (I.faults catalogue.old) (I.faults catalogue.new); from = I.left catalogue.old; to = I.left catalogue.new };
          input = record { reads = counts (I.faults input.old) (I.faults input.new); from = I.left input.old; to = I.left input.new };
          output = record { writes = counts (O.faults output.old) (O.faults output.new); from = O.taken output.old; to = O.taken output.new };
          catalogue_stays = (catalogue.new ≡ catalogue.old);
          input_stays = (input.new ≡ input.old);
          output_stays = (output.new ≡ output.old);
        }) result }
{
    if !is_dry_run(words) {
        return Status::Usage;
    }
    match read_configuration(alloc, catalogue) {
        Ok(read) => tell_job(alloc, &read, input, output),
        Err(refusal) => status_of_refusal(refusal),
    }
}
