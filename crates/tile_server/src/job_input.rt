//! The input of the word `job`, read ahead where somebody looks on, so that the places of the job can be told while it runs.
ghost use Rattle.std.specs.Prelude.{IfSome};
ghost use Rattle.catalog.specs.Valid.{IsValid};

use crate::CATALOGUE;
use catalog::Catalogue;
use command_setup::CATALOGUE_LIMIT;
use config_text::read_catalogue;
use http_wire::{FileSource, InputEnd, MemorySource, StdinSource, read_all};
use job_forms::{count, read_job};
use program_files::Input;
use std::alloc::{AllocError, Global};
use std::fs::File;
use std::rt::Files;

/// The most bytes of a job.
const JOB_LIMIT: usize = 65_536;

/// How many bytes of it are handed on at a time.
const PIECE: usize = 4_096;

/// The input of a job, and how many places it has; `None` if that isn't known.
pub struct JobInput {
    pub input: Input,
    pub places: Option<u64>,
}

/// The catalogue of this folder, if it is one.
fn catalogue_here(rt: &(impl Files<File = File> + AllocGlobal)) -> Option<Catalogue>
    ensures { IfSome result (λ c. IsValid c) }
{
    let alloc = rt.alloc();
    let mut file = FileSource::open(rt, CATALOGUE);
    let text = match read_all(alloc, &mut file, CATALOGUE_LIMIT) {
        Ok(text) => text,
        Err(_) => return None,
    };
    match read_catalogue(alloc, text.as_slice()) {
        Ok(catalogue) => Some(catalogue),
        Err(_) => None,
    }
}

/// How many places the job of a text has, if it is one.
fn places_of(alloc: Global, catalogue: &Catalogue, text: &[u8]) -> Option<u64>
    requires { IsValid catalogue.now }
{
    match read_job(alloc, catalogue, text) {
        Ok(job) => Some(count(catalogue, &job)),
        Err(_) => None,
    }
}

/// Bytes that are read as they were, or a read that fails at once, or bytes that are one more than the limit, as they came.
fn read_again(alloc: Global, read: Result<Vec<u8>, InputEnd>) -> Result<Input, AllocError> {
    let (text, fails) = match read {
        Ok(text) => (text, Vec::new(alloc)),
        Err(InputEnd::ReadFault) => (Vec::new(alloc), vec![in alloc; 1]?),
        Err(InputEnd::TooLong) => (vec![in alloc; b' '; JOB_LIMIT + 1]?, Vec::new(alloc)),
        Err(InputEnd::OutOfMemory) => return Err(AllocError),
    };
    Ok(Input::Read(MemorySource::new(text, PIECE, fails)))
}

/// Reads the job of standard input ahead, and counts its places by the catalogue of this folder. If that is none, nothing is read, since the
/// command ends before it looks at its input.
pub fn read_ahead(
    rt: &(impl Files<File = File> + AllocGlobal),
    mut stdin: StdinSource,
) -> Result<JobInput, AllocError> {
    let alloc = rt.alloc();
    let Some(catalogue) = catalogue_here(rt) else {
        return Ok(JobInput {
            input: Input::Stdin(stdin),
            places: None,
        });
    };
    let read = read_all(alloc, &mut stdin, JOB_LIMIT);
    let places = match &read {
        Ok(text) => places_of(alloc, &catalogue, text.as_slice()),
        Err(_) => None,
    };
    Ok(JobInput {
        input: read_again(alloc, read)?,
        places,
    })
}
