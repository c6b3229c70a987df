//! The words of a command that runs once.
ghost use Rattle.std.specs.Prelude.{◌<◌};

use crate::cache::{no_cache, open_cache, tell_unfit};
use crate::catalogue_copies::keep_copy_of;
use crate::endings::{WorkedFile, end_with, tell_unkept};
use crate::job_input::{JobInput, read_ahead};
use crate::{CACHE, CAPABILITIES, CELLS, CatalogueInput, catalogue_of, exit_code, without_source};
use base::Clock;
use command_status::Status;
use command_words::{UpkeepWord, Word, word_of};
use exact_ratio::Words;
use http_wire::{FileSource, StdinSource, StdoutSink};
use program_files::{CountedSource, Input, Watch, WatchedCache};
use std::alloc::AllocError;
use std::fs::File;
use std::io::{Eprint, IsTerminal};
use std::net::Net;
use std::process::ExitCode;
use std::rt::Files;
use std::sync::Wait;
use tile_command::run_command;

/// The cache's file, opened for the words that work on it, and made by those that make it. How far a long opening is, is told where somebody
/// looks on.
fn cache_for(
    rt: HostRuntime,
    words: &[Words],
    grain: u32,
    is_watched: bool,
) -> WatchedCache<HostRuntime>
    requires { 8 < grain }
{
    let watch = Watch {
        faults: false,
        opening: is_watched,
    };
    match word_of(words) {
        Some(Word::Kept(_)) | Some(Word::Job) => open_cache(rt, false, grain, watch),
        Some(Word::Upkeep(word)) => open_cache(rt, word == UpkeepWord::Make, grain, watch),
        Some(Word::InMemory(_)) | None => no_cache(rt, grain),
    }
}

/// Standard input, with the places of its job where somebody looks on.
fn input_for(rt: HostRuntime, words: &[Words], is_watched: bool) -> Result<JobInput, AllocError> {
    let stdin = StdinSource::new(rt.stdin());
    if is_watched && word_of(words) == Some(Word::Job) {
        return read_ahead(&rt, stdin);
    }
    Ok(JobInput {
        input: Input::Stdin(stdin),
        places: None,
    })
}

/// Whether the words are for work that renders.
fn renders(words: &[Words]) -> bool {
    match word_of(words) {
        Some(Word::InMemory(_)) | Some(Word::Kept(_)) | Some(Word::Job) => true,
        Some(Word::Upkeep(_)) | None => false,
    }
}

/// Does what the words of a command say. `waiting` is the same runtime, for a source that waits for a renderer.
pub fn command<R>(rt: HostRuntime, waiting: R, words: &[Words]) -> ExitCode
where
    R: Files<File = File> + Net + std::time::Clock + Wait + Eprint + AllocGlobal + Drop,
{
    let CatalogueInput {
        input: mut catalogue,
        source,
        choice,
        grain,
    } = match catalogue_of(&rt, renders(words)) {
        Ok(catalogue) => catalogue,
        Err(fault) => return without_source(&rt, fault),
    };
    let is_watched = rt.stderr().is_terminal();
    let Ok(source) = choice.of_a_run(waiting, CELLS, source) else {
        return exit_code(&rt, Status::OutOfMemory);
    };
    let Ok(JobInput { mut input, places }) = input_for(rt, words, is_watched) else {
        return exit_code(&rt, Status::OutOfMemory);
    };
    let mut source = CountedSource::new(rt, source, places);
    let mut capabilities = Input::File(FileSource::open(&rt, CAPABILITIES));
    let mut output = StdoutSink::new(rt.stdout());
    let mut disk = cache_for(rt, words, grain, is_watched);
    let end = run_command(
        rt.alloc(),
        words,
        &mut catalogue,
        &mut capabilities,
        &mut input,
        &mut output,
        &mut source,
        &mut disk,
        Clock::system(rt),
    );
    tell_unfit(&rt, &disk.files);
    keep_copy_of(&rt, &disk.files.disk);
    let cache = WorkedFile::of(CACHE, &disk.files.disk);
    tell_unkept(&rt, end.unkept, &cache);
    end_with(&rt, end.status, &[cache])
}
