//! The words of a twin: a leader and a follower over a link that loses, repeats and reorders what goes over it, event by event.
ghost use Rattle.std.specs.Prelude.{◌<◌};

use crate::cache::{open_files, tell_unfit, without_sums};
use crate::endings::{WorkedFile, end_with};
use crate::{CACHE, CELLS, CatalogueInput, MARKS, OUTBOX, catalogue_of, exit_code, without_source};
use base::Clock;
use command_status::Status;
use exact_ratio::Words;
use http_wire::{StdinSource, StdoutSink};
use program_files::{CacheDisk, CacheFiles, Input};
use std::fs::File;
use std::io::Eprint;
use std::net::Net;
use std::process::ExitCode;
use std::rt::Files;
use std::sync::Wait;
use twin_words::{TwinWord, run_twin, twin_word};

/// A file of a twin, opened for the words that work on it, and made by the one that makes it.
fn file_for(rt: &impl Files<File = File>, words: &[Words], path: &str, grain: u32) -> CacheFiles
    requires { 8 < grain }
{
    let file = match twin_word(words) {
        Some(word) => CacheDisk::open(rt, path, word == TwinWord::Make),
        None => CacheDisk::Absent(0),
    };
    without_sums(file, grain)
}

/// The cache, opened for the words that work on it, and made by the one that makes it.
fn cache_for(rt: &(impl Files<File = File> + Eprint), words: &[Words], grain: u32) -> CacheFiles
    requires { 8 < grain }
{
    match twin_word(words) {
        Some(word) => open_files(rt, word == TwinWord::Make, grain),
        None => without_sums(CacheDisk::Absent(0), grain),
    }
}

/// Does what the words of a twin say. `waiting` is the same runtime, for a source that waits for a renderer.
pub fn twin<R>(rt: HostRuntime, waiting: R, words: &[Words]) -> ExitCode
where
    R: Files<File = File> + Net + std::time::Clock + Wait + Eprint + AllocGlobal + Drop,
{
    let CatalogueInput {
        input: mut catalogue,
        source,
        choice,
        grain,
    } = match catalogue_of(&rt, twin_word(words) == Some(TwinWord::Run)) {
        Ok(catalogue) => catalogue,
        Err(fault) => return without_source(&rt, fault),
    };
    let Ok(mut source) = choice.of_a_run(waiting, CELLS, source) else {
        return exit_code(&rt, Status::OutOfMemory);
    };
    let mut input = Input::Stdin(StdinSource::new(rt.stdin()));
    let mut output = StdoutSink::new(rt.stdout());
    let mut disk = cache_for(&rt, words, grain);
    let mut marks = file_for(&rt, words, MARKS, grain);
    let mut outbox = file_for(&rt, words, OUTBOX, grain);
    let status = run_twin(
        rt.alloc(),
        words,
        &mut catalogue,
        &mut input,
        &mut output,
        &mut source,
        Clock::system(rt),
        &mut disk,
        &mut marks,
        &mut outbox,
    );
    tell_unfit(&rt, &disk);
    let files = [
        WorkedFile::of(CACHE, &disk.disk),
        WorkedFile::of(MARKS, &marks.disk),
        WorkedFile::of(OUTBOX, &outbox.disk),
    ];
    end_with(&rt, status, &files)
}
