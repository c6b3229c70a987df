//! The words that look at the files of a folder and change nothing: `check`, `list` and `job --dry-run`.
use crate::cache::open_files;
use crate::check_files::{tell_cells, warn_of_quotas};
use crate::endings::{WorkedFile, end_with};
use crate::recipes::{recipes_of, server_ended};
use crate::{CACHE, CAPABILITIES, CATALOGUE, CatalogueInput, catalogue_of, without_source};
use command_setup::CATALOGUE_LIMIT;
use command_status::Status;
use exact_ratio::Words;
use fault_paths::unknown_members;
use http_wire::{FileSource, StdinSource, StdoutSink, read_all};
use look_words::{run_check, run_dry_run, run_list};
use program_files::Input;
use server_command::ServerEnd;
use std::fs::File;
use std::io::{Eprint, Print};
use std::process::ExitCode;
use std::rt::Files;
use std::str::from_utf8;

/// The file that a cache is carried into before it takes the place of the cache, a file of the folder.
const PART: &str = "cache.part";

/// Warns of a file that a carrying has left behind.
fn warn_of_part(rt: &(impl Files<File = File> + Eprint)) {
    if File::open(rt, PART).is_ok() {
        let _ = eprintln!(rt;
            "warning: {PART}: what is left of a carrying that broke off, or one is at work: remove it if none is"
        );
    }
}

/// Warns of the members of the catalogue that nobody knows.
fn warn_of_unknown(rt: &(impl Files<File = File> + Eprint + AllocGlobal)) {
    let alloc = rt.alloc();
    let Ok(text) = read_all(alloc, &mut FileSource::open(rt, CATALOGUE), CATALOGUE_LIMIT) else {
        return;
    };
    let Ok(lines) = unknown_members(alloc, text.as_slice()) else {
        return;
    };
    let Ok(lines) = from_utf8(lines.as_slice()) else {
        return;
    };
    for path in lines.lines() {
        let _ = eprintln!(rt; "warning: catalogue: {path}: unknown member");
    }
}

/// Tells how many recipes there are.
fn told(rt: &impl Print, count: usize) -> ServerEnd {
    match println!(rt; "recipes ok: {count} recipes") {
        Ok(()) => ServerEnd::Ended(Status::Done),
        Err(_) => ServerEnd::Ended(Status::WriteFault),
    }
}

/// Whether a start that ends so has read its recipes: it does so behind the catalogue and the capabilities document, and before the cache.
fn has_read_recipes(status: Status) -> bool {
    matches!(status, Status::Done | Status::Cache(_) | Status::DiskFault)
}

/// How a check ends whose other files ended so, by how many recipes there are or how a start would end by them. Recipes that are in order are
/// told, where there are some.
fn with_recipes(rt: &impl Print, status: Status, recipes: Result<usize, ServerEnd>) -> ServerEnd {
    match recipes {
        Err(end) if has_read_recipes(status) => end,
        Ok(count) if status == Status::Done && count > 0 => told(rt, count),
        _ => ServerEnd::Ended(status),
    }
}

/// Whether a start would refuse nothing that was looked at.
fn passes(end: &ServerEnd) -> bool {
    matches!(end, ServerEnd::Ended(Status::Done))
}

/// Tells what a start would refuse of the files of the folder, the file of the source among them.
fn check(rt: HostRuntime, words: &[Words]) -> ExitCode {
    let CatalogueInput {
        input: mut catalogue,
        source: _,
        choice: _,
        grain,
    } = match catalogue_of(&rt, true) {
        Ok(catalogue) => catalogue,
        Err(fault) => return without_source(&rt, fault),
    };
    let mut capabilities = Input::File(FileSource::open(&rt, CAPABILITIES));
    let mut output = StdoutSink::new(rt.stdout());
    let mut disk = open_files(&rt, false, grain);
    let status = run_check(
        rt.alloc(),
        words,
        &mut catalogue,
        &mut capabilities,
        &mut output,
        &mut disk,
    );
    warn_of_part(&rt);
    let end = with_recipes(&rt, status, recipes_of(&rt));
    warn_of_unknown(&rt);
    warn_of_quotas(&rt);
    let is_passed = passes(&end);
    let code = server_ended(&rt, end, &[WorkedFile::of(CACHE, &disk.disk)]);
    tell_cells(&rt, is_passed, code)
}

/// Lists what is kept.
fn list(rt: HostRuntime, words: &[Words]) -> ExitCode {
    let CatalogueInput {
        input: mut catalogue,
        source: _,
        choice: _,
        grain,
    } = match catalogue_of(&rt, false) {
        Ok(catalogue) => catalogue,
        Err(fault) => return without_source(&rt, fault),
    };
    let mut output = StdoutSink::new(rt.stdout());
    let mut disk = open_files(&rt, false, grain);
    let status = run_list(rt.alloc(), words, &mut catalogue, &mut output, &mut disk);
    end_with(&rt, status, &[WorkedFile::of(CACHE, &disk.disk)])
}

/// Tells how large the job of standard input is.
fn dry_run(rt: HostRuntime, words: &[Words]) -> ExitCode {
    let CatalogueInput {
        input: mut catalogue,
        source: _,
        choice: _,
        grain: _,
    } = match catalogue_of(&rt, false) {
        Ok(catalogue) => catalogue,
        Err(fault) => return without_source(&rt, fault),
    };
    let mut input = Input::Stdin(StdinSource::new(rt.stdin()));
    let mut output = StdoutSink::new(rt.stdout());
    let status = run_dry_run(rt.alloc(), words, &mut catalogue, &mut input, &mut output);
    end_with(&rt, status, &[])
}

/// Does what the words of a look say.
pub fn look(rt: HostRuntime, words: &[Words]) -> ExitCode {
    match words {
        [word, ..] if word.bytes() == b"job".as_slice() => dry_run(rt, words),
        [word, ..] if word.bytes() == b"check".as_slice() => check(rt, words),
        [word, ..] if word.bytes() == b"list".as_slice() => list(rt, words),
        _ => end_with(&rt, Status::Usage, &[]),
    }
}
