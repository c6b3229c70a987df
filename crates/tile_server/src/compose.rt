//! The word `compose`: tiles of several layers, laid over each other.
use crate::endings::end_with;
use crate::{CELLS, CatalogueInput, catalogue_of, exit_code, without_source};
use base::Clock;
use command_status::Status;
use compose_words::{ComposeEnd, run_compose};
use exact_ratio::Words;
use http_wire::{StdinSource, StdoutSink};
use program_files::Input;
use std::fs::File;
use std::io::Eprint;
use std::net::Net;
use std::process::ExitCode;
use std::rt::Files;
use std::sync::Wait;

/// Tells the end of a composition on standard error, `Done` apart, and gives its code. A standard error that takes nothing changes
/// nothing.
fn compose_ended(
    rt: &(impl Files<File = File> + Eprint + AllocGlobal),
    end: ComposeEnd,
) -> ExitCode {
    if let Some(status) = end.status() {
        return end_with(rt, status, &[]);
    }
    let _ = eprintln!(rt; "{end}");
    ExitCode::from(end.code())
}

/// Does what the word says. `waiting` is the same runtime, for a source that waits for a renderer.
pub fn compose<R>(rt: HostRuntime, waiting: R, words: &[Words]) -> ExitCode
where
    R: Files<File = File> + Net + std::time::Clock + Wait + Eprint + AllocGlobal + Drop,
{
    let CatalogueInput {
        input: mut catalogue,
        source,
        choice,
        grain: _,
    } = match catalogue_of(&rt, true) {
        Ok(catalogue) => catalogue,
        Err(fault) => return without_source(&rt, fault),
    };
    let Ok(mut source) = choice.of_a_run(waiting, CELLS, source) else {
        return exit_code(&rt, Status::OutOfMemory);
    };
    let mut input = Input::Stdin(StdinSource::new(rt.stdin()));
    let mut output = StdoutSink::new(rt.stdout());
    let end = run_compose(
        rt.alloc(),
        words,
        &mut catalogue,
        &mut input,
        &mut output,
        &mut source,
        Clock::system(rt),
    );
    compose_ended(&rt, end)
}
