//! The word `serve`: a server on a port.
ghost use Rattle.std.specs.Prelude.{IfOk, length, ◌≡◌, ◌≤◌};

use crate::cache::{open_cache, tell_unfit};
use crate::catalogue_copies::keep_copy_of;
use crate::endings::{WorkedFile, end_with};
use crate::recipes::server_ended;
use crate::{
    CACHE, CAPABILITIES, CELLS, CatalogueInput, RECIPES, catalogue_of, exit_code, status_of_error,
    without_source,
};
use base::Clock;
use command_status::Status;
use command_words::{ServeFault, ServeWords, serve_words};
use exact_ratio::Words;
use http_wire::FileSource;
use program_files::{Input, ProgramSource, SourceChoice, Watch, WatchedListener};
use server_command::{ServerEnd, run_server};
use server_workers::SOURCES;
use std::alloc::AllocError;
use std::fs::File;
use std::io::Eprint;
use std::net::{Net, TcpListener, TcpStream};
use std::process::ExitCode;
use std::rt::Files;
use std::snapshot::Snapshot;
use std::sync::Wait;
use std::thread::Threads;
use tcp_lanes::TcpAccept;

/// The sources that a server takes.
fn sources_of<R>(
    rt: R,
    choice: &SourceChoice,
    id: u32,
) -> Result<Vec<ProgramSource<'static, R>>, AllocError>
where
    R: Files<File = File> + Net + std::time::Clock + Wait + Eprint + AllocGlobal + Copy + Drop,
    ensures { IfOk result (λ sources. length sources.items ≡ SOURCES) }
{
    let mut sources = Vec::new(rt.alloc());
    'opening: for _ in 0..SOURCES {
        sources.push(choice.of_a_server(rt, CELLS, id)?)?;
    }
    Ok(sources)
}

/// Tells that a server has served all its connections, where it has. How else it ended has a line of its own.
fn tell_served(rt: &impl Eprint, end: &ServerEnd, connections: u32) {
    if let ServerEnd::Ended(Status::Done) = end {
        let noun = if connections == 1 {
            "connection"
        } else {
            "connections"
        };
        let _ = eprintln!(rt; "served {connections} {noun}, and ended");
    }
}

/// Serves so many connections at a port. The sources are sent to threads and open their files there, so all that the runtime opens may go
/// there, folders among it.
fn serve_links<R>(rt: &R, words: ServeWords, clock: Clock) -> ExitCode
where
    R: Threads
        + Wait
        + Net<Listener = TcpListener, Stream = TcpStream>
        + std::time::Clock
        + Files<File = File>
        + AllocGlobal
        + Eprint
        + Copy
        + Drop
        + Send
        + Sync,
    R::Dir: Send + Sync,
    requires { (1 ≤ words.connections) × (words.connections ≤ 1000000) }
{
    let began = rt.monotonic().ok();
    let CatalogueInput {
        input: mut catalogue,
        source,
        choice,
        grain,
    } = match catalogue_of(rt, true) {
        Ok(catalogue) => catalogue,
        Err(fault) => return without_source(rt, fault),
    };
    let Ok(sources) = sources_of(*rt, &choice, source) else {
        return exit_code(rt, Status::OutOfMemory);
    };
    let mut capabilities = Input::File(FileSource::open(rt, CAPABILITIES));
    let mut recipes = Input::File(FileSource::open(rt, RECIPES));
    let watch = Watch {
        faults: true,
        opening: false,
    };
    let mut cache = open_cache(*rt, false, grain, watch);
    if cache.files.disk.is_in_use() {
        return end_with(
            rt,
            Status::DiskFault,
            &[WorkedFile::of(CACHE, &cache.files.disk)],
        );
    }
    keep_copy_of(rt, &cache.files.disk);
    let accept = match TcpAccept::bind(*rt, rt.alloc(), words.port) {
        Ok(accept) => accept,
        Err(error) => return exit_code(rt, status_of_error(&error)),
    };
    let mut listener = WatchedListener::new(*rt, accept, words.port, began);
    let end = run_server(
        rt,
        rt.alloc(),
        words.connections,
        &mut catalogue,
        &mut capabilities,
        &mut recipes,
        &mut listener,
        sources,
        &mut cache,
        clock,
        Snapshot::of(&false),
    );
    tell_unfit(rt, &cache.files);
    tell_served(rt, &end, words.connections);
    server_ended(rt, end, &[WorkedFile::of(CACHE, &cache.files.disk)])
}

/// Does what the words of a server say: `serve`, and those after it.
pub fn serve<R>(rt: &R, words: &[Words], clock: Clock) -> ExitCode
where
    R: Threads
        + Wait
        + Net<Listener = TcpListener, Stream = TcpStream>
        + std::time::Clock
        + Files<File = File>
        + AllocGlobal
        + Eprint
        + Copy
        + Drop
        + Send
        + Sync,
    R::Dir: Send + Sync,
{
    let after = match words {
        [_, after @ ..] => after,
        [] => words,
    };
    match serve_words(rt.alloc(), after) {
        Ok(words) => serve_links(rt, words, clock),
        Err(ServeFault::Usage) => end_with(rt, Status::Usage, &[]),
        Err(ServeFault::OutOfMemory) => exit_code(rt, Status::OutOfMemory),
    }
}
