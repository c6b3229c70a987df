//! The program `tile_server`, a cache of map tiles: it hands the words, files and streams of the process to the top call that the words are
//! for (`top_call` of command_words), and tells how that ended. `command` hands them to `run_command` of tile_command, `serve` to `run_server`
//! of server_command, with a listening socket, `feed` to `run_feed` of feed_words, `compose` to `run_compose` of compose_words, `twin` to
//! `run_twin` of twin_words, and `link` to `run_link` of link_words, with a connection. `look` hands the words that change nothing to `run_check`,
//! `run_list` and `run_dry_run` of look_words, and `seal` the files of a cache to `seal` of cache_seal.
//!
//! Promises: none that a clause says; this is the trusted edge. What the command does is promised there.
//! Stands on tile_command, server_command, feed_words, compose_words, twin_words and link_words, and on the crates whose files, streams and
//! sockets it opens.
#![tactic(auto)]

mod cache;
mod carry;
mod catalogue_copies;
mod check_files;
mod command;
mod commit;
mod compose;
mod endings;
mod feed;
mod help;
mod job_input;
mod link;
mod look;
mod recipes;
mod seal;
mod serve;
mod twin;

ghost use Rattle.std.specs.Prelude.{◌<◌, IfOk};

use crate::commit::COMMIT;
use crate::endings::end_with;
use crate::help::{HELP, help_of};
use base::Clock;
use command_setup::{CATALOGUE_LIMIT, source_number};
use command_status::Status;
use command_words::{TopCall, top_call};
use exact_ratio::Words;
use http_wire::{FileSource, InputEnd, MemorySource, read_all};
use program_files::{Input, SourceChoice, SourceFault};
use std::fs::File;
use std::io::{Eprint, Print};
use std::net::Net;
use std::process::ExitCode;
use std::rt::{Env, Files};
use std::{env, io};
use tile_grain::grain_of;

/// The version of the program.
const VERSION: &str = "0.1.0";

/// The catalogue, a file of the folder that the program is run in.
const CATALOGUE: &str = "catalogue.json";

/// The capabilities document, a file of that folder.
const CAPABILITIES: &str = "capabilities.xml";

/// The recipes of the composites that a server serves, a file of that folder, where there are some.
const RECIPES: &str = "recipes.json";

/// The file of cells of that folder, which makes the pictures where it is there.
const CELLS: &str = "source.grid";

/// The file of that folder that names a renderer, where it is there.
const RENDERER: &str = "source.http";

/// The cache, a file of that folder.
const CACHE: &str = "cache.disk";

/// The sums of the cache's tiles, a file of that folder.
const SUMS: &str = "cache.sums";

/// Which change of a feed was made last on the cache, a file of that folder.
const MARKS: &str = "cache.marks";

/// The truncations that a leader has for its follower, a file of that folder.
const OUTBOX: &str = "cache.outbox";

/// The most bytes of the catalogue that the command takes at a time.
const PIECE: usize = 4_096;

/// The catalogue's bytes, read from its file to be handed on; the words are needed by the source before the command reads it.
struct CatalogueInput {
    input: Input,
    /// The number of the source that it names; 0 where it is refused.
    source: u32,
    /// Which source makes the pictures.
    choice: SourceChoice,
    /// No tile of it has fewer bytes.
    grain: u32,
}

/// Reads the catalogue's file, and, for words that render, the one that names a renderer. What can't be read of the catalogue is handed on so that
/// the command ends by the same cause.
fn catalogue_of(
    rt: &(impl Files<File = File> + Net + AllocGlobal),
    renders: bool,
) -> Result<CatalogueInput, SourceFault>
    ensures { IfOk result (λ c. 8 < c.grain) }
{
    let alloc = rt.alloc();
    let mut file = FileSource::open(rt, CATALOGUE);
    let (text, fails) = match read_all(alloc, &mut file, CATALOGUE_LIMIT) {
        Ok(text) => (text, Vec::new(alloc)),
        Err(InputEnd::ReadFault) => (Vec::new(alloc), vec![in alloc; 1]?),
        Err(InputEnd::TooLong) => (vec![in alloc; b' '; CATALOGUE_LIMIT + 1]?, Vec::new(alloc)),
        Err(InputEnd::OutOfMemory) => return Err(SourceFault::OutOfMemory),
    };
    let choice = if renders && fails.is_empty() {
        SourceChoice::read(rt, alloc, RENDERER, CELLS, text.as_slice())?
    } else {
        SourceChoice::Local
    };
    let source = source_number(alloc, text.as_slice())?;
    let grain = grain_of(alloc, text.as_slice())?;
    Ok(CatalogueInput {
        input: Input::Read(MemorySource::new(text, PIECE, fails)),
        source,
        choice,
        grain,
    })
}

/// The words after the program's name.
fn words_of(rt: &(impl Env + AllocGlobal)) -> io::Result<Vec<Words>> {
    let mut words = Vec::new(rt.alloc());
    for word in env::args(rt)?.skip(1) {
        words.push(Words::new(rt.alloc(), word.as_bytes())?)?;
    }
    Ok(words)
}

fn main(rt: HostRuntime) -> ExitCode {
    let words = match words_of(&rt) {
        Ok(words) => words,
        Err(error) if error.kind() == io::ErrorKind::OutOfMemory => {
            return exit_code(&rt, Status::OutOfMemory);
        }
        Err(_) => return end_with(&rt, Status::Usage, &[]),
    };
    match top_call(words.as_slice()) {
        TopCall::Help => print_text(&rt, HELP),
        TopCall::WordHelp => print_help_of(&rt, words.as_slice()),
        TopCall::Version => print_version(&rt),
        TopCall::Command => command::command(rt, rt, words.as_slice()),
        TopCall::Serve => serve::serve(&rt, words.as_slice(), Clock::system(rt)),
        TopCall::Feed => feed::feed(rt, words.as_slice()),
        TopCall::Compose => compose::compose(rt, rt, words.as_slice()),
        TopCall::Twin => twin::twin(rt, rt, words.as_slice()),
        TopCall::Link => link::link(rt, words.as_slice()),
        TopCall::Look => look::look(rt, words.as_slice()),
        TopCall::Carry => carry::carry(rt, words.as_slice()),
        TopCall::Seal => seal::seal(&rt, words.as_slice()),
    }
}

/// The status of words for which no connection is had, by the system's error.
fn status_of_error(error: &io::Error) -> Status {
    if error.kind() == io::ErrorKind::OutOfMemory {
        return Status::OutOfMemory;
    }
    Status::ListenFault
}

/// The code of a source whose file is refused: that of a catalogue that is.
const SOURCE_CODE: u8 = 3;

/// The code of a source that is refused. A host that isn't found may be found later, as a port may be had later.
fn code_of(fault: SourceFault) -> u8 {
    match fault {
        SourceFault::UnknownHost(_, _) => Status::ListenFault.code(),
        _ => SOURCE_CODE,
    }
}

/// Tells why there is no source, and gives the code: where another file of the program may fail so, that of such a fault.
fn without_source(
    rt: &(impl Files<File = File> + Eprint + AllocGlobal),
    fault: SourceFault,
) -> ExitCode {
    match fault {
        SourceFault::ReadFault => end_with(rt, Status::ReadFault, &[]),
        SourceFault::TooLong => end_with(rt, Status::TooLong, &[]),
        SourceFault::OutOfMemory => exit_code(rt, Status::OutOfMemory),
        refused => {
            let _ = eprintln!(rt; "{refused}");
            ExitCode::from(code_of(refused))
        }
    }
}

/// Tells a status on standard error, `Done` apart, and gives its code. A standard error that takes nothing changes nothing.
fn exit_code(rt: &impl Eprint, status: Status) -> ExitCode {
    if status != Status::Done {
        let _ = eprintln!(rt; "{status}");
    }
    ExitCode::from(status.code())
}

/// Prints the help of the first word on standard output.
fn print_help_of(
    rt: &(impl Files<File = File> + Print + Eprint + AllocGlobal),
    words: &[Words],
) -> ExitCode {
    let text = match words {
        [word, ..] => help_of(word.bytes()),
        [] => None,
    };
    match text {
        Some(text) => print_text(rt, text),
        None => end_with(rt, Status::Usage, &[]),
    }
}

/// Prints the version and the commit on standard output.
fn print_version(rt: &(impl Print + Eprint)) -> ExitCode {
    match println!(rt; "tile_server {VERSION} ({COMMIT})") {
        Ok(()) => ExitCode::from(Status::Done.code()),
        Err(_) => exit_code(rt, Status::WriteFault),
    }
}

/// Prints a text on standard output.
fn print_text(rt: &(impl Print + Eprint), text: &str) -> ExitCode {
    match rt.print(text) {
        Ok(()) => ExitCode::from(Status::Done.code()),
        Err(_) => exit_code(rt, Status::WriteFault),
    }
}
