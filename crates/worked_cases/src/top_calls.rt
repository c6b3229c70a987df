//! The top call of the program that the first word of a command names, run over memory forms.
ghost use Rattle.command_words.specs.Words.{word_of};
ghost use Rattle.tile_command.specs.Command.{IsFitFor};

use crate::composing::composed_end;
use crate::disks::Disks;
use crate::feeding::fed_status;
use crate::linking::linked_end;
use crate::source_fake::SourceFake;
use crate::twinning::twin_status;
use base::Clock;
use command_status::Status;
use command_words::{TopCall, top_call};
use disk_model::Disk;
use exact_ratio::Words;
use http_wire::{ByteSink, ByteSource, MemorySink, MemorySource};
use source_render::Source;
use std::alloc::{AllocError, Global};
use std::fmt::Display;
use tile_command::run_command;

/// The streams that a command reads.
#[derive(Drop)]
pub struct Streams {
    pub catalogue: MemorySource,
    pub capabilities: MemorySource,
    pub input: MemorySource,
}

/// The code and the line of an end.
fn line_of(alloc: Global, code: u8, end: &impl Display) -> Result<String, AllocError> {
    format!(in alloc; "{code} {end}")
}

/// Runs `run_command` over any objects, for its status.
fn status_of<S: Source, D: Disk, I: ByteSource, O: ByteSink>(
    alloc: Global,
    words: &[Words],
    catalogue: &mut I,
    capabilities: &mut I,
    input: &mut I,
    output: &mut O,
    source: &mut S,
    disk: &mut D,
    clock: Clock,
) -> Status
    requires { IsFitFor (word_of words.now) (I.left catalogue.old) (D.told disk.old) (D.state disk.old).seen }
{
    run_command(
        alloc,
        words,
        catalogue,
        capabilities,
        input,
        output,
        source,
        disk,
        clock,
    )
    .status
}

/// Runs the words of a feed over these objects.
fn fed(
    alloc: Global,
    words: &[Words],
    streams: &mut Streams,
    output: &mut MemorySink,
    disks: &mut Disks,
    clock: Clock,
) -> Result<String, AllocError> {
    let status = fed_status(
        alloc,
        words,
        &mut streams.catalogue,
        &mut streams.input,
        output,
        clock,
        &mut disks.cache,
        &mut disks.marks,
    );
    line_of(alloc, status.code(), &status)
}

/// Runs the word of a composition over these objects.
fn composed(
    alloc: Global,
    words: &[Words],
    streams: &mut Streams,
    output: &mut MemorySink,
    source: &mut SourceFake,
    clock: Clock,
) -> Result<String, AllocError> {
    let end = composed_end(
        alloc,
        words,
        &mut streams.catalogue,
        &mut streams.input,
        output,
        source,
        clock,
    );
    line_of(alloc, end.code(), &end)
}

/// Runs the words of a twin over these objects.
fn twinned(
    alloc: Global,
    words: &[Words],
    streams: &mut Streams,
    output: &mut MemorySink,
    source: &mut SourceFake,
    disks: &mut Disks,
    clock: Clock,
) -> Result<String, AllocError> {
    let status = twin_status(
        alloc,
        words,
        &mut streams.catalogue,
        &mut streams.input,
        output,
        source,
        clock,
        &mut disks.cache,
        &mut disks.marks,
        &mut disks.outbox,
    );
    line_of(alloc, status.code(), &status)
}

/// Runs the words of a link over these objects.
fn linked(
    alloc: Global,
    words: &[Words],
    streams: &mut Streams,
    output: &mut MemorySink,
    disks: &mut Disks,
    clock: Clock,
) -> Result<String, AllocError> {
    let end = linked_end(
        alloc,
        words,
        &mut streams.catalogue,
        &mut streams.input,
        output,
        clock,
        &mut disks.cache,
        &mut disks.marks,
        &mut disks.outbox,
    );
    line_of(alloc, end.code(), &end)
}

/// Runs any other words over these objects, those too that the program serves connections or prints a text at: they are no command.
fn commanded(
    alloc: Global,
    words: &[Words],
    streams: &mut Streams,
    output: &mut MemorySink,
    source: &mut SourceFake,
    disks: &mut Disks,
    clock: Clock,
) -> Result<String, AllocError> {
    let status = status_of(
        alloc,
        words,
        &mut streams.catalogue,
        &mut streams.capabilities,
        &mut streams.input,
        output,
        source,
        &mut disks.cache,
        clock,
    );
    line_of(alloc, status.code(), &status)
}

/// Runs the top call of these words over these objects, and tells the code and the line of its end.
pub fn status_by(
    alloc: Global,
    words: &[Words],
    streams: &mut Streams,
    output: &mut MemorySink,
    source: &mut SourceFake,
    disks: &mut Disks,
    clock: Clock,
) -> Result<String, AllocError> {
    match top_call(words) {
        TopCall::Feed => fed(alloc, words, streams, output, disks, clock),
        TopCall::Compose => composed(alloc, words, streams, output, source, clock),
        TopCall::Twin => twinned(alloc, words, streams, output, source, disks, clock),
        TopCall::Link => linked(alloc, words, streams, output, disks, clock),
        TopCall::Command
        | TopCall::Serve
        | TopCall::Help
        | TopCall::WordHelp
        | TopCall::Version
        | TopCall::Carry
        | TopCall::Look
        | TopCall::Seal => { commanded(alloc, words, streams, output, source, disks, clock) }
    }
}
