//! The words of a twin, run over any objects.
ghost use Rattle.twin_words.specs.Ends.{IsFitFor, text_of};
ghost use Rattle.twin_words.specs.Words.{twin_word};

use base::Clock;
use command_status::Status;
use disk_model::Disk;
use exact_ratio::Words;
use http_wire::{ByteSink, ByteSource};
use source_render::Source;
use std::alloc::Global;
use twin_words::run_twin;

/// Runs the words of a twin, and tells their status alone.
pub fn twin_status<S: Source, D: Disk, I: ByteSource, O: ByteSink>(
    alloc: Global,
    words: &[Words],
    catalogue: &mut I,
    input: &mut I,
    output: &mut O,
    source: &mut S,
    clock: Clock,
    cache: &mut D,
    marks: &mut D,
    outbox: &mut D,
) -> Status
    requires { IsFitFor (twin_word words.now) (I.left catalogue.old) (text_of D.told D.state cache.old) (text_of D.told D.state marks.old) (text_of D.told D.state outbox.old) }
{
    run_twin(
        alloc, words, catalogue, input, output, source, clock, cache, marks, outbox,
    )
}
