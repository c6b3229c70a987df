//! The word of a composition, run over any objects.
use base::Clock;
use compose_words::{ComposeEnd, run_compose};
use exact_ratio::Words;
use http_wire::{ByteSink, ByteSource};
use source_render::Source;
use std::alloc::Global;

/// Runs the word of a composition, and tells its end alone.
pub fn composed_end<S: Source, I: ByteSource, O: ByteSink>(
    alloc: Global,
    words: &[Words],
    catalogue: &mut I,
    input: &mut I,
    output: &mut O,
    source: &mut S,
    clock: Clock,
) -> ComposeEnd {
    run_compose(alloc, words, catalogue, input, output, source, clock)
}
