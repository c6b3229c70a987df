//! The words of a feed, run over any objects.
ghost use Rattle.feed_words.specs.Ends.{IsFitFor};
ghost use Rattle.feed_words.specs.Words.{feed_word};

use base::Clock;
use command_status::Status;
use disk_model::Disk;
use exact_ratio::Words;
use feed_words::run_feed;
use http_wire::{ByteSink, ByteSource};
use std::alloc::Global;

/// Runs the words of a feed, and tells their status alone.
pub fn fed_status<D: Disk, I: ByteSource, O: ByteSink>(
    alloc: Global,
    words: &[Words],
    catalogue: &mut I,
    input: &mut I,
    output: &mut O,
    clock: Clock,
    cache: &mut D,
    marks: &mut D,
) -> Status
    requires { IsFitFor (feed_word words.now) (I.left catalogue.old) (D.told cache.old) (D.state cache.old).seen (D.told marks.old) (D.state marks.old).seen }
{
    run_feed(alloc, words, catalogue, input, output, clock, cache, marks)
}
