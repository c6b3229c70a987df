//! The words of a link, run over any objects: what comes over the link is an input, and what goes is an output.
ghost use Rattle.std.specs.Prelude.{◌≡◌};
ghost use Rattle.link_words.specs.Ends.{Handed, IsFitFor};
ghost use Rattle.link_words.specs.Words.{link_word};

use base::Clock;
use disk_model::Disk;
use exact_ratio::Words;
use http_wire::{ByteSink, ByteSource, Duplex, Ends, Link, Loans};
use link_words::{LinkingEnd, run_link};
use std::alloc::Global;
use std::marker::Brand;

/// Runs the words over a link, and tells their end alone.
fn end_over<D: Disk, I: ByteSource, L: Link>(
    alloc: Global,
    words: &[Words],
    catalogue: &mut I,
    link: &mut L,
    clock: Clock,
    cache: &mut D,
    marks: &mut D,
    outbox: &mut D,
) -> LinkingEnd
    requires { IsFitFor (link_word words.now) (I.left catalogue.old) (record { cache_told = D.told cache.old; cache = (D.state cache.old).seen; marks_told = D.told marks.old; marks = (D.state marks.old).seen; outbox_told = D.told outbox.old; outbox = (D.state outbox.old).seen }) }
{
    run_link(alloc, words, catalogue, link, clock, cache, marks, outbox)
}

/// Runs the words over the link of these two, and gives them back.
fn end_over_both<'a, 'b, D: Disk, I: ByteSource, O: ByteSink, L: Loans>(
    alloc: Global,
    words: &[Words],
    catalogue: &mut I,
    ends: Ends<'a, 'b, I, O>,
    clock: Clock,
    cache: &mut D,
    marks: &mut D,
    outbox: &mut D,
) -> (Ends<'a, 'b, I, O>, LinkingEnd)
    requires fit { IsFitFor (link_word words.now) (I.left catalogue.old) (record { cache_told = D.told cache.old; cache = (D.state cache.old).seen; marks_told = D.told marks.old; marks = (D.state marks.old).seen; outbox_told = D.told outbox.old; outbox = (D.state outbox.old).seen }) }
    requires input { ends.input.ghost_name ≡ L.input }
    requires output { ends.output.ghost_name ≡ L.output }
{
    let mut link = Duplex::<I, O, L>::new(ends);
    let end = end_over(
        alloc, words, catalogue, &mut link, clock, cache, marks, outbox,
    );
    (link.into_ends(), end)
}

/// Runs the words over an input and an output, and tells their end alone.
pub fn linked_end<D: Disk, I: ByteSource, O: ByteSink>(
    alloc: Global,
    words: &[Words],
    catalogue: &mut I,
    input: &mut I,
    output: &mut O,
    clock: Clock,
    cache: &mut D,
    marks: &mut D,
    outbox: &mut D,
) -> LinkingEnd
    requires { IsFitFor (link_word words.now) (I.left catalogue.old) (record { cache_told = D.told cache.old; cache = (D.state cache.old).seen; marks_told = D.told marks.old; marks = (D.state marks.old).seen; outbox_told = D.told outbox.old; outbox = (D.state outbox.old).seen }) }
{
    let ends = Ends { input, output };
    let served = end_over_both::<D, I, O, Brand>(
        alloc, words, catalogue, ends, clock, cache, marks, outbox,
    );
    served.1
}
