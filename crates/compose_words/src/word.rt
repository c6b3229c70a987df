//! The word of a composition, done.
ghost use Rattle.std.specs.Prelude.{◌≡◌, ◌↔◌, false, true};
ghost use Rattle.compose_words.specs.Complete.{IsComplete};
ghost use Rattle.compose_words.specs.Ends.{ComposeChange, ComposeTells, Outer, Stays};
ghost use Rattle.compose_words.specs.Words.{is_compose};
ghost use Rattle.sessions.specs.Outside.{InputChange, counts};

use crate::composing::compose_input;
use crate::end::{ComposeEnd, end_of_refusal};
use crate::words::is_compose;
use base::Clock;
use command_setup::read_configuration;
use exact_ratio::Words;
use http_wire::{ByteSink, ByteSource};
use source_render::Source;
use std::alloc::Global;

/// Does the word under the catalogue that is read.
fn compose<S: Source, I: ByteSource, O: ByteSink>(
    alloc: Global,
    catalogue: &mut I,
    input: &mut I,
    output: &mut O,
    source: &mut S,
    clock: Clock,
) -> ComposeEnd
    ensures never { result ≡ ComposeEnd.Usage → ⊥ }
    ensures tells { ComposeTells
        (record {
          catalogue = record { reads = counts (I.faults catalogue.old) (I.faults catalogue.new); from = I.left catalogue.old; to = I.left catalogue.new };
          input = record { reads = counts (I.faults input.old) (I.faults input.new); from = I.left input.old; to = I.left input.new };
          outer = record { told = S.told source.old; renders = counts (S.faults source.old) (S.faults source.new); output = record { writes = counts (O.faults output.old) (O.faults output.new); from = O.taken output.old; to = O.taken output.new } };
        })
        (record { catalogue = (catalogue.new ≡ catalogue.old); input = (input.new ≡ input.old); output = (output.new ≡ output.old); source = (source.new ≡ source.old) })
        clock true result }
{
    match read_configuration(alloc, catalogue) {
        Ok(read) => compose_input(alloc, read, input, output, source, clock),
        Err(refusal) => end_of_refusal(refusal),
    }
}

/// Does what the word `compose` says, under the catalogue that it reads; a catalogue of no bytes is the built-in one. The input is read
/// whole. Its first line is a recipe (`Recipe::read`), and each later line is `GET` and the numbers of a matrix of the recipe's grid, of a row
/// and of a column, each of 1 to 10 digits, with one blank in front of each, or `TRUNCATE`, one blank and a cover. The lines are answered one
/// after the other on a cabinet in memory, and each answer is written at once: a tile with the numbers of its renders, that the source failed,
/// that no number is left, the number of a truncation, or that there is no room for one more. What is answered ends nothing.
///
/// `Usage` exactly where the words are others, and nothing is then read or written; each other end comes as `ComposeTells` says, so that a
/// composition whose texts are in order is done unless something failed or memory ran out (`IsComplete`).
pub fn run_compose<S: Source, I: ByteSource, O: ByteSink>(
    alloc: Global,
    words: &[Words],
    catalogue: &mut I,
    input: &mut I,
    output: &mut O,
    source: &mut S,
    clock: Clock,
) -> ComposeEnd
    ensures usage { (result ≡ ComposeEnd.Usage) ↔ (is_compose words.now ≡ false) }
    ensures tells { ComposeTells
        (record {
          catalogue = record { reads = counts (I.faults catalogue.old) (I.faults catalogue.new); from = I.left catalogue.old; to = I.left catalogue.new };
          input = record { reads = counts (I.faults input.old) (I.faults input.new); from = I.left input.old; to = I.left input.new };
          outer = record { told = S.told source.old; renders = counts (S.faults source.old) (S.faults source.new); output = record { writes = counts (O.faults output.old) (O.faults output.new); from = O.taken output.old; to = O.taken output.new } };
        })
        (record { catalogue = (catalogue.new ≡ catalogue.old); input = (input.new ≡ input.old); output = (output.new ≡ output.old); source = (source.new ≡ source.old) })
        clock (is_compose words.now) result }
    ensures complete { IsComplete
        (record {
          catalogue = record { reads = counts (I.faults catalogue.old) (I.faults catalogue.new); from = I.left catalogue.old; to = I.left catalogue.new };
          input = record { reads = counts (I.faults input.old) (I.faults input.new); from = I.left input.old; to = I.left input.new };
          outer = record { told = S.told source.old; renders = counts (S.faults source.old) (S.faults source.new); output = record { writes = counts (O.faults output.old) (O.faults output.new); from = O.taken output.old; to = O.taken output.new } };
        })
        (is_compose words.now) result }
{
    if is_compose(words) {
        compose(alloc, catalogue, input, output, source, clock)
    } else {
        ComposeEnd::Usage
    }
}
