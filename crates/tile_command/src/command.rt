//! The top call: what the words ask for, done.
ghost use Rattle.std.specs.Prelude.{◌≡◌};
ghost use Rattle.command_words.specs.Words.{word_of};
ghost use Rattle.opened_cache.specs.Change.{DiskChange};
ghost use Rattle.opened_cache.specs.Passing.{PassesDisk};
ghost use Rattle.sessions.specs.Outside.{InputChange, Outside, counts};
ghost use Rattle.tile_command.specs.Change.{CommandChange, Stays};
ghost use Rattle.tile_command.specs.Command.{CommandRun, Commands, IsFitFor};

use crate::command_end::{CommandEnd, without_job};
use crate::job::job_run;
use crate::kept::on_disk;
use crate::memory::in_memory;
use crate::upkeep::kept_up;
use base::Clock;
use command_status::Status;
use command_words::{Word, word_of};
use disk_model::Disk;
use exact_ratio::Words;
use http_wire::{ByteSink, ByteSource};
use source_render::Source;
use std::alloc::Global;

/// Does what the words say, under the catalogue that it reads; a catalogue of no bytes is the built-in one. `schedule` runs the lines
/// of the input and writes the answers; `replay` serves the input as the bytes of one connection and writes the responses; `drill` and
/// a number runs the lines that the number makes, and writes a summary: these work on a cabinet in memory, the first two with `--kept`
/// on the cache of the disk. `make` makes that cache, `truncate` cuts the cover that the input has, `expire` drops metatiles until no
/// quota is exceeded, `usage` tells what is kept, and `job` runs the job that the input has, place by place; the end says how many of its places were
/// rendered and could not be kept. Each ask and force takes its moment from the clock.
///
/// What it comes to stands in `Commands`: `Usage` exactly where the words are none of these (`usage`); each other status comes as `HasServed`
/// says (`served`), and for no other cause than `HasCause` says (`cause`), so that what is in order is done, and what is refused of the files
/// is told, unless something failed or memory ran out (`complete`, `exact`). At every moment of every word but `make` a crash leaves what
/// `HasLastedBy` says (`lasts`); and after each line of a schedule, and each message of a connection, on the cache of the disk there is a
/// moment from which on a crash leaves what answers for each truncation that was done by then (`PassesDisk`). A modelled disk has to hold a
/// file of this program, by the catalogue that is read, where a word opens it.
pub fn run_command<S: Source, D: Disk, I: ByteSource, O: ByteSink>(
    alloc: Global,
    words: &[Words],
    catalogue: &mut I,
    capabilities: &mut I,
    input: &mut I,
    output: &mut O,
    source: &mut S,
    disk: &mut D,
    clock: Clock,
) -> CommandEnd
    requires { IsFitFor (word_of words.now) (I.left catalogue.old) (D.told disk.old) (D.state disk.old).seen }
    ensures { Commands (PassesDisk D D.state (D.told disk.old) (D.state disk.old) (D.state disk.new))
        (record {
          change = record {
            catalogue = record { reads = counts (I.faults catalogue.old) (I.faults catalogue.new); from = I.left catalogue.old; to = I.left catalogue.new };
            capabilities = record { reads = counts (I.faults capabilities.old) (I.faults capabilities.new); from = I.left capabilities.old; to = I.left capabilities.new };
            input = record { reads = counts (I.faults input.old) (I.faults input.new); from = I.left input.old; to = I.left input.new };
            outside = record { told = S.told source.old; renders = counts (S.faults source.old) (S.faults source.new); disk = counts (D.faults disk.old) (D.faults disk.new); writes = counts (O.faults output.old) (O.faults output.new); from = O.taken output.old; to = O.taken output.new };
          };
          stays = record { catalogue = (catalogue.new ≡ catalogue.old); capabilities = (capabilities.new ≡ capabilities.old); input = (input.new ≡ input.old); output = (output.new ≡ output.old); source = (source.new ≡ source.old) };
          disk = record { told = D.told disk.old; faults = counts (D.faults disk.old) (D.faults disk.new); from = D.state disk.old; to = D.state disk.new };
          disk_stays = (disk.new ≡ disk.old);
          clock = clock;
          word = word_of words.now;
          status = result.status;
          unkept = result.unkept;
        }) }
{
    match word_of(words) {
        Some(Word::InMemory(word)) => without_job(in_memory(
            alloc,
            word,
            catalogue,
            capabilities,
            input,
            output,
            source,
            clock,
        )),
        Some(Word::Kept(word)) => without_job(on_disk(
            alloc,
            word,
            catalogue,
            capabilities,
            input,
            output,
            source,
            disk,
            clock,
        )),
        Some(Word::Upkeep(word)) => {
            without_job(kept_up(alloc, word, catalogue, input, output, disk, clock))
        }
        Some(Word::Job) => job_run(alloc, catalogue, input, output, source, disk, clock),
        None => without_job(Status::Usage),
    }
}
