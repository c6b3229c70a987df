//! A run on a cabinet in memory.
ghost use Rattle.std.specs.Prelude.{◌≡◌, ⊤};
ghost use Rattle.catalog.specs.Valid.{IsValid};
ghost use Rattle.sessions.specs.Outside.{InputChange, Outside, counts};
ghost use Rattle.tile_command.specs.Change.{CommandChange, Stays};
ghost use Rattle.tile_command.specs.Memory.{HasWorked, MemoryTells, status_of_drill};
ghost use Rattle.tile_service.specs.Session.{IsAtRest};

use base::Clock;
use cabinet::Cabinet;
use command_setup::{prepare, status_of_refusal};
use command_status::{Status, status_of_schedule, status_of_session};
use command_words::MemoryWord;
use http_wire::{ByteSink, ByteSource};
use source_render::Source;
use std::alloc::Global;
use tile_drill::{DrillEnd, run_drill};
use tile_service::{Counter, replay_streams, run_schedule};

/// The status of a drill's end.
fn status_of_drill(end: DrillEnd) -> Status
    ensures { result ≡ status_of_drill end }
{
    match end {
        DrillEnd::Done => Status::Done,
        DrillEnd::WriteFault => Status::WriteFault,
        DrillEnd::OutOfMemory => Status::OutOfMemory,
    }
}

/// Does the work of a word with a counter at which nothing has happened: runs the lines of the input, serves its bytes as those of
/// one connection, or makes and runs the lines of a number. Each end comes as `HasWorked` says.
fn do_work<S: Source, I: ByteSource, O: ByteSink>(
    alloc: Global,
    counter: &mut Counter<Cabinet>,
    word: MemoryWord,
    source: &mut S,
    input: &mut I,
    output: &mut O,
) -> Status
    requires valid { IsValid counter.old.cabinet.catalogue }
    requires rest { IsAtRest counter.old.cabinet }
    ensures { HasWorked
        (record { reads = counts (I.faults input.old) (I.faults input.new); from = I.left input.old; to = I.left input.new })
        (record { told = S.told source.old; renders = counts (S.faults source.old) (S.faults source.new); disk = counts 0 0; writes = counts (O.faults output.old) (O.faults output.new); from = O.taken output.old; to = O.taken output.new })
        (record { catalogue = ⊤; capabilities = ⊤; input = (input.new ≡ input.old); output = (output.new ≡ output.old); source = (source.new ≡ source.old) })
        counter.old.cabinet counter.old.capabilities word result }
{
    match word {
        MemoryWord::Schedule => {
            let end = run_schedule(alloc, counter, source, input, output);
            counter.cabinet.known();
            status_of_schedule(end)
        }
        MemoryWord::Replay => {
            let end = replay_streams(alloc, counter, source, input, output);
            counter.cabinet.known();
            status_of_session(end)
        }
        MemoryWord::Drill(number) => {
            let end = run_drill(alloc, counter, source, number, output);
            counter.cabinet.known();
            status_of_drill(end)
        }
    }
}

/// Does what a word asks for on a cabinet in memory of the catalogue that is read. Each status comes as `MemoryTells` says.
pub fn in_memory<S: Source, I: ByteSource, O: ByteSink>(
    alloc: Global,
    word: MemoryWord,
    catalogue: &mut I,
    capabilities: &mut I,
    input: &mut I,
    output: &mut O,
    source: &mut S,
    clock: Clock,
) -> Status
    ensures { MemoryTells
        (record {
          catalogue = record { reads = counts (I.faults catalogue.old) (I.faults catalogue.new); from = I.left catalogue.old; to = I.left catalogue.new };
          capabilities = record { reads = counts (I.faults capabilities.old) (I.faults capabilities.new); from = I.left capabilities.old; to = I.left capabilities.new };
          input = record { reads = counts (I.faults input.old) (I.faults input.new); from = I.left input.old; to = I.left input.new };
          outside = record { told = S.told source.old; renders = counts (S.faults source.old) (S.faults source.new); disk = counts 0 0; writes = counts (O.faults output.old) (O.faults output.new); from = O.taken output.old; to = O.taken output.new };
        })
        (record { catalogue = (catalogue.new ≡ catalogue.old); capabilities = (capabilities.new ≡ capabilities.old); input = (input.new ≡ input.old); output = (output.new ≡ output.old); source = (source.new ≡ source.old) })
        clock word result }
{
    match prepare(alloc, catalogue, capabilities, clock) {
        Ok(mut counter) => {
            let status = do_work(alloc, &mut counter, word, source, input, output);
            drop(counter);
            status
        }
        Err(refusal) => status_of_refusal(refusal),
    }
}
