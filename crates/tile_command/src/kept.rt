//! A run on the cache of the disk.
ghost use Rattle.std.specs.Prelude.{◌≡◌, IsTrue, ⊤};
ghost use Rattle.catalog.specs.Valid.{IsValid};
ghost use Rattle.command_setup.specs.Held.{HoldsFile};
ghost use Rattle.durable_cabinet.specs.Images.{IsOurs};
ghost use Rattle.opened_cache.specs.Change.{DiskChange};
ghost use Rattle.opened_cache.specs.Crash.{LastsThrough};
ghost use Rattle.opened_cache.specs.Passing.{PassesDisk};
ghost use Rattle.sessions.specs.Outside.{InputChange, Outside, counts};
ghost use Rattle.tile_command.specs.Change.{CommandChange, Stays};
ghost use Rattle.tile_command.specs.Kept.{HasLasted, HasRun, RunTells};

use base::Clock;
use catalog::Catalogue;
use command_setup::{both_read, status_of_refusal};
use command_status::Status;
use command_words::KeptWord;
use disk_model::Disk;
use disk_words::{replay, schedule};
use exact_ratio::Words;
use http_wire::{ByteSink, ByteSource};
use source_render::Source;
use std::alloc::Global;

/// Runs a word on the cache of the disk, with the catalogue and the capabilities document.
fn run<S: Source, D: Disk, I: ByteSource, O: ByteSink>(
    alloc: Global,
    word: KeptWord,
    catalogue: Catalogue,
    document: Words,
    input: &mut I,
    output: &mut O,
    source: &mut S,
    disk: &mut D,
    clock: Clock,
) -> Status
    requires valid { IsValid catalogue }
    requires ours { IsTrue (D.told disk.old) → IsOurs catalogue (D.state disk.old).seen }
    ensures runs { HasRun (PassesDisk D D.state (D.told disk.old) (D.state disk.old) (D.state disk.new))
        (record { reads = counts (I.faults input.old) (I.faults input.new); from = I.left input.old; to = I.left input.new })
        (record { told = S.told source.old; renders = counts (S.faults source.old) (S.faults source.new); disk = counts (D.faults disk.old) (D.faults disk.new); writes = counts (O.faults output.old) (O.faults output.new); from = O.taken output.old; to = O.taken output.new })
        (record { catalogue = ⊤; capabilities = ⊤; input = (input.new ≡ input.old); output = (output.new ≡ output.old); source = (source.new ≡ source.old) })
        (record { told = D.told disk.old; faults = counts (D.faults disk.old) (D.faults disk.new); from = D.state disk.old; to = D.state disk.new })
        clock word catalogue document result }
    ensures lasts { LastsThrough catalogue (record { told = D.told disk.old; faults = counts (D.faults disk.old) (D.faults disk.new); from = D.state disk.old; to = D.state disk.new }) }
{
    match word {
        KeptWord::Schedule => schedule(
            alloc, catalogue, document, input, clock, disk, source, output,
        ),
        KeptWord::Replay => replay(
            alloc, catalogue, document, input, clock, disk, source, output,
        ),
    }
}

/// Does what a word asks for on the cache of the disk, under the catalogue that is read. Each status comes as `RunTells` says, and a
/// crash leaves what `HasLasted` says.
pub fn on_disk<S: Source, D: Disk, I: ByteSource, O: ByteSink>(
    alloc: Global,
    word: KeptWord,
    catalogue: &mut I,
    capabilities: &mut I,
    input: &mut I,
    output: &mut O,
    source: &mut S,
    disk: &mut D,
    clock: Clock,
) -> Status
    requires { HoldsFile (I.left catalogue.old) (D.told disk.old) (D.state disk.old).seen }
    ensures tells { RunTells (PassesDisk D D.state (D.told disk.old) (D.state disk.old) (D.state disk.new))
        (record {
          catalogue = record { reads = counts (I.faults catalogue.old) (I.faults catalogue.new); from = I.left catalogue.old; to = I.left catalogue.new };
          capabilities = record { reads = counts (I.faults capabilities.old) (I.faults capabilities.new); from = I.left capabilities.old; to = I.left capabilities.new };
          input = record { reads = counts (I.faults input.old) (I.faults input.new); from = I.left input.old; to = I.left input.new };
          outside = record { told = S.told source.old; renders = counts (S.faults source.old) (S.faults source.new); disk = counts (D.faults disk.old) (D.faults disk.new); writes = counts (O.faults output.old) (O.faults output.new); from = O.taken output.old; to = O.taken output.new };
        })
        (record { catalogue = (catalogue.new ≡ catalogue.old); capabilities = (capabilities.new ≡ capabilities.old); input = (input.new ≡ input.old); output = (output.new ≡ output.old); source = (source.new ≡ source.old) })
        (record { told = D.told disk.old; faults = counts (D.faults disk.old) (D.faults disk.new); from = D.state disk.old; to = D.state disk.new })
        (disk.new ≡ disk.old) clock word result }
    ensures lasts { HasLasted
        (record { reads = counts (I.faults catalogue.old) (I.faults catalogue.new); from = I.left catalogue.old; to = I.left catalogue.new })
        (record { told = D.told disk.old; faults = counts (D.faults disk.old) (D.faults disk.new); from = D.state disk.old; to = D.state disk.new })
        (disk.new ≡ disk.old) }
{
    match both_read(alloc, catalogue, capabilities) {
        Ok((read, document)) => run(
            alloc, word, read, document, input, output, source, disk, clock,
        ),
        Err(refusal) => status_of_refusal(refusal),
    }
}
