//! A step of upkeep on the cache of the disk.
ghost use Rattle.std.specs.Prelude.{◌≡◌, IsTrue, ⊤};
ghost use Rattle.catalog.specs.Valid.{IsValid};
ghost use Rattle.opened_cache.specs.Change.{DiskChange};
ghost use Rattle.sessions.specs.Outside.{InputChange, OutputChange, counts};
ghost use Rattle.tile_command.specs.Change.{Stays};
ghost use Rattle.tile_command.specs.Command.{IsFitForUpkeep, IsFitUnder};
ghost use Rattle.tile_command.specs.Kept.{HasKeptUp, StepLasts, UpkeepLasts, UpkeepTells};

use base::Clock;
use catalog::Catalogue;
use command_setup::{read_configuration, status_of_refusal};
use command_status::Status;
use command_words::UpkeepWord;
use disk_model::Disk;
use disk_words::{expire, make, truncate, usage};
use http_wire::{ByteSink, ByteSource};
use std::alloc::Global;

/// Does a step of upkeep under a catalogue.
fn step<D: Disk, I: ByteSource, O: ByteSink>(
    alloc: Global,
    word: UpkeepWord,
    catalogue: Catalogue,
    input: &mut I,
    output: &mut O,
    disk: &mut D,
    clock: Clock,
) -> Status
    requires valid { IsValid catalogue }
    requires fit { IsFitUnder catalogue word (D.told disk.old) (D.state disk.old).seen }
    ensures keeps { HasKeptUp
        (record { reads = counts (I.faults input.old) (I.faults input.new); from = I.left input.old; to = I.left input.new })
        (record { writes = counts (O.faults output.old) (O.faults output.new); from = O.taken output.old; to = O.taken output.new })
        (record { catalogue = ⊤; capabilities = ⊤; input = (input.new ≡ input.old); output = (output.new ≡ output.old); source = ⊤ })
        (record { told = D.told disk.old; faults = counts (D.faults disk.old) (D.faults disk.new); from = D.state disk.old; to = D.state disk.new })
        (disk.new ≡ disk.old) clock word catalogue result }
    ensures lasts { StepLasts catalogue (record { told = D.told disk.old; faults = counts (D.faults disk.old) (D.faults disk.new); from = D.state disk.old; to = D.state disk.new }) word }
{
    match word {
        UpkeepWord::Make => make(&catalogue, disk, output),
        UpkeepWord::Truncate => truncate(alloc, catalogue, input, clock, disk, output),
        UpkeepWord::Expire => expire(alloc, catalogue, clock, disk, output),
        UpkeepWord::Usage => usage(alloc, catalogue, clock, disk, output),
    }
}

/// Does a step of upkeep on the cache of the disk, under the catalogue that is read. Each status comes as `UpkeepTells` says, and a
/// crash leaves what `UpkeepLasts` says.
pub fn kept_up<D: Disk, I: ByteSource, O: ByteSink>(
    alloc: Global,
    word: UpkeepWord,
    catalogue: &mut I,
    input: &mut I,
    output: &mut O,
    disk: &mut D,
    clock: Clock,
) -> Status
    requires { IsFitForUpkeep word (I.left catalogue.old) (D.told disk.old) (D.state disk.old).seen }
    ensures tells { UpkeepTells
        (record { reads = counts (I.faults catalogue.old) (I.faults catalogue.new); from = I.left catalogue.old; to = I.left catalogue.new })
        (record { reads = counts (I.faults input.old) (I.faults input.new); from = I.left input.old; to = I.left input.new })
        (record { writes = counts (O.faults output.old) (O.faults output.new); from = O.taken output.old; to = O.taken output.new })
        (record { catalogue = ⊤; capabilities = ⊤; input = (input.new ≡ input.old); output = (output.new ≡ output.old); source = ⊤ })
        (record { told = D.told disk.old; faults = counts (D.faults disk.old) (D.faults disk.new); from = D.state disk.old; to = D.state disk.new })
        (disk.new ≡ disk.old) clock word result }
    ensures lasts { UpkeepLasts
        (record { reads = counts (I.faults catalogue.old) (I.faults catalogue.new); from = I.left catalogue.old; to = I.left catalogue.new })
        (record { told = D.told disk.old; faults = counts (D.faults disk.old) (D.faults disk.new); from = D.state disk.old; to = D.state disk.new })
        (disk.new ≡ disk.old) word }
{
    match read_configuration(alloc, catalogue) {
        Ok(read) => step(alloc, word, read, input, output, disk, clock),
        Err(refusal) => status_of_refusal(refusal),
    }
}
