//! A job on the cache of the disk.
ghost use Rattle.std.specs.Prelude.{◌≡◌, ⊤};
ghost use Rattle.command_setup.specs.Held.{HoldsFile};
ghost use Rattle.opened_cache.specs.Change.{DiskChange};
ghost use Rattle.sessions.specs.Outside.{InputChange, Outside, counts};
ghost use Rattle.tile_command.specs.Change.{Stays};
ghost use Rattle.tile_command.specs.Job.{JobTells};
ghost use Rattle.tile_command.specs.Kept.{HasLasted};

use crate::command_end::{CommandEnd, without_job};
use base::Clock;
use command_setup::{read_configuration, status_of_refusal};
use disk_model::Disk;
use http_wire::{ByteSink, ByteSource};
use job_words::{JobEnd, run_job};
use source_render::Source;
use std::alloc::Global;

/// Runs the job that the input has on the cache of the disk, under the catalogue that is read. Each status comes as `JobTells` says, with the
/// count of the places that could not be kept, and a crash leaves what `HasLasted` says.
pub fn job_run<S: Source, D: Disk, I: ByteSource, O: ByteSink>(
    alloc: Global,
    catalogue: &mut I,
    input: &mut I,
    output: &mut O,
    source: &mut S,
    disk: &mut D,
    clock: Clock,
) -> CommandEnd
    requires { HoldsFile (I.left catalogue.old) (D.told disk.old) (D.state disk.old).seen }
    ensures tells { JobTells
        (record { reads = counts (I.faults catalogue.old) (I.faults catalogue.new); from = I.left catalogue.old; to = I.left catalogue.new })
        (record { reads = counts (I.faults input.old) (I.faults input.new); from = I.left input.old; to = I.left input.new })
        (record { told = S.told source.old; renders = counts (S.faults source.old) (S.faults source.new); disk = counts (D.faults disk.old) (D.faults disk.new); writes = counts (O.faults output.old) (O.faults output.new); from = O.taken output.old; to = O.taken output.new })
        (record { catalogue = ⊤; capabilities = ⊤; input = (input.new ≡ input.old); output = (output.new ≡ output.old); source = (source.new ≡ source.old) })
        (record { told = D.told disk.old; faults = counts (D.faults disk.old) (D.faults disk.new); from = D.state disk.old; to = D.state disk.new })
        (disk.new ≡ disk.old) clock result.unkept result.status }
    ensures lasts { HasLasted
        (record { reads = counts (I.faults catalogue.old) (I.faults catalogue.new); from = I.left catalogue.old; to = I.left catalogue.new })
        (record { told = D.told disk.old; faults = counts (D.faults disk.old) (D.faults disk.new); from = D.state disk.old; to = D.state disk.new })
        (disk.new ≡ disk.old) }
{
    match read_configuration(alloc, catalogue) {
        Ok(read) => {
            let JobEnd { status, unkept } = run_job(
                alloc, read, input, clock, disk, source, output,
            );
            CommandEnd { status, unkept }
        }
        Err(refusal) => without_job(status_of_refusal(refusal)),
    }
}
