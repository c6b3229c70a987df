//! How a cabinet begins with what its records are restored to. Where that fails, each value is dropped by a call of its own: left to the
//! end of a body that has several ends, the drops of so large values are gone through at each.
ghost use Rattle.std.specs.Prelude.{◌≡◌, ◌⊎◌, ◌≤◌, [], IfErr, IfOk, IsTrue};
ghost use Rattle.base.specs.Causes.{Rose};
ghost use Rattle.cabinet_records.specs.Replay.{Replayed};
ghost use Rattle.catalog.specs.Valid.{IsValid};
ghost use Rattle.disk_model.specs.Images.{Leaves};
ghost use Rattle.durable_cabinet.specs.Drafts.{HasRoom};
ghost use Rattle.durable_cabinet.specs.Ends.{disk_of};
ghost use Rattle.durable_cabinet.specs.Filed.{IsRefusedAs, OpensLike, on_disk, opened_as};
ghost use Rattle.durable_cabinet.specs.Images.{IsOurs, OpensTo};
ghost use Rattle.durable_cabinet.specs.Openings.{IsOpeningBegun, IsReplayed, OpensWith};
ghost use Rattle.gate_journal.specs.Sound.{IsSettled};

use crate::beginning::{draft_of, number_after, write_opening};
use crate::disk_cabinet::Cabinet;
use crate::draft::CompactionDraft;
use crate::hot::HotTier;
use base::Clock;
use cabinet::Core;
use cabinet_records::{Restored, laws_of_replays};
use cache_file::CacheFile;
use catalog::Catalogue;
use disk_model::Disk;
use gate_journal::OpenFault;
use std::alloc::Global;

/// Makes the opening of a core durable, and ties it to its file, with nothing in the hot tier.
fn enter<D: Disk>(
    core: Core,
    draft: CompactionDraft,
    hot: HotTier,
    file: CacheFile<D>,
) -> Result<Cabinet<D>, (OpenFault, D)>
    requires begun { IsOpeningBegun (D.told file.disk) core.state (D.state file.disk) file.start file.journal }
    requires room { HasRoom core.state draft }
    requires cold { hot ≡ [] }
    ensures told { D.told (disk_of result) ≡ D.told file.disk }
    ensures state { IfOk result (λ c. c.state ≡ on_disk (D.told file.disk) (D.state file.disk).seen core.state) }
    ensures settled { IfOk result (λ c. IsSettled c.file.journal) }
    ensures refused { IfErr result (λ r. (r.0 ≡ OpenFault.DiskFault) × Rose (D.faults file.disk) (D.faults r.1)) }
    ensures later { D.faults file.disk ≤ D.faults (disk_of result) }
    ensures images { IsTrue (D.told file.disk) → Leaves (D.state file.disk) (D.state (disk_of result)) (OpensWith core.state (D.state file.disk).seen) }
{
    core.known();
    let mut file = file;
    let mut draft = draft;
    match write_opening(&core, &mut draft, &mut file) {
        Ok(()) => Ok(Cabinet {
            core,
            file,
            draft,
            hot,
        }),
        Err(_) => {
            drop(core);
            drop(draft);
            drop(hot);
            Err((OpenFault::DiskFault, file.into_disk()))
        }
    }
}

/// Opens a cabinet with what its records are restored to, under the next number. A refusal hands the disk back.
pub(crate) fn begin<D: Disk>(
    alloc: Global,
    catalogue: Catalogue,
    clock: Clock,
    file: CacheFile<D>,
    restored: Restored,
) -> Result<Cabinet<D>, (OpenFault, D)>
    requires valid { IsValid catalogue }
    requires replayed { IsReplayed (D.told file.disk) catalogue (D.state file.disk) file.journal restored.opening restored.kept.items restored.cuts.book }
    requires ours { IsTrue (D.told file.disk) → IsOurs catalogue (D.state file.disk).seen }
    ensures told { D.told (disk_of result) ≡ D.told file.disk }
    ensures opened { IfOk result (λ c. (r : Replayed) × (c.state ≡ opened_as (D.told file.disk) (D.state file.disk).seen catalogue clock r) × (IsTrue (D.told file.disk) → OpensTo catalogue (D.state file.disk).seen r)) }
    ensures settled { IfOk result (λ c. IsSettled c.file.journal) }
    ensures refused { IfErr result (λ r. IsRefusedAs (D.told file.disk) catalogue (D.state file.disk).seen (D.faults file.disk) (D.faults r.1) r.0) }
    ensures later { D.faults file.disk ≤ D.faults (disk_of result) }
    ensures images { IsTrue (D.told file.disk) → Leaves (D.state file.disk) (D.state (disk_of result)) (λ image. (r : Replayed) × OpensTo catalogue (D.state file.disk).seen r × OpensLike catalogue r (D.state file.disk).seen image × IsOurs catalogue image) }
{
    laws_of_replays();
    let Restored {
        opening,
        kept,
        cuts,
    } = restored;
    let number = match number_after(opening) {
        Some(number) => number,
        None => {
            drop(catalogue);
            drop(clock);
            drop(kept);
            drop(cuts);
            return Err((OpenFault::Spent, file.into_disk()));
        }
    };
    match Core::from_opening(alloc, catalogue, clock, number, kept, cuts) {
        Err(_) => Err((OpenFault::OutOfMemory, file.into_disk())),
        Ok(core) => match draft_of(alloc, &core) {
            Err(_) => {
                drop(core);
                Err((OpenFault::OutOfMemory, file.into_disk()))
            }
            Ok(draft) => match HotTier::new(alloc) {
                Err(_) => {
                    drop(core);
                    drop(draft);
                    Err((OpenFault::OutOfMemory, file.into_disk()))
                }
                Ok(hot) => enter(core, draft, hot, file),
            },
        },
    }
}
