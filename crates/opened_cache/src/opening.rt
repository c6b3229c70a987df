//! The cabinet of a disk that is lent, opened for a word and closed after it.
ghost use Rattle.std.specs.Prelude.{◌≡◌, ◌≤◌, IfErr, IfOk, IsTrue};
ghost use Rattle.catalog.specs.Valid.{IsValid};
ghost use Rattle.durable_cabinet.specs.Filed.{IsRefusedAs};
ghost use Rattle.durable_cabinet.specs.Images.{IsOurs};
ghost use Rattle.gate_journal.specs.Sound.{IsSettled};
ghost use Rattle.opened_cache.specs.Change.{DiskChange};
ghost use Rattle.opened_cache.specs.Crash.{IsCacheClosed, LastsThrough};
ghost use Rattle.opened_cache.specs.Opened.{IsOpened, RefusalLeaves};
ghost use Rattle.sessions.specs.Outside.{counts};

use crate::lent::{LentDisk, Loan};
use base::Clock;
use catalog::Catalogue;
use disk_model::Disk;
use durable_cabinet::Cabinet;
use gate_journal::OpenFault;
use std::alloc::Global;

/// Opens the cabinet of a disk that is lent. A refusal hands the loan back.
pub fn open_cache<'a, D: Disk, L: Loan>(
    alloc: Global,
    catalogue: Catalogue,
    clock: Clock,
    disk: &'a mut D,
) -> Result<Cabinet<LentDisk<'a, D, L>>, (OpenFault, &'a mut D)>
    requires valid { IsValid catalogue }
    requires loan { disk.ghost_name ≡ L.disk }
    requires ours { IsTrue (D.told disk.now) → IsOurs catalogue (D.state disk.now).seen }
    ensures opened { IfOk result (λ k. IsOpened catalogue clock (record { told = D.told disk.entry.now; faults = counts (D.faults disk.entry.now) (D.faults k.file.disk.disk.now); from = D.state disk.entry.now; to = D.state k.file.disk.disk.now }) k.state) }
    ensures lasts { IfOk result (λ k. LastsThrough catalogue (record { told = D.told disk.entry.now; faults = counts (D.faults disk.entry.now) (D.faults k.file.disk.disk.now); from = D.state disk.entry.now; to = D.state k.file.disk.disk.now })) }
    ensures settled { IfOk result (λ k. IsSettled k.file.journal) }
    ensures told { IfOk result (λ k. D.told k.file.disk.disk.now ≡ D.told disk.entry.now) }
    ensures later { IfOk result (λ k. D.faults disk.entry.now ≤ D.faults k.file.disk.disk.now) }
    ensures refused { IfErr result (λ r. IsRefusedAs (D.told disk.entry.now) catalogue (D.state disk.entry.now).seen (D.faults disk.entry.now) (D.faults r.1.now) r.0) }
    ensures refused_lasts { IfErr result (λ r. LastsThrough catalogue (record { told = D.told disk.entry.now; faults = counts (D.faults disk.entry.now) (D.faults r.1.now); from = D.state disk.entry.now; to = D.state r.1.now })) }
    ensures refused_leaves { IfErr result (λ r. RefusalLeaves catalogue (record { told = D.told disk.entry.now; faults = counts (D.faults disk.entry.now) (D.faults r.1.now); from = D.state disk.entry.now; to = D.state r.1.now }) r.0) }
    ensures refused_told { IfErr result (λ r. D.told r.1.now ≡ D.told disk.entry.now) }
    ensures refused_loan { IfErr result (λ r. r.1.ghost_name ≡ L.disk) }
    ensures refused_later { IfErr result (λ r. D.faults disk.entry.now ≤ D.faults r.1.now) }
{
    match Cabinet::open(alloc, catalogue, clock, LentDisk::<D, L>::new(disk)) {
        Ok(cabinet) => Ok(cabinet),
        Err(refusal) => {
            let (fault, lent) = refusal;
            Err((fault, lent.into_disk()))
        }
    }
}

/// Closes the cabinet of a disk that is lent, and hands the loan back.
pub fn close_cache<'a, D: Disk, L: Loan>(cabinet: Cabinet<LentDisk<'a, D, L>>) -> &'a mut D
    ensures loan { result.ghost_name ≡ L.disk }
    ensures same { result.now ≡ cabinet.entry.file.disk.disk.now }
    ensures closed { IsCacheClosed (D.told result.now) cabinet.entry.file.journal (D.state result.now) cabinet.entry.state }
{
    cabinet.known();
    cabinet.images();
    cabinet.take_apart().disk.into_disk()
}
