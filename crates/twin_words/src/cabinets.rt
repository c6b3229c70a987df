//! The cabinet of a disk that is lent, opened and closed several times within a word, so that its clock goes on.
ghost use Rattle.std.specs.Prelude.{◌≡◌, ◌≤◌, IfErr, IfOk, IsTrue};
ghost use Rattle.catalog.specs.Valid.{IsValid};
ghost use Rattle.durable_cabinet.specs.Images.{IsOurs};
ghost use Rattle.gate_journal.specs.Sound.{IsSettled};
ghost use Rattle.opened_cache.specs.Crash.{IsCacheClosed, OpeningLeaves};
ghost use Rattle.opened_cache.specs.Opened.{IsOpened};
ghost use Rattle.twin_words.specs.Made.{change_of};
ghost use Rattle.twin_words.specs.Opens.{RefusesCache};

use base::Clock;
use catalog::Catalogue;
use disk_model::Disk;
use durable_cabinet::Cabinet;
use gate_journal::OpenFault;
use opened_cache::{LentDisk, Loan};
use std::alloc::Global;

/// Opens the cabinet of a disk that is lent. Every image of a moment of it is one of those at entry, or opens as what was read. A refusal
/// hands the loan back.
pub fn opened_cabinet<'d, D: Disk, L: Loan>(
    alloc: Global,
    catalogue: Catalogue,
    clock: Clock,
    disk: &'d mut D,
) -> Result<Cabinet<LentDisk<'d, D, L>>, (OpenFault, &'d mut D)>
    requires valid { IsValid catalogue }
    requires loan { disk.ghost_name ≡ L.disk }
    requires ours { IsTrue (D.told disk.now) → IsOurs catalogue (D.state disk.now).seen }
    ensures opened { IfOk result (λ k. IsOpened catalogue clock (change_of D.told D.state D.faults disk.entry.now k.file.disk.disk.now) k.state) }
    ensures leaves { IfOk result (λ k. OpeningLeaves catalogue (change_of D.told D.state D.faults disk.entry.now k.file.disk.disk.now)) }
    ensures settled { IfOk result (λ k. IsSettled k.file.journal) }
    ensures told { IfOk result (λ k. D.told k.file.disk.disk.now ≡ D.told disk.entry.now) }
    ensures later { IfOk result (λ k. D.faults disk.entry.now ≤ D.faults k.file.disk.disk.now) }
    ensures refused { IfErr result (λ r. RefusesCache catalogue (change_of D.told D.state D.faults disk.entry.now r.1.now) r.0) }
    ensures refused_leaves { IfErr result (λ r. OpeningLeaves catalogue (change_of D.told D.state D.faults disk.entry.now r.1.now)) }
    ensures refused_told { IfErr result (λ r. D.told r.1.now ≡ D.told disk.entry.now) }
    ensures refused_loan { IfErr result (λ r. r.1.ghost_name ≡ L.disk) }
    ensures refused_later { IfErr result (λ r. D.faults disk.entry.now ≤ D.faults r.1.now) }
{
    match Cabinet::open(alloc, catalogue, clock, LentDisk::<D, L>::new(disk)) {
        Ok(cabinet) => Ok(cabinet),
        Err(refusal) => {
            let (cause, lent) = refusal;
            Err((cause, lent.into_disk()))
        }
    }
}

/// What a cabinet that is closed hands back.
#[derive(Drop)]
pub struct Closed<'d, D> {
    /// The disk that was lent.
    pub disk: &'d mut D,
    /// The clock, as it stands.
    pub clock: Clock,
}

/// Closes the cabinet of a disk that is lent, and hands the loan back, and the clock.
pub fn closed_with_clock<'d, D: Disk, L: Loan>(
    cabinet: Cabinet<LentDisk<'d, D, L>>,
) -> Closed<'d, D>
    ensures loan { result.disk.ghost_name ≡ L.disk }
    ensures same { result.disk.now ≡ cabinet.entry.file.disk.disk.now }
    ensures clock { result.clock ≡ cabinet.entry.state.clock }
    ensures closed { IsCacheClosed (D.told result.disk.now) cabinet.entry.file.journal (D.state result.disk.now) cabinet.entry.state }
{
    cabinet.known();
    cabinet.images();
    let parts = cabinet.take_apart();
    Closed {
        disk: parts.disk.into_disk(),
        clock: parts.clock,
    }
}
