//! The outbox of a disk that is lent, opened for a word and closed after it.
ghost use Rattle.std.specs.Prelude.{◌≡◌, ◌≤◌, IfErr, IfOk, IsTrue, None};
ghost use Rattle.catalog.specs.Valid.{IsValid};
ghost use Rattle.disk_model.specs.Content.{Same};
ghost use Rattle.disk_model.specs.Images.{ChangesBy, Every};
ghost use Rattle.outbox.specs.Files.{IsOutboxFile, IsRefusedAs, MayOpenTo, OpensToPosts};

use catalog::Catalogue;
use disk_model::Disk;
use gate_journal::OpenFault;
use opened_cache::{LentDisk, Loan};
use outbox::Outbox;
use std::alloc::Global;

/// Opens the outbox of a disk that is lent. A refusal hands the loan back.
pub fn opened_outbox<'o, D: Disk, L: Loan>(
    alloc: Global,
    catalogue: &Catalogue,
    outbox: &'o mut D,
) -> Result<Outbox<LentDisk<'o, D, L>>, (OpenFault, &'o mut D)>
    requires valid { IsValid catalogue.now }
    requires loan { outbox.ghost_name ≡ L.disk }
    requires ours { IsTrue (D.told outbox.now) → IsOutboxFile catalogue.now (D.state outbox.now).seen }
    ensures opened { IfOk result (λ o. IsTrue (D.told outbox.entry.now) → OpensToPosts catalogue.now (D.state outbox.entry.now).seen o.out.posts) }
    ensures sure { IfOk result (λ o. o.out.undecided ≡ None) }
    ensures silent { IfOk result (λ o. o.out.heard ≡ 0) }
    ensures catalogue { IfOk result (λ o. o.catalogue ≡ catalogue.now) }
    ensures quiet { IfOk result (λ o. IsTrue (D.told outbox.entry.now) → ChangesBy Same (D.state outbox.entry.now) (D.state o.file.disk.disk.now)) }
    ensures told { IfOk result (λ o. D.told o.file.disk.disk.now ≡ D.told outbox.entry.now) }
    ensures later { IfOk result (λ o. D.faults outbox.entry.now ≤ D.faults o.file.disk.disk.now) }
    ensures refused { IfErr result (λ r. IsRefusedAs (D.told outbox.entry.now) catalogue.now (D.state outbox.entry.now).seen (D.faults outbox.entry.now) (D.faults r.1.now) r.0) }
    ensures refused_quiet { IfErr result (λ r. IsTrue (D.told outbox.entry.now) → ChangesBy Same (D.state outbox.entry.now) (D.state r.1.now)) }
    ensures refused_told { IfErr result (λ r. D.told r.1.now ≡ D.told outbox.entry.now) }
    ensures refused_later { IfErr result (λ r. D.faults outbox.entry.now ≤ D.faults r.1.now) }
    ensures refused_loan { IfErr result (λ r. r.1.ghost_name ≡ L.disk) }
{
    match Outbox::open(alloc, catalogue, LentDisk::<D, L>::new(outbox)) {
        Ok(opened) => Ok(opened),
        Err(refusal) => {
            let (fault, lent) = refusal;
            Err((fault, lent.into_disk()))
        }
    }
}

/// Closes the outbox of a disk that is lent, and hands the loan back.
pub fn closed_outbox<'o, D: Disk, L: Loan>(outbox: Outbox<LentDisk<'o, D, L>>) -> &'o mut D
    ensures loan { result.ghost_name ≡ L.disk }
    ensures same { result.now ≡ outbox.entry.file.disk.disk.now }
    ensures left { IsTrue (D.told result.now) → Every (D.state result.now).may_leave (MayOpenTo outbox.entry.catalogue outbox.entry.out) }
{
    outbox.images();
    outbox.close().into_disk()
}
