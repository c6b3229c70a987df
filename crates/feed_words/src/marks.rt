//! The feed of marks that are lent, opened for a word and closed after it.
ghost use Rattle.std.specs.Prelude.{◌≡◌, ◌≤◌, IfErr, IfOk, IsTrue, None};
ghost use Rattle.change_feed.specs.Files.{EndsIn, IsMarksFile, IsRefusedAs, MayEndIn};
ghost use Rattle.disk_model.specs.Content.{Same};
ghost use Rattle.disk_model.specs.Images.{ChangesBy, Every};
ghost use Rattle.gate_journal.specs.Sound.{digest_of};

use catalog::Catalogue;
use change_feed::Feed;
use disk_model::Disk;
use gate_journal::OpenFault;
use opened_cache::{LentDisk, Loan};
use std::alloc::Global;

/// Opens the feed of marks that are lent. A refusal hands the loan back.
pub fn opened_marks<'m, D: Disk, L: Loan>(
    alloc: Global,
    catalogue: &Catalogue,
    marks: &'m mut D,
) -> Result<Feed<LentDisk<'m, D, L>>, (OpenFault, &'m mut D)>
    requires loan { marks.ghost_name ≡ L.disk }
    requires ours { IsTrue (D.told marks.now) → IsMarksFile catalogue.now.digest (D.state marks.now).seen }
    ensures opened { IfOk result (λ f. IsTrue (D.told marks.entry.now) → EndsIn catalogue.now.digest f.stand.mark (D.state marks.entry.now).seen) }
    ensures sure { IfOk result (λ f. f.stand.undecided ≡ None) }
    ensures digest { IfOk result (λ f. digest_of f.file.journal ≡ catalogue.now.digest) }
    ensures quiet { IfOk result (λ f. IsTrue (D.told marks.entry.now) → ChangesBy Same (D.state marks.entry.now) (D.state f.file.disk.disk.now)) }
    ensures told { IfOk result (λ f. D.told f.file.disk.disk.now ≡ D.told marks.entry.now) }
    ensures later { IfOk result (λ f. D.faults marks.entry.now ≤ D.faults f.file.disk.disk.now) }
    ensures refused { IfErr result (λ r. IsRefusedAs (D.told marks.entry.now) catalogue.now.digest (D.state marks.entry.now).seen (D.faults marks.entry.now) (D.faults r.1.now) r.0) }
    ensures refused_quiet { IfErr result (λ r. IsTrue (D.told marks.entry.now) → ChangesBy Same (D.state marks.entry.now) (D.state r.1.now)) }
    ensures refused_told { IfErr result (λ r. D.told r.1.now ≡ D.told marks.entry.now) }
    ensures refused_loan { IfErr result (λ r. r.1.ghost_name ≡ L.disk) }
{
    match Feed::open(alloc, catalogue, LentDisk::<D, L>::new(marks)) {
        Ok(feed) => Ok(feed),
        Err(refusal) => {
            let (fault, lent) = refusal;
            Err((fault, lent.into_disk()))
        }
    }
}

/// Closes the feed of marks that are lent, and hands the loan back.
pub fn closed_marks<'m, D: Disk, L: Loan>(feed: Feed<LentDisk<'m, D, L>>) -> &'m mut D
    ensures loan { result.ghost_name ≡ L.disk }
    ensures same { result.now ≡ feed.entry.file.disk.disk.now }
    ensures left { IsTrue (D.told result.now) → Every (D.state result.now).may_leave (MayEndIn (digest_of feed.entry.file.journal) feed.entry.stand) }
{
    feed.images();
    feed.close().into_disk()
}
