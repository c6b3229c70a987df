//! A twin of three disks that are lent, opened and closed.
ghost use Rattle.std.specs.Prelude.{◌≡◌, ◌≤◌, IfErr, IfOk, IsTrue};
ghost use Rattle.cabinet.specs.State.{IsKnown};
ghost use Rattle.catalog.specs.Valid.{IsValid};
ghost use Rattle.change_feed.specs.Files.{IsMarksFile, MayEndIn};
ghost use Rattle.disk_model.specs.Images.{Every};
ghost use Rattle.durable_cabinet.specs.Images.{IsOurs};
ghost use Rattle.gate_journal.specs.Sound.{IsSettled, digest_of};
ghost use Rattle.opened_cache.specs.Crash.{IsCacheClosed, OpeningLeaves};
ghost use Rattle.outbox.specs.Files.{IsOutboxFile, MayOpenTo};
ghost use Rattle.twin_events.specs.Twins.{IsTwinReady, standing};
ghost use Rattle.twin_words.specs.Made.{change_of};
ghost use Rattle.twin_words.specs.Opens.{IsQuiet, OpensFollower, OpensTwin, RefusesFollower, RefusesTwin};

use crate::cabinets::opened_cabinet;
use crate::disks::{TwinDisks, Unfollowed, Unopened};
use crate::feeds::opened_feed;
use base::Clock;
use cabinet::Keeper;
use catalog::Catalogue;
use change_feed::Feed;
use disk_model::Disk;
use durable_cabinet::Cabinet;
use feed_words::{closed_marks, closed_outbox, opened_outbox};
use opened_cache::{LentDisk, Loan, close_cache};
use std::alloc::Global;
use twin_events::Twin;

/// A follower's cabinet and its feed, of disks that are lent.
#[derive(Drop)]
pub struct Follower<'d, 'm, D: Disk, M: Disk, A: Loan, B: Loan> {
    /// The cabinet of the cache.
    pub cabinet: Cabinet<LentDisk<'d, D, A>>,
    /// The feed of the marks.
    pub feed: Feed<LentDisk<'m, M, B>>,
}

/// Opens the cabinet of the cache, and then the feed of the marks. Where the marks are refused the cabinet is closed again. A refusal
/// hands both loans back.
pub(crate) fn opened_follower<'d, 'm, D: Disk, M: Disk, A: Loan, B: Loan>(
    alloc: Global,
    catalogue: Catalogue,
    clock: Clock,
    disk: &'d mut D,
    marks: &'m mut M,
) -> Result<Follower<'d, 'm, D, M, A, B>, Unfollowed<'d, 'm, D, M>>
    requires valid { IsValid catalogue }
    requires loan { disk.ghost_name ≡ A.disk }
    requires marks_loan { marks.ghost_name ≡ B.disk }
    requires ours { IsTrue (D.told disk.now) → IsOurs catalogue (D.state disk.now).seen }
    requires marks_ours { IsTrue (M.told marks.now) → IsMarksFile catalogue.digest (M.state marks.now).seen }
    ensures opens { IfOk result (λ f. OpensFollower catalogue clock (change_of D.told D.state D.faults disk.entry.now f.cabinet.file.disk.disk.now) (change_of M.told M.state M.faults marks.entry.now f.feed.file.disk.disk.now) f.cabinet.state f.feed.stand) }
    ensures known { IfOk result (λ f. IsKnown f.cabinet.state) }
    ensures settled { IfOk result (λ f. IsSettled f.cabinet.file.journal) }
    ensures digest { IfOk result (λ f. digest_of f.feed.file.journal ≡ catalogue.digest) }
    ensures told { IfOk result (λ f. D.told f.cabinet.file.disk.disk.now ≡ D.told disk.entry.now) }
    ensures marks_told { IfOk result (λ f. M.told f.feed.file.disk.disk.now ≡ M.told marks.entry.now) }
    ensures later { IfOk result (λ f. D.faults disk.entry.now ≤ D.faults f.cabinet.file.disk.disk.now) }
    ensures marks_later { IfOk result (λ f. M.faults marks.entry.now ≤ M.faults f.feed.file.disk.disk.now) }
    ensures refuses { IfErr result (λ r. RefusesFollower catalogue clock (change_of D.told D.state D.faults disk.entry.now r.cache.now) (change_of M.told M.state M.faults marks.entry.now r.marks.now) (r.marks.now ≡ marks.entry.now) r.cause) }
    ensures refused_leaves { IfErr result (λ r. OpeningLeaves catalogue (change_of D.told D.state D.faults disk.entry.now r.cache.now)) }
    ensures refused_quiet { IfErr result (λ r. IsQuiet (change_of M.told M.state M.faults marks.entry.now r.marks.now)) }
    ensures refused_told { IfErr result (λ r. D.told r.cache.now ≡ D.told disk.entry.now) }
    ensures refused_marks_told { IfErr result (λ r. M.told r.marks.now ≡ M.told marks.entry.now) }
    ensures refused_later { IfErr result (λ r. D.faults disk.entry.now ≤ D.faults r.cache.now) }
    ensures refused_marks_later { IfErr result (λ r. M.faults marks.entry.now ≤ M.faults r.marks.now) }
    ensures refused_loan { IfErr result (λ r. r.cache.ghost_name ≡ A.disk) }
    ensures refused_marks_loan { IfErr result (λ r. r.marks.ghost_name ≡ B.disk) }
{
    match opened_cabinet::<D, A>(alloc, catalogue, clock, disk) {
        Ok(cabinet) => {
            cabinet.known();
            match opened_feed::<M, B>(alloc, cabinet.catalogue(), marks) {
                Ok(feed) => Ok(Follower { cabinet, feed }),
                Err(refusal) => {
                    let (cause, marks) = refusal;
                    let cache = close_cache(cabinet);
                    Err(Unfollowed {
                        cause,
                        cache,
                        marks,
                    })
                }
            }
        }
        Err(refusal) => {
            let (cause, cache) = refusal;
            Err(Unfollowed {
                cause,
                cache,
                marks,
            })
        }
    }
}

/// Opens the follower and then the outbox of a twin, between which nothing was sent. Where a file is refused those before it are closed
/// again. A refusal hands the three loans back.
pub(crate) fn opened_twin<'d, 'm, 'o, D: Disk, M: Disk, N: Disk, A: Loan, B: Loan, C: Loan>(
    alloc: Global,
    catalogue: Catalogue,
    clock: Clock,
    disk: &'d mut D,
    marks: &'m mut M,
    outbox: &'o mut N,
) -> Result<
    Twin<Cabinet<LentDisk<'d, D, A>>, LentDisk<'m, M, B>, LentDisk<'o, N, C>>,
    Unopened<'d, 'm, 'o, D, M, N>,
>
    requires valid { IsValid catalogue }
    requires loan { disk.ghost_name ≡ A.disk }
    requires marks_loan { marks.ghost_name ≡ B.disk }
    requires outbox_loan { outbox.ghost_name ≡ C.disk }
    requires ours { IsTrue (D.told disk.now) → IsOurs catalogue (D.state disk.now).seen }
    requires marks_ours { IsTrue (M.told marks.now) → IsMarksFile catalogue.digest (M.state marks.now).seen }
    requires outbox_ours { IsTrue (N.told outbox.now) → IsOutboxFile catalogue (N.state outbox.now).seen }
    ensures opens { IfOk result (λ t. OpensTwin catalogue clock (change_of D.told D.state D.faults disk.entry.now t.cabinet.file.disk.disk.now) (change_of M.told M.state M.faults marks.entry.now t.feed.file.disk.disk.now) (change_of N.told N.state N.faults outbox.entry.now t.outbox.file.disk.disk.now) (standing t.outbox.out t.feed.stand t.cabinet.state t.sent.items)) }
    ensures ready { IfOk result (λ t. IsTwinReady catalogue (standing t.outbox.out t.feed.stand t.cabinet.state t.sent.items)) }
    ensures catalogue { IfOk result (λ t. t.outbox.catalogue ≡ catalogue) }
    ensures known { IfOk result (λ t. IsKnown t.cabinet.state) }
    ensures settled { IfOk result (λ t. IsSettled t.cabinet.file.journal) }
    ensures digest { IfOk result (λ t. digest_of t.feed.file.journal ≡ catalogue.digest) }
    ensures told { IfOk result (λ t. D.told t.cabinet.file.disk.disk.now ≡ D.told disk.entry.now) }
    ensures marks_told { IfOk result (λ t. M.told t.feed.file.disk.disk.now ≡ M.told marks.entry.now) }
    ensures outbox_told { IfOk result (λ t. N.told t.outbox.file.disk.disk.now ≡ N.told outbox.entry.now) }
    ensures later { IfOk result (λ t. D.faults disk.entry.now ≤ D.faults t.cabinet.file.disk.disk.now) }
    ensures marks_later { IfOk result (λ t. M.faults marks.entry.now ≤ M.faults t.feed.file.disk.disk.now) }
    ensures outbox_later { IfOk result (λ t. N.faults outbox.entry.now ≤ N.faults t.outbox.file.disk.disk.now) }
    ensures refuses { IfErr result (λ r. RefusesTwin catalogue clock (change_of D.told D.state D.faults disk.entry.now r.disks.cache.now) (change_of M.told M.state M.faults marks.entry.now r.disks.marks.now) (change_of N.told N.state N.faults outbox.entry.now r.disks.outbox.now) (r.disks.marks.now ≡ marks.entry.now) (r.disks.outbox.now ≡ outbox.entry.now) r.cause) }
    ensures refused_leaves { IfErr result (λ r. OpeningLeaves catalogue (change_of D.told D.state D.faults disk.entry.now r.disks.cache.now)) }
    ensures refused_told { IfErr result (λ r. D.told r.disks.cache.now ≡ D.told disk.entry.now) }
    ensures refused_marks_told { IfErr result (λ r. M.told r.disks.marks.now ≡ M.told marks.entry.now) }
    ensures refused_outbox_told { IfErr result (λ r. N.told r.disks.outbox.now ≡ N.told outbox.entry.now) }
    ensures refused_loan { IfErr result (λ r. r.disks.cache.ghost_name ≡ A.disk) }
    ensures refused_marks_loan { IfErr result (λ r. r.disks.marks.ghost_name ≡ B.disk) }
    ensures refused_outbox_loan { IfErr result (λ r. r.disks.outbox.ghost_name ≡ C.disk) }
{
    match opened_follower::<D, M, A, B>(alloc, catalogue, clock, disk, marks) {
        Ok(follower) => {
            let Follower { cabinet, feed } = follower;
            match opened_outbox::<N, C>(alloc, cabinet.catalogue(), outbox) {
                Ok(outbox) => Ok(Twin {
                    cabinet,
                    feed,
                    outbox,
                    sent: Vec::new(alloc),
                }),
                Err(refusal) => {
                    let (cause, outbox) = refusal;
                    let cache = close_cache(cabinet);
                    let marks = closed_marks(feed);
                    Err(Unopened {
                        cause,
                        disks: TwinDisks {
                            cache,
                            marks,
                            outbox,
                        },
                    })
                }
            }
        }
        Err(refusal) => {
            let Unfollowed {
                cause,
                cache,
                marks,
            } = refusal;
            Err(Unopened {
                cause,
                disks: TwinDisks {
                    cache,
                    marks,
                    outbox,
                },
            })
        }
    }
}

/// Closes a twin, and hands its three loans back.
pub(crate) fn closed_twin<'d, 'm, 'o, D: Disk, M: Disk, N: Disk, A: Loan, B: Loan, C: Loan>(
    twin: Twin<Cabinet<LentDisk<'d, D, A>>, LentDisk<'m, M, B>, LentDisk<'o, N, C>>,
) -> TwinDisks<'d, 'm, 'o, D, M, N>
    ensures loan { result.cache.ghost_name ≡ A.disk }
    ensures marks_loan { result.marks.ghost_name ≡ B.disk }
    ensures outbox_loan { result.outbox.ghost_name ≡ C.disk }
    ensures same { result.cache.now ≡ twin.entry.cabinet.file.disk.disk.now }
    ensures marks_same { result.marks.now ≡ twin.entry.feed.file.disk.disk.now }
    ensures outbox_same { result.outbox.now ≡ twin.entry.outbox.file.disk.disk.now }
    ensures closed { IsCacheClosed (D.told result.cache.now) twin.entry.cabinet.file.journal (D.state result.cache.now) twin.entry.cabinet.state }
    ensures marks { IsTrue (M.told result.marks.now) → Every (M.state result.marks.now).may_leave (MayEndIn (digest_of twin.entry.feed.file.journal) twin.entry.feed.stand) }
    ensures outbox { IsTrue (N.told result.outbox.now) → Every (N.state result.outbox.now).may_leave (MayOpenTo twin.entry.outbox.catalogue twin.entry.outbox.out) }
{
    let Twin {
        cabinet,
        feed,
        outbox,
        ..
    } = twin;
    TwinDisks {
        cache: close_cache(cabinet),
        marks: closed_marks(feed),
        outbox: closed_outbox(outbox),
    }
}
