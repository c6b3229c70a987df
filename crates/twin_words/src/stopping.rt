//! A stop of either side of a twin: its files are closed and opened again.
ghost use Rattle.std.specs.Prelude.{◌≡◌, ◌≤◌, ℕ, IfErr, IfOk, Option};
ghost use Rattle.gate_journal.specs.Sound.{IsSettled, digest_of};
ghost use Rattle.twin_events.specs.Twins.{IsTwinReady, standing};
ghost use Rattle.twin_lines.specs.Steps.{faults, moment};
ghost use Rattle.twin_lines.specs.declared.order.LinkSide.TheVariants as sides;
ghost use Rattle.twin_words.specs.Made.{change_of};
ghost use Rattle.twin_words.specs.Opens.{Restarts, StaysClosed};

use crate::cabinets::{Closed, closed_with_clock};
use crate::disks::{TwinDisks, Unfollowed, Unopened};
use crate::opening::{Follower, closed_twin, opened_follower};
use cabinet::Keeper;
use change_feed::laws_of_marks;
use disk_model::Disk;
use durable_cabinet::Cabinet;
use feed_words::{closed_marks, closed_outbox, opened_outbox};
use gate_journal::OpenFault;
use opened_cache::{LentDisk, Loan, close_cache};
use outbox::laws_of_outboxes;
use std::alloc::Global;
use twin_events::Twin;
use twin_lines::LinkSide;

/// Closes the outbox of a twin and opens it again: it has its posts, or these and the one that was undecided, and has heard nothing. A
/// refusal closes the twin.
fn restarted_leader<'d, 'm, 'o, D: Disk, M: Disk, N: Disk, A: Loan, B: Loan, C: Loan>(
    alloc: Global,
    twin: Twin<Cabinet<LentDisk<'d, D, A>>, LentDisk<'m, M, B>, LentDisk<'o, N, C>>,
) -> Result<
    Twin<Cabinet<LentDisk<'d, D, A>>, LentDisk<'m, M, B>, LentDisk<'o, N, C>>,
    Unopened<'d, 'm, 'o, D, M, N>,
>
    requires ready { IsTwinReady twin.outbox.catalogue (standing twin.outbox.out twin.feed.stand twin.cabinet.state twin.sent.items) }
    requires digest { digest_of twin.feed.file.journal ≡ twin.outbox.catalogue.digest }
    ensures restarts { IfOk result (λ t. (source : Option ℕ) (failed : ℕ) → Restarts twin.entry.outbox.catalogue source (change_of D.told D.state D.faults twin.entry.cabinet.file.disk.disk.now t.cabinet.file.disk.disk.now) (change_of M.told M.state M.faults twin.entry.feed.file.disk.disk.now t.feed.file.disk.disk.now) (change_of N.told N.state N.faults twin.entry.outbox.file.disk.disk.now t.outbox.file.disk.disk.now)
        (IsSettled twin.entry.cabinet.file.journal) (IsSettled t.cabinet.file.journal) sides.Leader
        (moment (standing twin.entry.outbox.out twin.entry.feed.stand twin.entry.cabinet.state twin.entry.sent.items) (faults failed (N.faults twin.entry.outbox.file.disk.disk.now) (M.faults twin.entry.feed.file.disk.disk.now) (D.faults twin.entry.cabinet.file.disk.disk.now)))
        (moment (standing t.outbox.out t.feed.stand t.cabinet.state t.sent.items) (faults failed (N.faults t.outbox.file.disk.disk.now) (M.faults t.feed.file.disk.disk.now) (D.faults t.cabinet.file.disk.disk.now)))) }
    ensures ready { IfOk result (λ t. IsTwinReady t.outbox.catalogue (standing t.outbox.out t.feed.stand t.cabinet.state t.sent.items)) }
    ensures catalogue { IfOk result (λ t. t.outbox.catalogue ≡ twin.entry.outbox.catalogue) }
    ensures digest { IfOk result (λ t. digest_of t.feed.file.journal ≡ digest_of twin.entry.feed.file.journal) }
    ensures told { IfOk result (λ t. D.told t.cabinet.file.disk.disk.now ≡ D.told twin.entry.cabinet.file.disk.disk.now) }
    ensures marks_told { IfOk result (λ t. M.told t.feed.file.disk.disk.now ≡ M.told twin.entry.feed.file.disk.disk.now) }
    ensures outbox_told { IfOk result (λ t. N.told t.outbox.file.disk.disk.now ≡ N.told twin.entry.outbox.file.disk.disk.now) }
    ensures closed { IfErr result (λ r. (failed : ℕ) → StaysClosed twin.entry.outbox.catalogue (change_of D.told D.state D.faults twin.entry.cabinet.file.disk.disk.now r.disks.cache.now) (change_of M.told M.state M.faults twin.entry.feed.file.disk.disk.now r.disks.marks.now) (change_of N.told N.state N.faults twin.entry.outbox.file.disk.disk.now r.disks.outbox.now) sides.Leader
        (moment (standing twin.entry.outbox.out twin.entry.feed.stand twin.entry.cabinet.state twin.entry.sent.items) (faults failed (N.faults twin.entry.outbox.file.disk.disk.now) (M.faults twin.entry.feed.file.disk.disk.now) (D.faults twin.entry.cabinet.file.disk.disk.now))) r.cause) }
    ensures refused_told { IfErr result (λ r. D.told r.disks.cache.now ≡ D.told twin.entry.cabinet.file.disk.disk.now) }
    ensures refused_marks_told { IfErr result (λ r. M.told r.disks.marks.now ≡ M.told twin.entry.feed.file.disk.disk.now) }
    ensures refused_outbox_told { IfErr result (λ r. N.told r.disks.outbox.now ≡ N.told twin.entry.outbox.file.disk.disk.now) }
    ensures refused_later { IfErr result (λ r. D.faults twin.entry.cabinet.file.disk.disk.now ≤ D.faults r.disks.cache.now) }
    ensures refused_marks_later { IfErr result (λ r. M.faults twin.entry.feed.file.disk.disk.now ≤ M.faults r.disks.marks.now) }
    ensures refused_outbox_later { IfErr result (λ r. N.faults twin.entry.outbox.file.disk.disk.now ≤ N.faults r.disks.outbox.now) }
    ensures refused_loan { IfErr result (λ r. r.disks.cache.ghost_name ≡ A.disk) }
    ensures refused_marks_loan { IfErr result (λ r. r.disks.marks.ghost_name ≡ B.disk) }
    ensures refused_outbox_loan { IfErr result (λ r. r.disks.outbox.ghost_name ≡ C.disk) }
{
    laws_of_outboxes();
    let Twin {
        cabinet,
        feed,
        outbox,
        sent,
    } = twin;
    let disk = closed_outbox(outbox);
    match opened_outbox::<N, C>(alloc, cabinet.catalogue(), disk) {
        Ok(outbox) => Ok(Twin {
            cabinet,
            feed,
            outbox,
            sent,
        }),
        Err(refusal) => {
            let (cause, outbox) = refusal;
            Err(Unopened {
                cause,
                disks: TwinDisks {
                    cache: close_cache(cabinet),
                    marks: closed_marks(feed),
                    outbox,
                },
            })
        }
    }
}

/// Closes the cabinet and the feed of a twin and opens them again, the cabinet first, with its clock: it goes on from the one that was
/// closed, under a greater number of an opening, and the feed has its last mark, or the one that was undecided. The catalogue is copied
/// before anything is closed. A refusal closes the twin, and so does want of memory.
fn restarted_follower<'d, 'm, 'o, D: Disk, M: Disk, N: Disk, A: Loan, B: Loan, C: Loan>(
    alloc: Global,
    twin: Twin<Cabinet<LentDisk<'d, D, A>>, LentDisk<'m, M, B>, LentDisk<'o, N, C>>,
) -> Result<
    Twin<Cabinet<LentDisk<'d, D, A>>, LentDisk<'m, M, B>, LentDisk<'o, N, C>>,
    Unopened<'d, 'm, 'o, D, M, N>,
>
    requires ready { IsTwinReady twin.outbox.catalogue (standing twin.outbox.out twin.feed.stand twin.cabinet.state twin.sent.items) }
    requires digest { digest_of twin.feed.file.journal ≡ twin.outbox.catalogue.digest }
    ensures restarts { IfOk result (λ t. (source : Option ℕ) (failed : ℕ) → Restarts twin.entry.outbox.catalogue source (change_of D.told D.state D.faults twin.entry.cabinet.file.disk.disk.now t.cabinet.file.disk.disk.now) (change_of M.told M.state M.faults twin.entry.feed.file.disk.disk.now t.feed.file.disk.disk.now) (change_of N.told N.state N.faults twin.entry.outbox.file.disk.disk.now t.outbox.file.disk.disk.now)
        (IsSettled twin.entry.cabinet.file.journal) (IsSettled t.cabinet.file.journal) sides.Follower
        (moment (standing twin.entry.outbox.out twin.entry.feed.stand twin.entry.cabinet.state twin.entry.sent.items) (faults failed (N.faults twin.entry.outbox.file.disk.disk.now) (M.faults twin.entry.feed.file.disk.disk.now) (D.faults twin.entry.cabinet.file.disk.disk.now)))
        (moment (standing t.outbox.out t.feed.stand t.cabinet.state t.sent.items) (faults failed (N.faults t.outbox.file.disk.disk.now) (M.faults t.feed.file.disk.disk.now) (D.faults t.cabinet.file.disk.disk.now)))) }
    ensures ready { IfOk result (λ t. IsTwinReady t.outbox.catalogue (standing t.outbox.out t.feed.stand t.cabinet.state t.sent.items)) }
    ensures catalogue { IfOk result (λ t. t.outbox.catalogue ≡ twin.entry.outbox.catalogue) }
    ensures digest { IfOk result (λ t. digest_of t.feed.file.journal ≡ digest_of twin.entry.feed.file.journal) }
    ensures told { IfOk result (λ t. D.told t.cabinet.file.disk.disk.now ≡ D.told twin.entry.cabinet.file.disk.disk.now) }
    ensures marks_told { IfOk result (λ t. M.told t.feed.file.disk.disk.now ≡ M.told twin.entry.feed.file.disk.disk.now) }
    ensures outbox_told { IfOk result (λ t. N.told t.outbox.file.disk.disk.now ≡ N.told twin.entry.outbox.file.disk.disk.now) }
    ensures closed { IfErr result (λ r. (failed : ℕ) → StaysClosed twin.entry.outbox.catalogue (change_of D.told D.state D.faults twin.entry.cabinet.file.disk.disk.now r.disks.cache.now) (change_of M.told M.state M.faults twin.entry.feed.file.disk.disk.now r.disks.marks.now) (change_of N.told N.state N.faults twin.entry.outbox.file.disk.disk.now r.disks.outbox.now) sides.Follower
        (moment (standing twin.entry.outbox.out twin.entry.feed.stand twin.entry.cabinet.state twin.entry.sent.items) (faults failed (N.faults twin.entry.outbox.file.disk.disk.now) (M.faults twin.entry.feed.file.disk.disk.now) (D.faults twin.entry.cabinet.file.disk.disk.now))) r.cause) }
    ensures refused_told { IfErr result (λ r. D.told r.disks.cache.now ≡ D.told twin.entry.cabinet.file.disk.disk.now) }
    ensures refused_marks_told { IfErr result (λ r. M.told r.disks.marks.now ≡ M.told twin.entry.feed.file.disk.disk.now) }
    ensures refused_outbox_told { IfErr result (λ r. N.told r.disks.outbox.now ≡ N.told twin.entry.outbox.file.disk.disk.now) }
    ensures refused_later { IfErr result (λ r. D.faults twin.entry.cabinet.file.disk.disk.now ≤ D.faults r.disks.cache.now) }
    ensures refused_marks_later { IfErr result (λ r. M.faults twin.entry.feed.file.disk.disk.now ≤ M.faults r.disks.marks.now) }
    ensures refused_outbox_later { IfErr result (λ r. N.faults twin.entry.outbox.file.disk.disk.now ≤ N.faults r.disks.outbox.now) }
    ensures refused_loan { IfErr result (λ r. r.disks.cache.ghost_name ≡ A.disk) }
    ensures refused_marks_loan { IfErr result (λ r. r.disks.marks.ghost_name ≡ B.disk) }
    ensures refused_outbox_loan { IfErr result (λ r. r.disks.outbox.ghost_name ≡ C.disk) }
{
    laws_of_marks();
    match twin.cabinet.catalogue().copy(alloc) {
        Ok(catalogue) => {
            let Twin {
                cabinet,
                feed,
                outbox,
                sent,
            } = twin;
            let Closed { disk, clock } = closed_with_clock(cabinet);
            let marks = closed_marks(feed);
            match opened_follower::<D, M, A, B>(alloc, catalogue, clock, disk, marks) {
                Ok(follower) => {
                    let Follower { cabinet, feed } = follower;
                    Ok(Twin {
                        cabinet,
                        feed,
                        outbox,
                        sent,
                    })
                }
                Err(refusal) => {
                    let Unfollowed {
                        cause,
                        cache,
                        marks,
                    } = refusal;
                    let outbox = closed_outbox(outbox);
                    Err(Unopened {
                        cause,
                        disks: TwinDisks {
                            cache,
                            marks,
                            outbox,
                        },
                    })
                }
            }
        }
        Err(_) => Err(Unopened {
            cause: OpenFault::OutOfMemory,
            disks: closed_twin(twin),
        }),
    }
}

/// Closes a side of a twin and opens it again. A refusal closes the twin.
pub(crate) fn restart_side<'d, 'm, 'o, D: Disk, M: Disk, N: Disk, A: Loan, B: Loan, C: Loan>(
    alloc: Global,
    twin: Twin<Cabinet<LentDisk<'d, D, A>>, LentDisk<'m, M, B>, LentDisk<'o, N, C>>,
    side: LinkSide,
) -> Result<
    Twin<Cabinet<LentDisk<'d, D, A>>, LentDisk<'m, M, B>, LentDisk<'o, N, C>>,
    Unopened<'d, 'm, 'o, D, M, N>,
>
    requires ready { IsTwinReady twin.outbox.catalogue (standing twin.outbox.out twin.feed.stand twin.cabinet.state twin.sent.items) }
    requires digest { digest_of twin.feed.file.journal ≡ twin.outbox.catalogue.digest }
    ensures restarts { IfOk result (λ t. (source : Option ℕ) (failed : ℕ) → Restarts twin.entry.outbox.catalogue source (change_of D.told D.state D.faults twin.entry.cabinet.file.disk.disk.now t.cabinet.file.disk.disk.now) (change_of M.told M.state M.faults twin.entry.feed.file.disk.disk.now t.feed.file.disk.disk.now) (change_of N.told N.state N.faults twin.entry.outbox.file.disk.disk.now t.outbox.file.disk.disk.now)
        (IsSettled twin.entry.cabinet.file.journal) (IsSettled t.cabinet.file.journal) side
        (moment (standing twin.entry.outbox.out twin.entry.feed.stand twin.entry.cabinet.state twin.entry.sent.items) (faults failed (N.faults twin.entry.outbox.file.disk.disk.now) (M.faults twin.entry.feed.file.disk.disk.now) (D.faults twin.entry.cabinet.file.disk.disk.now)))
        (moment (standing t.outbox.out t.feed.stand t.cabinet.state t.sent.items) (faults failed (N.faults t.outbox.file.disk.disk.now) (M.faults t.feed.file.disk.disk.now) (D.faults t.cabinet.file.disk.disk.now)))) }
    ensures ready { IfOk result (λ t. IsTwinReady t.outbox.catalogue (standing t.outbox.out t.feed.stand t.cabinet.state t.sent.items)) }
    ensures catalogue { IfOk result (λ t. t.outbox.catalogue ≡ twin.entry.outbox.catalogue) }
    ensures digest { IfOk result (λ t. digest_of t.feed.file.journal ≡ digest_of twin.entry.feed.file.journal) }
    ensures told { IfOk result (λ t. D.told t.cabinet.file.disk.disk.now ≡ D.told twin.entry.cabinet.file.disk.disk.now) }
    ensures marks_told { IfOk result (λ t. M.told t.feed.file.disk.disk.now ≡ M.told twin.entry.feed.file.disk.disk.now) }
    ensures outbox_told { IfOk result (λ t. N.told t.outbox.file.disk.disk.now ≡ N.told twin.entry.outbox.file.disk.disk.now) }
    ensures closed { IfErr result (λ r. (failed : ℕ) → StaysClosed twin.entry.outbox.catalogue (change_of D.told D.state D.faults twin.entry.cabinet.file.disk.disk.now r.disks.cache.now) (change_of M.told M.state M.faults twin.entry.feed.file.disk.disk.now r.disks.marks.now) (change_of N.told N.state N.faults twin.entry.outbox.file.disk.disk.now r.disks.outbox.now) side
        (moment (standing twin.entry.outbox.out twin.entry.feed.stand twin.entry.cabinet.state twin.entry.sent.items) (faults failed (N.faults twin.entry.outbox.file.disk.disk.now) (M.faults twin.entry.feed.file.disk.disk.now) (D.faults twin.entry.cabinet.file.disk.disk.now))) r.cause) }
    ensures refused_told { IfErr result (λ r. D.told r.disks.cache.now ≡ D.told twin.entry.cabinet.file.disk.disk.now) }
    ensures refused_marks_told { IfErr result (λ r. M.told r.disks.marks.now ≡ M.told twin.entry.feed.file.disk.disk.now) }
    ensures refused_outbox_told { IfErr result (λ r. N.told r.disks.outbox.now ≡ N.told twin.entry.outbox.file.disk.disk.now) }
    ensures refused_later { IfErr result (λ r. D.faults twin.entry.cabinet.file.disk.disk.now ≤ D.faults r.disks.cache.now) }
    ensures refused_marks_later { IfErr result (λ r. M.faults twin.entry.feed.file.disk.disk.now ≤ M.faults r.disks.marks.now) }
    ensures refused_outbox_later { IfErr result (λ r. N.faults twin.entry.outbox.file.disk.disk.now ≤ N.faults r.disks.outbox.now) }
    ensures refused_loan { IfErr result (λ r. r.disks.cache.ghost_name ≡ A.disk) }
    ensures refused_marks_loan { IfErr result (λ r. r.disks.marks.ghost_name ≡ B.disk) }
    ensures refused_outbox_loan { IfErr result (λ r. r.disks.outbox.ghost_name ≡ C.disk) }
{
    match side {
        LinkSide::Leader => restarted_leader(alloc, twin),
        LinkSide::Follower => restarted_follower(alloc, twin),
    }
}
