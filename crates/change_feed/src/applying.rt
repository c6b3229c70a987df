//! How a change is made: what it comes to by its number, the file made ready, the cut, and the mark.
ghost use Rattle.std.specs.Prelude.{◌≡◌, ◌⊎◌, ◌+◌, ◌≤◌, ℕ, IfOk, IsTrue, None, OnErr, Some};
ghost use Rattle.cabinet.specs.State.{IsSound};
ghost use Rattle.change_feed.specs.Applies.{Applies, AppliesNext, IsMarkedAs, MayEndAfter, decided, mark_for};
ghost use Rattle.change_feed.specs.Files.{EndsIn, IsReady, MayEndIn};
ghost use Rattle.change_feed.specs.Marks.{last_of};
ghost use Rattle.change_feed.specs.declared.applied.Applied.TheVariants as applied;
ghost use Rattle.disk_model.specs.Images.{Every, Leaves};
ghost use Rattle.gate_journal.specs.Sound.{digest_of};
ghost use Rattle.served_covers.specs.OfCatalogue.{IsCoverOf};

use crate::applied::{Applied, JudgedChange};
use crate::change::Change;
use crate::feed::Feed;
use crate::mark::Mark;
use cabinet::{CutReply, Keeper};
use disk_model::Disk;
use std::alloc::{AllocError, Global};

impl<D: Disk> Feed<D> {
    /// Marks a change of which the cut was done.
    fn mark_change(&mut self, change: &Change, cut: u64) -> Applied
        requires ready { IsReady self.old.file.journal }
        requires next { change.now.number ≡ last_of self.old.stand.mark + 1 }
        ensures told { D.told self.new.file.disk ≡ D.told self.old.file.disk }
        ensures digest { digest_of self.new.file.journal ≡ digest_of self.old.file.journal }
        ensures marks { IsMarkedAs self.old.stand (D.faults self.old.file.disk) change.now cut result self.new.stand (D.faults self.new.file.disk) }
        ensures images { IsTrue (D.told self.old.file.disk) → Leaves (D.state self.old.file.disk) (D.state self.new.file.disk) (MayEndAfter (digest_of self.old.file.journal) self.old.stand change.now result) }
        ensures done { IsTrue (D.told self.old.file.disk) → (k : ℕ) → result ≡ applied.Done k → Every (D.state self.new.file.disk).may_leave (EndsIn (digest_of self.old.file.journal) (Some (mark_for change.now k))) }
        ensures later { D.faults self.old.file.disk ≤ D.faults self.new.file.disk }
    {
        let mark = Mark {
            number: change.number,
            cut,
        };
        match self.mark(mark) {
            Err(_) => Applied::FeedFault(Some(cut)),
            Ok(()) => Applied::Done(cut),
        }
    }

    /// Makes the cut of the next change, and marks it where the cut was done.
    fn cut_and_mark<C: Keeper>(
        &mut self,
        alloc: Global,
        cabinet: &mut C,
        change: &Change,
    ) -> Result<Applied, AllocError>
        requires ready { IsReady self.old.file.journal }
        requires next { change.now.number ≡ last_of self.old.stand.mark + 1 }
        requires sure { self.old.stand.undecided ≡ None }
        requires cover { IsCoverOf (C.state cabinet.old).catalogue change.now.cover }
        ensures told { D.told self.new.file.disk ≡ D.told self.old.file.disk }
        ensures digest { digest_of self.new.file.journal ≡ digest_of self.old.file.journal }
        ensures applies { IfOk result (λ reply. AppliesNext
            (record { stand = self.old.stand; faults = D.faults self.old.file.disk; cabinet = C.state cabinet.old; cabinet_faults = C.faults cabinet.old })
            change.now reply
            (record { stand = self.new.stand; faults = D.faults self.new.file.disk; cabinet = C.state cabinet.new; cabinet_faults = C.faults cabinet.new })) }
        ensures err { OnErr result ((C.state cabinet.new ≡ C.state cabinet.old) × (self.new ≡ self.old)) }
        ensures images { IsTrue (D.told self.old.file.disk) → IfOk result (λ reply. Leaves (D.state self.old.file.disk) (D.state self.new.file.disk) (MayEndAfter (digest_of self.old.file.journal) self.old.stand change.now reply)) }
        ensures done { IsTrue (D.told self.old.file.disk) → IfOk result (λ reply. (k : ℕ) → reply ≡ applied.Done k → Every (D.state self.new.file.disk).may_leave (EndsIn (digest_of self.old.file.journal) (Some (mark_for change.now k)))) }
        ensures later { D.faults self.old.file.disk ≤ D.faults self.new.file.disk }
        ensures cabinet_later { C.faults cabinet.old ≤ C.faults cabinet.new }
        ensures still_sound { IsSound (C.state cabinet.old) → IsSound (C.state cabinet.new) }
        ensures lasts { C.outlasts cabinet.old cabinet.new }
    {
        match cabinet.cut(alloc, &change.cover) {
            Err(fault) => Err(fault),
            Ok(CutReply::Spent) => Ok(Applied::Spent),
            Ok(CutReply::Full) => Ok(Applied::Full),
            Ok(CutReply::DiskFault(before, after)) => Ok(Applied::DiskFault(before, after)),
            Ok(CutReply::Done(cut)) => Ok(self.mark_change(change, cut)),
        }
    }

    /// Makes the next change.
    fn apply_next<C: Keeper>(
        &mut self,
        alloc: Global,
        cabinet: &mut C,
        change: &Change,
    ) -> Result<Applied, AllocError>
        requires next { change.now.number ≡ last_of self.old.stand.mark + 1 }
        requires cover { IsCoverOf (C.state cabinet.old).catalogue change.now.cover }
        ensures told { D.told self.new.file.disk ≡ D.told self.old.file.disk }
        ensures digest { digest_of self.new.file.journal ≡ digest_of self.old.file.journal }
        ensures applies { IfOk result (λ reply. Applies
            (record { stand = self.old.stand; faults = D.faults self.old.file.disk; cabinet = C.state cabinet.old; cabinet_faults = C.faults cabinet.old })
            change.now reply
            (record { stand = self.new.stand; faults = D.faults self.new.file.disk; cabinet = C.state cabinet.new; cabinet_faults = C.faults cabinet.new })) }
        ensures err { OnErr result ((C.state cabinet.new ≡ C.state cabinet.old) × (self.new.stand ≡ decided self.old.stand)) }
        ensures images { IsTrue (D.told self.old.file.disk) → IfOk result (λ reply. Leaves (D.state self.old.file.disk) (D.state self.new.file.disk) (MayEndAfter (digest_of self.old.file.journal) self.old.stand change.now reply)) }
        ensures err_images { IsTrue (D.told self.old.file.disk) → OnErr result (Leaves (D.state self.old.file.disk) (D.state self.new.file.disk) (MayEndIn (digest_of self.old.file.journal) self.old.stand)) }
        ensures done { IsTrue (D.told self.old.file.disk) → IfOk result (λ reply. (k : ℕ) → reply ≡ applied.Done k → Every (D.state self.new.file.disk).may_leave (EndsIn (digest_of self.old.file.journal) (Some (mark_for change.now k)))) }
        ensures later { D.faults self.old.file.disk ≤ D.faults self.new.file.disk }
        ensures cabinet_later { C.faults cabinet.old ≤ C.faults cabinet.new }
        ensures still_sound { IsSound (C.state cabinet.old) → IsSound (C.state cabinet.new) }
        ensures lasts { C.outlasts cabinet.old cabinet.new }
    {
        match self.ready() {
            Err(_) => Ok(Applied::FeedFault(None)),
            Ok(()) => self.cut_and_mark(alloc, cabinet, change),
        }
    }

    /// Makes a change on a cabinet, of whose catalogue its cover is, once: where its number is the next, the file of marks is made ready,
    /// the truncation is done, and the change is marked.
    ///
    /// What becomes of it, `Applied` says; the first of these comes that can. At every moment each image of the marks ends in the mark
    /// from before the call, in the one that a call may have left that failed, or, where the cut was done, in the mark of this change.
    /// After `Done` each image ends in its mark. `AllocError` where memory runs out; the cabinet and the last change are then as before.
    pub fn apply<C: Keeper>(
        &mut self,
        alloc: Global,
        cabinet: &mut C,
        change: &Change,
    ) -> Result<Applied, AllocError>
        requires cover { IsCoverOf (C.state cabinet.old).catalogue change.now.cover }
        ensures told { D.told self.new.file.disk ≡ D.told self.old.file.disk }
        ensures digest { digest_of self.new.file.journal ≡ digest_of self.old.file.journal }
        ensures applies { IfOk result (λ reply. Applies
            (record { stand = self.old.stand; faults = D.faults self.old.file.disk; cabinet = C.state cabinet.old; cabinet_faults = C.faults cabinet.old })
            change.now reply
            (record { stand = self.new.stand; faults = D.faults self.new.file.disk; cabinet = C.state cabinet.new; cabinet_faults = C.faults cabinet.new })) }
        ensures err { OnErr result ((C.state cabinet.new ≡ C.state cabinet.old) × (self.new.stand ≡ decided self.old.stand)) }
        ensures images { IsTrue (D.told self.old.file.disk) → IfOk result (λ reply. Leaves (D.state self.old.file.disk) (D.state self.new.file.disk) (MayEndAfter (digest_of self.old.file.journal) self.old.stand change.now reply)) }
        ensures err_images { IsTrue (D.told self.old.file.disk) → OnErr result (Leaves (D.state self.old.file.disk) (D.state self.new.file.disk) (MayEndIn (digest_of self.old.file.journal) self.old.stand)) }
        ensures done { IsTrue (D.told self.old.file.disk) → IfOk result (λ reply. (k : ℕ) → reply ≡ applied.Done k → Every (D.state self.new.file.disk).may_leave (EndsIn (digest_of self.old.file.journal) (Some (mark_for change.now k)))) }
        ensures later { D.faults self.old.file.disk ≤ D.faults self.new.file.disk }
        ensures cabinet_later { C.faults cabinet.old ≤ C.faults cabinet.new }
        ensures still_sound { IsSound (C.state cabinet.old) → IsSound (C.state cabinet.new) }
        ensures lasts { C.outlasts cabinet.old cabinet.new }
    {
        match self.judge(change.number) {
            JudgedChange::Repeated => Ok(Applied::Repeated),
            JudgedChange::Gap(last) => Ok(Applied::Gap(last)),
            JudgedChange::Next => self.apply_next(alloc, cabinet, change),
        }
    }
}
