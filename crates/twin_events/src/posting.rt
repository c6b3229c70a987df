//! A cover is posted.
ghost use Rattle.std.specs.Prelude.{◌≡◌, ◌≤◌, ◌∷◌, [], IfOk, IsTrue, OnErr};
ghost use Rattle.cut_follower.specs.Lossy.{posted};
ghost use Rattle.disk_model.specs.Images.{Leaves};
ghost use Rattle.outbox.specs.Posts.{Posts};
ghost use Rattle.served_covers.specs.OfCatalogue.{IsCoverOf};
ghost use Rattle.twin_events.specs.Twins.{IsTwinReady, LeadsBy, MayOpenBehind, standing};

use crate::twin::Twin;
use cabinet::Keeper;
use disk_model::Disk;
use outbox::Posted;
use std::alloc::{AllocError, Global};
use truncation_list::Cover;

impl<K: Keeper, M: Disk, N: Disk> Twin<K, M, N> {
    /// Posts a cover of the catalogue at the leader: it is the next change. What becomes of it, `Posted` says: `Full` exactly where there
    /// are 65,536 posts, and a fault of the disk only where the count of the outbox's disk rose.
    ///
    /// At every moment each image of the outbox opens to the posts from before the call, to these and the one that a call may have left
    /// that failed, or to these and this one. `AllocError` where memory runs out; nothing has then changed.
    pub fn post(&mut self, alloc: Global, cover: &Cover) -> Result<Posted, AllocError>
        requires ready { IsTwinReady self.old.outbox.catalogue (standing self.old.outbox.out self.old.feed.stand (K.state self.old.cabinet) self.old.sent.items) }
        requires cover { IsCoverOf self.old.outbox.catalogue cover.now }
        ensures row { IfOk result (λ reply. Posts self.old.outbox.out (N.faults self.old.outbox.file.disk) cover.now reply self.new.outbox.out (N.faults self.new.outbox.file.disk)) }
        ensures leads { IfOk result (λ reply. LeadsBy (posted cover.now reply ∷ [])
            (standing self.old.outbox.out self.old.feed.stand (K.state self.old.cabinet) self.old.sent.items)
            (standing self.new.outbox.out self.new.feed.stand (K.state self.new.cabinet) self.new.sent.items)) }
        ensures err { OnErr result (self.new ≡ self.old) }
        ensures ready { IsTwinReady self.new.outbox.catalogue (standing self.new.outbox.out self.new.feed.stand (K.state self.new.cabinet) self.new.sent.items) }
        ensures catalogue { self.new.outbox.catalogue ≡ self.old.outbox.catalogue }
        ensures cabinet { self.new.cabinet ≡ self.old.cabinet }
        ensures feed { self.new.feed ≡ self.old.feed }
        ensures sent { self.new.sent ≡ self.old.sent }
        ensures told { N.told self.new.outbox.file.disk ≡ N.told self.old.outbox.file.disk }
        ensures later { N.faults self.old.outbox.file.disk ≤ N.faults self.new.outbox.file.disk }
        ensures posts { IsTrue (N.told self.old.outbox.file.disk) → Leaves (N.state self.old.outbox.file.disk) (N.state self.new.outbox.file.disk)
            (MayOpenBehind self.old.outbox.catalogue self.old.outbox.out cover.now) }
    {
        self.outbox.post(alloc, cover)
    }
}
