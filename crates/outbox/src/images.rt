//! What a crash leaves of an outbox.
ghost use Rattle.std.specs.Prelude.{IsTrue};
ghost use Rattle.disk_model.specs.Images.{Every};
ghost use Rattle.gate_journal.specs.Sound.{IsSettled};
ghost use Rattle.outbox.specs.Files.{MayOpenTo, OpensToPosts};

use crate::outbox::Outbox;
use disk_model::Disk;

impl<D: Disk> Outbox<D> {
    /// What a crash now leaves, where the disk is modelled: each image opens to the posts, or to these and the one that a call may have left
    /// that failed; where none has failed since the last one that succeeded, to the posts alone.
    pub fn images(&self)
        ensures each { IsTrue (D.told self.now.file.disk) → Every (D.state self.now.file.disk).may_leave (MayOpenTo self.now.catalogue self.now.out) }
        ensures settled { IsTrue (D.told self.now.file.disk) → IsSettled self.now.file.journal
            → Every (D.state self.now.file.disk).may_leave (λ image. OpensToPosts self.now.catalogue image self.now.out.posts) }
    {
        let _ = &self.file;
    }
}
