//! How a mark is added to the file of a feed, and how the file is made ready for one.
ghost use Rattle.std.specs.Prelude.{◌≡◌, ◌⊎◌, ◌+◌, ◌<◌, IsTrue, None, OnErr, OnOk, Option, Some};
ghost use Rattle.base.specs.Causes.{HasCause};
ghost use Rattle.cache_file.specs.File.{held};
ghost use Rattle.change_feed.specs.Files.{BringsMark, EndsIn, IsAboveZero, IsReady, MayEndIn};
ghost use Rattle.change_feed.specs.Marks.{EndsAt, last_of, mark_slots};
ghost use Rattle.change_feed.specs.declared.mark.Mark.{Mark};
ghost use Rattle.disk_model.specs.Images.{Every, Leaves};
ghost use Rattle.gate_journal.specs.Sound.{IsAlike, IsSettled, IsSound, digest_of, slots_of};

use crate::bodies::mark_body;
use crate::feed::Feed;
use crate::mark::Mark;
use cache_file::CacheFile;
use disk_model::{Disk, Failed};

/// Makes a file that ends in this mark ready for another one.
fn make_ready<D: Disk>(file: &mut CacheFile<D>, mark: Option<Mark>) -> Result<(), Failed>
    requires slots { slots_of file.old.journal ≡ mark_slots }
    requires above { IsAboveZero mark }
    requires sound { IsTrue (D.told file.old.disk) → IsSound file.old.journal (D.state file.old.disk) }
    ensures told { D.told file.new.disk ≡ D.told file.old.disk }
    ensures alike { IsAlike file.old.journal file.new.journal }
    ensures ok { OnOk result (IsReady file.new.journal) }
    ensures err { OnErr result (¬ IsSettled file.new.journal) }
    ensures brings { IsTrue (D.told file.old.disk) → EndsAt mark (held file.old.journal (D.state file.old.disk))
        → BringsMark mark result file.old.start file.old.journal file.new.journal (D.state file.old.disk) (D.state file.new.disk) }
    ensures cause { HasCause (D.faults file.old.disk) (D.faults file.new.disk) result }
{
    match mark {
        None => file.ready(&[]),
        Some(mark) => file.ready(&[mark_body(mark)]),
    }
}

/// Adds a mark to a file that is ready for one.
fn write_mark<D: Disk>(file: &mut CacheFile<D>, mark: Mark) -> Result<(), Failed>
    requires ready { IsReady file.old.journal }
    requires sound { IsTrue (D.told file.old.disk) → IsSound file.old.journal (D.state file.old.disk) }
    ensures told { D.told file.new.disk ≡ D.told file.old.disk }
    ensures alike { IsAlike file.old.journal file.new.journal }
    ensures ok { OnOk result (IsSettled file.new.journal) }
    ensures err { OnErr result (¬ IsSettled file.new.journal) }
    ensures brings { IsTrue (D.told file.old.disk) → (last : Option Mark) → last_of last < mark.number → EndsAt last (held file.old.journal (D.state file.old.disk))
        → BringsMark (Some mark) result file.old.start file.old.journal file.new.journal (D.state file.old.disk) (D.state file.new.disk) }
    ensures cause { HasCause (D.faults file.old.disk) (D.faults file.new.disk) result }
{
    file.record(&mark_body(mark))
}

impl<D: Disk> Feed<D> {
    /// Makes the file ready for the mark of the next change: settles it where a call has failed, and leaves the last mark alone in it
    /// where it has no room. The last change is as before. `Failed` only where the disk's count of faults rose; what was undecided is
    /// undecided still. At every moment each image ends in the last mark, or in the one that a call may have left that failed.
    pub fn ready(&mut self) -> Result<(), Failed>
        ensures told { D.told self.new.file.disk ≡ D.told self.old.file.disk }
        ensures digest { digest_of self.new.file.journal ≡ digest_of self.old.file.journal }
        ensures ok { OnOk result (IsReady self.new.file.journal × (self.new.stand ≡ record { mark = self.old.stand.mark; undecided = None })) }
        ensures err { OnErr result (self.new.stand ≡ self.old.stand) }
        ensures images { IsTrue (D.told self.old.file.disk) → Leaves (D.state self.old.file.disk) (D.state self.new.file.disk) (MayEndIn (digest_of self.old.file.journal) self.old.stand) }
        ensures cause { HasCause (D.faults self.old.file.disk) (D.faults self.new.file.disk) result }
    {
        match make_ready(&mut self.file, self.mark) {
            Err(fault) => Err(fault),
            Ok(()) => {
                self.undecided = None;
                Ok(())
            }
        }
    }

    /// Marks the next change, of which the cut was done, in a file that is ready. After `Ok` it is the last change, and each image ends
    /// in its mark. `Failed` only where the disk's count of faults rose; the last change is then as before, and the mark is undecided:
    /// some images may end in it. At every moment each image ends in the mark from before or in this one.
    pub fn mark(&mut self, mark: Mark) -> Result<(), Failed>
        requires ready { IsReady self.old.file.journal }
        requires next { mark.number ≡ last_of self.old.stand.mark + 1 }
        ensures told { D.told self.new.file.disk ≡ D.told self.old.file.disk }
        ensures digest { digest_of self.new.file.journal ≡ digest_of self.old.file.journal }
        ensures ok { OnOk result (IsSettled self.new.file.journal × (self.new.stand ≡ record { mark = Some mark; undecided = None })) }
        ensures err { OnErr result (self.new.stand ≡ record { mark = self.old.stand.mark; undecided = Some mark }) }
        ensures images { IsTrue (D.told self.old.file.disk) → Leaves (D.state self.old.file.disk) (D.state self.new.file.disk)
            (λ image. EndsIn (digest_of self.old.file.journal) self.old.stand.mark image ⊎ EndsIn (digest_of self.old.file.journal) (Some mark) image) }
        ensures done { IsTrue (D.told self.old.file.disk) → OnOk result (Every (D.state self.new.file.disk).may_leave (EndsIn (digest_of self.old.file.journal) (Some mark))) }
        ensures cause { HasCause (D.faults self.old.file.disk) (D.faults self.new.file.disk) result }
    {
        match write_mark(&mut self.file, mark) {
            Err(fault) => {
                self.undecided = Some(mark);
                Err(fault)
            }
            Ok(()) => {
                self.mark = Some(mark);
                self.undecided = None;
                Ok(())
            }
        }
    }
}
