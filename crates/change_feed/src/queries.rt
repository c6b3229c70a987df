//! What a feed tells of itself.
ghost use Rattle.std.specs.Option.{option_map};
ghost use Rattle.std.specs.Prelude.{◌≡◌, IsTrue};
ghost use Rattle.change_feed.specs.Applies.{IsJudged};
ghost use Rattle.change_feed.specs.Files.{EndsIn, IsBehind, MayEndIn};
ghost use Rattle.change_feed.specs.Marks.{last_of};
ghost use Rattle.disk_model.specs.Images.{Every};
ghost use Rattle.gate_journal.specs.Sound.{IsSettled, digest_of};

use crate::applied::JudgedChange;
use crate::feed::Feed;
use crate::reader::number_of;
use disk_model::Disk;

impl<D: Disk> Feed<D> {
    /// The number of the last change that was made and marked; 0 at first.
    pub fn last(&self) -> u64
        ensures { result ≡ last_of self.now.stand.mark }
    {
        number_of(&self.mark)
    }

    /// The number of the cut that the last change was made with; `None` at first.
    pub fn last_cut(&self) -> Option<u64>
        ensures { result ≡ option_map (λ m. m.cut) self.now.stand.mark }
    {
        match self.mark {
            Some(mark) => Some(mark.cut),
            None => None,
        }
    }

    /// What a change of this number comes to: it was made already, a change before it wasn't, or it is the next.
    pub fn judge(&self, number: u64) -> JudgedChange
        ensures { IsJudged self.now.stand.mark number result }
    {
        let last = self.last();
        if number <= last {
            return JudgedChange::Repeated;
        }
        if number - last > 1 {
            return JudgedChange::Gap(last);
        }
        JudgedChange::Next
    }

    /// How often the disk of its marks has failed.
    pub fn fault_count(&self) -> u64
        ensures { result ≡ D.faults self.now.file.disk }
    {
        self.file.fault_count()
    }

    /// What a crash now leaves, where the disk is modelled: each image ends in the mark, or in the one that a call may have left that
    /// failed; where none has failed since the last one that succeeded, in the mark alone. The undecided mark has the next number.
    pub fn images(&self)
        ensures each { IsTrue (D.told self.now.file.disk) → Every (D.state self.now.file.disk).may_leave (MayEndIn (digest_of self.now.file.journal) self.now.stand) }
        ensures settled { IsTrue (D.told self.now.file.disk) → IsSettled self.now.file.journal → Every (D.state self.now.file.disk).may_leave (EndsIn (digest_of self.now.file.journal) self.now.stand.mark) }
        ensures behind { IsBehind self.now.stand.mark self.now.stand.undecided }
    {
        let _ = &self.file;
    }
}
