//! How the file of marks is made, and how a feed is opened from it and closed.
ghost use Rattle.std.specs.Prelude.{◌≡◌, ◌≤◌, IfErr, IfOk, IsTrue, None, OnOk};
ghost use Rattle.base.specs.Causes.{HasCause};
ghost use Rattle.change_feed.specs.Ends.{marks_of};
ghost use Rattle.change_feed.specs.Files.{EndsIn, IsMarksFile, IsRefusedAs, asked_for};
ghost use Rattle.disk_model.specs.Content.{Same};
ghost use Rattle.disk_model.specs.Images.{ChangesBy, Every};
ghost use Rattle.gate_journal.specs.Sound.{IsSettled, digest_of};

use crate::feed::Feed;
use crate::reader::MarkReader;
use cache_file::CacheFile;
use catalog::Catalogue;
use disk_model::{Disk, Failed};
use gate_journal::OpenFault;
use std::alloc::Global;

/// How many slots a half of the file of marks has.
const SLOTS: u64 = 64;

/// The fault with this digest as the one that was asked for.
fn asked_for(digest: &[u8; 32], fault: OpenFault) -> OpenFault
    ensures { result ≡ asked_for digest.now fault }
{
    match fault {
        OpenFault::CatalogueDiffers(found, _) => OpenFault::CatalogueDiffers(found, *digest),
        OpenFault::NotACache => OpenFault::NotACache,
        OpenFault::BadRecord(slot) => OpenFault::BadRecord(slot),
        OpenFault::Spent => OpenFault::Spent,
        OpenFault::DiskFault => OpenFault::DiskFault,
        OpenFault::OutOfMemory => OpenFault::OutOfMemory,
    }
}

impl<D: Disk> Feed<D> {
    /// Makes the file of marks of a catalogue, with no mark, in place of what the disk holds. After `Ok` each image of the disk opens
    /// to no mark. `Failed` only where the disk's count of faults rose; nothing is said of what the disk then holds, and `make` is to
    /// be called again.
    pub fn make(catalogue: &Catalogue, marks: &mut D) -> Result<(), Failed>
        ensures told { D.told marks.new ≡ D.told marks.old }
        ensures made { IsTrue (D.told marks.old) → OnOk result (Every (D.state marks.new).may_leave (EndsIn catalogue.now.digest None)) }
        ensures cause { HasCause (D.faults marks.old) (D.faults marks.new) result }
    {
        cache_file::make(marks, &catalogue.digest, SLOTS)
    }

    /// Opens a feed from the file of its marks: syncs the disk, and reads its marks. The disk holds what `make` and feeds wrote there.
    ///
    /// A refusal hands the disk back: `NotACache` and `CatalogueDiffers` exactly where the disk opens so; `BadRecord`, with the slot of
    /// the first record that isn't a mark above the one before it, exactly where there is one; `DiskFault` only where the disk's count
    /// of faults rose; `OutOfMemory` where memory runs out; never `Spent`. The disk is only read and synced.
    pub fn open(alloc: Global, catalogue: &Catalogue, marks: D) -> Result<Feed<D>, (OpenFault, D)>
        requires ours { IsTrue (D.told marks) → IsMarksFile catalogue.now.digest (D.state marks).seen }
        ensures told { D.told (marks_of result) ≡ D.told marks }
        ensures opened { IfOk result (λ f. IsTrue (D.told marks) → EndsIn catalogue.now.digest f.stand.mark (D.state marks).seen) }
        ensures settled { IfOk result (λ f. (f.stand.undecided ≡ None) × IsSettled f.file.journal) }
        ensures digest { IfOk result (λ f. digest_of f.file.journal ≡ catalogue.now.digest) }
        ensures refused { IfErr result (λ r. IsRefusedAs (D.told marks) catalogue.now.digest (D.state marks).seen (D.faults marks) (D.faults r.1) r.0) }
        ensures quiet { IsTrue (D.told marks) → ChangesBy Same (D.state marks) (D.state (marks_of result)) }
        ensures later { D.faults marks ≤ D.faults (marks_of result) }
    {
        let mut reader = MarkReader::new();
        match CacheFile::open(alloc, marks, &catalogue.digest, SLOTS, &mut reader) {
            Err((fault, disk)) => {
                drop(reader);
                Err((asked_for(&catalogue.digest, fault), disk))
            }
            Ok(file) => match reader.found() {
                Ok(mark) => Ok(Feed {
                    file,
                    mark,
                    undecided: None,
                }),
                Err(slot) => Err((OpenFault::BadRecord(slot), file.into_disk())),
            },
        }
    }

    /// The disk of its marks, as it stands.
    pub fn close(self) -> D
        ensures { result ≡ self.file.disk }
    {
        self.file.into_disk()
    }
}
