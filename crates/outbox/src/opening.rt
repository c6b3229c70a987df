//! How the file of an outbox is made, and how an outbox is opened from it and closed.
ghost use Rattle.std.specs.Prelude.{◌≡◌, ◌≤◌, [], IfErr, IfOk, IsTrue, None, OnOk};
ghost use Rattle.base.specs.Causes.{HasCause};
ghost use Rattle.catalog.specs.Valid.{IsValid};
ghost use Rattle.disk_model.specs.Content.{Same};
ghost use Rattle.disk_model.specs.Images.{ChangesBy, Every};
ghost use Rattle.gate_journal.specs.Sound.{IsSettled, digest_of};
ghost use Rattle.outbox.specs.Files.{IsOutboxFile, IsRefusedAs, OpensToPosts};
ghost use Rattle.outbox.specs.Opens.{asked_for, disk_of};

use crate::outbox::{Outbox, SLOTS};
use crate::reader::PostReader;
use cache_file::CacheFile;
use catalog::Catalogue;
use disk_model::{Disk, Failed};
use gate_journal::OpenFault;
use std::alloc::Global;
use std::snapshot::Snapshot;

/// The fault with this digest as the one that was asked for.
fn asked_for(digest: &[u8; 32], fault: OpenFault) -> OpenFault
    ensures { result ≡ asked_for digest.now fault }
{
    match fault {
        OpenFault::CatalogueDiffers(found, _) => OpenFault::CatalogueDiffers(found, *digest),
        OpenFault::NotACache => OpenFault::NotACache,
        OpenFault::BadRecord(slot) => OpenFault::BadRecord(slot),
        OpenFault::Spent => OpenFault::Spent,
        OpenFault::DiskFault => OpenFault::DiskFault,
        OpenFault::OutOfMemory => OpenFault::OutOfMemory,
    }
}

impl<D: Disk> Outbox<D> {
    /// Makes the file of an outbox with a catalogue, without posts, in place of what the disk holds. After `Ok` each image of the disk
    /// opens to no posts. `Failed` only where the disk's count of faults rose; nothing is said of what the disk then holds, and `make` is
    /// to be called again.
    pub fn make(catalogue: &Catalogue, disk: &mut D) -> Result<(), Failed>
        ensures told { D.told disk.new ≡ D.told disk.old }
        ensures made { IsTrue (D.told disk.old) → OnOk result (Every (D.state disk.new).may_leave (λ image. OpensToPosts catalogue.now image [])) }
        ensures cause { HasCause (D.faults disk.old) (D.faults disk.new) result }
    {
        cache_file::make(disk, &catalogue.digest, SLOTS)
    }

    /// Opens an outbox from its file, whose posts are of this catalogue: syncs the disk, and reads its posts. None of them was heard as
    /// seen. The disk holds what `make` and outboxes wrote there.
    ///
    /// A refusal hands the disk back: `NotACache` and `CatalogueDiffers` exactly where the disk opens so; `BadRecord`, with the slot of
    /// the first record that isn't a cut of a cover of the catalogue, numbered by its place, exactly where there is one; `DiskFault` only
    /// where the disk's count of faults rose; `OutOfMemory` where memory runs out; never `Spent`. The disk is only read and synced.
    pub fn open(alloc: Global, catalogue: &Catalogue, disk: D) -> Result<Outbox<D>, (OpenFault, D)>
        requires valid { IsValid catalogue.now }
        requires ours { IsTrue (D.told disk) → IsOutboxFile catalogue.now (D.state disk).seen }
        ensures told { D.told (disk_of result) ≡ D.told disk }
        ensures opened { IfOk result (λ o. IsTrue (D.told disk) → OpensToPosts catalogue.now (D.state disk).seen o.out.posts) }
        ensures catalogue { IfOk result (λ o. o.catalogue ≡ catalogue.now) }
        ensures fresh { IfOk result (λ o. (o.out.heard ≡ 0) × (o.out.undecided ≡ None) × IsSettled o.file.journal) }
        ensures digest { IfOk result (λ o. digest_of o.file.journal ≡ catalogue.now.digest) }
        ensures refused { IfErr result (λ r. IsRefusedAs (D.told disk) catalogue.now (D.state disk).seen (D.faults disk) (D.faults r.1) r.0) }
        ensures quiet { IsTrue (D.told disk) → ChangesBy Same (D.state disk) (D.state (disk_of result)) }
        ensures later { D.faults disk ≤ D.faults (disk_of result) }
    {
        let mut reader = PostReader::new(alloc, catalogue);
        match CacheFile::open(alloc, disk, &catalogue.digest, SLOTS, &mut reader) {
            Err((fault, disk)) => {
                drop(reader);
                Err((asked_for(&catalogue.digest, fault), disk))
            }
            Ok(file) => match reader.posts() {
                Ok(posts) => Ok(Outbox {
                    catalogue: Snapshot::of(catalogue),
                    posts,
                    undecided: None,
                    heard: 0,
                    file,
                }),
                Err(slot) => Err((OpenFault::BadRecord(slot), file.into_disk())),
            },
        }
    }

    /// The disk of its file, as it stands.
    pub fn close(self) -> D
        ensures { result ≡ self.file.disk }
    {
        self.file.into_disk()
    }
}
